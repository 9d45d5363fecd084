//! Answers, octet for octet.

use super::{READER, WRITER};
use crate::*;
use linked_list_allocator::LocalHeap;
use rtps_types::{FragSet, Guid, GuidPrefix, Number, SnSet};
use std::test::Fail;

/// The reader that answers.
const OURS: Guid = Guid {
    prefix: GuidPrefix([0x0b; 12]),
    entity: READER,
};

/// The writer that is answered.
const THEIRS: Guid = Guid {
    prefix: GuidPrefix([0x0a; 12]),
    entity: WRITER,
};

/// The first octets of each answer between these two: header and INFO_DST.
const FRONT: &[u8] = b"\x52\x54\x50\x53\x02\x05\x00\x00\
    \x0b\x0b\x0b\x0b\x0b\x0b\x0b\x0b\x0b\x0b\x0b\x0b\
    \x0e\x01\x0c\x00\
    \x0a\x0a\x0a\x0a\x0a\x0a\x0a\x0a\x0a\x0a\x0a\x0a";

/// A set, a count, and the expected submessage.
const MISSING: [(SnSet, u32, &[u8]); 6] = [
    // three from 1 on
    (
        SnSet {
            base: 1,
            bits: 3,
            words: [0xe000_0000, 0, 0, 0, 0, 0, 0, 0],
        },
        1,
        b"\x06\x01\x1c\x00\
            \x00\x00\x01\x07\x00\x00\x01\x02\
            \x00\x00\x00\x00\x01\x00\x00\x00\
            \x03\x00\x00\x00\
            \x00\x00\x00\xe0\
            \x01\x00\x00\x00",
    ),
    // all 256 numbers that a set has room for
    (
        SnSet {
            base: 1,
            bits: 256,
            words: [0xffff_ffff; 8],
        },
        1,
        b"\x06\x01\x38\x00\
            \x00\x00\x01\x07\x00\x00\x01\x02\
            \x00\x00\x00\x00\x01\x00\x00\x00\
            \x00\x01\x00\x00\
            \xff\xff\xff\xff\xff\xff\xff\xff\xff\xff\xff\xff\xff\xff\xff\xff\
            \xff\xff\xff\xff\xff\xff\xff\xff\xff\xff\xff\xff\xff\xff\xff\xff\
            \x01\x00\x00\x00",
    ),
    // nothing: flag F, and no words
    (
        SnSet {
            base: 1,
            bits: 0,
            words: [0; 8],
        },
        1,
        b"\x06\x03\x18\x00\
            \x00\x00\x01\x07\x00\x00\x01\x02\
            \x00\x00\x00\x00\x01\x00\x00\x00\
            \x00\x00\x00\x00\
            \x01\x00\x00\x00",
    ),
    // nothing, after the greatest number of a change
    (
        SnSet {
            base: 4_611_686_018_427_387_905,
            bits: 0,
            words: [0; 8],
        },
        1,
        b"\x06\x03\x18\x00\
            \x00\x00\x01\x07\x00\x00\x01\x02\
            \x00\x00\x00\x40\x01\x00\x00\x00\
            \x00\x00\x00\x00\
            \x01\x00\x00\x00",
    ),
    // the 256 greatest numbers of changes, and the greatest count
    (
        SnSet {
            base: 4_611_686_018_427_387_649,
            bits: 256,
            words: [0xffff_ffff; 8],
        },
        0xffff_ffff,
        b"\x06\x01\x38\x00\
            \x00\x00\x01\x07\x00\x00\x01\x02\
            \xff\xff\xff\x3f\x01\xff\xff\xff\
            \x00\x01\x00\x00\
            \xff\xff\xff\xff\xff\xff\xff\xff\xff\xff\xff\xff\xff\xff\xff\xff\
            \xff\xff\xff\xff\xff\xff\xff\xff\xff\xff\xff\xff\xff\xff\xff\xff\
            \xff\xff\xff\xff",
    ),
    // words after the last bit are not sent
    (
        SnSet {
            base: (1 << 32) + 2,
            bits: 33,
            words: [0x8000_0001, 0x8000_0000, 0xffff_ffff, 0, 0, 0, 0, 1],
        },
        0xffff_fffe,
        b"\x06\x01\x20\x00\
            \x00\x00\x01\x07\x00\x00\x01\x02\
            \x01\x00\x00\x00\x02\x00\x00\x00\
            \x21\x00\x00\x00\
            \x01\x00\x00\x80\x00\x00\x00\x80\
            \xfe\xff\xff\xff",
    ),
];

#[test]
fn an_acknack_names_what_is_missing(rt: HostRuntime) -> Result<(), Fail> {
    for (missing, count, submessage) in MISSING {
        let answer = AckNack {
            reader: OURS,
            writer: THEIRS,
            missing,
            count,
        };
        let octets = write_acknack(rt.alloc(), answer)?;
        assert_eq!(rt; octets.as_slice().strip_prefix(FRONT), Some(submessage));
    }
    Ok(())
}

/// A change, a set, a count, and the expected submessage.
const MISSING_FRAGMENTS: [(u64, FragSet, u32, &[u8]); 4] = [
    // the first of its fragments
    (
        1,
        FragSet {
            base: 1,
            bits: 1,
            words: [0x8000_0000, 0, 0, 0, 0, 0, 0, 0],
        },
        1,
        b"\x12\x01\x20\x00\
            \x00\x00\x01\x07\x00\x00\x01\x02\
            \x00\x00\x00\x00\x01\x00\x00\x00\
            \x01\x00\x00\x00\
            \x01\x00\x00\x00\
            \x00\x00\x00\x80\
            \x01\x00\x00\x00",
    ),
    // two of them
    (
        66,
        FragSet {
            base: 1,
            bits: 2,
            words: [0xc000_0000, 0, 0, 0, 0, 0, 0, 0],
        },
        1,
        b"\x12\x01\x20\x00\
            \x00\x00\x01\x07\x00\x00\x01\x02\
            \x00\x00\x00\x00\x42\x00\x00\x00\
            \x01\x00\x00\x00\
            \x02\x00\x00\x00\
            \x00\x00\x00\xc0\
            \x01\x00\x00\x00",
    ),
    // the 256 greatest fragment numbers of the greatest change
    (
        1 << 62,
        FragSet {
            base: 0xffff_ff00,
            bits: 256,
            words: [0xffff_ffff; 8],
        },
        0xffff_ffff,
        b"\x12\x01\x3c\x00\
            \x00\x00\x01\x07\x00\x00\x01\x02\
            \x00\x00\x00\x40\x00\x00\x00\x00\
            \x00\xff\xff\xff\
            \x00\x01\x00\x00\
            \xff\xff\xff\xff\xff\xff\xff\xff\xff\xff\xff\xff\xff\xff\xff\xff\
            \xff\xff\xff\xff\xff\xff\xff\xff\xff\xff\xff\xff\xff\xff\xff\xff\
            \xff\xff\xff\xff",
    ),
    // words after the last bit are not sent
    (
        1 << 62,
        FragSet {
            base: 0x0102_0304,
            bits: 64,
            words: [1, 0x8000_0000, 0xffff_ffff, 0, 0, 0, 0, 1],
        },
        0xffff_ffff,
        b"\x12\x01\x24\x00\
            \x00\x00\x01\x07\x00\x00\x01\x02\
            \x00\x00\x00\x40\x00\x00\x00\x00\
            \x04\x03\x02\x01\
            \x40\x00\x00\x00\
            \x01\x00\x00\x00\x00\x00\x00\x80\
            \xff\xff\xff\xff",
    ),
];

#[test]
fn a_nack_frag_names_fragments_that_are_missing(rt: HostRuntime) -> Result<(), Fail> {
    for (number, missing, count, submessage) in MISSING_FRAGMENTS {
        let answer = NackFrag {
            reader: OURS,
            writer: THEIRS,
            number: number_of(number)?,
            missing,
            count,
        };
        let octets = write_nack_frag(rt.alloc(), answer)?;
        assert_eq!(rt; octets.as_slice().strip_prefix(FRONT), Some(submessage));
    }
    Ok(())
}

/// An answer of 96 octets.
const ACKNACK: AckNack = AckNack {
    reader: OURS,
    writer: THEIRS,
    missing: SnSet {
        base: 1,
        bits: 256,
        words: [1; 8],
    },
    count: 1,
};

fn number_of(value: u64) -> Result<Number, Fail> {
    match Number::new(value) {
        Some(number) => Ok(number),
        None => Err(Fail::new("no number")),
    }
}

/// An answer of 100 octets.
fn nack_frag() -> Result<NackFrag, Fail> {
    Ok(NackFrag {
        reader: OURS,
        writer: THEIRS,
        number: number_of(1)?,
        missing: FragSet {
            base: 1,
            bits: 256,
            words: [1; 8],
        },
        count: 1,
    })
}

#[test]
fn a_refused_growth_is_out_of_memory(rt: HostRuntime) -> Result<(), Fail> {
    let asking = nack_frag()?;
    let (mut refused, mut written) = (0, 0);
    for step in 0..16 {
        let heap = LocalHeap::new(rt.alloc(), step * 16)?;
        match write_acknack(&heap, ACKNACK) {
            Ok(octets) => {
                assert_eq!(rt; octets.as_slice().len(), 96);
                written |= 1;
            }
            Err(_) => refused |= 1,
        }
        match write_nack_frag(&heap, asking) {
            Ok(octets) => {
                assert_eq!(rt; octets.as_slice().len(), 100);
                written |= 2;
            }
            Err(_) => refused |= 2,
        }
    }
    assert_eq!(rt; (refused, written), (3, 3));
    Ok(())
}
