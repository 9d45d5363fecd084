//! Sets, payloads and inline QoS: valid and invalid octets.

use super::only;
use crate::*;
use rtps_types::KeyHash;
use std::test::Fail;

/// A count of bits, the number of words of ones after it, and the last member of the set with base
/// 5, if it is valid and has a member.
const SETS: [(u32, u8, Option<Option<u64>>); 12] = [
    (0, 0, Some(None)),
    (0, 1, Some(None)),
    (1, 1, Some(Some(5))),
    (1, 0, None),
    (32, 1, Some(Some(36))),
    (32, 0, None),
    (33, 2, Some(Some(37))),
    (33, 1, None),
    (256, 8, Some(Some(260))),
    (256, 7, None),
    (257, 9, None),
    (0xffff_ffff, 8, None),
];

#[test]
fn sets_have_their_words_and_at_most_256_bits(rt: HostRuntime) -> Result<(), Fail> {
    for (bits, words, last) in SETS {
        let front = b"\x08\x01\x00\x00\
            \x00\x00\x01\x07\x00\x00\x01\x02\
            \x00\x00\x00\x00\x04\x00\x00\x00\
            \x00\x00\x00\x00\x05\x00\x00\x00";
        let mut octets: Vec<u8> = Vec::from_slice(rt.alloc(), front)?;
        octets.extend_from_slice(&bits.to_le_bytes())?;
        for _ in 0..words {
            octets.extend_from_slice(&[0xff; 4])?;
        }
        let found = match only(octets.as_slice()) {
            Some(Parts::Gap(gap)) => Some(gap.list.members().last()),
            _ => None,
        };
        assert_eq!(rt; found, last, "{bits} bits in {words} words");
    }
    Ok(())
}

/// Flags, octetsToInlineQos, the octets after the fields, and the form and payload of the change,
/// if it is valid.
type Carries<'a> = (u8, u8, &'a [u8], Option<(Form, &'a [u8])>);

/// Changes, valid and invalid.
const CHANGES: [Carries<'static>; 19] = [
    // flags D, K and N; D and K together are no form
    (0x05, 16, b"\xaa\xbb", Some((Form::Value, b"\xaa\xbb"))),
    (0x09, 16, b"\xaa\xbb", Some((Form::Key, b"\xaa\xbb"))),
    (0x01, 16, b"\xaa\xbb", Some((Form::Nothing, b""))),
    (0x11, 16, b"\xaa\xbb", Some((Form::Other, b""))),
    (0x15, 16, b"\xaa\xbb", Some((Form::Other, b"\xaa\xbb"))),
    (0x19, 16, b"\xaa\xbb", Some((Form::Other, b"\xaa\xbb"))),
    (0x0d, 16, b"\xaa\xbb", None),
    (0x1d, 16, b"\xaa\xbb", None),
    // the offset is at least 16, and not past the end
    (0x05, 15, b"\xaa\xbb", None),
    (0x01, 15, b"\xaa\xbb", None),
    (0x05, 18, b"\xaa\xbb\xcc", Some((Form::Value, b"\xcc"))),
    (0x05, 18, b"\xaa\xbb", Some((Form::Value, b""))),
    (0x01, 18, b"\xaa\xbb", Some((Form::Nothing, b""))),
    (0x05, 19, b"\xaa\xbb", None),
    (0x01, 19, b"\xaa\xbb", None),
    (0x05, 255, b"\xaa\xbb", None),
    // at the end there is no list of inline QoS
    (0x03, 16, b"", None),
    (0x03, 16, b"\x01\x00\x00\x00", Some((Form::Nothing, b""))),
    (
        0x07,
        20,
        b"\xee\xee\xee\xee\x01\x00\x00\x00\xaa",
        Some((Form::Value, b"\xaa")),
    ),
];

#[test]
fn a_change_carries_what_its_flags_say(rt: HostRuntime) -> Result<(), Fail> {
    for (flags, offset, behind, carries) in CHANGES {
        let front = [
            0x15, flags, 0, 0, 0, 0, offset, 0, 0, 0, 1, 7, 0, 0, 1, 2, 0, 0, 0, 0, 1, 0, 0, 0,
        ];
        let mut octets: Vec<u8> = Vec::from_slice(rt.alloc(), &front)?;
        octets.extend_from_slice(behind)?;
        match (only(octets.as_slice()), carries) {
            (Some(Parts::Data(data)), Some((form, payload))) => {
                assert_eq!(rt; data.info.form, form, "{octets:?}");
                assert_eq!(rt; data.payload, payload, "{octets:?}");
            }
            (found, carries) => {
                assert!(rt; found.is_none() && carries.is_none(), "{octets:?}");
            }
        }
    }
    Ok(())
}

#[test]
fn fragments_carry_what_their_flags_say(rt: HostRuntime) -> Result<(), Fail> {
    let table: [Carries<'_>; 10] = [
        (0x01, 28, b"\xaa\xbb", Some((Form::Value, b"\xaa\xbb"))),
        (0x05, 28, b"\xaa\xbb", Some((Form::Key, b"\xaa\xbb"))),
        (0x09, 28, b"\xaa\xbb", Some((Form::Other, b"\xaa\xbb"))),
        (0x0d, 28, b"\xaa\xbb", Some((Form::Other, b"\xaa\xbb"))),
        (0x01, 27, b"\xaa\xbb", None),
        (0x01, 29, b"\xaa\xbb", Some((Form::Value, b"\xbb"))),
        (0x01, 30, b"\xaa\xbb", Some((Form::Value, b""))),
        (0x01, 31, b"\xaa\xbb", None),
        (0x03, 30, b"\xaa\xbb", None),
        (
            0x03,
            28,
            b"\x01\x00\x00\x00\xaa",
            Some((Form::Value, b"\xaa")),
        ),
    ];
    for (flags, offset, behind, carries) in table {
        let front = [
            0x16, flags, 0, 0, 0, 0, offset, 0, 0, 0, 1, 7, 0, 0, 1, 2, 0, 0, 0, 0, 1, 0, 0, 0, 1,
            0, 0, 0, 1, 0, 2, 0, 2, 0, 0, 0,
        ];
        let mut octets: Vec<u8> = Vec::from_slice(rt.alloc(), &front)?;
        octets.extend_from_slice(behind)?;
        match (only(octets.as_slice()), carries) {
            (Some(Parts::DataFrag(data)), Some((form, payload))) => {
                assert_eq!(rt; data.info.form, form, "{octets:?}");
                assert_eq!(rt; data.payload, payload, "{octets:?}");
            }
            (found, carries) => {
                assert!(rt; found.is_none() && carries.is_none(), "{octets:?}");
            }
        }
    }
    Ok(())
}

/// The octets of inline QoS, and its expected contents, if it is valid.
#[derive(Clone, Copy)]
struct Qos<'a> {
    octets: &'a [u8],
    says: Option<(u8, Option<KeyHash>)>,
}

/// The hash of octets 20 to 2f.
const HASH: KeyHash = KeyHash([
    0x20, 0x21, 0x22, 0x23, 0x24, 0x25, 0x26, 0x27, 0x28, 0x29, 0x2a, 0x2b, 0x2c, 0x2d, 0x2e, 0x2f,
]);

/// Inline QoS, valid and invalid.
const LISTS: [Qos<'static>; 14] = [
    Qos {
        octets: b"\x01\x00\x00\x00",
        says: Some((0, None)),
    },
    Qos {
        octets: b"\x71\x00\x04\x00\x00\x00\x00\x01",
        says: None,
    },
    Qos {
        octets: b"\x71\x00\x04\x00\x00\x00\x00\x01\
            \x01\x00",
        says: None,
    },
    Qos {
        octets: b"\x71\x00\x04\x00\x00\x00\x00\x01\
            \x01\x00\x00\x00",
        says: Some((1, None)),
    },
    // octets after the known ones, padding, and parameters with other ids are ignored
    Qos {
        octets: b"\x71\x00\x08\x00\x00\x00\x00\x02\xff\xff\xff\xff\
            \x00\x00\x04\x00\xee\xee\xee\xee\
            \x02\x00\x04\x00\xee\xee\xee\xee\
            \x01\x00\x00\x00",
        says: Some((2, None)),
    },
    Qos {
        octets: b"\x70\x00\x14\x00\
            \x20\x21\x22\x23\x24\x25\x26\x27\x28\x29\x2a\x2b\x2c\x2d\x2e\x2f\
            \xff\xff\xff\xff\
            \x01\x00\x00\x00",
        says: Some((0, Some(HASH))),
    },
    // the last of two counts
    Qos {
        octets: b"\x70\x00\x10\x00\
            \xff\xff\xff\xff\xff\xff\xff\xff\xff\xff\xff\xff\xff\xff\xff\xff\
            \x70\x00\x10\x00\
            \x20\x21\x22\x23\x24\x25\x26\x27\x28\x29\x2a\x2b\x2c\x2d\x2e\x2f\
            \x01\x00\x00\x00",
        says: Some((0, Some(HASH))),
    },
    Qos {
        octets: b"\x71\x00\x04\x00\x00\x00\x00\x01\
            \x71\x00\x04\x00\x00\x00\x00\x02\
            \x01\x00\x00\x00",
        says: Some((2, None)),
    },
    // a value that is too short, also where another one follows
    Qos {
        octets: b"\x70\x00\x0c\x00\
            \x20\x21\x22\x23\x24\x25\x26\x27\x28\x29\x2a\x2b\
            \x01\x00\x00\x00",
        says: None,
    },
    Qos {
        octets: b"\x71\x00\x00\x00\
            \x01\x00\x00\x00",
        says: None,
    },
    Qos {
        octets: b"\x71\x00\x00\x00\
            \x71\x00\x04\x00\x00\x00\x00\x01\
            \x01\x00\x00\x00",
        says: None,
    },
    Qos {
        octets: b"\x70\x00\x0c\x00\
            \x20\x21\x22\x23\x24\x25\x26\x27\x28\x29\x2a\x2b\
            \x70\x00\x10\x00\
            \x20\x21\x22\x23\x24\x25\x26\x27\x28\x29\x2a\x2b\x2c\x2d\x2e\x2f\
            \x01\x00\x00\x00",
        says: None,
    },
    // a length that is no multiple of four, and one that passes the end
    Qos {
        octets: b"\x71\x00\x05\x00\x00\x00\x00\x01\x00\
            \x01\x00\x00\x00",
        says: None,
    },
    Qos {
        octets: b"\x70\x00\x10\x00\
            \x20\x21\x22\x23\x24\x25\x26\x27\x28\x29\x2a\x2b",
        says: None,
    },
];

#[test]
fn inline_qos_is_good_or_the_change_is_invalid(rt: HostRuntime) -> Result<(), Fail> {
    for row in &LISTS {
        let front = [
            0x15, 0x03, 0, 0, 0, 0, 16, 0, 0, 0, 1, 7, 0, 0, 1, 2, 0, 0, 0, 0, 1, 0, 0, 0,
        ];
        let mut octets: Vec<u8> = Vec::from_slice(rt.alloc(), &front)?;
        octets.extend_from_slice(row.octets)?;
        let says = match only(octets.as_slice()) {
            Some(Parts::Data(data)) => Some((data.info.status, data.info.hash)),
            _ => None,
        };
        assert_eq!(rt; says, row.says, "{:?}", row.octets);
    }
    Ok(())
}

#[test]
fn statuses_have_names(rt: HostRuntime) {
    for (status, name) in [
        (0, "alive"),
        (1, "disposed"),
        (2, "unregistered"),
        (3, "disposed and unregistered"),
        (0xfd, "disposed"),
    ] {
        let info = ChangeInfo {
            form: Form::Nothing,
            status,
            hash: None,
        };
        assert_eq!(rt; info.status_name(), name);
    }
}
