//! Missing fragments, as the set of a NACK_FRAG.

use crate::{AddError, Assembly, FragFault, missing_of_none};
use rtps_types::FragSet;
use std::test::Fail;

/// All bits of a word.
const ALL: u32 = 0xffff_ffff;

/// 67,108,864 octets in fragments of 65,535 are 1,024 of these and one of 1,024 octets.
#[test]
fn the_largest_sample(rt: HostRuntime) -> Result<(), Fail> {
    let alloc = rt.alloc();
    let octets = [0x55; 1024];
    let mut sample = Assembly::new(alloc, 67_108_864, 65_535);
    let behind = sample.add(alloc, 1026, 1, &octets);
    assert_eq!(rt; behind, Err(AddError::Fault(FragFault::Number)));
    let short = sample.add(alloc, 1025, 1, &octets[..1023]);
    assert_eq!(rt; short, Err(AddError::Fault(FragFault::ShortPayload)));
    sample.add(alloc, 1025, 1, &octets)?;
    let all = FragSet {
        base: 1,
        bits: 256,
        words: [ALL; 8],
    };
    assert_eq!(rt; sample.missing_up_to(1025), Some(all));
    assert_eq!(rt; sample.missing_up_to(u32::MAX), Some(all));
    let mut larger = Assembly::new(alloc, 67_108_865, 65_535);
    let refused = larger.add(alloc, 1, 1, &octets);
    assert_eq!(rt; refused, Err(AddError::Fault(FragFault::TooLarge)));
    Ok(())
}

/// Of 300 fragments 1, 2 and 258 were received: all from 3 to 257 are missing, and 258 is the last
/// of the 256 that a set covers.
#[test]
fn a_window_of_256(rt: HostRuntime) -> Result<(), Fail> {
    let alloc = rt.alloc();
    let mut sample = Assembly::new(alloc, 300, 1);
    sample.add(alloc, 258, 1, b"z")?;
    sample.add(alloc, 1, 2, b"ab")?;
    let missing = FragSet {
        base: 3,
        bits: 255,
        words: [ALL, ALL, ALL, ALL, ALL, ALL, ALL, ALL - 1],
    };
    assert_eq!(rt; sample.missing_up_to(300), Some(missing));
    assert!(rt; sample.missing_up_to(2).is_none());
    let first = FragSet {
        base: 3,
        bits: 1,
        words: [1 << 31, 0, 0, 0, 0, 0, 0, 0],
    };
    assert_eq!(rt; sample.missing_up_to(3), Some(first));
    Ok(())
}

/// Every second fragment was received, each in a chunk of its own, the last one first.
#[test]
fn between_chunks(rt: HostRuntime) -> Result<(), Fail> {
    let alloc = rt.alloc();
    let mut sample = Assembly::new(alloc, 9, 1);
    for start in [8, 6, 4, 2] {
        sample.add(alloc, start, 1, b"z")?;
    }
    let missing = FragSet {
        base: 1,
        bits: 9,
        words: [0xAA80_0000, 0, 0, 0, 0, 0, 0, 0],
    };
    assert_eq!(rt; sample.missing_up_to(9), Some(missing));
    let before_the_last = FragSet {
        base: 1,
        bits: 7,
        words: [0xAA00_0000, 0, 0, 0, 0, 0, 0, 0],
    };
    assert_eq!(rt; sample.missing_up_to(8), Some(before_the_last));
    Ok(())
}

/// Missing fragments end with the sample's last one, whatever is asked for; a complete sample has
/// none.
#[test]
fn not_past_the_last(rt: HostRuntime) -> Result<(), Fail> {
    let alloc = rt.alloc();
    let mut sample = Assembly::new(alloc, 9, 2);
    sample.add(alloc, 2, 2, b"cdef")?;
    let missing = FragSet {
        base: 1,
        bits: 5,
        words: [0x9800_0000, 0, 0, 0, 0, 0, 0, 0],
    };
    assert_eq!(rt; sample.missing_up_to(9), Some(missing));
    sample.add(alloc, 1, 5, b"ab----ghi")?;
    assert!(rt; sample.missing_up_to(9).is_none());
    assert!(rt; sample.is_whole());
    Ok(())
}

/// Without any fragment all up to 256 are missing; up to fragment 0 none is.
#[test]
fn of_none_all_are_missing(rt: HostRuntime) {
    let three = FragSet {
        base: 1,
        bits: 3,
        words: [0xE000_0000, 0, 0, 0, 0, 0, 0, 0],
    };
    let all = FragSet {
        base: 1,
        bits: 256,
        words: [ALL; 8],
    };
    assert!(rt; missing_of_none(rt.alloc(), 0).is_none());
    assert_eq!(rt; missing_of_none(rt.alloc(), 3), Some(three));
    assert_eq!(rt; missing_of_none(rt.alloc(), u32::MAX), Some(all));
}
