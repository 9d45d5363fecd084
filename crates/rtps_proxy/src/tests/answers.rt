//! Answers, octet for octet.

use super::{MAX, Row, What, first_unmet};
use std::test::Fail;

/// ACKNACK of three numbers from 1 on, with count 1.
const THREE: &[u8] = b"\x06\x01\x1c\x00\
    \x00\x00\x01\x07\x00\x00\x01\x02\
    \x00\x00\x00\x00\x01\x00\x00\x00\
    \x03\x00\x00\x00\
    \x00\x00\x00\xe0\
    \x01\x00\x00\x00";

/// The same, with count 2.
const THREE_AGAIN: &[u8] = b"\x06\x01\x1c\x00\
    \x00\x00\x01\x07\x00\x00\x01\x02\
    \x00\x00\x00\x00\x01\x00\x00\x00\
    \x03\x00\x00\x00\
    \x00\x00\x00\xe0\
    \x02\x00\x00\x00";

/// All 256 numbers that a set has room for.
const MOST: &[u8] = b"\x06\x01\x38\x00\
    \x00\x00\x01\x07\x00\x00\x01\x02\
    \x00\x00\x00\x00\x01\x00\x00\x00\
    \x00\x01\x00\x00\
    \xff\xff\xff\xff\xff\xff\xff\xff\xff\xff\xff\xff\xff\xff\xff\xff\
    \xff\xff\xff\xff\xff\xff\xff\xff\xff\xff\xff\xff\xff\xff\xff\xff\
    \x01\x00\x00\x00";

/// Nothing from 1 on: flag F, and no words.
const NOTHING: &[u8] = b"\x06\x03\x18\x00\
    \x00\x00\x01\x07\x00\x00\x01\x02\
    \x00\x00\x00\x00\x01\x00\x00\x00\
    \x00\x00\x00\x00\
    \x01\x00\x00\x00";

/// Nothing from 2^62 + 1 on.
const BEYOND: &[u8] = b"\x06\x03\x18\x00\
    \x00\x00\x01\x07\x00\x00\x01\x02\
    \x00\x00\x00\x40\x01\x00\x00\x00\
    \x00\x00\x00\x00\
    \x01\x00\x00\x00";

/// 2 and 4, from 2 on.
const TWO: &[u8] = b"\x06\x01\x1c\x00\
    \x00\x00\x01\x07\x00\x00\x01\x02\
    \x00\x00\x00\x00\x02\x00\x00\x00\
    \x03\x00\x00\x00\
    \x00\x00\x00\xa0\
    \x01\x00\x00\x00";

#[test]
fn a_heartbeat_is_answered_once(rt: HostRuntime) -> Result<(), Fail> {
    let rows: [Row; 4] = [
        // Counts are signed: 1 is above -1, and not above itself.
        (What::Asking(1, 3, -1), 0, &[], &[], THREE),
        (What::Asking(1, 3, 1), 0, &[], &[], THREE_AGAIN),
        (What::Asking(1, 3, 1), 0, &[], &[], &[]),
        (What::Asking(9, 9, -2_147_483_648), 0, &[], &[], &[]),
    ];
    assert_eq!(rt; first_unmet(rt.alloc(), true, &rows)?, None);
    Ok(())
}

#[test]
fn nothing_is_missing(rt: HostRuntime) -> Result<(), Fail> {
    let rows: [Row; 3] = [
        (What::Asking(1, 0, 1), 0, &[], &[], NOTHING),
        (What::Asking(1, 0, 1), 0, &[], &[], &[]),
        // With flag F it isn't answered then.
        (What::Final(1, 0, 2), 0, &[], &[], &[]),
    ];
    assert_eq!(rt; first_unmet(rt.alloc(), true, &rows)?, None);
    Ok(())
}

#[test]
fn no_more_than_a_set_holds(rt: HostRuntime) -> Result<(), Fail> {
    let rows: [Row; 1] = [(What::Asking(1, 1000, 1), 0, &[], &[], MOST)];
    assert_eq!(rt; first_unmet(rt.alloc(), true, &rows)?, None);
    Ok(())
}

#[test]
fn beyond_the_greatest_number(rt: HostRuntime) -> Result<(), Fail> {
    let rows: [Row; 4] = [
        (What::Gap(2, MAX), 0, &[], &[(2, MAX - 1)], &[]),
        (What::Whole(1), 0, &[1], &[], &[]),
        (What::Whole(MAX), 0, &[MAX], &[], &[]),
        (What::Asking(MAX, MAX, 1), 0, &[], &[], BEYOND),
    ];
    assert_eq!(rt; first_unmet(rt.alloc(), true, &rows)?, None);
    Ok(())
}

#[test]
fn flags_say_when_to_answer(rt: HostRuntime) -> Result<(), Fail> {
    let rows: [Row; 4] = [
        (What::Whole(1), 0, &[1], &[], &[]),
        (What::Whole(3), 0, &[], &[(3, 3)], &[]),
        // With both flags it is only for liveliness.
        (What::Alive(1, 4, 1), 0, &[], &[(3, 3)], &[]),
        // With flag F alone it is answered where something is missing.
        (What::Final(1, 4, 2), 0, &[], &[(3, 3)], TWO),
    ];
    assert_eq!(rt; first_unmet(rt.alloc(), true, &rows)?, None);
    Ok(())
}
