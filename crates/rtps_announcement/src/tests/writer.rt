//! What the announcer of readers says of its numbers.

use super::*;

/// The first and the last number, and the submessage.
const GAPS: [(u64, u64, &str); 3] = [
    // one number
    (
        1,
        1,
        "08011c00 000004c7 000004c2 00000000 01000000 00000000 02000000 00000000",
    ),
    // three of them
    (
        3,
        5,
        "08011c00 000004c7 000004c2 00000000 03000000 00000000 06000000 00000000",
    ),
    // the greatest number
    (
        1 << 62,
        1 << 62,
        "08011c00 000004c7 000004c2 00000040 00000000 00000040 01000000 00000000",
    ),
];

#[test]
fn a_gap_names_all_numbers_of_a_range(rt: HostRuntime) -> Result<(), Fail> {
    for (first, last, submessage) in GAPS {
        let octets = write_gap(rt.alloc(), OWN, PEER, number_of(first)?, number_of(last)?)?;
        let expected = octets_of(rt.alloc(), FRONT, submessage)?;
        assert_eq!(rt; octets.as_slice(), expected.as_slice());
    }
    Ok(())
}

/// The last number, the count, and the submessage.
const HEARTBEATS: [(u64, u32, &str); 3] = [
    // no number yet
    (
        0,
        1,
        "07011c00 000004c7 000004c2 00000000 01000000 00000000 00000000 01000000",
    ),
    (
        2,
        3,
        "07011c00 000004c7 000004c2 00000000 01000000 00000000 02000000 03000000",
    ),
    // a number of more than 32 bits, and the greatest count
    (
        (1 << 32) + 2,
        0xffff_ffff,
        "07011c00 000004c7 000004c2 00000000 01000000 01000000 02000000 ffffffff",
    ),
];

#[test]
fn a_heartbeat_begins_with_number_1(rt: HostRuntime) -> Result<(), Fail> {
    for (last, count, submessage) in HEARTBEATS {
        let octets = write_heartbeat(rt.alloc(), OWN, PEER, last, count)?;
        let expected = octets_of(rt.alloc(), FRONT, submessage)?;
        assert_eq!(rt; octets.as_slice(), expected.as_slice());
    }
    Ok(())
}
