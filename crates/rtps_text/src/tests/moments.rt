//! Runs in which the lease of a participant ends, over record files written by hand and over a
//! network with a clock.

use super::listening::{After, Wire, live_setup};
use super::matches::{ANNOUNCES, BLUE, COMES, HEADER, OFFERS, RECORD};
use super::runs::{Given, PACES, config_of, prints_and_refuses};
use super::{octets, text};
use crate::listen;
use std::test::Fail;

/// `RDG2`, a participant at moment 0 whose lease is 100 s, and its reliable writer of squares at 1.
const KNOWN: [&str; 13] = [
    "52444732",
    "00000094",
    "0000000000000000",
    HEADER,
    COMES,
    "0000007c",
    "0000000000000001",
    HEADER,
    ANNOUNCES,
    "01000000",
    RECORD,
    "00000202",
    OFFERS,
];

const MATCHED: &str = "1:1 reader 0 matched 0a0a0a0a0a0a0a0a0a0a0a0a00000202";

const UNMATCHED: &str = "2:0 reader 0 unmatched 0a0a0a0a0a0a0a0a0a0a0a0a00000202";

const SAMPLE: &str =
    "2:1 reader 0 sample 0a0a0a0a0a0a0a0a0a0a0a0a00000202 1 - value 424c5545 10 20 30";

/// A change of the writer at the moment that its lease ends, and a millisecond later; and a tick at
/// each of these moments.
const AT: [&str; 4] = ["00000048", "00000000000186a0", HEADER, BLUE];

const AFTER: [&str; 4] = ["00000048", "00000000000186a1", HEADER, BLUE];

const TICK_AT: [&str; 4] = ["ffffffff", "00000000000186a0", "", ""];

const TICK_AFTER: [&str; 4] = ["ffffffff", "00000000000186a1", "", ""];

#[test]
fn a_lease_ends_after_its_last_moment(rt: HostRuntime) -> Result<(), Fail> {
    for (last, values, lines) in [
        (AT, 1, [MATCHED, SAMPLE].as_slice()),
        (AFTER, 0, [MATCHED, UNMATCHED].as_slice()),
        (TICK_AT, 0, [MATCHED].as_slice()),
        (TICK_AFTER, 0, [MATCHED, UNMATCHED].as_slice()),
    ] {
        let mut parts = KNOWN.as_slice().to_vec(rt.alloc())?;
        parts.extend_from_slice(&last)?;
        let given = (Given::Unmatched, values);
        assert!(rt; prints_and_refuses(&rt, rt.alloc(), given, &parts, lines)?);
    }
    Ok(())
}

/// A turn in which the writer is announced, and turns without datagrams.
#[test]
fn a_lease_ends_in_a_turn_without_datagrams(rt: HostRuntime) -> Result<(), Fail> {
    let comes = octets(rt.alloc(), &KNOWN[3..5])?;
    let offers = octets(rt.alloc(), &KNOWN[7..])?;
    let datagrams = [comes.as_slice(), offers.as_slice()];
    for (moments, lines) in [
        ([7, 100_007, 100_008], [MATCHED, UNMATCHED].as_slice()),
        ([7, 7, 7], [MATCHED].as_slice()),
        ([100_008, 7, 200_008], [MATCHED].as_slice()),
    ] {
        for pace in PACES {
            let mut wire = Wire::new(rt.alloc(), &datagrams, 2, After::Nothing);
            wire.moments = moments;
            let setup = live_setup(config_of(rt.alloc(), Given::Unmatched)?, pace, 9, 3);
            let mut out = Vec::new(rt.alloc());
            assert_eq!(rt; listen(&rt, rt.alloc(), setup, &mut wire, &mut out), Ok(()));
            let said = text(rt.alloc(), lines)?;
            assert_eq!(rt; out.as_slice(), said.as_bytes());
            assert_eq!(rt; wire.read, 3, "once for each wait");
        }
    }
    Ok(())
}
