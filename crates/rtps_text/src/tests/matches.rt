//! Runs of a reliable reader that is matched during the run, over record files written by hand.

use super::runs::{Given, prints_and_refuses};
use std::test::Fail;

/// The RTPS header: version 2.5, no vendor, and the prefix of the participant.
pub(super) const HEADER: &str = "52545053020500000a0a0a0a0a0a0a0a0a0a0a0a";

/// DATA in which the participant appears, with both of its announcers.
pub(super) const COMES: &str = "15057c0000001000000100c7000100c20000000001000000\
    00030000500010000a0a0a0a0a0a0a0a0a0a0a0a000001c1\
    3200180001000000f41c00000000000000000000000000007f000001\
    3100180001000000f51c00000000000000000000000000007f000001\
    02000800640000000000000058000400140000000100\
    0000";

/// DATA in which the participant leaves.
const LEAVES: &str = "1503340000001000000100c7000100c20000000002000000\
    700010000a0a0a0a0a0a0a0a0a0a0a0a000001c1710004000000000101000000";

/// The beginning of a DATA of the announcer of writers, up to the low half of its sequence number.
pub(super) const ANNOUNCES: &str = "1505640000001000000003c7000003c200000000";

/// The beginning of a writer's discovery data, up to the entity id of the writer.
pub(super) const RECORD: &str = "000300005a0010000a0a0a0a0a0a0a0a0a0a0a0a";

/// The end of that data, for a reliable writer of squares: its topic, its type and its reliability.
pub(super) const OFFERS: &str = "05000c00070000005371756172650000\
    070010000a0000005368617065547970650000001a000c0002000000000000000000000001000000";

/// DATA of the writer 00000202 with number 1: a BLUE shape at 10, 20 of size 30.
pub(super) const BLUE: &str = "150530000000100000000107000002020000000001000000\
    0001000005000000424c5545000000000a000000140000001e000000";

/// `RDG1`, and datagrams in which a participant and its writer appear, the participant leaves, and
/// both appear again.
const REMATCH: [&str; 24] = [
    "52444731", "00000094", HEADER, COMES, "0000007c", HEADER, ANNOUNCES, "01000000", RECORD,
    "00000102", OFFERS, "0000004c", HEADER, LEAVES, "00000094", HEADER, COMES, "0000007c", HEADER,
    ANNOUNCES, "01000000", RECORD, "00000102", OFFERS,
];

const REMATCHED: [&str; 3] = [
    "1:1 reader 0 matched 0a0a0a0a0a0a0a0a0a0a0a0a00000102",
    "2:1 reader 0 unmatched 0a0a0a0a0a0a0a0a0a0a0a0a00000102",
    "4:1 reader 0 matched 0a0a0a0a0a0a0a0a0a0a0a0a00000102",
];

/// `RDG1`, and a datagram in which a participant appears. The next datagram has a change of its
/// second writer, the discovery data of its three writers, of which number 1 comes last, and the
/// change again.
const ROUTED: [&str; 23] = [
    "52444731", "00000094", HEADER, COMES, "000001b4", HEADER, BLUE, ANNOUNCES, "02000000", RECORD,
    "00000302", OFFERS, ANNOUNCES, "03000000", RECORD, "00000202", OFFERS, ANNOUNCES, "01000000",
    RECORD, "00000102", OFFERS, BLUE,
];

const ROUTED_AT_LAST: [&str; 4] = [
    "1:4 reader 0 matched 0a0a0a0a0a0a0a0a0a0a0a0a00000102",
    "1:4 reader 0 matched 0a0a0a0a0a0a0a0a0a0a0a0a00000302",
    "1:4 reader 0 matched 0a0a0a0a0a0a0a0a0a0a0a0a00000202",
    "1:5 reader 0 sample 0a0a0a0a0a0a0a0a0a0a0a0a00000202 1 - value 424c5545 10 20 30",
];

#[test]
fn prints_matches_that_begin_and_end_however_the_run_is_cut(rt: HostRuntime) -> Result<(), Fail> {
    let alloc = rt.alloc();
    assert!(rt; prints_and_refuses(&rt, alloc, (Given::Unmatched, 0), &REMATCH, &REMATCHED)?);
    assert!(rt; prints_and_refuses(&rt, alloc, (Given::Unmatched, 1), &ROUTED, &ROUTED_AT_LAST)?);
    Ok(())
}
