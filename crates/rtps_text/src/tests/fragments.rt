//! A run of reliable readers over a change in fragments, from a record file written by hand.

use super::runs::{Given, prints_and_refuses};
use dds_qos::Reliability;
use std::test::Fail;

/// `RDG1`, and a datagram with fragments 2 and 1 of change 1, and a HEARTBEAT_FRAG for fragment 1
/// of change 2.
const FILE: [&str; 6] = [
    "52444731",
    "00000094",
    "52545053020500000a0a0a0a0a0a0a0a0a0a0a0a",
    "16012c0000001c000000000000000102000000000100000002000000010010001c0000000a000000140000001e000000",
    "1601300000001c000000000000000102000000000100000001000000010010001c0000000001000005000000424c554500000000",
    "13011800000000000000010200000000020000000100000001000000",
];

/// Both readers assemble change 1, and ask for fragment 1 of change 2.
const LINES: [&str; 4] = [
    "0:2 reader 0 sample 0a0a0a0a0a0a0a0a0a0a0a0a00000102 1 - value 424c5545 10 20 30",
    "0:2 reader 1 sample 0a0a0a0a0a0a0a0a0a0a0a0a00000102 1 - value 424c5545 10 20 30",
    "0:3 answer - 52545053020500000b0b0b0b0b0b0b0b0b0b0b0b0e010c000a0a0a0a0a0a0a0a0a0a0a0a120120000000010700000102000000000200000001000000010000000000008001000000",
    "0:3 answer - 52545053020500000b0b0b0b0b0b0b0b0b0b0b0b0e010c000a0a0a0a0a0a0a0a0a0a0a0a120120000000020700000102000000000200000001000000010000000000008001000000",
];

#[test]
fn prints_fragments_however_the_run_is_cut(rt: HostRuntime) -> Result<(), Fail> {
    let given = Given::Fixed(Reliability::Reliable);
    assert!(rt; prints_and_refuses(&rt, rt.alloc(), (given, 2), &FILE, &LINES)?);
    Ok(())
}
