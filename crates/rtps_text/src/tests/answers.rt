//! Runs of reliable readers over a record file written by hand.

use super::runs::{Given, prints_and_refuses};
use dds_qos::Reliability;
use std::test::Fail;

/// `RDG1`, and a datagram with the changes 1 and 3 and a heartbeat for the numbers 1 to 3.
const FILE: [&str; 6] = [
    "52444731",
    "0000009c",
    "52545053020500000a0a0a0a0a0a0a0a0a0a0a0a",
    "1505300000001000000000000000010200000000010000000001000005000000424c5545000000000a000000140000001e000000",
    "1505300000001000000000000000010200000000030000000001000005000000424c5545000000000a000000140000001e000000",
    "07011c0000000000000001020000000001000000000000000300000001000000",
];

/// Both readers wait for number 2, and ask for it.
const LINES: [&str; 4] = [
    "0:1 reader 0 sample 0a0a0a0a0a0a0a0a0a0a0a0a00000102 1 - value 424c5545 10 20 30",
    "0:1 reader 1 sample 0a0a0a0a0a0a0a0a0a0a0a0a00000102 1 - value 424c5545 10 20 30",
    "0:3 answer - 52545053020500000b0b0b0b0b0b0b0b0b0b0b0b0e010c000a0a0a0a0a0a0a0a0a0a0a0a06011c0000000107000001020000000002000000010000000000008001000000",
    "0:3 answer - 52545053020500000b0b0b0b0b0b0b0b0b0b0b0b0e010c000a0a0a0a0a0a0a0a0a0a0a0a06011c0000000207000001020000000002000000010000000000008001000000",
];

#[test]
fn prints_answers_however_the_run_is_cut(rt: HostRuntime) -> Result<(), Fail> {
    let given = Given::Fixed(Reliability::Reliable);
    assert!(rt; prints_and_refuses(&rt, rt.alloc(), (given, 2), &FILE, &LINES)?);
    Ok(())
}
