//! Effects for a best-effort reader.

use super::{MAX, Row, What, first_unmet};
use std::test::Fail;

#[test]
fn only_rising_numbers_are_taken(rt: HostRuntime) -> Result<(), Fail> {
    let rows: [Row; 6] = [
        // Nothing before the first sample is lost.
        (What::Whole(5), 0, &[5], &[], &[]),
        (What::Whole(6), 0, &[6], &[], &[]),
        (What::Whole(9), 2, &[9], &[], &[]),
        (What::Whole(9), 0, &[], &[], &[]),
        (What::Whole(8), 0, &[], &[], &[]),
        // 2^62 is the greatest number.
        (
            What::Whole(MAX),
            4_611_686_018_427_387_894,
            &[MAX],
            &[],
            &[],
        ),
    ];
    assert_eq!(rt; first_unmet(rt.alloc(), false, &rows)?, None);
    Ok(())
}

#[test]
fn other_events_give_nothing(rt: HostRuntime) -> Result<(), Fail> {
    let rows: [Row; 6] = [
        (What::Asking(1, 9, 1), 0, &[], &[], &[]),
        (What::Gap(1, 3), 0, &[], &[], &[]),
        (What::HeartbeatFrag(2), 0, &[], &[], &[]),
        (What::Whole(1), 0, &[1], &[], &[]),
        // One fragment is all of the change.
        (What::Fragment(1), 0, &[], &[], &[]),
        (What::Fragment(3), 1, &[3], &[], &[]),
    ];
    assert_eq!(rt; first_unmet(rt.alloc(), false, &rows)?, None);
    Ok(())
}
