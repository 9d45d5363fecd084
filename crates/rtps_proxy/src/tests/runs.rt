//! Runs of settled numbers.

use super::{MAX, Row, What, first_unmet, has_runs, new_proxy};
use crate::*;
use rtps_receiver::{Event, events};
use rtps_types::GuidPrefix;
use std::alloc::Global;
use std::test::Fail;

#[test]
fn gaps_join(rt: HostRuntime) -> Result<(), Fail> {
    let rows: [Row; 6] = [
        (What::Gap(3, 4), 0, &[], &[(3, 3)], &[]),
        (What::Gap(5, 6), 0, &[], &[(3, 3), (5, 5)], &[]),
        (What::Gap(4, 5), 0, &[], &[(3, 5)], &[]),
        // A GAP whose base is its start names nothing.
        (What::Gap(7, 7), 0, &[], &[(3, 5)], &[]),
        // A run has no numbers below the frontier.
        (What::Gap(1, 2), 0, &[], &[(3, 5)], &[]),
        (What::Gap(2, 3), 0, &[], &[], &[]),
    ];
    assert_eq!(rt; first_unmet(rt.alloc(), true, &rows)?, None);
    Ok(())
}

#[test]
fn a_gap_joins_all_that_it_touches(rt: HostRuntime) -> Result<(), Fail> {
    let rows: [Row; 6] = [
        (What::Whole(2), 0, &[], &[(2, 2)], &[]),
        (What::Whole(5), 0, &[], &[(2, 2), (5, 5)], &[]),
        (What::Whole(20), 0, &[], &[(2, 2), (5, 5), (20, 20)], &[]),
        (
            What::Whole(9),
            0,
            &[],
            &[(2, 2), (5, 5), (9, 9), (20, 20)],
            &[],
        ),
        (What::Gap(6, 12), 0, &[], &[(2, 2), (5, 11), (20, 20)], &[]),
        (What::Gap(1, MAX), 0, &[2, 5, 9, 20], &[], &[]),
    ];
    assert_eq!(rt; first_unmet(rt.alloc(), true, &rows)?, None);
    Ok(())
}

/// Passes the events to the proxy, and returns whether it has the expected runs then.
fn leaves_runs(
    alloc: Global,
    proxy: &mut WriterProxy,
    events: &[Event<'_>],
    expected: &[(u64, u64)],
) -> Result<bool, Fail> {
    for event in events {
        let _ = proxy.on_event(alloc, event.time, &event.body)?;
    }
    Ok(has_runs(proxy.runs(), expected))
}

#[test]
fn the_members_of_a_list_are_settled(rt: HostRuntime) -> Result<(), Fail> {
    // GAP from 2 with base 3 and the members 4, 5 and 7, from 00000102 to 00000107.
    let octets: [u8; 56] = [
        0x52, 0x54, 0x50, 0x53, 2, 3, 2, 5, 10, 10, 10, 10, 10, 10, 10, 10, 10, 10, 10, 10, //
        0x08, 0x01, 32, 0, 0, 0, 1, 7, 0, 0, 1, 2, 0, 0, 0, 0, 2, 0, 0, 0, 0, 0, 0, 0, 3, 0, 0, 0, //
        5, 0, 0, 0, 0, 0, 0, 0x68,
    ];
    let found = events(rt.alloc(), GuidPrefix([11; 12]), 0, &octets)?;
    let mut proxy = new_proxy(rt.alloc(), true)?;
    assert!(rt;
        leaves_runs(
            rt.alloc(),
            &mut proxy,
            found.as_slice(),
            &[(2, 2), (4, 5), (7, 7)]
        )?
    );
    Ok(())
}

#[test]
fn a_run_reaches_the_greatest_number(rt: HostRuntime) -> Result<(), Fail> {
    let rows: [Row; 4] = [
        (What::Gap(2, MAX), 0, &[], &[(2, MAX - 1)], &[]),
        (What::Whole(MAX), 0, &[], &[(2, MAX)], &[]),
        (What::Whole(1), 0, &[1, MAX], &[], &[]),
        // All numbers are settled now.
        (What::Whole(MAX), 0, &[], &[], &[]),
    ];
    assert_eq!(rt; first_unmet(rt.alloc(), true, &rows)?, None);
    laws::frontier_is_least();
    laws::an_answer_names_its_members();
    laws::presents_in_order();
    Ok(())
}
