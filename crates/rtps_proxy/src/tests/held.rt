//! Held changes, and numbers that are given up.

use super::{INFO, MAX, PAYLOAD, Row, What, bring, first_unmet, has_ready, new_proxy, whole_of};
use crate::*;
use rtps_receiver::{EventBody, Whole};
use rtps_types::Timestamp;
use std::alloc::Global;
use std::test::Fail;

const TIME: Timestamp = Timestamp {
    seconds: 5,
    fraction: 7,
};

/// ACKNACK for 1 to 5, with count 1.
const FIVE: &[u8] = b"\x06\x01\x1c\x00\
    \x00\x00\x01\x07\x00\x00\x01\x02\
    \x00\x00\x00\x00\x01\x00\x00\x00\
    \x05\x00\x00\x00\
    \x00\x00\x00\xf8\
    \x01\x00\x00\x00";

/// Whether a change is as it was sent, with this time.
fn is_as_sent(change: &Change<'_>, number: u64, time: Option<Timestamp>) -> bool {
    change.number.get() == number
        && change.time == time
        && change.info == INFO
        && change.payload.as_slice() == PAYLOAD.as_slice()
}

/// Whether two changes are ready as they were sent: 1, borrowed from the datagram, and 2, which was
/// kept.
fn gives_both(effects: Effects<'_>) -> bool {
    if effects.lost != 0 || effects.answer.is_some() {
        return false;
    }
    let [first, second] = effects.ready.as_slice() else {
        return false;
    };
    is_as_sent(first, 1, None)
        && matches!(first.payload, Payload::Lent(_))
        && is_as_sent(second, 2, Some(TIME))
        && matches!(second.payload, Payload::Kept(_))
}

/// Whether change 2 waits, and is ready after change 1.
fn waits(alloc: Global, proxy: &mut WriterProxy) -> Result<bool, Fail> {
    let later = EventBody::Whole(whole_of(2)?);
    let first = EventBody::Whole(whole_of(1)?);
    let none = proxy.on_event(alloc, Some(TIME), &later)?;
    let nothing = has_ready(&none, &[]);
    Ok(nothing && gives_both(proxy.on_event(alloc, None, &first)?))
}

#[test]
fn a_later_change_waits(rt: HostRuntime) -> Result<(), Fail> {
    let mut proxy = new_proxy(rt.alloc(), true)?;
    assert!(rt; waits(rt.alloc(), &mut proxy)?);
    Ok(())
}

#[test]
fn lost_are_those_below_a_raised_first(rt: HostRuntime) -> Result<(), Fail> {
    let rows: [Row; 7] = [
        (What::Final(1, 5, 1), 0, &[], &[], FIVE),
        (What::Whole(1), 0, &[1], &[], &[]),
        (What::Whole(5), 0, &[], &[(5, 5)], &[]),
        (What::Whole(3), 0, &[], &[(3, 3), (5, 5)], &[]),
        (What::Gap(2, 3), 0, &[3], &[(5, 5)], &[]),
        (What::Final(6, 5, 2), 1, &[5], &[], &[]),
        // Each change is presented once.
        (What::Whole(5), 0, &[], &[], &[]),
    ];
    assert_eq!(rt; first_unmet(rt.alloc(), true, &rows)?, None);
    Ok(())
}

#[test]
fn a_first_heartbeat_loses_nothing(rt: HostRuntime) -> Result<(), Fail> {
    let rows: [Row; 3] = [
        (What::Whole(3), 0, &[], &[(3, 3)], &[]),
        (What::Final(6, 5, 1), 0, &[3], &[], &[]),
        // Numbers below 6 were given up before, so only 6, 7 and 8 count.
        (What::Final(9, 8, 2), 3, &[], &[], &[]),
    ];
    assert_eq!(rt; first_unmet(rt.alloc(), true, &rows)?, None);
    Ok(())
}

/// Passes the change with this number to a proxy. Returns the number of ready changes, and the
/// number of the last one.
fn ready_at(alloc: Global, proxy: &mut WriterProxy, number: u64) -> Result<(usize, u64), Fail> {
    let effects = bring(alloc, proxy, What::Whole(number))??;
    Ok(last_ready(effects))
}

fn last_ready(effects: Effects<'_>) -> (usize, u64) {
    match effects.ready.last() {
        None => (0, 0),
        Some(change) => (effects.ready.len(), change.number.get()),
    }
}

/// Sends the changes 2 to 65,538; there is no room for the last one. Returns whether none is ready.
fn fill(alloc: Global, proxy: &mut WriterProxy) -> Result<bool, Fail> {
    for number in 2_u64..65_539 {
        if ready_at(alloc, proxy, number)? != (0, 0) {
            return Ok(false);
        }
    }
    Ok(true)
}

/// Whether the changes that are ready have the numbers from `first` to `end`, without `end`.
fn are_ready(effects: &Effects<'_>, first: u64, end: u64) -> bool {
    let numbers = first..end;
    effects.ready.len() as u64 == end.saturating_sub(first)
        && effects
            .ready
            .iter()
            .zip(numbers)
            .all(|(change, number)| change.number.get() == number)
}

#[test]
fn many_are_ready_in_order(rt: HostRuntime) -> Result<(), Fail> {
    let mut proxy = new_proxy(rt.alloc(), true)?;
    for less in 1_u64..400 {
        assert_eq!(rt; ready_at(rt.alloc(), &mut proxy, 1_000 - less)?, (0, 0));
    }
    assert_eq!(rt; ready_at(rt.alloc(), &mut proxy, 1_001)?, (0, 0));
    // One of them waits for another number.
    let effects = bring(rt.alloc(), &mut proxy, What::Gap(1, 601))??;
    assert!(rt; are_ready(&effects, 601, 1_000));
    assert_eq!(rt; ready_at(rt.alloc(), &mut proxy, 1_000)?, (2, 1_001));
    Ok(())
}

#[test]
fn all_are_released_at_once(rt: HostRuntime) -> Result<(), Fail> {
    let mut proxy = new_proxy(rt.alloc(), true)?;
    assert!(rt; fill(rt.alloc(), &mut proxy)?);
    let effects = bring(rt.alloc(), &mut proxy, What::Gap(1, 2))??;
    assert!(rt; are_ready(&effects, 2, 65_538));
    // Later ones wait and are released as before.
    assert_eq!(rt; ready_at(rt.alloc(), &mut proxy, 65_539)?, (0, 0));
    assert_eq!(rt; ready_at(rt.alloc(), &mut proxy, 65_538)?, (2, 65_539));
    Ok(())
}

#[test]
fn there_is_room_for_so_many(rt: HostRuntime) -> Result<(), Fail> {
    let mut proxy = new_proxy(rt.alloc(), true)?;
    // 65,536 changes wait for the first one.
    assert!(rt; fill(rt.alloc(), &mut proxy)?);
    // Number 1 needs no room, and releases them.
    assert_eq!(rt; ready_at(rt.alloc(), &mut proxy, 1)?, (65_537, 65_537));
    // The one without room was dropped, so it is accepted now.
    assert_eq!(rt; ready_at(rt.alloc(), &mut proxy, 65_538)?, (1, 65_538));
    Ok(())
}

#[test]
fn one_fragment_is_a_change(rt: HostRuntime) -> Result<(), Fail> {
    let rows: [Row; 3] = [
        (What::Fragment(2), 0, &[], &[(2, 2)], &[]),
        (What::Fragment(1), 0, &[1, 2], &[], &[]),
        (What::Whole(1), 0, &[], &[], &[]),
    ];
    assert_eq!(rt; first_unmet(rt.alloc(), true, &rows)?, None);
    Ok(())
}

/// Sends every second number, and then a change with a long payload: all are held.
fn spread(alloc: Global, proxy: &mut WriterProxy, payload: &[u8]) -> Result<bool, Fail> {
    for count in 1_u64..1_000 {
        if ready_at(alloc, proxy, 2 * count)? != (0, 0) || proxy.runs().len() as u64 != count {
            return Ok(false);
        }
    }
    let long = Whole {
        payload,
        ..whole_of(MAX)?
    };
    let effects = proxy.on_whole(alloc, None, &long)?;
    Ok(last_ready(effects) == (0, 0) && proxy.runs().len() == 1_000)
}

#[test]
fn many_runs_and_long_payloads_are_kept(rt: HostRuntime) -> Result<(), Fail> {
    let payload = [0x5a; 65_463];
    let mut proxy = new_proxy(rt.alloc(), true)?;
    assert!(rt; spread(rt.alloc(), &mut proxy, &payload)?);
    // Number 1 releases number 2, and no other.
    assert_eq!(rt; ready_at(rt.alloc(), &mut proxy, 1)?, (2, 2));
    Ok(())
}
