//! Changes that come in fragments, for a reliable reader.

use super::{FRONT, INFO, LOCATOR, Row, What, bring, meets, new_proxy, number_of};
use crate::{Change, Effects, WriterProxy};
use rtps_receiver::{Fragment, HeartbeatFrag};
use rtps_types::Timestamp;
use rtps_wire::{ChangeInfo, Form};
use std::alloc::{Allocator, Global};
use std::test::Fail;

/// Returns one of the two fragments of a change of four octets, `abcd`.
pub(super) fn half_of(value: u64, start: u32) -> Result<Fragment<'static>, Fail> {
    let payload: &'static [u8] = if start == 1 { b"ab" } else { b"cd" };
    Ok(Fragment {
        number: number_of(value)?,
        start,
        count: 1,
        size: 2,
        sample: 4,
        info: INFO,
        payload,
    })
}

/// Returns the number of ready changes, and the number of the last one, or 0.
fn last_of<A: Allocator>(effects: Effects<'_, A>) -> (usize, u64) {
    match effects.ready.last() {
        None => (0, 0),
        Some(change) => (effects.ready.len(), change.number.get()),
    }
}

/// An event.
#[derive(Clone, Copy)]
pub(super) enum Step {
    /// One of the two fragments of the change with this number.
    Half(u64, u32),
    /// The change with this number.
    Whole(u64),
    /// A GAP from the first number to the second one, without the second.
    Gap(u64, u64),
}

/// Passes an event to a proxy and returns its effects.
pub(super) fn given_at(
    alloc: Global,
    proxy: &mut WriterProxy,
    step: Step,
) -> Result<Effects<'static>, Fail> {
    Ok(match step {
        Step::Half(number, start) => proxy.on_fragment(alloc, None, &half_of(number, start)?)?,
        Step::Whole(number) => bring(alloc, proxy, What::Whole(number))??,
        Step::Gap(start, base) => bring(alloc, proxy, What::Gap(start, base))??,
    })
}

/// Passes an event to a proxy and returns [`last_of`] its effects.
fn ready_at(alloc: Global, proxy: &mut WriterProxy, step: Step) -> Result<(usize, u64), Fail> {
    Ok(last_of(given_at(alloc, proxy, step)?))
}

/// Returns the index of the first step after which other changes are ready than expected.
fn first_unlike(
    alloc: Global,
    proxy: &mut WriterProxy,
    steps: &[(Step, (usize, u64))],
) -> Result<Option<usize>, Fail> {
    for (at, (step, ready)) in steps.iter().enumerate() {
        if ready_at(alloc, proxy, *step)? != *ready {
            return Ok(Some(at));
        }
    }
    Ok(None)
}

/// Sends a first fragment of the changes from `from` to `to`, without `to`. Returns whether none is
/// ready.
pub(super) fn begin(
    alloc: Global,
    proxy: &mut WriterProxy,
    from: u64,
    to: u64,
) -> Result<bool, Fail> {
    for number in from..to {
        if ready_at(alloc, proxy, Step::Half(number, 1))? != (0, 0) {
            return Ok(false);
        }
    }
    Ok(true)
}

/// Sends the changes from `from` to `to`, without `to`. Returns whether none is ready.
fn fill(alloc: Global, proxy: &mut WriterProxy, from: u64, to: u64) -> Result<bool, Fail> {
    for number in from..to {
        if ready_at(alloc, proxy, Step::Whole(number))? != (0, 0) {
            return Ok(false);
        }
    }
    Ok(true)
}

/// Whether a change is number 1 with this time, the payload `abcd`, and what fragment 2 said.
pub(super) fn is_told<A: Allocator>(change: &Change<'_, A>, sent: Timestamp) -> bool {
    change.number.get() == 1
        && change.time == Some(sent)
        && change.info == INFO
        && change.payload.as_slice() == b"abcd".as_slice()
}

/// Fragment 2 arrives first, so its time and inline QoS count; those of fragment 1 are ignored.
#[test]
fn the_first_one_tells_all(rt: HostRuntime) -> Result<(), Fail> {
    let alloc = rt.alloc();
    let mut proxy = new_proxy(alloc, true)?;
    let sent = Timestamp {
        seconds: 5,
        fraction: 6,
    };
    let early = proxy.on_fragment(alloc, Some(sent), &half_of(1, 2)?)?;
    assert_eq!(rt; last_of(early), (0, 0));
    let told = ChangeInfo {
        form: Form::Value,
        status: 0,
        hash: None,
    };
    let first = Fragment {
        info: told,
        ..half_of(1, 1)?
    };
    let effects = proxy.on_fragment(alloc, None, &first)?;
    assert_eq!(rt; effects.ready.len(), 1);
    assert!(rt; is_told(&effects.ready[0], sent));
    Ok(())
}

/// A complete change waits for lesser numbers, and is accepted once. A DATA or a GAP of its number
/// drops a pending sample.
#[test]
fn whole_ones_wait_for_earlier_ones(rt: HostRuntime) -> Result<(), Fail> {
    let mut proxy = new_proxy(rt.alloc(), true)?;
    let steps = [
        (Step::Half(2, 1), (0, 0)),
        (Step::Half(2, 2), (0, 0)),
        (Step::Half(2, 2), (0, 0)),
        (Step::Half(1, 2), (0, 0)),
        (Step::Half(1, 1), (2, 2)),
        (Step::Half(1, 1), (0, 0)),
        (Step::Half(3, 1), (0, 0)),
        (Step::Whole(3), (1, 3)),
        (Step::Half(3, 2), (0, 0)),
        (Step::Half(4, 1), (0, 0)),
        (Step::Gap(4, 5), (0, 0)),
        (Step::Half(4, 2), (0, 0)),
        (Step::Whole(5), (1, 5)),
    ];
    assert_eq!(rt; first_unlike(rt.alloc(), &mut proxy, &steps)?, None);
    Ok(())
}

/// Fragments with other sizes than the first ones, or with a fault, are ignored.
#[test]
fn unlike_sizes_stay_out(rt: HostRuntime) -> Result<(), Fail> {
    let mut proxy = new_proxy(rt.alloc(), true)?;
    let begun = [(Step::Half(1, 1), (0, 0))];
    assert_eq!(rt; first_unlike(rt.alloc(), &mut proxy, &begun)?, None);
    let longer = Fragment {
        sample: 3,
        ..half_of(1, 2)?
    };
    let behind = Fragment {
        start: 3,
        ..half_of(1, 2)?
    };
    let unlike = last_of(proxy.on_fragment(rt.alloc(), None, &longer)?);
    let faulty = last_of(proxy.on_fragment(rt.alloc(), None, &behind)?);
    assert_eq!(rt; (unlike, faulty), ((0, 0), (0, 0)));
    let rest = [(Step::Half(1, 2), (1, 1))];
    assert_eq!(rt; first_unlike(rt.alloc(), &mut proxy, &rest)?, None);
    Ok(())
}

/// 64 samples are pending; one more is accepted only if it is the next one in order.
#[test]
fn there_are_64_seats(rt: HostRuntime) -> Result<(), Fail> {
    let mut proxy = new_proxy(rt.alloc(), true)?;
    assert!(rt; begin(rt.alloc(), &mut proxy, 2, 66)?);
    let steps = [
        // 66 is refused; 1 needs no seat, and takes none from the others.
        (Step::Half(66, 1), (0, 0)),
        (Step::Half(1, 1), (0, 0)),
        (Step::Half(65, 2), (0, 0)),
        (Step::Half(1, 2), (1, 1)),
        // 65 left its seat to 66; no fragment of 66 was accepted before.
        (Step::Half(66, 2), (0, 0)),
        (Step::Gap(2, 65), (1, 65)),
        (Step::Half(66, 1), (1, 66)),
    ];
    assert_eq!(rt; first_unlike(rt.alloc(), &mut proxy, &steps)?, None);
    Ok(())
}

/// 65,536 changes are held: then a pending sample accepts no more fragments, but the next one in
/// order does.
#[test]
fn room_is_for_each_fragment(rt: HostRuntime) -> Result<(), Fail> {
    let mut proxy = new_proxy(rt.alloc(), true)?;
    assert!(rt; begin(rt.alloc(), &mut proxy, 65_538, 65_539)?);
    assert!(rt; fill(rt.alloc(), &mut proxy, 2, 65_538)?);
    let steps = [
        (Step::Half(65_538, 2), (0, 0)),
        (Step::Half(1, 1), (0, 0)),
        (Step::Half(1, 2), (65_537, 65_537)),
        (Step::Half(65_538, 2), (1, 65_538)),
    ];
    assert_eq!(rt; first_unlike(rt.alloc(), &mut proxy, &steps)?, None);
    Ok(())
}

/// A HEARTBEAT_FRAG, as its number, its last fragment and its count; and the expected answer after
/// the writerSN, empty where there is none.
type Asked = ((u64, u32, i32), &'static [u8]);

/// The first octets of each answer about number 1 or 2: NACK_FRAG and the two entities.
const NACK: &[u8] = b"\x12\x01\x20\x00\x00\x00\x01\x07\x00\x00\x01\x02\x00\x00\x00\x00";

/// Whether the HEARTBEAT_FRAG has the expected answer.
fn is_answered(alloc: Global, proxy: &mut WriterProxy, asked: &Asked) -> Result<bool, Fail> {
    let (number, last, count) = asked.0;
    let heartbeat = HeartbeatFrag {
        number: number_of(number)?,
        last,
        count,
    };
    let Effects {
        lost,
        ready,
        answer,
    } = proxy.on_heartbeat_frag(alloc, None, &heartbeat)?;
    if lost != 0 || !ready.is_empty() {
        return Ok(false);
    }
    let Some(answer) = answer else {
        return Ok(asked.1.is_empty());
    };
    let Some(body) = answer.octets.as_slice().strip_prefix(FRONT) else {
        return Ok(false);
    };
    Ok(body.strip_prefix(NACK) == Some(asked.1) && answer.to.as_slice() == [LOCATOR].as_slice())
}

/// Whether each HEARTBEAT_FRAG has the expected answer.
fn are_answered(alloc: Global, proxy: &mut WriterProxy, all: &[Asked]) -> Result<bool, Fail> {
    for asked in all {
        if !is_answered(alloc, proxy, asked)? {
            return Ok(false);
        }
    }
    Ok(true)
}

/// Base 1, one bit, fragment 1, and then the count.
const FIRST: [&[u8]; 2] = [
    b"\x01\x00\x00\x00\x01\x00\x00\x00\x01\x00\x00\x00\x00\x00\x00\x80\x01\x00\x00\x00",
    b"\x01\x00\x00\x00\x01\x00\x00\x00\x01\x00\x00\x00\x00\x00\x00\x80\x03\x00\x00\x00",
];

/// Number 2, base 1, three bits, fragments 1 to 3, count 2.
const THREE: &[u8] =
    b"\x02\x00\x00\x00\x01\x00\x00\x00\x03\x00\x00\x00\x00\x00\x00\xe0\x02\x00\x00\x00";

/// ACKNACK for number 2, with count 1.
const MISSING: &[u8] = b"\x06\x01\x1c\x00\
    \x00\x00\x01\x07\x00\x00\x01\x02\
    \x00\x00\x00\x00\x02\x00\x00\x00\
    \x01\x00\x00\x00\
    \x00\x00\x00\x80\
    \x01\x00\x00\x00";

/// Fragment 2 of number 1 was received. Missing fragments are asked for up to the last one of the
/// HEARTBEAT_FRAG and of the sample. A HEARTBEAT_FRAG with an old count or a settled number does
/// nothing.
#[test]
fn missing_fragments_are_asked_for(rt: HostRuntime) -> Result<(), Fail> {
    let mut proxy = new_proxy(rt.alloc(), true)?;
    let begun = [(Step::Half(1, 2), (0, 0))];
    assert_eq!(rt; first_unlike(rt.alloc(), &mut proxy, &begun)?, None);
    let asked: [Asked; 4] = [
        ((1, 2, 1), FIRST[0]),
        ((1, 2, 1), &[]),
        ((2, 3, 2), THREE),
        ((1, 9, 3), FIRST[1]),
    ];
    assert!(rt; are_answered(rt.alloc(), &mut proxy, &asked)?);
    let rest = [(Step::Half(1, 1), (1, 1))];
    assert_eq!(rt; first_unlike(rt.alloc(), &mut proxy, &rest)?, None);
    let settled: [Asked; 2] = [((1, 2, 4), &[]), ((2, 3, 4), &[])];
    assert!(rt; are_answered(rt.alloc(), &mut proxy, &settled)?);
    // ACKNACKs have a count of their own.
    let rows: Row = (What::Asking(1, 2, 1), 0, &[], &[], MISSING);
    assert!(rt; meets(rt.alloc(), &mut proxy, &rows)?);
    Ok(())
}
