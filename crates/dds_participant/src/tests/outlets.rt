//! Outlets that are attached to readers.

ghost use Rattle.std.specs.Prelude.{◌≤◌};

use super::lent::lend;
use super::moments::ANNOUNCES;
use super::routed::COMES;
use super::{
    ALL, DATA, HEARTBEAT, LATER, Line, Said, config, push_lines, reader_config, said_by, take,
    unmatched,
};
use crate::*;
use dds_outlet::{Inlet, outlet};
use dds_topic::{Shape, Shapes};
use rtps_run::BatchOutput;
use rtps_shards::NoGate;
use std::alloc::{AllocError, Global};
use std::test::Fail;
use std::thread::Threads;

/// DATA with number 3 and the shape BLUE at 10, 20 of size 30, for every reader.
pub(super) const THIRD: &[u8] = b"RTPS\x02\x05\x00\x00\
    \x0a\x0a\x0a\x0a\x0a\x0a\x0a\x0a\x0a\x0a\x0a\x0a\
    \x15\x05\x30\x00\x00\x00\x10\x00\x00\x00\x00\x00\x00\x00\x01\x02\
    \x00\x00\x00\x00\x03\x00\x00\x00\
    \x00\x01\x00\x00\x05\x00\x00\x00BLUE\x00\x00\x00\x00\
    \x0a\x00\x00\x00\x14\x00\x00\x00\x1e\x00\x00\x00";

/// What comes out of a ring: the datagram that caused each notice, and what it says.
pub(super) type Heard = (u64, Said);

/// Pops all notices that are in a ring now.
pub(super) fn heard(alloc: Global, inlet: &mut Inlet<Shape>) -> Result<Vec<Heard>, AllocError> {
    let mut all = Vec::new(alloc);
    for _ in 0..inlet.capacity() {
        let Some(notice) = inlet.pop() else {
            break;
        };
        all.push((notice.place.datagram, said_by(&notice)))?;
    }
    Ok(all)
}

/// A participant of two readers, of which the second has an outlet, and the other end of its ring.
fn attached(alloc: Global, places: usize) -> Result<(Participant<Shapes>, Inlet<Shape>), Fail>
    requires { (1 ≤ places) × (places ≤ 65536) }
{
    let mut participant = Participant::new(alloc, config(alloc)?, Shapes)?;
    let (outlet, inlet) = outlet(alloc, places)?;
    match participant.attach(1, outlet) {
        Ok(()) => Ok((participant, inlet)),
        Err(_refused) => Err(Fail::new("the outlet isn't attached")),
    }
}

#[test]
fn a_reader_has_one_outlet(rt: HostRuntime) -> Result<(), Fail> {
    let alloc = rt.alloc();
    let mut participant = Participant::new(alloc, config(alloc)?, Shapes)?;
    let (mut first, _inlet) = outlet(alloc, 2)?;
    for rank in [2, u32::MAX] {
        let Err((back, fault)) = participant.attach(rank, first) else {
            return Err(Fail::new("there is no such reader"));
        };
        assert_eq!(rt; fault, AttachFault::NoReader);
        assert!(rt; participant.detach(rank).is_none());
        assert_eq!(rt; participant.deliver(rank), 0);
        first = back;
    }
    assert!(rt; participant.detach(1).is_none());
    assert!(rt; participant.attach(1, first).is_ok());
    let (second, _inlet) = outlet(alloc, 2)?;
    let Err((second, fault)) = participant.attach(1, second) else {
        return Err(Fail::new("the reader has two outlets"));
    };
    assert_eq!(rt; fault, AttachFault::Attached);
    assert!(rt; participant.attach(0, second).is_ok());
    let (third, _inlet) = outlet(alloc, 2)?;
    let Some((_first, backlog)) = participant.detach(1) else {
        return Err(Fail::new("the outlet is gone"));
    };
    assert!(rt; backlog.is_empty());
    assert!(rt; participant.attach(1, third).is_ok());
    Ok(())
}

#[test]
fn a_backlog_waits_while_the_ring_is_full(rt: HostRuntime) -> Result<(), Fail> {
    let alloc = rt.alloc();
    let (mut participant, mut inlet) = attached(alloc, 2)?;
    let mut lines = Vec::new(alloc);
    let batches: [(&[&[u8]], usize); 3] = [(&[DATA], 0), (&[HEARTBEAT, LATER], 0), (&[THIRD], 1)];
    for (datagrams, left) in batches {
        take(
            &rt,
            alloc,
            &NoGate,
            &mut participant,
            (datagrams, 2),
            &mut lines,
        )?;
        assert_eq!(rt; participant.deliver(1), left);
    }
    let before = heard(alloc, &mut inlet)?;
    assert!(rt; before.as_slice() == OF_THE_SECOND.as_slice());
    assert_eq!(rt; participant.deliver(1), 0);
    let after = heard(alloc, &mut inlet)?;
    assert!(rt; after.as_slice() == [(3, Said::Blue(3))].as_slice());
    Ok(())
}

/// The outcome of the three datagrams where the second reader has an outlet: the notices of the
/// first reader, and the answers of both.
const WITHOUT_THE_SECOND: [Line; 4] = [
    (Some(0), 0, Said::Blue(1)),
    (Some(0), 1, Said::Answer),
    (Some(1), 1, Said::Answer),
    (Some(1), 2, Said::Answer),
];

/// What the second reader reports for the three datagrams.
const OF_THE_SECOND: [Heard; 2] = [(0, Said::Blue(1)), (2, Said::Lost(1))];

/// Whether the notices of the second reader, and nothing else, are missing from the outcome and
/// come out of its ring.
fn parts_the_outcome<R: Threads + Sync>(rt: &R, alloc: Global, workers: usize) -> Result<bool, Fail>
    requires { (1 ≤ workers) × (workers ≤ 64) }
{
    let (mut participant, mut inlet) = attached(alloc, 4)?;
    let mut lines = Vec::new(alloc);
    take(
        rt,
        alloc,
        &NoGate,
        &mut participant,
        (&ALL, workers),
        &mut lines,
    )?;
    Ok(
        participant.deliver(1) == 0
            && lines.as_slice() == WITHOUT_THE_SECOND.as_slice()
            && heard(alloc, &mut inlet)?.as_slice() == OF_THE_SECOND.as_slice(),
    )
}

/// The same for `run_in_order`, which fills the caller's lists.
fn parts_the_lists<R: Threads + Sync>(rt: &R, alloc: Global, workers: usize) -> Result<bool, Fail>
    requires { (1 ≤ workers) × (workers ≤ 64) }
{
    let (mut participant, mut inlet) = attached(alloc, 4)?;
    let mut given = BatchOutput::new(alloc);
    let counts = lend(rt, alloc, &mut participant, (&ALL, workers), &mut given)?;
    Ok(
        participant.deliver(1) == 0
            && counts.as_slice() == [(1, 1), (0, 2)].as_slice()
            && given.places.len() == 3
            && heard(alloc, &mut inlet)?.as_slice() == OF_THE_SECOND.as_slice(),
    )
}

#[test]
fn notices_are_in_the_outcome_or_in_the_backlog(rt: HostRuntime) -> Result<(), Fail> {
    for workers in [1, 2, 7] {
        assert!(rt; parts_the_outcome(&rt, rt.alloc(), workers)?);
        assert!(rt; parts_the_lists(&rt, rt.alloc(), workers)?);
    }
    Ok(())
}

#[test]
fn what_comes_while_nothing_is_attached_is_in_the_outcome(rt: HostRuntime) -> Result<(), Fail> {
    let alloc = rt.alloc();
    let (mut participant, mut inlet) = attached(alloc, 2)?;
    let mut given = BatchOutput::new(alloc);
    lend(&rt, alloc, &mut participant, (&[DATA], 2), &mut given)?;
    let Some((outlet, backlog)) = participant.detach(1) else {
        return Err(Fail::new("the outlet is gone"));
    };
    assert_eq!(rt; backlog.len(), 1);
    let between = lend(
        &rt,
        alloc,
        &mut participant,
        (&[HEARTBEAT, LATER], 2),
        &mut given,
    )?;
    assert!(rt; between.as_slice() == [(0, 1), (1, 2)].as_slice());
    assert!(rt; participant.attach(1, outlet).is_ok());
    lend(&rt, alloc, &mut participant, (&[THIRD], 2), &mut given)?;
    assert_eq!(rt; participant.deliver(1), 0);
    assert!(rt; heard(alloc, &mut inlet)?.as_slice() == [(3, Said::Blue(3))].as_slice());
    Ok(())
}

/// The second reader, which has an outlet, goes while one notice waits. What is heard after that is
/// what came before, and the end of its match.
fn goes_with_an_outlet<R: Threads + Sync>(
    rt: &R,
    alloc: Global,
    participant: &mut Participant<Shapes>,
    lines: &mut Vec<Line>,
) -> Result<Vec<Heard>, Fail> {
    let (outlet, mut inlet) = outlet(alloc, 4)?;
    let added = participant.add_reader(alloc, reader_config(alloc, 1)?)?;
    push_lines(&added.1.in_order(alloc)?, lines)?;
    if participant.attach(1, outlet).is_err() {
        return Err(Fail::new("the outlet isn't attached"));
    }
    take(rt, alloc, &NoGate, participant, (&[DATA], 2), lines)?;
    let last = participant.remove_reader(alloc, 1)?.in_order(alloc)?;
    push_lines(&last, lines)?;
    take(rt, alloc, &NoGate, participant, (&[THIRD], 2), lines)?;
    if participant.deliver(1) != 0 {
        return Err(Fail::new("the ring is full"));
    }
    Ok(heard(alloc, &mut inlet)?)
}

/// The lines of the outcomes meanwhile: the new reader comes when nothing is attached to it, and
/// the first reader waits for number 2.
const WITHOUT_THE_LAST: [Line; 3] = [
    (Some(0), 1, Said::Matched(1)),
    (Some(1), 2, Said::Matched(1)),
    (Some(0), 2, Said::Blue(1)),
];

#[test]
fn an_outlet_takes_the_last_notices_of_its_reader(rt: HostRuntime) -> Result<(), Fail> {
    let alloc = rt.alloc();
    let mut participant = Participant::new(alloc, unmatched(alloc, 1)?, Shapes)?;
    let mut lines = Vec::new(alloc);
    take(
        &rt,
        alloc,
        &NoGate,
        &mut participant,
        (&[COMES, ANNOUNCES], 2),
        &mut lines,
    )?;
    let told = goes_with_an_outlet(&rt, alloc, &mut participant, &mut lines)?;
    assert!(rt; told.as_slice() == [(2, Said::Blue(1)), (3, Said::Unmatched(1))].as_slice());
    assert!(rt; lines.as_slice() == WITHOUT_THE_LAST.as_slice());
    Ok(())
}

#[test]
fn an_outlet_stays_when_its_reader_goes(rt: HostRuntime) -> Result<(), Fail> {
    let alloc = rt.alloc();
    let (mut participant, mut inlet) = attached(alloc, 2)?;
    let _last = participant.remove_reader(alloc, 1)?;
    // Both while the outlet is attached and after that.
    for is_attached in [true, false] {
        let (second, _inlet) = outlet(alloc, 2)?;
        let Err((_second, fault)) = participant.attach(1, second) else {
            return Err(Fail::new("the reader is gone"));
        };
        assert_eq!(rt; fault, AttachFault::NoReader);
        assert_eq!(rt; participant.deliver(1), 0);
        assert_eq!(rt; participant.detach(1).is_some(), is_attached);
    }
    // A fixed match ends untold.
    assert!(rt; heard(alloc, &mut inlet)?.is_empty());
    let (rank, _begun) = participant.add_reader(alloc, reader_config(alloc, 1)?)?;
    let (third, _inlet) = outlet(alloc, 2)?;
    assert!(rt; participant.attach(rank, third).is_ok());
    Ok(())
}

#[test]
fn a_backlog_keeps_the_last_notices_until_it_is_detached(rt: HostRuntime) -> Result<(), Fail> {
    let alloc = rt.alloc();
    let mut participant = Participant::new(alloc, unmatched(alloc, 1)?, Shapes)?;
    let mut lines = Vec::new(alloc);
    let (outlet, mut inlet) = outlet(alloc, 1)?;
    assert!(rt; participant.attach(0, outlet).is_ok());
    take(
        &rt,
        alloc,
        &NoGate,
        &mut participant,
        (&[COMES, ANNOUNCES, DATA], 2),
        &mut lines,
    )?;
    assert_eq!(rt; participant.deliver(0), 1);
    let last = participant.remove_reader(alloc, 0)?;
    assert!(rt; last.notices.len() == 1 && last.notices[0].is_empty());
    assert_eq!(rt; participant.deliver(0), 2);
    let Some((_outlet, backlog)) = participant.detach(0) else {
        return Err(Fail::new("the outlet is gone"));
    };
    assert_eq!(rt; backlog.len(), 2);
    let first = heard(alloc, &mut inlet)?;
    assert!(rt; first.as_slice() == [(1, Said::Matched(1))].as_slice());
    Ok(())
}
