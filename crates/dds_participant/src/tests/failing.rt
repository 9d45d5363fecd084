//! Batches that run out of memory.

use super::moments::ANNOUNCES;
use super::outlets::{THIRD, heard};
use super::publishing::{looks, shown};
use super::routed::COMES;
use super::{DATA, HEARTBEAT, LATER, Said, at_once, config, reader_config};
use crate::*;
use dds_outlet::{Inlet, outlet};
use dds_topic::{FailingCatalog, Shape, Shapes};
use rtps_reader::Status;
use rtps_run::{BatchOutput, EngineError};
use rtps_shards::NoGate;
use std::alloc::Global;
use std::sync::Wait;
use std::sync::atomic::AtomicU64;
use std::test::Fail;
use std::thread::Threads;

/// Returns why a participant refuses a batch, or `None` if it takes it.
fn refusal<R: Threads + Sync>(
    rt: &R,
    alloc: Global,
    participant: &mut Participant<FailingCatalog<Shapes>>,
    datagrams: &[&[u8]],
) -> Result<Option<EngineError>, Fail> {
    let datagrams = at_once(alloc, datagrams)?;
    if !is_batch(&datagrams) {
        return Err(Fail::new("the batch is too large"));
    }
    Ok(
        participant
            .run_batch(rt, alloc, &NoGate, &datagrams, 2)
            .err(),
    )
}

/// The number of samples that the first reader presented, if there is one.
fn samples(participant: &Participant<FailingCatalog<Shapes>>) -> Option<u32> {
    match participant.status(0) {
        Some(Status { samples, .. }) => Some(samples),
        None => None,
    }
}

/// Whether a participant takes the batch twice, or fails for good.
fn takes_or_fails<R: Threads + Sync>(
    rt: &R,
    alloc: Global,
    participant: &mut Participant<FailingCatalog<Shapes>>,
    is_refused: bool,
) -> Result<bool, Fail> {
    let first = refusal(rt, alloc, participant, &[DATA, HEARTBEAT])?;
    let second = refusal(rt, alloc, participant, &[DATA, HEARTBEAT])?;
    let tick = participant.tick(alloc, 1).err();
    if !is_refused {
        return Ok(
            first.is_none()
                && second.is_none()
                && tick.is_none()
                && samples(participant) == Some(1),
        );
    }
    Ok(
        first == Some(EngineError::NoMemory)
            && second == Some(EngineError::Failed)
            && tick == Some(EngineError::Failed)
            && samples(participant) == Some(0)
            && participant.batches() == 0
            && participant.matches(alloc).err() == Some(EngineError::Failed),
    )
}

/// A participant that finds no memory for value number `refused`.
fn starving(alloc: Global, refused: u64) -> Result<Participant<FailingCatalog<Shapes>>, Fail> {
    let catalog = FailingCatalog {
        catalog: Shapes,
        fails_at: refused,
        decoded: AtomicU64::new(0),
    };
    Ok(Participant::new(alloc, config(alloc)?, catalog)?)
}

/// Whether a participant that finds no memory for value number `refused` takes a batch of two
/// values twice, or fails for good if the value is one of them.
fn fails_at<R: Threads + Sync>(rt: &R, alloc: Global, refused: u64) -> Result<bool, Fail> {
    let mut participant = starving(alloc, refused)?;
    takes_or_fails(rt, alloc, &mut participant, refused < 2)
}

#[test]
fn a_batch_out_of_memory_fails_a_participant(rt: HostRuntime) -> Result<(), Fail> {
    for refused in [0, 1, 2] {
        assert!(rt; fails_at(&rt, rt.alloc(), refused)?);
    }
    Ok(())
}

/// Whether the row, the backlog and the outlet of the second reader are those after the first
/// batch, which brought it a sample.
fn stands_after_the_first<R: Wait>(
    rt: &R,
    alloc: Global,
    participant: &mut Participant<FailingCatalog<Shapes>>,
    inlet: &mut Inlet<Shape>,
) -> Result<bool, Fail> {
    Ok(
        shown(rt, alloc, participant)? == looks(1, 0)
            && participant.deliver(1) == 0
            && heard(alloc, inlet)?.as_slice() == [(0, Said::Blue(1))].as_slice()
            && participant.detach(1).is_some(),
    )
}

#[test]
fn a_batch_out_of_memory_adds_nothing_to_a_backlog(rt: HostRuntime) -> Result<(), Fail> {
    let alloc = rt.alloc();
    let mut participant = starving(alloc, 2)?;
    let (outlet, mut inlet) = outlet(alloc, 4)?;
    assert!(rt; participant.attach(1, outlet).is_ok());
    assert_eq!(rt; refusal(&rt, alloc, &mut participant, &[DATA])?, None);
    let batch: [&[u8]; 3] = [HEARTBEAT, LATER, THIRD];
    for fault in [EngineError::NoMemory, EngineError::Failed] {
        assert_eq!(rt; refusal(&rt, alloc, &mut participant, &batch)?, Some(fault));
    }
    assert!(rt; stands_after_the_first(&rt, alloc, &mut participant, &mut inlet)?);
    Ok(())
}

/// Whether readers are refused for this error alone, also one that is bad and one that isn't there,
/// and the statuses stay as they are.
fn refuses_readers(
    alloc: Global,
    participant: &mut Participant<FailingCatalog<Shapes>>,
) -> Result<bool, Fail> {
    let before = [participant.status(0), participant.status(1)];
    let ranks = participant.readers();
    let batches = participant.batches();
    let mut refused = true;
    for rank in [0, 1, 2] {
        let added = participant
            .add_reader(alloc, reader_config(alloc, rank)?)
            .err();
        let removed = participant.remove_reader(alloc, u32::from(rank)).err();
        refused = refused
            && added == Some(EngineError::Failed)
            && removed == Some(EngineError::Failed);
    }
    Ok(
        refused
            && [participant.status(0), participant.status(1)] == before
            && participant.readers() == ranks
            && participant.batches() == batches,
    )
}

#[test]
fn a_failed_participant_takes_no_readers(rt: HostRuntime) -> Result<(), Fail> {
    let alloc = rt.alloc();
    let mut participant = starving(alloc, 0)?;
    let fault = refusal(&rt, alloc, &mut participant, &[DATA])?;
    assert_eq!(rt; fault, Some(EngineError::NoMemory));
    assert!(rt; refuses_readers(alloc, &mut participant)?);
    Ok(())
}

/// The number of ranks, the number of batches, and the statuses of the first three ranks.
fn shown_by(participant: &Participant<FailingCatalog<Shapes>>) -> (u32, u64, [Option<Status>; 3]) {
    let statuses = [
        participant.status(0),
        participant.status(1),
        participant.status(2),
    ];
    (participant.readers(), participant.batches(), statuses)
}

/// Whether a reader comes and goes, or the first call that finds no memory fails a participant,
/// which shows what it showed before.
fn comes_and_goes_or_fails(
    alloc: Global,
    participant: &mut Participant<FailingCatalog<Shapes>>,
) -> Result<bool, Fail> {
    let before = shown_by(participant);
    let added = participant.add_reader(alloc, reader_config(alloc, 2)?);
    match added.map(|(rank, outcome)| (rank, outcome.notices.len())) {
        Ok((2, 3)) => {}
        Err(EngineError::NoMemory) => {
            return Ok(shown_by(participant) == before && refuses_readers(alloc, participant)?);
        }
        _ => return Ok(false),
    }
    let before = shown_by(participant);
    let removed = participant.remove_reader(alloc, 2);
    match removed.map(|outcome| outcome.notices.len()) {
        Ok(3) => Ok(participant.status(2).is_none()),
        Err(EngineError::NoMemory) => {
            Ok(shown_by(participant) == before && refuses_readers(alloc, participant)?)
        }
        _ => Ok(false),
    }
}

/// `rt try --test --fail-alloc N` refuses one growth, at one of both calls or elsewhere.
#[test]
fn a_reader_has_an_outcome_or_fails_a_participant(rt: HostRuntime) -> Result<(), Fail> {
    let alloc = rt.alloc();
    let mut participant = starving(alloc, 1000)?;
    let fault = refusal(&rt, alloc, &mut participant, &[COMES, ANNOUNCES])?;
    assert_eq!(rt; fault, None);
    assert!(rt; comes_and_goes_or_fails(alloc, &mut participant)?);
    Ok(())
}

/// The calls that take an input.
#[derive(Clone, Copy, Debug)]
enum Call {
    RunBatch,
    RunInOrder,
    Tick,
    TickInOrder,
    AddReader,
    RemoveReader,
}

const CALLS: [Call; 6] = [
    Call::RunBatch,
    Call::RunInOrder,
    Call::Tick,
    Call::TickInOrder,
    Call::AddReader,
    Call::RemoveReader,
];

/// Returns why a participant refuses a call, or `None` where it has an outcome. A batch has these
/// datagrams, and results in order replace the lists.
fn fault_of<R: Threads + Sync>(
    (rt, alloc): (&R, Global),
    participant: &mut Participant<FailingCatalog<Shapes>>,
    call: Call,
    datagrams: &[&[u8]],
    given: &mut BatchOutput<Shape>,
) -> Result<Option<EngineError>, Fail> {
    let datagrams = at_once(alloc, datagrams)?;
    if !is_batch(&datagrams) {
        return Err(Fail::new("the batch is too large"));
    }
    let workers = Workers {
        count: 2,
        gate: &NoGate,
    };
    Ok(match call {
        Call::RunBatch => participant
            .run_batch(rt, alloc, &NoGate, &datagrams, 2)
            .err(),
        Call::RunInOrder => participant
            .run_in_order(rt, alloc, &workers, &datagrams, given)
            .err(),
        Call::Tick => participant.tick(alloc, 1).err(),
        Call::TickInOrder => participant.tick_in_order(alloc, 1, given).err(),
        Call::AddReader => participant
            .add_reader(alloc, reader_config(alloc, 2)?)
            .err(),
        Call::RemoveReader => participant.remove_reader(alloc, 0).err(),
    })
}

/// Whether a participant that has failed refuses each call, shows what it showed, and leaves the
/// lists of a batch of one event.
fn refuses_each<R: Threads + Sync>(
    (rt, alloc): (&R, Global),
    participant: &mut Participant<FailingCatalog<Shapes>>,
    given: &mut BatchOutput<Shape>,
) -> Result<bool, Fail> {
    let before = shown_by(participant);
    for call in CALLS {
        let fault = fault_of((rt, alloc), participant, call, &[DATA], given)?;
        if fault != Some(EngineError::Failed) {
            return Ok(false);
        }
    }
    Ok(
        shown_by(participant) == before
            && given.places.len() == 1
            && participant.matches(alloc).err() == Some(EngineError::Failed),
    )
}

/// Whether a call that finds no memory for the third value empties the lists of its caller, and
/// leaves a participant that refuses each call, and whose outlet goes on.
fn fails_for_good<R: Threads + Sync>(rt: &R, alloc: Global, call: Call) -> Result<bool, Fail> {
    let mut participant = starving(alloc, 2)?;
    let (outlet, mut inlet) = outlet(alloc, 4)?;
    let is_attached = participant.attach(1, outlet).is_ok();
    let (mut earlier, mut given) = (BatchOutput::new(alloc), BatchOutput::new(alloc));
    let one = Call::RunInOrder;
    let first = fault_of((rt, alloc), &mut participant, one, &[DATA], &mut earlier)?;
    let second = fault_of((rt, alloc), &mut participant, one, &[DATA], &mut given)?;
    let before = shown_by(&participant);
    let batch: [&[u8]; 3] = [HEARTBEAT, LATER, THIRD];
    let fault = fault_of((rt, alloc), &mut participant, call, &batch, &mut given)?;
    let is_emptied = given.places.is_empty() && given.outputs.is_empty();
    Ok(
        is_attached
            && first.is_none()
            && second.is_none()
            && fault == Some(EngineError::NoMemory)
            && is_emptied == matches!(call, Call::RunInOrder)
            && shown_by(&participant) == before
            && refuses_each((rt, alloc), &mut participant, &mut earlier)?
            && participant.deliver(1) == 0
            && heard(alloc, &mut inlet)?.as_slice() == [(0, Said::Blue(1))].as_slice()
            && participant.detach(1).is_some()
            && participant.detach(1).is_none(),
    )
}

#[test]
fn a_failed_participant_refuses_each_call(rt: HostRuntime) -> Result<(), Fail> {
    for call in [Call::RunBatch, Call::RunInOrder] {
        assert!(rt; fails_for_good(&rt, rt.alloc(), call)?, "by {call:?}");
    }
    Ok(())
}

/// Whether a call has an outcome, or finds no memory and leaves a participant that refuses each
/// call. The participant knows a writer, which both readers are matched with.
fn has_outcome_or_fails<R: Threads + Sync>(
    rt: &R,
    alloc: Global,
    call: Call,
) -> Result<bool, Fail> {
    let mut participant = starving(alloc, 1000)?;
    let mut given = BatchOutput::new(alloc);
    let known = [COMES, ANNOUNCES].as_slice();
    let first = fault_of(
        (rt, alloc),
        &mut participant,
        Call::RunBatch,
        known,
        &mut given,
    )?;
    let second = fault_of(
        (rt, alloc),
        &mut participant,
        Call::RunInOrder,
        &[DATA],
        &mut given,
    )?;
    let before = shown_by(&participant);
    let mut lists = BatchOutput::new(alloc);
    let fault = fault_of(
        (rt, alloc),
        &mut participant,
        call,
        &[HEARTBEAT],
        &mut lists,
    )?;
    let is_right = match fault {
        None => participant.batches() == 3,
        Some(fault) => {
            fault == EngineError::NoMemory
                && shown_by(&participant) == before
                && refuses_each((rt, alloc), &mut participant, &mut given)?
        }
    };
    Ok(first.is_none() && second.is_none() && is_right)
}

/// `rt try --test --fail-alloc N` refuses one growth, at one of these calls or elsewhere.
#[test]
fn each_call_has_an_outcome_or_fails_a_participant(rt: HostRuntime) -> Result<(), Fail> {
    for call in CALLS {
        assert!(rt; has_outcome_or_fails(&rt, rt.alloc(), call)?, "by {call:?}");
    }
    Ok(())
}
