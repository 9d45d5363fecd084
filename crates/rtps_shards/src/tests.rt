//! Jobs written by hand, run on threads.

ghost use Rattle.std.specs.Prelude.{◌≤◌};

mod apart;
mod board;
mod failing;
mod gates;

use crate::*;
use dds_topic::{Catalog, Shape, Shapes};
use rtps_planner::{Job, PlannedStep};
use rtps_reader::{Notice, NoticeKind, ReaderState};
use rtps_receiver::{Event, EventBody, Whole};
use rtps_types::{EntityId, Guid, GuidPrefix, Locators, Number, Place, WriterFacts};
use rtps_wire::{ChangeInfo, Form};
use std::alloc::{AllocError, Global};
use std::test::Fail;
use std::thread::Threads;

/// RED at 1, 2 of size 3, in little-endian CDR.
const RED: [u8; 24] = [
    0, 1, 0, 0, 4, 0, 0, 0, 0x52, 0x45, 0x44, 0, 1, 0, 0, 0, 2, 0, 0, 0, 3, 0, 0, 0,
];

const THEIRS: GuidPrefix = GuidPrefix([10; 12]);

const WRITER: EntityId = EntityId([0, 0, 1, 2]);

/// The best-effort reader of a rank, which is matched with the writer from the start.
fn reader(alloc: Global, rank: u32) -> Result<ReaderState, AllocError> {
    let mut fixed = Vec::new(alloc);
    fixed.push(WriterFacts {
        writer: Guid {
            prefix: THEIRS,
            entity: WRITER,
        },
        locators: Locators::new(Vec::new(alloc)),
    })?;
    let guid = Guid {
        prefix: GuidPrefix([11; 12]),
        entity: EntityId([0, 0, 1, 7]),
    };
    ReaderState::new(alloc, rank, guid, false, &fixed)
}

/// The change of this number, in the datagram of the same number.
fn event(number: Number) -> Event<'static> {
    Event {
        place: Place {
            datagram: number.get(),
            submessage: 1,
        },
        source: THEIRS,
        time: None,
        writer: WRITER,
        reader: EntityId([0; 4]),
        body: EventBody::Whole(Whole {
            number,
            info: ChangeInfo {
                form: Form::Value,
                status: 0,
                hash: None,
            },
            payload: &RED,
        }),
    }
}

/// The changes 1 to 3.
fn three(alloc: Global) -> Result<Vec<Event<'static>>, AllocError> {
    let mut events = Vec::new(alloc);
    for number in [1, 2, 3] {
        if let Some(number) = Number::new(number) {
            events.push(event(number))?;
        }
    }
    Ok(events)
}

/// The job of a rank. Each step is the index of its first event, and the number of events after it.
fn job(alloc: Global, rank: u32, all: &[(usize, usize)]) -> Result<Job, AllocError> {
    let mut steps = Vec::new(alloc);
    for (first, more) in all {
        steps.push(PlannedStep::TakeIn {
            first: *first,
            more: *more,
        })?;
    }
    Ok(Job { rank, steps })
}

/// A job for each of `ranks` readers: rank 1 processes the last two events, every other rank all
/// three, in one step or two. Some steps go past the last event.
fn jobs_of<C: Catalog>(alloc: Global, ranks: u32) -> Result<Vec<Posted<C::Value>>, AllocError> {
    let mut jobs = Vec::new(alloc);
    for rank in 0..ranks {
        let steps = match rank {
            0 => [(0, 2), (9, 0)],
            1 => [(9, 1), (1, 7)],
            _ => [(0, 0), (1, 1)],
        };
        let job = job(alloc, rank, &steps)?;
        jobs.push(Posted::new(alloc, job, reader(alloc, rank)?))?;
    }
    Ok(jobs)
}

/// Runs the jobs of `sizes.0` readers on `sizes.1` workers.
fn run<C: Catalog, G: Gate, R: Threads + Sync>(
    rt: &R,
    alloc: Global,
    catalog: &C,
    gate: &G,
    sizes: (u32, usize),
) -> Result<Vec<JobResult<C::Value>>, AllocError>
    requires { (1 ≤ sizes.1) × (sizes.1 ≤ 64) }
{
    let (ranks, workers) = sizes;
    let events = three(alloc)?;
    let batch = SharedBatch {
        catalog,
        gate,
        events: &events,
    };
    let jobs = jobs_of::<C>(alloc, ranks)?;
    if jobs.len() > 4096 {
        return Err(AllocError);
    }
    run_jobs(rt, alloc, &batch, jobs, workers)
}

/// The number of the change that a notice presents, if it is RED.
fn red(notice: &Notice<Shape>) -> Option<u64> {
    match &notice.what {
        NoticeKind::Sample {
            number,
            body: rtps_reader::Body::Value(_, shape),
            ..
        } if shape.color.as_str() == "RED" => Some(number.get()),
        _ => None,
    }
}

/// The ranks with the numbers that they present, in order.
fn lines(
    alloc: Global,
    results: Vec<JobResult<Shape>>,
) -> Result<Vec<(u32, Option<u64>)>, AllocError> {
    let mut lines = Vec::new(alloc);
    for result in &results {
        for notice in &result.output.notices {
            lines.push((result.rank, red(notice)))?;
        }
    }
    lines.sort()?;
    Ok(lines)
}

/// Whether each reader presents exactly what its job asks, with this number of workers.
fn presents<R: Threads + Sync>(rt: &R, alloc: Global, workers: usize) -> Result<bool, AllocError>
    requires { (1 ≤ workers) × (workers ≤ 64) }
{
    let lines = lines(alloc, run(rt, alloc, &Shapes, &NoGate, (3, workers))?)?;
    let expected = [
        (0, Some(1)),
        (0, Some(2)),
        (0, Some(3)),
        (1, Some(2)),
        (1, Some(3)),
        (2, Some(1)),
        (2, Some(2)),
        (2, Some(3)),
    ];
    Ok(lines.as_slice() == expected.as_slice())
}

#[test]
fn each_job_is_run_once(rt: HostRuntime) -> Result<(), Fail> {
    let alloc = rt.alloc();
    for workers in [1, 2, 3, 64] {
        assert!(rt; presents(&rt, alloc, workers)?);
    }
    Ok(())
}

#[test]
fn jobs_alone_are_run_in_order(rt: HostRuntime) -> Result<(), Fail> {
    let alloc = rt.alloc();
    let events = three(alloc)?;
    let batch = SharedBatch {
        catalog: &Shapes,
        gate: &NoGate,
        events: &events,
    };
    let results = run_alone(alloc, &batch, jobs_of::<Shapes>(alloc, 3)?)?;
    let mut presented = Vec::new(alloc);
    for result in &results {
        presented.push((result.rank, result.output.notices.len()))?;
    }
    assert!(rt; presented.as_slice() == [(0, 3), (1, 2), (2, 3)].as_slice());
    Ok(())
}

#[test]
fn no_jobs_are_no_results(rt: HostRuntime) -> Result<(), Fail> {
    assert!(rt; run(&rt, rt.alloc(), &Shapes, &NoGate, (0, 64))?.is_empty());
    Ok(())
}

/// The ranks of results, in order.
fn ranks(alloc: Global, results: Vec<JobResult<Shape>>) -> Result<Vec<u32>, AllocError> {
    let mut ranks = Vec::new(alloc);
    for result in &results {
        ranks.push(result.rank)?;
    }
    ranks.sort()?;
    Ok(ranks)
}

#[test]
fn each_of_many_jobs_gives_one_result(rt: HostRuntime) -> Result<(), Fail> {
    let alloc = rt.alloc();
    let expected: Vec<u32> = (0..200).collect(alloc)?;
    for workers in [1, 2, 7, 64] {
        let ranks = ranks(alloc, run(&rt, alloc, &Shapes, &NoGate, (200, workers))?)?;
        assert!(rt; ranks.as_slice() == expected.as_slice());
    }
    Ok(())
}
