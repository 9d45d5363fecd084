//! Notices that go from the thread which receives to one of an application.

use super::outlets::Heard;
use super::said_by;
use super::stress::{config, datagrams};
use crate::*;
use dds_outlet::{Inlet, outlet};
use dds_topic::{Shape, Shapes};
use rtps_reader::Notice;
use rtps_run::BatchOutput;
use rtps_serial::SerialEngine;
use rtps_shards::NoGate;
use rtps_types::Datagram;
use std::alloc::{AllocError, Global};
use std::test::Fail;
use std::thread::{Threads, join, yield_now};

/// The number of tries after which a thread gives up.
const TRIES: u32 = 10_000_000;

/// The rank of the reader that has an outlet.
const RANK: u32 = 1;

/// The number of datagrams in a batch.
const BATCH: usize = 64;

/// The number of workers that run a batch.
const WORKERS: usize = 2;

fn heard(notice: &Notice<Shape>) -> Heard {
    (notice.place.datagram, said_by(notice))
}

/// Has an engine of one thread take datagrams, and appends what the reader reports.
fn take_in_series(
    alloc: Global,
    engine: &mut SerialEngine<Shapes>,
    datagrams: &[Vec<u8>],
    all: &mut Vec<Heard>,
) -> Result<(), Fail> {
    for octets in datagrams {
        if octets.len() > 65_507 {
            return Err(Fail::new("a datagram is too long"));
        }
        let datagram = Datagram {
            moment: 0,
            bytes: octets.as_slice(),
        };
        let outcome = engine.take(alloc, datagram)?;
        let Some(notices) = outcome.notices.get(RANK as usize) else {
            return Err(Fail::new("there is no such reader"));
        };
        for notice in notices {
            all.push(heard(notice))?;
        }
    }
    Ok(())
}

/// What the reader reports in the run of one thread.
fn in_series(alloc: Global, datagrams: &[Vec<u8>]) -> Result<Vec<Heard>, Fail> {
    let mut engine = SerialEngine::new(alloc, config(alloc)?, Shapes)?;
    let mut all = Vec::new(alloc);
    take_in_series(alloc, &mut engine, datagrams, &mut all)?;
    Ok(all)
}

/// Delivers until the backlog is empty, or gives up.
fn deliver_all(participant: &mut Participant<Shapes>) {
    for _ in 0..TRIES {
        if participant.deliver(RANK) == 0 {
            break;
        }
        yield_now();
    }
}

/// Has a participant take one batch, and delivers what the ring has room for.
fn take_one<R: Threads + Sync>(
    rt: &R,
    alloc: Global,
    participant: &mut Participant<Shapes>,
    batch: &[Vec<u8>],
    given: &mut BatchOutput<Shape>,
) -> Result<(), Fail> {
    let mut datagrams = Vec::new(alloc);
    for octets in batch {
        datagrams.push(Datagram {
            moment: 0,
            bytes: octets.as_slice(),
        })?;
    }
    if !is_batch(&datagrams) {
        return Err(Fail::new("the batch is too large"));
    }
    let workers = Workers {
        count: WORKERS,
        gate: &NoGate,
    };
    participant.run_in_order(rt, alloc, &workers, &datagrams, given)?;
    participant.deliver(RANK);
    Ok(())
}

/// Has a participant take all datagrams in batches, and delivers what the reader reports.
fn take_all<R: Threads + Sync>(
    rt: &R,
    alloc: Global,
    participant: Participant<Shapes>,
    datagrams: &[Vec<u8>],
) -> Result<(), Fail> {
    let mut participant = participant;
    let mut given = BatchOutput::new(alloc);
    for batch in datagrams.chunks(BATCH) {
        take_one(rt, alloc, &mut participant, batch, &mut given)?;
    }
    deliver_all(&mut participant);
    Ok(())
}

/// Pops notices from a ring until there are at least `least` of them, or the thread gives up.
fn hear(alloc: Global, inlet: Inlet<Shape>, least: usize) -> Result<Vec<Heard>, AllocError> {
    let mut inlet = inlet;
    let mut all = Vec::new(alloc);
    for _ in 0..TRIES {
        match inlet.pop() {
            Some(notice) => all.push(heard(&notice))?,
            None if all.len() >= least => break,
            None => yield_now(),
        }
    }
    Ok(all)
}

#[test]
fn another_thread_hears_what_one_thread_reports(rt: HostRuntime) -> Result<(), Fail> {
    let alloc = rt.alloc();
    let datagrams = datagrams(alloc, 2000)?;
    let expected = in_series(alloc, &datagrams)?;
    assert!(rt; expected.len() > 500);
    let (outlet, inlet) = outlet(alloc, 16)?;
    let mut participant = Participant::new(alloc, config(alloc)?, Shapes)?;
    assert!(rt; participant.attach(RANK, outlet).is_ok());
    let least = expected.len();
    let (taken, all) = join(
        &rt,
        || take_all(&rt, alloc, participant, &datagrams),
        move || hear(alloc, inlet, least),
    );
    taken?;
    assert!(rt; all?.as_slice() == expected.as_slice());
    Ok(())
}
