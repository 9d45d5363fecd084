//! Lists that are reused from one batch to the next.

ghost use Rattle.std.specs.Prelude.{◌≤◌};

use super::{DATA, HEARTBEAT, LATER, at_once, config};
use crate::*;
use dds_topic::{Shape, Shapes};
use rtps_run::BatchOutput;
use rtps_shards::NoGate;
use rtps_types::Place;
use std::alloc::Global;
use std::test::Fail;
use std::thread::Threads;

/// Has a participant take a batch, with `batch.1` workers, into the caller's lists. Returns the
/// numbers of notices and answers of each reader.
pub(super) fn lend<R: Threads + Sync>(
    rt: &R,
    alloc: Global,
    participant: &mut Participant<Shapes>,
    batch: (&[&[u8]], usize),
    given: &mut BatchOutput<Shape>,
) -> Result<Vec<(usize, usize)>, Fail>
    requires { (1 ≤ batch.1) × (batch.1 ≤ 64) }
{
    let datagrams = at_once(alloc, batch.0)?;
    if !is_batch(&datagrams) {
        return Err(Fail::new("the batch is too large"));
    }
    let workers = Workers {
        count: batch.1,
        gate: &NoGate,
    };
    participant.run_in_order(rt, alloc, &workers, &datagrams, given)?;
    let mut counts = Vec::new(alloc);
    for output in &given.outputs {
        counts.push((output.notices.len(), output.answers.len()))?;
    }
    Ok(counts)
}

/// The place of the one event of a datagram.
fn place(datagram: u64) -> Place {
    Place {
        datagram,
        submessage: 1,
    }
}

#[test]
fn lists_that_are_lent_again_hold_the_last_batch_alone(rt: HostRuntime) -> Result<(), Fail> {
    let alloc = rt.alloc();
    let mut participant = Participant::new(alloc, config(alloc)?, Shapes)?;
    let mut given = BatchOutput::new(alloc);
    let counts = lend(
        &rt,
        alloc,
        &mut participant,
        (&[DATA, HEARTBEAT], 2),
        &mut given,
    )?;
    assert!(rt; given.places.as_slice() == [place(0), place(1)].as_slice());
    assert!(rt; counts.as_slice() == [(1, 1), (1, 1)].as_slice());
    let counts = lend(&rt, alloc, &mut participant, (&[LATER], 2), &mut given)?;
    assert!(rt; given.places.as_slice() == [place(2)].as_slice());
    assert!(rt; counts.as_slice() == [(0, 0), (1, 1)].as_slice());
    Ok(())
}
