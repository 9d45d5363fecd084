//! A batch, its workers, its jobs and their results.

ghost use Rattle.std.specs.Prelude.{◌≡◌, []};

use dds_topic::{Catalog, Decoder};
use rtps_planner::{Job, PlannedStep};
use rtps_reader::{Output, ReaderState};
use rtps_receiver::Event;
use std::alloc::Global;
use std::marker::Model;

/// What all workers of a batch share.
#[derive(Drop)]
pub struct SharedBatch<'a, C, G> {
    pub catalog: &'a C,
    /// Called as each job begins and ends.
    pub gate: &'a G,
    /// All events of the batch. The steps of the jobs refer to them by index.
    pub events: &'a [Event<'a>],
}

/// What a worker keeps from one job to the next: its allocator, and the decoder of its catalog,
/// which has state that is kept between values.
#[derive(Drop)]
pub struct Worker<C: Catalog> {
    pub(crate) alloc: Global,
    pub(crate) decoder: Decoder<C>,
}

impl<C: Catalog> Model for Worker<C> {
    ghost Value = { C };

    ghost view = { λ w. w.decoder };
}

impl<C: Catalog> Worker<C> {
    /// Returns a worker that has run no job.
    pub fn new(alloc: Global, catalog: C) -> Worker<C>
        ensures { result ≡ catalog }
    {
        Worker {
            alloc,
            decoder: Decoder::new(alloc, catalog),
        }
    }
}

/// A job on a board, with all that moves to the worker that takes it.
#[derive(Drop)]
pub struct Posted<V> {
    pub job: Job,
    /// The reader of the job's rank.
    pub state: ReaderState,
    /// Lists for the notices and answers of the job. The worker drops what is in them first.
    pub output: Output<V>,
}

impl<V: Drop> Posted<V> {
    /// Returns a job with new lists, which take no memory until the job adds to them.
    pub fn new(alloc: Global, job: Job, state: ReaderState) -> Posted<V>
        ensures given { (result.job ≡ job) × (result.state ≡ state) }
        ensures empty { (result.output.notices.items ≡ [])
            × (result.output.answers.items ≡ []) }
    {
        Posted {
            job,
            state,
            output: Output {
                notices: Vec::new(alloc),
                answers: Vec::new(alloc),
            },
        }
    }
}

/// The result of a job.
#[derive(Drop)]
pub struct JobResult<V> {
    /// The rank of the job's reader.
    pub rank: u32,
    /// The reader after the job.
    pub state: ReaderState,
    pub output: Output<V>,
}

/// Estimates the cost of a job: the number of events that its steps ask for, even past the end of
/// the batch, and one for each change of a match.
pub(crate) fn cost_of<V>(posted: &Posted<V>) -> usize {
    let mut events = 0_usize;
    for step in &posted.job.steps {
        let more = match step {
            PlannedStep::TakeIn { first: _, more } => *more,
            PlannedStep::Change { .. } => 0,
        };
        events = events.saturating_add(more).saturating_add(1);
    }
    events
}
