//! What a plan consists of.

ghost use Rattle.std.specs.Prelude.{◌^◌, ◌≤◌};

use crate::passed_over::PassedOver;
use crate::steps::PlannedStep;
use rtps_types::{Place, Reply};
use std::alloc::{Allocator, Global};

/// What one reader has to do in a batch.
#[derive(Debug, Drop)]
pub struct Job<A: Allocator = Global> {
    /// The rank of the reader.
    pub rank: u32,
    /// The steps of the job, at least one, in the order of their places.
    pub steps: Vec<PlannedStep<A>, A>,
}

/// What a plan has besides the jobs.
#[derive(Debug, Drop)]
pub struct Rest<A: Allocator = Global> {
    /// The number of ranks that were given, including those without a job.
    pub readers: usize,
    /// The ranks of the readers that have a job, in ascending order.
    pub ranks: Vec<u32, A>,
    /// Discovery's answers, sorted by place, each with the place of the event that it answers.
    pub answers: Vec<(Place, Reply<A>), A>,
    /// The places at which something may be put out, in ascending order: those of the events, and
    /// that before the events of a datagram (submessage 0) if a match ends there because a lease
    /// ended.
    pub places: Vec<Place, A>,
    /// What of the batch comes to nothing.
    pub passed: PassedOver,
    /// Ranks have 32 bits.
    ghost ranked: { readers ≤ 2 ^ 32 },
}

/// The plan of a batch: the jobs of its readers, and the rest.
#[derive(Debug, Drop)]
pub struct Plan<A: Allocator = Global> {
    /// By ascending rank, one for each reader that has something to do.
    pub jobs: Vec<Job<A>, A>,
    pub rest: Rest<A>,
}
