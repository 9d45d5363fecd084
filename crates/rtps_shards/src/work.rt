//! Workers that take jobs off a board and run them.

ghost use Rattle.std.specs.Prelude.{◌≡◌, ◌++◌, ◌∷◌, [], IfOk, List, OnErr, OnOk, map, slice_index_or, vec_len, ℕ, ◌<◌};
ghost use Rattle.std.specs.List.Sorted.{IsPermutation};
ghost use Rattle.rtps_receiver.specs.Events.{view};
ghost use Rattle.rtps_shards.specs.Ends.{IsSameBoard, IsSameThief, owner_hand, thief_hand};
ghost use Rattle.rtps_shards.specs.declared.jobs.Posted.{Posted};
ghost use Rattle.rtps_shards.specs.Work.{AreDone, HasWorked, HaveAllDone, TakesSome, Works};

use crate::apart::map_beside;
use crate::board::{Board, Stolen, Thief};
use crate::gate::Gate;
use crate::jobs::{JobResult, Posted, SharedBatch, Worker};
use crate::workers::run_posted;
use dds_topic::Catalog;
use std::alloc::{AllocError, Global};
use std::thread;
use std::thread::Threads;

/// A thief after its work, with the results of the jobs that it took.
#[derive(Drop)]
pub(crate) struct Worked<V> {
    pub thief: Thief<Posted<V>>,
    pub results: Result<Vec<JobResult<V>>, AllocError>,
}

/// Runs a job and appends its result.
fn run_more<C: Catalog, G: Gate>(
    worker: &mut Worker<&C>,
    batch: &SharedBatch<'_, C, G>,
    results: &mut Vec<JobResult<C::Value>>,
    work: Posted<C::Value>,
) -> Result<(), AllocError>
    ensures more { worker.old.now ≡ batch.now.catalog.now → OnOk result
        ((jobs : List (Posted C.Value)) → AreDone C.view (C.decoding batch.now.catalog.now)
        (map view batch.now.events.now) jobs results.old.items
        → AreDone C.view (C.decoding batch.now.catalog.now) (map view batch.now.events.now)
        (jobs ++ work ∷ []) results.new.items) }
    ensures same { worker.new ≡ worker.old }
{
    let done = run_posted(worker, batch, work)?;
    results.push(done)?;
    Ok(())
}

/// Takes jobs off the board and runs each at once, until the board is empty.
#[tactic(auto, using(crate::proofs::Crews::works_none, crate::proofs::Crews::works_more))]
fn run_own<C: Catalog, G: Gate>(
    alloc: Global,
    batch: &SharedBatch<'_, C, G>,
    board: &mut Board<Posted<C::Value>>,
) -> Result<Vec<JobResult<C::Value>>, AllocError>
    ensures board { IsSameBoard board.old board.new }
    ensures works { IfOk result (λ rs. Works C.view (C.decoding batch.now.catalog.now)
        (map view batch.now.events.now) (owner_hand board.old) (owner_hand board.new) rs.items) }
{
    let mut worker = Worker::new(alloc, batch.catalog);
    let mut results = Vec::new(alloc);
    for _turn in 0..u64::MAX {
        match board.pop() {
            Some(work) => run_more(&mut worker, batch, &mut results, work)?,
            None => break,
        }
    }
    Ok(results)
}

/// Runs the jobs that are left on a board whose thieves are all back. After it, all jobs that were
/// pushed were taken.
pub(crate) fn run_rest<C: Catalog, G: Gate>(
    alloc: Global,
    batch: &SharedBatch<'_, C, G>,
    board: &mut Board<Posted<C::Value>>,
) -> Result<Vec<JobResult<C::Value>>, AllocError>
    requires { (owner_hand board.old).parts ≡ 1024 }
    ensures works { IfOk result (λ rs. Works C.view (C.decoding batch.now.catalog.now)
        (map view batch.now.events.now) (owner_hand board.old) (owner_hand board.new) rs.items) }
    ensures all { OnOk result (IsPermutation (owner_hand board.new).put
        (owner_hand board.new).taken) }
{
    let mut worker = Worker::new(alloc, batch.catalog);
    let mut results = Vec::new(alloc);
    while let Some(work) = board.pop() {
        run_more(&mut worker, batch, &mut results, work)?;
    }
    Ok(results)
}

impl<V: Drop> Thief<Posted<V>> {
    /// Steals jobs and runs each at once, until the board is empty. The results are in the order in
    /// which the jobs were stolen. The decoder's state between values belongs to this call.
    ///
    /// An error is a refused growth: the jobs that the call has stolen are lost, with their
    /// results. Those that it hasn't stolen stay on the board.
    #[tactic(auto, using(crate::proofs::Crews::works_none, crate::proofs::Crews::works_more))]
    pub fn work<C: Catalog<Value = V>, G: Gate>(
        &mut self,
        alloc: Global,
        batch: &SharedBatch<'_, C, G>,
    ) -> Result<Vec<JobResult<V>>, AllocError>
        ensures board { IsSameThief self.old self.new }
        ensures works { IfOk result (λ rs. Works C.view (C.decoding batch.now.catalog.now)
            (map view batch.now.events.now) (thief_hand self.old) (thief_hand self.new) rs.items) }
        ensures lost { OnErr result (TakesSome (thief_hand self.old) (thief_hand self.new)) }
    {
        let mut worker = Worker::new(alloc, batch.catalog);
        let mut results = Vec::new(alloc);
        for _turn in 0..u64::MAX {
            match self.steal() {
                Stolen::Item(work) => run_more(&mut worker, batch, &mut results, work)?,
                Stolen::Empty => break,
                Stolen::Again => thread::yield_now(),
            }
        }
        Ok(results)
    }
}

/// Has a thief work, and returns it with its results.
fn one_works<C: Catalog, G: Gate>(
    alloc: Global,
    batch: &SharedBatch<'_, C, G>,
    thief: Thief<Posted<C::Value>>,
) -> Worked<C::Value>
    ensures { HasWorked C.view (C.decoding batch.now.catalog.now) (map view batch.now.events.now)
        thief result }
{
    let mut thief = thief;
    let results = thief.work(alloc, batch);
    Worked { thief, results }
}

/// Has the owner work, and returns its board with the results.
fn own_works<C: Catalog, G: Gate>(
    alloc: Global,
    batch: &SharedBatch<'_, C, G>,
    board: Board<Posted<C::Value>>,
) -> (
    Board<Posted<C::Value>>,
    Result<Vec<JobResult<C::Value>>, AllocError>,
)
    ensures board { IsSameBoard board result.0 }
    ensures works { IfOk result.1 (λ rs. Works C.view (C.decoding batch.now.catalog.now)
        (map view batch.now.events.now) (owner_hand board) (owner_hand result.0) rs.items) }
{
    let mut board = board;
    let results = run_own(alloc, batch, &mut board);
    (board, results)
}

/// Has all thieves work, each on a thread of its own where one can be started.
fn all_work<C: Catalog, G: Gate, R: Threads + Sync>(
    rt: &R,
    alloc: Global,
    batch: &SharedBatch<'_, C, G>,
    thieves: Vec<Thief<Posted<C::Value>>>,
) -> Result<Vec<Worked<C::Value>>, AllocError>
    ensures { IfOk result (λ crew. HaveAllDone C.view (C.decoding batch.now.catalog.now)
        (map view batch.now.events.now) thieves.items crew.items) }
{
    let run = |thief: Thief<Posted<C::Value>>| -> Worked<C::Value>
        ensures { HasWorked C.view (C.decoding batch.entry.now.catalog.now)
            (map view batch.entry.now.events.now) thief result }
    { one_works(alloc, batch, thief) };
    map_beside(rt, alloc, thieves, &run)
}

/// Has the owner take jobs on a thread of its own while the thieves steal.
pub(crate) fn both_work<C: Catalog, G: Gate, R: Threads + Sync>(
    rt: &R,
    alloc: Global,
    batch: &SharedBatch<'_, C, G>,
    board: Board<Posted<C::Value>>,
    thieves: Vec<Thief<Posted<C::Value>>>,
) -> (
    (
        Board<Posted<C::Value>>,
        Result<Vec<JobResult<C::Value>>, AllocError>,
    ),
    Result<Vec<Worked<C::Value>>, AllocError>,
)
    ensures board { IsSameBoard board result.0.0 }
    ensures mine { IfOk result.0.1 (λ rs. Works C.view (C.decoding batch.now.catalog.now)
        (map view batch.now.events.now) (owner_hand board) (owner_hand result.0.0) rs.items) }
    ensures theirs { IfOk result.1 (λ crew. HaveAllDone C.view
        (C.decoding batch.now.catalog.now) (map view batch.now.events.now) thieves.items
        crew.items) }
{
    thread::join(
        rt,
        move || -> (
            Board<Posted<C::Value>>,
            Result<Vec<JobResult<C::Value>>, AllocError>,
        )
            ensures { IsSameBoard board result.0
                × IfOk result.1 (λ rs. Works C.view (C.decoding batch.entry.now.catalog.now)
                (map view batch.entry.now.events.now) (owner_hand board) (owner_hand result.0)
                rs.items) }
        { own_works(alloc, batch, board) },
        move || -> Result<Vec<Worked<C::Value>>, AllocError>
            ensures { IfOk result (λ crew. HaveAllDone C.view
                (C.decoding batch.entry.now.catalog.now) (map view batch.entry.now.events.now)
                thieves.items crew.items) }
        { all_work(rt, alloc, batch, thieves) },
    )
}
