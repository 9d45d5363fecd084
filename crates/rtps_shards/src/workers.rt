//! Running jobs on workers.

ghost use Rattle.std.specs.Prelude.{◌≡◌, [], ℕ, ◌≤◌, ◌++◌, All, IfOk, List, OnErr, OnOk, length, map, true};
ghost use Rattle.std.specs.List.Sorted.{IsPermutation};
ghost use Rattle.rtps_receiver.specs.Events.{view, EventView};
ghost use Rattle.rtps_planner.specs.Plan.{steps_seen};
ghost use Rattle.rtps_reader.specs.Standing.{StandsAt};
ghost use Rattle.rtps_shards.specs.Results.{IsDone, IsOutput, IsReady, IsResultOf, Share, given_done, rank_of, rank_in, reader_done};
ghost use Rattle.dds_topic.specs.Decoding.{Decoding};
ghost use Rattle.rtps_shards.specs.Board.{hand};
ghost use Rattle.rtps_shards.specs.Ends.{IsSameBoard, IsThiefOf, owner_hand, room};
ghost use Rattle.rtps_shards.specs.Work.{AreDone, AreResultsOf, HasDone, IsBack};

use crate::board::Board;
use crate::gate::Gate;
use crate::jobs::{JobResult, Posted, SharedBatch, Worker, cost_of};
use crate::steps::take_steps;
use crate::work::{Worked, both_work, run_rest};
use dds_topic::Catalog;
use rtps_planner::Job;
use rtps_reader::{Output, ReaderState};
use std::alloc::{AllocError, Global};
use std::thread::Threads;

/// Runs the job of one reader in place. Its notices and answers replace the contents of `output`.
///
/// An error is a refused growth. The reader is spent then: it answers each later step with the same
/// error, and doesn't change. `output` has the notices and answers that came before the refusal.
pub fn run_job<C: Catalog, G: Gate>(
    worker: &mut Worker<&C>,
    batch: &SharedBatch<'_, C, G>,
    job: &Job,
    state: &mut ReaderState,
    output: &mut Output<C::Value>,
) -> Result<(), AllocError>
    ensures stands { worker.old.now ≡ batch.now.catalog.now → (s : Share C.Meaning)
        → steps_seen (map view batch.now.events.now) job.now.steps.items ≡ s.job
        → StandsAt s.reader s.given state.old → OnOk result (StandsAt (reader_done s)
        (given_done (C.decoding batch.now.catalog.now) s) state.new) }
    ensures output { worker.old.now ≡ batch.now.catalog.now → (s : Share C.Meaning)
        → steps_seen (map view batch.now.events.now) job.now.steps.items ≡ s.job
        → StandsAt s.reader s.given state.old
        → OnOk result (IsOutput C.view (C.decoding batch.now.catalog.now) s output.new) }
    ensures sound { OnOk result (state.old.spent ≡ true
        → steps_seen (map view batch.now.events.now) job.now.steps.items ≡ []) }
    ensures still { state.old.spent ≡ true → state.new ≡ state.old }
    ensures rank { state.new.rank ≡ state.old.rank }
    ensures same { worker.new ≡ worker.old }
    ensures err { OnErr result (state.new.spent ≡ true) }
{
    output.notices.clear();
    output.answers.clear();
    batch.gate.enter(job.rank);
    let taken = take_steps(worker, batch.events, &job.steps, state, output);
    batch.gate.leave(job.rank);
    taken
}

/// Runs a posted job, and returns its reader and its lists by value.
pub(crate) fn run_posted<C: Catalog, G: Gate>(
    worker: &mut Worker<&C>,
    batch: &SharedBatch<'_, C, G>,
    work: Posted<C::Value>,
) -> Result<JobResult<C::Value>, AllocError>
    ensures done { worker.old.now ≡ batch.now.catalog.now → IfOk result
        (IsResultOf C.view (C.decoding batch.now.catalog.now) (map view batch.now.events.now)
        work) }
    ensures same { worker.new ≡ worker.old }
{
    let Posted {
        job,
        mut state,
        mut output,
    } = work;
    run_job(worker, batch, &job, &mut state, &mut output)?;
    Ok(JobResult {
        rank: job.rank,
        state,
        output,
    })
}

/// Runs jobs one after the other on the caller's thread, and returns their results in the order of
/// the jobs. It needs no thread and waits for none. The decoder's state between values belongs to
/// this call.
///
/// An error is a refused growth. No result is returned then, and the readers' states are dropped
/// with the results.
pub fn run_alone<C: Catalog, G: Gate>(
    alloc: Global,
    batch: &SharedBatch<'_, C, G>,
    jobs: Vec<Posted<C::Value>>,
) -> Result<Vec<JobResult<C::Value>>, AllocError>
    ensures each { IfOk result (λ results. AreDone C.view (C.decoding batch.now.catalog.now)
        (map view batch.now.events.now) jobs.items results.items) }
    ensures done { (shares : ℕ → Share C.Meaning)
        → All (IsReady (map view batch.now.events.now) shares) jobs.items
        → IfOk result (λ results.
        All (IsDone C.view (C.decoding batch.now.catalog.now) shares) results.items) }
    ensures order { IfOk result (λ results.
        map rank_of results.items ≡ map rank_in jobs.items) }
    ensures ranks { IfOk result (λ results.
        IsPermutation (map rank_in jobs.items) (map rank_of results.items)) }
{
    let mut worker = Worker::new(alloc, batch.catalog);
    let mut results = Vec::with_capacity(alloc, jobs.len())?;
    for work in jobs {
        let done = run_posted(&mut worker, batch, work)?;
        results.push(done)?;
    }
    Ok(results)
}

/// Sorts the jobs by [`cost_of`], the largest first.
fn most_first<V: Drop>(jobs: Vec<Posted<V>>) -> Vec<Posted<V>>
    ensures { IsPermutation jobs.items result.items }
{
    let mut jobs = jobs;
    jobs.sort_unstable_by_key(|posted| usize::MAX - cost_of(posted));
    jobs
}

/// Pushes all items, in order. The board has room for them.
fn push_all<T: Drop>(board: &mut Board<T>, items: Vec<T>)
    requires { length items.items ≤ room board.old }
    ensures board { IsSameBoard board.old board.new }
    ensures hand { owner_hand board.new ≡ hand (owner_hand board.old).parts
        ((owner_hand board.old).put ++ items.items) (owner_hand board.old).taken }
{
    for item in items {
        match board.push(item) {
            Ok(()) => {}
            Err(_) => unreachable!(),
        }
    }
}

/// Gives the thieves back to the board, and appends the results of the jobs that they took.
fn take_back<C: Catalog>(
    board: &mut Board<Posted<C::Value>>,
    crew: Vec<Worked<C::Value>>,
    results: Vec<JobResult<C::Value>>,
) -> Result<Vec<JobResult<C::Value>>, AllocError>
    requires { All (λ w. IsThiefOf board.old w.thief) crew.items }
    ensures done { (decoding : Decoding C.Meaning) (es : List EventView)
        → All (HasDone C.view decoding es board.old) crew.items
        → AreDone C.view decoding es (owner_hand board.old).taken results.items
        → IfOk result (IsBack C.view decoding es (owner_hand board.old) (length crew.items)
        (owner_hand board.new)) }
{
    let mut all = results;
    for worked in crew {
        let Worked { thief, results } = worked;
        let mut more = results?;
        board.give_back(thief);
        all.append(&mut more)?;
    }
    Ok(all)
}

/// Runs jobs on `workers` workers, and returns their results in an unspecified order. The jobs are
/// put on a board, those with most events first, and each worker takes the next one when it has
/// finished one; there are no more workers than jobs. One worker runs on the caller's thread;
/// several have a thread each, for which the caller waits. Where a thread can't start, the others
/// run all jobs.
///
/// An error is a refused growth, on any worker. No result is returned then, and the readers' states
/// are dropped with the results.
pub fn run_jobs<C: Catalog, G: Gate, R: Threads + Sync>(
    rt: &R,
    alloc: Global,
    batch: &SharedBatch<'_, C, G>,
    jobs: Vec<Posted<C::Value>>,
    workers: usize,
) -> Result<Vec<JobResult<C::Value>>, AllocError>
    requires few { length jobs.items ≤ 4096 }
    requires workers { (1 ≤ workers) × (workers ≤ 64) }
    ensures each { IfOk result (λ results. AreResultsOf C.view (C.decoding batch.now.catalog.now)
        (map view batch.now.events.now) jobs.items results.items) }
    ensures done { (shares : ℕ → Share C.Meaning)
        → All (IsReady (map view batch.now.events.now) shares) jobs.items
        → IfOk result (λ results.
        All (IsDone C.view (C.decoding batch.now.catalog.now) shares) results.items) }
    ensures ranks { IfOk result (λ results.
        IsPermutation (map rank_in jobs.items) (map rank_of results.items)) }
{
    let count = jobs.len().clamp(1, workers);
    if count == 1 {
        return run_alone(alloc, batch, jobs);
    }
    let jobs = most_first(jobs);
    let (board, thieves) = Board::new(alloc, jobs.len(), count - 1)?;
    let mut board = board;
    push_all(&mut board, jobs);
    let ((board, mine), theirs) = both_work(rt, alloc, batch, board, thieves);
    let mut board = board;
    let mut results = take_back::<C>(&mut board, theirs?, mine?)?;
    let mut rest = run_rest(alloc, batch, &mut board)?;
    results.append(&mut rest)?;
    Ok(results)
}
