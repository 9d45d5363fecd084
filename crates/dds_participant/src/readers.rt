//! The readers of a participant and their jobs.

ghost use Rattle.std.specs.Prelude.{◌≡◌, ◌++◌, ◌==◌, ◌-◌, ◌<◌, ◌≤◌, [], ℕ, All, List, IfOk, MatchOption, OnOk, false, length, map, option_to_list, slice_index_or};
ghost use Rattle.dds_topic.specs.Decoding.{Decoding};
ghost use Rattle.rtps_receiver.specs.Events.{EventView, view};
ghost use Rattle.rtps_reader.specs.Standing.{StandsAt};
ghost use Rattle.rtps_planner.specs.declared.jobs.Job as plan_job;
ghost use Rattle.rtps_shards.specs.Results.{IsDone, IsOutput, IsReady, Share, given_done, rank_in, rank_of, reader_done};
ghost use Rattle.dds_participant.specs.Readers.{AllShare, AreJobs, AreRun, AreRunBut, IsAsked};

use dds_topic::Catalog;
use rtps_discovery::ENTITYID_UNKNOWN;
use rtps_planner::Job;
use rtps_reader::{Output, ReaderState};
use rtps_shards::{Gate, JobResult, Posted, SharedBatch, Worker, run_job, run_jobs};
use rtps_types::{Guid, GuidPrefix};
use std::alloc::{AllocError, Global};
use std::mem;
use std::thread::Threads;

/// The readers of a batch, by rank.
#[derive(Drop)]
pub(crate) struct Readers<V> {
    pub states: Vec<ReaderState>,
    /// The notices and the answers of their jobs.
    pub outputs: Vec<Output<V>>,
}

/// The jobs of a batch, by ascending rank, and the readers that they are for.
#[derive(Drop)]
pub(crate) struct Assigned<V> {
    pub jobs: Vec<Job>,
    pub readers: Readers<V>,
}

/// Removes the last job and returns it, if it is of this rank.
fn last_of(jobs: &mut Vec<Job>, rank: u32) -> Option<Job>
    ensures items { jobs.old.items ≡ jobs.new.items ++ option_to_list result }
    ensures last { MatchOption result ((other : plan_job.Job _) → 0 < length jobs.old.items
        → ((slice_index_or jobs.old.items (length jobs.old.items - 1) other).rank == rank) ≡ false)
        (λ job. job.rank ≡ rank) }
{
    jobs.pop_if(|job| job.rank == rank)
}

/// Returns empty lists, which take no memory yet.
fn new_lists<V: Drop>(alloc: Global) -> Output<V> {
    Output {
        notices: Vec::new(alloc),
        answers: Vec::new(alloc),
    }
}

/// Clears the lists, which keep their memory.
fn empty_lists<V: Drop>(output: &mut Output<V>)
    ensures { (output.new.notices.items ≡ []) × (output.new.answers.items ≡ []) }
{
    output.notices.clear();
    output.answers.clear();
}

/// Returns lists for `count` readers: the given ones, and new ones where those are too few.
pub(crate) fn lists_for<V: Drop>(
    alloc: Global,
    given: Vec<Output<V>>,
    count: usize,
) -> Result<Vec<Output<V>>, AllocError>
    ensures { IfOk result (λ lists. length lists.items ≡ count) }
{
    let mut lists = given;
    lists.truncate(count);
    'fill: while lists.len() < count {
        lists.push(new_lists(alloc))?;
    }
    Ok(lists)
}

/// Runs the job of a reader, if it has one. The results replace the contents of `output`, which is
/// cleared if there is no job.
fn do_job<C: Catalog, G: Gate>(
    worker: &mut Worker<&C>,
    batch: &SharedBatch<'_, C, G>,
    job: Option<Job>,
    state: &mut ReaderState,
    output: &mut Output<C::Value>,
) -> Result<(), AllocError>
    ensures stands { worker.old.now ≡ batch.now.catalog.now → (s : Share C.Meaning)
        → IsAsked (map view batch.now.events.now) job s.job → StandsAt s.reader s.given state.old
        → OnOk result (StandsAt (reader_done s)
        (given_done (C.decoding batch.now.catalog.now) s) state.new) }
    ensures output { worker.old.now ≡ batch.now.catalog.now → (s : Share C.Meaning)
        → IsAsked (map view batch.now.events.now) job s.job → StandsAt s.reader s.given state.old
        → OnOk result (IsOutput C.view (C.decoding batch.now.catalog.now) s output.new) }
    ensures rank { state.new.rank ≡ state.old.rank }
    ensures same { worker.new ≡ worker.old }
{
    let Some(job) = job else {
        empty_lists(output);
        return Ok(());
    };
    run_job(worker, batch, &job, state, output)
}

/// Runs the jobs with the readers in place, from the last rank down.
pub(crate) fn run_alone<C: Catalog, G: Gate>(
    alloc: Global,
    batch: &SharedBatch<'_, C, G>,
    assigned: Assigned<C::Value>,
) -> Result<Readers<C::Value>, AllocError>
    requires few { length assigned.readers.states.items ≤ 4096 }
    requires same { length assigned.readers.outputs.items ≡ length assigned.readers.states.items }
    ensures count { IfOk result (λ p. length p.states.items
        ≡ length assigned.readers.states.items) }
    ensures outputs { IfOk result (λ p. length p.outputs.items
        ≡ length assigned.readers.states.items) }
    ensures run { (shares : ℕ → Share C.Meaning) → AllShare shares assigned.readers.states.items
        → AreJobs (map view batch.now.events.now) shares assigned.jobs.items
        (length assigned.readers.states.items)
        → IfOk result (AreRun C.view (C.decoding batch.now.catalog.now) shares
        assigned.readers.states.items) }
{
    let Assigned { mut jobs, readers } = assigned;
    let Readers {
        mut states,
        mut outputs,
    } = readers;
    let mut worker = Worker::new(alloc, batch.catalog);
    let mut rank = states.len() as u32;
    'ranks: while rank > 0 {
        rank -= 1;
        let job = last_of(&mut jobs, rank);
        let state = &mut states[rank as usize];
        let output = &mut outputs[rank as usize];
        do_job(&mut worker, batch, job, state, output)?;
    }
    Ok(Readers { states, outputs })
}

/// Returns the placeholder of a reader while a worker has the reader: a reader without matches,
/// which takes no memory.
fn nobody(alloc: Global) -> Result<ReaderState, AllocError> {
    let guid = Guid {
        prefix: GuidPrefix([0; 12]),
        entity: ENTITYID_UNKNOWN,
    };
    ReaderState::new(alloc, 0, guid, false, &[])
}

/// Moves a reader and its lists into its job, and leaves placeholders.
fn take_out<V: Drop>(
    alloc: Global,
    job: Job,
    state: &mut ReaderState,
    output: &mut Output<V>,
) -> Result<Posted<V>, AllocError>
    ensures { IfOk result (λ x. (x.job ≡ job) × (x.state ≡ state.old)) }
{
    let nobody = nobody(alloc)?;
    Ok(Posted {
        job,
        state: mem::replace(state, nobody),
        output: mem::replace(output, new_lists(alloc)),
    })
}

/// Moves each reader that has a job into it, with its lists, from the last rank down. The lists of
/// the other readers are cleared.
fn lend<C: Catalog>(
    alloc: Global,
    jobs: Vec<Job>,
    readers: &mut Readers<C::Value>,
) -> Result<Vec<Posted<C::Value>>, AllocError>
    requires few { length readers.old.states.items ≤ 4096 }
    requires same { length readers.old.outputs.items ≡ length readers.old.states.items }
    ensures count { length readers.new.states.items ≡ length readers.old.states.items }
    ensures outputs { length readers.new.outputs.items ≡ length readers.old.states.items }
    ensures few { IfOk result (λ work. length work.items ≤ length readers.old.states.items) }
    ensures ranks { IfOk result (λ work. All (λ rank. rank < length readers.old.states.items)
        (map rank_in work.items)) }
    ensures ready { (es : List EventView) (shares : ℕ → Share C.Meaning)
        → AllShare shares readers.old.states.items
        → AreJobs es shares jobs.items (length readers.old.states.items)
        → IfOk result (λ work. All (IsReady es shares) work.items) }
    ensures idle { (es : List EventView) (decoding : Decoding C.Meaning)
        (shares : ℕ → Share C.Meaning) → AllShare shares readers.old.states.items
        → AreJobs es shares jobs.items (length readers.old.states.items)
        → IfOk result (λ work. AreRunBut C.view decoding shares (map rank_in work.items)
        readers.new.states.items readers.new.outputs.items) }
{
    let mut jobs = jobs;
    let mut work = Vec::with_capacity(alloc, jobs.len())?;
    let mut rank = readers.states.len() as u32;
    'ranks: while rank > 0 {
        rank -= 1;
        let state = &mut readers.states[rank as usize];
        let output = &mut readers.outputs[rank as usize];
        match last_of(&mut jobs, rank) {
            Some(job) => {
                let posted = take_out(alloc, job, state, output)?;
                work.push(posted)?;
            }
            None => empty_lists(output),
        }
    }
    Ok(work)
}

/// Moves the readers of the results, and their lists, back into their places.
fn put_back<C: Catalog>(results: Vec<JobResult<C::Value>>, readers: &mut Readers<C::Value>)
    requires same { length readers.old.outputs.items ≡ length readers.old.states.items }
    requires ranks { All (λ rank. rank < length readers.old.states.items)
        (map rank_of results.items) }
    ensures count { length readers.new.states.items ≡ length readers.old.states.items }
    ensures outputs { length readers.new.outputs.items ≡ length readers.old.states.items }
    ensures back { (decoding : Decoding C.Meaning) (shares : ℕ → Share C.Meaning)
        → All (IsDone C.view decoding shares) results.items
        → AreRunBut C.view decoding shares (map rank_of results.items) readers.old.states.items
        readers.old.outputs.items
        → AreRunBut C.view decoding shares [] readers.new.states.items readers.new.outputs.items }
{
    for result in results {
        let rank = result.rank as usize;
        readers.states[rank] = result.state;
        readers.outputs[rank] = result.output;
    }
}

/// Runs the jobs on several workers. Each reader that has a job is moved into it and back.
fn run_shared<C: Catalog, G: Gate, R: Threads + Sync>(
    rt: &R,
    alloc: Global,
    batch: &SharedBatch<'_, C, G>,
    assigned: Assigned<C::Value>,
    workers: usize,
) -> Result<Readers<C::Value>, AllocError>
    requires few { length assigned.readers.states.items ≤ 4096 }
    requires same { length assigned.readers.outputs.items ≡ length assigned.readers.states.items }
    requires workers { (1 ≤ workers) × (workers ≤ 64) }
    ensures count { IfOk result (λ p. length p.states.items
        ≡ length assigned.readers.states.items) }
    ensures outputs { IfOk result (λ p. length p.outputs.items
        ≡ length assigned.readers.states.items) }
    ensures run { (shares : ℕ → Share C.Meaning) → AllShare shares assigned.readers.states.items
        → AreJobs (map view batch.now.events.now) shares assigned.jobs.items
        (length assigned.readers.states.items)
        → IfOk result (AreRun C.view (C.decoding batch.now.catalog.now) shares
        assigned.readers.states.items) }
{
    let Assigned { jobs, readers } = assigned;
    let mut readers = readers;
    let work = lend::<C>(alloc, jobs, &mut readers)?;
    let results = run_jobs(rt, alloc, batch, work, workers)?;
    put_back::<C>(results, &mut readers);
    Ok(readers)
}

/// Runs the jobs: on several workers if there are several and more than one job, else with the
/// readers in place.
pub(crate) fn run_assigned<C: Catalog, G: Gate, R: Threads + Sync>(
    rt: &R,
    alloc: Global,
    batch: &SharedBatch<'_, C, G>,
    assigned: Assigned<C::Value>,
    workers: usize,
) -> Result<Readers<C::Value>, AllocError>
    requires few { length assigned.readers.states.items ≤ 4096 }
    requires same { length assigned.readers.outputs.items ≡ length assigned.readers.states.items }
    requires workers { (1 ≤ workers) × (workers ≤ 64) }
    ensures count { IfOk result (λ p. length p.states.items
        ≡ length assigned.readers.states.items) }
    ensures outputs { IfOk result (λ p. length p.outputs.items
        ≡ length assigned.readers.states.items) }
    ensures run { (shares : ℕ → Share C.Meaning) → AllShare shares assigned.readers.states.items
        → AreJobs (map view batch.now.events.now) shares assigned.jobs.items
        (length assigned.readers.states.items)
        → IfOk result (AreRun C.view (C.decoding batch.now.catalog.now) shares
        assigned.readers.states.items) }
{
    if workers == 1 || assigned.jobs.len() < 2 {
        return run_alone(alloc, batch, assigned);
    }
    run_shared(rt, alloc, batch, assigned, workers)
}
