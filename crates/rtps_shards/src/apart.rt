//! Calls that are made on threads of their own.

ghost use Rattle.std.specs.Prelude.{◌≡◌, IfOk, IfSome, vec_len};
ghost use Rattle.std.specs.Fork.{AcceptsJobs, GivesJobs};
ghost use Rattle.rtps_shards.specs.Apart.{IsCalledAt, somes};

use std::alloc::{AllocError, Global};
use std::thread;
use std::thread::Threads;

/// Returns a place for each job, and an empty one after every two. A list is split in halves: the
/// thread that reaches an empty place has started a thread for each of the two jobs by then, and
/// only waits for them, so that its processor is free.
fn spaced<J: Drop>(alloc: Global, jobs: Vec<J>) -> Result<Vec<Option<J>>, AllocError>
    ensures { IfOk result (λ places. somes places.items ≡ jobs.items) }
{
    let mut places = Vec::new(alloc);
    let mut rest = jobs.into_iter();
    while let Some(job) = rest.next() {
        places.push(Some(job))?;
        places.push(rest.next())?;
        places.push(None)?;
    }
    Ok(places)
}

/// Returns the values of the places that aren't empty, in order.
#[tactic(auto, using(crate::proofs::Places::next_put))]
fn made<X: Drop>(alloc: Global, places: Vec<Option<X>>) -> Result<Vec<X>, AllocError>
    ensures { IfOk result (λ all. all.items ≡ somes places.items) }
{
    let mut all = Vec::new(alloc);
    for place in places {
        if let Some(made) = place {
            all.push(made)?;
        }
    }
    Ok(all)
}

/// Calls `call` with each job, each on a thread of its own where one can be started, and returns
/// the results in the order of the jobs. The caller only waits: a new thread often begins on the
/// processor of the one that started it, and so only when that one rests.
///
/// An error is a refused growth here, not in a call. Some of the calls may have been made then;
/// their results are dropped.
pub(crate) fn map_beside<R: Threads + Sync, J: Send + Drop, X: Send + Drop, F: Fn(J) -> X + Sync>(
    rt: &R,
    alloc: Global,
    jobs: Vec<J>,
    call: &F,
) -> Result<Vec<X>, AllocError>
    requires { AcceptsJobs F.Fn call.now jobs.items }
    ensures len { IfOk result (λ all. vec_len all ≡ vec_len jobs) }
    ensures each { IfOk result (λ all. GivesJobs F.Fn call.now jobs.items all.items) }
{
    let places = spaced(alloc, jobs)?;
    let run = |place: Option<J>| -> Option<X>
        requires { IfSome place (λ job. F.pre call.now job) }
        ensures { IsCalledAt F.Fn call.entry.now place result }
    {
        match place {
            Some(job) => Some(call(job)),
            None => None,
        }
    };
    made(alloc, thread::map_vec(rt, places, &run)?)
}

/// Calls `call` with each job, and returns the results in the order of the jobs. Several jobs have
/// a thread each, where one can be started, for which the caller waits; a single job runs on the
/// caller's thread. An error is a refused growth here, not in a call. Some of the calls may have
/// been made then; their results are dropped.
pub fn map_apart<R: Threads + Sync, J: Send + Drop, X: Send + Drop, F: Fn(J) -> X + Sync>(
    rt: &R,
    alloc: Global,
    jobs: Vec<J>,
    call: &F,
) -> Result<Vec<X>, AllocError>
    requires { AcceptsJobs F.Fn call.now jobs.items }
    ensures len { IfOk result (λ all. vec_len all ≡ vec_len jobs) }
    ensures each { IfOk result (λ all. GivesJobs F.Fn call.now jobs.items all.items) }
{
    if jobs.len() < 2 {
        return thread::map_vec(rt, jobs, call);
    }
    map_beside(rt, alloc, jobs, call)
}
