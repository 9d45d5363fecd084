//! Jobs that run out of memory, and how much of a job has run when its gate is called.

ghost use Rattle.std.specs.Prelude.{◌≤◌};

use super::gates::Counting;
use super::run;
use crate::Gate;
use dds_topic::{FailingCatalog, Shapes};
use std::alloc::Global;
use std::sync::atomic::{AtomicU64, Ordering};
use std::test::Fail;
use std::thread::Threads;

/// Whether the jobs of three readers return results when value number `refused` finds no memory.
fn give_results<R: Threads + Sync>(
    rt: &R,
    alloc: Global,
    gate: &Counting,
    refused: u64,
    workers: usize,
) -> bool
    requires { (1 ≤ workers) × (workers ≤ 64) }
{
    let catalog = FailingCatalog {
        catalog: Shapes,
        fails_at: refused,
        decoded: AtomicU64::new(0),
    };
    run(rt, alloc, &catalog, gate, (3, workers)).is_ok()
}

#[test]
fn a_job_out_of_memory_fails_the_batch(rt: HostRuntime) -> Result<(), Fail> {
    // Three readers present eight values.
    for refused in 0..9 {
        for workers in [1, 2, 7] {
            let gate = Counting::new();
            let is_given = give_results(&rt, rt.alloc(), &gate, refused, workers);
            assert_eq!(rt; is_given, refused == 8);
            // Where a worker is out of memory the others run all jobs that are left.
            assert!(rt; workers == 1 || gate.saw_each_once(3));
        }
    }
    Ok(())
}

/// A gate that records how many values were decoded when each job begins, and when it ends.
#[derive(Drop)]
struct Watching<'a> {
    decoded: &'a AtomicU64,
    began: [AtomicU64; 3],
    ended: [AtomicU64; 3],
}

impl<'a> Watching<'a> {
    fn look(&self, seen: &[AtomicU64; 3], rank: u32) {
        if let Some(seen) = seen.get(rank as usize) {
            seen.store(self.decoded.load(Ordering::SeqCst), Ordering::SeqCst);
        }
    }

    /// Whether this many values were decoded when the job of a rank began, and when it ended.
    fn saw(&self, rank: usize, began: u64, ended: u64) -> bool {
        match (self.began.get(rank), self.ended.get(rank)) {
            (Some(first), Some(last)) => {
                first.load(Ordering::SeqCst) == began && last.load(Ordering::SeqCst) == ended
            }
            _ => false,
        }
    }
}

impl<'a> Gate for Watching<'a> {
    fn enter(&self, rank: u32) {
        self.look(&self.began, rank);
    }

    fn leave(&self, rank: u32) {
        self.look(&self.ended, rank);
    }
}

/// Three counts that no job has set yet: 9 is above the eight values of all jobs.
fn unseen() -> [AtomicU64; 3] {
    [AtomicU64::new(9), AtomicU64::new(9), AtomicU64::new(9)]
}

#[test]
fn a_job_enters_before_it_runs_and_leaves_after(rt: HostRuntime) -> Result<(), Fail> {
    let catalog = FailingCatalog {
        catalog: Shapes,
        fails_at: 8,
        decoded: AtomicU64::new(0),
    };
    let gate = Watching {
        decoded: &catalog.decoded,
        began: unseen(),
        ended: unseen(),
    };
    // One worker runs three jobs one after the other, which decode three, two and three values.
    let results = run(&rt, rt.alloc(), &catalog, &gate, (3, 1))?.len();
    assert_eq!(rt; results, 3);
    for (rank, began, ended) in [(0, 0, 3), (1, 3, 5), (2, 5, 8)] {
        assert!(rt; gate.saw(rank, began, ended), "of {rank}");
    }
    Ok(())
}
