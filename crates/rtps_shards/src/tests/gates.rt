//! Gates that watch jobs.

use super::{ranks, run};
use crate::*;
use dds_topic::Shapes;
use std::sync::atomic::{AtomicBool, AtomicU64, Ordering};
use std::test::Fail;
use std::thread;
use std::time::{Clock, Duration};

/// A gate that counts, by rank.
#[derive(Drop)]
pub(super) struct Counting {
    entered: [AtomicU64; 8],
    left: [AtomicU64; 8],
}

fn zeros() -> [AtomicU64; 8] {
    [
        AtomicU64::new(0),
        AtomicU64::new(0),
        AtomicU64::new(0),
        AtomicU64::new(0),
        AtomicU64::new(0),
        AtomicU64::new(0),
        AtomicU64::new(0),
        AtomicU64::new(0),
    ]
}

fn count(counts: &[AtomicU64; 8], rank: u32) {
    if let Some(count) = counts.get(rank as usize) {
        count.fetch_add(1, Ordering::SeqCst);
    }
}

impl Gate for Counting {
    fn enter(&self, rank: u32) {
        count(&self.entered, rank);
    }

    fn leave(&self, rank: u32) {
        count(&self.left, rank);
    }
}

impl Counting {
    pub fn new() -> Counting {
        Counting {
            entered: zeros(),
            left: zeros(),
        }
    }

    /// Whether the job of each rank below `ranks` began once and ended once, and no other job ran.
    pub fn saw_each_once(&self, ranks: usize) -> bool {
        let mut all = true;
        for rank in 0..8 {
            let expected = if rank < ranks { 1 } else { 0 };
            all &= self.entered[rank].load(Ordering::SeqCst) == expected
                && self.left[rank].load(Ordering::SeqCst) == expected;
        }
        all
    }
}

#[test]
fn each_job_enters_and_leaves_once(rt: HostRuntime) -> Result<(), Fail> {
    for workers in [1, 2, 64] {
        let gate = Counting::new();
        let results = run(&rt, rt.alloc(), &Shapes, &gate, (5, workers))?.len();
        assert_eq!(rt; results, 5);
        assert!(rt; gate.saw_each_once(5));
    }
    Ok(())
}

/// Waits up to ten seconds for a count to reach `wanted`, and returns whether it did.
fn comes_to<R: Clock>(rt: &R, count: &AtomicU64, wanted: u64) -> bool {
    for _pause in 0..10_000 {
        if count.load(Ordering::SeqCst) >= wanted {
            return true;
        }
        thread::sleep(rt, Duration::from_millis(1));
    }
    false
}

/// A gate that holds each job until `wanted` jobs have entered, but no longer than ten seconds.
#[derive(Drop)]
struct Meeting<'a, R> {
    rt: &'a R,
    wanted: u64,
    entered: AtomicU64,
    /// The rank of the job that entered last.
    last: AtomicU64,
    gave_up: AtomicBool,
}

impl<'a, R: Clock + Sync> Gate for Meeting<'a, R> {
    fn enter(&self, rank: u32) {
        self.last.store(u64::from(rank), Ordering::SeqCst);
        self.entered.fetch_add(1, Ordering::SeqCst);
        if !comes_to(self.rt, &self.entered, self.wanted) {
            self.gave_up.store(true, Ordering::SeqCst);
        }
    }

    fn leave(&self, _rank: u32) {}
}

/// Returns a gate that holds each job until `wanted` jobs have entered.
fn gate_for<R>(rt: &R, wanted: u64) -> Meeting<'_, R> {
    Meeting {
        rt,
        wanted,
        entered: AtomicU64::new(0),
        last: AtomicU64::new(0),
        gave_up: AtomicBool::new(false),
    }
}

#[test]
fn as_many_jobs_run_at_once_as_there_are_workers(rt: HostRuntime) -> Result<(), Fail> {
    for (ranks, workers) in [(2, 2), (7, 7)] {
        let gate = gate_for(&rt, u64::from(ranks));
        let results = run(&rt, rt.alloc(), &Shapes, &gate, (ranks, workers))?.len();
        assert_eq!(rt; results, workers);
        assert!(rt; !gate.gave_up.load(Ordering::SeqCst));
    }
    Ok(())
}

#[test]
fn the_job_with_the_fewest_events_is_taken_last(rt: HostRuntime) -> Result<(), Fail> {
    // Two workers hold the first two jobs until both have begun. Rank 2 has three events; the steps
    // of the others ask for more.
    let gate = gate_for(&rt, 2);
    let results = run(&rt, rt.alloc(), &Shapes, &gate, (3, 2))?.len();
    assert_eq!(rt; results, 3);
    assert_eq!(rt; gate.last.load(Ordering::SeqCst), 2);
    assert!(rt; !gate.gave_up.load(Ordering::SeqCst));
    Ok(())
}

/// A gate that holds the job of rank 1 until `others` jobs have ended, but no longer than ten
/// seconds.
#[derive(Drop)]
struct Holding<'a, R> {
    rt: &'a R,
    others: u64,
    left: AtomicU64,
    gave_up: AtomicBool,
}

impl<'a, R: Clock + Sync> Gate for Holding<'a, R> {
    fn enter(&self, rank: u32) {
        if rank == 1 && !comes_to(self.rt, &self.left, self.others) {
            self.gave_up.store(true, Ordering::SeqCst);
        }
    }

    fn leave(&self, _rank: u32) {
        self.left.fetch_add(1, Ordering::SeqCst);
    }
}

#[test]
fn one_worker_runs_all_other_jobs_while_one_is_held(rt: HostRuntime) -> Result<(), Fail> {
    let gate = Holding {
        rt: &rt,
        others: 99,
        left: AtomicU64::new(0),
        gave_up: AtomicBool::new(false),
    };
    let expected: Vec<u32> = (0..100).collect(rt.alloc())?;
    let results = run(&rt, rt.alloc(), &Shapes, &gate, (100, 2))?;
    assert!(rt; !gate.gave_up.load(Ordering::SeqCst));
    assert!(rt; ranks(rt.alloc(), results)?.as_slice() == expected.as_slice());
    Ok(())
}

/// A gate that holds each job until its neighbour has entered: the first one and the second, the
/// third and the fourth, and so on. It holds none longer than ten seconds.
#[derive(Drop)]
struct Pairing<'a, R> {
    rt: &'a R,
    entered: AtomicU64,
    gave_up: AtomicBool,
}

impl<'a, R: Clock + Sync> Gate for Pairing<'a, R> {
    fn enter(&self, _rank: u32) {
        let before = self.entered.fetch_add(1, Ordering::SeqCst);
        if !comes_to(self.rt, &self.entered, (before | 1).saturating_add(1)) {
            self.gave_up.store(true, Ordering::SeqCst);
        }
    }

    fn leave(&self, _rank: u32) {}
}

#[test]
fn each_of_two_workers_goes_on_until_no_job_is_left(rt: HostRuntime) -> Result<(), Fail> {
    let gate = Pairing {
        rt: &rt,
        entered: AtomicU64::new(0),
        gave_up: AtomicBool::new(false),
    };
    let results = run(&rt, rt.alloc(), &Shapes, &gate, (8, 2))?;
    assert_eq!(rt; results.len(), 8);
    assert!(rt; !gate.gave_up.load(Ordering::SeqCst));
    Ok(())
}
