//! Calls on threads of their own.

use crate::*;
use std::alloc::{AllocError, Global};
use std::sync::atomic::{AtomicU64, Ordering};
use std::test::Fail;
use std::thread::Threads;

/// Returns the results of a call with each number below `count`, and the number of calls.
fn tripled<R: Threads + Sync>(
    rt: &R,
    alloc: Global,
    count: u32,
) -> Result<(Vec<u32>, u64), AllocError> {
    let calls = AtomicU64::new(0);
    let triple = |job: u32| -> u32 {
        calls.fetch_add(1, Ordering::SeqCst);
        job.wrapping_mul(3)
    };
    let jobs = (0..count).collect(alloc)?;
    let made = map_apart(rt, alloc, jobs, &triple)?;
    Ok((made, calls.load(Ordering::SeqCst)))
}

#[test]
fn one_call_is_made_with_each_job(rt: HostRuntime) -> Result<(), Fail> {
    for count in [0, 1, 2, 3, 4, 5, 64] {
        let (made, calls) = tripled(&rt, rt.alloc(), count)?;
        assert_eq!(rt; calls, u64::from(count));
        assert_eq!(rt; made.len(), count as usize);
        for (at, value) in made.iter().enumerate() {
            assert_eq!(rt; *value as usize, at.wrapping_mul(3));
        }
    }
    Ok(())
}
