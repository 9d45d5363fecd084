//! Tests with too little memory.

use super::{ONE, OWN, TWO, asks, facts};
use crate::{Announcer, Hearing, Rules, Said, Sending};
use linked_list_allocator::LocalHeap;
use std::alloc::{AllocError, Allocator, Global};
use std::test::Fail;

/// Hears a peer that comes, readers that come and go, an ACKNACK and a moment, until memory is
/// refused.
fn run<A: Allocator + Copy>(
    heap: A,
    announcer: &mut Announcer<A>,
    sends: &mut Vec<Sending, A>,
) -> Result<(), AllocError> {
    announcer.hear(heap, &Hearing::Comes(ONE, facts(None)), sends)?;
    announcer.add_reader(heap, sends)?;
    announcer.add_reader(heap, sends)?;
    announcer.remove_reader(heap, 0, sends)?;
    announcer.hear(heap, &Hearing::Comes(TWO, facts(None)), sends)?;
    if let Some(ack) = asks(1, 1) {
        announcer.hear(heap, &Hearing::Acks(ONE, ack), sends)?;
    }
    announcer.tick(heap, 1_000, sends)?;
    announcer.farewell(heap, sends)
}

/// Whether there is memory for all; once it was refused, each call is.
fn has_room(alloc: Global, size: usize) -> Result<bool, Fail> {
    let heap = LocalHeap::new(alloc, size)?;
    let mut announcer = Announcer::new(&heap, OWN, Rules::DEFAULT);
    let mut sends = Vec::new(&heap);
    if run(&heap, &mut announcer, &mut sends).is_ok() {
        if sends.iter().filter(|one| one.said == Said::Bye).count() != 5 {
            return Err(Fail::new("two that were found, and a farewell to three"));
        }
        return Ok(true);
    }
    // A farewell changes nothing where it is refused.
    let said = sends.len();
    let is_failed = announcer.tick(&heap, 2_000, &mut sends).is_err();
    if is_failed && announcer.add_reader(&heap, &mut sends).is_ok() {
        return Err(Fail::new("a call is taken after a refused one"));
    }
    if is_failed && sends.len() != said {
        return Err(Fail::new("a refused call says something"));
    }
    Ok(false)
}

#[test]
fn a_refused_growth_says_nothing_and_fails_the_announcer(rt: HostRuntime) -> Result<(), Fail> {
    let (mut refused, mut taken) = (0u32, 0u32);
    for step in 1..128 {
        if has_room(rt.alloc(), step * 128)? {
            taken = taken.saturating_add(1);
        } else {
            refused = refused.saturating_add(1);
        }
    }
    assert!(rt; refused > 8 && taken > 8);
    Ok(())
}
