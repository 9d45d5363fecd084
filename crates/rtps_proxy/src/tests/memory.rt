//! Refused growths.

use super::fragments::half_of;
use super::{Row, What, bring, gives, new_proxy};
use crate::WriterProxy;
use linked_list_allocator::LocalHeap;
use std::alloc::{AllocError, Allocator, Global};
use std::test::Fail;

/// ACKNACK for 1, 2, 4 and 6 to 9, with count 1.
const MISSING: &[u8] = b"\x06\x01\x1c\x00\
    \x00\x00\x01\x07\x00\x00\x01\x02\
    \x00\x00\x00\x00\x01\x00\x00\x00\
    \x09\x00\x00\x00\
    \x00\x00\x80\xd7\
    \x01\x00\x00\x00";

/// A change that is held, a GAP, a HEARTBEAT that is answered, and a GAP that makes the change
/// ready.
const ROWS: [Row; 4] = [
    (What::Whole(3), 0, &[], &[(3, 3)], &[]),
    (What::Gap(5, 6), 0, &[], &[(3, 3), (5, 5)], &[]),
    (What::Asking(1, 9, 1), 0, &[], &[(3, 3), (5, 5)], MISSING),
    (What::Gap(1, 3), 0, &[3], &[(5, 5)], &[]),
];

/// Whether each row's expectation is met; `None` where memory ran out.
fn serves<A: Allocator + Copy>(alloc: A, proxy: &mut WriterProxy<A>) -> Result<Option<bool>, Fail> {
    for row in &ROWS {
        let Ok(effects) = bring(alloc, proxy, row.0)? else {
            return Ok(None);
        };
        if !gives(effects, row) {
            return Ok(Some(false));
        }
    }
    Ok(Some(true))
}

/// An event of each kind.
const EACH: [What; 5] = [
    What::Whole(1),
    What::Gap(1, 2),
    What::Asking(1, 1, 7),
    What::Fragment(1),
    What::HeartbeatFrag(1),
];

/// Whether each kind of event is refused, and changes nothing.
fn refuses<A: Allocator + Copy>(
    alloc: Global,
    heap: A,
    proxy: &mut WriterProxy<A>,
) -> Result<bool, Fail> {
    let runs = proxy.runs().to_vec(alloc)?;
    for what in EACH {
        if bring(heap, proxy, what)?.is_ok() || proxy.runs() != runs.as_slice() {
            return Ok(false);
        }
    }
    Ok(true)
}

#[test]
fn a_refused_growth_is_out_of_memory(rt: HostRuntime) -> Result<(), Fail> {
    let (mut unbegun, mut refused, mut served) = (false, false, false);
    for step in 1..64 {
        let heap = LocalHeap::new(rt.alloc(), 4096)?;
        let others = Vec::<u8, _>::with_capacity(&heap, 4096 - step * 16)?;
        let Ok(mut proxy) = new_proxy(&heap, true) else {
            // A proxy that could not begin leaves nothing, and begins once there is memory.
            drop(others);
            assert_eq!(rt; heap.used(), 0);
            let mut proxy = new_proxy(&heap, true)?;
            assert_eq!(rt; serves(&heap, &mut proxy)?, Some(true));
            unbegun = true;
            continue;
        };
        let outcome = serves(&heap, &mut proxy)?;
        drop(others);
        match outcome {
            Some(right) => {
                assert!(rt; right);
                served = true;
            }
            None => {
                // From then on each call is refused, also when there is memory again.
                assert!(rt; refuses(rt.alloc(), &heap, &mut proxy)?);
                refused = true;
            }
        }
    }
    assert!(rt; unbegun && refused && served);
    Ok(())
}

/// Sends fragments of two changes, the second change first, and a HEARTBEAT_FRAG of a third one.
/// Returns the greatest number of ready changes after an event, and whether there is an answer;
/// `None` where memory ran out.
fn puts_together<A: Allocator + Copy>(
    alloc: A,
    proxy: &mut WriterProxy<A>,
) -> Result<Option<(usize, bool)>, Fail> {
    let mut ready = 0;
    for (number, start) in [(2, 2), (2, 1), (1, 2), (1, 1)] {
        match proxy.on_fragment(alloc, None, &half_of(number, start)?) {
            Ok(effects) => ready = effects.ready.len().max(ready),
            Err(AllocError) => return Ok(None),
        }
    }
    match bring(alloc, proxy, What::HeartbeatFrag(3))? {
        Ok(effects) => Ok(Some((ready, effects.answer.is_some()))),
        Err(AllocError) => Ok(None),
    }
}

/// Whether [`puts_together`] returns `all` or is refused from the first refused growth on, for all
/// sizes of memory, and each of the two happens.
fn gives_or_refuses(alloc: Global, reliable: bool, all: (usize, bool)) -> Result<bool, Fail> {
    let (mut refused, mut served) = (false, false);
    for step in 1..192 {
        let heap = LocalHeap::new(alloc, step * 16)?;
        let Ok(mut proxy) = new_proxy(&heap, reliable) else {
            continue;
        };
        let right = match puts_together(&heap, &mut proxy)? {
            Some(given) => {
                served = true;
                given == all
            }
            None => {
                refused = true;
                refuses(alloc, &heap, &mut proxy)?
            }
        };
        if !right {
            return Ok(false);
        }
    }
    Ok(refused && served)
}

#[test]
fn fragments_may_find_no_memory(rt: HostRuntime) -> Result<(), Fail> {
    assert!(rt; gives_or_refuses(rt.alloc(), true, (2, true))?);
    assert!(rt; gives_or_refuses(rt.alloc(), false, (1, false))?);
    Ok(())
}
