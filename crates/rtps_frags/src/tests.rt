//! Samples reassembled from fragments, with octets written by hand.

mod holes;
mod missing;
mod together;

use crate::{AddError, Assembly, FragFault, Sizes, fault_in};
use linked_list_allocator::LocalHeap;
use std::alloc::{Allocator, Global};
use std::test::Fail;

/// Faults of a sample of 28 octets in fragments of 10, in order.
#[test]
fn each_fault_is_the_first(rt: HostRuntime) {
    let sizes = Sizes {
        sample: 28,
        fragment: 10,
    };
    assert_eq!(rt; fault_in(sizes, 1, 3, 28), None);
    assert_eq!(rt; fault_in(sizes, 3, 1, 8), None);
    assert_eq!(rt; fault_in(sizes, 3, 1, 7), Some(FragFault::ShortPayload));
    assert_eq!(rt; fault_in(sizes, 3, 2, 0), Some(FragFault::Number));
    assert_eq!(rt; fault_in(sizes, 0, 1, 28), Some(FragFault::Number));
    assert_eq!(rt; fault_in(sizes, 1, 0, 28), Some(FragFault::Number));
    let none = Sizes {
        sample: 0,
        fragment: 10,
    };
    assert_eq!(rt; fault_in(none, 0, 0, 0), Some(FragFault::Sizes));
    let uncut = Sizes {
        sample: 67_108_865,
        fragment: 0,
    };
    assert_eq!(rt; fault_in(uncut, 1, 1, 28), Some(FragFault::Sizes));
    let large = Sizes {
        sample: 67_108_865,
        fragment: 10,
    };
    assert_eq!(rt; fault_in(large, 0, 0, 0), Some(FragFault::TooLarge));
}

/// A fault is reported and changes nothing: the sample is completed afterwards.
#[test]
fn a_fault_changes_nothing(rt: HostRuntime) -> Result<(), Fail> {
    let alloc = rt.alloc();
    let mut sample = Assembly::new(alloc, 4, 2);
    let short = sample.add(alloc, 2, 1, b"c");
    assert_eq!(rt; short, Err(AddError::Fault(FragFault::ShortPayload)));
    let outside = sample.add(alloc, 2, 2, b"cdef");
    assert_eq!(rt; outside, Err(AddError::Fault(FragFault::Number)));
    assert!(rt; !sample.is_whole());
    sample.add(alloc, 1, 2, b"abcd")?;
    assert!(rt; sample.is_whole());
    assert_eq!(rt; sample.whole().as_slice(), b"abcd".as_slice());
    Ok(())
}

/// A sample of no octets, or with a fragment size of 0, is never complete, and no fragment of it is
/// missing.
#[test]
fn a_sample_without_octets_never_comes(rt: HostRuntime) {
    let alloc = rt.alloc();
    let mut empty = Assembly::new(alloc, 0, 10);
    assert_eq!(rt;
        empty.add(alloc, 1, 1, b""),
        Err(AddError::Fault(FragFault::Sizes))
    );
    assert!(rt; !empty.is_whole());
    assert!(rt; empty.missing_up_to(9).is_none());
    let uncut = Assembly::new(alloc, 10, 0);
    assert!(rt; !uncut.is_whole());
    assert!(rt; uncut.missing_up_to(9).is_none());
}

/// Adds fragments 3, 2 and 1 of a sample: the first is stored apart, and the second at its place.
/// Returns whether the sample is complete; `None` where memory ran out.
fn serves<A: Allocator + Copy>(alloc: A, sample: &mut Assembly<A>) -> Option<bool> {
    if sample.add(alloc, 3, 1, b"ef").is_err() {
        return None;
    }
    if sample.add(alloc, 2, 1, b"cd").is_err() {
        return None;
    }
    if sample.add(alloc, 1, 1, b"ab").is_err() {
        return None;
    }
    Some(sample.is_whole())
}

/// Fragments that a sample is asked to add once memory was refused: missing ones, all at once, and
/// one with a fault.
const LATER: [(u32, u16, &[u8]); 5] = [
    (1, 1, b"ab"),
    (2, 1, b"cd"),
    (3, 1, b"ef"),
    (1, 3, b"abcdef"),
    (0, 0, b""),
];

/// Whether later calls are refused with the memory that there is, and change nothing: the sample
/// isn't complete, and lacks what it lacked.
fn refuses<A: Allocator + Copy>(alloc: A, sample: &mut Assembly<A>) -> bool {
    let missing = sample.missing_up_to(3);
    for (start, count, payload) in LATER {
        let added = sample.add(alloc, start, count, payload);
        if added != Err(AddError::NoMemory)
            || sample.missing_up_to(3) != missing
            || sample.is_whole()
        {
            return false;
        }
    }
    true
}

#[test]
fn a_refused_growth_is_out_of_memory(rt: HostRuntime) -> Result<(), Fail> {
    let (mut refused, mut served) = (false, false);
    for step in 1..128 {
        let heap = LocalHeap::new(rt.alloc(), 4096)?;
        let others = Vec::<u8, _>::with_capacity(&heap, 4096 - step * 16)?;
        let mut sample = Assembly::new(&heap, 6, 2);
        let outcome = serves(&heap, &mut sample);
        drop(others);
        match outcome {
            Some(whole) => {
                assert!(rt; whole);
                served = true;
            }
            None => {
                assert!(rt; refuses(&heap, &mut sample));
                refused = true;
            }
        }
    }
    assert!(rt; refused);
    assert!(rt; served);
    Ok(())
}

/// 64 KiB of memory are enough for two fragments of a sample whose stated size is 64 MiB, wherever
/// in the sample they are.
#[test]
fn a_stated_size_takes_no_memory(rt: HostRuntime) -> Result<(), Fail> {
    let heap = LocalHeap::new(rt.alloc(), 65_536)?;
    let mut sample = Assembly::new(&heap, 67_108_864, 1024);
    let piece = [7; 1024];
    sample.add(&heap, 1, 1, &piece)?;
    sample.add(&heap, 60_000, 1, &piece)?;
    assert!(rt; sample.missing_up_to(1).is_none());
    assert!(rt; sample.missing_up_to(2).is_some());
    Ok(())
}

/// Whether a sample is complete and has these octets.
fn is_just(sample: Assembly<Global>, octets: &[u8]) -> bool {
    sample.is_whole() && sample.whole().as_slice() == octets
}
