//! Refused growths.

use super::ring::{datagram, notice};
use crate::outlet;
use linked_list_allocator::LocalHeap;
use std::alloc::{AllocError, Allocator};
use std::test::Fail;

/// The octets of a heap.
const SIZE: usize = 4_096;

/// Whether two notices go through a ring; `Err` where no ring could be made.
fn goes_through<A: Allocator + Copy>(alloc: A) -> Result<bool, AllocError> {
    let (mut outlet, mut inlet) = outlet::<u64, _>(alloc, 2)?;
    let delivered = outlet.deliver(notice(1)).is_ok() && outlet.deliver(notice(2)).is_ok();
    Ok(delivered && datagram(inlet.pop()) == Some(1) && datagram(inlet.pop()) == Some(2))
}

#[test]
fn makes_a_ring_again_that_was_refused(rt: HostRuntime) -> Result<(), Fail> {
    let (mut refused, mut made) = (false, false);
    for step in 0..64 {
        let heap = LocalHeap::new(rt.alloc(), SIZE)?;
        let Ok(others) = Vec::<u8, _>::with_capacity(&heap, SIZE - step * 16) else {
            continue;
        };
        let used = heap.used();
        match goes_through(&heap) {
            Ok(right) => {
                assert!(rt; right);
                made = true;
            }
            Err(AllocError) => refused = true,
        }
        assert_eq!(rt; heap.used(), used);
        drop(others);
        assert!(rt; goes_through(&heap)?);
    }
    assert!(rt; refused && made);
    Ok(())
}
