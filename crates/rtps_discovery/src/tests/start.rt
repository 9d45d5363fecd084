//! Tests of discovery at its start.

use super::{GOOD, OUR_WRITER, WRITER, WRITER_WITHOUT_KEY, config_of};
use crate::{Discovery, check};
use linked_list_allocator::LocalHeap;
use std::alloc::Global;
use std::test::Fail;

/// Whether the fixed matches are known, and nothing else.
fn is_at_start(discovery: &Discovery) -> bool {
    discovery.matched(WRITER) == [0, 1].as_slice()
        && discovery.matched(WRITER_WITHOUT_KEY) == [1].as_slice()
        && discovery.matched(OUR_WRITER).is_empty()
        && discovery.participants().next().is_none()
        && discovery.writers().next().is_none()
        && discovery.remote_readers().next().is_none()
}

/// Whether discovery of a configuration without faults starts like this.
fn starts(alloc: Global) -> Result<bool, Fail> {
    let config = config_of(alloc, GOOD)?;
    check(&config)?;
    let discovery = Discovery::new(alloc, &config)?;
    Ok(is_at_start(&discovery))
}

#[test]
fn fixed_matches_are_there_from_the_start(rt: HostRuntime) -> Result<(), Fail> {
    assert!(rt; starts(rt.alloc())?);
    Ok(())
}

#[test]
fn refused_growths(rt: HostRuntime) -> Result<(), Fail> {
    let config = config_of(rt.alloc(), GOOD)?;
    check(&config)?;
    let (mut refused, mut given) = (false, false);
    for step in 1..128 {
        let heap = LocalHeap::new(rt.alloc(), step * 64)?;
        match Discovery::new(&heap, &config) {
            Ok(_) => given = true,
            Err(_) => refused = true,
        }
    }
    assert!(rt; refused && given);
    Ok(())
}
