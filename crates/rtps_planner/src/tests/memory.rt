//! Refused growths.

ghost use Rattle.std.specs.Prelude.{◌≡◌, Ok};
ghost use Rattle.rtps_discovery.specs.Config.{check_of};

use super::outputs::{BOTH, gather_all, is_of_both};
use super::plans::{at_once, six_events, two_readers};
use crate::*;
use linked_list_allocator::LocalHeap;
use rtps_discovery::{Config, Discovery, check};
use rtps_receiver::Event;
use std::alloc::{AllocError, Allocator, Global};
use std::test::Fail;

/// Whether outputs are merged in a heap of this size; `false` where memory is refused.
fn gathers_in(alloc: Global, size: usize) -> Result<bool, Fail> {
    let heap = LocalHeap::new(alloc, size)?;
    match gather_all(&heap, &BOTH) {
        Ok(outcome) => {
            if !is_of_both(outcome) {
                return Err(Fail::new("another outcome"));
            }
            Ok(true)
        }
        Err(GatherFault::NoMemory) => Ok(false),
        Err(_) => Err(Fail::new("a fault of good outputs")),
    }
}

#[test]
fn refused_growths_gather_nothing(rt: HostRuntime) -> Result<(), Fail> {
    let (mut refused, mut gathered) = (false, false);
    for step in 1..65 {
        if gathers_in(rt.alloc(), step * 64)? {
            gathered = true;
        } else {
            refused = true;
        }
    }
    assert!(rt; refused && gathered);
    Ok(())
}

/// The result of a plan.
#[derive(Clone, Copy, Debug, PartialEq)]
enum Met {
    /// There was no memory for discovery.
    NoDiscovery,
    /// The plan was refused, and each later one is.
    Refused,
    /// This number of jobs is planned.
    Jobs(usize),
}

/// Whether a discovery is spent, and these events are refused with it.
fn stays_spent<A: Allocator + Copy>(
    alloc: A,
    stamped: &[Stamped<'_>],
    discovery: &mut Discovery<A>,
) -> bool {
    discovery.is_spent() && plan(alloc, stamped, discovery).is_err()
}

/// Plans in a heap of this size.
fn met_in<'a>(
    alloc: Global,
    config: &Config,
    events: &'a [Event<'a>],
    size: usize,
) -> Result<Met, Fail>
    requires { check_of config.now ≡ Ok tt }
{
    let heap = LocalHeap::new(alloc, 65_536)?;
    let others = Vec::<u8, _>::with_capacity(&heap, 65_536_usize.saturating_sub(size))?;
    let Ok(mut discovery) = Discovery::new(&heap, config) else {
        return Ok(Met::NoDiscovery);
    };
    let outcome = plan(&heap, &at_once(events), &mut discovery);
    drop(others);
    if let Ok(plan) = outcome {
        return Ok(Met::Jobs(plan.jobs.len()));
    }
    let moment = discovery.moment();
    if !stays_spent(&heap, &at_once(events), &mut discovery)
        || !stays_spent(&heap, &at_once(&[]), &mut discovery)
        || !stays_spent(&heap, &[], &mut discovery)
    {
        return Err(Fail::new("something is planned after a refused plan"));
    }
    if discovery.moment() != moment {
        return Err(Fail::new("a refused plan passes a moment"));
    }
    Ok(Met::Refused)
}

#[test]
fn refused_growths_plan_nothing(rt: HostRuntime) -> Result<(), Fail> {
    let config = two_readers(rt.alloc())?;
    check(&config)?;
    let events = six_events(rt.alloc())?;
    let (mut refused, mut some_planned) = (0_u32, false);
    for step in 1..256 {
        match met_in(rt.alloc(), &config, &events, step * 64)? {
            Met::NoDiscovery => {}
            Met::Refused => refused = refused.saturating_add(1),
            jobs => {
                some_planned = true;
                assert_eq!(rt; jobs, Met::Jobs(2));
            }
        }
    }
    assert!(rt; 1 < refused && some_planned);
    Ok(())
}

/// Allocates what is left of a heap, down to pieces of two octets.
fn all_of(alloc: Global, heap: &LocalHeap) -> Result<Vec<Vec<u8, &LocalHeap>>, AllocError> {
    let mut taken = Vec::new(alloc);
    for power in 0..15_u32 {
        for _ in 0..8 {
            let size = 32_768_usize >> power;
            if let Ok(piece) = Vec::<u8, &LocalHeap>::with_capacity(heap, size) {
                taken.push(piece)?;
            }
        }
    }
    Ok(taken)
}

#[test]
fn a_refused_plan_is_the_last(rt: HostRuntime) -> Result<(), Fail> {
    let config = two_readers(rt.alloc())?;
    check(&config)?;
    let events = six_events(rt.alloc())?;
    let heap = LocalHeap::new(rt.alloc(), 65_536)?;
    let mut discovery = Discovery::new(&heap, &config)?;
    assert!(rt; plan(&heap, &at_once(&events), &mut discovery).is_ok());
    let mut taken = all_of(rt.alloc(), &heap)?;
    assert!(rt; plan(&heap, &at_once(&events), &mut discovery).is_err());
    taken.clear();
    // There is memory again, but the events of the refused plan are lost.
    assert!(rt; discovery.is_spent());
    assert!(rt; plan(&heap, &at_once(&events), &mut discovery).is_err());
    Ok(())
}
