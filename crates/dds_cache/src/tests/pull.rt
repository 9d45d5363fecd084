//! Tests of pulling notices out of a ring.

ghost use Rattle.std.specs.Prelude.{◌≡◌, IfSome};

use super::What::Value;
use super::{Row, notice, place, takes_next};
use crate::InstanceState::Alive;
use crate::SampleState::NotRead;
use crate::ViewState::{New, NotNew};
use crate::{DataReader, History};
use dds_outlet::{Inlet, Outlet, Sent, outlet};
use linked_list_allocator::LocalHeap;
use rtps_reader::Notice;
use rtps_types::KeyHash;
use std::alloc::{AllocError, Allocator, Global};
use std::test::Fail;
use std::thread;

/// The size of a heap in octets.
const SIZE: usize = 16_384;

/// The number of tries after which a thread gives up, so that a test that fails ends.
const TRIES: u32 = 10_000_000;

const BLUE: KeyHash = KeyHash([1; 16]);

/// The first and the later values of one instance.
const FIVE: [Row; 5] = [
    (1, true, NotRead, New, Alive),
    (2, true, NotRead, NotNew, Alive),
    (3, true, NotRead, NotNew, Alive),
    (4, true, NotRead, NotNew, Alive),
    (5, true, NotRead, NotNew, Alive),
];

/// Whether a cache returns exactly these entries, taken one by one.
fn has_only<A: Allocator + Copy>(cache: &mut DataReader<u64, A>, rows: &[Row]) -> bool {
    for row in rows {
        if !takes_next(cache, Some(*row)) {
            return false;
        }
    }
    takes_next(cache, None)
}

#[test]
fn pulls_no_more_than_the_ring_has_places(rt: HostRuntime) -> Result<(), Fail> {
    let alloc = rt.alloc();
    let (mut outlet, mut inlet) = outlet(alloc, 2)?;
    let mut cache = DataReader::new(alloc, History::KeepAll);
    assert_eq!(rt; cache.pull(alloc, &mut inlet)?, 0);
    assert!(rt; outlet.deliver(notice(1, 1, Value(BLUE))?).is_ok());
    assert!(rt; outlet.deliver(notice(1, 2, Value(BLUE))?).is_ok());
    assert_eq!(rt; cache.pull(alloc, &mut inlet)?, 2);
    assert!(rt; outlet.deliver(notice(1, 3, Value(BLUE))?).is_ok());
    assert_eq!(rt; cache.pull(alloc, &mut inlet)?, 1);
    assert_eq!(rt; cache.pull(alloc, &mut inlet)?, 0);
    assert!(rt; has_only(&mut cache, &FIVE[..3]));
    Ok(())
}

/// Delivers a notice as soon as the ring has a place for it. Returns whether it had one in time.
fn delivers(outlet: &mut Outlet<u64>, notice: Notice<u64>) -> bool
    ensures { outlet.new.ring ≡ outlet.old.ring }
{
    let mut waiting = notice;
    for _ in 0..TRIES {
        match outlet.deliver(waiting) {
            Ok(()) => return true,
            Err(back) => waiting = back,
        }
        thread::yield_now();
    }
    false
}

/// Delivers all notices, and then finishes the outlet.
fn sends(outlet: Outlet<u64>, notices: Vec<Notice<u64>>) -> Option<Sent<u64>>
    ensures { IfSome result (λ sent. sent.ring ≡ outlet.ring) }
{
    let mut outlet = outlet;
    for notice in notices {
        if !delivers(&mut outlet, notice) {
            return None;
        }
    }
    outlet.finish()
}

/// Pulls until the cache has this many entries, or gives up.
fn fills(
    alloc: Global,
    cache: &mut DataReader<u64>,
    inlet: &mut Inlet<u64>,
    least: usize,
) -> Result<(), AllocError>
    ensures { inlet.new.ring ≡ inlet.old.ring }
{
    for _ in 0..TRIES {
        cache.pull(alloc, inlet)?;
        if cache.len() >= least {
            break;
        }
        thread::yield_now();
    }
    Ok(())
}

#[test]
fn pulls_what_another_thread_delivers(rt: HostRuntime) -> Result<(), Fail> {
    let alloc = rt.alloc();
    let (outlet, inlet) = outlet(alloc, 2)?;
    let mut notices = Vec::new(alloc);
    for number in [1, 2, 3, 4, 5] {
        notices.push(notice(1, number, Value(BLUE))?)?;
    }
    let mut cache = DataReader::new(alloc, History::KeepAll);
    let (sent, pulled) = thread::join(
        &rt,
        move || -> Option<Sent<u64>>
            ensures { IfSome result (λ sent. sent.ring ≡ outlet.ring) }
        { sends(outlet, notices) },
        move || -> (Inlet<u64>, DataReader<u64>, Result<(), AllocError>)
            ensures { result.0.ring ≡ inlet.ring }
        {
            let mut inlet = inlet;
            let filled = fills(alloc, &mut cache, &mut inlet, 3);
            (inlet, cache, filled)
        },
    );
    let (mut inlet, mut cache, filled) = pulled;
    filled?;
    let Some(mut sent) = sent else {
        return Err(Fail::new("a notice found no place"));
    };
    assert!(rt; cache.len() >= 3);
    inlet.known_all(&mut sent);
    cache.pull(alloc, &mut inlet)?;
    assert!(rt; inlet.pop().is_none());
    assert!(rt; has_only(&mut cache, &FIVE));
    Ok(())
}

/// A ring with values of twelve instances.
fn twelve(alloc: Global) -> Result<Inlet<u64>, Fail> {
    let (mut outlet, inlet) = outlet(alloc, 12)?;
    for number in 1..13u8 {
        let value = notice(1, u64::from(number), Value(KeyHash([number; 16])))?;
        if outlet.deliver(value).is_err() {
            return Err(Fail::new("the ring has fewer places than were asked for"));
        }
    }
    Ok(inlet)
}

/// Whether the cache has the twelve values.
fn has_twelve<A: Allocator + Copy>(cache: &mut DataReader<u64, A>) -> bool {
    for number in 1..13 {
        if !takes_next(cache, Some((number, true, NotRead, New, Alive))) {
            return false;
        }
    }
    takes_next(cache, None)
}

#[test]
fn pulls_again_what_was_refused(rt: HostRuntime) -> Result<(), Fail> {
    let (mut refused, mut pulled) = (false, false);
    for step in 0..128 {
        let heap = LocalHeap::new(rt.alloc(), SIZE)?;
        let mut inlet = twelve(rt.alloc())?;
        let mut cache = DataReader::new(&heap, History::KeepLast(1));
        let Ok(others) = Vec::<u8, _>::with_capacity(&heap, SIZE - step * 64) else {
            continue;
        };
        match cache.pull(&heap, &mut inlet) {
            Ok(count) => {
                assert_eq!(rt; count, 12);
                pulled = true;
            }
            Err(AllocError) => {
                drop(others);
                let accepted = cache.len();
                let Some(next) = inlet.pop() else {
                    return Err(Fail::new("the notice is lost that found no memory"));
                };
                assert_eq!(rt; next.place, place(accepted.saturating_add(1) as u64));
                inlet.put_back(next);
                let rest = 12usize.saturating_sub(accepted);
                assert_eq!(rt; cache.pull(&heap, &mut inlet)?, rest);
                refused = true;
            }
        }
        assert!(rt; inlet.pop().is_none());
        assert!(rt; has_twelve(&mut cache));
    }
    assert!(rt; refused && pulled);
    Ok(())
}
