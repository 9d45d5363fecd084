//! Changes that come in fragments, for a best-effort reader.

use super::fragments::{Step, begin, given_at, half_of, is_told};
use super::{has_ready, new_proxy};
use crate::WriterProxy;
use rtps_receiver::Fragment;
use rtps_types::Timestamp;
use std::alloc::Global;
use std::test::Fail;

/// An event, the number of lost numbers, and the numbers of the ready changes.
type Row = (Step, u64, &'static [u64]);

/// Returns the index of the first row whose expectation the proxy doesn't meet.
fn first_unlike(
    alloc: Global,
    proxy: &mut WriterProxy,
    rows: &[Row],
) -> Result<Option<usize>, Fail> {
    for (at, (step, lost, ready)) in rows.iter().enumerate() {
        let effects = given_at(alloc, proxy, *step)?;
        if effects.lost != *lost || !has_ready(&effects, ready) || effects.answer.is_some() {
            return Ok(Some(at));
        }
    }
    Ok(None)
}

/// Returns the index of the first row whose expectation a new proxy doesn't meet.
fn first_unmet(alloc: Global, rows: &[Row]) -> Result<Option<usize>, Fail> {
    let mut proxy = new_proxy(alloc, false)?;
    first_unlike(alloc, &mut proxy, rows)
}

/// Returns a proxy with 64 pending samples, from 1 on.
fn with_64(alloc: Global) -> Result<WriterProxy, Fail> {
    let mut proxy = new_proxy(alloc, false)?;
    if !begin(alloc, &mut proxy, 1, 65)? {
        return Err(Fail::new("one is ready"));
    }
    Ok(proxy)
}

/// A change is ready with its last fragment, in any order. The numbers that it skips are lost, and
/// later fragments of it or of lesser numbers do nothing.
#[test]
fn a_change_is_ready_with_its_last_fragment(rt: HostRuntime) -> Result<(), Fail> {
    let rows: [Row; 9] = [
        (Step::Half(2, 1), 0, &[]),
        (Step::Half(2, 1), 0, &[]),
        // Nothing before the first sample is lost.
        (Step::Half(2, 2), 0, &[2]),
        (Step::Half(5, 2), 0, &[]),
        (Step::Half(5, 1), 2, &[5]),
        (Step::Half(5, 2), 0, &[]),
        (Step::Half(3, 1), 0, &[]),
        (Step::Half(3, 2), 0, &[]),
        (Step::Whole(6), 0, &[6]),
    ];
    assert_eq!(rt; first_unmet(rt.alloc(), &rows)?, None);
    Ok(())
}

/// Fragment 2 arrives first, so its time and inline QoS count.
#[test]
fn the_first_one_tells_all(rt: HostRuntime) -> Result<(), Fail> {
    let alloc = rt.alloc();
    let mut proxy = new_proxy(alloc, false)?;
    let sent = Timestamp {
        seconds: 5,
        fraction: 6,
    };
    let early = proxy.on_fragment(alloc, Some(sent), &half_of(1, 2)?)?;
    assert!(rt; early.ready.is_empty());
    let effects = proxy.on_fragment(alloc, None, &half_of(1, 1)?)?;
    assert_eq!(rt; effects.ready.len(), 1);
    assert!(rt; is_told(&effects.ready[0], sent));
    Ok(())
}

/// A change drops the pending samples of its number and of lesser ones, whether it came in one
/// piece or in fragments.
#[test]
fn a_later_change_ends_earlier_ones(rt: HostRuntime) -> Result<(), Fail> {
    let rows: [Row; 12] = [
        (Step::Half(1, 1), 0, &[]),
        (Step::Half(3, 1), 0, &[]),
        (Step::Half(4, 1), 0, &[]),
        (Step::Half(9, 1), 0, &[]),
        (Step::Whole(3), 0, &[3]),
        (Step::Half(3, 2), 0, &[]),
        (Step::Half(1, 2), 0, &[]),
        (Step::Half(5, 1), 0, &[]),
        (Step::Half(5, 2), 1, &[5]),
        (Step::Half(4, 2), 0, &[]),
        (Step::Gap(6, 10), 0, &[]),
        (Step::Half(9, 2), 3, &[9]),
    ];
    assert_eq!(rt; first_unmet(rt.alloc(), &rows)?, None);
    Ok(())
}

/// 64 samples are pending, and each of them can be completed.
#[test]
fn sixty_four_stand(rt: HostRuntime) -> Result<(), Fail> {
    let mut proxy = with_64(rt.alloc())?;
    let rows: [Row; 3] = [
        (Step::Half(1, 2), 0, &[1]),
        (Step::Half(64, 2), 62, &[64]),
        (Step::Half(63, 2), 0, &[]),
    ];
    assert_eq!(rt; first_unlike(rt.alloc(), &mut proxy, &rows)?, None);
    Ok(())
}

/// The least of 65 samples loses its fragments. It is accepted again once fewer than 64 greater
/// ones are pending.
#[test]
fn the_least_of_65_is_displaced(rt: HostRuntime) -> Result<(), Fail> {
    let mut proxy = with_64(rt.alloc())?;
    let rows: [Row; 6] = [
        (Step::Half(66, 1), 0, &[]),
        (Step::Half(1, 2), 0, &[]),
        (Step::Half(1, 1), 0, &[]),
        // 65 is added, and 2 is dropped.
        (Step::Half(65, 1), 0, &[]),
        (Step::Half(2, 2), 0, &[]),
        (Step::Half(3, 2), 0, &[3]),
    ];
    assert_eq!(rt; first_unlike(rt.alloc(), &mut proxy, &rows)?, None);
    Ok(())
}

/// Fragments with a fault, or with other sizes than the first ones, neither displace nor begin a
/// sample.
#[test]
fn a_fault_displaces_nothing(rt: HostRuntime) -> Result<(), Fail> {
    let mut proxy = with_64(rt.alloc())?;
    let behind = Fragment {
        start: 3,
        ..half_of(65, 1)?
    };
    let longer = Fragment {
        sample: 3,
        ..half_of(1, 2)?
    };
    let faulty = proxy.on_fragment(rt.alloc(), None, &behind)?;
    let unlike = proxy.on_fragment(rt.alloc(), None, &longer)?;
    assert!(rt; faulty.ready.is_empty() && unlike.ready.is_empty());
    let rows: [Row; 2] = [(Step::Half(1, 2), 0, &[1]), (Step::Half(65, 2), 0, &[])];
    assert_eq!(rt; first_unlike(rt.alloc(), &mut proxy, &rows)?, None);
    Ok(())
}
