//! Notices through a ring, with ample memory.

use crate::outlet;
use rtps_reader::{Notice, NoticeKind};
use rtps_types::{EntityId, Guid, GuidPrefix, Place};
use std::test::Fail;

/// The notice of an event in the datagram of this number.
pub(super) fn notice<V>(datagram: u64) -> Notice<V> {
    Notice {
        place: Place {
            datagram,
            submessage: 1,
        },
        writer: Guid {
            prefix: GuidPrefix([10; 12]),
            entity: EntityId([0, 0, 1, 2]),
        },
        what: NoticeKind::Matched,
    }
}

/// The number of the datagram, if there is a notice.
pub(super) fn datagram<V: Drop>(notice: Option<Notice<V>>) -> Option<u64> {
    let notice = notice?;
    Some(notice.place.datagram)
}

#[test]
fn a_second_notice_waits_for_the_one_place(rt: HostRuntime) -> Result<(), Fail> {
    let (mut outlet, mut inlet) = outlet::<u64, _>(rt.alloc(), 1)?;
    assert_eq!(rt; inlet.capacity(), 1);
    assert_eq!(rt; datagram(inlet.pop()), None);
    assert!(rt; outlet.deliver(notice(1)).is_ok());
    assert_eq!(rt; datagram(outlet.deliver(notice(2)).err()), Some(2));
    assert_eq!(rt; datagram(inlet.pop()), Some(1));
    assert!(rt; outlet.deliver(notice(2)).is_ok());
    assert_eq!(rt; datagram(inlet.pop()), Some(2));
    assert_eq!(rt; datagram(inlet.pop()), None);
    Ok(())
}

#[test]
fn what_was_put_back_comes_first(rt: HostRuntime) -> Result<(), Fail> {
    let (mut outlet, mut inlet) = outlet::<u64, _>(rt.alloc(), 3)?;
    for number in [1, 2, 3] {
        assert!(rt; outlet.deliver(notice(number)).is_ok());
    }
    for number in [1, 2, 3] {
        let Some(first) = inlet.pop() else {
            return Err(Fail::new("nothing comes out of the ring"));
        };
        inlet.put_back(first);
        assert_eq!(rt; datagram(inlet.pop()), Some(number));
    }
    assert_eq!(rt; datagram(inlet.pop()), None);
    Ok(())
}

#[test]
fn all_that_was_sent_is_known_at_the_end(rt: HostRuntime) -> Result<(), Fail> {
    let (mut outlet, mut inlet) = outlet::<u64, _>(rt.alloc(), 3)?;
    assert!(rt; outlet.deliver(notice(1)).is_ok());
    assert!(rt; outlet.deliver(notice(2)).is_ok());
    assert!(rt; outlet.deliver(notice(3)).is_ok());
    let Some(first) = inlet.pop() else {
        return Err(Fail::new("nothing comes out of the ring"));
    };
    inlet.put_back(first);
    let Some(mut sent) = outlet.finish() else {
        return Err(Fail::new("the inlet is gone"));
    };
    inlet.known_all(&mut sent);
    for number in [1, 2, 3] {
        assert_eq!(rt; datagram(inlet.pop()), Some(number));
    }
    assert_eq!(rt; datagram(inlet.pop()), None);
    Ok(())
}

#[test]
fn either_end_may_go_first(rt: HostRuntime) -> Result<(), Fail> {
    let (mut outlet, inlet) = crate::outlet::<u64, _>(rt.alloc(), 2)?;
    assert!(rt; outlet.deliver(notice(1)).is_ok());
    drop(inlet);
    assert!(rt; outlet.deliver(notice(2)).is_ok());
    assert_eq!(rt; datagram(outlet.deliver(notice(3)).err()), Some(3));
    drop(outlet);

    let (mut outlet, mut inlet) = crate::outlet::<u64, _>(rt.alloc(), 2)?;
    assert!(rt; outlet.deliver(notice(1)).is_ok());
    drop(outlet);
    assert_eq!(rt; datagram(inlet.pop()), Some(1));
    assert_eq!(rt; datagram(inlet.pop()), None);
    Ok(())
}

#[test]
fn nothing_is_shown_to_an_inlet_that_is_gone(rt: HostRuntime) -> Result<(), Fail> {
    let (mut outlet, inlet) = outlet::<u64, _>(rt.alloc(), 2)?;
    assert!(rt; outlet.deliver(notice(1)).is_ok());
    drop(inlet);
    assert!(rt; outlet.finish().is_none());
    Ok(())
}
