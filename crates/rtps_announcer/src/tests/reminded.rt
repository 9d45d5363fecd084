//! Tests of moments that pass.

use super::{Desk, ONE, TWO, acks, facts, is_to};
use crate::{Change, Destination, Hearing, Said};
use std::test::Fail;

#[test]
fn everyone_is_greeted_once_a_period(rt: HostRuntime) -> Result<(), Fail> {
    let mut desk = Desk::new(rt.alloc());
    desk.tick(rt.alloc(), 5)?;
    assert!(rt; desk.says(&[Said::Hello]));
    assert!(rt;
        desk.sends
            .iter()
            .all(|one| matches!(one.to, Destination::Everyone))
    );
    desk.tick(rt.alloc(), 1_004)?;
    assert!(rt; desk.says(&[]));
    desk.tick(rt.alloc(), 1_005)?;
    assert!(rt; desk.says(&[Said::Hello]));
    // A moment before is that one again.
    desk.tick(rt.alloc(), 3)?;
    assert!(rt; desk.says(&[]));
    desk.tick(rt.alloc(), u64::MAX)?;
    assert!(rt; desk.says(&[Said::Hello]));
    Ok(())
}

#[test]
fn a_peer_is_reminded_until_it_acknowledged_all(rt: HostRuntime) -> Result<(), Fail> {
    let mut desk = Desk::with_peer(rt.alloc())?;
    desk.tick(rt.alloc(), 0)?;
    desk.add_reader(rt.alloc())?;
    desk.tick(rt.alloc(), 199)?;
    assert!(rt; desk.says(&[]));
    desk.tick(rt.alloc(), 200)?;
    assert!(rt; desk.says(&[Said::Beat(1, 3)]));
    desk.tick(rt.alloc(), 399)?;
    assert!(rt; desk.says(&[]));
    desk.tick(rt.alloc(), 400)?;
    assert!(rt; desk.says(&[Said::Beat(1, 4)]) && desk.says_to(ONE));
    let all = acks(2, 1).ok_or("a base")?;
    desk.hear(rt.alloc(), &Hearing::Acks(ONE, all))?;
    assert!(rt; desk.says(&[]));
    desk.tick(rt.alloc(), 900)?;
    assert!(rt; desk.says(&[]));
    Ok(())
}

#[test]
fn reminders_end_and_a_record_fills_them_up(rt: HostRuntime) -> Result<(), Fail> {
    let mut desk = Desk::with_peer(rt.alloc())?;
    desk.tick(rt.alloc(), 0)?;
    desk.add_reader(rt.alloc())?;
    let mut reminders = 0u32;
    for turn in 1..100 {
        desk.tick(rt.alloc(), turn * 200)?;
        if desk.sends.iter().any(|one| is_to(one, ONE)) {
            reminders = reminders.saturating_add(1);
        }
    }
    assert_eq!(rt; reminders, 25);
    desk.hear(rt.alloc(), &Hearing::Comes(ONE, facts(None)))?;
    assert!(rt; desk.says(&[]));
    desk.tick(rt.alloc(), 20_000)?;
    assert!(rt; desk.sends.iter().any(|one| is_to(one, ONE)));
    Ok(())
}

#[test]
fn a_lease_ends_and_the_peer_is_found_again(rt: HostRuntime) -> Result<(), Fail> {
    let mut desk = Desk::new(rt.alloc());
    desk.add_reader(rt.alloc())?;
    desk.tick(rt.alloc(), 10)?;
    desk.hear(rt.alloc(), &Hearing::Comes(TWO, facts(None)))?;
    desk.hear(rt.alloc(), &Hearing::Comes(ONE, facts(Some(100))))?;
    assert_eq!(rt; desk.announcer.peer_count(), 2);
    desk.tick(rt.alloc(), 110)?;
    assert_eq!(rt; desk.announcer.peer_count(), 2);
    desk.tick(rt.alloc(), 111)?;
    assert_eq!(rt; desk.announcer.peer_count(), 1);
    desk.hear(rt.alloc(), &Hearing::Comes(ONE, facts(Some(100))))?;
    // The counts go on, so that a peer that comes again sees them rise.
    assert!(rt;
        desk.says(&[
            Said::Bye,
            Said::Hello,
            Said::Told(1, Change::Asks(0)),
            Said::Beat(1, 3),
        ])
    );
    desk.hear(rt.alloc(), &Hearing::Leaves(TWO))?;
    assert!(rt; desk.says(&[]));
    assert_eq!(rt; desk.announcer.peer_count(), 1);
    Ok(())
}
