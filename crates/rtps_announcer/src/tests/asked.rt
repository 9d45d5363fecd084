//! Tests of ACKNACKs.

use super::{Desk, ONE, TWO, acks, asks};
use crate::{Change, Hearing, Said};
use std::test::Fail;

#[test]
fn what_is_asked_for_is_said_again(rt: HostRuntime) -> Result<(), Fail> {
    let mut desk = Desk::with_peer(rt.alloc())?;
    desk.add_reader(rt.alloc())?;
    desk.add_reader(rt.alloc())?;
    desk.remove_reader(rt.alloc(), 0)?;
    desk.hear(rt.alloc(), &Hearing::Acks(ONE, asks(1, 7).ok_or("a base")?))?;
    // Reader 0 went, and its coming was reported to the peer: so its end is reported too.
    assert!(rt;
        desk.says(&[
            Said::Void(1, 1),
            Said::Told(2, Change::Asks(1)),
            Said::Told(3, Change::Ends(0)),
            Said::Beat(3, 5),
        ])
    );
    assert!(rt; desk.says_to(ONE));
    Ok(())
}

#[test]
fn sixteen_numbers_are_sent_again_at_a_time(rt: HostRuntime) -> Result<(), Fail> {
    let mut desk = Desk::with_peer(rt.alloc())?;
    for _ in 0..20 {
        desk.add_reader(rt.alloc())?;
    }
    desk.hear(rt.alloc(), &Hearing::Acks(ONE, asks(1, 1).ok_or("a base")?))?;
    assert_eq!(rt; desk.sends.len(), 17);
    // Of 32 numbers from 19 on there are two.
    desk.hear(
        rt.alloc(),
        &Hearing::Acks(ONE, asks(19, 2).ok_or("a base")?),
    )?;
    assert!(rt;
        desk.says(&[
            Said::Told(19, Change::Asks(18)),
            Said::Told(20, Change::Asks(19)),
            Said::Beat(20, 23),
        ])
    );
    Ok(())
}

#[test]
fn an_old_count_is_answered_where_the_base_is_lower(rt: HostRuntime) -> Result<(), Fail> {
    let mut desk = Desk::with_peer(rt.alloc())?;
    desk.add_reader(rt.alloc())?;
    desk.hear(rt.alloc(), &Hearing::Acks(ONE, acks(2, 9).ok_or("a base")?))?;
    assert!(rt; desk.says(&[]));
    desk.hear(rt.alloc(), &Hearing::Acks(ONE, asks(2, 9).ok_or("a base")?))?;
    assert!(rt; desk.says(&[]));
    // It has forgotten us, and begins anew.
    desk.hear(rt.alloc(), &Hearing::Acks(ONE, asks(1, 0).ok_or("a base")?))?;
    assert!(rt; desk.says(&[Said::Told(1, Change::Asks(0)), Said::Beat(1, 3)]));
    Ok(())
}

#[test]
fn an_answer_is_wanted_or_not(rt: HostRuntime) -> Result<(), Fail> {
    let mut desk = Desk::with_peer(rt.alloc())?;
    desk.hear(rt.alloc(), &Hearing::Acks(ONE, acks(1, 1).ok_or("a base")?))?;
    assert!(rt; desk.says(&[]));
    desk.hear(rt.alloc(), &Hearing::Acks(ONE, asks(1, 2).ok_or("a base")?))?;
    assert!(rt; desk.says(&[Said::Beat(0, 2)]));
    // Whoever is no peer isn't answered.
    desk.hear(rt.alloc(), &Hearing::Acks(TWO, asks(1, 3).ok_or("a base")?))?;
    assert!(rt; desk.says(&[]));
    Ok(())
}
