//! Tests of readers of ours that come and go.

use super::{Desk, ONE, facts};
use crate::{Change, Hearing, Said};
use std::test::Fail;

#[test]
fn a_change_goes_to_a_peer_at_once(rt: HostRuntime) -> Result<(), Fail> {
    let mut desk = Desk::with_peer(rt.alloc())?;
    assert_eq!(rt; desk.add_reader(rt.alloc())?, 0);
    assert!(rt; desk.says(&[Said::Told(1, Change::Asks(0)), Said::Beat(1, 2)]));
    assert!(rt; desk.says_to(ONE));
    assert_eq!(rt; desk.add_reader(rt.alloc())?, 1);
    desk.remove_reader(rt.alloc(), 0)?;
    assert!(rt; desk.says(&[Said::Told(3, Change::Ends(0)), Said::Beat(3, 4)]));
    // It has gone, and rank 2 wasn't given.
    desk.remove_reader(rt.alloc(), 0)?;
    assert!(rt; desk.says(&[]));
    desk.remove_reader(rt.alloc(), 2)?;
    assert!(rt; desk.says(&[]));
    Ok(())
}

#[test]
fn who_is_found_is_told_of_the_readers_that_are_there(rt: HostRuntime) -> Result<(), Fail> {
    let mut desk = Desk::new(rt.alloc());
    desk.add_reader(rt.alloc())?;
    desk.add_reader(rt.alloc())?;
    desk.remove_reader(rt.alloc(), 0)?;
    assert!(rt; desk.says(&[]));
    desk.hear(rt.alloc(), &Hearing::Comes(ONE, facts(None)))?;
    assert!(rt;
        desk.says(&[
            Said::Bye,
            Said::Hello,
            Said::Void(1, 1),
            Said::Told(2, Change::Asks(1)),
            Said::Void(3, 3),
            Said::Beat(3, 1),
        ])
    );
    assert!(rt; desk.says_to(ONE));
    Ok(())
}

#[test]
fn neighbouring_irrelevant_numbers_are_one_gap(rt: HostRuntime) -> Result<(), Fail> {
    let mut desk = Desk::new(rt.alloc());
    for rank in 0..300 {
        assert_eq!(rt; desk.add_reader(rt.alloc())?, rank);
        desk.remove_reader(rt.alloc(), rank)?;
    }
    desk.hear(rt.alloc(), &Hearing::Comes(ONE, facts(None)))?;
    assert!(rt;
        desk.says(&[
            Said::Bye,
            Said::Hello,
            Said::Void(1, 600),
            Said::Beat(600, 1)
        ])
    );
    Ok(())
}

/// A copy says the same, and the one that it was made of hears nothing of it.
#[test]
fn a_copy_hears_for_itself(rt: HostRuntime) -> Result<(), Fail> {
    let alloc = rt.alloc();
    let mut desk = Desk::with_peer(alloc)?;
    desk.add_reader(alloc)?;
    let mut copy = desk.announcer.clone()?;
    let mut sends = Vec::new(alloc);
    assert_eq!(rt; copy.add_reader(alloc, &mut sends)?, 1);
    assert_eq!(rt; desk.add_reader(alloc)?, 1);
    assert_eq!(rt; sends.len(), 2);
    assert!(rt; desk.says(&[sends[0].said, sends[1].said]));
    Ok(())
}
