//! Tests of who is a peer.

use super::{Desk, ONE, TWO, acks, facts};
use crate::{Announcer, Destination, Facts, Hearing, PeerLocators, Rules, Said};
use rtps_types::{GuidPrefix, Locator};
use std::test::Fail;

/// The peer with a number.
fn peer(number: u8) -> GuidPrefix {
    GuidPrefix([9, 9, number, 0, 0, 0, 0, 0, 0, 0, 0, 0])
}

#[test]
fn where_all_places_are_taken_who_is_mute_loses_its_own(rt: HostRuntime) -> Result<(), Fail> {
    let mut desk = Desk::new(rt.alloc());
    for number in 0..=255 {
        desk.hear(rt.alloc(), &Hearing::Comes(peer(number), facts(None)))?;
        assert!(rt; desk.says(&[Said::Bye, Said::Hello, Said::Beat(0, u32::from(number) + 1)]));
    }
    // No one is mute yet: all have reminders left.
    desk.hear(rt.alloc(), &Hearing::Comes(ONE, facts(None)))?;
    assert!(rt; desk.says(&[]));
    assert_eq!(rt; desk.announcer.peer_count(), 256);
    desk.add_reader(rt.alloc())?;
    desk.hear(
        rt.alloc(),
        &Hearing::Acks(peer(0), acks(1, 1).ok_or("a base")?),
    )?;
    for turn in 1..50 {
        desk.tick(rt.alloc(), turn * 200)?;
    }
    // One of them gives a sign of life, and another one acknowledged once.
    desk.hear(rt.alloc(), &Hearing::Comes(peer(1), facts(None)))?;
    desk.hear(rt.alloc(), &Hearing::Comes(ONE, facts(None)))?;
    assert!(rt; !desk.says(&[]) && desk.says_to(ONE));
    assert_eq!(rt; desk.announcer.peer_count(), 256);
    for number in [0, 1, 3, 255] {
        desk.hear(rt.alloc(), &Hearing::Comes(peer(number), facts(None)))?;
        assert!(rt; desk.says(&[]));
    }
    // The first of the others lost its place.
    desk.hear(rt.alloc(), &Hearing::Comes(peer(2), facts(None)))?;
    assert!(rt; !desk.says(&[]) && desk.says_to(peer(2)));
    Ok(())
}

#[test]
fn who_has_no_reader_of_readers_is_no_peer(rt: HostRuntime) -> Result<(), Fail> {
    let mut desk = Desk::new(rt.alloc());
    let deaf = Facts {
        hears: false,
        ..facts(None)
    };
    desk.hear(rt.alloc(), &Hearing::Comes(ONE, deaf))?;
    assert!(rt; desk.says(&[]));
    assert_eq!(rt; desk.announcer.peer_count(), 0);
    desk.hear(rt.alloc(), &Hearing::Comes(ONE, facts(None)))?;
    let deaf = Facts {
        hears: false,
        ..facts(None)
    };
    desk.hear(rt.alloc(), &Hearing::Comes(ONE, deaf))?;
    assert_eq!(rt; desk.announcer.peer_count(), 0);
    Ok(())
}

#[test]
fn a_record_renews_the_locators(rt: HostRuntime) -> Result<(), Fail> {
    let mut desk = Desk::with_peer(rt.alloc())?;
    let there = Locator {
        port: 7412,
        address: [10, 9, 0, 3],
    };
    let mut to = PeerLocators::new();
    for _ in 0..5 {
        to.add(there);
    }
    let moved = Facts { to, ..facts(None) };
    desk.hear(rt.alloc(), &Hearing::Comes(ONE, moved))?;
    desk.add_reader(rt.alloc())?;
    assert_eq!(rt; desk.sends.len(), 2);
    for sending in &desk.sends {
        match &sending.to {
            Destination::Peer(_, at) => assert!(rt; at.as_slice() == [there; 4].as_slice()),
            Destination::Everyone => return Err(Fail::new("to everyone")),
        }
    }
    Ok(())
}

#[test]
fn the_farewell_goes_to_everyone_and_to_each_peer(rt: HostRuntime) -> Result<(), Fail> {
    let mut announcer = Announcer::new(rt.alloc(), super::OWN, Rules::DEFAULT);
    let mut sends = Vec::new(rt.alloc());
    announcer.hear(rt.alloc(), &Hearing::Comes(TWO, facts(None)), &mut sends)?;
    announcer.hear(rt.alloc(), &Hearing::Comes(ONE, facts(None)), &mut sends)?;
    sends.clear();
    announcer.farewell(rt.alloc(), &mut sends)?;
    assert!(rt; sends.iter().all(|one| one.said == Said::Bye));
    assert_eq!(rt; sends.len(), 3);
    let mut prefixes = Vec::new(rt.alloc());
    for sending in &sends {
        match &sending.to {
            Destination::Peer(prefix, _) => prefixes.push(*prefix)?,
            Destination::Everyone => {}
        }
    }
    assert!(rt; prefixes.as_slice() == [ONE, TWO].as_slice());
    Ok(())
}
