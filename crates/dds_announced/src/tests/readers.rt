//! Readers of ours that come and go, and are announced.

use super::*;
use rtps_run::EngineError;
use std::thread::Threads;

/// How the reader of circles is announced to the peer: change 2, DATA 000004c7 from 000004c2.
const CIRCLES: &[u8] = b"RTPS\x02\x05\x00\x00\
    \x0b\x0b\x0b\x0b\x0b\x0b\x0b\x0b\x0b\x0b\x0b\x0b\
    \x0e\x01\x0c\x00\x0a\x0a\x0a\x0a\x0a\x0a\x0a\x0a\x0a\x0a\x0a\x0a\
    \x15\x05\xc4\x00\x00\x00\x10\x00\x00\x00\x04\xc7\x00\x00\x04\xc2\
    \x00\x00\x00\x00\x02\x00\x00\x00\
    \x00\x03\x00\x00\
    \x5a\x00\x10\x00\x0b\x0b\x0b\x0b\x0b\x0b\x0b\x0b\x0b\x0b\x0b\x0b\x00\x00\x02\x07\
    \x50\x00\x10\x00\x0b\x0b\x0b\x0b\x0b\x0b\x0b\x0b\x0b\x0b\x0b\x0b\x00\x00\x01\xc1\
    \x05\x00\x0c\x00\x07\x00\x00\x00Circle\x00\x00\
    \x07\x00\x10\x00\x0a\x00\x00\x00ShapeType\x00\x00\x00\
    \x1d\x00\x04\x00\x00\x00\x00\x00\
    \x21\x00\x08\x00\x00\x00\x00\x00\x00\x00\x00\x00\
    \x23\x00\x08\x00\xff\xff\xff\x7f\xff\xff\xff\xff\
    \x27\x00\x08\x00\x00\x00\x00\x00\x00\x00\x00\x00\
    \x1f\x00\x04\x00\x00\x00\x00\x00\
    \x1b\x00\x0c\x00\x00\x00\x00\x00\xff\xff\xff\x7f\xff\xff\xff\xff\
    \x1a\x00\x0c\x00\x02\x00\x00\x00\x00\x00\x00\x00\x00\x00\x00\x00\
    \x25\x00\x04\x00\x00\x00\x00\x00\
    \x01\x00\x00\x00";

/// How its end is announced to the peer: change 3, with its key hash and status, disposed and
/// unregistered.
const NO_CIRCLES: &[u8] = b"RTPS\x02\x05\x00\x00\
    \x0b\x0b\x0b\x0b\x0b\x0b\x0b\x0b\x0b\x0b\x0b\x0b\
    \x0e\x01\x0c\x00\x0a\x0a\x0a\x0a\x0a\x0a\x0a\x0a\x0a\x0a\x0a\x0a\
    \x15\x0b\x50\x00\x00\x00\x10\x00\x00\x00\x04\xc7\x00\x00\x04\xc2\
    \x00\x00\x00\x00\x03\x00\x00\x00\
    \x70\x00\x10\x00\x0b\x0b\x0b\x0b\x0b\x0b\x0b\x0b\x0b\x0b\x0b\x0b\x00\x00\x02\x07\
    \x71\x00\x04\x00\x00\x00\x00\x03\x01\x00\x00\x00\
    \x00\x03\x00\x00\
    \x5a\x00\x10\x00\x0b\x0b\x0b\x0b\x0b\x0b\x0b\x0b\x0b\x0b\x0b\x0b\x00\x00\x02\x07\
    \x01\x00\x00\x00";

/// A HEARTBEAT to the peer, before its last number and its count.
const BEAT_FRONT: &[u8] = b"RTPS\x02\x05\x00\x00\
    \x0b\x0b\x0b\x0b\x0b\x0b\x0b\x0b\x0b\x0b\x0b\x0b\
    \x0e\x01\x0c\x00\x0a\x0a\x0a\x0a\x0a\x0a\x0a\x0a\x0a\x0a\x0a\x0a\
    \x07\x01\x1c\x00\x00\x00\x04\xc7\x00\x00\x04\xc2\
    \x00\x00\x00\x00\x01\x00\x00\x00\x00\x00\x00\x00";

fn circles(alloc: Global) -> Result<ReaderConfig, Fail> {
    Ok(ReaderConfig::new(alloc, EntityId([0, 0, 2, 7]), "Circle", "ShapeType")?.reliable())
}

/// A participant with a reader of squares, which has found the peer.
fn with_peer<R: Threads + Sync>(
    rt: &R,
    alloc: Global,
) -> Result<AnnouncedParticipant<Shapes>, Fail> {
    let mut participant = started(alloc)?;
    let mut given = BatchOutput::<Shape>::new(alloc);
    let mut announcements = Vec::new(alloc);
    let workers = Workers {
        count: 1,
        gate: &NoGate,
    };
    let datagrams = [Datagram {
        moment: 5,
        bytes: COMES,
    }];
    participant.run_in_order(rt, &workers, &datagrams, &mut given, &mut announcements)?;
    if announcements.len() != 5 {
        return Err(Fail::new("the peer isn't found"));
    }
    Ok(participant)
}

/// Whether two datagrams go to the peer: one with these octets, and a HEARTBEAT with this end.
fn are_sent(announcements: &[Announcement], octets: &[u8], beat: &[u8]) -> bool {
    let [news, reminder] = announcements else {
        return false;
    };
    let last = reminder.octets.as_slice();
    news.octets.as_slice() == octets
        && last.strip_prefix(BEAT_FRONT) == Some(beat)
        && is_to_peer(news)
        && is_to_peer(reminder)
}

fn is_to_peer(announcement: &Announcement) -> bool {
    match &announcement.to {
        Destination::Peer(prefix, to) => *prefix == PEER && to.as_slice() == [PLACE].as_slice(),
        Destination::Everyone => false,
    }
}

#[test]
fn a_reader_comes_and_goes(rt: HostRuntime) -> Result<(), Fail> {
    let alloc = rt.alloc();
    let mut participant = with_peer(&rt, alloc)?;
    let mut sent = Vec::new(alloc);
    let (rank, _) = participant.add_reader(alloc, circles(alloc)?, &mut sent)?;
    assert_eq!(rt; rank, 1);
    assert!(rt;
        are_sent(
            sent.as_slice(),
            CIRCLES,
            b"\x02\x00\x00\x00\x02\x00\x00\x00"
        )
    );
    sent.clear();
    participant.remove_reader(alloc, 1, &mut sent)?;
    assert!(rt;
        are_sent(
            sent.as_slice(),
            NO_CIRCLES,
            b"\x03\x00\x00\x00\x03\x00\x00\x00"
        )
    );
    assert_eq!(rt; participant.participant().batches(), 3);
    Ok(())
}

/// What is refused isn't announced, and leaves what was in the list.
#[test]
fn a_reader_that_is_refused(rt: HostRuntime) -> Result<(), Fail> {
    let alloc = rt.alloc();
    let mut participant = with_peer(&rt, alloc)?;
    let mut sent = Vec::new(alloc);
    participant.add_reader(alloc, circles(alloc)?, &mut sent)?;
    let twice = participant.add_reader(alloc, circles(alloc)?, &mut sent);
    assert!(rt; matches!(twice, Err(ReaderError::Engine(EngineError::BadReader))));
    let mut long = square(alloc)?;
    for _ in 0..60_001 {
        long.topic.push('x')?;
    }
    let refused = participant.add_reader(alloc, long, &mut sent);
    assert!(rt; matches!(refused, Err(ReaderError::TooLong)));
    let nobody = participant.remove_reader(alloc, 2, &mut sent);
    assert!(rt; matches!(nobody, Err(ReaderError::Engine(EngineError::NoReader))));
    assert!(rt;
        are_sent(
            sent.as_slice(),
            CIRCLES,
            b"\x02\x00\x00\x00\x02\x00\x00\x00"
        )
    );
    sent.clear();
    participant.remove_reader(alloc, 1, &mut sent)?;
    let again = participant.remove_reader(alloc, 1, &mut sent);
    assert!(rt; matches!(again, Err(ReaderError::Engine(EngineError::NoReader))));
    assert!(rt;
        are_sent(
            sent.as_slice(),
            NO_CIRCLES,
            b"\x03\x00\x00\x00\x03\x00\x00\x00"
        )
    );
    Ok(())
}

/// The 257th reader is refused, and the rank that it would have had is given to the next one.
#[test]
fn the_257th_reader(rt: HostRuntime) -> Result<(), Fail> {
    let alloc = rt.alloc();
    let mut participant = started(alloc)?;
    let mut sent = Vec::new(alloc);
    for number in 0..=254u8 {
        let entity = EntityId([0, 1, number, 7]);
        let reader = ReaderConfig::new(alloc, entity, "Square", "ShapeType")?;
        participant.add_reader(alloc, reader, &mut sent)?;
    }
    let refused = participant.add_reader(alloc, circles(alloc)?, &mut sent);
    assert!(rt; matches!(refused, Err(ReaderError::Engine(EngineError::Full))));
    participant.remove_reader(alloc, 255, &mut sent)?;
    let (rank, _) = participant.add_reader(alloc, circles(alloc)?, &mut sent)?;
    assert_eq!(rt; rank, 256);
    assert!(rt; sent.is_empty());
    Ok(())
}
