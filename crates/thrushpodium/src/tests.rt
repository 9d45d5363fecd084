//! A receiver by the names of this crate alone, with octets written by hand.

use crate::*;
use std::alloc::{AllocError, Global};
use std::net::Ipv4Addr;
use std::test::Fail;

/// A domain in which nobody else listens.
const DOMAIN: u16 = 96;

/// The writer of the datagrams.
const WRITER: Guid = Guid {
    prefix: GuidPrefix([0x0a; 12]),
    entity: EntityId([0, 0, 1, 2]),
};

/// DATA with number 1 and the shape BLUE at 10, 20 of size 30, for every reader.
const DATA: &[u8] = b"RTPS\x02\x05\x00\x00\
    \x0a\x0a\x0a\x0a\x0a\x0a\x0a\x0a\x0a\x0a\x0a\x0a\
    \x15\x05\x30\x00\x00\x00\x10\x00\x00\x00\x00\x00\x00\x00\x01\x02\
    \x00\x00\x00\x00\x01\x00\x00\x00\
    \x00\x01\x00\x00\x05\x00\x00\x00BLUE\x00\x00\x00\x00\
    \x0a\x00\x00\x00\x14\x00\x00\x00\x1e\x00\x00\x00";

/// HEARTBEAT for every reader: the writer has the numbers 1 and 2, and asks for an answer.
const HEARTBEAT: &[u8] = b"RTPS\x02\x05\x00\x00\
    \x0a\x0a\x0a\x0a\x0a\x0a\x0a\x0a\x0a\x0a\x0a\x0a\
    \x07\x01\x1c\x00\x00\x00\x00\x00\x00\x00\x01\x02\
    \x00\x00\x00\x00\x01\x00\x00\x00\x00\x00\x00\x00\x02\x00\x00\x00\
    \x01\x00\x00\x00";

fn squares(alloc: Global) -> Result<Subscription, AllocError> {
    Subscription::topic(alloc, EntityId([0, 0, 1, 7]), "Square", "ShapeType")
}

#[test]
fn the_defaults_are_those_of_the_standard(rt: HostRuntime) -> Result<(), Fail> {
    let squares = squares(rt.alloc())?;
    let requested = &squares.reader.requested;
    assert_eq!(rt; squares.reader.entity, EntityId([0, 0, 1, 7]));
    assert_eq!(rt; squares.reader.topic.as_str(), "Square");
    assert_eq!(rt; squares.reader.type_name.as_str(), "ShapeType");
    assert_eq!(rt; requested.policies.reliability, Reliability::BestEffort);
    assert_eq!(rt; requested.policies.durability, Durability::Volatile);
    assert_eq!(rt; requested.policies.deadline, INFINITE);
    assert_eq!(rt; requested.partitions.names().len(), 0);
    assert_eq!(rt; squares.history, History::KeepLast(1));
    Ok(())
}

#[test]
fn each_policy_is_requested_as_it_was_given(rt: HostRuntime) -> Result<(), Fail> {
    let deadline = Duration {
        seconds: 2,
        fraction: 0x8000_0000,
    };
    let alloc = rt.alloc();
    let squares = Subscription::topic(alloc, EntityId([0, 0, 1, 7]), "Square", "ShapeType")?
        .reliable()
        .durability(Durability::TransientLocal)
        .deadline(deadline)
        .history(History::KeepAll)
        .partitions(alloc, &["north", ""])?;
    let requested = &squares.reader.requested;
    assert_eq!(rt; squares.reader.topic.as_str(), "Square");
    assert_eq!(rt; requested.policies.reliability, Reliability::Reliable);
    assert_eq!(rt; requested.policies.durability, Durability::TransientLocal);
    assert_eq!(rt; requested.policies.deadline, deadline);
    assert_eq!(rt; requested.policies.ownership, Ownership::Shared);
    let names = requested.partitions.names();
    assert_eq!(rt; names.len(), 2);
    assert_eq!(rt; names[0].as_str(), "north");
    assert_eq!(rt; names[1].as_str(), "");
    assert_eq!(rt; squares.history, History::KeepAll);
    let best_effort = Policies {
        reliability: Reliability::BestEffort,
        ..requested.policies
    };
    let squares = squares.policies(best_effort);
    assert_eq!(rt;
        squares.reader.requested.policies.reliability,
        Reliability::BestEffort
    );
    assert_eq!(rt; squares.reader.requested.policies.deadline, deadline);
    Ok(())
}

#[test]
fn a_sample_goes_from_a_datagram_into_a_cache(rt: HostRuntime) -> Result<(), Fail> {
    let alloc = rt.alloc();
    let squares = Subscription::topic(alloc, EntityId([0, 0, 1, 7]), "Square", "ShapeType")?
        .reliable()
        .history(History::KeepLast(8));
    let mut cache = squares.cache(alloc);
    let mut config = Config::new(alloc, GuidPrefix([0x0b; 12]));
    config.add_reader(squares.reader)?;
    config.add_fixed(0, WRITER, Locators::new(Vec::new(alloc)))?;
    let mut participant = Participant::new(alloc, config, Shapes)?;
    let datagrams = [
        Datagram {
            moment: 0,
            bytes: DATA,
        },
        Datagram {
            moment: 0,
            bytes: HEARTBEAT,
        },
    ];
    let outcome = participant.run_batch(&rt, alloc, &NoGate, &datagrams, 4)?;
    assert_eq!(rt; outcome.answers.len(), 1);
    for answer in &outcome.answers {
        assert!(rt; answer.octets.as_slice().starts_with(b"RTPS"));
    }
    let mut blue = None;
    for notice in outcome.notices.into_iter().flatten() {
        cache.accept(alloc, notice).map_err(AllocError::from)?;
    }
    for sample in &cache.take(alloc, 100, Condition::default())? {
        assert_eq!(rt; sample.writer, WRITER);
        if let Content::Value(shape) = &sample.body {
            assert_eq!(rt; shape.color.as_str(), "BLUE");
            blue = Some((shape.x, shape.y, shape.size));
        }
    }
    assert_eq!(rt; blue, Some((10, 20, 30)));
    Ok(())
}

#[test]
fn a_datagram_has_events(rt: HostRuntime) -> Result<(), Fail> {
    let own = GuidPrefix([0x0b; 12]);
    let place: Place = "3:1".parse()?;
    let mut number = 0;
    for event in Events::new(own, 3, DATA) {
        assert_eq!(rt; event.place, place);
        assert_eq!(rt; event.source, WRITER.prefix);
        if let EventBody::Whole(change) = event.body {
            number = change.number.get();
        }
    }
    assert_eq!(rt; number, 1);
    Ok(())
}

#[test]
fn one_thread_takes_a_datagram_at_a_time(rt: HostRuntime) -> Result<(), Fail> {
    let alloc = rt.alloc();
    let squares = Subscription::topic(alloc, EntityId([0, 0, 1, 7]), "Square", "ShapeType")?;
    let circles = Subscription::topic(alloc, EntityId([0, 0, 2, 7]), "Circle", "ShapeType")?;
    let mut config = Config::new(alloc, GuidPrefix([0x0b; 12]));
    config.add_reader(squares.reader)?;
    let writer: Guid = "0a0a0a0a0a0a0a0a0a0a0a0a00000102".parse()?;
    config.add_fixed(0, writer, Locators::new(Vec::new(alloc)))?;
    let mut engine = SerialEngine::new(alloc, config, Shapes)?;
    let datagram = Datagram {
        moment: 1_000,
        bytes: DATA,
    };
    let outcome = engine.take(alloc, datagram)?;
    assert_eq!(rt; outcome.notices.len(), 1);
    for (rank, notices) in outcome.notices.iter().enumerate() {
        assert_eq!(rt; (rank, notices.len()), (0, 1));
    }
    let outcome = engine.tick(alloc, 2_000)?;
    assert_eq!(rt; outcome.answers.len(), 0);
    let (rank, _matches) = engine.add_reader(alloc, circles.reader)?;
    assert_eq!(rt; rank, 1);
    let _ends = engine.remove_reader(alloc, 0)?;
    assert!(rt; engine.status(0).is_none());
    assert!(rt; engine.status(1).is_some());
    assert!(rt; engine.discovery().writers().next().is_none());
    Ok(())
}

const LEASE: Duration = Duration {
    seconds: 10,
    fraction: 0,
};

/// A participant with a reader of squares, which is matched with the writer at this locator.
fn matched_at(alloc: Global, writer: Locator) -> Result<Config, Fail> {
    let mut config = Config::new(alloc, GuidPrefix([0x0b; 12]));
    config.add_reader(squares(alloc)?.reliable().reader)?;
    config.add_fixed(0, WRITER, Locators::one(alloc, writer))?;
    Ok(config)
}

/// A participant announces itself to a peer at its first moment, answers what the peer sends, and says
/// farewell. The peer is two sockets of the same domain.
#[test]
fn a_participant_is_announced(rt: HostRuntime) -> Result<(), Fail> {
    let alloc = rt.alloc();
    let mut peer = Sockets::bind_first(&rt, &rt, alloc, DOMAIN, Ipv4Addr::LOCALHOST)?;
    let everyone = Locators::one(alloc, peer.locator(Purpose::Metatraffic));
    let config = matched_at(alloc, peer.locator(Purpose::UserData))?;
    let sockets = Sockets::bind_first(&rt, &rt, alloc, DOMAIN, Ipv4Addr::LOCALHOST)?;
    let user = sockets.locator(Purpose::UserData);
    let mut network = AnnouncedSockets::new(alloc, sockets, &config, LEASE, everyone)?;
    let mut participant = Participant::new(alloc, config, Shapes)?;
    network.wait()?;
    let mut room = [0; 2_000];
    peer.wait()?;
    assert_eq!(rt; peer.receive(&mut room)?, Some(164));
    peer.announce(user, DATA)?;
    peer.announce(user, HEARTBEAT)?;
    let workers = Workers {
        count: 2,
        gate: &NoGate,
    };
    let mut batch = Batch::new(alloc)?;
    let mut given = BatchOutput::new(alloc);
    let moment = network.wait()?;
    batch.receive(&mut network, moment, 256)?;
    let datagrams = batch.datagrams(alloc)?;
    assert!(rt; is_batch(&datagrams));
    participant.run_in_order(&rt, alloc, &workers, &datagrams, &mut given)?;
    send_answers(alloc, &mut network, &given)?;
    let samples = participant.status(0).map(|status| status.samples);
    assert_eq!(rt; samples, Some(1));
    // An ACKNACK: it asks for number 2.
    peer.wait()?;
    assert!(rt; matches!(peer.receive(&mut room)?, Some(_)));
    assert_eq!(rt; room[36], 6);
    network.farewell()?;
    assert!(rt; network.has_left());
    peer.wait()?;
    assert!(rt; matches!(peer.receive(&mut room)?, Some(_)));
    Ok(())
}
