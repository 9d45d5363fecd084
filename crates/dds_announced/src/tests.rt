//! A participant and its announcer, with octets written by hand from their formats (DDSI-RTPS 9.4,
//! 9.6.3).

mod readers;

use crate::*;
use dds_participant::Workers;
use dds_topic::{Shape, Shapes};
use rtps_announcement::Presence;
use rtps_announcer::{Change, Destination, PeerLocators, Rules, Said, Sending};
use rtps_discovery::{Config, ReaderConfig};
use rtps_run::BatchOutput;
use rtps_shards::NoGate;
use rtps_types::{Datagram, Duration, EntityId, GuidPrefix, Locator, Locators};
use std::alloc::Global;
use std::test::Fail;

const OWN: GuidPrefix = GuidPrefix([0x0b; 12]);

const PEER: GuidPrefix = GuidPrefix([0x0a; 12]);

const HERE: Presence = Presence {
    discovery: Locator {
        port: 7412,
        address: [10, 9, 0, 1],
    },
    user: Locator {
        port: 7413,
        address: [10, 9, 0, 1],
    },
    lease: Duration {
        seconds: 10,
        fraction: 0,
    },
};

const GROUP: Locator = Locator {
    port: 7400,
    address: [239, 255, 0, 1],
};

/// Where the peer hears of readers.
const PLACE: Locator = Locator {
    port: 7410,
    address: [10, 9, 0, 2],
};

/// How we are announced to everyone: DATA 000100c7 from 000100c2, number 1.
const HELLO: &[u8] = b"RTPS\x02\x05\x00\x00\
    \x0b\x0b\x0b\x0b\x0b\x0b\x0b\x0b\x0b\x0b\x0b\x0b\
    \x15\x05\x8c\x00\x00\x00\x10\x00\x00\x01\x00\xc7\x00\x01\x00\xc2\
    \x00\x00\x00\x00\x01\x00\x00\x00\
    \x00\x03\x00\x00\
    \x15\x00\x04\x00\x02\x05\x00\x00\
    \x16\x00\x04\x00\x00\x00\x00\x00\
    \x50\x00\x10\x00\x0b\x0b\x0b\x0b\x0b\x0b\x0b\x0b\x0b\x0b\x0b\x0b\x00\x00\x01\xc1\
    \x32\x00\x18\x00\x01\x00\x00\x00\xf4\x1c\x00\x00\
    \x00\x00\x00\x00\x00\x00\x00\x00\x00\x00\x00\x00\x0a\x09\x00\x01\
    \x31\x00\x18\x00\x01\x00\x00\x00\xf5\x1c\x00\x00\
    \x00\x00\x00\x00\x00\x00\x00\x00\x00\x00\x00\x00\x0a\x09\x00\x01\
    \x02\x00\x08\x00\x0a\x00\x00\x00\x00\x00\x00\x00\
    \x58\x00\x04\x00\x3b\x00\x00\x00\
    \x01\x00\x00\x00";

/// How a peer announces itself: where its discovery is reached, and its endpoints.
const COMES: &[u8] = b"RTPS\x02\x05\x00\x00\
    \x0a\x0a\x0a\x0a\x0a\x0a\x0a\x0a\x0a\x0a\x0a\x0a\
    \x15\x05\x54\x00\x00\x00\x10\x00\x00\x01\x00\xc7\x00\x01\x00\xc2\
    \x00\x00\x00\x00\x01\x00\x00\x00\
    \x00\x03\x00\x00\
    \x50\x00\x10\x00\x0a\x0a\x0a\x0a\x0a\x0a\x0a\x0a\x0a\x0a\x0a\x0a\x00\x00\x01\xc1\
    \x32\x00\x18\x00\x01\x00\x00\x00\xf2\x1c\x00\x00\
    \x00\x00\x00\x00\x00\x00\x00\x00\x00\x00\x00\x00\x0a\x09\x00\x02\
    \x58\x00\x04\x00\x3f\x0c\x00\x00\
    \x01\x00\x00\x00";

/// A GAP of the numbers 3 to 5, to the peer.
const VOID: &[u8] = b"RTPS\x02\x05\x00\x00\
    \x0b\x0b\x0b\x0b\x0b\x0b\x0b\x0b\x0b\x0b\x0b\x0b\
    \x0e\x01\x0c\x00\x0a\x0a\x0a\x0a\x0a\x0a\x0a\x0a\x0a\x0a\x0a\x0a\
    \x08\x01\x1c\x00\x00\x00\x04\xc7\x00\x00\x04\xc2\
    \x00\x00\x00\x00\x03\x00\x00\x00\x00\x00\x00\x00\x06\x00\x00\x00\x00\x00\x00\x00";

/// A HEARTBEAT of the numbers 1 to 2 with the count 9, to the peer.
const BEAT: &[u8] = b"RTPS\x02\x05\x00\x00\
    \x0b\x0b\x0b\x0b\x0b\x0b\x0b\x0b\x0b\x0b\x0b\x0b\
    \x0e\x01\x0c\x00\x0a\x0a\x0a\x0a\x0a\x0a\x0a\x0a\x0a\x0a\x0a\x0a\
    \x07\x01\x1c\x00\x00\x00\x04\xc7\x00\x00\x04\xc2\
    \x00\x00\x00\x00\x01\x00\x00\x00\x00\x00\x00\x00\x02\x00\x00\x00\x09\x00\x00\x00";

fn announcing(alloc: Global) -> Announcing {
    Announcing {
        rules: Rules::DEFAULT,
        here: HERE,
        everyone: Locators::one(alloc, GROUP),
    }
}

fn square(alloc: Global) -> Result<ReaderConfig, Fail> {
    Ok(ReaderConfig::new(alloc, EntityId([0, 0, 1, 7]), "Square", "ShapeType")?.reliable())
}

/// With one reader, of squares.
fn started(alloc: Global) -> Result<AnnouncedParticipant<Shapes>, Fail> {
    let mut config = Config::new(alloc, OWN);
    config.add_reader(square(alloc)?)?;
    Ok(AnnouncedParticipant::new(alloc, config, announcing(alloc), Shapes)?)
}

fn to_peer(said: Said) -> Sending {
    let mut to = PeerLocators::new();
    to.add(PLACE);
    Sending {
        to: Destination::Peer(PEER, to),
        said,
    }
}

/// The octets by which something is said to the peer, if it can be said.
fn is_said(alloc: Global, said: Said, octets: Option<&[u8]>) -> Result<bool, Fail> {
    let mut speaker = Speaker::new(alloc, OWN, HERE);
    speaker.add_reader(alloc, &square(alloc)?)?;
    let written = speaker.write(alloc, to_peer(said))?;
    Ok(match (written, octets) {
        (Some(written), Some(octets)) => written.octets.as_slice() == octets,
        (None, None) => true,
        _ => false,
    })
}

#[test]
fn a_period_below_the_lease_and_places_of_one_interface(rt: HostRuntime) -> Result<(), Fail> {
    let alloc = rt.alloc();
    let good = announcing(alloc);
    assert_eq!(rt; good.fault(), None);
    let mut never = announcing(alloc);
    never.rules.period = 0;
    assert_eq!(rt; never.fault(), Some(AnnounceFault::Period));
    let mut late = announcing(alloc);
    late.rules.period = 10_000;
    assert_eq!(rt; late.fault(), Some(AnnounceFault::Period));
    late.rules.period = 9_999;
    assert_eq!(rt; late.fault(), None);
    let mut nowhere = announcing(alloc);
    nowhere.here.user.port = 0;
    assert_eq!(rt; nowhere.fault(), Some(AnnounceFault::Place));
    let mut grouped = announcing(alloc);
    grouped.here.discovery.address = [224, 0, 0, 1];
    assert_eq!(rt; grouped.fault(), Some(AnnounceFault::Place));
    Ok(())
}

/// In domain 1 the group is at 7650.
#[test]
fn each_part_has_a_default(rt: HostRuntime) -> Result<(), Fail> {
    let alloc = rt.alloc();
    let default = Announcing::new(alloc, 1, HERE.discovery, HERE.user);
    assert_eq!(rt; default.fault(), None);
    assert_eq!(rt; default.rules, Rules::DEFAULT);
    assert_eq!(rt; default.here, HERE);
    let group = Locator {
        port: 7650,
        address: [239, 255, 0, 1],
    };
    assert_eq!(rt; default.everyone.as_slice(), [group].as_slice());
    let lease = Duration {
        seconds: 3,
        fraction: 0,
    };
    let other = default
        .period(500)
        .lease(lease)
        .everyone(Locators::one(alloc, PLACE));
    assert_eq!(rt; other.rules.period, 500);
    assert_eq!(rt; other.rules.reminder, 200);
    assert_eq!(rt; other.here.lease, lease);
    assert_eq!(rt; other.here.user, HERE.user);
    assert_eq!(rt; other.everyone.as_slice(), [PLACE].as_slice());
    Ok(())
}

#[test]
fn a_gap_and_a_heartbeat(rt: HostRuntime) -> Result<(), Fail> {
    let alloc = rt.alloc();
    assert!(rt; is_said(alloc, Said::Void(3, 5), Some(VOID))?);
    assert!(rt; is_said(alloc, Said::Beat(2, 9), Some(BEAT))?);
    Ok(())
}

#[test]
fn what_cannot_be_said(rt: HostRuntime) -> Result<(), Fail> {
    let alloc = rt.alloc();
    assert!(rt; is_said(alloc, Said::Void(0, 5), None)?);
    assert!(rt; is_said(alloc, Said::Told(0, Change::Asks(0)), None)?);
    assert!(rt; is_said(alloc, Said::Told(1, Change::Asks(1)), None)?);
    assert!(rt; is_said(alloc, Said::Told(1, Change::Ends(1)), None)?);
    Ok(())
}

#[test]
fn the_first_tick_announces_to_everyone(rt: HostRuntime) -> Result<(), Fail> {
    let alloc = rt.alloc();
    let mut participant = started(alloc)?;
    let mut given = BatchOutput::<Shape>::new(alloc);
    let mut announcements = Vec::new(alloc);
    participant.tick_in_order(alloc, 5, &mut given, &mut announcements)?;
    assert_eq!(rt; announcements.len(), 1);
    assert_eq!(rt; announcements[0].octets.as_slice(), HELLO);
    assert!(rt; matches!(announcements[0].to, Destination::Everyone));
    participant.tick_in_order(alloc, 1_004, &mut given, &mut announcements)?;
    assert_eq!(rt; announcements.len(), 1);
    participant.tick_in_order(alloc, 1_005, &mut given, &mut announcements)?;
    assert_eq!(rt; announcements.len(), 2);
    assert_eq!(rt; participant.everyone(), [GROUP].as_slice());
    assert_eq!(rt; participant.participant().batches(), 3);
    Ok(())
}

/// A participant that is found is greeted in the same batch: with a farewell, as a participant,
/// with each reader and a HEARTBEAT.
#[test]
fn who_is_found_is_greeted_at_once(rt: HostRuntime) -> Result<(), Fail> {
    let alloc = rt.alloc();
    let mut participant = started(alloc)?;
    let mut given = BatchOutput::<Shape>::new(alloc);
    let mut announcements = Vec::new(alloc);
    let workers = Workers {
        count: 1,
        gate: &NoGate,
    };
    let datagrams = [Datagram {
        moment: 5,
        bytes: COMES,
    }];
    participant.run_in_order(&rt, &workers, &datagrams, &mut given, &mut announcements)?;
    assert_eq!(rt; announcements.len(), 5);
    assert_eq!(rt; announcements[0].octets.as_slice(), HELLO);
    for announcement in &announcements[1..] {
        match &announcement.to {
            Destination::Peer(prefix, to) => {
                assert_eq!(rt; *prefix, PEER);
                assert_eq!(rt; to.as_slice(), [PLACE].as_slice());
            }
            Destination::Everyone => return Err(Fail::new("not for the peer")),
        }
    }
    let beat = announcements[4].octets.as_slice();
    assert_eq!(rt; &beat[36..40], [7, 1, 28, 0].as_slice());
    assert_eq!(rt; &beat[40..48], [0, 0, 4, 0xc7, 0, 0, 4, 0xc2].as_slice());
    let mut last = Vec::new(alloc);
    participant.farewell(alloc, &mut last)?;
    assert_eq!(rt; last.len(), 2);
    assert!(rt; matches!(last[0].to, Destination::Everyone));
    Ok(())
}
