//! Two participants on this machine that find each other.

use crate::AnnouncedSockets;
use rtps_discovery::{Config, ReaderConfig};
use rtps_records::{Exchange, Receive};
use rtps_types::{Duration, EntityId, GuidPrefix, Locators};
use rtps_udp::{Machine, Purpose, Sockets};
use std::alloc::Global;
use std::net::Ipv4Addr;
use std::test::Fail;

/// A domain in which nobody else listens.
const DOMAIN: u16 = 97;

const LEASE: Duration = Duration {
    seconds: 10,
    fraction: 0,
};

/// The sockets of the first participant of the domain whose ports are free.
fn bound(rt: &HostRuntime) -> Result<Sockets<Machine<'_, HostRuntime, HostRuntime>>, Fail> {
    Ok(Sockets::bind_first(rt, rt, rt.alloc(), DOMAIN, Ipv4Addr::LOCALHOST)?)
}

fn config(alloc: Global, own: u8) -> Result<Config, Fail> {
    let mut config = Config::new(alloc, GuidPrefix([own; 12]));
    config.add_reader(ReaderConfig::new(alloc, EntityId([0, 0, 1, 7]), "Square", "ShapeType")?)?;
    Ok(config)
}

/// A participant announces itself to an address of the configuration at its first moment, and says
/// farewell there. Its announcement says where its own sockets are bound.
#[test]
fn a_participant_comes_and_leaves(rt: HostRuntime) -> Result<(), Fail> {
    let alloc = rt.alloc();
    let mut other = bound(&rt)?;
    let everyone = Locators::one(alloc, other.locator(Purpose::Metatraffic));
    let sockets = bound(&rt)?;
    let here = sockets.locator(Purpose::Metatraffic);
    let mut own = AnnouncedSockets::new(alloc, sockets, &config(alloc, 11)?, LEASE, everyone)?;
    own.wait()?;
    own.farewell()?;
    assert!(rt; own.farewell().is_err());
    let mut room = [0; 2_000];
    other.wait()?;
    assert_eq!(rt; other.receive(&mut room)?, Some(164));
    assert_eq!(rt;
        &room[..20],
        b"RTPS\x02\x05\x00\x00\x0b\x0b\x0b\x0b\x0b\x0b\x0b\x0b\x0b\x0b\x0b\x0b".as_slice()
    );
    let [low, high] = here.port.to_le_bytes();
    assert_eq!(rt; &room[92..96], [low, high, 0, 0].as_slice());
    assert_eq!(rt; &room[108..112], [127, 0, 0, 1].as_slice());
    assert!(rt; matches!(other.receive(&mut room)?, Some(_)));
    assert_eq!(rt; other.receive(&mut room)?, None);
    Ok(())
}

/// A participant greets one that has writers, and not one that has readers alone, as itself: of two
/// such each would greet the other for its greeting, without end.
#[test]
fn a_participant_with_writers_is_greeted(rt: HostRuntime) -> Result<(), Fail> {
    let alloc = rt.alloc();
    let mut other = bound(&rt)?;
    let everyone = Locators::one(alloc, other.locator(Purpose::Metatraffic));
    let first = bound(&rt)?;
    let at_first = first.locator(Purpose::Metatraffic);
    let nobody = Locators::new(Vec::new(alloc));
    let mut first = AnnouncedSockets::new(alloc, first, &config(alloc, 11)?, LEASE, nobody)?;
    let second = bound(&rt)?;
    let mut second = AnnouncedSockets::new(alloc, second, &config(alloc, 12)?, LEASE, everyone)?;
    let mut room = [0; 2_000];
    second.wait()?;
    other.wait()?;
    assert_eq!(rt; other.receive(&mut room)?, Some(164));
    // The builtin endpoints of one that has readers alone, and of one that announces writers too. It
    // is greeted by a farewell, the participant, its reader and a HEARTBEAT.
    assert_eq!(rt; room[156], 0x3b);
    for (endpoints, greetings) in [(0x3b, 0), (0x3f, 4)] {
        room[156] = endpoints;
        other.announce(at_first, &room[..164])?;
        first.wait()?;
        let mut heard = [0; 2_000];
        assert_eq!(rt; first.receive(&mut heard)?, Some(164));
        second.wait()?;
        let mut received = 0;
        while let Some(_) = second.receive(&mut heard)? {
            received += 1;
        }
        assert_eq!(rt; received, greetings);
    }
    Ok(())
}
