//! Tests of the sockets of a domain, with a peer on loopback.

ghost use Rattle.std.specs.Prelude.{◌≤◌, IfOk};

use crate::{Binding, Link, Machine, Purpose, SocketFault, Sockets};
use rtps_records::{Batch, Exchange, Receive};
use rtps_types::Locator;
use std::cell::Cell;
use std::io::{self, ErrorKind};
use std::net::{Ipv4Addr, SocketAddr, SocketAddrV4, UdpSocket};
use std::test::Fail;
use std::time::{Clock, Duration, Instant};

/// Domains that nothing else here uses, and the port for datagrams of discovery in each, which is
/// 7410 + 250 times the domain. The next port is for user data. There are several domains, so that
/// several runs of these tests find free sockets at the same time.
const DOMAINS: [(u16, u16); 6] = [
    (100, 32_410),
    (99, 32_160),
    (98, 31_910),
    (97, 31_660),
    (96, 31_410),
    (95, 31_160),
];

/// Returns the sockets at an address of the first of these domains whose ports are free, the
/// domain, and its first port.
fn free_sockets<'a, K: Clock>(
    rt: &'a HostRuntime,
    clock: &'a K,
    address: Ipv4Addr,
) -> Result<(Sockets<Machine<'a, HostRuntime, K>>, u16, u16), Fail>
    ensures { IfOk result (λ free. free.1 ≤ 232) }
{
    for (domain, port) in DOMAINS {
        let binding = Binding {
            domain,
            participant: 0,
            address,
        };
        if let Ok(sockets) = Sockets::bind_at(rt, clock, rt.alloc(), binding) {
            return Ok((sockets, domain, port));
        }
    }
    Err(Fail::new("the ports of each domain are taken"))
}

/// Returns a socket of a peer, which waits at most half a minute, and its locator.
fn peer(rt: &HostRuntime) -> Result<(UdpSocket, Locator), Fail> {
    let peer = UdpSocket::bind(rt, "127.0.0.1:0")?;
    peer.set_read_timeout(Some(Duration::from_secs(30)))?;
    let to = Locator {
        port: peer.local_addr()?.port(),
        address: [127, 0, 0, 1],
    };
    Ok((peer, to))
}

#[test]
fn exchanges_datagrams_with_a_peer(rt: HostRuntime) -> Result<(), Fail> {
    let (mut sockets, domain, discovery) = free_sockets(&rt, &rt, Ipv4Addr::LOCALHOST)?;
    let (peer, to) = peer(&rt)?;
    let mut room = [0; 4];
    sockets.wait()?;
    assert_eq!(rt; sockets.receive(&mut room)?, None);

    let user = discovery.saturating_add(1);
    peer.send_to(b"user", ("127.0.0.1", user))?;
    peer.send_to(b"found", ("127.0.0.1", discovery))?;
    sockets.wait()?;
    // A datagram that is longer than the room is cut.
    assert_eq!(rt; sockets.receive(&mut room)?, Some(4));
    assert_eq!(rt; room, *b"foun");
    assert_eq!(rt; sockets.receive(&mut room)?, Some(4));
    assert_eq!(rt; room, *b"user");
    assert_eq!(rt; sockets.receive(&mut room)?, None);

    sockets.send(to, b"ask");
    let (length, from) = peer.recv_from(&mut room)?;
    assert_eq!(rt; (length, room), (3, *b"askr"));
    assert_eq!(rt; from, SocketAddr::from((Ipv4Addr::LOCALHOST, discovery)));

    match Sockets::bind(&rt, &rt, rt.alloc(), domain) {
        Ok(_) => assert!(rt; false, "the ports are free"),
        Err(fault) => assert_eq!(rt; fault, SocketFault::DiscoveryPortTaken),
    }
    Ok(())
}

#[test]
fn receives_batches_at_another_address(rt: HostRuntime) -> Result<(), Fail> {
    let address = Ipv4Addr::new(127, 0, 0, 2);
    let (mut sockets, _, discovery) = free_sockets(&rt, &rt, address)?;
    assert_eq!(rt; sockets.address(), address);
    let (peer, to) = peer(&rt)?;
    let mut batch = Batch::new(rt.alloc())?;
    sockets.receive_batch(&mut batch, Duration::from_millis(1))?;
    assert_eq!(rt; batch.len(), 0);

    let user = discovery.saturating_add(1);
    peer.send_to(b"user", ("127.0.0.2", user))?;
    peer.send_to(b"found", ("127.0.0.2", discovery))?;
    let moment = sockets.receive_batch(&mut batch, Duration::from_secs(30))?;
    let datagrams = batch.datagrams(rt.alloc())?;
    assert_eq!(rt; datagrams.len(), 2);
    for (datagram, bytes) in datagrams
        .iter()
        .zip([b"found".as_slice(), b"user".as_slice()])
    {
        assert_eq!(rt; (datagram.moment, datagram.bytes), (moment, bytes));
    }

    sockets.send_answer(to, b"ask")?;
    let mut room = [0; 4];
    let (length, from) = peer.recv_from(&mut room)?;
    assert_eq!(rt; (length, room), (3, *b"ask\0"));
    assert_eq!(rt; from, SocketAddr::from((address, discovery)));
    Ok(())
}

#[test]
fn answers_by_the_address_that_is_bound(rt: HostRuntime) -> Result<(), Fail> {
    let (mut sockets, _, _) = free_sockets(&rt, &rt, Ipv4Addr::LOCALHOST)?;
    let elsewhere = Locator {
        port: 7410,
        address: [192, 0, 2, 1],
    };
    assert_eq!(rt;
        sockets.send_answer(elsewhere, b"ask"),
        Err(SocketFault::NotAnswered)
    );
    drop(sockets);

    let (mut sockets, _, discovery) = free_sockets(&rt, &rt, Ipv4Addr::UNSPECIFIED)?;
    let (peer, to) = peer(&rt)?;
    sockets.send_answer(to, b"ask")?;
    let mut room = [0; 4];
    let (_, from) = peer.recv_from(&mut room)?;
    assert_eq!(rt; from, SocketAddr::from((Ipv4Addr::LOCALHOST, discovery)));
    for address in [[239, 255, 0, 1], [255; 4], [0; 4]] {
        let nobody = Locator {
            port: 7410,
            address,
        };
        assert_eq!(rt;
            sockets.send_answer(nobody, b"ask"),
            Err(SocketFault::NotAnswered)
        );
    }
    Ok(())
}

#[test]
fn sends_an_answer_whole_or_not_at_all(rt: HostRuntime) -> Result<(), Fail> {
    let (mut sockets, _, _) = free_sockets(&rt, &rt, Ipv4Addr::LOCALHOST)?;
    let (peer, to) = peer(&rt)?;
    let large = vec![in rt.alloc(); 7u8; 40_000]?;
    sockets.send_answer(to, large.as_slice())?;
    let mut room = vec![in rt.alloc(); 0u8; 65_507]?;
    let (length, _) = peer.recv_from(room.as_mut_slice())?;
    assert!(rt;
        room.get(..length) == Some(large.as_slice()),
        "{length} octets came"
    );
    // No UDP datagram over IPv4 has more than 65,507 octets.
    let long = vec![in rt.alloc(); 0u8; 65_508]?;
    match sockets.send_answer(to, long.as_slice()) {
        Ok(()) | Err(SocketFault::NotAnswered) => assert!(rt; false, "it is sent"),
        Err(fault) => {
            let text = format!(in rt.alloc(); "{fault}")?;
            assert!(rt; text.as_str().starts_with("the datagram can't be sent: "));
        }
    }
    Ok(())
}

#[test]
fn names_what_is_wrong_with_a_binding(rt: HostRuntime) -> Result<(), Fail> {
    // An address for documentation, which no machine has (RFC 5737), and a multicast group.
    for address in [[192, 0, 2, 1], [239, 255, 0, 1]] {
        let binding = Binding {
            domain: 94,
            participant: 0,
            address: Ipv4Addr::from(address),
        };
        match Sockets::bind_at(&rt, &rt, rt.alloc(), binding) {
            Ok(_) => assert!(rt; false, "an address of this machine"),
            Err(fault) => {
                assert_eq!(rt; fault, SocketFault::ForeignAddress);
                let text = format!(in rt.alloc(); "{fault}")?;
                assert_eq!(rt; text.as_str(), "the address isn't one of this machine");
            }
        }
    }
    Ok(())
}

/// Domains of one test alone, and the port for user data in each.
const TAKEN: [(u16, u16); 3] = [(93, 30_661), (92, 30_411), (91, 30_161)];

#[test]
fn names_the_port_that_is_taken(rt: HostRuntime) -> Result<(), Fail> {
    for (domain, port) in TAKEN {
        let Ok(_taken) = UdpSocket::bind(&rt, ("127.0.0.1", port)) else {
            continue;
        };
        match Sockets::bind(&rt, &rt, rt.alloc(), domain) {
            Ok(_) => assert!(rt; false, "the port is free"),
            Err(fault) => assert_eq!(rt; fault, SocketFault::UserPortTaken),
        }
        // The socket for discovery, which was bound first, is closed.
        UdpSocket::bind(&rt, ("127.0.0.1", port.saturating_sub(1)))?;
        return Ok(());
    }
    Err(Fail::new("the port of each domain is taken"))
}

/// Domains of one test alone, and the port for discovery of the first participant in each.
const SHARED: [(u16, u16); 3] = [(90, 29_910), (89, 29_660), (88, 29_410)];

/// The sockets of a participant of this machine.
type Participant<'a> = Sockets<Machine<'a, HostRuntime, HostRuntime>>;

/// Returns the sockets of the first two participants of the first of these domains that nobody else
/// takes part in, and the port for discovery of the first participant.
fn two_participants<'a>(
    rt: &'a HostRuntime,
) -> Result<(Participant<'a>, Participant<'a>, u16), Fail> {
    for (domain, port) in SHARED {
        let first = Sockets::bind_first(rt, rt, rt.alloc(), domain, Ipv4Addr::LOCALHOST)?;
        let second = Sockets::bind_first(rt, rt, rt.alloc(), domain, Ipv4Addr::LOCALHOST)?;
        if first.binding().participant == 0 && second.binding().participant == 1 {
            return Ok((first, second, port));
        }
    }
    Err(Fail::new("a port of each domain is taken"))
}

#[test]
fn the_second_participant_has_the_next_ports(rt: HostRuntime) -> Result<(), Fail> {
    let (mut first, mut second, port) = two_participants(&rt)?;
    let to = first.locator(Purpose::Metatraffic);
    assert_eq!(rt; (to.port, to.address), (port, [127, 0, 0, 1]));
    assert_eq!(rt;
        second.locator(Purpose::Metatraffic).port,
        port.saturating_add(2)
    );
    let user = second.locator(Purpose::UserData);
    assert_eq!(rt;
        (user.port, user.address),
        (port.saturating_add(3), [127, 0, 0, 1])
    );

    let mut room = [0; 4];
    second.announce_to_peer(to, b"here")?;
    first.wait_turn()?;
    assert_eq!(rt; first.receive_next(&mut room)?, Some(4));
    assert_eq!(rt; room, *b"here");
    first.announce(user, b"hear")?;
    second.wait_turn()?;
    assert_eq!(rt; second.receive_next(&mut room)?, Some(4));
    assert_eq!(rt; room, *b"hear");
    Ok(())
}

#[test]
fn announces_from_the_socket_for_discovery(rt: HostRuntime) -> Result<(), Fail> {
    let (mut sockets, _, discovery) = free_sockets(&rt, &rt, Ipv4Addr::LOCALHOST)?;
    let (peer, to) = peer(&rt)?;
    sockets.announce_to_peer(to, b"ask")?;
    let mut room = [0; 4];
    let (length, from) = peer.recv_from(&mut room)?;
    assert_eq!(rt; (length, room), (3, *b"ask\0"));
    assert_eq!(rt; from, SocketAddr::from((Ipv4Addr::LOCALHOST, discovery)));

    let group = Locator {
        port: 7400,
        address: [239, 255, 0, 1],
    };
    let refused = sockets.announce_to_peer(group, b"ask");
    assert_eq!(rt; refused, Err(SocketFault::NotAnswered));
    // A group of one's own is left to the system.
    assert!(rt; sockets.announce(group, b"ask") != Err(SocketFault::NotAnswered));
    Ok(())
}

#[test]
fn refuses_where_each_participant_is_there(rt: HostRuntime) -> Result<(), Fail> {
    let mut held = Vec::new(rt.alloc());
    // The last domain has room for 63 participants.
    for _ in 0..63 {
        match Sockets::bind_first(&rt, &rt, rt.alloc(), 232, Ipv4Addr::LOCALHOST) {
            Ok(sockets) => held.push(sockets)?,
            Err(_) => break,
        }
    }
    match Sockets::bind_first(&rt, &rt, rt.alloc(), 232, Ipv4Addr::LOCALHOST) {
        Ok(_) => assert!(rt; false, "there is a 64th participant"),
        Err(fault) => assert_eq!(rt; fault, SocketFault::DiscoveryPortTaken),
    }
    let elsewhere = Ipv4Addr::new(192, 0, 2, 1);
    match Sockets::bind_first(&rt, &rt, rt.alloc(), 232, elsewhere) {
        Ok(_) => assert!(rt; false, "an address of this machine"),
        Err(fault) => assert_eq!(rt; fault, SocketFault::ForeignAddress),
    }
    Ok(())
}

/// A clock that a test sets. It can't be read where there is no time.
#[derive(Drop)]
struct SetClock(Cell<Option<Duration>>);

impl Clock for SetClock {
    fn monotonic(&self) -> io::Result<Duration> {
        self.0.get().ok_or(io::Error::from(ErrorKind::Unsupported))
    }

    fn since_1970(&self) -> io::Result<Duration> {
        self.monotonic()
    }
}

#[test]
fn counts_milliseconds_from_the_bind(rt: HostRuntime) -> Result<(), Fail> {
    let clock = SetClock(Cell::new(Some(Duration::new(7, 600_000))));
    let (mut sockets, domain, _) = free_sockets(&rt, &clock, Ipv4Addr::LOCALHOST)?;
    for (time, moment) in [
        (Duration::new(7, 1_599_999), 0),
        (Duration::new(7, 1_600_000), 1),
        (Duration::new(7, 1_600_000), 1),
        (Duration::new(10, 900_000), 3_000),
        (Duration::new(6, 0), 0),
        (Duration::new((1 << 63) - 1, 0), u64::MAX),
    ] {
        clock.0.set(Some(time));
        assert_eq!(rt; sockets.wait()?, moment);
    }
    clock.0.set(None);
    let fault = SocketFault::Clock(ErrorKind::Unsupported);
    match sockets.wait() {
        Ok(_) => assert!(rt; false, "the clock was read"),
        Err(error) => assert_eq!(rt; error.kind(), ErrorKind::Unsupported),
    }
    let mut batch = Batch::new(rt.alloc())?;
    let received = sockets.receive_batch(&mut batch, Duration::ZERO);
    assert_eq!(rt; received, Err(fault));
    match Sockets::bind(&rt, &clock, rt.alloc(), domain) {
        Ok(_) => assert!(rt; false, "the clock was read"),
        Err(other) => assert_eq!(rt; other, fault),
    }
    Ok(())
}

/// Returns a port of this machine that is free.
fn free_port(rt: &HostRuntime) -> Result<u16, Fail> {
    let socket = UdpSocket::bind(rt, "127.0.0.1:0")?;
    Ok(socket.local_addr()?.port())
}

#[test]
fn a_datagram_for_either_socket_ends_a_wait(rt: HostRuntime) -> Result<(), Fail> {
    let mut machine = Machine::new(&rt, &rt, rt.alloc())?;
    let (peer, _) = peer(&rt)?;
    let mut room = [0; 4];
    for purpose in [Purpose::Metatraffic, Purpose::UserData] {
        let at = SocketAddrV4::new(Ipv4Addr::LOCALHOST, free_port(&rt)?);
        machine.bind(purpose, at)?;
        peer.send_to(b"here", at)?;
        let start = machine.now()?;
        let end = machine.wait(Duration::from_secs(30))?;
        assert!(rt; end.duration_since(start) < Duration::from_secs(20));
        assert_eq!(rt; machine.receive(purpose, &mut room)?, 4);
    }
    Ok(())
}

/// A link whose clock always reads the same, and on which nothing can be received.
#[derive(Drop)]
struct Broken {
    time: Instant,
    kind: ErrorKind,
}

impl Link for Broken {
    ghost use Rattle.std.specs.Prelude.{None};

    ghost calls = { λ _. None };

    fn bind(&mut self, _purpose: Purpose, _at: SocketAddrV4) -> io::Result<()> {
        Ok(())
    }

    fn receive(&mut self, _purpose: Purpose, _room: &mut [u8]) -> io::Result<usize> {
        Err(io::Error::from(self.kind))
    }

    fn send(&mut self, _purpose: Purpose, _to: Locator, _octets: &[u8]) -> io::Result<()> {
        Ok(())
    }

    fn announce(&mut self, _to: Locator, _octets: &[u8]) -> io::Result<()> {
        Ok(())
    }

    fn withhold(&mut self, _bound: Ipv4Addr, _to: Locator, _octets: &[u8]) {}

    fn fail(&mut self, _kind: ErrorKind) {}

    fn wait(&mut self, _within: Duration) -> io::Result<Instant> {
        Ok(self.time)
    }

    fn now(&mut self) -> io::Result<Instant> {
        Ok(self.time)
    }
}

#[test]
fn names_the_fault_of_a_socket(rt: HostRuntime) -> Result<(), Fail> {
    let time = Instant::now(&rt)?;
    for kind in [ErrorKind::PermissionDenied, ErrorKind::ConnectionRefused] {
        let link = Broken { time, kind };
        let mut sockets = Sockets::over(link, time, Binding::loopback(0))?;
        let mut batch = Batch::new(rt.alloc())?;
        let received = sockets.receive_batch(&mut batch, Duration::ZERO);
        assert_eq!(rt; received, Err(SocketFault::Receive(kind)));
        sockets.give_up(ErrorKind::OutOfMemory);
    }
    Ok(())
}

#[test]
fn the_last_port_is_the_last_number(rt: HostRuntime) -> Result<(), Fail> {
    let time = Instant::now(&rt)?;
    let kind = ErrorKind::Other;
    let binding = Binding {
        domain: 232,
        participant: 62,
        address: Ipv4Addr::new(192, 0, 2, 1),
    };
    let sockets = Sockets::over(Broken { time, kind }, time, binding)?;
    assert_eq!(rt; sockets.binding(), binding);
    let discovery = sockets.locator(Purpose::Metatraffic);
    assert_eq!(rt;
        (discovery.port, discovery.address),
        (65_534, [192, 0, 2, 1])
    );
    assert_eq!(rt; sockets.locator(Purpose::UserData).port, 65_535);
    Ok(())
}
