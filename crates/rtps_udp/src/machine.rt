//! The link of this machine.

ghost use Rattle.std.specs.Prelude.{None};

use crate::addresses::Purpose;
use crate::link::Link;
use mio::net::UdpSocket;
use mio::{Events, Interest, Poll, Token};
use rtps_types::Locator;
use std::alloc::Global;
use std::io::{self, ErrorKind};
use std::net::{Ipv4Addr, Net, SocketAddr, SocketAddrV4};
use std::time::{Clock, Duration, Instant};

/// The network and the clock of this machine.
#[derive(Drop)]
pub struct Machine<'a, N, K> {
    net: &'a N,
    clock: &'a K,
    /// Waits until one of the sockets has a datagram.
    poll: Poll,
    events: Events<Global>,
    metatraffic: Option<UdpSocket>,
    user: Option<UdpSocket>,
}

impl<'a, N: Net, K: Clock> Machine<'a, N, K> {
    /// Returns a link that has no socket yet.
    pub(crate) fn new(net: &'a N, clock: &'a K, alloc: Global) -> io::Result<Machine<'a, N, K>> {
        let poll = Poll::new(net)?;
        let Ok(events) = Events::with_capacity(alloc, 2) else {
            return Err(io::Error::from(ErrorKind::OutOfMemory));
        };
        Ok(Machine {
            net,
            clock,
            poll,
            events,
            metatraffic: None,
            user: None,
        })
    }

    /// Returns the socket for a purpose.
    fn socket(&self, purpose: Purpose) -> io::Result<&UdpSocket> {
        let socket = match purpose {
            Purpose::Metatraffic => &self.metatraffic,
            Purpose::UserData => &self.user,
        };
        match socket {
            Some(socket) => Ok(socket),
            None => Err(io::Error::from(ErrorKind::NotConnected)),
        }
    }
}

// Each method passes its arguments on to the system. No contract of the system tells what is bound,
// received, sent or read, so what these few lines do is tested, and not proved.
impl<N: Net, K: Clock> Link for Machine<'_, N, K> {
    ghost calls = { λ _. None };

    fn bind(&mut self, purpose: Purpose, at: SocketAddrV4) -> io::Result<()> {
        let mut socket = UdpSocket::bind(self.net, SocketAddr::V4(at))?;
        self.poll
            .registry()
            .register(&mut socket, Token(0), Interest::READABLE)?;
        match purpose {
            Purpose::Metatraffic => self.metatraffic = Some(socket),
            Purpose::UserData => self.user = Some(socket),
        }
        Ok(())
    }

    fn receive(&mut self, purpose: Purpose, room: &mut [u8]) -> io::Result<usize> {
        let (length, _) = self.socket(purpose)?.recv_from(room)?;
        Ok(length)
    }

    fn send(&mut self, purpose: Purpose, to: Locator, octets: &[u8]) -> io::Result<()> {
        let to = SocketAddr::V4(SocketAddrV4::from(to));
        self.socket(purpose)?.send_to(octets, to)?;
        Ok(())
    }

    fn announce(&mut self, to: Locator, octets: &[u8]) -> io::Result<()> {
        self.send(Purpose::Metatraffic, to, octets)
    }

    fn withhold(&mut self, _bound: Ipv4Addr, _to: Locator, _octets: &[u8]) {}

    fn fail(&mut self, _kind: ErrorKind) {}

    fn wait(&mut self, within: Duration) -> io::Result<Instant> {
        self.poll.poll(&mut self.events, Some(within))?;
        Instant::now(self.clock)
    }

    fn now(&mut self) -> io::Result<Instant> {
        Instant::now(self.clock)
    }
}
