//! A peer on loopback, with a writer of squares.

use super::DOMAIN;
use std::io::{self, ErrorKind};
use std::net::{Net, SocketAddr, UdpSocket};
use std::time::Duration;
use thrushpodium::{EntityId, Guid, GuidPrefix, Locator};

/// The peer's writer.
pub const WRITER: Guid = Guid {
    prefix: GuidPrefix([0x0a; 12]),
    entity: EntityId([0, 0, 1, 2]),
};

/// The port of the user data of the domain's first participant (DDSI-RTPS 9.6.1.1).
const USER_PORT: u16 = 7411 + 250 * DOMAIN;

/// A message of one DATA for every reader: number 0 of the writer, a blue square at 0, 20 of size
/// 30 (DDSI-RTPS 9.4.5.3).
const DATA: [u8; 72] = *b"RTPS\x02\x05\x00\x00\
    \x0a\x0a\x0a\x0a\x0a\x0a\x0a\x0a\x0a\x0a\x0a\x0a\
    \x15\x05\x30\x00\x00\x00\x10\x00\x00\x00\x00\x00\x00\x00\x01\x02\
    \x00\x00\x00\x00\x00\x00\x00\x00\
    \x00\x01\x00\x00\x05\x00\x00\x00BLUE\x00\x00\x00\x00\
    \x00\x00\x00\x00\x14\x00\x00\x00\x1e\x00\x00\x00";

/// The offset of its sequence number, and below that of the square's x.
const NUMBER_AT: usize = 40;

const X_AT: usize = 60;

/// A message of one HEARTBEAT for every reader: the writer has the numbers 1 to 3, and asks for an
/// answer (DDSI-RTPS 9.4.5.6).
const HEARTBEAT: [u8; 52] = *b"RTPS\x02\x05\x00\x00\
    \x0a\x0a\x0a\x0a\x0a\x0a\x0a\x0a\x0a\x0a\x0a\x0a\
    \x07\x01\x1c\x00\x00\x00\x00\x00\x00\x00\x01\x02\
    \x00\x00\x00\x00\x01\x00\x00\x00\x00\x00\x00\x00\x03\x00\x00\x00\
    \x01\x00\x00\x00";

/// A peer, at a port of its own.
#[derive(Drop)]
pub struct Peer {
    socket: UdpSocket,
}

impl Peer {
    /// Returns a peer that waits at most half a minute for an answer.
    pub fn bind(net: &impl Net) -> io::Result<Peer> {
        let socket = UdpSocket::bind(net, "127.0.0.1:0")?;
        socket.set_read_timeout(Some(Duration::from_secs(30)))?;
        Ok(Peer { socket })
    }

    /// Returns the locator that answers to its writer are sent to.
    pub fn locator(&self) -> io::Result<Locator> {
        match self.socket.local_addr()? {
            SocketAddr::V4(address) => Ok(Locator::from(address)),
            SocketAddr::V6(_) => Err(io::Error::from(ErrorKind::Unsupported)),
        }
    }

    /// Sends the samples 1 and 3 and a heartbeat of three samples, and sends the second one when
    /// the reader asks for it.
    pub fn send_squares(&self) -> io::Result<()> {
        self.send(&square(1))?;
        self.send(&square(3))?;
        self.send(&HEARTBEAT)?;
        let mut answer = [0; 128];
        self.socket.recv_from(&mut answer)?;
        self.send(&square(2))
    }

    /// Sends a message to the reader's participant.
    fn send(&self, message: &[u8]) -> io::Result<()> {
        self.socket.send_to(message, ("127.0.0.1", USER_PORT))?;
        Ok(())
    }
}

/// Returns the sample with this number: the square is 10 further to the right in each.
fn square(number: u8) -> [u8; 72] {
    let mut message = DATA;
    message[NUMBER_AT] = number;
    message[X_AT] = number.saturating_mul(10);
    message
}
