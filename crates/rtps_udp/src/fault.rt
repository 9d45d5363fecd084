//! Faults of sockets.

ghost use Rattle.std.specs.Prelude.{◌≡◌};
ghost use Rattle.rtps_udp.specs.Faults as faults;
ghost use Rattle.rtps_udp.specs.Faults.{IsBindFault};

use crate::addresses::Purpose;
use std::io::ErrorKind;
use thiserror::Error;

/// Why a call of [`Sockets`](crate::Sockets) failed. A kind is that of the system's error.
#[derive(Clone, Copy, Debug, PartialEq, Eq, Error)]
pub enum SocketFault {
    /// Another socket has the port for discovery: the sum of 7410, 250 times the domain, and twice
    /// the index of the participant.
    #[error("the port for discovery is taken")]
    DiscoveryPortTaken,
    /// Another socket has the port for user data, the one after the port for discovery.
    #[error("the port for user data is taken")]
    UserPortTaken,
    /// The address isn't one of this machine.
    #[error("the address isn't one of this machine")]
    ForeignAddress,
    /// The locator isn't one that answers are sent to from this address.
    #[error("the locator isn't answered from this address")]
    NotAnswered,
    /// The clock can't be read.
    #[error("the clock can't be read: {0}")]
    Clock(ErrorKind),
    /// No datagram can be waited for or received.
    #[error("no datagram can be received: {0}")]
    Receive(ErrorKind),
    /// The datagram can't be sent.
    #[error("the datagram can't be sent: {0}")]
    Send(ErrorKind),
    /// Out of memory.
    #[error("out of memory")]
    NoMemory,
    /// Any other fault while the sockets are bound.
    #[error("the sockets can't be bound: {0}")]
    Bind(ErrorKind),
}

/// Returns the fault of a socket with this purpose that can't be bound, by the kind of the error.
#[tactic(auto, unfolding(crate::specs::Faults::bind_fault))]
pub(crate) fn bind_fault(purpose: Purpose, kind: ErrorKind) -> SocketFault
    ensures value { result ≡ faults.bind_fault purpose kind }
    ensures is { IsBindFault result }
{
    match kind {
        ErrorKind::AddrInUse => taken_fault(purpose),
        ErrorKind::AddrNotAvailable => SocketFault::ForeignAddress,
        kind => other_fault(kind),
    }
}

/// Returns the fault of a socket with this purpose whose port another one has.
fn taken_fault(purpose: Purpose) -> SocketFault
    ensures value { result ≡ faults.taken_fault purpose }
    ensures is { IsBindFault result }
{
    match purpose {
        Purpose::Metatraffic => SocketFault::DiscoveryPortTaken,
        Purpose::UserData => SocketFault::UserPortTaken,
    }
}

/// Returns the fault of any other error while sockets are bound, by its kind.
#[tactic(auto, unfolding(crate::specs::Faults::other_fault))]
pub(crate) fn other_fault(kind: ErrorKind) -> SocketFault
    ensures value { result ≡ faults.other_fault kind }
    ensures is { IsBindFault result }
{
    match kind {
        ErrorKind::OutOfMemory => SocketFault::NoMemory,
        kind => SocketFault::Bind(kind),
    }
}
