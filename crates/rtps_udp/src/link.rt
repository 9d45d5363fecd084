//! The calls to the system that sockets need.

ghost use Rattle.std.specs.Prelude.{◌≤◌, IfErr, IfOk, List, None, OnOk, Option, Some, length, take};
ghost use Rattle.std.specs.Duration.{as_nanos};
ghost use Rattle.std.specs.IoError.{error_kind};
ghost use Rattle.std.specs.Time.{instant_nanos};
ghost use Rattle.rtps_udp.specs.Calls.{Announces, Binds, Call, FailsToReceive, FailsToWait, Logs, ReadsClock, Receives, Sends, Waits, Withholds};

use crate::addresses::Purpose;
use rtps_types::Locator;
use std::io::{self, ErrorKind};
use std::net::{Ipv4Addr, SocketAddrV4};
use std::time::{Duration, Instant};

/// A link to a network, with a clock: what [`Sockets`](crate::Sockets) need of a machine. It has a
/// socket for each purpose, whose calls never wait, and closes them when it is dropped. Its ghost
/// `calls` are all calls so far that had an effect, if the link tells them.
pub trait Link: Drop {
    ghost calls: { Self → Option (List Call) };

    /// Binds the socket for a purpose to an address. From then on a wait ends where it has a
    /// datagram.
    fn bind(&mut self, purpose: Purpose, at: SocketAddrV4) -> io::Result<()>
        ensures bound { OnOk result (Logs (calls self.old) (calls self.new) (Binds purpose at)) };

    /// Receives the next datagram of a socket into the front of `room`, and returns its length. A
    /// datagram that is longer than the room is cut. The error is of the kind `WouldBlock` where
    /// none is there.
    fn receive(&mut self, purpose: Purpose, room: &mut [u8]) -> io::Result<usize>
        ensures fits { IfOk result (λ n. n ≤ length room.new) }
        ensures received { IfOk result (λ n. Logs (calls self.old) (calls self.new)
            (Receives purpose (take n room.new))) }
        ensures fault { IfErr result (λ e. Logs (calls self.old) (calls self.new)
            (FailsToReceive purpose (error_kind e))) };

    /// Sends a datagram to a locator, from a socket.
    fn send(&mut self, purpose: Purpose, to: Locator, octets: &[u8]) -> io::Result<()>
        ensures sent { OnOk result (Logs (calls self.old) (calls self.new)
            (Sends purpose to octets.now None)) }
        ensures fault { IfErr result (λ e. Logs (calls self.old) (calls self.new)
            (Sends purpose to octets.now (Some (error_kind e)))) };

    /// Sends an announcement to a locator, which may be a multicast group, from the socket for
    /// discovery.
    fn announce(&mut self, to: Locator, octets: &[u8]) -> io::Result<()>
        ensures sent { OnOk result (Logs (calls self.old) (calls self.new)
            (Announces to octets.now None)) }
        ensures fault { IfErr result (λ e. Logs (calls self.old) (calls self.new)
            (Announces to octets.now (Some (error_kind e)))) };

    /// Is told of a datagram that isn't sent, since the locator isn't answered from the address
    /// `bound`. This calls nothing.
    fn withhold(&mut self, bound: Ipv4Addr, to: Locator, octets: &[u8])
        ensures { Logs (calls self.old) (calls self.new) (Withholds bound to octets.now) };

    /// Learns of a fault of who uses the sockets, for example that it is out of memory, by which its
    /// work ends. This calls nothing.
    fn fail(&mut self, kind: ErrorKind)
        ensures { Logs (calls self.old) (calls self.new) (FailsToWait kind) };

    /// Waits until a bound socket has a datagram, but at most this time, and reads the clock then.
    fn wait(&mut self, within: Duration) -> io::Result<Instant>
        ensures waited { IfOk result (λ now. Logs (calls self.old) (calls self.new)
            (Waits (as_nanos within) (instant_nanos now))) }
        ensures fault { IfErr result (λ e. Logs (calls self.old) (calls self.new)
            (FailsToWait (error_kind e))) };

    /// Reads the clock.
    fn now(&mut self) -> io::Result<Instant>
        ensures read { IfOk result (λ now. Logs (calls self.old) (calls self.new)
            (ReadsClock (instant_nanos now))) }
        ensures fault { IfErr result (λ e. Logs (calls self.old) (calls self.new)
            (FailsToWait (error_kind e))) };
}
