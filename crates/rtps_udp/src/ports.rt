//! The two sockets of a participant.

ghost use Rattle.std.specs.Prelude.{◌≡◌, ◌≤◌, ◌≢◌, IfErr, IfOk, IfSome, None, OnOk, length, take};
ghost use Rattle.std.specs.Duration.{as_nanos};
ghost use Rattle.std.specs.IoError.{error_kind};
ghost use Rattle.std.specs.Time.{instant_nanos};
ghost use Rattle.std.specs.declared.io.ErrorKind.TheVariants.{WouldBlock};
ghost use Rattle.rtps_records.specs.Speech.{silence};
ghost use Rattle.rtps_udp.specs.Calls.{FailsToReceive, FailsToWait, Logs, Receives, Withholds, traffic_in};
ghost use Rattle.rtps_udp.specs.Faults.{IsBindFault};
ghost use Rattle.rtps_udp.specs.Ports.{BindsBoth, BindsOne, ReadsMoment, ReceivesFirst, SendsAnnouncement, SendsAnswer, WaitsUntil};

use crate::addresses::{Purpose, address_of};
use crate::binding::Binding;
use crate::fault::{SocketFault, bind_fault};
use crate::link::Link;
use crate::moments::millis_between;
use rtps_records::Receive;
use rtps_types::Locator;
use std::io::{self, ErrorKind};
use std::net::Ipv4Addr;
use std::time::{Duration, Instant};

/// Binds the socket of a participant that has this purpose.
fn bind_one<L: Link>(link: &mut L, binding: Binding, purpose: Purpose) -> Result<(), SocketFault>
    ensures bound { OnOk result (BindsOne binding purpose (L.calls link.old) (L.calls link.new)) }
    ensures fault { IfErr result IsBindFault }
{
    match link.bind(purpose, address_of(binding, purpose)) {
        Ok(()) => Ok(()),
        Err(e) => Err(bind_fault(purpose, e.kind())),
    }
}

/// Receives the next datagram that a socket has: its length, or `None` if the call would have to
/// wait, because all datagrams that came were received. Any other error is a fault of the socket.
fn receive_at<L: Link>(link: &mut L, purpose: Purpose, room: &mut [u8]) -> io::Result<Option<usize>>
    ensures fits { IfOk result (λ next. IfSome next (λ n. n ≤ length room.new)) }
    ensures some { IfOk result (λ next. IfSome next (λ n.
        Logs (L.calls link.old) (L.calls link.new)
        (Receives purpose (take n room.new)))) }
    ensures none { IfOk result (λ next. next ≡ None
        → Logs (L.calls link.old) (L.calls link.new)
        (FailsToReceive purpose WouldBlock)) }
    ensures fault { IfErr result (λ e. (error_kind e ≢ WouldBlock)
        × Logs (L.calls link.old) (L.calls link.new)
        (FailsToReceive purpose (error_kind e))) }
{
    match link.receive(purpose, room) {
        Ok(length) => Ok(Some(length)),
        Err(e) if e.kind() == ErrorKind::WouldBlock => Ok(None),
        Err(e) => Err(e),
    }
}

/// The two sockets of a participant, with the link that they belong to.
#[derive(Drop)]
pub(crate) struct Ports<L: Link> {
    /// Its socket for discovery receives the datagrams of discovery, and sends all answers and
    /// announcements; that for user data receives these.
    link: L,
    /// The time that milliseconds are counted from.
    start: Instant,
    /// The kind of the error of the last receive call that failed.
    failure: ErrorKind,
}

impl<L: Link> Ports<L> {
    /// Binds both sockets. At a fault none is left bound.
    pub(crate) fn bind(link: L, start: Instant, binding: Binding) -> Result<Ports<L>, SocketFault>
        ensures bound { IfOk result (λ ports.
            BindsBoth binding (L.calls link) (L.calls ports.link)) }
        ensures start { IfOk result (λ ports. ports.start ≡ start) }
        ensures fault { IfErr result IsBindFault }
    {
        let mut link = link;
        bind_one(&mut link, binding, Purpose::Metatraffic)?;
        bind_one(&mut link, binding, Purpose::UserData)?;
        Ok(Ports {
            link,
            start,
            failure: ErrorKind::Other,
        })
    }

    /// Sends an answer from the socket for discovery.
    #[tactic(auto, unfolding(crate::specs::Ports::SendsAnswer))]
    pub(crate) fn send(&mut self, to: Locator, octets: &[u8]) -> Result<(), SocketFault>
        ensures sent { SendsAnswer (L.calls self.old.link) (L.calls self.new.link)
            to octets.now result }
        ensures start { self.new.start ≡ self.old.start }
    {
        match self.link.send(Purpose::Metatraffic, to, octets) {
            Ok(()) => Ok(()),
            Err(e) => Err(SocketFault::Send(e.kind())),
        }
    }

    /// Sends an announcement from the socket for discovery.
    #[tactic(auto, unfolding(crate::specs::Ports::SendsAnnouncement))]
    pub(crate) fn announce(&mut self, to: Locator, octets: &[u8]) -> Result<(), SocketFault>
        ensures sent { SendsAnnouncement (L.calls self.old.link) (L.calls self.new.link)
            to octets.now result }
        ensures start { self.new.start ≡ self.old.start }
    {
        match self.link.announce(to, octets) {
            Ok(()) => Ok(()),
            Err(e) => Err(SocketFault::Send(e.kind())),
        }
    }

    /// Tells the link of a fault of who uses the sockets.
    pub(crate) fn fail(&mut self, kind: ErrorKind)
        ensures failed { Logs (L.calls self.old.link) (L.calls self.new.link) (FailsToWait kind) }
        ensures start { self.new.start ≡ self.old.start }
    {
        self.link.fail(kind);
    }

    /// Tells the link of an answer that isn't sent from the address `bound`.
    pub(crate) fn withhold(&mut self, bound: Ipv4Addr, to: Locator, octets: &[u8])
        ensures withheld { Logs (L.calls self.old.link) (L.calls self.new.link)
            (Withholds bound to octets.now) }
        ensures start { self.new.start ≡ self.old.start }
    {
        self.link.withhold(bound, to, octets);
    }

    /// Waits until a datagram has come, but at most this time, and returns the moment of the end,
    /// in milliseconds from the start.
    pub(crate) fn wait(&mut self, within: Duration) -> io::Result<u64>
        ensures waited { IfOk result (λ moment. WaitsUntil (as_nanos within)
            (instant_nanos self.old.start) moment
            (L.calls self.old.link) (L.calls self.new.link)) }
        ensures fault { IfErr result (λ e. Logs (L.calls self.old.link) (L.calls self.new.link)
            (FailsToWait (error_kind e))) }
        ensures start { self.new.start ≡ self.old.start }
    {
        Ok(millis_between(self.start, self.link.wait(within)?))
    }

    /// Reads the clock: returns the milliseconds from the start.
    pub(crate) fn moment(&mut self) -> io::Result<u64>
        ensures read { IfOk result (λ moment. ReadsMoment (instant_nanos self.old.start) moment
            (L.calls self.old.link) (L.calls self.new.link)) }
        ensures fault { IfErr result (λ e. Logs (L.calls self.old.link) (L.calls self.new.link)
            (FailsToWait (error_kind e))) }
        ensures start { self.new.start ≡ self.old.start }
    {
        Ok(millis_between(self.start, self.link.now()?))
    }

    /// Returns the kind of the error of the last receive call that failed.
    pub(crate) fn failure(&self) -> ErrorKind {
        self.failure
    }

    /// Receives the next datagram. The socket for user data is tried only if that for discovery has
    /// none left, so that a writer is known before its samples come.
    #[tactic(auto, unfolding(crate::specs::Ports::ReceivesFirst))]
    fn receive_first(&mut self, room: &mut [u8]) -> io::Result<Option<usize>>
        ensures fits { IfOk result (λ next. IfSome next (λ n. n ≤ length room.new)) }
        ensures receives { ReceivesFirst (L.calls self.old.link) (L.calls self.new.link)
            room.new result }
        ensures start { self.new.start ≡ self.old.start }
    {
        match receive_at(&mut self.link, Purpose::Metatraffic, room)? {
            Some(length) => Ok(Some(length)),
            None => receive_at(&mut self.link, Purpose::UserData, room),
        }
    }

    /// The same, and keeps the kind of an error.
    pub(crate) fn receive_next(&mut self, room: &mut [u8]) -> io::Result<Option<usize>>
        ensures fits { IfOk result (λ next. IfSome next (λ n. n ≤ length room.new)) }
        ensures receives { ReceivesFirst (L.calls self.old.link) (L.calls self.new.link)
            room.new result }
        ensures start { self.new.start ≡ self.old.start }
    {
        match self.receive_first(room) {
            Ok(next) => Ok(next),
            Err(e) => {
                self.failure = e.kind();
                Err(e)
            }
        }
    }
}

impl<L: Link> Receive for Ports<L> {
    ghost traffic = { λ ports. traffic_in (instant_nanos ports.start) (L.calls ports.link) };

    ghost speech = { λ _. silence };

    fn receive(&mut self, room: &mut [u8]) -> io::Result<Option<usize>> {
        self.receive_next(room)
    }
}
