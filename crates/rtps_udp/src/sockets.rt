//! The sockets of a participant on this machine.

ghost use Rattle.std.specs.Prelude.{◌≡◌, ◌≢◌, ◌*◌, ◌≤◌, ◌∷◌, [], Err, IfErr, IfOk, IfSome, None, OnErr, OnOk, false, length, take, true};
ghost use Rattle.std.specs.Duration.{as_nanos};
ghost use Rattle.std.specs.Net.Addr.{ipv4_octets};
ghost use Rattle.std.specs.Time.{instant_nanos};
ghost use Rattle.rtps_records.specs.Batches.{IsFull, records_in};
ghost use Rattle.rtps_records.specs.Traffic.{Exhausted, Failed, Grows, Passed, Received, Waited};
ghost use Rattle.rtps_records.specs.Speech.{silence};
ghost use Rattle.rtps_udp.specs.Addresses.{is_answered as is_answered_by, is_bindable as is_bindable_at, last_index as last_index_of, localhost, port_of};
ghost use Rattle.rtps_udp.specs.Calls.{AnnouncesNothing, FailsToWait, Logs, Withholds, traffic_in};
ghost use Rattle.rtps_udp.specs.Faults.{IsBindFault, IsReceiveFault};
ghost use Rattle.rtps_udp.specs.Ports.{BindsBoth, ReadsMoment, SendsAnnouncement, SendsAnswer, WaitsUntil};
ghost use Rattle.rtps_udp.specs.Receiving.{Fills, HoldsAll, Takes, TakesLater};

use crate::addresses::{Purpose, address_of, is_answered, is_bindable};
use crate::binding::{Binding, last_index};
use crate::fault::{SocketFault, other_fault};
use crate::link::Link;
use crate::machine::Machine;
use crate::ports::Ports;
use rtps_records::{Batch, Exchange, Receive, ReceiveEnd};
use rtps_types::Locator;
use std::alloc::Global;
use std::io::{self, ErrorKind};
use std::net::{Ipv4Addr, Net};
use std::time::{Clock, Duration, Instant};

/// The most datagrams of a batch: those that a participant takes at a time.
const MOST: u16 = 4_096;

/// The longest time of one wait: long enough that waiting costs next to nothing while nobody sends.
fn turn() -> Duration
    ensures { as_nanos result ≡ 100 * 1000000 }
{
    Duration::from_millis(100)
}

/// The two sockets of a participant, with a clock.
///
/// A turn of a receiver: it waits at most a tenth of a second, has the time pass, processes what
/// has come, sends the answers, and puts what its reader reports into a cache.
///
/// ```
/// let mut sockets = Sockets::bind(&rt, &rt, alloc, 0)?;
/// let mut batch = Batch::new(alloc)?;
/// let moment = sockets.receive_batch(&mut batch, Duration::from_millis(100))?;
/// // The matches that end as time passes. A tick gives no answers.
/// let ended = participant.tick(alloc, moment)?;
/// for notice in ended.notices.into_iter().flatten() {
///     cache.accept(alloc, notice).map_err(AllocError::from)?;
/// }
/// let datagrams = batch.datagrams(alloc)?;
/// let outcome = participant.run_batch(&rt, alloc, &NoGate, &datagrams, 4)?;
/// for answer in &outcome.answers {
///     for to in answer.to.as_slice() {
///         match sockets.send_answer(*to, answer.octets.as_slice()) {
///             // What a network loses is asked for again.
///             Ok(()) | Err(SocketFault::NotAnswered) | Err(SocketFault::Send(_)) => {}
///             Err(fault) => return Err(fault.into()),
///         }
///     }
/// }
/// for notice in outcome.notices.into_iter().flatten() {
///     cache.accept(alloc, notice).map_err(AllocError::from)?;
/// }
/// ```
#[derive(Drop)]
pub struct Sockets<L: Link> {
    ports: Ports<L>,
    /// Where both sockets are bound.
    binding: Binding,
    /// The moment at which the clock was read last, in milliseconds; 0 before that.
    moment: u64,
}

impl<'a, N: Net, K: Clock> Sockets<Machine<'a, N, K>> {
    /// Binds the sockets of the first participant of a domain, 0 to 232, on the loopback interface,
    /// 127.0.0.1, so that no other machine reaches it, and starts to count milliseconds by the
    /// clock.
    ///
    /// The faults are those of [`Sockets::bind_at`]. `ForeignAddress` comes only where this machine
    /// doesn't have the address 127.0.0.1, for example because its loopback interface is down.
    pub fn bind(
        net: &'a N,
        clock: &'a K,
        alloc: Global,
        domain: u16,
    ) -> Result<Sockets<Machine<'a, N, K>>, SocketFault>
        requires { domain ≤ 232 }
        ensures domain { IfOk result (λ sockets. sockets.binding.domain ≡ domain) }
        ensures participant { IfOk result (λ sockets. sockets.binding.participant ≡ 0) }
        ensures address { IfOk result (λ sockets. sockets.binding.address ≡ localhost) }
        ensures fault { IfErr result IsBindFault }
    {
        Sockets::bind_at(net, clock, alloc, Binding::loopback(domain))
    }

    /// Binds the sockets of a participant at an address of this machine, or by 0.0.0.0 at all of
    /// them, and starts to count milliseconds by the clock. The ports are the default ones of the
    /// UDP mapping (DDSI-RTPS 9.6.1.1). No multicast group is joined.
    ///
    /// The faults, in the order in which they are found: `ForeignAddress` for a multicast or the
    /// broadcast address, or one of 0.0.0.0/8 other than 0.0.0.0; `Clock` if the clock can't be
    /// read; for the socket of discovery and then for that of user data `DiscoveryPortTaken` or
    /// `UserPortTaken` if another socket has its port, `ForeignAddress` if the address isn't one of
    /// this machine, and `Bind` for any other error of the system. `NoMemory` may come instead.
    pub fn bind_at(
        net: &'a N,
        clock: &'a K,
        alloc: Global,
        binding: Binding,
    ) -> Result<Sockets<Machine<'a, N, K>>, SocketFault>
        ensures bound { IfOk result (λ sockets. sockets.binding ≡ binding) }
        ensures foreign { is_bindable_at (ipv4_octets binding.address) ≡ false
            → result ≡ Err SocketFault.ForeignAddress }
        ensures fault { IfErr result IsBindFault }
    {
        if !is_bindable(binding.address) {
            return Err(SocketFault::ForeignAddress);
        }
        let start = match Instant::now(clock) {
            Ok(start) => start,
            Err(e) => return Err(SocketFault::Clock(e.kind())),
        };
        match Machine::new(net, clock, alloc) {
            Ok(machine) => Sockets::over(machine, start, binding),
            Err(e) => Err(other_fault(e.kind())),
        }
    }

    /// Binds the sockets of the first participant of a domain, 0 to 232, whose two ports are free at
    /// an address of this machine, or by 0.0.0.0 at all of them: the indices 0, 1, .. are tried, up
    /// to 119, and up to 62 in domain 232. Milliseconds are counted from the bind that succeeds.
    ///
    /// The faults are those of [`Sockets::bind_at`]: where no index is free, that of the last one,
    /// and each fault other than that a port is taken at once. Nothing that was bound for an index
    /// without success is left bound.
    pub fn bind_first(
        net: &'a N,
        clock: &'a K,
        alloc: Global,
        domain: u16,
        address: Ipv4Addr,
    ) -> Result<Sockets<Machine<'a, N, K>>, SocketFault>
        requires { domain ≤ 232 }
        ensures domain { IfOk result (λ sockets. sockets.binding.domain ≡ domain) }
        ensures participant { IfOk result (λ sockets.
            sockets.binding.participant ≤ last_index_of domain) }
        ensures address { IfOk result (λ sockets. sockets.binding.address ≡ address) }
        ensures foreign { is_bindable_at (ipv4_octets address) ≡ false
            → result ≡ Err SocketFault.ForeignAddress }
        ensures fault { IfErr result IsBindFault }
    {
        let last = last_index(domain);
        for participant in 0..last {
            let binding = Binding {
                domain,
                participant,
                address,
            };
            match Sockets::bind_at(net, clock, alloc, binding) {
                Err(SocketFault::DiscoveryPortTaken | SocketFault::UserPortTaken) => {}
                bound => return bound,
            }
        }
        let binding = Binding {
            domain,
            participant: last,
            address,
        };
        Sockets::bind_at(net, clock, alloc, binding)
    }
}

impl<L: Link> Sockets<L> {
    /// Binds the sockets of a participant over a link of one's own, for example one that keeps what
    /// is sent. Moments are counted from `start`, a time of the link's clock.
    ///
    /// The faults are those of [`Sockets::bind_at`] without `Clock`. Then no socket is left bound.
    pub fn over(link: L, start: Instant, binding: Binding) -> Result<Sockets<L>, SocketFault>
        ensures bound { IfOk result (λ sockets. sockets.binding ≡ binding) }
        ensures binds { IfOk result (λ sockets.
            BindsBoth binding (L.calls link) (L.calls sockets.ports.link)) }
        ensures start { IfOk result (λ sockets. sockets.ports.start ≡ start) }
        ensures foreign { is_bindable_at (ipv4_octets binding.address) ≡ false
            → result ≡ Err SocketFault.ForeignAddress }
        ensures fault { IfErr result IsBindFault }
    {
        if !is_bindable(binding.address) {
            return Err(SocketFault::ForeignAddress);
        }
        Ok(Sockets {
            ports: Ports::bind(link, start, binding)?,
            binding,
            moment: 0,
        })
    }

    /// Returns the address that the sockets are bound to.
    pub fn address(&self) -> Ipv4Addr
        ensures { result ≡ self.now.binding.address }
    {
        self.binding.address
    }

    /// Replaces the records of the batch by the datagrams that have come, at most 4,096 of them and
    /// as far as the batch has room, and returns their moment: the milliseconds from the bind, by
    /// the clock. If none has come it waits for one, but at most the time `within`; if none comes
    /// in that time the batch is empty. The datagrams of discovery come first, so that a writer is
    /// known before its samples come. What the batch has no room for is received by the next call,
    /// which doesn't wait then.
    ///
    /// `Clock` if the clock can't be read, `Receive` if no datagram can be waited for or received,
    /// `NoMemory` if a growth of the batch is refused. The datagrams that were received until then
    /// are in the batch, and no other one was received.
    pub fn receive_batch(&mut self, batch: &mut Batch, within: Duration) -> Result<u64, SocketFault>
        ensures moment { IfOk result (λ moment. moment ≡ self.new.moment) }
        ensures takes { IfOk result (λ moment. Takes (as_nanos within)
            (instant_nanos self.old.ports.start) (L.calls self.old.ports.link)
            (traffic_in (instant_nanos self.new.ports.start) (L.calls self.new.ports.link))
            moment (records_in batch.new) (IsFull 4096 batch.new)) }
        ensures holds { HoldsAll
            (traffic_in (instant_nanos self.old.ports.start) (L.calls self.old.ports.link))
            (traffic_in (instant_nanos self.new.ports.start) (L.calls self.new.ports.link))
            self.new.moment (records_in batch.new) }
        ensures few { length (records_in batch.new) ≤ 4096 }
        ensures same { self.new.binding ≡ self.old.binding }
        ensures fault { IfErr result IsReceiveFault }
    {
        batch.clear();
        self.read_clock()?;
        match self.fill(batch)? {
            ReceiveEnd::Drained => {
                if batch.is_empty() {
                    return self.receive_later(batch, within);
                }
                Ok(self.moment)
            }
            _ => Ok(self.moment),
        }
    }

    /// Replaces the records of a batch that has none by the datagrams that have come at the end of a
    /// wait.
    fn receive_later(&mut self, batch: &mut Batch, within: Duration) -> Result<u64, SocketFault>
        requires { records_in batch.old ≡ [] }
        ensures moment { IfOk result (λ moment. moment ≡ self.new.moment) }
        ensures takes { IfOk result (λ moment. TakesLater (as_nanos within)
            (instant_nanos self.old.ports.start) (L.calls self.old.ports.link)
            (traffic_in (instant_nanos self.new.ports.start) (L.calls self.new.ports.link))
            moment (records_in batch.new) (IsFull 4096 batch.new)) }
        ensures holds { HoldsAll
            (traffic_in (instant_nanos self.old.ports.start) (L.calls self.old.ports.link))
            (traffic_in (instant_nanos self.new.ports.start) (L.calls self.new.ports.link))
            self.new.moment (records_in batch.new) }
        ensures few { length (records_in batch.new) ≤ 4096 }
        ensures same { self.new.binding ≡ self.old.binding }
        ensures fault { IfErr result IsReceiveFault }
    {
        self.wait_for(within)?;
        self.fill(batch)?;
        Ok(self.moment)
    }

    /// Sends an answer to a locator, from the socket for discovery. That it is sent doesn't say
    /// that it arrives.
    ///
    /// `NotAnswered` for a locator that no answer is sent to, whatever a peer claims: from sockets
    /// on loopback (127.0.0.0/8) one that isn't on loopback too; from others a multicast address
    /// (224.0.0.0/4), the broadcast address 255.255.255.255, or one of 0.0.0.0/8. `Send` if the
    /// system refuses it, for example where there is no way to that network.
    pub fn send_answer(&mut self, to: Locator, octets: &[u8]) -> Result<(), SocketFault>
        ensures refused { is_answered_by (ipv4_octets self.old.binding.address) to ≡ false
            → (result ≡ Err SocketFault.NotAnswered)
            × Logs (L.calls self.old.ports.link) (L.calls self.new.ports.link)
            (Withholds self.old.binding.address to octets.now) }
        ensures sent { is_answered_by (ipv4_octets self.old.binding.address) to ≡ true
            → SendsAnswer (L.calls self.old.ports.link) (L.calls self.new.ports.link)
            to octets.now result }
        ensures same { self.new.binding ≡ self.old.binding }
        ensures moment { self.new.moment ≡ self.old.moment }
        ensures start { self.new.ports.start ≡ self.old.ports.start }
    {
        if !is_answered(self.binding.address, to) {
            self.ports.withhold(self.binding.address, to, octets);
            return Err(SocketFault::NotAnswered);
        }
        self.ports.send(to, octets)
    }

    /// Sends an announcement to a locator of one's own choice, which may be that of a multicast
    /// group, from the socket for discovery. To a group it goes no further than the network of this
    /// machine. That it is sent doesn't say that it arrives.
    ///
    /// `Send` if the system refuses it, for example where there is no way to that network.
    pub fn announce(&mut self, to: Locator, octets: &[u8]) -> Result<(), SocketFault>
        ensures sent { SendsAnnouncement (L.calls self.old.ports.link)
            (L.calls self.new.ports.link) to octets.now result }
        ensures same { self.new.binding ≡ self.old.binding }
        ensures moment { self.new.moment ≡ self.old.moment }
        ensures start { self.new.ports.start ≡ self.old.ports.start }
    {
        self.ports.announce(to, octets)
    }

    /// Sends an announcement to a locator that a peer named, from the socket for discovery.
    ///
    /// `NotAnswered` for a locator that no answer is sent to either, as
    /// [`Sockets::send_answer`] says, so for each multicast group; then nothing is called. `Send`
    /// if the system refuses it.
    pub fn announce_to_peer(&mut self, to: Locator, octets: &[u8]) -> Result<(), SocketFault>
        ensures refused { is_answered_by (ipv4_octets self.old.binding.address) to ≡ false
            → (result ≡ Err SocketFault.NotAnswered) × (self.new ≡ self.old) }
        ensures sent { is_answered_by (ipv4_octets self.old.binding.address) to ≡ true
            → SendsAnnouncement (L.calls self.old.ports.link) (L.calls self.new.ports.link)
            to octets.now result }
        ensures same { self.new.binding ≡ self.old.binding }
        ensures moment { self.new.moment ≡ self.old.moment }
        ensures start { self.new.ports.start ≡ self.old.ports.start }
    {
        if is_answered(self.binding.address, to) {
            self.announce(to, octets)
        } else {
            Err(SocketFault::NotAnswered)
        }
    }

    /// Learns of a fault of who uses the sockets, for example that it is out of memory, by which its
    /// work ends. To a network this is a failure, as one of the sockets would be. Nothing is called.
    pub fn give_up(&mut self, kind: ErrorKind)
        ensures failed { Logs (L.calls self.old.ports.link) (L.calls self.new.ports.link)
            (FailsToWait kind) }
        ensures same { self.new.binding ≡ self.old.binding }
        ensures moment { self.new.moment ≡ self.old.moment }
        ensures start { self.new.ports.start ≡ self.old.ports.start }
    {
        self.ports.fail(kind);
    }

    /// Receives the next datagram, as [`Receive::receive`] does, and announces nothing.
    pub fn receive_next(&mut self, room: &mut [u8]) -> io::Result<Option<usize>>
        ensures fits { IfOk result (λ next. IfSome next (λ n. n ≤ length room.new)) }
        ensures some { IfOk result (λ next. IfSome next (λ n. Grows
            (traffic_in (instant_nanos self.old.ports.start) (L.calls self.old.ports.link))
            (traffic_in (instant_nanos self.new.ports.start) (L.calls self.new.ports.link))
            (Received (take n room.new) ∷ []))) }
        ensures none { IfOk result (λ next. next ≡ None → Grows
            (traffic_in (instant_nanos self.old.ports.start) (L.calls self.old.ports.link))
            (traffic_in (instant_nanos self.new.ports.start) (L.calls self.new.ports.link))
            (Exhausted ∷ [])) }
        ensures fault { OnErr result (Grows
            (traffic_in (instant_nanos self.old.ports.start) (L.calls self.old.ports.link))
            (traffic_in (instant_nanos self.new.ports.start) (L.calls self.new.ports.link))
            (Failed ∷ [])) }
        ensures quiet { AnnouncesNothing (L.calls self.old.ports.link)
            (L.calls self.new.ports.link) }
        ensures same { self.new.binding ≡ self.old.binding }
        ensures moment { self.new.moment ≡ self.old.moment }
        ensures start { self.new.ports.start ≡ self.old.ports.start }
    {
        self.ports.receive_next(room)
    }

    /// Waits for a turn, at most a tenth of a second, as [`Exchange::wait`] does, and announces
    /// nothing. A clock that can't be read is an error too.
    pub fn wait_turn(&mut self) -> io::Result<u64>
        ensures waited { IfOk result (λ moment. Grows
            (traffic_in (instant_nanos self.old.ports.start) (L.calls self.old.ports.link))
            (traffic_in (instant_nanos self.new.ports.start) (L.calls self.new.ports.link))
            (Waited ∷ Passed moment ∷ [])) }
        ensures fault { OnErr result (Grows
            (traffic_in (instant_nanos self.old.ports.start) (L.calls self.old.ports.link))
            (traffic_in (instant_nanos self.new.ports.start) (L.calls self.new.ports.link))
            (Failed ∷ [])) }
        ensures moment { IfOk result (λ moment. self.new.moment ≡ moment) }
        ensures stays { OnErr result (self.new.moment ≡ self.old.moment) }
        ensures quiet { AnnouncesNothing (L.calls self.old.ports.link)
            (L.calls self.new.ports.link) }
        ensures same { self.new.binding ≡ self.old.binding }
        ensures start { self.new.ports.start ≡ self.old.ports.start }
    {
        let moment = self.ports.wait(turn())?;
        self.moment = moment;
        Ok(moment)
    }

    /// Returns where the sockets are bound.
    pub fn binding(&self) -> Binding
        ensures { result ≡ self.now.binding }
    {
        self.binding
    }

    /// Returns the locator of the socket with this purpose: the address of the binding and its
    /// default port (DDSI-RTPS 9.6.1.1).
    pub fn locator(&self, purpose: Purpose) -> Locator
        ensures address { result.address ≡ ipv4_octets self.now.binding.address }
        ensures port { result.port
            ≡ port_of self.now.binding.domain self.now.binding.participant purpose }
    {
        Locator {
            port: address_of(self.binding, purpose).port(),
            address: self.binding.address.octets(),
        }
    }

    /// Waits until a datagram has come, but at most this time.
    fn wait_for(&mut self, within: Duration) -> Result<(), SocketFault>
        ensures waited { OnOk result (WaitsUntil (as_nanos within)
            (instant_nanos self.old.ports.start) self.new.moment
            (L.calls self.old.ports.link) (L.calls self.new.ports.link)) }
        ensures failed { OnErr result (HoldsAll
            (traffic_in (instant_nanos self.old.ports.start) (L.calls self.old.ports.link))
            (traffic_in (instant_nanos self.new.ports.start) (L.calls self.new.ports.link))
            self.new.moment []) }
        ensures start { self.new.ports.start ≡ self.old.ports.start }
        ensures same { self.new.binding ≡ self.old.binding }
        ensures fault { IfErr result IsReceiveFault }
    {
        match self.ports.wait(within) {
            Ok(moment) => {
                self.moment = moment;
                Ok(())
            }
            Err(e) => Err(SocketFault::Receive(e.kind())),
        }
    }

    /// Reads the clock.
    fn read_clock(&mut self) -> Result<(), SocketFault>
        ensures read { OnOk result (ReadsMoment
            (instant_nanos self.old.ports.start) self.new.moment
            (L.calls self.old.ports.link) (L.calls self.new.ports.link)) }
        ensures failed { OnErr result (HoldsAll
            (traffic_in (instant_nanos self.old.ports.start) (L.calls self.old.ports.link))
            (traffic_in (instant_nanos self.new.ports.start) (L.calls self.new.ports.link))
            self.new.moment []) }
        ensures start { self.new.ports.start ≡ self.old.ports.start }
        ensures same { self.new.binding ≡ self.old.binding }
        ensures fault { IfErr result IsReceiveFault }
    {
        match self.ports.moment() {
            Ok(moment) => {
                self.moment = moment;
                Ok(())
            }
            Err(e) => Err(SocketFault::Clock(e.kind())),
        }
    }

    /// Replaces the records of the batch by the datagrams that have come, without waiting.
    fn fill(&mut self, batch: &mut Batch) -> Result<ReceiveEnd, SocketFault>
        ensures fills { IfOk result (λ end. Fills end
            (traffic_in (instant_nanos self.old.ports.start) (L.calls self.old.ports.link))
            (traffic_in (instant_nanos self.new.ports.start) (L.calls self.new.ports.link))
            self.old.moment (records_in batch.new) (IsFull 4096 batch.new)) }
        ensures holds { HoldsAll
            (traffic_in (instant_nanos self.old.ports.start) (L.calls self.old.ports.link))
            (traffic_in (instant_nanos self.new.ports.start) (L.calls self.new.ports.link))
            self.old.moment (records_in batch.new) }
        ensures few { length (records_in batch.new) ≤ 4096 }
        ensures moment { self.new.moment ≡ self.old.moment }
        ensures same { self.new.binding ≡ self.old.binding }
        ensures fault { IfErr result IsReceiveFault }
    {
        match batch.receive(&mut self.ports, self.moment, MOST) {
            Ok(ReceiveEnd::Fault) => Err(SocketFault::Receive(self.ports.failure())),
            Ok(end) => Ok(end),
            Err(_) => Err(SocketFault::NoMemory),
        }
    }
}

impl<L: Link> Receive for Sockets<L> {
    ghost traffic = { λ sockets.
        traffic_in (instant_nanos sockets.ports.start) (L.calls sockets.ports.link) };

    ghost speech = { λ _. silence };

    /// Discovery's datagrams come first, so that a writer is known before its samples come.
    fn receive(&mut self, room: &mut [u8]) -> io::Result<Option<usize>> {
        self.receive_next(room)
    }
}

impl<L: Link> Exchange for Sockets<L> {
    /// Waits at most a tenth of a second. A clock that can't be read is an error too.
    fn wait(&mut self) -> io::Result<u64> {
        self.wait_turn()
    }

    /// As [`Sockets::send_answer`] sends it, but a fault isn't reported.
    fn send(&mut self, to: Locator, octets: &[u8]) {
        let _sent = self.send_answer(to, octets);
    }
}
