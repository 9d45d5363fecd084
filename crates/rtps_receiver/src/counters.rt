//! What is counted of the datagrams that a participant receives.

ghost use Rattle.std.specs.Prelude.{◌≡◌};
ghost use Rattle.std.specs.Result.{result_map_both};
ghost use Rattle.rtps_receiver.specs.Counters.{begun, ended, more, none_counted, noted, plus, refused};
ghost use Rattle.rtps_receiver.specs.Events.{view};

use crate::event::Event;
use crate::outcome::Reason;
use rtps_wire::{HeaderFault, SubmessageFault};

/// How many datagrams and submessages were received, and how many were passed over, by reason. Each
/// counter stops at 2^64 - 1.
///
/// A datagram counts once among `datagrams`, and if it isn't read to its end, once by the reason.
/// Each submessage before that counts once: as an event, or by the reason why it gives none.
#[derive(Clone, Copy, Debug, Default, PartialEq, Eq)]
pub struct Counters {
    /// All datagrams.
    pub datagrams: u64,
    /// Datagrams of fewer than 20 octets, which are no message (DDSI-RTPS 8.3.3).
    pub short: u64,
    /// Datagrams that don't begin with `RTPS`.
    pub not_rtps: u64,
    /// Datagrams of another major version than 2.
    pub other_version: u64,
    /// Datagrams that end within the header of a submessage (8.3.4.1).
    pub cut_headers: u64,
    /// Datagrams that end before a submessage does.
    pub past_end: u64,
    /// Datagrams with a submessage whose body is invalid for its kind.
    pub invalid: u64,
    /// Submessages that gave an event.
    pub events: u64,
    /// Submessages of a kind that readers don't handle.
    pub not_for_readers: u64,
    /// Submessages for another participant.
    pub other_destination: u64,
    /// Submessages that name a number above 2^62.
    pub number_too_great: u64,
}

/// Returns a count after one more. It stops at 2^64 - 1.
fn more(count: u64) -> u64
    ensures { result ≡ more count }
{
    count.saturating_add(1)
}

impl Counters {
    /// The counters before any datagram: all are 0.
    pub fn new() -> Counters
        ensures { result ≡ none_counted }
    {
        Counters::default()
    }

    /// Adds what other datagrams counted. Each sum stops at 2^64 - 1.
    pub fn add(&mut self, other: &Counters)
        ensures { self.new ≡ plus self.old other.now }
    {
        self.datagrams = self.datagrams.saturating_add(other.datagrams);
        self.short = self.short.saturating_add(other.short);
        self.not_rtps = self.not_rtps.saturating_add(other.not_rtps);
        self.other_version = self.other_version.saturating_add(other.other_version);
        self.cut_headers = self.cut_headers.saturating_add(other.cut_headers);
        self.past_end = self.past_end.saturating_add(other.past_end);
        self.invalid = self.invalid.saturating_add(other.invalid);
        self.events = self.events.saturating_add(other.events);
        self.not_for_readers = self.not_for_readers.saturating_add(other.not_for_readers);
        self.other_destination = self
            .other_destination
            .saturating_add(other.other_destination);
        self.number_too_great = self.number_too_great.saturating_add(other.number_too_great);
    }

    /// Counts a datagram.
    pub fn begin(&mut self)
        ensures { self.new ≡ begun self.old }
    {
        self.datagrams = more(self.datagrams);
    }

    /// Counts a submessage.
    pub fn note(&mut self, event: &Result<Event<'_>, Reason>)
        ensures { self.new ≡ noted (result_map_both view (λ r. r) event.now) self.old }
    {
        match event {
            Ok(_) => self.events = more(self.events),
            Err(Reason::NotForReaders) => self.not_for_readers = more(self.not_for_readers),
            Err(Reason::OtherDestination) => self.other_destination = more(self.other_destination),
            Err(Reason::NumberTooGreat) => self.number_too_great = more(self.number_too_great),
        }
    }

    /// Counts why the reading of a datagram ended, if that was a fault.
    pub fn end(&mut self, fault: Option<SubmessageFault>)
        ensures { self.new ≡ ended fault self.old }
    {
        match fault {
            None => {}
            Some(SubmessageFault::Rest) => self.cut_headers = more(self.cut_headers),
            Some(SubmessageFault::Length) => self.past_end = more(self.past_end),
            Some(SubmessageFault::Invalid) => self.invalid = more(self.invalid),
        }
    }

    /// Counts a datagram that is no message.
    pub fn refuse(&mut self, fault: HeaderFault)
        ensures { self.new ≡ refused fault self.old }
    {
        match fault {
            HeaderFault::Short => self.short = more(self.short),
            HeaderFault::NotRtps => self.not_rtps = more(self.not_rtps),
            HeaderFault::Version => self.other_version = more(self.other_version),
        }
    }
}
