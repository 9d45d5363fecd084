//! The outcome of each submessage of a datagram: an event, or why it gives none.

use crate::event::Event;
use rtps_types::Place;
use rtps_wire::Submessage;

/// Why a valid submessage gives no event. If several apply, the first in this order is given.
#[derive(Clone, Copy, Debug, PartialEq, Eq)]
pub enum Reason {
    /// Its kind is none of the five that readers handle: DATA, DATA_FRAG, HEARTBEAT, GAP,
    /// HEARTBEAT_FRAG.
    NotForReaders,
    /// Its destination is another participant (DDSI-RTPS 8.3.7.7).
    OtherDestination,
    /// It names a number above 2^62.
    NumberTooGreat,
}

/// A valid submessage, with its event or the reason why it gives none.
#[derive(Clone, Copy, Debug)]
pub struct Outcome<'a> {
    /// Its place in the run.
    pub place: Place,
    pub submessage: Submessage<'a>,
    pub event: Result<Event<'a>, Reason>,
}
