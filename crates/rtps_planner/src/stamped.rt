//! The events of a datagram, with the moment at which it came.

use rtps_receiver::Event;

/// The events of one datagram, with its moment; or a moment at which no datagram came, a tick.
#[derive(Clone, Copy, Debug)]
pub struct Stamped<'a> {
    /// The moment, in milliseconds. Leases end by it (DDSI-RTPS 8.5.3.2).
    pub moment: u64,
    /// The index of the datagram; for a tick, that of the next datagram.
    pub index: u64,
    /// The events of the datagram, in order; none for a tick.
    pub events: &'a [Event<'a>],
}
