//! What a participant counts of the batches that it takes.

use rtps_planner::PassedOver;
use rtps_receiver::Counters;

/// What is counted of the datagrams of the batches taken.
#[derive(Clone, Copy)]
pub(crate) struct Counted {
    /// What was received, by datagram and by submessage.
    pub received: Counters,
    /// What of it came to nothing.
    pub passed: PassedOver,
}
