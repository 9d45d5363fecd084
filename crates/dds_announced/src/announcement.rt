//! A datagram that is to be sent.

use rtps_announcer::Destination;
use rtps_types::Octets;

/// A datagram by which our participant announces itself or a reader of ours, and to whom it is to
/// be sent.
#[derive(Debug, Drop)]
pub struct Announcement {
    /// Everyone who listens where participants are announced, or one participant, at its locators.
    pub to: Destination,
    /// The whole payload of a UDP datagram.
    pub octets: Octets,
}
