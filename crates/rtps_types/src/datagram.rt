//! A datagram, with the moment at which it came.

/// The payload of a UDP datagram, which is one RTPS message (DDSI-RTPS 8.3.3, 9.6.1), and the
/// moment at which it came. Leases end by these moments (DDSI-RTPS 8.5.3.2), and by no clock.
#[derive(Clone, Copy, Debug)]
pub struct Datagram<'a> {
    /// In milliseconds, from a start that all moments of a run have in common.
    pub moment: u64,
    /// The octets of the message.
    pub bytes: &'a [u8],
}
