//! A record as it is read.

use crate::piece::Piece;

/// A record as it is read: all of it but the octets of a datagram.
#[derive(Clone, Copy)]
pub(crate) enum Head {
    /// A datagram.
    Datagram(Piece),
    /// A tick at this moment, in milliseconds.
    Tick(u64),
}
