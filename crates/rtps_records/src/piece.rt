//! A datagram of a batch.

ghost use Rattle.std.specs.Prelude.{◌≤◌};

/// A datagram of a batch, but for its octets.
#[derive(Clone, Copy)]
pub(crate) struct Piece {
    /// The moment at which it came, in milliseconds.
    pub moment: u64,
    /// Its length in octets.
    pub length: usize,
    ghost fits: { length ≤ 65507 },
}
