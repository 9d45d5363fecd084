//! A buffer for the records of a batch.

ghost use Rattle.std.specs.Prelude.{◌≡◌, ◌≤◌, [], IsSome, map, sum, vec_len};

use crate::piece::Piece;
use std::alloc::{Allocator, Global};

/// The greatest length of a datagram, in octets: that of a UDP payload over IPv4.
pub const MAX_LEN: usize = 65_507;

/// The number of octets of datagrams that a batch has room for.
pub(crate) const ROOM: usize = 1_048_576;

/// A buffer for the records of a batch, and the records in it: datagrams, or one tick. It grows up
/// to 1 MiB as records need it. It is filled from a file by [`Records`](crate::Records), or from a
/// network:
///
/// ```text
/// let mut batch = Batch::new(alloc)?;
/// // Again and again, with the same batch:
/// let moment = network.wait()?;
/// if batch.receive(&mut network, moment, 256)? == ReceiveEnd::Fault {
///     bail!("no datagram can be received");
/// }
/// let datagrams = batch.datagrams(alloc)?;
/// let outcome = participant.run_batch(&rt, alloc, &NoGate, &datagrams, 2)?;
/// ```
#[derive(Drop)]
pub struct Batch<A: Allocator = Global> {
    /// The octets of the datagrams, one datagram after the other, followed by free room.
    pub(crate) octets: Vec<u8, A>,
    /// The datagrams.
    pub(crate) pieces: Vec<Piece, A>,
    /// The number of octets of all datagrams.
    pub(crate) used: usize,
    /// The moment of the tick, in milliseconds, if the batch is one.
    pub(crate) tick: Option<u64>,
    ghost room: { vec_len octets ≤ 1048576 },
    ghost counted: { used ≡ sum (map (λ p. p.length) pieces.items) },
    ghost within: { used ≤ vec_len octets },
    ghost alone: { IsSome tick → pieces.items ≡ [] },
}
