//! The results of an engine.

ghost use Rattle.std.specs.Prelude.{◌^◌, ◌≤◌, vec_len};

use rtps_reader::Notice;
use rtps_types::{Locators, Octets, Place};
use std::alloc::{Allocator, Global};

/// An answer: a datagram that the owner of the sockets has to send.
#[derive(Debug, Drop)]
pub struct Answer<A: Allocator = Global> {
    /// The place of the event that it answers, which is a HEARTBEAT or a HEARTBEAT_FRAG. Nothing
    /// else is answered.
    pub place: Place,
    /// The rank of the reader that sends it, or `None` where discovery does.
    pub rank: Option<u32>,
    /// The locators that it is sent to.
    pub to: Locators<A>,
    /// The whole datagram, from `RTPS` on.
    pub octets: Octets<A>,
}

/// The result of a datagram, of a batch, of a tick, or of a reader of ours that comes or goes. Only
/// datagrams give answers.
#[derive(Debug, Drop)]
pub struct Outcome<V, A: Allocator = Global> {
    /// A list for each rank that was given so far, which is its index here: the notices of the
    /// reader of that rank, in the order of their causes. It is empty where the reader has nothing
    /// to report or went before, or where an outlet of a participant gets its notices.
    pub notices: Vec<Vec<Notice<V>, A>, A>,
    /// The answers of discovery and of all readers in one list: by place; at one place discovery's
    /// before those of readers, and these by rank.
    pub answers: Vec<Answer<A>, A>,
    /// Ranks have 32 bits.
    ghost ranked: { vec_len notices ≤ 2 ^ 32 },
}

/// One item of the result of an input or a batch, for callers that want all items in one order:
/// by place, then by rank, and for one reader its notices before its answer.
#[derive(Debug, Drop)]
pub enum Report<V, A: Allocator = Global> {
    /// A notice of the reader of this rank.
    Notice { rank: u32, notice: Notice<V> },
    /// An answer to send.
    Answer(Answer<A>),
}
