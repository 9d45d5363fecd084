//! What a participant announces of itself and of its readers, as octets (DDSI-RTPS 8.5.3, 8.5.4,
//! 9.6.3): each function returns one datagram, with one submessage, to one participant or to
//! everyone. To whom what is said, and when, is decided elsewhere.
//!
//! Proved: the octets of each datagram are exactly those of its definition in `specs/`; and
//! ([`laws`]) they are exactly one message by the grammar, in which a receiver finds what was
//! meant: a participant with its places, its lease and its builtin endpoints; a reader with its
//! topic, its type, all of its policies and its partitions; the end of either; the numbers that
//! don't concern a peer; the numbers that there are. It is the receiving half's own reading of
//! discovery by which this is said. A reader whose record no datagram carries is refused by name,
//! and no other is.
//!
//! Tested: octets that were written by hand from the standard, at both ends of what fields hold,
//! and each call with memory refused. What peers of others make of the octets is no part of it.
#![tactic(auto)]

mod data;
mod datagram;
mod entities;
mod fault;
mod fields;
mod gap;
mod heartbeat;
pub mod laws;
mod parameters;
mod participant;
mod policies;
mod reader;
mod record;
#[cfg(test)]
mod tests;
mod texts;
mod values;

pub use fault::RecordFault;
pub use gap::write_gap;
pub use heartbeat::write_heartbeat;
pub use participant::{Presence, write_participant, write_participant_gone};
pub use reader::{write_reader, write_reader_gone};
pub use record::ReaderRecord;
