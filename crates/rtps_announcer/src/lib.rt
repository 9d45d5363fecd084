//! How a participant makes itself and its readers known: what is sent to whom, and when (DDSI-RTPS
//! 8.4.7, 8.4.9, 8.5.3, 8.5.4).
//!
//! [`hearings`] finds what is heard of a datagram: what a participant announces of itself (SPDP),
//! and the ACKNACKs by which it answers for the readers that we announce (SEDP). [`Announcer`]
//! takes it, with the moments that pass and the readers of ours that come and go, and puts what is
//! said by it at the end of a list: values, each with whom it is for. Octets are made of them
//! elsewhere.
//!
//! - To everyone: that our participant is here, once in a period.
//! - To a participant that is found, at once: a farewell, by which it forgets what it knew of us,
//!   then that we are here, each reader of ours that is there, a GAP for each other number, and a
//!   HEARTBEAT.
//! - To each such peer: each change of our readers at once, what it asks for, and HEARTBEATs until
//!   it has acknowledged all or fell silent.
//!
//! ```text
//! let mut announcer = Announcer::new(alloc, own, Rules::DEFAULT);
//! let mut sends = Vec::new(alloc);
//! let rank = announcer.add_reader(alloc, &mut sends)?;
//! announcer.take(alloc, &datagram, &mut sends)?;
//! for sending in &sends {
//!     // Write `sending.said` as a message, and send it to `sending.to`.
//! }
//! ```
//!
//! Proved of each call is what it sends and what the announcer is after it, as
//! `specs/Announcing.antt` defines them, and that a call that is refused memory leaves the list as
//! it was. Proved too is, in [`laws`], what follows: however what is heard is cut into batches, the
//! same is sent; each participant that was found and stays was sent each change that concerns
//! it, and no other when it is found or asks; it is reminded; and nobody makes us send or keep
//! without end. Only tested is that calls succeed where there is memory, and that the numbers of
//! the definitions are those of the standard, by octets that are written by hand.
//!
//! Not kept from a peer are locators of groups, and more than four. Whether a locator on loopback
//! may be sent to depends on our own address: that is for whoever sends.
#![tactic(auto)]

mod ack;
mod acknack;
mod announcer;
mod context;
mod hearing;
pub mod laws;
mod locators;
mod now;
mod participant;
mod peer;
mod peers;
mod rules;
mod said;
mod state;
mod telling;
#[cfg(test)]
mod tests;

pub use ack::Ack;
pub use announcer::Announcer;
pub use context::hearings;
pub use hearing::{Facts, Hearing};
pub use locators::PeerLocators;
pub use participant::{is_unicast, lease_of};
pub use rules::Rules;
pub use said::{Change, Destination, Said, Sending};
