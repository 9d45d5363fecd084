//! A participant that announces itself and its readers (DDSI-RTPS 8.4.7, 8.5.3, 8.5.4).
//!
//! [`AnnouncedParticipant`] holds a participant and its [`Voice`], and has both take the same
//! datagrams and the same moments, so that nobody can feed one of them alone. Each call puts at
//! the end of a list of the caller's what is to be sent by then: an [`Announcement`] is a datagram,
//! and whom it is for. [`Announcing`] says how a participant is to announce itself; [`Speaker`]
//! writes what is said as octets.
//!
//! ```text
//! let announcing = Announcing::new(alloc, 0, discovery, user);
//! let mut participant = AnnouncedParticipant::new(alloc, config, announcing, Shapes)?;
//! let mut announcements = Vec::new(alloc);
//! participant.tick_in_order(alloc, moment, &mut given, &mut announcements)?;
//! participant.run_in_order(&rt, &workers, &datagrams, &mut given, &mut announcements)?;
//! let (rank, outcome) = participant.add_reader(alloc, circles, &mut announcements)?;
//! for announcement in &announcements {
//!     // Send `announcement.octets` to the addresses of everyone, or to those of the peer.
//! }
//! ```
//!
//! Readers of ours come and go too. A change that the participant refuses isn't announced, and one
//! that can't be announced for want of memory is refused before the participant is asked.
//!
//! Proved: all that the participant promises of a batch, of a tick, and of a reader that comes or
//! goes, in its own words; that the announcer hears each of them, in order, and that exactly what
//! it says by then is put at the end of the list, as octets; that any error leaves that list as it
//! was; and, in [`laws`], that both parts are where one list of inputs brings them, and that the
//! announcer's peers are participants that the run knows. Nothing is written of what can't be said:
//! of a rank that wasn't given, or of a number that no change has. Tested: octets that were written
//! by hand, and that a participant that is found is greeted at once.
#![tactic(auto)]

mod announcement;
mod announcing;
mod hearing;
pub mod laws;
mod participant;
mod readers;
mod speaker;
#[cfg(test)]
mod tests;
mod voice;

pub use announcement::Announcement;
pub use announcing::{AnnounceFault, AnnouncedError, Announcing, discovery_group};
pub use participant::AnnouncedParticipant;
pub use readers::ReaderError;
pub use speaker::Speaker;
pub use voice::{Voice, VoiceFault};
