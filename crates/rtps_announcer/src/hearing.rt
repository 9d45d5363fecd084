//! What the announcer hears.

use crate::ack::Ack;
use crate::locators::PeerLocators;
use rtps_types::GuidPrefix;

/// What a participant announces of itself (DDSI-RTPS 8.5.3.2).
#[derive(Debug, Drop)]
pub struct Facts {
    /// The unicast locators of its builtin endpoints.
    pub to: PeerLocators,
    /// How many milliseconds it may keep silent; `None` if its lease never ends.
    pub lease: Option<u64>,
    /// Whether it has an announcer of writers, and a reader of readers (DDSI-RTPS 9.3.2.12).
    pub hears: bool,
}

/// What the announcer hears: a moment that passes, what another participant says, and which readers
/// of ours come and go.
#[derive(Debug, Drop)]
pub enum Hearing {
    /// A moment passes, in milliseconds. One below an earlier one counts as the greatest so far.
    Passes(u64),
    /// A participant announces itself, for the first time or again.
    Comes(GuidPrefix, Facts),
    /// A participant leaves.
    Leaves(GuidPrefix),
    /// A participant's reader of readers answers.
    Acks(GuidPrefix, Ack),
    /// A reader of ours comes. Its rank is the number of ranks that were given before.
    Joins,
    /// Our reader of this rank goes.
    Parts(u32),
}
