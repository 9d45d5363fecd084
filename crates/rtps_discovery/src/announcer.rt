//! The builtin writers of a participant.

ghost use Rattle.std.specs.Prelude.{◌≡◌};
ghost use Rattle.std.specs.Str.{bytes_eq};
ghost use Rattle.rtps_discovery.specs.Announcer.{announcer_at};
ghost use Rattle.rtps_discovery.specs.Known.{publications_writer};

use crate::addressed::{
    ENTITYID_SEDP_BUILTIN_PUBLICATIONS_ANNOUNCER, ENTITYID_SEDP_BUILTIN_SUBSCRIPTIONS_ANNOUNCER,
    ENTITYID_SPDP_BUILTIN_PARTICIPANT_ANNOUNCER,
};
use rtps_types::EntityId;

/// A builtin writer, whose events are for discovery alone (DDSI-RTPS 8.5.3, 8.5.4, 9.3.1.3).
#[derive(Clone, Copy, Debug, PartialEq, Eq)]
pub enum Announcer {
    /// It announces its participant (SPDP).
    Participant,
    /// It announces the writers of its participant (SEDP).
    Publications,
    /// It announces the readers of its participant (SEDP).
    Subscriptions,
}

impl Announcer {
    /// Returns the announcer with this entity; `None` for a user's writer. All other tests for
    /// announcers call this one.
    pub fn of(writer: EntityId) -> Option<Announcer>
        ensures { result ≡ announcer_at writer }
    {
        if writer == ENTITYID_SPDP_BUILTIN_PARTICIPANT_ANNOUNCER {
            return Some(Announcer::Participant);
        }
        if writer == ENTITYID_SEDP_BUILTIN_PUBLICATIONS_ANNOUNCER {
            return Some(Announcer::Publications);
        }
        if writer == ENTITYID_SEDP_BUILTIN_SUBSCRIPTIONS_ANNOUNCER {
            return Some(Announcer::Subscriptions);
        }
        None
    }
}

/// Whether a writer is the announcer of writers.
pub(crate) fn announces_writers(writer: EntityId) -> bool
    ensures { result ≡ bytes_eq writer.0 publications_writer.0 }
{
    match Announcer::of(writer) {
        Some(Announcer::Publications) => true,
        Some(Announcer::Participant | Announcer::Subscriptions) | None => false,
    }
}
