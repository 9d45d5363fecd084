//! The readers that an event of a datagram is for.

ghost use Rattle.std.specs.Prelude.{◌≡◌};
ghost use Rattle.rtps_discovery.specs.Addressed.{is_discovery, is_for};

use crate::announcer::Announcer;
use rtps_types::EntityId;

/// No entity in particular (DDSI-RTPS 9.3.1.2).
pub const ENTITYID_UNKNOWN: EntityId = EntityId([0x00, 0x00, 0x00, 0x00]);

/// The builtin writer by which a participant announces itself (DDSI-RTPS 9.3.1.3).
pub const ENTITYID_SPDP_BUILTIN_PARTICIPANT_ANNOUNCER: EntityId = EntityId([
    0x00, 0x01, 0x00, 0xc2,
]);

/// The builtin writer by which a participant announces its writers (DDSI-RTPS 9.3.1.3).
pub const ENTITYID_SEDP_BUILTIN_PUBLICATIONS_ANNOUNCER: EntityId = EntityId([
    0x00, 0x00, 0x03, 0xc2,
]);

/// The builtin writer by which a participant announces its readers (DDSI-RTPS 9.3.1.3).
pub const ENTITYID_SEDP_BUILTIN_SUBSCRIPTIONS_ANNOUNCER: EntityId = EntityId([
    0x00, 0x00, 0x04, 0xc2,
]);

/// Our builtin reader of the announcements of participants (DDSI-RTPS 9.3.1.3).
pub(crate) const ENTITYID_SPDP_BUILTIN_PARTICIPANT_DETECTOR: EntityId = EntityId([
    0x00, 0x01, 0x00, 0xc7,
]);

/// Our builtin reader of the announcements of writers (DDSI-RTPS 9.3.1.3).
pub(crate) const ENTITYID_SEDP_BUILTIN_PUBLICATIONS_DETECTOR: EntityId = EntityId([
    0x00, 0x00, 0x03, 0xc7,
]);

/// Our builtin reader of the announcements of readers (DDSI-RTPS 9.3.1.3).
pub(crate) const ENTITYID_SEDP_BUILTIN_SUBSCRIPTIONS_DETECTOR: EntityId = EntityId([
    0x00, 0x00, 0x04, 0xc7,
]);

/// Whether the events of a writer are for discovery alone: the writer is one of the three
/// announcers.
#[tactic(auto, using(crate::proofs::Announcers::discovers))]
pub fn is_discovery(writer: EntityId) -> bool
    ensures { result ≡ is_discovery writer }
{
    Announcer::of(writer).is_some()
}

/// Whether an event with this reader id is for our reader with this entity: the reader id is its
/// entity, or it is [`ENTITYID_UNKNOWN`]. The caller has to look up whether the reader is matched
/// with the event's writer.
pub fn is_for(reader: EntityId, entity: EntityId) -> bool
    ensures { result ≡ is_for reader entity }
{
    reader == ENTITYID_UNKNOWN || reader == entity
}
