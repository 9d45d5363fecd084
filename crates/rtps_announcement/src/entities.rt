//! The entities of discovery that every participant has (DDSI-RTPS 9.3.1.3), besides the
//! announcers.

use rtps_types::EntityId;

/// A participant itself.
pub(crate) const ENTITYID_PARTICIPANT: EntityId = EntityId([0x00, 0x00, 0x01, 0xc1]);

/// The reader of a peer that hears of participants.
pub(crate) const ENTITYID_SPDP_BUILTIN_PARTICIPANT_DETECTOR: EntityId = EntityId([
    0x00, 0x01, 0x00, 0xc7,
]);

/// The reader of a peer that hears of readers.
pub(crate) const ENTITYID_SEDP_BUILTIN_SUBSCRIPTIONS_DETECTOR: EntityId = EntityId([
    0x00, 0x00, 0x04, 0xc7,
]);
