//! Events: submessages for readers, with their context.

use crate::event_body::EventBody;
use rtps_types::{EntityId, GuidPrefix, Place, Timestamp};

/// A submessage that is addressed to this participant, with its context from the submessages before
/// it (DDSI-RTPS 8.3.4).
#[derive(Clone, Copy, Debug)]
pub struct Event<'a> {
    /// Its place in the run.
    pub place: Place,
    /// The prefix of the participant that sent it.
    pub source: GuidPrefix,
    /// The source timestamp, if an INFO_TS gave one.
    pub time: Option<Timestamp>,
    /// The writer that sent it.
    pub writer: EntityId,
    /// The reader that it is addressed to; all zeros mean every reader that is matched with the
    /// writer.
    pub reader: EntityId,
    pub body: EventBody<'a>,
}
