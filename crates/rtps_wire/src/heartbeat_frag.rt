//! HEARTBEAT_FRAG: the fragments of a change that a writer has (DDSI-RTPS 8.3.7.6, 9.4.5.7).

ghost use Rattle.std.specs.Prelude.{◌≡◌};
ghost use Rattle.rtps_wire.specs.HeartbeatFrag.{heartbeat_frag_of};

use crate::fields::{get_count, get_entity, get_positive};
use rtps_types::{Endian, EntityId, get_u32};

/// The fields of a HEARTBEAT_FRAG (DDSI-RTPS 8.3.7.6, 9.4.5.7).
#[derive(Clone, Copy, Debug, PartialEq, Eq)]
pub struct HeartbeatFrag {
    pub reader: EntityId,
    pub writer: EntityId,
    /// The number of the change, at least 1.
    pub number: u64,
    /// The number of the last fragment that the writer has, at least 1.
    pub last: u32,
    /// Rises from one HEARTBEAT_FRAG to the next.
    pub count: i32,
}

/// Returns the fields of a HEARTBEAT_FRAG, or `None` if the body is invalid.
#[tactic(auto, unfolding(crate::specs::HeartbeatFrag::heartbeat_frag_of))]
pub(crate) fn read_heartbeat_frag(endian: Endian, body: &[u8]) -> Option<HeartbeatFrag>
    ensures { result ≡ heartbeat_frag_of endian body.now }
{
    let reader = get_entity(body, 0)?;
    let writer = get_entity(body, 4)?;
    let number = get_positive(body, 8, endian)?;
    let last = get_u32(body, 16, endian)?;
    let count = get_count(body, 20, endian)?;
    if last == 0 {
        return None;
    }
    Some(HeartbeatFrag {
        reader,
        writer,
        number,
        last,
        count,
    })
}
