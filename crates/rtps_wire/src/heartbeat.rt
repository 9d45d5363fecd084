//! HEARTBEAT: the numbers that a writer has (DDSI-RTPS 8.3.7.5, 9.4.5.6).

ghost use Rattle.std.specs.Prelude.{◌≡◌};
ghost use Rattle.rtps_wire.specs.Heartbeat.{heartbeat_of};

use crate::fields::{get_count, get_entity, get_natural, get_positive};
use crate::kinds::{HEARTBEAT_FINAL, HEARTBEAT_LIVELINESS};
use rtps_types::{Endian, EntityId};

/// The fields of a HEARTBEAT (DDSI-RTPS 8.3.7.5, 9.4.5.6).
#[derive(Clone, Copy, Debug, PartialEq, Eq)]
pub struct Heartbeat {
    pub reader: EntityId,
    pub writer: EntityId,
    /// The least number that the writer still has, at least 1.
    pub first: u64,
    /// The greatest number that it has, at least `first - 1`.
    pub last: u64,
    /// Rises from one heartbeat to the next.
    pub count: i32,
    /// Flag F: the writer asks for no answer.
    pub final_flag: bool,
    /// Flag L: the heartbeat is sent only to show that the writer is alive.
    pub liveliness: bool,
}

/// Returns the fields of a HEARTBEAT with these flags, or `None` if the body is invalid.
#[tactic(auto, unfolding(crate::specs::Heartbeat::heartbeat_of))]
pub(crate) fn read_heartbeat(flags: u8, endian: Endian, body: &[u8]) -> Option<Heartbeat>
    ensures { result ≡ heartbeat_of flags endian body.now }
{
    let reader = get_entity(body, 0)?;
    let writer = get_entity(body, 4)?;
    let first = get_positive(body, 8, endian)?;
    let last = get_natural(body, 16, endian)?;
    let count = get_count(body, 24, endian)?;
    if last < first - 1 {
        return None;
    }
    Some(Heartbeat {
        reader,
        writer,
        first,
        last,
        count,
        final_flag: flags & HEARTBEAT_FINAL != 0,
        liveliness: flags & HEARTBEAT_LIVELINESS != 0,
    })
}
