//! GAP: irrelevant sequence numbers (DDSI-RTPS 8.3.7.4, 9.4.5.5).

ghost use Rattle.std.specs.Prelude.{◌≡◌};
ghost use Rattle.std.specs.Option.{option_map};
ghost use Rattle.rtps_wire.specs.Gap.{gap_of, gap_view};

use crate::fields::{get_entity, get_positive};
use crate::number_set::get_sn_set;
use rtps_types::{Endian, EntityId, SnSet};

/// The fields of a GAP (DDSI-RTPS 8.3.7.4, 9.4.5.5). It names the numbers from `start` to the base
/// of `list`, without the base, and the members of `list`. If `start` isn't below the base, it
/// names the members only.
#[derive(Clone, Copy, Debug, PartialEq, Eq)]
pub struct Gap {
    pub reader: EntityId,
    pub writer: EntityId,
    /// The first number, at least 1.
    pub start: u64,
    pub list: SnSet,
}

/// Returns the fields of a GAP, or `None` if the body is invalid.
#[tactic(auto, unfolding(crate::specs::Gap::gap_of))]
pub(crate) fn read_gap(endian: Endian, body: &[u8]) -> Option<Gap>
    ensures { option_map gap_view result ≡ gap_of endian body.now }
{
    let reader = get_entity(body, 0)?;
    let writer = get_entity(body, 4)?;
    let start = get_positive(body, 8, endian)?;
    let list = get_sn_set(body, 16, endian)?;
    Some(Gap {
        reader,
        writer,
        start,
        list,
    })
}
