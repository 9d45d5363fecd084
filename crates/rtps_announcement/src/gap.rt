//! GAP: numbers of changes that don't concern a peer (DDSI-RTPS 8.3.7.4, 9.4.5.5).

ghost use Rattle.std.specs.Prelude.{◌≡◌, IfOk};
ghost use Rattle.rtps_types.specs.Number.{value_of};
ghost use Rattle.rtps_announcement.specs.Gap.{gap_octets};

use crate::datagram::{Head, LITTLE, begin};
use crate::entities::ENTITYID_SEDP_BUILTIN_SUBSCRIPTIONS_DETECTOR;
use crate::fields::{push_sn, push_u32};
use rtps_discovery::ENTITYID_SEDP_BUILTIN_SUBSCRIPTIONS_ANNOUNCER;
use rtps_types::{GuidPrefix, Number, Octets};
use rtps_wire::kinds::GAP;
use std::alloc::{AllocError, Allocator};

/// Returns the datagram by which the announcer of readers reports to the participant `to` that
/// the changes from `first` to `last` don't concern it (DDSI-RTPS 8.3.7.4). Nothing is named where
/// `last` is below `first`. An error is a refused growth.
pub fn write_gap<A: Allocator>(
    alloc: A,
    own: GuidPrefix,
    to: GuidPrefix,
    first: Number,
    last: Number,
) -> Result<Octets<A>, AllocError>
    ensures { IfOk result (λ octets. octets
        ≡ gap_octets own to (value_of first) (value_of last)) }
{
    let head = Head {
        id: GAP,
        flags: LITTLE,
        length: 28,
    };
    let mut octets = begin(alloc, own, Some(to), head)?;
    octets.extend_from_slice(&ENTITYID_SEDP_BUILTIN_SUBSCRIPTIONS_DETECTOR.0)?;
    octets.extend_from_slice(&ENTITYID_SEDP_BUILTIN_SUBSCRIPTIONS_ANNOUNCER.0)?;
    push_sn(&mut octets, first.get())?;
    push_sn(&mut octets, last.get() + 1)?;
    push_u32(&mut octets, 0)?;
    Ok(Octets::new(octets))
}
