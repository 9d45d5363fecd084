//! HEARTBEAT: the numbers that there are (DDSI-RTPS 8.3.7.5, 9.4.5.6).

ghost use Rattle.std.specs.Prelude.{◌≡◌, ◌^◌, ◌<◌, IfOk};
ghost use Rattle.rtps_announcement.specs.Heartbeat.{heartbeat_octets};

use crate::datagram::{Head, LITTLE, begin};
use crate::entities::ENTITYID_SEDP_BUILTIN_SUBSCRIPTIONS_DETECTOR;
use crate::fields::{push_sn, push_u32};
use rtps_discovery::ENTITYID_SEDP_BUILTIN_SUBSCRIPTIONS_ANNOUNCER;
use rtps_types::{GuidPrefix, Octets};
use rtps_wire::kinds::HEARTBEAT;
use std::alloc::{AllocError, Allocator};

/// Returns the datagram by which the announcer of readers reports to the participant `to` that it
/// has the changes from 1 to `last`, none where `last` is 0, and asks for an ACKNACK (DDSI-RTPS
/// 8.3.7.5). `count` rises from one HEARTBEAT to the next. An error is a refused growth.
pub fn write_heartbeat<A: Allocator>(
    alloc: A,
    own: GuidPrefix,
    to: GuidPrefix,
    last: u64,
    count: u32,
) -> Result<Octets<A>, AllocError>
    requires { last < 2 ^ 63 }
    ensures { IfOk result (λ octets. octets ≡ heartbeat_octets own to last count) }
{
    let head = Head {
        id: HEARTBEAT,
        flags: LITTLE,
        length: 28,
    };
    let mut octets = begin(alloc, own, Some(to), head)?;
    octets.extend_from_slice(&ENTITYID_SEDP_BUILTIN_SUBSCRIPTIONS_DETECTOR.0)?;
    octets.extend_from_slice(&ENTITYID_SEDP_BUILTIN_SUBSCRIPTIONS_ANNOUNCER.0)?;
    push_sn(&mut octets, 1)?;
    push_sn(&mut octets, last)?;
    push_u32(&mut octets, count)?;
    Ok(Octets::new(octets))
}
