//! Decoding the values of parameters (DDSI-RTPS 9.3, 9.6.3). `None` stands for a value that is too
//! short or has a part out of its range; octets after the value are ignored.

ghost use Rattle.std.specs.Prelude.{◌≡◌};
ghost use Rattle.dds_qos.specs.Values as values;

use crate::kinds::{liveliness_of, reliability_of, scope_of};
use crate::{Liveliness, Presentation, Reliability};
use rtps_cdr::CdrReader;
use rtps_types::{Duration, EntityId, Guid, GuidPrefix, Locator, get_octets};

/// `LOCATOR_KIND_UDPv4` (DDSI-RTPS 9.3.2.4).
const UDP_V4: u32 = 1;

/// Decodes a duration: seconds, and a fraction.
#[tactic(auto, unfolding(crate::specs::Values::duration_in))]
pub(crate) fn duration_in(mut value: CdrReader<'_>) -> Option<Duration>
    ensures { result ≡ values.duration_in value.entry }
{
    let seconds = value.read_i32().ok()?;
    let fraction = value.read_u32().ok()?;
    Some(Duration { seconds, fraction })
}

/// Decodes a reliability: its kind, and the longest time that a write may block, which no reader
/// uses.
#[tactic(auto, unfolding(crate::specs::Values::reliability_in))]
pub(crate) fn reliability_in(mut value: CdrReader<'_>) -> Option<Reliability>
    ensures { result ≡ values.reliability_in value.entry }
{
    let kind = reliability_of(value.read_u32().ok()?)?;
    let _max_blocking_time = duration_in(value)?;
    Some(kind)
}

/// Decodes a liveliness: its kind, and its lease.
#[tactic(auto, unfolding(crate::specs::Values::liveliness_in))]
pub(crate) fn liveliness_in(mut value: CdrReader<'_>) -> Option<Liveliness>
    ensures { result ≡ values.liveliness_in value.entry }
{
    let kind = liveliness_of(value.read_u32().ok()?)?;
    let lease_duration = duration_in(value)?;
    Some(Liveliness {
        kind,
        lease_duration,
    })
}

/// Decodes a presentation: its scope, and whether access is coherent and ordered.
#[tactic(auto, unfolding(crate::specs::Values::presentation_in))]
pub(crate) fn presentation_in(mut value: CdrReader<'_>) -> Option<Presentation>
    ensures { result ≡ values.presentation_in value.entry }
{
    let access_scope = scope_of(value.read_u32().ok()?)?;
    let coherent_access = value.read_bool().ok()?;
    let ordered_access = value.read_bool().ok()?;
    Some(Presentation {
        access_scope,
        coherent_access,
        ordered_access,
    })
}

/// Returns the locator of these parts, if it is of UDP over IPv4 with a port, else `None`.
fn kept_locator(kind: u32, port: u32, octets: &[u8]) -> Option<Locator>
    ensures { result ≡ values.kept_locator kind port octets.now }
{
    if kind != UDP_V4 || port == 0 {
        return None;
    }
    let port = u16::try_from(port).ok()?;
    let address = get_octets(octets, 12)?;
    Some(Locator { port, address })
}

/// Decodes a locator. The inner `None` stands for a locator that isn't kept: one that is not of UDP
/// over IPv4, or has no port.
#[tactic(auto, unfolding(crate::specs::Values::locator_in))]
pub(crate) fn locator_in(mut value: CdrReader<'_>) -> Option<Option<Locator>>
    ensures { result ≡ values.locator_in value.entry }
{
    let kind = value.read_u32().ok()?;
    let port = value.read_u32().ok()?;
    let octets = value.read_octets(16).ok()?;
    Some(kept_locator(kind, port, octets))
}

/// Returns the guid that sixteen octets encode.
fn guid_of(octets: &[u8]) -> Option<Guid>
    ensures { result ≡ values.guid_of octets.now }
{
    let prefix = GuidPrefix(get_octets(octets, 0)?);
    let entity = EntityId(get_octets(octets, 12)?);
    Some(Guid { prefix, entity })
}

/// Decodes a guid of sixteen octets.
#[tactic(auto, unfolding(crate::specs::Values::guid_in))]
pub(crate) fn guid_in(mut value: CdrReader<'_>) -> Option<Guid>
    ensures { result ≡ values.guid_in value.entry }
{
    guid_of(value.read_octets(16).ok()?)
}
