//! The values of parameters that have a fixed length (DDSI-RTPS 9.3.1, 9.3.2, 9.6.3).

ghost use Rattle.std.specs.Prelude.{◌≡◌, length};
ghost use Rattle.rtps_announcement.specs.Values as values;

use rtps_types::{Duration, Endian, EntityId, GuidPrefix, Locator, put_octets, put_u32};

/// The kind of a locator of UDP over IPv4 (DDSI-RTPS 9.3.2.4).
const LOCATOR_KIND_UDPV4: u32 = 1;

/// Returns the octets of a guid.
pub(crate) fn guid_value(prefix: GuidPrefix, entity: EntityId) -> [u8; 16]
    ensures value { result ≡ values.guid_value prefix entity }
    ensures entity { length entity.0 ≡ 4 }
{
    let mut value = [0; 16];
    put_octets(&mut value, 0, &prefix.0);
    put_octets(&mut value, 12, &entity.0);
    value
}

/// Returns the octets of a locator.
pub(crate) fn locator_value(locator: Locator) -> [u8; 24]
    ensures { result ≡ values.locator_value locator }
{
    let mut value = [0; 24];
    put_u32(&mut value, 0, Endian::Little, LOCATOR_KIND_UDPV4);
    put_u32(&mut value, 4, Endian::Little, u32::from(locator.port));
    put_octets(&mut value, 20, &locator.address);
    value
}

/// Returns the octets of a duration.
pub(crate) fn duration_value(duration: Duration) -> [u8; 8]
    ensures value { result ≡ values.duration_value duration }
    ensures fits { values.IsDuration duration }
{
    let mut value = [0; 8];
    put_u32(
        &mut value,
        0,
        Endian::Little,
        duration.seconds.cast_unsigned(),
    );
    put_u32(&mut value, 4, Endian::Little, duration.fraction);
    value
}
