//! Fields that several kinds of submessages have.

ghost use Rattle.std.specs.Prelude.{◌≡◌, ◌^◌, ◌<◌, ◌≤◌, IfSome};
ghost use Rattle.std.specs.Option.{option_map};
ghost use Rattle.rtps_wire.specs.Fields.{count_at, endian_of, entity_at, from, natural_at, positive_at, prefix_at};

use crate::kinds::LITTLE;
use rtps_types::{Endian, EntityId, GuidPrefix, get_octets, get_sn, get_u32};

/// Returns the byte order of a submessage with these flags.
pub(crate) fn endian_at(flags: u8) -> Endian
    ensures { result ≡ endian_of flags }
{
    if flags & LITTLE != 0 {
        Endian::Little
    } else {
        Endian::Big
    }
}

/// Returns the octets from `at` on, or `None` if `at` is past the end.
pub(crate) fn get_rest(octets: &[u8], at: usize) -> Option<&[u8]>
    ensures { option_map (λ rest. rest.now) result ≡ from octets.now at }
{
    octets.get(at..)
}

pub(crate) fn get_entity(octets: &[u8], at: usize) -> Option<EntityId>
    ensures { result ≡ entity_at octets.now at }
{
    Some(EntityId(get_octets(octets, at)?))
}

pub(crate) fn get_prefix(octets: &[u8], at: usize) -> Option<GuidPrefix>
    ensures { result ≡ prefix_at octets.now at }
{
    Some(GuidPrefix(get_octets(octets, at)?))
}

pub(crate) fn get_count(octets: &[u8], at: usize, endian: Endian) -> Option<i32>
    ensures { result ≡ count_at endian octets.now at }
{
    Some(get_u32(octets, at, endian)?.cast_signed())
}

/// Returns the sequence number at `at`, if there is one and it is at least 1.
pub(crate) fn get_positive(octets: &[u8], at: usize, endian: Endian) -> Option<u64>
    ensures value { result ≡ positive_at endian octets.now at }
    ensures bounds { IfSome result (λ n. (1 ≤ n) × (n < 2 ^ 63)) }
{
    let number = get_sn(octets, at, endian)?;
    if number < 1 {
        return None;
    }
    Some(number.cast_unsigned())
}

/// Returns the sequence number at `at`, if there is one and it is at least 0.
pub(crate) fn get_natural(octets: &[u8], at: usize, endian: Endian) -> Option<u64>
    ensures value { result ≡ natural_at endian octets.now at }
    ensures bounds { IfSome result (λ n. n < 2 ^ 63) }
{
    let number = get_sn(octets, at, endian)?;
    if number < 0 {
        return None;
    }
    Some(number.cast_unsigned())
}
