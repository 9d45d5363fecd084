//! Numbers and octets at a place in a slice, in either byte order (DDSI-RTPS 9.3.2, 9.4.2.5).

ghost use Rattle.std.specs.Prelude.{◌≡◌, ◌+◌, ◌≤◌, length, Some};
ghost use Rattle.rtps_types.specs.Field.{number_at, octets_at, put_at, sequence_number_at, encoded, encoded_sn, StaysOutside};

use byteorder::{BigEndian, ByteOrder, LittleEndian};

/// The byte order of numbers, which flag E of a submessage states (DDSI-RTPS 9.4.5.1.2).
#[derive(Clone, Copy, Debug, PartialEq, Eq)]
pub enum Endian {
    /// The highest octet first.
    Big,
    /// The lowest octet first.
    Little,
}

/// Returns the 16-bit number in the two octets at `at`, counted from 0, or `None` if not all of
/// them are there (DDSI-RTPS 9.3.2).
pub fn get_u16(octets: &[u8], at: usize, endian: Endian) -> Option<u16>
    ensures { result ≡ number_at endian 2 octets.now at }
{
    let field = octets.get(at..)?;
    if field.len() < 2 {
        return None;
    }
    Some(match endian {
        Endian::Big => BigEndian::read_u16(field),
        Endian::Little => LittleEndian::read_u16(field),
    })
}

/// Returns the 32-bit number in the four octets at `at`, or `None` if not all of them are there
/// (DDSI-RTPS 9.3.2).
pub fn get_u32(octets: &[u8], at: usize, endian: Endian) -> Option<u32>
    ensures { result ≡ number_at endian 4 octets.now at }
{
    let field = octets.get(at..)?;
    if field.len() < 4 {
        return None;
    }
    Some(match endian {
        Endian::Big => BigEndian::read_u32(field),
        Endian::Little => LittleEndian::read_u32(field),
    })
}

/// Returns the 64-bit number in the eight octets at `at`, or `None` if not all of them are there.
///
/// A little-endian sequence number isn't encoded like this: see [`get_sn`].
pub fn get_u64(octets: &[u8], at: usize, endian: Endian) -> Option<u64>
    ensures { result ≡ number_at endian 8 octets.now at }
{
    let field = octets.get(at..)?;
    if field.len() < 8 {
        return None;
    }
    Some(match endian {
        Endian::Big => BigEndian::read_u64(field),
        Endian::Little => LittleEndian::read_u64(field),
    })
}

/// Returns the sequence number in the eight octets at `at`, or `None` if not all of them are there.
/// It is a signed high half and then an unsigned low half, each in the byte order `endian`
/// (DDSI-RTPS 9.4.2.5).
pub fn get_sn(octets: &[u8], at: usize, endian: Endian) -> Option<i64>
    ensures { result ≡ sequence_number_at endian octets.now at }
{
    let high = get_u32(octets, at, endian)?;
    let low = get_u32(octets, at + 4, endian)?;
    Some((u64::from(high) * (1 << 32) + u64::from(low)).cast_signed())
}

/// Returns the `N` octets at `at`, or `None` if not all of them are there.
pub fn get_octets<const N: usize>(octets: &[u8], at: usize) -> Option<[u8; N]>
    ensures { result ≡ octets_at N octets.now at }
{
    octets.get(at..)?.first_chunk::<N>().copied()
}

/// Overwrites the octets from `at` on, which have to be there.
#[tactic(auto, using(crate::proofs::Puts::puts_outside))]
pub fn put_octets(octets: &mut [u8], at: usize, field: &[u8])
    requires { at + length field.now ≤ length octets.old }
    ensures octets { octets.new ≡ put_at at field.now octets.old }
    ensures others_stay { StaysOutside at (length field.now) octets.old octets.new }
{
    octets[at..at + field.len()].copy_from_slice(field);
}

/// Writes a 16-bit number into the two octets at `at`, which have to be there (DDSI-RTPS 9.3.2).
pub fn put_u16(octets: &mut [u8], at: usize, endian: Endian, value: u16)
    requires { at + 2 ≤ length octets.old }
    ensures octets { octets.new ≡ put_at at (encoded endian 2 value) octets.old }
    ensures read_again { number_at endian 2 octets.new at ≡ Some value }
    ensures others_stay { StaysOutside at 2 octets.old octets.new }
{
    let mut field = [0; 2];
    match endian {
        Endian::Big => BigEndian::write_u16(&mut field, value),
        Endian::Little => LittleEndian::write_u16(&mut field, value),
    }
    put_octets(octets, at, &field);
}

/// Writes a 32-bit number into the four octets at `at`, which have to be there (DDSI-RTPS 9.3.2).
pub fn put_u32(octets: &mut [u8], at: usize, endian: Endian, value: u32)
    requires { at + 4 ≤ length octets.old }
    ensures octets { octets.new ≡ put_at at (encoded endian 4 value) octets.old }
    ensures read_again { number_at endian 4 octets.new at ≡ Some value }
    ensures others_stay { StaysOutside at 4 octets.old octets.new }
{
    let mut field = [0; 4];
    match endian {
        Endian::Big => BigEndian::write_u32(&mut field, value),
        Endian::Little => LittleEndian::write_u32(&mut field, value),
    }
    put_octets(octets, at, &field);
}

/// Writes a 64-bit number into the eight octets at `at`, which have to be there (DDSI-RTPS 9.3.2).
pub fn put_u64(octets: &mut [u8], at: usize, endian: Endian, value: u64)
    requires { at + 8 ≤ length octets.old }
    ensures octets { octets.new ≡ put_at at (encoded endian 8 value) octets.old }
    ensures read_again { number_at endian 8 octets.new at ≡ Some value }
    ensures others_stay { StaysOutside at 8 octets.old octets.new }
{
    let mut field = [0; 8];
    match endian {
        Endian::Big => BigEndian::write_u64(&mut field, value),
        Endian::Little => LittleEndian::write_u64(&mut field, value),
    }
    put_octets(octets, at, &field);
}

/// Writes a sequence number into the eight octets at `at`, which have to be there. Its high half is
/// the first in either byte order (DDSI-RTPS 9.4.2.5).
pub fn put_sn(octets: &mut [u8], at: usize, endian: Endian, value: i64)
    requires { at + 8 ≤ length octets.old }
    ensures octets { octets.new ≡ put_at at (encoded_sn endian value) octets.old }
    ensures read_again { sequence_number_at endian octets.new at ≡ Some value }
    ensures others_stay { StaysOutside at 8 octets.old octets.new }
{
    let bits = value.cast_unsigned();
    put_u32(octets, at, endian, (bits >> 32) as u32);
    put_u32(octets, at + 4, endian, (bits & 0xffff_ffff) as u32);
}
