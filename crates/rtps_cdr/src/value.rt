//! Reading one value at a position. Each function returns the value and the position after it.

ghost use Rattle.std.specs.Prelude.{◌≡◌, ◌≤◌, ◌<◌, length, IfOk};
ghost use Rattle.rtps_types.specs.declared.field.Endian.{Endian};
ghost use Rattle.rtps_cdr.specs.Reading.{number_from, bool_from, octets_from, text_from, text_of, place_seen};

use crate::CdrFault;
use crate::place::align;
use rtps_types::{Endian, get_u16, get_u32, get_u64};

/// Reads the octet at a position.
#[tactic(auto, using(crate::proofs::Related::octet_is, crate::proofs::Related::octet_none))]
pub(crate) fn octet_at(octets: &[u8], at: usize) -> Result<(u8, usize), CdrFault>
    requires { at ≤ length octets.now }
    ensures value { (e : Endian) → result ≡ number_from 1 e octets.now at }
    ensures within { IfOk result (λ r. r.1 ≤ length octets.now) }
{
    match octets.get(at) {
        Some(octet) => Ok((*octet, at + 1)),
        None => Err(CdrFault::Short),
    }
}

/// Reads the number at the next multiple of 2.
pub(crate) fn u16_at(
    octets: &[u8],
    position: usize,
    endian: Endian,
) -> Result<(u16, usize), CdrFault>
    requires { position ≤ length octets.now }
    ensures value { result ≡ number_from 2 endian octets.now position }
    ensures within { IfOk result (λ r. r.1 ≤ length octets.now) }
{
    let at = align(position, 2);
    let x = get_u16(octets, at, endian).ok_or(CdrFault::Short)?;
    Ok((x, at + 2))
}

/// Reads the number at the next multiple of 4.
pub(crate) fn u32_at(
    octets: &[u8],
    position: usize,
    endian: Endian,
) -> Result<(u32, usize), CdrFault>
    requires { position ≤ length octets.now }
    ensures value { result ≡ number_from 4 endian octets.now position }
    ensures within { IfOk result (λ r. r.1 ≤ length octets.now) }
{
    let at = align(position, 4);
    let x = get_u32(octets, at, endian).ok_or(CdrFault::Short)?;
    Ok((x, at + 4))
}

/// Reads the number at the next multiple of 8.
pub(crate) fn u64_at(
    octets: &[u8],
    position: usize,
    endian: Endian,
) -> Result<(u64, usize), CdrFault>
    requires { position ≤ length octets.now }
    ensures value { result ≡ number_from 8 endian octets.now position }
    ensures within { IfOk result (λ r. r.1 ≤ length octets.now) }
{
    let at = align(position, 8);
    let x = get_u64(octets, at, endian).ok_or(CdrFault::Short)?;
    Ok((x, at + 8))
}

/// Reads octets at a position.
pub(crate) fn octets_at(octets: &[u8], at: usize, count: usize) -> Result<(&[u8], usize), CdrFault>
    requires { at ≤ length octets.now }
    ensures value { place_seen result ≡ octets_from count octets.now at }
    ensures within { IfOk result (λ r. (r.1 ≤ length octets.now) × (length r.0.now ≡ count)) }
{
    let (_, rest) = octets.split_at(at);
    if rest.len() < count {
        return Err(CdrFault::Short);
    }
    let (body, _) = rest.split_at(count);
    Ok((body, at + count))
}

/// Checks a string with its NUL. Returns it without the NUL, and `after`.
#[tactic(auto, using(crate::proofs::Related::utf8_true, crate::proofs::Related::utf8_false))]
fn text_in_body(body: &[u8], after: usize) -> Result<(&str, usize), CdrFault>
    requires { 0 < length body.now }
    ensures value { place_seen result ≡ text_of body.now after }
    ensures place { IfOk result (λ r. r.1 ≡ after) }
{
    let last = body.len() - 1;
    if body[last] != 0 {
        return Err(CdrFault::BadString);
    }
    let (front, _) = body.split_at(last);
    match str::from_utf8(front) {
        Ok(text) => Ok((text, after)),
        Err(_) => Err(CdrFault::NotUtf8),
    }
}

/// Reads the string whose length is at the next multiple of four.
#[tactic(auto, unfolding(crate::specs::Reading::text_from))]
pub(crate) fn text_at(
    octets: &[u8],
    position: usize,
    endian: Endian,
) -> Result<(&str, usize), CdrFault>
    requires { position ≤ length octets.now }
    ensures value { place_seen result ≡ text_from endian octets.now position }
    ensures within { IfOk result (λ r. r.1 ≤ length octets.now) }
{
    let (count, start) = u32_at(octets, position, endian)?;
    if count == 0 {
        return Ok(("", start));
    }
    let (body, after) = octets_at(octets, start, count as usize)?;
    text_in_body(body, after)
}

/// Reads the boolean at a position.
pub(crate) fn bool_at(octets: &[u8], position: usize) -> Result<(bool, usize), CdrFault>
    requires { position ≤ length octets.now }
    ensures value { (e : Endian) → result ≡ bool_from e octets.now position }
    ensures within { IfOk result (λ r. r.1 ≤ length octets.now) }
{
    let (octet, after) = octet_at(octets, position)?;
    match octet {
        0 => Ok((false, after)),
        1 => Ok((true, after)),
        _ => Err(CdrFault::BadBool),
    }
}
