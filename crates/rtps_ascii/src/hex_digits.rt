//! Octets in hex.

ghost use Rattle.std.specs.Prelude.{◌≡◌, ◌*◌, ◌<◌, ◌≤◌, ◌++◌, OnOk, length, slice_index};
ghost use Rattle.std.specs.Io.{StartsWith};
ghost use Rattle.hex.specs.Hex.{encode_lower, lower_digits};
ghost use Rattle.rtps_ascii.specs.Hex.{hex_text};

use crate::word::push_octet;
use std::alloc::{AllocError, Allocator};

/// Up to this many octets are formatted on the stack first: one copy is faster than many pushes.
const SHORT: usize = 16;

/// Appends octets in hex, in lower case; a dash if there are none.
pub fn push_hex<A: Allocator>(out: &mut Vec<u8, A>, octets: &[u8]) -> Result<(), AllocError>
    ensures ok { OnOk result (out.new.items ≡ out.old.items ++ hex_text octets.now) }
    ensures keeps { StartsWith out.new.items out.old.items }
{
    if octets.is_empty() {
        return push_octet(out, b'-');
    }
    if octets.len() <= SHORT {
        return push_short(out, octets);
    }
    push_long(out, octets)
}

/// Like [`push_hex`], for a number of octets that is known at compile time, such as those of
/// identities. It is inlined, so that the compiler makes all digits at once.
#[inline(always)]
pub fn push_hex_array<const N: usize, A: Allocator>(
    out: &mut Vec<u8, A>,
    octets: &[u8; N],
) -> Result<(), AllocError>
    ensures ok { OnOk result (out.new.items ≡ out.old.items ++ hex_text octets.now) }
    ensures keeps { StartsWith out.new.items out.old.items }
{
    if N == 0 || N > SHORT {
        return push_hex(out, octets);
    }
    let mut digits = [0u8; 2 * SHORT];
    format_hex(octets, &mut digits[..2 * N]);
    out.extend_from_slice(&digits[..2 * N])
}

/// Appends the digits of a few octets, such as those of names, each looked up in a table: there are
/// too few to make many digits at once.
fn push_short<A: Allocator>(out: &mut Vec<u8, A>, octets: &[u8]) -> Result<(), AllocError>
    requires { length octets.now ≤ 16 }
    ensures ok { OnOk result (out.new.items ≡ out.old.items ++ encode_lower octets.now) }
    ensures keeps { StartsWith out.new.items out.old.items }
{
    let mut digits = [0u8; 2 * SHORT];
    let end = 2 * octets.len();
    match hex::encode_to_slice(octets, &mut digits[..end]) {
        Ok(()) => out.extend_from_slice(&digits[..end]),
        Err(_) => Err(AllocError),
    }
}

/// Appends the digits of many octets, such as those of payloads: they are written in place.
#[inline(never)]
fn push_long<A: Allocator>(out: &mut Vec<u8, A>, octets: &[u8]) -> Result<(), AllocError>
    ensures ok { OnOk result (out.new.items ≡ out.old.items ++ encode_lower octets.now) }
    ensures keeps { StartsWith out.new.items out.old.items }
{
    let start = out.len();
    let Some(count) = octets.len().checked_mul(2) else {
        return Err(AllocError);
    };
    let Some(end) = start.checked_add(count) else {
        return Err(AllocError);
    };
    out.resize(end, 0)?;
    format_hex(octets, &mut out[start..]);
    Ok(())
}

/// Writes octets in hex, two digits each. No digit is looked up in a table, so that the compiler
/// can make many of them at once.
#[inline(always)]
fn format_hex(octets: &[u8], digits: &mut [u8])
    requires { length digits.old ≡ 2 * length octets.now }
    ensures { digits.new ≡ encode_lower octets.now }
{
    for i in 0..octets.len() {
        let octet = octets[i];
        digits[2 * i] = digit(octet >> 4);
        digits[2 * i + 1] = digit(octet & 0x0f);
    }
}

/// Returns the digit of a number below 16.
#[inline(always)]
fn digit(number: u8) -> u8
    requires { number < 16 }
    ensures { result ≡ slice_index lower_digits number }
{
    if number < 10 {
        b'0' + number
    } else {
        b'a' + (number - 10)
    }
}
