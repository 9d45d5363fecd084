//! How a decimal is written.

ghost use Rattle.std.specs.Prelude.{◌≡◌, ◌+◌, ◌^◌, ◌<◌, ◌≤◌, ◌++◌, OnOk, length, replicate, take, drop, codes, nat_le, if◌then◌else◌};
ghost use Rattle.std.specs.Io.{StartsWith};
ghost use Rattle.std.specs.Fmt.{decimal};
ghost use Rattle.float_text.specs.Layout.{scientific, laid_out};

use crate::format::Format;
use itoa::Buffer;
use rtps_ascii::{push_number, push_word};
use std::alloc::{AllocError, Allocator};

/// Appends a number times 10 ^ (places - point).
#[tactic(auto, unfolding(crate::specs::Layout::laid_out))]
pub(crate) fn push_decimal<A: Allocator>(
    out: &mut Vec<u8, A>,
    format: &Format,
    number: u64,
    places: usize,
    point: usize,
) -> Result<(), AllocError>
    requires places { places < 2 ^ 63 }
    requires point { point < 2 ^ 32 }
    ensures ok { OnOk result (out.new.items ≡ out.old.items ++ laid_out format.now (decimal number)
        places point (length (decimal number) + places)) }
    ensures keeps { StartsWith out.new.items out.old.items }
{
    let mut buffer = Buffer::new();
    let digits = buffer.format(number).as_bytes();
    let before = digits.len() + places;
    if before <= point {
        return push_below_one(out, format, digits, point - before);
    }
    if before - point > format.whole_digits {
        push_scientific(out, digits)?;
        push_word(out, "e")?;
        return push_number(out, (before - point - 1) as u64);
    }
    if point <= places {
        return push_whole(out, digits, places - point);
    }
    push_around_point(out, digits, before - point)
}

/// Appends digits and zeros, and the fraction `.0`.
fn push_whole<A: Allocator>(
    out: &mut Vec<u8, A>,
    digits: &[u8],
    zeros: usize,
) -> Result<(), AllocError>
    ensures ok { OnOk result (out.new.items ≡ out.old.items
        ++ (digits.now ++ replicate zeros 48 ++ codes ".0")) }
    ensures keeps { StartsWith out.new.items out.old.items }
{
    push_digits(out, digits)?;
    push_zeros(out, zeros)?;
    push_word(out, ".0")
}

/// Appends digits with a point in between.
fn push_around_point<A: Allocator>(
    out: &mut Vec<u8, A>,
    digits: &[u8],
    before: usize,
) -> Result<(), AllocError>
    requires { before ≤ length digits.now }
    ensures ok { OnOk result (out.new.items ≡ out.old.items
        ++ (take before digits.now ++ codes "." ++ drop before digits.now)) }
    ensures keeps { StartsWith out.new.items out.old.items }
{
    push_digits(out, &digits[..before])?;
    push_word(out, ".")?;
    push_digits(out, &digits[before..])
}

fn push_digits<A: Allocator>(out: &mut Vec<u8, A>, digits: &[u8]) -> Result<(), AllocError>
    ensures ok { OnOk result (out.new.items ≡ out.old.items ++ digits.now) }
    ensures keeps { StartsWith out.new.items out.old.items }
{
    out.extend_from_slice(digits)
}

/// Appends digits after a point and zeros.
fn push_below_one<A: Allocator>(
    out: &mut Vec<u8, A>,
    format: &Format,
    digits: &[u8],
    zeros: usize,
) -> Result<(), AllocError>
    requires { zeros < 2 ^ 63 }
    ensures ok { OnOk result (out.new.items ≡ out.old.items
        ++ (if nat_le zeros format.now.leading_zeros then codes "0." ++ replicate zeros 48 ++ digits.now
        else scientific digits.now ++ codes "e-" ++ decimal (zeros + 1))) }
    ensures keeps { StartsWith out.new.items out.old.items }
{
    if zeros <= format.leading_zeros {
        push_word(out, "0.")?;
        push_zeros(out, zeros)?;
        return push_digits(out, digits);
    }
    push_scientific(out, digits)?;
    push_word(out, "e-")?;
    push_number(out, zeros as u64 + 1)
}

/// Appends digits with the point after the first one.
fn push_scientific<A: Allocator>(out: &mut Vec<u8, A>, digits: &[u8]) -> Result<(), AllocError>
    ensures ok { OnOk result (out.new.items ≡ out.old.items ++ scientific digits.now) }
    ensures keeps { StartsWith out.new.items out.old.items }
{
    if digits.len() <= 1 {
        return push_digits(out, digits);
    }
    push_around_point(out, digits, 1)
}

fn push_zeros<A: Allocator>(out: &mut Vec<u8, A>, count: usize) -> Result<(), AllocError>
    ensures ok { OnOk result (out.new.items ≡ out.old.items ++ replicate count 48) }
    ensures keeps { StartsWith out.new.items out.old.items }
{
    let Some(end) = out.len().checked_add(count) else {
        return Err(AllocError);
    };
    out.resize(end, b'0')
}
