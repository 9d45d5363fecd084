//! Numbers in decimal.

ghost use Rattle.std.specs.Prelude.{◌≡◌, ◌<◌, ◌+◌, ◌++◌, ◌∷◌, [], OnOk};
ghost use Rattle.std.specs.Io.{StartsWith};
ghost use Rattle.std.specs.Fmt.{decimal, signed_decimal};

use crate::word::push_octet;
use itoa::Buffer;
use std::alloc::{AllocError, Allocator};

/// Numbers below this one have at most three digits.
const SHORT: u64 = 1_000;

/// Appends a number in decimal.
pub fn push_number<A: Allocator>(out: &mut Vec<u8, A>, number: u64) -> Result<(), AllocError>
    ensures ok { OnOk result (out.new.items ≡ out.old.items ++ decimal number) }
    ensures keeps { StartsWith out.new.items out.old.items }
{
    if number < SHORT {
        return push_short(out, number as u32);
    }
    let mut buffer = Buffer::new();
    out.extend_from_slice(buffer.format(number).as_bytes())
}

/// Appends a number in decimal, with a minus if it is below 0.
pub fn push_signed<A: Allocator>(out: &mut Vec<u8, A>, signed: i32) -> Result<(), AllocError>
    ensures ok { OnOk result (out.new.items ≡ out.old.items ++ signed_decimal signed) }
    ensures keeps { StartsWith out.new.items out.old.items }
{
    if let Ok(number) = u32::try_from(signed) {
        if u64::from(number) < SHORT {
            return push_short(out, number);
        }
    }
    let mut buffer = Buffer::new();
    out.extend_from_slice(buffer.format(signed).as_bytes())
}

/// Appends a number of at most three digits, digit by digit, which takes less than a copy.
#[inline(always)]
#[tactic(auto, using(crate::proofs::Decimals::one_digit))]
fn push_short<A: Allocator>(out: &mut Vec<u8, A>, number: u32) -> Result<(), AllocError>
    requires { number < 1000 }
    ensures ok { OnOk result (out.new.items ≡ out.old.items ++ decimal number) }
    ensures keeps { StartsWith out.new.items out.old.items }
{
    if number >= 100 {
        push_digit(out, number / 100)?;
        push_digit(out, number / 10 % 10)?;
        return push_digit(out, number % 10);
    }
    if number >= 10 {
        push_digit(out, number / 10 % 10)?;
        return push_digit(out, number % 10);
    }
    push_digit(out, number % 10)
}

/// Appends a digit.
#[inline(always)]
fn push_digit<A: Allocator>(out: &mut Vec<u8, A>, digit: u32) -> Result<(), AllocError>
    requires { digit < 10 }
    ensures ok { OnOk result (out.new.items ≡ out.old.items ++ (48 + digit) ∷ []) }
    ensures keeps { StartsWith out.new.items out.old.items }
{
    push_octet(out, b'0' + digit as u8)
}
