//! The texts of floats by their bits.

ghost use Rattle.std.specs.Prelude.{◌≡◌, ◌*◌, ◌^◌, ◌<◌, ◌≤◌, ◌++◌, OnOk, IfOk};
ghost use Rattle.std.specs.Io.{StartsWith};
ghost use Rattle.float_text.specs.Shortest.{span_of, digits_of, places_of};
ghost use Rattle.float_text.specs.Text.{text_of, finite_text, size_text, float_text, double_text};

use crate::digits::times_power;
use crate::format::{BINARY32, BINARY64, Format};
use crate::layout::push_decimal;
use crate::shortest::shortest;
use rtps_ascii::{push_octet, push_word};
use std::alloc::{AllocError, Allocator};

/// Appends a binary32 (IEEE 754-2019, 3.4) as a JSON value, by its bits as `f32::to_bits` gives
/// them.
///
/// The value is that of [`push_double`], where an exponent is written from `1e13` on and below
/// `0.000001`. The digits are those that a binary32 needs: `0.1`, where the same number as a
/// binary64 is `0.10000000149011612`.
pub fn push_float<A: Allocator>(out: &mut Vec<u8, A>, bits: u32) -> Result<(), AllocError>
    ensures ok { OnOk result (out.new.items ≡ out.old.items ++ float_text bits) }
    ensures keeps { StartsWith out.new.items out.old.items }
{
    let exponent = u64::from(bits / 8_388_608 % 256);
    let fraction = u64::from(bits % 8_388_608);
    push_fields(
        out,
        &BINARY32,
        bits / 2_147_483_648 == 1,
        exponent,
        fraction,
    )
}

/// Appends a binary64 (IEEE 754-2019, 3.4) as a JSON value (RFC 8259), by its bits as
/// `f64::to_bits` gives them.
///
/// A finite float is a number: digits are rounded away, half to even, as long as what is left still
/// reads as the same float: `1.0`, `0.1`, `-0.0`. An exponent is written from
/// `1e16` on and below `0.00001`, as in `1.5e-7`. JSON has no number for the others, which are the
/// strings `"NaN"`, `"Infinity"` and `"-Infinity"`. So the text is the same for the same bits, but
/// each NaN has the same one.
///
/// The error says that memory was refused: a part of the text may stand in `out` then.
///
/// ```text
/// let mut out = b"{\"x\":".to_vec(alloc)?;
/// push_double(&mut out, 0x3fb9_9999_9999_999a)?; // {"x":0.1
/// ```
pub fn push_double<A: Allocator>(out: &mut Vec<u8, A>, bits: u64) -> Result<(), AllocError>
    ensures ok { OnOk result (out.new.items ≡ out.old.items ++ double_text bits) }
    ensures keeps { StartsWith out.new.items out.old.items }
{
    let exponent = bits / 4_503_599_627_370_496 % 2_048;
    let fraction = bits % 4_503_599_627_370_496;
    push_fields(
        out,
        &BINARY64,
        bits / 9_223_372_036_854_775_808 == 1,
        exponent,
        fraction,
    )
}

/// Appends the text of a float by its fields.
#[tactic(auto, unfolding(crate::specs::Text::text_of))]
fn push_fields<A: Allocator>(
    out: &mut Vec<u8, A>,
    format: &Format,
    negative: bool,
    exponent: u64,
    fraction: u64,
) -> Result<(), AllocError>
    requires exponent { exponent < 2048 }
    requires fraction { fraction < format.now.hidden }
    requires hidden { format.now.hidden ≤ 2 ^ 52 }
    requires shift { format.now.shift ≤ 1077 }
    ensures ok { OnOk result (out.new.items ≡ out.old.items
        ++ text_of format.now negative exponent fraction) }
    ensures keeps { StartsWith out.new.items out.old.items }
{
    if exponent == format.last {
        if fraction != 0 {
            return push_word(out, "\"NaN\"");
        }
        let word = if negative {
            "\"-Infinity\""
        } else {
            "\"Infinity\""
        };
        return push_word(out, word);
    }
    if negative {
        push_octet(out, b'-')?;
    }
    push_finite(out, format, exponent, fraction)
}

/// Appends the text of a finite float without its sign.
#[tactic(auto, unfolding(crate::specs::Text::finite_text))]
fn push_finite<A: Allocator>(
    out: &mut Vec<u8, A>,
    format: &Format,
    exponent: u64,
    fraction: u64,
) -> Result<(), AllocError>
    requires exponent { exponent < 2048 }
    requires fraction { fraction < format.now.hidden }
    requires hidden { format.now.hidden ≤ 2 ^ 52 }
    requires shift { format.now.shift ≤ 1077 }
    ensures ok { OnOk result (out.new.items ≡ out.old.items
        ++ finite_text format.now exponent fraction) }
    ensures keeps { StartsWith out.new.items out.old.items }
{
    if exponent == 0 {
        if fraction == 0 {
            return push_word(out, "0.0");
        }
        return push_size(out, format, fraction, false, 1);
    }
    let narrow = fraction == 0 && exponent > 1;
    push_size(out, format, fraction + format.hidden, narrow, exponent)
}

/// Appends the text of a float above 0.
#[tactic(auto, unfolding(crate::specs::Text::size_text, crate::specs::Text::span_text))]
fn push_size<A: Allocator>(
    out: &mut Vec<u8, A>,
    format: &Format,
    significand: u64,
    narrow: bool,
    exponent: u64,
) -> Result<(), AllocError>
    requires exponent { exponent < 2048 }
    requires above { 0 < significand }
    requires small { significand < 2 ^ 53 }
    requires shift { format.now.shift ≤ 1077 }
    ensures ok { OnOk result (out.new.items ≡ out.old.items
        ++ size_text format.now significand narrow exponent) }
    ensures keeps { StartsWith out.new.items out.old.items }
{
    let point = format.shift.saturating_sub(exponent);
    let twos = exponent.saturating_sub(format.shift);
    let (number, places) = decimal_of(out.allocator(), significand, narrow, twos, point)?;
    push_decimal(out, format, number, places, point as usize)
}

/// Returns the shortest decimal of a float, and how many digits were rounded away for it.
fn decimal_of<A: Allocator>(
    alloc: &A,
    significand: u64,
    narrow: bool,
    twos: u64,
    fives: u64,
) -> Result<(u64, usize), AllocError>
    requires above { 0 < significand }
    requires small { significand < 2 ^ 53 }
    ensures digits { IfOk result (λ decimal.
        decimal.0 ≡ digits_of (span_of significand narrow (2 ^ twos * 5 ^ fives))) }
    ensures places { IfOk result (λ decimal.
        decimal.1 ≡ places_of (span_of significand narrow (2 ^ twos * 5 ^ fives))) }
    ensures small { IfOk result (λ decimal. decimal.1 < 2 ^ 63) }
{
    let one = Vec::from_slice(alloc, &[1])?;
    let power = times_power(alloc, one, 2, twos)?;
    let unit = times_power(alloc, power, 5, fives)?;
    shortest(alloc, &unit, significand, narrow)
}
