//! The shortest decimal that reads as a float.

ghost use Rattle.std.specs.Prelude.{◌≡◌, ◌+◌, ◌*◌, ◌/◌, ◌%◌, ◌^◌, ◌<◌, ◌≤◌, IfOk, length};
ghost use Rattle.float_text.specs.Digits.{number_of, AreDigits};
ghost use Rattle.float_text.specs.Shortest.{span_of, digits_of, rounded, is_from, reads_back, places_of};
ghost use Rattle.float_text.specs.Held.{held, IsWide};

use crate::digits::{ends_in_zeros, times, without};
use std::alloc::{AllocError, Allocator};

/// Returns the digits of the shortest decimal that reads as `significand * 4 * unit`, and how many
/// digits were rounded away for it.
pub(crate) fn shortest<A: Allocator>(
    alloc: &A,
    unit: &[u8],
    significand: u64,
    narrow: bool,
) -> Result<(u64, usize), AllocError>
    requires digits { AreDigits unit.now }
    requires some { 0 < number_of unit.now }
    requires above { 0 < significand }
    requires small { significand < 2 ^ 53 }
    ensures digits { IfOk result (λ decimal.
        decimal.0 ≡ digits_of (span_of significand narrow (number_of unit.now))) }
    ensures places { IfOk result (λ decimal.
        decimal.1 ≡ places_of (span_of significand narrow (number_of unit.now))) }
    ensures small { IfOk result (λ decimal. decimal.1 < 2 ^ 63) }
{
    let gap = if narrow { 1 } else { 2 };
    let twice = times(alloc, unit, 8 * significand)?;
    let low = times(alloc, unit, 4 * significand - gap)?;
    let high = times(alloc, unit, 4 * significand + 2)?;
    let places = most_places(&twice, &low, &high, significand % 2 == 0);
    Ok((round(&twice, places), places))
}

/// Returns how many digits of the float can be left away.
fn most_places(twice: &[u8], low: &[u8], high: &[u8], even: bool) -> usize
    requires twice { AreDigits twice.now }
    requires low { AreDigits low.now }
    requires high { AreDigits high.now }
    requires is_twice { number_of twice.now % 2 ≡ 0 }
    requires wide { IsWide (held twice.now low.now high.now even) }
    ensures most { result ≡ places_of (held twice.now low.now high.now even) }
    ensures small { number_of high.now < 2 ^ 62 * 10 ^ result }
    ensures short { result ≤ length high.now }
{
    let mut places = high.len();
    while places > 0 {
        if reads_back(twice, low, high, even, places) {
            return places;
        }
        places -= 1;
    }
    places
}

/// Whether the float, rounded, reads as itself.
fn reads_back(twice: &[u8], low: &[u8], high: &[u8], even: bool, places: usize) -> bool
    requires twice { AreDigits twice.now }
    requires low { AreDigits low.now }
    requires high { AreDigits high.now }
    requires is_twice { number_of twice.now % 2 ≡ 0 }
    requires small_twice { number_of twice.now < 2 ^ 63 * 10 ^ places }
    requires small_low { number_of low.now < 2 ^ 63 * 10 ^ places }
    requires small_high { number_of high.now < 2 ^ 63 * 10 ^ places }
    ensures { result ≡ reads_back (held twice.now low.now high.now even) places }
{
    let number = round(twice, places);
    if is_above(low, even, places, number) {
        return is_below(high, even, places, number);
    }
    false
}

/// Whether a number with zeros in place of the last digits is above `low`, or equal if it may be.
fn is_above(low: &[u8], even: bool, places: usize, number: u64) -> bool
    requires digits { AreDigits low.now }
    requires small { number_of low.now < 2 ^ 63 * 10 ^ places }
    ensures { result ≡ is_from even (number_of low.now) (number * 10 ^ places) }
{
    let least = without(low, places);
    if number != least {
        return number > least;
    }
    if even {
        return ends_in_zeros(low, places);
    }
    false
}

/// Whether a number with zeros in place of the last digits is below `high`, or equal if it may be.
fn is_below(high: &[u8], even: bool, places: usize, number: u64) -> bool
    requires digits { AreDigits high.now }
    requires small { number_of high.now < 2 ^ 63 * 10 ^ places }
    ensures { result ≡ is_from even (number * 10 ^ places) (number_of high.now) }
{
    let most = without(high, places);
    if number != most {
        return number < most;
    }
    if even {
        return true;
    }
    !ends_in_zeros(high, places)
}

/// Returns the float without its last digits, rounded.
fn round(twice: &[u8], places: usize) -> u64
    requires digits { AreDigits twice.now }
    requires is_twice { number_of twice.now % 2 ≡ 0 }
    requires small { number_of twice.now < 2 ^ 63 * 10 ^ places }
    ensures { result ≡ rounded (number_of twice.now / 2) places }
{
    let halves = without(twice, places);
    let below = halves / 2;
    if halves % 2 == 0 {
        return below;
    }
    if ends_in_zeros(twice, places) {
        return below + below % 2;
    }
    below + 1
}
