//! Whole numbers of any size as decimal digits, of which the last one comes first.

ghost use Rattle.std.specs.Prelude.{◌≡◌, ◌*◌, ◌/◌, ◌%◌, ◌^◌, ◌<◌, ◌≤◌, ◌==◌, IfOk};
ghost use Rattle.float_text.specs.Digits.{number_of, AreDigits};

use std::alloc::{AllocError, Allocator};

/// Returns the digits of a number times a factor.
pub(crate) fn times<A: Allocator>(
    alloc: A,
    digits: &[u8],
    factor: u64,
) -> Result<Vec<u8, A>, AllocError>
    requires digits { AreDigits digits.now }
    requires small { factor ≤ 2 ^ 60 }
    ensures number { IfOk result (λ product.
        number_of product.items ≡ number_of digits.now * factor) }
    ensures digits { IfOk result (λ product. AreDigits product.items) }
{
    let mut product = Vec::with_capacity(alloc, digits.len())?;
    let mut carry = 0;
    for digit in digits {
        let sum = u64::from(*digit) * factor + carry;
        product.push((sum % 10) as u8)?;
        carry = sum / 10;
    }
    while carry > 0 {
        product.push((carry % 10) as u8)?;
        carry /= 10;
    }
    Ok(product)
}

/// Returns the digits of a number times a power of a small base.
pub(crate) fn times_power<'a, A: Allocator>(
    alloc: &'a A,
    digits: Vec<u8, &'a A>,
    base: u64,
    exponent: u64,
) -> Result<Vec<u8, &'a A>, AllocError>
    requires digits { AreDigits digits.items }
    requires small { base ≤ 5 }
    ensures number { IfOk result (λ product.
        number_of product.items ≡ number_of digits.entry.items * base ^ exponent) }
    ensures digits { IfOk result (λ product. AreDigits product.items) }
{
    let mut product = digits;
    let mut left = exponent;
    while left > 0 {
        let step = left.min(23);
        product = times(alloc, &product, base.pow(step as u32))?;
        left -= step;
    }
    Ok(product)
}

/// Returns the number without its last digits.
pub(crate) fn without(digits: &[u8], places: usize) -> u64
    requires digits { AreDigits digits.now }
    requires small { number_of digits.now < 2 ^ 63 * 10 ^ places }
    ensures { result ≡ number_of digits.now / 10 ^ places }
{
    let mut number = 0;
    let mut place = digits.len();
    while place > places {
        place -= 1;
        number = number * 10 + u64::from(digits[place]);
    }
    number
}

/// Whether the last digits are zeros.
pub(crate) fn ends_in_zeros(digits: &[u8], places: usize) -> bool
    requires { AreDigits digits.now }
    ensures { result ≡ (number_of digits.now % 10 ^ places == 0) }
{
    let end = places.min(digits.len());
    for place in 0..end {
        if digits[place] != 0 {
            return false;
        }
    }
    true
}
