//! Strings and names as JSON, in ASCII.

ghost use Rattle.std.specs.Prelude.{◌≡◌, ◌<◌, ◌++◌, ◌∷◌, [], OnOk, chars};
ghost use Rattle.std.specs.Char.{digit_char};
ghost use Rattle.std.specs.Fmt.{signed_decimal};
ghost use Rattle.std.specs.Io.{StartsWith};
ghost use Rattle.std.specs.List.{flat_map};
ghost use Rattle.dds_xcdr.specs.Types.{values_of};
ghost use Rattle.dds_described.specs.JsonText.{enum_text, escaped, quoted, string_text, unit_escaped};

use dds_xcdr::Case;
use rtps_ascii::{push_number, push_octet, push_word};
use std::alloc::{AllocError, Allocator};

/// Returns the digit in hex of a number below 16.
fn hex_digit(number: u16) -> u8
    requires { number < 16 }
    ensures { result ≡ digit_char number }
{
    if number < 10 {
        b'0' + number as u8
    } else {
        b'a' + (number as u8 - 10)
    }
}

/// Appends a unit of UTF-16, escaped.
fn push_unit<A: Allocator>(out: &mut Vec<u8, A>, unit: u16) -> Result<(), AllocError>
    ensures ok { OnOk result (out.new.items ≡ out.old.items ++ unit_escaped unit) }
    ensures keeps { StartsWith out.new.items out.old.items }
{
    let digits = [
        b'\\',
        b'u',
        hex_digit(unit / 4096),
        hex_digit(unit / 256 % 16),
        hex_digit(unit / 16 % 16),
        hex_digit(unit % 16),
    ];
    out.extend_from_slice(&digits)
}

/// Appends units of UTF-16, escaped.
fn push_units<A: Allocator>(out: &mut Vec<u8, A>, units: &[u16]) -> Result<(), AllocError>
    ensures ok { OnOk result (out.new.items ≡ out.old.items ++ flat_map unit_escaped units.now) }
    ensures keeps { StartsWith out.new.items out.old.items }
{
    'units: for unit in units {
        push_unit(out, *unit)?;
    }
    Ok(())
}

/// Appends a character of a string.
#[tactic(auto, unfolding(crate::specs::JsonText::escaped))]
fn push_char<A: Allocator>(out: &mut Vec<u8, A>, c: char) -> Result<(), AllocError>
    ensures ok { OnOk result (out.new.items ≡ out.old.items ++ escaped c) }
    ensures keeps { StartsWith out.new.items out.old.items }
{
    if c == '"' {
        return push_word(out, "\\\"");
    }
    if c == '\\' {
        return push_word(out, "\\\\");
    }
    if ' ' <= c && c <= '~' {
        return push_octet(out, c as u8);
    }
    let mut units = [0; 2];
    push_units(out, c.encode_utf16(&mut units))
}

/// Appends the characters of a string.
fn push_chars<A: Allocator>(out: &mut Vec<u8, A>, text: &str) -> Result<(), AllocError>
    ensures ok { OnOk result (out.new.items ≡ out.old.items ++ flat_map escaped (chars text.now)) }
    ensures keeps { StartsWith out.new.items out.old.items }
{
    'chars: for c in text.chars() {
        push_char(out, c)?;
    }
    Ok(())
}

/// Appends a string with its quotes.
pub(crate) fn push_string<A: Allocator>(out: &mut Vec<u8, A>, text: &str) -> Result<(), AllocError>
    ensures ok { OnOk result (out.new.items ≡ out.old.items ++ string_text text.now) }
    ensures keeps { StartsWith out.new.items out.old.items }
{
    push_octet(out, b'"')?;
    push_chars(out, text)?;
    push_octet(out, b'"')
}

/// Appends a character of 8 bits as a string of it.
pub(crate) fn push_character<A: Allocator>(
    out: &mut Vec<u8, A>,
    octet: u8,
) -> Result<(), AllocError>
    ensures ok { OnOk result (out.new.items ≡ out.old.items ++ quoted (octet ∷ [])) }
    ensures keeps { StartsWith out.new.items out.old.items }
{
    push_octet(out, b'"')?;
    push_char(out, char::from(octet))?;
    push_octet(out, b'"')
}

/// Appends a number in decimal, with a minus if it is below 0.
pub(crate) fn push_signed<A: Allocator>(out: &mut Vec<u8, A>, number: i64) -> Result<(), AllocError>
    ensures ok { OnOk result (out.new.items ≡ out.old.items ++ signed_decimal number) }
    ensures keeps { StartsWith out.new.items out.old.items }
{
    if number < 0 {
        push_octet(out, b'-')?;
    }
    push_number(out, number.unsigned_abs())
}

/// Appends a value of an enumeration.
pub(crate) fn push_enum<A: Allocator>(
    out: &mut Vec<u8, A>,
    cases: &[Case],
    value: i32,
) -> Result<(), AllocError>
    ensures ok { OnOk result (out.new.items ≡ out.old.items
        ++ enum_text (values_of cases.now) value) }
    ensures keeps { StartsWith out.new.items out.old.items }
{
    'cases: for case in cases {
        if case.value == value {
            return push_string(out, case.name.as_str());
        }
    }
    push_signed(out, i64::from(value))
}
