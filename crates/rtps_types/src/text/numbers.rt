//! Sequence numbers and places in decimal.

ghost use Rattle.std.specs.Prelude.{◌≡◌, Some};
ghost use Rattle.std.specs.Char.{is_ascii_digit};
ghost use Rattle.std.specs.Fmt.{decimal};
ghost use Rattle.std.specs.List.{list_all};
ghost use Rattle.rtps_types.specs.Number.{value_of};
ghost use Rattle.rtps_types.specs.NumberText.{decimal_in, number_in, place_in, place_text};
ghost use Rattle.rtps_types.specs.Text.{made_of};

use super::{TextFault, halves};
use crate::{MAX_NUMBER, Number, Place};
use std::fmt;
use std::str::FromStr;

/// Whether all characters of a text are digits.
fn is_digits(text: &str) -> bool
    ensures { result ≡ list_all is_ascii_digit text.now }
{
    text.as_bytes().iter().all(u8::is_ascii_digit)
}

/// Parses a decimal number from `least` to `greatest`.
fn read_decimal(text: &str, least: u64, greatest: u64) -> Result<u64, TextFault>
    ensures { result ≡ decimal_in least greatest text.now }
{
    if !is_digits(text) {
        return Err(TextFault::Number);
    }
    let Ok(number) = text.parse::<u64>() else {
        return Err(TextFault::Number);
    };
    if number < least || number > greatest {
        return Err(TextFault::Number);
    }
    Ok(number)
}

/// In decimal.
impl fmt::Display for Number {
    ghost output = { λ number. Some (decimal (value_of number)) };

    fn fmt<W: fmt::Write>(&self, f: &mut fmt::Formatter<W>) -> fmt::Result {
        fmt::Display::fmt(&self.get(), f)
    }
}

/// As it is displayed.
impl fmt::Debug for Number {
    fn fmt<W: fmt::Write>(&self, f: &mut fmt::Formatter<W>) -> fmt::Result {
        fmt::Display::fmt(self, f)
    }
}

/// A number from 1 to [`MAX_NUMBER`] in decimal digits only, without a sign.
impl FromStr for Number {
    type Err = TextFault;

    ghost from_str_gives = { λ text r. made_of value_of r ≡ number_in text };

    fn from_str(text: &str) -> Result<Number, TextFault> {
        Number::new(read_decimal(text, 1, MAX_NUMBER)?).ok_or(TextFault::Number)
    }
}

/// The datagram and the submessage in decimal, with a colon between them.
impl fmt::Display for Place {
    ghost output = { λ place. Some (place_text place) };

    fn fmt<W: fmt::Write>(&self, f: &mut fmt::Formatter<W>) -> fmt::Result {
        let Place {
            datagram,
            submessage,
        } = *self;
        write!(f, "{datagram}:{submessage}")
    }
}

/// As it is displayed.
impl fmt::Debug for Place {
    fn fmt<W: fmt::Write>(&self, f: &mut fmt::Formatter<W>) -> fmt::Result {
        fmt::Display::fmt(self, f)
    }
}

/// Two numbers in decimal digits only, with a colon between them.
impl FromStr for Place {
    type Err = TextFault;

    ghost from_str_gives = { λ text r. r ≡ place_in text };

    fn from_str(text: &str) -> Result<Place, TextFault> {
        let (datagram, submessage) = halves(text, b':')?;
        Ok(Place {
            datagram: read_decimal(datagram, 0, u64::MAX)?,
            submessage: read_decimal(submessage, 0, u64::from(u32::MAX))? as u32,
        })
    }
}
