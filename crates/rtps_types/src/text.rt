//! Values as text, for logs and command lines: formatting and parsing.

ghost use Rattle.std.specs.Prelude.{◌≡◌, ◌<◌, ◌≤◌, IfErr, IfOk, is_ok, length};
ghost use Rattle.std.specs.Fmt.{WritesOnOk};
ghost use Rattle.hex.specs.Hex.{encode_lower};
ghost use Rattle.rtps_types.specs.Text.{before, behind, has, octets_in};
ghost use Rattle.rtps_types.specs.declared.text.TextFault.TheVariants.{Separator};

use hex::FromHex;
use std::{fmt, str};
use thiserror::Error;

mod addresses;
mod identities;
mod numbers;
mod times;

/// Why a text can't be parsed as an identity, a number, a place or a timestamp. If both parts of a
/// text have a fault, that of the first part is reported.
#[derive(Clone, Copy, Debug, PartialEq, Eq, Error)]
pub enum TextFault {
    /// The separator between two parts is missing.
    #[error("the separator is missing")]
    Separator,
    /// An identity or a part of a timestamp doesn't have two digits for each of its octets.
    #[error("the number of hex digits is wrong")]
    Length,
    /// The number of characters is right, but one of them isn't a hex digit.
    #[error("a character isn't a hex digit")]
    Digit,
    /// It isn't a number in decimal digits only, or the number is out of range.
    #[error("not a decimal number of its range")]
    Number,
}

/// Parses octets of two hex digits each, in either case.
#[tactic(auto, using(crate::proofs::Texts::octets_read))]
fn read_octets<const N: usize>(text: &str) -> Result<[u8; N], TextFault>
    ensures { result ≡ octets_in N text.now }
{
    if text.len() % 2 != 0 || text.len() / 2 != N {
        return Err(TextFault::Length);
    }
    <[u8; N] as FromHex>::from_hex(text).map_err(|_| TextFault::Digit)
}

/// Returns the parts before and after the first separator in a text.
#[tactic(auto, using(crate::proofs::Texts::halves_of))]
fn halves(text: &str, separator: u8) -> Result<(&str, &str), TextFault>
    requires { separator < 128 }
    ensures fault { IfErr result (λ e. e ≡ Separator) }
    ensures found { is_ok result ≡ has separator text.now }
    ensures before { IfOk result (λ halves. halves.0.now ≡ before separator text.now) }
    ensures behind { IfOk result (λ halves. halves.1.now ≡ behind separator text.now) }
{
    match text.split_once(char::from(separator)) {
        Some(halves) => Ok(halves),
        None => Err(TextFault::Separator),
    }
}

/// Writes up to 16 octets as two lower-case hex digits each.
fn show_octets<W: fmt::Write>(octets: &[u8], f: &mut fmt::Formatter<W>) -> fmt::Result
    requires { length octets.now ≤ 16 }
    ensures { WritesOnOk W.write_str_gives f.old result (encode_lower octets.now) f.new }
{
    let mut digits = [0; 32];
    let digits = &mut digits[..2 * octets.len()];
    hex::encode_to_slice(octets, digits).map_err(|_| fmt::Error)?;
    f.pad(str::from_utf8(digits).map_err(|_| fmt::Error)?)
}
