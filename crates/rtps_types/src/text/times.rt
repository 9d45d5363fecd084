//! Timestamps in hex, as in a message, and durations in decimal.

ghost use Rattle.std.specs.Prelude.{◌≡◌, Some, length};
ghost use Rattle.std.specs.Fmt.{WritesOnOk};
ghost use Rattle.rtps_types.specs.TimeText.{duration_text, moment_in, moment_text, seconds_text, word_in, word_text};

use super::{TextFault, halves, read_octets};
use crate::{Duration, Timestamp};
use std::str::FromStr;
use std::{fmt, str};

/// Eight hex digits of seconds, a dot, and eight of the fraction.
impl fmt::Display for Timestamp {
    ghost output = { λ moment. Some (moment_text moment) };

    fn fmt<W: fmt::Write>(&self, f: &mut fmt::Formatter<W>) -> fmt::Result {
        let mut digits = [b'.'; 17];
        let (seconds, rest) = digits.split_at_mut(8);
        let (_, fraction) = rest.split_at_mut(1);
        format_word(self.seconds, seconds);
        format_word(self.fraction, fraction);
        f.pad(str::from_utf8(&digits).map_err(|_| fmt::Error)?)
    }
}

/// As it is displayed.
impl fmt::Debug for Timestamp {
    fn fmt<W: fmt::Write>(&self, f: &mut fmt::Formatter<W>) -> fmt::Result {
        fmt::Display::fmt(self, f)
    }
}

/// Writes a number as eight hex digits.
fn format_word(number: u32, digits: &mut [u8])
    requires { length digits.old ≡ 8 }
    ensures { digits.new ≡ word_text number }
{
    match hex::encode_to_slice(&number.to_be_bytes(), digits) {
        Ok(()) => {}
        Err(_) => unreachable!(),
    }
}

/// Parses a number of eight hex digits.
fn read_word(text: &str) -> Result<u32, TextFault>
    ensures { result ≡ word_in text.now }
{
    Ok(u32::from_be_bytes(read_octets(text)?))
}

/// Eight hex digits of seconds, a dot, and eight of the fraction, in either case.
impl FromStr for Timestamp {
    type Err = TextFault;

    ghost from_str_gives = { λ text r. r ≡ moment_in text };

    fn from_str(text: &str) -> Result<Timestamp, TextFault> {
        let (seconds, fraction) = halves(text, b'.')?;
        Ok(Timestamp {
            seconds: read_word(seconds)?,
            fraction: read_word(fraction)?,
        })
    }
}

/// The number of nanoseconds in a second.
const SECOND: u64 = 1_000_000_000;

/// Seconds with nine decimals, rounded down; `infinite` for the standard's infinite duration
/// (DDSI-RTPS 9.3.2.3).
impl fmt::Display for Duration {
    ghost output = { λ duration. Some (duration_text duration) };

    fn fmt<W: fmt::Write>(&self, f: &mut fmt::Formatter<W>) -> fmt::Result {
        if self.seconds == i32::MAX && self.fraction == u32::MAX {
            return f.pad("infinite");
        }
        let added = u64::from(self.fraction) * SECOND / (1 << 32);
        let whole = u64::from(self.seconds.unsigned_abs()) * SECOND;
        if self.seconds < 0 {
            f.write_str("-")?;
            return show_nanoseconds(whole - added, f);
        }
        show_nanoseconds(whole + added, f)
    }
}

/// As it is displayed.
impl fmt::Debug for Duration {
    fn fmt<W: fmt::Write>(&self, f: &mut fmt::Formatter<W>) -> fmt::Result {
        fmt::Display::fmt(self, f)
    }
}

/// Writes nanoseconds as seconds with nine decimals.
fn show_nanoseconds<W: fmt::Write>(nanoseconds: u64, f: &mut fmt::Formatter<W>) -> fmt::Result
    ensures { WritesOnOk W.write_str_gives f.old result (seconds_text nanoseconds) f.new }
{
    let seconds = nanoseconds / SECOND;
    let decimals = nanoseconds % SECOND;
    write!(f, "{seconds}.{decimals:09}")
}
