//! The options that are found in a line.

ghost use Rattle.std.specs.Prelude.{◌≡◌, ◌≤◌, codes};
ghost use Rattle.clap.specs.Words.{found_of, rows_of};
ghost use Rattle.rtps_bench.specs.Options.{AreOptions, number_in, one_to, text_or};
ghost use Rattle.rtps_bench.specs.Line.{topic_text};

use crate::options::{Options, TOPIC};
use clap::ArgMatches;

/// Returns the number after this name, or 0.
fn number_in(matches: &ArgMatches<'_>, name: &str) -> u32
    ensures { result ≡ number_in name.now (rows_of (found_of matches.now)) }
{
    matches.get_one::<u32>(name).unwrap_or(0)
}

/// Returns the number after this name if it is from 1 to `most`, or else 1.
///
/// clap refuses a line with a value out of its range, but its contract doesn't say so of a value
/// that it found. So the number is tested here, for the conditions of what is built on it.
fn number_to(matches: &ArgMatches<'_>, name: &str, most: u32) -> u32
    requires { 1 ≤ most }
    ensures value { result ≡ one_to most (number_in name.now (rows_of (found_of matches.now))) }
    ensures some { 1 ≤ result }
    ensures few { result ≤ most }
{
    let number = number_in(matches, name);
    if 1 <= number && number <= most {
        number
    } else {
        1
    }
}

/// Returns the value of `--topic`, or else [`TOPIC`].
#[tactic(auto, using(crate::proofs::Parsed::first_text))]
fn topic_in<'a>(matches: &ArgMatches<'a>) -> &'a str
    ensures { result.now ≡ text_or (codes "topic") topic_text (rows_of (found_of matches.now)) }
{
    match matches.get_str("topic") {
        Some(text) => text,
        None => TOPIC,
    }
}

/// Returns the options that were found in the line.
pub fn options_in<'a>(matches: &ArgMatches<'a>) -> Options<'a>
    ensures { AreOptions result (rows_of (found_of matches.now)) }
{
    Options {
        readers: number_to(matches, "readers", 64) as u8,
        topics: number_to(matches, "topics", 64) as u8,
        topic: topic_in(matches),
        fixed: matches.get_str("fixed"),
        workers: number_to(matches, "workers", 64) as u8,
        batch: number_to(matches, "batch", 4096) as u16,
        repeat: number_to(matches, "repeat", 1000) as u16,
    }
}
