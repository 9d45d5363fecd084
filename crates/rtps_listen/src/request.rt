//! What the words of the command line ask for.

ghost use Rattle.std.specs.Prelude.{◌≡◌, ◌≤◌, option_map};
ghost use Rattle.clap.specs.Words.{found_of, rows_of};
ghost use Rattle.rtps_listen.specs.Options.{AreOptions, batch_size, is_set, number_in, one_to, text_or, up_to};
ghost use Rattle.rtps_listen.specs.Request.{Asks, AsksLive};

use crate::options::{ADDRESS, OWN, Options, TOPIC, TYPE_NAME};
use clap::ArgMatches;

/// What the words ask for, with the options of the subcommand.
#[derive(Clone, Copy, Debug, PartialEq, Eq)]
pub enum Request<'a> {
    /// The events in a record file, as a participant sees them.
    Dump(Options<'a>),
    /// What becomes of each submessage in a record file.
    Explain(Options<'a>),
    /// What readers report and answer of a record file.
    Replay(Options<'a>),
    /// What readers keep of a record file.
    Samples(Options<'a>),
    /// What readers report and answer in a domain.
    Listen(Options<'a>),
    /// The same of a participant that announces itself and its readers.
    Announce(Options<'a>),
    /// An option that only a participant which announces itself has, of one that doesn't.
    Stray(Options<'a>),
}

/// Returns the first value after this name, or else `other`.
#[tactic(auto, using(crate::proofs::Found::first_text))]
fn text_in<'a>(matches: &ArgMatches<'a>, name: &str, other: &'a str) -> &'a str
    ensures { result.now ≡ text_or name.now other.entry.now (rows_of (found_of matches.now)) }
{
    match matches.get_str(name) {
        Some(text) => text,
        None => other,
    }
}

/// Whether the flag of this name is set, as clap's `get_flag` answers it.
fn flag_in(matches: &ArgMatches<'_>, name: &str) -> bool
    ensures { result ≡ is_set name.now (rows_of (found_of matches.now)) }
{
    matches.get_one::<bool>(name).unwrap_or(false)
}

/// Returns the number after this name, or 0.
fn number_in(matches: &ArgMatches<'_>, name: &str) -> u32
    ensures { result ≡ number_in name.now (rows_of (found_of matches.now)) }
{
    matches.get_one::<u32>(name).unwrap_or(0)
}

/// Returns this number if it is from 1 to `most`, or else 1.
///
/// clap refuses a line with a value out of its range, but its contract doesn't say so of a value
/// that it found. So the number is tested here, for the conditions of what is built on it. It is
/// out of its range only if the subcommand has no such option.
fn one_to(most: u32, number: u32) -> u32
    requires { 1 ≤ most }
    ensures value { result ≡ one_to most number }
    ensures some { 1 ≤ result }
    ensures few { result ≤ most }
{
    if 1 <= number && number <= most {
        number
    } else {
        1
    }
}

/// Returns this number if it is at most `most`, or else 0; see [`one_to`].
fn up_to(most: u32, number: u32) -> u32
    ensures value { result ≡ up_to most number }
    ensures few { result ≤ most }
{
    if number <= most { number } else { 0 }
}

/// Returns the number of datagrams of a batch: the given one if it is from 1 to 4,096, or else
/// more for several workers than for one. Their threads start with each batch, so that larger
/// ones take less time; one worker is faster where the lists of a batch stay in its cache.
fn batch_size(workers: u8, given: u32) -> u16
    ensures value { result ≡ batch_size workers given }
    ensures some { 1 ≤ result }
    ensures few { result ≤ 4096 }
{
    match given {
        1..=4096 => given as u16,
        _ if workers == 1 => 512,
        _ => 2_048,
    }
}

/// Returns the options that were found after a subcommand. One that the subcommand doesn't have is
/// as if no value was given.
fn options_in<'a>(matches: &ArgMatches<'a>) -> Options<'a>
    ensures { AreOptions result (rows_of (found_of matches.now)) }
{
    let workers = one_to(64, number_in(matches, "workers")) as u8;
    Options {
        file: text_in(matches, "file", "-"),
        own: text_in(matches, "own", OWN),
        readers: one_to(8, number_in(matches, "readers")) as u8,
        workers,
        batch: batch_size(workers, number_in(matches, "batch")),
        topic: text_in(matches, "topic", TOPIC),
        type_name: text_in(matches, "type", TYPE_NAME),
        no_key: flag_in(matches, "no-key"),
        fixed: matches.get_str("fixed"),
        best_effort: flag_in(matches, "best-effort"),
        raw: flag_in(matches, "raw"),
        summary: flag_in(matches, "summary"),
        keep: up_to(65_536, number_in(matches, "keep")),
        domain: up_to(232, number_in(matches, "domain")) as u16,
        address: text_in(matches, "address", ADDRESS),
        count: one_to(65_536, number_in(matches, "count")),
        turns: one_to(100_000, number_in(matches, "turns")),
        announce: flag_in(matches, "announce"),
        peers: matches.get_str("peers"),
        no_multicast: flag_in(matches, "no-multicast"),
        lease: up_to(86_400, number_in(matches, "lease")),
    }
}

/// Returns what the subcommand that was found asks for, with its matches. No subcommand is
/// `dump -`.
#[tactic(auto, unfolding(crate::specs::Request::Asks))]
pub fn request_of<'a>(found: Option<(&'a str, &ArgMatches<'a>)>) -> Request<'a>
    ensures { Asks result (option_map (λ p. (p.0.now, rows_of (found_of p.1.now))) found.entry) }
{
    let Some((name, matches)) = found else {
        return Request::Dump(Options::unset());
    };
    let options = options_in(matches);
    if name == "dump" {
        Request::Dump(options)
    } else if name == "explain" {
        Request::Explain(options)
    } else if name == "replay" {
        Request::Replay(options)
    } else if name == "samples" {
        Request::Samples(options)
    } else {
        live_request(options)
    }
}

/// Returns what `listen` with these options asks for.
#[tactic(auto, unfolding(crate::specs::Request::AsksLive))]
fn live_request(options: Options<'_>) -> Request<'_>
    ensures { AsksLive options.entry result }
{
    if options.announce {
        Request::Announce(options)
    } else if options.peers.is_some() || options.no_multicast || options.lease != 0 {
        Request::Stray(options)
    } else {
        Request::Listen(options)
    }
}
