//! The words of the command line.

ghost use Rattle.std.specs.Prelude.{◌≡◌, map, option_map};
ghost use Rattle.rtps_dump.specs.Words.{asked, begins_with_dash, chosen, command_in, is_file, named};

use std::convert::AsStr;

/// The prefix of the participant if `--own` isn't given, in hex.
const OWN: &str = "0b0b0b0b0b0b0b0b0b0b0b0b";

/// What is printed of a record file.
#[derive(Clone, Copy, Debug, PartialEq, Eq)]
pub enum Command {
    /// The events, as a participant sees them.
    Dump,
    /// What becomes of each submessage.
    Explain,
}

/// What a line asks for.
#[derive(Clone, Copy, Debug, PartialEq, Eq)]
pub struct Request<'a> {
    pub command: Command,
    /// The name of the record file; `-` is standard input.
    pub file: &'a str,
    /// The prefix of the participant that reads, in hex.
    pub own: &'a str,
}

/// Returns what the words ask for, or `None` if they ask for nothing. The first word is the
/// program's name.
pub fn read_words<'a, S: AsStr>(words: &'a [S]) -> Option<Request<'a>>
    ensures { option_map (λ r. (r.command, r.file.now, r.own.now)) result
        ≡ asked (map S.text words.entry.now) }
{
    match words {
        [] | [_] => Some(Request {
            command: Command::Dump,
            file: "-",
            own: OWN,
        }),
        [_, command, rest @ ..] => {
            let command = command_in(command.as_str())?;
            let (file, own) = named(rest)?;
            Some(Request { command, file, own })
        }
    }
}

/// Returns the command of this name.
fn command_in(word: &str) -> Option<Command>
    ensures { result ≡ command_in word.now }
{
    if word == "dump" {
        Some(Command::Dump)
    } else if word == "explain" {
        Some(Command::Explain)
    } else {
        None
    }
}

/// Returns the file and the prefix that the words after a command name.
fn named<'a, S: AsStr>(words: &'a [S]) -> Option<(&'a str, &'a str)>
    ensures { option_map (λ p. (p.0.now, p.1.now)) result ≡ named (map S.text words.entry.now) }
{
    match words {
        [file] => chosen(file.as_str(), OWN),
        [first, second, third] => {
            let (first, second, third) = (first.as_str(), second.as_str(), third.as_str());
            if first == "--own" {
                chosen(third, second)
            } else if second == "--own" {
                chosen(first, third)
            } else {
                None
            }
        }
        _ => None,
    }
}

/// Returns the file and the prefix, if the file is no other option.
fn chosen<'a>(file: &'a str, own: &'a str) -> Option<(&'a str, &'a str)>
    ensures { option_map (λ p. (p.0.now, p.1.now)) result ≡ chosen file.entry.now own.entry.now }
{
    if is_file(file) {
        Some((file, own))
    } else {
        None
    }
}

/// Whether a word is that of a file: a dash, or a word that begins with none.
fn is_file(word: &str) -> bool
    ensures { result ≡ is_file word.now }
{
    word == "-" || !begins_with_dash(word.as_bytes())
}

fn begins_with_dash(word: &[u8]) -> bool
    ensures { result ≡ begins_with_dash word.now }
{
    match word.split_first() {
        Some((first, _)) => *first == b'-',
        None => false,
    }
}
