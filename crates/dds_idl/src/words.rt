//! Cutting a text into words.

ghost use Rattle.std.specs.Prelude.{◌≡◌, Some, ◌≤◌, ◌<◌, ◌+◌, ◌^◌, false, drop, length, IfErr, IfOk, IsUtf8};
ghost use Rattle.dds_idl.specs.Words.{AreWords, Found, begins_name, front, front_of, is_numeric, is_wordy, literal_end, run};
ghost use Rattle.dds_idl.specs.declared.fault.IdlFault.TheVariants as faults;

use crate::IdlFault;
use crate::gap::{first_octet, gap_of};
use crate::word::{Kind, Word};
use std::alloc::{AllocError, AllocFailed, Global};

/// The front of a text that is a word.
#[derive(Clone, Copy, Debug)]
pub(crate) struct Front {
    pub(crate) kind: Kind,
    pub(crate) len: usize,
}

/// Whether a name may begin with an octet.
fn begins_name(octet: u8) -> bool
    ensures { result ≡ begins_name octet }
{
    octet.is_ascii_alphabetic() || octet == b'_'
}

/// Whether an octet may stand in a name.
fn is_wordy(octet: u8) -> bool
    ensures { result ≡ is_wordy octet }
{
    begins_name(octet) || octet.is_ascii_digit()
}

/// Whether an octet may stand in a number.
fn is_numeric(octet: u8) -> bool
    ensures { result ≡ is_numeric octet }
{
    is_wordy(octet) || octet == b'.'
}

/// Returns how many octets at the front may stand in a name.
fn name_len(text: &[u8]) -> usize
    ensures run { result ≡ run is_wordy text.now }
{
    text.iter().take_while(|octet| is_wordy(**octet)).count()
}

/// Returns how many octets at the front may stand in a number.
fn number_len(text: &[u8]) -> usize
    ensures run { result ≡ run is_numeric text.now }
{
    text.iter().take_while(|octet| is_numeric(**octet)).count()
}

/// Returns the length of a literal whose first octet is a quote, `None` if it doesn't end on its
/// line.
fn literal_len(text: &[u8], quote: u8) -> Option<usize>
    ensures { result ≡ literal_end quote false 1 (drop 1 text.now) }
{
    let (_, mut left) = text.split_first()?;
    let mut is_escaped = false;
    let mut at: usize = 1;
    while let Some((octet, rest)) = left.split_first() {
        if *octet == b'\n' {
            return None;
        }
        at += 1;
        if *octet == quote && !is_escaped {
            return Some(at);
        }
        is_escaped = *octet == b'\\' && !is_escaped;
        left = rest;
    }
    None
}

/// Returns the kind and the length of a word.
fn word_of(kind: Kind, len: usize) -> Option<Front>
    ensures { result ≡ Some (front_of kind len) }
{
    Some(Front { kind, len })
}

/// Returns the word at the front of a text; `None` where none begins, or a literal doesn't end on
/// its line.
pub(crate) fn front_of(text: &[u8]) -> Option<Front>
    ensures { result ≡ front text.now }
{
    let Some((first, rest)) = text.split_first() else {
        return word_of(Kind::End, 0);
    };
    let octet = *first;
    if begins_name(octet) {
        return word_of(Kind::Name, name_len(text));
    }
    if octet.is_ascii_digit() {
        return word_of(Kind::Number, number_len(text));
    }
    if octet == b'"' {
        return word_of(Kind::Text, literal_len(text, octet)?);
    }
    if octet == b'\'' {
        return word_of(Kind::Character, literal_len(text, octet)?);
    }
    if octet == b':' && first_octet(rest) == b':' {
        return word_of(Kind::Scope, 2);
    }
    if octet.is_ascii_graphic() {
        return word_of(Kind::Mark, 1);
    }
    None
}

/// A fault at an offset of a text.
#[derive(Clone, Copy, Debug, PartialEq, Eq)]
pub(crate) struct Fault {
    pub(crate) at: usize,
    pub(crate) what: IdlFault,
}

impl From<AllocError> for Fault {
    ghost from_gives = { λ _ fault. fault.what ≡ faults.NoMemory };

    fn from(_: AllocError) -> Fault {
        Fault {
            at: 0,
            what: IdlFault::NoMemory,
        }
    }
}

impl<T: Drop> From<AllocFailed<T>> for Fault {
    fn from(_: AllocFailed<T>) -> Fault {
        Fault {
            at: 0,
            what: IdlFault::NoMemory,
        }
    }
}

/// Why no word begins at the front of a text.
fn fault_of(text: &str) -> IdlFault {
    match first_octet(text.as_bytes()) {
        b'"' | b'\'' => IdlFault::OpenLiteral,
        _ => IdlFault::BadCharacter,
    }
}

/// Returns the next word of what is left of a text from an offset on, and what is left after it.
fn next_word(rest: &str, at: usize) -> Result<(Word<'_>, &str), Fault>
    requires { at + length rest.now < 2 ^ 64 }
    ensures ok { IfOk result (λ found. Found at rest.now found.0 found.1.now) }
    ensures utf8 { IfOk result (λ found. IsUtf8 found.1.now) }
    ensures err { IfErr result (λ fault. fault.at ≤ at + length rest.now) }
{
    let gap = gap_of(rest.as_bytes());
    let Some((blank, behind)) = rest.split_at_checked(gap.len) else {
        return Err(Fault {
            at,
            what: IdlFault::NotUtf8,
        });
    };
    let place = at + gap.len;
    if gap.is_open {
        return Err(Fault {
            at,
            what: IdlFault::OpenComment,
        });
    }
    let Some(front) = front_of(behind.as_bytes()) else {
        return Err(Fault {
            at: place,
            what: fault_of(behind),
        });
    };
    let Some((text, left)) = behind.split_at_checked(front.len) else {
        return Err(Fault {
            at: place,
            what: IdlFault::NotUtf8,
        });
    };
    let word = Word {
        kind: front.kind,
        gap: blank,
        text,
        at: place,
    };
    Ok((word, left))
}

/// Cuts a text into its words, the last of which is its end.
pub(crate) fn words(alloc: Global, text: &str) -> Result<Vec<Word<'_>>, Fault>
    ensures ok { IfOk result (λ words. AreWords 0 text.now words.items) }
    ensures err { IfErr result (λ fault. fault.at ≤ length text.now) }
{
    let mut words = Vec::new(alloc);
    let mut rest = text;
    let mut at: usize = 0;
    'words: loop {
        match next_word(rest, at) {
            Ok((word, left)) => {
                if words.push(word).is_err() {
                    return Err(Fault {
                        at,
                        what: IdlFault::NoMemory,
                    });
                }
                if let Kind::End = word.kind {
                    return Ok(words);
                }
                at = word.at + word.text.len();
                rest = left;
            }
            Err(fault) => return Err(fault),
        }
    }
}
