//! A fault and its place.

ghost use Rattle.std.specs.Prelude.{◌≡◌, ◌≢◌, IfOk, length, min};
ghost use Rattle.dds_idl.specs.Place.{IsBlamed, column_of, line_of, begins_character, is_line_feed};
ghost use Rattle.dds_idl.specs.declared.fault.IdlFault.TheVariants.{NoMemory};

use crate::words::{Fault, front_of};
use crate::{IdlFault, Source};
use std::alloc::{AllocError, Global};
use std::error::Error;
use std::{fmt, str};

/// Why texts are refused, and where. It is printed as
/// `robot.idl:12:9: the type 'Pose' isn't declared`.
#[derive(Debug, Drop)]
pub struct IdlError {
    /// Which of the texts is refused, counted from 0.
    pub source: usize,
    /// The name of that text.
    pub name: String,
    /// The line, counted from 1.
    pub line: usize,
    /// The column, counted from 1 in characters.
    pub column: usize,
    /// The word that is there, empty where none does.
    pub word: String,
    /// Why it is refused. If it is `NoMemory`, the rest says nothing.
    pub what: IdlFault,
}

impl fmt::Display for IdlError {
    fn fmt<W: fmt::Write>(&self, f: &mut fmt::Formatter<W>) -> fmt::Result {
        let (before, after) = self.what.parts();
        let name = self.name.as_str();
        let line = self.line;
        let column = self.column;
        write!(f, "{name}:{line}:{column}: {before}")?;
        if !after.is_empty() {
            let word = if self.word.is_empty() {
                "the end"
            } else {
                self.word.as_str()
            };
            write!(f, "{word}{after}")?;
        }
        if let IdlFault::Type(fault) = self.what {
            write!(f, "{fault}")?;
        }
        Ok(())
    }
}

impl Error for IdlError {}

/// Whether an octet is a line feed.
fn is_line_feed(octet: u8) -> bool
    ensures { result ≡ is_line_feed octet }
{
    octet == b'\n'
}

/// Whether an octet of a text in UTF-8 begins a character.
fn begins_character(octet: u8) -> bool
    ensures { result ≡ begins_character octet }
{
    octet < 0x80 || octet >= 0xc0
}

/// Returns the line that the end of a text is in.
fn line_of(before: &[u8]) -> usize
    ensures { result ≡ line_of before.now }
{
    before.iter().filter(|octet| is_line_feed(**octet)).count() + 1
}

/// Returns the column of the end of a text.
fn column_of(before: &[u8]) -> usize
    ensures { result ≡ column_of before.now }
{
    let mut column: usize = 1;
    for octet in before {
        if is_line_feed(*octet) {
            column = 1;
        } else if begins_character(*octet) {
            column += 1;
        }
    }
    column
}

/// Returns the word at the front of a text, empty if there is none.
fn word_at(alloc: Global, text: &[u8]) -> Result<String, AllocError> {
    let len = match front_of(text) {
        Some(front) => front.len,
        None => 0,
    };
    let word = match text.get(..len) {
        Some(word) => word,
        None => text,
    };
    match str::from_utf8(word) {
        Ok(word) => String::from_str(alloc, word),
        Err(_) => Ok(String::new(alloc)),
    }
}

/// Returns the error of a fault in a text, which is one of memory if its parts can't be kept.
fn blame(
    alloc: Global,
    index: usize,
    source: &Source<'_>,
    fault: Fault,
) -> Result<IdlError, AllocError>
    ensures place { IfOk result (λ e.
        IsBlamed index source.now (min fault.at (length source.now.text.now)) e) }
    ensures what { IfOk result (λ e. e.what ≡ fault.what) }
{
    let at = fault.at.min(source.text.len());
    let before = &source.text[..at];
    Ok(IdlError {
        source: index,
        name: String::from_str(alloc, source.name)?,
        line: line_of(before),
        column: column_of(before),
        word: word_at(alloc, &source.text[at..])?,
        what: fault.what,
    })
}

/// Returns the error of a fault in a text.
pub(crate) fn error_of(alloc: Global, index: usize, source: &Source<'_>, fault: Fault) -> IdlError
    ensures place { result.what ≢ NoMemory
        → IsBlamed index source.now (min fault.at (length source.now.text.now)) result }
    ensures what { result.what ≢ NoMemory → result.what ≡ fault.what }
{
    match blame(alloc, index, source, fault) {
        Ok(error) => error,
        Err(_) => IdlError {
            source: index,
            name: String::new(alloc),
            line: 1,
            column: 1,
            word: String::new(alloc),
            what: IdlFault::NoMemory,
        },
    }
}
