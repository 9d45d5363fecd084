//! Directives, which begin with `#`.

use crate::cursor::Cursor;
use crate::word::{Kind, Word};
use crate::words::Fault;
use crate::{IdlFault, Source};
use std::alloc::{AllocError, Global};

/// The texts that are read before the one at hand, and the rest, of which it is the first.
#[derive(Clone, Copy)]
pub(crate) struct Given<'s> {
    pub(crate) earlier: &'s [Source<'s>],
    pub(crate) later: &'s [Source<'s>],
}

/// Whether a path ends with the parts of another.
fn ends_with(path: &str, end: &str) -> bool {
    match path.strip_suffix(end) {
        Some(front) => front.is_empty() || front.ends_with('/'),
        None => false,
    }
}

/// Whether one of some texts has the name of what is included, or both end alike.
fn has(sources: &[Source<'_>], path: &str) -> bool {
    sources.iter().any(|source| ends_with(source.name, path) || ends_with(path, source.name))
}

/// Takes the path of a text: a literal, or words between `<` and `>`.
fn path(alloc: Global, cursor: &mut Cursor<'_>) -> Result<String, Fault> {
    let word = cursor.word();
    cursor.advance();
    let mut path = String::new(alloc);
    if word.kind == Kind::Text {
        let front = match word.text.strip_prefix('"') {
            Some(front) => front,
            None => word.text,
        };
        match front.strip_suffix('"') {
            Some(inner) => path.push_str(inner)?,
            None => path.push_str(front)?,
        }
        return Ok(path);
    }
    if word.text != "<" {
        return Err(unexpected(word));
    }
    for _ in 0..cursor.len() {
        let word = cursor.word();
        if word.kind == Kind::End {
            break;
        }
        cursor.advance();
        if word.text == ">" {
            return Ok(path);
        }
        path.push_str(word.text)?;
    }
    Err(cursor.fault(IdlFault::Unexpected))
}

/// Returns the fault that a word isn't expected.
fn unexpected(word: Word<'_>) -> Fault {
    Fault {
        at: word.at,
        what: IdlFault::Unexpected,
    }
}

/// Takes a directive, after its `#`. An `#include` says that its text has to be given before this
/// one: `NotGiven` if it isn't given, `GivenLater` if it is, but later. `KeyList` for
/// `#pragma keylist`, `Unsupported` for any other directive.
pub(crate) fn directive(
    alloc: Global,
    cursor: &mut Cursor<'_>,
    given: Given<'_>,
) -> Result<(), Fault> {
    if cursor.take("pragma") && cursor.is("keylist") {
        return Err(cursor.fault(IdlFault::KeyList));
    }
    if !cursor.take("include") {
        return Err(cursor.fault(IdlFault::Unsupported));
    }
    let at = cursor.word().at;
    let path = path(alloc, cursor)?;
    let path = path.as_str();
    if has(given.earlier, path) {
        Ok(())
    } else if has(given.later, path) {
        Err(Fault {
            at,
            what: IdlFault::GivenLater,
        })
    } else {
        Err(Fault {
            at,
            what: IdlFault::NotGiven,
        })
    }
}
