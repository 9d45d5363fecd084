//! Annotations (IDL 4.2, 8).

use crate::IdlFault;
use crate::cursor::Cursor;
use crate::word::Kind;
use crate::words::Fault;

/// What annotations say.
#[derive(Clone, Copy, Debug, PartialEq, Eq)]
pub(crate) struct Marks {
    pub(crate) is_key: bool,
    pub(crate) is_nested: bool,
}

/// What comes after an annotation.
#[derive(Clone, Copy, Debug, PartialEq, Eq)]
pub(crate) enum Place {
    Member,
    /// A value of an enumeration.
    Value,
    Definition,
}

/// Takes a truth value in parentheses, if there is one, and returns it; else true.
fn truth(cursor: &mut Cursor<'_>) -> Result<bool, Fault> {
    if !cursor.take("(") {
        return Ok(true);
    }
    if cursor.take("value") {
        cursor.want("=")?;
    }
    let is = cursor.is("TRUE");
    if !is && !cursor.is("FALSE") {
        return Err(cursor.fault(IdlFault::Unexpected));
    }
    cursor.advance();
    cursor.want(")")?;
    Ok(is)
}

/// Passes over what is in parentheses, if they are there.
fn skip_parameters(cursor: &mut Cursor<'_>) -> Result<(), Fault> {
    if !cursor.take("(") {
        return Ok(());
    }
    let mut open: usize = 1;
    for _ in 0..cursor.len() {
        if cursor.word().kind == Kind::End {
            break;
        }
        if cursor.is("(") {
            open = open.saturating_add(1);
        } else if cursor.is(")") {
            open = open.saturating_sub(1);
        }
        cursor.advance();
        if open == 0 {
            return Ok(());
        }
    }
    Err(cursor.fault(IdlFault::Unexpected))
}

/// Takes annotations, and returns what they say. `Annotation` if one isn't known, would change
/// octets in a way that isn't read here, or has another place.
pub(crate) fn annotations(cursor: &mut Cursor<'_>, place: Place) -> Result<Marks, Fault> {
    let mut marks = Marks {
        is_key: false,
        is_nested: false,
    };
    for _ in 0..cursor.len() {
        if !cursor.take("@") {
            break;
        }
        let word = cursor.word();
        cursor.advance();
        match (word.text, place) {
            ("key", Place::Member) => marks.is_key = truth(cursor)?,
            ("nested", Place::Definition) => marks.is_nested = truth(cursor)?,
            ("final", Place::Definition) => {}
            ("topic", Place::Definition) => skip_parameters(cursor)?,
            ("unit" | "range" | "min" | "max" | "verbatim" | "external", _) => {
                skip_parameters(cursor)?
            }
            _ => {
                return Err(Fault {
                    at: word.at,
                    what: IdlFault::Annotation,
                });
            }
        }
    }
    Ok(marks)
}
