//! Types where they are used.

use crate::IdlFault;
use crate::constants::Ends;
use crate::cursor::Cursor;
use crate::declarations::Meaning;
use crate::draft::{Draft, placed};
use crate::word::Kind;
use crate::words::Fault;
use dds_xcdr::{Dimensions, Primitive, TypeId};

/// Takes the beginnings of sequences, and returns how many.
fn sequences(cursor: &mut Cursor<'_>) -> Result<usize, Fault> {
    let most = cursor.len();
    for count in 0..most {
        if !cursor.take("sequence") {
            return Ok(count);
        }
        cursor.want("<")?;
    }
    Ok(most)
}

/// Takes the name of a primitive type, if one is next, and returns it.
fn primitive(cursor: &mut Cursor<'_>) -> Option<Primitive> {
    let of = match cursor.word().text {
        "boolean" => Primitive::Boolean,
        "octet" => Primitive::Octet,
        "char" => Primitive::Char,
        "int8" => Primitive::Int8,
        "uint8" => Primitive::Uint8,
        "short" | "int16" => Primitive::Int16,
        "uint16" => Primitive::Uint16,
        "long" | "int32" => Primitive::Int32,
        "uint32" => Primitive::Uint32,
        "int64" => Primitive::Int64,
        "uint64" => Primitive::Uint64,
        "float" => Primitive::Float,
        "double" => Primitive::Double,
        _ => return None,
    };
    let is_long = cursor.is("long");
    cursor.advance();
    if is_long && cursor.take("long") {
        return Some(Primitive::Int64);
    }
    Some(of)
}

/// Takes the name of a number that is unsigned, after that word.
fn unsigned(cursor: &mut Cursor<'_>) -> Result<Primitive, Fault> {
    if cursor.take("short") {
        return Ok(Primitive::Uint16);
    }
    cursor.want("long")?;
    if cursor.take("long") {
        Ok(Primitive::Uint64)
    } else {
        Ok(Primitive::Uint32)
    }
}

/// Whether a word begins a type that isn't read here.
fn is_unsupported(word: &str) -> bool {
    matches!(
        word,
        "wchar"
            | "wstring"
            | "map"
            | "fixed"
            | "any"
            | "union"
            | "bitset"
            | "bitmask"
            | "Object"
            | "ValueBase"
            | "struct"
            | "enum"
    )
}

impl Draft {
    /// Takes a type that is no sequence.
    fn item(&mut self, cursor: &mut Cursor<'_>) -> Result<TypeId, Fault> {
        let word = cursor.word();
        if let Some(of) = primitive(cursor) {
            // Of the types of two words, `long double` alone isn't read.
            if of == Primitive::Int32 && cursor.is("double") {
                return Err(cursor.fault(IdlFault::Unsupported));
            }
            return self.primitive(word.at, of);
        }
        if cursor.take("unsigned") {
            let of = unsigned(cursor)?;
            return self.primitive(word.at, of);
        }
        if cursor.take("string") {
            let mut bound = 0;
            if cursor.take("<") {
                bound = self.bound(cursor, Ends::Angle)?;
                cursor.want(">")?;
            }
            return placed(word.at, self.made.types.text(bound));
        }
        if word.kind != Kind::Scope && (word.kind != Kind::Name || is_unsupported(word.text)) {
            let what = if word.kind == Kind::Name {
                IdlFault::Unsupported
            } else {
                IdlFault::Unexpected
            };
            return Err(cursor.fault(what));
        }
        let what = match self.resolve(cursor)? {
            Meaning::Described(of) => return Ok(of),
            Meaning::Unfinished => IdlFault::ContainsItself,
            Meaning::Module | Meaning::Number(_) | Meaning::Value => IdlFault::NotAType,
        };
        Err(Fault { at: word.at, what })
    }

    /// Takes a type where it is used.
    pub(crate) fn used(&mut self, cursor: &mut Cursor<'_>) -> Result<TypeId, Fault> {
        let at = cursor.word().at;
        let open = sequences(cursor)?;
        let mut of = self.item(cursor)?;
        for _ in 0..open {
            let bound = if cursor.take(",") {
                self.bound(cursor, Ends::Angle)?
            } else {
                0
            };
            cursor.want(">")?;
            of = placed(at, self.made.types.sequence(of, bound))?;
        }
        Ok(of)
    }

    /// Takes the sizes of an array after a name, if there are any, and returns the type of what
    /// is declared.
    pub(crate) fn sized(&mut self, cursor: &mut Cursor<'_>, of: TypeId) -> Result<TypeId, Fault> {
        let at = cursor.word().at;
        let mut sizes = Vec::new(self.alloc);
        for _ in 0..cursor.len() {
            if !cursor.take("[") {
                break;
            }
            sizes.push(self.bound(cursor, Ends::Other)?)?;
            cursor.want("]")?;
        }
        if sizes.is_empty() {
            return Ok(of);
        }
        match Dimensions::new(sizes) {
            Ok(dimensions) => placed(at, self.made.types.array(of, dimensions)),
            Err(fault) => Err(Fault {
                at,
                what: IdlFault::Type(fault),
            }),
        }
    }
}
