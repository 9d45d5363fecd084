//! Structs, enumerations, typedefs and constants.

use crate::IdlFault;
use crate::annotations::{Marks, Place, annotations};
use crate::constants::Ends;
use crate::cursor::Cursor;
use crate::declarations::{Meaning, Topic};
use crate::directive::{Given, directive};
use crate::draft::{Draft, lowered, placed};
use crate::word::Kind;
use crate::words::Fault;
use dds_xcdr::{Case, Member};
use std::collections::BTreeSet;

/// The members of a struct in the making.
#[derive(Drop)]
struct Members {
    made: Vec<Member>,
    /// Their names in lower case, in which they have to differ.
    lowered: BTreeSet<String>,
}

/// Whether a word begins the type of whole numbers.
fn is_whole(word: &str) -> bool {
    matches!(
        word,
        "octet"
            | "int8"
            | "uint8"
            | "short"
            | "int16"
            | "uint16"
            | "long"
            | "int32"
            | "uint32"
            | "int64"
            | "uint64"
            | "unsigned"
    )
}

impl Draft {
    /// Takes the members that one type has, after their annotations.
    fn members(&mut self, cursor: &mut Cursor<'_>, members: &mut Members) -> Result<(), Fault> {
        let marks = annotations(cursor, Place::Member)?;
        let of = self.used(cursor)?;
        for _ in 0..cursor.len() {
            let word = cursor.word();
            let name = cursor.name()?;
            if !members.lowered.insert(lowered(self.alloc, name)?)? {
                return Err(Fault {
                    at: word.at,
                    what: IdlFault::Twice,
                });
            }
            let name = String::from_str(self.alloc, name)?;
            let of = self.sized(cursor, of)?;
            members.made.push(Member {
                name,
                of,
                is_key: marks.is_key,
            })?;
            if !cursor.take(",") {
                break;
            }
        }
        cursor.want(";")
    }

    /// Takes a struct, after that word.
    fn structure(&mut self, cursor: &mut Cursor<'_>, marks: Marks) -> Result<(), Fault> {
        let word = cursor.word();
        let name = cursor.name()?;
        self.begin(word, name)?;
        if cursor.is(";") {
            return Ok(());
        }
        if cursor.is(":") {
            return Err(cursor.fault(IdlFault::Unsupported));
        }
        cursor.want("{")?;
        let mut members = Members {
            made: Vec::new(self.alloc),
            lowered: BTreeSet::new(self.alloc),
        };
        for _ in 0..cursor.len() {
            if cursor.take("}") {
                break;
            }
            self.members(cursor, &mut members)?;
        }
        let of = placed(word.at, self.made.types.structure(members.made))?;
        self.finish(word, name, of)?;
        if !marks.is_nested {
            let name = self.full_name(word, name)?;
            self.made.topics.push(Topic { name, of })?;
        }
        Ok(())
    }

    /// Takes an enumeration, after that word. The values of its names count from 0 (IDL 4.2,
    /// 7.4.1.4.4.4.3), and they are declared beside it.
    fn enumeration(&mut self, cursor: &mut Cursor<'_>) -> Result<(), Fault> {
        let word = cursor.word();
        let name = cursor.name()?;
        cursor.want("{")?;
        let mut cases = Vec::new(self.alloc);
        for value in 0..i32::MAX {
            annotations(cursor, Place::Value)?;
            let case = cursor.word();
            let case_name = cursor.name()?;
            self.declare(case, case_name, Meaning::Value)?;
            let name = String::from_str(self.alloc, case_name)?;
            cases.push(Case { name, value })?;
            if !cursor.take(",") {
                break;
            }
        }
        cursor.want("}")?;
        let of = placed(word.at, self.made.types.enumeration(cases))?;
        self.declare(word, name, Meaning::Described(of))
    }

    /// Takes typedefs, after that word.
    fn typedefs(&mut self, cursor: &mut Cursor<'_>) -> Result<(), Fault> {
        let of = self.used(cursor)?;
        for _ in 0..cursor.len() {
            let word = cursor.word();
            let name = cursor.name()?;
            let of = self.sized(cursor, of)?;
            self.declare(word, name, Meaning::Described(of))?;
            if !cursor.take(",") {
                break;
            }
        }
        Ok(())
    }

    /// Takes a literal that is no whole number, or a name.
    fn literal(&mut self, cursor: &mut Cursor<'_>) -> Result<(), Fault> {
        if !cursor.take("-") {
            cursor.take("+");
        }
        let word = cursor.word();
        match word.kind {
            Kind::Text => {
                for _ in 0..cursor.len() {
                    if cursor.word().kind != Kind::Text {
                        break;
                    }
                    cursor.advance();
                }
                Ok(())
            }
            Kind::Number => {
                cursor.advance();
                let is_open = word.text.ends_with('e') || word.text.ends_with('E');
                if is_open && (cursor.take("-") || cursor.take("+")) {
                    cursor.advance();
                }
                Ok(())
            }
            Kind::Character => {
                cursor.advance();
                Ok(())
            }
            _ if cursor.is("TRUE") || cursor.is("FALSE") => {
                cursor.advance();
                Ok(())
            }
            _ => match self.resolve(cursor)? {
                Meaning::Number(_) | Meaning::Value => Ok(()),
                Meaning::Module | Meaning::Unfinished | Meaning::Described(_) => Err(Fault {
                    at: word.at,
                    what: IdlFault::Unexpected,
                }),
            },
        }
    }

    /// Takes a constant, after that word. Of those that are no whole numbers the value isn't
    /// kept.
    fn constant(&mut self, cursor: &mut Cursor<'_>) -> Result<(), Fault> {
        let is_whole = is_whole(cursor.word().text);
        self.used(cursor)?;
        let word = cursor.word();
        let name = cursor.name()?;
        cursor.want("=")?;
        let of = if is_whole {
            Meaning::Number(self.number(cursor, Ends::Other)?)
        } else {
            self.literal(cursor)?;
            Meaning::Value
        };
        self.declare(word, name, of)
    }

    /// Takes a definition that is no module.
    fn definition(&mut self, cursor: &mut Cursor<'_>, marks: Marks) -> Result<(), Fault> {
        let word = cursor.word();
        match word.text {
            "struct" | "enum" | "typedef" | "const" => cursor.advance(),
            _ => {
                let what = if word.kind == Kind::Name {
                    IdlFault::Unsupported
                } else {
                    IdlFault::Unexpected
                };
                return Err(cursor.fault(what));
            }
        }
        match word.text {
            "struct" => self.structure(cursor, marks)?,
            "enum" => self.enumeration(cursor)?,
            "typedef" => self.typedefs(cursor)?,
            _ => self.constant(cursor)?,
        }
        cursor.want(";")
    }

    /// Takes all definitions of a text.
    pub(crate) fn definitions(
        &mut self,
        cursor: &mut Cursor<'_>,
        given: Given<'_>,
    ) -> Result<(), Fault> {
        for _ in 0..cursor.len() {
            let word = cursor.word();
            if word.kind == Kind::End {
                break;
            }
            if cursor.take("}") {
                if !self.close() {
                    return Err(Fault {
                        at: word.at,
                        what: IdlFault::Unexpected,
                    });
                }
                cursor.want(";")?;
                continue;
            }
            if cursor.take("#") {
                directive(self.alloc, cursor, given)?;
                continue;
            }
            if cursor.take("module") {
                let word = cursor.word();
                let name = cursor.name()?;
                self.open(word, name)?;
                cursor.want("{")?;
                continue;
            }
            let marks = annotations(cursor, Place::Definition)?;
            self.definition(cursor, marks)?;
        }
        if self.is_closed() {
            Ok(())
        } else {
            Err(cursor.fault(IdlFault::OpenModule))
        }
    }
}
