//! Declarations in the making.

use crate::IdlFault;
use crate::cursor::Cursor;
use crate::declarations::{Declarations, Meaning};
use crate::word::Word;
use crate::words::Fault;
use dds_xcdr::{Primitive, TypeFault, TypeId};
use std::alloc::{AllocError, Global};

/// The longest full name: that of a type is announced as a text of at most 255 octets (DDSI-RTPS
/// 9.6.3, PID_TYPE_NAME).
const LONGEST_NAME: usize = 255;

/// Declarations in the making.
#[derive(Drop)]
pub(crate) struct Draft {
    pub(crate) alloc: Global,
    pub(crate) made: Declarations,
    /// The names of the open modules, outermost first, each with all that comes before a name in
    /// it: `nav_msgs::`, `nav_msgs::msg::`.
    prefixes: Vec<String>,
    /// The primitive types that are described already.
    primitives: Vec<(Primitive, TypeId)>,
}

/// Returns a text in lower case.
pub(crate) fn lowered(alloc: Global, text: &str) -> Result<String, AllocError> {
    let mut lowered = String::from_str(alloc, text)?;
    lowered.make_ascii_lowercase();
    Ok(lowered)
}

/// Puts the place of a word to the fault of a type.
pub(crate) fn placed(at: usize, described: Result<TypeId, TypeFault>) -> Result<TypeId, Fault> {
    match described {
        Ok(id) => Ok(id),
        Err(TypeFault::NoMemory) => Err(Fault {
            at,
            what: IdlFault::NoMemory,
        }),
        Err(fault) => Err(Fault {
            at,
            what: IdlFault::Type(fault),
        }),
    }
}

impl Draft {
    ghost use Rattle.std.specs.Prelude.{◌≡◌, IfOk, string_bytes};
    ghost use Rattle.dds_idl.specs.Names.{innermost};

    pub(crate) fn new(alloc: Global) -> Draft {
        Draft {
            alloc,
            made: Declarations::new(alloc),
            prefixes: Vec::new(alloc),
            primitives: Vec::new(alloc),
        }
    }

    /// Whether no module is open.
    pub(crate) fn is_closed(&self) -> bool {
        self.prefixes.is_empty()
    }

    /// Returns what comes before a name that is declared now.
    fn prefix(&self) -> &str {
        match self.prefixes.last() {
            Some(prefix) => prefix.as_str(),
            None => "",
        }
    }

    /// Returns the full name of what is declared now. `LongName` if it has more than 255 octets.
    pub(crate) fn full_name(&self, word: Word<'_>, name: &str) -> Result<String, Fault> {
        let prefix = self.prefix();
        if prefix.len().saturating_add(name.len()) > LONGEST_NAME {
            return Err(Fault {
                at: word.at,
                what: IdlFault::LongName,
            });
        }
        let full = format!(in self.alloc; "{prefix}{name}")?;
        Ok(full)
    }

    /// Declares a name here. `Twice` if it is declared already.
    pub(crate) fn declare(&mut self, word: Word<'_>, name: &str, of: Meaning) -> Result<(), Fault> {
        let full = self.full_name(word, name)?;
        if !self
            .made
            .lowered
            .insert(lowered(self.alloc, full.as_str())?)?
        {
            return Err(Fault {
                at: word.at,
                what: IdlFault::Twice,
            });
        }
        self.made.names.insert(full, of)?;
        Ok(())
    }

    /// Begins the body of a struct. `Twice` if its name is declared already, and not as a struct
    /// whose body is to come.
    pub(crate) fn begin(&mut self, word: Word<'_>, name: &str) -> Result<(), Fault> {
        let full = self.full_name(word, name)?;
        match self.made.names.get(full.as_str()) {
            Some(Meaning::Unfinished) => Ok(()),
            _ => self.declare(word, name, Meaning::Unfinished),
        }
    }

    /// Puts a type where its name was declared as one that isn't finished.
    pub(crate) fn finish(&mut self, word: Word<'_>, name: &str, of: TypeId) -> Result<(), Fault> {
        let full = self.full_name(word, name)?;
        self.made.names.insert(full, Meaning::Described(of))?;
        Ok(())
    }

    /// Opens a module, which may have been open before.
    pub(crate) fn open(&mut self, word: Word<'_>, name: &str) -> Result<(), Fault> {
        let full = self.full_name(word, name)?;
        match self.made.names.get(full.as_str()) {
            Some(Meaning::Module) => {}
            _ => self.declare(word, name, Meaning::Module)?,
        }
        let prefix = format!(in self.alloc; "{full}::")?;
        self.prefixes.push(prefix)?;
        Ok(())
    }

    /// Closes the innermost module, and returns whether one was open.
    pub(crate) fn close(&mut self) -> bool {
        self.prefixes.pop().is_some()
    }

    /// Returns the full name of what a name is in the innermost module that declares it (IDL 4.2,
    /// 7.5.2), and the name alone if none does.
    fn innermost(&self, name: &str) -> Result<String, AllocError>
        ensures { IfOk result (λ full. string_bytes full
            ≡ innermost self.now.made.names self.now.prefixes.items name.now) }
    {
        let mut found = String::from_str(self.alloc, name)?;
        for prefix in &self.prefixes {
            let mut full = String::from_str(self.alloc, prefix.as_str())?;
            full.push_str(name)?;
            if self.made.names.contains_key(full.as_str()) {
                found = full;
            }
        }
        Ok(found)
    }

    /// Takes a name, which may be scoped, and returns what it stands for. `NotDeclared` if that is
    /// nothing.
    pub(crate) fn resolve(&self, cursor: &mut Cursor<'_>) -> Result<Meaning, Fault> {
        let is_global = cursor.take("::");
        let word = cursor.word();
        let first = cursor.name()?;
        let mut path = if is_global {
            String::from_str(self.alloc, first)?
        } else {
            self.innermost(first)?
        };
        for _ in 0..cursor.len() {
            if path.len() > LONGEST_NAME || !cursor.take("::") {
                break;
            }
            path.push_str("::")?;
            path.push_str(cursor.name()?)?;
        }
        match self.made.names.get(path.as_str()) {
            Some(meaning) => Ok(*meaning),
            None => Err(Fault {
                at: word.at,
                what: IdlFault::NotDeclared,
            }),
        }
    }

    /// Returns the id of a primitive type, which is described once.
    pub(crate) fn primitive(&mut self, at: usize, of: Primitive) -> Result<TypeId, Fault> {
        for (primitive, id) in &self.primitives {
            if *primitive == of {
                return Ok(*id);
            }
        }
        let id = placed(at, self.made.types.primitive(of))?;
        self.primitives.push((of, id))?;
        Ok(id)
    }
}
