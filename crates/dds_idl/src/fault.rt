//! Why a text is refused.

ghost use Rattle.std.specs.Prelude.{◌≡◌};
ghost use Rattle.dds_idl.specs.declared.fault.IdlFault.TheVariants as faults;

use dds_xcdr::TypeFault;
use std::alloc::AllocError;

/// Why a text is refused.
#[derive(Clone, Copy, Debug, PartialEq, Eq)]
pub enum IdlFault {
    /// An octet isn't part of UTF-8.
    NotUtf8,
    /// A comment doesn't end.
    OpenComment,
    /// A string or character literal doesn't end on its line.
    OpenLiteral,
    /// A character begins no word.
    BadCharacter,
    /// A word isn't what IDL has there.
    Unexpected,
    /// A name should stand here, and a keyword is none.
    NoName,
    /// A full name, with the modules that it is in, has more than 255 octets.
    LongName,
    /// A module doesn't end in the text that begins it.
    OpenModule,
    /// A name is declared already, in this case or in another.
    Twice,
    /// A type isn't declared, or only in another case.
    NotDeclared,
    /// A constant isn't declared, or only in another case.
    NoConstant,
    /// A name is declared, and isn't that of a type.
    NotAType,
    /// A type is used before its body ends, so it would contain itself.
    ContainsItself,
    /// This part of IDL isn't read here.
    Unsupported,
    /// An annotation isn't known, or would change octets in a way that isn't read here.
    Annotation,
    /// A text is included that isn't given.
    NotGiven,
    /// A text is included that is given later, or is this one.
    GivenLater,
    /// `#pragma keylist`, in whose place `@key` is read here.
    KeyList,
    /// A number isn't one, or is too large.
    BadNumber,
    /// An operator gives no number of 64 bits, or a divisor is 0.
    Arithmetic,
    /// A bound or a size isn't a number from 1 to 2^32 - 1.
    BadBound,
    /// An array or a struct isn't one that is described.
    Type(TypeFault),
    /// Memory was refused.
    NoMemory,
}

impl IdlFault {
    /// Returns what is said of a word: what comes before it, and what after it.
    pub(crate) fn parts(self) -> (&'static str, &'static str) {
        match self {
            IdlFault::NotUtf8 => ("the text isn't UTF-8", ""),
            IdlFault::OpenComment => ("the comment doesn't end", ""),
            IdlFault::OpenLiteral => ("the literal doesn't end on its line", ""),
            IdlFault::BadCharacter => ("no word begins so", ""),
            IdlFault::Unexpected => ("'", "' isn't expected"),
            IdlFault::NoName => ("a name is expected before '", "'"),
            IdlFault::LongName => ("the name '", "' is too long"),
            IdlFault::OpenModule => ("a module doesn't end", ""),
            IdlFault::Twice => ("the name '", "' is declared already"),
            IdlFault::NotDeclared => ("the type '", "' isn't declared"),
            IdlFault::NoConstant => ("the constant '", "' isn't declared"),
            IdlFault::NotAType => ("'", "' isn't a type"),
            IdlFault::ContainsItself => ("the type '", "' contains itself"),
            IdlFault::Unsupported => ("'", "' isn't supported"),
            IdlFault::Annotation => ("the annotation '", "' isn't supported"),
            IdlFault::NotGiven => ("the text ", " isn't given"),
            IdlFault::GivenLater => ("the text ", " has to be given before this one"),
            IdlFault::KeyList => ("'", "' isn't supported: mark the members of a key by @key"),
            IdlFault::BadNumber => ("'", "' isn't a number that fits"),
            IdlFault::Arithmetic => ("'", "' gives no number of 64 bits"),
            IdlFault::BadBound => ("'", "' isn't a bound from 1 to 4294967295"),
            IdlFault::Type(_) => ("the type of '", "' isn't described: "),
            IdlFault::NoMemory => ("no memory is left", ""),
        }
    }
}

impl From<AllocError> for IdlFault {
    ghost from_gives = { λ _ e. e ≡ faults.NoMemory };

    fn from(_: AllocError) -> IdlFault {
        IdlFault::NoMemory
    }
}
