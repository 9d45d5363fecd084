//! Why files don't declare a type.

ghost use Rattle.std.specs.Prelude.{◌≡◌};
ghost use Rattle.idl_files.specs.declared.fault.TypesFault.TheVariants.{NoMemory};

use dds_idl::IdlError;
use std::alloc::AllocError;
use std::error::Error;
use std::fmt;

/// Why files don't declare the type of a topic.
#[derive(Debug, Drop)]
pub enum TypesFault {
    /// There are more than 16 files.
    TooManyFiles,
    /// The file of this name can't be opened, or not be read.
    CannotRead(String),
    /// A text is refused, for what is wrong at a place of it.
    Idl(IdlError),
    /// The files declare no type of this name.
    NoType(String),
    /// Memory was refused.
    NoMemory,
}

impl From<AllocError> for TypesFault {
    ghost from_gives = { λ _ fault. fault ≡ NoMemory };

    fn from(_: AllocError) -> TypesFault {
        TypesFault::NoMemory
    }
}

impl fmt::Display for TypesFault {
    fn fmt<W: fmt::Write>(&self, f: &mut fmt::Formatter<W>) -> fmt::Result {
        match self {
            TypesFault::TooManyFiles => write!(f, "more than 16 files of types"),
            TypesFault::CannotRead(name) => write!(f, "cannot read the types in {name}"),
            TypesFault::Idl(error) => write!(f, "{error}"),
            TypesFault::NoType(name) => write!(f, "no type {name} is declared"),
            TypesFault::NoMemory => write!(f, "no memory is left"),
        }
    }
}

impl Error for TypesFault {}
