//! Why the program ends with another status than 0.

ghost use Rattle.std.specs.Prelude.{◌≡◌, Some};
ghost use Rattle.rtps_dump.specs.Status.{fault_text};

use rtps_files::FileFault;
use std::fmt;

/// A fault that has a line on standard error.
#[derive(Clone, Copy, Debug, PartialEq, Eq)]
pub enum DumpFault {
    /// A word of the command line is not text.
    NoText,
    /// The words of the command line ask for nothing.
    BadLine,
    /// The file isn't printed as it was asked for.
    File(FileFault),
}

impl DumpFault {
    ghost use Rattle.rtps_dump.specs.Status.{status_of};

    /// Returns the exit status of a program that ends with this fault.
    pub fn status(self) -> u8
        ensures { result ≡ status_of self }
    {
        match self {
            DumpFault::NoText | DumpFault::BadLine => 2,
            DumpFault::File(fault) => fault.status(),
        }
    }
}

impl fmt::Display for DumpFault {
    ghost output = { λ fault. Some (fault_text fault) };

    fn fmt<W: fmt::Write>(&self, f: &mut fmt::Formatter<W>) -> fmt::Result {
        match self {
            DumpFault::NoText => write!(f, "a word is not text"),
            DumpFault::BadLine => write!(f, "usage: dump|explain [--own HEX] FILE"),
            DumpFault::File(fault) => write!(f, "{fault}"),
        }
    }
}
