//! Why a file isn't printed as it was asked for.

ghost use Rattle.std.specs.Prelude.{◌≡◌, Some};
ghost use Rattle.rtps_files.specs.Status.{fault_text};
ghost use Rattle.rtps_files.specs.declared.fault.FileFault.TheVariants as file_fault;

use rtps_records::RunFault;
use std::fmt;
use thiserror::Error;

/// Why a file isn't printed as it was asked for.
#[derive(Clone, Copy, Debug, PartialEq, Eq, Error)]
pub enum FileFault {
    /// The prefix isn't 24 hex digits.
    BadPrefix,
    /// The run over the records ended early.
    Run(RunFault),
}

impl From<RunFault> for FileFault {
    ghost from_gives = { λ run fault. fault ≡ file_fault.Run run };

    fn from(fault: RunFault) -> FileFault {
        FileFault::Run(fault)
    }
}

impl FileFault {
    ghost use Rattle.rtps_files.specs.Status.{status_of};

    /// Returns the exit status of a program that ends with this fault.
    pub fn status(self) -> u8
        ensures { result ≡ status_of self }
    {
        match self {
            FileFault::BadPrefix => 2,
            FileFault::Run(RunFault::NoMemory) => 5,
            FileFault::Run(_) => 3,
        }
    }
}

impl fmt::Display for FileFault {
    ghost output = { λ fault. Some (fault_text fault) };

    fn fmt<W: fmt::Write>(&self, f: &mut fmt::Formatter<W>) -> fmt::Result {
        match self {
            FileFault::BadPrefix => write!(f, "bad prefix"),
            FileFault::Run(fault) => write!(f, "{fault}"),
        }
    }
}
