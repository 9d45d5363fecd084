//! Why a run over a record file ends early.

ghost use Rattle.std.specs.Prelude.{◌≡◌, Some};
ghost use Rattle.rtps_records.specs.Batches.{fault_in};
ghost use Rattle.rtps_records.specs.Faults.{fault_text};
ghost use Rattle.rtps_records.specs.Runs.{fault_after};
ghost use Rattle.rtps_records.specs.declared.fault.RunFault.TheVariants.{NoMemory};

use crate::batch_end::BatchEnd;
use std::alloc::AllocError;
use std::fmt;
use thiserror::Error;

/// Why a run over a record file ended before its end.
#[derive(Clone, Copy, Debug, PartialEq, Eq, Error)]
pub enum RunFault {
    /// A read failed.
    CannotRead,
    /// The file doesn't begin with the four octets of a record file.
    NotRecordFile,
    /// The file ends inside this record, which is counted from 0.
    CutRecord(u32),
    /// The length of this record, which is counted from 0, is above 65,507, and marks no tick.
    RecordTooLong(u32),
    /// There are octets after 4,294,967,295 records.
    TooManyRecords,
    /// A write failed, or wrote nothing.
    CannotWrite,
    /// A read failed, and then a write of the text of what was read before. Its message is that of
    /// [`RunFault::CannotWrite`].
    CannotReadNorWrite,
    /// Out of memory.
    NoMemory,
}

impl RunFault {
    /// The fault of a run that met this one while it wrote its last text, after its reading had
    /// ended in that way.
    pub fn after(self, end: BatchEnd) -> RunFault
        ensures { result ≡ fault_after self (fault_in end) }
    {
        match (self, end) {
            (RunFault::CannotWrite, BatchEnd::Fault(RunFault::CannotRead)) => {
                RunFault::CannotReadNorWrite
            }
            (fault, _) => fault,
        }
    }
}

impl From<AllocError> for RunFault {
    ghost from_gives = { λ _ fault. fault ≡ NoMemory };

    fn from(_error: AllocError) -> RunFault {
        RunFault::NoMemory
    }
}

impl fmt::Display for RunFault {
    ghost output = { λ fault. Some (fault_text fault) };

    fn fmt<W: fmt::Write>(&self, f: &mut fmt::Formatter<W>) -> fmt::Result {
        match self {
            RunFault::CannotRead => write!(f, "cannot read the file"),
            RunFault::NotRecordFile => write!(f, "not an RDG1 file"),
            RunFault::CutRecord(number) => write!(f, "cut record {number}"),
            RunFault::RecordTooLong(number) => write!(f, "record {number} too long"),
            RunFault::TooManyRecords => write!(f, "too many records"),
            RunFault::CannotWrite | RunFault::CannotReadNorWrite => write!(f, "cannot write"),
            RunFault::NoMemory => write!(f, "out of memory"),
        }
    }
}
