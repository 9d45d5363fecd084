//! Why a reader has no record.

ghost use Rattle.std.specs.Prelude.{◌≡◌};
ghost use Rattle.rtps_announcement.specs.declared.fault.RecordFault.TheVariants as faults;

use std::alloc::AllocError;
use thiserror::Error;

/// The most octets of a record, so that its datagram is one that UDP carries.
pub(crate) const LONGEST: usize = 60_000;

/// Why the record of a reader can't be made.
#[derive(Clone, Copy, Debug, PartialEq, Eq, Error)]
pub enum RecordFault {
    /// It would have more than 60,000 octets, so that no datagram carries it.
    #[error("the record of the reader has more than 60,000 octets")]
    TooLong,
    /// The allocator refused a growth.
    #[error("out of memory")]
    NoMemory,
}

impl From<AllocError> for RecordFault {
    ghost from_gives = { λ _ e. e ≡ faults.NoMemory };

    fn from(_: AllocError) -> RecordFault {
        RecordFault::NoMemory
    }
}
