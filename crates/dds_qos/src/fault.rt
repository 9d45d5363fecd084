//! Why a discovery record is refused.

ghost use Rattle.std.specs.Prelude.{◌≡◌};
ghost use Rattle.dds_qos.specs.declared.fault.QosFault.TheVariants as faults;

use std::alloc::AllocError;
use thiserror::Error;

/// A parameter of a record is malformed: its value is too short, a kind is out of its range, a
/// boolean is neither 0 nor 1, or a text is invalid. It counts even if the parameter isn't used, or
/// is repeated later.
#[derive(Clone, Copy, Debug, PartialEq, Eq, Error)]
#[error("a parameter of the record is malformed")]
pub struct Malformed;

/// Why no offer can be made of a record.
#[derive(Clone, Copy, Debug, PartialEq, Eq, Error)]
pub enum QosFault {
    /// A parameter of the record is [`Malformed`].
    #[error("a parameter of the record is malformed")]
    Malformed,
    /// The allocator refused a growth.
    #[error("out of memory")]
    NoMemory,
}

impl From<Malformed> for QosFault {
    ghost from_gives = { λ _ e. e ≡ faults.Malformed };

    fn from(_: Malformed) -> QosFault {
        QosFault::Malformed
    }
}

impl From<AllocError> for QosFault {
    ghost from_gives = { λ _ e. e ≡ faults.NoMemory };

    fn from(_: AllocError) -> QosFault {
        QosFault::NoMemory
    }
}
