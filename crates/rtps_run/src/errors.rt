//! The errors of engines.

ghost use Rattle.std.specs.Prelude.{◌≡◌};
ghost use Rattle.rtps_run.specs.declared.errors.EngineError.TheVariants as engine;
ghost use Rattle.rtps_run.specs.declared.errors.StartError.TheVariants as start;
ghost use Rattle.rtps_run.specs.Moving.{error_of};

use rtps_discovery::{ConfigFault, ReaderFault};
use std::alloc::AllocError;
use thiserror::Error;

/// The greatest number of datagrams of a run: 2^48.
pub const DATAGRAM_LIMIT: u64 = 281_474_976_710_656;

/// Why an engine could not be made.
#[derive(Clone, Copy, Debug, PartialEq, Eq, Error)]
pub enum StartError {
    /// The allocator refused a growth.
    #[error("out of memory")]
    NoMemory,
    /// The configuration has a fault.
    #[error(transparent)]
    Config(ConfigFault),
}

impl From<AllocError> for StartError {
    ghost from_gives = { λ _ e. e ≡ start.NoMemory };

    fn from(_failed: AllocError) -> StartError {
        StartError::NoMemory
    }
}

/// Why an engine refuses an input or a query. Failed comes before all others, and Full before
/// BadReader.
#[derive(Clone, Copy, Debug, PartialEq, Eq, Error)]
pub enum EngineError {
    /// The allocator refused memory. If it was for an input, the engine has failed.
    #[error("out of memory")]
    NoMemory,
    /// An earlier input ran out of memory.
    #[error("the engine has failed")]
    Failed,
    /// The run would have more than [`DATAGRAM_LIMIT`] datagrams.
    #[error("too many datagrams")]
    Spent,
    /// No reader can be added: 256 are there, or 4,096 ranks were given.
    #[error("too many readers")]
    Full,
    /// The reader can't be added: its kind isn't a reader's, its ownership isn't shared, or a
    /// reader that is there has its entity.
    #[error("bad reader")]
    BadReader,
    /// There is no reader of this rank.
    #[error("no such reader")]
    NoReader,
}

impl From<AllocError> for EngineError {
    ghost from_gives = { λ _ e. e ≡ engine.NoMemory };

    fn from(_failed: AllocError) -> EngineError {
        EngineError::NoMemory
    }
}

impl From<ReaderFault> for EngineError {
    ghost from_gives = { λ fault e. e ≡ error_of fault };

    fn from(fault: ReaderFault) -> EngineError {
        match fault {
            ReaderFault::Full => EngineError::Full,
            ReaderFault::BadReader => EngineError::BadReader,
            ReaderFault::NoReader => EngineError::NoReader,
            ReaderFault::NoMemory => EngineError::NoMemory,
        }
    }
}
