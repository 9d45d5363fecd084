//! The reason why a batch of records ended.

use crate::fault::RunFault;

/// Why the reading of a batch of records ended.
#[derive(Clone, Copy, Debug, PartialEq, Eq)]
pub enum BatchEnd {
    /// More records may follow.
    More,
    /// A tick at this moment, in milliseconds, follows: it was read, and is a batch of its own.
    Tick(u64),
    /// The file ends after it.
    End,
    /// The file has this fault after it.
    Fault(RunFault),
}
