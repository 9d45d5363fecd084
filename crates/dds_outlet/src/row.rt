//! Rows of statuses.

use rtps_reader::Status;
use std::collections::LinkedList;

/// The status of a reader that has no fixed matches and has received nothing.
pub(crate) const IDLE: Status = Status {
    matched_total: 0,
    matched_now: 0,
    incompatible_total: 0,
    last_policy: None,
    lost_total: 0,
    samples: 0,
};

/// The statuses of the readers of a participant, all at one moment.
#[derive(Debug, Drop)]
pub struct Row {
    /// The number of batches taken so far, 0 before the first.
    pub batch: u64,
    /// Each status with the rank of its reader. If a rank occurs twice, its first status counts.
    pub statuses: Vec<(u32, Status)>,
}

/// A row as contracts see it. No value of it is made.
pub struct RowView {
    pub batch: u64,
    pub statuses: LinkedList<(u32, Status)>,
}

/// What a row says of one reader.
#[derive(Debug, Clone, Copy, PartialEq, Eq)]
pub struct Look {
    /// The row's number of batches.
    pub batch: u64,
    pub status: Status,
}
