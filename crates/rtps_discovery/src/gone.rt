//! Writers of participants that left.

use crate::known::{Ranks, Writer};
use rtps_types::Guid;
use std::alloc::Allocator;

/// A writer of a participant that left, and the ranks of the readers that have a fixed match with
/// it.
#[derive(Drop)]
pub(crate) struct Gone<A: Allocator> {
    pub writer: Guid,
    pub offer: Writer<A>,
    pub fixed: Ranks<A>,
}
