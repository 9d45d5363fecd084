//! The error of calls that allocate.

use std::alloc::AllocError;

/// The allocator refused a growth: another name for the allocator's own error.
pub type NoMemory = AllocError;
