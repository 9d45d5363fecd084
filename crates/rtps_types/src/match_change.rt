//! Changes of the match between a reader and a writer.

use crate::{Guid, PolicyId, WriterFacts};
use std::alloc::{Allocator, Global};

/// A change of the match between a reader and a writer (DDSI-RTPS 8.4.10.2 to 8.4.10.4; DDS 1.4,
/// 2.2.4.1). Discovery produces it, and a step of the reader handles it.
#[derive(Debug, Drop)]
pub enum MatchChangeKind<A: Allocator = Global> {
    /// A match begins. The state of an earlier match with the writer is dropped.
    Match(WriterFacts<A>),
    /// The match with the writer ends. Its state is dropped.
    Unmatch(Guid),
    /// They would match, but the writer offers less of a policy than the reader requests.
    Refuse { writer: Guid, policy: PolicyId },
}
