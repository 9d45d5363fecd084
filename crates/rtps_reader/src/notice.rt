//! The output of a reader: notices and answers.

use crate::body::Body;
use rtps_types::{Guid, Number, Place, PolicyId, Reply, Timestamp};
use std::alloc::{Allocator, Global};

/// A report about a match. The notices of a reader are in the order of the events that cause them.
#[derive(Debug, Drop)]
pub struct Notice<V> {
    /// The place of what caused it: an event, a moment that passed, or a reader of ours that came
    /// or went.
    pub place: Place,
    /// The writer of the match.
    pub writer: Guid,
    pub what: NoticeKind<V>,
}

/// The kinds of notices.
#[derive(Debug, Drop)]
pub enum NoticeKind<V> {
    /// A change is presented (DDS 1.4, 2.2.2.5).
    Sample {
        number: Number,
        time: Option<Timestamp>,
        body: Body<V>,
    },
    /// A match began.
    Matched,
    /// A match ended.
    Unmatched,
    /// A writer offers less of a policy than is requested (DDS 1.4, 2.2.4.1,
    /// REQUESTED_INCOMPATIBLE_QOS).
    Incompatible {
        policy: PolicyId,
    },
    /// Samples were lost: the number of sequence numbers that are given up (DDS 1.4, 2.2.4.1,
    /// SAMPLE_LOST).
    Lost {
        count: u64,
    },
}

/// The output of a reader's steps.
#[derive(Debug, Drop)]
pub struct Output<V, A: Allocator = Global> {
    pub notices: Vec<Notice<V>, A>,
    /// Replies to writers, each with the place of the event that it answers.
    pub answers: Vec<(Place, Reply<A>), A>,
}
