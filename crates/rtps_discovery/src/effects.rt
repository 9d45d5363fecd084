//! The result of an event in discovery.

ghost use Rattle.std.specs.Prelude.{◌≡◌, [], None};
ghost use Rattle.rtps_receiver.specs.Views.{body_view};
ghost use Rattle.rtps_discovery.specs.Ignored.{data_record, silent_among};

use crate::changes::MatchChange;
use rtps_receiver::EventBody;
use rtps_types::Reply;
use std::alloc::{Allocator, Global};

/// The result of an event for our readers and for its writer.
#[derive(Debug, Drop)]
pub struct DiscoveryEffects<A: Allocator = Global> {
    /// The changes of our readers' matches, record by record; for one record by rank and then by
    /// writer.
    pub changes: Vec<MatchChange<A>, A>,
    /// The answer to send to the writer.
    pub answer: Option<Reply<A>>,
    /// The number of the event's records that were ignored: those that announce nothing, since
    /// they can't be read, speak of another participant or are ours, for example.
    pub ignored: usize,
}

impl<A: Allocator> DiscoveryEffects<A> {
    /// Returns a result without changes, without an answer and without a record.
    pub(crate) fn none(alloc: A) -> DiscoveryEffects<A>
        ensures changes { result.changes.items ≡ [] }
        ensures answer { result.answer ≡ None }
        ensures ignored { result.ignored ≡ 0 }
    {
        DiscoveryEffects {
            changes: Vec::new(alloc),
            answer: None,
            ignored: 0,
        }
    }

    /// Returns the result of an event that announces nothing: its record is ignored, if it has one.
    pub(crate) fn silent(alloc: A, body: &EventBody<'_>) -> DiscoveryEffects<A>
        ensures changes { result.changes.items ≡ [] }
        ensures answer { result.answer ≡ None }
        ensures ignored { result.ignored ≡ silent_among (data_record (body_view body.now) None) }
    {
        let ignored = match body {
            EventBody::Whole(_) => 1,
            _ => 0,
        };
        DiscoveryEffects {
            ignored,
            ..DiscoveryEffects::none(alloc)
        }
    }
}
