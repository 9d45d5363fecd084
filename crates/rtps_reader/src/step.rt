//! The steps of a reader.

ghost use Rattle.std.specs.Prelude.{◌≡◌};
ghost use Rattle.rtps_receiver.specs.Events.{view};
ghost use Rattle.rtps_reader.specs.Step.{asked, asks_of};

use rtps_receiver::{Event, EventBody};
use rtps_types::{Guid, MatchChangeKind, Place, Timestamp};
use std::alloc::{Allocator, Global};

/// One step of a reader, with its place in the run.
#[derive(Clone, Copy, Debug)]
pub struct Step<'a, A: Allocator = Global> {
    /// The place of what causes it: an event, a moment that passes, or a reader of ours that comes
    /// or goes.
    pub place: Place,
    pub what: StepKind<'a, A>,
}

/// The kinds of steps.
#[derive(Clone, Copy, Debug)]
pub enum StepKind<'a, A: Allocator = Global> {
    /// Handle an event of a writer.
    Event {
        writer: Guid,
        time: Option<Timestamp>,
        body: &'a EventBody<'a>,
    },
    /// Begin or end a match, or report a writer that is refused.
    Change(&'a MatchChangeKind<A>),
}

impl<'a, A: Allocator> Step<'a, A> {
    /// Returns the step for each reader that an event is addressed to.
    pub fn of_event(event: &'a Event<'a>) -> Step<'a, A>
        ensures place { result.place ≡ event.now.place }
        ensures what { asked result.what ≡ asks_of (view event.now) }
    {
        Step {
            place: event.place,
            what: StepKind::Event {
                writer: Guid {
                    prefix: event.source,
                    entity: event.writer,
                },
                time: event.time,
                body: &event.body,
            },
        }
    }
}
