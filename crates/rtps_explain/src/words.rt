//! The last word of a line: what becomes of a submessage or of a datagram.

ghost use Rattle.std.specs.Prelude.{◌≡◌};
ghost use Rattle.std.specs.Result.{result_map_both};
ghost use Rattle.rtps_receiver.specs.Events.{view};
ghost use Rattle.rtps_explain.specs.Words.{event_word, outcome_word, reason_word, refusal_word, stop_word};

use rtps_receiver::{Event, Reason};
use rtps_wire::{HeaderFault, SubmessageFault};

/// The word of a submessage that gives an event.
pub(crate) fn event_word() -> &'static str
    ensures { result.now ≡ event_word }
{
    "event"
}

/// Returns why a valid submessage gives no event.
pub(crate) fn reason_word(reason: Reason) -> &'static str
    ensures { result.now ≡ reason_word reason }
{
    match reason {
        Reason::NotForReaders => "not-for-readers",
        Reason::OtherDestination => "other-destination",
        Reason::NumberTooGreat => "number-too-great",
    }
}

/// Returns what becomes of a valid submessage.
pub(crate) fn outcome_word(event: &Result<Event<'_>, Reason>) -> &'static str
    ensures { result.now ≡ outcome_word (result_map_both view (λ r. r) event.now) }
{
    match event {
        Ok(_) => event_word(),
        Err(reason) => reason_word(*reason),
    }
}

/// Returns why the rest of a message isn't read.
pub(crate) fn stop_word(fault: SubmessageFault) -> &'static str
    ensures { result.now ≡ stop_word fault }
{
    match fault {
        SubmessageFault::Rest => "cut-header",
        SubmessageFault::Length => "past-end",
        SubmessageFault::Invalid => "invalid-body",
    }
}

/// Returns why a datagram is no message.
pub(crate) fn refusal_word(fault: HeaderFault) -> &'static str
    ensures { result.now ≡ refusal_word fault }
{
    match fault {
        HeaderFault::Short => "short-header",
        HeaderFault::NotRtps => "not-rtps",
        HeaderFault::Version => "other-version",
    }
}
