//! The lines of the counts at the end.

ghost use Rattle.std.specs.Prelude.{◌≡◌, ◌++◌, OnOk};
ghost use Rattle.std.specs.Io.{StartsWith};
ghost use Rattle.rtps_explain.specs.Counts.{count_line, counts_text, outcome_counts, refusal_counts, stop_counts};

use crate::columns::{push_number_column, push_word_column};
use crate::words::{event_word, reason_word, refusal_word, stop_word};
use rtps_ascii::{push_octet, push_word};
use rtps_receiver::{Counters, Reason};
use rtps_wire::{HeaderFault, SubmessageFault};
use std::alloc::{AllocError, Allocator};

/// Appends a line for each count, also for those that are 0: all datagrams, those that are no
/// message, those that aren't read to their end, and the valid submessages, each by reason.
///
/// An error is a refused growth. What the text held before stays in front.
pub fn push_counts<A: Allocator>(
    out: &mut Vec<u8, A>,
    counters: &Counters,
) -> Result<(), AllocError>
    ensures ok { OnOk result (out.new.items ≡ out.old.items ++ counts_text counters.now) }
    ensures keeps { StartsWith out.new.items out.old.items }
{
    push_count(out, "datagrams", counters.datagrams)?;
    push_refusals(out, counters)?;
    push_stops(out, counters)?;
    push_outcomes(out, counters)
}

#[tactic(auto, unfolding(crate::specs::Counts::count_line))]
fn push_count<A: Allocator>(out: &mut Vec<u8, A>, word: &str, count: u64) -> Result<(), AllocError>
    ensures ok { OnOk result (out.new.items ≡ out.old.items ++ count_line word.now count) }
    ensures keeps { StartsWith out.new.items out.old.items }
{
    push_word(out, "count")?;
    push_word_column(out, word)?;
    push_number_column(out, count)?;
    push_octet(out, b'\n')
}

/// Appends the counts of the datagrams that are no message.
fn push_refusals<A: Allocator>(out: &mut Vec<u8, A>, counters: &Counters) -> Result<(), AllocError>
    ensures ok { OnOk result (out.new.items ≡ out.old.items ++ refusal_counts counters.now) }
    ensures keeps { StartsWith out.new.items out.old.items }
{
    push_count(out, refusal_word(HeaderFault::Short), counters.short)?;
    push_count(out, refusal_word(HeaderFault::NotRtps), counters.not_rtps)?;
    push_count(
        out,
        refusal_word(HeaderFault::Version),
        counters.other_version,
    )
}

/// Appends the counts of the messages that aren't read to their end.
fn push_stops<A: Allocator>(out: &mut Vec<u8, A>, counters: &Counters) -> Result<(), AllocError>
    ensures ok { OnOk result (out.new.items ≡ out.old.items ++ stop_counts counters.now) }
    ensures keeps { StartsWith out.new.items out.old.items }
{
    push_count(out, stop_word(SubmessageFault::Rest), counters.cut_headers)?;
    push_count(out, stop_word(SubmessageFault::Length), counters.past_end)?;
    push_count(out, stop_word(SubmessageFault::Invalid), counters.invalid)
}

/// Appends the counts of the valid submessages.
fn push_outcomes<A: Allocator>(out: &mut Vec<u8, A>, counters: &Counters) -> Result<(), AllocError>
    ensures ok { OnOk result (out.new.items ≡ out.old.items ++ outcome_counts counters.now) }
    ensures keeps { StartsWith out.new.items out.old.items }
{
    push_count(out, event_word(), counters.events)?;
    push_count(
        out,
        reason_word(Reason::NotForReaders),
        counters.not_for_readers,
    )?;
    push_count(
        out,
        reason_word(Reason::OtherDestination),
        counters.other_destination,
    )?;
    push_count(
        out,
        reason_word(Reason::NumberTooGreat),
        counters.number_too_great,
    )
}
