//! The lines of a datagram: one for its header, one for each valid submessage, and one for what
//! ends the reading.

ghost use Rattle.std.specs.Prelude.{◌≡◌, ◌≤◌, ◌++◌, [], OnErr, OnOk, Some, length};
ghost use Rattle.std.specs.Io.{StartsWith};
ghost use Rattle.rtps_receiver.specs.Counters.{counted};
ghost use Rattle.rtps_receiver.specs.Outcomes.{outcomes_of, view};
ghost use Rattle.rtps_wire.specs.Submessage as wire;
ghost use Rattle.rtps_explain.specs.Frame.{frame_of, frame_view};
ghost use Rattle.rtps_explain.specs.Lines.{at_text, broken_columns, broken_numbers, explained, header_line, item_columns, kind_columns, last_column, outcome_line, outcomes_text, refused_line, stop_line, submessages_text};

use crate::columns::{push_number_column, push_sender, push_word_column};
use crate::contents::push_contents;
use crate::counting::count;
use crate::flags::push_flags;
use crate::frame::{Frame, after_first, read_frame};
use crate::kinds::push_kind;
use crate::words::{outcome_word, refusal_word, stop_word};
use rtps_ascii::{push_number, push_octet, push_word};
use rtps_receiver::{Counters, Outcome, Outcomes};
use rtps_types::GuidPrefix;
use rtps_wire::{Header, HeaderFault, Submessage, SubmessageFault, header};
use std::alloc::{AllocError, Allocator};

/// The number of octets of a message header.
const HEADER: usize = 20;

/// Appends the lines of a datagram of at most 65,507 octets, and counts the datagram and its
/// submessages. There is one line for the header, or for the fault for which the datagram is no
/// message; one for each valid submessage, with its event or the reason why it gives none; and one
/// for what ends the reading before the end (DDSI-RTPS 8.3.4). `index` is the number of the
/// datagram in the run, counted from 0, and `own` the prefix of the participant that receives it.
///
/// An error is a refused growth. What the text held before stays in front, and nothing is counted.
pub fn push_explained<A: Allocator>(
    out: &mut Vec<u8, A>,
    counters: &mut Counters,
    own: GuidPrefix,
    index: u32,
    datagram: &[u8],
) -> Result<(), AllocError>
    requires { length datagram.now ≤ 65507 }
    ensures ok { OnOk result (out.new.items ≡ out.old.items ++ explained own index datagram.now) }
    ensures counted { OnOk result (counters.new ≡ counted own datagram.now counters.old) }
    ensures keeps { StartsWith out.new.items out.old.items }
    ensures uncounted { OnErr result (counters.new ≡ counters.old) }
{
    push_lines(out, own, index, datagram)?;
    count(counters, own, datagram);
    Ok(())
}

/// Appends the lines of a datagram.
fn push_lines<A: Allocator>(
    out: &mut Vec<u8, A>,
    own: GuidPrefix,
    index: u32,
    datagram: &[u8],
) -> Result<(), AllocError>
    requires { length datagram.now ≤ 65507 }
    ensures ok { OnOk result (out.new.items ≡ out.old.items ++ explained own index datagram.now) }
    ensures keeps { StartsWith out.new.items out.old.items }
{
    match header(datagram) {
        Ok(header) => {
            push_header(out, index, &header)?;
            push_submessages(out, own, index, datagram)
        }
        Err(fault) => push_refused(out, index, fault),
    }
}

/// Appends a datagram's number and a submessage's with a colon between.
fn push_at<A: Allocator>(
    out: &mut Vec<u8, A>,
    datagram: u64,
    submessage: u64,
) -> Result<(), AllocError>
    ensures ok { OnOk result (out.new.items ≡ out.old.items ++ at_text datagram submessage) }
    ensures keeps { StartsWith out.new.items out.old.items }
{
    push_number(out, datagram)?;
    push_octet(out, b':')?;
    push_number(out, submessage)
}

/// Appends the last word of a line, and its end.
fn push_last<A: Allocator>(out: &mut Vec<u8, A>, word: &str) -> Result<(), AllocError>
    ensures ok { OnOk result (out.new.items ≡ out.old.items ++ last_column word.now) }
    ensures keeps { StartsWith out.new.items out.old.items }
{
    push_word_column(out, word)?;
    push_octet(out, b'\n')
}

fn push_header<A: Allocator>(
    out: &mut Vec<u8, A>,
    index: u32,
    header: &Header,
) -> Result<(), AllocError>
    ensures ok { OnOk result (out.new.items ≡ out.old.items ++ header_line index header.now) }
    ensures keeps { StartsWith out.new.items out.old.items }
{
    push_at(out, u64::from(index), 0)?;
    push_word(out, " header")?;
    push_sender(out, &header.version, &header.vendor, header.prefix)?;
    push_octet(out, b'\n')
}

fn push_refused<A: Allocator>(
    out: &mut Vec<u8, A>,
    index: u32,
    fault: HeaderFault,
) -> Result<(), AllocError>
    ensures ok { OnOk result (out.new.items ≡ out.old.items ++ refused_line index fault) }
    ensures keeps { StartsWith out.new.items out.old.items }
{
    push_at(out, u64::from(index), 0)?;
    push_last(out, refusal_word(fault))
}

/// Appends the kind and the flags of a submessage.
fn push_kind_columns<A: Allocator>(
    out: &mut Vec<u8, A>,
    id: u8,
    flags: u8,
) -> Result<(), AllocError>
    ensures ok { OnOk result (out.new.items ≡ out.old.items ++ kind_columns id flags) }
    ensures keeps { StartsWith out.new.items out.old.items }
{
    push_octet(out, b' ')?;
    push_kind(out, id)?;
    push_octet(out, b' ')?;
    push_flags(out, id, flags)
}

/// Appends the kind, the flags and the contents of a valid submessage.
fn push_item<A: Allocator>(
    out: &mut Vec<u8, A>,
    submessage: &Submessage<'_>,
) -> Result<(), AllocError>
    ensures ok { OnOk result (out.new.items ≡ out.old.items
        ++ item_columns (wire.view submessage.now)) }
    ensures keeps { StartsWith out.new.items out.old.items }
{
    push_kind_columns(out, submessage.id, submessage.flags)?;
    push_contents(out, &submessage.parts)
}

/// Appends the line of a valid submessage.
fn push_outcome<A: Allocator>(out: &mut Vec<u8, A>, outcome: &Outcome<'_>) -> Result<(), AllocError>
    ensures ok { OnOk result (out.new.items ≡ out.old.items ++ outcome_line (view outcome.now)) }
    ensures keeps { StartsWith out.new.items out.old.items }
{
    let place = outcome.place;
    push_at(out, place.datagram, u64::from(place.submessage))?;
    push_item(out, &outcome.submessage)?;
    push_last(out, outcome_word(&outcome.event))
}

/// Appends the lines of the submessages after a message's header.
fn push_submessages<A: Allocator>(
    out: &mut Vec<u8, A>,
    own: GuidPrefix,
    index: u32,
    datagram: &[u8],
) -> Result<(), AllocError>
    requires fits { length datagram.now ≤ 65507 }
    requires header { 20 ≤ length datagram.now }
    ensures ok { OnOk result (out.new.items ≡ out.old.items
        ++ submessages_text index datagram.now (outcomes_of own index datagram.now)) }
    ensures keeps { StartsWith out.new.items out.old.items }
{
    match Outcomes::new(own, u64::from(index), datagram) {
        Ok(outcomes) => push_outcomes(out, index, outcomes, &datagram[HEADER..]),
        Err(_) => Ok(()),
    }
}

/// Appends the lines of submessages. `octets` begin with the first of them.
fn push_outcomes<A: Allocator>(
    out: &mut Vec<u8, A>,
    index: u32,
    mut outcomes: Outcomes<'_>,
    octets: &[u8],
) -> Result<(), AllocError>
    ensures ok { OnOk result (out.new.items ≡ out.old.items
        ++ outcomes_text index 1 octets.now outcomes.entry) }
    ensures keeps { StartsWith out.new.items out.old.items }
{
    let mut rest = octets;
    let mut number = 1;
    while let Some(outcome) = outcomes.next() {
        push_outcome(out, &outcome)?;
        number = u64::from(outcome.place.submessage) + 1;
        rest = after_first(rest);
    }
    push_stop(out, index, number, rest, outcomes.fault())
}

/// Appends the line of what ends the reading, before these octets; none at the end of the message.
fn push_stop<A: Allocator>(
    out: &mut Vec<u8, A>,
    index: u32,
    number: u64,
    octets: &[u8],
    fault: Option<SubmessageFault>,
) -> Result<(), AllocError>
    ensures ok { OnOk result (out.new.items ≡ out.old.items
        ++ stop_line index number octets.now fault) }
    ensures keeps { StartsWith out.new.items out.old.items }
{
    let Some(fault) = fault else {
        return Ok(());
    };
    push_at(out, u64::from(index), number)?;
    push_broken(out, fault, octets)?;
    push_last(out, stop_word(fault))
}

/// Appends the columns of the submessage at which reading stops.
fn push_broken<A: Allocator>(
    out: &mut Vec<u8, A>,
    fault: SubmessageFault,
    octets: &[u8],
) -> Result<(), AllocError>
    ensures ok { OnOk result (out.new.items ≡ out.old.items
        ++ broken_columns fault octets.now (frame_of octets.now)) }
    ensures keeps { StartsWith out.new.items out.old.items }
{
    match read_frame(octets) {
        Some(frame) => push_frame(out, fault, &frame),
        None => {
            push_word(out, " - -")?;
            push_number_column(out, octets.len() as u64)
        }
    }
}

/// Appends the kind, the flags and the numbers of a submessage that isn't read.
fn push_frame<A: Allocator>(
    out: &mut Vec<u8, A>,
    fault: SubmessageFault,
    frame: &Frame<'_>,
) -> Result<(), AllocError>
    ensures ok { OnOk result (out.new.items ≡ out.old.items
        ++ broken_columns fault [] (Some (frame_view frame.now))) }
    ensures keeps { StartsWith out.new.items out.old.items }
{
    push_kind_columns(out, frame.id, frame.flags)?;
    push_broken_numbers(out, fault, frame)
}

fn push_broken_numbers<A: Allocator>(
    out: &mut Vec<u8, A>,
    fault: SubmessageFault,
    frame: &Frame<'_>,
) -> Result<(), AllocError>
    ensures ok { OnOk result (out.new.items ≡ out.old.items
        ++ broken_numbers fault (frame_view frame.now)) }
    ensures keeps { StartsWith out.new.items out.old.items }
{
    match fault {
        SubmessageFault::Rest => Ok(()),
        SubmessageFault::Length => {
            push_number_column(out, u64::from(frame.stated))?;
            push_number_column(out, frame.rest.len() as u64)
        }
        SubmessageFault::Invalid => push_number_column(out, frame.length() as u64),
    }
}
