//! What a reliable reader reports and answers while its match with a writer begins and ends.

use crate::*;
use dds_topic::{Decoder, Shape, Shapes};
use rtps_receiver::{EventBody, Heartbeat, Whole};
use rtps_types::{
    EntityId, Guid, GuidPrefix, Locator, Locators, MatchChangeKind, Number, Place, PolicyId,
    WriterFacts,
};
use rtps_wire::{ChangeInfo, Form};
use std::alloc::{AllocError, Allocator, Global};
use std::test::Fail;

pub(super) const WRITER: Guid = Guid {
    prefix: GuidPrefix([10; 12]),
    entity: EntityId([0, 0, 1, 2]),
};

const PLACE: Place = Place {
    datagram: 3,
    submessage: 1,
};

/// A step of the reader.
#[derive(Clone, Copy, Debug)]
pub(super) enum Asks {
    /// Handle the change with this number.
    Change(u64),
    /// Handle a HEARTBEAT from the first to the last number, with this count.
    Heartbeat(u64, u64, i32),
    /// Begin the match, with this port for answers.
    Match(u16),
    Unmatch,
    /// Report the writer as refused for this policy.
    Refuse(PolicyId),
}

/// A notice of the reader.
#[derive(Clone, Copy, Debug, PartialEq, Eq)]
enum Told {
    Nothing,
    Sample(u64),
    Lost(u64),
    Matched,
    Unmatched,
    Incompatible(PolicyId),
}

/// The matches that began and the matches now, the refusals and the last policy, the lost numbers,
/// and the samples.
type Counted = (u32, u64, u32, Option<PolicyId>, u32, u32);

/// A step, the expected notice, the port and the count of the expected answer, and the status after
/// the step.
type Row = (Asks, Told, Option<(u16, u8)>, Counted);

/// Steps of matches that begin and end, in order.
const STEPS: [Row; 15] = [
    (Asks::Change(1), Told::Nothing, None, (0, 0, 0, None, 0, 0)),
    (
        Asks::Match(7411),
        Told::Matched,
        None,
        (1, 1, 0, None, 0, 0),
    ),
    (
        Asks::Change(1),
        Told::Sample(1),
        None,
        (1, 1, 0, None, 0, 1),
    ),
    // It waits for change 2, and is dropped without a notice when the match ends.
    (Asks::Change(3), Told::Nothing, None, (1, 1, 0, None, 0, 1)),
    (Asks::Unmatch, Told::Unmatched, None, (1, 0, 0, None, 0, 1)),
    (Asks::Change(2), Told::Nothing, None, (1, 0, 0, None, 0, 1)),
    // The next match has no history: its first HEARTBEAT loses no number, and its answers count
    // from 1.
    (
        Asks::Match(7412),
        Told::Matched,
        None,
        (2, 1, 0, None, 0, 1),
    ),
    (
        Asks::Heartbeat(5, 5, 1),
        Told::Nothing,
        Some((7412, 1)),
        (2, 1, 0, None, 0, 1),
    ),
    (
        Asks::Heartbeat(7, 7, 2),
        Told::Lost(2),
        Some((7412, 2)),
        (2, 1, 0, None, 2, 1),
    ),
    (
        Asks::Change(7),
        Told::Sample(7),
        None,
        (2, 1, 0, None, 2, 2),
    ),
    // A match that begins replaces the earlier one.
    (
        Asks::Match(7413),
        Told::Matched,
        None,
        (3, 1, 0, None, 2, 2),
    ),
    (
        Asks::Change(1),
        Told::Sample(1),
        None,
        (3, 1, 0, None, 2, 3),
    ),
    (
        Asks::Refuse(PolicyId::Reliability),
        Told::Incompatible(PolicyId::Reliability),
        None,
        (3, 1, 1, Some(PolicyId::Reliability), 2, 3),
    ),
    (
        Asks::Refuse(PolicyId::Durability),
        Told::Incompatible(PolicyId::Durability),
        None,
        (3, 1, 2, Some(PolicyId::Durability), 2, 3),
    ),
    (
        Asks::Heartbeat(1, 2, 1),
        Told::Nothing,
        Some((7413, 1)),
        (3, 1, 2, Some(PolicyId::Durability), 2, 3),
    ),
];

/// A reader without matches.
pub(super) fn reader<A: Allocator + Copy>(alloc: A) -> Result<ReaderState<A>, ReaderError> {
    let fixed = Vec::new(alloc);
    let guid = Guid {
        prefix: GuidPrefix([11; 12]),
        entity: EntityId([0, 0, 1, 7]),
    };
    ReaderState::new(alloc, 0, guid, true, fixed.as_slice())
}

fn number_of(number: u64) -> Result<Number, Fail> {
    match Number::new(number) {
        Some(number) => Ok(number),
        None => Err(Fail::new("no number")),
    }
}

pub(super) fn change(number: u64) -> Result<EventBody<'static>, Fail> {
    Ok(EventBody::Whole(Whole {
        number: number_of(number)?,
        info: ChangeInfo {
            form: Form::Nothing,
            status: 0,
            hash: None,
        },
        payload: &[],
    }))
}

pub(super) fn heartbeat(first: u64, last: u64, count: i32) -> Result<EventBody<'static>, Fail> {
    if last > 7 {
        return Err(Fail::new("no last number"));
    }
    Ok(EventBody::Heartbeat(Heartbeat {
        first: number_of(first)?,
        last,
        count,
        final_flag: false,
        liveliness: false,
    }))
}

/// Returns the output of a step.
pub(super) fn stepped<A: Allocator + Copy>(
    alloc: A,
    values: Global,
    reader: &mut ReaderState<A>,
    what: StepKind<'_, A>,
) -> Result<Output<Shape, A>, ReaderError> {
    let mut output = Output {
        notices: Vec::new(alloc),
        answers: Vec::new(alloc),
    };
    let mut decoder = Decoder::new(values, Shapes);
    let step = Step { place: PLACE, what };
    reader.step(alloc, &mut decoder, &step, &mut output)?;
    Ok(output)
}

/// Returns the output for an event of the writer.
fn taken<A: Allocator + Copy>(
    alloc: A,
    values: Global,
    reader: &mut ReaderState<A>,
    body: &EventBody<'_>,
) -> Result<Output<Shape, A>, ReaderError> {
    let what = StepKind::Event {
        writer: WRITER,
        time: None,
        body,
    };
    stepped(alloc, values, reader, what)
}

/// Returns the output for a step.
fn given<A: Allocator + Copy>(
    alloc: A,
    values: Global,
    reader: &mut ReaderState<A>,
    asks: Asks,
) -> Result<Result<Output<Shape, A>, ReaderError>, Fail> {
    let writer = WRITER;
    Ok(match asks {
        Asks::Change(number) => taken(alloc, values, reader, &change(number)?),
        Asks::Heartbeat(first, last, count) => {
            taken(alloc, values, reader, &heartbeat(first, last, count)?)
        }
        Asks::Match(port) => {
            let locators = [Locator {
                port,
                address: [127, 0, 0, 1],
            }];
            let locators = Locators::copied(alloc, &locators)?;
            let begins = MatchChangeKind::Match(WriterFacts { writer, locators });
            stepped(alloc, values, reader, StepKind::Change(&begins))
        }
        Asks::Unmatch => {
            let ends = MatchChangeKind::Unmatch(writer);
            stepped(alloc, values, reader, StepKind::Change(&ends))
        }
        Asks::Refuse(policy) => {
            let refuses = MatchChangeKind::Refuse { writer, policy };
            stepped(alloc, values, reader, StepKind::Change(&refuses))
        }
    })
}

/// Returns the notice, if there is exactly one.
fn said<A: Allocator>(output: &Output<Shape, A>) -> Result<Told, Fail> {
    let Some(notice) = output.notices.first() else {
        return Ok(Told::Nothing);
    };
    if output.notices.len() > 1 || notice.place != PLACE || notice.writer != WRITER {
        return Err(Fail::new("another notice"));
    }
    Ok(match &notice.what {
        NoticeKind::Sample { number, .. } => Told::Sample(number.get()),
        NoticeKind::Lost { count } => Told::Lost(*count),
        NoticeKind::Matched => Told::Matched,
        NoticeKind::Unmatched => Told::Unmatched,
        NoticeKind::Incompatible { policy } => Told::Incompatible(*policy),
    })
}

/// Returns the port of the answer and its count, which is the first of its last four octets.
fn answer<A: Allocator>(output: &Output<Shape, A>) -> Option<(u16, u8)> {
    let (_, reply) = output.answers.first()?;
    let to = reply.to.as_slice().first()?;
    let count = reply.octets.as_slice().iter().rev().nth(3)?;
    Some((to.port, *count))
}

fn counted(status: Status) -> Counted {
    (
        status.matched_total,
        status.matched_now,
        status.incompatible_total,
        status.last_policy,
        status.lost_total,
        status.samples,
    )
}

/// Whether a step gives the expected notice, answer and status.
fn is_met(alloc: Global, reader: &mut ReaderState, step: &Row) -> Result<bool, Fail> {
    let (asks, expected, sent, status) = *step;
    let output = given(alloc, alloc, reader, asks)??;
    Ok(said(&output)? == expected && answer(&output) == sent && counted(reader.status()) == status)
}

/// Returns the index of the first step that doesn't give what is expected.
fn first_unmet(
    alloc: Global,
    reader: &mut ReaderState,
    steps: &[Row],
) -> Result<Option<usize>, Fail> {
    for (at, step) in steps.iter().enumerate() {
        if !is_met(alloc, reader, step)? {
            return Ok(Some(at));
        }
    }
    Ok(None)
}

#[test]
fn begin_end_and_begin_again(rt: HostRuntime) -> Result<(), Fail> {
    let mut reader = reader(rt.alloc())?;
    assert_eq!(rt; first_unmet(rt.alloc(), &mut reader, &STEPS)?, None);
    Ok(())
}
