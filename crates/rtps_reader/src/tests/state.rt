//! Notices of a best-effort reader for events written by hand.

use crate::*;
use dds_topic::{Decoder, Shape, Shapes};
use rtps_receiver::{Event, EventBody, Whole};
use rtps_types::{EntityId, Guid, GuidPrefix, Locators, Number, Place, WriterFacts};
use rtps_wire::{ChangeInfo, Form};
use std::alloc::Global;
use std::test::Fail;

/// A shape RED at 1, 2 with size 3, in little-endian CDR.
const RED: [u8; 24] = [
    0, 1, 0, 0, 4, 0, 0, 0, 0x52, 0x45, 0x44, 0, 1, 0, 0, 0, 2, 0, 0, 0, 3, 0, 0, 0,
];

const THEIRS: GuidPrefix = GuidPrefix([10; 12]);

const WRITER: EntityId = EntityId([0, 0, 1, 2]);

const READER: EntityId = EntityId([0, 0, 1, 7]);

/// Returns a reader that is matched with one writer from the start.
fn reader(alloc: Global) -> Result<ReaderState, Fail> {
    let mut fixed = Vec::new(alloc);
    fixed.push(WriterFacts {
        writer: Guid {
            prefix: THEIRS,
            entity: WRITER,
        },
        locators: Locators::new(Vec::new(alloc)),
    })?;
    let guid = Guid {
        prefix: GuidPrefix([11; 12]),
        entity: READER,
    };
    Ok(ReaderState::new(alloc, 0, guid, false, fixed.as_slice())?)
}

/// Returns a change with this number, from this datagram.
fn event(datagram: u64, source: GuidPrefix, number: u64) -> Result<Event<'static>, Fail> {
    let Some(number) = Number::new(number) else {
        return Err(Fail::new("no number"));
    };
    Ok(Event {
        place: Place {
            datagram,
            submessage: 1,
        },
        source,
        time: None,
        writer: WRITER,
        reader: READER,
        body: EventBody::Whole(Whole {
            number,
            info: ChangeInfo {
                form: Form::Value,
                status: 0,
                hash: None,
            },
            payload: &RED,
        }),
    })
}

/// Returns the output for four changes. The reader accepts two: one of the others is old, and one
/// is from a writer that isn't matched.
fn given(alloc: Global, reader: &mut ReaderState) -> Result<Output<Shape>, Fail> {
    let mut output = Output {
        notices: Vec::new(alloc),
        answers: Vec::new(alloc),
    };
    let mut decoder = Decoder::new(alloc, Shapes);
    let other = GuidPrefix([12; 12]);
    for (datagram, source, number) in [
        (0, THEIRS, 5),
        (1, THEIRS, 8),
        (2, THEIRS, 7),
        (3, other, 9),
    ] {
        let event = event(datagram, source, number)?;
        reader.step(alloc, &mut decoder, &Step::of_event(&event), &mut output)?;
    }
    Ok(output)
}

/// Whether a notice presents RED with this number.
fn presents(notice: &Notice<Shape>, expected: u64) -> bool {
    match &notice.what {
        NoticeKind::Sample {
            number,
            body: Body::Value(_, shape),
            ..
        } => {
            number.get() == expected
                && shape.color.as_str() == "RED"
                && (shape.x, shape.y, shape.size) == (1, 2, 3)
        }
        _ => false,
    }
}

/// Whether a notice reports this number of lost samples.
fn tells_lost(notice: &Notice<Shape>, expected: u64) -> bool {
    match &notice.what {
        NoticeKind::Lost { count } => *count == expected,
        _ => false,
    }
}

/// Whether the two changes are presented, in order, without an answer.
fn are_presented(output: &Output<Shape>) -> bool {
    let [first, lost, last] = output.notices.as_slice() else {
        return false;
    };
    output.answers.is_empty()
        && presents(first, 5)
        && tells_lost(lost, 2)
        && presents(last, 8)
        && last.place.datagram == 1
        && last.writer.prefix == THEIRS
}

/// Whether a reader presents the expected changes.
fn presents_rising(alloc: Global, reader: &mut ReaderState) -> Result<bool, Fail> {
    Ok(are_presented(&given(alloc, reader)?))
}

#[test]
fn rising_numbers_are_presented_once(rt: HostRuntime) -> Result<(), Fail> {
    let mut reader = reader(rt.alloc())?;
    assert!(rt; presents_rising(rt.alloc(), &mut reader)?);
    Ok(())
}

/// Whether a reader's status counts what it presented.
fn counts_rising(alloc: Global, reader: &mut ReaderState) -> Result<bool, Fail> {
    let status = Status {
        matched_total: 1,
        matched_now: 1,
        incompatible_total: 0,
        last_policy: None,
        lost_total: 2,
        samples: 2,
    };
    Ok(given(alloc, reader)?.notices.len() == 3 && reader.status() == status)
}

#[test]
fn the_status_counts_the_notices(rt: HostRuntime) -> Result<(), Fail> {
    let mut reader = reader(rt.alloc())?;
    assert!(rt; counts_rising(rt.alloc(), &mut reader)?);
    Ok(())
}

/// Whether a reader that is stopped after these changes has no match, keeps its totals, and
/// presents nothing more.
fn is_stopped(alloc: Global, reader: &mut ReaderState) -> Result<bool, Fail> {
    let earlier = given(alloc, reader)?;
    reader.stop();
    let mut output: Output<Shape> = Output {
        notices: Vec::new(alloc),
        answers: Vec::new(alloc),
    };
    let mut decoder = Decoder::new(alloc, Shapes);
    let event = event(4, THEIRS, 10)?;
    reader.step(alloc, &mut decoder, &Step::of_event(&event), &mut output)?;
    let status = Status {
        matched_total: 1,
        matched_now: 0,
        incompatible_total: 0,
        last_policy: None,
        lost_total: 2,
        samples: 2,
    };
    Ok(earlier.notices.len() == 3 && output.notices.is_empty() && reader.status() == status)
}

#[test]
fn a_stopped_reader_has_no_match(rt: HostRuntime) -> Result<(), Fail> {
    let mut reader = reader(rt.alloc())?;
    assert!(rt; is_stopped(rt.alloc(), &mut reader)?);
    Ok(())
}
