//! Tests of the cache: calls in order, each with its expected result.

mod calls;
mod memory;
mod pull;

use crate::{Condition, Content, DataReader, InstanceState, Sample, SampleState, ViewState};
use dds_topic::Unread;
use rtps_reader::{Body, Notice, NoticeKind};
use rtps_types::{EntityId, Guid, GuidPrefix, KeyHash, Number, Place, PolicyId};
use std::alloc::{AllocError, Allocator};
use std::test::Fail;

/// No flag is set.
const ALL: Condition = Condition {
    not_read: false,
    new: false,
    alive: false,
};

/// The kind of a notice.
#[derive(Clone, Copy, Debug)]
enum What {
    Value(KeyHash),
    Dispose(KeyHash),
    Unregister(KeyHash),
    Unread,
    Matched,
    Unmatched,
    Incompatible,
    Lost,
}

/// A returned entry: its number, whether it is a value, and its states.
type Row = (u64, bool, SampleState, ViewState, InstanceState);

/// A call, with its expected result.
#[derive(Clone, Copy)]
enum Call<'a> {
    /// Accepts a notice of this writer and with this number.
    Accept(u8, u64, What),
    Read(usize, Condition, &'a [Row]),
    Take(usize, Condition, &'a [Row]),
    TakeNext(Option<Row>),
}

fn writer(octet: u8) -> Guid {
    Guid {
        prefix: GuidPrefix([octet; 12]),
        entity: EntityId([0, 0, 1, 2]),
    }
}

fn place(number: u64) -> Place {
    Place {
        datagram: number,
        submessage: 1,
    }
}

/// A notice whose value, if it has one, is its number.
fn notice(octet: u8, number: u64, what: What) -> Result<Notice<u64>, Fail> {
    let Some(of) = Number::new(number) else {
        return Err(Fail::new("no number of a change"));
    };
    let body = match what {
        What::Value(key) => Some(Body::Value(key, number)),
        What::Dispose(key) => Some(Body::Disposed(key)),
        What::Unregister(key) => Some(Body::Unregistered(key)),
        What::Unread => Some(Body::Unread(Unread::Malformed)),
        _ => None,
    };
    let what = match (body, what) {
        (Some(body), _) => NoticeKind::Sample {
            number: of,
            time: None,
            body,
        },
        (None, What::Matched) => NoticeKind::Matched,
        (None, What::Incompatible) => NoticeKind::Incompatible {
            policy: PolicyId::Reliability,
        },
        (None, What::Lost) => NoticeKind::Lost { count: number },
        (None, _) => NoticeKind::Unmatched,
    };
    Ok(Notice {
        place: place(number),
        writer: writer(octet),
        what,
    })
}

/// Whether a returned entry is this one; `value` is its value, if it has one.
fn is_row<T>(entry: &Sample<T>, value: Option<u64>, row: Row) -> bool {
    let (number, is_value, sample, view, instance) = row;
    let expected = if is_value { Some(number) } else { None };
    entry.number.get() == number
        && entry.place == place(number)
        && entry.time.is_none()
        && value == expected
        && (entry.sample, entry.view, entry.instance) == (sample, view, instance)
}

/// Whether an entry that was taken is this one.
fn is_taken(entry: &Sample<u64>, row: Row) -> bool {
    let value = match &entry.body {
        Content::Value(value) => Some(*value),
        Content::Disposed => None,
    };
    is_row(entry, value, row)
}

/// Whether a read returns these entries; `Err` where memory ran out.
fn reads<A: Allocator + Copy>(
    alloc: A,
    cache: &mut DataReader<u64, A>,
    max: usize,
    condition: Condition,
    rows: &[Row],
) -> Result<bool, AllocError> {
    let answers = cache.read(alloc, max, condition)?;
    let mut same = answers.len() == rows.len() && answers.is_empty() == rows.is_empty();
    for (at, row) in rows.iter().enumerate() {
        same &= match answers.get(at) {
            Some(entry) => {
                let value = match entry.body {
                    Content::Value(value) => Some(*value),
                    Content::Disposed => None,
                };
                is_row(&entry, value, *row)
            }
            None => false,
        };
    }
    Ok(same && answers.get(rows.len()).is_none())
}

/// Whether a take returns these entries; `Err` where memory ran out.
fn takes<A: Allocator + Copy>(
    alloc: A,
    cache: &mut DataReader<u64, A>,
    max: usize,
    condition: Condition,
    rows: &[Row],
) -> Result<bool, AllocError> {
    let taken = cache.take(alloc, max, condition)?;
    let mut same = taken.len() == rows.len();
    for (entry, row) in taken.iter().zip(rows) {
        same &= is_taken(entry, *row);
    }
    Ok(same)
}

/// Whether the next unread entry is this one.
fn takes_next<A: Allocator + Copy>(cache: &mut DataReader<u64, A>, row: Option<Row>) -> bool {
    match (cache.take_next_sample(), row) {
        (Some(entry), Some(row)) => is_taken(&entry, row),
        (None, None) => true,
        _ => false,
    }
}

/// Whether each call has its expected result.
fn goes<A: Allocator + Copy>(
    alloc: A,
    cache: &mut DataReader<u64, A>,
    calls: &[Call<'_>],
) -> Result<bool, Fail> {
    for call in calls {
        let right = match call {
            Call::Accept(octet, number, what) => {
                cache.accept(alloc, notice(*octet, *number, *what)?).is_ok()
            }
            Call::Read(max, condition, rows) => reads(alloc, cache, *max, *condition, rows)?,
            Call::Take(max, condition, rows) => takes(alloc, cache, *max, *condition, rows)?,
            Call::TakeNext(row) => takes_next(cache, *row),
        };
        if !right {
            return Ok(false);
        }
    }
    Ok(true)
}
