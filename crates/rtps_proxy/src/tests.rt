//! Effects of a writer's events on a reader, with expected values written by hand.

use crate::*;
use rtps_receiver::{Fragment, Gap, Heartbeat, HeartbeatFrag, Whole};
use rtps_types::{EntityId, Guid, GuidPrefix, KeyHash, Locator, Locators, Number, SnSet};
use rtps_wire::{ChangeInfo, Form};
use std::alloc::{AllocError, Allocator, Global};
use std::test::Fail;

mod answers;
mod best_effort;
mod best_effort_fragments;
mod fragments;
mod held;
mod matches;
mod memory;
mod runs;

/// The flags and inline QoS of each change here.
const INFO: ChangeInfo = ChangeInfo {
    form: Form::Key,
    status: 1,
    hash: Some(KeyHash([3; 16])),
};

const PAYLOAD: [u8; 4] = [0xde, 0xad, 0xbe, 0xef];

/// The writer's locator.
const LOCATOR: Locator = Locator {
    port: 7411,
    address: [127, 0, 0, 1],
};

/// The greatest sequence number, 2^62.
const MAX: u64 = 4_611_686_018_427_387_904;

/// The first octets of each answer: header and INFO_DST.
const FRONT: &[u8] = b"\x52\x54\x50\x53\x02\x05\x00\x00\
    \x0b\x0b\x0b\x0b\x0b\x0b\x0b\x0b\x0b\x0b\x0b\x0b\
    \x0e\x01\x0c\x00\
    \x0a\x0a\x0a\x0a\x0a\x0a\x0a\x0a\x0a\x0a\x0a\x0a";

/// An event of the writer.
#[derive(Clone, Copy)]
enum What {
    /// A change with this number.
    Whole(u64),
    /// A GAP from the first number to the second one, without the second.
    Gap(u64, u64),
    /// A HEARTBEAT without flags: its first number, its last number and its count.
    Asking(u64, u64, i32),
    /// A HEARTBEAT with flag F.
    Final(u64, u64, i32),
    /// A HEARTBEAT with the flags F and L.
    Alive(u64, u64, i32),
    /// A fragment of the change with this number.
    Fragment(u64),
    /// A HEARTBEAT_FRAG of the change with this number.
    HeartbeatFrag(u64),
}

/// An event and what it gives: the number of lost numbers, the numbers of the ready changes, the
/// runs above the frontier after it, and the submessage of the answer, empty where there is none.
type Row = (
    What,
    u64,
    &'static [u64],
    &'static [(u64, u64)],
    &'static [u8],
);

/// Returns the proxy of a match of reader 00000107 with writer 00000102.
fn new_proxy<A: Allocator + Copy>(alloc: A, reliable: bool) -> Result<WriterProxy<A>, AllocError> {
    let locators = Vec::from_slice(alloc, &[LOCATOR])?;
    WriterProxy::new(
        alloc,
        ProxyConfig {
            own: GuidPrefix([11; 12]),
            writer: Guid {
                prefix: GuidPrefix([10; 12]),
                entity: EntityId([0, 0, 1, 2]),
            },
            reader: EntityId([0, 0, 1, 7]),
            reliable,
            locators: Locators::new(locators),
        },
    )
}

fn number_of(value: u64) -> Result<Number, Fail> {
    match Number::new(value) {
        Some(number) => Ok(number),
        None => Err(Fail::new("no number")),
    }
}

/// Returns the change of this number.
fn whole_of(value: u64) -> Result<Whole<'static>, Fail> {
    Ok(Whole {
        number: number_of(value)?,
        info: INFO,
        payload: &PAYLOAD,
    })
}

/// Returns a HEARTBEAT with this first and last number and this count.
fn heartbeat_of(first: u64, last: u64, count: i32) -> Result<Heartbeat, Fail> {
    if last > MAX {
        return Err(Fail::new("no last number"));
    }
    Ok(Heartbeat {
        first: number_of(first)?,
        last,
        count,
        final_flag: false,
        liveliness: false,
    })
}

/// Returns a GAP without a list.
fn gap_of(start: u64, base: u64) -> Result<Gap, Fail> {
    if base == 0 || base > MAX {
        return Err(Fail::new("no base"));
    }
    Ok(Gap {
        start: number_of(start)?,
        list: SnSet {
            base,
            bits: 0,
            words: [0; 8],
        },
    })
}

fn fragment_of(value: u64) -> Result<Fragment<'static>, Fail> {
    Ok(Fragment {
        number: number_of(value)?,
        start: 1,
        count: 1,
        size: 4,
        sample: 4,
        info: INFO,
        payload: &PAYLOAD,
    })
}

fn heartbeat_frag_of(value: u64) -> Result<HeartbeatFrag, Fail> {
    Ok(HeartbeatFrag {
        number: number_of(value)?,
        last: 1,
        count: 1,
    })
}

/// Passes an event to a proxy and returns its effects.
fn bring<A: Allocator + Copy>(
    alloc: A,
    proxy: &mut WriterProxy<A>,
    what: What,
) -> Result<Result<Effects<'static, A>, AllocError>, Fail> {
    Ok(match what {
        What::Whole(number) => proxy.on_whole(alloc, None, &whole_of(number)?),
        What::Gap(start, base) => proxy.on_gap(alloc, None, &gap_of(start, base)?),
        What::Asking(first, last, count) => {
            proxy.on_heartbeat(alloc, None, &heartbeat_of(first, last, count)?)
        }
        What::Final(first, last, count) => {
            let mut heartbeat = heartbeat_of(first, last, count)?;
            heartbeat.final_flag = true;
            proxy.on_heartbeat(alloc, None, &heartbeat)
        }
        What::Alive(first, last, count) => {
            let mut heartbeat = heartbeat_of(first, last, count)?;
            heartbeat.final_flag = true;
            heartbeat.liveliness = true;
            proxy.on_heartbeat(alloc, None, &heartbeat)
        }
        What::Fragment(number) => proxy.on_fragment(alloc, None, &fragment_of(number)?),
        What::HeartbeatFrag(number) => {
            proxy.on_heartbeat_frag(alloc, None, &heartbeat_frag_of(number)?)
        }
    })
}

/// Whether effects are those of a row.
fn gives<A: Allocator>(effects: Effects<'_, A>, row: &Row) -> bool {
    effects.lost == row.1
        && has_ready(&effects, row.2)
        && match &effects.answer {
            None => row.4.is_empty(),
            Some(answer) => {
                !row.4.is_empty()
                    && answer.octets.as_slice().strip_prefix(FRONT) == Some(row.4)
                    && answer.to.as_slice() == [LOCATOR].as_slice()
            }
        }
}

/// Whether the changes that are ready have these numbers.
fn has_ready<A: Allocator>(effects: &Effects<'_, A>, numbers: &[u64]) -> bool {
    effects.ready.len() == numbers.len()
        && effects
            .ready
            .iter()
            .zip(numbers.iter())
            .all(|(change, number)| change.number.get() == *number)
}

/// Whether the runs have these first and last numbers.
fn has_runs(runs: &[(Number, Number)], expected: &[(u64, u64)]) -> bool {
    runs.len() == expected.len()
        && runs.iter().zip(expected.iter()).all(|(run, pair)| run.0.get() == pair.0
            && run.1.get() == pair.1)
}

/// Whether a proxy gives what a row expects.
fn meets(alloc: Global, proxy: &mut WriterProxy, row: &Row) -> Result<bool, Fail> {
    let effects = bring(alloc, proxy, row.0)??;
    Ok(gives(effects, row) && has_runs(proxy.runs(), row.3))
}

/// Returns the index of the first row whose expectation a new proxy doesn't meet.
fn first_unmet(alloc: Global, reliable: bool, rows: &[Row]) -> Result<Option<usize>, Fail> {
    let mut proxy = new_proxy(alloc, reliable)?;
    for (at, row) in rows.iter().enumerate() {
        if !meets(alloc, &mut proxy, row)? {
            return Ok(Some(at));
        }
    }
    Ok(None)
}
