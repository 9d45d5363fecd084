//! Refused growths.

use super::matching::{Asks, WRITER, change, heartbeat, reader, stepped};
use super::{BLUE, info, is_blue};
use crate::*;
use dds_topic::{Decoder, FailingCatalog, Shapes};
use linked_list_allocator::LocalHeap;
use rtps_types::{
    EntityId, Guid, GuidPrefix, Locator, Locators, MatchChangeKind, PolicyId, WriterFacts,
};
use rtps_wire::Form;
use std::alloc::{AllocError, Allocator, Global};
use std::collections::BTreeSet;
use std::sync::atomic::AtomicU64;
use std::test::Fail;

const LOCATOR: Locator = Locator {
    port: 7411,
    address: [127, 0, 0, 1],
};

/// Takes memory in small blocks until it is refused, but for this number of blocks at its end, and
/// returns them.
fn blocks_but<A: Allocator + Copy>(
    alloc: Global,
    heap: A,
    room: usize,
) -> Result<Vec<Vec<u8, A>>, Fail> {
    let mut blocks = Vec::new(alloc);
    for _ in 0..1024 {
        match Vec::with_capacity(heap, 16) {
            Ok(block) => blocks.push(block)?,
            Err(_) => break,
        }
    }
    for _ in 0..room {
        blocks.pop();
    }
    Ok(blocks)
}

/// Has a reader do a step with all memory of the heap, or with room for this number of blocks.
/// Returns the number of notices and answers.
fn tries<A: Allocator + Copy>(
    alloc: Global,
    heap: A,
    reader: &mut ReaderState<A>,
    asks: Asks,
    room: Option<usize>,
) -> Result<Result<usize, ReaderError>, Fail> {
    let writer = WRITER;
    let locators = Locators::copied(heap, &[LOCATOR])?;
    let body = match asks {
        Asks::Change(number) => Some(change(number)?),
        Asks::Heartbeat(first, last, count) => Some(heartbeat(first, last, count)?),
        _ => None,
    };
    let kind = match asks {
        Asks::Match(_) => MatchChangeKind::Match(WriterFacts { writer, locators }),
        Asks::Refuse(policy) => MatchChangeKind::Refuse { writer, policy },
        _ => MatchChangeKind::Unmatch(writer),
    };
    let what = match &body {
        Some(body) => StepKind::Event {
            writer,
            time: None,
            body,
        },
        None => StepKind::Change(&kind),
    };
    let blocks = match room {
        Some(room) => blocks_but(alloc, heap, room)?,
        None => Vec::new(alloc),
    };
    let result = stepped(heap, alloc, reader, what);
    drop(blocks);
    match result {
        Ok(output) => Ok(Ok(output.notices.len().saturating_add(output.answers.len()))),
        Err(error) => Ok(Err(error)),
    }
}

/// What a reader takes before a step: it has a match, has presented change 1 and holds change 3.
const BEFORE: [Asks; 3] = [Asks::Match(7411), Asks::Change(1), Asks::Change(3)];

/// Steps of a reader, and the numbers of notices and answers of each.
const STEPS: [(Asks, usize); 5] = [
    (Asks::Change(2), 2),
    (Asks::Heartbeat(1, 4, 1), 1),
    (Asks::Match(7411), 1),
    (Asks::Unmatch, 1),
    (Asks::Refuse(PolicyId::Reliability), 1),
];

/// Whether a spent reader refuses each step with the memory that there is, and changes nothing.
fn stays_spent<A: Allocator + Copy>(
    alloc: Global,
    heap: A,
    reader: &mut ReaderState<A>,
) -> Result<bool, Fail> {
    let before = reader.status();
    for (asks, _) in STEPS {
        if tries(alloc, heap, reader, asks, None)? != Err(AllocError) {
            return Ok(false);
        }
    }
    Ok(reader.status() == before)
}

/// Whether a step is refused that finds room for this number of blocks.
fn is_refused(alloc: Global, (asks, wanted): (Asks, usize), room: usize) -> Result<bool, Fail> {
    let heap = LocalHeap::new(alloc, 8192)?;
    let mut reader = reader(&heap)?;
    let count = match asks {
        // The change that is held, which the end of its match gives back, would be room enough.
        Asks::Unmatch => 2,
        _ => 3,
    };
    for before in &BEFORE[..count] {
        tries(alloc, &heap, &mut reader, *before, None)??;
    }
    let result = tries(alloc, &heap, &mut reader, asks, Some(room))?;
    if result == Ok(wanted) {
        return Ok(false);
    }
    if result == Err(AllocError) && stays_spent(alloc, &heap, &mut reader)? {
        return Ok(true);
    }
    Err(Fail::new("another result"))
}

#[test]
fn a_step_out_of_memory_spends_a_reader(rt: HostRuntime) -> Result<(), Fail> {
    for row in STEPS {
        let (mut some_refused, mut some_done) = (false, false);
        for room in 0..128 {
            if is_refused(rt.alloc(), row, room)? {
                some_refused = true;
            } else {
                some_done = true;
            }
        }
        assert!(rt; some_refused && some_done, "of {:?}", row.0);
    }
    Ok(())
}

/// A reader with two fixed matches.
fn matched<'a>(
    alloc: Global,
    heap: &'a LocalHeap,
    room: usize,
) -> Result<Option<ReaderState<&'a LocalHeap>>, Fail> {
    let mut fixed = Vec::new(heap);
    for entity in [[0, 0, 1, 2], [0, 0, 2, 2]] {
        let writer = Guid {
            prefix: GuidPrefix([10; 12]),
            entity: EntityId(entity),
        };
        let locators = Locators::copied(heap, &[LOCATOR])?;
        fixed.push(WriterFacts { writer, locators })?;
    }
    let blocks = blocks_but(alloc, heap, room)?;
    let guid = Guid {
        prefix: GuidPrefix([11; 12]),
        entity: EntityId([0, 0, 1, 7]),
    };
    let reader = ReaderState::new(heap, 0, guid, true, fixed.as_slice());
    drop(blocks);
    Ok(reader.ok())
}

#[test]
fn starts_again_what_was_refused(rt: HostRuntime) -> Result<(), Fail> {
    let (mut some_refused, mut some_started) = (false, false);
    for room in 0..128 {
        let heap = LocalHeap::new(rt.alloc(), 8192)?;
        let mut reader = matched(rt.alloc(), &heap, room)?;
        if reader.is_some() {
            some_started = true;
        } else {
            some_refused = true;
            assert_eq!(rt; heap.used(), 0);
            reader = matched(rt.alloc(), &heap, 1024)?;
        }
        assert!(rt; reader.is_some_and(|reader| reader.status().matched_now == 2));
    }
    assert!(rt; some_refused && some_started);
    Ok(())
}

/// Whether a reader with two matches lists them with room for this number of blocks. Where that is
/// refused, it lists them once there is memory.
fn is_listed<A: Allocator + Copy>(
    alloc: Global,
    heap: A,
    reader: &ReaderState<A>,
    room: usize,
) -> Result<bool, Fail> {
    let mut matches = BTreeSet::new(heap);
    let blocks = blocks_but(alloc, heap, room)?;
    let is_listed = reader.add_matches(&mut matches).is_ok();
    drop(blocks);
    if !is_listed && (matches.len() >= 2 || reader.add_matches(&mut matches).is_err()) {
        return Err(Fail::new("another result"));
    }
    if matches.len() != 2 || !matches.contains(&(0, WRITER)) {
        return Err(Fail::new("other matches"));
    }
    Ok(is_listed)
}

#[test]
fn lists_again_the_matches_that_were_refused(rt: HostRuntime) -> Result<(), Fail> {
    let (mut some_refused, mut some_listed) = (false, false);
    for room in 0..64 {
        let heap = LocalHeap::new(rt.alloc(), 8192)?;
        let Some(reader) = matched(rt.alloc(), &heap, 1024)? else {
            return Err(Fail::new("no memory for a reader"));
        };
        if is_listed(rt.alloc(), &heap, &reader, room)? {
            some_listed = true;
        } else {
            some_refused = true;
        }
    }
    assert!(rt; some_refused && some_listed);
    Ok(())
}

#[test]
fn a_body_without_memory_is_decoded_again(rt: HostRuntime) -> Result<(), Fail> {
    let catalog = FailingCatalog {
        catalog: Shapes,
        fails_at: 0,
        decoded: AtomicU64::new(0),
    };
    let mut decoder = Decoder::new(rt.alloc(), catalog);
    let info = info(Form::Value, 0, None);
    assert!(rt; body_of(&mut decoder, info, &BLUE).is_err());
    assert!(rt; is_blue(body_of(&mut decoder, info, &BLUE)?));
    Ok(())
}
