//! Tests with too little memory.

ghost use Rattle.std.specs.Prelude.{◌≤◌, length};

use super::announced::{FIRST, Offer, Says, WRITERS, datagram_of};
use super::coming::reader_of_squares;
use super::matching::{Unlike, two_unlike};
use super::moments::datagram_from;
use super::{SENDER, Sent, at_start, config, datagram, two};
use crate::*;
use dds_qos::Reliability;
use dds_topic::{Shape, Shapes};
use linked_list_allocator::LocalHeap;
use rtps_discovery::Config;
use rtps_reader::Status;
use std::alloc::Global;
use std::test::Fail;

/// Whether an engine that has failed refuses each call, and shows that no datagram was processed.
fn has_failed<'a>(
    heap: &'a LocalHeap,
    engine: &mut SerialEngine<Shapes, &'a LocalHeap>,
    octets: &[u8],
) -> bool
    requires { length octets.now ≤ 65507 }
{
    matches!(engine.status(1), Some(Status { samples: 0, .. }))
        && engine.matches(heap).err() == Some(EngineError::Failed)
        && engine.take(heap, at_start(octets)).err() == Some(EngineError::Failed)
}

/// The result of a datagram in a small heap.
#[derive(Clone, Copy, PartialEq, Eq)]
enum Met {
    /// There was no memory for an engine.
    NoEngine,
    /// The engine has failed.
    Failed,
    /// The datagram has this number of reports.
    Reports(usize),
    /// There was no memory to put the reports in order.
    Unordered,
}

/// The result of a datagram in a heap of this size.
fn take_once(alloc: Global, size: usize, config: Config, octets: &[u8]) -> Result<Met, Fail>
    requires { length octets.now ≤ 65507 }
{
    let heap = LocalHeap::new(alloc, size)?;
    let mut engine = match SerialEngine::new_in(&heap, alloc, config, Shapes) {
        Ok(engine) => engine,
        Err(StartError::NoMemory) => return Ok(Met::NoEngine),
        Err(_) => return Err(Fail::new("the configuration is refused")),
    };
    match engine.take(&heap, at_start(octets)) {
        Ok(outcome) => match outcome.in_order(&heap) {
            Ok(reports) => Ok(Met::Reports(reports.len())),
            Err(_) => Ok(Met::Unordered),
        },
        Err(EngineError::NoMemory) if has_failed(&heap, &mut engine, octets) => Ok(Met::Failed),
        Err(_) => Err(Fail::new("an engine out of memory has not failed")),
    }
}

/// Two readers, and how they come to be matched with the writer.
#[derive(Clone, Copy)]
enum Given {
    /// Both have fixed matches with the writer.
    Fixed(Reliability),
    /// The writer is announced to the first one.
    Announced,
}

fn config_given(alloc: Global, what: Given) -> Result<Config, Fail> {
    match what {
        Given::Fixed(reliability) => Ok(two(alloc, reliability)?),
        Given::Announced => two_unlike(alloc, Unlike::Topics),
    }
}

/// Whether small heaps have no room for an engine, larger ones have an engine that fails, and large
/// ones have an engine that reports `reports` items of a datagram.
fn fails_or_reports(alloc: Global, what: Given, octets: &[u8], reports: usize) -> Result<bool, Fail>
    requires { length octets.now ≤ 65507 }
{
    let (mut missing, mut failed, mut served) = (false, false, false);
    for step in 0..192 {
        match take_once(alloc, 256 + step * 128, config_given(alloc, what)?, octets)? {
            Met::NoEngine => missing = true,
            Met::Failed => failed = true,
            Met::Reports(count) if count == reports => served = true,
            Met::Reports(_) => return Ok(false),
            Met::Unordered => {}
        }
    }
    Ok(missing && failed && served)
}

#[test]
fn an_engine_out_of_memory_has_failed(rt: HostRuntime) -> Result<(), Fail> {
    let alloc = rt.alloc();
    let parts = [
        Sent::ForAll(1),
        Sent::Heartbeat(1, 3, 1),
        Sent::Heartbeat(3, 3, 2),
    ];
    let octets = datagram(alloc, &parts)?;
    // Of two readers, each best-effort one has one sample, and each reliable one also sends two
    // answers and has lost a number.
    for (reliability, reports) in [(Reliability::BestEffort, 2), (Reliability::Reliable, 8)] {
        let what = Given::Fixed(reliability);
        assert!(rt; fails_or_reports(alloc, what, octets.as_slice(), reports)?);
    }
    Ok(())
}

#[test]
fn an_announcement_out_of_memory_fails_an_engine(rt: HostRuntime) -> Result<(), Fail> {
    let alloc = rt.alloc();
    // Discovery answers, and the reader is matched, has a sample and answers.
    let parts = [
        Says::Comes,
        Says::Offers(2, 1, Offer::Square),
        Says::Heartbeat(WRITERS, [2, 2, 2]),
        Says::Blue(1, 1),
        Says::Heartbeat(FIRST, [1, 1, 1]),
    ];
    let octets = datagram_of(alloc, &parts)?;
    assert!(rt; fails_or_reports(alloc, Given::Announced, octets.as_slice(), 4)?);
    Ok(())
}

/// Whether an engine takes the records of two peers, each with two writers of squares, one datagram
/// each.
fn takes_peers<'a>(
    alloc: Global,
    heap: &'a LocalHeap,
    engine: &mut SerialEngine<Shapes, &'a LocalHeap>,
) -> Result<bool, Fail> {
    for peer in [SENDER, 0x0c] {
        for part in [
            Says::Comes,
            Says::Offers(1, 1, Offer::Square),
            Says::Offers(2, 2, Offer::Square),
        ] {
            let octets = datagram_from(alloc, peer, &[part])?;
            if engine.take(heap, at_start(octets.as_slice())).is_err() {
                return Ok(false);
            }
        }
    }
    Ok(true)
}

/// Which call meets a heap that is full but for some room.
#[derive(Clone, Copy, Debug, PartialEq, Eq)]
enum Call {
    Take,
    TakeInOrder,
    Tick,
    TickInOrder,
    /// A reader comes.
    Comes,
    /// The reader that came goes.
    Goes,
}

/// The calls of a datagram, with the number of their reports: a sample and an answer of each of two
/// readers.
const DATAGRAMS: [(Call, usize); 2] = [(Call::Take, 4), (Call::TakeInOrder, 4)];

/// The calls of a tick: both readers are unmatched from four writers.
const TICKS: [(Call, usize); 2] = [(Call::Tick, 8), (Call::TickInOrder, 8)];

/// The calls by which a third reader comes and goes: it is matched with the four writers and
/// unmatched.
const READERS: [(Call, usize); 2] = [(Call::Comes, 4), (Call::Goes, 4)];

/// Takes memory in blocks until it is refused, the last 4,096 octets in blocks of 16, and returns
/// them.
fn blocks_in<'a>(alloc: Global, heap: &'a LocalHeap) -> Result<Vec<Vec<u8, &'a LocalHeap>>, Fail> {
    let mut blocks = Vec::new(alloc);
    // One large block, where there is room for it, and then small ones in all that is left.
    if let Ok(block) = Vec::with_capacity(heap, heap.free().saturating_sub(6144)) {
        blocks.push(block)?;
    }
    for _ in 0..4096 {
        match Vec::with_capacity(heap, 16) {
            Ok(block) => blocks.push(block)?,
            Err(_) => return Ok(blocks),
        }
    }
    Err(Fail::new("the heap is too large"))
}

/// Fills a heap but for this number of blocks at its end, and returns the others.
fn blocks_but<'a>(
    alloc: Global,
    heap: &'a LocalHeap,
    room: usize,
) -> Result<Vec<Vec<u8, &'a LocalHeap>>, Fail> {
    let mut blocks = blocks_in(alloc, heap)?;
    for _ in 0..room {
        blocks.pop();
    }
    Ok(blocks)
}

/// Has an engine add the third reader, of squares, and returns the number of its notices.
fn added<'a>(
    alloc: Global,
    heap: &'a LocalHeap,
    engine: &mut SerialEngine<Shapes, &'a LocalHeap>,
) -> Result<Result<usize, EngineError>, Fail> {
    match engine.add_reader(heap, reader_of_squares(alloc, 3)?) {
        Ok((2, outcome)) if outcome.notices.len() == 3 => Ok(Ok(outcome.notices[2].len())),
        Ok(_) => Err(Fail::new("another rank")),
        Err(fault) => Ok(Err(fault)),
    }
}

/// Has an engine remove the third reader, and returns the number of its notices.
fn removed<'a>(
    heap: &'a LocalHeap,
    engine: &mut SerialEngine<Shapes, &'a LocalHeap>,
) -> Result<Result<usize, EngineError>, Fail> {
    match engine.remove_reader(heap, 2) {
        Ok(outcome) if outcome.notices.len() == 3 => Ok(Ok(outcome.notices[2].len())),
        Ok(_) => Err(Fail::new("another number of ranks")),
        Err(fault) => Ok(Err(fault)),
    }
}

/// The reports of a datagram or a tick.
type Reports<'a> = Vec<Report<Shape, &'a LocalHeap>, &'a LocalHeap>;

/// The number of reports of an outcome.
fn count_in<'a>(outcome: Outcome<Shape, &'a LocalHeap>) -> usize {
    let mut count = outcome.answers.len();
    for notices in &outcome.notices {
        count = count.saturating_add(notices.len());
    }
    count
}

/// Has an engine do a call, and returns the number of its reports. Those in order replace
/// `reports`.
fn done<'a>(
    alloc: Global,
    heap: &'a LocalHeap,
    engine: &mut SerialEngine<Shapes, &'a LocalHeap>,
    call: Call,
    reports: &mut Reports<'a>,
) -> Result<Result<usize, EngineError>, Fail> {
    let parts = [Says::Blue(1, 1), Says::Heartbeat(FIRST, [1, 1, 1])];
    let octets = datagram_from(alloc, SENDER, &parts)?;
    let datagram = at_start(octets.as_slice());
    let outcome = match call {
        Call::Comes => return added(alloc, heap, engine),
        Call::Goes => return removed(heap, engine),
        Call::TakeInOrder => {
            let taken = engine.take_in_order(heap, datagram, reports);
            return Ok(taken.map(|_| reports.len()));
        }
        Call::TickInOrder => {
            let ticked = engine.tick_in_order(heap, 100_001, reports);
            return Ok(ticked.map(|_| reports.len()));
        }
        Call::Take => engine.take(heap, datagram),
        Call::Tick => engine.tick(heap, 100_001),
    };
    match outcome {
        Ok(outcome) => Ok(Ok(count_in(outcome))),
        Err(fault) => Ok(Err(fault)),
    }
}

/// The number of ranks, and the statuses of the first four.
fn shown_by<'a>(engine: &SerialEngine<Shapes, &'a LocalHeap>) -> (u32, [Option<Status>; 4]) {
    let statuses = [
        engine.status(0),
        engine.status(1),
        engine.status(2),
        engine.status(3),
    ];
    (engine.readers(), statuses)
}

/// Whether an engine that has failed refuses each call, and leaves the reports of the caller alone.
fn refuses_all<'a>(
    alloc: Global,
    heap: &'a LocalHeap,
    engine: &mut SerialEngine<Shapes, &'a LocalHeap>,
    reports: &mut Reports<'a>,
) -> Result<bool, Fail> {
    let count = reports.len();
    for rows in [DATAGRAMS, TICKS, READERS] {
        for (call, _) in rows {
            if done(alloc, heap, engine, call, reports)? != Err(EngineError::Failed) {
                return Ok(false);
            }
        }
    }
    Ok(reports.len() == count && engine.matches(heap).err() == Some(EngineError::Failed))
}

/// Whether there is memory for a call, where the heap has room for this number of blocks. Without
/// it the engine has failed, with the statuses of before, also when there is memory again.
fn has_room_for<'a>(
    alloc: Global,
    heap: &'a LocalHeap,
    engine: &mut SerialEngine<Shapes, &'a LocalHeap>,
    (call, count): (Call, usize),
    room: usize,
) -> Result<bool, Fail> {
    if !takes_peers(alloc, heap, engine)? {
        return Err(Fail::new("no memory for the peers"));
    }
    if call == Call::Goes && added(alloc, heap, engine)? != Ok(4) {
        return Err(Fail::new("no memory for the reader"));
    }
    // Both readers have a sample of the second writer.
    let octets = datagram_from(alloc, SENDER, &[Says::Blue(2, 1)])?;
    let (mut earlier, mut reports) = (Vec::new(heap), Vec::new(heap));
    engine.take_in_order(heap, at_start(octets.as_slice()), &mut earlier)?;
    let before = shown_by(engine);
    let blocks = blocks_but(alloc, heap, room)?;
    let result = done(alloc, heap, engine, call, &mut reports)?;
    drop(blocks);
    if result == Ok(count) {
        return Ok(true);
    }
    let is_as_before = shown_by(engine) == before && reports.is_empty();
    let is_refused = refuses_all(alloc, heap, engine, &mut earlier)? && shown_by(engine) == before;
    if result == Err(EngineError::NoMemory) && is_as_before && is_refused && !earlier.is_empty() {
        return Ok(false);
    }
    Err(Fail::new("a call has another result"))
}

/// Like [`has_room_for`], for a new engine of two readers.
fn has_room_in_new(alloc: Global, row: (Call, usize), room: usize) -> Result<bool, Fail> {
    let heap = LocalHeap::new(alloc, 32_768)?;
    let readers = config(alloc, Reliability::Reliable, &[0, 1], &[])?;
    let mut engine = SerialEngine::new_in(&heap, alloc, readers, Shapes)?;
    has_room_for(alloc, &heap, &mut engine, row, room)
}

/// Returns the least room, in pairs of blocks, in which a call succeeds, where it succeeds in each
/// larger one up to 128 pairs.
fn least_room(alloc: Global, row: (Call, usize)) -> Result<Option<usize>, Fail> {
    let mut least = None;
    for pairs in 0..128 {
        match (has_room_in_new(alloc, row, pairs * 2)?, least) {
            (true, None) => least = Some(pairs),
            (false, Some(_)) => return Ok(None),
            _ => {}
        }
    }
    Ok(least)
}

/// Whether each of these calls succeeds in some room, and not in one pair of blocks.
fn needs_room(alloc: Global, rows: &[(Call, usize)]) -> Result<bool, Fail> {
    for row in rows {
        match least_room(alloc, *row)? {
            Some(least) if 1 < least => {}
            _ => return Ok(false),
        }
    }
    Ok(true)
}

#[test]
fn a_datagram_out_of_memory_fails_an_engine(rt: HostRuntime) -> Result<(), Fail> {
    assert!(rt; needs_room(rt.alloc(), &DATAGRAMS)?);
    Ok(())
}

#[test]
fn a_tick_in_a_full_heap_fails_an_engine(rt: HostRuntime) -> Result<(), Fail> {
    assert!(rt; needs_room(rt.alloc(), &TICKS)?);
    Ok(())
}

#[test]
fn a_reader_that_comes_or_goes_out_of_memory_fails_an_engine(rt: HostRuntime) -> Result<(), Fail> {
    assert!(rt; needs_room(rt.alloc(), &READERS)?);
    Ok(())
}
