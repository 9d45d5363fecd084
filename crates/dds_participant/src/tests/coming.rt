//! Readers of ours that come and go between batches, as they do in an engine of one thread.

ghost use Rattle.std.specs.Prelude.{◌≤◌};

use super::lent::lend;
use super::moments::ANNOUNCES;
use super::outlets::THIRD;
use super::routed::COMES;
use super::{DATA, Said, config, reader_config, said_by, unmatched};
use crate::*;
use dds_topic::{Shape, Shapes};
use rtps_discovery::Config;
use rtps_run::{BatchOutput, EngineError, Outcome, Report};
use rtps_serial::SerialEngine;
use rtps_shards::NoGate;
use rtps_types::Datagram;
use std::alloc::Global;
use std::test::Fail;
use std::thread::Threads;

/// DATA with number 2 and the shape BLUE, for every reader.
const SECOND: &[u8] = b"RTPS\x02\x05\x00\x00\
    \x0a\x0a\x0a\x0a\x0a\x0a\x0a\x0a\x0a\x0a\x0a\x0a\
    \x15\x05\x30\x00\x00\x00\x10\x00\x00\x00\x00\x00\x00\x00\x01\x02\
    \x00\x00\x00\x00\x02\x00\x00\x00\
    \x00\x01\x00\x00\x05\x00\x00\x00BLUE\x00\x00\x00\x00\
    \x0a\x00\x00\x00\x14\x00\x00\x00\x1e\x00\x00\x00";

/// HEARTBEAT of number 3 alone, with count 1, for every reader, which asks for no answer. It is a
/// submessage without a header.
const FINAL: &[u8] = b"\x07\x03\x1c\x00\x00\x00\x00\x00\x00\x00\x01\x02\
    \x00\x00\x00\x00\x03\x00\x00\x00\x00\x00\x00\x00\x03\x00\x00\x00\x01\x00\x00\x00";

/// What a participant is asked to do.
#[derive(Clone, Copy)]
enum Act {
    /// It takes a batch of one datagram, which came at moment 0 and has these octets.
    Takes(&'static [&'static [u8]]),
    /// This moment passes, at which no datagram came.
    Passes(u64),
    /// A reliable reader of squares comes, with this third octet of its entity.
    Adds(u8),
    /// The reader of this rank goes.
    Removes(u32),
}

use Act::{Adds, Passes, Removes, Takes};

/// The rank of a report, the datagram and the submessage that caused it, and what it says.
type Told = (Option<u32>, u64, u32, Said);

/// The result of an act: a rank where a reader came, and the reports, in order.
type Expected = Result<(Option<u32>, &'static [Told]), EngineError>;

/// An act and its result.
type Row = (Act, Expected);

fn told(report: &Report<Shape>) -> Told {
    let said = match report {
        Report::Answer(_) => Said::Answer,
        Report::Notice { notice, .. } => said_by(notice),
    };
    let turn = report.turn();
    (turn.rank, turn.place.datagram, turn.place.submessage, said)
}

/// What an act gives.
type Given = Result<(Option<u32>, Outcome<Shape>), EngineError>;

/// Whether the result of an act is the expected one, with a list for each of the ranks that were
/// given.
fn is_expected(alloc: Global, ranks: u32, given: Given, expected: Expected) -> Result<bool, Fail> {
    match (given, expected) {
        (Ok((rank, outcome)), Ok((given, lines))) => {
            let lists = outcome.notices.len();
            let reports = outcome.in_order(alloc)?;
            Ok(
                rank == given
                    && lists == ranks as usize
                    && reports.len() == lines.len()
                    && reports
                        .iter()
                        .zip(lines.iter())
                        .all(|(report, line)| told(report) == *line),
            )
        }
        (Err(fault), Err(expected)) => Ok(fault == expected),
        _ => Ok(false),
    }
}

/// Returns the octets of a datagram.
fn octets_of(alloc: Global, parts: &[&[u8]]) -> Result<Vec<u8>, Fail> {
    let mut octets = Vec::new(alloc);
    for part in parts {
        octets.extend_from_slice(part)?;
    }
    Ok(octets)
}

/// What a participant gives for a datagram.
fn taken<R: Threads + Sync>(
    rt: &R,
    alloc: Global,
    participant: &mut Participant<Shapes>,
    bytes: &[u8],
    workers: usize,
) -> Result<Given, Fail>
    requires { (1 ≤ workers) × (workers ≤ 64) }
{
    let batch = [Datagram { moment: 0, bytes }];
    if !is_batch(&batch) {
        return Err(Fail::new("the batch is too large"));
    }
    let outcome = participant.run_batch(rt, alloc, &NoGate, &batch, workers);
    Ok(outcome.map(|outcome| (None, outcome)))
}

/// What a participant gives for an act.
fn done<R: Threads + Sync>(
    rt: &R,
    alloc: Global,
    participant: &mut Participant<Shapes>,
    act: Act,
    workers: usize,
) -> Result<Given, Fail>
    requires { (1 ≤ workers) × (workers ≤ 64) }
{
    Ok(match act {
        Takes(parts) => {
            let octets = octets_of(alloc, parts)?;
            taken(rt, alloc, participant, octets.as_slice(), workers)?
        }
        Passes(moment) => participant
            .tick(alloc, moment)
            .map(|outcome| (None, outcome)),
        Adds(third) => {
            let reader = reader_config(alloc, third.wrapping_sub(1))?;
            participant
                .add_reader(alloc, reader)
                .map(|(rank, outcome)| (Some(rank), outcome))
        }
        Removes(rank) => {
            participant
                .remove_reader(alloc, rank)
                .map(|outcome| (None, outcome))
        }
    })
}

/// What an engine gives for an act.
fn done_in_series(
    alloc: Global,
    engine: &mut SerialEngine<Shapes>,
    act: Act,
) -> Result<Given, Fail> {
    Ok(match act {
        Takes(parts) => {
            let octets = octets_of(alloc, parts)?;
            let bytes = octets.as_slice();
            if bytes.len() > 65_507 {
                return Err(Fail::new("the datagram is too long"));
            }
            let taken = engine.take(alloc, Datagram { moment: 0, bytes });
            taken.map(|outcome| (None, outcome))
        }
        Passes(moment) => engine.tick(alloc, moment).map(|outcome| (None, outcome)),
        Adds(third) => {
            let reader = reader_config(alloc, third.wrapping_sub(1))?;
            engine
                .add_reader(alloc, reader)
                .map(|(rank, outcome)| (Some(rank), outcome))
        }
        Removes(rank) => engine
            .remove_reader(alloc, rank)
            .map(|outcome| (None, outcome)),
    })
}

/// Whether a participant and an engine have the same number of ranks, statuses and matches.
fn are_alike(
    alloc: Global,
    participant: &Participant<Shapes>,
    engine: &SerialEngine<Shapes>,
) -> Result<bool, Fail> {
    let ranks = engine.readers();
    Ok(
        participant.readers() == ranks
            && (0..=ranks).all(|rank| participant.status(rank) == engine.status(rank))
            && participant.matches(alloc)? == engine.matches(alloc)?,
    )
}

/// Returns the index of the first row whose result a participant or an engine doesn't have, or
/// after which they differ. Each act that isn't refused is a batch.
fn first_unmet<R: Threads + Sync>(
    rt: &R,
    alloc: Global,
    both: (&mut Participant<Shapes>, &mut SerialEngine<Shapes>),
    rows: &[Row],
    workers: usize,
) -> Result<Option<usize>, Fail>
    requires { (1 ≤ workers) × (workers ≤ 64) }
{
    let (participant, engine) = both;
    let mut batches = 0_u64;
    for (at, (act, expected)) in rows.iter().enumerate() {
        let given = done(rt, alloc, participant, *act, workers)?;
        let in_series = done_in_series(alloc, engine, *act)?;
        batches = batches.wrapping_add(u64::from(expected.is_ok()));
        if !is_expected(alloc, participant.readers(), given, *expected)?
            || !is_expected(alloc, engine.readers(), in_series, *expected)?
            || !are_alike(alloc, participant, engine)?
            || participant.batches() != batches
        {
            return Ok(Some(at));
        }
    }
    Ok(None)
}

/// What a participant starts with.
#[derive(Clone, Copy)]
enum Start {
    /// One reader of circles.
    Circle,
    /// One reader of squares.
    Square,
    /// Two readers of squares, both with a fixed match with the peer's writer.
    Fixed,
}

fn config_of(alloc: Global, start: Start) -> Result<Config, Fail> {
    Ok(match start {
        Start::Fixed => config(alloc)?,
        Start::Square => unmatched(alloc, 1)?,
        Start::Circle => {
            let mut config = unmatched(alloc, 0)?;
            let mut reader = reader_config(alloc, 0)?;
            reader.topic = String::from_str(alloc, "Circle")?;
            config.add_reader(reader)?;
            config
        }
    })
}

/// Like [`first_unmet`], for a new participant and a new engine, for 1, 2 and 7 workers.
fn unmet<R: Threads + Sync>(
    rt: &R,
    alloc: Global,
    start: Start,
    rows: &[Row],
) -> Result<Option<(usize, usize)>, Fail> {
    for workers in [1, 2, 7] {
        let mut participant = Participant::new(alloc, config_of(alloc, start)?, Shapes)?;
        let mut engine = SerialEngine::new(alloc, config_of(alloc, start)?, Shapes)?;
        let both = (&mut participant, &mut engine);
        if let Some(at) = first_unmet(rt, alloc, both, rows, workers)? {
            return Ok(Some((workers, at)));
        }
    }
    Ok(None)
}

/// A reader of squares comes, goes, and comes again. Each time it receives only what comes while it
/// is there.
const COMES_AND_GOES: [Row; 8] = [
    (Takes(&[COMES]), Ok((None, &[]))),
    (Takes(&[ANNOUNCES]), Ok((None, &[]))),
    (Adds(2), Ok((Some(1), &[(Some(1), 2, 0, Said::Matched(1))]))),
    (
        Takes(&[DATA]),
        Ok((None, &[(Some(1), 2, 1, Said::Blue(1))])),
    ),
    (
        Removes(1),
        Ok((None, &[(Some(1), 3, 0, Said::Unmatched(1))])),
    ),
    (Takes(&[SECOND]), Ok((None, &[]))),
    (Adds(2), Ok((Some(2), &[(Some(2), 4, 0, Said::Matched(1))]))),
    // The writer doesn't offer the numbers 1 and 2 any more.
    (
        Takes(&[THIRD, FINAL]),
        Ok((None, &[(Some(2), 4, 2, Said::Blue(3))])),
    ),
];

#[test]
fn readers_come_and_go_as_in_one_thread(rt: HostRuntime) -> Result<(), Fail> {
    assert_eq!(rt;
        unmet(&rt, rt.alloc(), Start::Circle, &COMES_AND_GOES)?,
        None
    );
    Ok(())
}

/// Refused calls are no batches, and change nothing.
const REFUSED: [Row; 8] = [
    (Takes(&[COMES]), Ok((None, &[]))),
    (
        Takes(&[ANNOUNCES]),
        Ok((None, &[(Some(0), 1, 1, Said::Matched(1))])),
    ),
    (Adds(1), Err(EngineError::BadReader)),
    (Removes(1), Err(EngineError::NoReader)),
    (Adds(2), Ok((Some(1), &[(Some(1), 2, 0, Said::Matched(1))]))),
    (
        Removes(0),
        Ok((None, &[(Some(0), 2, 0, Said::Unmatched(1))])),
    ),
    (Removes(0), Err(EngineError::NoReader)),
    // The entity of the reader that went.
    (Adds(1), Ok((Some(2), &[(Some(2), 2, 0, Said::Matched(1))]))),
];

#[test]
fn a_refused_reader_is_no_batch(rt: HostRuntime) -> Result<(), Fail> {
    assert_eq!(rt; unmet(&rt, rt.alloc(), Start::Square, &REFUSED)?, None);
    Ok(())
}

/// Two readers have fixed matches with one writer. The first one goes, and the second one receives
/// what comes.
const FIXED_MATCH_GOES: [Row; 5] = [
    (
        Takes(&[DATA]),
        Ok((
            None,
            &[
                (Some(0), 0, 1, Said::Blue(1)),
                (Some(1), 0, 1, Said::Blue(1)),
            ],
        )),
    ),
    (Removes(0), Ok((None, &[]))),
    (
        Takes(&[SECOND]),
        Ok((None, &[(Some(1), 1, 1, Said::Blue(2))])),
    ),
    // The entity comes again, without the fixed match.
    (Adds(1), Ok((Some(2), &[]))),
    (
        Takes(&[THIRD]),
        Ok((None, &[(Some(1), 2, 1, Said::Blue(3))])),
    ),
];

#[test]
fn a_fixed_match_ends_untold_with_its_reader(rt: HostRuntime) -> Result<(), Fail> {
    assert_eq!(rt;
        unmet(&rt, rt.alloc(), Start::Fixed, &FIXED_MATCH_GOES)?,
        None
    );
    Ok(())
}

/// A reader comes after the last tick within the lease of the peer, which is 100 seconds. The tick
/// that ends it has the same place.
const BETWEEN_TICKS: [Row; 5] = [
    (Takes(&[COMES]), Ok((None, &[]))),
    (Takes(&[ANNOUNCES]), Ok((None, &[]))),
    (Passes(100_000), Ok((None, &[]))),
    (Adds(2), Ok((Some(1), &[(Some(1), 2, 0, Said::Matched(1))]))),
    (
        Passes(100_001),
        Ok((None, &[(Some(1), 2, 0, Said::Unmatched(1))])),
    ),
];

#[test]
fn a_reader_comes_between_two_ticks_at_their_place(rt: HostRuntime) -> Result<(), Fail> {
    assert_eq!(rt;
        unmet(&rt, rt.alloc(), Start::Circle, &BETWEEN_TICKS)?,
        None
    );
    Ok(())
}

/// The last reader goes, and another one comes after the writer was announced.
const NO_READER_LEFT: [Row; 6] = [
    (Removes(0), Ok((None, &[]))),
    (Takes(&[COMES]), Ok((None, &[]))),
    (Takes(&[ANNOUNCES]), Ok((None, &[]))),
    (Takes(&[SECOND]), Ok((None, &[]))),
    (Adds(2), Ok((Some(1), &[(Some(1), 3, 0, Said::Matched(1))]))),
    (
        Takes(&[THIRD, FINAL]),
        Ok((None, &[(Some(1), 3, 2, Said::Blue(3))])),
    ),
];

#[test]
fn a_participant_without_readers_goes_on(rt: HostRuntime) -> Result<(), Fail> {
    assert_eq!(rt;
        unmet(&rt, rt.alloc(), Start::Square, &NO_READER_LEFT)?,
        None
    );
    Ok(())
}

/// The number of notices that each rank has in the caller's lists, for DATA 1, 2 and 3: two readers
/// with fixed matches; a third one came; the first one went.
fn lent_to<R: Threads + Sync>(
    rt: &R,
    alloc: Global,
    participant: &mut Participant<Shapes>,
) -> Result<[Vec<(usize, usize)>; 3], Fail> {
    let mut given = BatchOutput::new(alloc);
    let first = lend(rt, alloc, participant, (&[DATA], 2), &mut given)?;
    let _third = participant.add_reader(alloc, reader_config(alloc, 2)?)?;
    let second = lend(rt, alloc, participant, (&[SECOND], 2), &mut given)?;
    let _last = participant.remove_reader(alloc, 0)?;
    let third = lend(rt, alloc, participant, (&[THIRD], 2), &mut given)?;
    Ok([first, second, third])
}

#[test]
fn lists_that_are_lent_have_a_place_for_each_rank(rt: HostRuntime) -> Result<(), Fail> {
    let alloc = rt.alloc();
    let mut participant = Participant::new(alloc, config(alloc)?, Shapes)?;
    let [first, second, third] = lent_to(&rt, alloc, &mut participant)?;
    assert!(rt; first.as_slice() == [(1, 0), (1, 0)].as_slice());
    assert!(rt; second.as_slice() == [(1, 0), (1, 0), (0, 0)].as_slice());
    assert!(rt; third.as_slice() == [(0, 0), (1, 0), (0, 0)].as_slice());
    Ok(())
}

/// Has readers come and go, one after another, until the rank 300 is given to one that is there.
pub(super) fn add_up_to_300(
    alloc: Global,
    participant: &mut Participant<Shapes>,
) -> Result<(), Fail> {
    for rank in 1..300 {
        let (given, _begun) = participant.add_reader(alloc, reader_config(alloc, 2)?)?;
        if given != rank {
            return Err(Fail::new("another rank"));
        }
        let _last = participant.remove_reader(alloc, rank)?;
    }
    let _last = participant.add_reader(alloc, reader_config(alloc, 2)?)?;
    Ok(())
}

/// The reader of rank 300, and the first one, have a sample.
const OF_300: Expected = Ok((
    None,
    &[
        (Some(0), 2, 1, Said::Blue(1)),
        (Some(300), 2, 1, Said::Blue(1)),
    ],
));

/// Whether a participant whose last rank is 300 takes a datagram, and the numbers of notices of the
/// first and the last rank in the caller's lists for another one.
fn serves_300<R: Threads + Sync>(
    rt: &R,
    alloc: Global,
    participant: &mut Participant<Shapes>,
    workers: usize,
) -> Result<bool, Fail>
    requires { (1 ≤ workers) × (workers ≤ 64) }
{
    let _comes = taken(rt, alloc, participant, COMES, 1)?;
    let _offers = taken(rt, alloc, participant, ANNOUNCES, 1)?;
    add_up_to_300(alloc, participant)?;
    let given = taken(rt, alloc, participant, DATA, workers)?;
    if !is_expected(alloc, 301, given, OF_300)? {
        return Ok(false);
    }
    let mut lists = BatchOutput::new(alloc);
    let counts = lend(rt, alloc, participant, (&[SECOND], workers), &mut lists)?;
    Ok(
        counts.len() == 301
            && counts.iter().enumerate().all(|(rank, count)| *count
                == (usize::from(rank == 0 || rank == 300), 0)),
    )
}

#[test]
fn ranks_above_256_are_served(rt: HostRuntime) -> Result<(), Fail> {
    let alloc = rt.alloc();
    for workers in [1, 2, 7] {
        let mut participant = Participant::new(alloc, unmatched(alloc, 1)?, Shapes)?;
        assert!(rt; serves_300(&rt, alloc, &mut participant, workers)?);
    }
    Ok(())
}
