//! Many datagrams and ticks, cut in many ways.

ghost use Rattle.std.specs.Prelude.{◌≤◌};

use super::routed::{COMES, ROUTED};
use super::{DATA, Line, Said, line, reader_config};
use crate::*;
use dds_qos::Reliability;
use dds_topic::{Shape, Shapes};
use rtps_discovery::{Config, ReaderConfig};
use rtps_reader::Status;
use rtps_run::{EngineError, Outcome, Report};
use rtps_serial::SerialEngine;
use rtps_shards::NoGate;
use rtps_types::{Datagram, EntityId, Guid, GuidPrefix, Locators};
use std::alloc::{AllocError, Global};
use std::collections::BTreeSet;
use std::test::Fail;
use std::thread::Threads;

/// Pseudo-random numbers.
#[derive(Drop)]
struct Dice {
    state: u64,
}

impl Dice {
    /// Returns a number below 256.
    fn octet(&mut self) -> u8 {
        self.state = self
            .state
            .wrapping_mul(6_364_136_223_846_793_005)
            .wrapping_add(1);
        (self.state >> 56) as u8
    }
}

/// The participant 0a0a..0a leaves.
const LEAVES: &[u8] = b"RTPS\x02\x05\x00\x00\
    \x0a\x0a\x0a\x0a\x0a\x0a\x0a\x0a\x0a\x0a\x0a\x0a\
    \x15\x03\x34\x00\x00\x00\x10\x00\x00\x01\x00\xc7\x00\x01\x00\xc2\
    \x00\x00\x00\x00\x02\x00\x00\x00\
    \x70\x00\x10\x00\x0a\x0a\x0a\x0a\x0a\x0a\x0a\x0a\x0a\x0a\x0a\x0a\x00\x00\x01\xc1\
    \x71\x00\x04\x00\x00\x00\x00\x01\x01\x00\x00\x00";

/// DATA, HEARTBEAT or GAP of one of three writers, for one of the first two readers or for all. Its
/// sequence number is a little above the count, so that numbers are lost, come again and come late.
fn datagram(alloc: Global, dice: &mut Dice, count: u32) -> Result<Vec<u8>, AllocError> {
    let writer = [0, 0, dice.octet() % 3, 2];
    let reader = match dice.octet() % 4 {
        0 => [0, 0, 1, 7],
        1 => [0, 0, 2, 7],
        _ => [0, 0, 0, 0],
    };
    let low = (count / 4).saturating_add(1);
    let high = low.saturating_add(u32::from(dice.octet() % 5));
    let mut octets = Vec::from_slice(alloc, &DATA[..20])?;
    let kind = dice.octet() % 8;
    octets.extend_from_slice(match kind {
        0 => b"\x07\x01\x1c\x00",
        1 => b"\x08\x01\x1c\x00",
        _ => b"\x15\x05\x30\x00\x00\x00\x10\x00",
    })?;
    octets.extend_from_slice(&reader)?;
    octets.extend_from_slice(&writer)?;
    if kind < 2 {
        octets.extend_from_slice(&[0; 4])?;
        octets.extend_from_slice(&low.to_le_bytes())?;
        octets.extend_from_slice(&[0; 4])?;
        octets.extend_from_slice(&high.to_le_bytes())?;
        octets.extend_from_slice(&if kind == 0 { count } else { 0 }.to_le_bytes())?;
    } else {
        octets.extend_from_slice(&[0; 4])?;
        octets.extend_from_slice(&high.to_le_bytes())?;
        octets.extend_from_slice(&DATA[44..])?;
    }
    Ok(octets)
}

/// `count` datagrams. Among them a participant comes with its writers, leaves, and comes again.
pub(super) fn datagrams(alloc: Global, count: u32) -> Result<Vec<Vec<u8>>, AllocError> {
    let mut dice = Dice { state: 7 };
    let mut all = Vec::new(alloc);
    for at in 0..count {
        all.push(match at % 200 {
            50 => Vec::from_slice(alloc, COMES)?,
            100 => Vec::from_slice(alloc, ROUTED)?,
            150 => Vec::from_slice(alloc, LEAVES)?,
            _ => datagram(alloc, &mut dice, at)?,
        })?;
    }
    Ok(all)
}

/// What a run is over.
#[derive(Drop)]
enum Input {
    /// A datagram that came at this moment.
    Datagram(u64, Vec<u8>),
    /// A moment at which none came.
    Tick(u64),
    /// A reader with this third octet of its entity comes.
    Adds(u8),
    /// The reader of this rank goes.
    Removes(u32),
}

/// The readers that are there while inputs are made up.
#[derive(Drop)]
struct Present {
    /// The rank of the reader by the third octet of its entity.
    ranks: [Option<u32>; 8],
    /// The number of ranks that were given.
    given: u32,
}

impl Present {
    /// The three readers of the start, whose entities have the third octets 1 to 3.
    fn at_the_start() -> Present {
        Present {
            ranks: [None, Some(0), Some(1), Some(2), None, None, None, None],
            given: 3,
        }
    }

    /// A reader comes if none with its entity is there, or else goes. One time in eight it is the
    /// other way round, and refused.
    fn next(&mut self, dice: &mut Dice) -> Input {
        let third = dice.octet() % 8;
        let is_refused = dice.octet() % 8 == 0;
        let place = &mut self.ranks[third as usize];
        match (*place, is_refused) {
            (Some(rank), false) => {
                *place = None;
                Input::Removes(rank)
            }
            (None, true) => Input::Removes(self.given),
            (Some(_), true) => Input::Adds(third),
            (None, false) => {
                *place = Some(self.given);
                self.given = self.given.wrapping_add(1);
                Input::Adds(third)
            }
        }
    }
}

/// Replaces the lease in the announcement of a participant by 0 to 50 milliseconds.
fn set_lease(announcement: &mut [u8], dice: &mut Dice) {
    let lease = u32::from(dice.octet() % 51) * 4_294_967;
    let Some(field) = announcement.get_mut(128..136) else {
        return;
    };
    let (seconds, fraction) = field.split_at_mut(4);
    seconds.fill(0);
    fraction.copy_from_slice(&lease.to_le_bytes());
}

/// `count` inputs, of which some are ticks, and at some readers come and go. Moments rise, stay and
/// fall, and leases are short, so that participants leave by datagrams and by ticks.
fn inputs(alloc: Global, count: u32) -> Result<Vec<Input>, AllocError> {
    let mut dice = Dice { state: 11 };
    let mut present = Present::at_the_start();
    let mut moment = 1_000_u64;
    let mut all = Vec::new(alloc);
    for at in 0..count {
        moment = match dice.octet() % 4 {
            0 => moment,
            1 => moment.saturating_sub(5),
            _ => moment.saturating_add(u64::from(dice.octet() % 8)),
        };
        let mut octets = match at % 25 {
            3 => Vec::from_slice(alloc, COMES)?,
            9 => Vec::from_slice(alloc, ROUTED)?,
            _ => datagram(alloc, &mut dice, at)?,
        };
        if at % 25 == 3 {
            set_lease(&mut octets, &mut dice);
        }
        all.push(if at % 97 == 0 {
            Input::Tick(moment)
        } else if at % 11 == 5 {
            present.next(&mut dice)
        } else {
            Input::Datagram(moment, octets)
        })?;
    }
    Ok(all)
}

/// Three readers: a reliable one of the first writer, and one of each kind of all three writers.
pub(super) fn config(alloc: Global) -> Result<Config, AllocError> {
    let mut config = Config::new(alloc, GuidPrefix([0x0b; 12]));
    for rank in [0, 1, 2] {
        let mut reader = reader_config(alloc, rank)?;
        if rank == 2 {
            reader.requested.policies.reliability = Reliability::BestEffort;
        }
        config.add_reader(reader)?;
        for writer in 0..if rank == 0 { 1 } else { 3 } {
            let writer = Guid {
                prefix: GuidPrefix([0x0a; 12]),
                entity: EntityId([0, 0, writer, 2]),
            };
            config.add_fixed(u32::from(rank), writer, Locators::new(Vec::new(alloc)))?;
        }
    }
    Ok(config)
}

/// A report: its line, the submessage that caused it, and a sum over the octets of an answer.
type Trace = (Line, u32, u64);

fn trace(report: &Report<Shape>) -> Trace {
    let mut sum = 0_u64;
    if let Report::Answer(answer) = report {
        for octet in answer.octets.as_slice() {
            sum = sum.wrapping_mul(31).wrapping_add(u64::from(*octet));
        }
    }
    (line(report), report.turn().place.submessage, sum)
}

/// The reports while inputs are taken: their traces, in order, and of each reader that came or went
/// its rank, or why not.
#[derive(Drop)]
struct Telling {
    traces: Vec<Trace>,
    moves: Vec<Result<u32, EngineError>>,
}

impl Telling {
    fn new(alloc: Global) -> Telling {
        Telling {
            traces: Vec::new(alloc),
            moves: Vec::new(alloc),
        }
    }

    /// Appends the traces of the reports of an outcome.
    fn push(&mut self, alloc: Global, outcome: Outcome<Shape>) -> Result<(), AllocError> {
        for report in &outcome.in_order(alloc)? {
            self.traces.push(trace(report))?;
        }
        Ok(())
    }

    /// Appends the result for a reader that came or went, and its traces.
    fn push_move(
        &mut self,
        alloc: Global,
        moved: Result<(u32, Outcome<Shape>), EngineError>,
    ) -> Result<(), AllocError> {
        match moved {
            Ok((rank, outcome)) => {
                self.moves.push(Ok(rank))?;
                self.push(alloc, outcome)
            }
            Err(fault) => Ok(self.moves.push(Err(fault))?),
        }
    }
}

/// The result of a run: the reports, the status of each rank that was given, and the matches.
type Run = (Telling, Vec<Option<Status>>, BTreeSet<(u32, Guid)>);

/// The reader that comes with this third octet of its entity: a best-effort one where it is odd.
fn comer(alloc: Global, third: u8) -> Result<ReaderConfig, AllocError> {
    let mut reader = reader_config(alloc, third.wrapping_sub(1))?;
    if third % 2 == 1 {
        reader.requested.policies.reliability = Reliability::BestEffort;
    }
    Ok(reader)
}

/// Has an engine take one input.
fn take_one(
    alloc: Global,
    engine: &mut SerialEngine<Shapes>,
    input: &Input,
    telling: &mut Telling,
) -> Result<(), Fail> {
    match input {
        Input::Datagram(_, bytes) if bytes.len() > 65_507 => {
            return Err(Fail::new("a datagram is too long"));
        }
        Input::Datagram(moment, bytes) => {
            let datagram = Datagram {
                moment: *moment,
                bytes,
            };
            telling.push(alloc, engine.take(alloc, datagram)?)?;
        }
        Input::Tick(moment) => telling.push(alloc, engine.tick(alloc, *moment)?)?,
        Input::Adds(third) => {
            let added = engine.add_reader(alloc, comer(alloc, *third)?);
            telling.push_move(alloc, added)?;
        }
        Input::Removes(rank) => {
            let removed = engine.remove_reader(alloc, *rank);
            telling.push_move(alloc, removed.map(|outcome| (*rank, outcome)))?;
        }
    }
    Ok(())
}

/// The result of a run of an engine.
fn run_of_engine(
    alloc: Global,
    engine: &mut SerialEngine<Shapes>,
    inputs: &[Input],
) -> Result<Run, Fail> {
    let mut telling = Telling::new(alloc);
    for input in inputs {
        take_one(alloc, engine, input, &mut telling)?;
    }
    let mut statuses = Vec::new(alloc);
    for rank in 0..engine.readers() {
        statuses.push(engine.status(rank))?;
    }
    Ok((telling, statuses, engine.matches(alloc)?))
}

/// The run of one thread.
fn in_series(alloc: Global, inputs: &[Input]) -> Result<Run, Fail> {
    let mut engine = SerialEngine::new(alloc, config(alloc)?, Shapes)?;
    run_of_engine(alloc, &mut engine, inputs)
}

/// The datagrams at the front of a list of inputs, at most `most`.
fn front<'a>(
    alloc: Global,
    inputs: &'a [Input],
    most: usize,
) -> Result<Vec<Datagram<'a>>, AllocError> {
    let mut datagrams = Vec::new(alloc);
    for input in inputs {
        match input {
            Input::Datagram(moment, bytes) if datagrams.len() < most => {
                datagrams.push(Datagram {
                    moment: *moment,
                    bytes,
                })?;
            }
            _ => break,
        }
    }
    Ok(datagrams)
}

/// Has a participant take an input that is no datagram. Returns whether it is none.
fn take_alone(
    alloc: Global,
    participant: &mut Participant<Shapes>,
    input: &Input,
    telling: &mut Telling,
) -> Result<bool, Fail> {
    match input {
        Input::Datagram(_, _) => return Ok(false),
        Input::Tick(moment) => telling.push(alloc, participant.tick(alloc, *moment)?)?,
        Input::Adds(third) => {
            let added = participant.add_reader(alloc, comer(alloc, *third)?);
            telling.push_move(alloc, added)?;
        }
        Input::Removes(rank) => {
            let removed = participant.remove_reader(alloc, *rank);
            telling.push_move(alloc, removed.map(|outcome| (*rank, outcome)))?;
        }
    }
    Ok(true)
}

/// Has a participant take at most `most` datagrams in one batch, or else one other input, and
/// returns how many inputs were taken.
fn take<R: Threads + Sync>(
    rt: &R,
    alloc: Global,
    participant: &mut Participant<Shapes>,
    given: (&[Input], usize, usize),
    telling: &mut Telling,
) -> Result<usize, Fail>
    requires { (1 ≤ given.2) × (given.2 ≤ 64) }
{
    let (inputs, most, workers) = given;
    if let Some(input) = inputs.first()
        && take_alone(alloc, participant, input, telling)?
    {
        return Ok(1);
    }
    let datagrams = front(alloc, inputs, most)?;
    if !is_batch(&datagrams) {
        return Err(Fail::new("the batch is too large"));
    }
    let outcome = participant.run_batch(rt, alloc, &NoGate, &datagrams, workers)?;
    telling.push(alloc, outcome)?;
    Ok(datagrams.len())
}

/// The greatest number of datagrams in the next batch, where `left` inputs are left.
fn length(cut: u32, dice: &mut Dice, left: usize) -> usize {
    match cut {
        0 => 1,
        1 => left,
        2 => left.div_ceil(2),
        3 => usize::from(dice.octet() % 2) * 1000,
        4 => 64,
        _ => usize::from(dice.octet()) % (cut as usize).saturating_mul(7),
    }
}

/// The number of workers for the next batch.
fn workers(dice: &mut Dice) -> usize
    ensures { (1 ≤ result) × (result ≤ 64) }
{
    match dice.octet() % 5 {
        0 => 1,
        1 => 2,
        2 => 3,
        3 => 7,
        _ => 64,
    }
}

/// Has a participant take inputs in the batches of a cut, with a number of workers that changes.
/// Each input that is no datagram ends a batch.
fn take_in_batches<R: Threads + Sync>(
    rt: &R,
    alloc: Global,
    participant: &mut Participant<Shapes>,
    given: (&[Input], u32),
    telling: &mut Telling,
) -> Result<(), Fail> {
    let (inputs, cut) = given;
    let mut dice = Dice {
        state: u64::from(cut),
    };
    let mut rest = inputs;
    for _batch in 0..100_000 {
        if rest.is_empty() {
            break;
        }
        let most = length(cut, &mut dice, rest.len());
        let workers = workers(&mut dice);
        let taken = take(rt, alloc, participant, (rest, most, workers), telling)?;
        let (_, after) = rest.split_at(taken.min(rest.len()));
        rest = after;
    }
    Ok(())
}

/// The result of a run of a participant in the batches of a cut.
fn run_of_participant<R: Threads + Sync>(
    rt: &R,
    alloc: Global,
    participant: &mut Participant<Shapes>,
    given: (&[Input], u32),
) -> Result<Run, Fail> {
    let mut telling = Telling::new(alloc);
    take_in_batches(rt, alloc, participant, given, &mut telling)?;
    let mut statuses = Vec::new(alloc);
    for rank in 0..participant.readers() {
        statuses.push(participant.status(rank))?;
    }
    Ok((telling, statuses, participant.matches(alloc)?))
}

/// The run of a new participant in the batches of a cut.
fn in_batches<R: Threads + Sync>(
    rt: &R,
    alloc: Global,
    inputs: &[Input],
    cut: u32,
) -> Result<Run, Fail> {
    let mut participant = Participant::new(alloc, config(alloc)?, Shapes)?;
    run_of_participant(rt, alloc, &mut participant, (inputs, cut))
}

fn are_same(a: &Run, b: &Run) -> bool {
    a.0.traces.as_slice() == b.0.traces.as_slice()
        && a.0.moves.as_slice() == b.0.moves.as_slice()
        && a.1.as_slice() == b.1.as_slice()
        && a.2 == b.2
}

/// The number of matches that ended before the submessages of a datagram.
fn ended(run: &Run) -> usize {
    run.0
        .traces
        .iter()
        .filter(|trace| trace.1 == 0 && matches!(trace.0.2, Said::Unmatched(_)))
        .count()
}

/// The number of matches that began before the submessages of a datagram, which are those of
/// readers that came.
fn begun(run: &Run) -> usize {
    run.0
        .traces
        .iter()
        .filter(|trace| trace.1 == 0 && matches!(trace.0.2, Said::Matched(_)))
        .count()
}

/// The number of readers that came or went with this result.
fn moved(run: &Run, is_ok: bool) -> usize {
    run.0
        .moves
        .iter()
        .filter(|moved| moved.is_ok() == is_ok)
        .count()
}

/// Whether a participant gives the same result for each cut as one thread.
fn give_the_same<R: Threads + Sync>(
    rt: &R,
    alloc: Global,
    inputs: &[Input],
    expected: &Run,
    cuts: &[u32],
) -> Result<bool, Fail> {
    for cut in cuts {
        if !are_same(&in_batches(rt, alloc, inputs, *cut)?, expected) {
            return Ok(false);
        }
    }
    Ok(true)
}

/// Each way to cut (see `length`), and ever longer batches.
const CUTS: [u32; 40] = [
    0, 1, 2, 3, 4, 5, 6, 7, 8, 9, 10, 11, 12, 13, 14, 15, 16, 17, 18, 19, 20, 21, 22, 23, 24, 25,
    26, 27, 28, 29, 30, 31, 32, 33, 34, 35, 36, 37, 38, 39,
];

#[test]
fn batches_give_what_one_thread_gives(rt: HostRuntime) -> Result<(), Fail> {
    let alloc = rt.alloc();
    let inputs = inputs(alloc, 2000)?;
    let expected = in_series(alloc, &inputs)?;
    assert!(rt; expected.0.traces.len() > 1000 && ended(&expected) > 20);
    assert!(rt; begun(&expected) > 20 && moved(&expected, true) > 100);
    assert!(rt; moved(&expected, false) > 10);
    assert!(rt; give_the_same(&rt, alloc, &inputs, &expected, &CUTS)?);
    Ok(())
}

#[test]
fn large_batches_are_decoded_apart(rt: HostRuntime) -> Result<(), Fail> {
    let alloc = rt.alloc();
    // More than 1,024 datagrams, so that several threads decode.
    let mut inputs = Vec::new(alloc);
    for octets in datagrams(alloc, 2000)? {
        inputs.push(Input::Datagram(0, octets))?;
    }
    let expected = in_series(alloc, &inputs)?;
    assert!(rt; expected.0.traces.len() > 2000);
    assert!(rt; give_the_same(&rt, alloc, &inputs, &expected, &[1])?);
    Ok(())
}
