//! Participants against datagrams written by hand.

ghost use Rattle.std.specs.Prelude.{◌≤◌};

mod coming;
mod counters;
mod failing;
mod hand_off;
mod lent;
mod moments;
mod outlets;
mod publishing;
mod refused;
mod routed;
mod stress;

use crate::*;
use dds_topic::{Catalog, Shape, Shapes};
use rtps_discovery::{Config, ReaderConfig};
use rtps_reader::{Body, Notice, NoticeKind, Status};
use rtps_run::Report;
use rtps_shards::{Gate, NoGate};
use rtps_types::{Datagram, EntityId, Guid, GuidPrefix, Locators};
use std::alloc::{AllocError, Global};
use std::sync::atomic::{AtomicU64, Ordering};
use std::test::Fail;
use std::thread::Threads;

/// DATA with number 1 and the shape BLUE at 10, 20 of size 30, for every reader.
const DATA: &[u8] = b"RTPS\x02\x05\x00\x00\
    \x0a\x0a\x0a\x0a\x0a\x0a\x0a\x0a\x0a\x0a\x0a\x0a\
    \x15\x05\x30\x00\x00\x00\x10\x00\x00\x00\x00\x00\x00\x00\x01\x02\
    \x00\x00\x00\x00\x01\x00\x00\x00\
    \x00\x01\x00\x00\x05\x00\x00\x00BLUE\x00\x00\x00\x00\
    \x0a\x00\x00\x00\x14\x00\x00\x00\x1e\x00\x00\x00";

/// HEARTBEAT of the numbers 1 to 3, for every reader.
const HEARTBEAT: &[u8] = b"RTPS\x02\x05\x00\x00\
    \x0a\x0a\x0a\x0a\x0a\x0a\x0a\x0a\x0a\x0a\x0a\x0a\
    \x07\x01\x1c\x00\x00\x00\x00\x00\x00\x00\x01\x02\
    \x00\x00\x00\x00\x01\x00\x00\x00\x00\x00\x00\x00\x03\x00\x00\x00\x01\x00\x00\x00";

/// The same later, for the second reader alone: only number 3 is still there.
const LATER: &[u8] = b"RTPS\x02\x05\x00\x00\
    \x0a\x0a\x0a\x0a\x0a\x0a\x0a\x0a\x0a\x0a\x0a\x0a\
    \x07\x01\x1c\x00\x00\x00\x02\x07\x00\x00\x01\x02\
    \x00\x00\x00\x00\x03\x00\x00\x00\x00\x00\x00\x00\x03\x00\x00\x00\x02\x00\x00\x00";

const ALL: [&[u8]; 3] = [DATA, HEARTBEAT, LATER];

fn reader_config(alloc: Global, rank: u8) -> Result<ReaderConfig, AllocError> {
    let entity = EntityId([0, 0, rank.wrapping_add(1), 7]);
    Ok(ReaderConfig::new(alloc, entity, "Square", "ShapeType")?.reliable())
}

/// `readers` reliable readers that are matched with no writer.
fn unmatched(alloc: Global, readers: u8) -> Result<Config, AllocError> {
    let mut config = Config::new(alloc, GuidPrefix([0x0b; 12]));
    for rank in 0..readers {
        config.add_reader(reader_config(alloc, rank)?)?;
    }
    Ok(config)
}

/// Two reliable readers that are both matched with the writer from the start.
fn config(alloc: Global) -> Result<Config, AllocError> {
    let mut config = unmatched(alloc, 2)?;
    for rank in [0, 1] {
        let writer = Guid {
            prefix: GuidPrefix([0x0a; 12]),
            entity: EntityId([0, 0, 1, 2]),
        };
        config.add_fixed(rank, writer, Locators::new(Vec::new(alloc)))?;
    }
    Ok(config)
}

/// What a report says.
#[derive(Clone, Copy, PartialEq, Eq)]
enum Said {
    /// A sample of this number, which is BLUE.
    Blue(u64),
    /// This many numbers are lost.
    Lost(u64),
    /// A match with the writer of this third octet began.
    Matched(u8),
    /// A match with the writer of this third octet ended.
    Unmatched(u8),
    Answer,
    Other,
}

/// The rank of a report, the datagram that caused it, and what it says.
type Line = (Option<u32>, u64, Said);

/// What a notice says.
fn said_by(notice: &Notice<Shape>) -> Said {
    match &notice.what {
        NoticeKind::Lost { count } => Said::Lost(*count),
        NoticeKind::Matched => Said::Matched(notice.writer.entity.0[2]),
        NoticeKind::Unmatched => Said::Unmatched(notice.writer.entity.0[2]),
        NoticeKind::Sample {
            number,
            body: Body::Value(_, shape),
            ..
        } if shape.color.as_str() == "BLUE" => Said::Blue(number.get()),
        _ => Said::Other,
    }
}

fn line(report: &Report<Shape>) -> Line {
    let said = match report {
        Report::Answer(_) => Said::Answer,
        Report::Notice { notice, .. } => said_by(notice),
    };
    let turn = report.turn();
    (turn.rank, turn.place.datagram, said)
}

/// Appends the lines of reports.
fn push_lines(reports: &[Report<Shape>], lines: &mut Vec<Line>) -> Result<(), AllocError> {
    for report in reports {
        lines.push(line(report))?;
    }
    Ok(())
}

/// Returns datagrams of these octets that came at moment 0.
fn at_once<'a>(alloc: Global, all: &[&'a [u8]]) -> Result<Vec<Datagram<'a>>, AllocError> {
    let mut datagrams = Vec::with_capacity(alloc, all.len())?;
    for bytes in all {
        datagrams.push(Datagram { moment: 0, bytes })?;
    }
    Ok(datagrams)
}

/// Has a participant take a batch, and appends the lines of what it puts out, in order.
fn take<C: Catalog<Value = Shape>, G: Gate, R: Threads + Sync>(
    rt: &R,
    alloc: Global,
    gate: &G,
    participant: &mut Participant<C>,
    batch: (&[&[u8]], usize),
    lines: &mut Vec<Line>,
) -> Result<(), Fail>
    requires { (1 ≤ batch.1) × (batch.1 ≤ 64) }
{
    let datagrams = at_once(alloc, batch.0)?;
    if !is_batch(&datagrams) {
        return Err(Fail::new("the batch is too large"));
    }
    let outcome = participant.run_batch(rt, alloc, gate, &datagrams, batch.1)?;
    let reports = outcome.in_order(alloc)?;
    Ok(push_lines(&reports, lines)?)
}

/// What the readers put out for the three datagrams. Only the second one reports that number 2 is
/// lost.
const EXPECTED: [Line; 6] = [
    (Some(0), 0, Said::Blue(1)),
    (Some(1), 0, Said::Blue(1)),
    (Some(0), 1, Said::Answer),
    (Some(1), 1, Said::Answer),
    (Some(1), 2, Said::Lost(1)),
    (Some(1), 2, Said::Answer),
];

/// The status of a reader with one match, one sample and `lost_total` lost numbers.
fn status(lost_total: u32) -> Option<Status> {
    Some(Status {
        matched_total: 1,
        matched_now: 1,
        incompatible_total: 0,
        last_policy: None,
        lost_total,
        samples: 1,
    })
}

/// Whether a participant has the expected state after the three datagrams, in `batches` batches.
fn stands(alloc: Global, participant: &Participant<Shapes>, batches: usize) -> Result<bool, Fail> {
    Ok(
        participant.status(0) == status(0)
            && participant.status(1) == status(1)
            && participant.status(2).is_none()
            && participant.readers() == 2
            && participant.batches() == batches as u64
            && participant.matches(alloc)?.len() == 2,
    )
}

/// Datagrams, the lengths of the batches in which they are taken, and the number of workers.
#[derive(Clone, Copy)]
struct Cut<'a> {
    datagrams: &'a [&'a [u8]],
    lengths: &'a [usize],
    workers: usize,
}

/// Has a participant take datagrams in batches, and appends the lines of what it puts out, in
/// order.
fn take_all<R: Threads + Sync>(
    rt: &R,
    alloc: Global,
    participant: &mut Participant<Shapes>,
    cut: Cut<'_>,
    lines: &mut Vec<Line>,
) -> Result<(), Fail>
    requires { (1 ≤ cut.workers) × (cut.workers ≤ 64) }
{
    let mut at = 0_usize;
    for length in cut.lengths {
        let end = at.saturating_add(*length);
        let Some(batch) = cut.datagrams.get(at..end) else {
            return Err(Fail::new("the cut is too long"));
        };
        take(rt, alloc, &NoGate, participant, (batch, cut.workers), lines)?;
        at = end;
    }
    Ok(())
}

/// Whether a participant that takes datagrams in batches puts out the expected lines.
fn gives<R: Threads + Sync>(
    rt: &R,
    alloc: Global,
    participant: &mut Participant<Shapes>,
    cut: Cut<'_>,
    expected: &[Line],
) -> Result<bool, Fail>
    requires { (1 ≤ cut.workers) × (cut.workers ≤ 64) }
{
    let mut lines = Vec::new(alloc);
    take_all(rt, alloc, participant, cut, &mut lines)?;
    Ok(lines.as_slice() == expected)
}

/// Whether a participant puts out the expected lines for the three datagrams, and has the expected
/// state after them.
fn gives_all<R: Threads + Sync>(
    rt: &R,
    alloc: Global,
    participant: &mut Participant<Shapes>,
    cut: Cut<'_>,
) -> Result<bool, Fail>
    requires { (1 ≤ cut.workers) × (cut.workers ≤ 64) }
{
    Ok(
        gives(rt, alloc, participant, cut, &EXPECTED)?
            && stands(alloc, participant, cut.lengths.len())?,
    )
}

/// The same for a new participant.
fn gives_all_from_new<R: Threads + Sync>(rt: &R, alloc: Global, cut: Cut<'_>) -> Result<bool, Fail>
    requires { (1 ≤ cut.workers) × (cut.workers ≤ 64) }
{
    let mut participant = Participant::new(alloc, config(alloc)?, Shapes)?;
    gives_all(rt, alloc, &mut participant, cut)
}

#[test]
fn any_cut_and_any_workers_give_the_same(rt: HostRuntime) -> Result<(), Fail> {
    let alloc = rt.alloc();
    let cuts: [&[usize]; 4] = [&[3], &[1, 1, 1], &[0, 2, 0, 1, 0], &[1, 2]];
    for lengths in cuts {
        for workers in [1, 2, 64] {
            let cut = Cut {
                datagrams: &ALL,
                lengths,
                workers,
            };
            assert!(rt; gives_all_from_new(&rt, alloc, cut)?);
        }
    }
    Ok(())
}

/// A gate that counts the jobs of the first reader and those of the others, as they begin and as
/// they end.
#[derive(Drop)]
struct Counting {
    first: AtomicU64,
    others: AtomicU64,
}

impl Gate for Counting {
    fn enter(&self, rank: u32) {
        let count = if rank == 0 { &self.first } else { &self.others };
        count.fetch_add(1, Ordering::SeqCst);
    }

    fn leave(&self, rank: u32) {
        let count = if rank == 0 { &self.first } else { &self.others };
        count.fetch_add(100, Ordering::SeqCst);
    }
}

impl Counting {
    fn new() -> Counting {
        Counting {
            first: AtomicU64::new(0),
            others: AtomicU64::new(0),
        }
    }

    /// The counts of the first reader's jobs and of the others': 1 for each job that began, and 100
    /// for each that ended.
    fn counts(&self) -> (u64, u64) {
        (
            self.first.load(Ordering::SeqCst),
            self.others.load(Ordering::SeqCst),
        )
    }
}

/// Has a participant take a sample, and a heartbeat for the second reader alone.
fn take_both<R: Threads + Sync>(
    rt: &R,
    alloc: Global,
    gate: &Counting,
    participant: &mut Participant<Shapes>,
    lines: &mut Vec<Line>,
) -> Result<(), Fail> {
    for datagram in [DATA, LATER] {
        take(rt, alloc, gate, participant, (&[datagram], 2), lines)?;
    }
    Ok(())
}

/// The counts of the first reader's jobs and of the second's, after both datagrams.
fn counted<R: Threads + Sync>(
    rt: &R,
    alloc: Global,
    participant: &mut Participant<Shapes>,
) -> Result<(u64, u64), Fail> {
    let gate = Counting::new();
    let mut lines = Vec::new(alloc);
    take_both(rt, alloc, &gate, participant, &mut lines)?;
    Ok(gate.counts())
}

#[test]
fn a_reader_without_a_step_has_no_job(rt: HostRuntime) -> Result<(), Fail> {
    let alloc = rt.alloc();
    let mut participant = Participant::new(alloc, config(alloc)?, Shapes)?;
    assert_eq!(rt; counted(&rt, alloc, &mut participant)?, (101, 202));
    Ok(())
}

#[test]
fn a_batch_has_at_most_4096_datagrams_of_65507_octets(rt: HostRuntime) -> Result<(), Fail> {
    let alloc = rt.alloc();
    let octets = vec![in alloc; 0u8; 65_508]?;
    let (longest, _) = octets.split_at(65_507);
    let mut datagrams = Vec::new(alloc);
    for _ in 0..4096 {
        datagrams.push(Datagram {
            moment: 0,
            bytes: longest,
        })?;
    }
    assert!(rt; is_batch(&[]) && is_batch(&datagrams));
    let too_long = Datagram {
        moment: 0,
        bytes: octets.as_slice(),
    };
    assert!(rt; !is_batch(&[too_long]));
    datagrams.push(Datagram {
        moment: 0,
        bytes: &[],
    })?;
    assert!(rt; !is_batch(&datagrams));
    Ok(())
}
