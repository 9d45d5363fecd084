//! Matches that begin in the middle of a datagram: a change goes to the readers that are matched
//! when it comes.

ghost use Rattle.std.specs.Prelude.{◌≤◌};

use super::{Counting, Cut, Line, Said, gives, take, unmatched};
use crate::*;
use dds_topic::Shapes;
use std::alloc::Global;
use std::test::Fail;
use std::thread::Threads;

/// The participant 0a0a..0a comes, with both announcers.
pub(super) const COMES: &[u8] = b"RTPS\x02\x05\x00\x00\
    \x0a\x0a\x0a\x0a\x0a\x0a\x0a\x0a\x0a\x0a\x0a\x0a\
    \x15\x05\x7c\x00\x00\x00\x10\x00\x00\x01\x00\xc7\x00\x01\x00\xc2\
    \x00\x00\x00\x00\x01\x00\x00\x00\x00\x03\x00\x00\
    \x50\x00\x10\x00\x0a\x0a\x0a\x0a\x0a\x0a\x0a\x0a\x0a\x0a\x0a\x0a\x00\x00\x01\xc1\
    \x32\x00\x18\x00\x01\x00\x00\x00\xf4\x1c\x00\x00\x00\x00\x00\x00\
    \x00\x00\x00\x00\x00\x00\x00\x00\x7f\x00\x00\x01\
    \x31\x00\x18\x00\x01\x00\x00\x00\xf5\x1c\x00\x00\x00\x00\x00\x00\
    \x00\x00\x00\x00\x00\x00\x00\x00\x7f\x00\x00\x01\
    \x02\x00\x08\x00\x64\x00\x00\x00\x00\x00\x00\x00\
    \x58\x00\x04\x00\x14\x00\x00\x00\x01\x00\x00\x00";

/// BLUE of the writer 00000202 for every reader; the records 2 and 3, which announce the writers
/// 00000302 and 00000202, and record 1, which announces 00000102; and the same BLUE again. The
/// records are processed when record 1 has come.
pub(super) const ROUTED: &[u8] = b"RTPS\x02\x05\x00\x00\
    \x0a\x0a\x0a\x0a\x0a\x0a\x0a\x0a\x0a\x0a\x0a\x0a\
    \x15\x05\x30\x00\x00\x00\x10\x00\x00\x00\x00\x00\x00\x00\x02\x02\
    \x00\x00\x00\x00\x01\x00\x00\x00\
    \x00\x01\x00\x00\x05\x00\x00\x00BLUE\x00\x00\x00\x00\
    \x0a\x00\x00\x00\x14\x00\x00\x00\x1e\x00\x00\x00\
    \x15\x05\x64\x00\x00\x00\x10\x00\x00\x00\x03\xc7\x00\x00\x03\xc2\
    \x00\x00\x00\x00\x02\x00\x00\x00\x00\x03\x00\x00\
    \x5a\x00\x10\x00\x0a\x0a\x0a\x0a\x0a\x0a\x0a\x0a\x0a\x0a\x0a\x0a\x00\x00\x03\x02\
    \x05\x00\x0c\x00\x07\x00\x00\x00Square\x00\x00\
    \x07\x00\x10\x00\x0a\x00\x00\x00ShapeType\x00\x00\x00\
    \x1a\x00\x0c\x00\x02\x00\x00\x00\x00\x00\x00\x00\x00\x00\x00\x00\
    \x01\x00\x00\x00\
    \x15\x05\x64\x00\x00\x00\x10\x00\x00\x00\x03\xc7\x00\x00\x03\xc2\
    \x00\x00\x00\x00\x03\x00\x00\x00\x00\x03\x00\x00\
    \x5a\x00\x10\x00\x0a\x0a\x0a\x0a\x0a\x0a\x0a\x0a\x0a\x0a\x0a\x0a\x00\x00\x02\x02\
    \x05\x00\x0c\x00\x07\x00\x00\x00Square\x00\x00\
    \x07\x00\x10\x00\x0a\x00\x00\x00ShapeType\x00\x00\x00\
    \x1a\x00\x0c\x00\x02\x00\x00\x00\x00\x00\x00\x00\x00\x00\x00\x00\
    \x01\x00\x00\x00\
    \x15\x05\x64\x00\x00\x00\x10\x00\x00\x00\x03\xc7\x00\x00\x03\xc2\
    \x00\x00\x00\x00\x01\x00\x00\x00\x00\x03\x00\x00\
    \x5a\x00\x10\x00\x0a\x0a\x0a\x0a\x0a\x0a\x0a\x0a\x0a\x0a\x0a\x0a\x00\x00\x01\x02\
    \x05\x00\x0c\x00\x07\x00\x00\x00Square\x00\x00\
    \x07\x00\x10\x00\x0a\x00\x00\x00ShapeType\x00\x00\x00\
    \x1a\x00\x0c\x00\x02\x00\x00\x00\x00\x00\x00\x00\x00\x00\x00\x00\
    \x01\x00\x00\x00\
    \x15\x05\x30\x00\x00\x00\x10\x00\x00\x00\x00\x00\x00\x00\x02\x02\
    \x00\x00\x00\x00\x01\x00\x00\x00\
    \x00\x01\x00\x00\x05\x00\x00\x00BLUE\x00\x00\x00\x00\
    \x0a\x00\x00\x00\x14\x00\x00\x00\x1e\x00\x00\x00";

const BOTH: [&[u8]; 2] = [COMES, ROUTED];

/// What one reader reports. The first BLUE comes before its writer is matched.
const ONE: [Line; 4] = [
    (Some(0), 1, Said::Matched(1)),
    (Some(0), 1, Said::Matched(3)),
    (Some(0), 1, Said::Matched(2)),
    (Some(0), 1, Said::Blue(1)),
];

/// What two readers of the topic report: the matches begin at one event, and BLUE is another.
const TWO: [Line; 8] = [
    (Some(0), 1, Said::Matched(1)),
    (Some(0), 1, Said::Matched(3)),
    (Some(0), 1, Said::Matched(2)),
    (Some(1), 1, Said::Matched(1)),
    (Some(1), 1, Said::Matched(3)),
    (Some(1), 1, Said::Matched(2)),
    (Some(0), 1, Said::Blue(1)),
    (Some(1), 1, Said::Blue(1)),
];

/// Whether `readers` readers put out the expected lines for datagrams that are taken in batches.
fn are_routed<R: Threads + Sync>(
    rt: &R,
    alloc: Global,
    readers: u8,
    cut: Cut<'_>,
    expected: &[Line],
) -> Result<bool, Fail>
    requires { (1 ≤ cut.workers) × (cut.workers ≤ 64) }
{
    let mut participant = Participant::new(alloc, unmatched(alloc, readers)?, Shapes)?;
    gives(rt, alloc, &mut participant, cut, expected)
}

#[test]
fn routed_by_the_matches_of_the_moment(rt: HostRuntime) -> Result<(), Fail> {
    let alloc = rt.alloc();
    let cuts: [&[usize]; 4] = [&[2], &[1, 1], &[0, 2], &[1, 0, 1, 0]];
    for lengths in cuts {
        for workers in [1, 2, 7] {
            let cut = Cut {
                datagrams: &BOTH,
                lengths,
                workers,
            };
            assert!(rt; are_routed(&rt, alloc, 1, cut, &ONE)?);
            assert!(rt; are_routed(&rt, alloc, 2, cut, &TWO)?);
        }
    }
    Ok(())
}

/// The counts of the first reader's jobs and of the second's, where both datagrams are one batch: 1
/// for each job that began, and 100 for each that ended.
fn told<R: Threads + Sync>(
    rt: &R,
    alloc: Global,
    participant: &mut Participant<Shapes>,
    workers: usize,
) -> Result<(u64, u64), Fail>
    requires { (1 ≤ workers) × (workers ≤ 64) }
{
    let gate = Counting::new();
    let mut lines = Vec::new(alloc);
    take(rt, alloc, &gate, participant, (&BOTH, workers), &mut lines)?;
    Ok(gate.counts())
}

/// The same for a new participant with two readers.
fn told_by_new<R: Threads + Sync>(rt: &R, alloc: Global, workers: usize) -> Result<(u64, u64), Fail>
    requires { (1 ≤ workers) × (workers ≤ 64) }
{
    let mut participant = Participant::new(alloc, unmatched(alloc, 2)?, Shapes)?;
    told(rt, alloc, &mut participant, workers)
}

#[test]
fn announcements_and_changes_are_one_job(rt: HostRuntime) -> Result<(), Fail> {
    for workers in [1, 2, 7] {
        assert_eq!(rt; told_by_new(&rt, rt.alloc(), workers)?, (101, 101));
    }
    Ok(())
}
