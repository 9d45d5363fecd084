//! Participants of theirs whose leases end, by datagrams and by ticks.

ghost use Rattle.std.specs.Prelude.{◌≤◌};

use super::routed::COMES;
use super::{Said, said_by, unmatched};
use crate::*;
use dds_topic::{Shape, Shapes};
use rtps_run::{BatchOutput, Outcome};
use rtps_shards::NoGate;
use rtps_types::{Datagram, Place};
use std::alloc::{AllocError, Global};
use std::test::Fail;
use std::thread::Threads;

/// The participant 0a0a..0a announces its writer 00000102 of squares.
pub(super) const ANNOUNCES: &[u8] = b"RTPS\x02\x05\x00\x00\
    \x0a\x0a\x0a\x0a\x0a\x0a\x0a\x0a\x0a\x0a\x0a\x0a\
    \x15\x05\x64\x00\x00\x00\x10\x00\x00\x00\x03\xc7\x00\x00\x03\xc2\
    \x00\x00\x00\x00\x01\x00\x00\x00\x00\x03\x00\x00\
    \x5a\x00\x10\x00\x0a\x0a\x0a\x0a\x0a\x0a\x0a\x0a\x0a\x0a\x0a\x0a\x00\x00\x01\x02\
    \x05\x00\x0c\x00\x07\x00\x00\x00Square\x00\x00\
    \x07\x00\x10\x00\x0a\x00\x00\x00ShapeType\x00\x00\x00\
    \x1a\x00\x0c\x00\x02\x00\x00\x00\x00\x00\x00\x00\x00\x00\x00\x00\
    \x01\x00\x00\x00";

/// DATA 1 of that writer for the reader 00000107: the shape BLUE.
const SAMPLE: &[u8] = b"RTPS\x02\x05\x00\x00\
    \x0a\x0a\x0a\x0a\x0a\x0a\x0a\x0a\x0a\x0a\x0a\x0a\
    \x15\x05\x30\x00\x00\x00\x10\x00\x00\x00\x01\x07\x00\x00\x01\x02\
    \x00\x00\x00\x00\x01\x00\x00\x00\
    \x00\x01\x00\x00\x05\x00\x00\x00BLUE\x00\x00\x00\x00\
    \x0a\x00\x00\x00\x14\x00\x00\x00\x1e\x00\x00\x00";

/// Octets that are no message.
const NO_HEADER: &[u8] = b"no";

/// The datagram and the submessage that a notice of the one reader is due to, and what it says.
type Told = (u64, u32, Said);

/// Appends what the one reader reports.
fn push_told(outcome: &Outcome<Shape>, told: &mut Vec<Told>) -> Result<(), AllocError> {
    for notices in &outcome.notices {
        for notice in notices {
            let place = notice.place;
            told.push((place.datagram, place.submessage, said_by(notice)))?;
        }
    }
    Ok(())
}

/// Datagrams with their moments, the number of them in a batch, and the number of workers.
#[derive(Clone, Copy)]
struct Cut<'a> {
    datagrams: &'a [(u64, &'a [u8])],
    most: usize,
    workers: usize,
}

/// Has a participant take datagrams in batches, and appends what its one reader reports.
fn take_all<R: Threads + Sync>(
    rt: &R,
    alloc: Global,
    participant: &mut Participant<Shapes>,
    cut: Cut<'_>,
    told: &mut Vec<Told>,
) -> Result<(), Fail>
    requires { (1 ≤ cut.workers) × (cut.workers ≤ 64) }
{
    for part in cut.datagrams.chunks(cut.most.max(1)) {
        let mut batch = Vec::new(alloc);
        for (moment, bytes) in part {
            batch.push(Datagram {
                moment: *moment,
                bytes,
            })?;
        }
        if !is_batch(&batch) {
            return Err(Fail::new("the batch is too large"));
        }
        let outcome = participant.run_batch(rt, alloc, &NoGate, &batch, cut.workers)?;
        push_told(&outcome, told)?;
    }
    Ok(())
}

/// Whether a new participant with one reader reports this of some datagrams, taken one by one and
/// all at once, by 1, 2 and 7 workers.
fn tells<R: Threads + Sync>(
    rt: &R,
    alloc: Global,
    datagrams: &[(u64, &[u8])],
    expected: &[Told],
) -> Result<bool, Fail> {
    for most in [1, 256] {
        for workers in [1, 2, 7] {
            let mut participant = Participant::new(alloc, unmatched(alloc, 1)?, Shapes)?;
            let mut told = Vec::new(alloc);
            let cut = Cut {
                datagrams,
                most,
                workers,
            };
            take_all(rt, alloc, &mut participant, cut, &mut told)?;
            if told.as_slice() != expected {
                return Ok(false);
            }
        }
    }
    Ok(true)
}

#[test]
fn a_lease_of_100_seconds_ends_after_its_last_moment(rt: HostRuntime) -> Result<(), Fail> {
    let alloc = rt.alloc();
    let stands = [(1, 1, Said::Matched(1)), (2, 1, Said::Blue(1))];
    let ends = [(1, 1, Said::Matched(1)), (2, 0, Said::Unmatched(1))];
    let at = |first: u64, second: u64, third: u64| {
        [(first, COMES), (second, ANNOUNCES), (third, SAMPLE)]
    };
    assert!(rt; tells(&rt, alloc, &at(0, 1, 100_000), &stands)?);
    assert!(rt; tells(&rt, alloc, &at(0, 1, 100_001), &ends)?);
    // Moment 0 comes after a greater one, so the participant was heard at that.
    assert!(rt; tells(&rt, alloc, &at(100_001, 0, 200_001), &stands)?);
    Ok(())
}

#[test]
fn a_datagram_without_a_header_ends_a_lease(rt: HostRuntime) -> Result<(), Fail> {
    // The fourth datagram's writer is gone by then.
    let datagrams = [
        (0, COMES),
        (1, ANNOUNCES),
        (100_001, NO_HEADER),
        (100_001, SAMPLE),
    ];
    let expected = [(1, 1, Said::Matched(1)), (2, 0, Said::Unmatched(1))];
    assert!(rt; tells(&rt, rt.alloc(), &datagrams, &expected)?);
    Ok(())
}

#[test]
fn who_comes_too_late_is_known_anew(rt: HostRuntime) -> Result<(), Fail> {
    let datagrams = [
        (0, COMES),
        (1, ANNOUNCES),
        (100_001, COMES),
        (100_002, ANNOUNCES),
    ];
    let expected = [
        (1, 1, Said::Matched(1)),
        (2, 0, Said::Unmatched(1)),
        (3, 1, Said::Matched(1)),
    ];
    assert!(rt; tells(&rt, rt.alloc(), &datagrams, &expected)?);
    Ok(())
}

#[test]
fn a_tick_is_a_batch_of_its_own(rt: HostRuntime) -> Result<(), Fail> {
    let alloc = rt.alloc();
    let mut participant = Participant::new(alloc, unmatched(alloc, 1)?, Shapes)?;
    let mut told = Vec::new(alloc);
    let cut = Cut {
        datagrams: &[(0, COMES), (1, ANNOUNCES)],
        most: 256,
        workers: 2,
    };
    take_all(&rt, alloc, &mut participant, cut, &mut told)?;
    let silent = participant.tick(alloc, 100_000)?;
    push_told(&silent, &mut told)?;
    let last = participant.tick(alloc, 100_001)?;
    push_told(&last, &mut told)?;
    let expected = [(1, 1, Said::Matched(1)), (2, 0, Said::Unmatched(1))];
    assert!(rt; told.as_slice() == expected.as_slice());
    assert_eq!(rt; participant.batches(), 3);
    assert!(rt; participant.matches(alloc)?.is_empty());
    assert_eq!(rt; participant.discovery().participants().count(), 0);
    let Some(status) = participant.status(0) else {
        return Err(Fail::new("there is no such reader"));
    };
    assert_eq!(rt; (status.matched_total, status.matched_now), (1, 0));
    Ok(())
}

#[test]
fn only_a_tick_that_ends_a_match_has_a_place(rt: HostRuntime) -> Result<(), Fail> {
    let alloc = rt.alloc();
    let mut participant = Participant::new(alloc, unmatched(alloc, 1)?, Shapes)?;
    let mut told = Vec::new(alloc);
    let cut = Cut {
        datagrams: &[(0, COMES), (1, ANNOUNCES)],
        most: 1,
        workers: 1,
    };
    take_all(&rt, alloc, &mut participant, cut, &mut told)?;
    let mut given = BatchOutput::new(alloc);
    participant.tick_in_order(alloc, 2, &mut given)?;
    assert!(rt; given.places.is_empty());
    participant.tick_in_order(alloc, 100_001, &mut given)?;
    let head = Place {
        datagram: 2,
        submessage: 0,
    };
    assert!(rt; given.places.as_slice() == [head].as_slice());
    assert_eq!(rt; given.outputs.len(), 1);
    assert_eq!(rt; given.outputs[0].notices.len(), 1);
    Ok(())
}
