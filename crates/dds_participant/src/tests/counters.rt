//! What a participant counts of the datagrams that it takes.

use super::moments::ANNOUNCES;
use super::routed::{COMES, ROUTED};
use super::*;
use rtps_planner::PassedOver;
use rtps_receiver::Counters;
use rtps_run::BatchOutput;

/// A datagram of 19 octets, which is too short for a header.
const SHORT: &[u8] = b"RTPS\x02\x05\x00\x00\x0a\x0a\x0a\x0a\x0a\x0a\x0a\x0a\x0a\x0a\x0a";

/// INFO_DST for the participant of twelve `0x09`, and then a HEARTBEAT; and a cut submessage.
const FOR_OTHERS: &[u8] = b"RTPS\x02\x05\x00\x00\
    \x0a\x0a\x0a\x0a\x0a\x0a\x0a\x0a\x0a\x0a\x0a\x0a\
    \x0e\x01\x0c\x00\x09\x09\x09\x09\x09\x09\x09\x09\x09\x09\x09\x09\
    \x07\x01\x1c\x00\x00\x00\x00\x00\x00\x00\x01\x02\
    \x00\x00\x00\x00\x01\x00\x00\x00\x00\x00\x00\x00\x03\x00\x00\x00\x01\x00\x00\x00\
    \x07\x01";

/// The number of datagrams of a run, which is a multiple of five.
const COUNT: u32 = 2_050;

/// Returns the datagrams of a run: of each five two give an event, and one is no message.
fn mixed(alloc: Global) -> Result<Vec<&'static [u8]>, Fail> {
    let mut all = Vec::new(alloc);
    for at in 0..COUNT {
        all.push(match at % 5 {
            0 => DATA,
            1 => HEARTBEAT,
            2 => SHORT,
            3 => FOR_OTHERS,
            _ => DATA.get(..20).ok_or("a header alone")?,
        })?;
    }
    Ok(all)
}

/// What is counted of them.
fn due() -> Counters {
    Counters {
        datagrams: 2_050,
        short: 410,
        cut_headers: 410,
        events: 820,
        not_for_readers: 410,
        other_destination: 410,
        ..Counters::default()
    }
}

/// Has a participant take these datagrams, by batches of a length, on a number of workers.
fn take_by<R: Threads + Sync>(
    rt: &R,
    alloc: Global,
    participant: &mut Participant<Shapes>,
    datagrams: &[Datagram<'_>],
    cut: (usize, usize),
) -> Result<(), Fail> {
    let (length, workers) = cut;
    if length == 0 || workers == 0 || workers > 64 {
        return Err(Fail::new("no such cut"));
    }
    let workers = Workers {
        count: workers,
        gate: &NoGate,
    };
    let mut given = BatchOutput::new(alloc);
    for part in datagrams.chunks(length) {
        if !is_batch(part) {
            return Err(Fail::new("no batch"));
        }
        let taken = participant.run_in_order(rt, alloc, &workers, part, &mut given);
        if taken.is_err() {
            return Err(Fail::new("not taken"));
        }
    }
    Ok(())
}

#[test]
fn counts_the_same_by_any_cut_and_any_workers(rt: HostRuntime) -> Result<(), Fail> {
    let all = mixed(rt.alloc())?;
    let datagrams = at_once(rt.alloc(), &all)?;
    for cut in [(2_050, 1), (2_050, 7), (1_025, 2), (100, 1)] {
        let mut participant = Participant::new(rt.alloc(), config(rt.alloc())?, Shapes)?;
        take_by(&rt, rt.alloc(), &mut participant, &datagrams, cut)?;
        assert_eq!(rt; *participant.counters(), due());
    }
    Ok(())
}

/// An announcement of the participant of twelve `0x0b`, which is ours.
const OURS: &[u8] = b"RTPS\x02\x05\x00\x00\
    \x0b\x0b\x0b\x0b\x0b\x0b\x0b\x0b\x0b\x0b\x0b\x0b\
    \x15\x05\x1c\x00\x00\x00\x10\x00\x00\x01\x00\xc7\x00\x01\x00\xc2\
    \x00\x00\x00\x00\x01\x00\x00\x00\x00\x03\x00\x00\x01\x00\x00\x00";

/// An announcement of theirs that is no parameter list.
const NO_LIST: &[u8] = b"RTPS\x02\x05\x00\x00\
    \x0a\x0a\x0a\x0a\x0a\x0a\x0a\x0a\x0a\x0a\x0a\x0a\
    \x15\x05\x1c\x00\x00\x00\x10\x00\x00\x01\x00\xc7\x00\x01\x00\xc2\
    \x00\x00\x00\x00\x01\x00\x00\x00\x00\x01\x00\x00\x01\x00\x00\x00";

/// Datagrams for one reader of squares, 00000107, which no fixed match begins with.
const TO_ONE: [&[u8]; 9] = [
    // Two events for nobody: their writer isn't known.
    HEARTBEAT, HEARTBEAT, // A record is ignored: its participant isn't known.
    ANNOUNCES, COMES, // Of the two samples the first comes before its writer is announced.
    ROUTED, // For the reader; and one for a reader that isn't there.
    DATA, LATER, // Two records are ignored.
    OURS, NO_LIST,
];

#[test]
fn counts_what_comes_to_nothing(rt: HostRuntime) -> Result<(), Fail> {
    let mut all = Vec::from_slice(rt.alloc(), &TO_ONE)?;
    // A record that comes again is a sign of life.
    all.push(COMES)?;
    let datagrams = at_once(rt.alloc(), &all)?;
    for cut in [(10, 1), (10, 7), (3, 2), (1, 1)] {
        let mut participant = Participant::new(rt.alloc(), unmatched(rt.alloc(), 1)?, Shapes)?;
        take_by(&rt, rt.alloc(), &mut participant, &datagrams, cut)?;
        let due = PassedOver {
            nobody: 4,
            ignored: 3,
        };
        assert_eq!(rt; participant.passed_over(), due);
    }
    Ok(())
}
