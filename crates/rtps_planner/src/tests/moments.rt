//! Plans of datagrams with moments: octets written by hand.

use crate::*;
use rtps_discovery::{Config, Discovery, ReaderConfig, check};
use rtps_receiver::{Counters, Event, add_events};
use rtps_types::{EntityId, GuidPrefix, MatchChangeKind, Place};
use std::alloc::Global;
use std::test::Fail;

const OURS: GuidPrefix = GuidPrefix([0x0b; 12]);

/// The participant 0a0a..0a comes, with a lease of one second.
const COMES: [u8; 92] = [
    0x52, 0x54, 0x50, 0x53, 0x02, 0x03, 0x01, 0x01, 0x0a, 0x0a, 0x0a, 0x0a, 0x0a, 0x0a, 0x0a, 0x0a,
    0x0a, 0x0a, 0x0a, 0x0a, 0x15, 0x05, 0x44, 0x00, 0x00, 0x00, 0x10, 0x00, 0x00, 0x00, 0x00, 0x00,
    0x00, 0x01, 0x00, 0xc2, 0x00, 0x00, 0x00, 0x00, 0x01, 0x00, 0x00, 0x00, 0x00, 0x03, 0x00, 0x00,
    0x50, 0x00, 0x10, 0x00, 0x0a, 0x0a, 0x0a, 0x0a, 0x0a, 0x0a, 0x0a, 0x0a, 0x0a, 0x0a, 0x0a, 0x0a,
    0x00, 0x00, 0x01, 0xc1, 0x02, 0x00, 0x08, 0x00, 0x01, 0x00, 0x00, 0x00, 0x00, 0x00, 0x00, 0x00,
    0x58, 0x00, 0x04, 0x00, 0x14, 0x00, 0x00, 0x00, 0x01, 0x00, 0x00, 0x00,
];

/// It offers a reliable writer 00000102 of topic Square, type ShapeType.
const OFFERS: [u8; 124] = [
    0x52, 0x54, 0x50, 0x53, 0x02, 0x03, 0x01, 0x01, 0x0a, 0x0a, 0x0a, 0x0a, 0x0a, 0x0a, 0x0a, 0x0a,
    0x0a, 0x0a, 0x0a, 0x0a, 0x15, 0x05, 0x64, 0x00, 0x00, 0x00, 0x10, 0x00, 0x00, 0x00, 0x00, 0x00,
    0x00, 0x00, 0x03, 0xc2, 0x00, 0x00, 0x00, 0x00, 0x01, 0x00, 0x00, 0x00, 0x00, 0x03, 0x00, 0x00,
    0x5a, 0x00, 0x10, 0x00, 0x0a, 0x0a, 0x0a, 0x0a, 0x0a, 0x0a, 0x0a, 0x0a, 0x0a, 0x0a, 0x0a, 0x0a,
    0x00, 0x00, 0x01, 0x02, 0x05, 0x00, 0x0c, 0x00, 0x07, 0x00, 0x00, 0x00, 0x53, 0x71, 0x75, 0x61,
    0x72, 0x65, 0x00, 0x00, 0x07, 0x00, 0x10, 0x00, 0x0a, 0x00, 0x00, 0x00, 0x53, 0x68, 0x61, 0x70,
    0x65, 0x54, 0x79, 0x70, 0x65, 0x00, 0x00, 0x00, 0x1a, 0x00, 0x0c, 0x00, 0x02, 0x00, 0x00, 0x00,
    0x00, 0x00, 0x00, 0x00, 0x00, 0x00, 0x00, 0x00, 0x01, 0x00, 0x00, 0x00,
];

/// DATA 1 of that writer, for every reader.
const SENDS: [u8; 52] = [
    0x52, 0x54, 0x50, 0x53, 0x02, 0x03, 0x01, 0x01, 0x0a, 0x0a, 0x0a, 0x0a, 0x0a, 0x0a, 0x0a, 0x0a,
    0x0a, 0x0a, 0x0a, 0x0a, 0x15, 0x05, 0x1c, 0x00, 0x00, 0x00, 0x10, 0x00, 0x00, 0x00, 0x00, 0x00,
    0x00, 0x00, 0x01, 0x02, 0x00, 0x00, 0x00, 0x00, 0x01, 0x00, 0x00, 0x00, 0x00, 0x01, 0x00, 0x00,
    0x01, 0x00, 0x00, 0x00,
];

/// The events of the three datagrams, one of each.
fn three(alloc: Global) -> Result<Vec<Event<'static>>, Fail> {
    let (mut all, mut counters) = (Vec::new(alloc), Counters::new());
    add_events(&mut all, &mut counters, OURS, 0, &COMES)?;
    add_events(&mut all, &mut counters, OURS, 1, &OFFERS)?;
    add_events(&mut all, &mut counters, OURS, 2, &SENDS)?;
    Ok(all)
}

/// A discovery with one reader, which the writer matches.
fn one_reader(alloc: Global) -> Result<Discovery, Fail> {
    let mut config = Config::new(alloc, OURS);
    let reader = ReaderConfig::new(alloc, EntityId([0, 0, 1, 7]), "Square", "ShapeType")?;
    config.add_reader(reader)?;
    check(&config)?;
    Ok(Discovery::new(alloc, &config)?)
}

/// A step of the reader, as a test writes it.
#[derive(Clone, Copy, Debug, PartialEq)]
enum Does {
    Matches(Place),
    Unmatches(Place),
    Refuses,
    /// The index of the first event, and the number of events after it.
    TakesIn(usize, usize),
}

fn done_by(step: &PlannedStep) -> Does {
    match step {
        PlannedStep::TakeIn { first, more } => Does::TakesIn(*first, *more),
        PlannedStep::Change { place, what } => match what {
            MatchChangeKind::Match(_) => Does::Matches(*place),
            MatchChangeKind::Unmatch(_) => Does::Unmatches(*place),
            MatchChangeKind::Refuse { .. } => Does::Refuses,
        },
    }
}

const fn at(datagram: u64, submessage: u32) -> Place {
    Place {
        datagram,
        submessage,
    }
}

/// Whether the one job of a plan has these steps, and the plan these places.
fn is_plan(plan: &Plan, steps: &[Does], places: &[Place]) -> bool {
    let [job] = plan.jobs.as_slice() else {
        return steps.is_empty() && plan.jobs.is_empty() && plan.rest.places.as_slice() == places;
    };
    job.steps.len() == steps.len()
        && job
            .steps
            .iter()
            .zip(steps)
            .all(|(step, expected)| done_by(step) == *expected)
        && plan.rest.places.as_slice() == places
}

/// The plan of the three datagrams, where the last one comes at this moment. The lease ends at
/// 1000.
fn plan_at(alloc: Global, discovery: &mut Discovery, last: u64) -> Result<Plan, Fail> {
    let all = three(alloc)?;
    let events = all.as_slice();
    if events.len() != 3 {
        return Err(Fail::new("not one event of each"));
    }
    let (comes, later) = events.split_at(1);
    let (offers, sends) = later.split_at(1);
    let stamped = [
        Stamped {
            moment: 0,
            index: 0,
            events: comes,
        },
        Stamped {
            moment: 0,
            index: 1,
            events: offers,
        },
        Stamped {
            moment: last,
            index: 2,
            events: sends,
        },
    ];
    Ok(plan(alloc, &stamped, discovery)?)
}

#[test]
fn a_datagram_that_comes_in_time_is_taken_in(rt: HostRuntime) -> Result<(), Fail> {
    let alloc = rt.alloc();
    let plan = plan_at(alloc, &mut one_reader(alloc)?, 1000)?;
    let steps = [Does::Matches(at(1, 1)), Does::TakesIn(2, 0)];
    assert!(rt; is_plan(&plan, &steps, &[at(0, 1), at(1, 1), at(2, 1)]));
    Ok(())
}

#[test]
fn a_writer_that_expires_with_its_datagram_is_not_heard(rt: HostRuntime) -> Result<(), Fail> {
    let alloc = rt.alloc();
    let plan = plan_at(alloc, &mut one_reader(alloc)?, 1001)?;
    let steps = [Does::Matches(at(1, 1)), Does::Unmatches(at(2, 0))];
    assert!(rt; is_plan(&plan, &steps, &[at(0, 1), at(1, 1), at(2, 0), at(2, 1)]));
    Ok(())
}

/// The plan of a tick before datagram 3.
fn plan_of_tick(alloc: Global, discovery: &mut Discovery, moment: u64) -> Result<Plan, Fail> {
    let tick = Stamped {
        moment,
        index: 3,
        events: &[],
    };
    Ok(plan(alloc, &[tick], discovery)?)
}

#[test]
fn a_tick_ends_matches_before_the_next_datagram(rt: HostRuntime) -> Result<(), Fail> {
    let alloc = rt.alloc();
    let mut discovery = one_reader(alloc)?;
    plan_at(alloc, &mut discovery, 1000)?;
    // Silent: no job, no place.
    assert!(rt; is_plan(&plan_of_tick(alloc, &mut discovery, 1000)?, &[], &[]));
    let plan = plan_of_tick(alloc, &mut discovery, 1001)?;
    assert!(rt; is_plan(&plan, &[Does::Unmatches(at(3, 0))], &[at(3, 0)]));
    Ok(())
}
