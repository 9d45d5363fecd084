//! Plans of events written by hand.

use super::place;
use crate::*;
use rtps_discovery::{Config, Discovery, ReaderConfig, check};
use rtps_receiver::{Event, EventBody, HeartbeatFrag};
use rtps_types::{EntityId, Guid, GuidPrefix, Locators, Number};
use std::alloc::{AllocError, Global};
use std::test::Fail;

const WRITER: Guid = Guid {
    prefix: GuidPrefix([0x0a; 12]),
    entity: EntityId([0, 0, 1, 2]),
};

/// The entities of two readers.
const FIRST: EntityId = EntityId([0, 0, 1, 7]);

const SECOND: EntityId = EntityId([0, 0, 2, 7]);

/// Names no reader (ENTITYID_UNKNOWN): the event is for all readers that are matched with its
/// writer.
const ALL: EntityId = EntityId([0; 4]);

fn add_reader(
    alloc: Global,
    config: &mut Config,
    rank: u32,
    entity: EntityId,
) -> Result<(), AllocError> {
    config.add_fixed(rank, WRITER, Locators::new(Vec::new(alloc)))?;
    config.add_reader(ReaderConfig::new(alloc, entity, "Square", "ShapeType")?)
}

/// Two readers that are matched with the writer.
pub(super) fn two_readers(alloc: Global) -> Result<Config, AllocError> {
    let mut config = Config::new(alloc, GuidPrefix([0x0b; 12]));
    add_reader(alloc, &mut config, 0, FIRST)?;
    add_reader(alloc, &mut config, 1, SECOND)?;
    Ok(config)
}

/// An event of the writer for a reader.
pub(super) fn event_for(submessage: u32, reader: EntityId) -> Option<Event<'static>> {
    let number = Number::new(1)?;
    Some(Event {
        place: place(submessage),
        source: WRITER.prefix,
        time: None,
        writer: WRITER.entity,
        reader,
        body: EventBody::HeartbeatFrag(HeartbeatFrag {
            number,
            last: 1,
            count: 1,
        }),
    })
}

/// Six events for the first reader. Every third is for the second one too.
pub(super) fn six_events(alloc: Global) -> Result<Vec<Event<'static>>, Fail> {
    let mut events = Vec::new(alloc);
    for submessage in 1..7 {
        let reader = if submessage % 3 == 0 { ALL } else { FIRST };
        match event_for(submessage, reader) {
            Some(event) => events.push(event)?,
            None => return Err(Fail::new("1 is no number")),
        }
    }
    Ok(events)
}

/// Whether a step processes these events: the index of the first, and the number of events after
/// it.
fn is_taking(step: &PlannedStep, events: (usize, usize)) -> bool {
    match step {
        PlannedStep::TakeIn { first, more } => (*first, *more) == events,
        PlannedStep::Change { .. } => false,
    }
}

/// Whether a job processes these events, in this order, step by step.
fn takes(job: &Job, rank: u32, steps: &[(usize, usize)]) -> bool {
    job.rank == rank
        && job.steps.len() == steps.len()
        && job
            .steps
            .iter()
            .zip(steps)
            .all(|(step, events)| is_taking(step, *events))
}

/// Whether the plan is that of the six events.
fn is_of_six(plan: Plan) -> bool {
    let [first, second] = plan.jobs.as_slice() else {
        return false;
    };
    takes(first, 0, &[(0, 5)])
        && takes(second, 1, &[(2, 0), (5, 0)])
        && plan.rest.readers == 2
        && plan.rest.ranks.as_slice() == [0, 1].as_slice()
        && plan.rest.answers.is_empty()
        && plan.rest.places.as_slice() == [1, 2, 3, 4, 5, 6].map(place).as_slice()
        && plan.rest.passed == PassedOver::new()
}

/// Whether the plan is that of no event.
fn is_of_none(plan: Plan) -> bool {
    plan.jobs.is_empty()
        && plan.rest.readers == 2
        && plan.rest.ranks.is_empty()
        && plan.rest.places.is_empty()
}

/// These events as those of one datagram.
pub(super) fn at_once<'a>(events: &'a [Event<'a>]) -> [Stamped<'a>; 1] {
    [Stamped {
        moment: 0,
        index: 7,
        events,
    }]
}

/// The plan of two readers.
fn plan_of(alloc: Global, events: &[Event<'_>]) -> Result<Plan, Fail> {
    let config = two_readers(alloc)?;
    check(&config)?;
    let mut discovery = Discovery::new(alloc, &config)?;
    Ok(plan(alloc, &at_once(events), &mut discovery)?)
}

#[test]
fn every_third_event_is_for_the_second_reader(rt: HostRuntime) -> Result<(), Fail> {
    let events = six_events(rt.alloc())?;
    assert!(rt; is_of_six(plan_of(rt.alloc(), &events)?));
    Ok(())
}

#[test]
fn no_event_gives_no_job(rt: HostRuntime) -> Result<(), Fail> {
    assert!(rt; is_of_none(plan_of(rt.alloc(), &[])?));
    Ok(())
}

/// An entity of which there is no reader.
const THIRD: EntityId = EntityId([0, 0, 3, 7]);

#[test]
fn events_for_a_reader_that_is_not_there_are_for_nobody(rt: HostRuntime) -> Result<(), Fail> {
    let mut events = Vec::new(rt.alloc());
    for (submessage, reader) in [(1, THIRD), (2, FIRST), (3, THIRD), (4, THIRD), (5, ALL)] {
        match event_for(submessage, reader) {
            Some(event) => events.push(event)?,
            None => return Err(Fail::new("1 is no number")),
        }
    }
    let plan = plan_of(rt.alloc(), &events)?;
    assert_eq!(rt; plan.rest.passed.nobody, 3);
    assert_eq!(rt; plan.rest.passed.ignored, 0);
    Ok(())
}

#[test]
fn counters_of_what_comes_to_nothing_stop(rt: HostRuntime) -> Result<(), Fail> {
    let mut passed = PassedOver {
        nobody: u64::MAX - 1,
        ignored: 1,
    };
    passed.add(PassedOver {
        nobody: 2,
        ignored: 2,
    });
    let due = PassedOver {
        nobody: u64::MAX,
        ignored: 3,
    };
    assert_eq!(rt; passed, due);
    Ok(())
}
