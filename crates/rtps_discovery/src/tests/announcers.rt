//! Tests of what discovery knows after records of a peer, and of its answers to the announcers.

use super::events::{ASKS, COMES, MOVES, OFFERS, SQUARES, Said, after};
use crate::Discovery;
use crate::addressed::{ENTITYID_SEDP_BUILTIN_PUBLICATIONS_ANNOUNCER, ENTITYID_UNKNOWN};
use dds_qos::Reliability;
use rtps_receiver::{Event, EventBody, Heartbeat};
use rtps_types::{EntityId, Number, Place};
use std::alloc::Global;
use std::test::Fail;

/// Whether the participant is known by its first record.
fn knows_participant(discovery: &Discovery) -> bool {
    match discovery.participants().next() {
        Some((prefix, participant)) => {
            *prefix == SQUARES.prefix
                && participant.lease().seconds == 100
                && participant.locators().len() == 1
        }
        None => false,
    }
}

/// Whether the writer is known by its record.
fn knows_writer(discovery: &Discovery) -> bool {
    match discovery.writers().next() {
        Some((guid, writer)) => {
            *guid == SQUARES
                && writer.topic() == "Square"
                && writer.type_name() == "ShapeType"
                && writer.offered().policies.reliability == Reliability::Reliable
                && writer.locators().is_empty()
        }
        None => false,
    }
}

/// Whether their reader is known, and our own is listed.
fn knows_readers(discovery: &Discovery) -> bool {
    let entity = EntityId([0, 0, 1, 7]);
    let known = match discovery.remote_readers().next() {
        Some(reader) => reader.entity == entity,
        None => false,
    };
    match discovery.readers().first() {
        Some(Some(ours)) => {
            known
                && ours.entity() == entity
                && ours.topic() == "Square"
                && ours.type_name() == "ShapeType"
                && ours.requested().policies.reliability == Reliability::Reliable
        }
        _ => false,
    }
}

/// Whether the participant, its writer and its reader are known, with the one match.
fn knows_all(alloc: Global, discovery: &Discovery) -> Result<bool, Fail> {
    let matches = discovery.matches(alloc)?;
    Ok(
        matches.len() == 1
            && matches.contains(&(0, SQUARES))
            && knows_participant(discovery)
            && knows_writer(discovery)
            && knows_readers(discovery),
    )
}

#[test]
fn what_is_known(rt: HostRuntime) -> Result<(), Fail> {
    let discovery = after(rt.alloc(), &[COMES, OFFERS, ASKS])?;
    assert!(rt; knows_all(rt.alloc(), &discovery)?);
    Ok(())
}

/// Returns the port that the answer to a heartbeat of their announcer of writers goes to, if there
/// is an answer.
fn answered(alloc: Global, mut discovery: Discovery) -> Result<Option<u16>, Fail> {
    let writer = ENTITYID_SEDP_BUILTIN_PUBLICATIONS_ANNOUNCER;
    let heartbeat = Heartbeat {
        first: Number::new(1).ok_or("no number")?,
        last: 2,
        count: 1,
        final_flag: false,
        liveliness: false,
    };
    let event = Event {
        place: Place {
            datagram: 0,
            submessage: 1,
        },
        source: SQUARES.prefix,
        time: None,
        writer,
        reader: ENTITYID_UNKNOWN,
        body: EventBody::Heartbeat(heartbeat),
    };
    let effects = discovery.step(alloc, 0, &event)?;
    match &effects.answer {
        Some(answer) => Ok(answer.to.as_slice().first().map(|locator| locator.port)),
        None => Ok(None),
    }
}

/// An announcer of an unknown participant gets no answer. A later record of a participant doesn't
/// change the locators of its announcers.
const ANSWERS: [(&[Said], Option<u16>); 3] = [
    (&[], None),
    (&[COMES], Some(7412)),
    (&[COMES, MOVES], Some(7412)),
];

#[test]
fn announcers_are_answered(rt: HostRuntime) -> Result<(), Fail> {
    for &(said, expected) in &ANSWERS {
        let discovery = after(rt.alloc(), said)?;
        assert_eq!(rt; answered(rt.alloc(), discovery)?, expected);
    }
    Ok(())
}
