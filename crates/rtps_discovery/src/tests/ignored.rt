//! Tests of the records that are ignored, with numbers worked out by hand.

use super::events::{COMES, OFFERS, Said, event_of, payload_of, two_readers};
use crate::{Discovery, check};
use std::alloc::Global;
use std::test::Fail;

/// A record of their participant that is no parameter list.
const NO_LIST: Said = Said {
    payload: &["00010000 01000000"],
    ..COMES
};

/// The first record of their announcer of writers, which names none.
const NAMELESS: Said = Said {
    payload: &["00030000 01000000"],
    ..OFFERS
};

/// Changes of theirs, one after the other, each with the number of records that are ignored then.
const STEPS: [(Said, usize); 8] = [
    // Their participant isn't known yet.
    (OFFERS, 1),
    (COMES, 0),
    (NO_LIST, 1),
    // It comes again.
    (COMES, 0),
    // Two records wait for the first one, of which one names no writer either.
    (
        Said {
            number: 2,
            ..OFFERS
        },
        0,
    ),
    (
        Said {
            number: 3,
            ..NAMELESS
        },
        0,
    ),
    (NAMELESS, 2),
    // It came before.
    (NAMELESS, 0),
];

/// Processes a change of theirs, and returns the number of records that are ignored.
fn ignored_at(alloc: Global, discovery: &mut Discovery, said: Said) -> Result<usize, Fail> {
    let payload = payload_of(alloc, said.payload)?;
    let event = event_of(said, payload.as_slice())?;
    Ok(discovery.step(alloc, 0, &event)?.ignored)
}

#[test]
fn records_that_announce_nothing_are_ignored(rt: HostRuntime) -> Result<(), Fail> {
    let config = two_readers(rt.alloc())?;
    check(&config)?;
    let mut discovery = Discovery::new(rt.alloc(), &config)?;
    for (said, expected) in STEPS {
        assert_eq!(rt; ignored_at(rt.alloc(), &mut discovery, said)?, expected);
    }
    Ok(())
}
