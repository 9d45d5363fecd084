//! Tests of readers of ours that can't come or go.

use super::announced::{Offer, Says};
use super::coming::{Act, Row, Told, are_statuses, first_unmet, reader_of_squares};
use super::matching::status;
use super::{Said, config};
use crate::*;
use Act::{Adds, Removes, Takes};
use Told::{Faults, Lines, Ranks};
use dds_qos::{Ownership, Reliability};
use dds_topic::Shapes;
use rtps_types::EntityId;
use std::alloc::Global;
use std::test::Fail;

/// The reader goes that isn't there: its rank wasn't given, or it went. No refusal changes a match
/// or takes a rank.
const NOT_THERE: [Row; 9] = [
    (
        Takes(&[Says::Comes, Says::Offers(1, 1, Offer::Square)]),
        Lines(&[(Some(0), 0, 2, Said::Matched(1))]),
        &[(0, 1)],
    ),
    (Removes(1), Faults(EngineError::NoReader), &[(0, 1)]),
    (Removes(u32::MAX), Faults(EngineError::NoReader), &[(0, 1)]),
    (
        Adds(2),
        Ranks(1, &[(Some(1), 1, 0, Said::Matched(1))]),
        &[(0, 1), (1, 1)],
    ),
    (
        Removes(1),
        Lines(&[(Some(1), 1, 0, Said::Unmatched(1))]),
        &[(0, 1)],
    ),
    (Removes(1), Faults(EngineError::NoReader), &[(0, 1)]),
    // The entity of a reader that is there, and then that of the one that went.
    (Adds(1), Faults(EngineError::BadReader), &[(0, 1)]),
    (
        Adds(2),
        Ranks(2, &[(Some(2), 1, 0, Said::Matched(1))]),
        &[(0, 1), (2, 1)],
    ),
    (
        Takes(&[Says::Blue(1, 1)]),
        Lines(&[
            (Some(0), 1, 1, Said::Blue(1)),
            (Some(2), 1, 1, Said::Blue(1)),
        ]),
        &[(0, 1), (2, 1)],
    ),
];

/// Returns the index of the first row that an engine doesn't meet, and whether it has the expected
/// statuses after them.
fn unmet_with_statuses(
    alloc: Global,
    engine: &mut SerialEngine<Shapes>,
) -> Result<(Option<usize>, bool), Fail> {
    let unmet = first_unmet(alloc, engine, &NOT_THERE, true)?;
    let statuses = [status(1, 1, 1), None, status(1, 1, 1)];
    Ok((unmet, are_statuses(engine, &statuses)))
}

#[test]
fn a_reader_goes_once_and_its_entity_is_free(rt: HostRuntime) -> Result<(), Fail> {
    let config = config(rt.alloc(), Reliability::Reliable, &[0], &[])?;
    let mut engine = SerialEngine::new(rt.alloc(), config, Shapes)?;
    let unmet = unmet_with_statuses(rt.alloc(), &mut engine)?;
    assert_eq!(rt; unmet, (None, true));
    Ok(())
}

/// Adds a reader of squares with this entity and ownership, and returns its rank, or the fault.
fn added(
    alloc: Global,
    engine: &mut SerialEngine<Shapes>,
    entity: [u8; 4],
    ownership: Ownership,
) -> Result<Result<u32, EngineError>, Fail> {
    let mut reader = reader_of_squares(alloc, 0)?;
    reader.entity = EntityId(entity);
    reader.requested.policies.ownership = ownership;
    match engine.add_reader(alloc, reader) {
        Ok((rank, _outcome)) => Ok(Ok(rank)),
        Err(fault) => Ok(Err(fault)),
    }
}

/// A reader that comes: its entity and its ownership, and its rank, or why it is refused.
type Comer = ([u8; 4], Ownership, Result<u32, EngineError>);

/// Returns the index of the first reader that an engine doesn't take or refuse as is expected. A
/// refusal changes no number of ranks.
fn first_otherwise(
    alloc: Global,
    engine: &mut SerialEngine<Shapes>,
    comers: &[Comer],
) -> Result<Option<usize>, Fail> {
    for (at, (entity, ownership, expected)) in comers.iter().enumerate() {
        let before = engine.readers();
        let result = added(alloc, engine, *entity, *ownership)?;
        let after = before.wrapping_add(u32::from(result.is_ok()));
        if result != *expected || engine.readers() != after {
            return Ok(Some(at));
        }
    }
    Ok(None)
}

const BAD: Result<u32, EngineError> = Err(EngineError::BadReader);

/// Two readers are there, 00000107 and 00000207.
const KINDS: [Comer; 8] = [
    ([0, 0, 3, 2], Ownership::Shared, BAD),
    ([0, 0, 3, 3], Ownership::Shared, BAD),
    ([0, 0, 3, 0xc7], Ownership::Shared, BAD),
    ([0, 0, 2, 7], Ownership::Shared, BAD),
    ([0, 0, 3, 7], Ownership::Exclusive, BAD),
    ([0, 0, 3, 7], Ownership::Shared, Ok(2)),
    ([0, 0, 2, 4], Ownership::Shared, Ok(3)),
    ([0, 0, 3, 7], Ownership::Shared, BAD),
];

#[test]
fn bad_readers_are_refused(rt: HostRuntime) -> Result<(), Fail> {
    let config = config(rt.alloc(), Reliability::Reliable, &[0, 1], &[])?;
    let mut engine = SerialEngine::new(rt.alloc(), config, Shapes)?;
    assert_eq!(rt; first_otherwise(rt.alloc(), &mut engine, &KINDS)?, None);
    Ok(())
}

const FULL: Result<u32, EngineError> = Err(EngineError::Full);

/// 256 readers are there, the last of them 00000007.
const ALL_THERE: [Comer; 3] = [
    ([1, 0, 0, 7], Ownership::Shared, FULL),
    ([1, 0, 0, 2], Ownership::Shared, FULL),
    ([0, 0, 1, 7], Ownership::Exclusive, FULL),
];

/// One of them, 00000807, went.
const ONE_WENT: [Comer; 4] = [
    ([1, 0, 0, 2], Ownership::Shared, BAD),
    ([0, 0, 1, 7], Ownership::Shared, BAD),
    ([0, 0, 8, 7], Ownership::Shared, Ok(256)),
    ([1, 0, 0, 7], Ownership::Shared, FULL),
];

/// Returns the indices of the first readers that an engine doesn't take or refuse as is expected,
/// before and after one goes.
fn otherwise_where_all_are_there(
    alloc: Global,
    engine: &mut SerialEngine<Shapes>,
) -> Result<[Option<usize>; 2], Fail> {
    let before = first_otherwise(alloc, engine, &ALL_THERE)?;
    let _last = engine.remove_reader(alloc, 7)?;
    Ok([before, first_otherwise(alloc, engine, &ONE_WENT)?])
}

#[test]
fn at_most_256_readers_are_there(rt: HostRuntime) -> Result<(), Fail> {
    let mut ranks = Vec::new(rt.alloc());
    for rank in 0..=255 {
        ranks.push(rank)?;
    }
    let config = config(rt.alloc(), Reliability::Reliable, ranks.as_slice(), &[])?;
    let mut engine = SerialEngine::new(rt.alloc(), config, Shapes)?;
    let otherwise = otherwise_where_all_are_there(rt.alloc(), &mut engine)?;
    assert_eq!(rt; otherwise, [None, None]);
    Ok(())
}
