//! Readers of ours that can't come or go.

use super::{reader_config, unmatched};
use crate::*;
use dds_qos::Ownership;
use dds_topic::Shapes;
use rtps_discovery::Config;
use rtps_run::EngineError;
use rtps_types::EntityId;
use std::alloc::Global;
use std::test::Fail;

/// Adds a reader of squares with this entity and ownership, and returns its rank, or the fault.
fn added(
    alloc: Global,
    participant: &mut Participant<Shapes>,
    entity: [u8; 4],
    ownership: Ownership,
) -> Result<Result<u32, EngineError>, Fail> {
    let mut reader = reader_config(alloc, 0)?;
    reader.entity = EntityId(entity);
    reader.requested.policies.ownership = ownership;
    match participant.add_reader(alloc, reader) {
        Ok((rank, _outcome)) => Ok(Ok(rank)),
        Err(fault) => Ok(Err(fault)),
    }
}

/// A reader that comes: its entity and its ownership, and its rank, or why it is refused.
type Comer = ([u8; 4], Ownership, Result<u32, EngineError>);

/// Returns the index of the first reader that a participant doesn't take or refuse as is expected.
/// A refusal is no batch, and takes no rank.
fn first_otherwise(
    alloc: Global,
    participant: &mut Participant<Shapes>,
    comers: &[Comer],
) -> Result<Option<usize>, Fail> {
    for (at, (entity, ownership, expected)) in comers.iter().enumerate() {
        let ranks = participant.readers();
        let batches = participant.batches();
        let result = added(alloc, participant, *entity, *ownership)?;
        let is_taken = result.is_ok();
        if result != *expected
            || participant.readers() != ranks.wrapping_add(u32::from(is_taken))
            || participant.batches() != batches.wrapping_add(u64::from(is_taken))
        {
            return Ok(Some(at));
        }
    }
    Ok(None)
}

const BAD: Result<u32, EngineError> = Err(EngineError::BadReader);

/// Two readers are there, 00000107 and 00000207.
const KINDS: [Comer; 7] = [
    ([0, 0, 3, 2], Ownership::Shared, BAD),
    ([0, 0, 3, 0xc7], Ownership::Shared, BAD),
    ([0, 0, 2, 7], Ownership::Shared, BAD),
    ([0, 0, 3, 7], Ownership::Exclusive, BAD),
    ([0, 0, 3, 7], Ownership::Shared, Ok(2)),
    ([0, 0, 2, 4], Ownership::Shared, Ok(3)),
    ([0, 0, 3, 7], Ownership::Shared, BAD),
];

#[test]
fn bad_readers_are_refused(rt: HostRuntime) -> Result<(), Fail> {
    let alloc = rt.alloc();
    let mut participant = Participant::new(alloc, unmatched(alloc, 2)?, Shapes)?;
    assert_eq!(rt; first_otherwise(alloc, &mut participant, &KINDS)?, None);
    Ok(())
}

const FULL: Result<u32, EngineError> = Err(EngineError::Full);

/// 256 readers are there, the last of them 00000007.
const ALL_THERE: [Comer; 3] = [
    ([1, 0, 0, 7], Ownership::Shared, FULL),
    ([1, 0, 0, 2], Ownership::Shared, FULL),
    ([0, 0, 1, 7], Ownership::Exclusive, FULL),
];

/// One of them, 00000807, went.
const ONE_WENT: [Comer; 4] = [
    ([1, 0, 0, 2], Ownership::Shared, BAD),
    ([0, 0, 1, 7], Ownership::Shared, BAD),
    ([0, 0, 8, 7], Ownership::Shared, Ok(256)),
    ([1, 0, 0, 7], Ownership::Shared, FULL),
];

/// A configuration with 256 readers of squares.
fn all_there(alloc: Global) -> Result<Config, Fail> {
    let mut config = unmatched(alloc, 0)?;
    for rank in 0..=255 {
        config.add_reader(reader_config(alloc, rank)?)?;
    }
    Ok(config)
}

#[test]
fn at_most_256_readers_are_there(rt: HostRuntime) -> Result<(), Fail> {
    let alloc = rt.alloc();
    let mut participant = Participant::new(alloc, all_there(alloc)?, Shapes)?;
    assert_eq!(rt; first_otherwise(alloc, &mut participant, &ALL_THERE)?, None);
    assert!(rt; participant.remove_reader(alloc, 7).is_ok());
    assert_eq!(rt; first_otherwise(alloc, &mut participant, &ONE_WENT)?, None);
    Ok(())
}
