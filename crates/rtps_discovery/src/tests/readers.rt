//! Tests of readers of ours that come and go, with octets written by hand.

use super::announcements::OURS;
use super::leases::{
    Became, FIRST, Heard, INFINITE, Input, ONE, ONE_SECOND, SECOND, heard_of, started, take,
};
use crate::{Config, Discovery, MatchChange, ReaderConfig, ReaderFault, check};
use Became::{Matched, Refused, Unmatched};
use dds_qos::Ownership;
use rtps_types::{EntityId, Guid, GuidPrefix};
use std::alloc::{Allocator, Global};
use std::test::Fail;

/// What happens to discovery.
#[derive(Clone, Copy)]
enum Act {
    Takes(Input),
    /// A reliable reader of squares comes, with this third octet of its entity.
    Adds(u8),
    /// The reader of a rank goes.
    Removes(u32),
}

use Act::{Adds, Removes, Takes};

/// Its result.
#[derive(Clone, Copy)]
enum Told {
    /// These changes of our readers' matches.
    Hears(&'static [Heard]),
    /// The same, and a rank for the reader that came.
    Ranks(u32, &'static [Heard]),
    Faults(ReaderFault),
}

use Told::{Faults, Hears, Ranks};

/// The first writer of the first participant.
const FIRST_OF_ONE: Guid = Guid {
    prefix: GuidPrefix([1; 12]),
    entity: EntityId([0, 0, 1, 2]),
};

/// A reliable reader of squares, with this third octet of its entity.
pub(super) fn reader_of_squares(alloc: Global, third: u8) -> Result<ReaderConfig, Fail> {
    let reader = ReaderConfig::new(alloc, EntityId([0, 0, third, 7]), "Square", "ShapeType")?;
    Ok(reader.reliable())
}

/// Whether these are the expected changes.
fn are_heard(alloc: Global, changes: &[MatchChange], expected: &[Heard]) -> Result<bool, Fail> {
    let mut heard = Vec::new(alloc);
    for change in changes {
        heard.push(heard_of(change))?;
    }
    Ok(heard.as_slice() == expected)
}

/// Whether the result of a reader's coming is the expected one.
fn adds(alloc: Global, discovery: &mut Discovery, third: u8, expected: Told) -> Result<bool, Fail> {
    let added = discovery.add_reader(alloc, reader_of_squares(alloc, third)?);
    match (added, expected) {
        (Ok((rank, changes)), Ranks(at, heard)) => {
            Ok(rank == at && are_heard(alloc, changes.as_slice(), heard)?)
        }
        (Err(fault), Faults(told)) => Ok(fault == told),
        _ => Ok(false),
    }
}

/// Whether the result of a reader's going is the expected one.
fn removes(
    alloc: Global,
    discovery: &mut Discovery,
    rank: u32,
    expected: Told,
) -> Result<bool, Fail> {
    match (discovery.remove_reader(alloc, rank), expected) {
        (Ok(ended), Hears(heard)) => are_heard(alloc, ended.as_slice(), heard),
        (Err(fault), Faults(told)) => Ok(fault == told),
        _ => Ok(false),
    }
}

/// Whether the result of an act is the expected one.
fn does(alloc: Global, discovery: &mut Discovery, act: Act, expected: Told) -> Result<bool, Fail> {
    match (act, expected) {
        (Takes(input), Hears(heard)) => {
            let changes = take(alloc, discovery, input)?;
            are_heard(alloc, changes.as_slice(), heard)
        }
        (Takes(_), _) => Ok(false),
        (Adds(third), expected) => adds(alloc, discovery, third, expected),
        (Removes(rank), expected) => removes(alloc, discovery, rank, expected),
    }
}

/// Returns the index of the first act whose result isn't the expected one, for discovery that
/// starts with two best-effort readers of squares, the first with these fixed matches; and the
/// ranks that are matched with the first writer after the acts.
fn first_untold(
    alloc: Global,
    fixed: &[Guid],
    story: &[(Act, Told)],
) -> Result<(Option<usize>, Vec<u32>), Fail> {
    let mut discovery = started(alloc, fixed)?;
    for (at, (act, expected)) in story.iter().enumerate() {
        if !does(alloc, &mut discovery, *act, *expected)? {
            return Ok((Some(at), Vec::new(alloc)));
        }
    }
    let matched = Vec::from_slice(alloc, discovery.matched(FIRST_OF_ONE))?;
    Ok((None, matched))
}

/// Three writers, announced in falling order of their octets; readers come and go. In the end the
/// last reader goes, a writer is announced again, and another reader comes.
const COME_AND_GO: [(Act, Told); 16] = [
    (Takes(Input::Comes(ONE, INFINITE)), Hears(&[])),
    (Takes(Input::OffersCircles(ONE, 1, "00000302")), Hears(&[])),
    (
        Takes(Input::OffersBestEffort(ONE, 2, SECOND)),
        Hears(&[(0, 1, 2, Matched), (1, 1, 2, Matched)]),
    ),
    (
        Takes(Input::Offers(ONE, 3, FIRST)),
        Hears(&[(0, 1, 1, Matched), (1, 1, 1, Matched)]),
    ),
    (Adds(3), Ranks(2, &[(2, 1, 1, Matched), (2, 1, 2, Refused)])),
    (Adds(3), Faults(ReaderFault::BadReader)),
    // A refusal has no end.
    (Removes(2), Hears(&[(2, 1, 1, Unmatched)])),
    (Removes(2), Faults(ReaderFault::NoReader)),
    (Removes(3), Faults(ReaderFault::NoReader)),
    (Adds(3), Ranks(3, &[(3, 1, 1, Matched), (3, 1, 2, Refused)])),
    (
        Removes(1),
        Hears(&[(1, 1, 1, Unmatched), (1, 1, 2, Unmatched)]),
    ),
    (
        Removes(0),
        Hears(&[(0, 1, 1, Unmatched), (0, 1, 2, Unmatched)]),
    ),
    (Removes(3), Hears(&[(3, 1, 1, Unmatched)])),
    (Takes(Input::Offers(ONE, 4, FIRST)), Hears(&[])),
    (Adds(9), Ranks(4, &[(4, 1, 1, Matched), (4, 1, 2, Refused)])),
    (Adds(1), Ranks(5, &[(5, 1, 1, Matched), (5, 1, 2, Refused)])),
];

#[test]
fn readers_come_and_go(rt: HostRuntime) -> Result<(), Fail> {
    let (untold, matched) = first_untold(rt.alloc(), &[], &COME_AND_GO)?;
    assert_eq!(rt; untold, None);
    assert!(rt; matched.as_slice() == [4, 5].as_slice());
    Ok(())
}

/// The first reader has a fixed match with the first writer, and goes. Its entity comes again,
/// without that match.
const FIXED_MATCH_GOES: [(Act, Told); 7] = [
    (Takes(Input::Comes(ONE, INFINITE)), Hears(&[])),
    (
        Takes(Input::Offers(ONE, 1, FIRST)),
        Hears(&[(1, 1, 1, Matched)]),
    ),
    (Removes(0), Hears(&[])),
    (
        Takes(Input::OffersCircles(ONE, 2, FIRST)),
        Hears(&[(1, 1, 1, Unmatched)]),
    ),
    (Adds(1), Ranks(2, &[])),
    (
        Takes(Input::Offers(ONE, 3, FIRST)),
        Hears(&[(1, 1, 1, Matched), (2, 1, 1, Matched)]),
    ),
    (Removes(1), Hears(&[(1, 1, 1, Unmatched)])),
];

#[test]
fn a_fixed_match_goes_with_its_reader(rt: HostRuntime) -> Result<(), Fail> {
    let (untold, matched) = first_untold(rt.alloc(), &[FIRST_OF_ONE], &FIXED_MATCH_GOES)?;
    assert_eq!(rt; untold, None);
    assert!(rt; matched.as_slice() == [2].as_slice());
    Ok(())
}

/// A reader comes at the last moment of a lease.
const LEASE_ENDS: [(Act, Told); 6] = [
    (Takes(Input::Comes(ONE, ONE_SECOND)), Hears(&[])),
    (
        Takes(Input::Offers(ONE, 1, FIRST)),
        Hears(&[(0, 1, 1, Matched), (1, 1, 1, Matched)]),
    ),
    (Takes(Input::Moment(1000)), Hears(&[])),
    (Adds(3), Ranks(2, &[(2, 1, 1, Matched)])),
    (
        Takes(Input::Moment(1001)),
        Hears(&[
            (0, 1, 1, Unmatched),
            (1, 1, 1, Unmatched),
            (2, 1, 1, Unmatched),
        ]),
    ),
    (Removes(2), Hears(&[])),
];

#[test]
fn a_new_reader_hears_the_end_of_a_lease(rt: HostRuntime) -> Result<(), Fail> {
    let (untold, matched) = first_untold(rt.alloc(), &[], &LEASE_ENDS)?;
    assert_eq!(rt; untold, None);
    assert!(rt; matched.is_empty());
    Ok(())
}

/// A configuration with this number of readers of squares.
fn config_of(alloc: Global, readers: u16) -> Result<Config, Fail> {
    let mut config = Config::new(alloc, OURS);
    for key in 0..readers {
        let [high, low] = key.to_be_bytes();
        let entity = EntityId([0, high, low, 7]);
        config.add_reader(ReaderConfig::new(alloc, entity, "Square", "ShapeType")?)?;
    }
    Ok(config)
}

/// Adds a reader of squares with this entity and ownership, and returns its rank, or the fault.
fn added(
    alloc: Global,
    discovery: &mut Discovery,
    entity: [u8; 4],
    ownership: Ownership,
) -> Result<Result<u32, ReaderFault>, Fail> {
    let mut reader = ReaderConfig::new(alloc, EntityId(entity), "Square", "ShapeType")?;
    reader.requested.policies.ownership = ownership;
    match discovery.add_reader(alloc, reader) {
        Ok((rank, _)) => Ok(Ok(rank)),
        Err(fault) => Ok(Err(fault)),
    }
}

/// The results of some readers that come, where two are there, with keys 0 and 1.
const KINDS: [([u8; 4], Ownership, Result<u32, ReaderFault>); 6] = [
    ([0, 0, 2, 2], Ownership::Shared, Err(ReaderFault::BadReader)),
    ([0, 0, 2, 3], Ownership::Shared, Err(ReaderFault::BadReader)),
    ([0, 0, 1, 7], Ownership::Shared, Err(ReaderFault::BadReader)),
    (
        [0, 0, 2, 7],
        Ownership::Exclusive,
        Err(ReaderFault::BadReader),
    ),
    ([0, 0, 1, 4], Ownership::Shared, Ok(2)),
    ([0, 0, 2, 7], Ownership::Shared, Ok(3)),
];

#[test]
fn bad_readers_are_refused(rt: HostRuntime) -> Result<(), Fail> {
    let config = config_of(rt.alloc(), 2)?;
    check(&config)?;
    let mut discovery = Discovery::new(rt.alloc(), &config)?;
    for (entity, ownership, expected) in KINDS {
        let result = added(rt.alloc(), &mut discovery, entity, ownership)?;
        assert_eq!(rt; result, expected);
    }
    assert_eq!(rt; discovery.readers().len(), 4);
    Ok(())
}

/// The results of readers that come where 256 are there, before and after one of them goes.
const BEFORE: [([u8; 4], Result<u32, ReaderFault>); 2] = [
    ([1, 0, 0, 7], Err(ReaderFault::Full)),
    ([1, 0, 0, 2], Err(ReaderFault::Full)),
];

const AFTER: [([u8; 4], Result<u32, ReaderFault>); 3] = [
    ([1, 0, 0, 2], Err(ReaderFault::BadReader)),
    ([0, 0, 7, 7], Ok(256)),
    ([1, 0, 0, 7], Err(ReaderFault::Full)),
];

#[test]
fn at_most_256_readers_are_there(rt: HostRuntime) -> Result<(), Fail> {
    let config = config_of(rt.alloc(), 256)?;
    check(&config)?;
    let mut discovery = Discovery::new(rt.alloc(), &config)?;
    for (entity, expected) in BEFORE {
        let result = added(rt.alloc(), &mut discovery, entity, Ownership::Shared)?;
        assert_eq!(rt; result, expected);
    }
    assert!(rt; discovery.remove_reader(rt.alloc(), 7).is_ok());
    for (entity, expected) in AFTER {
        let result = added(rt.alloc(), &mut discovery, entity, Ownership::Shared)?;
        assert_eq!(rt; result, expected);
    }
    Ok(())
}

/// Adds a reader and removes it, again and again, until one isn't taken. Returns the number of
/// those that were, each of which had the next rank.
fn taken_in_turn(alloc: Global, discovery: &mut Discovery) -> Result<u32, Fail> {
    for rank in 1..5000 {
        match added(alloc, discovery, [1, 0, 0, 7], Ownership::Shared)? {
            Ok(given) if given == rank => {}
            Ok(_) => return Err(Fail::new("another rank")),
            Err(ReaderFault::Full) => return Ok(rank - 1),
            Err(_) => return Err(Fail::new("another fault")),
        }
        let _ended = discovery.remove_reader(alloc, rank)?;
    }
    Err(Fail::new("no end"))
}

#[test]
fn ranks_are_4096_at_most(rt: HostRuntime) -> Result<(), Fail> {
    let config = config_of(rt.alloc(), 1)?;
    check(&config)?;
    let mut discovery = Discovery::new(rt.alloc(), &config)?;
    assert_eq!(rt; taken_in_turn(rt.alloc(), &mut discovery)?, 4095);
    assert_eq!(rt; discovery.readers().len(), 4096);
    Ok(())
}

#[test]
fn faults_have_names(rt: HostRuntime) {
    for (fault, name) in [
        (ReaderFault::Full, "Full"),
        (ReaderFault::BadReader, "BadReader"),
        (ReaderFault::NoReader, "NoReader"),
        (ReaderFault::NoMemory, "NoMemory"),
    ] {
        assert_eq!(rt; fault.name(), name);
    }
}
