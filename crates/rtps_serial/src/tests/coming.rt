//! Tests of readers of ours that come and go while an engine runs, with a peer that announces its
//! writers.

use super::announced::{FIRST, Offer, Says};
use super::matching::status;
use super::moments::{Given, are_matches, reports_of};
use super::{Line, SENDER, Said, are_lines, reader_config, writer};
use crate::*;
use dds_qos::Reliability;
use dds_topic::{Shape, Shapes};
use rtps_discovery::{Config, ReaderConfig};
use rtps_reader::Status;
use rtps_types::{EntityId, GuidPrefix, Locators, PolicyId};
use std::alloc::Global;
use std::test::Fail;

/// What an engine is asked to do.
#[derive(Clone, Copy)]
pub(super) enum Act {
    /// It takes a datagram of these submessages, which came at moment 0.
    Takes(&'static [Says]),
    /// This moment passes, at which no datagram came.
    Passes(u64),
    /// A reliable reader of squares comes, with this third octet of its entity.
    Adds(u8),
    /// The reader of this rank goes.
    Removes(u32),
}

/// Its result.
#[derive(Clone, Copy)]
pub(super) enum Told {
    /// These reports, in order.
    Lines(&'static [Line]),
    /// The same, and this rank for the reader that came.
    Ranks(u32, &'static [Line]),
    /// The act is refused.
    Faults(EngineError),
}

use Act::{Adds, Passes, Removes, Takes};
use Told::{Faults, Lines, Ranks};

/// An act, its result, and the matches after it: the rank and the third octet of the writer's
/// entity.
pub(super) type Row = (Act, Told, &'static [(u32, u8)]);

/// The topic of the readers that an engine starts with.
#[derive(Clone, Copy)]
pub(super) enum Start {
    /// One reader of circles.
    Circle,
    /// One reader of squares.
    Square,
    /// One reader of squares, which has a fixed match with the peer's first writer.
    FixedSquare,
}

/// A reliable reader of squares, with this third octet of its entity.
pub(super) fn reader_of_squares(alloc: Global, third: u8) -> Result<ReaderConfig, Fail> {
    let mut reader = reader_config(alloc, Reliability::Reliable, 0)?;
    reader.entity = EntityId([0, 0, third, 7]);
    Ok(reader)
}

/// One reliable reader with the entity 00000107.
fn config_of(alloc: Global, start: Start) -> Result<Config, Fail> {
    let mut config = Config::new(alloc, GuidPrefix([0x0b; 12]));
    let mut reader = reader_of_squares(alloc, 1)?;
    if let Start::Circle = start {
        reader.topic = String::from_str(alloc, "Circle")?;
    }
    config.add_reader(reader)?;
    if let Start::FixedSquare = start {
        config.add_fixed(0, writer(SENDER), Locators::new(Vec::new(alloc)))?;
    }
    Ok(config)
}

/// Whether the result of a reader's coming is the expected one.
fn adds(
    alloc: Global,
    engine: &mut SerialEngine<Shapes>,
    third: u8,
    told: Told,
) -> Result<bool, Fail> {
    let reader = reader_of_squares(alloc, third)?;
    match (engine.add_reader(alloc, reader), told) {
        (Ok((rank, outcome)), Ranks(given, lines)) => {
            let reports = outcome.in_order(alloc)?;
            Ok(rank == given && are_lines(&reports, lines))
        }
        (Err(fault), Faults(expected)) => Ok(fault == expected),
        _ => Ok(false),
    }
}

/// Whether the result of a reader's going is the expected one.
fn removes(
    alloc: Global,
    engine: &mut SerialEngine<Shapes>,
    rank: u32,
    told: Told,
) -> Result<bool, Fail> {
    match (engine.remove_reader(alloc, rank), told) {
        (Ok(outcome), Lines(lines)) => {
            let reports = outcome.in_order(alloc)?;
            Ok(are_lines(&reports, lines))
        }
        (Err(fault), Faults(expected)) => Ok(fault == expected),
        _ => Ok(false),
    }
}

/// Whether the reports of an input are the expected ones: of an outcome that is put in order, or
/// at once.
fn takes(
    alloc: Global,
    engine: &mut SerialEngine<Shapes>,
    given: Given,
    told: Told,
    dealt: bool,
) -> Result<bool, Fail> {
    let Lines(lines) = told else {
        return Ok(false);
    };
    let reports = reports_of(alloc, engine, given, dealt)?;
    Ok(are_lines(&reports, lines))
}

/// Whether an act has the expected result.
fn does(
    alloc: Global,
    engine: &mut SerialEngine<Shapes>,
    act: Act,
    told: Told,
    dealt: bool,
) -> Result<bool, Fail> {
    match act {
        Takes(parts) => takes(alloc, engine, Given::Came(0, SENDER, parts), told, dealt),
        Passes(moment) => takes(alloc, engine, Given::Tick(moment), told, dealt),
        Adds(third) => adds(alloc, engine, third, told),
        Removes(rank) => removes(alloc, engine, rank, told),
    }
}

/// Returns the index of the first row whose results an engine doesn't have.
pub(super) fn first_unmet(
    alloc: Global,
    engine: &mut SerialEngine<Shapes>,
    rows: &[Row],
    dealt: bool,
) -> Result<Option<usize>, Fail> {
    for (at, (act, told, matches)) in rows.iter().enumerate() {
        if !does(alloc, engine, *act, *told, dealt)? || !are_matches(alloc, engine, matches)? {
            return Ok(Some(at));
        }
    }
    Ok(None)
}

/// Whether the ranks that were given are those of these statuses, and no more.
pub(super) fn are_statuses(engine: &SerialEngine<Shapes>, statuses: &[Option<Status>]) -> bool {
    let ranks = engine.readers();
    ranks as usize == statuses.len()
        && (0..ranks)
            .zip(statuses.iter())
            .all(|(rank, status)| engine.status(rank) == *status)
        && engine.status(ranks).is_none()
}

/// Like [`first_unmet`], for a new engine that has the expected statuses after the rows. Without
/// them the result is the number of rows.
fn unmet_from_new(
    alloc: Global,
    start: Start,
    rows: &[Row],
    statuses: &[Option<Status>],
    dealt: bool,
) -> Result<Option<usize>, Fail> {
    let mut engine = SerialEngine::new(alloc, config_of(alloc, start)?, Shapes)?;
    unmet_with(alloc, &mut engine, rows, statuses, dealt)
}

/// The same for an engine.
fn unmet_with(
    alloc: Global,
    engine: &mut SerialEngine<Shapes>,
    rows: &[Row],
    statuses: &[Option<Status>],
    dealt: bool,
) -> Result<Option<usize>, Fail> {
    let unmet = first_unmet(alloc, engine, rows, dealt)?;
    if unmet.is_none() && !are_statuses(engine, statuses) {
        return Ok(Some(rows.len()));
    }
    Ok(unmet)
}

/// Like [`unmet_from_new`], for an engine whose outcomes are put in order, and one that reports at
/// once.
fn unmet(
    alloc: Global,
    start: Start,
    rows: &[Row],
    statuses: &[Option<Status>],
) -> Result<[Option<usize>; 2], Fail> {
    Ok([
        unmet_from_new(alloc, start, rows, statuses, true)?,
        unmet_from_new(alloc, start, rows, statuses, false)?,
    ])
}

/// The peer comes, and announces a writer of squares. No reader of squares is there.
const PEER: Row = (Takes(&[Says::Comes]), Lines(&[]), &[]);

const WRITER: Row = (Takes(&[Says::Offers(1, 1, Offer::Square)]), Lines(&[]), &[]);

/// A reader of squares comes, goes, and comes again. Each time it receives only what comes while
/// it is there.
const COMES_AND_GOES: [Row; 8] = [
    PEER,
    WRITER,
    (
        Adds(2),
        Ranks(1, &[(Some(1), 2, 0, Said::Matched(1))]),
        &[(1, 1)],
    ),
    (
        Takes(&[Says::Blue(1, 1)]),
        Lines(&[(Some(1), 2, 1, Said::Blue(1))]),
        &[(1, 1)],
    ),
    (
        Removes(1),
        Lines(&[(Some(1), 3, 0, Said::Unmatched(1))]),
        &[],
    ),
    (Takes(&[Says::Blue(1, 2)]), Lines(&[]), &[]),
    (
        Adds(2),
        Ranks(2, &[(Some(2), 4, 0, Said::Matched(1))]),
        &[(2, 1)],
    ),
    // The writer doesn't offer the numbers 1 and 2 any more.
    (
        Takes(&[Says::Blue(1, 3), Says::FinalHeartbeat(FIRST, [3, 3, 1])]),
        Lines(&[(Some(2), 4, 2, Said::Blue(3))]),
        &[(2, 1)],
    ),
];

#[test]
fn a_reader_has_what_comes_while_it_is_there(rt: HostRuntime) -> Result<(), Fail> {
    let statuses = [status(0, 0, 0), None, status(1, 1, 1)];
    let unmet = unmet(rt.alloc(), Start::Circle, &COMES_AND_GOES, &statuses)?;
    assert_eq!(rt; unmet, [None, None]);
    Ok(())
}

/// Three writers, announced in falling order of their octets: one of circles, one of squares, and
/// one of squares that offers too little. A reader that goes reports no refusal again.
const THREE_WRITERS: [Row; 6] = [
    (
        Takes(&[Says::Comes, Says::Offers(1, 3, Offer::Circle)]),
        Lines(&[(Some(0), 0, 2, Said::Matched(3))]),
        &[(0, 3)],
    ),
    (
        Takes(&[
            Says::Offers(2, 2, Offer::Square),
            Says::Offers(3, 1, Offer::BestEffortSquare),
        ]),
        Lines(&[]),
        &[(0, 3)],
    ),
    (
        Adds(2),
        Ranks(
            1,
            &[
                (Some(1), 2, 0, Said::Refused(1)),
                (Some(1), 2, 0, Said::Matched(2)),
            ],
        ),
        &[(0, 3), (1, 2)],
    ),
    (
        Takes(&[Says::Blue(1, 1), Says::Blue(2, 1), Says::Blue(3, 1)]),
        Lines(&[
            (Some(1), 2, 2, Said::Blue(1)),
            (Some(0), 2, 3, Said::Blue(1)),
        ]),
        &[(0, 3), (1, 2)],
    ),
    (
        Adds(3),
        Ranks(
            2,
            &[
                (Some(2), 3, 0, Said::Refused(1)),
                (Some(2), 3, 0, Said::Matched(2)),
            ],
        ),
        &[(0, 3), (1, 2), (2, 2)],
    ),
    (
        Removes(2),
        Lines(&[(Some(2), 3, 0, Said::Unmatched(2))]),
        &[(0, 3), (1, 2)],
    ),
];

/// The status of a reader that was refused by one writer for its reliability, by its matches and
/// its samples.
fn refused_once(matches: u32, samples: u32) -> Option<Status> {
    Some(Status {
        matched_total: matches,
        matched_now: u64::from(matches),
        incompatible_total: 1,
        last_policy: Some(PolicyId::Reliability),
        lost_total: 0,
        samples,
    })
}

#[test]
fn a_reader_is_told_of_known_writers_in_the_order_of_their_octets(
    rt: HostRuntime,
) -> Result<(), Fail> {
    let statuses = [status(1, 1, 1), refused_once(1, 1), None];
    let unmet = unmet(rt.alloc(), Start::Circle, &THREE_WRITERS, &statuses)?;
    assert_eq!(rt; unmet, [None, None]);
    Ok(())
}

/// The one writer of squares offers too little, so the reader that goes has no match to end.
const REFUSED_ALONE: [Row; 5] = [
    PEER,
    (
        Takes(&[Says::Offers(1, 1, Offer::BestEffortSquare)]),
        Lines(&[]),
        &[],
    ),
    (Adds(2), Ranks(1, &[(Some(1), 2, 0, Said::Refused(1))]), &[]),
    (Removes(1), Lines(&[]), &[]),
    (Adds(2), Ranks(2, &[(Some(2), 2, 0, Said::Refused(1))]), &[]),
];

#[test]
fn a_refusal_has_no_end(rt: HostRuntime) -> Result<(), Fail> {
    let statuses = [status(0, 0, 0), None, refused_once(0, 0)];
    let unmet = unmet(rt.alloc(), Start::Circle, &REFUSED_ALONE, &statuses)?;
    assert_eq!(rt; unmet, [None, None]);
    Ok(())
}

/// The first reader has a fixed match, and goes. Nothing that its writer sends or announces after
/// that is for it. Its entity comes again, without the fixed match.
const FIXED_MATCH_GOES: [Row; 8] = [
    (
        Takes(&[Says::Comes, Says::Offers(1, 1, Offer::Square)]),
        Lines(&[]),
        &[(0, 1)],
    ),
    (
        Takes(&[Says::Blue(1, 1)]),
        Lines(&[(Some(0), 1, 1, Said::Blue(1))]),
        &[(0, 1)],
    ),
    (Removes(0), Lines(&[]), &[]),
    (Takes(&[Says::Blue(1, 2)]), Lines(&[]), &[]),
    (Takes(&[Says::Withdraws(2, 1)]), Lines(&[]), &[]),
    (Takes(&[Says::Offers(3, 1, Offer::Square)]), Lines(&[]), &[]),
    (
        Adds(1),
        Ranks(1, &[(Some(1), 5, 0, Said::Matched(1))]),
        &[(1, 1)],
    ),
    (
        Takes(&[Says::Withdraws(4, 1)]),
        Lines(&[(Some(1), 5, 1, Said::Unmatched(1))]),
        &[],
    ),
];

#[test]
fn a_fixed_match_ends_untold_with_its_reader(rt: HostRuntime) -> Result<(), Fail> {
    let statuses = [None, status(1, 0, 0)];
    let unmet = unmet(rt.alloc(), Start::FixedSquare, &FIXED_MATCH_GOES, &statuses)?;
    assert_eq!(rt; unmet, [None, None]);
    Ok(())
}

/// Two readers of one writer. The first one goes while number 2 waits for number 1 in both.
const ONE_WRITER_OF_TWO: [Row; 6] = [
    (
        Takes(&[Says::Comes, Says::Offers(1, 1, Offer::Square)]),
        Lines(&[(Some(0), 0, 2, Said::Matched(1))]),
        &[(0, 1)],
    ),
    (
        Adds(2),
        Ranks(1, &[(Some(1), 1, 0, Said::Matched(1))]),
        &[(0, 1), (1, 1)],
    ),
    (
        Takes(&[Says::Blue(1, 1)]),
        Lines(&[
            (Some(0), 1, 1, Said::Blue(1)),
            (Some(1), 1, 1, Said::Blue(1)),
        ]),
        &[(0, 1), (1, 1)],
    ),
    (Takes(&[Says::Blue(1, 3)]), Lines(&[]), &[(0, 1), (1, 1)]),
    (
        Removes(0),
        Lines(&[(Some(0), 3, 0, Said::Unmatched(1))]),
        &[(1, 1)],
    ),
    (
        Takes(&[Says::Blue(1, 2)]),
        Lines(&[
            (Some(1), 3, 1, Said::Blue(2)),
            (Some(1), 3, 1, Said::Blue(3)),
        ]),
        &[(1, 1)],
    ),
];

#[test]
fn a_reader_that_goes_takes_no_match_of_another_with_it(rt: HostRuntime) -> Result<(), Fail> {
    let statuses = [None, status(1, 1, 3)];
    let unmet = unmet(rt.alloc(), Start::Square, &ONE_WRITER_OF_TWO, &statuses)?;
    assert_eq!(rt; unmet, [None, None]);
    Ok(())
}

/// A reader comes after the last tick within the lease of the peer, which is 100 seconds. The tick
/// that ends it has the same place.
const BETWEEN_TICKS: [Row; 5] = [
    PEER,
    WRITER,
    (Passes(100_000), Lines(&[]), &[]),
    (
        Adds(2),
        Ranks(1, &[(Some(1), 2, 0, Said::Matched(1))]),
        &[(1, 1)],
    ),
    (
        Passes(100_001),
        Lines(&[(Some(1), 2, 0, Said::Unmatched(1))]),
        &[],
    ),
];

#[test]
fn a_reader_comes_between_two_ticks_at_their_place(rt: HostRuntime) -> Result<(), Fail> {
    let statuses = [status(0, 0, 0), status(1, 0, 0)];
    let unmet = unmet(rt.alloc(), Start::Circle, &BETWEEN_TICKS, &statuses)?;
    assert_eq!(rt; unmet, [None, None]);
    Ok(())
}

/// The last reader goes. Discovery goes on, so the next reader is matched with the writer that was
/// announced meanwhile.
const NO_READER_LEFT: [Row; 6] = [
    (Removes(0), Lines(&[]), &[]),
    PEER,
    WRITER,
    (Takes(&[Says::Blue(1, 1)]), Lines(&[]), &[]),
    (
        Adds(2),
        Ranks(1, &[(Some(1), 3, 0, Said::Matched(1))]),
        &[(1, 1)],
    ),
    (
        Takes(&[Says::Blue(1, 2), Says::FinalHeartbeat(FIRST, [2, 2, 1])]),
        Lines(&[(Some(1), 3, 2, Said::Blue(2))]),
        &[(1, 1)],
    ),
];

#[test]
fn an_engine_without_readers_goes_on(rt: HostRuntime) -> Result<(), Fail> {
    let statuses = [None, status(1, 1, 1)];
    let unmet = unmet(rt.alloc(), Start::Square, &NO_READER_LEFT, &statuses)?;
    assert_eq!(rt; unmet, [None, None]);
    Ok(())
}

/// Returns the number of notices in each list of the outcomes of four acts: a reader comes, the
/// first one goes, a datagram, and a tick that ends the lease of the peer.
fn lists_of(alloc: Global, engine: &mut SerialEngine<Shapes>) -> Result<Vec<Vec<usize>>, Fail> {
    let mut lists = Vec::new(alloc);
    let (_rank, outcome) = engine.add_reader(alloc, reader_of_squares(alloc, 2)?)?;
    lists.push(lengths_of(alloc, &outcome)?)?;
    let outcome = engine.remove_reader(alloc, 0)?;
    lists.push(lengths_of(alloc, &outcome)?)?;
    let empty = Datagram {
        moment: 0,
        bytes: &[],
    };
    let outcome = engine.take(alloc, empty)?;
    lists.push(lengths_of(alloc, &outcome)?)?;
    let outcome = engine.tick(alloc, 100_001)?;
    lists.push(lengths_of(alloc, &outcome)?)?;
    Ok(lists)
}

/// Returns the number of notices of each list.
fn lengths_of(alloc: Global, outcome: &Outcome<Shape>) -> Result<Vec<usize>, Fail> {
    let mut lengths = Vec::new(alloc);
    for notices in &outcome.notices {
        lengths.push(notices.len())?;
    }
    Ok(lengths)
}

/// Like [`lists_of`], for a new engine whose reader is matched with the writer.
fn lists_from_new(alloc: Global) -> Result<Vec<Vec<usize>>, Fail> {
    let mut engine = SerialEngine::new(alloc, config_of(alloc, Start::Square)?, Shapes)?;
    if first_unmet(alloc, &mut engine, &ONE_WRITER_OF_TWO[..1], true)?.is_some() {
        return Err(Fail::new("the reader isn't matched"));
    }
    lists_of(alloc, &mut engine)
}

#[test]
fn an_outcome_has_a_list_for_each_rank_that_was_given(rt: HostRuntime) -> Result<(), Fail> {
    let lists = lists_from_new(rt.alloc())?;
    assert_eq!(rt; lists.len(), 4);
    let expected = [[0, 1], [1, 0], [0, 0], [0, 1]];
    for (lengths, expected) in lists.iter().zip(&expected) {
        assert!(rt; lengths.as_slice() == expected.as_slice());
    }
    Ok(())
}
