//! Tests of matches that begin and end while an engine runs, with a peer that announces its
//! writers.

use super::announced::{FIRST, Offer, Says, datagram_of, user};
use super::{Line, SENDER, Said, are_lines, at_start, reader_config};
use crate::*;
use dds_qos::{Partitions, Reliability};
use dds_topic::Shapes;
use rtps_discovery::Config;
use rtps_reader::Status;
use rtps_types::{EntityId, Guid, GuidPrefix};
use std::alloc::Global;
use std::test::Fail;

/// The submessages of a datagram, its reports in order, and the matches after it: the rank and the
/// third octet of the writer's entity.
pub(super) type Row = (&'static [Says], &'static [Line], &'static [(u32, u8)]);

/// A writer of the peer.
fn theirs(key: u8) -> Guid {
    Guid {
        prefix: GuidPrefix([SENDER; 12]),
        entity: EntityId(user(key)),
    }
}

/// How two readers differ.
#[derive(Clone, Copy)]
pub(super) enum Unlike {
    /// The first one reads squares, the second one circles.
    Topics,
    /// Both read squares, the first one in partition A, the second one in B.
    Partitions,
}

/// Two reliable readers and no fixed match.
pub(super) fn two_unlike(alloc: Global, what: Unlike) -> Result<Config, Fail> {
    let mut config = Config::new(alloc, GuidPrefix([0x0b; 12]));
    for (rank, topic, partition) in [(0, "Square", "A"), (1, "Circle", "B")] {
        let mut reader = reader_config(alloc, Reliability::Reliable, rank)?;
        match what {
            Unlike::Topics => reader.topic = String::from_str(alloc, topic)?,
            Unlike::Partitions => reader.requested.partitions = one_partition(alloc, partition)?,
        }
        config.add_reader(reader)?;
    }
    Ok(config)
}

fn one_partition(alloc: Global, name: &str) -> Result<Partitions, Fail> {
    let mut names = Vec::new(alloc);
    names.push(String::from_str(alloc, name)?)?;
    Ok(Partitions::new(names))
}

/// Whether the matches are exactly these.
fn are_matches(
    alloc: Global,
    engine: &SerialEngine<Shapes>,
    expected: &[(u32, u8)],
) -> Result<bool, Fail> {
    let matches = engine.matches(alloc)?;
    Ok(
        matches.len() == expected.len()
            && matches
                .iter()
                .zip(expected.iter())
                .all(|(found, (rank, key))| *found == (*rank, theirs(*key))),
    )
}

/// Whether an engine has the expected results for each row, one after another.
pub(super) fn meets(
    alloc: Global,
    engine: &mut SerialEngine<Shapes>,
    rows: &[Row],
) -> Result<bool, Fail> {
    for (parts, lines, matches) in rows {
        let octets = datagram_of(alloc, parts)?;
        let mut reports = Vec::new(alloc);
        engine.take_in_order(alloc, at_start(octets.as_slice()), &mut reports)?;
        if !are_lines(&reports, lines) || !are_matches(alloc, engine, matches)? {
            return Ok(false);
        }
    }
    Ok(true)
}

/// The status of a reader by its matches so far, its matches now, and the number of its
/// samples.
pub(super) fn status(matched_total: u32, matched_now: u64, samples: u32) -> Option<Status> {
    Some(Status {
        matched_total,
        matched_now,
        incompatible_total: 0,
        last_policy: None,
        lost_total: 0,
        samples,
    })
}

/// Like [`meets`], and whether the two readers have these statuses after the rows.
fn meets_with(
    alloc: Global,
    engine: &mut SerialEngine<Shapes>,
    rows: &[Row],
    statuses: [Option<Status>; 2],
) -> Result<bool, Fail> {
    Ok(
        meets(alloc, engine, rows)?
            && engine.status(0) == statuses[0]
            && engine.status(1) == statuses[1],
    )
}

/// Like [`meets_with`], for a new engine.
pub(super) fn meets_from_new(
    alloc: Global,
    what: Unlike,
    rows: &[Row],
    statuses: [Option<Status>; 2],
) -> Result<bool, Fail> {
    let mut engine = SerialEngine::new(alloc, two_unlike(alloc, what)?, Shapes)?;
    meets_with(alloc, &mut engine, rows, statuses)
}

/// A writer of squares and one of circles.
const TOPICS: [Row; 2] = [
    (
        &[
            Says::Comes,
            Says::Offers(1, 1, Offer::Square),
            Says::Offers(2, 2, Offer::Circle),
            Says::Blue(2, 1),
            Says::Blue(1, 1),
        ],
        &[
            (Some(0), 0, 2, Said::Matched(1)),
            (Some(1), 0, 3, Said::Matched(2)),
            (Some(1), 0, 4, Said::Blue(1)),
            (Some(0), 0, 5, Said::Blue(1)),
        ],
        &[(0, 1), (1, 2)],
    ),
    // No reader is matched with the third writer.
    (
        &[Says::Blue(3, 1), Says::Blue(1, 2)],
        &[(Some(0), 1, 2, Said::Blue(2))],
        &[(0, 1), (1, 2)],
    ),
];

/// A writer in partition A, and one in none, which is the partition with the empty name.
const PARTITIONS: [Row; 1] = [(
    &[
        Says::Comes,
        Says::Offers(1, 1, Offer::SquareIn(b'A')),
        Says::Offers(2, 2, Offer::Square),
        Says::Offers(3, 3, Offer::SquareIn(b'C')),
        Says::Blue(1, 1),
        Says::Blue(2, 1),
        Says::Blue(3, 1),
    ],
    &[
        (Some(0), 0, 2, Said::Matched(1)),
        (Some(0), 0, 5, Said::Blue(1)),
    ],
    &[(0, 1)],
)];

#[test]
fn readers_hear_of_their_own_topics_alone(rt: HostRuntime) -> Result<(), Fail> {
    let statuses = [status(1, 1, 2), status(1, 1, 1)];
    assert!(rt; meets_from_new(rt.alloc(), Unlike::Topics, &TOPICS, statuses)?);
    Ok(())
}

#[test]
fn a_partition_in_common_matches(rt: HostRuntime) -> Result<(), Fail> {
    let statuses = [status(1, 1, 1), status(0, 0, 0)];
    assert!(rt; meets_from_new(rt.alloc(), Unlike::Partitions, &PARTITIONS, statuses)?);
    Ok(())
}

/// Rows for an engine, and the counts of its first reader after them: all matches so far, the
/// present matches, and the samples.
type Counted = (&'static [Row], (u32, u64, u32));

/// No rows; the peer and its writer 1, a sample, and the end of the writer; then the writer again,
/// with numbers from 1.
const COMES_AGAIN: [Counted; 6] = [
    (&[], (0, 0, 0)),
    (
        &[(
            &[Says::Comes, Says::Offers(1, 1, Offer::Square)],
            &[(Some(0), 0, 2, Said::Matched(1))],
            &[(0, 1)],
        )],
        (1, 1, 0),
    ),
    (
        &[(
            &[Says::Blue(1, 1)],
            &[(Some(0), 1, 1, Said::Blue(1))],
            &[(0, 1)],
        )],
        (1, 1, 1),
    ),
    (
        &[(
            &[Says::Withdraws(2, 1), Says::Blue(1, 2)],
            &[(Some(0), 2, 1, Said::Unmatched(1))],
            &[],
        )],
        (1, 0, 1),
    ),
    (
        &[(
            &[Says::Offers(3, 1, Offer::Square)],
            &[(Some(0), 3, 1, Said::Matched(1))],
            &[(0, 1)],
        )],
        (2, 1, 1),
    ),
    (
        &[(
            &[Says::Blue(1, 1), Says::Blue(1, 1)],
            &[(Some(0), 4, 1, Said::Blue(1))],
            &[(0, 1)],
        )],
        (2, 1, 2),
    ),
];

/// Returns the index of the first step whose results an engine doesn't have.
fn first_unmet(
    alloc: Global,
    engine: &mut SerialEngine<Shapes>,
    steps: &[Counted],
) -> Result<Option<usize>, Fail> {
    for (at, (rows, (total, now, samples))) in steps.iter().enumerate() {
        if !meets(alloc, engine, rows)? || engine.status(0) != status(*total, *now, *samples) {
            return Ok(Some(at));
        }
    }
    Ok(None)
}

/// Like [`first_unmet`], for a new engine.
fn first_unmet_from_new(alloc: Global, steps: &[Counted]) -> Result<Option<usize>, Fail> {
    let mut engine = SerialEngine::new(alloc, two_unlike(alloc, Unlike::Topics)?, Shapes)?;
    first_unmet(alloc, &mut engine, steps)
}

#[test]
fn a_writer_comes_again_with_numbers_of_its_own(rt: HostRuntime) -> Result<(), Fail> {
    assert_eq!(rt; first_unmet_from_new(rt.alloc(), &COMES_AGAIN)?, None);
    Ok(())
}

/// Submessages of a writer before its match are ignored: its heartbeat has no answer, and its
/// number 1 counts as new after the match begins.
const BEFORE: [Row; 2] = [
    (
        &[
            Says::Blue(1, 1),
            Says::Comes,
            Says::Blue(1, 1),
            Says::Heartbeat(FIRST, [1, 3, 1]),
            Says::Heartbeat(FIRST, [4, 4, 2]),
        ],
        &[],
        &[],
    ),
    (
        &[
            Says::Offers(1, 1, Offer::Square),
            Says::Blue(1, 1),
            Says::Heartbeat(FIRST, [1, 1, 1]),
        ],
        &[
            (Some(0), 1, 1, Said::Matched(1)),
            (Some(0), 1, 2, Said::Blue(1)),
            (Some(0), 1, 3, Said::Answer),
        ],
        &[(0, 1)],
    ),
];

/// Numbers 2 and 3 wait for number 1 when the match ends, by the end of the writer and then by that
/// of its participant. They are dropped, and don't count as lost.
const HELD: [Row; 3] = [
    (
        &[
            Says::Comes,
            Says::Offers(1, 1, Offer::Square),
            Says::Blue(1, 2),
            Says::Blue(1, 3),
            Says::Withdraws(2, 1),
        ],
        &[
            (Some(0), 0, 2, Said::Matched(1)),
            (Some(0), 0, 5, Said::Unmatched(1)),
        ],
        &[],
    ),
    (
        &[
            Says::Offers(3, 1, Offer::Square),
            Says::Blue(1, 2),
            Says::Leaves,
        ],
        &[
            (Some(0), 1, 1, Said::Matched(1)),
            (Some(0), 1, 3, Said::Unmatched(1)),
        ],
        &[],
    ),
    (
        &[
            Says::Comes,
            Says::Offers(1, 1, Offer::Square),
            Says::Blue(1, 1),
        ],
        &[
            (Some(0), 2, 2, Said::Matched(1)),
            (Some(0), 2, 3, Said::Blue(1)),
        ],
        &[(0, 1)],
    ),
];

#[test]
fn nothing_stays_from_before_a_match(rt: HostRuntime) -> Result<(), Fail> {
    let statuses = [status(1, 1, 1), status(0, 0, 0)];
    assert!(rt; meets_from_new(rt.alloc(), Unlike::Topics, &BEFORE, statuses)?);
    Ok(())
}

#[test]
fn what_waits_when_a_match_ends_is_dropped(rt: HostRuntime) -> Result<(), Fail> {
    let statuses = [status(3, 1, 1), status(0, 0, 0)];
    assert!(rt; meets_from_new(rt.alloc(), Unlike::Topics, &HELD, statuses)?);
    Ok(())
}
