//! Tests of leases that end, before a datagram or at a tick.

ghost use Rattle.std.specs.Prelude.{◌≤◌, IfOk, length};

use super::announced::{Offer, Says, datagram_of};
use super::matching::{Unlike, status, two_unlike};
use super::{HEADER, Line, SENDER, Said, are_lines};
use crate::*;
use dds_topic::{Shape, Shapes};
use std::alloc::Global;
use std::test::Fail;

/// Each octet of two other peers.
const SECOND: u8 = 0x0c;

const THIRD: u8 = 0x0d;

/// An input of an engine.
#[derive(Clone, Copy)]
pub(super) enum Given {
    /// A datagram of the peer with this octet, which came at this moment.
    Came(u64, u8, &'static [Says]),
    /// A datagram without a header, which came at this moment.
    Headless(u64),
    /// A moment at which no datagram came.
    Tick(u64),
}

use Given::{Came, Headless, Tick};

/// An input, its reports in order, and the matches after it: the rank and the third octet of the
/// writer's entity.
type Row = (Given, &'static [Line], &'static [(u32, u8)]);

/// Returns a datagram of these submessages from the peer with this octet.
pub(super) fn datagram_from(alloc: Global, peer: u8, parts: &[Says]) -> Result<Vec<u8>, Fail>
    ensures { IfOk result (λ octets. length octets.items ≤ 65507) }
{
    let mut octets = Vec::new(alloc);
    for word in datagram_of(alloc, parts)?.as_slice().chunks(4) {
        if word == [SENDER; 4].as_slice() {
            octets.extend_from_slice(&[peer; 4])?;
        } else {
            octets.extend_from_slice(word)?;
        }
    }
    if octets.len() > 65_507 {
        return Err(Fail::new("the datagram is too long"));
    }
    Ok(octets)
}

/// Returns the reports of a datagram: by [`SerialEngine::take`] and then
/// [`Outcome::in_order`](crate::Outcome::in_order), or at once.
fn reports_of_datagram(
    alloc: Global,
    engine: &mut SerialEngine<Shapes>,
    datagram: Datagram<'_>,
    dealt: bool,
) -> Result<Vec<Report<Shape>>, Fail>
    requires { length datagram.bytes.now ≤ 65507 }
{
    if dealt {
        return Ok(engine.take(alloc, datagram)?.in_order(alloc)?);
    }
    let mut reports = Vec::new(alloc);
    engine.take_in_order(alloc, datagram, &mut reports)?;
    Ok(reports)
}

/// The same for a tick.
fn reports_of_tick(
    alloc: Global,
    engine: &mut SerialEngine<Shapes>,
    moment: u64,
    dealt: bool,
) -> Result<Vec<Report<Shape>>, Fail> {
    if dealt {
        return Ok(engine.tick(alloc, moment)?.in_order(alloc)?);
    }
    let mut reports = Vec::new(alloc);
    engine.tick_in_order(alloc, moment, &mut reports)?;
    Ok(reports)
}

/// Returns the reports of an input, in one of both ways.
pub(super) fn reports_of(
    alloc: Global,
    engine: &mut SerialEngine<Shapes>,
    given: Given,
    dealt: bool,
) -> Result<Vec<Report<Shape>>, Fail> {
    match given {
        Came(moment, peer, parts) => {
            let octets = datagram_from(alloc, peer, parts)?;
            let bytes = octets.as_slice();
            reports_of_datagram(alloc, engine, Datagram { moment, bytes }, dealt)
        }
        Headless(moment) => {
            let bytes = &HEADER[..19];
            reports_of_datagram(alloc, engine, Datagram { moment, bytes }, dealt)
        }
        Tick(moment) => reports_of_tick(alloc, engine, moment, dealt),
    }
}

/// Whether the matches are exactly these.
pub(super) fn are_matches(
    alloc: Global,
    engine: &SerialEngine<Shapes>,
    expected: &[(u32, u8)],
) -> Result<bool, Fail> {
    let matches = engine.matches(alloc)?;
    Ok(
        matches.len() == expected.len()
            && matches.iter().zip(expected.iter()).all(|((rank, writer), expected)| (
                *rank,
                writer.entity.0[2],
            ) == *expected),
    )
}

/// Returns the index of the first row whose results an engine doesn't have.
fn first_unmet(
    alloc: Global,
    engine: &mut SerialEngine<Shapes>,
    rows: &[Row],
    dealt: bool,
) -> Result<Option<usize>, Fail> {
    for (at, (given, lines, matches)) in rows.iter().enumerate() {
        let reports = reports_of(alloc, engine, *given, dealt)?;
        if !are_lines(&reports, lines) || !are_matches(alloc, engine, matches)? {
            return Ok(Some(at));
        }
    }
    Ok(None)
}

/// Like [`first_unmet`], for a new engine, whose first reader reads squares and whose second one
/// circles.
fn unmet_from_new(alloc: Global, rows: &[Row], dealt: bool) -> Result<Option<usize>, Fail> {
    let mut engine = SerialEngine::new(alloc, two_unlike(alloc, Unlike::Topics)?, Shapes)?;
    first_unmet(alloc, &mut engine, rows, dealt)
}

/// Like [`unmet_from_new`], for an engine whose outcomes are put in order, and one that reports at
/// once.
fn unmet(alloc: Global, rows: &[Row]) -> Result<[Option<usize>; 2], Fail> {
    Ok([
        unmet_from_new(alloc, rows, true)?,
        unmet_from_new(alloc, rows, false)?,
    ])
}

/// The peer at the moment 0, and its writer at the moment 1. Its lease is 100,000 milliseconds.
const PEER: Row = (Came(0, SENDER, &[Says::Comes]), &[], &[]);

const WRITER: Row = (
    Came(1, SENDER, &[Says::Offers(1, 1, Offer::Square)]),
    &[(Some(0), 1, 1, Said::Matched(1))],
    &[(0, 1)],
);

/// The lease ends after this moment.
const LEASE_STANDS: [Row; 3] = [
    PEER,
    WRITER,
    (
        Came(100_000, SENDER, &[Says::Blue(1, 1)]),
        &[(Some(0), 2, 1, Said::Blue(1))],
        &[(0, 1)],
    ),
];

/// It ends before the events of the datagram.
const LEASE_ENDS: [Row; 3] = [
    PEER,
    WRITER,
    (
        Came(100_001, SENDER, &[Says::Blue(1, 1)]),
        &[(Some(0), 2, 0, Said::Unmatched(1))],
        &[],
    ),
];

/// A tick has the number of the next datagram.
const TICK: [Row; 4] = [
    PEER,
    WRITER,
    (Tick(100_000), &[], &[(0, 1)]),
    (Tick(100_001), &[(Some(0), 2, 0, Said::Unmatched(1))], &[]),
];

/// A moment below an earlier one counts as the greatest so far.
const GREATEST_MOMENT: [Row; 3] = [
    (Came(100_001, SENDER, &[Says::Comes]), &[], &[]),
    (
        Came(0, SENDER, &[Says::Offers(1, 1, Offer::Square)]),
        &[(Some(0), 1, 1, Said::Matched(1))],
        &[(0, 1)],
    ),
    (
        Came(200_001, SENDER, &[Says::Blue(1, 1)]),
        &[(Some(0), 2, 1, Said::Blue(1))],
        &[(0, 1)],
    ),
];

/// A datagram without a header is one of which nobody was heard.
const HEADLESS: [Row; 3] = [
    PEER,
    WRITER,
    (
        Headless(100_001),
        &[(Some(0), 2, 0, Said::Unmatched(1))],
        &[],
    ),
];

#[test]
fn leases_stand_and_end(rt: HostRuntime) -> Result<(), Fail> {
    assert_eq!(rt; unmet(rt.alloc(), &LEASE_STANDS)?, [None, None]);
    assert_eq!(rt; unmet(rt.alloc(), &LEASE_ENDS)?, [None, None]);
    assert_eq!(rt; unmet(rt.alloc(), &TICK)?, [None, None]);
    assert_eq!(rt; unmet(rt.alloc(), &GREATEST_MOMENT)?, [None, None]);
    assert_eq!(rt; unmet(rt.alloc(), &HEADLESS)?, [None, None]);
    Ok(())
}

/// Each of two ticks and the datagram after them ends one lease of three. Their places are equal,
/// so the order is that of the inputs, while the ranks fall and rise.
const EQUAL_PLACES: [Row; 6] = [
    (
        Came(0, SENDER, &[Says::Comes, Says::Offers(1, 1, Offer::Circle)]),
        &[(Some(1), 0, 2, Said::Matched(1))],
        &[(1, 1)],
    ),
    (
        Came(
            10,
            SECOND,
            &[Says::Comes, Says::Offers(1, 2, Offer::Square)],
        ),
        &[(Some(0), 1, 2, Said::Matched(2))],
        &[(0, 2), (1, 1)],
    ),
    (
        Came(20, THIRD, &[Says::Comes, Says::Offers(1, 3, Offer::Circle)]),
        &[(Some(1), 2, 2, Said::Matched(3))],
        &[(0, 2), (1, 1), (1, 3)],
    ),
    (
        Tick(100_001),
        &[(Some(1), 3, 0, Said::Unmatched(1))],
        &[(0, 2), (1, 3)],
    ),
    (
        Tick(100_011),
        &[(Some(0), 3, 0, Said::Unmatched(2))],
        &[(1, 3)],
    ),
    (
        Came(100_021, SENDER, &[]),
        &[(Some(1), 3, 0, Said::Unmatched(3))],
        &[],
    ),
];

#[test]
fn equal_places_in_the_order_of_the_inputs(rt: HostRuntime) -> Result<(), Fail> {
    assert_eq!(rt; unmet(rt.alloc(), &EQUAL_PLACES)?, [None, None]);
    Ok(())
}

/// A record in the datagram that ends the lease comes after its end: the peer is known anew, with
/// announcers that begin with number 1, and without its writers.
const KNOWN_ANEW: [Row; 4] = [
    PEER,
    WRITER,
    (
        Came(100_001, SENDER, &[Says::Comes, Says::Blue(1, 1)]),
        &[(Some(0), 2, 0, Said::Unmatched(1))],
        &[],
    ),
    (
        Came(
            100_002,
            SENDER,
            &[Says::Offers(1, 1, Offer::Square), Says::Blue(1, 1)],
        ),
        &[
            (Some(0), 3, 1, Said::Matched(1)),
            (Some(0), 3, 2, Said::Blue(1)),
        ],
        &[(0, 1)],
    ),
];

/// A record in time renews the lease.
const RENEWED: [Row; 5] = [
    PEER,
    WRITER,
    (Came(60_000, SENDER, &[Says::Comes]), &[], &[(0, 1)]),
    (Tick(160_000), &[], &[(0, 1)]),
    (Tick(160_001), &[(Some(0), 3, 0, Said::Unmatched(1))], &[]),
];

#[test]
fn records_renew_leases(rt: HostRuntime) -> Result<(), Fail> {
    assert_eq!(rt; unmet(rt.alloc(), &KNOWN_ANEW)?, [None, None]);
    assert_eq!(rt; unmet(rt.alloc(), &RENEWED)?, [None, None]);
    Ok(())
}

/// Returns the greatest moment, and the numbers of known participants and writers.
fn known(engine: &SerialEngine<Shapes>) -> (u64, usize, usize) {
    let discovery = engine.discovery();
    let participants = discovery.participants().count();
    (
        discovery.moment(),
        participants,
        discovery.writers().count(),
    )
}

/// The end of the lease after [`LEASE_STANDS`].
const LATER: [Row; 1] = [(Tick(100_001), &[(Some(0), 3, 0, Said::Unmatched(1))], &[])];

/// Whether an engine shows the statuses and what is known before the lease ends, and after it.
fn shows_both(alloc: Global, engine: &mut SerialEngine<Shapes>) -> Result<bool, Fail> {
    let is_before = first_unmet(alloc, engine, &LEASE_STANDS, true)?.is_none()
        && engine.status(0) == status(1, 1, 1)
        && known(engine) == (100_000, 1, 1);
    Ok(
        is_before
            && first_unmet(alloc, engine, &LATER, true)?.is_none()
            && engine.status(0) == status(1, 0, 1)
            && engine.status(1) == status(0, 0, 0)
            && known(engine) == (100_001, 0, 0),
    )
}

/// Like [`shows_both`], for a new engine.
fn shows_from_new(alloc: Global) -> Result<bool, Fail> {
    let mut engine = SerialEngine::new(alloc, two_unlike(alloc, Unlike::Topics)?, Shapes)?;
    shows_both(alloc, &mut engine)
}

#[test]
fn what_engines_show_after_a_tick(rt: HostRuntime) -> Result<(), Fail> {
    assert!(rt; shows_from_new(rt.alloc())?);
    laws::matches_agree::<Shape>();
    laws::by_record::<Shape>();
    Ok(())
}
