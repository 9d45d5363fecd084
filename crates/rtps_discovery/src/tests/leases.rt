//! Tests of participants whose leases end, with octets written by hand.

use super::announcements::OURS;
use super::events::payload_of;
use crate::addressed::{
    ENTITYID_SEDP_BUILTIN_PUBLICATIONS_ANNOUNCER, ENTITYID_SPDP_BUILTIN_PARTICIPANT_ANNOUNCER,
    ENTITYID_UNKNOWN,
};
use crate::{Config, Discovery, MatchChange, ReaderConfig, check};
use rtps_receiver::{Event, EventBody, Whole};
use rtps_types::{EntityId, Guid, GuidPrefix, Locators, MatchChangeKind, Number, Place};
use rtps_wire::{ChangeInfo, Form};
use std::alloc::{AllocError, Allocator, Global};
use std::test::Fail;

/// A participant of theirs, whose prefix is an octet twelve times, and that prefix in hex.
#[derive(Clone, Copy)]
pub(super) struct Peer {
    octet: u8,
    prefix: &'static str,
}

pub(super) const ONE: Peer = Peer {
    octet: 1,
    prefix: "010101010101010101010101",
};

pub(super) const TWO: Peer = Peer {
    octet: 2,
    prefix: "020202020202020202020202",
};

const THREE: Peer = Peer {
    octet: 3,
    prefix: "030303030303030303030303",
};

/// An input of discovery.
#[derive(Clone, Copy)]
pub(super) enum Input {
    /// A record of a participant, with this lease.
    Comes(Peer, &'static str),
    /// The record with this number of a participant's writer of squares, by its entity.
    Offers(Peer, u64, &'static str),
    /// The same, where the writer is best-effort.
    OffersBestEffort(Peer, u64, &'static str),
    /// The same, where the writer is one of circles.
    OffersCircles(Peer, u64, &'static str),
    /// A record that a participant sends and that names another one.
    Misnames(Peer, Peer),
    /// The end of a participant.
    Leaves(Peer),
    /// A moment in milliseconds.
    Moment(u64),
}

use Input::{Comes, Leaves, Misnames, Moment, Offers, OffersBestEffort, OffersCircles};

/// A lease, little-endian: seconds, then units of 2^-32 seconds.
const NO_TIME: &str = "02000800 00000000 00000000";

/// 2147484 units of 2^-32 seconds.
const HALF_A_MILLISECOND: &str = "02000800 00000000 9cc42000";

pub(super) const ONE_SECOND: &str = "02000800 01000000 00000000";

const TWO_SECONDS: &str = "02000800 02000000 00000000";

const THREE_SECONDS: &str = "02000800 03000000 00000000";

/// A negative lease, which counts as zero whatever its fraction.
const MINUS_ONE_SECOND: &str = "02000800 ffffffff ffffffff";

pub(super) const INFINITE: &str = "02000800 ffffff7f ffffffff";

/// One unit less than infinite: 2147483648 seconds, rounded up.
const ALMOST_INFINITE: &str = "02000800 ffffff7f feffffff";

/// No lease is announced, so it is 100 seconds.
const UNSAID: &str = "";

/// The entities of two writers.
pub(super) const FIRST: &str = "00000102";

pub(super) const SECOND: &str = "00000202";

const LITTLE: &str = "00030000";

const SENTINEL: &str = "01000000";

const PARTICIPANT_GUID: &str = "50001000";

const PARTICIPANT: &str = "000001c1";

const ENDPOINT_GUID: &str = "5a001000";

/// Topic Square, type ShapeType.
const SQUARES: &str = "05000c00 07000000 53717561 72650000 \
    07001000 0a000000 53686170 65547970 65000000";

/// Topic Circle, type ShapeType.
const CIRCLES: &str = "05000c00 07000000 43697263 6c650000 \
    07001000 0a000000 53686170 65547970 65000000";

const BEST_EFFORT: &str = "1a000c00 01000000 00000000 00000000";

/// A change of the match of a reader and a writer.
#[derive(Clone, Copy, Debug, PartialEq)]
pub(super) enum Became {
    Matched,
    Unmatched,
    Refused,
}

use Became::{Matched, Unmatched};

/// A change: the rank, the octet of the participant, the third octet of its writer's entity, and
/// the kind of the change.
pub(super) type Heard = (u32, u8, u8, Became);

pub(super) fn heard_of(change: &MatchChange) -> Heard {
    let (writer, became) = match &change.what {
        MatchChangeKind::Match(facts) => (&facts.writer, Matched),
        MatchChangeKind::Unmatch(writer) => (writer, Unmatched),
        MatchChangeKind::Refuse { writer, .. } => (writer, Became::Refused),
    };
    (change.rank, writer.prefix.0[0], writer.entity.0[2], became)
}

/// A participant of ours with two readers of squares.
pub(super) fn two_readers(alloc: Global) -> Result<Config, Fail> {
    let mut config = Config::new(alloc, OURS);
    for entity in [[0, 0, 1, 7], [0, 0, 2, 7]] {
        let reader = ReaderConfig::new(alloc, EntityId(entity), "Square", "ShapeType")?;
        config.add_reader(reader)?;
    }
    Ok(config)
}

/// Returns the record of a participant's writer with this entity, which offers this.
fn offer_of(
    alloc: Global,
    peer: Peer,
    entity: &'static str,
    offers: &[&'static str],
) -> Result<Vec<u8>, Fail> {
    let mut record = payload_of(alloc, &[LITTLE, ENDPOINT_GUID, peer.prefix, entity])?;
    record.extend_from_slice(payload_of(alloc, offers)?.as_slice())?;
    record.extend_from_slice(payload_of(alloc, &[SENTINEL])?.as_slice())?;
    Ok(record)
}

/// Returns the payload of an input.
fn payload_in(alloc: Global, input: Input) -> Result<Vec<u8>, Fail> {
    match input {
        Comes(peer, lease) => payload_of(
            alloc,
            &[
                LITTLE,
                PARTICIPANT_GUID,
                peer.prefix,
                PARTICIPANT,
                lease,
                SENTINEL,
            ],
        ),
        Misnames(_, named) => payload_of(
            alloc,
            &[
                LITTLE,
                PARTICIPANT_GUID,
                named.prefix,
                PARTICIPANT,
                SENTINEL,
            ],
        ),
        Offers(peer, _, entity) => offer_of(alloc, peer, entity, &[SQUARES]),
        OffersBestEffort(peer, _, entity) => {
            offer_of(alloc, peer, entity, &[SQUARES, BEST_EFFORT])
        }
        OffersCircles(peer, _, entity) => offer_of(alloc, peer, entity, &[CIRCLES]),
        Leaves(_) | Moment(_) => Ok(Vec::new(alloc)),
    }
}

/// Returns the event of an input, if it is one.
fn event_in(input: Input, payload: &[u8]) -> Result<Option<Event<'_>>, Fail> {
    let of_participants = ENTITYID_SPDP_BUILTIN_PARTICIPANT_ANNOUNCER;
    let of_writers = ENTITYID_SEDP_BUILTIN_PUBLICATIONS_ANNOUNCER;
    let (peer, writer, number, form, status) = match input {
        Comes(peer, _) | Misnames(peer, _) => (peer, of_participants, 1, Form::Value, 0),
        Offers(peer, number, _)
        | OffersBestEffort(peer, number, _)
        | OffersCircles(peer, number, _) => (peer, of_writers, number, Form::Value, 0),
        Leaves(peer) => (peer, of_participants, 1, Form::Nothing, 1),
        Moment(_) => return Ok(None),
    };
    Ok(Some(Event {
        place: Place {
            datagram: 0,
            submessage: 1,
        },
        source: GuidPrefix([peer.octet; 12]),
        time: None,
        writer,
        reader: ENTITYID_UNKNOWN,
        body: EventBody::Whole(Whole {
            number: Number::new(number).ok_or("no number")?,
            info: ChangeInfo {
                form,
                status,
                hash: None,
            },
            payload,
        }),
    }))
}

/// Advances to a moment, and checks that a lease is due exactly if a participant is removed.
fn expire(alloc: Global, discovery: &mut Discovery, moment: u64) -> Result<Vec<MatchChange>, Fail> {
    let is_due = discovery.is_due(moment);
    let known = discovery.participants().count();
    let ended = discovery.expire(alloc, moment)?;
    if is_due == (discovery.participants().count() == known) {
        return Err(Fail::new("not exact"));
    }
    Ok(ended)
}

/// Processes the event of an input, if it is one, and returns the changes of our readers' matches.
pub(super) fn step<A: Allocator + Copy>(
    alloc: Global,
    heap: A,
    discovery: &mut Discovery<A>,
    input: Input,
) -> Result<Result<Vec<MatchChange<A>, A>, AllocError>, Fail> {
    let payload = payload_in(alloc, input)?;
    let Some(event) = event_in(input, payload.as_slice())? else {
        return Ok(Ok(Vec::new(heap)));
    };
    match discovery.step(heap, discovery.moment(), &event) {
        Ok(effects) => Ok(Ok(effects.changes)),
        Err(refused) => Ok(Err(refused)),
    }
}

/// Processes an input, and returns the changes of our readers' matches.
pub(super) fn take(
    alloc: Global,
    discovery: &mut Discovery,
    input: Input,
) -> Result<Vec<MatchChange>, Fail> {
    if let Moment(moment) = input {
        return expire(alloc, discovery, moment);
    }
    let changes = step(alloc, alloc, discovery, input)??;
    Ok(changes)
}

/// Inputs, one after the other, each with the expected changes of our readers' matches.
type Story<'a> = &'a [(Input, &'a [Heard])];

/// Returns the index of the first input whose result isn't the expected one.
fn first_unheard(
    alloc: Global,
    discovery: &mut Discovery,
    story: Story<'_>,
) -> Result<Option<usize>, Fail> {
    for (at, (input, expected)) in story.iter().enumerate() {
        let mut heard = Vec::new(alloc);
        for change in &take(alloc, discovery, *input)? {
            heard.push(heard_of(change))?;
        }
        if heard.as_slice() != *expected {
            return Ok(Some(at));
        }
    }
    Ok(None)
}

/// Discovery at its start, with these fixed matches of the first reader.
pub(super) fn started(alloc: Global, fixed: &[Guid]) -> Result<Discovery, Fail> {
    let mut config = two_readers(alloc)?;
    for writer in fixed {
        config.add_fixed(0, *writer, Locators::new(Vec::new(alloc)))?;
    }
    check(&config)?;
    Ok(Discovery::new(alloc, &config)?)
}

/// Three participants whose leases end in the opposite order of their prefixes.
const ONE_BY_ONE: [(Input, &[Heard]); 13] = [
    (Comes(ONE, THREE_SECONDS), &[]),
    (Comes(TWO, TWO_SECONDS), &[]),
    (Comes(THREE, ONE_SECOND), &[]),
    (
        Offers(ONE, 1, FIRST),
        &[(0, 1, 1, Matched), (1, 1, 1, Matched)],
    ),
    (
        Offers(TWO, 1, FIRST),
        &[(0, 2, 1, Matched), (1, 2, 1, Matched)],
    ),
    (
        Offers(THREE, 1, FIRST),
        &[(0, 3, 1, Matched), (1, 3, 1, Matched)],
    ),
    (Moment(1000), &[]),
    (Moment(1001), &[(0, 3, 1, Unmatched), (1, 3, 1, Unmatched)]),
    (Moment(2000), &[]),
    (Moment(2001), &[(0, 2, 1, Unmatched), (1, 2, 1, Unmatched)]),
    (Moment(3000), &[]),
    (Moment(3001), &[(0, 1, 1, Unmatched), (1, 1, 1, Unmatched)]),
    (Moment(4000), &[]),
];

/// Their leases end at one moment: the changes are by rank, and then by writer over all of them.
const ALL_AT_ONCE: [(Input, &[Heard]); 8] = [
    (Comes(ONE, THREE_SECONDS), &[]),
    (Comes(TWO, TWO_SECONDS), &[]),
    (Comes(THREE, ONE_SECOND), &[]),
    (
        Offers(THREE, 1, SECOND),
        &[(0, 3, 2, Matched), (1, 3, 2, Matched)],
    ),
    (
        Offers(THREE, 2, FIRST),
        &[(0, 3, 1, Matched), (1, 3, 1, Matched)],
    ),
    (
        Offers(TWO, 1, FIRST),
        &[(0, 2, 1, Matched), (1, 2, 1, Matched)],
    ),
    (
        Offers(ONE, 1, FIRST),
        &[(0, 1, 1, Matched), (1, 1, 1, Matched)],
    ),
    (
        Moment(3001),
        &[
            (0, 1, 1, Unmatched),
            (0, 2, 1, Unmatched),
            (0, 3, 1, Unmatched),
            (0, 3, 2, Unmatched),
            (1, 1, 1, Unmatched),
            (1, 2, 1, Unmatched),
            (1, 3, 1, Unmatched),
            (1, 3, 2, Unmatched),
        ],
    ),
];

#[test]
fn leases_end_one_by_one_and_all_at_once(rt: HostRuntime) -> Result<(), Fail> {
    let mut discovery = started(rt.alloc(), &[])?;
    assert_eq!(rt;
        first_unheard(rt.alloc(), &mut discovery, &ONE_BY_ONE)?,
        None
    );
    let mut discovery = started(rt.alloc(), &[])?;
    assert_eq!(rt;
        first_unheard(rt.alloc(), &mut discovery, &ALL_AT_ONCE)?,
        None
    );
    Ok(())
}

/// A participant is heard at one moment with the first lease and at a later one with the second.
/// The result is the last moment at which it is known, if it is removed at all.
#[derive(Clone, Copy)]
struct Renewal {
    first: (u64, &'static str),
    second: (u64, &'static str),
    last: Option<u64>,
}

const RENEWALS: [Renewal; 9] = [
    // The lease is shortened, lengthened, made infinite and left out.
    Renewal {
        first: (0, THREE_SECONDS),
        second: (500, ONE_SECOND),
        last: Some(1500),
    },
    Renewal {
        first: (0, ONE_SECOND),
        second: (1000, THREE_SECONDS),
        last: Some(4000),
    },
    Renewal {
        first: (0, ONE_SECOND),
        second: (1000, INFINITE),
        last: None,
    },
    Renewal {
        first: (0, INFINITE),
        second: (1000, UNSAID),
        last: Some(101_000),
    },
    // The lease ends with the moment at which it was heard, or half a millisecond later.
    Renewal {
        first: (0, NO_TIME),
        second: (0, NO_TIME),
        last: Some(0),
    },
    Renewal {
        first: (7, ONE_SECOND),
        second: (8, MINUS_ONE_SECOND),
        last: Some(8),
    },
    Renewal {
        first: (7, ONE_SECOND),
        second: (8, HALF_A_MILLISECOND),
        last: Some(9),
    },
    Renewal {
        first: (0, INFINITE),
        second: (1, ALMOST_INFINITE),
        last: Some(2_147_483_648_001),
    },
    // No moment is after the greatest one, so a lease that lasts until then never ends.
    Renewal {
        first: (0, INFINITE),
        second: (u64::MAX - 1, ONE_SECOND),
        last: None,
    },
];

/// Whether a participant is known at a moment, after the moments before.
fn is_known(alloc: Global, discovery: &mut Discovery, moment: u64) -> Result<bool, Fail> {
    let _ended = take(alloc, discovery, Moment(moment))?;
    Ok(discovery.participants().count() == 1)
}

fn ends_as_it_says(alloc: Global, renewal: Renewal) -> Result<bool, Fail> {
    let mut discovery = started(alloc, &[])?;
    for (moment, lease) in [renewal.first, renewal.second] {
        for input in [Moment(moment), Comes(ONE, lease)] {
            let _changes = take(alloc, &mut discovery, input)?;
        }
    }
    match renewal.last {
        Some(last) => Ok(
            is_known(alloc, &mut discovery, last)?
                && !is_known(alloc, &mut discovery, last.saturating_add(1))?,
        ),
        None => is_known(alloc, &mut discovery, u64::MAX),
    }
}

#[test]
fn later_records_renew_leases(rt: HostRuntime) -> Result<(), Fail> {
    for (at, renewal) in RENEWALS.iter().enumerate() {
        assert!(rt; ends_as_it_says(rt.alloc(), *renewal)?, "at {at}");
    }
    Ok(())
}

/// Two records don't renew a lease: one that is ignored since it names another participant, and one
/// of a writer. A moment before an earlier one counts as that one.
const SILENT: [(Input, &[Heard]); 6] = [
    (Moment(500), &[]),
    (Comes(ONE, ONE_SECOND), &[]),
    (Moment(0), &[]),
    (Misnames(ONE, TWO), &[]),
    (
        Offers(ONE, 1, FIRST),
        &[(0, 1, 1, Matched), (1, 1, 1, Matched)],
    ),
    (Moment(1501), &[(0, 1, 1, Unmatched), (1, 1, 1, Unmatched)]),
];

/// A participant leaves, comes again, and keeps silent.
const COMES_AGAIN: [(Input, &[Heard]); 9] = [
    (Comes(ONE, ONE_SECOND), &[]),
    (
        Offers(ONE, 1, FIRST),
        &[(0, 1, 1, Matched), (1, 1, 1, Matched)],
    ),
    (Moment(900), &[]),
    (Leaves(ONE), &[(0, 1, 1, Unmatched), (1, 1, 1, Unmatched)]),
    (Comes(ONE, ONE_SECOND), &[]),
    // Its announcers start again at number 1.
    (
        Offers(ONE, 1, SECOND),
        &[(0, 1, 2, Matched), (1, 1, 2, Matched)],
    ),
    (Moment(1001), &[]),
    (Moment(1900), &[]),
    (Moment(1901), &[(0, 1, 2, Unmatched), (1, 1, 2, Unmatched)]),
];

#[test]
fn what_is_no_sign_of_life(rt: HostRuntime) -> Result<(), Fail> {
    let mut discovery = started(rt.alloc(), &[])?;
    assert_eq!(rt; first_unheard(rt.alloc(), &mut discovery, &SILENT)?, None);
    assert_eq!(rt; discovery.moment(), 1501);
    let mut discovery = started(rt.alloc(), &[])?;
    assert_eq!(rt;
        first_unheard(rt.alloc(), &mut discovery, &COMES_AGAIN)?,
        None
    );
    Ok(())
}

/// The changes for a writer that has a fixed match with the first reader.
const OF_A_FIXED_ONE: [(Input, &[Heard]); 3] = [
    (Comes(ONE, ONE_SECOND), &[]),
    (Offers(ONE, 1, FIRST), &[(1, 1, 1, Matched)]),
    (Moment(1001), &[(1, 1, 1, Unmatched)]),
];

#[test]
fn fixed_matches_outlast_leases(rt: HostRuntime) -> Result<(), Fail> {
    let writer = Guid {
        prefix: GuidPrefix([ONE.octet; 12]),
        entity: EntityId([0, 0, 1, 2]),
    };
    let mut discovery = started(rt.alloc(), &[writer])?;
    assert_eq!(rt;
        first_unheard(rt.alloc(), &mut discovery, &OF_A_FIXED_ONE)?,
        None
    );
    assert_eq!(rt; discovery.matched(writer), [0].as_slice());
    Ok(())
}

#[test]
fn when_a_participant_was_heard(rt: HostRuntime) -> Result<(), Fail> {
    let mut discovery = started(rt.alloc(), &[])?;
    for input in [Moment(100_001), Moment(0), Comes(ONE, ONE_SECOND)] {
        let _changes = take(rt.alloc(), &mut discovery, input)?;
    }
    let heard = discovery.participants().next().map(|(_, one)| one.heard());
    assert_eq!(rt; heard, Some(100_001));
    Ok(())
}

#[test]
fn a_record_is_heard_at_its_moment(rt: HostRuntime) -> Result<(), Fail> {
    let alloc = rt.alloc();
    let mut discovery = started(alloc, &[])?;
    let input = Comes(ONE, ONE_SECOND);
    let payload = payload_in(alloc, input)?;
    let Some(event) = event_in(input, payload.as_slice())? else {
        return Err(Fail::new("no event"));
    };
    discovery.step(alloc, 5_000, &event)?;
    assert_eq!(rt; discovery.moment(), 5_000);
    // A moment that is below an earlier one counts as the greatest.
    discovery.step(alloc, 0, &event)?;
    assert!(rt; !discovery.is_due(6_000) && discovery.is_due(6_001));
    Ok(())
}
