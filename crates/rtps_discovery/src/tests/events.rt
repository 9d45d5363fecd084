//! Tests of the effects of events on discovery, with octets written by hand.

use super::announcements::{OURS, PARTICIPANT, THEIRS, octets_of};
use crate::addressed::{
    ENTITYID_SEDP_BUILTIN_PUBLICATIONS_ANNOUNCER, ENTITYID_SEDP_BUILTIN_PUBLICATIONS_DETECTOR,
    ENTITYID_SEDP_BUILTIN_SUBSCRIPTIONS_ANNOUNCER, ENTITYID_SPDP_BUILTIN_PARTICIPANT_ANNOUNCER,
    ENTITYID_UNKNOWN,
};
use crate::{Config, Discovery, MatchChange, ReaderConfig, check};
use dds_qos::Durability;
use rtps_receiver::{Event, EventBody, Whole};
use rtps_types::{EntityId, Guid, KeyHash, Locators, MatchChangeKind, Number, Place};
use rtps_wire::{ChangeInfo, Form};
use std::alloc::{Allocator, Global};
use std::test::Fail;

/// Their writer 00000102.
pub(super) const SQUARES: Guid = Guid {
    prefix: THEIRS,
    entity: EntityId([0, 0, 1, 2]),
};

/// A participant of ours with a reader of squares, reliable and transient local, and one of
/// circles, with default policies.
pub(super) fn two_readers(alloc: Global) -> Result<Config, Fail> {
    let mut config = Config::new(alloc, OURS);
    let squares = ReaderConfig::new(alloc, EntityId([0, 0, 1, 7]), "Square", "ShapeType")?;
    let mut squares = squares.reliable();
    squares.requested.policies.durability = Durability::TransientLocal;
    config.add_reader(squares)?;
    let circles = ReaderConfig::new(alloc, EntityId([0, 0, 2, 7]), "Circle", "ShapeType")?;
    config.add_reader(circles)?;
    Ok(config)
}

/// A change of one of their announcers, its payload in parts.
#[derive(Clone, Copy)]
pub(super) struct Said {
    pub(super) writer: EntityId,
    pub(super) reader: EntityId,
    pub(super) number: u64,
    pub(super) info: ChangeInfo,
    pub(super) payload: &'static [&'static str],
}

/// The first record of the participant.
pub(super) const COMES: Said = Said {
    writer: ENTITYID_SPDP_BUILTIN_PARTICIPANT_ANNOUNCER,
    reader: ENTITYID_UNKNOWN,
    number: 1,
    info: ChangeInfo {
        form: Form::Value,
        status: 0,
        hash: None,
    },
    payload: &[PARTICIPANT],
};

/// Its end, which has no payload.
const LEAVES: Said = Said {
    info: ChangeInfo {
        form: Form::Nothing,
        status: 1,
        hash: None,
    },
    payload: &[],
    ..COMES
};

/// A later record of it, which has nothing but another port, 7777.
pub(super) const MOVES: Said = Said {
    payload: &[
        LITTLE,
        "31001800 01000000 611e0000 00000000 00000000 00000000 7f000001",
        SENTINEL,
    ],
    ..COMES
};

const LITTLE: &str = "00030000";

const SENTINEL: &str = "01000000";

/// The guids of two writers of theirs.
const FIRST: &str = "5a001000 0a0a0a0a0a0a0a0a0a0a0a0a 00000102";

const SECOND: &str = "5a001000 0a0a0a0a0a0a0a0a0a0a0a0a 00000202";

const SQUARE: &str = "05000c00 07000000 53717561 72650000";

const CIRCLE: &str = "05000c00 07000000 43697263 6c650000";

const SHAPE: &str = "07001000 0a000000 53686170 65547970 65000000";

const RELIABLE: &str = "1a000c00 02000000 00000000 00000000";

const BEST_EFFORT: &str = "1a000c00 01000000 00000000 00000000";

const TRANSIENT_LOCAL: &str = "1d000400 01000000";

/// The partition `a`.
const PARTITION: &str = "29000c00 01000000 02000000 61000000";

/// Port 7000.
const LOCATOR: &str = "2f001800 01000000 581b0000 00000000 00000000 00000000 7f000001";

/// A record of the first writer that matches our reader of squares.
pub(super) const OFFERS: Said = Said {
    writer: ENTITYID_SEDP_BUILTIN_PUBLICATIONS_ANNOUNCER,
    payload: &[
        LITTLE,
        FIRST,
        SQUARE,
        SHAPE,
        RELIABLE,
        TRANSIENT_LOCAL,
        SENTINEL,
    ],
    ..COMES
};

/// A change of a match, with the port of the first locator, or the policy.
#[derive(Clone, Copy, Debug, PartialEq)]
enum Became {
    Match(u16),
    Unmatch,
    Refuse(u32),
}

/// A change: the rank, the third octet of the writer's entity, and its kind.
type Heard = (u32, u8, Became);

fn heard_of(change: &MatchChange) -> Heard {
    let (writer, became) = match &change.what {
        MatchChangeKind::Match(facts) => {
            let port = facts
                .locators
                .as_slice()
                .first()
                .map_or(0, |locator| locator.port);
            (&facts.writer, Became::Match(port))
        }
        MatchChangeKind::Unmatch(writer) => (writer, Became::Unmatch),
        MatchChangeKind::Refuse { writer, policy } => (writer, Became::Refuse(policy.id())),
    };
    (change.rank, writer.entity.0[2], became)
}

/// The octets of a payload in parts.
pub(super) fn payload_of<A: Allocator + Copy>(
    alloc: A,
    parts: &[&str],
) -> Result<Vec<u8, A>, Fail> {
    let mut payload = Vec::new(alloc);
    for part in parts {
        payload.extend_from_slice(octets_of(alloc, part)?.as_slice())?;
    }
    Ok(payload)
}

/// The event of a change of theirs.
pub(super) fn event_of(said: Said, payload: &[u8]) -> Result<Event<'_>, Fail> {
    Ok(Event {
        place: Place {
            datagram: 0,
            submessage: 1,
        },
        source: THEIRS,
        time: None,
        writer: said.writer,
        reader: said.reader,
        body: EventBody::Whole(Whole {
            number: Number::new(said.number).ok_or("no number")?,
            info: said.info,
            payload,
        }),
    })
}

/// Discovery at its start, where our reader of squares has fixed matches with these writers.
fn started(alloc: Global, fixed: &[Guid]) -> Result<Discovery, Fail> {
    let mut config = two_readers(alloc)?;
    for writer in fixed {
        config.add_fixed(0, *writer, Locators::new(Vec::new(alloc)))?;
    }
    check(&config)?;
    Ok(Discovery::new(alloc, &config)?)
}

/// Processes a change of theirs, and returns the changes of our readers' matches.
fn hear(alloc: Global, discovery: &mut Discovery, said: Said) -> Result<Vec<Heard>, Fail> {
    let payload = payload_of(alloc, said.payload)?;
    let event = event_of(said, payload.as_slice())?;
    let effects = discovery.step(alloc, 0, &event)?;
    let mut heard = Vec::new(alloc);
    for change in &effects.changes {
        heard.push(heard_of(change))?;
    }
    Ok(heard)
}

/// Discovery after these changes.
pub(super) fn after(alloc: Global, said: &[Said]) -> Result<Discovery, Fail> {
    let mut discovery = started(alloc, &[])?;
    for change in said {
        let _heard = hear(alloc, &mut discovery, *change)?;
    }
    Ok(discovery)
}

/// Changes of theirs, one after the other, each with the expected changes of our readers' matches.
type Steps<'a> = &'a [(Said, &'a [Heard])];

/// Returns the index of the first step whose result isn't the expected one.
fn first_unheard(
    alloc: Global,
    discovery: &mut Discovery,
    steps: Steps<'_>,
) -> Result<Option<usize>, Fail> {
    for (at, (said, expected)) in steps.iter().enumerate() {
        if hear(alloc, discovery, *said)?.as_slice() != *expected {
            return Ok(Some(at));
        }
    }
    Ok(None)
}

/// Like [`first_unheard`], for discovery that starts with these fixed matches.
fn first_unheard_from_start(
    alloc: Global,
    fixed: &[Guid],
    steps: Steps<'_>,
) -> Result<Option<usize>, Fail> {
    let mut discovery = started(alloc, fixed)?;
    first_unheard(alloc, &mut discovery, steps)
}

/// The changes of one writer, record by record.
const ONE_WRITER: [(Said, &[Heard]); 16] = [
    // Changes from an unknown participant are ignored.
    (OFFERS, &[]),
    (COMES, &[]),
    (OFFERS, &[(0, 1, Became::Match(7413))]),
    // The same record again changes nothing.
    (
        Said {
            number: 2,
            ..OFFERS
        },
        &[],
    ),
    // It is refused for its reliability, twice, and then for its durability.
    (
        Said {
            number: 3,
            payload: &[
                LITTLE,
                FIRST,
                SQUARE,
                SHAPE,
                BEST_EFFORT,
                TRANSIENT_LOCAL,
                SENTINEL,
            ],
            ..OFFERS
        },
        &[(0, 1, Became::Unmatch), (0, 1, Became::Refuse(11))],
    ),
    (
        Said {
            number: 4,
            payload: &[
                LITTLE,
                FIRST,
                SQUARE,
                SHAPE,
                BEST_EFFORT,
                TRANSIENT_LOCAL,
                LOCATOR,
                SENTINEL,
            ],
            ..OFFERS
        },
        &[],
    ),
    (
        Said {
            number: 5,
            payload: &[LITTLE, FIRST, SQUARE, SHAPE, RELIABLE, SENTINEL],
            ..OFFERS
        },
        &[(0, 1, Became::Refuse(2))],
    ),
    // It ends, by its hash without a payload, and is refused again.
    (
        Said {
            number: 6,
            info: ChangeInfo {
                form: Form::Nothing,
                status: 1,
                hash: Some(KeyHash([10, 10, 10, 10, 10, 10, 10, 10, 10, 10, 10, 10, 0, 0, 1, 2])),
            },
            payload: &[],
            ..OFFERS
        },
        &[],
    ),
    (
        Said {
            number: 7,
            payload: &[LITTLE, FIRST, SQUARE, SHAPE, SENTINEL],
            ..OFFERS
        },
        &[(0, 1, Became::Refuse(2))],
    ),
    // Another topic, with locators of its own; and the first topic again.
    (
        Said {
            number: 8,
            payload: &[LITTLE, FIRST, CIRCLE, SHAPE, LOCATOR, SENTINEL],
            ..OFFERS
        },
        &[(1, 1, Became::Match(7000))],
    ),
    (
        Said {
            number: 9,
            ..OFFERS
        },
        &[(0, 1, Became::Match(7413)), (1, 1, Became::Unmatch)],
    ),
    // A partition that no reader is in.
    (
        Said {
            number: 10,
            payload: &[
                LITTLE,
                FIRST,
                SQUARE,
                SHAPE,
                RELIABLE,
                TRANSIENT_LOCAL,
                PARTITION,
                SENTINEL,
            ],
            ..OFFERS
        },
        &[(0, 1, Became::Unmatch)],
    ),
    (
        Said {
            number: 11,
            ..OFFERS
        },
        &[(0, 1, Became::Match(7413))],
    ),
    // A malformed record changes nothing, but its number counts as received.
    (
        Said {
            number: 12,
            payload: &[LITTLE, FIRST],
            ..OFFERS
        },
        &[],
    ),
    // Another type; and its end, by a key payload.
    (
        Said {
            number: 13,
            payload: &[
                LITTLE,
                FIRST,
                SQUARE,
                "07000800 02000000 61000000",
                SENTINEL,
            ],
            ..OFFERS
        },
        &[(0, 1, Became::Unmatch)],
    ),
    (
        Said {
            number: 14,
            info: ChangeInfo {
                form: Form::Key,
                status: 3,
                hash: None,
            },
            payload: &[LITTLE, FIRST, SENTINEL],
            ..OFFERS
        },
        &[],
    ),
];

/// A participant that is announced again, leaves, and comes again; and two writers of it.
const ONE_PARTICIPANT: [(Said, &[Heard]); 8] = [
    (COMES, &[]),
    (OFFERS, &[(0, 1, Became::Match(7413))]),
    // Later records may have any number.
    (MOVES, &[]),
    (
        Said {
            number: 2,
            payload: &[LITTLE, SECOND, SQUARE, SHAPE, TRANSIENT_LOCAL, SENTINEL],
            ..OFFERS
        },
        &[(0, 2, Became::Match(7777))],
    ),
    (LEAVES, &[(0, 1, Became::Unmatch), (0, 2, Became::Unmatch)]),
    // Its announcers start again at number 1.
    (OFFERS, &[]),
    (COMES, &[]),
    (OFFERS, &[(0, 1, Became::Match(7413))]),
];

/// Three records that become ready at once are applied one after the other.
const AT_ONCE: [(Said, &[Heard]); 4] = [
    (COMES, &[]),
    (
        Said {
            number: 3,
            ..OFFERS
        },
        &[],
    ),
    (
        Said {
            number: 2,
            payload: &[
                LITTLE,
                FIRST,
                SQUARE,
                SHAPE,
                BEST_EFFORT,
                TRANSIENT_LOCAL,
                SENTINEL,
            ],
            ..OFFERS
        },
        &[],
    ),
    (
        OFFERS,
        &[
            (0, 1, Became::Match(7413)),
            (0, 1, Became::Unmatch),
            (0, 1, Became::Refuse(11)),
            (0, 1, Became::Match(7413)),
        ],
    ),
];

/// A participant that has only the announcer of readers.
const ONE_ANNOUNCER: Said = Said {
    payload: &[LITTLE, "58000400 10000000", SENTINEL],
    ..COMES
};

/// A record of a reader of theirs, 00000107.
pub(super) const ASKS: Said = Said {
    writer: ENTITYID_SEDP_BUILTIN_SUBSCRIPTIONS_ANNOUNCER,
    payload: &[
        LITTLE,
        "5a001000 0a0a0a0a0a0a0a0a0a0a0a0a 00000107",
        SQUARE,
        SHAPE,
        SENTINEL,
    ],
    ..COMES
};

/// Events that are ignored: from an announcer that the participant doesn't have, and for another
/// reader than the one that the announcer writes to.
const UNHEARD: [(Said, &[Heard]); 4] = [
    (ONE_ANNOUNCER, &[]),
    (OFFERS, &[]),
    (
        Said {
            reader: ENTITYID_SEDP_BUILTIN_PUBLICATIONS_DETECTOR,
            ..ASKS
        },
        &[],
    ),
    (ASKS, &[]),
];

/// A fixed match, and another match of the same writer.
const FIXED: [(Said, &[Heard]); 4] = [
    (COMES, &[]),
    (
        Said {
            payload: &[LITTLE, FIRST, SQUARE, SHAPE, TRANSIENT_LOCAL, SENTINEL],
            ..OFFERS
        },
        &[],
    ),
    (
        Said {
            number: 2,
            payload: &[LITTLE, FIRST, SQUARE, SHAPE, SENTINEL],
            ..OFFERS
        },
        &[],
    ),
    (
        Said {
            number: 3,
            info: ChangeInfo {
                form: Form::Key,
                status: 1,
                hash: None,
            },
            payload: &[LITTLE, FIRST, SENTINEL],
            ..OFFERS
        },
        &[],
    ),
];

/// Each run, with the writers that our reader of squares has fixed matches with.
const RUNS: [(&[Guid], Steps<'static>); 5] = [
    (&[], &ONE_WRITER),
    (&[], &ONE_PARTICIPANT),
    (&[], &AT_ONCE),
    (&[], &UNHEARD),
    (&[SQUARES], &FIXED),
];

#[test]
fn what_our_readers_hear(rt: HostRuntime) -> Result<(), Fail> {
    for &(fixed, steps) in &RUNS {
        assert_eq!(rt; first_unheard_from_start(rt.alloc(), fixed, steps)?, None);
    }
    Ok(())
}
