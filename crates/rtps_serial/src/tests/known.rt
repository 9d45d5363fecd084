//! Tests of what engines know of a peer, and of discovery's answers to it.

use super::announced::{Offer, Says, WRITERS, datagram_of};
use super::matching::{Row, Unlike, meets, meets_from_new, status, two_unlike};
use super::{SENDER, Said, at_start};
use crate::*;
use dds_topic::Shapes;
use rtps_discovery::Discovery;
use rtps_types::{GuidPrefix, Locator};
use std::alloc::Global;
use std::test::Fail;

/// Whether the known participants are these, each named by an octet of its prefix.
fn are_participants(known: &Discovery, expected: &[u8]) -> bool {
    known.participants().count() == expected.len()
        && known
            .participants()
            .zip(expected.iter())
            .all(|((prefix, _), octet)| *prefix == GuidPrefix([*octet; 12]))
}

/// Whether the known writers are these, each with the third octet of its entity and its topic.
fn are_writers(known: &Discovery, expected: &[(u8, &str)]) -> bool {
    known.writers().count() == expected.len()
        && known.writers().zip(expected.iter()).all(|((guid, writer), (key, topic))| {
            guid.entity.0[2] == *key && writer.topic() == *topic
        })
}

/// Datagrams for an engine, and the participants and the writers that it knows after them.
struct Known {
    rows: &'static [Row],
    participants: &'static [u8],
    writers: &'static [(u8, &'static str)],
}

/// Whether an engine has the expected results for the rows, and then knows what is expected.
fn knows(alloc: Global, engine: &mut SerialEngine<Shapes>, expected: &Known) -> Result<bool, Fail> {
    if !meets(alloc, engine, expected.rows)? {
        return Ok(false);
    }
    let known = engine.discovery();
    Ok(are_participants(known, expected.participants) && are_writers(known, expected.writers))
}

/// No datagrams; the peer with two writers; the end of the first one; and the end of the peer.
const KNOWN: [Known; 4] = [
    Known {
        rows: &[],
        participants: &[],
        writers: &[],
    },
    Known {
        rows: &[(
            &[
                Says::Comes,
                Says::Offers(1, 1, Offer::Square),
                Says::Offers(2, 2, Offer::Circle),
            ],
            &[
                (Some(0), 0, 2, Said::Matched(1)),
                (Some(1), 0, 3, Said::Matched(2)),
            ],
            &[(0, 1), (1, 2)],
        )],
        participants: &[SENDER],
        writers: &[(1, "Square"), (2, "Circle")],
    },
    Known {
        rows: &[(
            &[Says::Withdraws(3, 1)],
            &[(Some(0), 1, 1, Said::Unmatched(1))],
            &[(1, 2)],
        )],
        participants: &[SENDER],
        writers: &[(2, "Circle")],
    },
    Known {
        rows: &[(&[Says::Leaves], &[(Some(1), 2, 1, Said::Unmatched(2))], &[])],
        participants: &[],
        writers: &[],
    },
];

/// Returns the index of the first step after which an engine doesn't know what is expected.
fn first_unknown(
    alloc: Global,
    engine: &mut SerialEngine<Shapes>,
    expected: &[Known],
) -> Result<Option<usize>, Fail> {
    for (at, known) in expected.iter().enumerate() {
        if !knows(alloc, engine, known)? {
            return Ok(Some(at));
        }
    }
    Ok(None)
}

/// Like [`first_unknown`], for a new engine.
fn first_unknown_from_new(alloc: Global, expected: &[Known]) -> Result<Option<usize>, Fail> {
    let mut engine = SerialEngine::new(alloc, two_unlike(alloc, Unlike::Topics)?, Shapes)?;
    first_unknown(alloc, &mut engine, expected)
}

#[test]
fn what_is_known_is_lent(rt: HostRuntime) -> Result<(), Fail> {
    assert_eq!(rt; first_unknown_from_new(rt.alloc(), &KNOWN)?, None);
    Ok(())
}

/// The announcer of writers offers number 1, which didn't arrive. Then number 2 arrives and waits,
/// until a heartbeat doesn't offer number 1 any more.
const ANSWERED: [Row; 2] = [
    (
        &[Says::Comes, Says::Heartbeat(WRITERS, [1, 1, 1])],
        &[(None, 0, 2, Said::Answer)],
        &[],
    ),
    (
        &[
            Says::Offers(2, 1, Offer::Square),
            Says::Heartbeat(WRITERS, [2, 2, 2]),
        ],
        &[
            (None, 1, 2, Said::Answer),
            (Some(0), 1, 2, Said::Matched(1)),
        ],
        &[(0, 1)],
    ),
];

/// The answer to the first heartbeat: INFO_DST, and an ACKNACK that asks for number 1.
const ACKNACK: &[u8] = b"RTPS\x02\x05\x00\x00\
    \x0b\x0b\x0b\x0b\x0b\x0b\x0b\x0b\x0b\x0b\x0b\x0b\
    \x0e\x01\x0c\x00\x0a\x0a\x0a\x0a\x0a\x0a\x0a\x0a\x0a\x0a\x0a\x0a\
    \x06\x01\x1c\x00\x00\x00\x03\xc7\x00\x00\x03\xc2\x00\x00\x00\x00\x01\x00\x00\x00\
    \x01\x00\x00\x00\x00\x00\x00\x80\x01\x00\x00\x00";

/// Whether this is the answer to the peer's announcer of writers, sent to its metatraffic locator.
fn is_acknack(answer: &Answer) -> bool {
    let metatraffic = Locator {
        port: 7412,
        address: [127, 0, 0, 1],
    };
    answer.rank.is_none()
        && answer.to.as_slice() == [metatraffic].as_slice()
        && answer.octets.as_slice() == ACKNACK
}

/// Whether a datagram of these submessages has that answer and no other.
fn answers_to_metatraffic(
    alloc: Global,
    engine: &mut SerialEngine<Shapes>,
    parts: &[Says],
) -> Result<bool, Fail> {
    let octets = datagram_of(alloc, parts)?;
    let outcome = engine.take(alloc, at_start(octets.as_slice()))?;
    Ok(match outcome.answers.as_slice() {
        [answer] => is_acknack(answer),
        _ => false,
    })
}

/// Like [`answers_to_metatraffic`], for a new engine.
fn answers_from_new(alloc: Global, parts: &[Says]) -> Result<bool, Fail> {
    let mut engine = SerialEngine::new(alloc, two_unlike(alloc, Unlike::Topics)?, Shapes)?;
    answers_to_metatraffic(alloc, &mut engine, parts)
}

#[test]
fn discovery_answers_first(rt: HostRuntime) -> Result<(), Fail> {
    let statuses = [status(1, 1, 0), status(0, 0, 0)];
    assert!(rt; meets_from_new(rt.alloc(), Unlike::Topics, &ANSWERED, statuses)?);
    Ok(())
}

#[test]
fn discovery_answers_to_metatraffic(rt: HostRuntime) -> Result<(), Fail> {
    let parts = [Says::Comes, Says::Heartbeat(WRITERS, [1, 1, 1])];
    assert!(rt; answers_from_new(rt.alloc(), &parts)?);
    Ok(())
}
