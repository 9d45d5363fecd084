//! Tests of decoding changes of announcers, with octets written by hand.

use crate::announced_data::said_in;
use crate::announcement::{Announcement, participant_said, reader_said, writer_said};
use rtps_params::ids::{ENDPOINT_GUID, PARTICIPANT_GUID};
use rtps_types::{Duration, EntityId, Guid, GuidPrefix, KeyHash, Locator};
use rtps_wire::{ChangeInfo, Form};
use std::alloc::Allocator;
use std::test::Fail;

pub(super) const OURS: GuidPrefix = GuidPrefix([11; 12]);

pub(super) const THEIRS: GuidPrefix = GuidPrefix([10; 12]);

/// A record of participant 0a0a..0a: its guid, ports 7412 and 7413, a lease of 100 s, both
/// announcers.
pub(super) const PARTICIPANT: &str = "00030000 50001000 0a0a0a0a0a0a0a0a0a0a0a0a 000001c1 \
    32001800 01000000 f41c0000 00000000 00000000 00000000 7f000001 \
    31001800 01000000 f51c0000 00000000 00000000 00000000 7f000001 \
    02000800 64000000 00000000 58000400 14000000 01000000";

/// A record of its writer 00000102: topic Square, type ShapeType, reliable.
pub(super) const WRITER: &str = "00030000 5a001000 0a0a0a0a0a0a0a0a0a0a0a0a 00000102 \
    05000c00 07000000 53717561 72650000 07001000 0a000000 53686170 65547970 65000000 \
    1a000c00 02000000 00000000 00000000 01000000";

/// A record of its reader 00000107 in big-endian order, with a vendor-specific parameter and
/// without a key hash.
const READER: &str = "0002ffff 80010004 aaaaaaaa 005a0010 0a0a0a0a0a0a0a0a0a0a0a0a 00000107 \
    0005000c 00000007 53717561 72650000 00070010 0000000a 53686170 65547970 65000000 00010000";

/// Returns the octets of a text in hex; blanks are ignored.
pub(super) fn octets_of<A: Allocator + Copy>(alloc: A, text: &str) -> Result<Vec<u8, A>, Fail> {
    let mut octets = Vec::new(alloc);
    for part in text.split_ascii_whitespace() {
        octets.extend_from_slice(hex::decode(alloc, part)?.as_slice())?;
    }
    Ok(octets)
}

/// The announcer that a change comes from.
#[derive(Clone, Copy)]
enum By {
    Participants,
    Writers,
    Readers,
}

/// The kind of an announcement, with the last octet of an endpoint's entity.
#[derive(Clone, Copy, Debug, PartialEq)]
enum Told {
    Nothing,
    Comes,
    Leaves,
    Offers(u8),
    Withdraws(u8),
    Asks(u8),
    AsksNoMore(u8),
}

/// Returns what a change from 0a0a..0a announces, with the last octet of an endpoint's entity.
fn announced(by: By, info: ChangeInfo, payload: &[u8]) -> Told {
    let said = match by {
        By::Participants => said_in(PARTICIPANT_GUID, info, payload),
        By::Writers | By::Readers => said_in(ENDPOINT_GUID, info, payload),
    };
    let Some(said) = said else {
        return Told::Nothing;
    };
    let announcement = match by {
        By::Participants => participant_said(OURS, THEIRS, info.hash, said),
        By::Writers => writer_said(THEIRS, info.hash, said),
        By::Readers => reader_said(THEIRS, info.hash, said),
    };
    match announcement {
        None => Told::Nothing,
        Some(Announcement::Comes(_, _)) => Told::Comes,
        Some(Announcement::Leaves(_)) => Told::Leaves,
        Some(Announcement::Offers(writer, _)) => Told::Offers(writer.entity.0[3]),
        Some(Announcement::Withdraws(writer)) => Told::Withdraws(writer.entity.0[3]),
        Some(Announcement::Asks(reader)) => Told::Asks(reader.entity.0[3]),
        Some(Announcement::AsksNoMore(reader)) => Told::AsksNoMore(reader.entity.0[3]),
    }
}

/// The key hash of an endpoint of another participant.
const ANOTHER: Option<KeyHash> = Some(KeyHash([9; 16]));

/// A change: its announcer, form, status, key hash and payload; and what it announces.
type Row = (By, Form, u8, Option<KeyHash>, &'static str, Told);

/// Records.
const RECORDS: [Row; 16] = [
    (
        By::Participants,
        Form::Value,
        0,
        None,
        PARTICIPANT,
        Told::Comes,
    ),
    // Named only by its source; other bits of the status don't mark an end.
    (
        By::Participants,
        Form::Value,
        0xfc,
        ANOTHER,
        "00030000 01000000",
        Told::Comes,
    ),
    (
        By::Writers,
        Form::Value,
        0,
        ANOTHER,
        WRITER,
        Told::Offers(2),
    ),
    (By::Readers, Form::Value, 0, None, READER, Told::Asks(7)),
    // A record of another kind of endpoint.
    (By::Readers, Form::Value, 0, None, WRITER, Told::Nothing),
    (By::Writers, Form::Value, 0, None, READER, Told::Nothing),
    // A participant that announces another one.
    (
        By::Participants,
        Form::Value,
        0,
        None,
        "00030000 50001000 09090909 09090909 09090909 000001c1 01000000",
        Told::Nothing,
    ),
    // No topic; no type; neither a guid nor a hash; a guid of another participant, with a good
    // hash.
    (
        By::Writers,
        Form::Value,
        0,
        HASH,
        "00030000 07000800 02000000 61000000 01000000",
        Told::Nothing,
    ),
    (
        By::Writers,
        Form::Value,
        0,
        HASH,
        "00030000 05000800 02000000 61000000 01000000",
        Told::Nothing,
    ),
    (By::Writers, Form::Value, 0, None, BOTH, Told::Nothing),
    (By::Writers, Form::Value, 0, HASH, BOTH, Told::Offers(2)),
    (By::Writers, Form::Value, 0, ANOTHER, BOTH, Told::Nothing),
    // Another encapsulation; three octets; a list without an end; a malformed parameter that
    // doesn't apply to a writer.
    (
        By::Participants,
        Form::Value,
        0,
        None,
        "00010000 01000000",
        Told::Nothing,
    ),
    (
        By::Participants,
        Form::Value,
        0,
        None,
        "000300",
        Told::Nothing,
    ),
    (
        By::Participants,
        Form::Value,
        0,
        None,
        "00030000",
        Told::Nothing,
    ),
    (
        By::Participants,
        Form::Value,
        0,
        None,
        "00030000 1d000400 04000000 01000000",
        Told::Nothing,
    ),
];

/// The key hash of their writer 00000102.
const HASH: Option<KeyHash> = Some(KeyHash([
    10, 10, 10, 10, 10, 10, 10, 10, 10, 10, 10, 10, 0, 0, 1, 2,
]));

/// The key hash of their participant.
const WHOLE: Option<KeyHash> = Some(KeyHash([
    10, 10, 10, 10, 10, 10, 10, 10, 10, 10, 10, 10, 0, 0, 1, 0xc1,
]));

/// A topic and a type, without the guid of the endpoint.
const BOTH: &str = "00030000 05000800 02000000 61000000 07000800 02000000 61000000 01000000";

/// Their writer 00000102 by its guid alone, and a DURABILITY of an unknown kind.
const NAMED: &str =
    "00030000 1d000400 04000000 5a001000 0a0a0a0a0a0a0a0a0a0a0a0a 00000102 01000000";

/// A guid of twelve octets, before a good one.
const SHORT: &str = "00030000 5a000c00 0a0a0a0a0a0a0a0a0a0a0a0a \
    5a001000 0a0a0a0a0a0a0a0a0a0a0a0a 00000102 01000000";

/// Ends, and changes that are no ends.
const ENDS: [Row; 17] = [
    // Without a payload, named by the hash, or by nothing: a participant is then its source.
    (By::Writers, Form::Nothing, 1, HASH, "", Told::Withdraws(2)),
    (By::Readers, Form::Nothing, 2, HASH, "", Told::Nothing),
    (By::Writers, Form::Nothing, 3, None, "", Told::Nothing),
    (By::Writers, Form::Nothing, 1, ANOTHER, "", Told::Nothing),
    (By::Participants, Form::Nothing, 1, None, "", Told::Leaves),
    (By::Participants, Form::Nothing, 1, WHOLE, "", Told::Leaves),
    (
        By::Participants,
        Form::Nothing,
        1,
        ANOTHER,
        "",
        Told::Nothing,
    ),
    // Named by a payload. Only its guid is decoded, and it takes precedence over the hash.
    (
        By::Writers,
        Form::Key,
        3,
        ANOTHER,
        NAMED,
        Told::Withdraws(2),
    ),
    (By::Writers, Form::Value, 2, None, NAMED, Told::Withdraws(2)),
    (
        By::Readers,
        Form::Value,
        1,
        None,
        READER,
        Told::AsksNoMore(7),
    ),
    (
        By::Writers,
        Form::Key,
        1,
        HASH,
        "00030000 01000000",
        Told::Withdraws(2),
    ),
    // A malformed payload is no end, whatever the hash.
    (By::Writers, Form::Key, 1, HASH, SHORT, Told::Nothing),
    (By::Writers, Form::Key, 1, HASH, "", Told::Nothing),
    (
        By::Writers,
        Form::Key,
        1,
        HASH,
        "00010000 01000000",
        Told::Nothing,
    ),
    // No end: other bits of the status, and a form that the standard doesn't define.
    (By::Writers, Form::Key, 0xfc, HASH, NAMED, Told::Nothing),
    (By::Writers, Form::Nothing, 0, HASH, "", Told::Nothing),
    (By::Writers, Form::Other, 1, HASH, NAMED, Told::Nothing),
];

/// Whether each row is met.
fn are_met<A: Allocator + Copy>(alloc: A, rows: &[Row]) -> Result<bool, Fail> {
    for &(by, form, status, hash, payload, expected) in rows {
        let octets = octets_of(alloc, payload)?;
        if announced(by, ChangeInfo { form, status, hash }, octets.as_slice()) != expected {
            return Ok(false);
        }
    }
    Ok(true)
}

#[test]
fn what_records_announce(rt: HostRuntime) -> Result<(), Fail> {
    assert!(rt; are_met(rt.alloc(), &RECORDS)?);
    Ok(())
}

#[test]
fn what_ends_announce(rt: HostRuntime) -> Result<(), Fail> {
    assert!(rt; are_met(rt.alloc(), &ENDS)?);
    Ok(())
}

const VALUE: ChangeInfo = ChangeInfo {
    form: Form::Value,
    status: 0,
    hash: None,
};

fn local(port: u16) -> Locator {
    Locator {
        port,
        address: [127, 0, 0, 1],
    }
}

/// Whether this announces their participant, with all that its record has.
fn is_participant(announced: Option<Announcement<'_>>) -> bool {
    let Some(Announcement::Comes(prefix, mut facts)) = announced else {
        return false;
    };
    let lease = Duration {
        seconds: 100,
        fraction: 0,
    };
    prefix == THEIRS
        && facts.lease == lease
        && facts.announces_writers
        && facts.announces_readers
        && facts.metatraffic.next() == Some(local(7412))
        && facts.locators.next() == Some(local(7413))
        && facts.locators.next().is_none()
}

/// Returns what a record of their participant announces to a participant with the prefix `own`.
fn comes(own: GuidPrefix, payload: &[u8]) -> Option<Announcement<'_>> {
    participant_said(
        own,
        THEIRS,
        None,
        said_in(PARTICIPANT_GUID, VALUE, payload)?,
    )
}

#[test]
fn what_a_participant_says_of_itself(rt: HostRuntime) -> Result<(), Fail> {
    let octets = octets_of(rt.alloc(), PARTICIPANT)?;
    assert!(rt; is_participant(comes(OURS, octets.as_slice())));
    // A record that names our own participant is ignored.
    assert!(rt; comes(THEIRS, octets.as_slice()).is_none());
    Ok(())
}

/// Builtin endpoint sets with the bit of one announcer, or of none, and a lease of zero.
const ONE_ANNOUNCER: [(&str, bool, bool); 3] = [
    (
        "00030000 58000400 04000000 02000800 00000000 00000000 01000000",
        true,
        false,
    ),
    (
        "00030000 58000400 10000000 02000800 00000000 00000000 01000000",
        false,
        true,
    ),
    (
        "00030000 58000400 ebffffff 02000800 00000000 00000000 01000000",
        false,
        false,
    ),
];

/// Returns whether a participant, announced with a lease of zero, has each of the two announcers.
fn announcers(announced: Option<Announcement<'_>>) -> Option<(bool, bool)> {
    let zero = Duration {
        seconds: 0,
        fraction: 0,
    };
    match announced {
        Some(Announcement::Comes(_, facts)) if facts.lease == zero => {
            Some((facts.announces_writers, facts.announces_readers))
        }
        _ => None,
    }
}

#[test]
fn announcers_that_a_set_names(rt: HostRuntime) -> Result<(), Fail> {
    for &(payload, writers, readers) in &ONE_ANNOUNCER {
        let octets = octets_of(rt.alloc(), payload)?;
        let found = announcers(comes(OURS, octets.as_slice()));
        assert_eq!(rt; found, Some((writers, readers)));
    }
    Ok(())
}

/// Whether this announces their writer, with all that its record has.
fn is_writer(announced: Option<Announcement<'_>>) -> bool {
    let Some(Announcement::Offers(writer, mut offer)) = announced else {
        return false;
    };
    let expected = Guid {
        prefix: THEIRS,
        entity: EntityId([0, 0, 1, 2]),
    };
    writer == expected
        && offer.topic == "Square"
        && offer.type_name == "ShapeType"
        && offer.policies.reliability == dds_qos::Reliability::Reliable
        && offer.partitions.is_none()
        && offer.locators.next().is_none()
}

#[test]
fn what_a_writer_offers(rt: HostRuntime) -> Result<(), Fail> {
    let octets = octets_of(rt.alloc(), WRITER)?;
    let said = said_in(ENDPOINT_GUID, VALUE, octets.as_slice()).ok_or("nothing said")?;
    assert!(rt; is_writer(writer_said(THEIRS, None, said)));
    Ok(())
}
