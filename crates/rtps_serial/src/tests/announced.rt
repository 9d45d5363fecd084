//! Datagrams of a peer that announces itself and its writers (DDSI-RTPS 8.5), written by hand.

ghost use Rattle.std.specs.Prelude.{◌≤◌, IfOk, length};

use super::{BLUE, HEADER};
use std::alloc::{AllocError, Global};
use std::test::Fail;

/// A submessage of the peer. A writer is named by the third octet of its entity.
#[derive(Clone, Copy)]
pub(super) enum Says {
    /// The record of its participant.
    Comes,
    /// The end of its participant.
    Leaves,
    /// The record, with this number, of a writer that offers this: the writer, the number, the
    /// offer.
    Offers(u8, u8, Offer),
    /// The end, with this number, of a writer: the writer, the number.
    Withdraws(u8, u8),
    /// DATA of a writer, with this number and BLUE, for every reader.
    Blue(u8, u8),
    /// HEARTBEAT of this entity: the first number, the last one and the count.
    Heartbeat([u8; 4], [u8; 3]),
    /// The same, which asks for no answer.
    FinalHeartbeat([u8; 4], [u8; 3]),
}

/// The topic and partition of a writer of type ShapeType. It is reliable if nothing else is said.
#[derive(Clone, Copy)]
pub(super) enum Offer {
    Square,
    /// Topic Square, best-effort.
    BestEffortSquare,
    Circle,
    /// Topic Square, in the partition with this letter.
    SquareIn(u8),
}

/// The announcer of writers.
pub(super) const WRITERS: [u8; 4] = [0x00, 0x00, 0x03, 0xc2];

/// The announcer of participants.
const PARTICIPANTS: [u8; 4] = [0x00, 0x01, 0x00, 0xc2];

/// The writer with third octet 1.
pub(super) const FIRST: [u8; 4] = [0x00, 0x00, 0x01, 0x02];

/// The writer with this third octet.
pub(super) fn user(key: u8) -> [u8; 4] {
    [0x00, 0x00, key, 0x02]
}

/// The record of the participant 0a0a..0a: its guid, metatraffic at 127.0.0.1:7412, user traffic at
/// 127.0.0.1:7413, a lease of 100 s, and the announcers of writers and of readers.
const PARTICIPANT: &str = "00030000 50001000 0a0a0a0a 0a0a0a0a 0a0a0a0a 000001c1 \
    32001800 01000000 f41c0000 00000000 00000000 00000000 7f000001 \
    31001800 01000000 f51c0000 00000000 00000000 00000000 7f000001 \
    02000800 64000000 00000000 58000400 14000000 01000000";

/// A key hash up to the entity.
const HASH: &str = "70001000 0a0a0a0a 0a0a0a0a 0a0a0a0a";

/// The status info that says disposed, and the end of the inline QoS.
const DISPOSED: &str = "71000400 00000001 01000000";

/// The record of a writer up to its entity.
const WRITER: &str = "00030000 5a001000 0a0a0a0a 0a0a0a0a 0a0a0a0a";

/// The type name.
const TYPE: &str = "07001000 0a000000 53686170 65547970 65000000";

/// The reliability policy: reliable, or best-effort.
const RELIABLE: &str = "1a000c00 02000000 00000000 00000000";

const BEST_EFFORT: &str = "1a000c00 01000000 00000000 00000000";

const SQUARE: &str = "05000c00 07000000 53717561 72650000";

const CIRCLE: &str = "05000c00 07000000 43697263 6c650000";

/// One partition, up to the letter that is its name.
const PARTITION: &str = "29000c00 01000000 02000000";

/// The end of a parameter list.
const SENTINEL: &[u8] = &[1, 0, 0, 0];

/// Appends the octets of a text in hex.
fn push_hex(alloc: Global, octets: &mut Vec<u8>, text: &str) -> Result<(), Fail> {
    for part in text.split_ascii_whitespace() {
        octets.extend_from_slice(hex::decode(alloc, part)?.as_slice())?;
    }
    Ok(())
}

/// Appends DATA for every reader, up to and including its number.
fn push_data(
    octets: &mut Vec<u8>,
    flags_and_length: [u8; 2],
    writer: [u8; 4],
    number: u8,
) -> Result<(), AllocError> {
    octets.push(0x15)?;
    octets.extend_from_slice(&flags_and_length)?;
    octets.extend_from_slice(&[0, 0, 0, 0x10, 0, 0, 0, 0, 0])?;
    octets.extend_from_slice(&writer)?;
    octets.extend_from_slice(&[0, 0, 0, 0, number, 0, 0, 0])
}

/// Appends the end of an entity, named by the key hash alone.
fn push_end(
    alloc: Global,
    octets: &mut Vec<u8>,
    announcer: [u8; 4],
    number: u8,
    ended: [u8; 4],
) -> Result<(), Fail> {
    push_data(octets, [3, 52], announcer, number)?;
    push_hex(alloc, octets, HASH)?;
    octets.extend_from_slice(&ended)?;
    push_hex(alloc, octets, DISPOSED)
}

/// Appends the record of a writer.
fn push_offer(
    alloc: Global,
    octets: &mut Vec<u8>,
    number: u8,
    writer: u8,
    offer: Offer,
) -> Result<(), Fail> {
    let (length, topic, reliability) = match offer {
        Offer::Square => (100, SQUARE, RELIABLE),
        Offer::BestEffortSquare => (100, SQUARE, BEST_EFFORT),
        Offer::Circle => (100, CIRCLE, RELIABLE),
        Offer::SquareIn(_) => (116, SQUARE, RELIABLE),
    };
    push_data(octets, [5, length], WRITERS, number)?;
    push_hex(alloc, octets, WRITER)?;
    octets.extend_from_slice(&user(writer))?;
    push_hex(alloc, octets, topic)?;
    push_hex(alloc, octets, TYPE)?;
    push_hex(alloc, octets, reliability)?;
    if let Offer::SquareIn(letter) = offer {
        push_hex(alloc, octets, PARTITION)?;
        octets.extend_from_slice(&[letter, 0, 0, 0])?;
    }
    octets.extend_from_slice(SENTINEL)?;
    Ok(())
}

/// Appends HEARTBEAT for every reader. Its flags are 1, or 3 where it asks for no answer.
fn push_heartbeat(
    octets: &mut Vec<u8>,
    flags: u8,
    writer: [u8; 4],
    numbers: [u8; 3],
) -> Result<(), AllocError> {
    let [first, last, count] = numbers;
    octets.extend_from_slice(&[7, flags, 28, 0, 0, 0, 0, 0])?;
    octets.extend_from_slice(&writer)?;
    octets.extend_from_slice(&[0, 0, 0, 0, first, 0, 0, 0])?;
    octets.extend_from_slice(&[0, 0, 0, 0, last, 0, 0, 0])?;
    octets.extend_from_slice(&[count, 0, 0, 0])
}

fn push(alloc: Global, octets: &mut Vec<u8>, part: Says) -> Result<(), Fail> {
    match part {
        Says::Comes => {
            push_data(octets, [5, 124], PARTICIPANTS, 1)?;
            push_hex(alloc, octets, PARTICIPANT)?;
        }
        Says::Leaves => push_end(alloc, octets, PARTICIPANTS, 2, [0, 0, 1, 0xc1])?,
        Says::Offers(number, writer, offer) => push_offer(alloc, octets, number, writer, offer)?,
        Says::Withdraws(number, writer) => {
            push_end(alloc, octets, WRITERS, number, user(writer))?
        }
        Says::Blue(writer, number) => {
            push_data(octets, [5, 48], user(writer), number)?;
            octets.extend_from_slice(BLUE)?;
        }
        Says::Heartbeat(writer, numbers) => push_heartbeat(octets, 1, writer, numbers)?,
        Says::FinalHeartbeat(writer, numbers) => push_heartbeat(octets, 3, writer, numbers)?,
    }
    Ok(())
}

/// Returns a datagram of these submessages.
pub(super) fn datagram_of(alloc: Global, parts: &[Says]) -> Result<Vec<u8>, Fail>
    ensures { IfOk result (λ octets. length octets.items ≤ 65507) }
{
    let mut octets = Vec::from_slice(alloc, HEADER)?;
    for part in parts {
        push(alloc, &mut octets, *part)?;
    }
    if octets.len() > 65_507 {
        return Err(Fail::new("the datagram is too long"));
    }
    Ok(octets)
}
