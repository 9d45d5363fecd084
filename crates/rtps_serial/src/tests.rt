//! Tests of engines with datagrams written by hand.

ghost use Rattle.std.specs.Prelude.{◌≡◌, ◌≤◌, IfOk, length};

mod announced;
mod coming;
mod edges;
mod known;
mod matching;
mod memory;
mod moments;
mod order;
mod refused;
mod runs;

use crate::*;
use dds_qos::Reliability;
use dds_topic::{Shape, Shapes};
use rtps_discovery::{Config, ReaderConfig};
use rtps_reader::{Body, Notice, NoticeKind};
use rtps_types::{EntityId, Guid, GuidPrefix, Locators, PolicyId};
use std::alloc::{AllocError, Allocator, Global};
use std::test::Fail;

/// Each octet of the participant that sends the datagrams.
const SENDER: u8 = 0x0a;

/// `RTPS` 2.5, no vendor, and the prefix of the writer.
const HEADER: &[u8] = b"RTPS\x02\x05\x00\x00\
    \x0a\x0a\x0a\x0a\x0a\x0a\x0a\x0a\x0a\x0a\x0a\x0a";

/// The shape BLUE at 10, 20 of size 30, in little-endian CDR.
const BLUE: &[u8] = b"\x00\x01\x00\x00\x05\x00\x00\x00BLUE\x00\x00\x00\x00\
    \x0a\x00\x00\x00\x14\x00\x00\x00\x1e\x00\x00\x00";

/// A submessage of the writer.
#[derive(Clone, Copy)]
enum Sent {
    /// DATA with this number and BLUE, for every reader.
    ForAll(u8),
    /// The same for the second reader alone.
    ForSecond(u8),
    /// HEARTBEAT of the numbers from the first to the last, with this count, for every reader.
    Heartbeat(u8, u8, u8),
    /// DATA_FRAG with this fragment of BLUE, which is number 1 in two fragments, for the readers
    /// whose entity ends in these octets.
    Fragment([u8; 2], u8),
}

/// The content of a report.
#[derive(Clone, Copy, PartialEq, Eq)]
enum Said {
    /// A sample of this number, which is BLUE.
    Blue(u64),
    /// This number of changes is lost.
    Lost(u64),
    /// A match with the writer whose entity has this third octet begins.
    Matched(u8),
    /// A match with the writer whose entity has this third octet ends.
    Unmatched(u8),
    /// The writer whose entity has this third octet offers less reliability than is requested.
    Refused(u8),
    /// An answer is sent.
    Answer,
    Other,
}

/// The rank of a report, the datagram and the submessage that caused it, and its content.
type Line = (Option<u32>, u64, u32, Said);

/// Appends DATA of 48 octets, with BLUE as its payload, for a reader given by the last octets of
/// its entity.
fn push_data(octets: &mut Vec<u8>, reader: [u8; 2], number: u8) -> Result<(), AllocError> {
    octets.extend_from_slice(b"\x15\x05\x30\x00\x00\x00\x10\x00\x00\x00")?;
    octets.extend_from_slice(&reader)?;
    octets.extend_from_slice(b"\x00\x00\x01\x02\x00\x00\x00\x00")?;
    octets.extend_from_slice(&[number, 0, 0, 0])?;
    octets.extend_from_slice(BLUE)
}

fn push_heartbeat(octets: &mut Vec<u8>, numbers: [u8; 3]) -> Result<(), AllocError> {
    let [first, last, count] = numbers;
    octets.extend_from_slice(b"\x07\x01\x1c\x00\x00\x00\x00\x00\x00\x00\x01\x02")?;
    octets.extend_from_slice(&[0, 0, 0, 0, first, 0, 0, 0])?;
    octets.extend_from_slice(&[0, 0, 0, 0, last, 0, 0, 0])?;
    octets.extend_from_slice(&[count, 0, 0, 0])
}

/// Appends DATA_FRAG of number 1 with one fragment of BLUE, 1 or 2.
fn push_fragment(octets: &mut Vec<u8>, reader: [u8; 2], start: u8) -> Result<(), AllocError> {
    let (front, back) = BLUE.split_at(16);
    let (length, payload) = if start == 1 {
        (0x30, front)
    } else {
        (0x2c, back)
    };
    octets.extend_from_slice(&[0x16, 1, length, 0, 0, 0, 0x1c, 0, 0, 0])?;
    octets.extend_from_slice(&reader)?;
    octets.extend_from_slice(b"\x00\x00\x01\x02\x00\x00\x00\x00\x01\x00\x00\x00")?;
    octets.extend_from_slice(&[start, 0, 0, 0, 1, 0, 16, 0, 28, 0, 0, 0])?;
    octets.extend_from_slice(payload)
}

/// Returns a datagram of these submessages.
fn datagram(alloc: Global, parts: &[Sent]) -> Result<Vec<u8>, Fail>
    ensures { IfOk result (λ octets. length octets.items ≤ 65507) }
{
    let mut octets = Vec::from_slice(alloc, HEADER)?;
    for part in parts {
        match *part {
            Sent::ForAll(number) => push_data(&mut octets, [0, 0], number)?,
            Sent::ForSecond(number) => push_data(&mut octets, [2, 7], number)?,
            Sent::Heartbeat(first, last, count) => {
                push_heartbeat(&mut octets, [first, last, count])?
            }
            Sent::Fragment(reader, start) => push_fragment(&mut octets, reader, start)?,
        }
    }
    if octets.len() > 65_507 {
        return Err(Fail::new("the datagram is too long"));
    }
    Ok(octets)
}

/// A datagram that came at the start.
fn at_start(bytes: &[u8]) -> Datagram<'_>
    ensures { result.bytes.now ≡ bytes.now }
{
    Datagram { moment: 0, bytes }
}

fn reader_config(
    alloc: Global,
    reliability: Reliability,
    rank: u8,
) -> Result<ReaderConfig, AllocError> {
    let entity = EntityId([0, 0, rank.wrapping_add(1), 7]);
    let mut reader = ReaderConfig::new(alloc, entity, "Square", "ShapeType")?;
    reader.requested.policies.reliability = reliability;
    Ok(reader)
}

/// Returns the writer of the participant whose prefix consists of this octet.
fn writer(participant: u8) -> Guid {
    Guid {
        prefix: GuidPrefix([participant; 12]),
        entity: EntityId([0, 0, 1, 2]),
    }
}

/// Returns a configuration of readers, and of fixed matches, each with the rank and the writer's
/// participant.
fn config(
    alloc: Global,
    reliability: Reliability,
    ranks: &[u8],
    fixed: &[(u32, u8)],
) -> Result<Config, AllocError> {
    let mut config = Config::new(alloc, GuidPrefix([0x0b; 12]));
    for rank in ranks {
        config.add_reader(reader_config(alloc, reliability, *rank)?)?;
    }
    for (rank, participant) in fixed {
        config.add_fixed(*rank, writer(*participant), Locators::new(Vec::new(alloc)))?;
    }
    Ok(config)
}

/// Two readers that are both matched with the writer.
fn two(alloc: Global, reliability: Reliability) -> Result<Config, AllocError> {
    config(alloc, reliability, &[0, 1], &[(0, SENDER), (1, SENDER)])
}

fn said_by(notice: &Notice<Shape>) -> Said {
    let [_, _, key, _] = notice.writer.entity.0;
    match &notice.what {
        NoticeKind::Matched => Said::Matched(key),
        NoticeKind::Unmatched => Said::Unmatched(key),
        NoticeKind::Incompatible {
            policy: PolicyId::Reliability,
        } => Said::Refused(key),
        NoticeKind::Lost { count } => Said::Lost(*count),
        NoticeKind::Sample {
            number,
            body: Body::Value(_, shape),
            ..
        } if shape.color.as_str() == "BLUE" && (shape.x, shape.y, shape.size) == (10, 20, 30) => {
            Said::Blue(number.get())
        }
        _ => Said::Other,
    }
}

fn line<A: Allocator>(report: &Report<Shape, A>) -> Line {
    let turn = report.turn();
    let said = match report {
        Report::Notice { notice, .. } => said_by(notice),
        Report::Answer(_) => Said::Answer,
    };
    (turn.rank, turn.place.datagram, turn.place.submessage, said)
}

/// Whether the reports are these lines.
fn are_lines<A: Allocator>(reports: &[Report<Shape, A>], lines: &[Line]) -> bool {
    reports.len() == lines.len()
        && reports
            .iter()
            .zip(lines.iter())
            .all(|(report, expected)| line(report) == *expected)
}
