//! Notices and answers of a reliable reader for a datagram written by hand.

ghost use Rattle.std.specs.Prelude.{◌≤◌, IfOk, length};

use crate::*;
use dds_topic::{Decoder, Shape, Shapes};
use linked_list_allocator::LocalHeap;
use rtps_receiver::events;
use rtps_types::{EntityId, Guid, GuidPrefix, Locator, Locators, Place, Reply, WriterFacts};
use std::alloc::{AllocError, Allocator, Global};
use std::test::Fail;

const OURS: GuidPrefix = GuidPrefix([11; 12]);

/// The writer's locator.
const LOCATOR: Locator = Locator {
    port: 7411,
    address: [127, 0, 0, 1],
};

/// Changes 1 and 3, a HEARTBEAT of the numbers 1 to 3, a GAP that names 2, and a HEARTBEAT of the
/// numbers 6 and 7 that asks for no answer.
const DATAGRAM: [&str; 6] = [
    "52545053020500000a0a0a0a0a0a0a0a0a0a0a0a",
    "1505300000001000000001070000010200000000010000000001000005000000424c5545000000000a000000140000001e000000",
    "1505300000001000000001070000010200000000030000000001000005000000424c5545000000000a000000140000001e000000",
    "07011c0000000107000001020000000001000000000000000300000001000000",
    "08011c0000000107000001020000000002000000000000000300000000000000",
    "07031c0000000107000001020000000006000000000000000700000002000000",
];

/// The expected answers, each with the submessage that it answers: 2 is missing, and then 6 and 7.
const ANSWERS: [(u32, &str); 2] = [
    (
        3,
        "52545053020500000b0b0b0b0b0b0b0b0b0b0b0b0e010c000a0a0a0a0a0a0a0a0a0a0a0a06011c0000000107000001020000000002000000010000000000008001000000",
    ),
    (
        5,
        "52545053020500000b0b0b0b0b0b0b0b0b0b0b0b0e010c000a0a0a0a0a0a0a0a0a0a0a0a06011c000000010700000102000000000600000002000000000000c002000000",
    ),
];

/// Returns a reliable reader that is matched with the writer from the start.
fn reader<A: Allocator + Copy>(alloc: A) -> Result<ReaderState<A>, ReaderError> {
    let mut fixed = Vec::new(alloc);
    fixed.push(WriterFacts {
        writer: Guid {
            prefix: GuidPrefix([10; 12]),
            entity: EntityId([0, 0, 1, 2]),
        },
        locators: Locators::new(Vec::from_slice(alloc, &[LOCATOR])?),
    })?;
    let guid = Guid {
        prefix: OURS,
        entity: EntityId([0, 0, 1, 7]),
    };
    ReaderState::new(alloc, 0, guid, true, fixed.as_slice())
}

fn datagram(alloc: Global) -> Result<Vec<u8>, Fail>
    ensures { IfOk result (λ octets. length octets.items ≤ 65507) }
{
    let mut octets = Vec::new(alloc);
    for part in &DATAGRAM {
        octets.extend_from_slice(hex::decode(alloc, *part)?.as_slice())?;
    }
    if octets.len() > 65_507 {
        return Err(Fail::new("the datagram is too long"));
    }
    Ok(octets)
}

/// Returns the output for the events of a datagram.
fn given<A: Allocator + Copy>(
    alloc: A,
    values: Global,
    reader: &mut ReaderState<A>,
    octets: &[u8],
) -> Result<Output<Shape, A>, ReaderError>
    requires { length octets.now ≤ 65507 }
{
    let mut output = Output {
        notices: Vec::new(alloc),
        answers: Vec::new(alloc),
    };
    let mut decoder = Decoder::new(values, Shapes);
    let Ok(events) = events(values, OURS, 0, octets) else {
        return Err(AllocError);
    };
    for event in &events {
        reader.step(alloc, &mut decoder, &Step::of_event(event), &mut output)?;
    }
    Ok(output)
}

/// The submessage that caused a notice, the number that it presents, and the count of lost numbers.
fn told(notice: &Notice<Shape>) -> (u32, u64, u64) {
    let (number, lost) = match &notice.what {
        NoticeKind::Sample { number, .. } => (number.get(), 0),
        NoticeKind::Lost { count } => (0, *count),
        _ => (0, 0),
    };
    (notice.place.submessage, number, lost)
}

/// Whether the notices present both changes, and report two lost numbers.
fn are_in_order(notices: &[Notice<Shape>]) -> bool {
    let expected: [(u32, u64, u64); 3] = [(1, 1, 0), (4, 3, 0), (5, 0, 2)];
    notices.len() == expected.len()
        && notices
            .iter()
            .zip(&expected)
            .all(|(notice, expected)| told(notice) == *expected)
}

/// Whether the answers are the expected ones, each to the writer's locator.
fn are_answers(
    alloc: Global,
    answers: &[(Place, Reply)],
    expected: &[(u32, &str)],
) -> Result<bool, Fail> {
    for ((place, reply), (submessage, digits)) in answers.iter().zip(expected) {
        let octets = hex::decode(alloc, *digits)?;
        if reply.octets.as_slice() != octets.as_slice()
            || reply.to.as_slice() != [LOCATOR].as_slice()
            || (place.datagram, place.submessage) != (0, *submessage)
        {
            return Ok(false);
        }
    }
    Ok(answers.len() == expected.len())
}

/// Whether a reader gives the expected notices for the datagram, and counts them.
fn tells_in_order(alloc: Global, reader: &mut ReaderState, octets: &[u8]) -> Result<bool, Fail>
    requires { length octets.now ≤ 65507 }
{
    let output = given(alloc, alloc, reader, octets)?;
    let status = reader.status();
    Ok(are_in_order(&output.notices) && (status.lost_total, status.samples) == (2, 2))
}

/// Whether a reader gives the expected answers.
fn answers_all(alloc: Global, reader: &mut ReaderState, octets: &[u8]) -> Result<bool, Fail>
    requires { length octets.now ≤ 65507 }
{
    let output = given(alloc, alloc, reader, octets)?;
    are_answers(alloc, &output.answers, &ANSWERS)
}

#[test]
fn samples_come_in_order_and_losses_before_them(rt: HostRuntime) -> Result<(), Fail> {
    let octets = datagram(rt.alloc())?;
    let mut reader = reader(rt.alloc())?;
    assert!(rt; tells_in_order(rt.alloc(), &mut reader, octets.as_slice())?);
    Ok(())
}

#[test]
fn heartbeats_are_answered_to_the_writers_locators(rt: HostRuntime) -> Result<(), Fail> {
    let octets = datagram(rt.alloc())?;
    let mut reader = reader(rt.alloc())?;
    assert!(rt; answers_all(rt.alloc(), &mut reader, octets.as_slice())?);
    Ok(())
}

#[test]
fn a_reader_without_memory_is_spent(rt: HostRuntime) -> Result<(), Fail> {
    let octets = datagram(rt.alloc())?;
    let mut refused = false;
    let mut taken = false;
    for step in 0..64 {
        let heap = LocalHeap::new(rt.alloc(), 256 + step * 160)?;
        let Ok(mut reader) = reader(&heap) else {
            continue;
        };
        match given(&heap, rt.alloc(), &mut reader, octets.as_slice()) {
            Ok(output) => {
                taken = true;
                assert_eq!(rt; output.notices.len(), 3);
                assert_eq!(rt; output.answers.len(), 2);
            }
            Err(error) => {
                refused = true;
                assert_eq!(rt; error, AllocError);
                match given(&heap, rt.alloc(), &mut reader, octets.as_slice()) {
                    Ok(_) => assert!(rt; false, "at {step}"),
                    Err(error) => assert_eq!(rt; error, AllocError),
                }
            }
        }
    }
    assert!(rt; refused && taken);
    Ok(())
}
