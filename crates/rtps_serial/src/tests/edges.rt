//! Tests of the least and the greatest inputs of an engine, with ample memory.

ghost use Rattle.std.specs.Prelude.{◌≤◌, IfOk, length};

use super::{BLUE, HEADER, Line, SENDER, Said, Sent, are_lines, at_start, config, datagram, two};
use crate::*;
use dds_qos::Reliability;
use dds_topic::Shapes;
use rtps_discovery::Config;
use std::alloc::{AllocError, Global};
use std::test::Fail;

/// Returns the longest datagram: a change with number 1 that extends to the end. All after BLUE in
/// it is ignored.
fn longest(alloc: Global) -> Result<Vec<u8>, Fail>
    ensures { IfOk result (λ octets. length octets.items ≤ 65507) }
{
    let mut octets = Vec::from_slice(alloc, HEADER)?;
    octets.extend_from_slice(b"\x15\x05\x00\x00\x00\x00\x10\x00\x00\x00\x00\x00\x00\x00\x01\x02")?;
    octets.extend_from_slice(b"\x00\x00\x00\x00\x01\x00\x00\x00")?;
    octets.extend_from_slice(BLUE)?;
    for _ in octets.len()..65_507 {
        octets.push(0)?;
    }
    if octets.len() != 65_507 {
        return Err(Fail::new("the datagram isn't the longest"));
    }
    Ok(octets)
}

/// Whether an engine reports these lines for a datagram, by [`SerialEngine::take`] and then
/// [`Outcome::in_order`](crate::Outcome::in_order).
pub(super) fn reports(
    alloc: Global,
    engine: &mut SerialEngine<Shapes>,
    octets: &[u8],
    lines: &[Line],
) -> Result<bool, Fail>
    requires { length octets.now ≤ 65507 }
{
    let reports = engine.take(alloc, at_start(octets))?.in_order(alloc)?;
    Ok(are_lines(&reports, lines))
}

/// Whether an engine takes datagrams without events, and then the longest one.
fn takes_all_lengths(alloc: Global, engine: &mut SerialEngine<Shapes>) -> Result<bool, Fail> {
    for octets in [&[], &HEADER[..19], HEADER] {
        if !reports(alloc, engine, octets, &[])? {
            return Ok(false);
        }
    }
    let octets = longest(alloc)?;
    let lines = [
        (Some(0), 3, 1, Said::Blue(1)),
        (Some(1), 3, 1, Said::Blue(1)),
    ];
    reports(alloc, engine, octets.as_slice(), &lines)
}

/// 256 readers, the last of them matched with the writer.
fn most_readers(alloc: Global) -> Result<Config, AllocError> {
    let mut ranks = Vec::new(alloc);
    for rank in 0..=255 {
        ranks.push(rank)?;
    }
    let fixed = [(255, SENDER)];
    config(alloc, Reliability::Reliable, ranks.as_slice(), &fixed)
}

/// Returns the number of samples that the reader of a rank presented, if there is such a reader.
fn samples(engine: &SerialEngine<Shapes>, rank: u32) -> Option<u32> {
    match engine.status(rank) {
        Some(status) => Some(status.samples),
        None => None,
    }
}

/// Whether the last of 256 readers presents a change.
fn presents_to_the_last(alloc: Global, engine: &mut SerialEngine<Shapes>) -> Result<bool, Fail> {
    let octets = datagram(alloc, &[Sent::ForAll(1)])?;
    let lines = [(Some(255), 0, 1, Said::Blue(1))];
    Ok(
        reports(alloc, engine, octets.as_slice(), &lines)?
            && engine.readers() == 256
            && samples(engine, 254) == Some(0)
            && samples(engine, 255) == Some(1)
            && samples(engine, 256).is_none(),
    )
}

/// Whether an engine of two readers takes datagrams of several lengths, from the least to the
/// greatest.
fn least(alloc: Global) -> Result<bool, Fail> {
    let mut engine = SerialEngine::new(alloc, two(alloc, Reliability::Reliable)?, Shapes)?;
    takes_all_lengths(alloc, &mut engine)
}

/// Whether an engine with the greatest number of readers takes a change.
fn most(alloc: Global) -> Result<bool, Fail> {
    let mut engine = SerialEngine::new(alloc, most_readers(alloc)?, Shapes)?;
    presents_to_the_last(alloc, &mut engine)
}

#[test]
fn the_least_and_the_most_are_taken(rt: HostRuntime) -> Result<(), Fail> {
    assert!(rt; least(rt.alloc())?);
    assert!(rt; most(rt.alloc())?);
    Ok(())
}
