//! Tests of the reports of engines, and of their statuses afterwards.

ghost use Rattle.std.specs.Prelude.{◌≤◌, length};

use super::edges::reports;
use super::{Line, SENDER, Said, Sent, are_lines, at_start, config, datagram, two, writer};
use crate::*;
use dds_qos::Reliability;
use dds_topic::{Shape, Shapes};
use rtps_discovery::ConfigFault;
use rtps_reader::Status;
use std::alloc::Global;
use std::test::Fail;

/// The submessages of a datagram, and its reports, in order.
type Row = (&'static [Sent], &'static [Line]);

/// Whether an engine reports these lines for a datagram, by [`SerialEngine::take_in_order`].
fn reports_at_once(
    alloc: Global,
    engine: &mut SerialEngine<Shapes>,
    octets: &[u8],
    lines: &[Line],
) -> Result<bool, Fail>
    requires { length octets.now ≤ 65507 }
{
    let mut reports = Vec::new(alloc);
    engine.take_in_order(alloc, at_start(octets), &mut reports)?;
    Ok(are_lines(&reports, lines))
}

/// Whether an engine has the expected reports for each row, one after another: by `take_in_order`,
/// or by `take` and then `in_order`.
fn meets_all(
    alloc: Global,
    engine: &mut SerialEngine<Shapes>,
    rows: &[Row],
    dealt: bool,
) -> Result<bool, Fail> {
    for (parts, lines) in rows {
        let octets = datagram(alloc, parts)?;
        let is_met = if dealt {
            reports(alloc, engine, octets.as_slice(), lines)?
        } else {
            reports_at_once(alloc, engine, octets.as_slice(), lines)?
        };
        if !is_met {
            return Ok(false);
        }
    }
    Ok(true)
}

/// Each octet of another participant, which sends nothing.
const OTHER: u8 = 0x09;

/// Three datagrams; the second reader receives more than the first one.
const BEST_EFFORT: [Row; 3] = [
    (
        &[Sent::ForAll(1), Sent::ForSecond(3), Sent::ForAll(5)],
        &[
            (Some(0), 0, 1, Said::Blue(1)),
            (Some(1), 0, 1, Said::Blue(1)),
            (Some(1), 0, 2, Said::Lost(1)),
            (Some(1), 0, 2, Said::Blue(3)),
            (Some(0), 0, 3, Said::Lost(3)),
            (Some(0), 0, 3, Said::Blue(5)),
            (Some(1), 0, 3, Said::Lost(1)),
            (Some(1), 0, 3, Said::Blue(5)),
        ],
    ),
    // Both readers have this number already.
    (&[Sent::ForAll(5)], &[]),
    (
        &[Sent::ForSecond(4), Sent::ForSecond(6)],
        &[(Some(1), 2, 2, Said::Blue(6))],
    ),
];

/// Two numbers are missing, and then one of them is lost.
const RELIABLE: [Row; 1] = [(
    &[
        Sent::ForAll(1),
        Sent::Heartbeat(1, 3, 1),
        Sent::Heartbeat(3, 3, 2),
    ],
    &[
        (Some(0), 0, 1, Said::Blue(1)),
        (Some(1), 0, 1, Said::Blue(1)),
        (Some(0), 0, 2, Said::Answer),
        (Some(1), 0, 2, Said::Answer),
        (Some(0), 0, 3, Said::Lost(1)),
        (Some(0), 0, 3, Said::Answer),
        (Some(1), 0, 3, Said::Lost(1)),
        (Some(1), 0, 3, Said::Answer),
    ],
)];

/// Fragment 1 comes for both readers, fragment 2 for the second one, and then for the first.
const IN_FRAGMENTS: [Row; 1] = [(
    &[
        Sent::Fragment([0, 0], 1),
        Sent::Fragment([2, 7], 2),
        Sent::Fragment([1, 7], 2),
    ],
    &[
        (Some(1), 0, 2, Said::Blue(1)),
        (Some(0), 0, 3, Said::Blue(1)),
    ],
)];

/// The status of a reader with one match, by its lost numbers and its samples.
fn status(lost_total: u32, samples: u32) -> Option<Status> {
    Some(Status {
        matched_total: 1,
        matched_now: 1,
        incompatible_total: 0,
        last_policy: None,
        lost_total,
        samples,
    })
}

/// Like [`meets_all`], and whether the two readers have these statuses after the rows.
fn meets_with(
    alloc: Global,
    engine: &mut SerialEngine<Shapes>,
    rows: &[Row],
    dealt: bool,
    statuses: [Option<Status>; 2],
) -> Result<bool, Fail> {
    Ok(
        meets_all(alloc, engine, rows, dealt)?
            && engine.status(0) == statuses[0]
            && engine.status(1) == statuses[1]
            && engine.status(2).is_none(),
    )
}

/// Like [`meets_with`], for a new engine.
fn meets_from_new(
    alloc: Global,
    reliability: Reliability,
    rows: &[Row],
    dealt: bool,
    statuses: [Option<Status>; 2],
) -> Result<bool, Fail> {
    let mut engine = SerialEngine::new(alloc, two(alloc, reliability)?, Shapes)?;
    meets_with(alloc, &mut engine, rows, dealt, statuses)
}

/// Like [`meets_from_new`], for two new engines: one by `take_in_order`, the other by `take` and
/// then `in_order`.
fn meets(
    alloc: Global,
    reliability: Reliability,
    rows: &[Row],
    statuses: [Option<Status>; 2],
) -> Result<bool, Fail> {
    Ok(
        meets_from_new(alloc, reliability, rows, false, statuses)?
            && meets_from_new(alloc, reliability, rows, true, statuses)?,
    )
}

/// Whether an engine of three readers with these fixed matches lists these matches.
fn lists(alloc: Global, fixed: &[(u32, u8)], expected: &[(u32, u8)]) -> Result<bool, Fail> {
    let config = config(alloc, Reliability::BestEffort, &[0, 1, 2], fixed)?;
    let engine = SerialEngine::new(alloc, config, Shapes)?;
    let matches = engine.matches(alloc)?;
    Ok(
        engine.readers() == 3
            && matches.len() == expected.len()
            && matches.iter().zip(expected.iter()).all(|(found, expected)| *found
                == (expected.0, writer(expected.1))),
    )
}

/// Returns the fault of a configuration of best-effort readers with these fixed matches.
fn fault(alloc: Global, ranks: &[u8], fixed: &[(u32, u8)]) -> Result<Option<StartError>, Fail> {
    let config = config(alloc, Reliability::BestEffort, ranks, fixed)?;
    Ok(SerialEngine::new(alloc, config, Shapes).err())
}

/// Whether the listed matches and the faults are those expected.
fn answers(alloc: Global) -> Result<bool, Fail> {
    let fixed = [(1, SENDER), (0, SENDER), (1, OTHER)];
    let listed = [(0, SENDER), (1, OTHER), (1, SENDER)];
    let none = StartError::Config(ConfigFault::Readers);
    let wrong = StartError::Config(ConfigFault::BadFixed);
    Ok(
        lists(alloc, &fixed, &listed)?
            && fault(alloc, &[], &[])? == Some(none)
            && fault(alloc, &[0], &[(1, SENDER)])? == Some(wrong),
    )
}

#[test]
fn what_engines_report_and_answer(rt: HostRuntime) -> Result<(), Fail> {
    let statuses = [status(3, 2), status(2, 4)];
    assert!(rt; meets(rt.alloc(), Reliability::BestEffort, &BEST_EFFORT, statuses)?);
    let statuses = [status(1, 1), status(1, 1)];
    assert!(rt; meets(rt.alloc(), Reliability::Reliable, &RELIABLE, statuses)?);
    assert!(rt; answers(rt.alloc())?);
    laws::presented::<Shape>();
    laws::in_order::<Shape, Shape, Global>();
    laws::matches_listed::<Shape>();
    Ok(())
}

#[test]
fn each_reader_has_fragments_of_its_own(rt: HostRuntime) -> Result<(), Fail> {
    let statuses = [status(0, 1), status(0, 1)];
    for reliability in [Reliability::BestEffort, Reliability::Reliable] {
        assert!(rt; meets(rt.alloc(), reliability, &IN_FRAGMENTS, statuses)?);
    }
    Ok(())
}
