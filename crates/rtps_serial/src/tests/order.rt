//! Tests of putting outcomes in order, with outcomes written by hand.

use crate::*;
use dds_topic::Shape;
use rtps_reader::{Notice, NoticeKind};
use rtps_types::{EntityId, Guid, GuidPrefix, Locators, Octets, Place};
use std::alloc::{AllocError, Global};
use std::test::Fail;

/// A report: the submessage that caused it, its rank, and the count of a notice. An answer has no
/// count.
type Line = (u32, Option<u32>, Option<u64>);

fn place(submessage: u32) -> Place {
    Place {
        datagram: 7,
        submessage,
    }
}

/// Returns notices, each with its submessage and a unique count.
fn notices(alloc: Global, lines: &[(u32, u64)]) -> Result<Vec<Notice<Shape>>, AllocError> {
    let mut notices = Vec::new(alloc);
    for (submessage, count) in lines {
        notices.push(Notice {
            place: place(*submessage),
            writer: Guid {
                prefix: GuidPrefix([0x0a; 12]),
                entity: EntityId([0, 0, 1, 2]),
            },
            what: NoticeKind::Lost { count: *count },
        })?;
    }
    Ok(notices)
}

/// Returns answers, each with its submessage and its rank.
fn answers(alloc: Global, lines: &[(u32, Option<u32>)]) -> Result<Vec<Answer>, AllocError> {
    let mut answers = Vec::new(alloc);
    for (submessage, rank) in lines {
        answers.push(Answer {
            place: place(*submessage),
            rank: *rank,
            to: Locators::new(Vec::new(alloc)),
            octets: Octets::new(Vec::new(alloc)),
        })?;
    }
    Ok(answers)
}

fn line(report: &Report<Shape>) -> Line {
    let turn = report.turn();
    let count = match report {
        Report::Notice { notice, .. } => match notice.what {
            NoticeKind::Lost { count } => Some(count),
            _ => None,
        },
        Report::Answer(_) => None,
    };
    (turn.place.submessage, turn.rank, count)
}

/// Returns an outcome of three readers. The items of its lists are not all in the order of places.
fn outcome(alloc: Global) -> Result<Outcome<Shape>, AllocError> {
    let mut lists = Vec::new(alloc);
    lists.push(notices(alloc, &[(1, 10), (3, 11)])?)?;
    lists.push(Vec::new(alloc))?;
    lists.push(notices(alloc, &[(2, 12), (3, 14), (3, 13), (1, 15)])?)?;
    Ok(Outcome {
        notices: lists,
        answers: answers(alloc, &[(3, None), (3, Some(0)), (3, Some(2)), (4, None)])?,
    })
}

#[test]
fn an_outcome_in_order(rt: HostRuntime) -> Result<(), Fail> {
    let reports = outcome(rt.alloc())?.in_order(rt.alloc())?;
    let expected: [Line; 10] = [
        (1, Some(0), Some(10)),
        (1, Some(2), Some(15)),
        (2, Some(2), Some(12)),
        (3, None, None),
        (3, Some(0), Some(11)),
        (3, Some(0), None),
        // Notices of one reader at one place keep their order, whatever their counts.
        (3, Some(2), Some(14)),
        (3, Some(2), Some(13)),
        (3, Some(2), None),
        (4, None, None),
    ];
    assert_eq!(rt; reports.len(), expected.len());
    for (report, expected) in reports.iter().zip(&expected) {
        assert_eq!(rt; line(report), *expected);
    }
    Ok(())
}
