//! Merging outputs written by hand.

use super::{no_locators, no_octets, place};
use crate::*;
use rtps_reader::{Notice, NoticeKind, Output};
use rtps_run::{Answer, Outcome};
use rtps_types::{EntityId, Guid, GuidPrefix, Reply};
use std::alloc::{AllocError, Allocator, Global};
use std::test::Fail;

/// The output of a reader: a notice of `count` lost changes, and an answer at each of these
/// submessages.
#[derive(Clone, Copy)]
pub(super) struct Given<'a> {
    pub rank: u32,
    pub count: u64,
    pub answers: &'a [u32],
}

/// A notice that reports nothing but a count.
fn notice(count: u64) -> Notice<u8> {
    Notice {
        place: place(1),
        writer: Guid {
            prefix: GuidPrefix([0x0a; 12]),
            entity: EntityId([0, 0, 1, 2]),
        },
        what: NoticeKind::Lost { count },
    }
}

fn output<A: Allocator + Copy>(alloc: A, given: Given<'_>) -> Result<Output<u8, A>, AllocError> {
    let mut output = Output {
        notices: Vec::new(alloc),
        answers: Vec::new(alloc),
    };
    output.notices.push(notice(given.count))?;
    for submessage in given.answers {
        let reply = Reply {
            to: no_locators(alloc),
            octets: no_octets(alloc),
        };
        output.answers.push((place(*submessage), reply))?;
    }
    Ok(output)
}

/// The rest of a plan for three readers: the first and the last have a job, and discovery answers
/// at the fourth submessage.
fn rest<A: Allocator + Copy>(alloc: A) -> Result<Rest<A>, AllocError> {
    let mut answers = Vec::new(alloc);
    let reply = Reply {
        to: no_locators(alloc),
        octets: no_octets(alloc),
    };
    answers.push((place(4), reply))?;
    Ok(Rest {
        readers: 3,
        ranks: Vec::from_slice(alloc, &[0, 2])?,
        answers,
        places: Vec::new(alloc),
        passed: PassedOver::new(),
    })
}

/// Gathers these outputs.
pub(super) fn gather_all<A: Allocator + Copy>(
    alloc: A,
    given: &[Given<'_>],
) -> Result<Outcome<u8, A>, GatherFault> {
    let mut outputs = Vec::new(alloc);
    for one in given {
        let output = output(alloc, *one)?;
        if outputs.push((one.rank, output)).is_err() {
            return Err(GatherFault::NoMemory);
        }
    }
    gather(alloc, rest(alloc)?, outputs)
}

/// The outputs of both readers that have a job, the last one first.
pub(super) const BOTH: [Given<'static>; 2] = [
    Given {
        rank: 2,
        count: 12,
        answers: &[1, 4],
    },
    Given {
        rank: 0,
        count: 10,
        answers: &[1, 3],
    },
];

/// Whether the one notice of a list has this count.
fn counts(notices: &[Notice<u8>], expected: u64) -> bool {
    match notices.first() {
        Some(
            Notice {
                what: NoticeKind::Lost { count },
                ..
            },
        ) => notices.len() == 1 && *count == expected,
        _ => false,
    }
}

/// Whether answers come at these submessages, from these ranks.
fn come_at<A: Allocator>(answers: &[Answer<A>], turns: &[(u32, Option<u32>)]) -> bool {
    answers.len() == turns.len()
        && answers.iter().zip(turns).all(|(answer, turn)| (answer.place.submessage, answer.rank)
            == *turn)
}

/// The answers' submessages and ranks, by place; at one place discovery's is first, and then by
/// rank.
const TURNS: [(u32, Option<u32>); 5] = [
    (1, Some(0)),
    (1, Some(2)),
    (3, Some(0)),
    (4, None),
    (4, Some(2)),
];

/// Whether the outcome has each notice at its rank, and the answers of both and of discovery.
pub(super) fn is_of_both<A: Allocator>(outcome: Outcome<u8, A>) -> bool {
    let notices = outcome.notices.as_slice();
    if notices.len() != 3 {
        return false;
    }
    counts(&notices[0], 10)
        && notices[1].is_empty()
        && counts(&notices[2], 12)
        && come_at(outcome.answers.as_slice(), &TURNS)
}

#[test]
fn two_outputs_are_put_together(rt: HostRuntime) -> Result<(), Fail> {
    assert!(rt; is_of_both(gather_all(rt.alloc(), &BOTH)?));
    let [last, first] = BOTH;
    assert!(rt; is_of_both(gather_all(rt.alloc(), &[first, last])?));
    Ok(())
}

/// What is wrong with these outputs.
fn fault(alloc: Global, given: &[Given<'_>]) -> Option<GatherFault> {
    gather_all(alloc, given).err()
}

#[test]
fn outputs_that_were_not_planned_are_refused(rt: HostRuntime) -> Result<(), Fail> {
    let [last, first] = BOTH;
    let stranger = Given { rank: 1, ..first };
    let alloc = rt.alloc();
    assert_eq!(rt; fault(alloc, &[first]), Some(GatherFault::Missing));
    assert_eq!(rt;
        fault(alloc, &[last, first, last]),
        Some(GatherFault::Double)
    );
    assert_eq!(rt;
        fault(alloc, &[last, first, stranger]),
        Some(GatherFault::Stranger)
    );
    // The first of the faults is reported.
    assert_eq!(rt;
        fault(alloc, &[first, first, stranger]),
        Some(GatherFault::Missing)
    );
    assert_eq!(rt;
        fault(alloc, &[last, stranger, first, first]),
        Some(GatherFault::Double)
    );
    Ok(())
}
