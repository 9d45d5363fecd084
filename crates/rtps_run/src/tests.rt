//! The order in which the results of a batch are read.

use crate::{BatchOutput, Item, answers_in_order, in_order};
use dds_topic::{Shape, Shapes};
use rtps_reader::{Notice, NoticeKind, Output};
use rtps_types::{EntityId, Guid, GuidPrefix, Locators, Octets, Place, Reply};
use std::alloc::{AllocError, Global};
use std::test::Fail;

/// An item as a place, the rank of its reader, which discovery hasn't, and whether it is an answer.
type Seen = (Place, Option<u32>, bool);

/// Returns the place of this submessage in datagram 7.
fn at(submessage: u32) -> Place {
    Place {
        datagram: 7,
        submessage,
    }
}

/// Returns a notice at this place, of a match that began.
fn notice(place: Place) -> Notice<Shape> {
    let writer = Guid {
        prefix: GuidPrefix([1; 12]),
        entity: EntityId([0, 0, 1, 2]),
    };
    Notice {
        place,
        writer,
        what: NoticeKind::Matched,
    }
}

/// Returns an answer at this place, which goes nowhere.
fn answer(alloc: Global, place: Place) -> (Place, Reply) {
    let reply = Reply {
        to: Locators::new(Vec::new(alloc)),
        octets: Octets::new(Vec::new(alloc)),
    };
    (place, reply)
}

/// Returns the output of a reader that has notices and answers at these places.
fn output(
    alloc: Global,
    noticed: &[Place],
    answered: &[Place],
) -> Result<Output<Shape>, AllocError> {
    let mut output = Output {
        notices: Vec::new(alloc),
        answers: Vec::new(alloc),
    };
    for place in noticed {
        output.notices.push(notice(*place))?;
    }
    for place in answered {
        output.answers.push(answer(alloc, *place))?;
    }
    Ok(output)
}

/// Returns the results of a batch with five places: one reader reports at two of them, the next one
/// has nothing, and the last one reports and answers.
fn given(alloc: Global) -> Result<BatchOutput<Shape>, AllocError> {
    let mut given = BatchOutput::new(alloc);
    given.places = [at(1), at(2), at(4), at(5), at(6)].to_vec(alloc)?;
    given.answers.push(answer(alloc, at(2)))?;
    given.outputs.push(output(alloc, &[at(2), at(5)], &[])?)?;
    given.outputs.push(output(alloc, &[], &[])?)?;
    let last = output(alloc, &[at(1), at(2), at(2)], &[at(2), at(4)])?;
    given.outputs.push(last)?;
    Ok(given)
}

/// Returns what an item is.
fn seen(item: Item<'_, Shape>) -> Seen {
    match item {
        Item::Notice(rank, notice) => (notice.place, Some(rank), false),
        Item::Answer(rank, (place, _reply)) => (*place, rank, true),
    }
}

#[test]
fn items_come_by_place_then_by_rank_and_notices_before_answers(
    rt: HostRuntime,
) -> Result<(), Fail> {
    let alloc = rt.alloc();
    let given = given(alloc)?;
    let mut all = Vec::new(alloc);
    for item in in_order::<Shapes>(alloc, &given)? {
        all.push(seen(item))?;
    }
    let wanted = [
        (at(1), Some(2), false),
        (at(2), None, true),
        (at(2), Some(0), false),
        (at(2), Some(2), false),
        (at(2), Some(2), false),
        (at(2), Some(2), true),
        (at(4), Some(2), true),
        (at(5), Some(0), false),
    ];
    assert_eq!(rt; all.as_slice(), wanted.as_slice());
    Ok(())
}

#[test]
fn answers_come_without_notices_and_end_with_the_last(rt: HostRuntime) -> Result<(), Fail> {
    let alloc = rt.alloc();
    let given = given(alloc)?;
    let mut items = answers_in_order(alloc, &given)?;
    let mut all = Vec::new(alloc);
    for item in &mut items {
        all.push(seen(item))?;
    }
    let wanted = [
        (at(2), None, true),
        (at(2), Some(2), true),
        (at(4), Some(2), true),
    ];
    assert_eq!(rt; all.as_slice(), wanted.as_slice());
    assert!(rt; items.next().is_none());
    assert!(rt;
        in_order::<Shapes>(alloc, &BatchOutput::new(alloc))?
            .next()
            .is_none()
    );
    Ok(())
}
