//! The greatest inputs of a reader, with enough memory.

use crate::*;
use dds_topic::{Decoder, Raw};
use rtps_receiver::{Event, EventBody, Whole};
use rtps_types::{EntityId, Guid, GuidPrefix, Locators, Number, Place, WriterFacts};
use rtps_wire::{ChangeInfo, Form};
use std::alloc::{AllocError, Global};
use std::collections::BTreeSet;
use std::test::Fail;

const READER: EntityId = EntityId([0, 0, 1, 7]);

/// Returns the writer of a participant whose prefix repeats one octet.
fn writer(participant: u8) -> Guid {
    Guid {
        prefix: GuidPrefix([participant; 12]),
        entity: EntityId([0, 0, 1, 2]),
    }
}

/// Returns a best-effort reader with the greatest rank, matched with 255 writers.
fn reader(alloc: Global) -> Result<ReaderState, AllocError> {
    let mut fixed = Vec::new(alloc);
    for participant in 0..255 {
        fixed.push(WriterFacts {
            writer: writer(participant),
            locators: Locators::new(Vec::new(alloc)),
        })?;
    }
    let guid = Guid {
        prefix: GuidPrefix([0xff; 12]),
        entity: READER,
    };
    ReaderState::new(alloc, u32::MAX, guid, false, fixed.as_slice())
}

/// The longest payload in a datagram of 65,507 octets.
fn longest(alloc: Global) -> Result<Vec<u8>, AllocError> {
    let mut payload = Vec::new(alloc);
    for _ in 0..65_463 {
        payload.push(0)?;
    }
    Ok(payload)
}

/// Returns the change with the greatest number, from the last writer, at the greatest place.
fn greatest<'a>(payload: &'a [u8]) -> Result<Event<'a>, Fail> {
    let Some(number) = Number::new(4_611_686_018_427_387_904) else {
        return Err(Fail::new("2^62 is no number"));
    };
    Ok(Event {
        place: Place {
            datagram: u64::MAX,
            submessage: u32::MAX,
        },
        source: GuidPrefix([254; 12]),
        time: None,
        writer: EntityId([0, 0, 1, 2]),
        reader: READER,
        body: EventBody::Whole(Whole {
            number,
            info: ChangeInfo {
                form: Form::Value,
                status: 0,
                hash: None,
            },
            payload,
        }),
    })
}

/// Whether a reader presents a change with all of its octets, and counts it.
fn presents(alloc: Global, reader: &mut ReaderState, event: &Event<'_>) -> Result<bool, Fail> {
    let mut output = Output {
        notices: Vec::new(alloc),
        answers: Vec::new(alloc),
    };
    let mut decoder = Decoder::new(alloc, Raw);
    reader.step(alloc, &mut decoder, &Step::of_event(event), &mut output)?;
    let is_whole = match output.notices.first() {
        Some(
            Notice {
                what: NoticeKind::Sample {
                    body: Body::Value(_, value),
                    ..
                },
                ..
            },
        ) => value.body.len() == 65_459,
        _ => false,
    };
    Ok(is_whole && output.notices.len() == 1 && reader.status().samples == 1)
}

/// Whether a reader lists all its matches, with its rank.
fn names_all(alloc: Global, reader: &ReaderState) -> Result<bool, Fail> {
    let mut matches = BTreeSet::new(alloc);
    reader.add_matches(&mut matches)?;
    Ok(
        matches.len() == 255
            && matches.first().copied() == Some((u32::MAX, writer(0)))
            && matches.last().copied() == Some((u32::MAX, writer(254))),
    )
}

/// Whether a reader has its rank and entity id, and presents the greatest change.
fn takes_the_most(alloc: Global, reader: &mut ReaderState, payload: &[u8]) -> Result<bool, Fail> {
    Ok(
        reader.rank() == u32::MAX
            && reader.entity() == READER
            && names_all(alloc, reader)?
            && presents(alloc, reader, &greatest(payload)?)?,
    )
}

/// The same for a new reader.
fn takes_the_most_from_new(alloc: Global) -> Result<bool, Fail> {
    let payload = longest(alloc)?;
    let mut reader = reader(alloc)?;
    takes_the_most(alloc, &mut reader, &payload)
}

#[test]
fn the_most_is_taken(rt: HostRuntime) -> Result<(), Fail> {
    assert!(rt; takes_the_most_from_new(rt.alloc())?);
    Ok(())
}
