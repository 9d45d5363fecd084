//! Matches that begin, end, and begin again.

use super::{gap_of, heartbeat_of, whole_of};
use crate::{Matches, ProxyConfig};
use linked_list_allocator::LocalHeap;
use rtps_receiver::EventBody;
use rtps_types::{EntityId, Guid, GuidPrefix, Locators};
use std::alloc::{AllocError, Allocator};
use std::test::Fail;

/// Returns the writer of this key in participant 0a0a..0a.
fn writer_of(key: u8) -> Guid {
    Guid {
        prefix: GuidPrefix([10; 12]),
        entity: EntityId([0, 0, key, 2]),
    }
}

/// What happens to the matches of a reader.
#[derive(Clone, Copy)]
enum Happens {
    /// A match begins with the writer of this key.
    Begin(u8),
    /// The match with it ends.
    End(u8),
    /// A change of that number arrives from it.
    Whole(u8, u64),
    /// A GAP from 1 to that number, without that number.
    Gap(u8, u64),
    /// A HEARTBEAT of the numbers from 1 to that number, with that count.
    Asking(u8, u64, i32),
}

/// The result: the ready change, and the count of the answer; `None` where the writer isn't
/// matched.
type Given = Option<(Option<u64>, Option<u8>)>;

/// Does a step to the matches and returns its result, or an error where memory was refused.
fn come_of<A: Allocator + Copy>(
    alloc: A,
    matches: &mut Matches<A>,
    what: Happens,
) -> Result<Result<Given, AllocError>, Fail> {
    let (key, body) = match what {
        Happens::Begin(key) => return Ok(began(alloc, matches, key)),
        Happens::End(key) => {
            matches.end(writer_of(key));
            return Ok(Ok(None));
        }
        Happens::Whole(key, number) => (key, EventBody::Whole(whole_of(number)?)),
        Happens::Gap(key, base) => (key, EventBody::Gap(gap_of(1, base)?)),
        Happens::Asking(key, last, count) => (
            key,
            EventBody::Heartbeat(heartbeat_of(1, last, count)?),
        ),
    };
    Ok(given(alloc, matches, writer_of(key), &body))
}

/// Begins a match with the writer of a key.
fn began<A: Allocator + Copy>(
    alloc: A,
    matches: &mut Matches<A>,
    key: u8,
) -> Result<Given, AllocError> {
    let config = ProxyConfig {
        own: GuidPrefix([11; 12]),
        writer: writer_of(key),
        reader: EntityId([0, 0, 1, 7]),
        reliable: true,
        locators: Locators::new(Vec::new(alloc)),
    };
    matches.begin(alloc, config)?;
    Ok(None)
}

/// Passes an event to the matches. Returns the first ready change, and the count of the answer,
/// which is the first of its last four octets.
fn given<A: Allocator + Copy>(
    alloc: A,
    matches: &mut Matches<A>,
    writer: Guid,
    body: &EventBody<'_>,
) -> Result<Given, AllocError> {
    let Some(effects) = matches.on_event(alloc, writer, None, body)? else {
        return Ok(None);
    };
    let ready = effects.ready.first().map(|change| change.number.get());
    let count = match &effects.answer {
        Some(answer) => answer.octets.as_slice().iter().rev().nth(3).copied(),
        None => None,
    };
    Ok(Some((ready, count)))
}

/// Steps, with the result of each and the number of matches after it.
const STEPS: [(Happens, Given, usize); 17] = [
    (Happens::Whole(1, 1), None, 0),
    (Happens::Begin(3), None, 1),
    (Happens::Begin(1), None, 2),
    (Happens::Begin(2), None, 3),
    (Happens::Whole(1, 1), Some((Some(1), None)), 3),
    (Happens::Whole(1, 1), Some((None, None)), 3),
    (Happens::Whole(2, 2), Some((None, None)), 3),
    (Happens::Asking(1, 2, 7), Some((None, Some(1))), 3),
    (Happens::Asking(1, 2, 8), Some((None, Some(2))), 3),
    (Happens::Asking(1, 2, 8), Some((None, None)), 3),
    // A held change of another writer stays; a match that begins again has no history.
    (Happens::Begin(1), None, 3),
    (Happens::Whole(1, 1), Some((Some(1), None)), 3),
    (Happens::Asking(1, 2, 8), Some((None, Some(1))), 3),
    (Happens::Gap(2, 2), Some((Some(2), None)), 3),
    (Happens::End(3), None, 2),
    (Happens::Whole(3, 1), None, 2),
    (Happens::End(3), None, 2),
];

#[test]
fn begin_end_and_begin_again(rt: HostRuntime) -> Result<(), Fail> {
    let mut matches = Matches::new(rt.alloc());
    for &(what, expected, count) in &STEPS {
        assert_eq!(rt; come_of(rt.alloc(), &mut matches, what)?, Ok(expected));
        assert_eq!(rt; matches.len(), count);
    }
    let mut writers = matches.writers();
    assert_eq!(rt; writers.next(), Some(&writer_of(1)));
    assert_eq!(rt; writers.next(), Some(&writer_of(2)));
    assert_eq!(rt; writers.next(), None);
    Ok(())
}

#[test]
fn refused_growths(rt: HostRuntime) -> Result<(), Fail> {
    let (mut unbegun, mut untaken, mut taken) = (false, false, false);
    for step in 1..128 {
        let heap = LocalHeap::new(rt.alloc(), step * 64)?;
        let mut matches = Matches::new(&heap);
        if come_of(&heap, &mut matches, Happens::Begin(1))?.is_err() {
            // A match that could not begin is not in the list.
            assert_eq!(rt; matches.len(), 0);
            unbegun = true;
        } else if come_of(&heap, &mut matches, Happens::Whole(1, 2))?.is_ok() {
            taken = true;
        } else {
            // From then on each event of that writer is refused.
            assert_eq!(rt;
                come_of(&heap, &mut matches, Happens::Gap(1, 2))?,
                Err(AllocError)
            );
            assert_eq!(rt; matches.len(), 1);
            untaken = true;
        }
    }
    assert!(rt; unbegun && untaken && taken);
    Ok(())
}
