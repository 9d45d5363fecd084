//! Tests with too little memory.

ghost use Rattle.std.specs.Prelude.{◌≡◌, Ok};
ghost use Rattle.rtps_discovery.specs.Config.{check_of};

use super::events::{COMES, OFFERS, SQUARES, Said, event_of, payload_of, two_readers};
use super::leases::{self, FIRST, Input, ONE, ONE_SECOND, SECOND, TWO, step};
use super::readers::reader_of_squares;
use crate::{Config, Discovery, ReaderFault, check};
use linked_list_allocator::LocalHeap;
use std::alloc::{Allocator, Global};
use std::test::Fail;

/// Whether there is memory for a change of theirs.
fn is_taken<A: Allocator + Copy>(
    alloc: Global,
    heap: A,
    discovery: &mut Discovery<A>,
    said: Said,
) -> Result<bool, Fail> {
    let payload = payload_of(alloc, said.payload)?;
    let event = event_of(said, payload.as_slice())?;
    Ok(discovery.step(heap, 0, &event).is_ok())
}

/// Returns the number of sets of all matches that there is memory for, up to 64; each has the one
/// match. A set that was refused is made once there is memory again.
fn count_sets<A: Allocator + Copy>(
    alloc: Global,
    heap: A,
    discovery: &Discovery<A>,
) -> Result<usize, Fail> {
    let mut sets = Vec::new(alloc);
    for _ in 0..64 {
        match discovery.matches(heap) {
            Ok(matches) if matches.contains(&(0, SQUARES)) => sets.push(matches)?,
            Ok(_) => return Err(Fail::new("no match")),
            Err(_) => break,
        }
    }
    let count = sets.len();
    drop(sets);
    if count > 0 && !discovery.matches(heap)?.contains(&(0, SQUARES)) {
        return Err(Fail::new("no match"));
    }
    Ok(count)
}

/// Whether there is memory for a participant, its writer and some sets of all matches, but not for
/// 64 sets. Once memory was refused, each event is refused.
fn has_room<A: Allocator + Copy>(
    alloc: Global,
    heap: A,
    mut discovery: Discovery<A>,
) -> Result<bool, Fail> {
    let comes = is_taken(alloc, heap, &mut discovery, COMES)?;
    let offers = is_taken(alloc, heap, &mut discovery, OFFERS)?;
    if offers {
        let sets = count_sets(alloc, heap, &discovery)?;
        return Ok(comes && 0 < sets && sets < 64);
    }
    if is_taken(alloc, heap, &mut discovery, COMES)? {
        return Err(Fail::new("an event is taken after a refused growth"));
    }
    Ok(false)
}

/// Like [`has_room`], for a heap of this size.
fn has_room_in(alloc: Global, config: &Config, size: usize) -> Result<bool, Fail>
    requires { check_of config.now ≡ Ok tt }
{
    let heap = LocalHeap::new(alloc, size)?;
    match Discovery::new(&heap, config) {
        Ok(discovery) => has_room(alloc, &heap, discovery),
        Err(_) => Ok(false),
    }
}

#[test]
fn refused_growths_spend_discovery(rt: HostRuntime) -> Result<(), Fail> {
    let config = two_readers(rt.alloc())?;
    check(&config)?;
    let (mut refused, mut taken) = (false, false);
    for step in 1..64 {
        if has_room_in(rt.alloc(), &config, step * 192)? {
            taken = true;
        } else {
            refused = true;
        }
    }
    assert!(rt; refused && taken);
    Ok(())
}

/// Two participants with two writers each.
const TWO_BY_TWO: [Input; 6] = [
    Input::Comes(ONE, ONE_SECOND),
    Input::Comes(TWO, ONE_SECOND),
    Input::Offers(ONE, 1, FIRST),
    Input::Offers(ONE, 2, SECOND),
    Input::Offers(TWO, 1, FIRST),
    Input::Offers(TWO, 2, SECOND),
];

/// Where memory is refused first.
#[derive(Clone, Copy, Debug, PartialEq)]
enum Refused {
    AtTheStart,
    AtAnInput,
    AsLeasesEnd,
    AsAReaderComes,
    AsAReaderGoes,
    Nowhere,
}

/// Returns the greatest moment, and the numbers of ranks and of known participants and writers.
fn amount_of<A: Allocator + Copy>(discovery: &Discovery<A>) -> (u64, usize, usize, usize) {
    (
        discovery.moment(),
        discovery.readers().len(),
        discovery.participants().len(),
        discovery.writers().len(),
    )
}

/// Whether a reader that comes and one that goes are refused for want of memory.
fn refuses_readers<A: Allocator + Copy>(
    alloc: Global,
    heap: A,
    discovery: &mut Discovery<A>,
) -> Result<bool, Fail> {
    let added = discovery.add_reader(heap, reader_of_squares(alloc, 9)?);
    let removed = discovery.remove_reader(heap, 0);
    Ok(matches!(added, Err(ReaderFault::NoMemory)) && matches!(removed, Err(ReaderFault::NoMemory)))
}

/// Whether a record, a moment and readers are refused, and change nothing.
fn stays_spent<A: Allocator + Copy>(
    alloc: Global,
    heap: A,
    discovery: &mut Discovery<A>,
) -> Result<bool, Fail> {
    let amount = amount_of(discovery);
    let comes = Input::Comes(ONE, ONE_SECOND);
    let is_taken = step(alloc, heap, discovery, comes)?.is_ok();
    let expires = discovery.expire(heap, 9000).is_ok();
    let refuses = refuses_readers(alloc, heap, discovery)?;
    Ok(!is_taken && !expires && refuses && amount_of(discovery) == amount)
}

/// Whether there is memory for the inputs.
fn hears_all<A: Allocator + Copy>(
    alloc: Global,
    heap: A,
    discovery: &mut Discovery<A>,
) -> Result<bool, Fail> {
    for input in TWO_BY_TWO {
        if step(alloc, heap, discovery, input)?.is_err() {
            return Ok(false);
        }
    }
    Ok(true)
}

/// Takes memory in small blocks until it is refused, or 4,096 are taken, but for this number of
/// blocks at its end, and returns them.
fn blocks_but<A: Allocator + Copy>(
    alloc: Global,
    heap: A,
    room: usize,
) -> Result<Vec<Vec<u8, A>>, Fail> {
    let mut blocks = Vec::new(alloc);
    for _ in 0..4096 {
        match Vec::with_capacity(heap, 16) {
            Ok(block) => blocks.push(block)?,
            Err(_) => break,
        }
    }
    for _ in 0..room {
        blocks.pop();
    }
    Ok(blocks)
}

/// Returns where memory is refused first as a reader comes and goes: four writers are matched with
/// it and unmatched. At `full` there is room for this number of blocks alone.
fn reader_refusal<A: Allocator + Copy>(
    alloc: Global,
    heap: A,
    discovery: &mut Discovery<A>,
    (full, room): (Refused, usize),
) -> Result<Refused, Fail> {
    if !hears_all(alloc, heap, discovery)? {
        return Ok(Refused::AtAnInput);
    }
    let mut blocks = Vec::new(alloc);
    if full == Refused::AsAReaderComes {
        blocks = blocks_but(alloc, heap, room)?;
    }
    let Ok((rank, begun)) = discovery.add_reader(heap, reader_of_squares(alloc, 3)?) else {
        drop(blocks);
        return Ok(Refused::AsAReaderComes);
    };
    blocks.clear();
    if full == Refused::AsAReaderGoes {
        blocks = blocks_but(alloc, heap, room)?;
    }
    let Ok(ended) = discovery.remove_reader(heap, rank) else {
        drop(blocks);
        return Ok(Refused::AsAReaderGoes);
    };
    if begun.len() != 4 || ended.len() != 4 {
        return Err(Fail::new("not all begins and ends"));
    }
    Ok(Refused::Nowhere)
}

/// Like [`reader_refusal`], for a new discovery.
fn reader_refusal_of(
    alloc: Global,
    config: &Config,
    full: (Refused, usize),
) -> Result<Refused, Fail>
    requires { check_of config.now ≡ Ok tt }
{
    let heap = LocalHeap::new(alloc, 16_384)?;
    let Ok(mut discovery) = Discovery::new(&heap, config) else {
        return Ok(Refused::AtTheStart);
    };
    let refused = reader_refusal(alloc, &heap, &mut discovery, full)?;
    if refused == Refused::Nowhere || stays_spent(alloc, &heap, &mut discovery)? {
        return Ok(refused);
    }
    Err(Fail::new("something is taken after a refused growth"))
}

#[test]
fn refused_growths_as_a_reader_comes_and_goes(rt: HostRuntime) -> Result<(), Fail> {
    let config = leases::two_readers(rt.alloc())?;
    check(&config)?;
    for full in [Refused::AsAReaderComes, Refused::AsAReaderGoes] {
        let (mut refused, mut is_done) = (0_u32, false);
        for room in 0..128 {
            match reader_refusal_of(rt.alloc(), &config, (full, room))? {
                Refused::Nowhere => is_done = true,
                at => {
                    assert_eq!(rt; at, full);
                    refused = refused.saturating_add(1);
                }
            }
        }
        assert!(rt; 1 < refused && is_done, "{full:?}");
    }
    Ok(())
}

/// Returns where memory is refused first as the leases of both participants end: four writers are
/// unmatched from two readers.
fn refusal_in<A: Allocator + Copy>(
    alloc: Global,
    heap: A,
    mut discovery: Discovery<A>,
) -> Result<Refused, Fail> {
    let mut refused = Refused::Nowhere;
    if !hears_all(alloc, heap, &mut discovery)? {
        refused = Refused::AtAnInput;
    }
    if refused == Refused::Nowhere {
        match discovery.expire(heap, 1001) {
            Ok(ended) if ended.len() == 8 => return Ok(refused),
            Ok(_) => return Err(Fail::new("not all ends")),
            Err(_) => refused = Refused::AsLeasesEnd,
        }
    }
    if stays_spent(alloc, heap, &mut discovery)? {
        return Ok(refused);
    }
    Err(Fail::new("something is taken after a refused growth"))
}

/// Like [`refusal_in`], for a heap of this size.
fn refusal_of(alloc: Global, config: &Config, size: usize) -> Result<Refused, Fail>
    requires { check_of config.now ≡ Ok tt }
{
    let heap = LocalHeap::new(alloc, size)?;
    match Discovery::new(&heap, config) {
        Ok(discovery) => refusal_in(alloc, &heap, discovery),
        Err(_) => Ok(Refused::AtTheStart),
    }
}

#[test]
fn refused_growths_as_leases_end(rt: HostRuntime) -> Result<(), Fail> {
    let config = leases::two_readers(rt.alloc())?;
    check(&config)?;
    let (mut at_an_input, mut as_leases_end, mut nowhere) = (false, false, false);
    for step in 1..512 {
        match refusal_of(rt.alloc(), &config, step * 32)? {
            Refused::AtAnInput => at_an_input = true,
            Refused::AsLeasesEnd => as_leases_end = true,
            Refused::Nowhere => nowhere = true,
            _ => {}
        }
    }
    assert!(rt; at_an_input && as_leases_end && nowhere);
    Ok(())
}
