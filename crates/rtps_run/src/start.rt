//! The readers of a configuration at the start of a run.

ghost use Rattle.std.specs.Prelude.{◌≡◌, List, ℕ, ◌<◌, ◌≤◌, IfOk, Some, length, map, slice_index_or};
ghost use Rattle.rtps_reader.specs.Reader.{Facts};
ghost use Rattle.rtps_reader.specs.Standing.{facts_in};
ghost use Rattle.rtps_run.specs.Run.{fixed_of, reader_first};
ghost use Rattle.rtps_run.specs.Standing.{AllStart};
ghost use Rattle.rtps_run.specs.World.{is_reliable};

use crate::lists::{empty_lists, push_by};
use dds_qos::Reliability;
use rtps_discovery::{FixedMatch, ReaderConfig};
use rtps_reader::{ReaderState, Status};
use rtps_types::{Guid, GuidPrefix, Locators, WriterFacts};
use std::alloc::{AllocError, Allocator};

/// Returns for each rank the writers that its reader has fixed matches with. An error is a refused
/// growth.
pub fn fixed_by_rank<A: Allocator + Copy>(
    alloc: A,
    readers: usize,
    fixed: &[FixedMatch],
) -> Result<Vec<Vec<WriterFacts<A>, A>, A>, AllocError>
    ensures count { IfOk result (λ lists. length lists.items ≡ readers) }
    ensures fixed { IfOk result (λ lists. (rank : ℕ) (other : _) → rank < readers
        → map facts_in (slice_index_or lists.items rank other).items ≡ fixed_of fixed.now rank) }
{
    let mut lists = empty_lists(alloc, readers)?;
    for pair in fixed {
        let locators = Locators::copied(alloc, pair.locators.as_slice())?;
        let facts = WriterFacts {
            writer: pair.writer,
            locators,
        };
        push_by(&mut lists, pair.rank, facts)?;
    }
    Ok(lists)
}

/// Whether a reader is reliable, so that it asks for missing changes.
pub fn is_reliable(reader: &ReaderConfig) -> bool
    ensures { result ≡ is_reliable reader.now.requested.policies.reliability }
{
    matches!(reader.requested.policies.reliability, Reliability::Reliable)
}

/// Returns the readers of a participant by rank, before any event. `own` is the participant's
/// prefix; `fixed` has for each rank the writers that its reader has fixed matches with. An error
/// is a refused growth.
pub fn first_readers<A: Allocator + Copy>(
    alloc: A,
    own: GuidPrefix,
    readers: &[ReaderConfig],
    fixed: &[Vec<WriterFacts<A>, A>],
) -> Result<Vec<ReaderState<A>, A>, AllocError>
    requires fixed { length fixed.now ≡ length readers.now }
    requires few { length readers.now ≤ 256 }
    ensures count { IfOk result (λ states. length states.items ≡ length readers.now) }
    ensures start { (matched : ℕ → List Facts) → ((rank : ℕ) (other : _) → rank < length readers.now
        → map facts_in (slice_index_or fixed.now rank other).items ≡ matched rank)
        → IfOk result (λ states. AllStart (λ rank. reader_first own readers.now rank
        (matched rank)) states.items) }
{
    let mut states = Vec::new(alloc);
    for (rank, reader) in readers.iter().enumerate() {
        let fixed = fixed[rank].as_slice();
        let reliable = is_reliable(reader);
        let guid = Guid {
            prefix: own,
            entity: reader.entity,
        };
        let state = ReaderState::new(alloc, rank as u32, guid, reliable, fixed)?;
        states.push(state)?;
    }
    Ok(states)
}

/// Returns the statuses of these readers, which are all there. An error is a refused growth.
pub fn first_statuses<A: Allocator + Copy>(
    alloc: A,
    readers: &[ReaderState<A>],
) -> Result<Vec<Option<Status>, A>, AllocError>
    ensures { IfOk result (λ statuses. statuses.items ≡ map (λ r. Some r.status) readers.now) }
{
    let mut statuses = Vec::new(alloc);
    for reader in readers {
        statuses.push(Some(reader.status()))?;
    }
    Ok(statuses)
}
