//! Why a reader of ours can't come or go.

ghost use Rattle.std.specs.Prelude.{◌≡◌, ◌<◌, count_by, false, length, is_some, None, true};
ghost use Rattle.std.specs.List.{list_any};
ghost use Rattle.rtps_discovery.specs.Known.{reader_at};
ghost use Rattle.rtps_discovery.specs.ReaderFaults.{adding_fault, has_entity, is_bad, is_full, name_of};
ghost use Rattle.rtps_discovery.specs.Start.{wish_of};
ghost use Rattle.rtps_discovery.specs.declared.reader_faults.ReaderFault.TheVariants.{NoMemory};

use crate::config::ReaderConfig;
use crate::faults::{READER_LIMIT, is_bad_reader};
use crate::known::Reader;
use rtps_types::EntityId;
use std::alloc::{AllocError, Allocator};
use thiserror::Error;

/// Why a reader can't be added or removed: the first of its faults in this order.
#[derive(Clone, Copy, Debug, PartialEq, Eq, Error)]
pub enum ReaderFault {
    /// There are 256 readers already, or 4,096 were added since the start.
    #[error("there is no room for another reader")]
    Full,
    /// A reader whose kind, the last octet of its entity, is neither 04 nor 07 (DDSI-RTPS 9.3.1.2),
    /// which has the entity of a reader that is there, or which doesn't share ownership.
    #[error("the reader isn't taken")]
    BadReader,
    /// No reader has this rank: it was never given, or its reader was removed.
    #[error("there is no reader with this rank")]
    NoReader,
    /// Memory was refused, now or at an earlier call.
    #[error("out of memory")]
    NoMemory,
}

impl From<AllocError> for ReaderFault {
    ghost from_gives = { λ _ fault. fault ≡ NoMemory };

    fn from(_failed: AllocError) -> ReaderFault {
        ReaderFault::NoMemory
    }
}

impl ReaderFault {
    /// The name of the fault, for messages. No memory is taken.
    pub fn name(self) -> &'static str
        ensures { result.now ≡ name_of self }
    {
        match self {
            ReaderFault::Full => "Full",
            ReaderFault::BadReader => "BadReader",
            ReaderFault::NoReader => "NoReader",
            ReaderFault::NoMemory => "NoMemory",
        }
    }
}

/// The greatest number of ranks that are given.
pub(crate) const RANK_LIMIT: usize = 4096;

/// The number of readers that are there.
fn number_present<A: Allocator>(readers: &[Option<Reader<A>>]) -> usize
    ensures { result ≡ count_by is_some readers.now }
{
    readers.iter().filter(|reader| reader.is_some()).count()
}

/// Whether there is no room for another reader.
fn is_full<A: Allocator>(readers: &[Option<Reader<A>>]) -> bool
    ensures full { result ≡ is_full readers.now }
    ensures room { result ≡ false → length readers.now < 4096 }
{
    number_present(readers) >= READER_LIMIT || readers.len() >= RANK_LIMIT
}

/// Whether a reader is there and has this entity.
fn has_entity<A: Allocator>(reader: &Option<Reader<A>>, entity: EntityId) -> bool
    ensures { result ≡ has_entity entity reader.now }
{
    match reader {
        Some(reader) => entity == reader.entity,
        None => false, // whatever its entity was
    }
}

/// Whether one of the readers has this entity.
fn is_taken<A: Allocator>(readers: &[Option<Reader<A>>], entity: EntityId) -> bool
    ensures { result ≡ list_any (has_entity entity) readers.now }
{
    readers.iter().any(|reader| has_entity(reader, entity))
}

/// Returns why a reader can't be added to these, if it can't.
#[tactic(auto, unfolding(crate::specs::ReaderFaults::adding_fault))]
pub(crate) fn adding_fault<A: Allocator>(
    readers: &[Option<Reader<A>>],
    reader: &ReaderConfig,
) -> Option<ReaderFault>
    ensures fault { result ≡ adding_fault readers.now (wish_of reader.now) }
    ensures room { result ≡ None → length readers.now < 4096 }
{
    if is_full(readers) {
        return Some(ReaderFault::Full);
    }
    if is_bad_reader(reader) || is_taken(readers, reader.entity) {
        return Some(ReaderFault::BadReader);
    }
    None
}

/// Whether the reader of a rank is there.
pub(crate) fn has_reader<A: Allocator>(readers: &[Option<Reader<A>>], rank: u32) -> bool
    ensures there { result ≡ is_some (reader_at readers.now rank) }
    ensures within { result ≡ true → rank < length readers.now }
{
    match readers.get(rank as usize) {
        Some(reader) => reader.is_some(),
        None => false,
    }
}
