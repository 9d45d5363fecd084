//! The readers that an event names.

ghost use Rattle.std.specs.Prelude.{◌≡◌};
ghost use Rattle.rtps_discovery.specs.Known.{reader_at};
ghost use Rattle.rtps_run.specs.Addressed.{is_named};

use rtps_discovery::{Reader, is_for};
use rtps_types::EntityId;
use std::alloc::Allocator;

/// Whether a reader has this rank, and a reader id is for it. The caller has to look up whether it
/// is matched with the writer of an event.
pub fn is_named<A: Allocator>(readers: &[Option<Reader<A>>], rank: u32, reader: EntityId) -> bool
    ensures { result ≡ is_named reader (reader_at readers.now rank) }
{
    match readers.get(rank as usize) {
        Some(Some(wish)) => is_for(reader, wish.entity()),
        Some(None) => false,
        None => false,
    }
}
