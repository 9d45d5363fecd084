//! Removing writers that are no longer live.

ghost use Rattle.std.specs.Prelude.{◌≡◌, ◌<◌, length, IfNone, IfSome, true, false};
ghost use Rattle.std.specs.List.{list_any};
ghost use Rattle.rtps_types.specs.declared.identity.KeyHash.{KeyHash};
ghost use Rattle.dds_cache.specs.Departing.{Departs, is_by};
ghost use Rattle.dds_cache.specs.Standing.{AreSized, is_pair};

use crate::index::Index;
use crate::instance::note_leave;
use rtps_types::{Guid, KeyHash};
use std::alloc::Allocator;
use std::collections::BTreeSet;

/// Notes that a writer is no longer live in an instance.
pub(crate) fn leave<A: Allocator>(index: &mut Index<A>, writer: Guid, key: KeyHash)
    ensures leaves { Departs (is_pair (writer, key)) index.old index.new }
    ensures fewer { list_any (is_pair (writer, key)) index.old.live.keys ≡ true
        → length index.new.live.keys < length index.old.live.keys }
{
    if index.live.remove(&(writer, key)) {
        note_leave(&mut index.instances, key);
    }
}

/// Returns the first instance in which a writer is live, in order of keys, or `None`.
fn first_live<A: Allocator>(live: &BTreeSet<(Guid, KeyHash), A>, writer: Guid) -> Option<KeyHash>
    ensures first { IfSome result (λ k. list_any (is_pair (writer, k)) live.now.keys ≡ true) }
    ensures none { AreSized live.now.keys → IfNone result
        ((k : KeyHash) → list_any (is_pair (writer, k)) live.now.keys ≡ false) }
{
    let pair = live.range((writer, KeyHash([0; 16]))..).next()?;
    if pair.0 != writer {
        return None;
    }
    Some(pair.1)
}

/// Notes that a writer is no longer live in any instance.
pub(crate) fn leave_all<A: Allocator>(index: &mut Index<A>, writer: Guid)
    ensures leaves { AreSized index.old.live.keys
        → Departs (is_by writer) index.old index.new }
    ensures keep { index.new.keep ≡ index.old.keep }
{
    'pairs: while let Some(key) = first_live(&index.live, writer) {
        leave(index, writer, key);
    }
}
