//! Lists by rank.

ghost use Rattle.std.specs.Prelude.{◌≡◌, ℕ, ◌<◌, ◌==◌, ◌++◌, [], ◌∷◌, IfOk, OnErr, OnOk, if◌then◌else◌, length, slice_index_or};

use std::alloc::{AllocError, Allocator};

/// Returns `count` empty lists. An error is a refused growth.
pub fn empty_lists<T: Drop, A: Allocator + Copy>(
    alloc: A,
    count: usize,
) -> Result<Vec<Vec<T, A>, A>, AllocError>
    ensures count { IfOk result (λ lists. length lists.items ≡ count) }
    ensures empty { IfOk result (λ lists. (rank : ℕ) (other : _) → rank < count
        → (slice_index_or lists.items rank other).items ≡ []) }
{
    let mut lists = Vec::new(alloc);
    for _at in 0..count {
        lists.push(Vec::new(alloc))?;
    }
    Ok(lists)
}

/// Appends an item to the list of its rank. A rank that has no list changes nothing. An error is a
/// refused growth, after which the lists are unchanged.
pub fn push_by<T: Drop, A: Allocator>(
    lists: &mut Vec<Vec<T, A>, A>,
    rank: u32,
    item: T,
) -> Result<(), AllocError>
    ensures count { length lists.new.items ≡ length lists.old.items }
    ensures pushed { OnOk result ((at : ℕ) (other : _) → at < length lists.old.items
        → (slice_index_or lists.new.items at other).items
        ≡ (if rank == at then (slice_index_or lists.old.items at other).items
        ++ item ∷ [] else (slice_index_or lists.old.items at other).items)) }
    ensures refused { OnErr result ((at : ℕ) (other : _) → at < length lists.old.items
        → (slice_index_or lists.new.items at other).items
        ≡ (slice_index_or lists.old.items at other).items) }
{
    let at = rank as usize;
    if at >= lists.len() {
        return Ok(());
    }
    lists[at].push(item)?;
    Ok(())
}
