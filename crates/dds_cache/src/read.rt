//! Reading entries, which stay in the cache.

ghost use Rattle.std.specs.Prelude.{◌≡◌, ◌∷◌, List, OnErr, OnOk, Some, map};
ghost use Rattle.std.specs.Option.{option_map};
ghost use Rattle.rtps_types.specs.declared.identity.KeyHash.{KeyHash};
ghost use Rattle.dds_cache.specs.Answered.{answered};
ghost use Rattle.dds_cache.specs.Calls.{Done, WasRead};
ghost use Rattle.dds_cache.specs.Effects.{ChangesAt, IsSame, each, mark_each, mark_one, read_each, seen};
ghost use Rattle.dds_cache.specs.Lent.{answers_in};
ghost use Rattle.dds_cache.specs.Standing.{StandsBy, known_at, parts};

use crate::answers::Answers;
use crate::choose::{Chosen, choose};
use crate::condition::Condition;
use crate::index::Index;
use crate::instance::note_read;
use crate::shelf::Shelf;
use std::alloc::{AllocError, Allocator};

/// Marks an entry as read, and its instance as not new.
fn read_one<V, A: Allocator>(index: &mut Index<A>, entries: &mut Shelf<V, A>, chosen: Chosen)
    ensures marked { entries.new.entries ≡ mark_one chosen.number entries.old.entries }
    ensures find { ChangesAt chosen.key (option_map seen) (known_at index.old.instances.entries)
        (known_at index.new.instances.entries) }
    ensures same { (index.new.keep ≡ index.old.keep) × (entries.new.next ≡ entries.old.next)
        × (index.new.live.keys ≡ index.old.live.keys) }
{
    entries.mark(chosen.number);
    note_read(&mut index.instances, chosen.key);
}

/// Marks these entries as read, and their instances as not new.
fn mark_all<V, A: Allocator>(index: &mut Index<A>, entries: &mut Shelf<V, A>, chosen: &[Chosen])
    ensures marked { entries.new.entries ≡ mark_each chosen.now entries.old.entries }
    ensures find { (k : KeyHash) → known_at index.new.instances.entries k
        ≡ each read_each chosen.now k (known_at index.old.instances.entries k) }
    ensures same { (index.new.keep ≡ index.old.keep) × (entries.new.next ≡ entries.old.next)
        × (index.new.live.keys ≡ index.old.live.keys) }
{
    for one in chosen {
        read_one(index, entries, *one);
    }
}

/// Reads the first `max` entries that meet a condition, and keeps them as the answers.
pub(crate) fn read_some<V, A: Allocator + Copy>(
    alloc: A,
    index: &mut Index<A>,
    shelf: &mut Answers<V, A>,
    max: usize,
    condition: Condition,
) -> Result<(), AllocError>
    ensures answers { (past : List (Done V))
        → StandsBy past (parts index.old shelf.old.entries)
        → OnOk result (answers_in shelf.new
        ≡ map (λ s. Some s) (answered index.old.keep past max condition)) }
    ensures stands { (past : List (Done V))
        → StandsBy past (parts index.old shelf.old.entries)
        → OnOk result (StandsBy (WasRead max condition ∷ past)
        (parts index.new shelf.new.entries)) }
    ensures keep { index.new.keep ≡ index.old.keep }
    ensures err { OnErr result (IsSame (parts index.old shelf.old.entries)
        (parts index.new shelf.new.entries)) }
{
    let chosen = choose(alloc, &shelf.entries, &index.instances, max, condition)?;
    mark_all(index, &mut shelf.entries, &chosen);
    shelf.answered = chosen;
    Ok(())
}
