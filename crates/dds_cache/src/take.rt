//! Taking entries out of the cache.

ghost use Rattle.std.specs.Prelude.{◌≡◌, ◌+◌, ◌≤◌, ◌∷◌, ◌++◌, IfOk, List, OnErr, OnOk, length, option_to_list, vec_capacity, vec_len};
ghost use Rattle.dds_cache.specs.Answered.{answered, unread};
ghost use Rattle.dds_cache.specs.Calls.{Done, WasTaken};
ghost use Rattle.rtps_types.specs.declared.identity.KeyHash.{KeyHash};
ghost use Rattle.std.specs.Option.{option_map};
ghost use Rattle.std.specs.Map.{lookup, remove_entry};
ghost use Rattle.dds_cache.specs.Effects.{ChangesAt, IsSame, each, shown_as, spend_each, spent, take_each, take_shown};
ghost use Rattle.dds_cache.specs.Standing.{StandsBy, is_number, known_at, parts};

use crate::choose::{Chosen, States, choose};
use crate::condition::Condition;
use crate::entry::{Entry, Sample, Taken};
use crate::index::Index;
use crate::instance::note_taken;
use crate::shelf::Shelf;
use std::alloc::{AllocError, Allocator};

impl<V> Entry<V> {
    /// Returns this entry with the states in `chosen`.
    pub fn into_sample(self, chosen: Chosen) -> Taken<V>
        ensures { result ≡ shown_as self chosen }
    {
        Sample {
            place: self.place,
            writer: self.writer,
            number: self.number,
            time: self.time,
            key: self.key,
            body: self.body,
            sample: chosen.sample,
            view: chosen.view,
            instance: chosen.instance,
        }
    }
}

/// Removes an entry from the cache and returns it.
pub(crate) fn forget<V, A: Allocator>(
    index: &mut Index<A>,
    entries: &mut Shelf<V, A>,
    chosen: Chosen,
) -> Option<Entry<V>>
    ensures entry { result ≡ lookup (is_number chosen.number) entries.old.entries }
    ensures left { entries.new.entries
        ≡ remove_entry (is_number chosen.number) entries.old.entries }
    ensures find { ChangesAt chosen.key (option_map (spent chosen.number))
        (known_at index.old.instances.entries) (known_at index.new.instances.entries) }
    ensures same { (index.new.keep ≡ index.old.keep) × (entries.new.next ≡ entries.old.next)
        × (index.new.live.keys ≡ index.old.live.keys) }
{
    note_taken(&mut index.instances, chosen.key, chosen.number);
    entries.remove(chosen.number)
}

/// Removes these entries, and appends each with its states to `taken`, which has room for them.
pub(crate) fn hand_over<V: Drop, A: Allocator + Copy>(
    index: &mut Index<A>,
    entries: &mut Shelf<V, A>,
    chosen: &[Chosen],
    taken: &mut Vec<Taken<V>, A>,
)
    requires { vec_len taken.old + length chosen.now ≤ vec_capacity taken.old }
    ensures taken { taken.new.items
        ≡ taken.old.items ++ take_shown chosen.now entries.old.entries }
    ensures left { entries.new.entries ≡ take_each chosen.now entries.old.entries }
    ensures find { (k : KeyHash) → known_at index.new.instances.entries k
        ≡ each spend_each chosen.now k (known_at index.old.instances.entries k) }
    ensures same { (index.new.keep ≡ index.old.keep) × (entries.new.next ≡ entries.old.next)
        × (index.new.live.keys ≡ index.old.live.keys) }
{
    for one in chosen {
        if let Some(entry) = forget(index, entries, *one) {
            let _room = taken.push(entry.into_sample(*one));
        }
    }
}

/// Removes and returns the first `max` entries that meet a condition.
pub(crate) fn take_some<V: Drop, A: Allocator + Copy>(
    alloc: A,
    index: &mut Index<A>,
    entries: &mut Shelf<V, A>,
    max: usize,
    condition: Condition,
) -> Result<Vec<Taken<V>, A>, AllocError>
    ensures answers { (past : List (Done V))
        → StandsBy past (parts index.old entries.old)
        → IfOk result (λ taken. taken.items ≡ answered index.old.keep past max condition) }
    ensures stands { (past : List (Done V))
        → StandsBy past (parts index.old entries.old)
        → OnOk result (StandsBy (WasTaken max condition ∷ past)
        (parts index.new entries.new)) }
    ensures keep { index.new.keep ≡ index.old.keep }
    ensures err { OnErr result (IsSame (parts index.old entries.old)
        (parts index.new entries.new)) }
{
    let chosen = choose(alloc, entries, &index.instances, max, condition)?;
    let mut taken = Vec::with_capacity(alloc, chosen.len())?;
    hand_over(index, entries, &chosen, &mut taken);
    Ok(taken)
}

/// Removes and returns the first unread entry. No memory is taken.
pub(crate) fn take_next<V: Drop, A: Allocator>(
    index: &mut Index<A>,
    entries: &mut Shelf<V, A>,
) -> Option<Taken<V>>
    ensures answer { (past : List (Done V))
        → StandsBy past (parts index.old entries.old)
        → option_to_list result ≡ answered index.old.keep past 1 unread }
    ensures stands { (past : List (Done V))
        → StandsBy past (parts index.old entries.old)
        → StandsBy (WasTaken 1 unread ∷ past) (parts index.new entries.new) }
    ensures keep { index.new.keep ≡ index.old.keep }
{
    let Some(number) = entries.first_unread() else {
        return None;
    };
    let Some(entry) = entries.get(number) else {
        return None;
    };
    let chosen = States::of(&index.instances, entry.key).show(number, entry);
    match forget(index, entries, chosen) {
        Some(entry) => Some(entry.into_sample(chosen)),
        None => None,
    }
}
