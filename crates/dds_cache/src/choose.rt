//! Chooses the entries that a call returns, and their states.

ghost use Rattle.std.specs.Prelude.{◌≡◌, ◌+◌, ◌<◌, ◌^◌, IfOk, None, Some, filter, if◌then◌else◌, length, map, nat_lt};
ghost use Rattle.dds_cache.specs.Answered.{sample_state, view_state};
ghost use Rattle.dds_cache.specs.Instances.{state_by};
ghost use Rattle.dds_cache.specs.Cache.{first_by};
ghost use Rattle.dds_cache.specs.Effects.{AddsFirst, chosen_by, judged_at, looked, passes};
ghost use Rattle.dds_cache.specs.Placed.{placed};
ghost use Rattle.dds_cache.specs.Standing.{Rising, count_in, disposed_in, known_at, new_in, not_yet, numbers};

use crate::condition::Condition;
use crate::entry::Entry;
use crate::instance::Instances;
use crate::shelf::Shelf;
use crate::state::{InstanceState, SampleState, ViewState};
use rtps_types::KeyHash;
use std::alloc::{AllocError, Allocator};
use std::collections::{BTreeMap, BTreeSet, VecDeque};

/// An entry that a call returns, with its states before the call.
#[derive(Clone, Copy)]
pub(crate) struct Chosen {
    pub number: u64,
    pub key: KeyHash,
    pub sample: SampleState,
    pub view: ViewState,
    pub instance: InstanceState,
}

/// The facts that decide the states of an instance.
#[derive(Clone, Copy)]
pub(crate) struct States {
    pub is_new: bool,
    pub is_disposed: bool,
    /// Whether a writer is live in it.
    pub is_written: bool,
}

impl States {
    /// Returns the facts of the instance with a key.
    pub fn of<A: Allocator>(instances: &Instances<A>, key: KeyHash) -> States
        ensures { let known = known_at instances.now.entries key in
            result ≡ (record {
              is_new = new_in known;
              is_disposed = disposed_in known;
              is_written = nat_lt 0 (count_in known);
            }) }
    {
        match instances.get(&key) {
            Some(instance) => States {
                is_new: instance.is_new,
                is_disposed: instance.is_disposed,
                is_written: instance.live > 0,
            },
            None => States {
                is_new: true,
                is_disposed: false,
                is_written: false,
            },
        }
    }

    /// Returns an entry as it is chosen, with its own state and these of its instance.
    pub fn show<V>(self, number: u64, entry: &Entry<V>) -> Chosen
        ensures { result ≡ (record {
          number = number;
          key = entry.now.key;
          sample = sample_state entry.now.is_read;
          view = view_state self.is_new;
          instance = state_by self.is_disposed self.is_written;
        }) }
    {
        Chosen {
            number,
            key: entry.key,
            sample: if entry.is_read {
                SampleState::Read
            } else {
                SampleState::NotRead
            },
            view: if self.is_new {
                ViewState::New
            } else {
                ViewState::NotNew
            },
            instance: if self.is_disposed {
                InstanceState::Disposed
            } else if self.is_written {
                InstanceState::Alive
            } else {
                InstanceState::NoWriters
            },
        }
    }
}

/// Returns an entry with its states if it meets a condition, else `None`.
fn judge<V, A: Allocator>(
    number: u64,
    entry: &Entry<V>,
    instances: &Instances<A>,
    condition: Condition,
) -> Option<Chosen>
    ensures { let find = known_at instances.now.entries in
        result ≡ (if passes find condition (number, entry.now)
        then Some (chosen_by find (number, entry.now)) else None) }
{
    let states = States::of(instances, entry.key);
    let is_alive = !states.is_disposed && states.is_written;
    if condition.not_read && entry.is_read
        || condition.new && !states.is_new
        || condition.alive && !is_alive
    {
        return None;
    }
    Some(states.show(number, entry))
}

/// Like [`judge`], for a place that may be empty.
fn judge_place<V, A: Allocator>(
    number: u64,
    place: &Option<Entry<V>>,
    instances: &Instances<A>,
    condition: Condition,
) -> Option<Chosen>
    ensures { result ≡ judged_at (known_at instances.now.entries) condition number place.now }
{
    match place {
        Some(entry) => judge(number, entry, instances, condition),
        None => None,
    }
}

/// What a call asks for: at most `max` entries that meet a condition.
#[derive(Clone, Copy)]
struct Wanted {
    max: usize,
    condition: Condition,
}

/// Appends the wanted entries among these, in order. Returns the number still wanted.
fn choose_all<V, A: Allocator>(
    chosen: &mut Vec<Chosen, A>,
    entries: &BTreeMap<u64, Entry<V>, A>,
    instances: &Instances<A>,
    wanted: Wanted,
) -> Result<usize, AllocError>
    ensures { let find = known_at instances.now.entries in
        IfOk result (AddsFirst (passes find wanted.condition) (chosen_by find) wanted.max
        entries.now.entries chosen.old.items chosen.new.items) }
{
    let mut left = wanted.max;
    let mut rest = entries.iter();
    'entries: while left > 0 {
        let Some((number, entry)) = rest.next() else {
            return Ok(left);
        };
        if let Some(one) = judge(*number, entry, instances, wanted.condition) {
            chosen.push(one)?;
            left -= 1;
        }
    }
    Ok(left)
}

/// Appends the wanted entries among those with these numbers, in order. Returns the number still
/// wanted.
fn choose_unread<V, A: Allocator>(
    chosen: &mut Vec<Chosen, A>,
    entries: &BTreeMap<u64, Entry<V>, A>,
    numbers: &BTreeSet<u64, A>,
    instances: &Instances<A>,
    wanted: Wanted,
) -> Result<usize, AllocError>
    ensures { let find = known_at instances.now.entries in
        IfOk result (AddsFirst (passes find wanted.condition) (chosen_by find) wanted.max
        (looked entries.now.entries numbers.now.keys) chosen.old.items chosen.new.items) }
{
    let mut left = wanted.max;
    let mut rest = numbers.iter();
    'numbers: while left > 0 {
        let Some(number) = rest.next() else {
            return Ok(left);
        };
        if let Some(entry) = entries.get(number) {
            if let Some(one) = judge(*number, entry, instances, wanted.condition) {
                chosen.push(one)?;
                left -= 1;
            }
        }
    }
    Ok(left)
}

/// Appends the wanted entries of the tree, in order. If the condition is for unread entries, only
/// these are looked at. Returns the number still wanted.
fn choose_old<V, A: Allocator>(
    chosen: &mut Vec<Chosen, A>,
    entries: &BTreeMap<u64, Entry<V>, A>,
    unread: &BTreeSet<u64, A>,
    instances: &Instances<A>,
    wanted: Wanted,
) -> Result<usize, AllocError>
    ensures { let find = known_at instances.now.entries in
        unread.now.keys ≡ numbers (filter not_yet entries.now.entries)
        → Rising 0 entries.now.entries
        → IfOk result (AddsFirst (passes find wanted.condition) (chosen_by find) wanted.max
        entries.now.entries chosen.old.items chosen.new.items) }
{
    if wanted.condition.not_read {
        choose_unread(chosen, entries, unread, instances, wanted)
    } else {
        choose_all(chosen, entries, instances, wanted)
    }
}

/// Appends the wanted entries of the row, in order; `first` is the number of its first place.
/// Returns the number still wanted.
fn choose_placed<V, A: Allocator>(
    chosen: &mut Vec<Chosen, A>,
    first: u64,
    row: &VecDeque<Option<Entry<V>>, A>,
    instances: &Instances<A>,
    wanted: Wanted,
) -> Result<usize, AllocError>
    requires { first + length row.now.items < 2 ^ 64 }
    ensures { let find = known_at instances.now.entries in
        IfOk result (AddsFirst (passes find wanted.condition) (chosen_by find) wanted.max
        (placed first row.now.items) chosen.old.items chosen.new.items) }
{
    let mut number = first;
    let mut left = wanted.max;
    let mut rest = row.iter();
    'places: while left > 0 {
        let Some(place) = rest.next() else {
            return Ok(left);
        };
        let at = number;
        number += 1;
        if let Some(one) = judge_place(at, place, instances, wanted.condition) {
            chosen.push(one)?;
            left -= 1;
        }
    }
    Ok(left)
}

/// Returns the first `max` entries that meet a condition, in order of acceptance.
pub(crate) fn choose<V, A: Allocator + Copy>(
    alloc: A,
    shelf: &Shelf<V, A>,
    instances: &Instances<A>,
    max: usize,
    condition: Condition,
) -> Result<Vec<Chosen, A>, AllocError>
    ensures { let find = known_at instances.now.entries in
        IfOk result (λ chosen. chosen.items ≡ map (chosen_by find)
        (first_by (passes find condition) max shelf.now.entries)) }
{
    let mut chosen = Vec::new(alloc);
    let wanted = Wanted { max, condition };
    let max = choose_old(
        &mut chosen,
        &shelf.tree,
        &shelf.tree_unread,
        instances,
        wanted,
    )?;
    let wanted = Wanted { max, condition };
    choose_placed(&mut chosen, shelf.first, &shelf.row, instances, wanted)?;
    Ok(chosen)
}
