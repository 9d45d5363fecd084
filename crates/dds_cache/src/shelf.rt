//! The entries of a cache, in order of acceptance.

ghost use Rattle.std.specs.Prelude.{◌≡◌, ◌+◌, ◌<◌, ◌++◌, ◌∷◌, [], ◌&&◌, IfErr, IfOk, OnErr, OnOk, count_by, filter, if◌then◌else◌, is_some, length, not, position, slice_get};
ghost use Rattle.std.specs.Bool.{OnFalse};
ghost use Rattle.std.specs.BTreeMap.{insert_entry};
ghost use Rattle.std.specs.BTreeSet.{insert_key};
ghost use Rattle.std.specs.List.{list_any};
ghost use Rattle.std.specs.Map.{lookup, remove_entry};
ghost use Rattle.std.specs.Option.{option_copied, option_map};
ghost use Rattle.std.specs.Ordering.{nat_cmp};
ghost use Rattle.std.specs.Set.{remove_key};
ghost use Rattle.std.specs.VecDeque.{deque_capacity};
ghost use Rattle.dds_cache.specs.Cache.{marked};
ghost use Rattle.dds_cache.specs.Effects.{mark_one};
ghost use Rattle.dds_cache.specs.Placed.{HasRoom, emptied_at, entry_at, is_unread, marked_at, with_settled, with_unread};
ghost use Rattle.dds_cache.specs.Standing.{is_number, not_yet, numbers};

use crate::entry::Entry;
use std::alloc::{AllocError, Allocator};
use std::collections::{BTreeMap, BTreeSet, VecDeque};
use std::marker::Model;

/// The number of places in the row. An entry there is found without a search, and a call that goes
/// over the entries meets at most this many empty places.
const PLACES: usize = 64;

/// The entries of a cache. The number of an entry is the count of those accepted before it.
///
/// A new entry is put at a place of a row. With a short history most entries leave from there, when
/// a newer one of their instance comes. Entries that stay longer are moved to a tree.
#[derive(Drop)]
pub(crate) struct Shelf<V, A: Allocator> {
    /// The number of the first place.
    pub first: u64,
    /// The entries with lower numbers, which were moved out of the row.
    pub tree: BTreeMap<u64, Entry<V>, A>,
    /// The numbers of the unread entries of the tree.
    pub tree_unread: BTreeSet<u64, A>,
    /// The newest entries; `None` where one has left.
    pub row: VecDeque<Option<Entry<V>>, A>,
}

impl<V, A: Allocator> Model for Shelf<V, A> {
    ghost use Rattle.std.specs.VecDeque.{deque_capacity};
    ghost use Rattle.dds_cache.specs.Placed.{ShelfView, shelf_view};
    ghost use Rattle.dds_cache.specs.Shelved.{IsShelf};

    ghost Value = { ShelfView V };

    ghost view = { λ s. shelf_view s.first s.tree.entries s.row.items (deque_capacity s.row) };

    ghost invariant = { λ s. IsShelf s.first s.tree.entries s.tree_unread.keys s.row.items };
}

impl<V, A: Allocator> Shelf<V, A> {
    /// The number that the next entry gets.
    pub fn next(&self) -> u64
        ensures { result ≡ self.now.next }
    {
        self.first + self.row.len() as u64
    }

    /// Returns the entry with a number.
    pub fn get(&self, number: u64) -> Option<&Entry<V>>
        ensures { option_copied result ≡ lookup (is_number number) self.now.entries }
    {
        if number < self.first {
            return self.tree.get(&number);
        }
        lent_at(&self.row, (number - self.first) as usize)
    }

    /// Removes the entry with a number and returns it.
    pub fn remove(&mut self, number: u64) -> Option<Entry<V>>
        ensures entry { result ≡ lookup (is_number number) self.old.entries }
        ensures left { self.new.entries ≡ remove_entry (is_number number) self.old.entries }
        ensures next { self.new.next ≡ self.old.next }
    {
        if number < self.first {
            return take_old(&mut self.tree, &mut self.tree_unread, number);
        }
        take_at(&mut self.row, (number - self.first) as usize)
    }

    /// Removes the entry with a number and drops it.
    pub fn discard(&mut self, number: u64)
    where
        V: Drop,
        ensures left { self.new.entries ≡ remove_entry (is_number number) self.old.entries }
        ensures next { self.new.next ≡ self.old.next }
    {
        if number < self.first {
            clear_old(&mut self.tree, &mut self.tree_unread, number);
        } else {
            clear_at(&mut self.row, (number - self.first) as usize);
        }
    }

    /// Marks the entry with a number as read.
    pub fn mark(&mut self, number: u64)
        ensures marked { self.new.entries ≡ mark_one number self.old.entries }
        ensures next { self.new.next ≡ self.old.next }
    {
        if number < self.first {
            mark(&mut self.tree, number);
            self.tree_unread.remove(&number);
        } else {
            mark_at(&mut self.row, (number - self.first) as usize);
        }
    }

    /// Returns the number of the first unread entry.
    pub fn first_unread(&self) -> Option<u64>
        ensures { result ≡ slice_get (numbers (filter not_yet self.now.entries)) 0 }
    {
        if let Some(number) = first_number(&self.tree_unread) {
            return Some(number);
        }
        match first_unread_at(&self.row) {
            Some(at) => Some(self.first + at as u64),
            None => None,
        }
    }

    /// Returns the number of entries.
    pub fn len(&self) -> usize
        ensures { result ≡ length self.now.entries }
    {
        self.tree.len() + count_placed(&self.row)
    }
}

impl<V: Drop, A: Allocator + Copy> Shelf<V, A> {
    /// Returns an empty shelf. No memory is taken.
    pub fn new(alloc: A) -> Shelf<V, A>
        ensures { (result.next ≡ 0) × (result.entries ≡ []) }
    {
        Shelf {
            first: 0,
            tree: BTreeMap::new(alloc),
            tree_unread: BTreeSet::new(alloc),
            row: VecDeque::new(alloc),
        }
    }

    /// Makes room for one more entry. If memory is refused, nothing is changed.
    pub fn make_room(&mut self) -> Result<(), AllocError>
        ensures room { OnOk result (HasRoom self.new) }
        ensures entries { self.new.entries ≡ self.old.entries }
        ensures next { self.new.next ≡ self.old.next }
    {
        if self.row.len() >= PLACES {
            self.age()?;
        }
        if self.next() == u64::MAX {
            return Err(AllocError);
        }
        self.row.reserve(1)
    }

    /// Puts an entry after all others.
    pub fn put(&mut self, entry: Entry<V>)
        requires { HasRoom self.old }
        ensures put { self.new.entries ≡ self.old.entries ++ (self.old.next, entry) ∷ [] }
        ensures next { self.new.next ≡ self.old.next + 1 }
    {
        self.row.push_back_reserved(Some(entry));
    }

    /// Moves the entry of the first place, if it has one, to the tree, and removes the place.
    fn age(&mut self) -> Result<(), AllocError>
        ensures fewer { OnOk result (self.new.places < 64) }
        ensures entries { self.new.entries ≡ self.old.entries }
        ensures next { self.new.next ≡ self.old.next }
    {
        let Some(place) = self.row.pop_front() else {
            return Ok(());
        };
        let settled = settle_place(&mut self.tree, &mut self.tree_unread, self.first, place);
        match settled {
            Ok(()) => {}
            Err(place) => {
                self.row.push_front_reserved(place);
                return Err(AllocError);
            }
        }
        self.first += 1;
        Ok(())
    }
}

/// Adds the number of an entry to the unread ones, if the entry is unread. Returns whether it was
/// added.
fn add_unread<A: Allocator + Copy>(
    not_read: &mut BTreeSet<u64, A>,
    number: u64,
    is_read: bool,
) -> Result<bool, AllocError>
    ensures keys { OnOk result (not_read.new.keys ≡ (if is_read then not_read.old.keys
        else insert_key nat_cmp not_read.old.keys number)) }
    ensures added { IfOk result (λ added. added ≡ (not is_read
        && not (list_any (is_number number) not_read.old.keys))) }
    ensures same { IfOk result (λ added. OnFalse added (not_read.new.keys ≡ not_read.old.keys)) }
    ensures err { OnErr result (not_read.new.keys ≡ not_read.old.keys) }
{
    if is_read {
        return Ok(false);
    }
    match not_read.insert(number) {
        Ok(added) => Ok(added),
        Err(_) => Err(AllocError),
    }
}

/// Puts an entry into the tree. If memory is refused, the entry is returned and nothing is changed.
fn settle<V: Drop, A: Allocator + Copy>(
    old: &mut BTreeMap<u64, Entry<V>, A>,
    not_read: &mut BTreeSet<u64, A>,
    number: u64,
    entry: Entry<V>,
) -> Result<(), Entry<V>>
    ensures put { OnOk result (old.new.entries
        ≡ insert_entry nat_cmp old.old.entries number entry) }
    ensures number { OnOk result (not_read.new.keys ≡ (if entry.is_read then not_read.old.keys
        else insert_key nat_cmp not_read.old.keys number)) }
    ensures back { IfErr result (λ e. e ≡ entry) }
    ensures err { OnErr result ((old.new.entries ≡ old.old.entries)
        × (not_read.new.keys ≡ not_read.old.keys)) }
{
    let Ok(added) = add_unread(not_read, number, entry.is_read) else {
        return Err(entry);
    };
    match old.insert(number, entry) {
        Ok(_) => Ok(()),
        Err(refused) => {
            if added {
                not_read.remove(&number);
            }
            let (_, entry) = refused.value;
            Err(entry)
        }
    }
}

/// Puts the entry of a place, if it has one, into the tree. If memory is refused, the entry is
/// returned and nothing is changed.
fn settle_place<V: Drop, A: Allocator + Copy>(
    tree: &mut BTreeMap<u64, Entry<V>, A>,
    unread: &mut BTreeSet<u64, A>,
    number: u64,
    place: Option<Entry<V>>,
) -> Result<(), Option<Entry<V>>>
    ensures put { OnOk result (tree.new.entries ≡ with_settled number place tree.old.entries) }
    ensures number { OnOk result (unread.new.keys ≡ with_unread number place unread.old.keys) }
    ensures back { IfErr result (λ p. p ≡ place) }
    ensures err { OnErr result ((tree.new.entries ≡ tree.old.entries)
        × (unread.new.keys ≡ unread.old.keys)) }
{
    let Some(entry) = place else {
        return Ok(());
    };
    match settle(tree, unread, number, entry) {
        Ok(()) => Ok(()),
        Err(entry) => Err(Some(entry)),
    }
}

/// Removes an entry from the tree and returns it.
fn take_old<V, A: Allocator>(
    tree: &mut BTreeMap<u64, Entry<V>, A>,
    unread: &mut BTreeSet<u64, A>,
    number: u64,
) -> Option<Entry<V>>
    ensures entry { result ≡ lookup (is_number number) tree.old.entries }
    ensures left { tree.new.entries ≡ remove_entry (is_number number) tree.old.entries }
    ensures unread { unread.new.keys ≡ remove_key (is_number number) unread.old.keys }
{
    unread.remove(&number);
    tree.remove(&number)
}

/// Removes an entry from the tree and drops it.
fn clear_old<V: Drop, A: Allocator>(
    tree: &mut BTreeMap<u64, Entry<V>, A>,
    unread: &mut BTreeSet<u64, A>,
    number: u64,
)
    ensures left { tree.new.entries ≡ remove_entry (is_number number) tree.old.entries }
    ensures unread { unread.new.keys ≡ remove_key (is_number number) unread.old.keys }
{
    take_old(tree, unread, number);
}

/// Marks an entry of the tree as read.
fn mark<V, A: Allocator>(entries: &mut BTreeMap<u64, Entry<V>, A>, number: u64)
    ensures { entries.new.entries ≡ mark_one number entries.old.entries }
{
    if let Some(entry) = entries.get_mut(&number) {
        entry.is_read = true;
    }
}

impl<V> Entry<V> {
    /// Marks the entry of a place as read, if there is one.
    fn mark(place: &mut Option<Entry<V>>)
        ensures { place.new ≡ option_map marked place.old }
    {
        if let Some(entry) = place {
            entry.is_read = true;
        }
    }
}

/// Marks the entry at a place as read.
fn mark_at<V, A: Allocator>(row: &mut VecDeque<Option<Entry<V>>, A>, at: usize)
    ensures row { row.new.items ≡ marked_at at row.old.items }
    ensures capacity { deque_capacity row.new ≡ deque_capacity row.old }
{
    if at < row.len() {
        Entry::mark(&mut row[at]);
    }
}

/// Returns the entry at a place.
fn lent_at<V, A: Allocator>(row: &VecDeque<Option<Entry<V>>, A>, at: usize) -> Option<&Entry<V>>
    ensures { option_copied result ≡ entry_at at row.now.items }
{
    if at < row.len() {
        row[at].as_ref()
    } else {
        None
    }
}

/// Removes the entry at a place and returns it.
fn take_at<V, A: Allocator>(row: &mut VecDeque<Option<Entry<V>>, A>, at: usize) -> Option<Entry<V>>
    ensures entry { result ≡ entry_at at row.old.items }
    ensures row { row.new.items ≡ emptied_at at row.old.items }
    ensures capacity { deque_capacity row.new ≡ deque_capacity row.old }
{
    if at < row.len() { row[at].take() } else { None }
}

/// Removes the entry at a place and drops it.
fn clear_at<V: Drop, A: Allocator>(row: &mut VecDeque<Option<Entry<V>>, A>, at: usize)
    ensures row { row.new.items ≡ emptied_at at row.old.items }
    ensures capacity { deque_capacity row.new ≡ deque_capacity row.old }
{
    if at < row.len() {
        row[at] = None;
    }
}

/// Returns the least of some numbers.
fn first_number<A: Allocator>(numbers: &BTreeSet<u64, A>) -> Option<u64>
    ensures { result ≡ slice_get numbers.now.keys 0 }
{
    numbers.first().copied()
}

/// Returns the first place whose entry is unread.
fn first_unread_at<V, A: Allocator>(row: &VecDeque<Option<Entry<V>>, A>) -> Option<usize>
    ensures { result ≡ position is_unread row.now.items }
{
    row.iter().position(|place| match place {
        Some(entry) => !entry.is_read,
        None => false,
    })
}

/// Returns the number of places that have an entry.
fn count_placed<V, A: Allocator>(row: &VecDeque<Option<Entry<V>>, A>) -> usize
    ensures { result ≡ count_by is_some row.now.items }
{
    row.iter().filter(|place| place.is_some()).count()
}
