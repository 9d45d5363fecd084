//! The instances of a cache, and the facts that their states follow from (DDS 1.4, 2.2.2.5.1.3).

ghost use Rattle.std.specs.Prelude.{◌≡◌, ◌<◌, IfOk, OnErr, OnOk, nat_lt, true};
ghost use Rattle.std.specs.BTreeSet.{insert_key};
ghost use Rattle.std.specs.Option.{option_map};
ghost use Rattle.std.specs.Ordering.{nat_cmp};
ghost use Rattle.dds_cache.specs.Coming.{entered_by, given_up, kept_numbers, leaving, made};
ghost use Rattle.dds_cache.specs.Effects.{ChangesAt, FindsSame, fresh, left, seen, spent, valued, with_numbers};
ghost use Rattle.dds_cache.specs.Instances.{alive_by};
ghost use Rattle.dds_cache.specs.Standing.{count_in, known, known_at, numbers_in};

use crate::history::History;
use rtps_types::KeyHash;
use std::alloc::{AllocError, Allocator};
use std::collections::{BTreeMap, BTreeSet};

/// The facts that are kept of an instance.
#[derive(Drop)]
pub(crate) struct Instance<A: Allocator> {
    pub is_disposed: bool,
    pub is_new: bool,
    /// The number of writers that are live in it.
    pub live: usize,
    /// The numbers of its entries with [`History::KeepLast`], else empty.
    pub numbers: BTreeSet<u64, A>,
}

/// An entry that arrives.
#[derive(Clone, Copy)]
pub(crate) struct Arrival {
    pub number: u64,
    /// Whether it is a value; otherwise it is a disposal.
    pub is_value: bool,
    /// Whether its writer becomes live in the instance by it.
    pub joined: bool,
    /// The number of pairs of a live writer and an instance, over all instances.
    pub all: usize,
}

/// The instances of a cache, by their keys.
pub(crate) type Instances<A> = BTreeMap<KeyHash, Instance<A>, A>;

impl<A: Allocator> Instance<A> {
    /// Returns an instance without entries and without live writers.
    pub fn new(alloc: A) -> Instance<A>
        ensures { known result ≡ fresh }
    {
        Instance {
            is_disposed: false,
            is_new: true,
            live: 0,
            numbers: BTreeSet::new(alloc),
        }
    }

    /// Whether it is alive: a writer is live in it, and it isn't disposed.
    pub fn is_alive(&self) -> bool
        ensures { result ≡ alive_by self.now.is_disposed (nat_lt 0 self.now.live) }
    {
        !self.is_disposed && self.live > 0
    }

    /// Notes a value of it. `joined` says that its writer wasn't live in it before; `all` is the
    /// number of pairs of a live writer and an instance.
    fn value(&mut self, joined: bool, all: usize)
        ensures { (joined ≡ true → self.old.live < all)
            → known self.new ≡ valued joined (known self.old) }
    {
        if !self.is_alive() {
            self.is_new = true;
        }
        self.is_disposed = false;
        if joined && self.live < all {
            self.live += 1;
        }
    }
}

impl<A: Allocator + Copy> Instance<A> {
    /// Adds the number of an entry. If there are more than `most` then, removes the oldest number
    /// and returns it.
    fn add_number(&mut self, number: u64, most: u32) -> Result<Option<u64>, AllocError>
        ensures kept { OnOk result (known self.new ≡ with_numbers (kept_numbers most
            (insert_key nat_cmp self.old.numbers.keys number)) (known self.old)) }
        ensures oldest { IfOk result (λ oldest. oldest ≡ given_up most
            (insert_key nat_cmp self.old.numbers.keys number)) }
        ensures err { OnErr result (known self.new ≡ known self.old) }
    {
        match self.numbers.insert(number) {
            Ok(_) => {}
            Err(_) => return Err(AllocError),
        }
        if self.numbers.len() <= most as usize {
            return Ok(None);
        }
        Ok(self.numbers.pop_first())
    }

    /// Notes an entry of it. Returns the number of the entry that has to be dropped, if any.
    fn enter(&mut self, keep: History, arrival: Arrival) -> Result<Option<u64>, AllocError>
        ensures entered { (arrival.joined ≡ true → self.old.live < arrival.all)
            → OnOk result (known self.new ≡ entered_by keep arrival (known self.old)) }
        ensures oldest { IfOk result (λ oldest. oldest
            ≡ leaving keep arrival.number self.old.numbers.keys) }
        ensures err { OnErr result (known self.new ≡ known self.old) }
    {
        let oldest = match keep {
            History::KeepLast(most) => self.add_number(arrival.number, most)?,
            History::KeepAll => None,
        };
        if arrival.is_value {
            self.value(arrival.joined, arrival.all);
        } else {
            self.is_disposed = true;
        }
        Ok(oldest)
    }
}

/// Notes an entry of an instance, which is created if it isn't known. Returns the number of the
/// entry that has to be dropped, if any. If memory is refused, nothing is changed.
pub(crate) fn enter<A: Allocator + Copy>(
    alloc: A,
    instances: &mut Instances<A>,
    key: KeyHash,
    keep: History,
    arrival: Arrival,
) -> Result<Option<u64>, AllocError>
    ensures entered { (arrival.joined ≡ true
        → count_in (known_at instances.old.entries key) < arrival.all)
        → OnOk result (ChangesAt key (made (entered_by keep arrival))
        (known_at instances.old.entries) (known_at instances.new.entries)) }
    ensures oldest { IfOk result (λ oldest. oldest ≡ leaving keep arrival.number
        (numbers_in (known_at instances.old.entries key))) }
    ensures err { OnErr result (FindsSame (known_at instances.old.entries)
        (known_at instances.new.entries)) }
{
    if let Some(instance) = instances.get_mut(&key) {
        return instance.enter(keep, arrival);
    }
    let mut made = Instance::new(alloc);
    let oldest = made.enter(keep, arrival)?;
    match instances.insert(key, made) {
        Ok(_) => Ok(oldest),
        Err(_) => Err(AllocError),
    }
}

/// Notes that one writer fewer is live in an instance.
pub(crate) fn note_leave<A: Allocator>(instances: &mut Instances<A>, key: KeyHash)
    ensures { ChangesAt key (option_map left) (known_at instances.old.entries)
        (known_at instances.new.entries) }
{
    if let Some(instance) = instances.get_mut(&key) {
        instance.live = instance.live.saturating_sub(1);
    }
}

/// Notes that an entry of an instance was read.
pub(crate) fn note_read<A: Allocator>(instances: &mut Instances<A>, key: KeyHash)
    ensures { ChangesAt key (option_map seen) (known_at instances.old.entries)
        (known_at instances.new.entries) }
{
    if let Some(instance) = instances.get_mut(&key) {
        instance.is_new = false;
    }
}

/// Notes that an entry of an instance was taken.
pub(crate) fn note_taken<A: Allocator>(instances: &mut Instances<A>, key: KeyHash, number: u64)
    ensures { ChangesAt key (option_map (spent number)) (known_at instances.old.entries)
        (known_at instances.new.entries) }
{
    if let Some(instance) = instances.get_mut(&key) {
        instance.is_new = false;
        instance.numbers.remove(&number);
    }
}
