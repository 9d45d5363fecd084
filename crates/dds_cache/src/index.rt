//! What a cache keeps besides its entries: its instances and their live writers.

ghost use Rattle.std.specs.Prelude.{◌≡◌, []};

use crate::history::History;
use crate::instance::Instances;
use rtps_types::{Guid, KeyHash};
use std::alloc::Allocator;
use std::collections::{BTreeMap, BTreeSet};

/// What a cache keeps besides its entries.
#[derive(Drop)]
pub(crate) struct Index<A: Allocator> {
    pub keep: History,
    pub instances: Instances<A>,
    /// The pairs of a writer and an instance that it is live in.
    pub live: BTreeSet<(Guid, KeyHash), A>,
}

impl<A: Allocator + Copy> Index<A> {
    /// Returns the index of an empty cache. No memory is taken.
    pub fn new(alloc: A, keep: History) -> Index<A>
        ensures keep { result.keep ≡ keep }
        ensures instances { result.instances.entries ≡ [] }
        ensures live { result.live.keys ≡ [] }
    {
        Index {
            keep,
            instances: BTreeMap::new(alloc),
            live: BTreeSet::new(alloc),
        }
    }
}
