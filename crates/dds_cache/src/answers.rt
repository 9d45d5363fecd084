//! The result of a read.

ghost use Rattle.std.specs.Prelude.{◌≡◌, ◌↔◌, IsTrue, length};
ghost use Rattle.std.specs.Option.{option_map};
ghost use Rattle.dds_cache.specs.Effects.{shown_as};
ghost use Rattle.dds_cache.specs.Lent.{answers_in, lent_sample, nth_answer};

use crate::choose::Chosen;
use crate::entry::{Content, Entry, Sample, Seen};
use crate::shelf::Shelf;
use std::alloc::{Allocator, Global};

/// The entries that a read returns, in order of acceptance. They stay in the cache: their values
/// are borrowed.
#[derive(Drop)]
pub struct Answers<V, A: Allocator = Global> {
    /// All entries of the cache.
    pub(crate) entries: Shelf<V, A>,
    /// The entries that the last read returned.
    pub(crate) answered: Vec<Chosen, A>,
}

impl<V> Entry<V> {
    /// Returns this entry with the states in `chosen`; its value is borrowed.
    fn lend(&self, chosen: Chosen) -> Seen<'_, V>
        ensures { lent_sample result ≡ shown_as self.now chosen }
    {
        Sample {
            place: self.place,
            writer: self.writer,
            number: self.number,
            time: self.time,
            key: self.key,
            body: match &self.body {
                Content::Value(value) => Content::Value(value),
                Content::Disposed => Content::Disposed,
            },
            sample: chosen.sample,
            view: chosen.view,
            instance: chosen.instance,
        }
    }
}

impl<V, A: Allocator> Answers<V, A> {
    /// Returns the number of entries in the result.
    pub fn len(&self) -> usize
        ensures { result ≡ length (answers_in self.now) }
    {
        self.answered.len()
    }

    /// Whether the result is empty.
    pub fn is_empty(&self) -> bool
        ensures { IsTrue result ↔ (length (answers_in self.now) ≡ 0) }
    {
        self.answered.is_empty()
    }

    /// Returns the entry at index `at`, with its states before the read; `None` if `at` is out of
    /// bounds.
    pub fn get(&self, at: usize) -> Option<Seen<'_, V>>
        ensures { option_map lent_sample result ≡ nth_answer (answers_in self.now) at }
    {
        let chosen = self.answered.get(at)?;
        let entry = self.entries.get(chosen.number)?;
        Some(entry.lend(*chosen))
    }
}
