//! A reader's cache.

ghost use Rattle.std.specs.Prelude.{◌≡◌, ◌↔◌, ◌∷◌, [], IfErr, IfOk, IsTrue, List, OnErr, OnOk, Some, length, map, option_to_list};
ghost use Rattle.dds_cache.specs.Answered.{answered, unread};
ghost use Rattle.dds_cache.specs.Cache.{IsHistory, entry_by};
ghost use Rattle.dds_cache.specs.Calls.{Accepted, Done, WasTaken};
ghost use Rattle.dds_cache.specs.Lent.{answers_in};
ghost use Rattle.std.specs.Borrow.{sem};
ghost use Rattle.dds_cache.specs.Standing.{StandsAt};

use crate::accept::accept;
use crate::answers::Answers;
use crate::condition::Condition;
use crate::entry::Taken;
use crate::history::History;
use crate::index::Index;
use crate::read::read_some;
use crate::shelf::Shelf;
use crate::take::{take_next, take_some};
use rtps_reader::Notice;
use std::alloc::{AllocError, AllocFailed, Allocator, Global};
use std::marker::Model;

/// A reader's cache (DDS 1.4, 2.2.2.5): the values and the disposals of the notices that it
/// accepted. An entry stays until it is taken or, with [`History::KeepLast`], until newer entries
/// of its instance displace it.
///
/// ```text
/// let mut cache = DataReader::new(alloc, History::KeepLast(8));
/// for notice in outcome.notices.into_iter().flatten() {
///     cache.accept(alloc, notice).map_err(AllocError::from)?;
/// }
/// for sample in &cache.take(alloc, 100, Condition::default())? {
///     if let Content::Value(shape) = &sample.body {
///         // A value of sample.writer, in an instance with the state sample.instance.
///     }
/// }
/// ```
#[derive(Drop)]
pub struct DataReader<V, A: Allocator = Global> {
    index: Index<A>,
    /// The entries, and the result of the last read.
    shelf: Answers<V, A>,
}

impl<V, A: Allocator> Model for DataReader<V, A> {
    ghost use Rattle.dds_cache.specs.Lent.{answers_in};
    ghost use Rattle.std.specs.Borrow.{sem};
    ghost use Rattle.dds_cache.specs.Standing.{CacheView, kept};

    ghost Value = { CacheView V };

    ghost view = { λ r. kept r.index r.shelf.entries };
}

impl<V: Drop, A: Allocator + Copy> DataReader<V, A> {
    ghost use Rattle.dds_cache.specs.After.{WasReadFrom, ends_read};

    /// Returns an empty cache that keeps for each instance what `keep` says (DDS 1.4, 2.2.3.18):
    /// with [`History::KeepLast`] a number of entries from 1 to 65,536. No memory is taken.
    pub fn new(alloc: A, keep: History) -> DataReader<V, A>
        requires { IsHistory keep }
        ensures stands { StandsAt [] result }
        ensures keep { result.keep ≡ keep }
    {
        DataReader {
            index: Index::new(alloc, keep),
            shelf: Answers {
                entries: Shelf::new(alloc),
                answered: Vec::new(alloc),
            },
        }
    }

    /// Returns the number of entries.
    pub fn len(&self) -> usize
        ensures { result ≡ length self.now.entries }
    {
        self.shelf.entries.len()
    }

    /// Whether there are no entries.
    pub fn is_empty(&self) -> bool
        ensures { IsTrue result ↔ (length self.now.entries ≡ 0) }
    {
        self.len() == 0
    }

    /// Accepts a notice. A value or a disposal is appended as an entry. With
    /// [`History::KeepLast`], if its instance has too many entries then, the oldest one is dropped,
    /// whether it was read or not (DDS 1.4, 2.2.3.18). Only values and disposals need memory. If it
    /// is refused, the notice is returned as the error and the cache is unchanged.
    pub fn accept(&mut self, alloc: A, notice: Notice<V>) -> Result<(), AllocFailed<Notice<V>>>
        ensures stands { (past : List (Done V)) → StandsAt past self.old
            → OnOk result (StandsAt (Accepted notice ∷ past) self.new) }
        ensures err { (past : List (Done V)) → StandsAt past self.old
            → OnErr result (StandsAt past self.new) }
        ensures back { IfErr result (λ refused. refused.value ≡ notice) }
        ensures makes { OnErr result
            (length (entry_by notice.place notice.writer notice.what) ≡ 1) }
        ensures keep { self.new.keep ≡ self.old.keep }
    {
        match accept(alloc, &mut self.index, &mut self.shelf.entries, notice) {
            Ok(()) => Ok(()),
            Err(value) => Err(AllocFailed { value }),
        }
    }

    /// Returns the first `max` entries, in order of acceptance, that meet the condition, each with
    /// its states before the call; the values are borrowed. The entries stay and are marked as
    /// read, and their instances are not new any more (DDS 1.4, 2.2.2.5.3.8, `read`). If memory is
    /// refused, nothing is returned or marked.
    pub fn read(
        &mut self,
        alloc: A,
        max: usize,
        condition: Condition,
    ) -> Result<&Answers<V, A>, AllocError>
        ensures* after { sem 𝓛 (ends_read V.row A.row A.Allocator self.entry
            (WasReadFrom self.old max condition result)) }
        ensures answers { (past : List (Done V)) → StandsAt past self.old
            → IfOk result (λ answers. answers_in answers.now
            ≡ map (λ s. Some s) (answered self.old.keep past max condition)) }
    {
        match read_some(alloc, &mut self.index, &mut self.shelf, max, condition) {
            Ok(()) => Ok(&self.shelf),
            Err(refused) => Err(refused),
        }
    }

    /// Removes and returns the first `max` entries, in order of acceptance, that meet the
    /// condition, each with its states before the call. Their instances are not new any more (DDS
    /// 1.4, 2.2.2.5.3.9, `take`). If memory is refused, nothing is removed or marked.
    pub fn take(
        &mut self,
        alloc: A,
        max: usize,
        condition: Condition,
    ) -> Result<Vec<Taken<V>, A>, AllocError>
        ensures answers { (past : List (Done V)) → StandsAt past self.old
            → IfOk result (λ taken. taken.items ≡ answered self.old.keep past max condition) }
        ensures stands { (past : List (Done V)) → StandsAt past self.old
            → OnOk result (StandsAt (WasTaken max condition ∷ past) self.new) }
        ensures err { (past : List (Done V)) → StandsAt past self.old
            → OnErr result (StandsAt past self.new) }
        ensures keep { self.new.keep ≡ self.old.keep }
    {
        take_some(
            alloc,
            &mut self.index,
            &mut self.shelf.entries,
            max,
            condition,
        )
    }

    /// Removes and returns the first entry that no call returned yet; `None` where there is none
    /// (DDS 1.4, 2.2.2.5.3.11, `take_next_sample`). No memory is taken.
    pub fn take_next_sample(&mut self) -> Option<Taken<V>>
        ensures answer { (past : List (Done V)) → StandsAt past self.old
            → option_to_list result ≡ answered self.old.keep past 1 unread }
        ensures stands { (past : List (Done V)) → StandsAt past self.old
            → StandsAt (WasTaken 1 unread ∷ past) self.new }
        ensures keep { self.new.keep ≡ self.old.keep }
    {
        take_next(&mut self.index, &mut self.shelf.entries)
    }
}
