//! Removing a reader of ours (DDSI-RTPS 8.5.4.4).

ghost use Rattle.std.specs.Prelude.{◌≡◌, ◌<◌, IfOk, length, map};
ghost use Rattle.std.specs.List.{flat_map};
ghost use Rattle.rtps_types.specs.declared.identity.Guid.{Guid};
ghost use Rattle.rtps_discovery.specs.Kept.{kept, ranks_at};
ghost use Rattle.rtps_discovery.specs.Moving.{Parts, parting, without_rank};
ghost use Rattle.rtps_discovery.specs.OneWriter.{has_rank};
ghost use Rattle.rtps_discovery.specs.Seen.{change_seen};

use crate::changes::{MatchChange, Seat, WriterUpdate, meet};
use crate::hear::ranks_at;
use crate::join::Ranked;
use crate::known::{Ranks, Writer};
use crate::registry::Registry;
use rtps_types::Guid;
use std::alloc::{AllocError, Allocator};
use std::collections::BTreeMap;

/// Whether a rank is listed for a writer.
fn is_listed<A: Allocator>(index: &BTreeMap<Guid, Ranks<A>, A>, writer: Guid, rank: u32) -> bool
    ensures { result ≡ has_rank (ranks_at writer index.now.entries) rank }
{
    ranks_at(index, writer).contains(&rank)
}

/// Returns the ends of the matches of a reader that goes, by writer, without those that are fixed.
fn leave_writers<A: Allocator + Copy>(
    alloc: A,
    leaver: Ranked<'_, A>,
    writers: &BTreeMap<Guid, Writer<A>, A>,
    fixed: &BTreeMap<Guid, Ranks<A>, A>,
) -> Result<Vec<MatchChange<A>, A>, AllocError>
    ensures { IfOk result (λ changes. map change_seen changes.items
        ≡ flat_map (parting fixed.now.entries leaver.entry.rank leaver.entry.reader.now)
        writers.now.entries) }
{
    let rank = leaver.rank;
    let mut changes = Vec::new(alloc);
    let mut entries = writers.iter();
    'entries: while let Some((writer, offer)) = entries.next() {
        let update = WriterUpdate {
            writer: *writer,
            locators: &[],
            before: Some(offer),
            after: None,
        };
        let is_fixed = is_listed(fixed, *writer, rank);
        let _matched = meet(
            alloc,
            Seat { rank, is_fixed },
            leaver.reader,
            &update,
            &mut changes,
        )?;
    }
    Ok(changes)
}

/// Removes a rank from those that are listed for each writer.
fn forget_rank<A: Allocator>(index: &mut BTreeMap<Guid, Ranks<A>, A>, rank: u32)
    ensures { (g : Guid) → ranks_at g index.new.entries
        ≡ without_rank rank (ranks_at g index.old.entries) }
{
    index.retain(|_, ranks| ranks.forget(rank));
}

impl<A: Allocator + Copy> Registry<A> {
    /// Removes the reader of a rank with its matches, and returns the changes of those that aren't
    /// fixed, by writer. It takes one step for each known writer, and one for each writer that has
    /// ranks listed.
    pub fn part(&mut self, alloc: A, rank: u32) -> Result<Vec<MatchChange<A>, A>, AllocError>
        requires { rank < length self.old.readers.items }
        ensures { IfOk result (λ changes. Parts rank (kept self.old) (kept self.new)
            (map change_seen changes.items)) }
    {
        let at = rank as usize;
        let leaver = Ranked {
            rank,
            reader: &self.readers[at],
        };
        let changes = leave_writers(alloc, leaver, &self.writers, &self.fixed)?;
        forget_rank(&mut self.fixed, rank);
        forget_rank(&mut self.ranks, rank);
        self.readers[at] = None;
        Ok(changes)
    }
}
