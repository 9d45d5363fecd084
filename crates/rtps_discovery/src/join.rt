//! Adding a reader of ours (DDSI-RTPS 8.5.4.4).

ghost use Rattle.std.specs.Prelude.{◌≡◌, ◌<◌, ◌≤◌, ◌++◌, ◌∷◌, [], IfOk, OnOk, length, map, if◌then◌else◌};
ghost use Rattle.std.specs.List.{flat_map};
ghost use Rattle.rtps_types.specs.declared.identity.Guid.{Guid};
ghost use Rattle.rtps_proxy.specs.Matches.{is_at};
ghost use Rattle.rtps_discovery.specs.Kept.{kept, ranks_at};
ghost use Rattle.rtps_discovery.specs.Moving.{Joins, meeting, ranked_with};
ghost use Rattle.rtps_discovery.specs.Seen.{change_seen};
ghost use Rattle.rtps_discovery.specs.Start.{wish_of};

use crate::changes::{MatchChange, Seat, WriterUpdate, meet};
use crate::config::ReaderConfig;
use crate::hear::{locators_for, put_ranks};
use crate::known::{Ranks, Reader, RemoteParticipant, Writer};
use crate::readers::copied_reader;
use crate::registry::Registry;
use rtps_types::{Guid, GuidPrefix};
use std::alloc::{AllocError, Allocator};
use std::collections::BTreeMap;

/// One of our readers, by its rank.
#[derive(Drop)]
pub(crate) struct Ranked<'a, A: Allocator> {
    pub rank: u32,
    pub reader: &'a Option<Reader<A>>,
}

/// Appends a rank to those that are listed for a writer.
fn add_rank<A: Allocator + Copy>(
    alloc: A,
    writer: Guid,
    rank: u32,
    index: &mut BTreeMap<Guid, Ranks<A>, A>,
) -> Result<(), AllocError>
    ensures { OnOk result ((g : Guid) → ranks_at g index.new.entries ≡ (if is_at writer g
        then ranks_at g index.old.entries ++ rank ∷ [] else ranks_at g index.old.entries)) }
{
    let mut ranks = match index.remove(&writer) {
        Some(ranks) => ranks,
        None => Ranks::new(Vec::new(alloc)),
    };
    ranks.add(rank)?;
    put_ranks(index, writer, ranks)?;
    Ok(())
}

/// Returns the changes of the matches of a reader that comes, by writer, and adds its rank to those
/// that are listed for each writer that it is matched with.
fn meet_writers<A: Allocator + Copy>(
    alloc: A,
    newcomer: Ranked<'_, A>,
    writers: &BTreeMap<Guid, Writer<A>, A>,
    participants: &BTreeMap<GuidPrefix, RemoteParticipant<A>, A>,
    index: &mut BTreeMap<Guid, Ranks<A>, A>,
) -> Result<Vec<MatchChange<A>, A>, AllocError>
    ensures changes { IfOk result (λ changes. map change_seen changes.items
        ≡ flat_map (meeting participants.now.entries newcomer.entry.rank
        newcomer.entry.reader.now) writers.now.entries) }
    ensures ranks { OnOk result ((g : Guid) → ranks_at g index.new.entries
        ≡ ranked_with newcomer.entry.rank newcomer.entry.reader.now writers.now.entries g
        (ranks_at g index.old.entries)) }
{
    let seat = Seat {
        rank: newcomer.rank,
        is_fixed: false,
    };
    let mut changes = Vec::new(alloc);
    let mut entries = writers.iter();
    'entries: while let Some((writer, offer)) = entries.next() {
        let update = WriterUpdate {
            writer: *writer,
            locators: locators_for(participants, writer.prefix, offer.locators()),
            before: None,
            after: Some(offer),
        };
        let is_matched = meet(alloc, seat, newcomer.reader, &update, &mut changes)?;
        if !is_matched {
            continue;
        }
        add_rank(alloc, *writer, newcomer.rank, index)?;
    }
    Ok(changes)
}

impl<A: Allocator + Copy> Registry<A> {
    /// Adds a reader. Returns its rank and the changes of its matches, by writer. It takes one
    /// search for each known writer that the reader is matched with.
    pub fn join(
        &mut self,
        alloc: A,
        reader: &ReaderConfig,
    ) -> Result<(u32, Vec<MatchChange<A>, A>), AllocError>
        requires { length self.old.readers.items < 4096 }
        ensures { IfOk result (λ added. Joins (wish_of reader.now) (kept self.old) (kept self.new)
            added.0 (map change_seen added.1.items)) }
    {
        let rank = self.readers.len() as u32;
        let reader = Some(copied_reader(alloc, reader)?);
        let newcomer = Ranked {
            rank,
            reader: &reader,
        };
        let changes = meet_writers(
            alloc,
            newcomer,
            &self.writers,
            &self.participants,
            &mut self.ranks,
        )?;
        self.readers.push(reader)?;
        Ok((rank, changes))
    }
}
