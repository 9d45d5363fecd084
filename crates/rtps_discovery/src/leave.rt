//! Removing participants (DDSI-RTPS 8.5.5).

ghost use Rattle.std.specs.Prelude.{◌≡◌, ◌≤◌, ◌<◌, ◌∷◌, ◌++◌, [], List, IfNone, IfOk, IfSome, OnOk, OnSome, filter, length, map, not, true};
ghost use Rattle.std.specs.List.{flat_map};
ghost use Rattle.std.specs.List.Sorted.{IsStrictlySortedBy};
ghost use Rattle.std.specs.Map.{keys_of};
ghost use Rattle.rtps_types.specs.declared.identity.Guid.{Guid};
ghost use Rattle.rtps_proxy.specs.Matches.{AllStand, Match};
ghost use Rattle.rtps_discovery.specs.Announcement as announcement;
ghost use Rattle.rtps_discovery.specs.Ends.{Covers};
ghost use Rattle.rtps_discovery.specs.Kept.{Applies, kept, ranks_at};
ghost use Rattle.rtps_discovery.specs.Known.{is_of, prefix_order};
ghost use Rattle.rtps_discovery.specs.Leave.{any_of, are_of, ended_by, ended_of, ending, endings, gone_by, gone_of, reranked};
ghost use Rattle.rtps_discovery.specs.Seen.{change_seen};
ghost use Rattle.rtps_discovery.specs.Sized.{are_sized};

use crate::addressed::{
    ENTITYID_SEDP_BUILTIN_PUBLICATIONS_ANNOUNCER, ENTITYID_SEDP_BUILTIN_SUBSCRIPTIONS_ANNOUNCER,
    ENTITYID_UNKNOWN,
};
use crate::changes::{MatchChange, Seat, WriterUpdate, meet};
use crate::gone::Gone;
use crate::hear::{put_ranks, ranks_at};
use crate::known::{Ranks, Reader, RemoteParticipant, Writer};
use crate::leases::{Leases, end_of};
use crate::registry::Registry;
use rtps_proxy::Matches;
use rtps_types::{Guid, GuidPrefix};
use std::alloc::{AllocError, Allocator};
use std::collections::BTreeMap;

/// Removes the first endpoint of a participant and returns it, if there is one.
fn take_first<V, A: Allocator>(
    endpoints: &mut BTreeMap<Guid, V, A>,
    prefix: GuidPrefix,
) -> Option<(Guid, V)>
    requires { are_sized (keys_of endpoints.old.entries) ≡ true }
    ensures taken { IfSome result (λ e. filter (are_of prefix) endpoints.old.entries
        ≡ e ∷ filter (are_of prefix) endpoints.new.entries) }
    ensures none { IfNone result (filter (are_of prefix) endpoints.old.entries ≡ []) }
    ensures unchanged { IfNone result (endpoints.new.entries ≡ endpoints.old.entries) }
    ensures others { filter (λ e. not (are_of prefix e)) endpoints.new.entries
        ≡ filter (λ e. not (are_of prefix e)) endpoints.old.entries }
    ensures sized { are_sized (keys_of endpoints.new.entries) ≡ true }
    ensures fewer { OnSome result (length endpoints.new.entries
        < length endpoints.old.entries) }
{
    let first = Guid {
        prefix,
        entity: ENTITYID_UNKNOWN,
    };
    let (found, _) = endpoints.range(first..).next()?;
    let endpoint = *found;
    if prefix != endpoint.prefix {
        return None;
    }
    endpoints.remove_entry(&endpoint)
}

/// Removes the readers of a participant.
fn forget_readers<A: Allocator>(readers: &mut BTreeMap<Guid, (), A>, prefix: GuidPrefix)
    requires { are_sized (keys_of readers.old.entries) ≡ true }
    ensures left { readers.new.entries
        ≡ filter (λ e. not (are_of prefix e)) readers.old.entries }
    ensures sized { are_sized (keys_of readers.new.entries) ≡ true }
{
    'readers: while let Some(_reader) = take_first(readers, prefix) {}
}

/// Removes these participants, and the ends of their leases.
fn forget_participants<A: Allocator>(
    participants: &mut BTreeMap<GuidPrefix, RemoteParticipant<A>, A>,
    leases: &mut Leases<A>,
    prefixes: &[GuidPrefix],
)
    ensures left { participants.new.entries
        ≡ filter (λ e. not (is_of prefixes.now e.0)) participants.old.entries }
    ensures covers { Covers leases.old participants.old.entries
        → Covers leases.new participants.new.entries }
{
    for prefix in prefixes {
        let gone = participants.remove(prefix);
        leases.end(*prefix, end_of(&gone));
    }
}

/// Removes the readers of these participants.
fn forget_all_readers<A: Allocator>(readers: &mut BTreeMap<Guid, (), A>, prefixes: &[GuidPrefix])
    requires { are_sized (keys_of readers.old.entries) ≡ true }
    ensures left { readers.new.entries
        ≡ filter (λ e. not (any_of prefixes.now e)) readers.old.entries }
    ensures sized { are_sized (keys_of readers.new.entries) ≡ true }
{
    for prefix in prefixes {
        forget_readers(readers, *prefix);
    }
}

/// Removes the writers of a participant, in order, and appends them to `gone`.
fn take_writers<A: Allocator + Copy>(
    alloc: A,
    prefix: GuidPrefix,
    fixed: &BTreeMap<Guid, Ranks<A>, A>,
    writers: &mut BTreeMap<Guid, Writer<A>, A>,
    gone: &mut Vec<Gone<A>, A>,
) -> Result<(), AllocError>
    requires sized { are_sized (keys_of writers.old.entries) ≡ true }
    requires fixed { map (λ n. n.fixed) gone.old.items
        ≡ map (λ n. ranks_at n.writer fixed.now.entries) gone.old.items }
    ensures gone { OnOk result (map gone_of gone.new.items
        ≡ map gone_of gone.old.items ++ filter (are_of prefix) writers.old.entries) }
    ensures fixed { OnOk result (map (λ n. n.fixed) gone.new.items
        ≡ map (λ n. ranks_at n.writer fixed.now.entries) gone.new.items) }
    ensures left { OnOk result (writers.new.entries
        ≡ filter (λ e. not (are_of prefix e)) writers.old.entries) }
    ensures sized { are_sized (keys_of writers.new.entries) ≡ true }
{
    'writers: while let Some((writer, offer)) = take_first(writers, prefix) {
        let fixed = Ranks::copied(alloc, ranks_at(fixed, writer))?;
        gone.push(Gone {
            writer,
            offer,
            fixed,
        })?;
    }
    Ok(())
}

/// Removes the writers of these participants, one participant after the other, and returns them.
fn take_all_writers<A: Allocator + Copy>(
    alloc: A,
    prefixes: &[GuidPrefix],
    fixed: &BTreeMap<Guid, Ranks<A>, A>,
    writers: &mut BTreeMap<Guid, Writer<A>, A>,
) -> Result<Vec<Gone<A>, A>, AllocError>
    requires { are_sized (keys_of writers.old.entries) ≡ true }
    ensures gone { IfOk result (λ gone. map gone_of gone.items
        ≡ gone_by prefixes.now writers.old.entries) }
    ensures fixed { IfOk result (λ gone. map (λ n. n.fixed) gone.items
        ≡ map (λ n. ranks_at n.writer fixed.now.entries) gone.items) }
    ensures left { OnOk result (writers.new.entries
        ≡ filter (λ e. not (any_of prefixes.now e)) writers.old.entries) }
    ensures sized { are_sized (keys_of writers.new.entries) ≡ true }
{
    let mut gone = Vec::new(alloc);
    for prefix in prefixes {
        take_writers(alloc, *prefix, fixed, writers, &mut gone)?;
    }
    Ok(gone)
}

/// Appends the changes of matches of the one reader of a rank as these writers go, in their order.
/// An error is a refused growth.
fn hear_ends<A: Allocator + Copy>(
    alloc: A,
    rank: u32,
    reader: &Option<Reader<A>>,
    gone: &[Gone<A>],
    changes: &mut Vec<MatchChange<A>, A>,
) -> Result<(), AllocError>
    ensures { OnOk result (map change_seen changes.new.items
        ≡ map change_seen changes.old.items ++ flat_map (ending rank reader.now) gone.now) }
{
    for one in gone {
        let update = WriterUpdate {
            writer: one.writer,
            locators: &[],
            before: Some(&one.offer),
            after: None,
        };
        let is_fixed = one.fixed.has(rank);
        let _matched = meet(alloc, Seat { rank, is_fixed }, reader, &update, changes)?;
    }
    Ok(())
}

/// Appends the changes of matches of all our readers as these writers go, by rank and then by
/// writer. An error is a refused growth.
fn hear_all_ends<A: Allocator + Copy>(
    alloc: A,
    readers: &[Option<Reader<A>>],
    gone: &[Gone<A>],
    changes: &mut Vec<MatchChange<A>, A>,
) -> Result<(), AllocError>
    requires { length readers.now ≤ 4096 }
    ensures { OnOk result (map change_seen changes.new.items
        ≡ map change_seen changes.old.items ++ endings gone.now 0 readers.now) }
{
    let mut rank = 0;
    for reader in readers {
        hear_ends(alloc, rank, reader, gone, changes)?;
        rank += 1;
    }
    Ok(())
}

/// Removes all matches with these writers except the fixed ones.
fn rerank<A: Allocator + Copy>(
    gone: Vec<Gone<A>, A>,
    index: &mut BTreeMap<Guid, Ranks<A>, A>,
) -> Result<(), AllocError>
    ensures { OnOk result ((g : Guid) → ranks_at g index.new.entries
        ≡ reranked gone.items g (ranks_at g index.old.entries)) }
{
    for one in gone {
        put_ranks(index, one.writer, one.fixed)?;
    }
    Ok(())
}

/// Ends the matches of our builtin readers with the announcers of a participant.
fn end_announcers<A: Allocator + Copy>(announcers: &mut Matches<A>, prefix: GuidPrefix)
    ensures { (ms : List Match) → AllStand ms announcers.old
        → AllStand (ended_of prefix ms) announcers.new }
{
    announcers.end(Guid {
        prefix,
        entity: ENTITYID_SEDP_BUILTIN_PUBLICATIONS_ANNOUNCER,
    });
    announcers.end(Guid {
        prefix,
        entity: ENTITYID_SEDP_BUILTIN_SUBSCRIPTIONS_ANNOUNCER,
    });
}

/// Ends the matches of our builtin readers with the announcers of these participants.
fn end_all_announcers<A: Allocator + Copy>(announcers: &mut Matches<A>, prefixes: &[GuidPrefix])
    ensures { (ms : List Match) → AllStand ms announcers.old
        → AllStand (ended_by prefixes.now ms) announcers.new }
{
    for prefix in prefixes {
        end_announcers(announcers, *prefix);
    }
}

impl<A: Allocator + Copy> Registry<A> {
    /// Removes participants together with their announcers, their writers and their readers. The
    /// participants are in the order of the octets of their prefixes. It takes no step for an
    /// endpoint of another participant.
    pub fn leave_all(
        &mut self,
        alloc: A,
        prefixes: &[GuidPrefix],
        changes: &mut Vec<MatchChange<A>, A>,
    ) -> Result<(), AllocError>
        requires { IsStrictlySortedBy prefix_order prefixes.now }
        ensures { OnOk result (Applies (announcement.Leave prefixes.now) (kept self.old)
            (kept self.new) (map change_seen changes.old.items)
            (map change_seen changes.new.items)) }
    {
        forget_participants(&mut self.participants, &mut self.leases, prefixes);
        end_all_announcers(&mut self.announcers, prefixes);
        forget_all_readers(&mut self.remote_readers, prefixes);
        let gone = take_all_writers(alloc, prefixes, &self.fixed, &mut self.writers)?;
        hear_all_ends(alloc, &self.readers, gone.as_slice(), changes)?;
        rerank(gone, &mut self.ranks)?;
        Ok(())
    }

    /// Removes a participant together with its announcers, its writers and its readers. It takes
    /// no step for an endpoint of another participant.
    pub fn leave(
        &mut self,
        alloc: A,
        prefix: GuidPrefix,
        changes: &mut Vec<MatchChange<A>, A>,
    ) -> Result<(), AllocError>
        ensures { OnOk result (Applies (announcement.Leave (prefix ∷ [])) (kept self.old)
            (kept self.new) (map change_seen changes.old.items)
            (map change_seen changes.new.items)) }
    {
        self.leave_all(alloc, &[prefix], changes)
    }
}
