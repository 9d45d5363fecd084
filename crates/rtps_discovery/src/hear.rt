//! The changes of our readers' matches with a writer, from the registry.

ghost use Rattle.std.specs.Prelude.{◌≡◌, ◌++◌, IfOk, OnOk, map, if◌then◌else◌};
ghost use Rattle.rtps_types.specs.declared.identity.Guid.{Guid};
ghost use Rattle.rtps_proxy.specs.Matches.{is_at};
ghost use Rattle.rtps_discovery.specs.Known.{own_or};
ghost use Rattle.rtps_discovery.specs.Kept.{heard_of, kept, participant_in, ranks_at, ranks_of};
ghost use Rattle.rtps_discovery.specs.Seen.{change_seen, lent};

use crate::changes::{MatchChange, WriterUpdate, rematch};
use crate::known::{Ranks, RemoteParticipant, Writer};
use crate::registry::Registry;
use rtps_types::{Guid, GuidPrefix, Locator};
use std::alloc::{AllocError, Allocator};
use std::collections::BTreeMap;

/// Returns the ranks listed for a writer; none if it has no entry.
pub(crate) fn ranks_at<A: Allocator>(index: &BTreeMap<Guid, Ranks<A>, A>, writer: Guid) -> &[u32]
    ensures { result.now ≡ ranks_at writer index.now.entries }
{
    match index.get(&writer) {
        Some(ranks) => ranks.as_slice(),
        None => &[],
    }
}

/// Replaces the ranks listed for a writer.
pub(crate) fn put_ranks<A: Allocator + Copy>(
    index: &mut BTreeMap<Guid, Ranks<A>, A>,
    writer: Guid,
    ranks: Ranks<A>,
) -> Result<(), AllocError>
    ensures { OnOk result ((g : Guid) → ranks_at g index.new.entries
        ≡ (if is_at writer g then ranks else ranks_at g index.old.entries)) }
{
    if ranks.as_slice().is_empty() {
        index.remove(&writer);
        return Ok(());
    }
    match index.insert(writer, ranks) {
        Ok(_) => Ok(()),
        Err(_) => Err(AllocError),
    }
}

/// Returns the locators that answers to a writer are sent to: its own, else the default ones of its
/// participant.
pub(crate) fn locators_for<'a, A: Allocator>(
    participants: &'a BTreeMap<GuidPrefix, RemoteParticipant<A>, A>,
    prefix: GuidPrefix,
    own: &'a [Locator],
) -> &'a [Locator]
    ensures { result.now ≡ own_or own.now (participant_in prefix participants.now.entries) }
{
    if !own.is_empty() {
        return own;
    }
    match participants.get(&prefix) {
        Some(participant) => participant.locators.as_slice(),
        None => &[],
    }
}

impl<A: Allocator + Copy> Registry<A> {
    /// Compares what one writer announced before with what it announces now: appends the changes of
    /// our readers' matches with a writer that becomes `after`, where `None` means that it goes.
    /// Returns the ranks of the readers that are matched with it then. The registry itself isn't
    /// changed: the caller keeps the writer and these ranks. An error is a refused growth.
    pub fn hear<'a>(
        &'a self,
        alloc: A,
        writer: Guid,
        after: Option<&'a Writer<A>>,
        changes: &mut Vec<MatchChange<A>, A>,
    ) -> Result<Ranks<A>, AllocError>
        ensures changes { OnOk result (map change_seen changes.new.items
            ≡ map change_seen changes.old.items
            ++ heard_of (kept self.now) writer (lent after.entry)) }
        ensures ranks { IfOk result (λ ranks.
            ranks ≡ ranks_of (kept self.now) writer (lent after.entry)) }
    {
        let locators = match after {
            Some(offer) => locators_for(&self.participants, writer.prefix, offer.locators()),
            None => &[],
        };
        let update = WriterUpdate {
            writer,
            locators,
            before: self.writers.get(&writer),
            after,
        };
        let fixed = ranks_at(&self.fixed, writer);
        rematch(alloc, &self.readers, fixed, &update, changes)
    }
}
