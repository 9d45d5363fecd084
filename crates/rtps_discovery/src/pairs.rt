//! The matches of all our readers as a set.

ghost use Rattle.std.specs.Prelude.{◌≡◌, [], IfOk, OnOk};
ghost use Rattle.std.specs.List.Sorted.{IsStrictlySortedBy};
ghost use Rattle.std.specs.Map.{keys_of};
ghost use Rattle.rtps_types.specs.Order.{guid_order};
ghost use Rattle.rtps_discovery.specs.Pairs.{with_entries, with_ranks};

use crate::known::Ranks;
use rtps_types::Guid;
use std::alloc::{AllocError, Allocator};
use std::collections::{BTreeMap, BTreeSet};

/// Adds the matches of a writer with the readers of these ranks.
fn add_ranks<A: Allocator + Copy>(
    writer: Guid,
    ranks: &[u32],
    pairs: &mut BTreeSet<(u32, Guid), A>,
) -> Result<(), AllocError>
    ensures { OnOk result (pairs.new.keys ≡ with_ranks pairs.old.keys writer ranks.now) }
{
    for rank in ranks {
        pairs.insert((*rank, writer))?;
    }
    Ok(())
}

/// Returns the matches of an index by writer.
pub(crate) fn pairs_of<A: Allocator + Copy>(
    alloc: A,
    index: &BTreeMap<Guid, Ranks<A>, A>,
) -> Result<BTreeSet<(u32, Guid), A>, AllocError>
    ensures pairs { IfOk result (λ pairs. pairs.keys ≡ with_entries [] index.now.entries) }
    ensures ordered { OnOk result (IsStrictlySortedBy guid_order
        (keys_of index.now.entries)) }
{
    let mut pairs = BTreeSet::new(alloc);
    let mut entries = index.iter();
    'entries: while let Some((writer, ranks)) = entries.next() {
        add_ranks(*writer, ranks.as_slice(), &mut pairs)?;
    }
    Ok(pairs)
}
