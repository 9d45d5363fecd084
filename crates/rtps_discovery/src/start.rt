//! The state of discovery at the start.

ghost use Rattle.std.specs.Prelude.{◌≡◌, ◌≤◌, ℕ, IfOk, None, Ok, length, map};
ghost use Rattle.rtps_types.specs.declared.identity.Guid.{Guid};
ghost use Rattle.rtps_discovery.specs.Config.{check_of};
ghost use Rattle.rtps_discovery.specs.Kept.{IsKnown, kept, ranks_at};
ghost use Rattle.rtps_discovery.specs.Known.{is_fixed};
ghost use Rattle.rtps_discovery.specs.OneWriter.{has_rank, matched_from};
ghost use Rattle.rtps_discovery.specs.Start.{first_known, fixed_ranks, pair_of};

use crate::changes::{WriterUpdate, rematch};
use crate::config::{Config, FixedMatch};
use crate::hear::{put_ranks, ranks_at};
use crate::known::{Ranks, Reader};
use crate::leases::Leases;
use crate::readers::copied_readers;
use crate::registry::Registry;
use rtps_proxy::Matches;
use rtps_types::Guid;
use std::alloc::{AllocError, Allocator};
use std::collections::BTreeMap;

/// Returns for each writer the ranks that it has fixed matches with, in the order of `pairs`.
fn listed<A: Allocator + Copy>(
    alloc: A,
    pairs: &[FixedMatch],
) -> Result<BTreeMap<Guid, Ranks<A>, A>, AllocError>
    ensures { IfOk result (λ index. (g : Guid) (rank : ℕ)
        → has_rank (ranks_at g index.entries) rank ≡ is_fixed (map pair_of pairs.now) rank g) }
{
    let mut index = BTreeMap::new(alloc);
    for pair in pairs {
        let ranks = Ranks::with(alloc, ranks_at(&index, pair.writer), pair.rank)?;
        put_ranks(&mut index, pair.writer, ranks)?;
    }
    Ok(index)
}

/// Returns those of these ranks that belong to readers, rising.
fn rising<A: Allocator + Copy>(
    alloc: A,
    readers: &[Option<Reader<A>>],
    writer: Guid,
    ranks: &[u32],
) -> Result<Ranks<A>, AllocError>
    requires { length readers.now ≤ 4096 }
    ensures { IfOk result (λ rising.
        rising ≡ matched_from (has_rank ranks.now) None 0 readers.now) }
{
    let mut changes = Vec::new(alloc);
    let update = WriterUpdate {
        writer,
        locators: &[],
        before: None,
        after: None,
    };
    rematch(alloc, readers, ranks, &update, &mut changes)
}

/// Returns for each writer the ranks of the readers that it has fixed matches with, rising.
fn index_of<A: Allocator + Copy>(
    alloc: A,
    readers: &[Option<Reader<A>>],
    pairs: &[FixedMatch],
) -> Result<BTreeMap<Guid, Ranks<A>, A>, AllocError>
    requires { length readers.now ≤ 4096 }
    ensures { IfOk result (λ index. (g : Guid)
        → ranks_at g index.entries ≡ fixed_ranks (map pair_of pairs.now) readers.now g) }
{
    let listed = listed(alloc, pairs)?;
    let mut index = BTreeMap::new(alloc);
    for pair in pairs {
        let ranks = rising(alloc, readers, pair.writer, ranks_at(&listed, pair.writer))?;
        put_ranks(&mut index, pair.writer, ranks)?;
    }
    Ok(index)
}

impl<A: Allocator + Copy> Registry<A> {
    /// Returns a registry with the readers and the fixed matches of a configuration, and nothing
    /// else.
    pub fn new(alloc: A, config: &Config) -> Result<Registry<A>, AllocError>
        requires { check_of config.now ≡ Ok tt }
        ensures { IfOk result (λ held. IsKnown (first_known config.now) (kept held)) }
    {
        let readers = copied_readers(alloc, &config.readers)?;
        let fixed = index_of(alloc, &readers, &config.fixed)?;
        let ranks = index_of(alloc, &readers, &config.fixed)?;
        let participants = BTreeMap::new(alloc);
        let announcers = Matches::new(alloc);
        let writers = BTreeMap::new(alloc);
        let remote_readers = BTreeMap::new(alloc);
        Ok(Registry {
            own: config.own,
            moment: 0,
            readers,
            fixed,
            participants,
            leases: Leases::new(alloc),
            announcers,
            writers,
            remote_readers,
            ranks,
        })
    }
}
