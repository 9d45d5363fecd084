//! The matches and statuses that an engine shows of its readers.

ghost use Rattle.std.specs.Prelude.{◌≡◌, ℕ, ◌<◌, IfOk, Option, length, slice_index_or};
ghost use Rattle.rtps_reader.specs.declared.status.Status as status;
ghost use Rattle.rtps_reader.specs.Standing.{ReaderView};
ghost use Rattle.rtps_run.specs.Seen.{matches_below};
ghost use Rattle.rtps_run.specs.Standing.{AllStand, status_shown};
ghost use Rattle.rtps_run.specs.World.{World};

use dds_topic::Catalog;
use rtps_reader::{ReaderState, Status};
use rtps_types::Guid;
use std::alloc::{AllocError, Allocator};
use std::collections::BTreeSet;

/// Returns the matches of all readers, a rank and a writer each; `readers` is in the order of
/// ranks. An error is a refused growth.
pub fn all_matches<C: Catalog, A: Allocator + Copy>(
    alloc: A,
    readers: &[ReaderState<A>],
) -> Result<BTreeSet<(u32, Guid), A>, AllocError>
    ensures { (w : World C.Meaning) → AllStand w readers.now
        → IfOk result (λ matches. matches.keys ≡ matches_below w.readers (length readers.now)) }
{
    let mut matches = BTreeSet::new(alloc);
    for reader in readers {
        reader.add_matches(&mut matches)?;
    }
    Ok(matches)
}

/// Replaces each status by that of the reader of its rank. Where there is none, since the reader
/// went, there is none afterwards.
pub fn show_all<A: Allocator + Copy>(readers: &[ReaderState<A>], statuses: &mut [Option<Status>])
    requires { length statuses.old ≡ length readers.now }
    ensures { (rank : ℕ) (s : Option status.Status) (r : ReaderView) → rank < length readers.now
        → slice_index_or statuses.new rank s
        ≡ status_shown (slice_index_or statuses.old rank s) (slice_index_or readers.now rank r) }
{
    for at in 0..readers.len() {
        if statuses[at].is_some() {
            statuses[at] = Some(readers[at].status());
        }
    }
}
