//! The data of discovery: local readers, remote participants and their endpoints, and matches.

ghost use Rattle.std.specs.Prelude.{◌≡◌, ◌≤◌, length, true};
ghost use Rattle.std.specs.Map.{keys_of};
ghost use Rattle.rtps_discovery.specs.Sized.{are_sized};

use crate::known::{Ranks, Reader, RemoteParticipant, Writer};
use crate::leases::Leases;
use rtps_proxy::Matches;
use rtps_types::{Guid, GuidPrefix};
use std::alloc::Allocator;
use std::collections::BTreeMap;

/// All that discovery knows, each map in the order of its keys, with an index of the matches by
/// writer.
#[derive(Drop)]
pub(crate) struct Registry<A: Allocator> {
    pub own: GuidPrefix,
    /// The greatest moment so far, in milliseconds.
    pub moment: u64,
    /// Our readers by rank; `None` where one was removed.
    pub readers: Vec<Option<Reader<A>>, A>,
    /// For each writer, the ranks of the readers that have a fixed match with it.
    pub fixed: BTreeMap<Guid, Ranks<A>, A>,
    pub participants: BTreeMap<GuidPrefix, RemoteParticipant<A>, A>,
    /// The ends of the participants' leases.
    pub leases: Leases<A>,
    /// The matches of our builtin readers.
    pub announcers: Matches<A>,
    pub writers: BTreeMap<Guid, Writer<A>, A>,
    /// The guids of remote readers. Nothing else of them is kept: there are no local writers to
    /// match them with.
    pub remote_readers: BTreeMap<Guid, (), A>,
    /// For each writer, the ranks of the readers that are matched with it; no entry is empty.
    pub ranks: BTreeMap<Guid, Ranks<A>, A>,

    ghost few: { length readers.items ≤ 4096 },

    // Each entity id has four octets.
    ghost writers_sized: { are_sized (keys_of writers.entries) ≡ true },
    ghost readers_sized: { are_sized (keys_of remote_readers.entries) ≡ true },
}
