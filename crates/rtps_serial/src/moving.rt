//! Readers of ours that come and go.

ghost use Rattle.std.specs.Prelude.{◌≡◌, [], Err, IfErr, IfOk, IfSome, None, OnOk, false, length};
ghost use Rattle.rtps_discovery.specs.ReaderFaults.{adding_fault, removing_fault};
ghost use Rattle.rtps_discovery.specs.Start.{wish_of};
ghost use Rattle.rtps_discovery.specs.declared.reader_faults.ReaderFault.TheVariants.{NoMemory};
ghost use Rattle.rtps_run.specs.Moving.{has_begun};
ghost use Rattle.rtps_run.specs.Occurrence.{Joins, Parts, head_of};
ghost use Rattle.rtps_run.specs.Seen.{notices_by, reader_count};
ghost use Rattle.rtps_run.specs.Standing.{WorldStands};
ghost use Rattle.rtps_run.specs.World.{World, world_after};

use crate::readers::Readers;
use crate::steps::take_changes;
use dds_topic::Catalog;
use rtps_discovery::{Discovery, ReaderConfig, ReaderFault};
use rtps_reader::ReaderState;
use rtps_run::{Report, is_reliable};
use rtps_types::{Guid, Place};
use std::alloc::Allocator;

/// Whether a reader came or went, or memory ran out meanwhile. Any other refusal changes nothing.
pub fn has_begun<T>(moved: &Result<T, ReaderFault>) -> bool
    ensures { result ≡ has_begun moved.now }
{
    matches!(moved, Ok(_) | Err(ReaderFault::NoMemory))
}

/// The place before the submessages of a datagram, which are counted from 1.
fn head_of(index: u64) -> Place
    ensures { result ≡ head_of index }
{
    Place {
        datagram: index,
        submessage: 0,
    }
}

/// Has a reader of ours come before the datagram of an index: discovery adds it, it starts, and its
/// matches with known writers begin (DDSI-RTPS 8.5). Returns its rank, and what it reports.
///
/// `Full` and `BadReader` change nothing. After `NoMemory` discovery and the readers are of no use.
pub fn join<C: Catalog, A: Allocator + Copy>(
    discovery: &mut Discovery<A>,
    readers: &mut Readers<C, A>,
    alloc: A,
    index: u64,
    reader: ReaderConfig,
) -> Result<(u32, Vec<Report<C::Value, A>, A>), ReaderFault>
    ensures refused { discovery.old.spent ≡ false
        → IfSome (adding_fault discovery.old.kept.readers (wish_of reader)) (λ fault.
        (result ≡ Err fault) × (discovery.new ≡ discovery.old) × (readers.new ≡ readers.old)) }
    ensures taken { discovery.old.spent ≡ false
        → adding_fault discovery.old.kept.readers (wish_of reader) ≡ None
        → IfErr result (λ fault. fault ≡ NoMemory) }
    ensures same { readers.new.decoder ≡ readers.old.decoder }
    ensures unspent { OnOk result (discovery.new.spent ≡ false) }
    ensures rank { (w : World C.Meaning)
        → WorldStands {A = A} C.view w w.put discovery.old.kept readers.old.states.items []
        → IfOk result (λ joined. joined.0 ≡ reader_count w) }
    ensures stands { (w : World C.Meaning)
        → WorldStands {A = A} C.view w w.put discovery.old.kept readers.old.states.items []
        → notices_by (reader_count w) w.put ≡ []
        → IfOk result (λ joined. WorldStands C.view (world_after (C.decoding readers.old.decoder) w
        (Joins index (wish_of reader))) w.put discovery.new.kept readers.new.states.items
        joined.1.items) }
{
    let guid = Guid {
        prefix: discovery.own(),
        entity: reader.entity,
    };
    let reliable = is_reliable(&reader);
    let (rank, matches) = discovery.add_reader(alloc, reader)?;
    let fixed = Vec::new(alloc); // it has none
    let state = ReaderState::new(alloc, rank, guid, reliable, fixed.as_slice())?;
    readers.start(state)?;
    let mut reports = Vec::new(alloc);
    take_changes(readers, alloc, head_of(index), &matches, &mut reports)?;
    Ok((rank, reports))
}

/// Has the reader of a rank go before the datagram of an index: discovery removes it, its matches
/// end, and it stops (DDSI-RTPS 8.5). Returns what it reports.
///
/// `NoReader` changes nothing. After `NoMemory` discovery and the readers are of no use.
pub fn part<C: Catalog, A: Allocator + Copy>(
    discovery: &mut Discovery<A>,
    readers: &mut Readers<C, A>,
    alloc: A,
    index: u64,
    rank: u32,
) -> Result<Vec<Report<C::Value, A>, A>, ReaderFault>
    ensures refused { discovery.old.spent ≡ false
        → IfSome (removing_fault discovery.old.kept.readers rank) (λ fault.
        (result ≡ Err fault) × (discovery.new ≡ discovery.old) × (readers.new ≡ readers.old)) }
    ensures taken { discovery.old.spent ≡ false
        → removing_fault discovery.old.kept.readers rank ≡ None
        → IfErr result (λ fault. fault ≡ NoMemory) }
    ensures same { readers.new.decoder ≡ readers.old.decoder }
    ensures count { length readers.new.states.items ≡ length readers.old.states.items }
    ensures unspent { OnOk result (discovery.new.spent ≡ false) }
    ensures stands { (w : World C.Meaning)
        → WorldStands {A = A} C.view w w.put discovery.old.kept readers.old.states.items []
        → IfOk result (λ reports. WorldStands C.view (world_after (C.decoding readers.old.decoder) w
        (Parts index rank)) w.put discovery.new.kept readers.new.states.items reports.items) }
{
    let ends = discovery.remove_reader(alloc, rank)?;
    let mut reports = Vec::new(alloc);
    take_changes(readers, alloc, head_of(index), &ends, &mut reports)?;
    readers.stop(rank);
    Ok(reports)
}
