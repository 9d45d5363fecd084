//! A record file, read into memory.

ghost use Rattle.std.specs.Prelude.{◌≡◌, ◌≤◌, ◌<◌, ◌++◌, ◌∷◌, [], IfErr, IfOk, List, None, OnOk, Option, length, ℕ};
ghost use Rattle.std.specs.List.{flat_map};
ghost use Rattle.rtps_records.specs.Batches.{records_in};
ghost use Rattle.rtps_records.specs.RecordFile.{Tick};
ghost use Rattle.rtps_records.specs.declared.batch_end.BatchEnd.TheVariants.{More};
ghost use Rattle.rtps_records.specs.declared.fault.RunFault.TheVariants.{NoMemory};
ghost use Rattle.rtps_bench.specs.Reading.{AreFew, HasHeld, IsFaultOf, IsRead, goes_on};

use rtps_records::{Batch, BatchEnd, Records, RunFault};
use std::alloc::Global;
use std::io::Read;

/// Reads a record file into batches: of `most` datagrams, of fewer before a tick, before the end,
/// and where a batch has no room for one more datagram, as `replay` has them; or of one tick.
///
/// The fault is the first one of the file, or `CannotRead`, or `NoMemory`.
pub fn read_batches<R: Read>(
    alloc: Global,
    reader: &mut R,
    most: u16,
) -> Result<Vec<Batch>, RunFault>
    requires some { 1 ≤ most }
    requires few { most ≤ 4096 }
    ensures read { IfOk result (λ batches.
        IsRead (R.remaining reader.old) (flat_map records_in batches.items) None) }
    ensures few { IfOk result (λ batches. AreFew batches.items) }
    ensures fault { IfErr result (IsFaultOf (R.remaining reader.old)) }
{
    read_all(alloc, &mut Records::new(reader), most)
}

/// Reads all records into batches. None was read before.
fn read_all<R: Read>(
    alloc: Global,
    records: &mut Records<'_, R>,
    most: u16,
) -> Result<Vec<Batch>, RunFault>
    requires unread { records.old.count ≡ 0 }
    requires some { 1 ≤ most }
    requires few { most ≤ 4096 }
    ensures same_reader { records.new.reader.ghost_name ≡ records.old.reader.ghost_name }
    ensures read { IfOk result (λ batches.
        IsRead (R.remaining records.old.reader.now) (flat_map records_in batches.items) None) }
    ensures few { IfOk result (λ batches. AreFew batches.items) }
    ensures fault { IfErr result (IsFaultOf (R.remaining records.old.reader.now)) }
{
    match records.open() {
        Ok(_) => {}
        Err(fault) => return Err(fault),
    }
    let mut batches = Vec::new(alloc);
    let mut end = BatchEnd::More;
    while goes_on(end) {
        end = match read_more(alloc, records, &mut batches, most) {
            Ok(end) => end,
            Err(fault) => return Err(fault),
        };
    }
    match end {
        BatchEnd::Fault(fault) => Err(fault),
        _ => Ok(batches),
    }
}

/// Whether more of the file may follow.
fn goes_on(end: BatchEnd) -> bool
    ensures { result ≡ goes_on end }
{
    match end {
        BatchEnd::More => true,
        BatchEnd::Tick(_) | BatchEnd::End | BatchEnd::Fault(_) => false,
    }
}

/// Reads the next batch, and the tick after it, if there is one. Returns how the file goes on after
/// that: never by a tick. The error is always `NoMemory`.
fn read_more<R: Read>(
    alloc: Global,
    records: &mut Records<'_, R>,
    batches: &mut Vec<Batch>,
    most: u16,
) -> Result<BatchEnd, RunFault>
    requires some { 1 ≤ most }
    requires few { most ≤ 4096 }
    ensures same { (records.new.reader.ghost_name ≡ records.old.reader.ghost_name)
        × (records.new.format ≡ records.old.format) }
    ensures held { (first : Option (List ℕ)) → HasHeld records.old.format More first
        (R.remaining records.old.reader.now) records.old.count
        (flat_map records_in batches.old.items) → IfOk result (λ end.
        HasHeld records.old.format end first (R.remaining records.new.reader.now)
        records.new.count (flat_map records_in batches.new.items)) }
    ensures rises { records.old.count ≤ 4294967295 → IfOk result (λ end. end ≡ More
        → (records.old.count < records.new.count) × (records.new.count ≤ 4294967295)) }
    ensures few { AreFew batches.old.items → OnOk result (AreFew batches.new.items) }
    ensures fault { IfErr result (λ fault. fault ≡ NoMemory) }
{
    let mut batch = Batch::new(alloc)?;
    let end = records.next_batch(&mut batch, most)?;
    keep(batches, batch)?;
    match end {
        BatchEnd::Tick(moment) => keep_tick(alloc, batches, moment),
        end => Ok(end),
    }
}

/// Adds a batch of a tick. Returns that more may follow.
fn keep_tick(alloc: Global, batches: &mut Vec<Batch>, moment: u64) -> Result<BatchEnd, RunFault>
    ensures more { IfOk result (λ end. end ≡ More) }
    ensures kept { OnOk result (flat_map records_in batches.new.items
        ≡ flat_map records_in batches.old.items ++ Tick moment ∷ []) }
    ensures few { AreFew batches.old.items → OnOk result (AreFew batches.new.items) }
    ensures fault { IfErr result (λ fault. fault ≡ NoMemory) }
{
    let mut tick = Batch::new(alloc)?;
    tick.hold_tick(moment);
    keep(batches, tick)?;
    Ok(BatchEnd::More)
}

/// Adds a batch.
fn keep(batches: &mut Vec<Batch>, batch: Batch) -> Result<(), RunFault>
    ensures kept { OnOk result (batches.new.items ≡ batches.old.items ++ batch ∷ []) }
    ensures fault { IfErr result (λ fault. fault ≡ NoMemory) }
{
    match batches.push(batch) {
        Ok(()) => Ok(()),
        Err(_) => Err(RunFault::NoMemory),
    }
}
