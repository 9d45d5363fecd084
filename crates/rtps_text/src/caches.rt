//! The caches of a run's readers, by rank.

ghost use Rattle.std.specs.Prelude.{◌≡◌, ◌≤◌, ◌⊎◌, ◌++◌, All, IfErr, IfOk, List, OnErr, OnOk, length, map};
ghost use Rattle.std.specs.List.{flat_map};
ghost use Rattle.rtps_records.specs.Runs.{Moves, PutsFront};
ghost use Rattle.rtps_records.specs.declared.fault.RunFault.TheVariants.{CannotWrite, NoMemory};
ghost use Rattle.dds_cache.specs.Cache.{IsHistory};
ghost use Rattle.rtps_run.specs.World.{ReportView};
ghost use Rattle.rtps_text.specs.Caches.{Accepts, AllAccept, AllHeard, IsEmpty};
ghost use Rattle.rtps_lines.specs.Entry.{entry_line, sample_view};
ghost use Rattle.rtps_text.specs.Entries.{entry_lines};
ghost use Rattle.dds_cache.specs.declared.history.History.{History};

use dds_cache::{Condition, DataReader, History, Taken};
use dds_topic::TextCatalog;
use rtps_lines::push_entry;
use rtps_reader::{Notice, Output};
use rtps_records::{Lines, RunFault};
use std::alloc::{AllocError, Global};
use std::io::Write;

/// The condition that every entry meets, since all entries are printed.
const ANY: Condition = Condition {
    not_read: false,
    new: false,
    alive: false,
};

/// The caches of a run's readers.
#[derive(Drop)]
pub(crate) struct ReaderCaches<V: Drop> {
    pub by_rank: Vec<DataReader<V>>,
    ghost few: { length by_rank.items ≤ 4294967295 },
}

/// Returns empty caches for `readers` readers.
pub(crate) fn new_caches<V: Drop>(
    alloc: Global,
    keep: History,
    readers: u32,
) -> Result<Vec<DataReader<V>>, AllocError>
    requires { IsHistory keep }
    ensures count { IfOk result (λ caches. length caches.items ≡ readers) }
    ensures empty { IfOk result (λ caches. All (IsEmpty keep) caches.items) }
{
    let mut caches = Vec::new(alloc);
    for _rank in 0..readers {
        caches.push(DataReader::new(alloc, keep))?;
    }
    Ok(caches)
}

/// Moves the notices of a reader into its cache, in order.
fn accept_all<V: Drop>(
    alloc: Global,
    cache: &mut DataReader<V>,
    notices: &mut Vec<Notice<V>>,
) -> Result<(), AllocError>
    ensures { OnOk result (Accepts notices.old.items cache.old cache.new) }
{
    for notice in notices.drain(..) {
        match cache.accept(alloc, notice) {
            Ok(()) => {}
            Err(_) => return Err(AllocError),
        }
    }
    Ok(())
}

/// Moves the notices of each reader into its cache.
fn accept_each<V: Drop>(
    alloc: Global,
    caches: &mut Vec<DataReader<V>>,
    outputs: &mut Vec<Output<V>>,
) -> Result<(), AllocError>
    requires { length outputs.old.items ≡ length caches.old.items }
    ensures count { length caches.new.items ≡ length caches.old.items }
    ensures accept { OnOk result (AllAccept outputs.old.items caches.old.items caches.new.items) }
{
    for rank in 0..caches.len() {
        accept_all(alloc, &mut caches[rank], &mut outputs[rank].notices)?;
    }
    Ok(())
}

impl<V: Drop> ReaderCaches<V> {
    /// Moves the notices of each reader into its cache.
    pub(crate) fn accept(
        &mut self,
        alloc: Global,
        outputs: &mut Vec<Output<V>>,
    ) -> Result<(), AllocError>
        requires { length outputs.old.items ≡ length self.old.by_rank.items }
        ensures { OnOk result (AllAccept outputs.old.items self.old.by_rank.items
            self.new.by_rank.items) }
    {
        accept_each(alloc, &mut self.by_rank, outputs)
    }
}

/// Adds the lines of these entries of the reader of `rank`, and writes the lines out whenever they
/// are full.
///
/// Returns `CannotWrite` if a write fails, and `NoMemory` if memory runs out. A prefix of the lines
/// may have been written by then.
fn print_entries<C: TextCatalog, W: Write>(
    lines: &mut Lines<'_, W>,
    catalog: &C,
    rank: u32,
    entries: &[Taken<C::Value>],
) -> Result<(), RunFault>
    ensures same_writer { lines.new.writer.ghost_name ≡ lines.old.writer.ghost_name }
    ensures ok { OnOk result (Moves
        (W.contents lines.old.writer.now) (W.contents lines.new.writer.now)
        (lines.old.text.items ++ flat_map (entry_line (C.text_of catalog.now) rank)
        (map (sample_view C.view) entries.now)) lines.new.text.items) }
    ensures fault { IfErr result (λ fault. (fault ≡ CannotWrite) ⊎ (fault ≡ NoMemory)) }
    ensures front { OnErr result (PutsFront
        (W.contents lines.old.writer.now) (W.contents lines.new.writer.now)
        (lines.old.text.items ++ flat_map (entry_line (C.text_of catalog.now) rank)
        (map (sample_view C.view) entries.now))) }
{
    for entry in entries {
        push_entry(&mut lines.text, catalog, rank, entry)?;
        lines.write_if_full()?;
    }
    Ok(())
}

/// Takes all entries from each cache, by rank, adds their lines, and writes the lines out whenever
/// they are full.
///
/// Returns `CannotWrite` if a write fails, and `NoMemory` if memory runs out. A prefix of the lines
/// may have been written by then.
pub(crate) fn print_caches<C: TextCatalog, W: Write>(
    alloc: Global,
    lines: &mut Lines<'_, W>,
    catalog: &C,
    caches: &mut Vec<DataReader<C::Value>>,
) -> Result<(), RunFault>
    requires { length caches.old.items ≤ 4294967295 }
    ensures count { length caches.new.items ≡ length caches.old.items }
    ensures same_writer { lines.new.writer.ghost_name ≡ lines.old.writer.ghost_name }
    ensures ok { (keep : History) (put : List (ReportView C.Meaning))
        → AllHeard C.view keep put caches.old.items → OnOk result (Moves
        (W.contents lines.old.writer.now) (W.contents lines.new.writer.now)
        (lines.old.text.items ++ entry_lines (C.text_of catalog.now) keep put
        (length caches.old.items)) lines.new.text.items) }
    ensures fault { IfErr result (λ fault. (fault ≡ CannotWrite) ⊎ (fault ≡ NoMemory)) }
    ensures front { (keep : History) (put : List (ReportView C.Meaning))
        → AllHeard C.view keep put caches.old.items → OnErr result (PutsFront
        (W.contents lines.old.writer.now) (W.contents lines.new.writer.now)
        (lines.old.text.items ++ entry_lines (C.text_of catalog.now) keep put
        (length caches.old.items))) }
{
    for rank in 0..caches.len() {
        let cache = &mut caches[rank];
        let most = cache.len();
        let taken = cache.take(alloc, most, ANY)?;
        print_entries(lines, catalog, rank as u32, &taken)?;
    }
    Ok(())
}
