//! Printing what readers keep after a run over a whole record file: one line for each entry of
//! their caches.

ghost use Rattle.std.specs.Prelude.{◌≡◌, ◌≤◌, ◌⊎◌, ◌++◌, [], IfErr, IfOk, List, None, OnErr, OnOk, if◌then◌else◌, length, ℕ};
ghost use Rattle.std.specs.Io.{StartsWith};
ghost use Rattle.std.specs.Io.KnownBytes.{Appends};
ghost use Rattle.std.specs.List.{AllByRecursion};
ghost use Rattle.rtps_records.specs.Batches.{records_in};
ghost use Rattle.rtps_records.specs.RecordFile.{IsRecord, Record};
ghost use Rattle.rtps_records.specs.Runs.{PutsFront, WroteAll};
ghost use Rattle.rtps_records.specs.declared.fault.RunFault.TheVariants.{CannotWrite, NoMemory};
ghost use Rattle.rtps_text.specs.Inputs.{StandsAt, run_by};
ghost use Rattle.dds_participant.specs.Ports.{NoneAttached};
ghost use Rattle.rtps_text.specs.Batched.{IsSameRun};
ghost use Rattle.rtps_text.specs.Caches.{AllAccept, AreKept, StopsLate};
ghost use Rattle.rtps_text.specs.Entries.{samples_by, samples_text};
ghost use Rattle.rtps_text.specs.Replayed.{summary_text};

use crate::caches::{ReaderCaches, new_caches, print_caches};
use crate::closing::push_summary;
use crate::file_run::run_file;
use crate::pipeline::Pipeline;
use crate::running::RunLines;
use crate::setup::{CacheSetup, Setup};
use crate::sink::Sink;
use dds_cache::History;
use dds_topic::TextCatalog;
use rtps_records::{Batch, Lines, RunFault};
use std::alloc::{AllocError, Allocator, Global};
use std::io::{Read, Write};
use std::thread::Threads;

/// A participant, and a cache for each of its readers.
#[derive(Drop)]
pub(crate) struct RunCaches<C: TextCatalog> {
    pub run: RunLines<C>,
    /// The number of entries that each cache keeps for an instance.
    pub keep: History,
    pub caches: ReaderCaches<C::Value>,
}

/// Reads a record file up to its end or its first fault, has the readers of a configuration process
/// its datagrams, batch after batch, and moves the notices of each reader into a cache of its own.
/// Then all entries are taken from each cache, by rank, and a line is written for each entry. With
/// `summary` the matches and the status of each reader follow. All of this is written also if a
/// record has a fault.
///
/// Neither the file nor the text is ever in memory as a whole. In memory are the entries of the
/// caches, the records of two batches, at most 1 MiB each, the output of one batch, and about 64
/// KiB of text.
pub fn samples<C: TextCatalog, R: Read + Send, W: Write + Send, T: Threads + Sync>(
    rt: &T,
    alloc: Global,
    setup: CacheSetup<C>,
    reader: &mut R,
    writer: &mut W,
) -> Result<(), RunFault>
where
    C::Value: Sync,
    ensures ok { OnOk result (WroteAll
        (samples_text (C.text_of setup.run.catalog) (C.decoding setup.run.catalog)
        setup.run.config setup.run.summary setup.keep)
        (R.remaining reader.old) (W.contents writer.old) (W.contents writer.new) None) }
    ensures fault { IfErr result (λ fault. StopsLate
        (samples_text (C.text_of setup.run.catalog) (C.decoding setup.run.catalog)
        setup.run.config setup.run.summary setup.keep)
        fault (R.remaining reader.old) (R.remaining reader.new)
        (W.contents writer.old) (W.contents writer.new)) }
{
    let CacheSetup { run, keep } = setup;
    let Setup {
        config,
        catalog,
        summary,
        pace,
    } = run;
    let catalog = &catalog;
    let run = Setup {
        config,
        catalog,
        summary,
        pace,
    };
    let lent = CacheSetup { run, keep };
    keep_file(rt, RunCaches::new(alloc, lent)?, &catalog, reader, writer)
}

/// Runs the readers over a file, and prints what their caches keep. No datagram was processed
/// before. `_catalog` is there only for its lifetime: a sink of another kind borrows a catalog.
fn keep_file<'c, C: TextCatalog, R: Read + Send, W: Write + Send, T: Threads + Sync>(
    rt: &T,
    kept: RunCaches<C>,
    _catalog: &'c C,
    reader: &mut R,
    writer: &mut W,
) -> Result<(), RunFault>
where
    C::Value: Sync,
    requires fresh { AreKept C.view C.decoding kept.keep [] kept.run.participant.engine
        kept.caches.by_rank.items }
    requires alone { NoneAttached kept.run.participant.ports }
    ensures ok { OnOk result (WroteAll
        (samples_by C.text_of C.decoding kept.run.participant.engine kept.run.summary kept.keep)
        (R.remaining reader.old) (W.contents writer.old) (W.contents writer.new) None) }
    ensures fault { IfErr result (λ fault. StopsLate
        (samples_by C.text_of C.decoding kept.run.participant.engine kept.run.summary kept.keep)
        fault (R.remaining reader.old) (R.remaining reader.new)
        (W.contents writer.old) (W.contents writer.new)) }
{
    let pipeline = Pipeline::new(kept.run.alloc, kept.run.pace)?;
    let sink: Sink<'c, C> = Sink::Caches(kept);
    run_file(rt, sink, pipeline, reader, writer)
}

/// Adds the summary of a run if it is asked for.
fn push_asked<C: TextCatalog, A: Allocator>(
    out: &mut Vec<u8, A>,
    run: &RunLines<C>,
) -> Result<(), AllocError>
where
    C::Value: Sync,
    ensures ok { (records : List Record)
        → StandsAt C.decoding records run.now.participant.engine
        → OnOk result (out.new.items ≡ out.old.items ++ (if run.now.summary
        then summary_text (run_by C.decoding run.now.participant.engine records) else [])) }
    ensures keeps { StartsWith out.new.items out.old.items }
{
    if !run.summary {
        return Ok(());
    }
    push_summary(out, run.alloc, &run.participant)
}

impl<C: TextCatalog> RunCaches<C>
where
    C::Value: Sync,
{
    /// Returns a run with these settings. No datagram was processed, and the caches are empty.
    fn new(alloc: Global, setup: CacheSetup<C>) -> Result<RunCaches<C>, AllocError>
        ensures same { IfOk result (λ kept.
            (kept.run.participant.engine.catalog ≡ setup.run.catalog)
            × (kept.run.participant.engine.config ≡ setup.run.config)
            × (kept.run.summary ≡ setup.run.summary) × (kept.keep ≡ setup.keep)) }
        ensures fresh { IfOk result (λ kept. AreKept C.view C.decoding kept.keep []
            kept.run.participant.engine kept.caches.by_rank.items) }
        ensures alone { IfOk result (λ kept. NoneAttached kept.run.participant.ports) }
    {
        let CacheSetup { run, keep } = setup;
        let run = RunLines::new(alloc, run)?;
        let by_rank = new_caches(alloc, keep, run.participant.readers())?;
        let caches = ReaderCaches { by_rank };
        Ok(RunCaches { run, keep, caches })
    }

    /// Has the run process the records of a batch, and moves the notices of each reader into its
    /// cache.
    pub(crate) fn take<T: Threads + Sync>(
        &mut self,
        rt: &T,
        batch: &Batch,
    ) -> Result<(), AllocError>
        requires few { length (records_in batch.now) ≤ 4096 }
        requires kept { (earlier : List Record) × AreKept C.view C.decoding self.old.keep earlier
            self.old.run.participant.engine self.old.caches.by_rank.items }
        requires alone { NoneAttached self.old.run.participant.ports }
        ensures same { IsSameRun self.old.run self.new.run × (self.new.keep ≡ self.old.keep) }
        ensures takes { (earlier : List Record) → AreKept C.view C.decoding self.old.keep earlier
            self.old.run.participant.engine self.old.caches.by_rank.items → OnOk result
            (AreKept C.view C.decoding self.new.keep (earlier ++ records_in batch.now)
            self.new.run.participant.engine self.new.caches.by_rank.items) }
    {
        self.run.take_records(rt, batch)?;
        self.accept()
    }

    /// Moves the notices of each reader in the last batch into its cache.
    fn accept(&mut self) -> Result<(), AllocError>
        requires many { length self.old.run.given.outputs.items
            ≡ length self.old.caches.by_rank.items }
        ensures same { (self.new.run.participant ≡ self.old.run.participant)
            × (self.new.run.summary ≡ self.old.run.summary)
            × (self.new.run.pace ≡ self.old.run.pace) × (self.new.keep ≡ self.old.keep) }
        ensures accept { OnOk result (AllAccept self.old.run.given.outputs.items
            self.old.caches.by_rank.items self.new.caches.by_rank.items) }
    {
        let RunCaches { run, caches, .. } = self;
        caches.accept(run.alloc, &mut run.given.outputs)
    }

    /// Takes all entries from the caches and prints them, adds the summary if it is asked for, and
    /// closes the text.
    ///
    /// Returns `CannotWrite` if a write fails, and `NoMemory` if memory runs out. A prefix of the
    /// text may have been written by then.
    pub(crate) fn close<W: Write>(&mut self, lines: &mut Lines<'_, W>) -> Result<(), RunFault>
        requires empty { lines.old.text.items ≡ [] }
        ensures same_writer { lines.new.writer.ghost_name ≡ lines.old.writer.ghost_name }
        ensures ok { (records : List Record) → AreKept C.view C.decoding self.old.keep records
            self.old.run.participant.engine self.old.caches.by_rank.items → OnOk result (Appends
            (W.contents lines.old.writer.now) (W.contents lines.new.writer.now)
            (samples_by C.text_of C.decoding self.old.run.participant.engine
            self.old.run.summary self.old.keep records)) }
        ensures fault { IfErr result (λ fault. (fault ≡ CannotWrite) ⊎ (fault ≡ NoMemory)) }
        ensures front { (records : List Record) → AreKept C.view C.decoding self.old.keep
            records self.old.run.participant.engine self.old.caches.by_rank.items
            → OnErr result (PutsFront
            (W.contents lines.old.writer.now) (W.contents lines.new.writer.now)
            (samples_by C.text_of C.decoding self.old.run.participant.engine
            self.old.run.summary self.old.keep records)) }
    {
        let alloc = self.run.alloc;
        let catalog = self.run.participant.catalog();
        let caches = &mut self.caches.by_rank;
        print_caches(alloc, lines, catalog, caches)?;
        push_asked(&mut lines.text, &self.run)?;
        lines.close()
    }
}
