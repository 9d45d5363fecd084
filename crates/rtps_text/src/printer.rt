//! Printing a run: the results of a batch are formatted, and the formatted text is written.

ghost use Rattle.std.specs.Prelude.{◌≡◌, ◌≤◌, ◌⊎◌, ◌++◌, [], false, IfErr, IfOk, List, OnErr, OnOk, Option, length, ℕ};
ghost use Rattle.rtps_records.specs.Batches.{records_in};
ghost use Rattle.rtps_records.specs.Runs.{Moves, PutsFront};
ghost use Rattle.rtps_records.specs.declared.fault.RunFault.TheVariants.{CannotWrite, NoMemory};
ghost use Rattle.rtps_run.specs.BatchOutput.{IsInOrder};
ghost use Rattle.dds_participant.specs.Ports.{NoneAttached};
ghost use Rattle.rtps_text.specs.Ahead.{Ended, ReadsAhead, goes_on};
ghost use Rattle.rtps_text.specs.Batched.{IsDue, IsSameRun, TakesRecords, batch_lines};

use crate::beside::write_and_read_beside;
use crate::pipeline::Pipeline;
use crate::printing::{print_items, print_text, push_items};
use crate::running::RunLines;
use crate::setup::Pace;
use dds_topic::TextCatalog;
use rtps_records::{Lines, Records, RunFault};
use rtps_run::BatchOutput;
use std::alloc::{AllocError, Global};
use std::io::{Read, Write};
use std::mem;
use std::thread::Threads;

/// The most lines that are formatted beside the next batch. A batch of 4,096 datagrams for the
/// program's eight readers has at most 32,768 unless many changes waited for a missing one. More
/// lines than that are written as they are made, since their text would be long.
const MOST_BESIDE: usize = 49_152;

/// The printer of a run, which works one batch behind it: while the run processes a batch, the
/// results of the batch before are formatted, the text of the batch before that one is written, and
/// the next batch is read. One thread formats, which takes less time than several take to run a
/// batch.
#[derive(Drop)]
pub(crate) struct Printer<'c, C: TextCatalog> {
    /// The catalog that formats the values.
    pub catalog: &'c C,
    /// The results that are formatted while the next batch is run. Their lists are reused for the
    /// batch after that.
    given: BatchOutput<C::Value>,
    /// A buffer for the next text.
    spare: Vec<u8>,
    /// The pace, which tells whether a text is made beside the next batch.
    pace: Pace,
    /// The allocator for texts.
    alloc: Global,
}

impl<'c, C: TextCatalog> Printer<'c, C>
where
    C::Value: Sync,
{
    /// Returns a printer for this run, whose values the catalog formats. Nothing is printed yet.
    pub(crate) fn new(catalog: &'c C, run: &RunLines<C>) -> Printer<'c, C>
        ensures { result.catalog.now ≡ catalog.now }
    {
        Printer {
            catalog,
            given: BatchOutput::new(run.alloc),
            spare: Vec::new(run.alloc),
            pace: run.pace,
            alloc: run.alloc,
        }
    }

    /// Prints the results of the run's last batch, has the run process the batch that was read
    /// ahead, and reads the next batch. If there are several workers and enough lines, these happen
    /// at the same time, and the text is kept in `pipeline`: it is to be written after the lines.
    ///
    /// Returns `CannotWrite` if a write fails, and `NoMemory` if memory runs out. A prefix of what
    /// was to be printed may have been written by then.
    pub(crate) fn print_and_take<R: Read + Send, W: Write + Send, T: Threads + Sync>(
        &mut self,
        rt: &T,
        mut run: RunLines<C>,
        pipeline: &mut Pipeline,
        records: &mut Records<'_, R>,
        lines: &mut Lines<'_, W>,
    ) -> Result<RunLines<C>, RunFault>
        requires few { length (records_in pipeline.old.ahead.next) ≤ 4096 }
        requires alone { NoneAttached run.participant.ports }
        ensures same { IfOk result (IsSameRun run) }
        ensures takes { IfOk result (λ now. TakesRecords C.view C.decoding
            (records_in pipeline.old.ahead.next)
            run.participant.engine now.participant.engine now.given) }
        ensures reads { (here : Option (List ℕ)) (n : ℕ)
            → Ended records.old.format pipeline.old.ahead.end records.old.count
            (R.remaining records.old.reader.now) n here
            → OnOk result (ReadsAhead records.old.format pipeline.old.ahead.end
            here (R.remaining records.new.reader.now) n records.new.count
            (records_in pipeline.new.ahead.next) pipeline.new.ahead.end) }
        ensures still { goes_on pipeline.old.ahead.end ≡ false
            → R.remaining records.new.reader.now ≡ R.remaining records.old.reader.now }
        ensures catalog { self.new.catalog.now ≡ self.old.catalog.now }
        ensures same_reader { records.new.reader.ghost_name ≡ records.old.reader.ghost_name }
        ensures same_format { records.new.format ≡ records.old.format }
        ensures same_writer { lines.new.writer.ghost_name ≡ lines.old.writer.ghost_name }
        ensures ok { (due : List ℕ) → IsDue (C.text_of self.old.catalog.now) C.view
            pipeline.old.ahead.text.items run.given due
            → OnOk result (Moves
            (W.contents lines.old.writer.now) (W.contents lines.new.writer.now)
            (lines.old.text.items ++ due)
            (lines.new.text.items ++ pipeline.new.ahead.text.items)) }
        ensures fault { IfErr result (λ fault. (fault ≡ CannotWrite) ⊎ (fault ≡ NoMemory)) }
        ensures front { (due : List ℕ) → IsDue (C.text_of self.old.catalog.now) C.view
            pipeline.old.ahead.text.items run.given due
            → OnErr result (PutsFront
            (W.contents lines.old.writer.now) (W.contents lines.new.writer.now)
            (lines.old.text.items ++ due)) }
    {
        if self.formats_beside(&run.given) {
            return self.format_and_take(rt, run, pipeline, records, lines);
        }
        print_text(lines, &mut pipeline.ahead.text)?;
        print_items(self.alloc, lines, self.catalog, &run.given)?;
        run.take_records(rt, &pipeline.ahead.next)?;
        pipeline.ahead.read(records)?;
        Ok(run)
    }

    /// Adds the text that was formatted before, and then the lines of the results of a batch, and
    /// writes the lines out whenever they are full. Afterwards the text is empty.
    ///
    /// Returns `CannotWrite` if a write fails, and `NoMemory` if memory runs out. A prefix of what
    /// was to be printed may have been written by then.
    pub(crate) fn print_last<W: Write>(
        &mut self,
        given: &BatchOutput<C::Value>,
        text: &mut Vec<u8>,
        lines: &mut Lines<'_, W>,
    ) -> Result<(), RunFault>
        ensures catalog { self.new.catalog.now ≡ self.old.catalog.now }
        ensures same_writer { lines.new.writer.ghost_name ≡ lines.old.writer.ghost_name }
        ensures ok { (due : List ℕ) → IsDue (C.text_of self.old.catalog.now) C.view
            text.old.items given.now due → OnOk result (Moves
            (W.contents lines.old.writer.now) (W.contents lines.new.writer.now)
            (lines.old.text.items ++ due) lines.new.text.items) }
        ensures fault { IfErr result (λ fault. (fault ≡ CannotWrite) ⊎ (fault ≡ NoMemory)) }
        ensures front { (due : List ℕ) → IsDue (C.text_of self.old.catalog.now) C.view
            text.old.items given.now due → OnErr result (PutsFront
            (W.contents lines.old.writer.now) (W.contents lines.new.writer.now)
            (lines.old.text.items ++ due)) }
    {
        print_text(lines, text)?;
        print_items(self.alloc, lines, self.catalog, given)
    }

    /// Whether the lines of these results are made beside the next batch: if there are several
    /// workers, and neither too few lines for a thread nor too many for one text.
    fn formats_beside(&self, given: &BatchOutput<C::Value>) -> bool {
        let lines = given
            .outputs
            .iter()
            .fold(given.answers.len(), |lines, output| {
                let more = output.notices.len().saturating_add(output.answers.len());
                lines.saturating_add(more)
            });
        lines <= MOST_BESIDE && self.pace.formats_beside(lines)
    }

    /// Runs a batch on a thread of its own and formats the results of the batch before on this one,
    /// while a text is written and the next batch is read.
    fn format_and_take<R: Read + Send, W: Write + Send, T: Threads + Sync>(
        &mut self,
        rt: &T,
        mut run: RunLines<C>,
        pipeline: &mut Pipeline,
        records: &mut Records<'_, R>,
        lines: &mut Lines<'_, W>,
    ) -> Result<RunLines<C>, RunFault>
        requires few { length (records_in pipeline.old.ahead.next) ≤ 4096 }
        requires alone { NoneAttached run.participant.ports }
        ensures same { IfOk result (IsSameRun run) }
        ensures takes { IfOk result (λ now. TakesRecords C.view C.decoding
            (records_in pipeline.old.ahead.next)
            run.participant.engine now.participant.engine now.given) }
        ensures reads { (here : Option (List ℕ)) (n : ℕ)
            → Ended records.old.format pipeline.old.ahead.end records.old.count
            (R.remaining records.old.reader.now) n here
            → OnOk result (ReadsAhead records.old.format pipeline.old.ahead.end
            here (R.remaining records.new.reader.now) n records.new.count
            (records_in pipeline.new.ahead.next) pipeline.new.ahead.end) }
        ensures still { goes_on pipeline.old.ahead.end ≡ false
            → R.remaining records.new.reader.now ≡ R.remaining records.old.reader.now }
        ensures catalog { self.new.catalog.now ≡ self.old.catalog.now }
        ensures same_reader { records.new.reader.ghost_name ≡ records.old.reader.ghost_name }
        ensures same_format { records.new.format ≡ records.old.format }
        ensures same_writer { lines.new.writer.ghost_name ≡ lines.old.writer.ghost_name }
        ensures ok { (due : List ℕ) → IsDue (C.text_of self.old.catalog.now) C.view
            pipeline.old.ahead.text.items run.given due
            → OnOk result (Moves
            (W.contents lines.old.writer.now) (W.contents lines.new.writer.now)
            (lines.old.text.items ++ due)
            (lines.new.text.items ++ pipeline.new.ahead.text.items)) }
        ensures fault { IfErr result (λ fault. (fault ≡ CannotWrite) ⊎ (fault ≡ NoMemory)) }
        ensures front { (due : List ℕ) → IsDue (C.text_of self.old.catalog.now) C.view
            pipeline.old.ahead.text.items run.given due
            → OnErr result (PutsFront
            (W.contents lines.old.writer.now) (W.contents lines.new.writer.now)
            (lines.old.text.items ++ due)) }
    {
        let Pipeline { batch, ahead, .. } = pipeline;
        mem::swap(batch, &mut ahead.next);
        mem::swap(&mut run.given, &mut self.given);
        let spare = mem::replace(&mut self.spare, Vec::new(self.alloc));
        let (alloc, catalog, given) = (self.alloc, self.catalog, &self.given);
        let batch = &*batch;
        let take = move || -> Result<RunLines<C>, AllocError>
            requires few { length (records_in batch.now) ≤ 4096 }
            requires alone { NoneAttached run.participant.ports }
            ensures same { IfOk result (IsSameRun run) }
            ensures takes { IfOk result (λ now. TakesRecords C.view C.decoding
                (records_in batch.entry.now) run.participant.engine now.participant.engine
                now.given) }
        {
            let mut run = run;
            run.take_records(rt, batch)?;
            Ok(run)
        };
        let format_lines = move || -> Result<Vec<u8>, AllocError>
            ensures { IsInOrder C.view given.entry.now → IfOk result (λ text. text.items
                ≡ batch_lines (C.text_of catalog.entry.now) C.view given.entry.now) }
        {
            let mut text = spare;
            text.clear();
            push_items(alloc, &mut text, catalog, given)?;
            Ok(text)
        };
        let calls = (take, format_lines);
        let (done, taken, made) = write_and_read_beside(rt, ahead, records, lines, calls);
        done?;
        self.spare = mem::replace(&mut ahead.text, made?);
        Ok(taken?)
    }
}
