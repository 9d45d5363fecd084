//! The sinks of a run over a file, which process its records and print their text.

ghost use Rattle.std.specs.Prelude.{◌≡◌, ◌≤◌, ◌⊎◌, false, IfErr, IfOk, List, OnErr, OnOk, Option, length, ℕ};
ghost use Rattle.rtps_records.specs.Batches.{records_in};
ghost use Rattle.rtps_records.specs.RecordFile.{Record};
ghost use Rattle.rtps_records.specs.declared.fault.RunFault.TheVariants.{CannotWrite, NoMemory};
ghost use Rattle.rtps_text.specs.Ahead.{Ended, ReadsAhead, goes_on};
ghost use Rattle.rtps_text.specs.Sink.{HasTaken, IsTaken, is_late, sink_text};
ghost use Rattle.rtps_text.specs.Taken.{Finishes, FinishesFront, Takes, TakesFront};

use crate::pipeline::Pipeline;
use crate::printer::Printer;
use crate::running::RunLines;
use crate::sampling::RunCaches;
use dds_topic::TextCatalog;
use rtps_records::{Lines, Records, RunFault};
use std::io::{Read, Write};
use std::thread::Threads;

/// The sink of a run over a file: what processes the records and prints their text.
#[derive(Drop)]
pub(crate) enum Sink<'c, C: TextCatalog> {
    /// What readers report and answer. Its lines are formatted while the next batch is run.
    Lines {
        run: RunLines<C>,
        printer: Printer<'c, C>,
    },
    /// What readers keep in their caches. It is printed at the end.
    Caches(RunCaches<C>),
}

impl<'c, C: TextCatalog> Sink<'c, C>
where
    C::Value: Sync,
{
    /// Processes the batch that was read ahead, and reads the next one.
    ///
    /// Returns `CannotWrite` if a write fails, and `NoMemory` if memory runs out. A prefix of what
    /// was to be printed may have been written by then.
    pub(crate) fn take_and_read<R: Read + Send, W: Write + Send, T: Threads + Sync>(
        self,
        rt: &T,
        pipeline: &mut Pipeline,
        records: &mut Records<'_, R>,
        lines: &mut Lines<'_, W>,
    ) -> Result<Sink<'c, C>, RunFault>
        requires few { length (records_in pipeline.old.ahead.next) ≤ 4096 }
        requires taken { HasTaken C.text_of C.view C.decoding self
            pipeline.old.ahead.text.items lines.old.text.items }
        ensures text { IfOk result (λ now. (those : List Record)
            → sink_text C.text_of C.decoding now those
            ≡ sink_text C.text_of C.decoding self.entry those) }
        ensures late { IfOk result (λ now. is_late now ≡ is_late self.entry) }
        ensures takes { IfOk result (λ now. Takes
            (IsTaken C.text_of C.view C.decoding self.entry pipeline.old.ahead.text.items)
            (IsTaken C.text_of C.view C.decoding now pipeline.new.ahead.text.items)
            (records_in pipeline.old.ahead.next)
            (W.contents lines.old.writer.now) (W.contents lines.new.writer.now)
            lines.old.text.items lines.new.text.items) }
        ensures reads { (here : Option (List ℕ)) (n : ℕ)
            → Ended records.old.format pipeline.old.ahead.end records.old.count
            (R.remaining records.old.reader.now) n here
            → OnOk result (ReadsAhead records.old.format pipeline.old.ahead.end
            here (R.remaining records.new.reader.now) n records.new.count
            (records_in pipeline.new.ahead.next) pipeline.new.ahead.end) }
        ensures still { goes_on pipeline.old.ahead.end ≡ false
            → R.remaining records.new.reader.now ≡ R.remaining records.old.reader.now }
        ensures same_reader { records.new.reader.ghost_name ≡ records.old.reader.ghost_name }
        ensures same_format { records.new.format ≡ records.old.format }
        ensures same_writer { lines.new.writer.ghost_name ≡ lines.old.writer.ghost_name }
        ensures fault { IfErr result (λ fault. (fault ≡ CannotWrite) ⊎ (fault ≡ NoMemory)) }
        ensures front { OnErr result (TakesFront
            (IsTaken C.text_of C.view C.decoding self.entry pipeline.old.ahead.text.items)
            (sink_text C.text_of C.decoding self.entry)
            (records_in pipeline.old.ahead.next)
            (W.contents lines.old.writer.now) (W.contents lines.new.writer.now)
            lines.old.text.items) }
    {
        match self {
            Sink::Lines { run, mut printer } => {
                let run = printer.print_and_take(rt, run, pipeline, records, lines)?;
                Ok(Sink::Lines { run, printer })
            }
            Sink::Caches(mut kept) => {
                kept.take(rt, &pipeline.ahead.next)?;
                pipeline.ahead.read(records)?;
                Ok(Sink::Caches(kept))
            }
        }
    }

    /// Prints the rest of the text of the records that were processed, and closes the text.
    ///
    /// Returns `CannotWrite` if a write fails, and `NoMemory` if memory runs out. A prefix of what
    /// was to be printed may have been written by then.
    pub(crate) fn close<W: Write>(
        self,
        text: &mut Vec<u8>,
        lines: &mut Lines<'_, W>,
    ) -> Result<(), RunFault>
        requires taken { HasTaken C.text_of C.view C.decoding self
            text.old.items lines.old.text.items }
        ensures same_writer { lines.new.writer.ghost_name ≡ lines.old.writer.ghost_name }
        ensures ok { OnOk result (Finishes
            (IsTaken C.text_of C.view C.decoding self.entry text.old.items)
            (sink_text C.text_of C.decoding self.entry)
            (W.contents lines.old.writer.now) (W.contents lines.new.writer.now)
            lines.old.text.items) }
        ensures fault { IfErr result (λ fault. (fault ≡ CannotWrite) ⊎ (fault ≡ NoMemory)) }
        ensures front { IfErr result (λ fault. FinishesFront (is_late self.entry) fault
            (IsTaken C.text_of C.view C.decoding self.entry text.old.items)
            (sink_text C.text_of C.decoding self.entry)
            (W.contents lines.old.writer.now) (W.contents lines.new.writer.now)
            lines.old.text.items) }
    {
        match self {
            Sink::Lines { run, mut printer } => {
                printer.print_last(&run.given, text, lines)?;
                run.close(lines)
            }
            Sink::Caches(mut kept) => kept.close(lines),
        }
    }
}
