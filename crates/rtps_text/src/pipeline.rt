//! What a run over a file keeps from one batch to the next.

ghost use Rattle.std.specs.Prelude.{◌≡◌, ◌⊎◌, ◌++◌, [], false, IfErr, IfOk, List, OnErr, OnOk, Option, ℕ};
ghost use Rattle.rtps_records.specs.Batches.{records_in};
ghost use Rattle.rtps_records.specs.Runs.{Moves, PutsFront};
ghost use Rattle.rtps_records.specs.declared.batch_end.BatchEnd.TheVariants.{More};
ghost use Rattle.rtps_records.specs.declared.fault.RunFault.TheVariants.{CannotWrite, NoMemory};
ghost use Rattle.rtps_text.specs.Ahead.{Ended, ReadsAhead, goes_on};

use crate::printing::print_text;
use crate::setup::Pace;
use rtps_records::{Batch, BatchEnd, Lines, Records, RunFault};
use std::alloc::{AllocError, Global};
use std::io::{Read, Write};

/// What is kept from one batch to the next: a text that is still to be written, and a batch that
/// was read ahead.
#[derive(Drop)]
pub(crate) struct ReadAhead {
    /// The text of the batch before, which was formatted beside the next one.
    pub text: Vec<u8>,
    /// The batch that was read last.
    pub next: Batch,
    /// What follows that batch in the file: more, a tick that was read, the end or a fault.
    pub end: BatchEnd,
    /// How the file is cut into batches.
    pace: Pace,
}

/// The data of one step of a run.
#[derive(Drop)]
pub(crate) struct Pipeline {
    /// The batch that the run processes while the next one is read.
    pub batch: Batch,
    pub ahead: ReadAhead,
    /// The allocator for the lines.
    pub alloc: Global,
}

impl Pipeline {
    /// Returns a pipeline without text and without records. More of the file may follow.
    pub(crate) fn new(alloc: Global, pace: Pace) -> Result<Pipeline, AllocError>
        ensures none { IfOk result (λ pipeline. pipeline.ahead.text.items ≡ []) }
        ensures more { IfOk result (λ pipeline. pipeline.ahead.end ≡ More) }
    {
        Ok(Pipeline {
            batch: Batch::new(alloc)?,
            ahead: ReadAhead::new(alloc, pace)?,
            alloc,
        })
    }
}

impl ReadAhead {
    /// Returns a state without text and without records. More of the file may follow.
    fn new(alloc: Global, pace: Pace) -> Result<ReadAhead, AllocError>
        ensures none { IfOk result (λ ahead. ahead.text.items ≡ []) }
        ensures more { IfOk result (λ ahead. ahead.end ≡ More) }
    {
        Ok(ReadAhead {
            text: Vec::new(alloc),
            next: Batch::new(alloc)?,
            end: BatchEnd::More,
            pace,
        })
    }

    /// Whether there is more to process after the batch that was read last.
    pub(crate) fn goes_on(&self) -> bool
        ensures { result ≡ goes_on self.now.end }
    {
        match self.end {
            BatchEnd::More | BatchEnd::Tick(_) => true,
            BatchEnd::End | BatchEnd::Fault(_) => false,
        }
    }

    /// Reads the batch after the one that was read last. A tick that ended that one is a batch, and
    /// was read before. After the last batch nothing is read: the next batch has no records, and
    /// the same end as the last one.
    ///
    /// The only error is `NoMemory`.
    pub(crate) fn read<R: Read>(&mut self, records: &mut Records<'_, R>) -> Result<(), RunFault>
        ensures same_reader { records.new.reader.ghost_name ≡ records.old.reader.ghost_name }
        ensures same_format { records.new.format ≡ records.old.format }
        ensures text { self.new.text ≡ self.old.text }
        ensures reads { (here : Option (List ℕ)) (n : ℕ)
            → Ended records.old.format self.old.end records.old.count
            (R.remaining records.old.reader.now) n here
            → OnOk result (ReadsAhead records.old.format self.old.end
            here (R.remaining records.new.reader.now) n records.new.count
            (records_in self.new.next) self.new.end) }
        ensures still { goes_on self.old.end ≡ false
            → R.remaining records.new.reader.now ≡ R.remaining records.old.reader.now }
        ensures fault { IfErr result (λ fault. fault ≡ NoMemory) }
    {
        match self.end {
            BatchEnd::More => self.end = records.next_batch(&mut self.next, self.pace.batch)?,
            BatchEnd::Tick(moment) => {
                self.next.hold_tick(moment);
                self.end = BatchEnd::More;
            }
            BatchEnd::End | BatchEnd::Fault(_) => self.next.clear(),
        }
        Ok(())
    }

    /// Adds the text to the lines, and writes the lines out if they are full; then reads as
    /// [`ReadAhead::read`] does.
    ///
    /// Returns `CannotWrite` if a write fails, and `NoMemory` if memory runs out. A prefix of the
    /// text may have been written by then. No thread is started: `_threads` is there because the
    /// other half of a join, which starts threads, borrows it too.
    pub(crate) fn write_and_read<R: Read, W: Write, T>(
        &mut self,
        _threads: &T,
        records: &mut Records<'_, R>,
        lines: &mut Lines<'_, W>,
    ) -> Result<(), RunFault>
        ensures none { self.new.text.items ≡ [] }
        ensures same_reader { records.new.reader.ghost_name ≡ records.old.reader.ghost_name }
        ensures same_format { records.new.format ≡ records.old.format }
        ensures same_writer { lines.new.writer.ghost_name ≡ lines.old.writer.ghost_name }
        ensures reads { (here : Option (List ℕ)) (n : ℕ)
            → Ended records.old.format self.old.end records.old.count
            (R.remaining records.old.reader.now) n here
            → OnOk result (ReadsAhead records.old.format self.old.end
            here (R.remaining records.new.reader.now) n records.new.count
            (records_in self.new.next) self.new.end) }
        ensures still { goes_on self.old.end ≡ false
            → R.remaining records.new.reader.now ≡ R.remaining records.old.reader.now }
        ensures ok { OnOk result (Moves
            (W.contents lines.old.writer.now) (W.contents lines.new.writer.now)
            (lines.old.text.items ++ self.old.text.items) lines.new.text.items) }
        ensures fault { IfErr result (λ fault. (fault ≡ CannotWrite) ⊎ (fault ≡ NoMemory)) }
        ensures front { OnErr result (PutsFront
            (W.contents lines.old.writer.now) (W.contents lines.new.writer.now)
            (lines.old.text.items ++ self.old.text.items)) }
    {
        print_text(lines, &mut self.text)?;
        self.read(records)
    }
}
