//! A run of a participant, in batches.

ghost use Rattle.std.specs.Prelude.{◌≡◌, ◌≤◌, [], ◌∷◌, All, IfErr, IfOk, OnOk, length, map};
ghost use Rattle.std.specs.Io.{StartsWith};
ghost use Rattle.rtps_records.specs.Batches.{record_of, records_in};
ghost use Rattle.rtps_records.specs.RecordFile.{Tick};
ghost use Rattle.rtps_records.specs.Runs.{Closes, ClosesNot};
ghost use Rattle.rtps_records.specs.Text.{Ends};
ghost use Rattle.rtps_run.specs.BatchOutput.{HoldsNothing};
ghost use Rattle.dds_participant.specs.Ports.{NoneAttached};
ghost use Rattle.rtps_text.specs.Replayed.{HasSaid, text_by};
ghost use Rattle.rtps_text.specs.Batched.{IsSameRun, TakesRecords};

use crate::closing::push_summary;
use crate::setup::{Pace, Setup};
use dds_participant::{Participant, Workers};
use dds_topic::TextCatalog;
use rtps_records::{Batch, Lines, RunFault};
use rtps_run::BatchOutput;
use rtps_shards::NoGate;
use rtps_types::Datagram;
use std::alloc::{AllocError, Allocator, Global};
use std::io::Write;
use std::thread::Threads;

/// A participant whose run is printed. Its readers have no outlets, so the output of a batch has
/// all that they report.
#[derive(Drop)]
pub(crate) struct RunLines<C: TextCatalog> {
    pub participant: Participant<C>,
    /// The output of the last batch.
    pub given: BatchOutput<C::Value>,
    /// The allocator for the output of a batch.
    pub alloc: Global,
    /// How the run is cut into batches and shared among workers.
    pub pace: Pace,
    /// Whether matches and statuses are printed after the last record.
    pub summary: bool,
}

impl<C: TextCatalog> RunLines<C>
where
    C::Value: Sync,
{
    /// Returns a run with these settings. No datagram was processed, and nothing was printed.
    pub(crate) fn new(alloc: Global, setup: Setup<C>) -> Result<RunLines<C>, AllocError>
        ensures same { IfOk result (λ run. (run.participant.engine.catalog ≡ setup.catalog) ×
            (run.participant.engine.config ≡ setup.config) × (run.summary ≡ setup.summary)
            × (run.pace ≡ setup.pace)) }
        ensures fresh { IfOk result (λ run.
            HasSaid C.text_of C.decoding [] [] run.participant.engine) }
        ensures nothing { IfOk result (λ run. HoldsNothing run.given) }
        ensures alone { IfOk result (λ run. NoneAttached run.participant.ports) }
    {
        let Setup {
            config,
            catalog,
            summary,
            pace,
        } = setup;
        let Ok(participant) = Participant::new(alloc, config, catalog) else {
            return Err(AllocError);
        };
        Ok(RunLines {
            participant,
            given: BatchOutput::new(alloc),
            alloc,
            pace,
            summary,
        })
    }

    /// Has the participant process the records of a batch: its datagrams, or its tick.
    pub(crate) fn take_records<T: Threads + Sync>(
        &mut self,
        rt: &T,
        batch: &Batch,
    ) -> Result<(), AllocError>
        requires few { length (records_in batch.now) ≤ 4096 }
        requires alone { NoneAttached self.old.participant.ports }
        ensures same { IsSameRun self.old self.new }
        ensures takes { OnOk result (TakesRecords C.view C.decoding (records_in batch.now)
            self.old.participant.engine self.new.participant.engine self.new.given) }
    {
        match batch.tick() {
            Some(moment) => self.pass(moment),
            None => self.take(rt, &batch.datagrams(self.alloc)?),
        }
    }

    /// Has the participant process datagrams.
    fn take<T: Threads + Sync>(
        &mut self,
        rt: &T,
        datagrams: &[Datagram<'_>],
    ) -> Result<(), AllocError>
        requires few { length datagrams.now ≤ 4096 }
        requires fit { All (λ d. length d.bytes.now ≤ 65507) datagrams.now }
        requires alone { NoneAttached self.old.participant.ports }
        ensures same { IsSameRun self.old self.new }
        ensures takes { OnOk result (TakesRecords C.view C.decoding (map record_of datagrams.now)
            self.old.participant.engine self.new.participant.engine self.new.given) }
    {
        let readers = self.participant.readers();
        let workers = Workers {
            count: self.pace.runners(datagrams, readers),
            gate: &NoGate,
        };
        match self
            .participant
            .run_in_order(rt, self.alloc, &workers, datagrams, &mut self.given)
        {
            Ok(()) => Ok(()),
            Err(_) => Err(AllocError),
        }
    }

    /// Has a moment pass for the participant, at which no datagram came.
    fn pass(&mut self, moment: u64) -> Result<(), AllocError>
        requires alone { NoneAttached self.old.participant.ports }
        ensures same { IsSameRun self.old self.new }
        ensures takes { OnOk result (TakesRecords C.view C.decoding (Tick moment ∷ [])
            self.old.participant.engine self.new.participant.engine self.new.given) }
    {
        match self
            .participant
            .tick_in_order(self.alloc, moment, &mut self.given)
        {
            Ok(()) => Ok(()),
            Err(_) => Err(AllocError),
        }
    }

    /// Adds the summary if it is asked for.
    fn finish<A: Allocator>(&self, out: &mut Vec<u8, A>) -> Result<(), AllocError>
        ensures ok { OnOk result (Ends
            (λ records said. HasSaid C.text_of C.decoding records said self.now.participant.engine)
            (text_by C.text_of C.decoding self.now.participant.engine self.now.summary)
            out.old.items out.new.items) }
        ensures keeps { StartsWith out.new.items out.old.items }
    {
        if !self.summary {
            return Ok(());
        }
        push_summary(out, self.alloc, &self.participant)
    }

    /// Adds the last lines, and closes the text.
    pub(crate) fn close<A: Allocator, W: Write>(
        &self,
        lines: &mut Lines<'_, W, Vec<u8, A>>,
    ) -> Result<(), RunFault>
        ensures same_writer { lines.new.writer.ghost_name ≡ lines.old.writer.ghost_name }
        ensures ok { OnOk result (Closes
            (λ records said. HasSaid C.text_of C.decoding records said self.now.participant.engine)
            (text_by C.text_of C.decoding self.now.participant.engine self.now.summary)
            (W.contents lines.old.writer.now) (W.contents lines.new.writer.now)
            lines.old.text.items) }
        ensures fault { IfErr result (λ fault. ClosesNot fault
            (λ records said. HasSaid C.text_of C.decoding records said self.now.participant.engine)
            (text_by C.text_of C.decoding self.now.participant.engine self.now.summary)
            (W.contents lines.old.writer.now) (W.contents lines.new.writer.now)
            lines.old.text.items) }
    {
        self.finish(&mut lines.text)?;
        lines.close()
    }
}
