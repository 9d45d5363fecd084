//! A run of a participant over batches, and what it counts.

ghost use Rattle.std.specs.Prelude.{◌≡◌, ◌++◌, ◌∷◌, ◌≤◌, [], All, IfOk, List, OnOk, length, map};
ghost use Rattle.std.specs.List.{flat_map};
ghost use Rattle.std.specs.Option.{option_map_or};
ghost use Rattle.rtps_records.specs.Batches.{record_of, records_in};
ghost use Rattle.rtps_records.specs.RecordFile.{Record, Tick};
ghost use Rattle.dds_participant.specs.Ports.{NoneAttached};
ghost use Rattle.dds_topic.specs.ShapeMeaning.{shape_decoding};
ghost use Rattle.rtps_bench.specs.Counting.{HasCounted, TakesRecords, answers_given, capped, counts_of, totals};
ghost use Rattle.rtps_bench.specs.Inputs.{StandsAt, run_by};
ghost use Rattle.rtps_bench.specs.Reading.{AreFew};

use crate::counts::Counts;
use dds_participant::{Participant, Workers};
use dds_topic::{Catalog, Shapes};
use rtps_discovery::Config;
use rtps_reader::Status;
use rtps_records::Batch;
use rtps_run::BatchOutput;
use rtps_shards::NoGate;
use rtps_types::Datagram;
use std::alloc::{AllocError, Global};
use std::thread::Threads;

/// A participant that is run, and the number of its answers. Its readers have no outlets, so the
/// output of a batch has all that they report.
#[derive(Drop)]
struct Run<C: Catalog> {
    participant: Participant<C>,
    /// The output of the last batch.
    given: BatchOutput<C::Value>,
    /// The number of answers so far. It stops at 2^64 - 1.
    answers: u64,
}

impl<C: Catalog> Run<C> {
    /// Returns a run of a new participant.
    fn new(alloc: Global, config: Config, catalog: C) -> Result<Run<C>, AllocError>
        ensures same { IfOk result (λ run. (run.participant.engine.catalog ≡ catalog)
            × (run.participant.engine.config ≡ config)) }
        ensures counted { IfOk result (λ run.
            HasCounted C.decoding [] run.participant run.answers) }
    {
        let Ok(participant) = Participant::new(alloc, config, catalog) else {
            return Err(AllocError);
        };
        Ok(Run {
            participant,
            given: BatchOutput::new(alloc),
            answers: 0,
        })
    }

    /// Has the participant process the records of a batch, and counts the answers.
    fn take<T: Threads + Sync>(
        &mut self,
        rt: &T,
        alloc: Global,
        batch: &Batch,
        workers: usize,
    ) -> Result<(), AllocError>
        requires few { length (records_in batch.now) ≤ 4096 }
        requires workers { (1 ≤ workers) × (workers ≤ 64) }
        requires alone { NoneAttached self.old.participant.ports }
        ensures same { (self.new.participant.engine.catalog ≡ self.old.participant.engine.catalog)
            × (self.new.participant.engine.config ≡ self.old.participant.engine.config) }
        ensures counted { (records : List Record)
            → HasCounted C.decoding records self.old.participant self.old.answers
            → OnOk result (HasCounted C.decoding (records ++ records_in batch.now)
            self.new.participant self.new.answers) }
    {
        self.process(rt, alloc, batch, workers)?;
        self.answers = self.answers.saturating_add(answer_count(&self.given));
        Ok(())
    }

    /// Has the participant process the records of a batch: its datagrams, or its tick.
    fn process<T: Threads + Sync>(
        &mut self,
        rt: &T,
        alloc: Global,
        batch: &Batch,
        workers: usize,
    ) -> Result<(), AllocError>
        requires few { length (records_in batch.now) ≤ 4096 }
        requires workers { (1 ≤ workers) × (workers ≤ 64) }
        requires alone { NoneAttached self.old.participant.ports }
        ensures same { (self.new.participant.engine.catalog ≡ self.old.participant.engine.catalog)
            × (self.new.participant.engine.config ≡ self.old.participant.engine.config) }
        ensures answers { self.new.answers ≡ self.old.answers }
        ensures takes { OnOk result (TakesRecords C.view C.decoding (records_in batch.now)
            self.old.participant self.new.participant self.new.given) }
    {
        match batch.tick() {
            Some(moment) => self.pass(alloc, moment),
            None => self.receive(rt, alloc, &batch.datagrams(alloc)?, workers),
        }
    }

    /// Has the participant process datagrams.
    fn receive<T: Threads + Sync>(
        &mut self,
        rt: &T,
        alloc: Global,
        datagrams: &[Datagram<'_>],
        workers: usize,
    ) -> Result<(), AllocError>
        requires few { length datagrams.now ≤ 4096 }
        requires fit { All (λ d. length d.bytes.now ≤ 65507) datagrams.now }
        requires workers { (1 ≤ workers) × (workers ≤ 64) }
        requires alone { NoneAttached self.old.participant.ports }
        ensures same { (self.new.participant.engine.catalog ≡ self.old.participant.engine.catalog)
            × (self.new.participant.engine.config ≡ self.old.participant.engine.config) }
        ensures answers { self.new.answers ≡ self.old.answers }
        ensures takes { OnOk result (TakesRecords C.view C.decoding (map record_of datagrams.now)
            self.old.participant self.new.participant self.new.given) }
    {
        let workers = Workers {
            count: workers,
            gate: &NoGate,
        };
        match self
            .participant
            .run_in_order(rt, alloc, &workers, datagrams, &mut self.given)
        {
            Ok(()) => Ok(()),
            Err(_) => Err(AllocError),
        }
    }

    /// Has a moment pass for the participant, at which no datagram came.
    fn pass(&mut self, alloc: Global, moment: u64) -> Result<(), AllocError>
        requires alone { NoneAttached self.old.participant.ports }
        ensures same { (self.new.participant.engine.catalog ≡ self.old.participant.engine.catalog)
            × (self.new.participant.engine.config ≡ self.old.participant.engine.config) }
        ensures answers { self.new.answers ≡ self.old.answers }
        ensures takes { OnOk result (TakesRecords C.view C.decoding (Tick moment ∷ [])
            self.old.participant self.new.participant self.new.given) }
    {
        match self
            .participant
            .tick_in_order(alloc, moment, &mut self.given)
        {
            Ok(()) => Ok(()),
            Err(_) => Err(AllocError),
        }
    }

    /// Returns what was counted so far.
    fn counts(&self) -> Counts
        ensures { (records : List Record)
            → HasCounted C.decoding records self.now.participant self.now.answers → result
            ≡ counts_of (C.decoding self.now.participant.engine.catalog)
            self.now.participant.engine.config records }
    {
        let counters = self.participant.counters();
        let (samples, lost) = totals(&self.participant);
        Counts {
            datagrams: counters.datagrams,
            events: counters.events,
            samples,
            answers: self.answers,
            lost,
        }
    }
}

/// Returns the number of answers in the output of a batch. It stops at 2^64 - 1.
fn answer_count<V: Drop>(given: &BatchOutput<V>) -> u64
    ensures { result ≡ capped (answers_given given.now) }
{
    let mut count = given.answers.len() as u64;
    for output in &given.outputs {
        count = count.saturating_add(output.answers.len() as u64);
    }
    count
}

/// Returns how many changes were presented, and how many numbers were given up, of all readers.
fn totals<C: Catalog>(participant: &Participant<C>) -> (u64, u64)
    ensures samples { (records : List Record) → StandsAt C.decoding records participant.now.engine
        → result.0 ≡ totals (λ s. s.samples) (run_by C.decoding participant.now.engine records) }
    ensures lost { (records : List Record) → StandsAt C.decoding records participant.now.engine
        → result.1 ≡ totals (λ s. s.lost_total) (run_by C.decoding participant.now.engine records) }
{
    let (mut samples, mut lost) = (0_u64, 0_u64);
    for rank in 0..participant.readers() {
        let status = participant.status(rank);
        samples += samples_in(status);
        lost += lost_in(status);
    }
    (samples, lost)
}

/// Returns how many changes a reader presented; none where its status is `None`.
fn samples_in(status: Option<Status>) -> u64
    ensures value { result ≡ option_map_or (λ s. s.samples) status 0 }
    ensures fits { result ≤ 4294967295 }
{
    match status {
        Some(status) => u64::from(status.samples),
        None => 0,
    }
}

/// Returns how many numbers a reader gave up; none where its status is `None`.
fn lost_in(status: Option<Status>) -> u64
    ensures value { result ≡ option_map_or (λ s. s.lost_total) status 0 }
    ensures fits { result ≤ 4294967295 }
{
    match status {
        Some(status) => u64::from(status.lost_total),
        None => 0,
    }
}

/// Runs a new participant of this configuration over batches, and returns what it counted. The only
/// error is that memory ran out.
pub fn run_all<T: Threads + Sync>(
    rt: &T,
    alloc: Global,
    config: Config,
    batches: &[Batch],
    workers: usize,
) -> Result<Counts, AllocError>
    requires few { AreFew batches.now }
    requires workers { (1 ≤ workers) × (workers ≤ 64) }
    ensures { IfOk result (λ counts. counts ≡ counts_of shape_decoding config
        (flat_map records_in batches.now)) }
{
    let mut run = Run::new(alloc, config, Shapes)?;
    for batch in batches {
        run.take(rt, alloc, batch, workers)?;
    }
    Ok(run.counts())
}
