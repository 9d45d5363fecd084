//! A batch of datagrams.

ghost use Rattle.std.specs.Prelude.{◌≡◌, ◌+◌, ◌^◌, ◌≤◌, ◌<◌, ◌++◌, ℕ, All, IfErr, IfOk, List, OnErr, OnOk, false, true, length, map, slice_index_or};
ghost use Rattle.std.specs.declared.alloc.Global.{Global};
ghost use Rattle.rtps_planner.specs.PassedOver.{passed_by, passed_over, plus};
ghost use Rattle.rtps_receiver.specs.Counters.{AreCounts, all_counted};
ghost use Rattle.rtps_run.specs.declared.outcome.Outcome.{Outcome};
ghost use Rattle.rtps_run.specs.Input.{Input, arrived, occurrences_from};
ghost use Rattle.rtps_run.specs.Outcome.{Adds};
ghost use Rattle.rtps_run.specs.Run.{world_run};
ghost use Rattle.rtps_run.specs.Standing.{ShowsAt, StandsAt, datagram_limit, run_by, status_shown};
ghost use Rattle.rtps_run.specs.World.{World};
ghost use Rattle.dds_participant.specs.Batch.{IsFinishedBy, Keeps, LeavesLists, OnlyRuns, failing};
ghost use Rattle.rtps_run.specs.BatchOutput.{IsGiven};
ghost use Rattle.dds_participant.specs.Decode.{octets_of};
ghost use Rattle.dds_participant.specs.Handing.{IsHandedOn, IsOutcomeHandedOn};
ghost use Rattle.dds_participant.specs.Kept.{ParticipantView, RefusesBatch, TakesBatch, counted};
ghost use Rattle.dds_participant.specs.Ports.{NoneAttached};
ghost use Rattle.rtps_run.specs.declared.batch_output.BatchOutput.{BatchOutput};

use crate::counted::Counted;
use crate::decode::{Arrived, decoded, stamped};
use crate::outcome::outcome_of;
use crate::participant::Participant;
use crate::readers::{Assigned, Readers, lists_for, run_assigned};
use dds_topic::Catalog;
use rtps_planner::plan;
use rtps_run::{BatchOutput, DATAGRAM_LIMIT, EngineError, Outcome, show_all};
use rtps_shards::{Gate, SharedBatch};
use rtps_types::Datagram;
use std::alloc::{AllocError, Global};
use std::mem;
use std::thread::Threads;

/// The workers that run a batch.
#[derive(Clone, Copy, Debug)]
pub struct Workers<'a, G> {
    /// The number of workers, 1 to 64. One worker runs on the caller's thread; several have a
    /// thread each.
    pub count: usize,
    /// Called as each job begins and ends.
    pub gate: &'a G,
}

/// Whether a participant takes these datagrams as one batch: at most 4,096, each of at most 65,507
/// octets, the largest payload of a UDP datagram over IPv4. Call this on datagrams that come from
/// outside, before [`Participant::run_batch`] or [`Participant::run_in_order`].
pub fn is_batch(datagrams: &[Datagram<'_>]) -> bool
    ensures few { result ≡ true → length datagrams.now ≤ 4096 }
    ensures fit { result ≡ true → All (λ d. length d.bytes.now ≤ 65507) datagrams.now }
    ensures is { length datagrams.now ≤ 4096 → All (λ d. length d.bytes.now ≤ 65507) datagrams.now
        → result ≡ true }
{
    datagrams.len() <= 4096
        && datagrams
            .iter()
            .all(|datagram| datagram.bytes.len() <= 65_507)
}

/// What a batch gave, and what is counted after it.
#[derive(Drop)]
struct Ran<V: Drop> {
    given: BatchOutput<V>,
    counted: Counted,
}

impl<C: Catalog> Participant<C> {
    /// Processes the next datagrams, at most 4,096 of at most 65,507 octets each, and returns the
    /// notices of each reader and the answers to send, as [`rtps_serial::SerialEngine::take`]
    /// returns them for one datagram after another. Before the events of each datagram its moment
    /// passes, at which leases may end (DDSI-RTPS 8.5.3.2).
    ///
    /// The readers' jobs are run by `workers` workers, 1 to 64: one runs on the caller's thread;
    /// several have a thread each, for which the caller waits. `gate` is called as each job begins
    /// and ends. If there is more than one worker, more than 2,048 datagrams are decoded on one
    /// thread for each processor.
    ///
    /// The notices of a reader with an outlet are not in the outcome: they are appended to the
    /// outlet's backlog, which [`Participant::deliver`] sends. Its answers are in the outcome, as
    /// those of the other readers are.
    ///
    /// When a batch runs out of memory, on any worker or as a backlog grows, nothing of it is
    /// returned or added to a backlog, and the participant has failed: from then on it returns
    /// [`EngineError::Failed`], and its statuses are those before that batch. A batch that would
    /// take the count of datagrams past 2^48 is refused with [`EngineError::Spent`] and changes
    /// nothing.
    ///
    /// ```text
    /// if !is_batch(&datagrams) {
    ///     bail!("these are too many datagrams, or one is too long");
    /// }
    /// let outcome = participant.run_batch(&rt, alloc, &NoGate, &datagrams, 4)?;
    /// for answer in &outcome.answers {
    ///     // Send answer.octets to each of answer.to.
    /// }
    /// for (rank, notices) in outcome.notices.iter().enumerate() {
    ///     // What the reader of this rank reports.
    /// }
    /// ```
    #[tactic(auto, unfolding(crate::specs::Kept::TakesBatch, crate::specs::Kept::RefusesBatch))]
    pub fn run_batch<G: Gate, R: Threads + Sync>(
        &mut self,
        rt: &R,
        alloc: Global,
        gate: &G,
        datagrams: &[Datagram<'_>],
        workers: usize,
    ) -> Result<Outcome<C::Value>, EngineError>
        requires few { length datagrams.now ≤ 4096 }
        requires fit { All (λ d. length d.bytes.now ≤ 65507) datagrams.now }
        requires workers { (1 ≤ workers) × (workers ≤ 64) }
        ensures takes { TakesBatch (length datagrams.now) result self.old self.new }
        ensures counts { (taken : ℕ) → self.old.batches ≡ counted taken
            → OnOk result (self.new.batches ≡ counted (taken + 1)) }
        ensures counters { OnOk result (self.new.counters.received ≡ all_counted
            self.old.engine.config.own (octets_of datagrams.now) self.old.counters.received) }
        ensures passed { (earlier : List Input) → StandsAt C.decoding earlier self.old.engine
            → self.old.counters.passed ≡ passed_by self.old.engine.config earlier
            → OnOk result (self.new.counters.passed
            ≡ passed_by self.old.engine.config (earlier ++ map arrived datagrams.now)) }
        ensures uncounted { OnErr result (self.new.counters ≡ self.old.counters) }
        ensures same { (self.new.engine.catalog ≡ self.old.engine.catalog)
            × (self.new.engine.config ≡ self.old.engine.config) }
        ensures stands { (earlier : List Input) → StandsAt C.decoding earlier self.old.engine
            → OnOk result (StandsAt C.decoding (earlier ++ map arrived datagrams.now)
            self.new.engine) }
        ensures adds { (earlier : List Input) → StandsAt C.decoding earlier self.old.engine
            → IfOk result (λ outcome. (whole : Outcome C.Value Global)
            × Adds C.view (run_by C.decoding self.old.engine earlier)
            (run_by C.decoding self.old.engine (earlier ++ map arrived datagrams.now)) whole
            × IsOutcomeHandedOn whole outcome self.old.ports self.new.ports) }
        ensures alone { (earlier : List Input) → StandsAt C.decoding earlier self.old.engine
            → NoneAttached self.old.ports
            → IfOk result (Adds C.view (run_by C.decoding self.old.engine earlier)
            (run_by C.decoding self.old.engine (earlier ++ map arrived datagrams.now))) }
        ensures free { NoneAttached self.old.ports → NoneAttached self.new.ports }
        ensures ports { OnErr result (self.new.ports ≡ self.old.ports) }
        ensures shows { (earlier : List Input) → ShowsAt C.decoding earlier self.old.engine
            → OnErr result (ShowsAt C.decoding earlier self.new.engine) }
    {
        self.admit(datagrams.len())?;
        let workers = Workers {
            count: workers,
            gate,
        };
        let ran = self.run(rt, alloc, &workers, datagrams, BatchOutput::new(alloc))?;
        let mut outcome = outcome_of::<C>(alloc, ran.given)?;
        self.hand_lists(&mut outcome.notices)?;
        self.finish_batch(datagrams.len(), ran.counted);
        Ok(outcome)
    }

    /// Processes the next datagrams as [`Participant::run_batch`] does, and puts the results into
    /// the caller's lists: the places of the batch, discovery's answers, and the notices and
    /// answers of each reader. Merged by place, as [`BatchOutput`] says, they are all that the
    /// batch puts out, except what went to backlogs: a reader with an outlet has no notice in its
    /// list, which keeps its memory.
    ///
    /// What was in the lists is dropped. Pass the same lists to the next batch, as they are: each
    /// reader's lists are emptied by the worker that runs its job, and no new memory is taken for
    /// what these have room for. A refusal that changes nothing leaves them as they were; where
    /// memory runs out they are empty afterwards.
    #[tactic(auto, unfolding(crate::specs::Kept::TakesBatch, crate::specs::Kept::RefusesBatch))]
    pub fn run_in_order<G: Gate, R: Threads + Sync>(
        &mut self,
        rt: &R,
        alloc: Global,
        workers: &Workers<'_, G>,
        datagrams: &[Datagram<'_>],
        given: &mut BatchOutput<C::Value>,
    ) -> Result<(), EngineError>
        requires few { length datagrams.now ≤ 4096 }
        requires fit { All (λ d. length d.bytes.now ≤ 65507) datagrams.now }
        requires workers { (1 ≤ workers.now.count) × (workers.now.count ≤ 64) }
        ensures takes { TakesBatch (length datagrams.now) result self.old self.new }
        ensures counts { (taken : ℕ) → self.old.batches ≡ counted taken
            → OnOk result (self.new.batches ≡ counted (taken + 1)) }
        ensures counters { OnOk result (self.new.counters.received ≡ all_counted
            self.old.engine.config.own (octets_of datagrams.now) self.old.counters.received) }
        ensures passed { (earlier : List Input) → StandsAt C.decoding earlier self.old.engine
            → self.old.counters.passed ≡ passed_by self.old.engine.config earlier
            → OnOk result (self.new.counters.passed
            ≡ passed_by self.old.engine.config (earlier ++ map arrived datagrams.now)) }
        ensures uncounted { OnErr result (self.new.counters ≡ self.old.counters) }
        ensures same { (self.new.engine.catalog ≡ self.old.engine.catalog)
            × (self.new.engine.config ≡ self.old.engine.config) }
        ensures stands { (earlier : List Input) → StandsAt C.decoding earlier self.old.engine
            → OnOk result (StandsAt C.decoding (earlier ++ map arrived datagrams.now)
            self.new.engine) }
        ensures gives { (earlier : List Input) → StandsAt C.decoding earlier self.old.engine
            → OnOk result ((whole : BatchOutput C.Value)
            × IsGiven C.view (run_by C.decoding self.old.engine earlier)
            (run_by C.decoding self.old.engine (earlier ++ map arrived datagrams.now)) whole
            × IsHandedOn whole given.new self.old.ports self.new.ports) }
        ensures alone { (earlier : List Input) → StandsAt C.decoding earlier self.old.engine
            → NoneAttached self.old.ports
            → OnOk result (IsGiven C.view (run_by C.decoding self.old.engine earlier)
            (run_by C.decoding self.old.engine (earlier ++ map arrived datagrams.now))
            given.new) }
        ensures free { NoneAttached self.old.ports → NoneAttached self.new.ports }
        ensures ports { OnErr result (self.new.ports ≡ self.old.ports) }
        ensures shows { (earlier : List Input) → ShowsAt C.decoding earlier self.old.engine
            → OnErr result (ShowsAt C.decoding earlier self.new.engine) }
        ensures lists { IfErr result (λ e. LeavesLists e given.old given.new) }
    {
        self.admit(datagrams.len())?;
        let lent = mem::replace(given, BatchOutput::new(alloc));
        let mut ran = self.run(rt, alloc, workers, datagrams, lent)?;
        self.hand(&mut ran.given.outputs)?;
        *given = ran.given;
        self.finish_batch(datagrams.len(), ran.counted);
        Ok(())
    }

    /// Refuses a batch of `count` datagrams before it is looked at, or else marks the participant
    /// as failed until the batch is finished.
    #[tactic(auto, unfolding(crate::specs::Kept::RefusesBatch))]
    fn admit(&mut self, count: usize) -> Result<(), EngineError>
        requires { count ≤ 4096 }
        ensures ok { OnOk result ((self.old.engine.failed ≡ false)
            × (self.old.engine.index + count ≤ datagram_limit) × (self.new ≡ failing self.old)) }
        ensures there { OnOk result ((inputs : List Input)
            × StandsAt C.decoding inputs self.old.engine) }
        ensures few { OnOk result ((length self.old.engine.readers ≤ 4096)
            × (length self.old.engine.readers ≡ length self.old.engine.statuses)) }
        ensures err { IfErr result (λ e. RefusesBatch count e self.old) }
        ensures still { OnErr result (self.new ≡ self.old) }
    {
        if self.failed {
            return Err(EngineError::Failed);
        }
        if self.index.saturating_add(count as u64) > DATAGRAM_LIMIT {
            return Err(EngineError::Spent);
        }
        self.failed = true;
        Ok(())
    }

    /// Has discovery and the readers process the datagrams, each with its moment first. The results
    /// replace the contents of the lists.
    fn run<G: Gate, R: Threads + Sync>(
        &mut self,
        rt: &R,
        alloc: Global,
        workers: &Workers<'_, G>,
        datagrams: &[Datagram<'_>],
        lists: BatchOutput<C::Value>,
    ) -> Result<Ran<C::Value>, AllocError>
        requires room { self.old.engine.index + length datagrams.now < 2 ^ 64 }
        requires fit { All (λ d. length d.bytes.now ≤ 65507) datagrams.now }
        requires workers { (1 ≤ workers.now.count) × (workers.now.count ≤ 64) }
        requires readers { length self.old.engine.readers ≤ 4096 }
        requires failed { self.old.engine.failed ≡ true }
        ensures same { OnlyRuns self.old self.new }
        ensures ports { self.new.ports ≡ self.old.ports }
        ensures count { OnOk result
            (length self.new.engine.readers ≡ length self.old.engine.readers) }
        ensures outputs { IfOk result (λ ran.
            length ran.given.outputs.items ≡ length self.old.engine.readers) }
        ensures counters { IfOk result (λ ran. ran.counted.received ≡ all_counted
            self.old.engine.config.own (octets_of datagrams.now) self.old.counters.received) }
        ensures counts { IfOk result (λ ran. AreCounts ran.counted.received) }
        ensures passed { (w : World C.Meaning) → Keeps w self.old.engine → IfOk result (λ ran.
            ran.counted.passed ≡ plus self.old.counters.passed (passed_over w.known
            (occurrences_from self.old.engine.config.own self.old.engine.index
            (map arrived datagrams.now)))) }
        ensures keeps { (w : World C.Meaning) → Keeps w self.old.engine → OnOk result
            (Keeps (world_run (C.decoding self.old.engine.catalog) w (occurrences_from
            self.old.engine.config.own self.old.engine.index (map arrived datagrams.now)))
            self.new.engine) }
        ensures gives { (w : World C.Meaning) → Keeps w self.old.engine → IfOk result (λ ran.
            IsGiven C.view w (world_run (C.decoding self.old.engine.catalog) w (occurrences_from
            self.old.engine.config.own self.old.engine.index (map arrived datagrams.now)))
            ran.given) }
    {
        let from = Arrived {
            own: self.config.own,
            first: self.index,
            datagrams,
        };
        let decoded = decoded(rt, alloc, from, self.counted.received, workers.count)?;
        let stamped = stamped(alloc, self.index, datagrams, &decoded.events)?;
        let plan = plan(alloc, &stamped, &mut self.discovery)?;
        let states = mem::replace(&mut self.readers, Vec::new(alloc));
        let outputs = lists_for(alloc, lists.outputs, states.len())?;
        let assigned = Assigned {
            jobs: plan.jobs,
            readers: Readers { states, outputs },
        };
        let batch = SharedBatch {
            catalog: &self.catalog,
            gate: workers.gate,
            events: &decoded.events,
        };
        let readers = run_assigned(rt, alloc, &batch, assigned, workers.count)?;
        self.readers = readers.states;
        let mut passed = self.counted.passed;
        passed.add(plan.rest.passed);
        Ok(Ran {
            given: BatchOutput {
                places: plan.rest.places,
                answers: plan.rest.answers,
                outputs: readers.outputs,
            },
            counted: Counted {
                received: decoded.counters,
                passed,
            },
        })
    }

    /// Finishes a batch of `count` datagrams, after which this is counted.
    fn finish_batch(&mut self, count: usize, counted: Counted)
        requires room { 0 < count → self.old.engine.index + count ≤ datagram_limit }
        requires readers { length self.old.engine.readers ≡ length self.old.engine.statuses }
        requires failed { self.old.engine.failed ≡ true }
        requires there { (new : ParticipantView C C.Value) → IsFinishedBy count self.old new
            → (inputs : List Input) × StandsAt C.decoding inputs new.engine }
        requires counts { AreCounts counted.received }
        ensures finished { IsFinishedBy count self.old self.new }
        ensures ports { self.new.ports ≡ self.old.ports }
        ensures counters { self.new.counters ≡ counted }
    {
        self.finish(count);
        self.counted = counted;
    }

    /// Counts `count` datagrams and one batch as taken, and updates the statuses from the readers.
    pub(crate) fn finish(&mut self, count: usize)
        requires room { 0 < count → self.old.engine.index + count ≤ datagram_limit }
        requires readers { length self.old.engine.readers ≡ length self.old.engine.statuses }
        requires failed { self.old.engine.failed ≡ true }
        requires there { (new : ParticipantView C C.Value) → IsFinishedBy count self.old new
            → (inputs : List Input) × StandsAt C.decoding inputs new.engine }
        ensures finished { IsFinishedBy count self.old self.new }
        ensures ports { self.new.ports ≡ self.old.ports }
        ensures counters { self.new.counters ≡ self.old.counters }
    {
        self.show();
        self.index += count as u64;
        self.batches = self.batches.saturating_add(1);
        self.failed = false;
    }

    /// Updates the statuses from the readers.
    fn show(&mut self)
        requires readers { length self.old.engine.readers ≡ length self.old.engine.statuses }
        requires failed { self.old.engine.failed ≡ true }
        ensures same { self.new.engine
            ≡ record self.old.engine { statuses = self.new.engine.statuses } }
        ensures batches { self.new.batches ≡ self.old.batches }
        ensures ports { self.new.ports ≡ self.old.ports }
        ensures counters { self.new.counters ≡ self.old.counters }
        ensures count { length self.new.engine.statuses ≡ length self.old.engine.statuses }
        ensures statuses { (rank : ℕ) (s : _) (r : _) → rank < length self.old.engine.readers
            → slice_index_or self.new.engine.statuses rank s
            ≡ status_shown (slice_index_or self.old.engine.statuses rank s)
            (slice_index_or self.old.engine.readers rank r) }
    {
        show_all(&self.readers, &mut self.statuses);
    }
}
