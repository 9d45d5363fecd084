//! A tick: a moment at which no datagram came.

ghost use Rattle.std.specs.Prelude.{◌≡◌, ◌+◌, ◌≤◌, ◌++◌, ◌∷◌, [], ℕ, IfErr, IfOk, List, OnErr, OnOk, false, true, length};
ghost use Rattle.std.specs.declared.alloc.Global.{Global};
ghost use Rattle.rtps_run.specs.declared.outcome.Outcome.{Outcome};
ghost use Rattle.rtps_run.specs.Input.{Input, Tick, occurrences_from};
ghost use Rattle.rtps_run.specs.Outcome.{Adds};
ghost use Rattle.rtps_run.specs.Run.{world_run};
ghost use Rattle.rtps_run.specs.Standing.{ShowsAt, StandsAt, run_by};
ghost use Rattle.rtps_run.specs.World.{World};
ghost use Rattle.dds_participant.specs.Batch.{Keeps, LeavesLists, OnlyRuns, failing};
ghost use Rattle.rtps_run.specs.BatchOutput.{IsGiven};
ghost use Rattle.dds_participant.specs.Handing.{IsHandedOn, IsOutcomeHandedOn};
ghost use Rattle.dds_participant.specs.Kept.{RefusesTick, TakesTick, counted};
ghost use Rattle.dds_participant.specs.Ports.{NoneAttached};
ghost use Rattle.rtps_run.specs.declared.batch_output.BatchOutput.{BatchOutput};

use crate::outcome::outcome_of;
use crate::participant::Participant;
use crate::readers::{Assigned, Readers, lists_for, run_alone};
use dds_topic::Catalog;
use rtps_planner::{Stamped, plan};
use rtps_run::{BatchOutput, EngineError, Outcome};
use rtps_shards::{NoGate, SharedBatch};
use std::alloc::{AllocError, Global};
use std::mem;

impl<C: Catalog> Participant<C> {
    /// Has a moment pass, in milliseconds, at which no datagram came: participants whose leases
    /// have ended are removed (DDSI-RTPS 8.5.3.2). It returns the notices of each reader and no
    /// answer. A moment below an earlier one counts as the greatest so far.
    ///
    /// A tick is a batch of its own, which is run on the caller's thread: it counts among the
    /// batches, and among no datagrams. The notices of a reader with an outlet go to the outlet's
    /// backlog.
    ///
    /// When a tick runs out of memory, nothing of it is returned or added to a backlog, and the
    /// participant has failed: from then on it returns [`EngineError::Failed`], and its statuses
    /// are those before the tick. It is never [`EngineError::Spent`].
    ///
    /// ```text
    /// let outcome = participant.tick(alloc, moment)?;
    /// for notice in outcome.notices.into_iter().flatten() {
    ///     // `Unmatched` for each match with a writer of a participant that is removed. By it the
    ///     // cache knows which instances have no writer left.
    ///     cache.accept(alloc, notice).map_err(AllocError::from)?;
    /// }
    /// ```
    #[tactic(auto, unfolding(crate::specs::Kept::TakesTick, crate::specs::Kept::RefusesTick))]
    pub fn tick(&mut self, alloc: Global, moment: u64) -> Result<Outcome<C::Value>, EngineError>
        ensures takes { TakesTick result self.old self.new }
        ensures counts { (taken : ℕ) → self.old.batches ≡ counted taken
            → OnOk result (self.new.batches ≡ counted (taken + 1)) }
        ensures counters { self.new.counters ≡ self.old.counters }
        ensures same { (self.new.engine.catalog ≡ self.old.engine.catalog)
            × (self.new.engine.config ≡ self.old.engine.config) }
        ensures stands { (earlier : List Input) → StandsAt C.decoding earlier self.old.engine
            → OnOk result (StandsAt C.decoding (earlier ++ Tick moment ∷ []) self.new.engine) }
        ensures adds { (earlier : List Input) → StandsAt C.decoding earlier self.old.engine
            → IfOk result (λ outcome. (whole : Outcome C.Value Global)
            × Adds C.view (run_by C.decoding self.old.engine earlier)
            (run_by C.decoding self.old.engine (earlier ++ Tick moment ∷ [])) whole
            × IsOutcomeHandedOn whole outcome self.old.ports self.new.ports) }
        ensures alone { (earlier : List Input) → StandsAt C.decoding earlier self.old.engine
            → NoneAttached self.old.ports
            → IfOk result (Adds C.view (run_by C.decoding self.old.engine earlier)
            (run_by C.decoding self.old.engine (earlier ++ Tick moment ∷ []))) }
        ensures free { NoneAttached self.old.ports → NoneAttached self.new.ports }
        ensures ports { OnErr result (self.new.ports ≡ self.old.ports) }
        ensures shows { (earlier : List Input) → ShowsAt C.decoding earlier self.old.engine
            → OnErr result (ShowsAt C.decoding earlier self.new.engine) }
    {
        self.admit_tick()?;
        let given = self.pass(alloc, moment, BatchOutput::new(alloc))?;
        let mut outcome = outcome_of::<C>(alloc, given)?;
        self.hand_lists(&mut outcome.notices)?;
        self.finish(0);
        Ok(outcome)
    }

    /// Has a moment pass as [`Participant::tick`] does, and puts the results into the caller's
    /// lists, as [`Participant::run_in_order`] puts those of datagrams.
    ///
    /// [`EngineError::Failed`] leaves the lists as they were; where memory runs out they are empty
    /// afterwards.
    #[tactic(auto, unfolding(crate::specs::Kept::TakesTick, crate::specs::Kept::RefusesTick))]
    pub fn tick_in_order(
        &mut self,
        alloc: Global,
        moment: u64,
        given: &mut BatchOutput<C::Value>,
    ) -> Result<(), EngineError>
        ensures takes { TakesTick result self.old self.new }
        ensures counts { (taken : ℕ) → self.old.batches ≡ counted taken
            → OnOk result (self.new.batches ≡ counted (taken + 1)) }
        ensures counters { self.new.counters ≡ self.old.counters }
        ensures same { (self.new.engine.catalog ≡ self.old.engine.catalog)
            × (self.new.engine.config ≡ self.old.engine.config) }
        ensures stands { (earlier : List Input) → StandsAt C.decoding earlier self.old.engine
            → OnOk result (StandsAt C.decoding (earlier ++ Tick moment ∷ []) self.new.engine) }
        ensures gives { (earlier : List Input) → StandsAt C.decoding earlier self.old.engine
            → OnOk result ((whole : BatchOutput C.Value)
            × IsGiven C.view (run_by C.decoding self.old.engine earlier)
            (run_by C.decoding self.old.engine (earlier ++ Tick moment ∷ [])) whole
            × IsHandedOn whole given.new self.old.ports self.new.ports) }
        ensures alone { (earlier : List Input) → StandsAt C.decoding earlier self.old.engine
            → NoneAttached self.old.ports
            → OnOk result (IsGiven C.view (run_by C.decoding self.old.engine earlier)
            (run_by C.decoding self.old.engine (earlier ++ Tick moment ∷ [])) given.new) }
        ensures free { NoneAttached self.old.ports → NoneAttached self.new.ports }
        ensures ports { OnErr result (self.new.ports ≡ self.old.ports) }
        ensures shows { (earlier : List Input) → ShowsAt C.decoding earlier self.old.engine
            → OnErr result (ShowsAt C.decoding earlier self.new.engine) }
        ensures lists { IfErr result (λ e. LeavesLists e given.old given.new) }
    {
        self.admit_tick()?;
        let lent = mem::replace(given, BatchOutput::new(alloc));
        let mut whole = self.pass(alloc, moment, lent)?;
        self.hand(&mut whole.outputs)?;
        *given = whole;
        self.finish(0);
        Ok(())
    }

    /// Refuses a tick, or a reader that comes or goes, where the participant has failed, or else
    /// marks the participant as failed until it is processed.
    #[tactic(auto, unfolding(crate::specs::Kept::RefusesTick))]
    pub(crate) fn admit_tick(&mut self) -> Result<(), EngineError>
        ensures ok { OnOk result
            ((self.old.engine.failed ≡ false) × (self.new ≡ failing self.old)) }
        ensures there { OnOk result ((inputs : List Input)
            × StandsAt C.decoding inputs self.old.engine) }
        ensures few { OnOk result ((length self.old.engine.readers ≤ 4096)
            × (length self.old.engine.readers ≡ length self.old.engine.statuses)) }
        ensures err { IfErr result (λ e. RefusesTick e self.old) }
        ensures still { OnErr result (self.new ≡ self.old) }
    {
        if self.failed {
            return Err(EngineError::Failed);
        }
        self.failed = true;
        Ok(())
    }

    /// Has a moment pass in discovery and the readers. The results replace the contents of the
    /// lists.
    fn pass(
        &mut self,
        alloc: Global,
        moment: u64,
        lists: BatchOutput<C::Value>,
    ) -> Result<BatchOutput<C::Value>, AllocError>
        requires readers { length self.old.engine.readers ≤ 4096 }
        requires failed { self.old.engine.failed ≡ true }
        ensures same { OnlyRuns self.old self.new }
        ensures ports { self.new.ports ≡ self.old.ports }
        ensures count { OnOk result
            (length self.new.engine.readers ≡ length self.old.engine.readers) }
        ensures outputs { IfOk result (λ given.
            length given.outputs.items ≡ length self.old.engine.readers) }
        ensures keeps { (w : World C.Meaning) → Keeps w self.old.engine → OnOk result
            (Keeps (world_run (C.decoding self.old.engine.catalog) w (occurrences_from
            self.old.engine.config.own self.old.engine.index (Tick moment ∷ [])))
            self.new.engine) }
        ensures gives { (w : World C.Meaning) → Keeps w self.old.engine → IfOk result
            (IsGiven C.view w (world_run (C.decoding self.old.engine.catalog) w (occurrences_from
            self.old.engine.config.own self.old.engine.index (Tick moment ∷ [])))) }
    {
        let tick = Stamped {
            moment,
            index: self.index,
            events: &[],
        };
        let plan = plan(alloc, &[tick], &mut self.discovery)?;
        let states = mem::replace(&mut self.readers, Vec::new(alloc));
        let outputs = lists_for(alloc, lists.outputs, states.len())?;
        let assigned = Assigned {
            jobs: plan.jobs,
            readers: Readers { states, outputs },
        };
        let batch = SharedBatch {
            catalog: &self.catalog,
            gate: &NoGate,
            events: &[],
        };
        let readers = run_alone(alloc, &batch, assigned)?;
        self.readers = readers.states;
        Ok(BatchOutput {
            places: plan.rest.places,
            answers: plan.rest.answers,
            outputs: readers.outputs,
        })
    }
}
