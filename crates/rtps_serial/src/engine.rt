//! An engine that processes inputs one by one: datagrams with their moments, ticks, and readers of
//! ours that come and go.

ghost use Rattle.std.specs.Prelude.{◌≡◌, ◌^◌, ◌+◌, ◌≤◌, ◌<◌, ◌++◌, ◌∷◌, [], Err, IfErr, IfOk, None, OnErr, OnOk, List, Some, ℕ, false, length, map, slice_index_or, slice_set, true};
ghost use Rattle.rtps_discovery.specs.Config.{check_of};
ghost use Rattle.rtps_discovery.specs.Kept.{IsKnown};
ghost use Rattle.rtps_discovery.specs.ReaderFaults.{adding_fault, removing_fault};
ghost use Rattle.rtps_discovery.specs.Start.{wish_of};
ghost use Rattle.rtps_receiver.specs.Events.{events_of};
ghost use Rattle.rtps_run.specs.Input.{AddReader, Input, RemoveReader, Tick, arrived, occurrences_of};
ghost use Rattle.rtps_run.specs.Moving.{IsMovedFrom, Moves};
ghost use Rattle.rtps_run.specs.Occurrence.{Came, Passes};
ghost use Rattle.rtps_run.specs.Outcome.{Adds, Deals, report_view};
ghost use Rattle.rtps_run.specs.Run.{world_run};
ghost use Rattle.rtps_run.specs.Seen.{matches_seen, reader_count, status_seen};
ghost use Rattle.rtps_run.specs.Standing.{Answers, EngineView, IsFinishedFrom, IsSteppedFrom, Leaves, ShowsAt, StandsAt, Starts, Refuses, Takes, Ticks, WorldStands, datagram_limit, run_by, status_shown};
ghost use Rattle.rtps_run.specs.World.{ReportView, World, world_after};

use crate::deal::dealt;
use crate::moving::{has_begun, join, part};
use crate::readers::Readers;
use crate::steps::{take_changes, take_events};
use dds_topic::{Catalog, Decoder};
use rtps_discovery::{Config, Discovery, ReaderConfig, check};
use rtps_reader::Status;
use rtps_receiver::events;
use rtps_run::{
    DATAGRAM_LIMIT, EngineError, Outcome, Report, StartError, all_matches, first_readers,
    first_statuses, fixed_by_rank, show_all,
};
use rtps_types::{Datagram, Guid, Place};
use std::alloc::{AllocError, Allocator, Global};
use std::collections::BTreeSet;
use std::marker::Model;

/// The discovery and the readers of a participant, which process inputs on one thread.
///
/// ```text
/// let mut engine = SerialEngine::new(alloc, config, Shapes)?;
/// // The moment at which it came, in milliseconds, and its octets.
/// let datagram = Datagram {
///     moment: 1_000,
///     bytes: octets,
/// };
/// for report in engine.take(alloc, datagram)?.in_order(alloc)? {
///     // `Report::Notice`, what a reader reports, or `Report::Answer`, a datagram to send.
/// }
/// let status = engine.status(0);
/// ```
#[derive(Drop)]
pub struct SerialEngine<C: Catalog, A: Allocator = Global> {
    config: Config,
    /// The number of datagrams processed.
    index: u64,
    /// Whether an input ran out of memory.
    failed: bool,
    discovery: Discovery<A>,
    readers: Readers<C, A>,
    /// The statuses by rank, after the last input that was processed; `None` where a reader went.
    statuses: Vec<Option<Status>, A>,
}

impl<C: Catalog, A: Allocator> Model for SerialEngine<C, A> {
    ghost use Rattle.std.specs.Prelude.{◌≡◌, ◌≤◌, ◌^◌, List, false, length};
    ghost use Rattle.rtps_run.specs.Input.{Input};
    ghost use Rattle.rtps_run.specs.Standing.{EngineView, StandsAt};

    ghost Value = { EngineView C };

    ghost view = { λ e. record {
      catalog = e.readers.decoder;
      config = e.config;
      index = e.index;
      failed = e.failed;
      discovery = e.discovery;
      readers = e.readers.states.items;
      statuses = e.statuses.items;
    } };

    // An engine that hasn't failed is that after some inputs.
    ghost invariant = { λ e. (length e.statuses.items ≤ 4096) × (e.index ≤ 2 ^ 48)
        × (e.failed ≡ false → (inputs : List Input) × StandsAt C.decoding inputs (record {
          catalog = e.readers.decoder;
          config = e.config;
          index = e.index;
          failed = e.failed;
          discovery = e.discovery;
          readers = e.readers.states.items;
          statuses = e.statuses.items;
        })) };
}

impl<C: Catalog> SerialEngine<C> {
    /// Returns an engine for this configuration, with its readers and their fixed matches, before
    /// any input. Memory for values comes from `alloc`. [`StartError::Config`] exactly where
    /// [`check`](rtps_discovery::check) refuses the configuration, else an error is a refused
    /// growth.
    pub fn new(alloc: Global, config: Config, catalog: C) -> Result<SerialEngine<C>, StartError>
        ensures starts { Starts (check_of config) result }
        ensures same { IfOk result (λ e. (e.catalog ≡ catalog) × (e.config ≡ config)) }
        ensures stands { IfOk result (StandsAt C.decoding []) }
    {
        SerialEngine::new_in(alloc, alloc, config, catalog)
    }
}

impl<C: Catalog, A: Allocator + Copy> SerialEngine<C, A> {
    /// Like [`SerialEngine::new`], for any allocator. Memory for values comes from `values`.
    #[tactic(auto, unfolding(rtps_run::specs::Standing::Starts))]
    pub fn new_in(
        alloc: A,
        values: Global,
        config: Config,
        catalog: C,
    ) -> Result<SerialEngine<C, A>, StartError>
        ensures starts { Starts (check_of config) result }
        ensures same { IfOk result (λ e. (e.catalog ≡ catalog) × (e.config ≡ config)) }
        ensures stands { IfOk result (StandsAt C.decoding []) }
    {
        match check(&config) {
            Ok(()) => {}
            Err(fault) => return Err(StartError::Config(fault)),
        }
        let fixed = fixed_by_rank(alloc, config.readers.len(), &config.fixed)?;
        let states = first_readers(alloc, config.own, &config.readers, &fixed)?;
        let statuses = first_statuses(alloc, &states)?;
        let discovery = Discovery::new(alloc, &config)?;
        Ok(SerialEngine {
            config,
            index: 0,
            failed: false,
            discovery,
            readers: Readers::new(alloc, Decoder::new(values, catalog), states),
            statuses,
        })
    }

    /// Processes the next datagram, at most 65,507 octets, and replaces the contents of `reports`
    /// by its results, in order: by place, then by rank, and for one reader its notices before its
    /// answer. First its moment passes, as by [`SerialEngine::tick`], and then its events come.
    /// [`Outcome::in_order`] of the result of [`SerialEngine::take`] is the same.
    ///
    /// [`EngineError::Failed`] and [`EngineError::Spent`] leave `reports` as it was,
    /// [`EngineError::NoMemory`] leaves it empty.
    #[tactic(auto, unfolding(rtps_run::specs::Standing::Takes, rtps_run::specs::Standing::Refuses, rtps_run::specs::Standing::Leaves))]
    pub fn take_in_order(
        &mut self,
        alloc: A,
        datagram: Datagram<'_>,
        reports: &mut Vec<Report<C::Value, A>, A>,
    ) -> Result<(), EngineError>
        requires { length datagram.bytes.now ≤ 65507 }
        ensures takes { Takes result self.old self.new }
        ensures same { (self.new.catalog ≡ self.old.catalog) × (self.new.config ≡ self.old.config) }
        ensures stands { (inputs : List Input) → StandsAt C.decoding inputs self.old
            → OnOk result (StandsAt C.decoding (inputs ++ arrived datagram.entry ∷ []) self.new) }
        ensures put { (inputs : List Input) → StandsAt C.decoding inputs self.old
            → OnOk result ((run_by C.decoding self.old (inputs ++ arrived datagram.entry ∷ [])).put
            ≡ (run_by C.decoding self.old inputs).put
            ++ map (report_view C.view) reports.new.items) }
        ensures shows { (inputs : List Input) → ShowsAt C.decoding inputs self.old
            → OnErr result (ShowsAt C.decoding inputs self.new) }
        ensures leaves { Leaves result reports.old.items reports.new.items }
    {
        self.admit_datagram()?; // `reports` stays as it is.
        if self.report(alloc, datagram, reports).is_err() {
            reports.clear();
            return Err(EngineError::NoMemory);
        }
        self.finish(1);
        Ok(())
    }

    /// Processes the next datagram, at most 65,507 octets, and returns the notices of each reader
    /// and the answers to send. First its moment passes, as by [`SerialEngine::tick`], whatever its
    /// octets are, and then its events come.
    ///
    /// When a datagram or a tick runs out of memory the engine has failed: from then on it returns
    /// [`EngineError::Failed`], and its statuses are those before that input. A datagram that
    /// would take the count past 2^48 is refused with [`EngineError::Spent`] and changes nothing.
    #[tactic(auto, unfolding(rtps_run::specs::Standing::Takes, rtps_run::specs::Standing::Refuses))]
    pub fn take(
        &mut self,
        alloc: A,
        datagram: Datagram<'_>,
    ) -> Result<Outcome<C::Value, A>, EngineError>
        requires { length datagram.bytes.now ≤ 65507 }
        ensures takes { Takes result self.old self.new }
        ensures same { (self.new.catalog ≡ self.old.catalog) × (self.new.config ≡ self.old.config) }
        ensures stands { (inputs : List Input) → StandsAt C.decoding inputs self.old
            → OnOk result (StandsAt C.decoding (inputs ++ arrived datagram.entry ∷ []) self.new) }
        ensures adds { (inputs : List Input) → StandsAt C.decoding inputs self.old
            → IfOk result (Adds C.view (run_by C.decoding self.old inputs)
            (run_by C.decoding self.old (inputs ++ arrived datagram.entry ∷ []))) }
        ensures shows { (inputs : List Input) → ShowsAt C.decoding inputs self.old
            → OnErr result (ShowsAt C.decoding inputs self.new) }
    {
        self.admit_datagram()?;
        let mut reports = Vec::new(alloc);
        self.report(alloc, datagram, &mut reports)?;
        let outcome = self.deal(alloc, reports)?;
        self.finish(1);
        Ok(outcome)
    }

    /// Lets a moment pass at which no datagram came, as [`SerialEngine::tick`] does, and replaces
    /// the contents of `reports` by its results, in order: by rank, and then by writer.
    /// [`Outcome::in_order`] of the result of [`SerialEngine::tick`] is the same.
    ///
    /// [`EngineError::Failed`] leaves `reports` as it was, [`EngineError::NoMemory`] leaves it
    /// empty.
    #[tactic(auto, unfolding(rtps_run::specs::Standing::Ticks, rtps_run::specs::Standing::Refuses, rtps_run::specs::Standing::Leaves))]
    pub fn tick_in_order(
        &mut self,
        alloc: A,
        moment: u64,
        reports: &mut Vec<Report<C::Value, A>, A>,
    ) -> Result<(), EngineError>
        ensures takes { Ticks result self.old self.new }
        ensures same { (self.new.catalog ≡ self.old.catalog) × (self.new.config ≡ self.old.config) }
        ensures stands { (inputs : List Input) → StandsAt C.decoding inputs self.old
            → OnOk result (StandsAt C.decoding (inputs ++ Tick moment ∷ []) self.new) }
        ensures put { (inputs : List Input) → StandsAt C.decoding inputs self.old
            → OnOk result ((run_by C.decoding self.old (inputs ++ Tick moment ∷ [])).put
            ≡ (run_by C.decoding self.old inputs).put
            ++ map (report_view C.view) reports.new.items) }
        ensures shows { (inputs : List Input) → ShowsAt C.decoding inputs self.old
            → OnErr result (ShowsAt C.decoding inputs self.new) }
        ensures leaves { Leaves result reports.old.items reports.new.items }
    {
        self.admit()?; // `reports` stays as it is.
        if self.pass(alloc, moment, reports).is_err() {
            reports.clear();
            return Err(EngineError::NoMemory);
        }
        self.finish(0);
        Ok(())
    }

    /// Lets a moment pass at which no datagram came, in milliseconds, and returns the notices of
    /// each reader (DDSI-RTPS 8.5.3.2): the participants whose leases have ended are removed, and
    /// the matches with their writers end. There are no answers. The place of these notices is the
    /// number of the next datagram, and submessage 0. A moment below an earlier one counts as the
    /// greatest so far.
    ///
    /// When a tick runs out of memory the engine has failed, as by [`SerialEngine::take`]. A tick
    /// isn't counted as a datagram, so it is never refused with [`EngineError::Spent`].
    #[tactic(auto, unfolding(rtps_run::specs::Standing::Ticks, rtps_run::specs::Standing::Refuses))]
    pub fn tick(&mut self, alloc: A, moment: u64) -> Result<Outcome<C::Value, A>, EngineError>
        ensures takes { Ticks result self.old self.new }
        ensures same { (self.new.catalog ≡ self.old.catalog) × (self.new.config ≡ self.old.config) }
        ensures stands { (inputs : List Input) → StandsAt C.decoding inputs self.old
            → OnOk result (StandsAt C.decoding (inputs ++ Tick moment ∷ []) self.new) }
        ensures adds { (inputs : List Input) → StandsAt C.decoding inputs self.old
            → IfOk result (Adds C.view (run_by C.decoding self.old inputs)
            (run_by C.decoding self.old (inputs ++ Tick moment ∷ []))) }
        ensures shows { (inputs : List Input) → ShowsAt C.decoding inputs self.old
            → OnErr result (ShowsAt C.decoding inputs self.new) }
    {
        self.admit()?;
        let mut reports = Vec::new(alloc);
        self.pass(alloc, moment, &mut reports)?;
        let outcome = self.deal(alloc, reports)?;
        self.finish(0);
        Ok(outcome)
    }

    /// Adds a reader of ours, whose rank is the number of ranks that were given before. Returns the
    /// rank, and the notices of the new reader: it is matched at once with the known writers that
    /// it fits, in the order of the writers' octets, and refused by those of its topic that it
    /// doesn't (DDSI-RTPS 8.5.4). It receives what comes from now on, and nothing of before. The
    /// place of these notices is the number of the next datagram, and submessage 0.
    ///
    /// [`EngineError::Full`] where 256 readers are there or 4,096 ranks were given, and
    /// [`EngineError::BadReader`] where the kind of the reader's entity is neither 04 nor 07
    /// (DDSI-RTPS 9.3.1.2), a reader that is there has its entity, or its ownership isn't shared;
    /// either changes nothing, and the reader is dropped. When the call runs out of memory the
    /// engine has failed, as by [`SerialEngine::take`]. It is never [`EngineError::Spent`].
    #[tactic(auto, unfolding(rtps_run::specs::Moving::Moves))]
    pub fn add_reader(
        &mut self,
        alloc: A,
        reader: ReaderConfig,
    ) -> Result<(u32, Outcome<C::Value, A>), EngineError>
        ensures moves { Moves (adding_fault self.old.discovery.kept.readers (wish_of reader)) result
            self.old self.new }
        ensures same { (self.new.catalog ≡ self.old.catalog) × (self.new.config ≡ self.old.config) }
        ensures rank { (inputs : List Input) → StandsAt C.decoding inputs self.old → IfOk result
            (λ added. added.0 ≡ reader_count (run_by C.decoding self.old inputs)) }
        ensures stands { (inputs : List Input) → StandsAt C.decoding inputs self.old
            → OnOk result (StandsAt C.decoding (inputs ++ AddReader (wish_of reader) ∷ [])
            self.new) }
        ensures adds { (inputs : List Input) → StandsAt C.decoding inputs self.old
            → IfOk result (λ added. Adds C.view (run_by C.decoding self.old inputs)
            (run_by C.decoding self.old (inputs ++ AddReader (wish_of reader) ∷ [])) added.1) }
        ensures shows { (inputs : List Input) → ShowsAt C.decoding inputs self.old
            → OnErr result (ShowsAt C.decoding inputs self.new) }
    {
        let (rank, reports) = self.join(alloc, reader)?;
        let outcome = self.deal(alloc, reports)?;
        self.show_next()?;
        self.finish(0);
        Ok((rank, outcome))
    }

    /// Removes the reader of a rank. Returns its last notices, the ends of its matches, in the
    /// order of the writers' octets; a fixed match ends without a notice. The rank isn't given
    /// again, but another reader may have its entity. The place of these notices is the number of
    /// the next datagram, and submessage 0.
    ///
    /// [`EngineError::NoReader`] where the rank wasn't given or its reader went, which changes
    /// nothing. When the call runs out of memory the engine has failed, as by
    /// [`SerialEngine::take`]. It is never [`EngineError::Spent`].
    #[tactic(auto, unfolding(rtps_run::specs::Moving::Moves))]
    pub fn remove_reader(
        &mut self,
        alloc: A,
        rank: u32,
    ) -> Result<Outcome<C::Value, A>, EngineError>
        ensures moves { Moves (removing_fault self.old.discovery.kept.readers rank) result self.old
            self.new }
        ensures same { (self.new.catalog ≡ self.old.catalog) × (self.new.config ≡ self.old.config) }
        ensures stands { (inputs : List Input) → StandsAt C.decoding inputs self.old
            → OnOk result (StandsAt C.decoding (inputs ++ RemoveReader rank ∷ []) self.new) }
        ensures adds { (inputs : List Input) → StandsAt C.decoding inputs self.old
            → IfOk result (Adds C.view (run_by C.decoding self.old inputs)
            (run_by C.decoding self.old (inputs ++ RemoveReader rank ∷ []))) }
        ensures shows { (inputs : List Input) → ShowsAt C.decoding inputs self.old
            → OnErr result (ShowsAt C.decoding inputs self.new) }
    {
        let reports = self.part(alloc, rank)?;
        let outcome = self.deal(alloc, reports)?;
        self.hide(rank);
        self.finish(0);
        Ok(outcome)
    }

    /// Refuses an input if the engine has failed, or else marks the engine as failed until the
    /// input is processed.
    #[tactic(auto, unfolding(rtps_run::specs::Standing::Refuses))]
    fn admit(&mut self) -> Result<(), EngineError>
        ensures ok { OnOk result ((self.old.failed ≡ false) × (self.old.index ≤ datagram_limit)
            × (self.new ≡ record self.old { failed = true })) }
        ensures there { OnOk result ((inputs : List Input) × StandsAt C.decoding inputs self.old) }
        ensures few { OnOk result (length self.old.readers ≤ 4096) }
        ensures err { IfErr result (λ e. Refuses e self.old) }
        ensures failed { OnErr result (self.old.failed ≡ true) }
        ensures still { OnErr result (self.new ≡ self.old) }
    {
        if self.failed {
            return Err(EngineError::Failed); // for good
        }
        self.failed = true;
        Ok(())
    }

    /// The same for a datagram, which is also refused if it would pass the limit.
    #[tactic(auto, unfolding(rtps_run::specs::Standing::Refuses))]
    fn admit_datagram(&mut self) -> Result<(), EngineError>
        ensures ok { OnOk result ((self.old.failed ≡ false) × (self.old.index < datagram_limit)
            × (self.new ≡ record self.old { failed = true })) }
        ensures there { OnOk result ((inputs : List Input) × StandsAt C.decoding inputs self.old) }
        ensures few { OnOk result (length self.old.readers ≤ 4096) }
        ensures err { IfErr result (λ e. Refuses e self.old) }
        ensures still { OnErr result (self.new ≡ self.old) }
    {
        if !self.failed && self.index >= DATAGRAM_LIMIT {
            return Err(EngineError::Spent);
        }
        self.admit()
    }

    /// Has a reader come in discovery and among the states, and marks the engine as failed until
    /// its status is shown. Returns its rank, and what it reports.
    #[tactic(auto, unfolding(rtps_run::specs::Moving::Moves))]
    fn join(
        &mut self,
        alloc: A,
        reader: ReaderConfig,
    ) -> Result<(u32, Vec<Report<C::Value, A>, A>), EngineError>
        ensures ok { OnOk result ((self.old.failed ≡ false) × (self.old.index ≤ datagram_limit)
            × (adding_fault self.old.discovery.kept.readers (wish_of reader) ≡ None)) }
        ensures there { OnOk result ((inputs : List Input) × StandsAt C.decoding inputs self.old) }
        ensures moved { OnOk result (IsMovedFrom self.old self.new) }
        ensures next { OnOk result
            (length self.new.readers ≡ length self.old.statuses + 1) }
        ensures few { OnOk result (length self.new.readers ≤ 4096) }
        ensures err { IfErr result (λ e. Moves {X = Unit {0}}
            (adding_fault self.old.discovery.kept.readers (wish_of reader)) (Err e) self.old
            self.new) }
        ensures same { (self.new.catalog ≡ self.old.catalog) × (self.new.config ≡ self.old.config)
            × (self.new.statuses ≡ self.old.statuses) }
        ensures rank { (inputs : List Input) → StandsAt C.decoding inputs self.old → IfOk result
            (λ joined. joined.0 ≡ reader_count (run_by C.decoding self.old inputs)) }
        ensures stands { (inputs : List Input) → StandsAt C.decoding inputs self.old → IfOk result
            (λ joined. WorldStands C.view
            (run_by C.decoding self.old (inputs ++ AddReader (wish_of reader) ∷ []))
            (run_by C.decoding self.old inputs).put self.new.discovery.kept self.new.readers
            joined.1.items) }
    {
        if self.failed {
            return Err(EngineError::Failed);
        }
        let joined = join(
            &mut self.discovery,
            &mut self.readers,
            alloc,
            self.index,
            reader,
        );
        self.failed = has_begun(&joined);
        match joined {
            Ok(joined) => Ok(joined),
            Err(fault) => Err(fault.into()),
        }
    }

    /// Has the reader of a rank go in discovery, stops it, and marks the engine as failed until its
    /// status is hidden. Returns what it reports.
    #[tactic(auto, unfolding(rtps_run::specs::Moving::Moves))]
    fn part(&mut self, alloc: A, rank: u32) -> Result<Vec<Report<C::Value, A>, A>, EngineError>
        ensures ok { OnOk result ((self.old.failed ≡ false) × (self.old.index ≤ datagram_limit)
            × (removing_fault self.old.discovery.kept.readers rank ≡ None)) }
        ensures there { OnOk result ((inputs : List Input) × StandsAt C.decoding inputs self.old) }
        ensures moved { OnOk result (IsMovedFrom self.old self.new) }
        ensures within { OnOk result (rank < length self.new.statuses) }
        ensures count { OnOk result (length self.new.readers ≡ length self.new.statuses) }
        ensures few { OnOk result (length self.new.readers ≤ 4096) }
        ensures err { IfErr result (λ e. Moves {X = Unit {0}}
            (removing_fault self.old.discovery.kept.readers rank) (Err e) self.old self.new) }
        ensures same { (self.new.catalog ≡ self.old.catalog) × (self.new.config ≡ self.old.config)
            × (self.new.statuses ≡ self.old.statuses) }
        ensures stands { (inputs : List Input) → StandsAt C.decoding inputs self.old → IfOk result
            (λ reports. WorldStands C.view
            (run_by C.decoding self.old (inputs ++ RemoveReader rank ∷ []))
            (run_by C.decoding self.old inputs).put self.new.discovery.kept self.new.readers
            reports.items) }
    {
        if self.failed {
            return Err(EngineError::Failed);
        }
        let parted = part(
            &mut self.discovery,
            &mut self.readers,
            alloc,
            self.index,
            rank,
        );
        self.failed = has_begun(&parted);
        match parted {
            Ok(reports) => Ok(reports),
            Err(fault) => Err(fault.into()),
        }
    }

    /// Adds the status of the state that has none yet, the last one, to those that are shown.
    fn show_next(&mut self) -> Result<(), AllocError>
        requires failed { self.old.failed ≡ true }
        requires next { length self.old.readers ≡ length self.old.statuses + 1 }
        requires few { length self.old.readers ≤ 4096 }
        ensures same { self.new ≡ record self.old { statuses = self.new.statuses } }
        ensures shown { OnOk result ((status : _)
            × (self.new.statuses ≡ self.old.statuses ++ Some status ∷ [])) }
        ensures refused { OnErr result (self.new ≡ self.old) }
    {
        let status = self.readers.states[self.statuses.len()].status();
        self.statuses.push(Some(status))?;
        Ok(())
    }

    /// Hides the status of a rank, whose reader went.
    fn hide(&mut self, rank: u32)
        requires failed { self.old.failed ≡ true }
        requires within { rank < length self.old.statuses }
        ensures { self.new ≡ record self.old { statuses = slice_set self.old.statuses rank None } }
    {
        self.statuses[rank as usize] = None;
    }

    /// Lets a moment pass before the next datagram: discovery removes the participants whose leases
    /// have ended, and each reader processes its changes. The results replace the contents of
    /// `reports`.
    fn pass(
        &mut self,
        alloc: A,
        moment: u64,
        reports: &mut Vec<Report<C::Value, A>, A>,
    ) -> Result<(), AllocError>
        requires { self.old.failed ≡ true }
        ensures same { IsSteppedFrom self.old self.new }
        ensures unspent { OnOk result (self.new.discovery.spent ≡ false) }
        ensures stands { (w : World C.Meaning)
            → WorldStands {A = A} C.view w w.put self.old.discovery.kept self.old.readers []
            → OnOk result (WorldStands C.view (world_after (C.decoding self.old.catalog) w
            (Passes self.old.index moment)) w.put
            self.new.discovery.kept self.new.readers reports.new.items) }
    {
        reports.clear();
        let ended = self.discovery.expire(alloc, moment)?;
        let head = Place {
            datagram: self.index,
            submessage: 0,
        };
        take_changes(&mut self.readers, alloc, head, &ended, reports)
    }

    /// Has discovery and the readers process the events of a datagram. The results are appended to
    /// `reports`.
    fn report_events(
        &mut self,
        alloc: A,
        octets: &[u8],
        reports: &mut Vec<Report<C::Value, A>, A>,
    ) -> Result<(), AllocError>
        requires failed { self.old.failed ≡ true }
        requires fits { length octets.now ≤ 65507 }
        ensures same { IsSteppedFrom self.old self.new }
        ensures unspent { self.old.discovery.spent ≡ false
            → OnOk result (self.new.discovery.spent ≡ false) }
        ensures stands { (w : World C.Meaning) (earlier : List (ReportView C.Meaning))
            → WorldStands C.view w earlier self.old.discovery.kept self.old.readers
            reports.old.items
            → OnOk result (WorldStands C.view (world_run (C.decoding self.old.catalog) w
            (map Came (events_of self.old.config.own self.old.index octets.now))) earlier
            self.new.discovery.kept self.new.readers reports.new.items) }
    {
        let Ok(events) = events(alloc, self.config.own, self.index, octets) else {
            return Err(AllocError);
        };
        take_events(
            &mut self.discovery,
            &mut self.readers,
            alloc,
            &events,
            reports,
        )
    }

    /// Lets the moment of a datagram pass, and then processes its events. The results replace the
    /// contents of `reports`.
    fn report(
        &mut self,
        alloc: A,
        datagram: Datagram<'_>,
        reports: &mut Vec<Report<C::Value, A>, A>,
    ) -> Result<(), AllocError>
        requires failed { self.old.failed ≡ true }
        requires fits { length datagram.bytes.now ≤ 65507 }
        ensures same { IsSteppedFrom self.old self.new }
        ensures unspent { OnOk result (self.new.discovery.spent ≡ false) }
        ensures stands { (w : World C.Meaning)
            → WorldStands {A = A} C.view w w.put self.old.discovery.kept self.old.readers []
            → OnOk result (WorldStands C.view (world_run (C.decoding self.old.catalog) w
            (occurrences_of self.old.config.own self.old.index (arrived datagram.entry))) w.put
            self.new.discovery.kept self.new.readers reports.new.items) }
    {
        self.pass(alloc, datagram.moment, reports)?;
        self.report_events(alloc, datagram.bytes, reports)
    }

    /// Makes an outcome of reports, with a list for each rank that was given.
    fn deal(
        &self,
        alloc: A,
        reports: Vec<Report<C::Value, A>, A>,
    ) -> Result<Outcome<C::Value, A>, AllocError>
        requires { length self.now.readers ≤ 4096 }
        ensures { IfOk result (Deals C.view (length self.now.readers)
            (map (report_view C.view) reports.items)) }
    {
        dealt::<C, A>(alloc, self.readers.states.len(), reports)
    }

    /// Counts `count` datagrams more as processed, and updates the statuses from the readers.
    fn finish(&mut self, count: u64)
        requires room { self.old.index + count ≤ 2 ^ 48 }
        requires readers { length self.old.readers ≡ length self.old.statuses }
        requires failed { self.old.failed ≡ true }
        requires there { (new : EngineView C) → IsFinishedFrom count self.old new
            → (inputs : List Input) × StandsAt C.decoding inputs new }
        ensures { IsFinishedFrom count self.old self.new }
    {
        self.show();
        self.index += count;
        self.failed = false;
    }

    /// Updates the statuses from the readers.
    fn show(&mut self)
        requires readers { length self.old.readers ≡ length self.old.statuses }
        requires failed { self.old.failed ≡ true }
        ensures same { self.new ≡ record self.old { statuses = self.new.statuses } }
        ensures count { length self.new.statuses ≡ length self.old.statuses }
        ensures statuses { (rank : ℕ) (s : _) (r : _) → rank < length self.old.readers
            → slice_index_or self.new.statuses rank s
            ≡ status_shown (slice_index_or self.old.statuses rank s)
            (slice_index_or self.old.readers rank r) }
    {
        show_all(&self.readers.states, &mut self.statuses);
    }

    /// The number of ranks that were given, at most 4,096: the numbers below it.
    pub fn readers(&self) -> u32
        ensures { result ≡ length self.now.statuses }
    {
        self.statuses.len() as u32
    }

    /// Returns the status of the reader of a rank, after the last input that was processed, or
    /// `None` where the rank wasn't given or its reader went. No memory is taken.
    pub fn status(&self, rank: u32) -> Option<Status>
        ensures { (inputs : List Input) → ShowsAt C.decoding inputs self.now
            → result ≡ status_seen (run_by C.decoding self.now inputs) rank }
    {
        self.statuses.get(rank as usize).copied().flatten()
    }

    /// Returns the present matches, a rank and a writer each. An error changes nothing:
    /// [`EngineError::Failed`] where the engine has failed, and else [`EngineError::NoMemory`].
    #[tactic(auto, unfolding(rtps_run::specs::Standing::Answers))]
    pub fn matches(&self, alloc: A) -> Result<BTreeSet<(u32, Guid), A>, EngineError>
        ensures answers { Answers result self.now }
        ensures matches { (inputs : List Input) → StandsAt C.decoding inputs self.now
            → IfOk result (λ matches. matches.keys
            ≡ matches_seen (run_by C.decoding self.now inputs)) }
    {
        if self.failed {
            Err(EngineError::Failed)
        } else {
            Ok(all_matches::<C, A>(alloc, &self.readers.states)?)
        }
    }

    /// The discovery of the engine, as it is after the last input that was processed. If an
    /// input ran out of memory, parts of that input may be included.
    pub fn discovery(&self) -> &Discovery<A>
        ensures known { (inputs : List Input) → StandsAt C.decoding inputs self.now
            → IsKnown (run_by C.decoding self.now inputs).known result.now.kept }
        ensures unspent { (inputs : List Input) → StandsAt C.decoding inputs self.now
            → result.now.spent ≡ false }
    {
        &self.discovery
    }

    /// The catalog that values are decoded by.
    pub fn catalog(&self) -> &C
        ensures { result.now ≡ self.now.catalog }
    {
        self.readers.decoder.catalog()
    }
}
