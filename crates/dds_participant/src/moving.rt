//! Readers of ours that come and go.

ghost use Rattle.std.specs.Prelude.{◌≡◌, ◌++◌, ◌+◌, ◌<◌, ◌≤◌, ◌∷◌, [], ℕ, Err, IfErr, IfOk, List, None, OnErr, OnOk, Some, false, if◌then◌else◌, is_ok, length, slice_set, true};
ghost use Rattle.std.specs.declared.alloc.Global.{Global};
ghost use Rattle.rtps_discovery.specs.ReaderFaults.{adding_fault, removing_fault};
ghost use Rattle.rtps_discovery.specs.Start.{wish_of};
ghost use Rattle.rtps_run.specs.declared.outcome.Outcome.{Outcome};
ghost use Rattle.rtps_run.specs.Input.{AddReader, Input, RemoveReader};
ghost use Rattle.rtps_run.specs.Moving.{IsMovedFrom, Moves};
ghost use Rattle.rtps_run.specs.Outcome.{Adds};
ghost use Rattle.rtps_run.specs.Seen.{reader_count};
ghost use Rattle.rtps_run.specs.Standing.{ShowsAt, StandsAt, WorldStands, run_by};
ghost use Rattle.dds_participant.specs.Handing.{AreHandedOn, IsOutcomeHandedOn, listed};
ghost use Rattle.dds_participant.specs.Kept.{TakesReader, counted};
ghost use Rattle.dds_participant.specs.Ports.{NoneAttached};

use crate::handing::{hand_on_lists, make_room_for_lists};
use crate::participant::Participant;
use dds_topic::{Catalog, Decoder};
use rtps_discovery::ReaderConfig;
use rtps_reader::Notice;
use rtps_run::{EngineError, Outcome, Report};
use rtps_serial::{Readers, dealt, has_begun, join, part};
use std::alloc::{AllocError, Global};
use std::mem;

/// Appends an item to each of two lists, or to neither where memory runs out.
fn push_both<X: Drop, Y: Drop>(
    xs: &mut Vec<X>,
    x: X,
    ys: &mut Vec<Y>,
    y: Y,
) -> Result<(), AllocError>
    ensures xs { xs.new.items ≡ if is_ok result then xs.old.items ++ x ∷ [] else xs.old.items }
    ensures ys { ys.new.items ≡ if is_ok result then ys.old.items ++ y ∷ [] else ys.old.items }
{
    xs.reserve(1)?;
    ys.push(y)?;
    xs.push(x)?; // there is room for it
    Ok(())
}

impl<C: Catalog> Participant<C> {
    /// Adds a reader of ours, whose rank is the number of ranks that were given before. Returns the
    /// rank, and the notices of each reader, as [`rtps_serial::SerialEngine::add_reader`] returns
    /// them: the new reader is matched at once with the known writers that it fits, and refused by
    /// those of its topic that it doesn't (DDSI-RTPS 8.5.4). Nothing is attached to it.
    ///
    /// The call is a batch of its own, which is run on the caller's thread: it counts among the
    /// batches, and among no datagrams.
    ///
    /// [`EngineError::Full`] where 256 readers are there or 4,096 ranks were given, and
    /// [`EngineError::BadReader`] where the kind of the reader's entity is neither 04 nor 07
    /// (DDSI-RTPS 9.3.1.2), a reader that is there has its entity, or its ownership isn't shared;
    /// either changes nothing, and the reader is dropped. When the call runs out of memory the
    /// participant has failed, as by [`Participant::tick`]. It is never [`EngineError::Spent`].
    ///
    /// ```text
    /// let circles = ReaderConfig::new(alloc, EntityId([0, 0, 2, 7]), "Circle", "ShapeType")?;
    /// let (rank, outcome) = participant.add_reader(alloc, circles.reliable())?;
    /// for notice in outcome.notices.into_iter().flatten() {
    ///     // `Matched` or `Incompatible`, for each known writer of circles.
    /// }
    /// let status = participant.status(rank);
    /// ```
    #[tactic(auto, unfolding(rtps_run::specs::Moving::Moves))]
    pub fn add_reader(
        &mut self,
        alloc: Global,
        reader: ReaderConfig,
    ) -> Result<(u32, Outcome<C::Value>), EngineError>
        ensures takes { TakesReader
            (adding_fault self.old.engine.discovery.kept.readers (wish_of reader)) result self.old
            self.new }
        ensures counts { (taken : ℕ) → self.old.batches ≡ counted taken
            → OnOk result (self.new.batches ≡ counted (taken + 1)) }
        ensures counters { self.new.counters ≡ self.old.counters }
        ensures same { (self.new.engine.catalog ≡ self.old.engine.catalog)
            × (self.new.engine.config ≡ self.old.engine.config) }
        ensures rank { (earlier : List Input) → StandsAt C.decoding earlier self.old.engine
            → IfOk result (λ added.
            added.0 ≡ reader_count (run_by C.decoding self.old.engine earlier)) }
        ensures stands { (earlier : List Input) → StandsAt C.decoding earlier self.old.engine
            → OnOk result (StandsAt C.decoding (earlier ++ AddReader (wish_of reader) ∷ [])
            self.new.engine) }
        ensures adds { (earlier : List Input) → StandsAt C.decoding earlier self.old.engine
            → IfOk result (λ added. (whole : Outcome C.Value Global)
            × Adds C.view (run_by C.decoding self.old.engine earlier)
            (run_by C.decoding self.old.engine (earlier ++ AddReader (wish_of reader) ∷ [])) whole
            × IsOutcomeHandedOn whole added.1 (self.old.ports ++ None ∷ []) self.new.ports) }
        ensures alone { (earlier : List Input) → StandsAt C.decoding earlier self.old.engine
            → NoneAttached self.old.ports
            → IfOk result (λ added. Adds C.view (run_by C.decoding self.old.engine earlier)
            (run_by C.decoding self.old.engine (earlier ++ AddReader (wish_of reader) ∷ []))
            added.1) }
        ensures free { NoneAttached self.old.ports → NoneAttached self.new.ports }
        ensures ports { OnErr result (self.new.ports ≡ self.old.ports) }
        ensures shows { (earlier : List Input) → ShowsAt C.decoding earlier self.old.engine
            → OnErr result (ShowsAt C.decoding earlier self.new.engine) }
    {
        let (rank, reports) = self.join(alloc, reader)?;
        let mut outcome = dealt::<C, Global>(alloc, self.readers.len(), reports)?;
        self.add_place(&mut outcome.notices)?;
        self.finish(0);
        Ok((rank, outcome))
    }

    /// Removes the reader of a rank. Returns the notices of each reader, as
    /// [`rtps_serial::SerialEngine::remove_reader`] returns them: the last ones of the reader that
    /// goes, which are the ends of its matches. The rank isn't given again, but another reader may
    /// have its entity.
    ///
    /// The call is a batch of its own, as [`Participant::add_reader`] is. An outlet of the reader
    /// gets these notices into its backlog, and stays attached until it is detached.
    ///
    /// [`EngineError::NoReader`] where the rank wasn't given or its reader went, which changes
    /// nothing. When the call runs out of memory the participant has failed, as by
    /// [`Participant::tick`]. It is never [`EngineError::Spent`].
    #[tactic(auto, unfolding(rtps_run::specs::Moving::Moves))]
    pub fn remove_reader(
        &mut self,
        alloc: Global,
        rank: u32,
    ) -> Result<Outcome<C::Value>, EngineError>
        ensures takes { TakesReader
            (removing_fault self.old.engine.discovery.kept.readers rank) result self.old self.new }
        ensures counts { (taken : ℕ) → self.old.batches ≡ counted taken
            → OnOk result (self.new.batches ≡ counted (taken + 1)) }
        ensures counters { self.new.counters ≡ self.old.counters }
        ensures same { (self.new.engine.catalog ≡ self.old.engine.catalog)
            × (self.new.engine.config ≡ self.old.engine.config) }
        ensures stands { (earlier : List Input) → StandsAt C.decoding earlier self.old.engine
            → OnOk result (StandsAt C.decoding (earlier ++ RemoveReader rank ∷ [])
            self.new.engine) }
        ensures adds { (earlier : List Input) → StandsAt C.decoding earlier self.old.engine
            → IfOk result (λ outcome. (whole : Outcome C.Value Global)
            × Adds C.view (run_by C.decoding self.old.engine earlier)
            (run_by C.decoding self.old.engine (earlier ++ RemoveReader rank ∷ [])) whole
            × IsOutcomeHandedOn whole outcome self.old.ports self.new.ports) }
        ensures alone { (earlier : List Input) → StandsAt C.decoding earlier self.old.engine
            → NoneAttached self.old.ports
            → IfOk result (Adds C.view (run_by C.decoding self.old.engine earlier)
            (run_by C.decoding self.old.engine (earlier ++ RemoveReader rank ∷ []))) }
        ensures free { NoneAttached self.old.ports → NoneAttached self.new.ports }
        ensures ports { OnErr result (self.new.ports ≡ self.old.ports) }
        ensures shows { (earlier : List Input) → ShowsAt C.decoding earlier self.old.engine
            → OnErr result (ShowsAt C.decoding earlier self.new.engine) }
    {
        let reports = self.part(alloc, rank)?;
        let mut outcome = dealt::<C, Global>(alloc, self.statuses.len(), reports)?;
        self.hand_lists(&mut outcome.notices)?;
        self.hide(rank);
        self.finish(0);
        Ok(outcome)
    }

    /// Has a reader come in discovery and among the states, and marks the participant as failed
    /// until its status is shown. Returns its rank, and what it reports.
    #[tactic(auto, unfolding(rtps_run::specs::Moving::Moves))]
    fn join(
        &mut self,
        alloc: Global,
        reader: ReaderConfig,
    ) -> Result<(u32, Vec<Report<C::Value>>), EngineError>
        ensures ok { OnOk result ((self.old.engine.failed ≡ false)
            × (adding_fault self.old.engine.discovery.kept.readers (wish_of reader) ≡ None)) }
        ensures there { OnOk result ((inputs : List Input)
            × StandsAt C.decoding inputs self.old.engine) }
        ensures moved { OnOk result (IsMovedFrom self.old.engine self.new.engine) }
        ensures next { OnOk result
            (length self.new.engine.readers ≡ length self.old.engine.statuses + 1) }
        ensures few { OnOk result (length self.new.engine.readers ≤ 4096) }
        ensures err { IfErr result (λ e. Moves {X = Unit {0}}
            (adding_fault self.old.engine.discovery.kept.readers (wish_of reader)) (Err e)
            self.old.engine self.new.engine) }
        ensures same { (self.new.engine.catalog ≡ self.old.engine.catalog)
            × (self.new.engine.config ≡ self.old.engine.config)
            × (self.new.engine.statuses ≡ self.old.engine.statuses) }
        ensures others { (self.new.batches ≡ self.old.batches)
            × (self.new.ports ≡ self.old.ports) }
        ensures counters { self.new.counters ≡ self.old.counters }
        ensures rank { (inputs : List Input) → StandsAt C.decoding inputs self.old.engine
            → IfOk result (λ joined.
            joined.0 ≡ reader_count (run_by C.decoding self.old.engine inputs)) }
        ensures stands { (inputs : List Input) → StandsAt C.decoding inputs self.old.engine
            → IfOk result (λ joined. WorldStands C.view
            (run_by C.decoding self.old.engine (inputs ++ AddReader (wish_of reader) ∷ []))
            (run_by C.decoding self.old.engine inputs).put self.new.engine.discovery.kept
            self.new.engine.readers joined.1.items) }
    {
        if self.failed {
            return Err(EngineError::Failed); // the reader is dropped
        }
        let states = mem::replace(&mut self.readers, Vec::new(alloc));
        let decoder = Decoder::new(alloc, &self.catalog);
        let mut readers = Readers::new(alloc, decoder, states);
        let joined = join(&mut self.discovery, &mut readers, alloc, self.index, reader);
        self.readers = readers.states;
        self.failed = has_begun(&joined);
        match joined {
            Ok(joined) => Ok(joined),
            Err(fault) => Err(fault.into()),
        }
    }

    /// Has the reader of a rank go in discovery, stops it, and marks the participant as failed
    /// until its status is hidden. Returns what it reports.
    #[tactic(auto, unfolding(rtps_run::specs::Moving::Moves))]
    fn part(&mut self, alloc: Global, rank: u32) -> Result<Vec<Report<C::Value>>, EngineError>
        ensures ok { OnOk result ((self.old.engine.failed ≡ false)
            × (removing_fault self.old.engine.discovery.kept.readers rank ≡ None)) }
        ensures there { OnOk result ((inputs : List Input)
            × StandsAt C.decoding inputs self.old.engine) }
        ensures moved { OnOk result (IsMovedFrom self.old.engine self.new.engine) }
        ensures within { OnOk result (rank < length self.new.engine.statuses) }
        ensures count { OnOk result
            (length self.new.engine.readers ≡ length self.new.engine.statuses) }
        ensures few { OnOk result (length self.new.engine.readers ≤ 4096) }
        ensures err { IfErr result (λ e. Moves {X = Unit {0}}
            (removing_fault self.old.engine.discovery.kept.readers rank) (Err e) self.old.engine
            self.new.engine) }
        ensures same { (self.new.engine.catalog ≡ self.old.engine.catalog)
            × (self.new.engine.config ≡ self.old.engine.config)
            × (self.new.engine.statuses ≡ self.old.engine.statuses) }
        ensures others { (self.new.batches ≡ self.old.batches)
            × (self.new.ports ≡ self.old.ports) }
        ensures counters { self.new.counters ≡ self.old.counters }
        ensures stands { (inputs : List Input) → StandsAt C.decoding inputs self.old.engine
            → IfOk result (λ reports. WorldStands C.view
            (run_by C.decoding self.old.engine (inputs ++ RemoveReader rank ∷ []))
            (run_by C.decoding self.old.engine inputs).put self.new.engine.discovery.kept
            self.new.engine.readers reports.items) }
    {
        if self.failed {
            return Err(EngineError::Failed);
        }
        let states = mem::replace(&mut self.readers, Vec::new(alloc));
        let decoder = Decoder::new(alloc, &self.catalog);
        let mut readers = Readers::new(alloc, decoder, states);
        let parted = part(&mut self.discovery, &mut readers, alloc, self.index, rank);
        self.readers = readers.states;
        self.failed = has_begun(&parted);
        match parted {
            Ok(reports) => Ok(reports),
            Err(fault) => Err(fault.into()),
        }
    }

    /// Adds the place of the state that has none yet, the last one: its status, and no outlet. Then
    /// moves the contents of the lists of readers with an outlet to their backlogs. After a refused
    /// growth nothing has changed.
    fn add_place(&mut self, lists: &mut Vec<Vec<Notice<C::Value>>>) -> Result<(), AllocError>
        requires failed { self.old.engine.failed ≡ true }
        requires next { length self.old.engine.readers ≡ length self.old.engine.statuses + 1 }
        requires few { length self.old.engine.readers ≤ 4096 }
        requires lists { length lists.old.items ≡ length self.old.engine.readers }
        ensures same { self.new.engine
            ≡ record self.old.engine { statuses = self.new.engine.statuses } }
        ensures batches { self.new.batches ≡ self.old.batches }
        ensures counters { self.new.counters ≡ self.old.counters }
        ensures shown { OnOk result ((status : _)
            × (self.new.engine.statuses ≡ self.old.engine.statuses ++ Some status ∷ [])) }
        ensures on { OnOk result (AreHandedOn (self.old.ports ++ None ∷ []) (listed lists.old.items)
            self.new.ports (listed lists.new.items)) }
        ensures refused { OnErr result (self.new ≡ self.old) }
    {
        make_room_for_lists(&mut self.ports, lists)?;
        let status = self.readers[self.statuses.len()].status();
        push_both(&mut self.statuses, Some(status), &mut self.ports, None)?;
        hand_on_lists(&mut self.ports, lists);
        Ok(())
    }

    /// Hides the status of a rank, whose reader went.
    fn hide(&mut self, rank: u32)
        requires failed { self.old.engine.failed ≡ true }
        requires within { rank < length self.old.engine.statuses }
        ensures engine { self.new.engine ≡ record self.old.engine {
          statuses = slice_set self.old.engine.statuses rank None;
        } }
        ensures batches { self.new.batches ≡ self.old.batches }
        ensures counters { self.new.counters ≡ self.old.counters }
        ensures ports { self.new.ports ≡ self.old.ports }
    {
        self.statuses[rank as usize] = None;
    }
}
