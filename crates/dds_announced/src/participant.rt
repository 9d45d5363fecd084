//! A participant that announces itself.

ghost use Rattle.std.specs.Prelude.{◌≡◌, ◌+◌, ◌≤◌, ◌++◌, ◌∷◌, [], ℕ, All, IfErr, IfOk, List, OnErr, OnOk, false, length, map};
ghost use Rattle.rtps_receiver.specs.Counters.{all_counted, none_counted};
ghost use Rattle.rtps_planner.specs.PassedOver.{passed_by};
ghost use Rattle.rtps_run.specs.BatchOutput.{IsGiven};
ghost use Rattle.rtps_run.specs.declared.batch_output.BatchOutput.{BatchOutput};
ghost use Rattle.rtps_run.specs.Input.{Input, Tick, arrived};
ghost use Rattle.rtps_run.specs.Standing.{ShowsAt, StandsAt, run_by};
ghost use Rattle.rtps_discovery.specs.Config.{check_of};
ghost use Rattle.rtps_announcer.specs.Announcing.{farewell};
ghost use Rattle.rtps_announcer.specs.Standing.{StandsAt as HasHeard};
ghost use Rattle.dds_participant.specs.Batch.{LeavesLists};
ghost use Rattle.dds_participant.specs.Decode.{octets_of};
ghost use Rattle.dds_participant.specs.Handing.{IsHandedOn};
ghost use Rattle.dds_participant.specs.Kept.{TakesBatch, TakesTick, counted};
ghost use Rattle.dds_participant.specs.Ports.{NoneAttached};
ghost use Rattle.dds_announced.specs.Announced.{Announces, Begins, BlamesReader, IsSame, Refuses, refused_by, seen, voiceless_by};
ghost use Rattle.dds_announced.specs.Announcing.{fault_of};
ghost use Rattle.dds_announced.specs.Hearings.{heard_at};
ghost use Rattle.dds_announced.specs.Speaker.{announcements as announcements_of, own_readers};

use crate::announcement::Announcement;
use crate::announcing::{AnnouncedError, Announcing};
use crate::hearing::hear_all;
use crate::voice::{Voice, VoiceFault};
use dds_participant::{Participant, Workers};
use dds_topic::Catalog;
use rtps_discovery::Config;
use rtps_run::{BatchOutput, DATAGRAM_LIMIT, EngineError, StartError};
use rtps_shards::Gate;
use rtps_types::{Datagram, Locator};
use std::alloc::Global;
use std::marker::Model;
use std::mem;
use std::thread::Threads;

/// A participant that announces itself and its readers (DDSI-RTPS 8.5.3, 8.5.4): a
/// [`Participant`], and a [`Voice`] that hears all that it takes. Each call puts at the end of a list
/// of the caller's what is to be sent by then.
///
/// When a call is refused memory, in either part, both have failed: from then on each call returns
/// [`EngineError::Failed`], and nothing is announced. One call is an exception: a reader that comes
/// or goes and can't be announced for want of memory changes nothing
/// ([`ReaderError::Unannounced`](crate::ReaderError::Unannounced)).
#[derive(Drop)]
pub struct AnnouncedParticipant<C: Catalog> {
    pub(crate) participant: Participant<C>,
    pub(crate) voice: Voice,
    alloc: Global,
    /// The number of datagrams taken.
    taken: u64,
    /// Whether a call was refused memory. It is also set while one is processed, so that an error
    /// leaves it set.
    pub(crate) failed: bool,
}

impl<C: Catalog> Model for AnnouncedParticipant<C> {
    ghost use Rattle.std.specs.Prelude.{◌≡◌, false};
    ghost use Rattle.dds_announced.specs.Announced.{AnnouncedView};

    ghost Value = { AnnouncedView C C.Value };

    ghost view = { λ p. record {
      failed = p.failed;
      run = p.participant;
      announcer = p.voice.announcer;
      speaker = p.voice.speaker;
      everyone = p.voice.everyone;
    } };

    // Where nothing has failed, neither part has, and both have taken the same datagrams.
    ghost invariant = { λ p. p.failed ≡ false → (p.participant.engine.failed ≡ false)
        × (p.voice.announcer.failed ≡ false) × (p.taken ≡ p.participant.engine.index) };
}

/// Returns why a participant that announces itself could not be made, by why it has no voice.
fn voiceless(fault: VoiceFault) -> AnnouncedError
    ensures { result ≡ voiceless_by fault }
{
    match fault {
        VoiceFault::Announcing(fault) => AnnouncedError::Announcing(fault),
        VoiceFault::TooLong => AnnouncedError::TooLong,
        VoiceFault::NoMemory => AnnouncedError::NoMemory,
    }
}

/// Returns why a participant that announces itself could not be made, by why it could not be started.
fn refused(error: StartError) -> AnnouncedError
    ensures { result ≡ refused_by error }
{
    match error {
        StartError::Config(fault) => AnnouncedError::Config(fault),
        StartError::NoMemory => AnnouncedError::NoMemory,
    }
}

impl<C: Catalog> AnnouncedParticipant<C> {
    /// Returns a participant for this configuration, which announces itself and its readers so. It
    /// has received nothing, and has announced nothing.
    ///
    /// The errors, of which the first that comes is returned: [`AnnouncedError::Announcing`]
    /// exactly where [`Announcing::fault`] finds a fault; [`AnnouncedError::TooLong`] where a
    /// reader's record would have more than 60,000 octets; [`AnnouncedError::Config`] where
    /// [`rtps_discovery::check`] refuses the configuration; and [`AnnouncedError::NoMemory`].
    #[tactic(auto, unfolding(crate::specs::Announced::Begins, rtps_run::specs::Standing::Starts))]
    pub fn new(
        alloc: Global,
        config: Config,
        announcing: Announcing,
        catalog: C,
    ) -> Result<AnnouncedParticipant<C>, AnnouncedError>
        ensures begins { Begins (fault_of announcing) (check_of config) result }
        ensures too_long { IfErr result (BlamesReader config.own config.readers.items) }
        ensures same { IfOk result (λ p. (p.run.engine.catalog ≡ catalog)
            × (p.run.engine.config ≡ config) × (p.run.batches ≡ 0) × (p.failed ≡ false)) }
        ensures counters { IfOk result (λ p. (p.run.counters.received ≡ none_counted)
            × (p.run.counters.passed ≡ passed_by config [])) }
        ensures none { IfOk result (λ p. NoneAttached p.run.ports) }
        ensures stands { IfOk result (λ p. StandsAt C.decoding [] p.run.engine) }
        ensures heard { IfOk result (λ p. HasHeard (heard_at config []) p.announcer) }
        ensures rules { IfOk result (λ p. (p.announcer.rules ≡ announcing.rules)
            × (p.everyone ≡ announcing.everyone)) }
        ensures own { IfOk result (λ p. (p.announcer.own ≡ config.own)
            × (p.speaker.own ≡ config.own) × (p.speaker.here ≡ announcing.here)) }
        ensures readers { IfOk result (λ p. p.speaker.readers.items
            ≡ own_readers config.own config.readers.items) }
    {
        let voice = match Voice::new(alloc, &config, announcing) {
            Ok(voice) => voice,
            Err(fault) => return Err(voiceless(fault)),
        };
        match Participant::new(alloc, config, catalog) {
            Ok(participant) => Ok(AnnouncedParticipant {
                participant,
                voice,
                alloc,
                taken: 0,
                failed: false,
            }),
            Err(error) => Err(refused(error)),
        }
    }

    /// The participant, for all that can be asked of it. Once a call was refused memory it may have
    /// taken less than the announcer has heard.
    pub fn participant(&self) -> &Participant<C>
        ensures { result.now ≡ self.now.run }
    {
        &self.participant
    }

    /// The addresses to which what is for everyone is to be sent.
    pub fn everyone(&self) -> &[Locator]
        ensures { result.now ≡ self.now.everyone }
    {
        self.voice.everyone()
    }

    /// Processes the next datagrams as [`Participant::run_in_order`] does, has the announcer hear
    /// each of them in order, and puts what is to be announced at the end of `announcements`.
    ///
    /// Any error leaves `announcements` as it was. [`EngineError::Failed`] and
    /// [`EngineError::Spent`] change nothing at all.
    #[tactic(auto, unfolding(dds_participant::specs::Kept::TakesBatch, dds_participant::specs::Batch::LeavesLists))]
    pub fn run_in_order<G: Gate, R: Threads + Sync>(
        &mut self,
        rt: &R,
        workers: &Workers<'_, G>,
        datagrams: &[Datagram<'_>],
        given: &mut BatchOutput<C::Value>,
        announcements: &mut Vec<Announcement>,
    ) -> Result<(), EngineError>
        requires few { length datagrams.now ≤ 4096 }
        requires fit { All (λ d. length d.bytes.now ≤ 65507) datagrams.now }
        requires workers { (1 ≤ workers.now.count) × (workers.now.count ≤ 64) }
        ensures takes { TakesBatch (length datagrams.now) result (seen self.old)
            (seen self.new) }
        ensures counts { (taken : ℕ) → self.old.run.batches ≡ counted taken
            → OnOk result (self.new.run.batches ≡ counted (taken + 1)) }
        ensures counters { OnOk result (self.new.run.counters.received ≡ all_counted
            self.old.run.engine.config.own (octets_of datagrams.now)
            self.old.run.counters.received) }
        ensures passed { (earlier : List Input) → StandsAt C.decoding earlier self.old.run.engine
            → self.old.run.counters.passed ≡ passed_by self.old.run.engine.config earlier
            → OnOk result (self.new.run.counters.passed
            ≡ passed_by self.old.run.engine.config (earlier ++ map arrived datagrams.now)) }
        ensures uncounted { OnErr result (self.new.run.counters ≡ self.old.run.counters) }
        ensures same { (self.new.run.engine.catalog ≡ self.old.run.engine.catalog)
            × (self.new.run.engine.config ≡ self.old.run.engine.config) }
        ensures stands { (earlier : List Input) → StandsAt C.decoding earlier self.old.run.engine
            → OnOk result (StandsAt C.decoding (earlier ++ map arrived datagrams.now)
            self.new.run.engine) }
        ensures gives { (earlier : List Input) → StandsAt C.decoding earlier self.old.run.engine
            → OnOk result ((whole : BatchOutput C.Value)
            × IsGiven C.view (run_by C.decoding self.old.run.engine earlier)
            (run_by C.decoding self.old.run.engine (earlier ++ map arrived datagrams.now)) whole
            × IsHandedOn whole given.new self.old.run.ports self.new.run.ports) }
        ensures alone { (earlier : List Input) → StandsAt C.decoding earlier self.old.run.engine
            → NoneAttached self.old.run.ports
            → OnOk result (IsGiven C.view (run_by C.decoding self.old.run.engine earlier)
            (run_by C.decoding self.old.run.engine (earlier ++ map arrived datagrams.now))
            given.new) }
        ensures free { NoneAttached self.old.run.ports → NoneAttached self.new.run.ports }
        ensures ports { OnErr result (self.new.run.ports ≡ self.old.run.ports) }
        ensures shows { (earlier : List Input) → ShowsAt C.decoding earlier self.old.run.engine
            → OnErr result (ShowsAt C.decoding earlier self.new.run.engine) }
        ensures lists { IfErr result (λ e. LeavesLists e given.old given.new) }
        ensures announces { OnOk result (Announces (map arrived datagrams.now) self.old self.new
            announcements.old.items announcements.new.items) }
        ensures silent { OnErr result (announcements.new.items ≡ announcements.old.items) }
        ensures still { IsSame self.old self.new }
        ensures speaker { self.new.speaker ≡ self.old.speaker }
    {
        if self.failed {
            return Err(EngineError::Failed);
        }
        if self.taken.saturating_add(datagrams.len() as u64) > DATAGRAM_LIMIT {
            return Err(EngineError::Spent);
        }
        let alloc = self.alloc;
        // Failed until all is done: a return before leaves it so, and the lists empty.
        self.failed = true;
        let lent = mem::replace(given, BatchOutput::new(alloc));
        let Ok(sends) = hear_all(alloc, &mut self.voice.announcer, datagrams) else {
            return Err(EngineError::NoMemory);
        };
        let Ok(mut more) = self.voice.speaker.write_for(alloc, sends, announcements) else {
            return Err(EngineError::NoMemory);
        };
        *given = lent;
        self.participant
            .run_in_order(rt, alloc, workers, datagrams, given)?;
        announcements.append(&mut more)?; // there is room for them
        self.taken += datagrams.len() as u64;
        self.failed = false;
        Ok(())
    }

    /// Has a moment pass as [`Participant::tick_in_order`] does, in the announcer too, and puts
    /// what is to be announced at the end of `announcements`.
    ///
    /// Any error leaves `announcements` as it was. [`EngineError::Failed`] changes nothing at all.
    #[tactic(auto, unfolding(dds_participant::specs::Kept::TakesTick, dds_participant::specs::Batch::LeavesLists))]
    pub fn tick_in_order(
        &mut self,
        alloc: Global,
        moment: u64,
        given: &mut BatchOutput<C::Value>,
        announcements: &mut Vec<Announcement>,
    ) -> Result<(), EngineError>
        ensures takes { TakesTick result (seen self.old) (seen self.new) }
        ensures counts { (taken : ℕ) → self.old.run.batches ≡ counted taken
            → OnOk result (self.new.run.batches ≡ counted (taken + 1)) }
        ensures counters { self.new.run.counters ≡ self.old.run.counters }
        ensures same { (self.new.run.engine.catalog ≡ self.old.run.engine.catalog)
            × (self.new.run.engine.config ≡ self.old.run.engine.config) }
        ensures stands { (earlier : List Input) → StandsAt C.decoding earlier self.old.run.engine
            → OnOk result (StandsAt C.decoding (earlier ++ Tick moment ∷ [])
            self.new.run.engine) }
        ensures gives { (earlier : List Input) → StandsAt C.decoding earlier self.old.run.engine
            → OnOk result ((whole : BatchOutput C.Value)
            × IsGiven C.view (run_by C.decoding self.old.run.engine earlier)
            (run_by C.decoding self.old.run.engine (earlier ++ Tick moment ∷ [])) whole
            × IsHandedOn whole given.new self.old.run.ports self.new.run.ports) }
        ensures alone { (earlier : List Input) → StandsAt C.decoding earlier self.old.run.engine
            → NoneAttached self.old.run.ports
            → OnOk result (IsGiven C.view (run_by C.decoding self.old.run.engine earlier)
            (run_by C.decoding self.old.run.engine (earlier ++ Tick moment ∷ []))
            given.new) }
        ensures free { NoneAttached self.old.run.ports → NoneAttached self.new.run.ports }
        ensures ports { OnErr result (self.new.run.ports ≡ self.old.run.ports) }
        ensures shows { (earlier : List Input) → ShowsAt C.decoding earlier self.old.run.engine
            → OnErr result (ShowsAt C.decoding earlier self.new.run.engine) }
        ensures lists { IfErr result (λ e. LeavesLists e given.old given.new) }
        ensures announces { OnOk result (Announces (Tick moment ∷ []) self.old self.new
            announcements.old.items announcements.new.items) }
        ensures silent { OnErr result (announcements.new.items ≡ announcements.old.items) }
        ensures still { IsSame self.old self.new }
        ensures speaker { self.new.speaker ≡ self.old.speaker }
    {
        if self.failed {
            return Err(EngineError::Failed);
        }
        // Failed until all is done: a `?` leaves it so, and the lists empty.
        self.failed = true;
        let lent = mem::replace(given, BatchOutput::new(alloc));
        let mut sends = Vec::new(alloc);
        self.voice.announcer.tick(alloc, moment, &mut sends)?;
        let mut more = self.voice.speaker.write_all(alloc, sends)?;
        announcements.reserve(more.len())?;
        *given = lent;
        self.participant.tick_in_order(alloc, moment, given)?;
        announcements.append(&mut more)?; // there is room for them
        self.failed = false;
        Ok(())
    }

    /// Puts our farewell at the end of `announcements`, to everyone and to each peer. It changes
    /// nothing, so that it may be said again. [`EngineError::Failed`] where an earlier call was
    /// refused memory, and [`EngineError::NoMemory`] where this one is; either leaves
    /// `announcements` as it was.
    #[tactic(auto, unfolding(crate::specs::Announced::Refuses))]
    pub fn farewell(
        &self,
        alloc: Global,
        announcements: &mut Vec<Announcement>,
    ) -> Result<(), EngineError>
        ensures said { OnOk result (announcements.new.items ≡ announcements.old.items
            ++ announcements_of self.now.speaker (farewell self.now.announcer.state)) }
        ensures silent { OnErr result (announcements.new.items ≡ announcements.old.items) }
        ensures failed { Refuses result self.now.failed }
    {
        if self.failed {
            return Err(EngineError::Failed);
        }
        let mut sends = Vec::new(alloc);
        self.voice.announcer.farewell(alloc, &mut sends)?;
        let mut more = self.voice.speaker.write_all(alloc, sends)?;
        announcements.append(&mut more)?;
        Ok(())
    }
}
