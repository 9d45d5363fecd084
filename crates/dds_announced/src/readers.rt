//! Readers of ours that come and go, and are announced.

ghost use Rattle.std.specs.Prelude.{◌≡◌, ◌+◌, ◌≤◌, ◌++◌, ◌∷◌, [], ℕ, IfErr, IfOk, List, None, OnErr, OnOk, false, vec_capacity, vec_len};
ghost use Rattle.std.specs.declared.alloc.Global.{Global};
ghost use Rattle.rtps_announcement.specs.Reader.{reader_record};
ghost use Rattle.rtps_announcer.specs.Announcing.{step};
ghost use Rattle.rtps_announcer.specs.Standing.{IsSame as IsSameAnnouncer};
ghost use Rattle.rtps_announcer.specs.declared.hearing.Hearing.{Hearing};
ghost use Rattle.rtps_discovery.specs.ReaderFaults.{adding_fault, removing_fault};
ghost use Rattle.rtps_discovery.specs.Start.{wish_of};
ghost use Rattle.rtps_run.specs.declared.outcome.Outcome.{Outcome};
ghost use Rattle.rtps_run.specs.Input.{AddReader, Input, RemoveReader};
ghost use Rattle.rtps_run.specs.Outcome.{Adds};
ghost use Rattle.rtps_run.specs.Seen.{reader_count};
ghost use Rattle.rtps_run.specs.Standing.{ShowsAt, StandsAt, run_by};
ghost use Rattle.dds_participant.specs.Handing.{IsOutcomeHandedOn};
ghost use Rattle.dds_participant.specs.Kept.{counted};
ghost use Rattle.dds_participant.specs.Ports.{NoneAttached};
ghost use Rattle.dds_announced.specs.Announced.{Announces, IsSame};
ghost use Rattle.dds_announced.specs.declared.readers.ReaderError.TheVariants as errors;
ghost use Rattle.dds_announced.specs.Readers.{IsTooLong, IsUnasked, TakesReader, has_failed};
ghost use Rattle.dds_announced.specs.Speaker.{announcements as announcements_of, own_reader};

use crate::announcement::Announcement;
use crate::participant::AnnouncedParticipant;
use crate::speaker::Speaker;
use dds_topic::Catalog;
use rtps_announcement::RecordFault;
use rtps_announcer::{Announcer, Hearing};
use rtps_discovery::ReaderConfig;
use rtps_run::{EngineError, Outcome};
use std::alloc::{AllocError, Global};
use thiserror::Error;

/// Why a reader of ours can't come or go. [`EngineError::Failed`] comes before all others; then
/// those come for which the participant isn't asked.
#[derive(Clone, Copy, Debug, PartialEq, Eq, Error)]
pub enum ReaderError {
    /// The reader's record would have more than 60,000 octets, so that no datagram carries it. The
    /// participant wasn't asked, and nothing has changed.
    #[error("the record of the reader has more than 60,000 octets")]
    TooLong,
    /// The allocator refused memory for what is to be announced. The participant wasn't asked, and
    /// nothing has changed, so that the call may be made again.
    #[error("out of memory for the announcement")]
    Unannounced,
    /// The participant refuses it, or has failed.
    #[error(transparent)]
    Engine(EngineError),
}

impl From<AllocError> for ReaderError {
    ghost from_gives = { λ _ e. e ≡ errors.Unannounced };

    fn from(_: AllocError) -> ReaderError {
        ReaderError::Unannounced
    }
}

/// Whether a participant that answers so has failed.
fn has_failed(fault: EngineError) -> bool
    ensures { result ≡ has_failed fault }
{
    match fault {
        EngineError::NoMemory | EngineError::Failed => true,
        EngineError::Spent | EngineError::Full | EngineError::BadReader | EngineError::NoReader =>
            false,
    }
}

/// A change of our readers, before it is announced.
struct Ready {
    /// What the announcer is after it.
    announcer: Announcer,
    /// The datagrams by which it is announced.
    more: Vec<Announcement>,
}

/// Returns what is ready once an announcer hears something, and there is room for it at the end of
/// `announcements`. The announcer itself doesn't hear it.
fn prepare(
    alloc: Global,
    announcer: &Announcer,
    speaker: &Speaker,
    hearing: &Hearing,
    announcements: &mut Vec<Announcement>,
) -> Result<Ready, AllocError>
    ensures state { IfOk result (λ ready. ready.announcer.state
        ≡ (step announcer.now.rules hearing.now announcer.now.state).state) }
    ensures failed { IfOk result (λ ready. ready.announcer.failed ≡ false) }
    ensures same { IfOk result (λ ready. IsSameAnnouncer announcer.now ready.announcer) }
    ensures more { IfOk result (λ ready. ready.more.items ≡ announcements_of speaker.now
        (step announcer.now.rules hearing.now announcer.now.state).sends) }
    ensures room { IfOk result (λ ready.
        vec_len announcements.new + vec_len ready.more ≤ vec_capacity announcements.new) }
    ensures announcements { announcements.new.items ≡ announcements.old.items }
{
    let mut announcer = announcer.clone()?;
    let mut sends = Vec::new(alloc);
    announcer.hear(alloc, hearing, &mut sends)?;
    let more = speaker.write_for(alloc, sends, announcements)?;
    Ok(Ready { announcer, more })
}

/// Appends a reader to those of `speaker`, and returns what is ready once an announcer hears that
/// it comes. An error leaves the readers as they were.
fn prepare_reader(
    alloc: Global,
    announcer: &Announcer,
    speaker: &mut Speaker,
    reader: &ReaderConfig,
    announcements: &mut Vec<Announcement>,
) -> Result<Ready, ReaderError>
    ensures state { IfOk result (λ ready. ready.announcer.state
        ≡ (step announcer.now.rules Hearing.Joins announcer.now.state).state) }
    ensures failed { IfOk result (λ ready. ready.announcer.failed ≡ false) }
    ensures same { IfOk result (λ ready. IsSameAnnouncer announcer.now ready.announcer) }
    ensures more { IfOk result (λ ready. ready.more.items ≡ announcements_of speaker.new
        (step announcer.now.rules Hearing.Joins announcer.now.state).sends) }
    ensures room { IfOk result (λ ready.
        vec_len announcements.new + vec_len ready.more ≤ vec_capacity announcements.new) }
    ensures announcements { announcements.new.items ≡ announcements.old.items }
    ensures added { OnOk result (speaker.new.readers.items
        ≡ speaker.old.readers.items ++ own_reader speaker.old.own (wish_of reader.now) ∷ []) }
    ensures refused { OnErr result (speaker.new.readers.items ≡ speaker.old.readers.items) }
    ensures speaker { (speaker.new.own ≡ speaker.old.own) × (speaker.new.here ≡ speaker.old.here) }
    ensures unasked { IfErr result IsUnasked }
    ensures too_long { IsTooLong result (reader_record speaker.old.own (wish_of reader.now)) }
{
    let count = speaker.readers.len();
    match speaker.add_reader(alloc, reader) {
        Ok(()) => {}
        Err(RecordFault::TooLong) => return Err(ReaderError::TooLong),
        Err(RecordFault::NoMemory) => return Err(ReaderError::Unannounced),
    }
    match prepare(alloc, announcer, speaker, &Hearing::Joins, announcements) {
        Ok(ready) => Ok(ready),
        Err(_) => {
            speaker.readers.truncate(count);
            Err(ReaderError::Unannounced)
        }
    }
}

impl<C: Catalog> AnnouncedParticipant<C> {
    /// Adds a reader of ours as [`dds_participant::Participant::add_reader`] does, has the announcer
    /// hear it, and puts at the end of `announcements` what is to be sent by then: to each peer that
    /// there is such a reader. Returns its rank and the notices.
    ///
    /// Any error leaves `announcements` as it was, and nothing is heard.
    /// [`ReaderError::TooLong`] and [`ReaderError::Unannounced`] change nothing, nor do
    /// [`EngineError::Failed`], [`EngineError::Full`] and [`EngineError::BadReader`]; the reader is
    /// dropped. When the participant runs out of memory, both parts have failed.
    #[tactic(auto, unfolding(crate::specs::Readers::TakesReader, rtps_run::specs::Moving::Moves))]
    pub fn add_reader(
        &mut self,
        alloc: Global,
        reader: ReaderConfig,
        announcements: &mut Vec<Announcement>,
    ) -> Result<(u32, Outcome<C::Value>), ReaderError>
        ensures takes { TakesReader
            (adding_fault self.old.run.engine.discovery.kept.readers (wish_of reader)) result
            self.old self.new }
        ensures counts { (taken : ℕ) → self.old.run.batches ≡ counted taken
            → OnOk result (self.new.run.batches ≡ counted (taken + 1)) }
        ensures counters { self.new.run.counters ≡ self.old.run.counters }
        ensures same { (self.new.run.engine.catalog ≡ self.old.run.engine.catalog)
            × (self.new.run.engine.config ≡ self.old.run.engine.config) }
        ensures rank { (earlier : List Input) → StandsAt C.decoding earlier self.old.run.engine
            → IfOk result (λ added.
            added.0 ≡ reader_count (run_by C.decoding self.old.run.engine earlier)) }
        ensures stands { (earlier : List Input) → StandsAt C.decoding earlier self.old.run.engine
            → OnOk result (StandsAt C.decoding (earlier ++ AddReader (wish_of reader) ∷ [])
            self.new.run.engine) }
        ensures adds { (earlier : List Input) → StandsAt C.decoding earlier self.old.run.engine
            → IfOk result (λ added. (whole : Outcome C.Value Global)
            × Adds C.view (run_by C.decoding self.old.run.engine earlier)
            (run_by C.decoding self.old.run.engine (earlier ++ AddReader (wish_of reader) ∷ []))
            whole
            × IsOutcomeHandedOn whole added.1 (self.old.run.ports ++ None ∷ [])
            self.new.run.ports) }
        ensures alone { (earlier : List Input) → StandsAt C.decoding earlier self.old.run.engine
            → NoneAttached self.old.run.ports
            → IfOk result (λ added. Adds C.view (run_by C.decoding self.old.run.engine earlier)
            (run_by C.decoding self.old.run.engine (earlier ++ AddReader (wish_of reader) ∷ []))
            added.1) }
        ensures free { NoneAttached self.old.run.ports → NoneAttached self.new.run.ports }
        ensures ports { OnErr result (self.new.run.ports ≡ self.old.run.ports) }
        ensures shows { (earlier : List Input) → ShowsAt C.decoding earlier self.old.run.engine
            → OnErr result (ShowsAt C.decoding earlier self.new.run.engine) }
        ensures announces { OnOk result (Announces (AddReader (wish_of reader) ∷ []) self.old
            self.new announcements.old.items announcements.new.items) }
        ensures silent { OnErr result (announcements.new.items ≡ announcements.old.items) }
        ensures still { IsSame self.old self.new }
        ensures speaker { OnOk result (self.new.speaker.readers.items
            ≡ self.old.speaker.readers.items
            ++ own_reader self.old.speaker.own (wish_of reader) ∷ []) }
        ensures unheard { OnErr result ((self.new.announcer ≡ self.old.announcer)
            × (self.new.speaker.readers.items ≡ self.old.speaker.readers.items)) }
        ensures too_long { IsTooLong result
            (reader_record self.old.speaker.own (wish_of reader)) }
    {
        if self.failed {
            return Err(ReaderError::Engine(EngineError::Failed)); // the reader is dropped
        }
        let count = self.voice.speaker.readers.len();
        let speaker = &mut self.voice.speaker;
        let Ready {
            announcer,
            mut more,
        } = match prepare_reader(
            alloc,
            &self.voice.announcer,
            speaker,
            &reader,
            announcements,
        ) {
            Ok(ready) => ready,
            Err(fault) => return Err(fault),
        };
        match self.participant.add_reader(alloc, reader) {
            Ok(added) => {
                announcements.append(&mut more)?; // there is room for them
                self.voice.announcer = announcer;
                Ok(added)
            }
            Err(fault) => {
                self.voice.speaker.readers.truncate(count);
                self.failed = has_failed(fault);
                Err(ReaderError::Engine(fault))
            }
        }
    }

    /// Removes the reader of a rank as [`dds_participant::Participant::remove_reader`] does, has the
    /// announcer hear it, and puts at the end of `announcements` what is to be sent by then: to each
    /// peer that the reader has gone. Returns the notices.
    ///
    /// Any error leaves `announcements` as it was, and nothing is heard.
    /// [`ReaderError::Unannounced`] changes nothing, nor do [`EngineError::Failed`] and
    /// [`EngineError::NoReader`]. When the participant runs out of memory, both parts have failed.
    /// It is never [`ReaderError::TooLong`].
    #[tactic(auto, unfolding(crate::specs::Readers::TakesReader, rtps_run::specs::Moving::Moves))]
    pub fn remove_reader(
        &mut self,
        alloc: Global,
        rank: u32,
        announcements: &mut Vec<Announcement>,
    ) -> Result<Outcome<C::Value>, ReaderError>
        ensures takes { TakesReader
            (removing_fault self.old.run.engine.discovery.kept.readers rank) result
            self.old self.new }
        ensures counts { (taken : ℕ) → self.old.run.batches ≡ counted taken
            → OnOk result (self.new.run.batches ≡ counted (taken + 1)) }
        ensures counters { self.new.run.counters ≡ self.old.run.counters }
        ensures same { (self.new.run.engine.catalog ≡ self.old.run.engine.catalog)
            × (self.new.run.engine.config ≡ self.old.run.engine.config) }
        ensures stands { (earlier : List Input) → StandsAt C.decoding earlier self.old.run.engine
            → OnOk result (StandsAt C.decoding (earlier ++ RemoveReader rank ∷ [])
            self.new.run.engine) }
        ensures adds { (earlier : List Input) → StandsAt C.decoding earlier self.old.run.engine
            → IfOk result (λ outcome. (whole : Outcome C.Value Global)
            × Adds C.view (run_by C.decoding self.old.run.engine earlier)
            (run_by C.decoding self.old.run.engine (earlier ++ RemoveReader rank ∷ [])) whole
            × IsOutcomeHandedOn whole outcome self.old.run.ports self.new.run.ports) }
        ensures alone { (earlier : List Input) → StandsAt C.decoding earlier self.old.run.engine
            → NoneAttached self.old.run.ports
            → IfOk result (Adds C.view (run_by C.decoding self.old.run.engine earlier)
            (run_by C.decoding self.old.run.engine (earlier ++ RemoveReader rank ∷ []))) }
        ensures free { NoneAttached self.old.run.ports → NoneAttached self.new.run.ports }
        ensures ports { OnErr result (self.new.run.ports ≡ self.old.run.ports) }
        ensures shows { (earlier : List Input) → ShowsAt C.decoding earlier self.old.run.engine
            → OnErr result (ShowsAt C.decoding earlier self.new.run.engine) }
        ensures announces { OnOk result (Announces (RemoveReader rank ∷ []) self.old self.new
            announcements.old.items announcements.new.items) }
        ensures silent { OnErr result (announcements.new.items ≡ announcements.old.items) }
        ensures still { IsSame self.old self.new }
        ensures speaker { self.new.speaker ≡ self.old.speaker }
        ensures unheard { OnErr result (self.new.announcer ≡ self.old.announcer) }
        ensures short { IsTooLong result [] }
    {
        if self.failed {
            return Err(ReaderError::Engine(EngineError::Failed));
        }
        let parts = Hearing::Parts(rank);
        let Ok(
            Ready {
                announcer,
                mut more,
            },
        ) = prepare(
            alloc,
            &self.voice.announcer,
            &self.voice.speaker,
            &parts,
            announcements,
        )
        else {
            return Err(ReaderError::Unannounced);
        };
        match self.participant.remove_reader(alloc, rank) {
            Ok(outcome) => {
                announcements.append(&mut more)?; // there is room for them
                self.voice.announcer = announcer;
                Ok(outcome)
            }
            Err(fault) => {
                self.failed = has_failed(fault);
                Err(ReaderError::Engine(fault))
            }
        }
    }
}
