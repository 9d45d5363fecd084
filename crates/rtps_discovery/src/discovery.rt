//! The discovery of a participant, event by event.

ghost use Rattle.std.specs.Prelude.{◌≡◌, ◌≤◌, IfErr, IfOk, IfSome, IsErr, IsOk, Ok, OnErr, OnOk, false, length, map, true};
ghost use Rattle.rtps_receiver.specs.Events.{view};
ghost use Rattle.rtps_discovery.specs.Config.{check_of};
ghost use Rattle.rtps_discovery.specs.Changes.{changes};
ghost use Rattle.rtps_discovery.specs.Effects.{AreHeard};
ghost use Rattle.rtps_discovery.specs.Ignored.{ignored};
ghost use Rattle.rtps_discovery.specs.Joining.{joined, parted, without_fixed, without_reader};
ghost use Rattle.rtps_discovery.specs.Kept.{IsKnown, matched_ranks};
ghost use Rattle.rtps_discovery.specs.Known.{Known, has_expired, moved, passed};
ghost use Rattle.rtps_discovery.specs.Pairs.{AreKeptPairs, ArePairs};
ghost use Rattle.rtps_discovery.specs.ReaderFaults.{adding_fault, removing_fault};
ghost use Rattle.rtps_discovery.specs.Records.{answered, changes_by, known_by};
ghost use Rattle.rtps_discovery.specs.Seen.{change_seen};
ghost use Rattle.rtps_discovery.specs.Start.{first_known, wish_of};
ghost use Rattle.rtps_discovery.specs.declared.reader_faults.ReaderFault.TheVariants.{NoMemory};

use crate::changes::MatchChange;
use crate::config::{Config, ReaderConfig};
use crate::effects::DiscoveryEffects;
use crate::hear::ranks_at;
use crate::known::{Reader, RemoteParticipant, Writer};
use crate::pairs::pairs_of;
use crate::reader_faults::{ReaderFault, adding_fault, has_reader};
use crate::registry::Registry;
use rtps_receiver::Event;
use rtps_types::{Guid, GuidPrefix};
use std::alloc::{AllocError, Allocator, Global};
use std::collections::BTreeSet;
use std::collections::btree_map::{Iter, Keys};
use std::marker::Model;

/// The discovery of our participant (DDSI-RTPS 8.5): the remote participants that it knows, their
/// writers and their readers, and the matches of its own readers with writers.
#[derive(Drop)]
pub struct Discovery<A: Allocator = Global> {
    /// Whether memory was refused, so that a call may have done its work only in part.
    spent: bool,
    held: Registry<A>,
}

impl<A: Allocator> Model for Discovery<A> {
    ghost use Rattle.rtps_discovery.specs.Kept.{DiscoveryView, kept};

    ghost Value = { DiscoveryView };

    ghost view = { λ d. record { spent = d.spent; kept = kept d.held } };
}

impl<A: Allocator + Copy> Discovery<A> {
    /// Returns discovery at its start, for a configuration that [`check`](crate::check) takes: its
    /// readers and its fixed matches are known, and nothing else. `AllocError` where memory is
    /// refused.
    pub fn new(alloc: A, config: &Config) -> Result<Discovery<A>, AllocError>
        requires { check_of config.now ≡ Ok tt }
        ensures known { IfOk result (λ discovery.
            IsKnown (first_known config.now) discovery.kept) }
        ensures ok { IfOk result (λ discovery. discovery.spent ≡ false) }
    {
        let held = Registry::new(alloc, config)?;
        Ok(Discovery { spent: false, held })
    }

    /// Processes an event that came at a moment, in milliseconds, and returns the changes of our
    /// readers' matches, the answer to send, and how many of the event's records were ignored
    /// (DDSI-RTPS 8.5.3, 8.5.4). The records of an announcer are applied one by one; any other
    /// event changes nothing but the moment. A moment below an earlier one counts as the greatest
    /// so far; a participant's record counts as heard at it, and no lease ends here. `AllocError`
    /// where memory is refused; from then on each call that changes discovery is refused, and
    /// changes nothing.
    pub fn step(
        &mut self,
        alloc: A,
        moment: u64,
        event: &Event<'_>,
    ) -> Result<DiscoveryEffects<A>, AllocError>
        ensures known { (k : Known) → IsKnown k self.old.kept
            → OnOk result (IsKnown (known_by (moved moment k) (view event.now)) self.new.kept) }
        ensures effects { (k : Known) → IsKnown k self.old.kept
            → IfOk result (AreHeard (changes_by (moved moment k) (view event.now))
            (answered (moved moment k) (view event.now))) }
        ensures ignored { (k : Known) → IsKnown k self.old.kept → IfOk result (λ effects.
            effects.ignored ≡ ignored (moved moment k) (view event.now)) }
        ensures ok { OnOk result (self.new.spent ≡ false) }
        ensures err { OnErr result (self.new.spent ≡ true) }
        ensures spent { self.old.spent ≡ true → IsErr result }
        ensures still { self.old.spent ≡ true → self.new ≡ self.old }
    {
        if self.spent {
            return Err(AllocError);
        }
        // Spent until the event is processed: a `?` leaves it so.
        self.spent = true;
        self.held.advance(moment);
        let effects = self.held.take(alloc, event)?;
        self.spent = false;
        Ok(effects)
    }

    /// Whether [`expire`](Discovery::expire) would remove a participant at a moment, in
    /// milliseconds: a lease has ended then, or at the greatest moment so far. It takes one
    /// comparison.
    pub fn is_due(&self, moment: u64) -> bool
        ensures { (k : Known) → IsKnown k self.now.kept
            → result ≡ has_expired (moved moment k) }
    {
        self.held.leases.is_due(self.held.moment.max(moment))
    }

    /// Advances to a moment, in milliseconds (DDSI-RTPS 8.5.3.2): removes the participants whose
    /// leases have ended, all together, and returns the changes of our readers' matches, by rank
    /// and then by writer. A moment below an earlier one counts as the greatest so far. If no lease
    /// has ended, it takes no memory; it takes no step for a participant that stays. `AllocError`
    /// where memory is refused; from then on each call that changes discovery is refused, and
    /// changes nothing.
    pub fn expire(&mut self, alloc: A, moment: u64) -> Result<Vec<MatchChange<A>, A>, AllocError>
        ensures known { (k : Known) → IsKnown k self.old.kept
            → OnOk result (IsKnown (passed moment k) self.new.kept) }
        ensures changes { (k : Known) → IsKnown k self.old.kept → IfOk result (λ ended.
            map change_seen ended.items ≡ changes (moved moment k) (passed moment k)) }
        ensures quiet { self.old.spent ≡ false → (k : Known) → IsKnown k self.old.kept
            → has_expired (moved moment k) ≡ false → IsOk result }
        ensures ok { OnOk result (self.new.spent ≡ false) }
        ensures err { OnErr result (self.new.spent ≡ true) }
        ensures spent { self.old.spent ≡ true → IsErr result }
        ensures still { self.old.spent ≡ true → self.new ≡ self.old }
    {
        if self.spent {
            return Err(AllocError);
        }
        // Spent until they are removed: a `?` leaves it so.
        self.spent = true;
        let ended = self.held.expire(alloc, moment)?;
        self.spent = false;
        Ok(ended)
    }

    /// Adds a reader of ours. Returns its rank, which is the number of ranks that were given
    /// before, and the changes of its matches: a match or a refusal for each known writer that it
    /// has to do with, in the order of the octets of the writers' guids. It has no fixed matches.
    ///
    /// A reader that isn't added is dropped. `Full` and `BadReader` change nothing. After
    /// `NoMemory` each call that changes discovery is refused, and changes nothing.
    pub fn add_reader(
        &mut self,
        alloc: A,
        reader: ReaderConfig,
    ) -> Result<(u32, Vec<MatchChange<A>, A>), ReaderFault>
        ensures known { (k : Known) → IsKnown k self.old.kept
            → OnOk result (IsKnown (joined (wish_of reader) k) self.new.kept) }
        ensures rank { (k : Known) → IsKnown k self.old.kept
            → IfOk result (λ added. added.0 ≡ length k.readers) }
        ensures changes { (k : Known) → IsKnown k self.old.kept
            → IfOk result (λ added. map change_seen added.1.items
            ≡ changes (without_fixed (length k.readers) k) (joined (wish_of reader) k)) }
        ensures refused { self.old.spent ≡ false
            → IfSome (adding_fault self.old.kept.readers (wish_of reader))
            (λ fault. (result ≡ Err fault) × (self.new ≡ self.old)) }
        ensures taken { self.old.spent ≡ false
            → adding_fault self.old.kept.readers (wish_of reader) ≡ None
            → IfErr result (λ fault. fault ≡ NoMemory) }
        ensures ok { OnOk result (self.new.spent ≡ false) }
        ensures err { result ≡ Err NoMemory → self.new.spent ≡ true }
        ensures spent { self.old.spent ≡ true
            → (result ≡ Err NoMemory) × (self.new ≡ self.old) }
    {
        if self.spent {
            return Err(ReaderFault::NoMemory);
        }
        if let Some(fault) = adding_fault(&self.held.readers, &reader) {
            return Err(fault);
        }
        // Spent until the reader is added.
        self.spent = true;
        let added = self.held.join(alloc, &reader)?;
        self.spent = false;
        Ok(added)
    }

    /// Removes our reader of a rank. Returns the ends of its matches, in the order of the octets of
    /// the writers' guids; its fixed matches end too, and aren't among them. The rank isn't given
    /// again, but another reader may have its entity. `NoReader` changes nothing. After `NoMemory`
    /// each call that changes discovery is refused, and changes nothing.
    pub fn remove_reader(
        &mut self,
        alloc: A,
        rank: u32,
    ) -> Result<Vec<MatchChange<A>, A>, ReaderFault>
        ensures known { (k : Known) → IsKnown k self.old.kept
            → OnOk result (IsKnown (parted rank k) self.new.kept) }
        ensures changes { (k : Known) → IsKnown k self.old.kept
            → IfOk result (λ ended. map change_seen ended.items
            ≡ changes k (without_reader rank k)) }
        ensures refused { self.old.spent ≡ false
            → IfSome (removing_fault self.old.kept.readers rank)
            (λ fault. (result ≡ Err fault) × (self.new ≡ self.old)) }
        ensures taken { self.old.spent ≡ false
            → removing_fault self.old.kept.readers rank ≡ None
            → IfErr result (λ fault. fault ≡ NoMemory) }
        ensures ok { OnOk result (self.new.spent ≡ false) }
        ensures err { result ≡ Err NoMemory → self.new.spent ≡ true }
        ensures spent { self.old.spent ≡ true
            → (result ≡ Err NoMemory) × (self.new ≡ self.old) }
    {
        if self.spent {
            return Err(ReaderFault::NoMemory);
        }
        if !has_reader(&self.held.readers, rank) {
            return Err(ReaderFault::NoReader);
        }
        // Spent until the reader is removed.
        self.spent = true;
        let ended = self.held.part(alloc, rank)?;
        self.spent = false;
        Ok(ended)
    }

    /// Whether memory was refused, so that each later call that changes discovery is refused, and
    /// changes nothing.
    pub fn is_spent(&self) -> bool
        ensures { result ≡ self.now.spent }
    {
        self.spent // and stays so
    }

    /// Makes each later call that changes discovery be refused, and change nothing. It is for a
    /// caller that was refused memory for the results of an event, which was therefore processed
    /// only in part.
    pub fn spend(&mut self)
        ensures { self.new ≡ record self.old { spent = true } }
    {
        self.spent = true; // for good
    }

    /// The prefix of our own participant.
    pub fn own(&self) -> GuidPrefix
        ensures { result ≡ self.now.kept.own }
    {
        self.held.own
    }

    /// The greatest moment so far, in milliseconds; 0 at the start.
    pub fn moment(&self) -> u64
        ensures { result ≡ self.now.kept.moment }
    {
        self.held.moment
    }

    /// Returns the ranks of our readers that are matched with a writer, rising: those that have a
    /// fixed match with it, and those that its announcement matched. It takes one search.
    pub fn matched(&self, writer: Guid) -> &[u32]
        ensures { (k : Known) → IsKnown k self.now.kept → result.now ≡ matched_ranks k writer }
    {
        ranks_at(&self.held.ranks, writer)
    }

    /// Returns all matches: the rank of a reader of ours and a writer each, by rank and then by the
    /// octets of the writer's guid. They are those that [`matched`](Discovery::matched) returns for
    /// each writer, also after a call was refused memory, when its work may be done only in
    /// part. `AllocError` where memory is refused; nothing changes.
    pub fn matches(&self, alloc: A) -> Result<BTreeSet<(u32, Guid), A>, AllocError>
        ensures matches { (k : Known) → IsKnown k self.now.kept
            → IfOk result (λ matches. ArePairs k matches.keys) }
        ensures kept { IfOk result (λ matches. AreKeptPairs self.now.kept matches.keys) }
    {
        let pairs = pairs_of(alloc, &self.held.ranks)?;
        Ok(pairs)
    }

    /// Our readers by rank: one place for each rank that was given, at most 4,096. It is `None`
    /// where the reader was removed.
    pub fn readers(&self) -> &[Option<Reader<A>>]
        ensures known { result.now ≡ self.now.kept.readers }
        ensures few { length result.now ≤ 4096 }
    {
        self.held.readers.as_slice()
    }

    /// The known participants, in the order of the octets of their prefixes.
    pub fn participants(&self) -> Iter<'_, GuidPrefix, RemoteParticipant<A>>
        ensures { result ≡ self.now.kept.participants }
    {
        self.held.participants.iter()
    }

    /// The known writers, in the order of the octets of their guids.
    pub fn writers(&self) -> Iter<'_, Guid, Writer<A>>
        ensures { result ≡ self.now.kept.writers }
    {
        self.held.writers.iter()
    }

    /// The known remote readers, in the order of the octets of their guids.
    pub fn remote_readers(&self) -> Keys<'_, Guid, ()>
        ensures { result ≡ self.now.kept.remote_readers }
    {
        self.held.remote_readers.keys()
    }
}
