//! The announcer.

ghost use Rattle.std.specs.Prelude.{◌≡◌, ◌∷◌, ◌++◌, [], List, IfOk, IsErr, OnErr, OnOk, length, true};
ghost use Rattle.rtps_announcer.specs.declared.hearing.Hearing.{Hearing};
ghost use Rattle.rtps_announcer.specs.Announcing.{farewell};
ghost use Rattle.rtps_announcer.specs.Hearing.{hearings_of};
ghost use Rattle.rtps_announcer.specs.Standing.{Heard, HeardAll, IsRefused, IsSame, StandsAt};

use crate::context::hearings;
use crate::hearing::Hearing;
use crate::rules::Rules;
use crate::said::Sending;
use crate::state::AnnouncerState;
use rtps_types::{Datagram, GuidPrefix};
use std::alloc::{AllocError, Allocator, Global};
use std::marker::Model;

/// Says to whom our participant is to be announced, and to whom its readers (DDSI-RTPS 8.4.7,
/// 8.4.9, 8.5.3, 8.5.4): to everyone once in a period; to each participant that it finds at once,
/// and again until that has acknowledged all. It holds the announcements of no reader, only their
/// numbers, and it sends nothing itself: each call puts what is to be sent at the end of a list.
///
/// A call that is refused memory leaves that list as it was. The announcer has failed then: each
/// later call is refused, and changes nothing.
#[derive(Drop)]
pub struct Announcer<A: Allocator = Global> {
    own: GuidPrefix,
    rules: Rules,
    /// Whether a call was refused memory.
    failed: bool,
    state: AnnouncerState<A>,
}

impl<A: Allocator> Model for Announcer<A> {
    ghost use Rattle.rtps_announcer.specs.Standing.{AnnouncerView};

    ghost Value = { AnnouncerView };

    ghost view = { λ a. record {
      own = a.own;
      rules = a.rules;
      failed = a.failed;
      state = a.state;
    } };
}

/// A copy hears and says for itself: so what is said by something can be known before it is heard.
impl<A: Allocator + Copy> Clone for Announcer<A> {
    ghost use Rattle.std.specs.Prelude.{◌≡◌};

    ghost is_clone = { λ a b. b ≡ a };

    fn clone(&self) -> Result<Announcer<A>, AllocError> {
        Ok(Announcer {
            own: self.own,
            rules: self.rules,
            failed: self.failed,
            state: self.state.clone()?,
        })
    }
}

impl<A: Allocator + Copy> Announcer<A> {
    /// Returns the announcer of the participant `own`, which has heard nothing and has no readers.
    /// It takes no memory.
    pub fn new(alloc: A, own: GuidPrefix, rules: Rules) -> Announcer<A>
        ensures own { result.own ≡ own }
        ensures rules { result.rules ≡ rules }
        ensures stands { StandsAt [] result }
    {
        Announcer {
            own,
            rules,
            failed: false,
            state: AnnouncerState::new(alloc),
        }
    }

    /// Takes what is heard, and puts what is said by it at the end of `sends`. `AllocError` where
    /// memory is refused, or where 2^32 readers came before.
    pub fn hear(
        &mut self,
        alloc: A,
        hearing: &Hearing,
        sends: &mut Vec<Sending, A>,
    ) -> Result<(), AllocError>
        ensures heard { OnOk result
            (Heard hearing.now self.old self.new sends.old.items sends.new.items) }
        ensures stands { (earlier : List Hearing) → StandsAt earlier self.old
            → OnOk result (StandsAt (earlier ++ hearing.now ∷ []) self.new) }
        ensures refused { OnErr result (IsRefused self.new sends.old.items sends.new.items) }
        ensures failed { self.old.failed ≡ true → IsErr result }
        ensures still { self.old.failed ≡ true → self.new ≡ self.old }
        ensures same { IsSame self.old self.new }
    {
        if self.failed {
            return Err(AllocError);
        }
        // Failed until all is done: a `?` leaves it so.
        self.failed = true;
        let mut more = self.state.step(alloc, self.rules, hearing)?;
        sends.append(&mut more)?;
        self.failed = false;
        Ok(())
    }

    /// Takes a datagram, and puts what is said by it at the end of `sends`: first its moment
    /// passes, as by [`tick`](Announcer::tick), and then what it says is heard, as by
    /// [`hearings`](crate::hearings). `AllocError` where memory is refused.
    pub fn take(
        &mut self,
        alloc: A,
        datagram: &Datagram<'_>,
        sends: &mut Vec<Sending, A>,
    ) -> Result<(), AllocError>
        ensures heard { OnOk result (HeardAll
            (hearings_of self.old.own datagram.now.moment datagram.now.bytes.now)
            self.old self.new sends.old.items sends.new.items) }
        ensures stands { (earlier : List Hearing) → StandsAt earlier self.old
            → OnOk result (StandsAt (earlier
            ++ hearings_of self.old.own datagram.now.moment datagram.now.bytes.now) self.new) }
        ensures refused { OnErr result (IsRefused self.new sends.old.items sends.new.items) }
        ensures failed { self.old.failed ≡ true → IsErr result }
        ensures still { self.old.failed ≡ true → self.new ≡ self.old }
        ensures same { IsSame self.old self.new }
    {
        if self.failed {
            return Err(AllocError);
        }
        // Failed until all is done.
        self.failed = true;
        let heard = hearings(alloc, self.own, datagram.bytes)?;
        let mut more = self
            .state
            .take(alloc, self.rules, datagram.moment, heard.as_slice())?;
        sends.append(&mut more)?;
        self.failed = false;
        Ok(())
    }

    /// Lets a moment pass, in milliseconds: peers whose leases have ended are forgotten, our
    /// participant is announced if that is due, and each peer is reminded that has to be. A moment
    /// below an earlier one counts as the greatest so far.
    pub fn tick(
        &mut self,
        alloc: A,
        moment: u64,
        sends: &mut Vec<Sending, A>,
    ) -> Result<(), AllocError>
        ensures heard { OnOk result
            (Heard (Hearing.Passes moment) self.old self.new sends.old.items sends.new.items) }
        ensures stands { (earlier : List Hearing) → StandsAt earlier self.old
            → OnOk result (StandsAt (earlier ++ Hearing.Passes moment ∷ []) self.new) }
        ensures refused { OnErr result (IsRefused self.new sends.old.items sends.new.items) }
        ensures failed { self.old.failed ≡ true → IsErr result }
        ensures still { self.old.failed ≡ true → self.new ≡ self.old }
        ensures same { IsSame self.old self.new }
    {
        self.hear(alloc, &Hearing::Passes(moment), sends)
    }

    /// Adds a reader of ours, and reports it to every peer. Returns its rank, which is the number
    /// of ranks that were given before: so a participant counts them too.
    pub fn add_reader(&mut self, alloc: A, sends: &mut Vec<Sending, A>) -> Result<u32, AllocError>
        ensures rank { IfOk result (λ rank. rank ≡ length self.old.state.gone) }
        ensures heard { OnOk result
            (Heard Hearing.Joins self.old self.new sends.old.items sends.new.items) }
        ensures stands { (earlier : List Hearing) → StandsAt earlier self.old
            → OnOk result (StandsAt (earlier ++ Hearing.Joins ∷ []) self.new) }
        ensures refused { OnErr result (IsRefused self.new sends.old.items sends.new.items) }
        ensures failed { self.old.failed ≡ true → IsErr result }
        ensures still { self.old.failed ≡ true → self.new ≡ self.old }
        ensures same { IsSame self.old self.new }
    {
        match self.state.next_rank() {
            Some(rank) => {
                self.hear(alloc, &Hearing::Joins, sends)?;
                Ok(rank)
            }
            None => {
                self.failed = true;
                Err(AllocError)
            }
        }
    }

    /// Removes our reader of a rank, and reports its end to every peer. Nothing is said and nothing
    /// changes where the rank wasn't given, or its reader has gone.
    pub fn remove_reader(
        &mut self,
        alloc: A,
        rank: u32,
        sends: &mut Vec<Sending, A>,
    ) -> Result<(), AllocError>
        ensures heard { OnOk result
            (Heard (Hearing.Parts rank) self.old self.new sends.old.items sends.new.items) }
        ensures stands { (earlier : List Hearing) → StandsAt earlier self.old
            → OnOk result (StandsAt (earlier ++ Hearing.Parts rank ∷ []) self.new) }
        ensures refused { OnErr result (IsRefused self.new sends.old.items sends.new.items) }
        ensures failed { self.old.failed ≡ true → IsErr result }
        ensures still { self.old.failed ≡ true → self.new ≡ self.old }
        ensures same { IsSame self.old self.new }
    {
        self.hear(alloc, &Hearing::Parts(rank), sends)
    }

    /// Says farewell, to everyone and to each peer. It changes nothing, so that it may be said
    /// again. `AllocError` where memory is refused, and where the announcer has failed; either
    /// leaves `sends` as it was.
    pub fn farewell(&self, alloc: A, sends: &mut Vec<Sending, A>) -> Result<(), AllocError>
        ensures said { OnOk result
            (sends.new.items ≡ sends.old.items ++ farewell self.now.state) }
        ensures same { OnErr result (sends.new.items ≡ sends.old.items) }
        ensures failed { self.now.failed ≡ true → IsErr result }
    {
        if self.failed {
            return Err(AllocError);
        }
        let mut more = self.state.farewell(alloc)?;
        sends.append(&mut more)
    }

    /// How many peers there are.
    pub fn peer_count(&self) -> usize
        ensures { result ≡ length self.now.state.peers }
    {
        self.state.peer_count()
    }
}
