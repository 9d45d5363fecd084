//! What the announcer is after what it heard, and each of its steps.

ghost use Rattle.std.specs.Prelude.{◌≡◌, ◌∷◌, ◌++◌, [], IfOk, IfSome, OnOk, Some, length};
ghost use Rattle.std.specs.Map.{lookup};
ghost use Rattle.std.specs.Option.{option_map};
ghost use Rattle.rtps_announcer.specs.declared.hearing.Hearing.{Hearing};
ghost use Rattle.rtps_announcer.specs.declared.peer.Peer.{Peer};
ghost use Rattle.rtps_discovery.specs.Known.{same_prefix};
ghost use Rattle.rtps_announcer.specs.Announcing as announcing;

use crate::ack::Ack;
use crate::hearing::{Facts, Hearing};
use crate::now::Now;
use crate::peer::Peer;
use crate::peers::{
    acknowledge, end_leases, make_room, note_news, note_reminders, renew, send_farewells,
    send_news, send_reminders,
};
use crate::rules::Rules;
use crate::said::{Change, Said, Sending};
use crate::telling::{Record, addressed, wanted};
use rtps_types::GuidPrefix;
use std::alloc::{AllocError, Allocator};
use std::collections::BTreeMap;
use std::marker::Model;

/// What the announcer is after what it heard. After a refused growth it may be anything.
#[derive(Drop)]
pub(crate) struct AnnouncerState<A: Allocator> {
    /// The greatest so far, in milliseconds.
    moment: u64,
    /// When the participant was last announced to everyone.
    announced: Option<u64>,
    /// The count of the last HEARTBEAT.
    count: u32,
    /// The change with the number n is at index n - 1.
    changes: Vec<Change, A>,
    /// For each rank that was given, whether its reader has gone.
    gone: Vec<bool, A>,
    peers: BTreeMap<GuidPrefix, Peer, A>,
}

impl<A: Allocator> Model for AnnouncerState<A> {
    ghost use Rattle.rtps_announcer.specs.Announcing.{State};

    ghost Value = { State };

    ghost view = { λ s. record {
      moment = s.moment;
      announced = s.announced;
      count = s.count;
      changes = s.changes.items;
      gone = s.gone.items;
      peers = s.peers.entries;
    } };
}

impl<A: Allocator + Copy> Clone for AnnouncerState<A> {
    ghost use Rattle.std.specs.Prelude.{◌≡◌};

    ghost is_clone = { λ s t. t ≡ s };

    fn clone(&self) -> Result<AnnouncerState<A>, AllocError> {
        Ok(AnnouncerState {
            moment: self.moment,
            announced: self.announced,
            count: self.count,
            changes: self.changes.clone()?,
            gone: self.gone.clone()?,
            peers: self.peers.clone()?,
        })
    }
}

/// Whether the participant has to be announced to everyone.
fn is_due(period: u64, moment: u64, announced: Option<u64>) -> bool
    ensures { result ≡ announcing.is_due period moment announced }
{
    match announced {
        Some(last) => period <= moment.saturating_sub(last),
        None => true,
    }
}

/// Returns the count after a step: the next one, if a HEARTBEAT was sent.
fn count_if(beats: bool, count: u32) -> u32
    ensures { result ≡ announcing.count_if beats count }
{
    if beats { count.wrapping_add(1) } else { count }
}

/// Returns when the participant was last announced, once it was if it is due.
fn announced_then(due: bool, moment: u64, announced: Option<u64>) -> Option<u64>
    ensures { result ≡ announcing.announced_then due moment announced }
{
    if due { Some(moment) } else { announced }
}

/// Announces the participant to everyone, if it is due.
fn announce<A: Allocator>(due: bool, sends: &mut Vec<Sending, A>) -> Result<(), AllocError>
    requires { sends.old.items ≡ [] }
    ensures { OnOk result (sends.new.items ≡ announcing.hello_if due) }
{
    if due {
        sends.push(Sending::to_everyone(Said::Hello))?;
    }
    Ok(())
}

impl<A: Allocator + Copy> AnnouncerState<A> {
    /// Before anything was heard.
    pub fn new(alloc: A) -> AnnouncerState<A>
        ensures { result ≡ announcing.first }
    {
        AnnouncerState {
            moment: 0,
            announced: None,
            count: 0,
            changes: Vec::new(alloc),
            gone: Vec::new(alloc),
            peers: BTreeMap::new(alloc),
        }
    }

    /// What is the same for every peer by now.
    fn now(&self) -> Now
        ensures { result ≡ announcing.now_of self.now }
    {
        Now {
            moment: self.moment,
            last: self.changes.len() as u64,
            count: self.count.wrapping_add(1),
        }
    }

    /// What there is to report.
    fn record(&self) -> Record<'_>
        ensures changes { result.changes.now ≡ self.now.changes }
        ensures gone { result.gone.now ≡ self.now.gone }
    {
        Record {
            changes: self.changes.as_slice(),
            gone: self.gone.as_slice(),
        }
    }

    /// Announces the participant, if that is due, and reminds each peer that has to be.
    fn remind(&mut self, alloc: A, rules: Rules) -> Result<Vec<Sending, A>, AllocError>
        ensures sent { IfOk result (λ sends.
            sends.items ≡ (announcing.passed rules self.old).sends) }
        ensures after { OnOk result (self.new ≡ (announcing.passed rules self.old).state) }
    {
        let now = self.now();
        let due = is_due(rules.period, self.moment, self.announced);
        let mut sends = Vec::new(alloc);
        announce(due, &mut sends)?;
        let any = send_reminders(&self.peers, rules, now, &mut sends)?;
        note_reminders(&mut self.peers, rules, now);
        self.announced = announced_then(due, self.moment, self.announced);
        self.count = count_if(any, self.count);
        Ok(sends)
    }

    /// Lets a moment pass.
    fn pass(&mut self, alloc: A, rules: Rules, moment: u64) -> Result<Vec<Sending, A>, AllocError>
        ensures sent { IfOk result (λ sends.
            sends.items ≡ (announcing.passes rules moment self.old).sends) }
        ensures after { OnOk result (self.new ≡ (announcing.passes rules moment self.old).state) }
    {
        self.moment = self.moment.max(moment);
        end_leases(&mut self.peers, self.moment);
        self.remind(alloc, rules)
    }

    /// Returns all that is said to who is found.
    fn welcome(&self, alloc: A) -> Result<Vec<Said, A>, AllocError>
        ensures { IfOk result (λ said. said.items ≡ announcing.welcome self.now) }
    {
        let now = self.now();
        let mut said = Vec::new(alloc);
        // It may know us from before, and believe that we have all that it announced.
        said.push(Said::Bye)?;
        said.push(Said::Hello)?;
        self.record().tell(now.last, &mut said)?;
        said.push(now.beat())?;
        Ok(said)
    }

    /// Finds a participant that isn't a peer, if there is room.
    fn find(
        &mut self,
        alloc: A,
        rules: Rules,
        prefix: GuidPrefix,
        facts: &Facts,
    ) -> Result<Vec<Sending, A>, AllocError>
        ensures sent { IfOk result (λ sends. sends.items ≡ (announcing.found rules prefix
            facts.now self.old (announcing.room rules.peers self.old.peers)).sends) }
        ensures after { OnOk result (self.new ≡ (announcing.found rules prefix
            facts.now self.old (announcing.room rules.peers self.old.peers)).state) }
    {
        if !make_room(&mut self.peers, rules.peers) {
            return Ok(Vec::new(alloc));
        }
        let now = self.now();
        let said = self.welcome(alloc)?;
        let sends = addressed(alloc, prefix, &facts.to, said.as_slice())?;
        match self.peers.insert(prefix, Peer::found(rules, now, facts)) {
            Ok(_) => {}
            Err(_) => return Err(AllocError),
        }
        self.count = now.count;
        Ok(sends)
    }

    /// Takes what a peer announces of itself now.
    fn hear_again(&mut self, rules: Rules, prefix: GuidPrefix, facts: &Facts)
        ensures { (peer : Peer) → lookup (same_prefix prefix) self.old.peers ≡ Some peer
            → self.new ≡ (announcing.heard_again rules prefix facts.now self.old peer).state }
    {
        let now = self.now();
        if facts.hears {
            renew(&mut self.peers, prefix, rules, now, facts);
        } else {
            self.peers.remove(&prefix);
        }
    }

    /// Takes the record of a participant.
    fn come(
        &mut self,
        alloc: A,
        rules: Rules,
        prefix: GuidPrefix,
        facts: &Facts,
    ) -> Result<Vec<Sending, A>, AllocError>
        ensures sent { IfOk result (λ sends.
            sends.items ≡ (announcing.comes rules prefix facts.now self.old).sends) }
        ensures after { OnOk result
            (self.new ≡ (announcing.comes rules prefix facts.now self.old).state) }
    {
        if self.peers.contains_key(&prefix) {
            self.hear_again(rules, prefix, facts);
            return Ok(Vec::new(alloc));
        }
        if !facts.hears {
            return Ok(Vec::new(alloc));
        }
        self.find(alloc, rules, prefix, facts)
    }

    /// Forgets a participant that leaves.
    fn leave(&mut self, prefix: GuidPrefix)
        ensures { self.new ≡ (announcing.leaves prefix self.old).state }
    {
        self.peers.remove(&prefix);
    }

    /// Returns what a peer is answered: the numbers that it asks for, and a HEARTBEAT after them;
    /// that alone where it asks for none and wants an answer.
    fn reply(
        &self,
        alloc: A,
        rules: Rules,
        peer: &Peer,
        ack: &Ack,
    ) -> Result<Vec<Said, A>, AllocError>
        ensures { IfOk result (λ said.
            said.items ≡ announcing.reply rules self.now peer.now ack.now) }
    {
        let now = self.now();
        let numbers = wanted(alloc, rules.again, now.last, ack)?;
        let mut said = Vec::new(alloc);
        self.record()
            .tell_again(peer.since, numbers.as_slice(), &mut said)?;
        if !said.is_empty() || !ack.is_final() {
            said.push(now.beat())?;
        }
        Ok(said)
    }

    /// Returns the answer to an ACKNACK of a peer; `None` if the ACKNACK isn't taken.
    fn answer(
        &self,
        alloc: A,
        rules: Rules,
        prefix: GuidPrefix,
        ack: &Ack,
    ) -> Result<Option<Vec<Sending, A>>, AllocError>
        ensures { IfOk result (λ sends. option_map (λ sends. sends.items) sends
            ≡ announcing.answer_at rules prefix ack.now self.now) }
    {
        let Some(peer) = self.peers.get(&prefix) else {
            return Ok(None);
        };
        if !peer.is_new(ack) {
            return Ok(None);
        }
        let said = self.reply(alloc, rules, peer, ack)?;
        let sends = addressed(alloc, prefix, &peer.to, said.as_slice())?;
        Ok(Some(sends))
    }

    /// Takes an ACKNACK.
    fn acknowledge(
        &mut self,
        alloc: A,
        rules: Rules,
        prefix: GuidPrefix,
        ack: &Ack,
    ) -> Result<Vec<Sending, A>, AllocError>
        ensures sent { IfOk result (λ sends.
            sends.items ≡ (announcing.acks rules prefix ack.now self.old).sends) }
        ensures after { OnOk result
            (self.new ≡ (announcing.acks rules prefix ack.now self.old).state) }
    {
        let Some(sends) = self.answer(alloc, rules, prefix, ack)? else {
            return Ok(Vec::new(alloc));
        };
        let now = self.now();
        acknowledge(&mut self.peers, prefix, rules, now, ack);
        self.count = count_if(!sends.is_empty(), self.count);
        Ok(sends)
    }

    /// Tells every peer the last change.
    fn tell_all(
        &mut self,
        alloc: A,
        rules: Rules,
        change: Change,
    ) -> Result<Vec<Sending, A>, AllocError>
        ensures sent { IfOk result (λ sends.
            sends.items ≡ (announcing.all_told rules change self.old).sends) }
        ensures after { OnOk result
            (self.new ≡ (announcing.all_told rules change self.old).state) }
    {
        let now = self.now();
        let mut sends = Vec::new(alloc);
        send_news(&self.peers, now, change, &mut sends)?;
        note_news(&mut self.peers, rules, now);
        self.count = count_if(!self.peers.is_empty(), self.count);
        Ok(sends)
    }

    /// Adds a reader of ours, with this rank: the next one.
    fn join(&mut self, alloc: A, rules: Rules, rank: u32) -> Result<Vec<Sending, A>, AllocError>
        requires { rank ≡ length self.old.gone }
        ensures sent { IfOk result (λ sends.
            sends.items ≡ (announcing.joins rules self.old).sends) }
        ensures after { OnOk result (self.new ≡ (announcing.joins rules self.old).state) }
    {
        self.changes.push(Change::Asks(rank))?;
        self.gone.push(false)?;
        self.tell_all(alloc, rules, Change::Asks(rank))
    }

    /// Removes our reader of a rank.
    fn part(&mut self, alloc: A, rules: Rules, rank: u32) -> Result<Vec<Sending, A>, AllocError>
        ensures sent { IfOk result (λ sends.
            sends.items ≡ (announcing.parts rules rank self.old).sends) }
        ensures after { OnOk result (self.new ≡ (announcing.parts rules rank self.old).state) }
    {
        let at = rank as usize;
        match self.gone.get(at) {
            Some(false) => {}
            Some(true) | None => return Ok(Vec::new(alloc)),
        }
        self.changes.push(Change::Ends(rank))?;
        self.gone[at] = true;
        self.tell_all(alloc, rules, Change::Ends(rank))
    }

    /// How many peers there are.
    pub fn peer_count(&self) -> usize
        ensures { result ≡ length self.now.peers }
    {
        self.peers.len()
    }

    /// The rank of the reader that comes next; `None` once all ranks are given.
    pub fn next_rank(&self) -> Option<u32>
        ensures { IfSome result (λ rank. rank ≡ length self.now.gone) }
    {
        u32::try_from(self.gone.len()).ok()
    }

    /// Takes what is heard, and returns what is sent.
    pub fn step(
        &mut self,
        alloc: A,
        rules: Rules,
        hearing: &Hearing,
    ) -> Result<Vec<Sending, A>, AllocError>
        ensures sent { IfOk result (λ sends.
            sends.items ≡ (announcing.step rules hearing.now self.old).sends) }
        ensures after { OnOk result
            (self.new ≡ (announcing.step rules hearing.now self.old).state) }
    {
        match hearing {
            Hearing::Passes(moment) => self.pass(alloc, rules, *moment),
            Hearing::Comes(prefix, facts) => self.come(alloc, rules, *prefix, facts),
            Hearing::Leaves(prefix) => {
                self.leave(*prefix);
                Ok(Vec::new(alloc))
            }
            Hearing::Acks(prefix, ack) => self.acknowledge(alloc, rules, *prefix, ack),
            Hearing::Joins => match self.next_rank() {
                Some(rank) => self.join(alloc, rules, rank),
                None => Err(AllocError),
            },
            Hearing::Parts(rank) => self.part(alloc, rules, *rank),
        }
    }

    /// Takes these hearings, one after the other, and puts what is sent at the end of `sends`.
    fn run(
        &mut self,
        alloc: A,
        rules: Rules,
        hearings: &[Hearing],
        sends: &mut Vec<Sending, A>,
    ) -> Result<(), AllocError>
        ensures sent { OnOk result (sends.new.items ≡ sends.old.items
            ++ announcing.sends_run rules self.old hearings.now) }
        ensures after { OnOk result
            (self.new ≡ announcing.state_run rules self.old hearings.now) }
    {
        for hearing in hearings {
            let mut more = self.step(alloc, rules, hearing)?;
            sends.append(&mut more)?;
        }
        Ok(())
    }

    /// Lets a moment pass, then takes these hearings, and returns what is sent.
    pub fn take(
        &mut self,
        alloc: A,
        rules: Rules,
        moment: u64,
        hearings: &[Hearing],
    ) -> Result<Vec<Sending, A>, AllocError>
        ensures sent { IfOk result (λ sends. sends.items
            ≡ announcing.sends_run rules self.old (Hearing.Passes moment ∷ hearings.now)) }
        ensures after { OnOk result (self.new
            ≡ announcing.state_run rules self.old (Hearing.Passes moment ∷ hearings.now)) }
    {
        let mut sends = self.pass(alloc, rules, moment)?;
        self.run(alloc, rules, hearings, &mut sends)?;
        Ok(sends)
    }

    /// Returns the farewell, to everyone and to each peer.
    pub fn farewell(&self, alloc: A) -> Result<Vec<Sending, A>, AllocError>
        ensures { IfOk result (λ sends. sends.items ≡ announcing.farewell self.now) }
    {
        let mut sends = Vec::new(alloc);
        sends.push(Sending::to_everyone(Said::Bye))?;
        send_farewells(&self.peers, &mut sends)?;
        Ok(sends)
    }
}
