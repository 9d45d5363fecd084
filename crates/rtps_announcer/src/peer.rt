//! A participant that was found.

ghost use Rattle.std.specs.Prelude.{◌≡◌};
ghost use Rattle.rtps_announcer.specs.Peer as peer;

use crate::ack::Ack;
use crate::hearing::Facts;
use crate::locators::PeerLocators;
use crate::now::Now;
use crate::rules::Rules;
use std::alloc::AllocError;

/// A participant that was found, has a reader of readers, and stays.
#[derive(Drop)]
pub(crate) struct Peer {
    /// Where it is sent to.
    pub to: PeerLocators,
    /// How many milliseconds it may keep silent; `None` if its lease never ends.
    pub lease: Option<u64>,
    /// The moment of its last record.
    pub heard: u64,
    /// How many changes there were when it was found.
    pub since: u64,
    /// It has acknowledged all numbers below this one.
    pub base: u64,
    /// The count of the last ACKNACK that was taken.
    pub counted: Option<i32>,
    /// The moment at which the last change or reminder was sent to it, or at which it last
    /// acknowledged something.
    pub told: u64,
    /// How many HEARTBEATs it gets until it gives a sign of life.
    pub left: u32,
}

impl Clone for Peer {
    ghost use Rattle.std.specs.Prelude.{◌≡◌};

    ghost is_clone = { λ p q. q ≡ p };

    fn clone(&self) -> Result<Peer, AllocError> {
        Ok(Peer {
            to: self.to.copied(),
            lease: self.lease,
            heard: self.heard,
            since: self.since,
            base: self.base,
            counted: self.counted,
            told: self.told,
            left: self.left,
        })
    }
}

impl Peer {
    /// The peer that is found by its record.
    pub fn found(rules: Rules, now: Now, facts: &Facts) -> Peer
        ensures { result ≡ peer.newcomer rules now facts.now }
    {
        Peer {
            to: facts.to.copied(),
            lease: facts.lease,
            heard: now.moment,
            since: now.last,
            base: 1,
            counted: None,
            told: now.moment,
            left: rules.reminders,
        }
    }

    /// Whether it kept silent for longer than its lease.
    pub fn has_lapsed(&self, moment: u64) -> bool
        ensures { result ≡ peer.has_lapsed moment self.now }
    {
        match self.lease {
            Some(lease) => lease < moment.saturating_sub(self.heard),
            None => false,
        }
    }

    /// Whether it has to be reminded.
    pub fn is_late(&self, rules: Rules, now: Now) -> bool
        ensures { result ≡ peer.is_late rules now self.now }
    {
        self.base <= now.last
            && 0 < self.left
            && rules.reminder <= now.moment.saturating_sub(self.told)
    }

    /// Notes that it is reminded, if it has to be.
    pub fn remind(&mut self, rules: Rules, now: Now)
        ensures { self.new ≡ peer.reminded rules now self.old }
    {
        if self.is_late(rules, now) {
            self.told = now.moment;
            self.left -= 1;
        }
    }

    /// Notes that one more change is sent to it.
    pub fn tell(&mut self, rules: Rules, now: Now)
        ensures { self.new ≡ peer.told_more rules now self.old }
    {
        self.told = now.moment;
        self.left = rules.reminders;
    }

    /// Takes what it announces of itself now.
    pub fn renew(&mut self, rules: Rules, now: Now, facts: &Facts)
        ensures { self.new ≡ peer.renewed rules now facts.now self.old }
    {
        self.to = facts.to.copied();
        self.lease = facts.lease;
        self.heard = now.moment;
        self.left = rules.reminders;
    }

    /// Whether an ACKNACK of it is taken: its count is new, or it begins anew.
    pub fn is_new(&self, ack: &Ack) -> bool
        ensures { result ≡ peer.is_new self.now ack.now }
    {
        let is_above = match self.counted {
            Some(count) => count < ack.count(),
            None => true,
        };
        is_above || ack.base() < self.base
    }

    /// Whether it never acknowledged anything, and has no reminders left.
    pub fn is_mute(&self) -> bool
        ensures { result ≡ peer.is_mute self.now }
    {
        self.counted.is_none() && self.left == 0
    }

    /// Takes an ACKNACK. A base beyond the next number counts as that one.
    pub fn acknowledge(&mut self, rules: Rules, now: Now, ack: &Ack)
        ensures { self.new ≡ peer.acknowledged rules now ack.now self.old }
    {
        self.base = ack.base().min(now.last.saturating_add(1));
        self.counted = Some(ack.count());
        self.told = now.moment;
        self.left = rules.reminders;
    }
}
