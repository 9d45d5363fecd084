//! HEARTBEAT for a reliable reader, and its answer (DDSI-RTPS 8.3.7.5, 8.4.12.2).

ghost use Rattle.std.specs.Prelude.{◌≡◌, ◌≤◌, ◌^◌, ◌+◌, List, IfOk, OnOk, Option, Some, None, is_some, not, ◌&&◌, ◌||◌, nat_le, if◌then◌else◌};
ghost use Rattle.std.specs.Option.{option_map};
ghost use Rattle.rtps_types.specs.declared.time.Timestamp.{Timestamp};
ghost use Rattle.rtps_receiver.specs.declared.event_body.EventBody.TheVariants as body;
ghost use Rattle.rtps_proxy.specs.Effects.{GivesNothing, exceeds, given_in, match_event};
ghost use Rattle.rtps_proxy.specs.Kept.{asks_by, next_acknack, counts_answer, marked, pairing, reliable_view};
ghost use Rattle.rtps_types.specs.Numbers.{count_failing};
ghost use Rattle.rtps_proxy.specs.Replies.{reply_of, reply_view};
ghost use Rattle.rtps_proxy.specs.Steps.{ReliableTakes};

use crate::config::ProxyConfig;
use crate::effects::{Effects, ProxyError};
use crate::held::release;
use crate::pending::give_up;
use crate::reliable::Reliable;
use rtps_receiver::Heartbeat;
use rtps_types::{Guid, Locators, Reply};
use rtps_wire::{AckNack, write_acknack};
use std::alloc::Allocator;

impl<A: Allocator + Copy> Reliable<A> {
    /// Whether a HEARTBEAT with this count is accepted.
    fn is_accepted(&self, count: i32) -> bool
        ensures { result ≡ exceeds self.now.accepted count }
    {
        match self.accepted {
            None => true,
            Some(greatest) => greatest < count,
        }
    }

    /// Returns the number of sequence numbers that an accepted HEARTBEAT gives up; 0 for the first
    /// one of a match, since what the writer no longer had when the match began isn't lost.
    fn lost_below(&self, first: u64) -> u64
        requires { first ≤ 2 ^ 62 + 1 }
        ensures { result ≡ (if is_some self.now.accepted
            then count_failing (marked (reliable_view self.now)) first else 0) }
    {
        if self.accepted.is_none() {
            return 0;
        }
        self.settled.count_missing(first)
    }

    /// Whether an accepted HEARTBEAT is answered.
    fn is_answer_due(&self, heartbeat: &Heartbeat) -> bool
        ensures { result ≡ asks_by (reliable_view self.now) heartbeat.now }
    {
        !heartbeat.final_flag || (!heartbeat.liveliness && self.settled.lacks(self.announced))
    }

    /// Returns the ACKNACK that asks for what is missing, addressed to the writer's locators.
    fn reply_to(&self, alloc: A, config: &ProxyConfig<A>) -> Result<Reply<A>, ProxyError>
        ensures { IfOk result (λ reply.
            reply_view reply
            ≡ reply_of (pairing config.now) (next_acknack (reliable_view self.now))) }
    {
        let octets = write_acknack(
            alloc,
            AckNack {
                reader: Guid {
                    prefix: config.own,
                    entity: config.reader,
                },
                writer: config.writer,
                missing: self.settled.missing_up_to(self.announced),
                count: self.answers.wrapping_add(1),
            },
        )?;
        let to = Locators::copied(alloc, config.locators.as_slice())?;
        Ok(Reply { to, octets })
    }

    /// Returns the answer to an accepted HEARTBEAT and counts it, or `None` where no answer is due.
    fn answer_to(
        &mut self,
        alloc: A,
        config: &ProxyConfig<A>,
        heartbeat: &Heartbeat,
    ) -> Result<Option<Reply<A>>, ProxyError>
        ensures answer { IfOk result (λ answer. option_map reply_view answer
            ≡ (if asks_by (reliable_view self.old) heartbeat.now
            then Some (reply_of (pairing config.now) (next_acknack (reliable_view self.old)))
            else None)) }
        ensures kept { OnOk result (reliable_view self.new
            ≡ counts_answer (asks_by (reliable_view self.old) heartbeat.now)
            (reliable_view self.old)) }
    {
        if !self.is_answer_due(heartbeat) {
            return Ok(None);
        }
        let reply = self.reply_to(alloc, config)?;
        self.answers = self.answers.wrapping_add(1);
        Ok(Some(reply))
    }

    /// Handles a HEARTBEAT. It is ignored unless its count is above the counts of all earlier ones.
    pub fn on_heartbeat<'a>(
        &mut self,
        alloc: A,
        config: &ProxyConfig<A>,
        heartbeat: &Heartbeat,
        effects: &mut Effects<'a, A>,
    ) -> Result<(), ProxyError>
        requires { GivesNothing effects.old }
        ensures { (time : Option Timestamp) →
            ReliableTakes (pairing config.now) (reliable_view self.old) (reliable_view self.new)
            (match_event time (body.Heartbeat heartbeat.now)) (given_in effects.new result) }
    {
        let heartbeat = *heartbeat;
        if !self.is_accepted(heartbeat.count) {
            return Ok(());
        }
        let first = heartbeat.first.get();
        let lost = self.lost_below(first);
        self.accepted = Some(heartbeat.count);
        self.announced = self.announced.max(heartbeat.last);
        // Changes below the first number are no longer available: nothing waits for them.
        self.settled.add(0, first)?;
        give_up(&mut self.pending, &self.settled);
        release(&mut self.held, self.settled.frontier, &mut effects.ready)?;
        let answer = self.answer_to(alloc, config, &heartbeat)?;
        effects.lost = lost;
        effects.answer = answer;
        Ok(())
    }
}
