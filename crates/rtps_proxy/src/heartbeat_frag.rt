//! HEARTBEAT_FRAG for a reliable reader, and its answer (DDSI-RTPS 8.3.7.6, 8.3.7.11).

ghost use Rattle.std.specs.Prelude.{◌≡◌, ◌≤◌, ◌^◌, IfOk, Option};
ghost use Rattle.std.specs.Option.{option_map};
ghost use Rattle.rtps_types.specs.declared.time.Timestamp.{Timestamp};
ghost use Rattle.rtps_types.specs.Number.{value_of};
ghost use Rattle.rtps_types.specs.Sets.{frag_view};
ghost use Rattle.rtps_receiver.specs.declared.event_body.EventBody.TheVariants as body;
ghost use Rattle.rtps_receiver.specs.Views.{heartbeat_frag_view};
ghost use Rattle.rtps_proxy.specs.Effects.{GivesNothing, exceeds, given_in, match_event};
ghost use Rattle.rtps_proxy.specs.Kept.{reliable_view, lacks_frags, pairing};
ghost use Rattle.rtps_proxy.specs.NackFrag.{nack_by};
ghost use Rattle.rtps_proxy.specs.Replies.{nack_of, reply_view};
ghost use Rattle.rtps_proxy.specs.Steps.{ReliableTakes};

use crate::config::ProxyConfig;
use crate::effects::{Effects, ProxyError};
use crate::pending::{is_there, place_of};
use crate::reliable::Reliable;
use rtps_frags::missing_of_none;
use rtps_receiver::HeartbeatFrag;
use rtps_types::{FragSet, Guid, Locators, Number, Reply};
use rtps_wire::{NackFrag, write_nack_frag};
use std::alloc::Allocator;

impl<A: Allocator + Copy> Reliable<A> {
    /// Whether a HEARTBEAT_FRAG with this count is accepted.
    fn is_frag_accepted(&self, count: i32) -> bool
        ensures { result ≡ exceeds self.now.frag_accepted count }
    {
        match self.frag_accepted {
            None => true,
            Some(greatest) => greatest < count,
        }
    }

    /// Returns the missing fragments that an accepted HEARTBEAT_FRAG asks about, or `None` where
    /// none is missing or the number is settled.
    fn missing_fragments(&self, alloc: A, heartbeat: &HeartbeatFrag) -> Option<FragSet>
        ensures { option_map frag_view result
            ≡ lacks_frags (reliable_view self.now) (heartbeat_frag_view heartbeat.now) }
    {
        let number = heartbeat.number.get();
        if self.settled.contains(number) {
            return None;
        }
        let pending = self.pending.as_slice();
        let at = place_of(pending, number);
        if !is_there(pending, at, number) {
            return missing_of_none(alloc, heartbeat.last);
        }
        pending[at].sample.missing_up_to(heartbeat.last)
    }

    /// Returns the NACK_FRAG for these missing fragments, addressed to the writer's locators.
    fn nack_to(
        &self,
        alloc: A,
        config: &ProxyConfig<A>,
        number: Number,
        missing: FragSet,
    ) -> Result<Reply<A>, ProxyError>
        ensures { IfOk result (λ reply. reply_view reply ≡ nack_of (pairing config.now)
            (nack_by (value_of number) self.now.nacks (frag_view missing))) }
    {
        let octets = write_nack_frag(
            alloc,
            NackFrag {
                reader: Guid {
                    prefix: config.own,
                    entity: config.reader,
                },
                writer: config.writer,
                number,
                missing,
                count: self.nacks.wrapping_add(1),
            },
        )?;
        let to = Locators::copied(alloc, config.locators.as_slice())?;
        Ok(Reply { to, octets })
    }

    /// Handles a HEARTBEAT_FRAG. It is ignored unless its count is above the counts of all earlier
    /// ones.
    pub fn on_heartbeat_frag<'a>(
        &mut self,
        alloc: A,
        config: &ProxyConfig<A>,
        heartbeat: &HeartbeatFrag,
        effects: &mut Effects<'a, A>,
    ) -> Result<(), ProxyError>
        requires { GivesNothing effects.old }
        ensures { (time : Option Timestamp) →
            ReliableTakes (pairing config.now) (reliable_view self.old) (reliable_view self.new)
            (match_event time (body.HeartbeatFrag heartbeat.now)) (given_in effects.new result) }
    {
        let heartbeat = *heartbeat;
        if !self.is_frag_accepted(heartbeat.count) {
            return Ok(());
        }
        self.frag_accepted = Some(heartbeat.count);
        let Some(missing) = self.missing_fragments(alloc, &heartbeat) else {
            return Ok(());
        };
        let reply = self.nack_to(alloc, config, heartbeat.number, missing)?;
        self.nacks = self.nacks.wrapping_add(1);
        effects.answer = Some(reply);
        Ok(())
    }
}
