//! The state that a reliable reader keeps for one writer (DDSI-RTPS 8.4.12.2).

ghost use Rattle.std.specs.Prelude.{◌^◌, ◌≤◌};

use crate::change::Change;
use crate::config::ProxyConfig;
use crate::effects::{Effects, ProxyError};
use crate::pending::Pending;
use crate::settled::Settled;
use rtps_receiver::EventBody;
use rtps_types::Timestamp;
use std::alloc::Allocator;
use std::collections::VecDeque;

/// The state of a reliable reader for one writer.
#[derive(Drop)]
pub(crate) struct Reliable<A: Allocator> {
    /// The greatest count of an accepted HEARTBEAT.
    pub accepted: Option<i32>,
    /// The greatest last number of an accepted HEARTBEAT; 0 before the first.
    pub announced: u64,
    pub settled: Settled<A>,
    /// The changes that were received but wait for a lesser number that isn't settled.
    pub held: VecDeque<Change<'static, A>, A>,
    /// The samples with missing fragments, in order of their numbers.
    pub pending: Vec<Pending<A>, A>,
    /// The number of ACKNACKs so far, modulo 2^32.
    pub answers: u32,
    /// The greatest count of an accepted HEARTBEAT_FRAG.
    pub frag_accepted: Option<i32>,
    /// The number of NACK_FRAGs so far, modulo 2^32.
    pub nacks: u32,
    ghost small: { announced ≤ 2 ^ 62 },
}

impl<A: Allocator + Copy> Reliable<A> {
    ghost use Rattle.std.specs.Prelude.{◌≡◌};
    ghost use Rattle.rtps_proxy.specs.Effects.{GivesNothing, given_in, match_event};
    ghost use Rattle.rtps_proxy.specs.Kept.{reliable_view, reliable_first, pairing};
    ghost use Rattle.rtps_proxy.specs.Steps.{ReliableTakes};

    /// Returns the state before the first event.
    pub fn new(alloc: A) -> Reliable<A>
        ensures { reliable_view result ≡ reliable_first }
    {
        Reliable {
            accepted: None,
            announced: 0,
            settled: Settled::new(alloc),
            held: VecDeque::new(alloc),
            pending: Vec::new(alloc),
            answers: 0,
            frag_accepted: None,
            nacks: 0,
        }
    }

    /// Handles an event by its kind, and writes its effects into `effects`.
    pub fn on_event<'a>(
        &mut self,
        alloc: A,
        config: &ProxyConfig<A>,
        time: Option<Timestamp>,
        brought: &EventBody<'a>,
        effects: &mut Effects<'a, A>,
    ) -> Result<(), ProxyError>
        requires { GivesNothing effects.old }
        ensures { ReliableTakes (pairing config.now) (reliable_view self.old)
            (reliable_view self.new) (match_event time brought.now) (given_in effects.new result) }
    {
        match brought {
            EventBody::Whole(whole) => self.on_whole(alloc, time, whole, effects),
            EventBody::Heartbeat(heartbeat) => self.on_heartbeat(alloc, config, heartbeat, effects),
            EventBody::Gap(gap) => self.on_gap(gap, effects),
            EventBody::Fragment(fragment) => self.on_fragment(alloc, time, fragment, effects),
            EventBody::HeartbeatFrag(heartbeat) => {
                self.on_heartbeat_frag(alloc, config, heartbeat, effects)
            }
        }
    }
}
