//! The state of a proxy, by whether its reader is reliable.

ghost use Rattle.std.specs.Prelude.{◌≡◌};
ghost use Rattle.rtps_proxy.specs.Effects.{GivesNothing, given_in, match_event};
ghost use Rattle.rtps_proxy.specs.Kept.{state_view, state_first, pairing};
ghost use Rattle.rtps_proxy.specs.Steps.{StateTakes};

use crate::best_effort::BestEffort;
use crate::config::ProxyConfig;
use crate::effects::{Effects, ProxyError};
use crate::reliable::Reliable;
use rtps_receiver::EventBody;
use rtps_types::Timestamp;
use std::alloc::Allocator;

/// The state that is kept for a writer.
#[derive(Drop)]
pub(crate) enum State<A: Allocator> {
    BestEffort(BestEffort<A>),
    Reliable(Reliable<A>),
}

impl<A: Allocator + Copy> State<A> {
    /// Returns the state before the first event.
    pub fn new(alloc: A, reliable: bool) -> State<A>
        ensures { state_view result ≡ state_first reliable }
    {
        if reliable {
            State::Reliable(Reliable::new(alloc))
        } else {
            State::BestEffort(BestEffort::new(alloc))
        }
    }

    /// Handles an event, by whether the reader is reliable, and writes its effects into `effects`.
    pub fn on_event<'a>(
        &mut self,
        alloc: A,
        config: &ProxyConfig<A>,
        time: Option<Timestamp>,
        brought: &EventBody<'a>,
        effects: &mut Effects<'a, A>,
    ) -> Result<(), ProxyError>
        requires { GivesNothing effects.old }
        ensures { StateTakes (pairing config.now) (state_view self.old) (state_view self.new)
            (match_event time brought.now) (given_in effects.new result) }
    {
        match self {
            State::BestEffort(best_effort) => best_effort.on_event(alloc, time, brought, effects),
            State::Reliable(reliable) => reliable.on_event(alloc, config, time, brought, effects),
        }
    }
}
