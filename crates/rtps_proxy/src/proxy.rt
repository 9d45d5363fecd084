//! The proxy of one writer.

ghost use Rattle.std.specs.Prelude.{◌≡◌, [], IfOk, List, false, true};
ghost use Rattle.rtps_receiver.specs.declared.event_body.EventBody.TheVariants as body;
ghost use Rattle.rtps_proxy.specs.Effects.{GivesNothing, StandsAt, TakesIn, given_in, match_event};
ghost use Rattle.rtps_proxy.specs.History.{MatchEvent};
ghost use Rattle.rtps_proxy.specs.Kept.{state_view, state_since, pairing};
ghost use Rattle.rtps_proxy.specs.Runs.{AreRuns};

use crate::config::ProxyConfig;
use crate::effects::{Effects, ProxyError};
use crate::state::State;
use rtps_receiver::{EventBody, Fragment, Gap, Heartbeat, HeartbeatFrag, Whole};
use rtps_types::{Number, Timestamp};
use std::alloc::{AllocError, Allocator, Global};
use std::marker::Model;

/// The state that a reader keeps for one matched writer (DDSI-RTPS 8.4.10.4, `WriterProxy`).
///
/// Each call that handles an event returns the effects that follow from all events of the match so
/// far. The only error is a refused growth: the proxy is spent then, and each later call returns
/// the same error and changes nothing.
#[derive(Drop)]
pub struct WriterProxy<A: Allocator = Global> {
    /// Boxed, as the state is, so that little memory is moved when a match is inserted or removed
    /// among others.
    config: Box<ProxyConfig<A>, A>,
    /// A growth was refused: the state may come from an event that was handled only in part.
    spent: bool,
    /// None until the first event, so that a match without traffic takes little memory.
    state: Option<Box<State<A>, A>>,
}

impl<A: Allocator> Model for WriterProxy<A> {
    ghost use Rattle.rtps_proxy.specs.Kept.{ProxyView, state_since, pairing};

    ghost Value = { ProxyView };

    ghost view = { λ p. record {
      pairing = pairing p.config.value;
      spent = p.spent;
      state = state_since p.config.value.reliable p.state;
    } };
}

/// Returns the state, or the initial state where no event came yet.
fn begun<A: Allocator + Copy>(
    alloc: A,
    reliable: bool,
    state: Option<Box<State<A>, A>>,
) -> Result<Box<State<A>, A>, ProxyError>
    ensures { IfOk result (λ begun. state_view begun.value ≡ state_since reliable state) }
{
    if let Some(state) = state {
        return Ok(state);
    }
    match Box::new(alloc, State::new(alloc, reliable)) {
        Ok(state) => Ok(state),
        Err(_) => Err(AllocError),
    }
}

impl<A: Allocator + Copy> WriterProxy<A> {
    /// Returns the proxy of a new match, which has had no event yet. An error is a refused growth.
    pub fn new(alloc: A, config: ProxyConfig<A>) -> Result<WriterProxy<A>, ProxyError>
        ensures stands { IfOk result (StandsAt []) }
        ensures pairing { IfOk result (λ proxy. proxy.pairing ≡ pairing config) }
    {
        match Box::new(alloc, config) {
            Ok(config) => Ok(WriterProxy {
                config,
                spent: false,
                state: None,
            }),
            Err(_) => Err(AllocError),
        }
    }

    /// Handles an event by its kind and returns its effects. After a refused growth the proxy is
    /// spent: each later call returns an error and changes nothing.
    pub fn on_event<'a>(
        &mut self,
        alloc: A,
        time: Option<Timestamp>,
        brought: &EventBody<'a>,
    ) -> Result<Effects<'a, A>, ProxyError>
        ensures { TakesIn self.old self.new (match_event time brought.now) result }
    {
        let mut effects = Effects::none(alloc);
        self.on_event_into(alloc, time, brought, &mut effects)?;
        Ok(effects)
    }

    /// Handles an event as [`WriterProxy::on_event`] does, and writes its effects into the caller's
    /// `effects`, which saves moving them. After a refused growth `effects` may have a part of
    /// them.
    pub fn on_event_into<'a>(
        &mut self,
        alloc: A,
        time: Option<Timestamp>,
        brought: &EventBody<'a>,
        effects: &mut Effects<'a, A>,
    ) -> Result<(), ProxyError>
        requires { GivesNothing effects.old }
        ensures takes { TakesIn self.old self.new (match_event time brought.now)
            (given_in effects.new result) }
        ensures lent { self.old.spent ≡ true → effects.new ≡ effects.old }
    {
        if self.spent {
            return Err(AllocError);
        }
        // Spent until the event is handled: each early return by `?` leaves it so.
        self.spent = true;
        let config = self.config.as_ref();
        let mut state = begun(alloc, config.reliable, self.state.take())?;
        state
            .as_mut()
            .on_event(alloc, config, time, brought, effects)?;
        self.state = Some(state);
        self.spent = false;
        Ok(())
    }

    /// Handles a DATA (DDSI-RTPS 8.3.7.2). The payload of a change that is ready at once is
    /// borrowed from the datagram. A change that waits for earlier ones is copied, and at most
    /// 65,536 of these are kept.
    pub fn on_whole<'a>(
        &mut self,
        alloc: A,
        time: Option<Timestamp>,
        whole: &Whole<'a>,
    ) -> Result<Effects<'a, A>, ProxyError>
        ensures { TakesIn self.old self.new (match_event time (body.Whole whole.now)) result }
    {
        self.on_event(alloc, time, &EventBody::Whole(*whole))
    }

    /// Handles a HEARTBEAT (DDSI-RTPS 8.3.7.5). A best-effort reader ignores it.
    pub fn on_heartbeat<'a>(
        &mut self,
        alloc: A,
        time: Option<Timestamp>,
        heartbeat: &Heartbeat,
    ) -> Result<Effects<'a, A>, ProxyError>
        ensures { TakesIn self.old self.new (match_event time (body.Heartbeat heartbeat.now))
            result }
    {
        self.on_event(alloc, time, &EventBody::Heartbeat(*heartbeat))
    }

    /// Handles a GAP (DDSI-RTPS 8.3.7.4). A best-effort reader ignores it.
    pub fn on_gap<'a>(
        &mut self,
        alloc: A,
        time: Option<Timestamp>,
        gap: &Gap,
    ) -> Result<Effects<'a, A>, ProxyError>
        ensures { TakesIn self.old self.new (match_event time (body.Gap gap.now)) result }
    {
        self.on_event(alloc, time, &EventBody::Gap(*gap))
    }

    /// Handles a DATA_FRAG (DDSI-RTPS 8.3.7.3). At most 64 changes are reassembled at a time: for a
    /// reliable reader, in addition to the next change in order; for a best-effort reader, those
    /// with the greatest sequence numbers.
    pub fn on_fragment<'a>(
        &mut self,
        alloc: A,
        time: Option<Timestamp>,
        fragment: &Fragment<'a>,
    ) -> Result<Effects<'a, A>, ProxyError>
        ensures { TakesIn self.old self.new (match_event time (body.Fragment fragment.now)) result }
    {
        self.on_event(alloc, time, &EventBody::Fragment(*fragment))
    }

    /// Handles a HEARTBEAT_FRAG (DDSI-RTPS 8.3.7.6), and answers it where fragments are missing. A
    /// best-effort reader ignores it.
    pub fn on_heartbeat_frag<'a>(
        &mut self,
        alloc: A,
        time: Option<Timestamp>,
        heartbeat: &HeartbeatFrag,
    ) -> Result<Effects<'a, A>, ProxyError>
        ensures { TakesIn self.old self.new (match_event time (body.HeartbeatFrag heartbeat.now))
            result }
    {
        self.on_event(alloc, time, &EventBody::HeartbeatFrag(*heartbeat))
    }

    /// Returns the first and the last number of each run of settled numbers above the frontier,
    /// which is the least number that isn't settled. It is empty for a best-effort reader.
    pub fn runs(&self) -> &[(Number, Number)]
        ensures reliable { (past : List MatchEvent) → StandsAt past self.now →
            self.now.pairing.reliable ≡ true → AreRuns past result.now }
        ensures best_effort { (past : List MatchEvent) → StandsAt past self.now →
            self.now.pairing.reliable ≡ false → result.now ≡ [] }
    {
        let Some(state) = &self.state else {
            return &[];
        };
        match state.as_ref() {
            State::BestEffort(_) => &[],
            State::Reliable(reliable) => reliable.settled.runs.as_slice(),
        }
    }
}
