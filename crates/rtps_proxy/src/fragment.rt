//! DATA_FRAG: fragments of a change (DDSI-RTPS 8.3.7.3, 8.4.14.1).

ghost use Rattle.std.specs.Prelude.{◌≡◌, ◌≤◌, ◌^◌, IfSome, is_some};
ghost use Rattle.rtps_types.specs.Number.{value_of};
ghost use Rattle.rtps_receiver.specs.declared.event_body.EventBody.TheVariants as body;
ghost use Rattle.rtps_receiver.specs.Views.{fragment_view};
ghost use Rattle.rtps_proxy.specs.Effects.{GivesNothing, given_in, match_event};
ghost use Rattle.rtps_proxy.specs.Kept.{Pairing, best_effort_view, reliable_view, takes_above, takes_by};
ghost use Rattle.rtps_proxy.specs.Pending.{pending_views, place_in};
ghost use Rattle.rtps_proxy.specs.Runs.{IsPlaceOf};
ghost use Rattle.rtps_proxy.specs.Steps.{BestEffortTakes, ReliableTakes};

use crate::best_effort::BestEffort;
use crate::effects::{Effects, ProxyError};
use crate::held::{hold, release};
use crate::pending::{SEATS, displace, fits, give_up, is_there, place_of, put, take_whole};
use crate::reliable::Reliable;
use rtps_receiver::Fragment;
use rtps_types::Timestamp;
use std::alloc::Allocator;

impl<A: Allocator + Copy> BestEffort<A> {
    /// Whether a DATA_FRAG is accepted: its number is above the greatest one received, fewer than
    /// 64 samples with greater numbers are pending, and it fits.
    fn takes(&self, at: usize, fragment: &Fragment<'_>) -> bool
        requires { at ≡ place_in (value_of fragment.now.number)
            (pending_views self.now.pending.items) }
        ensures { result ≡ takes_above (best_effort_view self.now) (fragment_view fragment.now) }
    {
        let number = fragment.number.get();
        let pending = self.pending.as_slice();
        if number <= self.top {
            return false;
        }
        if at == 0 && pending.len() >= SEATS && !is_there(pending, at, number) {
            return false;
        }
        fits(pending, at, fragment)
    }

    /// Handles a DATA_FRAG. A sample that it completes is received. Otherwise the sample is
    /// pending, and of 65 pending samples the one with the least number is dropped.
    pub fn on_fragment<'a>(
        &mut self,
        alloc: A,
        time: Option<Timestamp>,
        fragment: &Fragment<'a>,
        effects: &mut Effects<'a, A>,
    ) -> Result<(), ProxyError>
        requires { GivesNothing effects.old }
        ensures { BestEffortTakes (best_effort_view self.old) (best_effort_view self.new)
            (match_event time (body.Fragment fragment.now)) (given_in effects.new result) }
    {
        let number = fragment.number.get();
        let at = place_of(self.pending.as_slice(), number);
        if !self.takes(at, fragment) {
            return Ok(());
        }
        put(&mut self.pending, alloc, time, at, fragment)?;
        match take_whole(&mut self.pending, at, number) {
            Some(change) => self.receive(change, effects),
            None => {
                displace(&mut self.pending);
                Ok(())
            }
        }
    }
}

impl<A: Allocator + Copy> Reliable<A> {
    /// Returns the place of a DATA_FRAG's number among the runs, if it is accepted. It has to fit,
    /// its change would be accepted, and one of these holds: its sample is pending already, its
    /// number is the least one that isn't settled, or fewer than 64 samples are pending.
    fn place_for_fragments(&self, at: usize, fragment: &Fragment<'_>) -> Option<usize>
        requires { at ≡ place_in (value_of fragment.now.number)
            (pending_views self.now.pending.items) }
        ensures taken { is_some result
            ≡ takes_by (reliable_view self.now) (fragment_view fragment.now) }
        ensures place { IfSome result (λ place.
            IsPlaceOf (value_of fragment.now.number) place self.now.settled.runs) }
    {
        let number = fragment.number.get();
        let pending = self.pending.as_slice();
        let is_next = number <= self.settled.frontier;
        if !is_there(pending, at, number) && !is_next && pending.len() >= SEATS {
            return None;
        }
        if !fits(pending, at, fragment) {
            return None;
        }
        self.place_for(number)
    }

    /// Handles a DATA_FRAG. A sample that it completes is received.
    pub fn on_fragment<'a>(
        &mut self,
        alloc: A,
        time: Option<Timestamp>,
        fragment: &Fragment<'a>,
        effects: &mut Effects<'a, A>,
    ) -> Result<(), ProxyError>
        requires { GivesNothing effects.old }
        ensures { (pairing : Pairing) →
            ReliableTakes pairing (reliable_view self.old) (reliable_view self.new)
            (match_event time (body.Fragment fragment.now)) (given_in effects.new result) }
    {
        let number = fragment.number.get();
        // `at` is the number's place among the pending samples, `place` its place among the runs.
        let at = place_of(self.pending.as_slice(), number);
        let Some(place) = self.place_for_fragments(at, fragment) else {
            return Ok(());
        };
        put(&mut self.pending, alloc, time, at, fragment)?;
        let Some(change) = take_whole(&mut self.pending, at, number) else {
            return Ok(());
        };
        self.settled.add_at(place, number, number + 1)?;
        give_up(&mut self.pending, &self.settled);
        hold(&mut self.held, change)?;
        release(&mut self.held, self.settled.frontier, &mut effects.ready)?;
        Ok(())
    }
}
