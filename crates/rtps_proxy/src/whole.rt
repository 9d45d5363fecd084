//! DATA: a change in one piece (DDSI-RTPS 8.3.7.2).

ghost use Rattle.std.specs.Prelude.{◌≡◌, ◌≤◌, ◌^◌, IfSome, is_some, length, not, ◌&&◌, ◌||◌, nat_le, nat_lt};
ghost use Rattle.rtps_receiver.specs.declared.event_body.EventBody.TheVariants as body;
ghost use Rattle.rtps_proxy.specs.Effects.{GivesNothing, given_in, match_event};
ghost use Rattle.rtps_proxy.specs.Kept.{Pairing, reliable_view, best_effort_view, marked};
ghost use Rattle.rtps_proxy.specs.Runs.{IsPlaceOf};
ghost use Rattle.rtps_proxy.specs.Steps.{BestEffortTakes, ReliableTakes};

use crate::best_effort::BestEffort;
use crate::change::Change;
use crate::effects::{Effects, ProxyError};
use crate::held::{hold, release};
use crate::pending::give_up;
use crate::reliable::Reliable;
use rtps_receiver::Whole;
use rtps_types::Timestamp;
use std::alloc::Allocator;

/// The most changes that are held. It bounds the memory for a writer that never sends a missing
/// change.
const ROOM: usize = 65_536;

impl<A: Allocator + Copy> BestEffort<A> {
    /// Handles a DATA. It is ignored if its number isn't above the greatest one received.
    pub fn on_whole<'a>(
        &mut self,
        time: Option<Timestamp>,
        whole: &Whole<'a>,
        effects: &mut Effects<'a, A>,
    ) -> Result<(), ProxyError>
        requires { GivesNothing effects.old }
        ensures { BestEffortTakes (best_effort_view self.old) (best_effort_view self.new)
            (match_event time (body.Whole whole.now)) (given_in effects.new result) }
    {
        if whole.number.get() <= self.top {
            return Ok(());
        }
        self.receive(Change::lent(time, whole), effects)
    }
}

impl<A: Allocator + Copy> Reliable<A> {
    /// Returns the place of `number` among the runs, if a change with this number is accepted: the
    /// number isn't settled, and it is the least such number or there is room.
    pub(crate) fn place_for(&self, number: u64) -> Option<usize>
        requires { number ≤ 2 ^ 62 }
        ensures taken { is_some result ≡ (not (marked (reliable_view self.now) number)
            && (nat_le number self.now.settled.frontier
            || nat_lt (length self.now.held.items) 65536)) }
        ensures place { IfSome result (λ at. IsPlaceOf number at self.now.settled.runs) }
    {
        if number > self.settled.frontier && self.held.len() >= ROOM {
            return None;
        }
        self.settled.place_of(number)
    }

    /// Handles a DATA. The payload of a change that is ready at once is borrowed from the datagram.
    pub fn on_whole<'a>(
        &mut self,
        alloc: A,
        time: Option<Timestamp>,
        whole: &Whole<'a>,
        effects: &mut Effects<'a, A>,
    ) -> Result<(), ProxyError>
        requires { GivesNothing effects.old }
        ensures { (pairing : Pairing) →
            ReliableTakes pairing (reliable_view self.old) (reliable_view self.new)
            (match_event time (body.Whole whole.now)) (given_in effects.new result) }
    {
        let number = whole.number.get();
        let Some(at) = self.place_for(number) else {
            return Ok(());
        };
        self.settled.add_at(at, number, number + 1)?;
        give_up(&mut self.pending, &self.settled);
        // The number is below the frontier now only if it was the frontier before.
        if number >= self.settled.frontier {
            hold(&mut self.held, Change::kept(alloc, time, whole)?)?;
            return Ok(());
        }
        effects.ready.push(Change::lent(time, whole))?;
        release(&mut self.held, self.settled.frontier, &mut effects.ready)?;
        Ok(())
    }
}
