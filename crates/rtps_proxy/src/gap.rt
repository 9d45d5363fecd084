//! GAP for a reliable reader (DDSI-RTPS 8.3.7.4).

ghost use Rattle.std.specs.Prelude.{◌≡◌, List, ◌||◌, ◌&&◌, ◌==◌, ℕ, nat_le, nat_lt, IfOk, OnOk, Option};
ghost use Rattle.std.specs.List.{list_any};
ghost use Rattle.rtps_types.specs.declared.time.Timestamp.{Timestamp};
ghost use Rattle.rtps_types.specs.Number.{value_of};
ghost use Rattle.rtps_types.specs.NumberSet.{members};
ghost use Rattle.rtps_types.specs.Sets.{sn_view};
ghost use Rattle.rtps_receiver.specs.declared.event_body.EventBody.TheVariants as body;
ghost use Rattle.rtps_proxy.specs.Effects.{GivesNothing, given_in, match_event};
ghost use Rattle.rtps_proxy.specs.Gap.{names};
ghost use Rattle.rtps_proxy.specs.Kept.{Pairing, reliable_view};
ghost use Rattle.rtps_proxy.specs.Runs.{marks};
ghost use Rattle.rtps_proxy.specs.Steps.{ReliableTakes};
ghost use Rattle.rtps_receiver.specs.Views.{body_view};

use crate::effects::{Effects, ProxyError};
use crate::held::release;
use crate::pending::give_up;
use crate::reliable::Reliable;
use crate::settled::Settled;
use rtps_receiver::Gap;
use std::alloc::Allocator;

impl<A: Allocator> Settled<A> {
    /// Adds the numbers that a gap names: its range as one run, then the members of its list.
    fn add_named(&mut self, gap: &Gap) -> Result<(), ProxyError>
        ensures { OnOk result ((n : ℕ) → marks self.new.frontier self.new.runs n
            ≡ (names (body_view (body.Gap gap.now)) n || marks self.old.frontier self.old.runs n)) }
    {
        self.add(gap.start.get(), gap.list.base)?;
        for member in gap.list.members() {
            self.add(member, member + 1)?;
        }
        Ok(())
    }
}

impl<A: Allocator + Copy> Reliable<A> {
    /// Handles a GAP.
    pub fn on_gap<'a>(&mut self, gap: &Gap, effects: &mut Effects<'a, A>) -> Result<(), ProxyError>
        requires { GivesNothing effects.old }
        ensures { (pairing : Pairing) (time : Option Timestamp) →
            ReliableTakes pairing (reliable_view self.old) (reliable_view self.new)
            (match_event time (body.Gap gap.now)) (given_in effects.new result) }
    {
        self.settled.add_named(gap)?;
        give_up(&mut self.pending, &self.settled);
        release(&mut self.held, self.settled.frontier, &mut effects.ready)?;
        Ok(())
    }
}
