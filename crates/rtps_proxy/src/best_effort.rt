//! The state that a best-effort reader keeps for one writer (DDSI-RTPS 8.4.12.1).

ghost use Rattle.std.specs.Prelude.{◌≡◌, ◌<◌, [], ◌∷◌, None, map, true, OnOk};
ghost use Rattle.rtps_types.specs.Number.{value_of};
ghost use Rattle.rtps_proxy.specs.BestEffort.{above, skipped};
ghost use Rattle.rtps_proxy.specs.Change.{change_view};
ghost use Rattle.rtps_proxy.specs.Effects.{BestEffortStandsAt, GivesNothing, given_in, match_event};
ghost use Rattle.rtps_proxy.specs.Kept.{best_effort_view, best_effort_first};
ghost use Rattle.rtps_proxy.specs.Pending.{are_sound, pending_views};
ghost use Rattle.rtps_proxy.specs.Steps.{BestEffortTakes};

use crate::change::Change;
use crate::effects::{Effects, ProxyError};
use crate::pending::{Pending, give_up_to};
use rtps_receiver::EventBody;
use rtps_types::Timestamp;
use std::alloc::Allocator;

/// The greatest number received, and the samples with missing fragments.
#[derive(Drop)]
pub(crate) struct BestEffort<A: Allocator> {
    /// The greatest number of a change that was received; 0 before the first.
    pub top: u64,
    /// The samples above `top` with missing fragments, in order of their numbers.
    pub pending: Vec<Pending<A>, A>,
}

impl<A: Allocator + Copy> BestEffort<A> {
    /// Returns the state before the first event.
    pub fn new(alloc: A) -> BestEffort<A>
        ensures { best_effort_view result ≡ best_effort_first }
    {
        BestEffort {
            top: 0,
            pending: Vec::new(alloc),
        }
    }

    /// Handles an event, and writes its effects into `effects`. Everything but DATA and DATA_FRAG
    /// is ignored.
    pub fn on_event<'a>(
        &mut self,
        alloc: A,
        time: Option<Timestamp>,
        brought: &EventBody<'a>,
        effects: &mut Effects<'a, A>,
    ) -> Result<(), ProxyError>
        requires { GivesNothing effects.old }
        ensures { BestEffortTakes (best_effort_view self.old) (best_effort_view self.new)
            (match_event time brought.now) (given_in effects.new result) }
    {
        match brought {
            EventBody::Whole(whole) => self.on_whole(time, whole, effects),
            EventBody::Fragment(fragment) => self.on_fragment(alloc, time, fragment, effects),
            _ => Ok(()),
        }
    }

    /// Receives a change whose number is above `top`: it is ready, and all samples up to it are
    /// dropped. The numbers that it skips are lost; before the first change no number is lost.
    pub fn receive<'a>(
        &mut self,
        change: Change<'a, A>,
        effects: &mut Effects<'a, A>,
    ) -> Result<(), ProxyError>
        requires above { self.old.top < value_of change.number }
        requires nothing { GivesNothing effects.old }
        ensures top { OnOk result (self.new.top ≡ value_of change.entry.number) }
        ensures pending { OnOk result (pending_views self.new.pending.items
            ≡ above (value_of change.entry.number) (pending_views self.old.pending.items)) }
        ensures sound { are_sound self.old.pending.items ≡ true →
            OnOk result (are_sound self.new.pending.items ≡ true) }
        ensures lost { OnOk result
            (effects.new.lost ≡ skipped self.old.top (change_view change.entry ∷ [])) }
        ensures ready { OnOk result
            (map change_view effects.new.ready.items ≡ change_view change.entry ∷ []) }
        ensures answer { OnOk result (effects.new.answer ≡ None) }
    {
        let number = change.number.get();
        let lost = if self.top == 0 {
            0
        } else {
            number - self.top - 1
        };
        self.top = number;
        give_up_to(&mut self.pending, number);
        effects.lost = lost;
        effects.ready.push(change)?;
        Ok(())
    }
}
