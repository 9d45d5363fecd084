//! The outcomes of a datagram's submessages, in order.

ghost use Rattle.std.specs.Prelude.{◌≡◌, ◌+◌, ◌≤◌, List, [], ◌∷◌, Ok, length};
ghost use Rattle.std.specs.Iterator.{item_count};
ghost use Rattle.std.specs.Result.{result_map_both};
ghost use Rattle.rtps_wire.specs.Reading.{reading};
ghost use Rattle.rtps_receiver.specs.Outcomes.{OutcomeView, OutcomesView, Yields, YieldsEvent, outcomes_of};
ghost use Rattle.rtps_receiver.specs.Running.{first_context, outcomes_left};

use crate::context::{Context, next_place};
use crate::event::Event;
use crate::outcome::{Outcome, Reason};
use rtps_types::{GuidPrefix, Place};
use rtps_wire::{HeaderFault, Submessage, SubmessageFault, Submessages, header, read_front};
use std::marker::Model;

/// The number of octets of a message header.
const HEADER: usize = 20;

/// An iterator over the outcomes of a datagram's valid submessages, in order, up to the first
/// invalid one (DDSI-RTPS 8.3.4.1). No memory is taken: payloads are borrowed from the datagram.
#[derive(Drop)]
pub struct Outcomes<'a> {
    /// The octets of the submessages that are left.
    rest: &'a [u8],
    context: Context,
    /// The place of the last submessage that was read.
    place: Place,
}

impl<'a> Model for Outcomes<'a> {
    ghost Value = { OutcomesView };

    ghost view = { λ o. record {
      left = outcomes_left o.context o.place (reading o.rest.now).items;
      fault = (reading o.rest.now).fault;
    } };

    ghost invariant = { λ o. o.place.submessage + length o.rest.now ≤ 65507 };
}

impl<'a> Outcomes<'a> {
    /// Returns the outcomes of a datagram of at most 65,507 octets, as the participant `own`
    /// receives it, or why it is no message. `index` is the datagram's index in the run, counted
    /// from 0.
    pub fn new(own: GuidPrefix, index: u64, octets: &'a [u8]) -> Result<Outcomes<'a>, HeaderFault>
        requires { length octets.now ≤ 65507 }
        ensures { result_map_both (λ o. o) (λ f. f) result ≡ outcomes_of own index octets.now }
    {
        match header(octets) {
            Ok(header) => Ok(Outcomes::of_rest(own, header.prefix, index, &octets[HEADER..])),
            Err(fault) => Err(fault),
        }
    }

    /// Returns the outcomes of the submessages in `octets`, in a datagram from `source`.
    fn of_rest(own: GuidPrefix, source: GuidPrefix, index: u64, octets: &'a [u8]) -> Outcomes<'a>
        requires { length octets.now ≤ 65507 }
        ensures { result ≡ record {
          left = outcomes_left (first_context own source)
              (record { datagram = index; submessage = 0 }) (reading octets.now).items;
          fault = (reading octets.now).fault;
        } }
    {
        Outcomes {
            rest: octets,
            context: Context::new(own, source),
            place: Place {
                datagram: index,
                submessage: 0,
            },
        }
    }

    /// Returns why reading stopped, or `None` if it reached the end. It is meant to be called once
    /// `next` has returned `None`: before that it returns `None`.
    pub fn fault(&self) -> Option<SubmessageFault>
        ensures ended { self.now.left ≡ [] → result ≡ self.now.fault }
        ensures before { (next : OutcomeView) (others : List OutcomeView) →
            self.now.left ≡ next ∷ others → result ≡ None }
    {
        Submessages::new(self.rest).fault()
    }

    /// As `next`, for who needs the event alone: the submessage is read straight into it.
    pub(crate) fn next_event(&mut self) -> Option<Result<Event<'a>, Reason>>
        ensures { YieldsEvent self.old result self.new }
    {
        let raw = read_front(self.rest).ok()??;
        let place = next_place(self.place);
        let event = self.context.take(place, &raw)?;
        self.place = place;
        self.rest = raw.rest;
        Some(event)
    }
}

impl<'a> Iterator for Outcomes<'a> {
    type Item = Outcome<'a>;

    ghost next_gives = { Yields };

    ghost remaining = { item_count (λ o. o.left) };

    fn next(&mut self) -> Option<Outcome<'a>> {
        let raw = read_front(self.rest).ok()??;
        let parts = raw.parts()?;
        let place = next_place(self.place);
        let event = self.context.take(place, &raw)?;
        self.place = place;
        self.rest = raw.rest;
        Some(Outcome {
            place,
            submessage: Submessage {
                id: raw.id,
                flags: raw.flags,
                parts,
            },
            event,
        })
    }
}
