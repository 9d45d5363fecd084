//! The events of a datagram, in order.

ghost use Rattle.std.specs.Prelude.{◌≡◌, ◌+◌, ◌≤◌, List, length};
ghost use Rattle.std.specs.Iterator.{YieldsFirstBy, item_count};
ghost use Rattle.rtps_receiver.specs.Events.{EventView, events_of, view};
ghost use Rattle.rtps_wire.specs.Reading.{reading};
ghost use Rattle.rtps_receiver.specs.Running.{events_left, first_context};

use crate::context::{Context, next_place};
use crate::event::Event;
use rtps_types::{GuidPrefix, Place};
use rtps_wire::{header, read_front};
use std::marker::Model;

/// The number of octets of a message header.
const HEADER: usize = 20;

/// An iterator over the events of one datagram, in order (DDSI-RTPS 8.3.4). An event is a valid
/// submessage of a kind that readers handle (DATA, DATA_FRAG, HEARTBEAT, GAP, HEARTBEAT_FRAG), if
/// its destination is this participant and it names no number above 2^62.
///
/// No memory is taken: payloads are borrowed from the datagram.
///
/// ```text
/// for event in Events::new(own, 0, octets) {
///     if let EventBody::Whole(whole) = event.body {
///         // The writer event.writer of the participant event.source sent the change with the
///         // number whole.number and the payload whole.payload.
///     }
/// }
/// ```
#[derive(Drop)]
pub struct Events<'a> {
    /// The octets of the submessages that are left.
    rest: &'a [u8],
    context: Context,
    /// The place of the last submessage that was read.
    place: Place,
}

impl<'a> Model for Events<'a> {
    ghost Value = { List EventView };

    ghost view = { λ e. events_left e.context e.place (reading e.rest.now).items };

    ghost invariant = { λ e. e.place.submessage + length e.rest.now ≤ 65507 };
}

impl<'a> Events<'a> {
    /// Returns the events of a datagram of at most 65,507 octets, as the participant `own` receives
    /// it. `index` is the datagram's index in the run, counted from 0. A datagram with a bad header
    /// has no events, and what follows the first invalid submessage is ignored.
    pub fn new(own: GuidPrefix, index: u64, octets: &'a [u8]) -> Events<'a>
        requires { length octets.now ≤ 65507 }
        ensures { result ≡ events_of own index octets.now }
    {
        match header(octets) {
            Ok(header) => Events::of_rest(own, header.prefix, index, &octets[HEADER..]),
            Err(_) => Events::of_rest(own, own, index, &[]),
        }
    }

    /// Returns the events of the submessages in `octets`, in a datagram from `source`.
    fn of_rest(own: GuidPrefix, source: GuidPrefix, index: u64, octets: &'a [u8]) -> Events<'a>
        requires { length octets.now ≤ 65507 }
        ensures { result ≡ events_left (first_context own source)
            (record { datagram = index; submessage = 0 }) (reading octets.now).items }
    {
        Events {
            rest: octets,
            context: Context::new(own, source),
            place: Place {
                datagram: index,
                submessage: 0,
            },
        }
    }
}

impl<'a> Iterator for Events<'a> {
    type Item = Event<'a>;

    ghost next_gives = { YieldsFirstBy view (λ left. left) };

    ghost remaining = { item_count (λ left. left) };

    fn next(&mut self) -> Option<Event<'a>> {
        while let Ok(Some(raw)) = read_front(self.rest) {
            let place = next_place(self.place);
            let event = self.context.take(place, &raw)?.ok();
            self.place = place;
            self.rest = raw.rest;
            if event.is_some() {
                return event;
            }
        }
        None
    }
}
