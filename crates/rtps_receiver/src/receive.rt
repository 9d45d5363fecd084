//! From octets to events.

ghost use Rattle.std.specs.Prelude.{◌≡◌, ◌≤◌, ◌++◌, length, map, take, IfOk, OnErr, OnOk};
ghost use Rattle.rtps_receiver.specs.Counters.{all_noted, counted, ended};
ghost use Rattle.rtps_receiver.specs.Events.{events_of, view};
ghost use Rattle.rtps_receiver.specs.Outcomes.{events_among};

use crate::counters::Counters;
use crate::event::Event;
use crate::outcomes::Outcomes;
use rtps_types::GuidPrefix;
use std::alloc::{AllocError, Allocator};

/// Why the events of a datagram could not be listed: the allocator refused a growth.
pub type ReceiverError = AllocError;

/// Appends the events of one datagram, as [`events`] lists them, and counts the datagram and its
/// submessages. A refused growth leaves `events` and `counters` as they were.
///
/// Payloads are borrowed from the datagram, which has at most 65,507 octets.
pub fn add_events<'a, A: Allocator>(
    events: &mut Vec<Event<'a>, A>,
    counters: &mut Counters,
    own: GuidPrefix,
    index: u64,
    octets: &'a [u8],
) -> Result<(), ReceiverError>
    requires { length octets.now ≤ 65507 }
    ensures added { OnOk result (map view events.new.items
        ≡ map view events.old.items ++ events_of own index octets.now) }
    ensures counted { OnOk result (counters.new ≡ counted own octets.now counters.old) }
    ensures same { OnErr result (events.new.items ≡ events.old.items) }
    ensures uncounted { OnErr result (counters.new ≡ counters.old) }
{
    let (before, counted) = (events.len(), *counters);
    counters.begin();
    let mut outcomes = match Outcomes::new(own, index, octets) {
        Ok(outcomes) => outcomes,
        Err(fault) => {
            counters.refuse(fault);
            return Ok(());
        }
    };
    match add_outcomes(events, counters, &mut outcomes) {
        Ok(()) => Ok(()),
        Err(refused) => {
            events.truncate(before);
            *counters = counted;
            Err(refused)
        }
    }
}

/// Appends the events among these outcomes, and counts each outcome and the fault after them.
fn add_outcomes<'a, A: Allocator>(
    events: &mut Vec<Event<'a>, A>,
    counters: &mut Counters,
    outcomes: &mut Outcomes<'a>,
) -> Result<(), AllocError>
    ensures added { OnOk result (map view events.new.items
        ≡ map view events.old.items ++ events_among outcomes.old.left) }
    ensures counted { OnOk result (counters.new
        ≡ ended outcomes.old.fault (all_noted outcomes.old.left counters.old)) }
    ensures front { take (length events.old.items) events.new.items ≡ events.old.items }
{
    while let Some(outcome) = outcomes.next_event() {
        counters.note(&outcome);
        if let Ok(event) = outcome {
            events.push(event)?;
        }
    }
    counters.end(outcomes.fault());
    Ok(())
}

/// Returns the events of one datagram, in order (DDSI-RTPS 8.3.4). An event is a valid submessage
/// of a kind that readers handle (DATA, DATA_FRAG, HEARTBEAT, GAP, HEARTBEAT_FRAG), if its
/// destination is the participant `own` and it names no number above 2^62. `index` is the
/// datagram's index in the run, counted from 0. A datagram with a bad header has no events, and
/// what follows the first invalid submessage is ignored. An error is a refused growth.
///
/// Payloads are borrowed from the datagram, which has at most 65,507 octets.
pub fn events<A: Allocator>(
    alloc: A,
    own: GuidPrefix,
    index: u64,
    octets: &[u8],
) -> Result<Vec<Event<'_>, A>, ReceiverError>
    requires { length octets.now ≤ 65507 }
    ensures { IfOk result (λ events. map view events.items ≡ events_of own index octets.now) }
{
    let mut events = Vec::new(alloc);
    add_events(&mut events, &mut Counters::new(), own, index, octets)?;
    Ok(events)
}
