//! Counting the submessages of a datagram.

ghost use Rattle.std.specs.Prelude.{◌≡◌, ◌≤◌, length};
ghost use Rattle.rtps_receiver.specs.Counters.{all_noted, counted, ended};

use rtps_receiver::{Counters, Outcomes};
use rtps_types::GuidPrefix;

/// Counts a datagram of at most 65,507 octets and its submessages.
pub(crate) fn count(counters: &mut Counters, own: GuidPrefix, octets: &[u8])
    requires { length octets.now ≤ 65507 }
    ensures { counters.new ≡ counted own octets.now counters.old }
{
    counters.begin();
    match Outcomes::new(own, 0, octets) {
        Ok(outcomes) => count_outcomes(counters, outcomes),
        Err(fault) => counters.refuse(fault),
    }
}

/// Counts valid submessages, and why the message isn't read to its end, if it isn't.
fn count_outcomes(counters: &mut Counters, mut outcomes: Outcomes<'_>)
    ensures { counters.new
        ≡ ended outcomes.entry.fault (all_noted outcomes.entry.left counters.old) }
{
    while let Some(outcome) = outcomes.next() {
        counters.note(&outcome.event);
    }
    counters.end(outcomes.fault());
}
