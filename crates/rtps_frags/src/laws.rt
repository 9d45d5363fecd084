//! Laws about fragments.

ghost use Rattle.rtps_frags.specs.Payload.{AnyOrderGivesThePayload};

/// Fragments of one payload give that payload, in any order and with any repetitions.
pub fn any_order_gives_the_payload()
    ensures { AnyOrderGivesThePayload }
{}
