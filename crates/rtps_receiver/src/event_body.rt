//! The bodies of events, by kind. Every number in them is at most 2^62.

ghost use Rattle.std.specs.Prelude.{◌≡◌, ◌^◌, ◌≤◌, true};
ghost use Rattle.rtps_types.specs.Sets.{sn_view};
ghost use Rattle.rtps_receiver.specs.EventBody.{are_taken};

use rtps_types::{Number, SnSet};
use rtps_wire::ChangeInfo;

/// The body of an event, by the kind of its submessage (DDSI-RTPS 8.3.7).
#[derive(Clone, Copy, Debug)]
pub enum EventBody<'a> {
    Whole(Whole<'a>),
    Fragment(Fragment<'a>),
    Heartbeat(Heartbeat),
    Gap(Gap),
    HeartbeatFrag(HeartbeatFrag),
}

/// A DATA: a change in one piece (DDSI-RTPS 8.3.7.2).
#[derive(Clone, Copy, Debug)]
pub struct Whole<'a> {
    pub number: Number,
    pub info: ChangeInfo,
    /// The encapsulation header and the data after it; empty if no payload was sent.
    pub payload: &'a [u8],
}

/// A DATA_FRAG: fragments of a change (DDSI-RTPS 8.3.7.3).
#[derive(Clone, Copy, Debug)]
pub struct Fragment<'a> {
    pub number: Number,
    /// The number of the first fragment, at least 1; it may be greater than that of the change's
    /// last fragment.
    pub start: u32,
    /// The number of consecutive fragments; it may be 0.
    pub count: u16,
    /// The size in octets of each fragment but the last.
    pub size: u16,
    /// The size in octets of the complete payload.
    pub sample: u32,
    pub info: ChangeInfo,
    /// The octets of the fragments; more octets may follow.
    pub payload: &'a [u8],
}

/// A HEARTBEAT: the numbers that a writer has (DDSI-RTPS 8.3.7.5).
#[derive(Clone, Copy, Debug)]
pub struct Heartbeat {
    /// The least number that the writer still has.
    pub first: Number,
    /// The greatest number that it has, or `first - 1` if it has none; at most 2^62.
    pub last: u64,
    /// Rises from one heartbeat to the next.
    pub count: i32,
    /// The writer asks for no answer.
    pub final_flag: bool,
    /// The heartbeat is sent only to show that the writer is alive.
    pub liveliness: bool,
    ghost taken: { last ≤ 2 ^ 62 },
}

/// A GAP: the numbers that are irrelevant (DDSI-RTPS 8.3.7.4). These are the numbers from `start`
/// to the base of `list`, without the base, and the members of `list`, which are at most 2^62.
#[derive(Clone, Copy, Debug)]
pub struct Gap {
    pub start: Number,
    pub list: SnSet,
    ghost taken: { are_taken (sn_view list) ≡ true },
}

/// A HEARTBEAT_FRAG: the fragments of a change that a writer has (DDSI-RTPS 8.3.7.6).
#[derive(Clone, Copy, Debug)]
pub struct HeartbeatFrag {
    pub number: Number,
    /// The number of the last fragment that it has, at least 1.
    pub last: u32,
    /// Rises from one HEARTBEAT_FRAG to the next.
    pub count: i32,
}
