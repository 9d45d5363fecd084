//! Submessages and their bodies, by kind (DDSI-RTPS 8.3.7, 9.4.5).

ghost use Rattle.std.specs.Prelude.{◌≡◌};
ghost use Rattle.std.specs.Option.{option_map};
ghost use Rattle.rtps_wire.specs.Submessage.{parts_of, parts_view};

use crate::data::{Data, read_data};
use crate::data_frag::{DataFrag, read_data_frag};
use crate::fields::{endian_at, get_prefix};
use crate::gap::{Gap, read_gap};
use crate::heartbeat::{Heartbeat, read_heartbeat};
use crate::heartbeat_frag::{HeartbeatFrag, read_heartbeat_frag};
use crate::info_src::{InfoSource, read_info_src};
use crate::info_ts::read_info_ts;
use crate::kinds::{
    DATA, DATA_FRAG, GAP, HEARTBEAT, HEARTBEAT_FRAG, INFO_DST, INFO_SRC, INFO_TS, PAD,
};
use rtps_types::{GuidPrefix, Timestamp};

/// A valid submessage, whose payload is borrowed from the datagram (DDSI-RTPS 8.3.4).
#[derive(Clone, Copy, Debug)]
pub struct Submessage<'a> {
    /// Its kind (DDSI-RTPS 9.4.5.1.1).
    pub id: u8,
    /// The flags; flag E is the lowest bit.
    pub flags: u8,
    pub parts: Parts<'a>,
}

/// The contents of a submessage, by its kind (DDSI-RTPS 8.3.7).
#[derive(Clone, Copy, Debug)]
pub enum Parts<'a> {
    /// No contents (8.3.7.12).
    Pad,
    Heartbeat(Heartbeat),
    Gap(Gap),
    /// The timestamp of the submessages after it, or none.
    InfoTimestamp(Option<Timestamp>),
    /// The source of the submessages after it.
    InfoSource(InfoSource),
    /// The destination of the submessages after it (8.3.7.7); all zeros stand for every
    /// participant.
    InfoDestination(GuidPrefix),
    HeartbeatFrag(HeartbeatFrag),
    Data(Data<'a>),
    DataFrag(DataFrag<'a>),
    /// A kind that isn't read: ACKNACK, NACK_FRAG, INFO_REPLY, INFO_REPLY_IP4 and unknown kinds.
    Skipped,
}

/// Why reading stops before the end of a message (DDSI-RTPS 8.3.4.1).
#[derive(Clone, Copy, Debug, PartialEq, Eq)]
pub enum SubmessageFault {
    /// One to three octets are left, which are too few for a submessage header.
    Rest,
    /// A submessage's length is greater than the number of octets left.
    Length,
    /// A body is invalid for its kind.
    Invalid,
}

/// Returns the contents of a body, or `None` if it is invalid for its kind.
#[tactic(auto, unfolding(crate::specs::Submessage::parts_of))]
pub(crate) fn read_parts(id: u8, flags: u8, body: &[u8]) -> Option<Parts<'_>>
    ensures { option_map parts_view result ≡ parts_of id flags body.now }
{
    let endian = endian_at(flags);
    Some(match id {
        PAD => Parts::Pad,
        HEARTBEAT => Parts::Heartbeat(read_heartbeat(flags, endian, body)?),
        GAP => Parts::Gap(read_gap(endian, body)?),
        INFO_TS => Parts::InfoTimestamp(read_info_ts(flags, endian, body)?),
        INFO_SRC => Parts::InfoSource(read_info_src(body)?),
        INFO_DST => Parts::InfoDestination(get_prefix(body, 0)?),
        HEARTBEAT_FRAG => Parts::HeartbeatFrag(read_heartbeat_frag(endian, body)?),
        DATA => Parts::Data(read_data(flags, endian, body)?),
        DATA_FRAG => Parts::DataFrag(read_data_frag(flags, endian, body)?),
        _ => Parts::Skipped,
    })
}
