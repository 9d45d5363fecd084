//! Submessages before their bodies are read (DDSI-RTPS 8.3.4.1, 9.4.5.1).

ghost use Rattle.std.specs.Prelude.{◌≡◌, ◌<◌, IfOk, IfSome, length};
ghost use Rattle.std.specs.Option.{option_map};
ghost use Rattle.rtps_wire.specs.Data.{data_of, data_view};
ghost use Rattle.rtps_wire.specs.DataFrag.{data_frag_of, frag_view};
ghost use Rattle.rtps_wire.specs.Fields.{endian_of, prefix_at};
ghost use Rattle.rtps_wire.specs.Gap.{gap_of, gap_view};
ghost use Rattle.rtps_wire.specs.Heartbeat.{heartbeat_of};
ghost use Rattle.rtps_wire.specs.HeartbeatFrag.{heartbeat_frag_of};
ghost use Rattle.rtps_wire.specs.Info.{source_of, time_of};
ghost use Rattle.rtps_wire.specs.Reading.{raw_front, raw_seen, reading, reading_from};
ghost use Rattle.rtps_wire.specs.Submessage.{parts_of, parts_view};

use crate::data::{Data, read_data};
use crate::data_frag::{DataFrag, read_data_frag};
use crate::fields::{endian_at, get_prefix};
use crate::gap::{Gap, read_gap};
use crate::heartbeat::{Heartbeat, read_heartbeat};
use crate::heartbeat_frag::{HeartbeatFrag, read_heartbeat_frag};
use crate::info_src::{InfoSource, read_info_src};
use crate::info_ts::read_info_ts;
use crate::kinds::{INFO_TS, PAD};
use crate::submessage::{Parts, SubmessageFault, read_parts};
use rtps_types::{GuidPrefix, Timestamp, get_u16};

/// A submessage whose body isn't read yet, and may be invalid for its kind. It is for who reads only
/// some kinds, and each straight into a type of its own: [`Submessage`](crate::Submessage) is moved
/// as a whole, whatever its kind.
///
/// A function that reads a body returns `None` where it is invalid for that kind, and doesn't look
/// at `id`.
#[derive(Clone, Copy, Debug)]
pub struct RawSubmessage<'a> {
    /// Its kind (DDSI-RTPS 9.4.5.1.1), one of those in [`kinds`](crate::kinds) where it is read.
    pub id: u8,
    /// The flags; flag E is the lowest bit.
    pub flags: u8,
    /// The octets after the header of the submessage, by its length.
    pub body: &'a [u8],
    /// The octets after the submessage.
    pub rest: &'a [u8],
}

impl<'a> RawSubmessage<'a> {
    /// Reads the body by `id`.
    #[inline]
    pub fn parts(&self) -> Option<Parts<'a>>
        ensures { option_map parts_view result
            ≡ parts_of self.now.id self.now.flags self.now.body.now }
    {
        read_parts(self.id, self.flags, self.body)
    }

    /// Reads the body of a DATA (DDSI-RTPS 8.3.7.2).
    #[inline]
    pub fn data(&self) -> Option<Data<'a>>
        ensures { option_map data_view result
            ≡ data_of self.now.flags (endian_of self.now.flags) self.now.body.now }
    {
        read_data(self.flags, endian_at(self.flags), self.body)
    }

    /// Reads the body of a DATA_FRAG (DDSI-RTPS 8.3.7.3).
    #[inline]
    pub fn data_frag(&self) -> Option<DataFrag<'a>>
        ensures { option_map frag_view result
            ≡ data_frag_of self.now.flags (endian_of self.now.flags) self.now.body.now }
    {
        read_data_frag(self.flags, endian_at(self.flags), self.body)
    }

    /// Reads the body of a HEARTBEAT (DDSI-RTPS 8.3.7.5).
    #[inline]
    pub fn heartbeat(&self) -> Option<Heartbeat>
        ensures { result
            ≡ heartbeat_of self.now.flags (endian_of self.now.flags) self.now.body.now }
    {
        read_heartbeat(self.flags, endian_at(self.flags), self.body)
    }

    /// Reads the body of a GAP (DDSI-RTPS 8.3.7.4).
    #[inline]
    pub fn gap(&self) -> Option<Gap>
        ensures { option_map gap_view result
            ≡ gap_of (endian_of self.now.flags) self.now.body.now }
    {
        read_gap(endian_at(self.flags), self.body)
    }

    /// Reads the body of a HEARTBEAT_FRAG (DDSI-RTPS 8.3.7.6).
    #[inline]
    pub fn heartbeat_frag(&self) -> Option<HeartbeatFrag>
        ensures { result
            ≡ heartbeat_frag_of (endian_of self.now.flags) self.now.body.now }
    {
        read_heartbeat_frag(endian_at(self.flags), self.body)
    }

    /// Reads the body of an INFO_TS: the timestamp of the submessages after it, or none (DDSI-RTPS
    /// 8.3.7.10).
    #[inline]
    pub fn info_timestamp(&self) -> Option<Option<Timestamp>>
        ensures { result
            ≡ time_of self.now.flags (endian_of self.now.flags) self.now.body.now }
    {
        read_info_ts(self.flags, endian_at(self.flags), self.body)
    }

    /// Reads the body of an INFO_SRC: the source of the submessages after it (DDSI-RTPS 8.3.7.9).
    #[inline]
    pub fn info_source(&self) -> Option<InfoSource>
        ensures { result ≡ source_of self.now.body.now }
    {
        read_info_src(self.body)
    }

    /// Reads the body of an INFO_DST: the destination of the submessages after it; all zeros stand
    /// for every participant (DDSI-RTPS 8.3.7.7).
    #[inline]
    pub fn info_destination(&self) -> Option<GuidPrefix>
        ensures { result ≡ prefix_at self.now.body.now 0 }
    {
        get_prefix(self.body, 0)
    }
}

/// Returns the submessage at the front of the octets after a message's header, before its body is
/// read, or `None` if there are none; `Rest` where fewer than four are left, and `Length` where the
/// submessage is longer than what is left (DDSI-RTPS 8.3.4.1, 9.4.5.1). `Invalid` is left to who
/// reads the body: the message is read up to the first body that is invalid for its kind.
#[inline]
#[tactic(auto, using(crate::proofs::Steps::reading_with))]
pub fn read_front(octets: &[u8]) -> Result<Option<RawSubmessage<'_>>, SubmessageFault>
    ensures front { raw_seen result ≡ raw_front octets.now }
    // The reading of the octets is this submessage, if its body is valid, and then what follows it.
    ensures reading { reading octets.now ≡ reading_from (raw_seen result) }
    ensures shorter { IfOk result (λ front. IfSome front (λ raw.
        length raw.rest.now < length octets.now)) }
{
    split_front(octets)
}

/// Splits the submessage at the front from the octets after it.
#[inline]
#[tactic(auto, unfolding(crate::specs::Reading::raw_front))]
fn split_front(octets: &[u8]) -> Result<Option<RawSubmessage<'_>>, SubmessageFault>
    ensures front { raw_seen result ≡ raw_front octets.now }
    ensures shorter { IfOk result (λ front. IfSome front (λ raw.
        length raw.rest.now < length octets.now)) }
{
    let [id, flags, _, _, others @ ..] = octets else {
        return if octets.is_empty() {
            Ok(None)
        } else {
            Err(SubmessageFault::Rest)
        };
    };
    let (id, flags) = (*id, *flags);
    let Some(length) = get_u16(octets, 2, endian_at(flags)) else {
        return Err(SubmessageFault::Rest);
    };
    let length = match length {
        0 if id != PAD && id != INFO_TS => others.len(),
        stated => usize::from(stated),
    };
    if others.len() < length {
        return Err(SubmessageFault::Length);
    }
    let (body, rest) = others.split_at(length);
    Ok(Some(RawSubmessage {
        id,
        flags,
        body,
        rest,
    }))
}
