//! The header of a submessage without its body (DDSI-RTPS 9.4.5.1). It says where the next
//! submessage begins, and so which one it is at which reading stops; bodies aren't read here.

ghost use Rattle.std.specs.Prelude.{◌≡◌};
ghost use Rattle.std.specs.Option.{option_map};
ghost use Rattle.rtps_wire.specs.Fields.{endian_of};
ghost use Rattle.rtps_explain.specs.Frame.{after_frame, frame_of, frame_view, length_of};

use rtps_types::{Endian, get_u16};

/// With a length of 0 a PAD is empty, and doesn't run to the end of the message (9.4.5.1.3).
const PAD: u8 = 0x01;

/// And so is an INFO_TS.
const INFO_TS: u8 = 0x09;

/// The header of a submessage, and the octets after it.
#[derive(Clone, Copy)]
pub(crate) struct Frame<'a> {
    pub id: u8,
    pub flags: u8,
    /// The length that the header states.
    pub stated: u16,
    pub rest: &'a [u8],
}

/// Returns the byte order of a submessage's numbers.
fn endian(flags: u8) -> Endian
    ensures { result ≡ endian_of flags }
{
    if flags & 1 != 0 {
        Endian::Little
    } else {
        Endian::Big
    }
}

/// Returns the header in the first four octets, or `None` if there are fewer.
#[tactic(auto, unfolding(crate::specs::Frame::frame_of))]
pub(crate) fn read_frame(octets: &[u8]) -> Option<Frame<'_>>
    ensures { option_map frame_view result ≡ frame_of octets.now }
{
    let [id, flags, _, _, rest @ ..] = octets else {
        return None;
    };
    let stated = get_u16(octets, 2, endian(*flags))?;
    Some(Frame {
        id: *id,
        flags: *flags,
        stated,
        rest,
    })
}

impl<'a> Frame<'a> {
    /// Returns the length of the body.
    pub(crate) fn length(&self) -> usize
        ensures { result ≡ length_of (frame_view self.now) }
    {
        match self.stated {
            0 if self.id != PAD && self.id != INFO_TS => self.rest.len(),
            stated => usize::from(stated),
        }
    }
}

/// Returns the octets after the first submessage; none if there is no whole one.
pub(crate) fn after_first(octets: &[u8]) -> &[u8]
    ensures { result.now ≡ after_frame (frame_of octets.now) }
{
    match read_frame(octets) {
        Some(frame) => frame.rest.get(frame.length()..).unwrap_or(&[]),
        None => &[],
    }
}
