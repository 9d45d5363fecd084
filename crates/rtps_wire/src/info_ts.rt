//! INFO_TS: the timestamp of the submessages after it (DDSI-RTPS 8.3.7.10, 9.4.5.11).

ghost use Rattle.std.specs.Prelude.{◌≡◌};
ghost use Rattle.rtps_wire.specs.Info.{time_of};

use crate::kinds::INFO_TS_INVALIDATE;
use rtps_types::{Endian, Timestamp, get_u32};

/// Returns the timestamp of an INFO_TS, which has none with flag I, or `None` if the body is
/// invalid.
pub(crate) fn read_info_ts(flags: u8, endian: Endian, body: &[u8]) -> Option<Option<Timestamp>>
    ensures { result ≡ time_of flags endian body.now }
{
    if flags & INFO_TS_INVALIDATE != 0 {
        return Some(None);
    }
    let seconds = get_u32(body, 0, endian)?;
    let fraction = get_u32(body, 4, endian)?;
    Some(Some(Timestamp { seconds, fraction }))
}
