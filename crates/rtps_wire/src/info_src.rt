//! INFO_SRC: the source of the submessages after it (DDSI-RTPS 8.3.7.9, 9.4.5.10).

ghost use Rattle.std.specs.Prelude.{◌≡◌};
ghost use Rattle.rtps_wire.specs.Info.{source_of};

use crate::fields::get_prefix;
use rtps_types::{GuidPrefix, get_octets};

/// The fields of an INFO_SRC (DDSI-RTPS 8.3.7.9, 9.4.5.10). Its version and vendor aren't checked.
#[derive(Clone, Copy, Debug, PartialEq, Eq)]
pub struct InfoSource {
    pub version: [u8; 2],
    pub vendor: [u8; 2],
    pub prefix: GuidPrefix,
}

/// Returns the fields of an INFO_SRC, or `None` if the body is invalid.
pub(crate) fn read_info_src(body: &[u8]) -> Option<InfoSource>
    ensures { result ≡ source_of body.now }
{
    let version = get_octets(body, 4)?;
    let vendor = get_octets(body, 6)?;
    let prefix = get_prefix(body, 8)?;
    Some(InfoSource {
        version,
        vendor,
        prefix,
    })
}
