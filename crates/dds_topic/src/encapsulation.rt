//! Encapsulation kinds that are decoded.

ghost use Rattle.std.specs.Prelude.{◌≡◌};
ghost use Rattle.dds_topic.specs.Encapsulation.{order_by};

use crate::Unread;
use rtps_types::Endian;

/// Returns the byte order of a body with this encapsulation kind (DDSI-RTPS 10.2).
///
/// The error is `Encapsulation` for every kind but 0, CDR_BE, and 1, CDR_LE.
pub fn byte_order(kind: u16) -> Result<Endian, Unread>
    ensures { result ≡ order_by kind }
{
    match kind {
        0 => Ok(Endian::Big),
        1 => Ok(Endian::Little),
        _ => Err(Unread::Encapsulation),
    }
}
