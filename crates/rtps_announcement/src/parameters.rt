//! Parameter lists that are written (DDSI-RTPS 9.4.2.11).

ghost use Rattle.std.specs.Prelude.{◌≡◌, ◌^◌, ◌<◌, ◌++◌, length, OnOk};
ghost use Rattle.rtps_announcement.specs.Parameters.{parameter, parameter_octets};

use crate::fields::push_u16;
use std::alloc::{AllocError, Allocator};

/// The encapsulation of a payload that is a little-endian parameter list: `PL_CDR_LE`, and no
/// options (DDSI-RTPS 10.2.1.2).
pub(crate) const PL_CDR_LE: [u8; 4] = [0x00, 0x03, 0x00, 0x00];

/// `PID_SENTINEL`, the end of a list, which has no value.
pub(crate) const LIST_END: [u8; 4] = [0x01, 0x00, 0x00, 0x00];

/// Appends a parameter. An error is a refused growth.
pub(crate) fn push_parameter<A: Allocator>(
    octets: &mut Vec<u8, A>,
    id: u16,
    value: &[u8],
) -> Result<(), AllocError>
    requires { length value.now < 2 ^ 16 }
    ensures { OnOk result (octets.new.items
        ≡ octets.old.items ++ parameter_octets (parameter id value.now)) }
{
    push_u16(octets, id)?;
    push_u16(octets, value.len() as u16)?;
    octets.extend_from_slice(value)
}
