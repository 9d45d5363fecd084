//! The form of a body.

ghost use Rattle.std.specs.Prelude.{◌≡◌};

use crate::Version;
use rtps_types::Endian;

/// How the body of a sample is encoded.
#[derive(Clone, Copy, Debug, PartialEq, Eq)]
pub struct Form {
    /// The version of the representation.
    pub version: Version,
    /// The byte order of its numbers.
    pub endian: Endian,
}

impl Form {
    ghost use Rattle.dds_xcdr.specs.Topic.{form_of};

    /// Returns the form that an encapsulation kind names (DDSI-RTPS 10.2, DDS-XTypes 7.6.3.1.2):
    /// 0x0000 and 0x0001 are version 1, 0x0006 and 0x0007 version 2, and the odd ones are little
    /// endian. `None` for any other kind.
    pub fn of_kind(kind: u16) -> Option<Form>
        ensures { result ≡ form_of kind }
    {
        let (version, endian) = match kind {
            0 => (Version::One, Endian::Big),
            1 => (Version::One, Endian::Little),
            6 => (Version::Two, Endian::Big),
            7 => (Version::Two, Endian::Little),
            _ => return None,
        };
        Some(Form { version, endian })
    }
}
