//! The header of a message, its first 20 octets (DDSI-RTPS 8.3.3, 9.4.4).

ghost use Rattle.std.specs.Prelude.{◌≡◌};
ghost use Rattle.rtps_wire.specs.MessageHeader.{header_of};

use rtps_types::{GuidPrefix, get_octets};

/// The header of a message: protocol version, vendor and sender (DDSI-RTPS 8.3.3, 9.4.4).
#[derive(Clone, Copy, Debug, PartialEq, Eq)]
pub struct Header {
    /// The major version, which is 2, and the minor version.
    pub version: [u8; 2],
    /// The vendor of the sender's implementation; any vendor is accepted.
    pub vendor: [u8; 2],
    /// The participant that sent the message.
    pub prefix: GuidPrefix,
}

/// Why octets are no message. If several apply, the first in this order is reported.
#[derive(Clone, Copy, Debug, PartialEq, Eq)]
pub enum HeaderFault {
    /// There are fewer than 20 octets.
    Short,
    /// They don't begin with `RTPS`.
    NotRtps,
    /// The major version isn't 2.
    Version,
}

/// Returns the header in the first 20 octets of a message, or its first fault (DDSI-RTPS 8.3.3). No
/// memory is taken.
pub fn read_header(octets: &[u8]) -> Result<Header, HeaderFault>
    ensures { result ≡ header_of octets.now }
{
    let (Some(version), Some(vendor), Some(prefix)) = (
        get_octets(octets, 4),
        get_octets(octets, 6),
        get_octets(octets, 8),
    ) else {
        return Err(HeaderFault::Short);
    };
    if !octets.starts_with(b"RTPS") {
        return Err(HeaderFault::NotRtps);
    }
    if octets[4] != 2 {
        return Err(HeaderFault::Version);
    }
    Ok(Header {
        version,
        vendor,
        prefix: GuidPrefix(prefix),
    })
}
