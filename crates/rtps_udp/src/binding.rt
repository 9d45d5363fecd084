//! Where a participant's sockets are bound.

ghost use Rattle.std.specs.Prelude.{◌≡◌, ◌+◌, ◌*◌, ◌≤◌};
ghost use Rattle.std.specs.Net.Addr.{ipv4_octets};
ghost use Rattle.rtps_udp.specs.Addresses.{last_index as last_index_of, localhost};

use std::net::Ipv4Addr;

/// Where the sockets of a participant are bound: at its two default ports of an address, by its
/// domain and its index (DDSI-RTPS 9.6.1.1). Both ports are numbers of 16 bits.
#[derive(Clone, Copy, Debug, PartialEq, Eq)]
pub struct Binding {
    /// The domain, 0 to 232.
    pub domain: u16,
    /// The index of the participant among those of its domain on this machine, 0 for the first.
    pub participant: u8,
    /// The address: one of this machine, or 0.0.0.0 for all of them.
    pub address: Ipv4Addr,
    ghost domained: { domain ≤ 232 },
    ghost fits: { 7411 + 250 * domain + 2 * participant ≤ 65535 },
}

impl Binding {
    /// Returns the binding of a domain's first participant on the loopback interface, 127.0.0.1,
    /// where no other machine reaches it.
    pub fn loopback(domain: u16) -> Binding
        requires { domain ≤ 232 }
        ensures domain { result.domain ≡ domain }
        ensures participant { result.participant ≡ 0 }
        ensures address { result.address ≡ localhost }
    {
        Binding {
            domain,
            participant: 0,
            address: Ipv4Addr::LOCALHOST,
        }
    }
}

/// Returns the last index of a participant in a domain, 0 to 232: 119, or 62 in domain 232. Both of
/// its ports are numbers of 16 bits, and neither is one of the next domain (DDSI-RTPS 9.6.1.1).
pub fn last_index(domain: u16) -> u8
    requires { domain ≤ 232 }
    ensures value { result ≡ last_index_of domain }
    ensures fits { 7411 + 250 * domain + 2 * result ≤ 65535 }
{
    if domain < 232 { 119 } else { 62 }
}
