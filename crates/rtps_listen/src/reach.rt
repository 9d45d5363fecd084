//! How a participant is to be found in its domain.

ghost use Rattle.std.specs.Prelude.{◌≤◌};

use rtps_types::Duration;
use std::net::Ipv4Addr;

/// How a participant is to be found in its domain.
#[derive(Drop)]
pub struct Reach {
    /// The domain, 0 to 232.
    pub domain: u16,
    /// The address of this machine at which it is reached.
    pub address: Ipv4Addr,
    /// The addresses at which other participants are told of it.
    pub peers: Vec<Ipv4Addr>,
    /// Whether the group of the domain is told of it.
    pub multicast: bool,
    /// How long it may keep silent.
    pub lease: Duration,
    ghost domained: { domain ≤ 232 },
}
