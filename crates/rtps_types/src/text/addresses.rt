//! Locators as the socket addresses of the standard library.

ghost use Rattle.std.specs.Prelude.{◌≡◌, ◌++◌, Some, codes};
ghost use Rattle.std.specs.Fmt.{decimal};
ghost use Rattle.std.specs.Net.Addr.{ipv4_octets};
ghost use Rattle.std.specs.Net.Socket.{v4_ip, v4_port};
ghost use Rattle.std.specs.Net.Text.{ipv4_text};

use crate::Locator;
use std::fmt;
use std::net::{Ipv4Addr, SocketAddrV4};

impl From<SocketAddrV4> for Locator {
    ghost from_gives = { λ a l. (l.address ≡ ipv4_octets (v4_ip a)) × (l.port ≡ v4_port a) };

    fn from(address: SocketAddrV4) -> Locator {
        Locator {
            port: address.port(),
            address: address.ip().octets(),
        }
    }
}

impl From<Locator> for SocketAddrV4 {
    ghost from_gives = { λ l a. (ipv4_octets (v4_ip a) ≡ l.address) × (v4_port a ≡ l.port) };

    fn from(locator: Locator) -> SocketAddrV4 {
        SocketAddrV4::new(Ipv4Addr::from(locator.address), locator.port)
    }
}

/// The four octets with dots between, a colon and the port, in decimal.
impl fmt::Display for Locator {
    ghost output = { λ l. Some (ipv4_text l.address ++ codes ":" ++ decimal l.port) };

    fn fmt<W: fmt::Write>(&self, f: &mut fmt::Formatter<W>) -> fmt::Result {
        fmt::Display::fmt(&SocketAddrV4::from(*self), f)
    }
}

/// As it is displayed.
impl fmt::Debug for Locator {
    fn fmt<W: fmt::Write>(&self, f: &mut fmt::Formatter<W>) -> fmt::Result {
        fmt::Display::fmt(self, f)
    }
}
