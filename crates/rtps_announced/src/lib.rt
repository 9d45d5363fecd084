//! The sockets of a participant that announces itself and its readers (DDSI-RTPS 8.4.7, 8.5.3,
//! 8.5.4).
//!
//! [`AnnouncedSockets`] are the sockets of a participant, and its voice, which hears each datagram
//! that is received and each moment at which a wait ends. What it says by that is sent at once. Who
//! runs readers over these sockets, as `rtps_text::listen` does, has them found by peers, and needs
//! to do nothing more for it but to say farewell at the end.
//!
//! ```text
//! let sockets = Sockets::bind_first(&rt, &rt, alloc, 0, Ipv4Addr::new(10, 9, 0, 1))?;
//! let everyone = Locators::one(alloc, Locator { port: 7400, address: [239, 255, 0, 1] });
//! let mut network = AnnouncedSockets::new(alloc, sockets, &config, lease, everyone)?;
//! listen(&rt, alloc, setup, &mut network, &mut rt.stdout())?;
//! network.farewell()?;
//! ```
//!
//! Proved over any link that tells its calls, for all that is received: what is announced is what
//! the announcer of these readers says by just what was received, in order, each datagram to each of
//! its places, and nothing else; to a group or to another machine than the sockets answer to, only
//! where the configuration names it; and what is announced as our locators is where the sockets are
//! bound. The order of announcements and answers among each other is left open, as UDP orders
//! nothing. Tested: datagrams of two such sockets on this machine.
#![tactic(auto)]

mod sending;
mod sockets;
#[cfg(test)]
mod tests;

pub use sockets::AnnouncedSockets;
