//! Sending announcements.

ghost use Rattle.std.specs.Prelude.{◌≡◌, map, filter};
ghost use Rattle.std.specs.Net.Addr.{ipv4_octets};
ghost use Rattle.std.specs.Time.{instant_nanos};
ghost use Rattle.rtps_udp.specs.Addresses.{is_answered};
ghost use Rattle.rtps_announced.specs.Announced.{AnnouncesMore, IsSameSockets, all_addressed, spoken, to_each};

use dds_announced::Announcement;
use rtps_announcer::Destination;
use rtps_types::Locator;
use rtps_udp::{Link, Sockets};
use std::alloc::AllocError;

/// Sends announcements, in order: one to everyone to each of these addresses, and one to a peer to
/// each of its locators that these sockets answer to.
pub(crate) fn send_all<L: Link>(
    sockets: &mut Sockets<L>,
    everyone: &[Locator],
    announcements: &[Announcement],
)
    ensures announced { AnnouncesMore (instant_nanos sockets.old.ports.start)
        (L.calls sockets.old.ports.link) (L.calls sockets.new.ports.link)
        (all_addressed everyone.now (ipv4_octets sockets.old.binding.address) announcements.now) }
    ensures same { IsSameSockets sockets.old sockets.new }
{
    for announcement in announcements {
        let octets = announcement.octets.as_slice();
        match &announcement.to {
            Destination::Everyone => send_to_everyone(sockets, everyone, octets),
            Destination::Peer(_, to) => send_to_peer(sockets, to.as_slice(), octets),
        }
    }
}

/// Sends what a voice said, if it did.
pub(crate) fn send_said<L: Link>(
    sockets: &mut Sockets<L>,
    everyone: &[Locator],
    said: Result<Vec<Announcement>, AllocError>,
)
    ensures announced { AnnouncesMore (instant_nanos sockets.old.ports.start)
        (L.calls sockets.old.ports.link) (L.calls sockets.new.ports.link)
        (spoken everyone.now (ipv4_octets sockets.old.binding.address) said) }
    ensures same { IsSameSockets sockets.old sockets.new }
{
    match said {
        Ok(announcements) => send_all(sockets, everyone, &announcements),
        Err(_) => {}
    }
}

/// Sends an announcement to each of these addresses, groups among them. What a network refuses is
/// lost, and is announced again.
fn send_to_everyone<L: Link>(sockets: &mut Sockets<L>, everyone: &[Locator], octets: &[u8])
    ensures announced { AnnouncesMore (instant_nanos sockets.old.ports.start)
        (L.calls sockets.old.ports.link) (L.calls sockets.new.ports.link)
        (to_each everyone.now octets.now) }
    ensures same { IsSameSockets sockets.old sockets.new }
{
    for to in everyone {
        let _lost = sockets.announce(*to, octets);
    }
}

/// Sends an announcement to each of a peer's locators that these sockets answer to: to no group, and
/// from loopback to no other machine, whatever a stranger names.
fn send_to_peer<L: Link>(sockets: &mut Sockets<L>, to: &[Locator], octets: &[u8])
    ensures announced { AnnouncesMore (instant_nanos sockets.old.ports.start)
        (L.calls sockets.old.ports.link) (L.calls sockets.new.ports.link)
        (to_each (filter (is_answered (ipv4_octets sockets.old.binding.address)) to.now) octets.now) }
    ensures same { IsSameSockets sockets.old sockets.new }
{
    for place in to {
        let _lost = sockets.announce_to_peer(*place, octets);
    }
}
