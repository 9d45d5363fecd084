//! Where a participant announces itself, and where it is reached.

ghost use Rattle.std.specs.Prelude.{◌≡◌, ◌≤◌, ◌++◌, IfErr, IfOk, IfSome, None, OnOk, filter, option_map, pos};
ghost use Rattle.rtps_listen.specs.Reaching.{AddsPeers, IsNoUnicastText, IsPeersCause, IsPeersFault, IsReachCause, IsReachOf, IsUnicastText, NamesPeers, RefusesPlaces, everyone_of, first_five, group_of, is_other, lease_in, participant_at, parts_of, parts_with};

use crate::fault::ListenFault;
use crate::options::Options;
use crate::reach::Reach;
use rtps_announcer::is_unicast;
use rtps_records::RunFault;
use rtps_types::{Duration, Locator, Locators};
use std::alloc::{AllocError, Global};
use std::net::Ipv4Addr;

/// The most addresses of `--peers`.
const MOST_PEERS: u8 = 12;

/// How many participants are looked for at a peer's address (DDSI-RTPS 9.6.1.4.3).
const PARTICIPANTS: u8 = 5;

/// The lease in seconds if none is given.
const LEASE: i32 = 10;

impl Reach {
    /// Returns the addresses to which the participant announces itself (DDSI-RTPS 8.5.3.2): the
    /// group of its domain, and at each peer's address the ports for discovery of the first five
    /// participants, all but its own locator.
    pub fn everyone(&self, alloc: Global, own: Locator) -> Result<Locators, AllocError>
        ensures { IfOk result (λ places. places ≡ everyone_of own self.now) }
    {
        let mut places = Vec::new(alloc);
        if self.multicast {
            places.push(group_of(self.domain))?;
        }
        for peer in &self.peers {
            add_participants(&mut places, own, self.domain, *peer)?;
        }
        Ok(Locators::new(places))
    }
}

/// Returns the group to which participants of a domain announce themselves (DDSI-RTPS 9.6.1.4.1).
fn group_of(domain: u16) -> Locator
    requires { domain ≤ 232 }
    ensures { result ≡ group_of domain }
{
    Locator {
        port: 7400 + 250 * domain,
        address: [239, 255, 0, 1],
    }
}

/// Returns where the participant with an index, 0 to 4, of a domain at an address receives what is for
/// discovery (DDSI-RTPS 9.6.1.1).
fn participant_at(domain: u16, address: Ipv4Addr, index: u8) -> Locator
    requires domain { domain ≤ 232 }
    requires index { index ≤ 4 }
    ensures { result ≡ participant_at domain address index }
{
    Locator {
        port: 7410 + 250 * domain + 2 * u16::from(index),
        address: address.octets(),
    }
}

/// Appends where the first five participants of a domain at an address receive what is for
/// discovery, all but our own locator.
fn add_participants(
    places: &mut Vec<Locator>,
    own: Locator,
    domain: u16,
    peer: Ipv4Addr,
) -> Result<(), AllocError>
    requires { domain ≤ 232 }
    ensures { OnOk result (places.new.items
        ≡ places.old.items ++ filter (is_other own) (first_five domain peer)) }
{
    for index in 0..PARTICIPANTS {
        let place = participant_at(domain, peer, index);
        if place != own {
            places.push(place)?;
        }
    }
    Ok(())
}

/// Returns the address that a text names in dotted notation, if it is one that an interface can
/// have.
fn unicast_in(text: &str) -> Option<Ipv4Addr>
    ensures value { IfSome result (IsUnicastText text.now) }
    ensures none { result ≡ None → IsNoUnicastText text.now }
{
    let Ok(address) = text.parse::<Ipv4Addr>() else {
        return None;
    };
    let place = Locator {
        port: 0,
        address: address.octets(),
    };
    if is_unicast(place) {
        Some(address)
    } else {
        None
    }
}

/// Takes a text apart at its first comma: what comes before it, and if there is one what comes after
/// it.
fn first_part(text: &str) -> (&str, Option<&str>)
    ensures { parts_of text.entry.now
        ≡ parts_with result.0.now (option_map (λ rest. rest.now) result.1) }
{
    match text.split_once(',') {
        Some((first, rest)) => (first, Some(rest)),
        None => (text, None),
    }
}

/// Appends the addresses that a text names with commas between them, `most` of them at the most.
fn add_peers(text: &str, most: u8, peers: &mut Vec<Ipv4Addr>) -> Result<(), ListenFault>
    ensures added { OnOk result (AddsPeers text.now most peers.old.items peers.new.items) }
    ensures fault { IfErr result (IsPeersCause text.now most) }
{
    if most == 0 {
        return Err(ListenFault::BadPeers);
    }
    let (first, rest) = first_part(text);
    let Some(address) = unicast_in(first) else {
        return Err(ListenFault::BadPeers);
    };
    let Ok(()) = peers.push(address) else {
        return Err(ListenFault::Run(RunFault::NoMemory));
    };
    match rest {
        Some(rest) => add_peers(rest, most - 1, peers),
        None => Ok(()),
    }
}

/// Returns the addresses that `--peers` names: none where it isn't given.
fn peers_in(alloc: Global, text: Option<&str>) -> Result<Vec<Ipv4Addr>, ListenFault>
    ensures value { IfOk result (λ peers. NamesPeers text.entry peers.items) }
    ensures fault { IfErr result (IsPeersFault text.entry) }
{
    let mut peers = Vec::new(alloc);
    if let Some(text) = text {
        add_peers(text, MOST_PEERS, &mut peers)?;
    }
    Ok(peers)
}

/// Returns how the participant of the options is to be found.
///
/// `BadAddress` if `--address` isn't an address that one interface can have, in dotted notation;
/// `BadPeers` if `--peers` isn't a list of such addresses, 12 at the most, with commas between
/// them; and `NoMemory`.
pub fn reach_of(alloc: Global, options: &Options<'_>) -> Result<Reach, ListenFault>
    ensures reach { IfOk result (IsReachOf options.now) }
    ensures refused { RefusesPlaces options.now result }
    ensures fault { IfErr result (IsReachCause options.now) }
{
    let Some(address) = unicast_in(options.address) else {
        return Err(ListenFault::BadAddress);
    };
    let peers = peers_in(alloc, options.peers)?;
    Ok(Reach {
        domain: options.domain,
        address,
        peers,
        multicast: !options.no_multicast,
        lease: Duration {
            seconds: lease_in(options.lease),
            fraction: 0,
        },
    })
}

/// Returns the lease in seconds: the given one, or else 10. It is longer than a second, which is
/// how often the participant announces itself.
fn lease_in(given: u32) -> i32
    requires { given ≤ 86400 }
    ensures { result ≡ pos (lease_in given) }
{
    if given < 2 { LEASE } else { given as i32 }
}
