//! Lines of `listen --announce`, and where a participant announces itself.

use super::{live, words};
use crate::fault::ListenFault;
use crate::options::Options;
use crate::reach::Reach;
use crate::reaching::reach_of;
use crate::request::Request;
use crate::words::read_words;
use rtps_types::{Duration, Locator};
use std::alloc::Global;
use std::net::Ipv4Addr;
use std::test::Fail;

/// Twelve addresses.
const TWELVE: &str = "10.0.0.1,10.0.0.2,10.0.0.3,10.0.0.4,10.0.0.5,10.0.0.6,10.0.0.7,10.0.0.8,\
    10.0.0.9,10.0.0.10,10.0.0.11,223.255.255.255";

#[test]
fn lines_that_announce(rt: HostRuntime) -> Result<(), Fail> {
    let plain = live(1, 2, 600, "127.0.0.1");
    let mut announced = plain;
    announced.announce = true;
    announced.peers = Some("a,b");
    announced.no_multicast = true;
    announced.lease = 86_400;
    let mut stray = plain;
    stray.lease = 2;
    for (line, request) in [
        ([].as_slice(), Request::Listen(plain)),
        (["--lease", "2"].as_slice(), Request::Stray(stray)),
        (
            [
                "--peers",
                "a,b",
                "--announce",
                "--no-multicast",
                "--lease",
                "86400",
            ]
            .as_slice(),
            Request::Announce(announced),
        ),
    ] {
        let mut words = words(rt.alloc(), &["listen", "--domain", "1", "--count", "2"])?;
        words.extend_from_slice(line)?;
        assert_eq!(rt; read_words(rt.alloc(), words.as_slice())?, request);
    }
    Ok(())
}

/// Options of a participant at this address, with these peers.
fn asked(address: &'static str, peers: Option<&'static str>) -> Options<'static> {
    let mut options = live(1, 1, 1, address);
    options.announce = true;
    options.peers = peers;
    options
}

/// The addresses to which a participant announces itself, where its own port for discovery is 7660.
fn everyone(alloc: Global, reach: &Reach) -> Result<Vec<Locator>, Fail> {
    let own = Locator {
        port: 7660,
        address: [10, 0, 0, 9],
    };
    Ok(reach.everyone(alloc, own)?.as_slice().to_vec(alloc)?)
}

#[test]
fn peers_and_the_group_are_everyone(rt: HostRuntime) -> Result<(), Fail> {
    let mut options = asked("10.0.0.9", Some("10.0.0.9,1.2.3.4"));
    let reach = reach_of(rt.alloc(), &options).map_err(|_| Fail::new("a reach"))?;
    assert_eq!(rt; reach.address, Ipv4Addr::new(10, 0, 0, 9));
    assert!(rt;
        reach.lease
            == (Duration {
                seconds: 10,
                fraction: 0
            })
    );
    let places = everyone(rt.alloc(), &reach)?;
    // The group, four others at our own address, and five at the other one.
    let mut wanted = [(7650, [239, 255, 0, 1])].to_vec(rt.alloc())?;
    for port in [7662u16, 7664, 7666, 7668] {
        wanted.push((port, [10, 0, 0, 9]))?;
    }
    for port in [7660u16, 7662, 7664, 7666, 7668] {
        wanted.push((port, [1, 2, 3, 4]))?;
    }
    assert_eq!(rt; places.len(), wanted.len());
    for (place, (port, address)) in places.iter().zip(&wanted) {
        assert!(rt; place.port == *port && place.address == *address);
    }
    options.peers = None;
    options.no_multicast = true;
    let alone = reach_of(rt.alloc(), &options).map_err(|_| Fail::new("a reach"))?;
    assert!(rt; everyone(rt.alloc(), &alone)?.is_empty());
    Ok(())
}

#[test]
fn addresses_of_no_interface_are_refused(rt: HostRuntime) -> Result<(), Fail> {
    for address in ["0.0.0.0", "239.255.0.1", "255.255.255.255", "10.0.0", ""] {
        let refused = reach_of(rt.alloc(), &asked(address, None));
        assert!(rt; matches!(refused, Err(ListenFault::BadAddress)));
        let refused = reach_of(rt.alloc(), &asked("10.0.0.9", Some(address)));
        assert!(rt; matches!(refused, Err(ListenFault::BadPeers)));
    }
    for peers in [
        "10.0.0.1,",
        ",10.0.0.1",
        "10.0.0.1, 10.0.0.2",
        "10.0.0.1;10.0.0.2",
    ] {
        let refused = reach_of(rt.alloc(), &asked("10.0.0.9", Some(peers)));
        assert!(rt; matches!(refused, Err(ListenFault::BadPeers)));
    }
    match reach_of(rt.alloc(), &asked("10.0.0.9", Some(TWELVE))) {
        Ok(reach) => assert_eq!(rt; reach.peers.len(), 12),
        Err(_) => return Err(Fail::new("twelve peers")),
    }
    let mut thirteen = TWELVE.to_string(rt.alloc())?;
    thirteen.push_str(",10.0.0.1")?;
    let mut options = asked("10.0.0.9", None);
    options.peers = Some(thirteen.as_str());
    let refused = reach_of(rt.alloc(), &options);
    assert!(rt; matches!(refused, Err(ListenFault::BadPeers)));
    Ok(())
}
