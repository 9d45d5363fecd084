//! Tests of the defaults of DDS 1.4, section 2.2.3, of names that are kept, and of the numbers of
//! variants.

mod compatible;
mod settings;

use crate::*;
use rtps_types::Duration;
use std::alloc::Allocator;
use std::test::Fail;

/// Returns the octets of a text in hex; blanks are ignored.
fn octets_of<A: Allocator + Copy>(alloc: A, text: &str) -> Result<Vec<u8, A>, Fail> {
    let mut octets = Vec::new(alloc);
    for part in text.split_ascii_whitespace() {
        octets.extend_from_slice(hex::decode(alloc, part)?.as_slice())?;
    }
    Ok(octets)
}

#[test]
fn policies_that_are_not_given(rt: HostRuntime) {
    let infinite = Duration {
        seconds: 2_147_483_647,
        fraction: 4_294_967_295,
    };
    assert_eq!(rt; INFINITE, infinite);
    let requested = Requested::new(rt.alloc());
    let expected = Policies {
        durability: Durability::Volatile,
        presentation: Presentation {
            access_scope: AccessScope::Instance,
            coherent_access: false,
            ordered_access: false,
        },
        deadline: infinite,
        latency_budget: Duration {
            seconds: 0,
            fraction: 0,
        },
        ownership: Ownership::Shared,
        liveliness: Liveliness {
            kind: LivelinessKind::Automatic,
            lease_duration: infinite,
        },
        reliability: Reliability::BestEffort,
        destination_order: DestinationOrder::ByReceptionTimestamp,
    };
    assert_eq!(rt; requested.policies, expected);
    assert!(rt; requested.partitions.names().is_empty());
    let offered = Offered::new(rt.alloc());
    let expected = Policies {
        reliability: Reliability::Reliable,
        ..expected
    };
    assert_eq!(rt; offered.policies, expected);
    assert!(rt; offered.partitions.names().is_empty());
}

#[test]
fn partitions_keep_their_names(rt: HostRuntime) -> Result<(), Fail> {
    let mut names = Vec::new(rt.alloc());
    names.push(String::from_str(rt.alloc(), "left")?)?;
    names.push(String::from_str(rt.alloc(), "")?)?;
    let partitions = Partitions::new(names);
    let kept = partitions.names();
    assert_eq!(rt; kept.len(), 2);
    assert_eq!(rt; kept[0].as_str(), "left");
    assert_eq!(rt; kept[1].as_str(), "");
    Ok(())
}

#[test]
fn variants_have_the_numbers_of_messages(rt: HostRuntime) {
    let durability = [
        Durability::Volatile as u8,
        Durability::TransientLocal as u8,
        Durability::Transient as u8,
        Durability::Persistent as u8,
    ];
    assert_eq!(rt; durability, [0, 1, 2, 3]);
    let scopes = [
        AccessScope::Instance as u8,
        AccessScope::Topic as u8,
        AccessScope::Group as u8,
    ];
    assert_eq!(rt; scopes, [0, 1, 2]);
    let liveliness = [
        LivelinessKind::Automatic as u8,
        LivelinessKind::ManualByParticipant as u8,
        LivelinessKind::ManualByTopic as u8,
    ];
    assert_eq!(rt; liveliness, [0, 1, 2]);
    let ownership = [Ownership::Shared as u8, Ownership::Exclusive as u8];
    assert_eq!(rt; ownership, [0, 1]);
    let reliability = [Reliability::BestEffort as u8, Reliability::Reliable as u8];
    assert_eq!(rt; reliability, [1, 2]);
    let order = [
        DestinationOrder::ByReceptionTimestamp as u8,
        DestinationOrder::BySourceTimestamp as u8,
    ];
    assert_eq!(rt; order, [0, 1]);
}
