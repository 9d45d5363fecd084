//! Datagrams, with octets written by hand from their formats (DDSI-RTPS 9.4).

mod memory;
mod participant;
mod reader;
mod writer;

use crate::*;
use dds_qos::{
    AccessScope, DestinationOrder, Durability, Liveliness, LivelinessKind, Ownership, Partitions,
    Policies, Presentation, Reliability,
};
use rtps_discovery::ReaderConfig;
use rtps_types::{Duration, EntityId, GuidPrefix, Locator, Number};
use std::alloc::{Allocator, Global};
use std::test::Fail;

/// Our participant, with twelve different octets.
const OWN: GuidPrefix = GuidPrefix([1, 2, 3, 4, 5, 6, 7, 8, 9, 10, 11, 12]);

/// The participant to which it is sent.
const PEER: GuidPrefix = GuidPrefix([0x0a; 12]);

/// The reader that is announced.
const READER: EntityId = EntityId([0, 0, 1, 7]);

/// The header of our messages.
const HEADER: &str = "52545053 02050000 0102030405060708090a0b0c ";

/// The header, and the participant to which it is sent.
const FRONT: &str = "52545053 02050000 0102030405060708090a0b0c \
    0e010c00 0a0a0a0a0a0a0a0a0a0a0a0a ";

/// Two places that differ in address and port, and a lease of ten seconds and a half.
const HERE: Presence = Presence {
    discovery: Locator {
        port: 7412,
        address: [10, 9, 0, 1],
    },
    user: Locator {
        port: 7413,
        address: [10, 9, 0, 2],
    },
    lease: Duration {
        seconds: 10,
        fraction: 0x8000_0000,
    },
};

/// Returns the octets of two texts in hex, one after the other; blanks are ignored.
fn octets_of<A: Allocator + Copy>(alloc: A, front: &str, more: &str) -> Result<Vec<u8, A>, Fail> {
    let mut octets = Vec::new(alloc);
    for part in front.split_ascii_whitespace() {
        octets.extend_from_slice(hex::decode(alloc, part)?.as_slice())?;
    }
    for part in more.split_ascii_whitespace() {
        octets.extend_from_slice(hex::decode(alloc, part)?.as_slice())?;
    }
    Ok(octets)
}

fn number_of(value: u64) -> Result<Number, Fail> {
    match Number::new(value) {
        Some(number) => Ok(number),
        None => Err(Fail::new("no number")),
    }
}

/// Returns a reader with the default policies.
fn square(alloc: Global) -> Result<ReaderConfig, Fail> {
    Ok(ReaderConfig::new(alloc, READER, "Square", "ShapeType")?)
}

/// Returns a reader whose policies all differ from the defaults, in three partitions, of which one
/// has an empty name.
fn particular(alloc: Global) -> Result<ReaderConfig, Fail> {
    let mut reader = square(alloc)?;
    reader.requested.policies = Policies {
        durability: Durability::TransientLocal,
        presentation: Presentation {
            access_scope: AccessScope::Group,
            coherent_access: true,
            ordered_access: false,
        },
        deadline: Duration {
            seconds: 1,
            fraction: 0x4000_0000,
        },
        latency_budget: Duration {
            seconds: -1,
            fraction: 0xffff_fffe,
        },
        ownership: Ownership::Exclusive,
        liveliness: Liveliness {
            kind: LivelinessKind::ManualByTopic,
            lease_duration: Duration {
                seconds: 3,
                fraction: 0,
            },
        },
        reliability: Reliability::Reliable,
        destination_order: DestinationOrder::BySourceTimestamp,
    };
    let mut names = Vec::new(alloc);
    for name in ["a", "bcd", ""] {
        names.push(String::from_str(alloc, name)?)?;
    }
    reader.requested.partitions = Partitions::new(names);
    Ok(reader)
}
