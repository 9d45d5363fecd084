//! Tests of decoding records, with octets written by hand.

use super::octets_of;
use crate::*;
use linked_list_allocator::LocalHeap;
use rtps_params::ParamList;
use rtps_types::{Duration, Endian, EntityId, Guid, GuidPrefix, Locator};
use std::alloc::{Allocator, Global};
use std::test::Fail;

/// Whether a record with this one parameter, in little-endian order, is well-formed.
fn is_taken<A: Allocator + Copy>(alloc: A, id: u16, value: &[u8]) -> Result<bool, Fail> {
    let mut octets = Vec::new(alloc);
    octets.extend_from_slice(&id.to_le_bytes())?;
    let length = u16::try_from(value.len())
        .ok()
        .ok_or("no length of 16 bits")?;
    octets.extend_from_slice(&length.to_le_bytes())?;
    octets.extend_from_slice(value)?;
    octets.extend_from_slice(&[1, 0, 0, 0])?;
    let list = ParamList::new(octets.as_slice(), Endian::Little)?;
    Ok(Settings::read(&list).is_ok())
}

/// A long name of a partition is accepted, and not reported as out of memory.
#[test]
fn a_partition_of_1000_octets_is_copied(rt: HostRuntime) -> Result<(), Fail> {
    let alloc = rt.alloc();
    let mut octets = Vec::new(alloc);
    // One name in 1,012 octets, of 1,001 with its NUL.
    octets.extend_from_slice(&[0x29, 0, 0xf4, 3, 1, 0, 0, 0, 0xe9, 3, 0, 0])?;
    octets.resize(12 + 1000, b'a')?;
    octets.extend_from_slice(&[0, 0, 0, 0, 1, 0, 0, 0])?;
    let list = ParamList::new(octets.as_slice(), Endian::Little)?;
    let offered = offered_from(alloc, &list)?;
    assert_eq!(rt; offered.partitions.names().len(), 1);
    assert_eq!(rt; offered.partitions.names()[0].as_str().len(), 1000);
    Ok(())
}

/// Each known parameter id, with the shortest well-formed value.
const LEAST: [(u16, &[u8]); 20] = [
    (0x02, &[100, 0, 0, 0, 0, 0, 0, 0]),
    (0x05, &[2, 0, 0, 0, 0x61, 0, 0, 0]),
    (0x07, &[2, 0, 0, 0, 0x61, 0, 0, 0]),
    (0x1a, &[2, 0, 0, 0, 0, 0, 0, 0, 0, 0, 0, 0]),
    (0x1b, &[0, 0, 0, 0, 0, 0, 0, 0, 0, 0, 0, 0]),
    (0x1d, &[3, 0, 0, 0]),
    (0x1f, &[1, 0, 0, 0]),
    (0x21, &[2, 0, 0, 0, 1, 1, 0, 0]),
    (0x23, &[0, 0, 0, 0, 0, 0, 0, 0]),
    (0x25, &[1, 0, 0, 0]),
    (0x27, &[0, 0, 0, 0, 0, 0, 0, 0]),
    (0x29, &[1, 0, 0, 0, 2, 0, 0, 0, 0x61, 0, 0, 0]),
    (
        0x2f,
        &[
            1, 0, 0, 0, 5, 0, 0, 0, 0, 0, 0, 0, 0, 0, 0, 0, 0, 0, 0, 0, 127, 0, 0, 1,
        ],
    ),
    (
        0x31,
        &[
            1, 0, 0, 0, 5, 0, 0, 0, 0, 0, 0, 0, 0, 0, 0, 0, 0, 0, 0, 0, 127, 0, 0, 1,
        ],
    ),
    (
        0x32,
        &[
            1, 0, 0, 0, 5, 0, 0, 0, 0, 0, 0, 0, 0, 0, 0, 0, 0, 0, 0, 0, 127, 0, 0, 1,
        ],
    ),
    (
        0x50,
        &[1, 2, 3, 4, 5, 6, 7, 8, 9, 10, 11, 12, 0, 0, 1, 0xc1],
    ),
    (0x58, &[0x14, 0, 0, 0]),
    (0x5a, &[1, 2, 3, 4, 5, 6, 7, 8, 9, 10, 11, 12, 0, 0, 1, 2]),
    (0x70, &[1, 2, 3, 4, 5, 6, 7, 8, 9, 10, 11, 12, 0, 0, 1, 2]),
    (0x71, &[0, 0, 0, 1]),
];

#[test]
fn each_parameter_at_its_least_length_and_a_word_less(rt: HostRuntime) -> Result<(), Fail> {
    for &(id, value) in &LEAST {
        assert!(rt; is_taken(rt.alloc(), id, value)?);
        assert!(rt; !is_taken(rt.alloc(), id, &value[..value.len() - 4])?);
    }
    // Ignored: a vendor-specific parameter, one that must be understood, and an unknown one.
    for id in [0x8007, 0x4002, 0x0015] {
        assert!(rt; is_taken(rt.alloc(), id, &[])?);
    }
    Ok(())
}

/// A parameter id and a value, and whether the value is in its range.
const RANGES: [(u16, &[u8], bool); 22] = [
    (0x1a, &[0, 0, 0, 0, 0, 0, 0, 0, 0, 0, 0, 0], false),
    (0x1a, &[1, 0, 0, 0, 0, 0, 0, 0, 0, 0, 0, 0], true),
    (0x1a, &[3, 0, 0, 0, 0, 0, 0, 0, 0, 0, 0, 0], false),
    (0x1b, &[2, 0, 0, 0, 0, 0, 0, 0, 0, 0, 0, 0], true),
    (0x1b, &[3, 0, 0, 0, 0, 0, 0, 0, 0, 0, 0, 0], false),
    (0x1d, &[0, 0, 0, 0], true),
    (0x1d, &[4, 0, 0, 0], false),
    (0x1d, &[0, 0, 0, 1], false),
    (0x1f, &[0, 0, 0, 0], true),
    (0x1f, &[2, 0, 0, 0], false),
    (0x21, &[0, 0, 0, 0, 0, 0, 0xff, 0xff], true),
    (0x21, &[3, 0, 0, 0, 0, 0, 0, 0], false),
    (0x21, &[0, 0, 0, 0, 2, 0, 0, 0], false),
    (0x21, &[0, 0, 0, 0, 0, 2, 0, 0], false),
    (0x25, &[0, 0, 0, 0], true),
    (0x25, &[2, 0, 0, 0], false),
    // The empty text, one whose last octet isn't NUL, and one that isn't UTF-8.
    (0x05, &[0, 0, 0, 0], true),
    (0x05, &[2, 0, 0, 0, 0x61, 0x61, 0, 0], false),
    (0x07, &[2, 0, 0, 0, 0xff, 0, 0, 0], false),
    // No partition, and one more than there are octets for.
    (0x29, &[0, 0, 0, 0], true),
    (0x29, &[2, 0, 0, 0, 2, 0, 0, 0, 0x61, 0, 0, 0], false),
    // Octets after a value are ignored.
    (0x1d, &[1, 0, 0, 0, 0xff, 0xff, 0xff, 0xff], true),
];

#[test]
fn values_at_both_ends_of_their_range(rt: HostRuntime) -> Result<(), Fail> {
    for &(id, value, expected) in &RANGES {
        assert_eq!(rt; is_taken(rt.alloc(), id, value)?, expected);
    }
    Ok(())
}

/// The record of a writer of topic Square and type ShapeType, little-endian, as peers send it: with
/// parameters of other ids, also vendor-specific ones, with padding, and with repeated parameters.
const WRITER: &str = "0000040000000000\
    50001000 0a0a0a0a0a0a0a0a0a0a0a0a000001c1\
    5a001000 0a0a0a0a0a0a0a0a0a0a0a0a00000102\
    15000400 02050000 16000400 01030000 1a000c00 010000000000000000000000\
    05000c00 04000000466f6f0000000000 05000c00 0700000053717561726500ff\
    07001000 0a00000053686170655479706500ffff\
    06800400 11111111 07800800 2222222233333333 17800400 44444444\
    00800400 00000000 01800400 00000000 02800400 00000000\
    03800400 00000000 04800400 00000000 05800400 00000000\
    2f001800 0100000001000000000000000000000000000000c0000201\
    2f001800 02000000f31c000000000000000000000000000000000001\
    2f001800 01000000ffff0000000000000000000000000000c0000202\
    2f001800 0100000000000000000000000000000000000000c0000203\
    2f001800 0100000000000100000000000000000000000000c0000204\
    1a000c00 020000000000000099999919 1d000400 01000000\
    29001800 02000000060000006c6566743200000001000000 00000000\
    60000400 00010000 73000c00 0000000000000000 00000000 7f000800 0100000000000000\
    70001000 0a0a0a0a0a0a0a0a0a0a0a0a00000102 71000400 00000000\
    23000800 0a00000000000080 01000000";

#[test]
fn what_a_record_of_a_peer_names(rt: HostRuntime) -> Result<(), Fail> {
    let octets = octets_of(rt.alloc(), WRITER)?;
    let list = ParamList::new(octets.as_slice(), Endian::Little)?;
    let settings = Settings::read(&list)?;
    // The last value of a repeated parameter counts.
    assert_eq!(rt; settings.topic, Some("Square"));
    assert_eq!(rt; settings.type_name, Some("ShapeType"));
    let prefix = GuidPrefix([10; 12]);
    let writer = Guid {
        prefix,
        entity: EntityId([0, 0, 1, 2]),
    };
    assert_eq!(rt; settings.endpoint, Some(writer));
    let participant = Guid {
        prefix,
        entity: EntityId([0, 0, 1, 0xc1]),
    };
    assert_eq!(rt; settings.participant, Some(participant));
    assert_eq!(rt; settings.lease, None);
    assert_eq!(rt; settings.builtin_endpoints, None);
    Ok(())
}

#[test]
fn policies_of_a_record_of_a_peer(rt: HostRuntime) -> Result<(), Fail> {
    let octets = octets_of(rt.alloc(), WRITER)?;
    let list = ParamList::new(octets.as_slice(), Endian::Little)?;
    let policies = Settings::read(&list)?.policies;
    assert_eq!(rt; policies.reliability, Reliability::Reliable);
    assert_eq!(rt; policies.durability, Durability::TransientLocal);
    let deadline = Duration {
        seconds: 10,
        fraction: 0x8000_0000,
    };
    assert_eq!(rt; policies.deadline, deadline);
    let no_time = Duration {
        seconds: 0,
        fraction: 0,
    };
    assert_eq!(rt; policies.latency_budget, no_time);
    let offered = offered_from(rt.alloc(), &list)?;
    assert_eq!(rt; offered.policies.durability, Durability::TransientLocal);
    let names = offered.partitions.names();
    assert_eq!(rt; names.len(), 2);
    assert_eq!(rt; names[0].as_str(), "left2");
    assert_eq!(rt; names[1].as_str(), "");
    Ok(())
}

#[test]
fn locators_of_a_record_of_a_peer(rt: HostRuntime) -> Result<(), Fail> {
    let octets = octets_of(rt.alloc(), WRITER)?;
    let list = ParamList::new(octets.as_slice(), Endian::Little)?;
    let mut settings = Settings::read(&list)?;
    // All locators are listed, except those of another kind, or with a port of 0 or of more than
    // 16 bits.
    let first = Locator {
        port: 1,
        address: [192, 0, 2, 1],
    };
    let last = Locator {
        port: 65535,
        address: [192, 0, 2, 2],
    };
    assert_eq!(rt; settings.unicast.next(), Some(first));
    assert_eq!(rt; settings.unicast.next(), Some(last));
    assert_eq!(rt; settings.unicast.next(), None);
    assert_eq!(rt; settings.default_unicast.next(), None);
    assert_eq!(rt; settings.metatraffic_unicast.next(), None);
    Ok(())
}

/// A record in big-endian order: a lease of -1 seconds and a half, 5 s of liveliness, both ends of
/// the other policies, a set of builtin endpoints, and a locator of each kind.
const BIG: &str = "00020008 ffffffff80000000 001b000c 000000020000000500000000\
    001f0004 00000001 00210008 0000000201000000 00250004 00000001 00270008 0000000000000001\
    00580004 00000014 0031001800000001 00001cf5 00000000 00000000 00000000 7f000001\
    0032001800000001 00001cf4 00000000 00000000 00000000 7f000001 00010000";

#[test]
fn policies_in_big_endian_order(rt: HostRuntime) -> Result<(), Fail> {
    let octets = octets_of(rt.alloc(), BIG)?;
    let list = ParamList::new(octets.as_slice(), Endian::Big)?;
    let policies = Settings::read(&list)?.policies;
    let liveliness = Liveliness {
        kind: LivelinessKind::ManualByTopic,
        lease_duration: Duration {
            seconds: 5,
            fraction: 0,
        },
    };
    assert_eq!(rt; policies.liveliness, liveliness);
    assert_eq!(rt; policies.ownership, Ownership::Exclusive);
    let presentation = Presentation {
        access_scope: AccessScope::Group,
        coherent_access: true,
        ordered_access: false,
    };
    assert_eq!(rt; policies.presentation, presentation);
    assert_eq!(rt;
        policies.destination_order,
        DestinationOrder::BySourceTimestamp
    );
    let least = Duration {
        seconds: 0,
        fraction: 1,
    };
    assert_eq!(rt; policies.latency_budget, least);
    Ok(())
}

#[test]
fn a_participant_in_big_endian_order(rt: HostRuntime) -> Result<(), Fail> {
    let octets = octets_of(rt.alloc(), BIG)?;
    let list = ParamList::new(octets.as_slice(), Endian::Big)?;
    let mut settings = Settings::read(&list)?;
    let lease = Duration {
        seconds: -1,
        fraction: 0x8000_0000,
    };
    assert_eq!(rt; settings.lease, Some(lease));
    assert_eq!(rt; settings.builtin_endpoints, Some(0x14));
    assert_eq!(rt; settings.topic, None);
    assert!(rt; settings.partitions.is_none());
    let default = Locator {
        port: 7413,
        address: [127, 0, 0, 1],
    };
    let metatraffic = Locator {
        port: 7412,
        address: [127, 0, 0, 1],
    };
    assert_eq!(rt; settings.default_unicast.next(), Some(default));
    assert_eq!(rt; settings.metatraffic_unicast.next(), Some(metatraffic));
    assert_eq!(rt; settings.unicast.next(), None);
    Ok(())
}

/// A good topic, then a malformed ownership, then a good ownership.
const OVERRIDDEN: &str =
    "05000c00 0700000053717561726500001f000400 020000001f000400 0000000001000000";

#[test]
fn a_bad_value_is_no_record_though_another_follows(rt: HostRuntime) -> Result<(), Fail> {
    let octets = octets_of(rt.alloc(), OVERRIDDEN)?;
    let list = ParamList::new(octets.as_slice(), Endian::Little)?;
    assert_eq!(rt; Settings::read(&list).err(), Some(Malformed));
    assert_eq!(rt;
        offered_from(rt.alloc(), &list).err(),
        Some(QosFault::Malformed)
    );
    Ok(())
}

/// The calls that copy what a record names.
#[derive(Clone, Copy, Debug)]
enum Call {
    OfferedFrom,
    PartitionsIn,
}

/// Returns the names of a record's partitions as a call copies them into this heap, each before a
/// `|`; `None` where a growth is refused.
fn copied<A: Allocator + Copy>(
    alloc: Global,
    heap: A,
    call: Call,
    list: &ParamList<'_>,
) -> Result<Option<String>, Fail> {
    let partitions = match call {
        Call::OfferedFrom => match offered_from(heap, list) {
            Ok(offered) => offered.partitions,
            Err(QosFault::NoMemory) => return Ok(None),
            Err(QosFault::Malformed) => return Err(Fail::new("the record is refused")),
        },
        Call::PartitionsIn => match partitions_in(heap, Settings::read(list)?.partitions) {
            Ok(partitions) => partitions,
            Err(_) => return Ok(None),
        },
    };
    let mut names = String::new(alloc);
    for name in partitions.names() {
        names.push_str(name.as_str())?;
        names.push_str("|")?;
    }
    Ok(Some(names))
}

#[test]
fn copies_again_what_was_refused(rt: HostRuntime) -> Result<(), Fail> {
    let octets = octets_of(rt.alloc(), WRITER)?;
    let list = ParamList::new(octets.as_slice(), Endian::Little)?;
    for call in [Call::OfferedFrom, Call::PartitionsIn] {
        let (mut some_refused, mut some_made) = (false, false);
        for size in 1..32 {
            let heap = LocalHeap::new(rt.alloc(), size * 16)?;
            let found = match copied(rt.alloc(), &heap, call, &list)? {
                Some(names) => {
                    some_made = true;
                    Some(names)
                }
                None => {
                    some_refused = true;
                    assert_eq!(rt; heap.used(), 0, "of {call:?}");
                    copied(rt.alloc(), rt.alloc(), call, &list)?
                }
            };
            assert!(rt;
                found.is_some_and(|names| names.as_str() == "left2||"),
                "of {call:?}"
            );
        }
        assert!(rt; some_refused && some_made, "of {call:?}");
    }
    Ok(())
}

/// A participant's guid of twelve octets before a good one, and a DURABILITY of an unknown kind.
const NAMES: &str = "50000c00 0a0a0a0a0a0a0a0a0a0a0a0a 1d000400 04000000\
    50001000 0a0a0a0a0a0a0a0a0a0a0a0a000001c1\
    5a001000 090909090909090909090909000001c1\
    5a001000 0a0a0a0a0a0a0a0a0a0a0a0a00000102 01000000";

#[test]
fn guids_that_are_named(rt: HostRuntime) -> Result<(), Fail> {
    let octets = octets_of(rt.alloc(), NAMES)?;
    let list = ParamList::new(octets.as_slice(), Endian::Little)?;
    let writer = Guid {
        prefix: GuidPrefix([10; 12]),
        entity: EntityId([0, 0, 1, 2]),
    };
    assert_eq!(rt; guid_named(&list, 0x5a), Ok(Some(writer)));
    assert_eq!(rt; guid_named(&list, 0x50), Err(Malformed));
    assert_eq!(rt; guid_named(&list, 0x70), Ok(None));
    Ok(())
}
