//! Values, with octets written by hand.

use crate::laws::*;
use crate::*;
use std::cmp::Ordering;
use std::test::Fail;

mod text;

/// Reads at a place in octets, in each byte order.
#[test]
fn fields_are_read_in_either_order(rt: HostRuntime) {
    let octets = [0x01, 0x02, 0x03, 0x04, 0x05, 0x06, 0x07, 0x08];
    assert_eq!(rt; get_u16(&octets, 0, Endian::Big), Some(0x0102));
    assert_eq!(rt; get_u16(&octets, 6, Endian::Little), Some(0x0807));
    assert_eq!(rt; get_u16(&octets, 7, Endian::Big), None);
    assert_eq!(rt; get_u32(&octets, 4, Endian::Big), Some(0x0506_0708));
    assert_eq!(rt; get_u32(&octets, 4, Endian::Little), Some(0x0807_0605));
    assert_eq!(rt; get_u32(&octets, 5, Endian::Little), None);
    assert_eq!(rt;
        get_u64(&octets, 0, Endian::Big),
        Some(0x0102_0304_0506_0708)
    );
    assert_eq!(rt;
        get_u64(&octets, 0, Endian::Little),
        Some(0x0807_0605_0403_0201)
    );
    assert_eq!(rt; get_u64(&octets, 1, Endian::Little), None);
    assert_eq!(rt; get_u16(&octets, usize::MAX, Endian::Big), None);
    assert_eq!(rt; get_octets(&octets, 5), Some([0x06, 0x07, 0x08]));
    let behind: Option<[u8; 3]> = get_octets(&octets, 6);
    assert_eq!(rt; behind, None);
}

/// A sequence number with its octets in big-endian and in little-endian order.
#[derive(Clone, Copy)]
struct Encoded {
    number: i64,
    big: [u8; 8],
    little: [u8; 8],
}

/// Sequence numbers in both byte orders.
const ENCODED: [Encoded; 6] = [
    Encoded {
        number: 1,
        big: [0, 0, 0, 0, 0, 0, 0, 1],
        little: [0, 0, 0, 0, 1, 0, 0, 0],
    },
    Encoded {
        number: 1 << 32,
        big: [0, 0, 0, 1, 0, 0, 0, 0],
        little: [1, 0, 0, 0, 0, 0, 0, 0],
    },
    // 2^62 and the numbers beside it
    Encoded {
        number: 4_611_686_018_427_387_903,
        big: [0x3f, 0xff, 0xff, 0xff, 0xff, 0xff, 0xff, 0xff],
        little: [0xff, 0xff, 0xff, 0x3f, 0xff, 0xff, 0xff, 0xff],
    },
    Encoded {
        number: 4_611_686_018_427_387_904,
        big: [0x40, 0, 0, 0, 0, 0, 0, 0],
        little: [0, 0, 0, 0x40, 0, 0, 0, 0],
    },
    Encoded {
        number: 4_611_686_018_427_387_905,
        big: [0x40, 0, 0, 0, 0, 0, 0, 1],
        little: [0, 0, 0, 0x40, 1, 0, 0, 0],
    },
    Encoded {
        number: -1,
        big: [0xff; 8],
        little: [0xff; 8],
    },
];

#[test]
fn sequence_numbers_have_the_high_half_first(rt: HostRuntime) {
    for row in &ENCODED {
        assert_eq!(rt; get_sn(&row.big, 0, Endian::Big), Some(row.number));
        assert_eq!(rt; get_sn(&row.little, 0, Endian::Little), Some(row.number));
        let mut octets = [0; 8];
        put_sn(&mut octets, 0, Endian::Big, row.number);
        assert_eq!(rt; octets, row.big);
        put_sn(&mut octets, 0, Endian::Little, row.number);
        assert_eq!(rt; octets, row.little);
        assert_eq!(rt; get_sn(&octets, 1, Endian::Little), None);
    }
}

#[test]
fn fields_are_put_in_either_order(rt: HostRuntime) {
    let mut octets = [0xee; 10];
    put_u16(&mut octets, 1, Endian::Big, 0x0102);
    put_u16(&mut octets, 4, Endian::Little, 0x0102);
    assert_eq!(rt; octets, [0xee, 1, 2, 0xee, 2, 1, 0xee, 0xee, 0xee, 0xee]);
    put_u32(&mut octets, 0, Endian::Big, 0x0a0b_0c0d);
    put_u32(&mut octets, 6, Endian::Little, 0x0a0b_0c0d);
    assert_eq!(rt; octets, [0xa, 0xb, 0xc, 0xd, 2, 1, 0xd, 0xc, 0xb, 0xa]);
    put_u64(&mut octets, 0, Endian::Big, 0x0102_0304_0506_0708);
    assert_eq!(rt; octets, [1, 2, 3, 4, 5, 6, 7, 8, 0xb, 0xa]);
    put_u64(&mut octets, 2, Endian::Little, 0x0102_0304_0506_0708);
    assert_eq!(rt; octets, [1, 2, 8, 7, 6, 5, 4, 3, 2, 1]);
    put_octets(&mut octets, 7, &[9, 9, 9]);
    assert_eq!(rt; octets, [1, 2, 8, 7, 6, 5, 4, 9, 9, 9]);
}

#[test]
fn numbers_are_1_to_2_to_the_62nd(rt: HostRuntime) {
    assert_eq!(rt; MAX_NUMBER, 1 << 62);
    assert_eq!(rt; Number::new(0), None);
    assert_eq!(rt; Number::new(1).map(Number::get), Some(1));
    assert_eq!(rt;
        Number::new(MAX_NUMBER).map(Number::get),
        Some(4_611_686_018_427_387_904)
    );
    assert_eq!(rt; Number::new(4_611_686_018_427_387_905), None);
}

#[test]
fn identities_are_ordered_as_octets(rt: HostRuntime) {
    let low = Guid {
        prefix: GuidPrefix([1; 12]),
        entity: EntityId([0xff; 4]),
    };
    let high = Guid {
        prefix: GuidPrefix([2; 12]),
        entity: EntityId([0; 4]),
    };
    assert_eq!(rt; order_of_guids(&low, &high), Ordering::Less);
    assert_eq!(rt; order_of_guids(&high, &low), Ordering::Greater);
    assert_eq!(rt;
        order_of_prefixes(&low.prefix, &low.prefix),
        Ordering::Equal
    );
    assert_eq!(rt;
        order_of_entities(&EntityId([0, 0, 1, 7]), &EntityId([0, 0, 2, 4])),
        Ordering::Less
    );
    assert_eq!(rt;
        order_of_hashes(&KeyHash([3; 16]), &KeyHash([2; 16])),
        Ordering::Greater
    );
}

fn place(datagram: u64, submessage: u32) -> Place {
    Place {
        datagram,
        submessage,
    }
}

fn duration(seconds: i32, fraction: u32) -> Duration {
    Duration { seconds, fraction }
}

#[test]
fn places_and_durations_are_ordered(rt: HostRuntime) {
    assert_eq!(rt; order_of_places(&place(1, 9), &place(2, 1)), Ordering::Less);
    assert!(rt; place(2, 1) < place(2, 2));
    assert_eq!(rt;
        order_of_durations(&duration(-1, 9), &duration(0, 0)),
        Ordering::Less
    );
    assert!(rt; duration(1, 1) < duration(1, 2));
}

#[test]
fn sets_name_their_members_in_order(rt: HostRuntime) -> Result<(), Fail> {
    let mut words = [0; 8];
    words[0] = 0x8000_0001;
    words[1] = 0x4000_0000;
    words[7] = 1;
    let set = SnSet {
        base: 10,
        bits: 256,
        words,
    };
    let found: Vec<u64> = set.members().collect(rt.alloc())?;
    assert_eq!(rt; found.as_slice(), [10, 41, 43, 265].as_slice());
    // Bits after the bit count are ignored.
    let cut: Vec<u64> = SnSet {
        base: 10,
        bits: 33,
        words,
    }
    .members()
    .collect(rt.alloc())?;
    assert_eq!(rt; cut.as_slice(), [10, 41].as_slice());
    let fragments: Vec<u64> = FragSet {
        base: 7,
        bits: 34,
        words,
    }
    .members()
    .collect(rt.alloc())?;
    assert_eq!(rt; fragments.as_slice(), [7, 38, 40].as_slice());
    Ok(())
}

/// Offset k is bit 31 - k % 32 of word k / 32, and a bit that is set already stays set.
#[test]
fn bits_are_set_by_their_offsets(rt: HostRuntime) {
    let mut words = [0; 8];
    set_bit(&mut words, 0);
    set_bit(&mut words, 31);
    set_bit(&mut words, 33);
    set_bit(&mut words, 255);
    assert_eq!(rt; words, [0x8000_0001, 0x4000_0000, 0, 0, 0, 0, 0, 1]);
    a_set_names_its_members();
}

#[test]
fn lists_keep_their_items(rt: HostRuntime) -> Result<(), Fail> {
    let here = Locator {
        port: 7412,
        address: [127, 0, 0, 1],
    };
    let there = Locator { port: 7413, ..here };
    let lists: [&[Locator]; 3] = [&[], &[there], &[here, there]];
    for list in lists {
        assert_eq!(rt; Locators::new(list.to_vec(rt.alloc())?).as_slice(), list);
        assert_eq!(rt; Locators::copied(rt.alloc(), list)?.as_slice(), list);
    }
    let one = Locators::one(rt.alloc(), here);
    assert_eq!(rt; one.as_slice(), [here].as_slice());
    let octets = Octets::new([0x52, 0x54].to_vec(rt.alloc())?);
    assert_eq!(rt; octets.as_slice(), [0x52, 0x54].as_slice());
    Ok(())
}

#[test]
fn policies_have_ids_and_names(rt: HostRuntime) {
    for (policy, id, name) in [
        (PolicyId::Durability, 2, "Durability"),
        (PolicyId::Presentation, 3, "Presentation"),
        (PolicyId::Deadline, 4, "Deadline"),
        (PolicyId::LatencyBudget, 5, "LatencyBudget"),
        (PolicyId::Ownership, 6, "Ownership"),
        (PolicyId::Liveliness, 8, "Liveliness"),
        (PolicyId::Reliability, 11, "Reliability"),
        (PolicyId::DestinationOrder, 12, "DestinationOrder"),
    ] {
        assert_eq!(rt; policy.id(), id);
        assert_eq!(rt; policy.name(), name);
    }
}
