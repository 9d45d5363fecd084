//! Texts written by hand.

use crate::*;
use std::collections::HashMap;
use std::net::SocketAddrV4;
use std::test::Fail;

/// Each octet of it has other digits, and all sixteen digits come.
const GUID: Guid = Guid {
    prefix: GuidPrefix([
        0x01, 0x23, 0x45, 0x67, 0x89, 0xab, 0xcd, 0xef, 0x10, 0xfe, 0x0a, 0xa0,
    ]),
    entity: EntityId([0x00, 0x12, 0x34, 0xc2]),
};

const GUID_TEXT: &str = "0123456789abcdef10fe0aa0001234c2";

#[test]
fn identities_are_shown(rt: HostRuntime) -> Result<(), Fail> {
    let Guid { prefix, entity } = GUID;
    let hash = KeyHash([0xf9; 16]);
    let text = format!(in rt.alloc(); "{GUID} {prefix} {entity:>10} {hash:?}")?;
    assert_eq!(rt;
        text.as_str(),
        "0123456789abcdef10fe0aa0001234c2 0123456789abcdef10fe0aa0   001234c2 \
         f9f9f9f9f9f9f9f9f9f9f9f9f9f9f9f9"
    );
    Ok(())
}

#[test]
fn identities_are_read(rt: HostRuntime) {
    assert_eq!(rt; GUID_TEXT.parse(), Ok(GUID));
    assert_eq!(rt; "0123456789ABCDEF10fe0AA0".parse(), Ok(GUID.prefix));
    assert_eq!(rt; "001234C2".parse(), Ok(GUID.entity));
    assert_eq!(rt;
        "F9f9F9f9F9f9F9f9F9f9F9f9F9f9F9f9".parse(),
        Ok(KeyHash([0xf9; 16]))
    );
}

#[test]
fn other_texts_are_no_identities(rt: HostRuntime) {
    for (text, fault) in [
        ("", TextFault::Length),
        ("001234c", TextFault::Length),
        ("001234c2f", TextFault::Length),
        ("001234c2ff", TextFault::Length),
        ("001234cg", TextFault::Digit),
        ("+01234c2", TextFault::Digit),
        ("001234c\u{e9}", TextFault::Length),
        ("001234\u{e9}", TextFault::Digit),
    ] {
        assert_eq!(rt; text.parse::<EntityId>(), Err(fault));
    }
    assert_eq!(rt; GUID_TEXT.parse::<GuidPrefix>(), Err(TextFault::Length));
    assert_eq!(rt; "001234c2".parse::<Guid>(), Err(TextFault::Length));
}

#[test]
fn numbers_and_places(rt: HostRuntime) -> Result<(), Fail> {
    let number: Number = "4611686018427387904".parse()?;
    let place = Place {
        datagram: u64::MAX,
        submessage: u32::MAX,
    };
    assert_eq!(rt; number.get(), MAX_NUMBER);
    assert_eq!(rt; "18446744073709551615:4294967295".parse(), Ok(place));
    let text = format!(in rt.alloc(); "{number} {place}")?;
    assert_eq!(rt;
        text.as_str(),
        "4611686018427387904 18446744073709551615:4294967295"
    );
    Ok(())
}

#[test]
fn texts_of_other_numbers(rt: HostRuntime) {
    for (text, value) in [
        ("007", Some(7)),
        ("", None),
        ("0", None),
        ("4611686018427387905", None),
        ("18446744073709551616", None),
        ("+7", None),
        ("7 ", None),
    ] {
        assert_eq!(rt; text.parse::<Number>().ok().map(Number::get), value);
    }
}

#[test]
fn other_texts_are_no_places(rt: HostRuntime) {
    for (text, fault) in [
        ("3", TextFault::Separator),
        ("3;1", TextFault::Separator),
        (":1", TextFault::Number),
        ("3:", TextFault::Number),
        ("3:1:1", TextFault::Number),
        ("3:4294967296", TextFault::Number),
    ] {
        assert_eq!(rt; text.parse::<Place>(), Err(fault));
    }
}

#[test]
fn moments(rt: HostRuntime) -> Result<(), Fail> {
    let moment = Timestamp {
        seconds: 0x5f3a_0001,
        fraction: 0x8000_00c0,
    };
    assert_eq!(rt; moment.to_string(rt.alloc())?.as_str(), "5f3a0001.800000c0");
    assert_eq!(rt; "5F3a0001.800000C0".parse(), Ok(moment));
    for (text, fault) in [
        ("5f3a0001800000c0", TextFault::Separator),
        ("5f3a000.800000c0", TextFault::Length),
        ("5f3a0001.800000c", TextFault::Length),
        ("5f3a0001.800000.0", TextFault::Digit),
    ] {
        assert_eq!(rt; text.parse::<Timestamp>(), Err(fault));
    }
    Ok(())
}

#[test]
fn lengths_of_time(rt: HostRuntime) -> Result<(), Fail> {
    let half = 0x8000_0000;
    for (seconds, fraction, text) in [
        (0, 0, "0.000000000"),
        (3, half, "3.500000000"),
        (0, 5, "0.000000001"),
        (-1, half, "-0.500000000"),
        (-2, 0, "-2.000000000"),
        (i32::MAX, u32::MAX, "infinite"),
        (i32::MAX, u32::MAX - 1, "2147483647.999999999"),
        (i32::MIN, 0, "-2147483648.000000000"),
    ] {
        let shown = Duration { seconds, fraction }.to_string(rt.alloc())?;
        assert_eq!(rt; shown.as_str(), text);
    }
    Ok(())
}

#[test]
fn locators(rt: HostRuntime) -> Result<(), Fail> {
    let locator = Locator {
        port: 7412,
        address: [127, 0, 0, 1],
    };
    assert_eq!(rt; locator.to_string(rt.alloc())?.as_str(), "127.0.0.1:7412");
    let address = SocketAddrV4::from(locator);
    assert_eq!(rt;
        (address.ip().octets(), address.port()),
        ([127, 0, 0, 1], 7412)
    );
    assert_eq!(rt; Locator::from(address), locator);
    Ok(())
}

#[test]
fn identities_are_keys(rt: HostRuntime) -> Result<(), Fail> {
    let mut counts = HashMap::new(rt.alloc());
    counts.insert(GUID, 7)?;
    assert_eq!(rt; counts.get(&GUID), Some(&7));
    let other = Guid {
        entity: EntityId([0; 4]),
        ..GUID
    };
    assert_eq!(rt; counts.get(&other), None);
    Ok(())
}
