//! A struct of many members and one with a short key, with octets written by hand.

mod log;
mod memory;
mod point;

use crate::{Member, Structs, Text};
use dds_topic::{Catalog, CatalogError, TextCatalog, Unread};
use log::Log;
use point::Point;
use rtps_cdr::CdrReader;
use rtps_types::{Endian, KeyHash};
use std::alloc::Global;
use std::test::Fail;

const MALFORMED: CatalogError = CatalogError::Unread(Unread::Malformed);

const ENCAPSULATION: CatalogError = CatalogError::Unread(Unread::Encapsulation);

/// A log with the encapsulation kinds 1 and 0: open, level 5, shift -2, count 7, at -1, name abc,
/// part 9, marks 1 and 2.
const LOG: [(u16, &str); 2] = [
    (
        1,
        "0105feff07000000ffffffffffffffff040000006162630009000000020000000100000002000000",
    ),
    (
        0,
        "0105fffe00000007ffffffffffffffff000000046162630000090000000000020000000100000002",
    ),
];

/// Returns the key hash with these hex digits.
fn hash(alloc: Global, digits: &str) -> Result<KeyHash, Fail> {
    let octets = hex::decode(alloc, digits)?;
    Ok(KeyHash(
        *octets
            .as_slice()
            .first_chunk::<16>()
            .ok_or("sixteen octets")?,
    ))
}

/// Whether a log has the members of [`LOG`].
fn is_that_log(log: Log) -> bool {
    log.open
        && log.level == 5
        && log.shift == -2
        && log.count == 7
        && log.at == -1
        && log.name.as_str() == "abc"
        && log.part == 9
        && log.marks.as_slice() == [1, 2].as_slice()
}

#[test]
fn members_are_read_in_either_order(rt: HostRuntime) -> Result<(), Fail> {
    let alloc = rt.alloc();
    for (kind, body) in LOG {
        let body = hex::decode(alloc, body)?;
        let log = Structs::<Log>::new().decode(alloc, kind, body.as_slice())?;
        assert!(rt; is_that_log(log));
    }
    Ok(())
}

#[test]
fn a_cut_body_is_malformed(rt: HostRuntime) -> Result<(), Fail> {
    let alloc = rt.alloc();
    let (kind, body) = LOG[0];
    let body = hex::decode(alloc, body)?;
    for count in 0..body.len() {
        let cut = Structs::<Log>::new().decode(alloc, kind, &body[..count]);
        assert!(rt; cut.err() == Some(MALFORMED));
    }
    Ok(())
}

#[test]
fn other_encapsulations_are_not_read(rt: HostRuntime) -> Result<(), Fail> {
    let alloc = rt.alloc();
    for kind in [2, 3, 0xffff] {
        let read = Structs::<Log>::new().decode(alloc, kind, &[]);
        assert!(rt; read.err() == Some(ENCAPSULATION));
        let key = Structs::<Log>::new().key_of_payload(alloc, kind, &[]);
        assert!(rt; key == Err(ENCAPSULATION));
    }
    Ok(())
}

#[test]
fn a_key_without_a_greatest_size_is_hashed(rt: HostRuntime) -> Result<(), Fail> {
    let alloc = rt.alloc();
    let logs = Structs::<Log>::new();
    // The MD5 of 00000004 61626300 0009.
    let wanted = hash(alloc, "127123d5a9815f608f3b06af34fc9fa5")?;
    let (kind, body) = LOG[1];
    let body = hex::decode(alloc, body)?;
    let log = logs.decode(alloc, kind, body.as_slice())?;
    assert_eq!(rt; logs.key_of(alloc, &log)?, wanted);
    let (key, again) = logs.decode_keyed(&mut (), alloc, kind, body.as_slice())?;
    assert_eq!(rt; key, wanted);
    assert!(rt; logs.text(alloc, &again)?.as_slice() == b"abc".as_slice());
    assert!(rt; logs.text(alloc, &log)?.as_slice() == b"abc".as_slice());
    let payload = logs.key_payload(alloc, &log)?;
    assert!(rt; payload.as_slice() == b"\x04\0\0\0abc\0\x09\0".as_slice());
    assert_eq!(rt; logs.key_of_payload(alloc, 1, payload.as_slice())?, wanted);
    assert_eq!(rt;
        logs.key_of_payload(alloc, 0, b"\0\0\0\x04abc\0\0\x09")?,
        wanted
    );
    Ok(())
}

#[test]
fn a_short_key_is_its_own_hash(rt: HostRuntime) -> Result<(), Fail> {
    let alloc = rt.alloc();
    let points = Structs::<Point>::new();
    let wanted = hash(alloc, "00000007000900000000000000000000")?;
    let point = points.decode(alloc, 1, b"\x07\0\0\0\x09\0\0\0\xff\xff\xff\xff")?;
    assert!(rt; point.station == 7 && point.channel == 9 && point.level == -1);
    assert_eq!(rt; points.key_of(alloc, &point)?, wanted);
    assert!(rt; points.key_payload(alloc, &point)?.as_slice() == b"\x07\0\0\0\x09\0".as_slice());
    assert_eq!(rt;
        points.key_of_payload(alloc, 1, b"\x07\0\0\0\x09\0")?,
        wanted
    );
    assert_eq!(rt;
        points.key_of_payload(alloc, 0, b"\0\0\0\x07\0\x09")?,
        wanted
    );
    let cut = points.key_of_payload(alloc, 0, b"\0\0\0\x07\0");
    assert!(rt; cut == Err(MALFORMED));
    Ok(())
}

/// A stated count of 2^32 - 1 strings in eight octets is malformed, and doesn't run out of memory.
#[test]
fn a_stated_count_takes_no_memory(rt: HostRuntime) {
    let octets = [0xff, 0xff, 0xff, 0xff, 2, 0, 0, 0];
    let mut reader = CdrReader::new(&octets, Endian::Little);
    let read = <Vec<Text> as Member>::read(rt.alloc(), &mut reader);
    assert!(rt; read.err() == Some(MALFORMED));
}

#[test]
fn a_text_of_70000_octets_is_read(rt: HostRuntime) -> Result<(), Fail> {
    let alloc = rt.alloc();
    let mut octets = Vec::from_slice(alloc, &70_001_u32.to_le_bytes())?;
    octets.resize(70_004, b'a')?;
    octets.push(0)?;
    let mut reader = CdrReader::new(octets.as_slice(), Endian::Little);
    let text = Text::read(alloc, &mut reader)?;
    assert_eq!(rt; text.as_str().len(), 70_000);
    Ok(())
}
