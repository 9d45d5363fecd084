//! Values, with octets from other sources.

mod memory;

use crate::{CdrFault, CdrReader, CdrWriter};
use rtps_types::Endian;
use std::alloc::{AllocError, Allocator};
use std::test::Fail;

/// Octets that are equal to their positions.
const PLACES: [u8; 16] = [0, 1, 2, 3, 4, 5, 6, 7, 8, 9, 10, 11, 12, 13, 14, 15];

/// Returns a reader that has passed `count` octets.
fn behind(octets: &[u8], count: usize, endian: Endian) -> Result<CdrReader<'_>, CdrFault> {
    let mut reader = CdrReader::new(octets, endian);
    reader.read_octets(count)?;
    Ok(reader)
}

/// A position in [`PLACES`], and the big-endian numbers of 16, 32 and 64 bits that are read there.
const ALIGNED: [(usize, u16, u32, u64); 9] = [
    (0, 0x0001, 0x0001_0203, 0x0001_0203_0405_0607),
    (1, 0x0203, 0x0405_0607, 0x0809_0a0b_0c0d_0e0f),
    (2, 0x0203, 0x0405_0607, 0x0809_0a0b_0c0d_0e0f),
    (3, 0x0405, 0x0405_0607, 0x0809_0a0b_0c0d_0e0f),
    (4, 0x0405, 0x0405_0607, 0x0809_0a0b_0c0d_0e0f),
    (5, 0x0607, 0x0809_0a0b, 0x0809_0a0b_0c0d_0e0f),
    (6, 0x0607, 0x0809_0a0b, 0x0809_0a0b_0c0d_0e0f),
    (7, 0x0809, 0x0809_0a0b, 0x0809_0a0b_0c0d_0e0f),
    (8, 0x0809, 0x0809_0a0b, 0x0809_0a0b_0c0d_0e0f),
];

/// Returns the numbers of 16, 32 and 64 bits that are read after the first `start` octets of
/// [`PLACES`].
fn found(start: usize, endian: Endian) -> Result<(u16, u32, u64), CdrFault> {
    Ok((
        behind(&PLACES, start, endian)?.read_u16()?,
        behind(&PLACES, start, endian)?.read_u32()?,
        behind(&PLACES, start, endian)?.read_u64()?,
    ))
}

#[test]
fn numbers_are_aligned_to_their_size(rt: HostRuntime) -> Result<(), Fail> {
    for (start, short, long, wide) in ALIGNED {
        assert_eq!(rt; found(start, Endian::Big)?, (short, long, wide));
        assert_eq!(rt;
            found(start, Endian::Little)?,
            (short.swap_bytes(), long.swap_bytes(), wide.swap_bytes())
        );
        assert_eq!(rt; behind(&PLACES, start, Endian::Big)?.read_len()?, long);
    }
    Ok(())
}

#[test]
fn numbers_have_a_sign(rt: HostRuntime) -> Result<(), Fail> {
    let big = [
        0xff, 0, 0xff, 0xfe, 0xff, 0xff, 0xff, 0xfd, 0xff, 0xff, 0xff, 0xff, 0xff, 0xff, 0xff, 0xfc,
    ];
    let mut reader = CdrReader::new(&big[..8], Endian::Big);
    assert_eq!(rt; reader.read_i8()?, -1);
    assert_eq!(rt; reader.read_i16()?, -2);
    assert_eq!(rt; reader.read_i32()?, -3);
    let mut reader = CdrReader::new(&big[8..], Endian::Big);
    assert_eq!(rt; reader.read_i64()?, -4);
    let little = [
        0x80, 7, 0xfe, 0xff, 0xfd, 0xff, 0xff, 0xff, 0xfc, 0xff, 0xff, 0xff, 0xff, 0xff, 0xff, 0xff,
    ];
    let mut reader = CdrReader::new(&little, Endian::Little);
    assert_eq!(rt; reader.read_i8()?, -128);
    assert_eq!(rt; reader.read_i16()?, -2);
    assert_eq!(rt; reader.read_i32()?, -3);
    assert_eq!(rt; reader.read_i64()?, -4);
    assert_eq!(rt; reader.position(), 16);
    Ok(())
}

/// The kinds of values that are read.
#[derive(Clone, Copy)]
enum Kind {
    Octet,
    Short,
    Long,
    Wide,
    Truth,
    Text,
    Octets(usize),
    Texts,
}

/// Returns the fault of reading a value, if there is one.
fn fault(reader: &mut CdrReader<'_>, kind: Kind) -> Option<CdrFault> {
    match kind {
        Kind::Octet => reader.read_u8().err(),
        Kind::Short => reader.read_i16().err(),
        Kind::Long => reader.read_i32().err(),
        Kind::Wide => reader.read_i64().err(),
        Kind::Truth => reader.read_bool().err(),
        Kind::Text => reader.read_string().err(),
        Kind::Octets(count) => reader.read_octets(count).err(),
        Kind::Texts => reader.read_strings().err(),
    }
}

/// Big-endian octets, the number of octets to be passed, the kind of value after them, and the
/// expected fault.
type Row = (&'static [u8], usize, Kind, Option<CdrFault>);

const SHORT: Option<CdrFault> = Some(CdrFault::Short);

const OF_ONE_SIZE: [Row; 11] = [
    (b"\0", 1, Kind::Octet, SHORT),
    (b"\0\0\x01", 1, Kind::Short, SHORT),
    (b"\0\0\x01\x02", 1, Kind::Short, None),
    (b"\0\0\0\0\x01\x02\x03", 1, Kind::Long, SHORT),
    (b"\0\0\0\0\x01\x02\x03\x04", 1, Kind::Long, None),
    (
        b"\0\0\0\0\0\0\0\0\x01\x02\x03\x04\x05\x06\x07",
        1,
        Kind::Wide,
        SHORT,
    ),
    (
        b"\0\0\0\0\0\0\0\0\x01\x02\x03\x04\x05\x06\x07\x08",
        1,
        Kind::Wide,
        None,
    ),
    (b"\x01\x02", 1, Kind::Truth, Some(CdrFault::BadBool)),
    (b"\x01", 1, Kind::Truth, SHORT),
    (b"\x01\x02\x03", 1, Kind::Octets(3), SHORT),
    (b"\x01\x02\x03", 1, Kind::Octets(2), None),
];

const TEXTS: [Row; 9] = [
    (b"\x07\x07\x07\x07\0\0\0\0", 1, Kind::Text, None),
    (b"\x07\x07\x07\x07\0\0\0", 1, Kind::Text, SHORT),
    (b"\0\0\0\x03A\0", 0, Kind::Text, SHORT),
    (b"\0\0\0\x02AB", 0, Kind::Text, Some(CdrFault::BadString)),
    (b"\0\0\0\x01A", 0, Kind::Text, Some(CdrFault::BadString)),
    (
        b"\0\0\0\x03\xc3\x28\0",
        0,
        Kind::Text,
        Some(CdrFault::NotUtf8),
    ),
    (b"\0\0\0\x04A\0B\0", 0, Kind::Text, None),
    (b"\xff\xff\xff\xff\0\0\0\x01\0", 0, Kind::Texts, SHORT),
    (
        b"\0\0\0\x02\0\0\0\x01\0\0\0\0\0\0\0\x02AB",
        0,
        Kind::Texts,
        Some(CdrFault::BadString),
    ),
];

/// Returns the fault of a row, after a check that a fault doesn't move the reader.
fn fault_of(octets: &[u8], start: usize, kind: Kind) -> Result<Option<CdrFault>, Fail> {
    let mut reader = behind(octets, start, Endian::Big)?;
    let found = fault(&mut reader, kind);
    if found.is_none() {
        return Ok(None);
    }
    if reader.position() != start {
        return Err(Fail::new("a fault moved the reader"));
    }
    let left = octets.len().saturating_sub(start);
    reader.read_octets(left)?;
    Ok(found)
}

#[test]
fn a_fault_moves_nothing(rt: HostRuntime) -> Result<(), Fail> {
    for (octets, start, kind, wanted) in OF_ONE_SIZE {
        assert_eq!(rt; fault_of(octets, start, kind)?, wanted);
    }
    Ok(())
}

#[test]
fn a_fault_of_a_text_moves_nothing(rt: HostRuntime) -> Result<(), Fail> {
    for (octets, start, kind, wanted) in TEXTS {
        assert_eq!(rt; fault_of(octets, start, kind)?, wanted);
    }
    Ok(())
}

#[test]
fn a_text_ends_with_its_nul(rt: HostRuntime) -> Result<(), Fail> {
    let rows: [(&[u8], &str, usize); 5] = [
        (b"\0\0\0\0A", "", 4),
        (b"\x01\0\0\0\0", "", 5),
        (b"\x05\0\0\0BLUE\0", "BLUE", 9),
        (b"\x04\0\0\0A\0B\0\0", "A\0B", 8),
        (b"\x03\0\0\0\xc3\xa9\0", "\u{e9}", 7),
    ];
    for (octets, text, after) in rows {
        let mut reader = CdrReader::new(octets, Endian::Little);
        assert!(rt; reader.read_string()? == text);
        assert_eq!(rt; reader.position(), after);
    }
    let octets = b"\x03\0\0\0\x02\0\0\0A\0\xff\xff\0\0\0\0\x03\0\0\0BC\0\x01";
    let mut reader = CdrReader::new(octets, Endian::Little);
    let texts = reader.read_strings()?;
    let mut lines = String::new(rt.alloc());
    for text in texts {
        lines.push_str(text)?;
        lines.push_str(";")?;
    }
    assert!(rt; lines.as_str() == "A;;BC;");
    assert!(rt; reader.read_bool()?);
    Ok(())
}

/// Writes one value of each type.
fn write_each<A: Allocator>(writer: &mut CdrWriter<A>) -> Result<(), AllocError> {
    writer.write_bool(true)?;
    writer.write_u16(0x0203)?;
    writer.write_i8(-1)?;
    writer.write_u32(0x0809_0a0b)?;
    writer.write_u8(0xaa)?;
    writer.write_i64(-2)?;
    writer.write_i16(-3)?;
    writer.write_string("BLUE")?;
    writer.write_i32(-4)?;
    writer.write_octets(&[1, 2, 3])?;
    writer.write_u64(0x0102_0304_0506_0708)?;
    writer.write_len(2)
}

/// The octets of these values, big-endian.
const EACH: &[u8] =
    b"\x01\0\x02\x03\xff\0\0\0\x08\x09\x0a\x0b\xaa\0\0\0\xff\xff\xff\xff\xff\xff\xff\xfe\
    \xff\xfd\0\0\0\0\0\x05BLUE\0\0\0\0\xff\xff\xff\xfc\x01\x02\x03\0\x01\x02\x03\x04\x05\x06\x07\x08\0\0\0\x02";

#[test]
fn what_is_written_is_read(rt: HostRuntime) -> Result<(), Fail> {
    for endian in [Endian::Big, Endian::Little] {
        let mut writer = CdrWriter::new(rt.alloc(), endian);
        write_each(&mut writer)?;
        let octets = writer.finish();
        assert!(rt; endian == Endian::Little || octets.as_slice() == EACH);
        let mut reader = CdrReader::new(octets.as_slice(), endian);
        assert!(rt; reader.read_bool()?);
        assert_eq!(rt; reader.read_u16()?, 0x0203);
        assert_eq!(rt; reader.read_i8()?, -1);
        assert_eq!(rt; reader.read_u32()?, 0x0809_0a0b);
        assert_eq!(rt; reader.read_u8()?, 0xaa);
        assert_eq!(rt; reader.read_i64()?, -2);
        assert_eq!(rt; reader.read_i16()?, -3);
        assert!(rt; reader.read_string()? == "BLUE");
        assert_eq!(rt; reader.read_i32()?, -4);
        assert!(rt; reader.read_octets(3)? == [1, 2, 3].as_slice());
        assert_eq!(rt; reader.read_u64()?, 0x0102_0304_0506_0708);
        assert_eq!(rt; reader.read_len()?, 2);
        assert_eq!(rt; reader.position(), octets.len());
    }
    Ok(())
}
