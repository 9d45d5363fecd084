//! Refused growths.

use super::LOG;
use super::log::Log;
use crate::{KeyMember, Member, Structs, Structure, Text, copy_member};
use dds_topic::{Catalog, CatalogError, TextCatalog};
use linked_list_allocator::LocalHeap;
use rtps_cdr::{CdrReader, CdrWriter};
use rtps_types::Endian;
use std::alloc::{AllocError, Allocator, Global};
use std::test::Fail;

/// The members that are written to a key.
#[derive(Clone, Copy, Debug)]
enum Call {
    Bool,
    U8,
    I8,
    U16,
    I16,
    U32,
    I32,
    U64,
    I64,
    Text,
    Both,
    /// Writes the key of a log.
    WriteKey,
    /// Copies the key of a log from its key payload.
    CopyKey,
    CopyMember,
}

/// Each call with the octets that it writes, in big-endian order.
const CALLS: [(Call, &[u8]); 14] = [
    (Call::Bool, b"\x01"),
    (Call::U8, b"\xaa"),
    (Call::I8, b"\xff"),
    (Call::U16, b"\x02\x03"),
    (Call::I16, b"\xff\xfd"),
    (Call::U32, b"\x08\x09\x0a\x0b"),
    (Call::I32, b"\xff\xff\xff\xfc"),
    (Call::U64, b"\x01\x02\x03\x04\x05\x06\x07\x08"),
    (Call::I64, b"\xff\xff\xff\xff\xff\xff\xff\xfe"),
    (Call::Text, b"\0\0\0\x04abc\0"),
    (Call::Both, b"\x02\x03\0\0\x08\x09\x0a\x0b"),
    (Call::WriteKey, b"\0\0\0\x04abc\0\0\x09"),
    (Call::CopyKey, b"\0\0\0\x04abc\0\0\x09"),
    (Call::CopyMember, b"\0\0\0\x04abc\0"),
];

/// The key payload of the log, in little-endian order.
const KEY: &[u8] = b"\x04\0\0\0abc\0\x09\0";

fn log(alloc: Global) -> Result<Log, Fail> {
    let (kind, body) = LOG[0];
    let body = hex::decode(alloc, body)?;
    Ok(Structs::<Log>::new().decode(alloc, kind, body.as_slice())?)
}

/// Why a copy was not made: another error than a refused growth is none here.
fn refused(error: CatalogError) -> Result<AllocError, Fail> {
    match error {
        CatalogError::NoMemory => Ok(AllocError),
        CatalogError::Unread(_) => Err(Fail::new("the key is not read")),
    }
}

/// Makes a call, and returns its result.
fn write<A: Allocator>(
    alloc: Global,
    writer: &mut CdrWriter<A>,
    call: Call,
) -> Result<Result<(), AllocError>, Fail> {
    let mut reader = CdrReader::new(KEY, Endian::Little);
    let copied = match call {
        Call::Bool => return Ok(true.write(writer)),
        Call::U8 => return Ok(0xaau8.write(writer)),
        Call::I8 => return Ok((-1i8).write(writer)),
        Call::U16 => return Ok(0x0203u16.write(writer)),
        Call::I16 => return Ok((-3i16).write(writer)),
        Call::U32 => return Ok(0x0809_0a0bu32.write(writer)),
        Call::I32 => return Ok((-4i32).write(writer)),
        Call::U64 => return Ok(0x0102_0304_0506_0708u64.write(writer)),
        Call::I64 => return Ok((-2i64).write(writer)),
        Call::Text => return Ok(log(alloc)?.name.write(writer)),
        Call::Both => return Ok((0x0203u16, 0x0809_0a0bu32).write(writer)),
        Call::WriteKey => return Ok(log(alloc)?.write_key(writer)),
        Call::CopyKey => Log::copy_key(alloc, &mut reader, writer),
        Call::CopyMember => copy_member::<Text, A>(alloc, &mut reader, writer),
    };
    match copied {
        Ok(()) => Ok(Ok(())),
        Err(error) => Ok(Err(refused(error)?)),
    }
}

/// Takes all memory of a heap but this number of octets.
fn all_but(heap: &LocalHeap, size: usize) -> Result<Vec<u8, &LocalHeap>, AllocError> {
    Vec::with_capacity(heap, heap.free().saturating_sub(size))
}

#[test]
fn writes_again_what_was_refused(rt: HostRuntime) -> Result<(), Fail> {
    let alloc = rt.alloc();
    for (call, wanted) in CALLS {
        let (mut some_refused, mut some_written) = (false, false);
        for size in 0..12 {
            let heap = LocalHeap::new(alloc, 1024)?;
            let _others = all_but(&heap, size * 16)?;
            let mut writer = CdrWriter::new(&heap, Endian::Big);
            let is_written = write(alloc, &mut writer, call)?.is_ok();
            let octets = writer.finish();
            if is_written {
                some_written = true;
                assert!(rt; octets.as_slice() == wanted, "of {call:?}");
            } else {
                some_refused = true;
                // A part of it may be left.
                let rest = wanted.strip_prefix(octets.as_slice());
                assert!(rt; rest.is_some_and(|rest| !rest.is_empty()), "of {call:?}");
                let mut again = CdrWriter::new(alloc, Endian::Big);
                assert_eq!(rt; write(alloc, &mut again, call)?, Ok(()), "of {call:?}");
                assert!(rt; again.finish().as_slice() == wanted, "of {call:?}");
            }
        }
        assert!(rt; some_refused && some_written, "of {call:?}");
    }
    Ok(())
}

#[test]
fn prints_again_what_was_refused(rt: HostRuntime) -> Result<(), Fail> {
    let alloc = rt.alloc();
    let (logs, log) = (Structs::<Log>::new(), log(alloc)?);
    let (mut some_refused, mut some_printed) = (false, false);
    for size in 0..12 {
        let heap = LocalHeap::new(alloc, 1024)?;
        let _others = all_but(&heap, size * 16)?;
        let mut out = Vec::new(&heap);
        if logs.push_text(&mut out, &log).is_ok() {
            some_printed = true;
            assert!(rt; out.as_slice() == b"abc".as_slice());
        } else {
            some_refused = true;
            assert_eq!(rt; out.len(), 0);
            assert!(rt; logs.text(alloc, &log)?.as_slice() == b"abc".as_slice());
        }
    }
    assert!(rt; some_refused && some_printed);
    Ok(())
}

/// The calls that allocate where the program does.
#[derive(Clone, Copy, Debug)]
enum Asked {
    /// Decodes the log, and returns its text.
    Decode,
    Text,
    KeyPayload,
    KeyOf,
    /// Decodes the log, and returns its key hash.
    DecodeKeyed,
    KeyOfPayload,
    /// Reads two strings, and returns them one after the other.
    Read,
}

/// The MD5 of `00000004 61626300 0009`.
const HASH: &[u8] = b"\x12\x71\x23\xd5\xa9\x81\x5f\x60\x8f\x3b\x06\xaf\x34\xfc\x9f\xa5";

/// Each call with the octets that it returns for the log.
const ASKED: [(Asked, &[u8]); 7] = [
    (Asked::Decode, b"abc"),
    (Asked::Text, b"abc"),
    (Asked::KeyPayload, KEY),
    (Asked::KeyOf, HASH),
    (Asked::DecodeKeyed, HASH),
    (Asked::KeyOfPayload, HASH),
    (Asked::Read, b"REDBLUE"),
];

/// Reads two strings, and returns them one after the other.
fn read_two(alloc: Global) -> Result<Vec<u8>, CatalogError> {
    let octets = b"\x02\0\0\0\x04\0\0\0RED\0\x05\0\0\0BLUE\0";
    let mut reader = CdrReader::new(octets, Endian::Little);
    let mut both = Vec::new(alloc);
    let texts = <Vec<Text> as Member>::read(alloc, &mut reader)?;
    for text in &texts {
        both.extend_from_slice(text.as_str().as_bytes())?;
    }
    Ok(both)
}

/// Returns the octets of what a call returns.
fn outcome_of(alloc: Global, log: &Log, body: &[u8], what: Asked) -> Result<Vec<u8>, CatalogError> {
    let logs = Structs::<Log>::new();
    let key = match what {
        Asked::Decode => {
            let decoded = logs.decode(alloc, 1, body)?;
            return Ok(logs.text(alloc, &decoded)?);
        }
        Asked::Text => return Ok(logs.text(alloc, log)?),
        Asked::KeyPayload => return Ok(logs.key_payload(alloc, log)?),
        Asked::Read => return read_two(alloc),
        Asked::KeyOf => logs.key_of(alloc, log)?,
        Asked::DecodeKeyed => logs.decode_keyed(&mut (), alloc, 1, body)?.0,
        Asked::KeyOfPayload => logs.key_of_payload(alloc, 1, KEY)?,
    };
    Ok(key.0.to_vec(alloc)?)
}

/// `rt try --test --fail-alloc N` refuses one growth, at one of these calls or elsewhere.
#[test]
fn structs_answer_again_what_was_refused(rt: HostRuntime) -> Result<(), Fail> {
    let alloc = rt.alloc();
    let log = log(alloc)?;
    let body = hex::decode(alloc, LOG[0].1)?;
    for (what, wanted) in ASKED {
        let mut found = outcome_of(alloc, &log, body.as_slice(), what);
        if matches!(found, Err(CatalogError::NoMemory)) {
            found = outcome_of(alloc, &log, body.as_slice(), what);
        }
        assert!(rt; found?.as_slice() == wanted, "of {what:?}");
    }
    Ok(())
}
