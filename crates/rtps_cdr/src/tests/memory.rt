//! Refused growths.

use crate::CdrWriter;
use linked_list_allocator::LocalHeap;
use rtps_types::Endian;
use std::alloc::{AllocError, Allocator, Global};
use std::test::Fail;

/// The calls that write.
#[derive(Clone, Copy, Debug)]
enum Call {
    Bool,
    U8,
    I8,
    U16,
    I16,
    U32,
    I32,
    Len,
    U64,
    I64,
    Text,
    Octets,
}

/// Each call with its alignment, and with the octets that it writes after the padding.
const CALLS: [(Call, usize, &[u8]); 12] = [
    (Call::Bool, 1, b"\x01"),
    (Call::U8, 1, b"\xaa"),
    (Call::I8, 1, b"\xff"),
    (Call::U16, 2, b"\x02\x03"),
    (Call::I16, 2, b"\xff\xfd"),
    (Call::U32, 4, b"\x08\x09\x0a\x0b"),
    (Call::I32, 4, b"\xff\xff\xff\xfc"),
    (Call::Len, 4, b"\0\0\0\x02"),
    (Call::U64, 8, b"\x01\x02\x03\x04\x05\x06\x07\x08"),
    (Call::I64, 8, b"\xff\xff\xff\xff\xff\xff\xff\xfe"),
    (Call::Text, 4, b"\0\0\0\x0eMEDIUM VIOLET\0"),
    (Call::Octets, 1, b"\x01\x02\x03"),
];

fn write<A: Allocator>(writer: &mut CdrWriter<A>, call: Call) -> Result<(), AllocError> {
    match call {
        Call::Bool => writer.write_bool(true),
        Call::U8 => writer.write_u8(0xaa),
        Call::I8 => writer.write_i8(-1),
        Call::U16 => writer.write_u16(0x0203),
        Call::I16 => writer.write_i16(-3),
        Call::U32 => writer.write_u32(0x0809_0a0b),
        Call::I32 => writer.write_i32(-4),
        Call::Len => writer.write_len(2),
        Call::U64 => writer.write_u64(0x0102_0304_0506_0708),
        Call::I64 => writer.write_i64(-2),
        Call::Text => writer.write_string("MEDIUM VIOLET"),
        Call::Octets => writer.write_octets(&[1, 2, 3]),
    }
}

/// What is written before a call.
const FRONT: &[u8] = b"abcdefghijklmnop";

/// Returns what is written after a front of this length and a call.
fn wanted(alloc: Global, front: &[u8], size: usize, field: &[u8]) -> Result<Vec<u8>, Fail> {
    let mut octets = front.to_vec(alloc)?;
    for _ in 0..8 {
        if !octets.len().is_multiple_of(size) {
            octets.push(0)?;
        }
    }
    octets.extend_from_slice(field)?;
    Ok(octets)
}

/// Takes memory in small blocks until it is refused, but for this number of blocks at its end, and
/// returns them.
fn blocks_but<A: Allocator + Copy>(
    alloc: Global,
    heap: A,
    room: usize,
) -> Result<Vec<Vec<u8, A>>, Fail> {
    let mut blocks = Vec::new(alloc);
    for _ in 0..256 {
        match Vec::with_capacity(heap, 16) {
            Ok(block) => blocks.push(block)?,
            Err(_) => break,
        }
    }
    for _ in 0..room {
        blocks.pop();
    }
    Ok(blocks)
}

/// Whether a call is refused that finds room for this number of blocks. A refused call has written
/// nothing, and where it is tried again with more memory, it writes all.
fn is_refused(
    alloc: Global,
    (call, size, field): (Call, usize, &[u8]),
    front: &[u8],
    (room, is_tried_again): (usize, bool),
) -> Result<bool, Fail> {
    let heap = LocalHeap::new(alloc, 1024)?;
    let mut writer = CdrWriter::new(&heap, Endian::Big);
    writer.write_octets(front)?;
    let blocks = blocks_but(alloc, &heap, room)?;
    let is_refused = write(&mut writer, call).is_err();
    drop(blocks);
    if is_refused && is_tried_again {
        write(&mut writer, call)?;
    }
    let whole = wanted(alloc, front, size, field)?;
    let expected = if is_refused && !is_tried_again {
        front
    } else {
        whole.as_slice()
    };
    if writer.finish().as_slice() != expected {
        return Err(Fail::new("other octets are written"));
    }
    Ok(is_refused)
}

#[test]
fn writes_again_what_was_refused(rt: HostRuntime) -> Result<(), Fail> {
    for row in CALLS {
        let (mut some_refused, mut some_written) = (false, false);
        for length in 0..FRONT.len() {
            let front = FRONT.get(..length).ok_or("a front")?;
            for room in 0..8 {
                for is_tried_again in [false, true] {
                    if is_refused(rt.alloc(), row, front, (room, is_tried_again))? {
                        some_refused = true;
                    } else {
                        some_written = true;
                    }
                }
            }
        }
        assert!(rt; some_refused && some_written, "of {:?}", row.0);
    }
    Ok(())
}
