//! Refused growths.

use crate::color::Color;
use crate::raw::raw_value;
use crate::shapes::{key_octets, read_shape};
use crate::{Catalog, CatalogError, ColorKeys, Raw, Shapes, TextCatalog};
use linked_list_allocator::LocalHeap;
use rtps_cdr::CdrReader;
use rtps_types::Endian;
use std::alloc::{Allocator, Global};
use std::test::Fail;

/// The calls that take the allocator to use.
#[derive(Clone, Copy, Debug)]
enum Call {
    Color,
    ReadShape,
    KeyOctets,
    RawValue,
    /// Appends the text of a shape to three octets.
    ShapeText,
    /// Appends the text of a raw value to three octets.
    RawText,
}

/// The body of a shape with a color of 24 octets at 10, 20 with size 30.
const BODY: &[u8] = b"\x19\0\0\0abcdefghijklmnopqrstuvwx\0\0\0\0\x0a\0\0\0\x14\0\0\0\x1e\0\0\0";

/// Each call with the octets of what it returns or appends.
const CALLS: [(Call, &[u8]); 6] = [
    (Call::Color, b"abcdefghijklmnopqrstuvwx"),
    (Call::ReadShape, b"abcdefghijklmnopqrstuvwx"),
    (Call::KeyOctets, b"\x19\0\0\0abcdefghijklmnopqrstuvwx\0"),
    (Call::RawValue, BODY),
    (
        Call::ShapeText,
        b"at 6162636465666768696a6b6c6d6e6f707172737475767778 10 20 30",
    ),
    (Call::RawText, b"at 01ab42"),
];

/// Appends the text of the value with this body to three octets. Where memory is refused, these are
/// left.
fn appended<A: Allocator + Copy, C: TextCatalog>(
    (alloc, heap): (Global, A),
    catalog: &C,
    body: &[u8],
) -> Result<Option<Vec<u8>>, Fail> {
    let value = catalog.decode(alloc, 1, body)?;
    let mut out = Vec::new(heap);
    if out.extend_from_slice(b"at ").is_err() {
        return Ok(None);
    }
    let is_whole = catalog.push_text(&mut out, &value).is_ok();
    if !out.as_slice().starts_with(b"at ") {
        return Err(Fail::new("what was there is lost"));
    }
    if is_whole {
        return Ok(Some(out.as_slice().to_vec(alloc)?));
    }
    Ok(None)
}

/// Returns the octets of what a call returns or appends in a heap; `None` where memory is refused.
fn given<A: Allocator + Copy>(alloc: Global, heap: A, call: Call) -> Result<Option<Vec<u8>>, Fail> {
    let name = "abcdefghijklmnopqrstuvwx";
    let octets = match call {
        Call::Color => match Color::new(heap, name) {
            Ok(color) => color.as_str().as_bytes().to_vec(alloc)?,
            Err(_) => return Ok(None),
        },
        Call::ReadShape => match read_shape(heap, &mut CdrReader::new(BODY, Endian::Little)) {
            Ok(shape) => shape.color.as_str().as_bytes().to_vec(alloc)?,
            Err(_) => return Ok(None),
        },
        Call::KeyOctets => match key_octets(heap, name) {
            Ok(octets) => octets.as_slice().to_vec(alloc)?,
            Err(_) => return Ok(None),
        },
        Call::RawValue => match raw_value(heap, 1, BODY) {
            Ok(value) => value.body.as_slice().to_vec(alloc)?,
            Err(_) => return Ok(None),
        },
        Call::ShapeText => return appended((alloc, heap), &Shapes, BODY),
        Call::RawText => return appended((alloc, heap), &Raw, b"\x01\xab\x42"),
    };
    Ok(Some(octets))
}

#[test]
fn answers_again_what_was_refused(rt: HostRuntime) -> Result<(), Fail> {
    let alloc = rt.alloc();
    for (call, wanted) in CALLS {
        let (mut some_refused, mut some_made) = (false, false);
        for size in 0..24 {
            let heap = LocalHeap::new(alloc, 1024)?;
            let others = Vec::<u8, _>::with_capacity(&heap, 1024 - size * 16)?;
            let mut found = given(alloc, &heap, call)?;
            drop(others);
            assert_eq!(rt; heap.used(), 0, "of {call:?}");
            if found.is_some() {
                some_made = true;
            } else {
                some_refused = true;
                found = given(alloc, alloc, call)?;
            }
            let is_wanted = found.is_some_and(|octets| octets.as_slice() == wanted);
            assert!(rt; is_wanted, "of {call:?} with {size}");
        }
        assert!(rt; some_refused && some_made, "of {call:?}");
    }
    Ok(())
}

/// The calls of a catalog, which allocate where the program does.
#[derive(Clone, Copy, Debug)]
enum Asked {
    /// Decodes [`BODY`], and returns its text.
    Decode,
    Text,
    KeyPayload,
    KeyOf,
    /// Returns the key hash that [`BODY`] is decoded with.
    DecodeKeyed,
    /// Returns the key hash of [`BODY`] as a key payload.
    KeyOfPayload,
}

/// The MD5 of `00000019`, the color and its NUL, by another program.
const HASH: &[u8] = b"\xa2\xe2\x94\x97\xfa\xea\xf3\xd4\xe2\x9b\x8c\x0c\xc7\x13\x8f\x6c";

const TEXT: &[u8] = b"6162636465666768696a6b6c6d6e6f707172737475767778 10 20 30";

/// Each call with the octets that it returns for [`BODY`].
const ASKED: [(Asked, &[u8]); 6] = [
    (Asked::Decode, TEXT),
    (Asked::Text, TEXT),
    (Asked::KeyPayload, b"\x19\0\0\0abcdefghijklmnopqrstuvwx\0"),
    (Asked::KeyOf, HASH),
    (Asked::DecodeKeyed, HASH),
    (Asked::KeyOfPayload, HASH),
];

/// Returns the octets of what a call returns.
fn outcome_of<C: TextCatalog>(
    alloc: Global,
    catalog: &C,
    (value, memo): (&C::Value, &mut C::Memo),
    what: Asked,
) -> Result<Vec<u8>, CatalogError> {
    let key = match what {
        Asked::Decode => {
            let decoded = catalog.decode(alloc, 1, BODY)?;
            return Ok(catalog.text(alloc, &decoded)?);
        }
        Asked::Text => return Ok(catalog.text(alloc, value)?),
        Asked::KeyPayload => return Ok(catalog.key_payload(alloc, value)?),
        Asked::KeyOf => catalog.key_of(alloc, value)?,
        Asked::DecodeKeyed => catalog.decode_keyed(memo, alloc, 1, BODY)?.0,
        Asked::KeyOfPayload => catalog.key_of_payload(alloc, 1, BODY)?,
    };
    Ok(key.0.to_vec(alloc)?)
}

/// `rt try --test --fail-alloc N` refuses one growth, at one of these calls or elsewhere.
#[test]
fn a_catalog_answers_again_what_was_refused(rt: HostRuntime) -> Result<(), Fail> {
    let alloc = rt.alloc();
    let shape = Shapes.decode(alloc, 1, BODY)?;
    let mut memo = ColorKeys::default();
    for (what, wanted) in ASKED {
        let mut found = outcome_of(alloc, &Shapes, (&shape, &mut memo), what);
        if matches!(found, Err(CatalogError::NoMemory)) {
            found = outcome_of(alloc, &Shapes, (&shape, &mut memo), what);
        }
        assert!(rt; found?.as_slice() == wanted, "of {what:?}");
    }
    Ok(())
}
