//! Bodies of changes, with octets written by hand.

mod edges;
mod matching;
mod memory;
mod reliable;
mod state;

use crate::*;
use dds_topic::{Decoder, Raw, RawValue, Shape, Shapes, Unread};
use rtps_types::KeyHash;
use rtps_wire::{ChangeInfo, Form};
use std::alloc::Global;
use std::test::Fail;

/// A shape BLUE at 10, 20 with size 30, in little-endian CDR.
const BLUE: [u8; 28] = [
    0, 1, 0, 0, 5, 0, 0, 0, 0x42, 0x4c, 0x55, 0x45, 0, 0, 0, 0, 10, 0, 0, 0, 20, 0, 0, 0, 30, 0, 0,
    0,
];

/// The key of BLUE as a key payload.
const BLUE_KEY: [u8; 13] = [0, 1, 0, 0, 5, 0, 0, 0, 0x42, 0x4c, 0x55, 0x45, 0];

/// The MD5 of `00000005 424c5545 00`, by another program.
const BLUE_HASH: KeyHash = KeyHash([
    0xca, 0xc2, 0x17, 0xc3, 0x18, 0x36, 0x3f, 0x8e, 0xf1, 0x16, 0x0e, 0xee, 0xde, 0xf9, 0xe8, 0x86,
]);

/// A key hash that no value here has.
const SENT: KeyHash = KeyHash([7; 16]);

fn info(form: Form, status: u8, hash: Option<KeyHash>) -> ChangeInfo {
    ChangeInfo { form, status, hash }
}

/// Whether a body is BLUE, with its hash.
fn is_blue(body: Body<Shape>) -> bool {
    match &body {
        Body::Value(hash, shape) => {
            *hash == BLUE_HASH
                && shape.color.as_str() == "BLUE"
                && (shape.x, shape.y, shape.size) == (10, 20, 30)
        }
        _ => false,
    }
}

/// Whether a body has the octets of BLUE; raw values have no key.
fn is_raw_blue(body: Body<RawValue>) -> bool {
    match &body {
        Body::Value(hash, raw) => *hash == KeyHash([0; 16]) && raw.body.len() == 24,
        _ => false,
    }
}

#[test]
fn values(rt: HostRuntime) -> Result<(), Fail> {
    let mut shapes = Decoder::new(rt.alloc(), Shapes);
    let info = info(Form::Value, 0, Some(SENT));
    assert!(rt; is_blue(body_of(&mut shapes, info, &BLUE)?));
    Ok(())
}

#[test]
fn raw_values(rt: HostRuntime) -> Result<(), Fail> {
    let mut raw = Decoder::new(rt.alloc(), Raw);
    // Other bits of the status are ignored.
    let info = info(Form::Value, 0xfc, None);
    assert!(rt; is_raw_blue(body_of(&mut raw, info, &BLUE)?));
    Ok(())
}

#[test]
fn ends_of_instances(rt: HostRuntime) -> Result<(), Fail> {
    let mut shapes = Decoder::new(rt.alloc(), Shapes);
    // The key comes from the value, from the key payload, or from the inline QoS.
    for (form, payload, hash) in [
        (Form::Value, BLUE.as_slice(), BLUE_HASH),
        (Form::Key, BLUE_KEY.as_slice(), BLUE_HASH),
        (Form::Nothing, [].as_slice(), SENT),
    ] {
        for (status, is_disposed) in [(1, true), (3, true), (2, false), (6, false)] {
            match body_of(&mut shapes, info(form, status, Some(SENT)), payload)? {
                Body::Disposed(key) => {
                    assert!(rt; is_disposed);
                    assert_eq!(rt; key, hash);
                }
                Body::Unregistered(key) => {
                    assert!(rt; !is_disposed);
                    assert_eq!(rt; key, hash);
                }
                _ => assert!(rt; false, "no end"),
            }
        }
    }
    Ok(())
}

/// Returns why a change can't be decoded, or `None` where it can.
fn reason(alloc: Global, info: ChangeInfo, payload: &[u8]) -> Result<Option<Unread>, Fail> {
    match body_of(&mut Decoder::new(alloc, Shapes), info, payload)? {
        Body::Unread(unread) => Ok(Some(unread)),
        _ => Ok(None),
    }
}

#[test]
fn unread(rt: HostRuntime) -> Result<(), Fail> {
    let list = [0, 3, 0, 0, 5, 0, 0, 0];
    for (form, status, payload, unread) in [
        (Form::Other, 0, BLUE.as_slice(), Unread::NonStandard),
        (Form::Other, 1, BLUE.as_slice(), Unread::NonStandard),
        (Form::Key, 0, [].as_slice(), Unread::NonStandard),
        (Form::Nothing, 0, [].as_slice(), Unread::NonStandard),
        (Form::Value, 0, &BLUE[..3], Unread::Encapsulation),
        (Form::Key, 2, &BLUE[..3], Unread::Encapsulation),
        (Form::Value, 0, list.as_slice(), Unread::Encapsulation),
        (Form::Value, 0, &BLUE[..27], Unread::Malformed),
        (Form::Nothing, 1, [].as_slice(), Unread::NoKey),
    ] {
        let found = reason(rt.alloc(), info(form, status, None), payload)?;
        assert_eq!(rt; found, Some(unread));
    }
    Ok(())
}
