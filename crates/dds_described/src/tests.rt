//! Values and keys that a peer wrote.

mod hashes;
mod json;
mod peer;

use crate::Described;
use dds_topic::{Catalog, CatalogError, Unread};
use dds_xcdr::{Dimensions, Member, Primitive, TopicType, Types};
use peer::{EMP, ENUM_SEQ, K1, K3, K4, K6, NUM, Written, emp, enum_seq, k1, k3, k4, k6, num};
use rtps_types::Endian;
use std::alloc::Global;
use std::test::Fail;

const MALFORMED: CatalogError = CatalogError::Unread(Unread::Malformed);

/// Returns the kind and the octets after the header of a payload, without the padding that the
/// header counts.
fn parts(alloc: Global, payload: &str) -> Result<(u16, Vec<u8>), Fail> {
    let octets = hex::decode(alloc, payload)?;
    let octets = octets.as_slice();
    let (header, body) = octets.split_first_chunk::<4>().ok_or("four octets")?;
    let kind = u16::from(header[0]) * 256 + u16::from(header[1]);
    let padding = (header[3] % 4) as usize;
    let mut all = Vec::new(alloc);
    if padding <= body.len() {
        for octet in &body[..body.len() - padding] {
            all.push(*octet)?;
        }
    }
    Ok((kind, all))
}

/// Whether the values of a peer are kept, whatever follows, and have the peer's key, and nothing in
/// less is a value.
fn keeps(alloc: Global, catalog: &Described, written: Written) -> Result<bool, Fail> {
    let hash = hex::decode(alloc, written.hash)?;
    for payload in written.values {
        let (kind, mut body) = parts(alloc, payload)?;
        for count in 0..body.len() {
            if catalog.read(alloc, kind, &body[..count]).err() != Some(MALFORMED) {
                return Ok(false);
            }
        }
        let whole = catalog.read(alloc, kind, body.as_slice())?;
        if whole.octets() != body.as_slice() {
            return Ok(false);
        }
        body.push(0xff)?;
        let more = catalog.read(alloc, kind, body.as_slice())?;
        if more.octets() != whole.octets() || more.form() != whole.form() {
            return Ok(false);
        }
        let key = catalog.key_octets(alloc, Endian::Big, &whole)?;
        let low = catalog.key_octets(alloc, Endian::Little, &whole)?;
        let again = catalog.payload_key_octets(alloc, Endian::Big, 1, low.as_slice())?;
        if key.as_slice() != hash.as_slice() || again.as_slice() != hash.as_slice() {
            return Ok(false);
        }
    }
    Ok(true)
}

/// Whether the key payload of a peer has the peer's key, and nothing in less is a key.
fn reads_key(alloc: Global, catalog: &Described, written: Written) -> Result<bool, Fail> {
    let hash = hex::decode(alloc, written.hash)?;
    let (kind, body) = parts(alloc, written.key)?;
    for count in 0..body.len() {
        let cut = catalog.payload_key_octets(alloc, Endian::Big, kind, &body[..count]);
        if cut.err() != Some(MALFORMED) {
            return Ok(false);
        }
    }
    let key = catalog.payload_key_octets(alloc, Endian::Big, kind, body.as_slice())?;
    Ok(key.as_slice() == hash.as_slice())
}

#[test]
fn values_of_a_peer_are_kept(rt: HostRuntime) -> Result<(), Fail> {
    let alloc = rt.alloc();
    assert!(rt; keeps(alloc, &num(alloc)?, NUM)?);
    assert!(rt; keeps(alloc, &k1(alloc)?, K1)?);
    assert!(rt; keeps(alloc, &k3(alloc)?, K3)?);
    assert!(rt; keeps(alloc, &k4(alloc)?, K4)?);
    assert!(rt; keeps(alloc, &k6(alloc)?, K6)?);
    assert!(rt; keeps(alloc, &emp(alloc)?, EMP)?);
    Ok(())
}

#[test]
fn keys_of_a_peer_are_read(rt: HostRuntime) -> Result<(), Fail> {
    let alloc = rt.alloc();
    assert!(rt; reads_key(alloc, &num(alloc)?, NUM)?);
    assert!(rt; reads_key(alloc, &k1(alloc)?, K1)?);
    assert!(rt; reads_key(alloc, &k3(alloc)?, K3)?);
    assert!(rt; reads_key(alloc, &k4(alloc)?, K4)?);
    assert!(rt; reads_key(alloc, &k6(alloc)?, K6)?);
    assert!(rt; reads_key(alloc, &emp(alloc)?, EMP)?);
    Ok(())
}

/// A key of all members is the value in version 1, as the peer wrote it.
#[test]
fn version_2_is_written_as_version_1(rt: HostRuntime) -> Result<(), Fail> {
    let alloc = rt.alloc();
    let catalog = enum_seq(alloc)?;
    let (kind, mut body) = parts(alloc, ENUM_SEQ[1])?;
    let (_, wanted) = parts(alloc, ENUM_SEQ[0])?;
    let value = catalog.read(alloc, kind, body.as_slice())?;
    let key = catalog.key_octets(alloc, Endian::Little, &value)?;
    assert!(rt; key.as_slice() == wanted.as_slice());
    let again = catalog.payload_key_octets(alloc, Endian::Little, kind, body.as_slice())?;
    assert!(rt; again.as_slice() == wanted.as_slice());
    // The header counts one octet less than its items have.
    if let Some(first) = body.first_mut() {
        *first = 11;
    }
    let cut = catalog.payload_key_octets(alloc, Endian::Little, kind, body.as_slice());
    assert!(rt; cut.err() == Some(MALFORMED));
    Ok(())
}

/// A parameter list.
#[test]
fn what_is_not_read_has_a_name(rt: HostRuntime) -> Result<(), Fail> {
    let alloc = rt.alloc();
    let encapsulation = Some(CatalogError::Unread(Unread::Encapsulation));
    let catalog = k3(alloc)?;
    assert!(rt; catalog.read(alloc, 3, &[0; 24]).err() == encapsulation);
    let key = catalog.payload_key_octets(alloc, Endian::Big, 3, &[0; 24]);
    assert!(rt; key.err() == encapsulation);
    Ok(())
}

/// The example of [`Described`], with a body that was written by hand: a name of one letter with its
/// NUL, two octets of padding, and three numbers.
#[test]
fn the_example_runs(rt: HostRuntime) -> Result<(), Fail> {
    let alloc = rt.alloc();
    let mut types = Types::new(alloc);
    let frame = types.text(8)?;
    let double = types.primitive(Primitive::Double)?;
    let at = types.array(double, Dimensions::new(vec![in alloc; 3]?)?)?;
    let members = vec![in alloc;
        Member {
            name: String::from_str(alloc, "frame")?,
            of: frame,
            is_key: true
        },
        Member {
            name: String::from_str(alloc, "at")?,
            of: at,
            is_key: false
        },
    ]?;
    let pose = types.structure(members)?;
    let poses = Described::new(TopicType::new(types, pose)?);
    let body = hex::decode(
        alloc,
        "0200000061000000000000000000f03f00000000000000400000000000000840",
    )?;
    let value = poses.decode(alloc, 7, body.as_slice())?;
    let key = poses.key_payload(alloc, &value)?;
    assert!(rt; key.as_slice() == b"\x02\0\0\0a\0".as_slice());
    Ok(())
}
