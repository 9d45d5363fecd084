//! Key hashes, as a peer wrote them or by the standard.

use super::parts;
use super::peer::{self, EMP, K1, K3, K4, K6, NUM, Written, emp, k1, k3, k4, k6, num};
use crate::Described;
use dds_topic::{Catalog, CatalogError, Unread};
use dds_xcdr::{TopicType, Types};
use rtps_types::KeyHash;
use std::alloc::Global;
use std::test::Fail;

/// `struct K5 { @key string<3> s; };` of ab.
const K5: Written = Written {
    values: ["000100010300000061620000", "000700010300000061620000"],
    key: "0007000003000000616200",
    hash: "00000003616200",
};

/// The catalog of a struct whose only member is a string, which is its key.
fn text_key(alloc: Global, bound: u32) -> Result<Described, Fail> {
    let mut types = Types::new(alloc);
    let text = types.text(bound)?;
    let of = peer::structure(alloc, &mut types, &[("s", text, true)])?;
    Ok(Described::new(TopicType::new(types, of)?))
}

fn is_hash(alloc: Global, hash: KeyHash, wanted: &str) -> Result<bool, Fail> {
    let wanted = hex::decode(alloc, wanted)?;
    Ok(hash.0.as_slice() == wanted.as_slice())
}

/// Whether the values and the key payload of a peer have this key hash, as have the key payloads of
/// the values.
fn has_hash(
    alloc: Global,
    catalog: &Described,
    written: Written,
    wanted: &str,
) -> Result<bool, Fail> {
    for payload in written.values {
        let (kind, body) = parts(alloc, payload)?;
        let (hash, value) = catalog.decode_keyed(&mut (), alloc, kind, body.as_slice())?;
        let payload = catalog.key_payload(alloc, &value)?;
        let again = catalog.key_of_payload(alloc, 1, payload.as_slice())?;
        if hash != catalog.key_of(alloc, &value)? || hash != again {
            return Ok(false);
        }
        if !is_hash(alloc, hash, wanted)? {
            return Ok(false);
        }
    }
    let (kind, body) = parts(alloc, written.key)?;
    is_hash(
        alloc,
        catalog.key_of_payload(alloc, kind, body.as_slice())?,
        wanted,
    )
}

/// The hashes that the peer wrote in version 1; of [`EMP`] too, which has no key.
#[test]
fn short_keys_have_the_hash_of_a_peer(rt: HostRuntime) -> Result<(), Fail> {
    let alloc = rt.alloc();
    let hash = "00000000000002010000000000000000";
    assert!(rt; has_hash(alloc, &num(alloc)?, NUM, hash)?);
    let hash = "00000001000000000000000000000002";
    assert!(rt; has_hash(alloc, &k1(alloc)?, K1, hash)?);
    let hash = "00010000000000000000000000000002";
    assert!(rt; has_hash(alloc, &k3(alloc)?, K3, hash)?);
    let hash = "00000007000000000000000000000000";
    assert!(rt; has_hash(alloc, &k4(alloc)?, K4, hash)?);
    let hash = "00000003616200000000000000000000";
    assert!(rt; has_hash(alloc, &text_key(alloc, 3)?, K5, hash)?);
    let hash = "00000000000000000000000000000000";
    assert!(rt; has_hash(alloc, &emp(alloc)?, EMP, hash)?);
    Ok(())
}

/// The MD5 of the octets of [`K6`]'s hash, and of a string's without a bound: by `md5sum`.
#[test]
fn other_keys_have_their_md5(rt: HostRuntime) -> Result<(), Fail> {
    let alloc = rt.alloc();
    let hash = "d85fb606221519f9865bc16343ef30f3";
    assert!(rt; has_hash(alloc, &k6(alloc)?, K6, hash)?);
    let catalog = text_key(alloc, 0)?;
    let key = catalog.key_of_payload(alloc, 7, b"\x04\0\0\0key\0")?;
    assert!(rt; is_hash(alloc, key, "bbf7ed33a49ac9ffc6cec03650f955b3")?);
    Ok(())
}

/// The octets of [`K4`] are too few for [`K3`], and have no string where [`K6`] has one.
#[test]
fn a_value_of_another_type_has_the_least_key(rt: HostRuntime) -> Result<(), Fail> {
    let alloc = rt.alloc();
    let (kind, body) = parts(alloc, K4.values[0])?;
    let other = k4(alloc)?.decode(alloc, kind, body.as_slice())?;
    let catalog = k3(alloc)?;
    assert!(rt; catalog.key_payload(alloc, &other)?.as_slice() == [0; 16].as_slice());
    assert!(rt; catalog.key_of(alloc, &other)? == KeyHash([0; 16]));
    let catalog = k6(alloc)?;
    let payload = catalog.key_payload(alloc, &other)?;
    assert!(rt; payload.as_slice() == b"\x01\0\0\0\0\0".as_slice());
    let hash = catalog.key_of(alloc, &other)?;
    assert!(rt; is_hash(alloc, hash, "bf09508c8def1cf2da5a303abeb12465")?);
    assert!(rt; catalog.key_of_payload(alloc, 1, payload.as_slice())? == hash);
    Ok(())
}

/// A parameter list is no key payload, and nothing of a string is none.
#[test]
fn what_is_no_key_payload_has_a_name(rt: HostRuntime) -> Result<(), Fail> {
    let alloc = rt.alloc();
    let catalog = text_key(alloc, 3)?;
    let key = catalog.key_of_payload(alloc, 3, b"\x01\0\0\0\0");
    assert!(rt; key.err() == Some(CatalogError::Unread(Unread::Encapsulation)));
    let key = catalog.key_of_payload(alloc, 1, b"\x01\0\0\0");
    assert!(rt; key.err() == Some(CatalogError::Unread(Unread::Malformed)));
    // Four letters, where the bound is three.
    let key = catalog.key_of_payload(alloc, 1, b"\x05\0\0\0abcd\0");
    assert!(rt; key.err() == Some(CatalogError::Unread(Unread::Malformed)));
    Ok(())
}
