//! Described types, and octets that a peer wrote.

mod peer;

use crate::{Dimensions, Member, Primitive, TopicType, TypeFault, TypeId, Types, XcdrFault};
use peer::{EMP, ENUM_SEQ, K1, K3, NUM, color, dimensions, emp, enum_seq, k1, k3, num};
use rtps_cdr::CdrFault;
use std::alloc::Global;
use std::test::Fail;

const SHORT: XcdrFault = XcdrFault::Cdr(CdrFault::Short);

/// Returns the kind and the octets after the header of a payload, without the padding that the
/// header counts.
fn parts(alloc: Global, payload: &str) -> Result<(u16, Vec<u8>), Fail> {
    let octets = hex::decode(alloc, payload)?;
    let octets = octets.as_slice();
    let (header, body) = octets.split_first_chunk::<4>().ok_or("four octets")?;
    let kind = u16::from(header[0]) * 256 + u16::from(header[1]);
    let padding = (header[3] % 4) as usize;
    let mut all = Vec::new(alloc);
    if padding <= body.len() {
        for octet in &body[..body.len() - padding] {
            all.push(*octet)?;
        }
    }
    Ok((kind, all))
}

/// Whether a type finds the value of a peer, all of it, whatever follows, and nothing in less.
fn finds(alloc: Global, topic: &TopicType, payloads: [&str; 2]) -> Result<bool, Fail> {
    for payload in payloads {
        let (kind, mut body) = parts(alloc, payload)?;
        let count = body.len();
        if topic.look_through(kind, body.as_slice()) != Ok(count) {
            return Ok(false);
        }
        body.push(0xff)?;
        if topic.look_through(kind, body.as_slice()) != Ok(count) {
            return Ok(false);
        }
        for cut in 0..count {
            if cut <= body.len() && topic.look_through(kind, &body[..cut]) != Err(SHORT) {
                return Ok(false);
            }
        }
    }
    Ok(true)
}

#[test]
fn values_of_a_peer_are_found(rt: HostRuntime) -> Result<(), Fail> {
    let alloc = rt.alloc();
    assert!(rt; finds(alloc, &num(alloc)?, NUM)?);
    assert!(rt; finds(alloc, &k1(alloc)?, K1)?);
    assert!(rt; finds(alloc, &k3(alloc)?, K3)?);
    assert!(rt; finds(alloc, &enum_seq(alloc)?, ENUM_SEQ)?);
    assert!(rt; finds(alloc, &emp(alloc, 0)?, EMP)?);
    assert!(rt; finds(alloc, &emp(alloc, 3)?, EMP)?);
    Ok(())
}

/// A place after the header of the second payload of [`ENUM_SEQ`] or of [`EMP`], the octet that is
/// put there, and the fault of that: an enumeration has any number, a header must count what is
/// there, and a truth value is 0 or 1.
const PUT: [(bool, usize, u8, Result<usize, XcdrFault>); 9] = [
    (true, 8, 77, Ok(60)),
    (true, 0, 8, Err(XcdrFault::BadHeader)),
    (true, 0, 13, Err(XcdrFault::BadHeader)),
    (true, 16, 4, Err(XcdrFault::BadHeader)),
    (true, 40, 17, Err(XcdrFault::BadHeader)),
    (true, 34, 2, Err(XcdrFault::Cdr(CdrFault::BadBool))),
    (true, 59, 1, Err(SHORT)),
    (false, 16, 1, Err(XcdrFault::Cdr(CdrFault::BadString))),
    (false, 4, 3, Err(XcdrFault::BadHeader)),
];

#[test]
fn each_fault_has_its_name(rt: HostRuntime) -> Result<(), Fail> {
    let alloc = rt.alloc();
    let colors = enum_seq(alloc)?;
    let texts = emp(alloc, 3)?;
    for (is_colors, place, octet, answer) in PUT {
        let payload = if is_colors { ENUM_SEQ[1] } else { EMP[1] };
        let (kind, mut body) = parts(alloc, payload)?;
        if place < body.len() {
            body[place] = octet;
        }
        let topic = if is_colors { &colors } else { &texts };
        assert_eq!(rt; topic.look_through(kind, body.as_slice()), answer);
    }
    let long = b"\0\0\0\0\0\0\0\0\x05\0\0\0abcd\0";
    assert_eq!(rt; texts.look_through(1, long), Err(XcdrFault::TooLong));
    assert_eq!(rt; emp(alloc, 4)?.look_through(1, long), Ok(17));
    let bad = b"\0\0\0\0\0\0\0\0\x02\0\0\0\xff\0";
    assert_eq!(rt;
        texts.look_through(1, bad),
        Err(XcdrFault::Cdr(CdrFault::NotUtf8))
    );
    for kind in [2, 3, 4, 5, 8, 256] {
        assert_eq!(rt;
            texts.look_through(kind, bad),
            Err(XcdrFault::Encapsulation)
        );
    }
    assert_eq!(rt;
        texts.look_through(0, b"\0\0\0\0\0\0\0\0\0\0\0\x01\0"),
        Ok(13)
    );
    assert_eq!(rt;
        texts.look_through(6, b"\0\0\0\0\0\0\0\x04\0\0\0\0\0\0\0\x01\0"),
        Ok(17)
    );
    Ok(())
}

#[test]
fn other_types_are_refused(rt: HostRuntime) -> Result<(), Fail> {
    let alloc = rt.alloc();
    let mut types = Types::new(alloc);
    assert_eq!(rt; types.sequence(TypeId(0), 0), Err(TypeFault::Unknown));
    assert_eq!(rt;
        types.enumeration(Vec::new(alloc)),
        Err(TypeFault::NoMembers)
    );
    assert_eq!(rt; types.structure(Vec::new(alloc)), Err(TypeFault::NoMembers));
    for sizes in [[0, 2], [65_536, 65_536]] {
        let refused = dimensions(alloc, &sizes)?;
        assert!(rt; refused.err() == Some(TypeFault::BadDimensions));
    }
    assert!(rt; dimensions(alloc, &[])?.err() == Some(TypeFault::BadDimensions));
    let most = dimensions(alloc, &[65_536, 65_535])??;
    assert_eq!(rt; most.sizes(), [65_536u32, 65_535].as_slice());
    let color = color(alloc, &mut types)?;
    assert!(rt; types.contains(color));
    assert_eq!(rt; types.array(TypeId(1), most), Err(TypeFault::Unknown));
    let mut nested = color;
    for _ in 1..32 {
        nested = types.sequence(nested, 0)?;
    }
    assert_eq!(rt; types.sequence(nested, 0), Err(TypeFault::TooDeep));
    assert!(rt; TopicType::new(types, TypeId(32)).err() == Some(TypeFault::Unknown));
    Ok(())
}

#[test]
fn counts_without_items_are_short(rt: HostRuntime) -> Result<(), Fail> {
    let alloc = rt.alloc();
    let mut types = Types::new(alloc);
    let mut nested = types.text(0)?;
    for _ in 1..32 {
        nested = types.sequence(nested, 0)?;
    }
    let topic = TopicType::new(types, nested)?;
    let body = [0xff; 256];
    for kind in [0, 1, 6, 7] {
        assert_eq!(rt; topic.look_through(kind, &body), Err(SHORT));
    }
    Ok(())
}

/// The examples of [`Types`] and of [`TopicType`], and a body that was written by hand: a name of
/// one letter with its NUL, two octets of padding, and three numbers.
#[test]
fn the_examples_run(rt: HostRuntime) -> Result<(), Fail> {
    let alloc = rt.alloc();
    let mut types = Types::new(alloc);
    let frame = types.text(8)?;
    let double = types.primitive(Primitive::Double)?;
    let at = types.array(double, Dimensions::new(vec![in alloc; 3]?)?)?;
    let members = vec![in alloc;
        Member {
            name: String::from_str(alloc, "frame")?,
            of: frame,
            is_key: true
        },
        Member {
            name: String::from_str(alloc, "at")?,
            of: at,
            is_key: false
        },
    ]?;
    let pose = types.structure(members)?;
    let topic = TopicType::new(types, pose)?;
    let body = hex::decode(
        alloc,
        "0200000061000000000000000000f03f00000000000000400000000000000840",
    )?;
    let used = topic.look_through(7, body.as_slice())?;
    assert_eq!(rt; used, 32);
    Ok(())
}
