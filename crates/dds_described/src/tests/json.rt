//! Values that a peer wrote, and texts, as JSON.

use super::parts;
use super::peer::{EMP, ENUM_SEQ, K3, NUM, emp, enum_seq, k3, num};
use crate::Described;
use crate::json::push_json;
use crate::json_text::push_string;
use dds_xcdr::{Dimensions, Member, Primitive, TopicType, Types};
use std::alloc::Global;
use std::test::Fail;

/// Returns the JSON of the value in a payload, after a text that is there.
fn json(alloc: Global, catalog: &Described, payload: &str) -> Result<Vec<u8>, Fail> {
    let (kind, body) = parts(alloc, payload)?;
    let value = catalog.read(alloc, kind, body.as_slice())?;
    let mut out = b"> ".to_vec(alloc)?;
    push_json(&catalog.topic, &mut out, &value)?;
    Ok(out)
}

#[test]
fn values_of_a_peer_are_printed(rt: HostRuntime) -> Result<(), Fail> {
    let alloc = rt.alloc();
    let catalog = enum_seq(alloc)?;
    for payload in ENUM_SEQ {
        let out = json(alloc, &catalog, payload)?;
        assert!(rt;
            out.as_slice()
                == b"> {\"c\":[\"GREEN\",\"BLUE\"],\"ar\":[\"RED\",\"BLUE\"],\
            \"b\":[true,false,true],\"f\":true,\"after\":9,\"ss\":[[1,2,3],[]]}"
                    .as_slice()
        );
    }
    for payload in K3.values {
        let out = json(alloc, &k3(alloc)?, payload)?;
        assert!(rt; out.as_slice() == b"> {\"n\":{\"p\":1,\"q\":2},\"v\":3}".as_slice());
    }
    for payload in NUM.values {
        let out = json(alloc, &num(alloc)?, payload)?;
        assert!(rt;
            out.as_slice()
                == b"> {\"o\":1,\"d\":1.5,\"o2\":0,\"ll\":-2,\"s\":3,\"f\":-0.5,\"k\":513}".as_slice()
        );
    }
    for payload in EMP.values {
        let out = json(alloc, &emp(alloc)?, payload)?;
        assert!(rt; out.as_slice() == b"> {\"a\":[],\"b\":[],\"s\":\"\"}".as_slice());
    }
    Ok(())
}

/// The number 7, in the place of red, is no value that has a name. The octets of a K3 are no value of
/// the other type.
#[test]
fn numbers_without_a_name_and_other_values(rt: HostRuntime) -> Result<(), Fail> {
    let alloc = rt.alloc();
    let catalog = enum_seq(alloc)?;
    let (kind, mut body) = parts(alloc, ENUM_SEQ[0])?;
    if let Some(octet) = body.get_mut(12) {
        *octet = 7;
    }
    let value = catalog.read(alloc, kind, body.as_slice())?;
    let mut out = Vec::new(alloc);
    push_json(&catalog.topic, &mut out, &value)?;
    assert!(rt; out.starts_with(b"{\"c\":[\"GREEN\",\"BLUE\"],\"ar\":[7,\"BLUE\"],"));
    let (kind, body) = parts(alloc, K3.values[0])?;
    let other = k3(alloc)?.read(alloc, kind, body.as_slice())?;
    let mut out = Vec::new(alloc);
    push_json(&catalog.topic, &mut out, &other)?;
    assert!(rt; out.as_slice() == b"null".as_slice());
    Ok(())
}

#[test]
fn strings_are_escaped(rt: HostRuntime) -> Result<(), Fail> {
    let mut out = Vec::new(rt.alloc());
    push_string(&mut out, "a\"b\\c\n\u{7f}\u{e4}\u{20ac}\u{1f600}~ ")?;
    assert!(rt;
        out.as_slice() == b"\"a\\\"b\\\\c\\u000a\\u007f\\u00e4\\u20ac\\ud83d\\ude00~ \"".as_slice()
    );
    Ok(())
}

/// `struct Grid { char c; short s[2][3]; };` of an umlaut in Latin-1, and -1, 2, 3, 4, 5 and 6.
#[test]
fn arrays_are_in_arrays(rt: HostRuntime) -> Result<(), Fail> {
    let alloc = rt.alloc();
    let mut types = Types::new(alloc);
    let letter = types.primitive(Primitive::Char)?;
    let short = types.primitive(Primitive::Int16)?;
    let mut sizes = Vec::new(alloc);
    sizes.push(2)?;
    sizes.push(3)?;
    let grid = types.array(short, Dimensions::new(sizes)?)?;
    let members = vec![in alloc;
        Member {
            name: String::from_str(alloc, "c")?,
            of: letter,
            is_key: false
        },
        Member {
            name: String::from_str(alloc, "s")?,
            of: grid,
            is_key: false
        },
    ]?;
    let of = types.structure(members)?;
    let catalog = Described::new(TopicType::new(types, of)?);
    let out = json(alloc, &catalog, "00070000e400ffff02000300040005000600")?;
    assert!(rt; out.as_slice() == b"> {\"c\":\"\\u00e4\",\"s\":[[-1,2,3],[4,5,6]]}".as_slice());
    Ok(())
}
