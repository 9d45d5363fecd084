//! Types and values of a peer: what Cyclone DDS 0.10.2 wrote of types in IDL, in both versions,
//! with the encapsulation header.

use crate::Described;
use dds_xcdr::{Case, Dimensions, Member, Primitive, TopicType, TypeId, Types};
use std::alloc::Global;
use std::test::Fail;

/// What a peer wrote of one value: its payloads in both versions, its key payload, and the octets of
/// its key hash without the zeros after them.
#[derive(Clone, Copy)]
pub struct Written {
    pub values: [&'static str; 2],
    pub key: &'static str,
    pub hash: &'static str,
}

/// `struct Num { octet o; double d; octet o2; long long ll; short s; float f;
/// @key unsigned long long k; };` of 1, 1.5, 0, -2, 3, -0.5 and 513.
pub const NUM: Written = Written {
    values: [
        "000100000100000000000000000000000000f83f0000000000000000feffffffffffffff0300000000000\
         0bf0102000000000000",
        "0007000001000000000000000000f83f00000000feffffffffffffff03000000000000bf0102000000000000",
    ],
    key: "000700000102000000000000",
    hash: "0000000000000201",
};

/// `struct K1 { @key long a; @key unsigned long long b; };` of 1 and 2. The hash is that of version
/// 1: the peer's, of version 2, has no padding.
pub const K1: Written = Written {
    values: [
        "0001000001000000000000000200000000000000",
        "00070000010000000200000000000000",
    ],
    key: "00070000010000000200000000000000",
    hash: "00000001000000000000000000000002",
};

/// `struct N { short p; long long q; }; struct K3 { @key N n; long v; };` of 1, 2 and 3.
pub const K3: Written = Written {
    values: [
        "000100000100000000000000020000000000000003000000",
        "0007000001000000020000000000000003000000",
    ],
    key: "00070000010000000200000000000000",
    hash: "00010000000000000000000000000002",
};

/// `struct Inner { @key long id; float f; }; struct K4 { long v; @key Inner i; };` of 1, 7 and 1.5.
pub const K4: Written = Written {
    values: [
        "0001000001000000070000000000c03f",
        "0007000001000000070000000000c03f",
    ],
    key: "0007000007000000",
    hash: "00000007",
};

/// `struct K6 { @key string<20> s; @key octet o; };` of ab and 9. The peer's hash is these octets
/// with zeros, where the standard has their MD5, as the key may be longer than 16 octets.
pub const K6: Written = Written {
    values: ["000100000300000061620009", "000700000300000061620009"],
    key: "000700000300000061620009",
    hash: "0000000361620009",
};

/// `struct Emp { sequence<long> a; sequence<string> b; string s; };` of nothing, without a key. The
/// last three octets are padding, which the header counts.
pub const EMP: Written = Written {
    values: [
        "0001000300000000000000000100000000000000",
        "000700030000000004000000000000000100000000000000",
    ],
    key: "00070000",
    hash: "",
};

/// `enum Color { RED, GREEN, BLUE }; struct EnumSeq { sequence<Color> c; Color ar[2];
/// sequence<boolean> b; boolean f; long after; sequence<sequence<octet> > ss; };` of green and
/// blue, red and blue, true, false and true, true, 9, and two sequences: 1, 2 and 3, and none. In
/// version 1, and in version 2.
pub const ENUM_SEQ: [&str; 2] = [
    "00010000020000000100000002000000000000000200000003000000010001010900000002000000030000000102\
     030000000000",
    "000700000c0000000200000001000000020000000800000000000000020000000300000001000101090000001000\
     000002000000030000000102030000000000",
];

/// Adds a struct of these members.
pub fn structure(
    alloc: Global,
    types: &mut Types,
    members: &[(&str, TypeId, bool)],
) -> Result<TypeId, Fail> {
    let mut all = Vec::new(alloc);
    for (name, of, is_key) in members {
        all.push(Member {
            name: String::from_str(alloc, name)?,
            of: *of,
            is_key: *is_key,
        })?;
    }
    Ok(types.structure(all)?)
}

/// The catalog of [`NUM`].
pub fn num(alloc: Global) -> Result<Described, Fail> {
    let mut types = Types::new(alloc);
    let octet = types.primitive(Primitive::Octet)?;
    let double = types.primitive(Primitive::Double)?;
    let unsigned = types.primitive(Primitive::Uint64)?;
    let long_long = types.primitive(Primitive::Int64)?;
    let short = types.primitive(Primitive::Int16)?;
    let float = types.primitive(Primitive::Float)?;
    let members = [
        ("o", octet, false),
        ("d", double, false),
        ("o2", octet, false),
        ("ll", long_long, false),
        ("s", short, false),
        ("f", float, false),
        ("k", unsigned, true),
    ];
    let of = structure(alloc, &mut types, &members)?;
    Ok(Described::new(TopicType::new(types, of)?))
}

/// The catalog of [`K1`].
pub fn k1(alloc: Global) -> Result<Described, Fail> {
    let mut types = Types::new(alloc);
    let long = types.primitive(Primitive::Int32)?;
    let unsigned = types.primitive(Primitive::Uint64)?;
    let of = structure(
        alloc,
        &mut types,
        &[("a", long, true), ("b", unsigned, true)],
    )?;
    Ok(Described::new(TopicType::new(types, of)?))
}

/// The catalog of [`K3`].
pub fn k3(alloc: Global) -> Result<Described, Fail> {
    let mut types = Types::new(alloc);
    let short = types.primitive(Primitive::Int16)?;
    let long_long = types.primitive(Primitive::Int64)?;
    let long = types.primitive(Primitive::Int32)?;
    let n = structure(
        alloc,
        &mut types,
        &[("p", short, false), ("q", long_long, false)],
    )?;
    let of = structure(alloc, &mut types, &[("n", n, true), ("v", long, false)])?;
    Ok(Described::new(TopicType::new(types, of)?))
}

/// The catalog of [`K4`].
pub fn k4(alloc: Global) -> Result<Described, Fail> {
    let mut types = Types::new(alloc);
    let long = types.primitive(Primitive::Int32)?;
    let float = types.primitive(Primitive::Float)?;
    let inner = structure(
        alloc,
        &mut types,
        &[("id", long, true), ("f", float, false)],
    )?;
    let of = structure(alloc, &mut types, &[("v", long, false), ("i", inner, true)])?;
    Ok(Described::new(TopicType::new(types, of)?))
}

/// The catalog of [`K6`].
pub fn k6(alloc: Global) -> Result<Described, Fail> {
    let mut types = Types::new(alloc);
    let text = types.text(20)?;
    let octet = types.primitive(Primitive::Octet)?;
    let of = structure(alloc, &mut types, &[("s", text, true), ("o", octet, true)])?;
    Ok(Described::new(TopicType::new(types, of)?))
}

/// The catalog of [`EMP`].
pub fn emp(alloc: Global) -> Result<Described, Fail> {
    let mut types = Types::new(alloc);
    let long = types.primitive(Primitive::Int32)?;
    let longs = types.sequence(long, 0)?;
    let text = types.text(0)?;
    let texts = types.sequence(text, 0)?;
    let members = [("a", longs, false), ("b", texts, false), ("s", text, false)];
    let of = structure(alloc, &mut types, &members)?;
    Ok(Described::new(TopicType::new(types, of)?))
}

/// The catalog of [`ENUM_SEQ`], with all members in its key.
pub fn enum_seq(alloc: Global) -> Result<Described, Fail> {
    let mut types = Types::new(alloc);
    let mut cases = Vec::new(alloc);
    for (name, value) in [("RED", 0), ("GREEN", 1), ("BLUE", 2)] {
        cases.push(Case {
            name: String::from_str(alloc, name)?,
            value,
        })?;
    }
    let color = types.enumeration(cases)?;
    let colors = types.sequence(color, 0)?;
    let two = types.array(color, Dimensions::new(vec![in alloc; 2]?)?)?;
    let boolean = types.primitive(Primitive::Boolean)?;
    let truths = types.sequence(boolean, 0)?;
    let long = types.primitive(Primitive::Int32)?;
    let octet = types.primitive(Primitive::Octet)?;
    let octets = types.sequence(octet, 0)?;
    let rows = types.sequence(octets, 0)?;
    let members = [
        ("c", colors, true),
        ("ar", two, true),
        ("b", truths, true),
        ("f", boolean, true),
        ("after", long, true),
        ("ss", rows, true),
    ];
    let of = structure(alloc, &mut types, &members)?;
    Ok(Described::new(TopicType::new(types, of)?))
}
