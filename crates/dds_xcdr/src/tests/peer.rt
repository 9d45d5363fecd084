//! Types and values of a peer: what Cyclone DDS 0.10.2 wrote of types in IDL, in both versions,
//! with the encapsulation header.

use crate::{Case, Dimensions, Member, Primitive, TopicType, TypeFault, TypeId, Types};
use std::alloc::{AllocError, Global};
use std::test::Fail;

/// `struct Num { octet o; double d; octet o2; long long ll; short s; float f;
/// @key unsigned long long k; };` of 1, 1.5, 0, -2, 3, -0.5 and 513.
pub const NUM: [&str; 2] = [
    "000100000100000000000000000000000000f83f0000000000000000feffffffffffffff03000000000000bf\
     0102000000000000",
    "0007000001000000000000000000f83f00000000feffffffffffffff03000000000000bf0102000000000000",
];

/// `struct K1 { @key long a; @key unsigned long long b; };` of 1 and 2.
pub const K1: [&str; 2] = [
    "0001000001000000000000000200000000000000",
    "00070000010000000200000000000000",
];

/// `struct N { short p; long long q; }; struct K3 { @key N n; long v; };` of 1, 2 and 3.
pub const K3: [&str; 2] = [
    "000100000100000000000000020000000000000003000000",
    "0007000001000000020000000000000003000000",
];

/// `enum Color { RED, GREEN, BLUE }; struct EnumSeq { sequence<Color> c; Color ar[2];
/// sequence<boolean> b; boolean f; long after; sequence<sequence<octet> > ss; };` of green and
/// blue, red and blue, true, false and true, true, 9, and two sequences: 1, 2 and 3, and none.
pub const ENUM_SEQ: [&str; 2] = [
    "00010000020000000100000002000000000000000200000003000000010001010900000002000000030000000102\
     030000000000",
    "000700000c0000000200000001000000020000000800000000000000020000000300000001000101090000001000\
     000002000000030000000102030000000000",
];

/// `struct Emp { sequence<long> a; sequence<string> b; string s; };` of nothing. The last three
/// octets are padding, which the header counts.
pub const EMP: [&str; 2] = [
    "0001000300000000000000000100000000000000",
    "000700030000000004000000000000000100000000000000",
];

/// Adds a struct of these members.
pub fn structure(
    alloc: Global,
    types: &mut Types,
    members: &[(&str, TypeId)],
) -> Result<TypeId, Fail> {
    let mut all = Vec::new(alloc);
    for (name, of) in members {
        all.push(Member {
            name: String::from_str(alloc, name)?,
            of: *of,
            is_key: false,
        })?;
    }
    Ok(types.structure(all)?)
}

/// Adds an enumeration of three colors.
pub fn color(alloc: Global, types: &mut Types) -> Result<TypeId, Fail> {
    let mut cases = Vec::new(alloc);
    for (name, value) in [("RED", 0), ("GREEN", 1), ("BLUE", 2)] {
        cases.push(Case {
            name: String::from_str(alloc, name)?,
            value,
        })?;
    }
    Ok(types.enumeration(cases)?)
}

/// Returns dimensions of these sizes.
pub fn dimensions(
    alloc: Global,
    sizes: &[u32],
) -> Result<Result<Dimensions, TypeFault>, AllocError> {
    let mut all = Vec::new(alloc);
    for size in sizes {
        all.push(*size)?;
    }
    Ok(Dimensions::new(all))
}

/// The type of [`NUM`].
pub fn num(alloc: Global) -> Result<TopicType, Fail> {
    let mut types = Types::new(alloc);
    let octet = types.primitive(Primitive::Octet)?;
    let double = types.primitive(Primitive::Double)?;
    let long_long = types.primitive(Primitive::Int64)?;
    let short = types.primitive(Primitive::Int16)?;
    let float = types.primitive(Primitive::Float)?;
    let unsigned = types.primitive(Primitive::Uint64)?;
    let members = [
        ("o", octet),
        ("d", double),
        ("o2", octet),
        ("ll", long_long),
        ("s", short),
        ("f", float),
        ("k", unsigned),
    ];
    let of = structure(alloc, &mut types, &members)?;
    Ok(TopicType::new(types, of)?)
}

/// The type of [`K1`].
pub fn k1(alloc: Global) -> Result<TopicType, Fail> {
    let mut types = Types::new(alloc);
    let long = types.primitive(Primitive::Int32)?;
    let unsigned = types.primitive(Primitive::Uint64)?;
    let of = structure(alloc, &mut types, &[("a", long), ("b", unsigned)])?;
    Ok(TopicType::new(types, of)?)
}

/// The type of [`K3`].
pub fn k3(alloc: Global) -> Result<TopicType, Fail> {
    let mut types = Types::new(alloc);
    let short = types.primitive(Primitive::Int16)?;
    let long_long = types.primitive(Primitive::Int64)?;
    let long = types.primitive(Primitive::Int32)?;
    let inner = structure(alloc, &mut types, &[("p", short), ("q", long_long)])?;
    let of = structure(alloc, &mut types, &[("n", inner), ("v", long)])?;
    Ok(TopicType::new(types, of)?)
}

/// The type of [`ENUM_SEQ`].
pub fn enum_seq(alloc: Global) -> Result<TopicType, Fail> {
    let mut types = Types::new(alloc);
    let color = color(alloc, &mut types)?;
    let colors = types.sequence(color, 0)?;
    let two = types.array(color, dimensions(alloc, &[2])??)?;
    let boolean = types.primitive(Primitive::Boolean)?;
    let truths = types.sequence(boolean, 0)?;
    let long = types.primitive(Primitive::Int32)?;
    let octet = types.primitive(Primitive::Octet)?;
    let octets = types.sequence(octet, 0)?;
    let rows = types.sequence(octets, 0)?;
    let members = [
        ("c", colors),
        ("ar", two),
        ("b", truths),
        ("f", boolean),
        ("after", long),
        ("ss", rows),
    ];
    let of = structure(alloc, &mut types, &members)?;
    Ok(TopicType::new(types, of)?)
}

/// The type of [`EMP`], of texts with a bound.
pub fn emp(alloc: Global, bound: u32) -> Result<TopicType, Fail> {
    let mut types = Types::new(alloc);
    let long = types.primitive(Primitive::Int32)?;
    let longs = types.sequence(long, 0)?;
    let text = types.text(bound)?;
    let texts = types.sequence(text, 0)?;
    let of = structure(
        alloc,
        &mut types,
        &[("a", longs), ("b", texts), ("s", text)],
    )?;
    Ok(TopicType::new(types, of)?)
}
