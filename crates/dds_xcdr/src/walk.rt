//! A walk over the octets of a value. The recursion goes from a type to those that it names, which
//! stand before it: at most 32 types deep, and four calls for each.

ghost use Rattle.std.specs.Prelude.{◌≡◌, ◌<◌, ◌+◌, ◌↔◌, ◌≢◌, IsTrue, IfSome, OnOk, OnErr, List, length};
ghost use Rattle.std.specs.List.{All};
ghost use Rattle.dds_xcdr.specs.declared.fault.XcdrFault.TheVariants.{Encapsulation};
ghost use Rattle.dds_xcdr.specs.Spans.{AreCountedItems, AreItems, AreMembers, IsBoundedText, IsSize, IsTruth, IsValue, Passes, Skips};
ghost use Rattle.dds_xcdr.specs.Types.{fields_in, meant, plain, type_in, types_of};
ghost use Rattle.dds_xcdr.specs.Xcdr.{IsWithin, alignment, has_header};
ghost use Rattle.dds_xcdr.specs.Xtype.{Xtype, Array, Digits, Number, Sequence, number_size};

use crate::{Dimensions, Member, Node, Primitive, TypeId, Types, Version, XcdrFault};
use rtps_cdr::CdrReader;

/// Returns the alignment of a number of `size` octets.
fn alignment(version: Version, size: usize) -> usize
    ensures { result ≡ alignment version size }
{
    match version {
        Version::One => size,
        Version::Two => size.min(4),
    }
}

/// Passes over octets.
fn skip_octets(count: usize, reader: &mut CdrReader<'_>) -> Result<(), XcdrFault>
    ensures { Skips count reader.old reader.new result }
{
    match reader.read_octets(count) {
        Ok(_) => Ok(()),
        Err(fault) => Err(XcdrFault::Cdr(fault)),
    }
}

/// Passes over numbers, at once: only the first has padding before it.
fn skip_numbers(
    version: Version,
    size: usize,
    count: u32,
    reader: &mut CdrReader<'_>,
) -> Result<(), XcdrFault>
    requires { IsSize size }
    ensures { Passes (AreItems version (Number Digits size) count reader.old.endian) reader.old reader.new
        result }
{
    if count == 0 {
        return Ok(());
    }
    let alignment = alignment(version, size);
    let gap = (alignment - reader.position() % alignment) % alignment;
    skip_octets(gap + size * count as usize, reader)
}

/// Passes over a truth value.
fn skip_truth(reader: &mut CdrReader<'_>) -> Result<(), XcdrFault>
    ensures { Passes IsTruth reader.old reader.new result }
{
    match reader.read_bool() {
        Ok(_) => Ok(()),
        Err(fault) => Err(XcdrFault::Cdr(fault)),
    }
}

/// Whether a length is within a bound, of which 0 is none.
fn is_within(bound: u32, count: usize) -> bool
    ensures { IsTrue result ↔ IsWithin bound count }
{
    bound == 0 || count <= bound as usize
}

/// Passes over a string.
fn skip_text(bound: u32, reader: &mut CdrReader<'_>) -> Result<(), XcdrFault>
    ensures { Passes (IsBoundedText bound reader.old.endian) reader.old reader.new result }
{
    match reader.read_string() {
        Ok(text) => {
            if is_within(bound, text.len()) {
                Ok(())
            } else {
                Err(XcdrFault::TooLong)
            }
        }
        Err(fault) => Err(XcdrFault::Cdr(fault)),
    }
}

/// Passes over a value of a primitive type.
fn skip_primitive(
    of: Primitive,
    version: Version,
    reader: &mut CdrReader<'_>,
) -> Result<(), XcdrFault>
    ensures { Passes (IsValue version (plain of) reader.old.endian) reader.old reader.new result }
{
    match of.number_size() {
        Some(size) => skip_numbers(version, size, 1, reader),
        None => skip_truth(reader),
    }
}

/// Whether the reader has passed `count` octets since a position; `BadHeader` if not.
fn ends_at(start: usize, count: u32, reader: &CdrReader<'_>) -> Result<(), XcdrFault>
    ensures ok { OnOk result (reader.now.position ≡ start + count) }
    ensures err { OnErr result (reader.now.position ≢ start + count) }
    ensures known { result ≢ Err Encapsulation }
{
    let end = reader.position();
    if start <= end && end - start == count as usize {
        Ok(())
    } else {
        Err(XcdrFault::BadHeader)
    }
}

/// Returns the size of the numbers that values of a type are encoded as; `None` if not every such
/// number is a value.
fn number_size(of: &Node) -> Option<usize>
    ensures size { (types : List Xtype) → result ≡ number_size (meant types of.now) }
    ensures sized { IfSome result IsSize }
{
    match of {
        Node::Plain(of) => of.number_size(),
        Node::Enum(_) => Some(4),
        _ => None,
    }
}

/// Whether a header that counts octets comes before the items of a collection, by the type of the items
/// (DDS-XTypes 7.4.3.5.3).
pub fn has_header(version: Version, item: &Node) -> bool
    ensures { (types : List Xtype) → result ≡ has_header version (meant types item.now) }
{
    match version {
        Version::One => false,
        Version::Two => !matches!(item, Node::Plain(_)),
    }
}

/// Passes over a value of a type, in a version and in the byte order of the reader. `of` has to name
/// one of the types.
///
/// After a fault, which is one of those of [`TopicType::look_through`](crate::TopicType), the reader
/// is somewhere after the first octet of what is no value. No memory is taken.
#[cycle(walk)]
pub fn skip(
    types: &Types,
    of: TypeId,
    version: Version,
    reader: &mut CdrReader<'_>,
) -> Result<(), XcdrFault>
    requires { of.0 < length types.now }
    ensures { let t = type_in (types_of types.now) of in
        Passes (IsValue version t reader.old.endian) reader.old reader.new result }
{
    match types.node(of) {
        Node::Plain(primitive) => skip_primitive(*primitive, version, reader),
        Node::Enum(_) => skip_numbers(version, 4, 1, reader),
        Node::Text(bound) => skip_text(*bound, reader),
        Node::Sequence(item, bound) => skip_sequence(types, *item, *bound, version, reader),
        Node::Array(item, dimensions) => { skip_array(types, *item, dimensions, version, reader) }
        Node::Struct(members) => skip_members(types, of, members.as_slice(), version, reader),
    }
}

/// Passes over a sequence.
#[cycle(walk)]
fn skip_sequence(
    types: &Types,
    item: TypeId,
    bound: u32,
    version: Version,
    reader: &mut CdrReader<'_>,
) -> Result<(), XcdrFault>
    requires { item.0 < length types.now }
    ensures { let t = type_in (types_of types.now) item in
        Passes (IsValue version (Sequence t bound) reader.old.endian) reader.old reader.new result }
{
    if !has_header(version, types.node(item)) {
        return skip_counted(types, item, bound, version, reader);
    }
    let count = match reader.read_u32() {
        Ok(count) => count,
        Err(fault) => return Err(XcdrFault::Cdr(fault)),
    };
    let start = reader.position();
    match skip_counted(types, item, bound, version, reader) {
        Ok(()) => ends_at(start, count, reader),
        Err(fault) => Err(fault),
    }
}

/// Passes over a count, and the items that it counts.
#[cycle(walk)]
fn skip_counted(
    types: &Types,
    item: TypeId,
    bound: u32,
    version: Version,
    reader: &mut CdrReader<'_>,
) -> Result<(), XcdrFault>
    requires { item.0 < length types.now }
    ensures { let t = type_in (types_of types.now) item in
        Passes (AreCountedItems version t bound reader.old.endian) reader.old reader.new result }
{
    match reader.read_u32() {
        Ok(count) => {
            if is_within(bound, count as usize) {
                skip_items(types, item, count, version, reader)
            } else {
                Err(XcdrFault::TooLong)
            }
        }
        Err(fault) => Err(XcdrFault::Cdr(fault)),
    }
}

/// Passes over an array.
#[cycle(walk)]
fn skip_array(
    types: &Types,
    item: TypeId,
    dimensions: &Dimensions,
    version: Version,
    reader: &mut CdrReader<'_>,
) -> Result<(), XcdrFault>
    requires { item.0 < length types.now }
    ensures { let t = type_in (types_of types.now) item in
        Passes (IsValue version (Array t dimensions.now.sizes.items) reader.old.endian)
        reader.old reader.new result }
{
    if !has_header(version, types.node(item)) {
        return skip_items(types, item, dimensions.count(), version, reader);
    }
    let octets = match reader.read_u32() {
        Ok(octets) => octets,
        Err(fault) => return Err(XcdrFault::Cdr(fault)),
    };
    let start = reader.position();
    match skip_items(types, item, dimensions.count(), version, reader) {
        Ok(()) => ends_at(start, octets, reader),
        Err(fault) => Err(fault),
    }
}

/// Passes over that many items.
#[cycle(walk)]
fn skip_items(
    types: &Types,
    item: TypeId,
    count: u32,
    version: Version,
    reader: &mut CdrReader<'_>,
) -> Result<(), XcdrFault>
    requires { item.0 < length types.now }
    ensures { let t = type_in (types_of types.now) item in
        Passes (AreItems version t count reader.old.endian) reader.old reader.new result }
{
    if let Some(size) = number_size(types.node(item)) {
        return skip_numbers(version, size, count, reader);
    }
    'items: for _i in 0..count {
        match skip(types, item, version, reader) {
            Ok(()) => {}
            Err(fault) => return Err(fault),
        }
    }
    Ok(())
}

/// Passes over the members of the struct that is `of`.
#[cycle(walk)]
fn skip_members(
    types: &Types,
    of: TypeId,
    members: &[Member],
    version: Version,
    reader: &mut CdrReader<'_>,
) -> Result<(), XcdrFault>
    requires there { of.0 < length types.now }
    requires below { All (λ m. m.of.0 < of.0) members.now }
    ensures { let fields = fields_in (types_of types.now) members.now in
        Passes (AreMembers version fields reader.old.endian) reader.old reader.new result }
{
    'members: for member in members {
        match skip(types, member.of, version, reader) {
            Ok(()) => {}
            Err(fault) => return Err(fault),
        }
    }
    Ok(())
}
