//! A walk that prints values as JSON. The recursion goes from a type to those that it names, which
//! stand before it, and in an array from a dimension to the next.
//!
//! Values were looked through before, so that each is there. A read that fails all the same ends
//! the walk like memory that is refused.

ghost use Rattle.std.specs.Prelude.{◌≡◌, ◌<◌, ◌^◌, ◌++◌, ℕ, Some, OnOk, length};
ghost use Rattle.std.specs.Io.{StartsWith};
ghost use Rattle.std.specs.List.{All};
ghost use Rattle.rtps_cdr.specs.Reading.{bool_in};
ghost use Rattle.dds_xcdr.specs.declared.version.Version.{Version};
ghost use Rattle.dds_xcdr.specs.Product.{product};
ghost use Rattle.dds_xcdr.specs.TopicType.{topic_type};
ghost use Rattle.dds_xcdr.specs.Types.{fields_in, plain, type_in, types_of, values_of};
ghost use Rattle.dds_xcdr.specs.Xcdr.{has_header};
ghost use Rattle.dds_xcdr.specs.Xtype.{Array, Enum, Sequence, Struct, Text, Truth, number_size};
ghost use Rattle.dds_described.specs.Decoded.{front_value};
ghost use Rattle.dds_described.specs.Json.{array_text, bits_text, comma_before, found_text, items_text, json_of, members_text, text_of_kept};
ghost use Rattle.dds_described.specs.Kept.{kept};
ghost use Rattle.dds_described.specs.Printing.{Prints, after_header};
ghost use Rattle.dds_described.specs.Reading.{found, items_found, value_found, values_found};

use crate::DynamicData;
use crate::json_text::{push_character, push_enum, push_signed, push_string};
use crate::source::Source;
use dds_topic::CatalogError;
use dds_xcdr::{
    Case, Form, Member, Node, Primitive, TopicType, TypeId, Types, Version, has_header,
};
use float_text::{push_double, push_float};
use rtps_ascii::{push_number, push_octet, push_word};
use std::alloc::{AllocError, Allocator};

/// Types, and the version in which their values are encoded.
#[derive(Clone, Copy)]
struct Encoding<'a> {
    types: &'a Types,
    version: Version,
}

/// Appends a comma before an item, unless it is the first.
fn push_comma<A: Allocator>(out: &mut Vec<u8, A>, index: usize) -> Result<(), AllocError>
    ensures ok { OnOk result (out.new.items ≡ out.old.items ++ comma_before index) }
    ensures keeps { StartsWith out.new.items out.old.items }
{
    if index == 0 {
        return Ok(());
    }
    push_octet(out, b',')
}

/// Appends a value of a primitive type that is encoded as a number, by the number.
fn push_bits<A: Allocator>(out: &mut Vec<u8, A>, of: Primitive, bits: u64) -> Result<(), AllocError>
    requires { (size : ℕ) → number_size (plain of) ≡ Some size → bits < 256 ^ size }
    ensures ok { OnOk result (out.new.items ≡ out.old.items ++ bits_text (plain of) bits) }
    ensures keeps { StartsWith out.new.items out.old.items }
{
    match of {
        Primitive::Boolean => Ok(()),
        Primitive::Char => push_character(out, bits as u8),
        Primitive::Int8 => push_signed(out, i64::from((bits as u8).cast_signed())),
        Primitive::Int16 => push_signed(out, i64::from((bits as u16).cast_signed())),
        Primitive::Int32 => push_signed(out, i64::from((bits as u32).cast_signed())),
        Primitive::Int64 => push_signed(out, bits.cast_signed()),
        Primitive::Octet
        | Primitive::Uint8
        | Primitive::Uint16
        | Primitive::Uint32
        | Primitive::Uint64 => push_number(out, bits),
        Primitive::Float => push_float(out, bits as u32),
        Primitive::Double => push_double(out, bits),
    }
}

/// Appends a value of a primitive type.
fn push_plain<A: Allocator>(
    of: Primitive,
    version: Version,
    source: &mut Source<'_>,
    out: &mut Vec<u8, A>,
) -> Result<(), AllocError>
    ensures ok { OnOk result (Prints (value_found version (plain of) source.old)
        (λ x. json_of (plain of) x) out.old.items out.new.items source.old source.new) }
    ensures keeps { StartsWith out.new.items out.old.items }
{
    match of.number_size() {
        Some(size) => match source.read_number(version, size) {
            Ok(bits) => push_bits(out, of, bits),
            Err(_) => Err(AllocError),
        },
        None => push_truth(source, out),
    }
}

/// Appends a truth value.
fn push_truth<A: Allocator>(source: &mut Source<'_>, out: &mut Vec<u8, A>) -> Result<(), AllocError>
    ensures ok { (v : Version) → OnOk result (Prints (value_found v Truth source.old)
        (λ x. json_of Truth x) out.old.items out.new.items source.old source.new) }
    ensures keeps { StartsWith out.new.items out.old.items }
{
    match source.read_bool() {
        Ok(true) => push_word(out, "true"),
        Ok(false) => push_word(out, "false"),
        Err(_) => Err(AllocError),
    }
}

/// Appends a value of an enumeration.
fn push_case<A: Allocator>(
    cases: &[Case],
    version: Version,
    source: &mut Source<'_>,
    out: &mut Vec<u8, A>,
) -> Result<(), AllocError>
    ensures ok { let t = Enum (values_of cases.now) in
        OnOk result (Prints (value_found version t source.old) (λ x. json_of t x) out.old.items
        out.new.items source.old source.new) }
    ensures keeps { StartsWith out.new.items out.old.items }
{
    match source.read_number(version, 4) {
        Ok(bits) => push_enum(out, cases, (bits as u32).cast_signed()),
        Err(_) => Err(AllocError),
    }
}

/// Appends a string.
fn push_text<A: Allocator>(source: &mut Source<'_>, out: &mut Vec<u8, A>) -> Result<(), AllocError>
    ensures ok { (v : Version) (bound : ℕ) → OnOk result
        (Prints (value_found v (Text bound) source.old) (λ x. json_of (Text bound) x)
        out.old.items out.new.items source.old source.new) }
    ensures keeps { StartsWith out.new.items out.old.items }
{
    match source.read_text() {
        Ok(text) => push_string(out, text),
        Err(_) => Err(AllocError),
    }
}

/// Passes over the header that counts the octets of a collection, if there is one.
fn pass_header(
    encoding: Encoding<'_>,
    item: TypeId,
    source: &mut Source<'_>,
) -> Result<(), AllocError>
    requires { item.0 < length encoding.types.now }
    ensures { let t = type_in (types_of encoding.entry.types.now) item in
        OnOk result (source.new ≡ after_header (has_header encoding.entry.version t) source.old) }
{
    if !has_header(encoding.version, encoding.types.node(item)) {
        return Ok(());
    }
    match source.read_count() {
        Ok(_) => Ok(()),
        Err(_) => Err(AllocError),
    }
}

/// Appends a value of a type. `of` has to name one of the types.
#[cycle(json)]
fn push_value<A: Allocator>(
    encoding: Encoding<'_>,
    of: TypeId,
    source: &mut Source<'_>,
    out: &mut Vec<u8, A>,
) -> Result<(), AllocError>
    requires { of.0 < length encoding.types.now }
    ensures ok { let t = type_in (types_of encoding.entry.types.now) of in
        OnOk result (Prints (value_found encoding.entry.version t source.old) (λ x. json_of t x)
        out.old.items out.new.items source.old source.new) }
    ensures keeps { StartsWith out.new.items out.old.items }
{
    match encoding.types.node(of) {
        Node::Plain(primitive) => push_plain(*primitive, encoding.version, source, out),
        Node::Enum(cases) => push_case(cases.as_slice(), encoding.version, source, out),
        Node::Text(_) => push_text(source, out),
        Node::Sequence(item, _) => push_sequence(encoding, *item, source, out),
        Node::Array(item, dimensions) => {
            push_array(encoding, *item, dimensions.sizes(), source, out)
        }
        Node::Struct(members) => push_struct(encoding, of, members.as_slice(), source, out),
    }
}

/// Appends a sequence.
#[cycle(json)]
fn push_sequence<A: Allocator>(
    encoding: Encoding<'_>,
    item: TypeId,
    source: &mut Source<'_>,
    out: &mut Vec<u8, A>,
) -> Result<(), AllocError>
    requires { item.0 < length encoding.types.now }
    ensures ok { (bound : ℕ) → let t = type_in (types_of encoding.entry.types.now) item in
        OnOk result (Prints (value_found encoding.entry.version (Sequence t bound) source.old)
        (λ x. json_of (Sequence t bound) x) out.old.items out.new.items source.old
        source.new) }
    ensures keeps { StartsWith out.new.items out.old.items }
{
    pass_header(encoding, item, source)?;
    let Ok(count) = source.read_count() else {
        return Err(AllocError);
    };
    push_octet(out, b'[')?;
    push_items(encoding, item, count, source, out)?;
    push_octet(out, b']')
}

/// Appends that many items, with commas between them.
#[cycle(json)]
fn push_items<A: Allocator>(
    encoding: Encoding<'_>,
    item: TypeId,
    count: u32,
    source: &mut Source<'_>,
    out: &mut Vec<u8, A>,
) -> Result<(), AllocError>
    requires { item.0 < length encoding.types.now }
    ensures ok { let t = type_in (types_of encoding.entry.types.now) item in
        OnOk result (Prints (items_found (λ c. value_found encoding.entry.version t c) count source.old)
        (λ xs. items_text (λ x. json_of t x) 0 xs) out.old.items out.new.items source.old
        source.new) }
    ensures keeps { StartsWith out.new.items out.old.items }
{
    'items: for i in 0..count {
        push_comma(out, i as usize)?;
        push_value(encoding, item, source, out)?;
    }
    Ok(())
}

/// Appends an array of these dimensions.
#[cycle(json)]
fn push_array<A: Allocator>(
    encoding: Encoding<'_>,
    item: TypeId,
    sizes: &[u32],
    source: &mut Source<'_>,
    out: &mut Vec<u8, A>,
) -> Result<(), AllocError>
    requires { item.0 < length encoding.types.now }
    ensures ok { let t = type_in (types_of encoding.entry.types.now) item in
        OnOk result (Prints (value_found encoding.entry.version (Array t sizes.now) source.old)
        (λ x. json_of (Array t sizes.now) x) out.old.items out.new.items source.old
        source.new) }
    ensures keeps { StartsWith out.new.items out.old.items }
{
    pass_header(encoding, item, source)?;
    push_rows(encoding, item, sizes, source, out)
}

/// Appends the items of an array of these dimensions, or an item where there is no dimension.
#[cycle(json)]
fn push_rows<A: Allocator>(
    encoding: Encoding<'_>,
    item: TypeId,
    sizes: &[u32],
    source: &mut Source<'_>,
    out: &mut Vec<u8, A>,
) -> Result<(), AllocError>
    requires { item.0 < length encoding.types.now }
    ensures ok { let t = type_in (types_of encoding.entry.types.now) item in
        OnOk result (Prints
        (items_found (λ c. value_found encoding.entry.version t c) (product sizes.now) source.old)
        (λ xs. array_text (λ x. json_of t x) sizes.now xs) out.old.items out.new.items
        source.old source.new) }
    ensures keeps { StartsWith out.new.items out.old.items }
{
    match sizes.split_first() {
        None => push_value(encoding, item, source, out),
        Some((size, rest)) => {
            push_octet(out, b'[')?;
            'rows: for i in 0..*size {
                push_comma(out, i as usize)?;
                push_rows(encoding, item, rest, source, out)?;
            }
            push_octet(out, b']')
        }
    }
}

/// Appends the struct that is `of`, which has these members.
#[cycle(json)]
fn push_struct<A: Allocator>(
    encoding: Encoding<'_>,
    of: TypeId,
    members: &[Member],
    source: &mut Source<'_>,
    out: &mut Vec<u8, A>,
) -> Result<(), AllocError>
    requires there { of.0 < length encoding.types.now }
    requires below { All (λ m. m.of.0 < of.0) members.now }
    ensures ok { let fields = fields_in (types_of encoding.entry.types.now) members.now in
        OnOk result (Prints (values_found encoding.entry.version fields source.old)
        (λ xs. json_of (Struct fields) xs) out.old.items out.new.items source.old
        source.new) }
    ensures keeps { StartsWith out.new.items out.old.items }
{
    push_octet(out, b'{')?;
    'members: for i in 0..members.len() {
        let member = &members[i];
        push_comma(out, i)?;
        push_string(out, member.name.as_str())?;
        push_octet(out, b':')?;
        push_value(encoding, member.of, source, out)?;
    }
    push_octet(out, b'}')
}

/// Appends the text of the value at the front of octets in a form; `null` if there is none.
fn push_body<A: Allocator>(
    topic: &TopicType,
    out: &mut Vec<u8, A>,
    form: Form,
    octets: &[u8],
) -> Result<(), AllocError>
    ensures ok { let t = topic_type topic.now in OnOk result (out.new.items ≡ out.old.items
        ++ found_text (λ x. json_of t x) (front_value t form octets.now)) }
    ensures keeps { StartsWith out.new.items out.old.items }
{
    let mut ahead = Source::new(octets, form.endian);
    match ahead.pass(topic.types(), topic.id(), form.version) {
        Ok(()) => {
            let encoding = Encoding {
                types: topic.types(),
                version: form.version,
            };
            let mut source = Source::new(octets, form.endian);
            push_value(encoding, topic.id(), &mut source, out)
        }
        Err(error) => match error {
            CatalogError::Unread(_) => push_word(out, "null"),
            CatalogError::NoMemory => Err(AllocError),
        },
    }
}

/// Appends the text of a value as JSON (RFC 8259): one line without its end, in ASCII. `null` if
/// the value is none of the type, as one that another catalog has read may be.
pub(crate) fn push_json<A: Allocator>(
    topic: &TopicType,
    out: &mut Vec<u8, A>,
    value: &DynamicData,
) -> Result<(), AllocError>
    ensures ok { OnOk result (out.new.items ≡ out.old.items
        ++ text_of_kept (topic_type topic.now) (kept value.now)) }
    ensures keeps { StartsWith out.new.items out.old.items }
{
    push_body(topic, out, value.form(), value.octets())
}
