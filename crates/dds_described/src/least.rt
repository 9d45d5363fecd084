//! A walk that writes the least value of a type. The recursion goes from a type to those that it
//! names, as in [`copying`](crate::copying).

ghost use Rattle.std.specs.Prelude.{◌≡◌, ◌<◌, OnOk, IfOk, length, replicate};
ghost use Rattle.std.specs.List.{All};
ghost use Rattle.rtps_types.specs.declared.field.Endian.TheVariants.{Little};
ghost use Rattle.rtps_cdr.specs.Writing.{all_written};
ghost use Rattle.dds_xcdr.specs.Types.{fields_in, plain, type_in, types_of};
ghost use Rattle.dds_described.specs.Least.{least, least_members};
ghost use Rattle.dds_described.specs.Writing.{all_fields, put, written};

use crate::copier::write_number;
use dds_xcdr::{Member, Node, Primitive, TypeId, Types};
use rtps_cdr::CdrWriter;
use rtps_types::Endian;
use std::alloc::{AllocError, Global};

/// Writes the least value of a primitive type.
fn write_zero(of: Primitive, writer: &mut CdrWriter) -> Result<(), AllocError>
    ensures { OnOk result (writer.new
        ≡ put (λ at e. written (plain of) at e (least (plain of))) writer.old) }
{
    match of.number_size() {
        Some(size) => write_number(size, 0, writer),
        None => writer.write_bool(false),
    }
}

/// Writes the least value of a type.
#[cycle(least)]
fn write_least(types: &Types, of: TypeId, writer: &mut CdrWriter) -> Result<(), AllocError>
    requires { of.0 < length types.now }
    ensures { let t = type_in (types_of types.now) of in
        OnOk result (writer.new ≡ put (λ at e. written t at e (least t)) writer.old) }
{
    match types.node(of) {
        Node::Plain(primitive) => write_zero(*primitive, writer),
        Node::Enum(_) => writer.write_len(0),
        Node::Text(_) => writer.write_string(""),
        Node::Sequence(_, _) => writer.write_len(0),
        Node::Array(item, dimensions) => write_items(types, *item, dimensions.count(), writer),
        Node::Struct(members) => write_members(types, of, members.as_slice(), writer),
    }
}

/// Writes that many least items.
#[cycle(least)]
fn write_items(
    types: &Types,
    item: TypeId,
    count: u32,
    writer: &mut CdrWriter,
) -> Result<(), AllocError>
    requires { item.0 < length types.now }
    ensures { let t = type_in (types_of types.now) item in
        OnOk result (writer.new ≡ put (λ at e.
        all_written (λ p x. written t p e x) at (replicate count (least t))) writer.old) }
{
    'items: for _i in 0..count {
        match write_least(types, item, writer) {
            Ok(()) => {}
            Err(error) => return Err(error),
        }
    }
    Ok(())
}

/// Writes the least members of the struct that is `of`.
#[cycle(least)]
fn write_members(
    types: &Types,
    of: TypeId,
    members: &[Member],
    writer: &mut CdrWriter,
) -> Result<(), AllocError>
    requires there { of.0 < length types.now }
    requires below { All (λ m. m.of.0 < of.0) members.now }
    ensures { let fields = fields_in (types_of types.now) members.now in
        OnOk result (writer.new
        ≡ put (λ at e. all_fields fields at e (least_members fields)) writer.old) }
{
    'members: for member in members {
        match write_least(types, member.of, writer) {
            Ok(()) => {}
            Err(error) => return Err(error),
        }
    }
    Ok(())
}

/// Returns the octets of the least value of a type in version 1, little-endian.
pub(crate) fn least_octets(alloc: Global, types: &Types, of: TypeId) -> Result<Vec<u8>, AllocError>
    requires { of.0 < length types.now }
    ensures { let t = type_in (types_of types.now) of in
        IfOk result (λ v. v.items ≡ written t 0 Little (least t)) }
{
    let mut writer = CdrWriter::new(alloc, Endian::Little);
    match write_least(types, of, &mut writer) {
        Ok(()) => Ok(writer.finish()),
        Err(error) => Err(error),
    }
}
