//! A walk that copies values, or the parts of them that are keys. The recursion goes from a type to
//! those that it names, which stand before it: at most 32 types deep.

ghost use Rattle.std.specs.Prelude.{◌≡◌, ◌<◌, ◌-◌, OnOk, List, length};
ghost use Rattle.std.specs.List.{All};
ghost use Rattle.dds_topic.specs.Answer.{Gives};
ghost use Rattle.dds_xcdr.specs.Types.{fields_in, type_in, types_of};
ghost use Rattle.dds_xcdr.specs.Xtype.{Xtype, Array, Sequence};
ghost use Rattle.dds_described.specs.Copying.{copied, counted_copied, fields_copied, items_copied};

use crate::copier::{Copier, is_behind, is_within};
use dds_topic::{CatalogError, Unread};
use dds_xcdr::{Dimensions, Member, Node, TypeId, Types, Version, has_header};

/// Copies a value of a type.
#[cycle(copy)]
pub(crate) fn copy(
    types: &Types,
    of: TypeId,
    version: Version,
    copier: &mut Copier<'_>,
) -> Result<(), CatalogError>
    requires { of.0 < length types.now }
    ensures { Gives (λ _. copier.new) result
        (copied version (type_in (types_of types.now) of) copier.old) }
{
    match types.node(of) {
        Node::Plain(primitive) => copier.copy_plain(*primitive, version),
        Node::Enum(_) => copier.copy_number(version, 4),
        Node::Text(bound) => copier.copy_text(*bound),
        Node::Sequence(item, bound) => copy_sequence(types, *item, *bound, version, copier),
        Node::Array(item, dimensions) => { copy_array(types, *item, dimensions, version, copier) }
        Node::Struct(members) => copy_members(types, of, members.as_slice(), version, copier),
    }
}

/// Copies a sequence.
#[cycle(copy)]
fn copy_sequence(
    types: &Types,
    item: TypeId,
    bound: u32,
    version: Version,
    copier: &mut Copier<'_>,
) -> Result<(), CatalogError>
    requires { item.0 < length types.now }
    ensures { Gives (λ _. copier.new) result
        (copied version (Sequence (type_in (types_of types.now) item) bound) copier.old) }
{
    if !has_header(version, types.node(item)) {
        return copy_counted(types, item, bound, version, copier);
    }
    let octets = match copier.read_count() {
        Ok(octets) => octets,
        Err(error) => return Err(error),
    };
    let start = copier.position();
    match copy_counted(types, item, bound, version, copier) {
        Ok(()) => {
            if is_behind(start, octets, copier.position()) {
                Ok(())
            } else {
                Err(CatalogError::Unread(Unread::Malformed))
            }
        }
        Err(error) => Err(error),
    }
}

/// Copies a count, and the items that it counts.
#[cycle(copy)]
fn copy_counted(
    types: &Types,
    item: TypeId,
    bound: u32,
    version: Version,
    copier: &mut Copier<'_>,
) -> Result<(), CatalogError>
    requires { item.0 < length types.now }
    ensures { Gives (λ _. copier.new) result
        (counted_copied version (type_in (types_of types.now) item) bound copier.old) }
{
    match copier.copy_count() {
        Ok(count) => {
            if is_within(bound, count as usize) {
                copy_items(types, item, count, version, copier)
            } else {
                Err(CatalogError::Unread(Unread::Malformed))
            }
        }
        Err(error) => Err(error),
    }
}

/// Copies an array.
#[cycle(copy)]
fn copy_array(
    types: &Types,
    item: TypeId,
    dimensions: &Dimensions,
    version: Version,
    copier: &mut Copier<'_>,
) -> Result<(), CatalogError>
    requires { item.0 < length types.now }
    ensures { let t = type_in (types_of types.now) item in
        Gives (λ _. copier.new) result
        (copied version (Array t dimensions.now.sizes.items) copier.old) }
{
    if !has_header(version, types.node(item)) {
        return copy_items(types, item, dimensions.count(), version, copier);
    }
    let octets = match copier.read_count() {
        Ok(octets) => octets,
        Err(error) => return Err(error),
    };
    let start = copier.position();
    match copy_items(types, item, dimensions.count(), version, copier) {
        Ok(()) => {
            if is_behind(start, octets, copier.position()) {
                Ok(())
            } else {
                Err(CatalogError::Unread(Unread::Malformed))
            }
        }
        Err(error) => Err(error),
    }
}

/// Copies that many items.
#[cycle(copy)]
fn copy_items(
    types: &Types,
    item: TypeId,
    count: u32,
    version: Version,
    copier: &mut Copier<'_>,
) -> Result<(), CatalogError>
    requires { item.0 < length types.now }
    ensures { Gives (λ _. copier.new) result
        (items_copied version (type_in (types_of types.now) item) count copier.old) }
{
    'items: for _i in 0..count {
        match copy(types, item, version, copier) {
            Ok(()) => {}
            Err(error) => return Err(error),
        }
    }
    Ok(())
}

/// Copies the members of the struct that is `of`.
#[cycle(copy)]
fn copy_members(
    types: &Types,
    of: TypeId,
    members: &[Member],
    version: Version,
    copier: &mut Copier<'_>,
) -> Result<(), CatalogError>
    requires there { of.0 < length types.now }
    requires below { All (λ m. m.of.0 < of.0) members.now }
    ensures { Gives (λ _. copier.new) result
        (fields_copied version (fields_in (types_of types.now) members.now) copier.old) }
{
    'members: for member in members {
        match copy(types, member.of, version, copier) {
            Ok(()) => {}
            Err(error) => return Err(error),
        }
    }
    Ok(())
}
