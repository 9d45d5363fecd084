//! A walk that copies keys: out of values, or out of key payloads. The recursion goes from a type
//! to those that it names, as in [`copying`](crate::copying).

ghost use Rattle.std.specs.Prelude.{◌≡◌, ◌<◌, ◌&&◌, not, List, length};
ghost use Rattle.std.specs.List.{All};
ghost use Rattle.dds_topic.specs.Answer.{Gives};
ghost use Rattle.dds_xcdr.specs.Types.{fields_in, meant, type_in, types_of};
ghost use Rattle.dds_xcdr.specs.Xtype.{Xtype};
ghost use Rattle.dds_described.specs.Copying.{copied, fields_copied, holder_member_copied, key_copied, key_fields_copied, key_member_copied, topic_key_copied};
ghost use Rattle.dds_described.specs.Key.{has_key, holder, is_keyed, kept_fields, key_type};

use crate::copier::Copier;
use crate::copying::copy;
use dds_topic::CatalogError;
use dds_xcdr::{Member, Node, TypeId, Types, Version};

/// Whether one of the members of a struct is part of its key.
pub(crate) fn has_key(members: &[Member]) -> bool
    ensures { (types : List Xtype) → result ≡ has_key (fields_in types members.now) }
{
    'members: for member in members {
        if member.is_key {
            return true;
        }
    }
    false
}

/// Whether a member is no part of the key of its struct; `keyed` says that the struct has members
/// that are.
pub(crate) fn is_left_out(member: &Member, keyed: bool) -> bool
    ensures { result ≡ (keyed && not member.now.is_key) }
{
    keyed && !member.is_key
}

/// Copies the key of a value, where a value is.
#[cycle(key)]
pub(crate) fn copy_key(
    types: &Types,
    of: TypeId,
    version: Version,
    copier: &mut Copier<'_>,
) -> Result<(), CatalogError>
    requires { of.0 < length types.now }
    ensures { Gives (λ _. copier.new) result
        (key_copied version (type_in (types_of types.now) of) copier.old) }
{
    match types.node(of) {
        Node::Struct(members) => copy_key_members(types, of, members.as_slice(), version, copier),
        _ => copy(types, of, version, copier),
    }
}

/// Copies the key of the struct that is `of`, where a value is.
#[cycle(key)]
fn copy_key_members(
    types: &Types,
    of: TypeId,
    members: &[Member],
    version: Version,
    copier: &mut Copier<'_>,
) -> Result<(), CatalogError>
    requires there { of.0 < length types.now }
    requires below { All (λ m. m.of.0 < of.0) members.now }
    ensures { let fields = fields_in (types_of types.now) members.now in
        Gives (λ _. copier.new) result
        (key_fields_copied version (has_key fields) fields copier.old) }
{
    let keyed = has_key(members);
    'members: for member in members {
        let is_left = is_left_out(member, keyed);
        match copy_key_member(types, member.of, is_left, version, copier) {
            Ok(()) => {}
            Err(error) => return Err(error),
        }
    }
    Ok(())
}

/// Copies the key of a member, where its value is; passes over it if it is no part of the key.
#[cycle(key)]
fn copy_key_member(
    types: &Types,
    of: TypeId,
    is_left: bool,
    version: Version,
    copier: &mut Copier<'_>,
) -> Result<(), CatalogError>
    requires { of.0 < length types.now }
    ensures { Gives (λ _. copier.new) result
        (key_member_copied version is_left (type_in (types_of types.now) of) copier.old) }
{
    if is_left {
        copier.pass(types, of, version)
    } else {
        copy_key(types, of, version, copier)
    }
}

/// Copies a key, where nothing else is.
#[cycle(holder)]
pub(crate) fn copy_holder(
    types: &Types,
    of: TypeId,
    version: Version,
    copier: &mut Copier<'_>,
) -> Result<(), CatalogError>
    requires { of.0 < length types.now }
    ensures { Gives (λ _. copier.new) result
        (copied version (holder (type_in (types_of types.now) of)) copier.old) }
{
    match types.node(of) {
        Node::Struct(members) => {
            copy_holder_members(types, of, members.as_slice(), version, copier)
        }
        _ => copy(types, of, version, copier),
    }
}

/// Copies the key of the struct that is `of`, where nothing else is.
#[cycle(holder)]
fn copy_holder_members(
    types: &Types,
    of: TypeId,
    members: &[Member],
    version: Version,
    copier: &mut Copier<'_>,
) -> Result<(), CatalogError>
    requires there { of.0 < length types.now }
    requires below { All (λ m. m.of.0 < of.0) members.now }
    ensures { let fields = fields_in (types_of types.now) members.now in
        Gives (λ _. copier.new) result
        (fields_copied version (kept_fields (has_key fields) fields) copier.old) }
{
    let keyed = has_key(members);
    'members: for member in members {
        let is_left = is_left_out(member, keyed);
        match copy_holder_member(types, member.of, is_left, version, copier) {
            Ok(()) => {}
            Err(error) => return Err(error),
        }
    }
    Ok(())
}

/// Copies the key of a member, unless it is no part of the key.
#[cycle(holder)]
fn copy_holder_member(
    types: &Types,
    of: TypeId,
    is_left: bool,
    version: Version,
    copier: &mut Copier<'_>,
) -> Result<(), CatalogError>
    requires { of.0 < length types.now }
    ensures { Gives (λ _. copier.new) result
        (holder_member_copied version is_left (type_in (types_of types.now) of) copier.old) }
{
    if is_left {
        Ok(())
    } else {
        copy_holder(types, of, version, copier)
    }
}

/// Whether a topic of a type has a key.
pub(crate) fn is_keyed(node: &Node) -> bool
    ensures { (types : List Xtype) → result ≡ is_keyed (meant types node.now) }
{
    match node {
        Node::Struct(members) => has_key(members.as_slice()),
        _ => false,
    }
}

/// Copies the key of a topic of this type, where a value is.
pub(crate) fn copy_topic_key(
    types: &Types,
    of: TypeId,
    version: Version,
    copier: &mut Copier<'_>,
) -> Result<(), CatalogError>
    requires { of.0 < length types.now }
    ensures { Gives (λ _. copier.new) result
        (topic_key_copied version (type_in (types_of types.now) of) copier.old) }
{
    if is_keyed(types.node(of)) {
        copy_key(types, of, version, copier)
    } else {
        copier.pass(types, of, version)
    }
}

/// Copies the key of a topic of this type, where nothing else is.
pub(crate) fn copy_payload_key(
    types: &Types,
    of: TypeId,
    version: Version,
    copier: &mut Copier<'_>,
) -> Result<(), CatalogError>
    requires { of.0 < length types.now }
    ensures { Gives (λ _. copier.new) result
        (copied version (key_type (type_in (types_of types.now) of)) copier.old) }
{
    if is_keyed(types.node(of)) {
        copy_holder(types, of, version, copier)
    } else {
        Ok(())
    }
}
