//! The hash of a key, and whether every key of a type is short. The recursion goes from a type to
//! those that it names, as in [`copying`](crate::copying).

ghost use Rattle.std.specs.Prelude.{◌≡◌, ◌<◌, ◌≤◌, ◌+◌, IfSome, List, length};
ghost use Rattle.std.specs.List.{All};
ghost use Rattle.rtps_cdr.specs.Reading.{aligned};
ghost use Rattle.dds_xcdr.specs.Types.{fields_in, plain, type_in, types_of};
ghost use Rattle.dds_xcdr.specs.Xtype.{Xtype, Sequence, Text};
ghost use Rattle.dds_described.specs.Hash.{end_of_all, hash_of_octets, is_short, short, short_end, short_fields};
ghost use Rattle.dds_described.specs.Key.{key_type};
ghost use Rattle.dds_described.specs.Part.{fields_of, is_parted, part_of};

use crate::keys::{has_key, is_keyed, is_left_out};
use dds_xcdr::{Member, Node, Primitive, TypeId, Types};
use md5::{Digest, Md5};
use rtps_types::KeyHash;

/// Which part of a type is meant.
#[derive(Clone, Copy)]
pub(crate) enum Part {
    /// All of it.
    Whole,
    /// What is its key where it is the type of a member.
    Key,
}

/// The greatest number of octets of a short key.
const SHORT: usize = 16;

/// Returns the key hash for the octets of a key in version 1, big-endian (DDSI-RTPS 9.6.4.8).
pub(crate) fn hash_of(octets: &[u8], is_short: bool) -> KeyHash
    ensures { result ≡ hash_of_octets is_short octets.now }
{
    if !is_short {
        return KeyHash(Md5::digest(octets));
    }
    let mut hash = [0; 16];
    let count = octets.len().min(hash.len());
    hash[..count].copy_from_slice(&octets[..count]);
    KeyHash(hash)
}

/// Returns an end, if it is at most 16 octets from the first.
fn short(end: usize) -> Option<usize>
    ensures value { result ≡ short end }
    ensures bounded { IfSome result (λ e. e ≤ 16) }
{
    if end <= SHORT { Some(end) } else { None }
}

/// Returns the end of a number of `size` octets, which is aligned to its size.
fn number_end(size: usize, at: usize) -> usize
    requires some { 0 < size }
    requires small { size ≤ 8 }
    requires near { at ≤ 16 }
    ensures value { result ≡ aligned size at + size }
    ensures bounded { result ≤ 32 }
{
    at + (size - at % size) % size + size
}

/// Returns the end of a value of a primitive type.
fn short_plain(of: Primitive, at: usize) -> Option<usize>
    requires { at ≤ 16 }
    ensures value { result ≡ short_end (plain of) at }
    ensures bounded { IfSome result (λ e. e ≤ 16) }
{
    match of.number_size() {
        Some(size) => short(number_end(size, at)),
        None => short(at + 1),
    }
}

/// Returns the end of the longest string within a bound.
fn short_text(bound: u32, at: usize) -> Option<usize>
    requires { at ≤ 16 }
    ensures value { result ≡ short_end (Text bound) at }
    ensures bounded { IfSome result (λ e. e ≤ 16) }
{
    if bound == 0 {
        return None;
    }
    short(number_end(4, at) + bound as usize + 1)
}

/// Returns the end of the largest value of a type, or of the part of it that is meant, which begins
/// at `at`. None if it is more than 16 octets from the first.
#[cycle(short)]
fn short_end(types: &Types, of: TypeId, part: Part, at: usize) -> Option<usize>
    requires there { of.0 < length types.now }
    requires near { at ≤ 16 }
    ensures value { result ≡ short_end (part_of part (type_in (types_of types.now) of)) at }
    ensures bounded { IfSome result (λ e. e ≤ 16) }
{
    match types.node(of) {
        Node::Plain(primitive) => short_plain(*primitive, at),
        Node::Enum(_) => short(number_end(4, at)),
        Node::Text(bound) => short_text(*bound, at),
        Node::Sequence(item, bound) => short_sequence(types, *item, *bound, at),
        Node::Array(item, dimensions) => short_items(types, *item, dimensions.count(), at),
        Node::Struct(members) => short_members(types, of, members.as_slice(), part, at),
    }
}

/// Returns the end of the longest sequence within a bound.
#[cycle(short)]
fn short_sequence(types: &Types, item: TypeId, bound: u32, at: usize) -> Option<usize>
    requires there { item.0 < length types.now }
    requires near { at ≤ 16 }
    ensures value { result
        ≡ short_end (Sequence (type_in (types_of types.now) item) bound) at }
    ensures bounded { IfSome result (λ e. e ≤ 16) }
{
    if bound == 0 {
        return None;
    }
    match short(number_end(4, at)) {
        Some(start) => short_items(types, item, bound, start),
        None => None,
    }
}

/// Returns the end of that many items, the largest of their type. Each has an octet or more, so at
/// most 17 are looked at.
#[cycle(short)]
fn short_items(types: &Types, item: TypeId, count: u32, at: usize) -> Option<usize>
    requires there { item.0 < length types.now }
    requires near { at ≤ 16 }
    ensures value { result
        ≡ end_of_all (λ p. short_end (type_in (types_of types.now) item) p) count at }
    ensures bounded { IfSome result (λ e. e ≤ 16) }
{
    let mut end = at;
    'items: for _i in 0..count {
        match short_end(types, item, Part::Whole, end) {
            Some(next) => end = next,
            None => return None,
        }
    }
    Some(end)
}

/// Whether some members of a struct are no part of what is meant.
fn is_parted(part: Part, members: &[Member]) -> bool
    ensures { (types : List Xtype) → result ≡ is_parted part (fields_in types members.now) }
{
    match part {
        Part::Whole => false,
        Part::Key => has_key(members),
    }
}

/// Returns the end of the members of the struct that is `of`.
#[cycle(short)]
fn short_members(
    types: &Types,
    of: TypeId,
    members: &[Member],
    part: Part,
    at: usize,
) -> Option<usize>
    requires there { of.0 < length types.now }
    requires below { All (λ m. m.of.0 < of.0) members.now }
    requires near { at ≤ 16 }
    ensures value { let fields = fields_in (types_of types.now) members.now in
        result ≡ short_fields (fields_of part (is_parted part fields) fields) at }
    ensures bounded { IfSome result (λ e. e ≤ 16) }
{
    let keyed = is_parted(part, members);
    let mut end = at;
    'members: for member in members {
        if is_left_out(member, keyed) {
            continue;
        }
        match short_end(types, member.of, part, end) {
            Some(next) => end = next,
            None => return None,
        }
    }
    Some(end)
}

/// Whether no key of a topic of this type has more than 16 octets in version 1.
pub(crate) fn key_is_short(types: &Types, of: TypeId) -> bool
    requires { of.0 < length types.now }
    ensures { result ≡ is_short (key_type (type_in (types_of types.now) of)) }
{
    if is_keyed(types.node(of)) {
        short_end(types, of, Part::Key, 0).is_some()
    } else {
        true
    }
}
