//! One described type, by the names of others.

use crate::{Case, Dimensions, Member, Primitive, TypeId};

/// The description of a type. The types that it names are described before it.
#[derive(Debug, Drop)]
pub enum Node {
    /// A primitive type.
    Plain(Primitive),
    /// An enumeration of 32 bits, by its values.
    Enum(Vec<Case>),
    /// A string, by the greatest number of its bytes without the NUL; 0 is no bound.
    Text(u32),
    /// A sequence, by the type of its items and the greatest number of them; 0 is no bound.
    Sequence(TypeId, u32),
    /// An array, by the type of its items and its dimensions.
    Array(TypeId, Dimensions),
    /// A struct, by its members in order.
    Struct(Vec<Member>),
}

/// A description as it is kept.
#[derive(Debug, Drop)]
pub(crate) struct Entry {
    pub(crate) node: Node,
    /// How many types it goes through, at most.
    pub(crate) depth: u32,
}
