//! The parts of described types.

/// The name of a type among the [`Types`](crate::Types) that gave it: its place, counted from 0.
/// Among other types it may name another type or none.
#[derive(Clone, Copy, Debug, PartialEq, Eq)]
pub struct TypeId(pub(crate) u32);

/// A member of a struct (DDS-XTypes 7.2.2.4.4).
#[derive(Debug, Drop)]
pub struct Member {
    /// Its name.
    pub name: String,
    /// Its type.
    pub of: TypeId,
    /// Whether it is part of the key.
    pub is_key: bool,
}

/// A value of an enumeration (DDS-XTypes 7.2.2.4.1).
#[derive(Debug, Drop)]
pub struct Case {
    /// Its name.
    pub name: String,
    /// The number that it is encoded as.
    pub value: i32,
}
