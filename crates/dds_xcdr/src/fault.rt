//! Faults of types, and of the octets of values.

use rtps_cdr::CdrFault;
use thiserror::Error;

/// Why a type is not described.
#[derive(Clone, Copy, Debug, PartialEq, Eq, Error)]
pub enum TypeFault {
    /// A type is named that is not there.
    #[error("a type is named that is not there")]
    Unknown,
    /// An array without dimensions, with one of size 0, or with 2^32 items or more.
    #[error("an array has no items or too many")]
    BadDimensions,
    /// An enumeration without values, or a struct without members.
    #[error("an enumeration or a struct is empty")]
    NoMembers,
    /// A type goes through more than 32 types.
    #[error("a type is nested too deeply")]
    TooDeep,
    /// There are 65,536 types already.
    #[error("there are too many types")]
    TooMany,
    /// Memory was refused.
    #[error("no memory is left")]
    NoMemory,
}

/// Why a body does not begin with a value of a type.
#[derive(Clone, Copy, Debug, PartialEq, Eq, Error)]
pub enum XcdrFault {
    /// The encapsulation kind is none of those that are read here.
    #[error("the encapsulation kind is not known")]
    Encapsulation,
    /// A number, truth value or string can't be read.
    #[error("{0}")]
    Cdr(CdrFault),
    /// A string or sequence is longer than its bound.
    #[error("a text or sequence is longer than its bound")]
    TooLong,
    /// A header counts other octets than its collection has.
    #[error("a header counts other octets than there are")]
    BadHeader,
}
