//! Faults of encoded values.

use thiserror::Error;

/// Why a value can't be read.
#[derive(Clone, Copy, Debug, PartialEq, Eq, Error)]
pub enum CdrFault {
    /// The octets end before the value does.
    #[error("the octets end before the value does")]
    Short,
    /// A boolean that is neither 0 nor 1 (CORBA CDR 9.3.1.5).
    #[error("a truth value is neither 0 nor 1")]
    BadBool,
    /// A string whose last octet is not NUL (CORBA CDR 9.3.2.7).
    #[error("the last octet of a text is not NUL")]
    BadString,
    /// A string that is not UTF-8.
    #[error("a text is not UTF-8")]
    NotUtf8,
}
