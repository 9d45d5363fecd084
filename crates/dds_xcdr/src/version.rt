//! Versions of the representation.

/// A version of the extended common data representation (DDS-XTypes 7.4.1, 7.4.2).
#[derive(Clone, Copy, Debug, PartialEq, Eq)]
pub enum Version {
    /// Numbers are aligned to their size.
    One,
    /// Numbers are aligned to 4 octets at most, and collections of what is not primitive have a
    /// header that counts their octets.
    Two,
}
