//! The HISTORY policy: the number of entries that are kept for each instance.

/// The entries that are kept for each instance (DDS 1.4, 2.2.3.18, HISTORY).
#[derive(Clone, Copy, Debug, PartialEq, Eq)]
pub enum History {
    /// The newest ones, up to this number, 1 to 65,536.
    KeepLast(u32),
    /// All, until they are taken.
    KeepAll,
}
