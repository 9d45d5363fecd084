//! Timestamps and durations.

/// A timestamp: seconds, and a fraction in units of 2^-32 seconds (DDSI-RTPS 9.3.2.1, `Time_t`).
#[derive(Clone, Copy, PartialEq, Eq, Hash)]
pub struct Timestamp {
    pub seconds: u32,
    pub fraction: u32,
}

/// A duration, ordered by seconds and then by fraction (DDSI-RTPS 9.3.2.3, `Duration_t`).
#[derive(Clone, Copy, PartialEq, Eq, PartialOrd, Ord, Hash)]
pub struct Duration {
    /// Whole seconds, which may be negative.
    pub seconds: i32,
    /// The fraction that is added to them, in units of 2^-32 seconds.
    pub fraction: u32,
}
