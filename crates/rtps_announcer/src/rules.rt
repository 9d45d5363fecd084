//! The numbers that are chosen.

/// How often is announced and reminded, and for how many. Times are in milliseconds. The standard
/// leaves these numbers open (DDSI-RTPS 8.4.7.1, 8.5.3.2); [`Rules::DEFAULT`] has those that are
/// meant.
#[derive(Clone, Copy, Debug, PartialEq, Eq)]
pub struct Rules {
    /// The time between two announcements to everyone.
    pub period: u64,
    /// The time between two HEARTBEATs to a peer that hasn't acknowledged all.
    pub reminder: u64,
    /// How many HEARTBEATs a peer gets without a sign of life.
    pub reminders: u32,
    /// How many numbers are sent again for one ACKNACK.
    pub again: usize,
    /// How many peers are served.
    pub peers: usize,
}

impl Rules {
    pub const DEFAULT: Rules = Rules {
        period: 1_000,
        reminder: 200,
        reminders: 25,
        again: 16,
        peers: 256,
    };
}
