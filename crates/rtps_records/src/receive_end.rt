//! The reason why a batch of datagrams ended.

/// Why the receiving of a batch of datagrams ended.
#[derive(Clone, Copy, Debug, PartialEq, Eq)]
pub enum ReceiveEnd {
    /// The batch is full; more datagrams may have come.
    More,
    /// All datagrams that came were received.
    Drained,
    /// The source failed; more datagrams may have come.
    Fault,
}
