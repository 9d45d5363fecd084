//! The policies that decide whether a writer and a reader match (DDS 1.4, section 2.2.3). The
//! number of a variant is the one that encodes it in discovery messages (DDSI-RTPS 9.6.3).

use rtps_types::Duration;

/// `DURATION_INFINITE` (DDSI-RTPS 9.3.2.3): 7fffffff ffffffff.
pub const INFINITE: Duration = Duration {
    seconds: 0x7fff_ffff,
    fraction: 0xffff_ffff,
};

/// How long data stays available after it was written (DDS 1.4, 2.2.3.4).
#[derive(Clone, Copy, Debug, PartialEq, Eq, PartialOrd, Ord)]
pub enum Durability {
    Volatile = 0,
    TransientLocal = 1,
    Transient = 2,
    Persistent = 3,
}

/// The largest scope in which coherent or ordered access applies (DDS 1.4, 2.2.3.6).
#[derive(Clone, Copy, Debug, PartialEq, Eq, PartialOrd, Ord)]
pub enum AccessScope {
    Instance = 0,
    Topic = 1,
    Group = 2,
}

/// How the changes of several instances are presented together (DDS 1.4, 2.2.3.6).
#[derive(Clone, Copy, Debug, PartialEq)]
pub struct Presentation {
    pub access_scope: AccessScope,
    /// Whether the changes of a coherent set become visible together.
    pub coherent_access: bool,
    /// Whether changes become visible in the order in which they were made.
    pub ordered_access: bool,
}

/// Whether several writers may write one instance (DDS 1.4, 2.2.3.9).
#[derive(Clone, Copy, Debug, PartialEq)]
pub enum Ownership {
    Shared = 0,
    Exclusive = 1,
}

/// Who asserts that a writer is alive (DDS 1.4, 2.2.3.11).
#[derive(Clone, Copy, Debug, PartialEq, Eq, PartialOrd, Ord)]
pub enum LivelinessKind {
    Automatic = 0,
    ManualByParticipant = 1,
    ManualByTopic = 2,
}

/// How, and how often, it is asserted that a writer is alive (DDS 1.4, 2.2.3.11).
#[derive(Clone, Copy, Debug, PartialEq)]
pub struct Liveliness {
    pub kind: LivelinessKind,
    /// The longest time between two assertions.
    pub lease_duration: Duration,
}

/// Whether lost changes are sent again (DDS 1.4, 2.2.3.14).
#[derive(Clone, Copy, Debug, PartialEq, Eq, PartialOrd, Ord)]
pub enum Reliability {
    BestEffort = 1,
    Reliable = 2,
}

/// The time that decides which of two changes is the later one: of reception, or of the source (DDS
/// 1.4, 2.2.3.17).
#[derive(Clone, Copy, Debug, PartialEq, Eq, PartialOrd, Ord)]
pub enum DestinationOrder {
    ByReceptionTimestamp = 0,
    BySourceTimestamp = 1,
}

/// The policies of a reader or a writer, except its partitions.
#[derive(Clone, Copy, Debug, PartialEq)]
pub struct Policies {
    pub durability: Durability,
    pub presentation: Presentation,
    /// The longest time between two changes of an instance (DDS 1.4, 2.2.3.7).
    pub deadline: Duration,
    /// The acceptable delay of a change (DDS 1.4, 2.2.3.8).
    pub latency_budget: Duration,
    pub ownership: Ownership,
    pub liveliness: Liveliness,
    pub reliability: Reliability,
    pub destination_order: DestinationOrder,
}
