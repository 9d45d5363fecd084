//! The configuration of a proxy.

use rtps_types::{EntityId, Guid, GuidPrefix, Locators};
use std::alloc::{Allocator, Global};

/// The match that a proxy serves, and where its answers are sent (DDSI-RTPS 8.4.10.4).
#[derive(Debug, Drop)]
pub struct ProxyConfig<A: Allocator = Global> {
    /// Our participant.
    pub own: GuidPrefix,
    pub writer: Guid,
    /// The reader that is matched with the writer.
    pub reader: EntityId,
    /// Whether the reader asks for missing changes.
    pub reliable: bool,
    /// Where answers are sent.
    pub locators: Locators<A>,
}
