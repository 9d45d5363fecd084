//! What a reader knows about a writer, and its replies.

use crate::{Guid, Locators, Octets};
use std::alloc::{Allocator, Global};

/// A writer that a reader is matched with (DDSI-RTPS 8.4.10.4, `WriterProxy`).
#[derive(Debug, Drop)]
pub struct WriterFacts<A: Allocator = Global> {
    pub writer: Guid,
    /// Where answers to it are sent.
    pub locators: Locators<A>,
}

/// A reply: a datagram with an ACKNACK or a NACK_FRAG (DDSI-RTPS 8.3.7.1, 8.3.7.11).
#[derive(Debug, Drop)]
pub struct Reply<A: Allocator = Global> {
    /// Where it is sent.
    pub to: Locators<A>,
    /// The octets of the datagram.
    pub octets: Octets<A>,
}
