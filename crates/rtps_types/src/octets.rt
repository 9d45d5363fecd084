//! Owned octets.

ghost use Rattle.std.specs.Prelude.{◌≡◌, List, ℕ};

use std::alloc::{Allocator, Global};
use std::marker::Model;

/// Owned octets, for example of a datagram to be sent. Contracts see only the list, and not its
/// capacity.
#[derive(Debug, Drop)]
pub struct Octets<A: Allocator = Global> {
    items: Vec<u8, A>,
}

impl<A: Allocator> Model for Octets<A> {
    ghost Value = { List ℕ };

    ghost view = { λ o. o.items.items };
}

impl<A: Allocator> Octets<A> {
    /// Returns the octets of a list, without a copy.
    pub fn new(items: Vec<u8, A>) -> Octets<A>
        ensures { result ≡ items.items }
    {
        Octets { items }
    }

    /// Returns the octets.
    pub fn as_slice(&self) -> &[u8]
        ensures { result.now ≡ self.now }
    {
        self.items.as_slice()
    }
}
