//! The partitions that a reader or a writer is in (DDS 1.4, 2.2.3.13).

ghost use Rattle.std.specs.Prelude.{◌≡◌, map};
ghost use Rattle.std.specs.String.{string_bytes};

use std::alloc::{Allocator, Global};
use std::marker::Model;

/// The names of partitions, in the order in which they were given. A list without names stands for
/// the partition with the empty name. Contracts see only the octets of each name, not its capacity.
#[derive(Debug, Drop)]
pub struct Partitions<A: Allocator = Global> {
    names: Vec<String<A>, A>,
}

impl<A: Allocator> Model for Partitions<A> {
    ghost use Rattle.std.specs.Prelude.{List, ℕ, map};
    ghost use Rattle.std.specs.String.{string_bytes};

    ghost Value = { List (List ℕ) };

    ghost view = { λ p. map string_bytes p.names.items };
}

impl<A: Allocator> Partitions<A> {
    /// Makes partitions of these names.
    pub fn new(names: Vec<String<A>, A>) -> Partitions<A>
        ensures { result ≡ map string_bytes names.items }
    {
        Partitions { names }
    }

    /// Returns the names, in the order in which they were given.
    pub fn names(&self) -> &[String<A>]
        ensures { map string_bytes result.now ≡ self.now }
    {
        self.names.as_slice()
    }
}
