//! Locators: the addresses of a peer.

ghost use Rattle.std.specs.Prelude.{◌≡◌, ◌∷◌, [], IfOk, is_ok, length, true};

use std::alloc::{AllocError, Allocator, Global};
use std::marker::Model;

/// A UDP address over IPv4 (DDSI-RTPS 9.3.2.4, `LOCATOR_KIND_UDPv4`).
#[derive(Clone, Copy, PartialEq, Eq, Hash)]
pub struct Locator {
    pub port: u16,
    /// The four octets of the address, in the order of the dotted notation.
    pub address: [u8; 4],
}

/// The locators of a peer, in the order in which it listed them. Contracts see only the list. Most
/// peers have one locator, which needs no memory.
#[derive(Debug, Drop)]
pub struct Locators<A: Allocator = Global> {
    /// The locator of a list of one. It isn't a variant of an enum, since each answer has locators
    /// and copying an enum costs more than it saves.
    single: [Locator; 1],
    is_single: bool,
    /// The locators of any other list.
    items: Vec<Locator, A>,
}

impl<A: Allocator> Model for Locators<A> {
    ghost use Rattle.std.specs.Prelude.{List, if◌then◌else◌};
    ghost use Rattle.rtps_types.specs.declared.locator.Locator.{Locator};

    ghost Value = { List Locator };

    ghost view = { λ l. if l.is_single then l.single else l.items.items };
}

/// The value of `single` when it isn't used.
const NO_LOCATOR: Locator = Locator {
    port: 0,
    address: [0; 4],
};

impl<A: Allocator> Locators<A> {
    /// Returns the locators of a list, without a copy.
    pub fn new(items: Vec<Locator, A>) -> Locators<A>
        ensures { result ≡ items.items }
    {
        Locators {
            single: [NO_LOCATOR],
            is_single: false,
            items,
        }
    }

    /// Returns a list of this locator. No memory is taken.
    pub fn one(alloc: A, locator: Locator) -> Locators<A>
        ensures { result ≡ locator ∷ [] }
    {
        Locators {
            single: [locator],
            is_single: true,
            items: Vec::new(alloc),
        }
    }

    /// Returns a copy of locators, or `AllocError` if memory is refused. A single locator needs no
    /// memory.
    pub fn copied(alloc: A, locators: &[Locator]) -> Result<Locators<A>, AllocError>
        ensures copy { IfOk result (λ copy. copy ≡ locators.now) }
        ensures one { length locators.now ≡ 1 → is_ok result ≡ true }
    {
        match locators {
            [locator] => Ok(Locators::one(alloc, *locator)),
            _ => Ok(Locators::new(Vec::from_slice(alloc, locators)?)),
        }
    }

    /// Returns the locators, in order.
    pub fn as_slice(&self) -> &[Locator]
        ensures { result.now ≡ self.now }
    {
        if self.is_single {
            self.single.as_slice()
        } else {
            self.items.as_slice()
        }
    }
}
