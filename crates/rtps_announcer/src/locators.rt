//! The locators of a peer.

ghost use Rattle.std.specs.Prelude.{◌≡◌, ◌≤◌, ◌∷◌, ◌++◌, [], take, length};

use rtps_types::Locator;
use std::marker::Model;

/// How many locators of a peer are used.
const MOST: usize = 4;

/// The value of a place that isn't used.
const NO_LOCATOR: Locator = Locator {
    port: 0,
    address: [0; 4],
};

/// Up to four locators of a peer, in the order in which it listed them. They take no memory of
/// their own, so a stranger's list doesn't make us keep more. Contracts see only the list.
#[derive(Debug, Drop)]
pub struct PeerLocators {
    items: [Locator; 4],
    count: usize,
}

impl Model for PeerLocators {
    ghost use Rattle.std.specs.Prelude.{◌≤◌, List, take};
    ghost use Rattle.rtps_types.specs.declared.locator.Locator.{Locator};

    ghost Value = { List Locator };

    ghost view = { λ l. take l.count l.items };

    ghost invariant = { λ l. l.count ≤ 4 };
}

impl PeerLocators {
    /// Returns no locators.
    pub fn new() -> PeerLocators
        ensures { result ≡ [] }
    {
        PeerLocators {
            items: [NO_LOCATOR; 4],
            count: 0,
        }
    }

    /// Adds a locator after the others. The fifth one, and any after it, is left out.
    pub fn add(&mut self, locator: Locator)
        ensures { self.new ≡ take 4 (self.old ++ locator ∷ []) }
    {
        if self.count < MOST {
            self.items[self.count] = locator;
            self.count += 1;
        }
    }

    /// The locators, in order.
    pub fn as_slice(&self) -> &[Locator]
        ensures items { result.now ≡ self.now }
        ensures few { length self.now ≤ 4 }
    {
        &self.items[..self.count]
    }

    /// Returns a copy.
    pub(crate) fn copied(&self) -> PeerLocators
        ensures { result ≡ self.now }
    {
        PeerLocators {
            items: self.items,
            count: self.count,
        }
    }
}
