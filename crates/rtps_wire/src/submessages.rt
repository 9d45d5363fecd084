//! The submessages of a message, in order (DDSI-RTPS 8.3.4.1, 9.4.5.1).

ghost use Rattle.std.specs.Prelude.{◌≡◌, ◌≤◌, List, Option, None, [], ◌∷◌, length};
ghost use Rattle.std.specs.Iterator.{item_count};
ghost use Rattle.rtps_wire.specs.declared.submessage.SubmessageFault.{SubmessageFault};
ghost use Rattle.rtps_wire.specs.Message.{IsReading};
ghost use Rattle.rtps_wire.specs.Reading.{Reading, Takes, reading};
ghost use Rattle.rtps_wire.specs.Submessage.{Item};

use crate::raw::read_front;
use crate::submessage::{Submessage, SubmessageFault};
use std::marker::Model;

/// An iterator over the valid submessages after a message's header, in order, up to the first
/// invalid one (DDSI-RTPS 8.3.4.1). No memory is taken.
#[derive(Drop)]
pub struct Submessages<'a> {
    rest: &'a [u8],
}

impl<'a> Model for Submessages<'a> {
    ghost Value = { Reading };

    ghost view = { λ s. reading s.rest.now };
}

impl<'a> Submessages<'a> {
    /// Returns the submessages in `octets`, which are those after the 20 octets of the header.
    #[tactic(auto, using(crate::proofs::Steps::few_items, crate::proofs::Grammar::reading_is))]
    pub fn new(octets: &'a [u8]) -> Submessages<'a>
        // By the grammar, any octets have exactly this reading.
        ensures found { IsReading octets.now result.items result.fault }
        ensures only { (items : List Item) (fault : Option SubmessageFault) →
            IsReading octets.now items fault → result ≡ record { items = items; fault = fault } }
        ensures value { result ≡ reading octets.now }
        ensures few { length result.items ≤ length octets.now }
    {
        Submessages { rest: octets }
    }

    /// Returns why reading stopped, or `None` if it reached the end. It is meant to be called once
    /// `next` has returned `None`; before that it returns `None`.
    #[tactic(auto, using(crate::proofs::Steps::reading_item, crate::proofs::Steps::reading_end, crate::proofs::Steps::reading_fault))]
    pub fn fault(&self) -> Option<SubmessageFault>
        ensures ended { self.now.items ≡ [] → result ≡ self.now.fault }
        ensures before { (next : Item) (others : List Item) →
            self.now.items ≡ next ∷ others → result ≡ None }
    {
        match read_front(self.rest) {
            Ok(None) => None,
            Ok(Some(raw)) if raw.parts().is_some() => None,
            Ok(Some(_)) => Some(SubmessageFault::Invalid),
            Err(fault) => Some(fault),
        }
    }
}

impl<'a> Iterator for Submessages<'a> {
    type Item = Submessage<'a>;

    ghost next_gives = { Takes };

    ghost remaining = { item_count (λ s. s.items) };

    #[tactic(auto, using(crate::proofs::Steps::reading_item, crate::proofs::Steps::reading_end, crate::proofs::Steps::reading_fault))]
    fn next(&mut self) -> Option<Submessage<'a>> {
        match read_front(self.rest) {
            Ok(Some(raw)) => {
                let parts = raw.parts()?;
                self.rest = raw.rest;
                Some(Submessage {
                    id: raw.id,
                    flags: raw.flags,
                    parts,
                })
            }
            Ok(None) | Err(_) => None,
        }
    }
}
