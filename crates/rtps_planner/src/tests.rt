//! Events and outputs written by hand.

mod memory;
mod moments;
mod outputs;
mod plans;

use crate::*;
use rtps_types::{Locators, Octets, Place};
use std::alloc::Allocator;

/// The place of a submessage of one datagram.
fn place(submessage: u32) -> Place {
    Place {
        datagram: 7,
        submessage,
    }
}

fn no_locators<A: Allocator>(alloc: A) -> Locators<A> {
    Locators::new(Vec::new(alloc))
}

fn no_octets<A: Allocator>(alloc: A) -> Octets<A> {
    Octets::new(Vec::new(alloc))
}
