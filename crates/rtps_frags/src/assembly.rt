//! Reassembly of one sample.

ghost use Rattle.std.specs.Prelude.{◌≡◌, [], IfErr, OnOk, Err, Some, None, true, false, length};
ghost use Rattle.std.specs.Option.{option_map};
ghost use Rattle.rtps_types.specs.Sets.{frag_view};
ghost use Rattle.rtps_frags.specs.declared.fault.AddError.TheVariants as add;
ghost use Rattle.rtps_frags.specs.declared.fault.FragFault.{FragFault};
ghost use Rattle.rtps_frags.specs.Fragments.{fault_of, payload_of};
ghost use Rattle.rtps_frags.specs.Kept.{Leaves, has_come, with_part};
ghost use Rattle.rtps_frags.specs.Missing.{missing, missing_by};

use crate::chunks::{Chunks, Piece};
use crate::fault::{AddError, fault_in};
use crate::sizes::Sizes;
use rtps_types::{FragSet, Octets};
use std::alloc::{Allocator, Global};
use std::marker::Model;

/// One sample that is reassembled from fragments. Its memory depends on the octets received, and
/// not on the size that the writer states: unless the assembly is spent, its buffer has a capacity
/// of at most sixteen times the octets received in it, and so has each chunk that is stored apart.
#[derive(Drop)]
pub struct Assembly<A: Allocator = Global> {
    sizes: Sizes,
    chunks: Chunks<A>,
    /// A growth was refused: fragments may be stored in part.
    spent: bool,
}

impl<A: Allocator> Model for Assembly<A> {
    ghost use Rattle.std.specs.Prelude.{◌≡◌, false};
    ghost use Rattle.rtps_frags.specs.Kept.{AssemblyView};
    ghost use Rattle.rtps_frags.specs.Chunks.{IsBounded, IsKept, there_in};

    ghost Value = { AssemblyView };

    ghost view = { λ a. record {
      sizes = a.sizes;
      there = there_in a.sizes a.chunks;
      spent = a.spent;
    } };

    ghost invariant = { λ a. IsKept a.sizes a.chunks × (a.spent ≡ false → IsBounded a.chunks) };
}

impl<A: Allocator + Copy> Assembly<A> {
    /// Returns a sample without fragments, by the sizes of the sample and of its fragments in
    /// octets.
    pub fn new(alloc: A, sample_size: u32, fragment_size: u16) -> Assembly<A>
        ensures sizes { result.sizes
            ≡ (record { sample = sample_size; fragment = fragment_size }) }
        ensures there { result.there ≡ [] }
        ensures sound { result.spent ≡ false }
    {
        Assembly {
            sizes: Sizes {
                sample: sample_size,
                fragment: fragment_size,
            },
            chunks: Chunks::new(alloc),
            spent: false,
        }
    }

    /// Adds `count` fragments from `start` on, whose octets `payload` begins with. More octets are
    /// ignored, and a fragment that is stored already stays as it is. Fragments with a fault change
    /// nothing. After a refused growth the assembly is spent: each later call returns an error, and
    /// changes nothing.
    pub fn add(&mut self, alloc: A, start: u32, count: u16, payload: &[u8]) -> Result<(), AddError>
        ensures ok { OnOk result (self.new ≡ with_part self.old start count payload.now) }
        ensures faultless { OnOk result
            (fault_of self.old.sizes start count (length payload.now) ≡ None) }
        ensures err { IfErr result (Leaves self.old self.new
            (fault_of self.old.sizes start count (length payload.now))) }
        ensures faulty { (fault : FragFault) → self.old.spent ≡ false →
            fault_of self.old.sizes start count (length payload.now) ≡ Some fault →
            result ≡ Err (add.Fault fault) }
        ensures spent { self.old.spent ≡ true → result ≡ Err add.NoMemory }
        ensures still { self.old.spent ≡ true → self.new ≡ self.old }
    {
        if self.spent {
            return Err(AddError::NoMemory);
        }
        if let Some(fault) = fault_in(self.sizes, start, count, payload.len()) {
            return Err(AddError::Fault(fault));
        }
        self.spent = true;
        let piece = Piece {
            start,
            count: u32::from(count),
            octets: payload,
        };
        if self.chunks.add(alloc, self.sizes, piece).is_err() {
            return Err(AddError::NoMemory);
        }
        self.spent = false;
        Ok(())
    }
}

impl<A: Allocator> Assembly<A> {
    /// Returns the sizes of the sample and of its fragments.
    pub fn sizes(&self) -> Sizes
        ensures { result ≡ self.now.sizes }
    {
        self.sizes
    }

    /// Whether all fragments are stored; false if the sample has no octets or a growth was refused.
    pub fn is_whole(&self) -> bool
        ensures { result ≡ has_come self.now }
    {
        if self.spent || self.sizes.is_empty() {
            return false;
        }
        // It is complete if the octets before the least missing fragment are the whole sample.
        self.sizes.upto(self.chunks.next - 1) == self.sizes.sample as usize
    }

    /// Returns the missing fragments up to `last` and up to the sample's last one, of the 256 that
    /// begin with the least missing one, or `None` if none is missing.
    pub fn missing_up_to(&self, last: u32) -> Option<FragSet>
        ensures { option_map frag_view result ≡ missing self.now.sizes self.now.there last }
    {
        if self.sizes.is_empty() {
            return None;
        }
        let end = last.min(self.sizes.last());
        self.chunks.missing_up_to(end)
    }

    /// Returns the sample's octets without a copy.
    pub fn whole(self) -> Octets<A>
        requires { has_come self ≡ true }
        ensures payload { result ≡ payload_of self.there }
        ensures size { length result ≡ self.sizes.sample }
    {
        Octets::new(self.chunks.buffer)
    }
}

/// Returns the missing fragments up to `last` of a sample without fragments.
pub fn missing_of_none<A: Allocator + Copy>(alloc: A, last: u32) -> Option<FragSet>
    ensures { option_map frag_view result ≡ missing_by (λ _. false) last }
{
    Chunks::new(alloc).missing_up_to(last)
}
