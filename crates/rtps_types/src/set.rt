//! Sets of numbers, within 256 numbers from a base (DDSI-RTPS 9.4.2.6, 9.4.2.8).

ghost use Rattle.std.specs.Prelude.{◌≡◌, ◌+◌, ◌-◌, ◌^◌, ◌<◌, ◌≤◌, ℕ, List};
ghost use Rattle.std.specs.Iterator.{YieldsFirst, item_count};
ghost use Rattle.rtps_types.specs.Named.{with_bit};
ghost use Rattle.rtps_types.specs.NumberSet.{members, members_from, names};

use std::marker::Model;

/// A set of sequence numbers. `base + k` is a member if k is below `bits` and bit `31 - k % 32` of
/// word `k / 32` is set. Bits from offset `bits` on are ignored.
#[derive(Clone, Copy, Debug, PartialEq, Eq)]
pub struct SnSet {
    /// The number of offset 0, from 1 to 2^63 - 1. It may be above the greatest number of a change.
    pub base: u64,
    /// The number of offsets, at most 256.
    pub bits: u32,
    pub words: [u32; 8],
    ghost from_one: { 1 ≤ base },
    ghost signed: { base < 2 ^ 63 },
    ghost few: { bits ≤ 256 },
}

/// A set of fragment numbers, with bits as in [`SnSet`].
#[derive(Clone, Copy, Debug, PartialEq, Eq)]
pub struct FragSet {
    /// The fragment number of offset 0, at least 1.
    pub base: u32,
    /// The number of offsets, at most 256.
    pub bits: u32,
    pub words: [u32; 8],
    ghost from_one: { 1 ≤ base },
    ghost few: { bits ≤ 256 },
}

/// The standard's name for [`SnSet`] (DDSI-RTPS 9.4.2.6).
pub type SequenceNumberSet = SnSet;

/// The standard's name for [`FragSet`] (DDSI-RTPS 9.4.2.8).
pub type FragmentNumberSet = FragSet;

impl SnSet {
    ghost use Rattle.rtps_types.specs.Sets.{sn_view};

    /// Returns the members, in rising order.
    pub fn members(&self) -> Members
        ensures { result ≡ members (sn_view self.now) }
    {
        Members {
            base: self.base,
            words: self.words,
            offset: 0,
            bits: self.bits,
        }
    }
}

impl FragSet {
    ghost use Rattle.rtps_types.specs.Sets.{frag_view};

    /// Returns the members, in rising order.
    pub fn members(&self) -> Members
        ensures { result ≡ members (frag_view self.now) }
    {
        Members {
            base: u64::from(self.base),
            words: self.words,
            offset: 0,
            bits: self.bits,
        }
    }
}

/// Whether the bit of an offset is set in these words.
fn names_offset(words: &[u32; 8], offset: u32) -> bool
    requires { offset < 256 }
    ensures { result ≡ names words.now offset }
{
    words[(offset / 32) as usize] & (1 << (31 - offset % 32)) != 0
}

/// Sets the bit of an offset, 0 to 255, in the words of a set (DDSI-RTPS 9.4.2.6).
pub fn set_bit(words: &mut [u32; 8], offset: u32)
    requires { offset < 256 }
    ensures { words.new ≡ with_bit words.old offset }
{
    words[(offset / 32) as usize] |= 1 << (31 - offset % 32);
}

/// An iterator over the members of a set, in rising order. No memory is taken.
#[derive(Drop)]
pub struct Members {
    base: u64,
    words: [u32; 8],
    /// The next offset to be tested.
    offset: u32,
    bits: u32,
}

impl Model for Members {
    ghost Value = { List ℕ };

    ghost view = { λ m. members_from m.base m.words m.offset (m.bits - m.offset) };

    ghost invariant = { λ m. (m.base < 2 ^ 63) × (m.bits ≤ 256) };
}

impl Iterator for Members {
    type Item = u64;

    ghost next_gives = { YieldsFirst (λ left. left) };

    ghost remaining = { item_count (λ left. left) };

    #[tactic(auto, using(crate::proofs::Sets::members_named, crate::proofs::Sets::members_unnamed, crate::proofs::Sets::members_end))]
    fn next(&mut self) -> Option<u64> {
        while self.offset < self.bits {
            let offset = self.offset;
            self.offset += 1;
            if names_offset(&self.words, offset) {
                return Some(self.base + u64::from(offset));
            }
        }
        None
    }
}
