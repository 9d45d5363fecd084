//! The sizes of a sample and of its fragments.

ghost use Rattle.std.specs.Prelude.{◌≡◌, ◌+◌, ◌-◌, ◌<◌, ◌≤◌};
ghost use Rattle.rtps_frags.specs.Fragments.{before, is_empty, is_outside, last_of, length_of, upto};

/// The sizes in octets of a sample and of its fragments. The last fragment may be shorter.
#[derive(Clone, Copy, Debug, PartialEq, Eq)]
pub struct Sizes {
    pub sample: u32,
    pub fragment: u16,
}

impl Sizes {
    /// Whether the size of the sample or of its fragments is 0.
    pub(crate) fn is_empty(self) -> bool
        ensures { result ≡ is_empty self }
    {
        self.sample == 0 || self.fragment == 0
    }

    /// Returns the number of the last fragment.
    pub(crate) fn last(self) -> u32
        requires { 0 < self.fragment }
        ensures { result ≡ last_of self }
    {
        self.sample.div_ceil(u32::from(self.fragment))
    }

    /// Returns the number of octets before a fragment.
    #[tactic(auto, using(crate::proofs::Cuts::before_is))]
    pub(crate) fn before(self, fragment: u32) -> usize
        requires { 1 ≤ fragment }
        ensures { result ≡ before self fragment }
    {
        (fragment as usize - 1) * usize::from(self.fragment)
    }

    /// Returns the number of octets up to the end of a fragment.
    pub(crate) fn upto(self, fragment: u32) -> usize
        ensures { result ≡ upto self fragment }
    {
        (fragment as usize * usize::from(self.fragment)).min(self.sample as usize)
    }

    /// Whether the sample has no such fragments. It compares the number of octets before the last
    /// of them with the sample's size, which saves a division.
    pub(crate) fn is_outside(self, start: u32, count: u16) -> bool
        requires { 0 < self.fragment }
        ensures { result ≡ is_outside self start count }
    {
        if start == 0 || count == 0 {
            return true;
        }
        let earlier = u64::from(start) + u64::from(count) - 2;
        u64::from(self.sample) <= earlier * u64::from(self.fragment)
    }

    /// Returns the number of octets in `count` fragments from `start` on.
    #[tactic(auto, using(crate::proofs::Cuts::last_within))]
    pub(crate) fn length_of(self, start: u32, count: u32) -> usize
        requires first { 1 ≤ start }
        requires some { 1 ≤ count }
        requires within { start + count ≤ last_of self + 1 }
        requires cut { 0 < self.fragment }
        ensures { result ≡ length_of self start count }
    {
        self.upto(start - 1 + count) - self.before(start)
    }
}
