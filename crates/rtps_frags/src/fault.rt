//! Faults of fragments.

ghost use Rattle.std.specs.Prelude.{◌≡◌};
ghost use Rattle.rtps_frags.specs.Fragments.{fault_of};

use crate::sizes::Sizes;
use std::alloc::AllocError;
use thiserror::Error;

/// Why fragments are ignored.
#[derive(Clone, Copy, Debug, PartialEq, Eq, Error)]
pub enum FragFault {
    /// The size of the sample or of its fragments is 0.
    #[error("a size is 0")]
    Sizes,
    /// The sample has no fragments with these numbers.
    #[error("no such fragment")]
    Number,
    /// The payload is shorter than the fragments.
    #[error("too few octets")]
    ShortPayload,
    /// The sample has more than 67,108,864 octets.
    #[error("the sample is too large")]
    TooLarge,
}

/// Why an assembly refuses fragments.
#[derive(Clone, Copy, Debug, PartialEq, Eq, Error)]
pub enum AddError {
    /// The fragments have a fault; nothing changed.
    #[error("{0}")]
    Fault(FragFault),
    /// The allocator refused a growth, now or at an earlier call.
    #[error("out of memory")]
    NoMemory,
}

impl From<AllocError> for AddError {
    ghost use Rattle.rtps_frags.specs.declared.fault.AddError.TheVariants.{NoMemory};

    ghost from_gives = { λ _ r. r ≡ NoMemory };

    fn from(_: AllocError) -> AddError {
        AddError::NoMemory
    }
}

/// The largest sample that is reassembled, 64 MiB: the size is stated by the writer, which isn't
/// trusted.
const MAX_SAMPLE: u32 = 67_108_864;

/// Returns the first fault of `count` fragments from `start` on in a payload of `octets`, in this
/// order: a size of 0, a sample that is too large, no such fragments, too few octets.
#[tactic(auto, unfolding(crate::specs::Fragments::fault_of))]
pub fn fault_in(sizes: Sizes, start: u32, count: u16, octets: usize) -> Option<FragFault>
    ensures { result ≡ fault_of sizes start count octets }
{
    if sizes.is_empty() {
        return Some(FragFault::Sizes);
    }
    if sizes.sample > MAX_SAMPLE {
        return Some(FragFault::TooLarge);
    }
    if sizes.is_outside(start, count) {
        return Some(FragFault::Number);
    }
    if octets < sizes.length_of(start, u32::from(count)) {
        return Some(FragFault::ShortPayload);
    }
    None
}
