//! The status of a reader.

ghost use Rattle.std.specs.Prelude.{◌≡◌, ◌+◌, None, Some, length};
ghost use Rattle.rtps_reader.specs.Standing.{counts_after, status_by};
ghost use Rattle.rtps_reader.specs.Status.{capped};

use rtps_proxy::Effects;
use rtps_types::PolicyId;
use std::alloc::Allocator;

/// The status of a reader: its matches now, and totals since its start (DDS 1.4, 2.2.4.1). Totals
/// stop at 2,147,483,647.
#[derive(Clone, Copy, Debug, PartialEq, Eq)]
pub struct Status {
    /// The number of matches that began, with the fixed ones.
    pub matched_total: u32,
    /// The number of matches now.
    pub matched_now: u64,
    /// The number of times that a writer was found to offer less than is requested.
    pub incompatible_total: u32,
    /// The policy of the last such time.
    pub last_policy: Option<PolicyId>,
    /// The number of sequence numbers that were given up.
    pub lost_total: u32,
    /// The number of changes that were presented, with unread ones and ends of instances.
    pub samples: u32,
}

/// The totals of a reader: its status without the number of matches now.
#[derive(Clone, Copy)]
pub(crate) struct Counts {
    pub(crate) matched_total: u32,
    pub(crate) incompatible_total: u32,
    pub(crate) last_policy: Option<PolicyId>,
    pub(crate) lost_total: u32,
    pub(crate) samples: u32,
}

impl Counts {
    /// Returns the totals of a reader that starts with this number of matches.
    pub(crate) fn of_fixed(matches: usize) -> Counts
        ensures { result ≡ record {
          matched_total = capped (0 + matches);
          incompatible_total = 0;
          last_policy = None;
          lost_total = 0;
          samples = 0;
        } }
    {
        Counts {
            matched_total: counted(0, matches as u64),
            incompatible_total: 0,
            last_policy: None,
            lost_total: 0,
            samples: 0,
        }
    }

    /// Returns the totals after an event with these effects.
    pub(crate) fn with_effects<A: Allocator>(self, effects: &Effects<'_, A>) -> Counts
        ensures { result ≡ counts_after self effects.now.lost (length effects.now.ready.items) }
    {
        Counts {
            lost_total: counted(self.lost_total, effects.lost),
            samples: counted(self.samples, effects.ready.len() as u64),
            ..self
        }
    }

    /// Returns the totals after a match began.
    pub(crate) fn with_match(self) -> Counts
        ensures { result ≡ record self { matched_total = capped (self.matched_total + 1) } }
    {
        Counts {
            matched_total: counted(self.matched_total, 1),
            ..self
        }
    }

    /// Returns the totals after a writer was refused for a policy.
    pub(crate) fn with_refusal(self, policy: PolicyId) -> Counts
        ensures { result ≡ record self {
          incompatible_total = capped (self.incompatible_total + 1);
          last_policy = Some policy;
        } }
    {
        Counts {
            incompatible_total: counted(self.incompatible_total, 1),
            last_policy: Some(policy),
            ..self
        }
    }

    /// Returns the status, where `matches` is the number of matches now.
    pub(crate) fn status(self, matches: usize) -> Status
        ensures { result ≡ status_by self matches }
    {
        Status {
            matched_total: self.matched_total,
            matched_now: matches as u64,
            incompatible_total: self.incompatible_total,
            last_policy: self.last_policy,
            lost_total: self.lost_total,
            samples: self.samples,
        }
    }
}

/// The greatest total that is reported: totals are a signed `long` in DDS 1.4, 2.2.4.1.
pub(crate) const MOST: u64 = 2_147_483_647;

/// Adds to a total, up to the greatest that is reported.
fn counted(total: u32, more: u64) -> u32
    ensures { result ≡ capped (total + more) }
{
    u64::from(total).saturating_add(more).min(MOST) as u32
}
