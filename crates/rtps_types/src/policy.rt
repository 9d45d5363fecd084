//! The policies for which a reader and a writer may be incompatible.

ghost use Rattle.std.specs.Prelude.{◌≡◌};
ghost use Rattle.rtps_types.specs.Policy.{policy_id, policy_name};

/// A policy that can make a writer and a reader incompatible: the writer offers less of it than the
/// reader requests (DDS 1.4, 2.2.3).
#[derive(Clone, Copy, Debug, PartialEq, Eq)]
pub enum PolicyId {
    Durability,
    Presentation,
    Deadline,
    LatencyBudget,
    Ownership,
    Liveliness,
    Reliability,
    DestinationOrder,
}

impl PolicyId {
    /// Returns the number in the standard's table (DDS 1.4, 2.3.3, `QosPolicyId_t`).
    pub fn id(self) -> u32
        ensures { result ≡ policy_id self }
    {
        match self {
            PolicyId::Durability => 2,
            PolicyId::Presentation => 3,
            PolicyId::Deadline => 4,
            PolicyId::LatencyBudget => 5,
            PolicyId::Ownership => 6,
            PolicyId::Liveliness => 8,
            PolicyId::Reliability => 11,
            PolicyId::DestinationOrder => 12,
        }
    }

    /// Returns the name in the standard, without the suffix `QosPolicy`.
    pub fn name(self) -> &'static str
        ensures { result.now ≡ policy_name self }
    {
        match self {
            PolicyId::Durability => "Durability",
            PolicyId::Presentation => "Presentation",
            PolicyId::Deadline => "Deadline",
            PolicyId::LatencyBudget => "LatencyBudget",
            PolicyId::Ownership => "Ownership",
            PolicyId::Liveliness => "Liveliness",
            PolicyId::Reliability => "Reliability",
            PolicyId::DestinationOrder => "DestinationOrder",
        }
    }
}
