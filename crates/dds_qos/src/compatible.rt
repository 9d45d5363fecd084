//! Whether the policies that a writer offers are compatible with those that a reader requests (DDS
//! 1.4, 2.2.3).

ghost use Rattle.std.specs.Prelude.{◌≡◌, ◌==◌, map};
ghost use Rattle.std.specs.List.{list_any};
ghost use Rattle.std.specs.Str.{bytes_eq};
ghost use Rattle.std.specs.String.{string_bytes};
ghost use Rattle.dds_qos.specs.Compatible as compatible;
ghost use Rattle.dds_qos.specs.Compatible.{at_least, durability_kind, names_of, order_kind, ownership_kind, reliability_kind};

use crate::{
    DestinationOrder, Durability, Liveliness, Offered, Ownership, Policies, Presentation,
    Reliability, Requested,
};
use rtps_types::{Duration, PolicyId};
use std::alloc::Allocator;

/// Whether the offered durability is at least the requested one.
fn durability_met(offered: Durability, requested: Durability) -> bool
    ensures { result ≡ at_least (durability_kind offered) (durability_kind requested) }
{
    offered >= requested
}

/// Whether the offered scope is at least the requested one, and coherent and ordered access are
/// offered if they are requested.
fn presentation_met(offered: Presentation, requested: Presentation) -> bool
    ensures { result ≡ compatible.presentation_met offered requested }
{
    offered.access_scope >= requested.access_scope
        && (offered.coherent_access || !requested.coherent_access)
        && (offered.ordered_access || !requested.ordered_access)
}

/// Whether the offered duration, of a deadline or a latency budget, is at most the requested one.
fn at_most(offered: Duration, requested: Duration) -> bool
    ensures { result ≡ compatible.at_most offered requested }
{
    offered <= requested
}

/// Whether both ownerships are of the same kind.
fn ownership_met(offered: Ownership, requested: Ownership) -> bool
    ensures { result ≡ (ownership_kind offered == ownership_kind requested) }
{
    offered == requested
}

/// Whether the offered kind is at least the requested one, and the offered lease is at most the
/// requested one.
fn liveliness_met(offered: Liveliness, requested: Liveliness) -> bool
    ensures { result ≡ compatible.liveliness_met offered requested }
{
    offered.kind >= requested.kind && offered.lease_duration <= requested.lease_duration
}

/// Whether the offered reliability is at least the requested one.
fn reliability_met(offered: Reliability, requested: Reliability) -> bool
    ensures { result ≡ at_least (reliability_kind offered) (reliability_kind requested) }
{
    requested <= offered
}

/// Whether the offered order is at least the requested one: by source if that is requested.
fn order_met(offered: DestinationOrder, requested: DestinationOrder) -> bool
    ensures { result ≡ at_least (order_kind offered) (order_kind requested) }
{
    offered >= requested
}

/// Returns each policy by rising id, with whether the offered one is compatible with the requested
/// one.
fn policies_met(offered: &Policies, requested: &Policies) -> [(PolicyId, bool); 8]
    ensures { result ≡ compatible.policies_met offered.now requested.now }
{
    [
        (
            PolicyId::Durability,
            durability_met(offered.durability, requested.durability),
        ),
        (
            PolicyId::Presentation,
            presentation_met(offered.presentation, requested.presentation),
        ),
        (
            PolicyId::Deadline,
            at_most(offered.deadline, requested.deadline),
        ),
        (
            PolicyId::LatencyBudget,
            at_most(offered.latency_budget, requested.latency_budget),
        ),
        (
            PolicyId::Ownership,
            ownership_met(offered.ownership, requested.ownership),
        ),
        (
            PolicyId::Liveliness,
            liveliness_met(offered.liveliness, requested.liveliness),
        ),
        (
            PolicyId::Reliability,
            reliability_met(offered.reliability, requested.reliability),
        ),
        (
            PolicyId::DestinationOrder,
            order_met(offered.destination_order, requested.destination_order),
        ),
    ]
}

/// Returns the first policy that is incompatible.
fn first_unmet(policies: &[(PolicyId, bool)]) -> Option<PolicyId>
    ensures { result ≡ compatible.first_unmet policies.now }
{
    for &(policy, is_met) in policies {
        if !is_met {
            return Some(policy);
        }
    }
    None
}

/// Returns the incompatible policy with the least id, or `None` if the offered policies are
/// compatible with the requested ones (DDS 1.4, 2.2.3). No memory is taken.
#[tactic(auto, unfolding(crate::specs::Compatible::first_fault))]
pub fn first_fault<A: Allocator, B: Allocator>(
    offered: &Offered<A>,
    requested: &Requested<B>,
) -> Option<PolicyId>
    ensures { result ≡ compatible.first_fault offered.now.policies requested.now.policies }
{
    first_unmet(&policies_met(&offered.policies, &requested.policies))
}

/// Whether both have a partition in common, with names compared byte by byte. A list without names
/// stands for the partition with the empty name (DDS 1.4, 2.2.3.13). No memory is taken.
pub fn share_partition<A: Allocator, B: Allocator>(
    offered: &Offered<A>,
    requested: &Requested<B>,
) -> bool
    ensures { result
        ≡ compatible.share_partition offered.now.partitions requested.now.partitions }
{
    let names = offered.partitions.names();
    if names.is_empty() {
        return is_in("", requested.partitions.names());
    }
    for name in names {
        if is_in(name.as_str(), requested.partitions.names()) {
            return true;
        }
    }
    false
}

/// Whether a name is among the names of partitions.
fn is_in<A: Allocator>(name: &str, names: &[String<A>]) -> bool
    ensures { result ≡ list_any (bytes_eq name.now) (names_of (map string_bytes names.now)) }
{
    if names.is_empty() {
        return name.is_empty();
    }
    for other in names {
        if name == other.as_str() {
            return true;
        }
    }
    false
}
