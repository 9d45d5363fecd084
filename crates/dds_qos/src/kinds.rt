//! The kinds of policies, by the numbers that encode them in messages (DDSI-RTPS 9.6.3).

ghost use Rattle.std.specs.Prelude.{◌≡◌};
ghost use Rattle.dds_qos.specs.Values as values;

use crate::{AccessScope, DestinationOrder, Durability, LivelinessKind, Ownership, Reliability};

/// `DurabilityQosPolicyKind`.
pub(crate) fn durability_of(kind: u32) -> Option<Durability>
    ensures { result ≡ values.durability_of kind }
{
    match kind {
        0 => Some(Durability::Volatile),
        1 => Some(Durability::TransientLocal),
        2 => Some(Durability::Transient),
        3 => Some(Durability::Persistent),
        _ => None,
    }
}

/// `PresentationQosPolicyAccessScopeKind`.
pub(crate) fn scope_of(kind: u32) -> Option<AccessScope>
    ensures { result ≡ values.scope_of kind }
{
    match kind {
        0 => Some(AccessScope::Instance),
        1 => Some(AccessScope::Topic),
        2 => Some(AccessScope::Group),
        _ => None,
    }
}

/// `OwnershipQosPolicyKind`.
pub(crate) fn ownership_of(kind: u32) -> Option<Ownership>
    ensures { result ≡ values.ownership_of kind }
{
    match kind {
        0 => Some(Ownership::Shared),
        1 => Some(Ownership::Exclusive),
        _ => None,
    }
}

/// `LivelinessQosPolicyKind`.
pub(crate) fn liveliness_of(kind: u32) -> Option<LivelinessKind>
    ensures { result ≡ values.liveliness_of kind }
{
    match kind {
        0 => Some(LivelinessKind::Automatic),
        1 => Some(LivelinessKind::ManualByParticipant),
        2 => Some(LivelinessKind::ManualByTopic),
        _ => None,
    }
}

/// `ReliabilityQosPolicyKind`.
pub(crate) fn reliability_of(kind: u32) -> Option<Reliability>
    ensures { result ≡ values.reliability_of kind }
{
    match kind {
        1 => Some(Reliability::BestEffort),
        2 => Some(Reliability::Reliable),
        _ => None,
    }
}

/// `DestinationOrderQosPolicyKind`.
pub(crate) fn order_of(kind: u32) -> Option<DestinationOrder>
    ensures { result ≡ values.order_of kind }
{
    match kind {
        0 => Some(DestinationOrder::ByReceptionTimestamp),
        1 => Some(DestinationOrder::BySourceTimestamp),
        _ => None,
    }
}
