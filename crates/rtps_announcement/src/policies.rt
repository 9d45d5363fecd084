//! The values of policies (DDSI-RTPS 9.6.3; DDS 1.4, 2.2.3).

ghost use Rattle.std.specs.Prelude.{◌≡◌, [], ◌∷◌, ◌++◌, OnOk};
ghost use Rattle.std.specs.List.{flat_map};
ghost use Rattle.rtps_announcement.specs.Parameters.{parameter_octets};
ghost use Rattle.rtps_announcement.specs.Policies as policies;
ghost use Rattle.rtps_announcement.specs.Values.{IsDuration, kind_value};

use crate::parameters::push_parameter;
use crate::values::duration_value;
use dds_qos::{
    AccessScope, DestinationOrder, Durability, Liveliness, LivelinessKind, Ownership, Policies,
    Presentation, Reliability,
};
use rtps_params::ids::{
    DEADLINE, DESTINATION_ORDER, DURABILITY, LATENCY_BUDGET, LIVELINESS, OWNERSHIP, PRESENTATION,
    RELIABILITY,
};
use rtps_types::{Endian, put_octets, put_u32};
use std::alloc::{AllocError, Allocator};

/// Appends the parameters of all eight policies. An error is a refused growth.
pub(crate) fn push_policies<A: Allocator>(
    octets: &mut Vec<u8, A>,
    requested: &Policies,
) -> Result<(), AllocError>
    ensures octets { OnOk result (octets.new.items ≡ octets.old.items
        ++ flat_map parameter_octets (policies.policy_parameters requested.now [])) }
    ensures fits { OnOk result (policies.HaveDurations requested.now) }
{
    push_parameter(octets, DURABILITY, &durability_value(requested.durability))?;
    push_parameter(
        octets,
        PRESENTATION,
        &presentation_value(requested.presentation),
    )?;
    push_parameter(octets, DEADLINE, &duration_value(requested.deadline))?;
    push_parameter(
        octets,
        LATENCY_BUDGET,
        &duration_value(requested.latency_budget),
    )?;
    push_parameter(octets, OWNERSHIP, &ownership_value(requested.ownership))?;
    push_parameter(octets, LIVELINESS, &liveliness_value(requested.liveliness))?;
    push_parameter(
        octets,
        RELIABILITY,
        &reliability_value(requested.reliability),
    )?;
    push_parameter(
        octets,
        DESTINATION_ORDER,
        &order_value(requested.destination_order),
    )?;
    Ok(())
}

/// Returns the octets of a number of 32 bits.
fn kind_value(kind: u32) -> [u8; 4]
    ensures { result ≡ kind_value kind }
{
    let mut value = [0; 4];
    put_u32(&mut value, 0, Endian::Little, kind);
    value
}

/// `DurabilityQosPolicy`.
fn durability_value(durability: Durability) -> [u8; 4]
    ensures { result ≡ kind_value (policies.durability_kind durability) }
{
    match durability {
        Durability::Volatile => kind_value(0),
        Durability::TransientLocal => kind_value(1),
        Durability::Transient => kind_value(2),
        Durability::Persistent => kind_value(3),
    }
}

/// `OwnershipQosPolicy`.
fn ownership_value(ownership: Ownership) -> [u8; 4]
    ensures { result ≡ kind_value (policies.ownership_kind ownership) }
{
    match ownership {
        Ownership::Shared => kind_value(0),
        Ownership::Exclusive => kind_value(1),
    }
}

/// `DestinationOrderQosPolicy`.
fn order_value(order: DestinationOrder) -> [u8; 4]
    ensures { result ≡ kind_value (policies.order_kind order) }
{
    match order {
        DestinationOrder::ByReceptionTimestamp => kind_value(0),
        DestinationOrder::BySourceTimestamp => kind_value(1),
    }
}

/// Returns the number of a kind of reliability.
fn reliability_kind(reliability: Reliability) -> u32
    ensures { result ≡ policies.reliability_kind reliability }
{
    match reliability {
        Reliability::BestEffort => 1,
        Reliability::Reliable => 2,
    }
}

/// Returns the number of a kind of liveliness.
fn liveliness_kind(kind: LivelinessKind) -> u32
    ensures { result ≡ policies.liveliness_kind kind }
{
    match kind {
        LivelinessKind::Automatic => 0,
        LivelinessKind::ManualByParticipant => 1,
        LivelinessKind::ManualByTopic => 2,
    }
}

/// Returns the number of a scope of access.
fn scope_kind(scope: AccessScope) -> u32
    ensures { result ≡ policies.scope_kind scope }
{
    match scope {
        AccessScope::Instance => 0,
        AccessScope::Topic => 1,
        AccessScope::Group => 2,
    }
}

/// `ReliabilityQosPolicy`: the kind, and the longest time that a write may block, which is 0.
fn reliability_value(reliability: Reliability) -> [u8; 12]
    ensures { result ≡ policies.reliability_value reliability }
{
    let mut value = [0; 12];
    put_u32(&mut value, 0, Endian::Little, reliability_kind(reliability));
    value
}

/// `LivelinessQosPolicy`: the kind, and the lease.
fn liveliness_value(liveliness: Liveliness) -> [u8; 12]
    ensures value { result ≡ policies.liveliness_value liveliness }
    ensures fits { IsDuration liveliness.lease_duration }
{
    let mut value = [0; 12];
    put_u32(
        &mut value,
        0,
        Endian::Little,
        liveliness_kind(liveliness.kind),
    );
    put_octets(&mut value, 4, &duration_value(liveliness.lease_duration));
    value
}

/// `PresentationQosPolicy`: the scope, and two truth values.
fn presentation_value(presentation: Presentation) -> [u8; 8]
    ensures { result ≡ policies.presentation_value presentation }
{
    let mut value = [0; 8];
    put_u32(
        &mut value,
        0,
        Endian::Little,
        scope_kind(presentation.access_scope),
    );
    value[4] = u8::from(presentation.coherent_access);
    value[5] = u8::from(presentation.ordered_access);
    value
}
