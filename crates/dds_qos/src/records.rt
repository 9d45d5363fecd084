//! The policies that a reader requests, and those that a writer offers.

ghost use Rattle.std.specs.Prelude.{◌≡◌, [], IfOk};
ghost use Rattle.dds_qos.specs.Defaults.{default_policies};
ghost use Rattle.dds_qos.specs.Offering.{Offers};
ghost use Rattle.dds_qos.specs.Seen.{names_seen};
ghost use Rattle.dds_qos.specs.Settings.{settings_of};
ghost use Rattle.dds_qos.specs.declared.policies.Reliability.TheVariants.{BestEffort, Reliable};

use crate::{
    AccessScope, DestinationOrder, Durability, INFINITE, Liveliness, LivelinessKind, Ownership,
    Partitions, Policies, Presentation, QosFault, Reliability, Settings,
};
use rtps_cdr::Strings;
use rtps_params::ParamList;
use rtps_types::Duration;
use std::alloc::{AllocError, Allocator, Global};

/// The policies and partitions that a reader requests (DDS 1.4, 2.2.3).
#[derive(Debug, Drop)]
pub struct Requested<A: Allocator = Global> {
    pub policies: Policies,
    pub partitions: Partitions<A>,
}

/// The policies and partitions that a writer offers (DDS 1.4, 2.2.3).
#[derive(Debug, Drop)]
pub struct Offered<A: Allocator = Global> {
    pub policies: Policies,
    pub partitions: Partitions<A>,
}

/// Returns the default policies with this reliability, whose default differs between readers and
/// writers.
pub(crate) fn defaults(reliability: Reliability) -> Policies
    ensures { result ≡ default_policies reliability }
{
    Policies {
        durability: Durability::Volatile,
        presentation: Presentation {
            access_scope: AccessScope::Instance,
            coherent_access: false,
            ordered_access: false,
        },
        deadline: INFINITE,
        latency_budget: Duration {
            seconds: 0,
            fraction: 0,
        },
        ownership: Ownership::Shared,
        liveliness: Liveliness {
            kind: LivelinessKind::Automatic,
            lease_duration: INFINITE,
        },
        reliability,
        destination_order: DestinationOrder::ByReceptionTimestamp,
    }
}

impl<A: Allocator> Requested<A> {
    /// Returns the defaults of a reader (DDS 1.4, 2.2.3), which is best-effort. No memory is taken.
    pub fn new(alloc: A) -> Requested<A>
        ensures policies { result.policies ≡ default_policies BestEffort }
        ensures partitions { result.partitions ≡ [] }
    {
        Requested {
            policies: defaults(Reliability::BestEffort),
            partitions: Partitions::new(Vec::new(alloc)),
        }
    }
}

impl<A: Allocator> Offered<A> {
    /// Returns the defaults of a writer (DDS 1.4, 2.2.3), which is reliable. No memory is taken.
    pub fn new(alloc: A) -> Offered<A>
        ensures policies { result.policies ≡ default_policies Reliable }
        ensures partitions { result.partitions ≡ [] }
    {
        Offered {
            policies: defaults(Reliability::Reliable),
            partitions: Partitions::new(Vec::new(alloc)),
        }
    }
}

/// Returns a copy of what the record of a writer offers (DDSI-RTPS 9.6.3). `Malformed` where a
/// parameter of the record is malformed, whether an offer uses it or not; `NoMemory` where memory
/// for the copy is refused.
pub fn offered_from<A: Allocator + Copy>(
    alloc: A,
    list: &ParamList<'_>,
) -> Result<Offered<A>, QosFault>
    ensures { Offers (settings_of list.now) result }
{
    let settings = Settings::read(list)?;
    let policies = settings.policies;
    let partitions = partitions_in(alloc, settings.partitions)?;
    Ok(Offered {
        policies,
        partitions,
    })
}

/// Returns a copy of the partitions that a record names; none if it names none. An error is a
/// refused growth.
pub fn partitions_in<A: Allocator + Copy>(
    alloc: A,
    names: Option<Strings<'_>>,
) -> Result<Partitions<A>, AllocError>
    ensures { IfOk result (λ partitions. partitions ≡ names_seen names.entry) }
{
    match names {
        Some(names) => copied(alloc, names),
        None => Ok(Partitions::new(Vec::new(alloc))),
    }
}

/// Returns a copy of the names of partitions.
fn copied<A: Allocator + Copy>(alloc: A, names: Strings<'_>) -> Result<Partitions<A>, AllocError>
    ensures { IfOk result (λ partitions. partitions ≡ names.entry) }
{
    let mut copies = Vec::new(alloc);
    for name in names {
        copies.push(String::from_str(alloc, name)?)?;
    }
    Ok(Partitions::new(copies))
}
