//! Tests of offered against requested policies (DDS 1.4, 2.2.3).

use crate::*;
use rtps_types::Duration;
use std::alloc::Allocator;
use std::test::Fail;

const SECOND: Duration = Duration {
    seconds: 1,
    fraction: 0,
};

/// One second and the least fraction.
const MORE: Duration = Duration {
    seconds: 1,
    fraction: 1,
};

/// A presentation in the middle of its range.
const PRESENTATION: Presentation = Presentation {
    access_scope: AccessScope::Topic,
    coherent_access: true,
    ordered_access: true,
};

/// A liveliness in the middle of its range.
const LIVELINESS: Liveliness = Liveliness {
    kind: LivelinessKind::ManualByParticipant,
    lease_duration: SECOND,
};

/// Policies in the middle of their ranges.
const MIDDLE: Policies = Policies {
    durability: Durability::Transient,
    presentation: PRESENTATION,
    deadline: SECOND,
    latency_budget: SECOND,
    ownership: Ownership::Shared,
    liveliness: LIVELINESS,
    reliability: Reliability::Reliable,
    destination_order: DestinationOrder::BySourceTimestamp,
};

/// Offers that are incompatible with `MIDDLE`, and the policy id that is reported.
const LESS: [(Policies, u32); 12] = [
    (
        Policies {
            durability: Durability::TransientLocal,
            ..MIDDLE
        },
        2,
    ),
    (
        Policies {
            presentation: Presentation {
                access_scope: AccessScope::Instance,
                ..PRESENTATION
            },
            ..MIDDLE
        },
        3,
    ),
    (
        Policies {
            presentation: Presentation {
                coherent_access: false,
                ..PRESENTATION
            },
            ..MIDDLE
        },
        3,
    ),
    (
        Policies {
            presentation: Presentation {
                ordered_access: false,
                ..PRESENTATION
            },
            ..MIDDLE
        },
        3,
    ),
    (
        Policies {
            deadline: MORE,
            ..MIDDLE
        },
        4,
    ),
    (
        Policies {
            latency_budget: INFINITE,
            ..MIDDLE
        },
        5,
    ),
    (
        Policies {
            ownership: Ownership::Exclusive,
            ..MIDDLE
        },
        6,
    ),
    (
        Policies {
            liveliness: Liveliness {
                kind: LivelinessKind::Automatic,
                ..LIVELINESS
            },
            ..MIDDLE
        },
        8,
    ),
    (
        Policies {
            liveliness: Liveliness {
                lease_duration: MORE,
                ..LIVELINESS
            },
            ..MIDDLE
        },
        8,
    ),
    (
        Policies {
            reliability: Reliability::BestEffort,
            ..MIDDLE
        },
        11,
    ),
    (
        Policies {
            destination_order: DestinationOrder::ByReceptionTimestamp,
            ..MIDDLE
        },
        12,
    ),
    // Two incompatible policies: the lesser id is reported.
    (
        Policies {
            reliability: Reliability::BestEffort,
            deadline: MORE,
            ..MIDDLE
        },
        4,
    ),
];

/// Returns the id of the incompatible policy when these policies are offered and `MIDDLE` is
/// requested.
fn fault_of<A: Allocator + Copy>(alloc: A, policies: Policies) -> Option<u32> {
    let offered = Offered {
        policies,
        partitions: Partitions::new(Vec::<String<A>, A>::new(alloc)),
    };
    let requested = Requested {
        policies: MIDDLE,
        partitions: Partitions::new(Vec::<String<A>, A>::new(alloc)),
    };
    let policy = first_fault(&offered, &requested)?;
    Some(policy.id())
}

#[test]
fn each_policy_that_is_not_met(rt: HostRuntime) {
    for &(policies, id) in &LESS {
        assert_eq!(rt; fault_of(rt.alloc(), policies), Some(id));
    }
}

#[test]
fn as_much_and_more_is_met(rt: HostRuntime) {
    assert_eq!(rt; fault_of(rt.alloc(), MIDDLE), None);
    let more = Policies {
        durability: Durability::Persistent,
        presentation: Presentation {
            access_scope: AccessScope::Group,
            ..PRESENTATION
        },
        deadline: Duration {
            seconds: 0,
            fraction: 0xffff_ffff,
        },
        latency_budget: Duration {
            seconds: -1,
            fraction: 0,
        },
        liveliness: Liveliness {
            kind: LivelinessKind::ManualByTopic,
            lease_duration: Duration {
                seconds: 0,
                fraction: 0,
            },
        },
        ..MIDDLE
    };
    assert_eq!(rt; fault_of(rt.alloc(), more), None);
}

/// Returns partitions of one name, or of no name.
fn partitions<A: Allocator + Copy>(alloc: A, name: Option<&str>) -> Result<Partitions<A>, Fail> {
    let mut names = Vec::new(alloc);
    if let Some(name) = name {
        names.push(String::from_str(alloc, name)?)?;
    }
    Ok(Partitions::new(names))
}

/// Whether partitions of these names have one in common.
fn are_shared<A: Allocator + Copy>(
    alloc: A,
    offered: Option<&str>,
    requested: Option<&str>,
) -> Result<bool, Fail> {
    let offered = Offered {
        policies: MIDDLE,
        partitions: partitions(alloc, offered)?,
    };
    let requested = Requested {
        policies: MIDDLE,
        partitions: partitions(alloc, requested)?,
    };
    Ok(share_partition(&offered, &requested))
}

/// An offered and a requested partition name, and whether they have a partition in common.
const PARTITIONS: [(Option<&str>, Option<&str>, bool); 8] = [
    (None, None, true),
    (None, Some(""), true),
    (Some(""), None, true),
    (None, Some("a"), false),
    (Some("a"), None, false),
    (Some("a"), Some("a"), true),
    // A wildcard is compared as a plain name; case matters.
    (Some("*"), Some("a"), false),
    (Some("A"), Some("a"), false),
];

#[test]
fn partitions_in_common(rt: HostRuntime) -> Result<(), Fail> {
    for &(offered, requested, expected) in &PARTITIONS {
        assert_eq!(rt; are_shared(rt.alloc(), offered, requested)?, expected);
    }
    Ok(())
}
