//! Identities of participants, endpoints and instances. They don't depend on the byte order, and
//! are ordered as their octets, the first one first.

ghost use Rattle.std.proofs.Common.{rules};
ghost use Rattle.std.specs.Cmp.{partial_order_from_own_ties};
ghost use Rattle.std.specs.Cmp.Rules.{comparing};
ghost use Rattle.std.specs.Ordering.{as_partial_cmp, on};
ghost use Rattle.rtps_types.specs.Order.{guid_order, octet_order};

use crate::order::{order_of_four, order_of_sixteen, order_of_twelve};
use std::cmp::Ordering;

/// The prefix of a [`Guid`], which is its participant's (DDSI-RTPS 8.2.4.2, 9.3.1.1).
#[derive(Clone, Copy, PartialEq, Eq, Hash)]
pub struct GuidPrefix(pub [u8; 12]);

impl PartialOrd for GuidPrefix {
    ghost partial_cmp = { as_partial_cmp (on (λ p. p.0) octet_order) };

    ghost laws = { partial_order_from_own_ties (Prim.search (comparing, rules))
        (Prim.search (comparing, rules)) };

    fn partial_cmp(&self, other: &GuidPrefix) -> Option<Ordering> {
        Some(self.cmp(other))
    }
}

impl Ord for GuidPrefix {
    ghost cmp = { on (λ p. p.0) octet_order };

    ghost total = { Prim.search (comparing, rules) };

    ghost matches_partial_cmp = { Prim.search (comparing, rules) };

    ghost matches_eq = { Prim.search (comparing, rules) };

    fn cmp(&self, other: &GuidPrefix) -> Ordering {
        order_of_twelve(&self.0, &other.0)
    }
}

/// An endpoint within its participant: three octets of key, then one of kind (DDSI-RTPS 9.3.1.2).
#[derive(Clone, Copy, PartialEq, Eq, Hash)]
pub struct EntityId(pub [u8; 4]);

impl PartialOrd for EntityId {
    ghost partial_cmp = { as_partial_cmp (on (λ e. e.0) octet_order) };

    ghost laws = { partial_order_from_own_ties (Prim.search (comparing, rules))
        (Prim.search (comparing, rules)) };

    fn partial_cmp(&self, other: &EntityId) -> Option<Ordering> {
        Some(self.cmp(other))
    }
}

impl Ord for EntityId {
    ghost cmp = { on (λ e. e.0) octet_order };

    ghost total = { Prim.search (comparing, rules) };

    ghost matches_partial_cmp = { Prim.search (comparing, rules) };

    ghost matches_eq = { Prim.search (comparing, rules) };

    fn cmp(&self, other: &EntityId) -> Ordering {
        order_of_four(&self.0, &other.0)
    }
}

/// An endpoint in the whole domain (DDSI-RTPS 8.2.4.1, 9.3.1).
#[derive(Clone, Copy, PartialEq, Eq, Hash)]
pub struct Guid {
    pub prefix: GuidPrefix,
    pub entity: EntityId,
}

impl PartialOrd for Guid {
    ghost partial_cmp = { as_partial_cmp guid_order };

    ghost laws = { partial_order_from_own_ties (Prim.search (comparing, rules))
        (Prim.search (comparing, rules)) };

    fn partial_cmp(&self, other: &Guid) -> Option<Ordering> {
        Some(self.cmp(other))
    }
}

impl Ord for Guid {
    ghost cmp = { guid_order };

    ghost total = { Prim.search (comparing, rules) };

    ghost matches_partial_cmp = { Prim.search (comparing, rules) };

    ghost matches_eq = { Prim.search (comparing, rules) };

    fn cmp(&self, other: &Guid) -> Ordering {
        order_of_sixteen(
            &self.prefix.0,
            &self.entity.0,
            &other.prefix.0,
            &other.entity.0,
        )
    }
}

/// The hash that names an instance of a topic (DDSI-RTPS 9.6.4.8).
#[derive(Clone, Copy, PartialEq, Eq, PartialOrd, Ord, Hash)]
pub struct KeyHash(pub [u8; 16]);
