//! Laws about the values. The orders here are those of `Ord`, so they hold for every sort, map and
//! set.

ghost use Rattle.std.specs.Prelude.{◌≡◌};
ghost use Rattle.rtps_types.specs.Duration.{duration_order};
ghost use Rattle.rtps_types.specs.Named.{NamesItsMembers};
ghost use Rattle.rtps_types.specs.NumberText.{ShownNumbersAreRead, ShownPlacesAreRead};
ghost use Rattle.rtps_types.specs.Order.{octet_order, guid_octets};
ghost use Rattle.rtps_types.specs.Place.{place_order};
ghost use Rattle.rtps_types.specs.Text.{ShownIdentitiesAreRead};
ghost use Rattle.rtps_types.specs.TimeText.{ShownMomentsAreRead};

use crate::{Duration, EntityId, Guid, GuidPrefix, KeyHash, Place};
use std::cmp::Ordering;

/// Participants are ordered as their octets, the first one first.
pub fn order_of_prefixes(left: &GuidPrefix, right: &GuidPrefix) -> Ordering
    ensures derived { ⟦<GuidPrefix as Ord>⟧.cmp left.now right.now
        ≡ octet_order left.now.0 right.now.0 }
    ensures value { result ≡ octet_order left.now.0 right.now.0 }
{
    left.cmp(right)
}

/// Entities are ordered as their octets, the first one first.
pub fn order_of_entities(left: &EntityId, right: &EntityId) -> Ordering
    ensures derived { ⟦<EntityId as Ord>⟧.cmp left.now right.now
        ≡ octet_order left.now.0 right.now.0 }
    ensures value { result ≡ octet_order left.now.0 right.now.0 }
{
    left.cmp(right)
}

/// Key hashes are ordered as their octets, the first one first.
pub fn order_of_hashes(left: &KeyHash, right: &KeyHash) -> Ordering
    ensures derived { ⟦<KeyHash as Ord>⟧.cmp left.now right.now
        ≡ octet_order left.now.0 right.now.0 }
    ensures value { result ≡ octet_order left.now.0 right.now.0 }
{
    left.cmp(right)
}

/// Endpoints are ordered as their sixteen octets: the participant's prefix, then the entity id.
#[tactic(auto, using(crate::proofs::Orders::octet_order_append))]
pub fn order_of_guids(left: &Guid, right: &Guid) -> Ordering
    ensures derived { ⟦<Guid as Ord>⟧.cmp left.now right.now
        ≡ octet_order (guid_octets left.now) (guid_octets right.now) }
    ensures value { result ≡ octet_order (guid_octets left.now) (guid_octets right.now) }
{
    left.cmp(right)
}

/// Places are ordered by datagram, and in one datagram by submessage.
pub fn order_of_places(left: &Place, right: &Place) -> Ordering
    ensures derived { ⟦<Place as Ord>⟧.cmp left.now right.now ≡ place_order left.now right.now }
    ensures value { result ≡ place_order left.now right.now }
{
    left.cmp(right)
}

/// Durations are ordered by seconds, and then by fraction.
pub fn order_of_durations(left: &Duration, right: &Duration) -> Ordering
    ensures derived { ⟦<Duration as Ord>⟧.cmp left.now right.now
        ≡ duration_order left.now right.now }
    ensures value { result ≡ duration_order left.now right.now }
{
    left.cmp(right)
}

/// A set that is made from numbers has exactly these members, if they are among the 256 numbers
/// that begin at its base.
#[tactic(auto, using(crate::proofs::Naming::members_are))]
pub fn a_set_names_its_members()
    ensures { NamesItsMembers }
{}

/// The text of an identity is parsed as the same identity.
#[tactic(auto, using(crate::proofs::Texts::identities_shown))]
pub fn identities_are_read_again()
    ensures { ShownIdentitiesAreRead }
{}

/// The text of a sequence number is parsed as the same number.
#[tactic(auto, using(crate::proofs::Decimals::number_shown))]
pub fn numbers_are_read_again()
    ensures { ShownNumbersAreRead }
{}

/// The text of a place is parsed as the same place.
#[tactic(auto, using(crate::proofs::Decimals::place_shown))]
pub fn places_are_read_again()
    ensures { ShownPlacesAreRead }
{}

/// The text of a timestamp is parsed as the same timestamp.
#[tactic(auto, using(crate::proofs::Moments::moment_shown))]
pub fn moments_are_read_again()
    ensures { ShownMomentsAreRead }
{}
