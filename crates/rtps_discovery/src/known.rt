//! Our readers, and the participants and writers that were announced (DDSI-RTPS 8.5).

ghost use Rattle.std.specs.Prelude.{◌≡◌, ◌++◌, ◌∷◌, [], IfOk, IfErr, OnOk, false};
ghost use Rattle.rtps_discovery.specs.Moving.{without_rank};
ghost use Rattle.rtps_discovery.specs.OneWriter.{has_rank};
ghost use Rattle.rtps_discovery.specs.Seen.{offer_seen};

use crate::announcement::Offer;
use dds_qos::{ListedLocators, Offered, Requested, partitions_in};
use rtps_types::{Duration, EntityId, Locator, Locators};
use std::alloc::{AllocError, Allocator, Global};
use std::marker::Model;

/// A reader of ours, and what it requests.
#[derive(Drop)]
pub struct Reader<A: Allocator = Global> {
    pub(crate) entity: EntityId,
    pub(crate) topic: String<A>,
    pub(crate) type_name: String<A>,
    pub(crate) requested: Requested<A>,
}

impl<A: Allocator> Model for Reader<A> {
    ghost use Rattle.std.specs.String.{string_bytes};
    ghost use Rattle.rtps_discovery.specs.Known.{Wish};

    ghost Value = { Wish };

    ghost view = { λ r. record {
      entity = r.entity;
      topic = string_bytes r.topic;
      type_name = string_bytes r.type_name;
      policies = r.requested.policies;
      partitions = r.requested.partitions;
    } };
}

impl<A: Allocator> Reader<A> {
    /// Its entity id, by which events name it.
    pub fn entity(&self) -> EntityId
        ensures { result ≡ self.now.entity }
    {
        self.entity
    }

    /// The name of the topic that it reads.
    pub fn topic(&self) -> &str
        ensures { result.now ≡ self.now.topic }
    {
        self.topic.as_str()
    }

    /// The name of the topic's type.
    pub fn type_name(&self) -> &str
        ensures { result.now ≡ self.now.type_name }
    {
        self.type_name.as_str()
    }

    /// The policies and the partitions that it asks for.
    pub fn requested(&self) -> &Requested<A>
        ensures policies { result.now.policies ≡ self.now.policies }
        ensures partitions { result.now.partitions ≡ self.now.partitions }
    {
        &self.requested
    }
}

/// What a writer announced.
#[derive(Drop)]
struct Offering<A: Allocator> {
    topic: String<A>,
    type_name: String<A>,
    offered: Offered<A>,
    /// Its own locators, if it announced any.
    locators: Locators<A>,
}

/// A writer that was announced, and what it offers.
#[derive(Drop)]
pub struct Writer<A: Allocator = Global> {
    /// Boxed, so that little is moved when a writer is inserted or removed among others.
    offering: Box<Offering<A>, A>,
}

impl<A: Allocator> Model for Writer<A> {
    ghost use Rattle.std.specs.String.{string_bytes};
    ghost use Rattle.rtps_discovery.specs.Announcement.{Offer};

    ghost Value = { Offer };

    ghost view = { λ w. record {
      topic = string_bytes w.offering.value.topic;
      type_name = string_bytes w.offering.value.type_name;
      policies = w.offering.value.offered.policies;
      partitions = w.offering.value.offered.partitions;
      locators = w.offering.value.locators;
    } };
}

impl<A: Allocator> Writer<A> {
    /// The name of the topic that it writes.
    pub fn topic(&self) -> &str
        ensures { result.now ≡ self.now.topic }
    {
        self.offering.as_ref().topic.as_str()
    }

    /// The name of the topic's type.
    pub fn type_name(&self) -> &str
        ensures { result.now ≡ self.now.type_name }
    {
        self.offering.as_ref().type_name.as_str()
    }

    /// The policies and the partitions that it offers.
    pub fn offered(&self) -> &Offered<A>
        ensures policies { result.now.policies ≡ self.now.policies }
        ensures partitions { result.now.partitions ≡ self.now.partitions }
    {
        &self.offering.as_ref().offered
    }

    /// The locators that it announced. If there are none, the default locators of its participant
    /// are used.
    pub fn locators(&self) -> &[Locator]
        ensures { result.now ≡ self.now.locators }
    {
        self.offering.as_ref().locators.as_slice()
    }
}

/// A participant that was announced.
#[derive(Drop)]
pub struct RemoteParticipant<A: Allocator = Global> {
    /// The default locators: those of its endpoints that announce no locators of their own.
    pub(crate) locators: Locators<A>,
    /// The lease: how long it may keep silent.
    pub(crate) lease: Duration,
    /// The moment at which it last announced itself, in milliseconds.
    pub(crate) heard: u64,
}

impl<A: Allocator> Model for RemoteParticipant<A> {
    ghost use Rattle.rtps_discovery.specs.Known.{RemoteParticipant};

    ghost Value = { RemoteParticipant };

    ghost view = { λ p. record { locators = p.locators; lease = p.lease; heard = p.heard } };
}

impl<A: Allocator> RemoteParticipant<A> {
    /// The default locators: those of its endpoints that announce no locators of their own.
    pub fn locators(&self) -> &[Locator]
        ensures { result.now ≡ self.now.locators }
    {
        self.locators.as_slice()
    }

    /// The lease: how long it may keep silent (DDSI-RTPS 8.5.3.2).
    /// [`Discovery::expire`](crate::Discovery::expire) removes it at the first moment that is more
    /// than this, in milliseconds rounded up, after the one at which it was
    /// [`heard`](RemoteParticipant::heard).
    pub fn lease(&self) -> Duration
        ensures { result ≡ self.now.lease }
    {
        self.lease
    }

    /// The moment at which it last announced itself (DDSI-RTPS 8.5.3.2), in milliseconds: that of
    /// the datagram which brought the announcement, or an earlier one of the run if that was
    /// greater. The announcements of its endpoints don't count, nor does one that was ignored.
    pub fn heard(&self) -> u64
        ensures { result ≡ self.now.heard }
    {
        self.heard
    }
}

/// Ranks of readers, rising.
#[derive(Drop)]
pub(crate) struct Ranks<A: Allocator> {
    items: Vec<u32, A>,
}

impl<A: Allocator> Model for Ranks<A> {
    ghost use Rattle.std.specs.Prelude.{List, ℕ};

    ghost Value = { List ℕ };

    ghost view = { λ r. r.items.items };
}

impl<A: Allocator> Ranks<A> {
    /// Makes ranks of this list, which is rising.
    pub fn new(items: Vec<u32, A>) -> Ranks<A>
        ensures { result ≡ items.items }
    {
        Ranks { items }
    }

    /// Returns a copy of ranks.
    pub fn copied(alloc: A, ranks: &[u32]) -> Result<Ranks<A>, AllocError>
        ensures { IfOk result (λ copy. copy ≡ ranks.now) }
    {
        Ok(Ranks::new(Vec::from_slice(alloc, ranks)?))
    }

    /// Returns a copy of ranks with one more appended.
    pub fn with(alloc: A, ranks: &[u32], rank: u32) -> Result<Ranks<A>, AllocError>
        ensures { IfOk result (λ copy. copy ≡ ranks.now ++ rank ∷ []) }
    {
        let mut items = Vec::from_slice(alloc, ranks)?;
        items.push(rank)?;
        Ok(Ranks::new(items))
    }

    /// Appends a rank, which is above the others.
    pub fn add(&mut self, rank: u32) -> Result<(), AllocError>
        ensures { OnOk result (self.new ≡ self.old ++ rank ∷ []) }
    {
        self.items.push(rank)?;
        Ok(())
    }

    /// Removes a rank, if it is among them. Returns whether others are left.
    pub fn forget(&mut self, rank: u32) -> bool
        ensures left { self.new ≡ without_rank rank self.old }
        ensures none { result ≡ false → self.new ≡ [] }
    {
        self.items.retain(|one| *one != rank);
        !self.items.is_empty()
    }

    /// The ranks, rising.
    pub fn as_slice(&self) -> &[u32]
        ensures { result.now ≡ self.now }
    {
        self.items.as_slice()
    }

    /// Whether a rank is among them.
    pub fn has(&self, rank: u32) -> bool
        ensures { result ≡ has_rank self.now rank }
    {
        self.items.contains(&rank)
    }
}

/// Returns the locators of a record, given the first two and an iterator over the rest.
fn gathered<A: Allocator + Copy>(
    alloc: A,
    first: Locator,
    second: Locator,
    listed: ListedLocators<'_>,
) -> Result<Locators<A>, AllocError>
    ensures { IfOk result (λ locators. locators ≡ first ∷ second ∷ listed.entry) }
{
    let mut locators = Vec::new(alloc);
    locators.push(first)?;
    locators.push(second)?;
    for locator in listed {
        locators.push(locator)?;
    }
    Ok(Locators::new(locators))
}

/// Returns a copy of the locators that a record lists. No memory is taken for none or one.
pub(crate) fn collected<A: Allocator + Copy>(
    alloc: A,
    mut listed: ListedLocators<'_>,
) -> Result<Locators<A>, AllocError>
    ensures { IfOk result (λ locators. locators ≡ listed.entry) }
{
    let Some(first) = listed.next() else {
        return Ok(Locators::new(Vec::new(alloc)));
    };
    match listed.next() {
        None => Ok(Locators::one(alloc, first)),
        Some(second) => gathered(alloc, first, second, listed),
    }
}

impl<A: Allocator + Copy> Writer<A> {
    /// Returns a copy of what the record of a writer offers.
    pub(crate) fn of_offer(alloc: A, offer: Offer<'_>) -> Result<Writer<A>, AllocError>
        ensures { IfOk result (λ writer. writer ≡ offer_seen offer.entry) }
    {
        let policies = offer.policies;
        let topic = String::from_str(alloc, offer.topic)?;
        let type_name = String::from_str(alloc, offer.type_name)?;
        let partitions = partitions_in(alloc, offer.partitions)?;
        let locators = collected(alloc, offer.locators)?;
        let offering = Offering {
            topic,
            type_name,
            offered: Offered {
                policies,
                partitions,
            },
            locators,
        };
        match Box::new(alloc, offering) {
            Ok(offering) => Ok(Writer { offering }),
            Err(_) => Err(AllocError),
        }
    }
}
