//! What an application wants to read, and the policies that it requests of writers.

ghost use Rattle.std.specs.Prelude.{◌≡◌, [], IfOk, map};
ghost use Rattle.std.specs.String.{string_bytes};
ghost use Rattle.dds_cache.specs.Cache.{IsHistory};
ghost use Rattle.dds_cache.specs.Standing.{StandsAt};
ghost use Rattle.dds_cache.specs.declared.history.History.TheVariants.{KeepLast};
ghost use Rattle.rtps_discovery.specs.Asking.{first_wish, reliably};
ghost use Rattle.rtps_discovery.specs.Start.{wish_of};
ghost use Rattle.thrushpodium.specs.Subscribing.{in_partitions, requesting};

use dds_cache::{DataReader, History};
use dds_qos::{Durability, Partitions, Policies};
use rtps_discovery::ReaderConfig;
use rtps_types::{Duration, EntityId};
use std::alloc::{AllocError, Global};

/// A reader that an application wants: its topic, the policies that it requests of writers, and how
/// many samples of each instance are kept for it.
///
/// ```
/// let squares = Subscription::topic(alloc, EntityId([0, 0, 1, 7]), "Square", "ShapeType")?
///     .reliable()
///     .durability(Durability::TransientLocal)
///     .deadline(deadline)
///     .history(History::KeepAll)
///     .partitions(alloc, &["north", ""])?;
/// let mut cache = squares.cache(alloc);
/// config.add_reader(squares.reader)?;
/// ```
#[derive(Drop)]
pub struct Subscription {
    /// The configuration of the reader, for [`Config::add_reader`](crate::Config) or for
    /// [`Participant::add_reader`](crate::Participant).
    pub reader: ReaderConfig,
    /// The samples that are kept of each instance until they are taken (DDS 1.4, 2.2.3.18).
    pub history: History,
}

impl Subscription {
    /// Returns a reader of a topic and a type, with the default policies (DDS 1.4, 2.2.3): it
    /// matches best-effort writers too, whatever their durability and deadline, in the partition
    /// with the empty name, and the last sample of each instance is kept.
    ///
    /// The last octet of the entity is 07, or 04 for a topic without key (DDSI-RTPS 9.3.1.2); no
    /// two readers of a participant have the same. `AllocError` where memory for the names is
    /// refused.
    pub fn topic(
        alloc: Global,
        entity: EntityId,
        topic: &str,
        type_name: &str,
    ) -> Result<Subscription, AllocError>
        ensures reader { IfOk result (λ s. wish_of s.reader
            ≡ first_wish entity topic.now type_name.now) }
        ensures history { IfOk result (λ s. s.history ≡ KeepLast 1) }
    {
        Ok(Subscription {
            reader: ReaderConfig::new(alloc, entity, topic, type_name)?,
            history: History::KeepLast(1),
        })
    }

    /// Requests reliable writers, whose lost changes are sent again (DDS 1.4, 2.2.3.14). Without
    /// it what is lost stays lost.
    pub fn reliable(self) -> Subscription
        ensures reader { wish_of result.reader ≡ reliably (wish_of self.reader) }
        ensures history { result.history ≡ self.history }
    {
        let Subscription { reader, history } = self;
        Subscription {
            reader: reader.reliable(),
            history,
        }
    }

    /// Requests writers whose changes stay available for as long as this, or longer (DDS 1.4,
    /// 2.2.3.4). Without it `Volatile`: nothing from before the match is requested.
    pub fn durability(self, durability: Durability) -> Subscription
        ensures reader { wish_of result.reader ≡ requesting
            (record (wish_of self.reader).policies { durability = durability })
            (wish_of self.reader) }
        ensures history { result.history ≡ self.history }
    {
        let policies = Policies {
            durability,
            ..self.reader.requested.policies
        };
        self.policies(policies)
    }

    /// Requests writers that promise a change of each instance within this time (DDS 1.4, 2.2.3.7).
    /// Without it the time is infinite.
    pub fn deadline(self, deadline: Duration) -> Subscription
        ensures reader { wish_of result.reader ≡ requesting
            (record (wish_of self.reader).policies { deadline = deadline })
            (wish_of self.reader) }
        ensures history { result.history ≡ self.history }
    {
        let policies = Policies {
            deadline,
            ..self.reader.requested.policies
        };
        self.policies(policies)
    }

    /// Requests all of these policies, in the place of those so far.
    pub fn policies(mut self, policies: Policies) -> Subscription
        ensures reader { wish_of result.reader ≡ requesting policies (wish_of self.reader) }
        ensures history { result.history ≡ self.history }
    {
        self.reader.requested.policies = policies;
        self
    }

    /// Joins the partitions with these names, in the place of those so far (DDS 1.4, 2.2.3.13).
    /// Without it, and for no names, the reader is in the partition with the empty name.
    /// `AllocError` where memory for the names is refused; then the subscription is dropped.
    pub fn partitions(mut self, alloc: Global, names: &[&str]) -> Result<Subscription, AllocError>
        ensures reader { IfOk result (λ s. wish_of s.reader
            ≡ in_partitions (map (λ n. n.now) names.now) (wish_of self.reader)) }
        ensures history { IfOk result (λ s. s.history ≡ self.history) }
    {
        self.reader.requested.partitions = Partitions::new(copied(alloc, names)?);
        Ok(self)
    }

    /// Keeps these samples of each instance until they are taken (DDS 1.4, 2.2.3.18): all, or the
    /// last 1 to 65,536. Without it the last one.
    pub fn history(mut self, history: History) -> Subscription
        ensures reader { wish_of result.reader ≡ wish_of self.reader }
        ensures history { result.history ≡ history }
    {
        self.history = history;
        self
    }

    /// Returns an empty cache with this history, for the notices of the reader. No memory is taken.
    pub fn cache<V: Drop>(&self, alloc: Global) -> DataReader<V>
        requires { IsHistory self.now.history }
        ensures stands { StandsAt [] result }
        ensures keep { result.keep ≡ self.now.history }
    {
        DataReader::new(alloc, self.history)
    }
}

/// Returns copies of these texts.
fn copied(alloc: Global, texts: &[&str]) -> Result<Vec<String>, AllocError>
    ensures { IfOk result (λ copies. map string_bytes copies.items ≡ map (λ t. t.now) texts.now) }
{
    let mut copies = Vec::new(alloc);
    for text in texts {
        copies.push(String::from_str(alloc, text)?)?;
    }
    Ok(copies)
}
