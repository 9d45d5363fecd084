//! The configuration of discovery: the application's readers, and the fixed matches.

ghost use Rattle.std.specs.Prelude.{◌≡◌, ◌∷◌, ◌++◌, [], IfOk, OnErr, OnOk};

use dds_qos::{Reliability, Requested};
use rtps_types::{EntityId, Guid, GuidPrefix, Locators};
use std::alloc::{AllocError, Global};

/// A reader. Its rank is its index among the readers of its configuration, from 0 on.
#[derive(Debug, Drop)]
pub struct ReaderConfig {
    /// Its entity id. The last octet is 07, or 04 for a topic without key (DDSI-RTPS 9.3.1.2).
    pub entity: EntityId,
    pub topic: String,
    pub type_name: String,
    /// The policies and partitions that it requests of writers.
    pub requested: Requested,
}

impl ReaderConfig {
    ghost use Rattle.rtps_discovery.specs.Start.{wish_of};
    ghost use Rattle.rtps_discovery.specs.Asking.{first_wish, reliably};

    /// Returns a reader of a topic and a type, with copies of their names. It requests the default
    /// policies (DDS 1.4, 2.2.3), so it is best-effort and in no partition. `AllocError` where
    /// memory for the names is refused.
    pub fn new(
        alloc: Global,
        entity: EntityId,
        topic: &str,
        type_name: &str,
    ) -> Result<ReaderConfig, AllocError>
        ensures { IfOk result (λ r. wish_of r ≡ first_wish entity topic.now type_name.now) }
    {
        Ok(ReaderConfig {
            entity,
            topic: String::from_str(alloc, topic)?,
            type_name: String::from_str(alloc, type_name)?,
            requested: Requested::new(alloc),
        })
    }

    /// Returns this reader, changed to request reliable writers (DDS 1.4, 2.2.3.14).
    pub fn reliable(mut self) -> ReaderConfig
        ensures { wish_of result ≡ reliably (wish_of self) }
    {
        self.requested.policies.reliability = Reliability::Reliable;
        self
    }
}

/// A fixed match: it exists from the start, and no announcement begins or ends it.
#[derive(Debug, Drop)]
pub struct FixedMatch {
    /// The rank of the reader.
    pub rank: u32,
    pub writer: Guid,
    /// The locators that answers to the writer are sent to.
    pub locators: Locators,
}

/// The configuration of our own participant.
#[derive(Debug, Drop)]
pub struct Config {
    /// The prefix of our own participant (DDSI-RTPS 9.3.1.1), with which the guids of its readers
    /// begin. Submessages that are sent to another participant are passed over.
    pub own: GuidPrefix,
    /// The readers, by their ranks. [`check`](crate::check) takes 1 to 256 of them.
    pub readers: Vec<ReaderConfig>,
    /// The fixed matches, in any order.
    pub fixed: Vec<FixedMatch>,
}

impl Config {
    /// Returns a configuration without readers, which [`check`](crate::check) refuses. No memory
    /// is taken.
    pub fn new(alloc: Global, own: GuidPrefix) -> Config
        ensures own { result.own ≡ own }
        ensures readers { result.readers.items ≡ [] }
        ensures fixed { result.fixed.items ≡ [] }
    {
        Config {
            own,
            readers: Vec::new(alloc),
            fixed: Vec::new(alloc),
        }
    }

    /// Appends a reader. Its rank is the number of readers before it. `AllocError` where memory is
    /// refused; then the reader is dropped and the configuration is unchanged.
    pub fn add_reader(&mut self, reader: ReaderConfig) -> Result<(), AllocError>
        ensures added { OnOk result (self.new.readers.items
            ≡ self.old.readers.items ++ reader ∷ []) }
        ensures refused { OnErr result (self.new.readers.items ≡ self.old.readers.items) }
        ensures others { (self.new.own ≡ self.old.own) × (self.new.fixed ≡ self.old.fixed) }
    {
        match self.readers.push(reader) {
            Ok(()) => Ok(()),
            Err(_) => Err(AllocError),
        }
    }

    /// Appends a fixed match of the reader of this rank with a writer; answers to the writer are
    /// sent to `locators`. `AllocError` where memory is refused; then the locators are dropped and
    /// the configuration is unchanged.
    pub fn add_fixed(
        &mut self,
        rank: u32,
        writer: Guid,
        locators: Locators,
    ) -> Result<(), AllocError>
        ensures added { OnOk result (self.new.fixed.items ≡ self.old.fixed.items
            ++ (record { rank = rank; writer = writer; locators = locators }) ∷ []) }
        ensures refused { OnErr result (self.new.fixed.items ≡ self.old.fixed.items) }
        ensures others { (self.new.own ≡ self.old.own) × (self.new.readers ≡ self.old.readers) }
    {
        let pair = FixedMatch {
            rank,
            writer,
            locators,
        };
        match self.fixed.push(pair) {
            Ok(()) => Ok(()),
            Err(_) => Err(AllocError),
        }
    }
}
