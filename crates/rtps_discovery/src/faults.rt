//! Checking a configuration.

ghost use Rattle.std.specs.Prelude.{◌≡◌, ◌≤◌, OnOk, length};
ghost use Rattle.std.specs.List.{list_any};
ghost use Rattle.rtps_discovery.specs.Config.{check_of, has_twice, is_bad_fixed, is_bad_reader, is_reader, is_same_entity, is_same_pair, is_writer};

use crate::{Config, FixedMatch, ReaderConfig};
use dds_qos::Ownership;
use rtps_types::{EntityId, GuidPrefix};
use thiserror::Error;

/// Why a configuration is refused: the first fault in this order (DDSI-RTPS 9.3.1.2 for kinds of
/// entities).
#[derive(Clone, Copy, Debug, PartialEq, Eq, Error)]
pub enum ConfigFault {
    /// There is no reader, or there are more than 256.
    #[error("there is no reader, or there are more than 256")]
    Readers,
    /// A reader whose kind, the last octet of its entity, is neither 04 nor 07 (DDSI-RTPS 9.3.1.2),
    /// an entity that two readers have, or a reader that doesn't share ownership.
    #[error("a reader isn't taken")]
    BadReader,
    /// A fixed match with a rank that no reader has, with a writer whose kind is neither 02 nor 03
    /// or whose participant is our own, or with the rank and the writer of another one.
    #[error("a fixed match isn't taken")]
    BadFixed,
}

impl ConfigFault {
    ghost use Rattle.rtps_discovery.specs.FaultNames.{name_of};

    /// The name of the fault, for messages. No memory is taken.
    pub fn name(self) -> &'static str
        ensures { result.now ≡ name_of self }
    {
        match self {
            ConfigFault::Readers => "Readers",
            ConfigFault::BadReader => "BadReader",
            ConfigFault::BadFixed => "BadFixed",
        }
    }
}

/// The greatest number of readers in a configuration.
pub(crate) const READER_LIMIT: usize = 256;

pub(crate) fn is_reader(entity: EntityId) -> bool
    ensures { result ≡ is_reader entity }
{
    entity.0[3] == 0x04 || entity.0[3] == 0x07
}

pub(crate) fn is_writer(entity: EntityId) -> bool
    ensures { result ≡ is_writer entity }
{
    entity.0[3] == 0x02 || entity.0[3] == 0x03
}

pub(crate) fn is_bad_reader(reader: &ReaderConfig) -> bool
    ensures { result ≡ is_bad_reader reader.now }
{
    !is_reader(reader.entity) || matches!(reader.requested.policies.ownership, Ownership::Exclusive)
}

fn is_same_entity(one: &ReaderConfig, other: &ReaderConfig) -> bool
    ensures { result ≡ is_same_entity one.now other.now }
{
    one.entity == other.entity
}

/// Whether one of the readers has the entity of this one.
fn is_among(reader: &ReaderConfig, others: &[ReaderConfig]) -> bool
    ensures { result ≡ list_any (is_same_entity reader.now) others.now }
{
    others.iter().any(|other| is_same_entity(reader, other))
}

/// Whether one of the readers has a fault of its own.
fn has_bad_reader(readers: &[ReaderConfig]) -> bool
    ensures { result ≡ list_any is_bad_reader readers.now }
{
    readers.iter().any(is_bad_reader)
}

/// Whether two readers have the same entity.
fn has_entity_twice(readers: &[ReaderConfig]) -> bool
    ensures { result ≡ has_twice is_same_entity readers.now }
{
    for (at, reader) in readers.iter().enumerate() {
        let (_, others) = readers.split_at(at + 1);
        if is_among(reader, others) {
            return true;
        }
    }
    false
}

fn is_bad_fixed(own: GuidPrefix, readers: usize, pair: &FixedMatch) -> bool
    ensures { result ≡ is_bad_fixed own readers pair.now }
{
    pair.rank as usize >= readers || !is_writer(pair.writer.entity) || own == pair.writer.prefix
}

/// Whether one of the fixed matches has a fault of its own.
fn has_bad_fixed(own: GuidPrefix, readers: usize, pairs: &[FixedMatch]) -> bool
    ensures { result ≡ list_any (is_bad_fixed own readers) pairs.now }
{
    pairs.iter().any(|pair| is_bad_fixed(own, readers, pair))
}

fn is_same_pair(one: &FixedMatch, other: &FixedMatch) -> bool
    ensures { result ≡ is_same_pair one.now other.now }
{
    one.rank == other.rank && one.writer == other.writer
}

/// Whether one of the matches has the rank and the writer of this one.
fn is_paired(pair: &FixedMatch, others: &[FixedMatch]) -> bool
    ensures { result ≡ list_any (is_same_pair pair.now) others.now }
{
    others.iter().any(|other| is_same_pair(pair, other))
}

/// Whether two matches have the same rank and the same writer.
fn has_pair_twice(pairs: &[FixedMatch]) -> bool
    ensures { result ≡ has_twice is_same_pair pairs.now }
{
    for (at, pair) in pairs.iter().enumerate() {
        let (_, others) = pairs.split_at(at + 1);
        if is_paired(pair, others) {
            return true;
        }
    }
    false
}

/// Checks whether discovery takes a configuration. The error is the first of its faults. No memory
/// is taken.
#[tactic(auto, unfolding(crate::specs::Config::check_of))]
pub fn check(config: &Config) -> Result<(), ConfigFault>
    ensures checked { result ≡ check_of config.now }
    ensures readers { OnOk result (length config.now.readers.items ≤ 256) }
{
    let readers = config.readers.as_slice();
    let fixed = config.fixed.as_slice();
    if readers.is_empty() || readers.len() > READER_LIMIT {
        return Err(ConfigFault::Readers);
    }
    if has_bad_reader(readers) || has_entity_twice(readers) {
        return Err(ConfigFault::BadReader);
    }
    if has_bad_fixed(config.own, readers.len(), fixed) || has_pair_twice(fixed) {
        return Err(ConfigFault::BadFixed);
    }
    Ok(())
}
