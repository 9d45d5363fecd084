//! The configuration that options ask for.

ghost use Rattle.std.specs.Prelude.{◌≡◌, ◌<◌, ◌≤◌, ◌++◌, ◌∷◌, [], ◌↔◌, IfErr, IfOk, IsOk, OnOk};
ghost use Rattle.std.specs.String.{string_bytes};
ghost use Rattle.rtps_discovery.specs.Start.{wish_of};
ghost use Rattle.rtps_bench.specs.Configs.{IsCause, IsConfigOf, IsFixedText, IsMadeOf, NamesWriter, match_at, own, reader_of, topic_of};

use crate::fault::BenchFault;
use crate::options::Options;
use rtps_discovery::{Config, ReaderConfig, check};
use rtps_records::RunFault;
use rtps_types::{EntityId, Guid, GuidPrefix, Locators};
use std::alloc::{AllocError, Global};

/// The prefix of the participant.
const OWN: GuidPrefix = GuidPrefix([0x0b; 12]);

/// The type of each reader.
const TYPE_NAME: &str = "ShapeType";

/// Returns the topic of the reader with this rank: the topic of the options, or one of several,
/// which are numbered from 0.
fn topic_of(alloc: Global, options: &Options<'_>, rank: u8) -> Result<String, AllocError>
    ensures { IfOk result (λ topic. string_bytes topic
        ≡ topic_of options.now.topic.now options.now.topics rank) }
{
    if options.topics == 1 {
        return String::from_str(alloc, options.topic);
    }
    format!(in alloc; "{}{}", options.topic, rank % options.topics)
}

/// Returns the reader with this rank, which is reliable.
fn reader_for(alloc: Global, options: &Options<'_>, rank: u8) -> Result<ReaderConfig, AllocError>
    requires { rank < 64 }
    ensures { IfOk result (λ reader. wish_of reader
        ≡ reader_of options.now.topic.now options.now.topics rank) }
{
    let entity = EntityId([0x00, 0x00, rank + 1, 0x07]);
    let topic = topic_of(alloc, options, rank)?;
    Ok(ReaderConfig::new(alloc, entity, topic.as_str(), TYPE_NAME)?.reliable())
}

/// Adds a match of the reader with this rank with the writer, if there is one.
fn match_with(
    config: &mut Config,
    alloc: Global,
    writer: Option<Guid>,
    rank: u8,
) -> Result<(), AllocError>
    ensures fixed { OnOk result (config.new.fixed.items
        ≡ config.old.fixed.items ++ match_at writer rank) }
    ensures others { (config.new.own ≡ config.old.own)
        × (config.new.readers ≡ config.old.readers) }
{
    match writer {
        Some(writer) => {
            config.add_fixed(u32::from(rank), writer, Locators::new(Vec::new(alloc)))
        }
        None => Ok(()),
    }
}

/// Returns the configuration of the options, with the writer that their text writes.
fn config_with(
    alloc: Global,
    options: &Options<'_>,
    writer: Option<Guid>,
) -> Result<Config, AllocError>
    ensures { IfOk result (IsMadeOf options.now writer) }
{
    let mut config = Config::new(alloc, OWN);
    for rank in 0..options.readers {
        let reader = reader_for(alloc, options, rank)?;
        config.add_reader(reader)?;
        match_with(&mut config, alloc, writer, rank)?;
    }
    Ok(config)
}

/// Returns the writer that `--fixed` names, or `None` if it isn't given.
fn writer_in(fixed: Option<&str>) -> Result<Option<Guid>, BenchFault>
    ensures value { IfOk result (NamesWriter fixed.entry) }
    ensures found { IsOk result ↔ IsFixedText fixed.entry }
    ensures fault { IfErr result (λ fault. fault ≡ BenchFault.BadWriter) }
{
    let Some(text) = fixed else {
        return Ok(None);
    };
    let Ok(writer) = text.parse::<Guid>() else {
        return Err(BenchFault::BadWriter);
    };
    Ok(Some(writer))
}

/// Returns the configuration that the options ask for.
///
/// `BadWriter` if `--fixed` isn't 32 hex digits or names no writer that can be matched; and
/// `NoMemory`. The readers of options are good ones, so a fault of [`check`] is one of the writer.
pub fn config_of(alloc: Global, options: &Options<'_>) -> Result<Config, BenchFault>
    ensures config { IfOk result (IsConfigOf options.now) }
    ensures cause { IfErr result (IsCause options.now) }
{
    let writer = match writer_in(options.fixed) {
        Ok(writer) => writer,
        Err(fault) => return Err(fault),
    };
    let Ok(config) = config_with(alloc, options, writer) else {
        return Err(BenchFault::Run(RunFault::NoMemory));
    };
    match check(&config) {
        Ok(()) => Ok(config),
        Err(_) => Err(BenchFault::BadWriter),
    }
}
