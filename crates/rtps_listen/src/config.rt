//! The configuration that options ask for.

ghost use Rattle.std.specs.Prelude.{◌≡◌, ◌<◌, ◌++◌, ◌↔◌, IfErr, IfOk, IsOk, Ok, OnOk};
ghost use Rattle.rtps_discovery.specs.Config.{check_of};
ghost use Rattle.rtps_discovery.specs.Start.{wish_of};
ghost use Rattle.rtps_listen.specs.Configs.{IsCause, IsConfigOf, IsFixedText, IsMadeOf, NamesWriter, Refuses, match_at, reader_of};

use crate::fault::ListenFault;
use crate::options::Options;
use rtps_discovery::{Config, ReaderConfig, check};
use rtps_records::RunFault;
use rtps_types::{EntityId, Guid, GuidPrefix, Locators};
use std::alloc::{AllocError, Global};

/// Returns the reader with this rank: a best-effort reader, or a reliable one, which asks again for
/// what it misses. Its kind says whether its topic has a key (DDSI-RTPS 9.3.1.2).
fn reader_for(alloc: Global, options: &Options<'_>, rank: u8) -> Result<ReaderConfig, AllocError>
    requires { rank < 8 }
    ensures { IfOk result (λ reader. wish_of reader ≡ reader_of options.now rank) }
{
    let kind = if options.no_key { 0x04 } else { 0x07 };
    let entity = EntityId([0x00, 0x00, rank + 1, kind]);
    let reader = ReaderConfig::new(alloc, entity, options.topic, options.type_name)?;
    if options.best_effort {
        Ok(reader)
    } else {
        Ok(reader.reliable())
    }
}

/// Adds a match of the reader with this rank with the writer, if there is one.
fn match_with(
    config: &mut Config,
    alloc: Global,
    writer: Option<Guid>,
    rank: u8,
) -> Result<(), AllocError>
    ensures fixed { OnOk result (config.new.fixed.items
        ≡ config.old.fixed.items ++ match_at writer rank) }
    ensures others { (config.new.own ≡ config.old.own)
        × (config.new.readers ≡ config.old.readers) }
{
    match writer {
        Some(writer) => {
            config.add_fixed(u32::from(rank), writer, Locators::new(Vec::new(alloc)))
        }
        None => Ok(()),
    }
}

/// Returns the configuration of the options, with what their texts write.
fn config_with(
    alloc: Global,
    options: &Options<'_>,
    own: GuidPrefix,
    writer: Option<Guid>,
) -> Result<Config, AllocError>
    ensures { IfOk result (IsMadeOf options.now own writer) }
{
    let mut config = Config::new(alloc, own);
    for rank in 0..options.readers {
        let reader = reader_for(alloc, options, rank)?;
        config.add_reader(reader)?;
        match_with(&mut config, alloc, writer, rank)?;
    }
    Ok(config)
}

/// Returns the writer that `--fixed` names, or `None` if it isn't given.
fn writer_in(fixed: Option<&str>) -> Result<Option<Guid>, ListenFault>
    ensures value { IfOk result (NamesWriter fixed.entry) }
    ensures found { IsOk result ↔ IsFixedText fixed.entry }
    ensures fault { IfErr result (λ fault. fault ≡ ListenFault.BadWriter) }
{
    let Some(text) = fixed else {
        return Ok(None);
    };
    let Ok(writer) = text.parse::<Guid>() else {
        return Err(ListenFault::BadWriter);
    };
    Ok(Some(writer))
}

/// Returns the configuration that the options ask for, which discovery accepts.
///
/// `BadPrefix` if `--own` isn't 24 hex digits; `BadWriter` if `--fixed` isn't 32 hex digits or
/// names no writer that can be matched; and `NoMemory`. The readers of options are good ones, so a
/// fault of [`check`] is one of the writer; memory is taken before the writer is judged.
pub fn config_of(alloc: Global, options: &Options<'_>) -> Result<Config, ListenFault>
    ensures refused { Refuses options.now result }
    ensures cause { IfErr result (IsCause options.now) }
    ensures config { IfOk result (IsConfigOf options.now) }
    ensures taken { IfOk result (λ config. check_of config ≡ Ok tt) }
{
    let Ok(own) = options.own.parse::<GuidPrefix>() else {
        return Err(ListenFault::BadPrefix);
    };
    let writer = match writer_in(options.fixed) {
        Ok(writer) => writer,
        Err(fault) => return Err(fault),
    };
    let Ok(config) = config_with(alloc, options, own, writer) else {
        return Err(ListenFault::Run(RunFault::NoMemory));
    };
    match check(&config) {
        Ok(()) => Ok(config),
        Err(_) => Err(ListenFault::BadWriter),
    }
}
