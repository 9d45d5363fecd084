//! An application with its own data type: reads a record file, and prints what a reader of
//! [`Reading`]s reports of it.

mod reading;

use anyhow::Result;
use dds_struct::Structs;
use reading::Reading;
use rtps_text::{Pace, Setup, replay};
use std::alloc::{AllocError, Global};
use std::fs::File;
use std::thread::Threads;
use thrushpodium::{Config, EntityId, GuidPrefix, ReaderConfig, check};

/// Prints what the reader reports of the record file of this name.
pub fn run<R: Threads + Sync>(rt: &R, host: &HostRuntime, file: &str) -> Result<()> {
    let mut input = File::open(host, file)?;
    let setup = setup(host.alloc())?;
    replay(rt, host.alloc(), setup, &mut input, &mut host.stdout())?;
    Ok(())
}

fn setup(alloc: Global) -> Result<Setup<Structs<Reading>>> {
    let config = config(alloc)?;
    check(&config)?;
    let setup = Setup {
        config,
        catalog: Structs::<Reading>::new(),
        summary: true,
        pace: Pace {
            batch: 256,
            workers: 1,
        },
    };
    Ok(setup)
}

/// A participant with one reliable reader of the topic `Readings`.
fn config(alloc: Global) -> Result<Config, AllocError> {
    let mut config = Config::new(alloc, GuidPrefix([0x0b; 12]));
    let reader = ReaderConfig::new(alloc, EntityId([0, 0, 1, 7]), "Readings", "Reading")?;
    config.add_reader(reader.reliable())?;
    Ok(config)
}
