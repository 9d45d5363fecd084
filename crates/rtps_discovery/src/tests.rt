//! Tests of configurations with one or two faults, and of the readers that events are for.

mod announcements;
mod announcers;
mod events;
mod ignored;
mod leases;
mod memory;
mod readers;
mod start;

use crate::*;
use dds_qos::{Ownership, Reliability};
use rtps_types::{EntityId, Guid, GuidPrefix, Locators};
use std::alloc::Global;
use std::test::Fail;

const OURS: GuidPrefix = GuidPrefix([0x0b; 12]);

const THEIRS: GuidPrefix = GuidPrefix([0x0a; 12]);

const WITH_KEY: [u8; 4] = [0x00, 0x00, 0x01, 0x07];

const WITHOUT_KEY: [u8; 4] = [0x00, 0x00, 0x01, 0x04];

const WRITER: Guid = Guid {
    prefix: THEIRS,
    entity: EntityId([0x00, 0x00, 0x01, 0x02]),
};

const WRITER_WITHOUT_KEY: Guid = Guid {
    prefix: THEIRS,
    entity: EntityId([0x00, 0x00, 0x01, 0x03]),
};

const READER: Guid = Guid {
    prefix: THEIRS,
    entity: EntityId([0x00, 0x00, 0x01, 0x07]),
};

const OUR_WRITER: Guid = Guid {
    prefix: OURS,
    entity: EntityId([0x00, 0x00, 0x01, 0x02]),
};

/// Appends a reader to a configuration.
fn add_reader(
    alloc: Global,
    config: &mut Config,
    entity: [u8; 4],
    ownership: Ownership,
    reliability: Reliability,
) -> Result<(), Fail> {
    let mut reader = ReaderConfig::new(alloc, EntityId(entity), "Square", "ShapeType")?;
    reader.requested.policies.ownership = ownership;
    reader.requested.policies.reliability = reliability;
    config.add_reader(reader)?;
    Ok(())
}

fn empty(alloc: Global) -> Config {
    Config::new(alloc, OURS)
}

/// Readers with these entities and policies, and fixed matches.
#[derive(Clone, Copy)]
struct Row<'a> {
    readers: &'a [[u8; 4]],
    ownership: Ownership,
    reliability: Reliability,
    fixed: &'a [(u32, Guid)],
}

const GOOD: Row<'static> = Row {
    readers: &[WITH_KEY, WITHOUT_KEY],
    ownership: Ownership::Shared,
    reliability: Reliability::BestEffort,
    fixed: &[(0, WRITER), (1, WRITER), (1, WRITER_WITHOUT_KEY)],
};

/// The configuration of a row.
fn config_of(alloc: Global, row: Row<'_>) -> Result<Config, Fail> {
    let mut config = empty(alloc);
    for entity in row.readers {
        add_reader(alloc, &mut config, *entity, row.ownership, row.reliability)?;
    }
    for (rank, writer) in row.fixed {
        config.add_fixed(*rank, *writer, Locators::new(Vec::new(alloc)))?;
    }
    Ok(config)
}

/// Returns the result of the check of a row's configuration.
fn told(alloc: Global, row: Row<'_>) -> Result<Result<(), ConfigFault>, Fail> {
    let config = config_of(alloc, row)?;
    Ok(check(&config))
}

#[test]
fn a_good_configuration_is_taken(rt: HostRuntime) -> Result<(), Fail> {
    assert_eq!(rt; told(rt.alloc(), GOOD)?, Ok(()));
    let reliable = Row {
        reliability: Reliability::Reliable,
        ..GOOD
    };
    assert_eq!(rt; told(rt.alloc(), reliable)?, Ok(()));
    let no_reader = Row {
        readers: &[],
        fixed: &[(0, WRITER)],
        ..GOOD
    };
    assert_eq!(rt; told(rt.alloc(), no_reader)?, Err(ConfigFault::Readers));
    Ok(())
}

#[test]
fn bad_readers_are_told_before_fixed_matches(rt: HostRuntime) -> Result<(), Fail> {
    for row in [
        Row {
            readers: &[WITH_KEY, [0x00, 0x00, 0x01, 0x03]],
            ..GOOD
        },
        Row {
            readers: &[WITH_KEY, WITHOUT_KEY, WITH_KEY],
            ..GOOD
        },
        Row {
            ownership: Ownership::Exclusive,
            ..GOOD
        },
        Row {
            readers: &[[0x00, 0x00, 0x01, 0x02]],
            fixed: &[(1, OUR_WRITER)],
            ..GOOD
        },
    ] {
        assert_eq!(rt; told(rt.alloc(), row)?, Err(ConfigFault::BadReader));
    }
    Ok(())
}

#[test]
fn bad_fixed_matches_are_told(rt: HostRuntime) -> Result<(), Fail> {
    for fixed in [
        [(1, WRITER), (2, WRITER)].as_slice(),
        [(0, READER)].as_slice(),
        [(0, WRITER), (0, OUR_WRITER)].as_slice(),
        [(1, WRITER), (0, WRITER), (1, WRITER)].as_slice(),
    ] {
        let row = Row { fixed, ..GOOD };
        assert_eq!(rt; told(rt.alloc(), row)?, Err(ConfigFault::BadFixed));
    }
    Ok(())
}

#[test]
fn readers_are_256_at_most(rt: HostRuntime) -> Result<(), Fail> {
    let mut config = empty(rt.alloc());
    for key in 0..256_u16 {
        let [high, low] = key.to_be_bytes();
        add_reader(
            rt.alloc(),
            &mut config,
            [0x00, high, low, 0x07],
            Ownership::Shared,
            Reliability::BestEffort,
        )?;
    }
    assert_eq!(rt; check(&config), Ok(()));
    // The reader past the limit has a fault of its own too.
    add_reader(
        rt.alloc(),
        &mut config,
        [0x00, 0x00, 0x00, 0x02],
        Ownership::Shared,
        Reliability::BestEffort,
    )?;
    assert_eq!(rt; check(&config), Err(ConfigFault::Readers));
    Ok(())
}

#[test]
fn announcers_are_for_discovery(rt: HostRuntime) {
    for (writer, expected) in [
        ([0x00, 0x01, 0x00, 0xc2], true),
        ([0x00, 0x00, 0x03, 0xc2], true),
        ([0x00, 0x00, 0x04, 0xc2], true),
        ([0x00, 0x00, 0x03, 0xc7], false),
        ([0x00, 0x02, 0x00, 0xc2], false),
        ([0x00, 0x00, 0x04, 0x02], false),
        ([0x00, 0x00, 0x00, 0x00], false),
    ] {
        assert_eq!(rt; is_discovery(EntityId(writer)), expected);
    }
}

#[test]
fn zeros_are_for_every_reader(rt: HostRuntime) {
    for (reader, entity, expected) in [
        (WITH_KEY, WITH_KEY, true),
        ([0x00; 4], WITH_KEY, true),
        (WITH_KEY, WITHOUT_KEY, false),
        (WITH_KEY, [0x00; 4], false),
    ] {
        assert_eq!(rt; is_for(EntityId(reader), EntityId(entity)), expected);
    }
}

#[test]
fn faults_have_names(rt: HostRuntime) {
    for (fault, name) in [
        (ConfigFault::Readers, "Readers"),
        (ConfigFault::BadReader, "BadReader"),
        (ConfigFault::BadFixed, "BadFixed"),
    ] {
        assert_eq!(rt; fault.name(), name);
    }
}
