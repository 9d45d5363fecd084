//! Copies of the readers of a configuration.

ghost use Rattle.std.specs.Prelude.{◌≡◌, IfOk, map};
ghost use Rattle.std.specs.String.{string_bytes};
ghost use Rattle.rtps_discovery.specs.Start.{reader_of, wish_of};

use crate::config::ReaderConfig;
use crate::known::Reader;
use dds_qos::{Partitions, Requested};
use std::alloc::{AllocError, Allocator};

/// Returns a copy of the names of partitions.
fn copied_names<A: Allocator + Copy>(
    alloc: A,
    names: &[String],
) -> Result<Partitions<A>, AllocError>
    ensures { IfOk result (λ copy. copy ≡ map string_bytes names.now) }
{
    let mut copies = Vec::new(alloc);
    for name in names {
        copies.push(String::from_str(alloc, name.as_str())?)?;
    }
    Ok(Partitions::new(copies))
}

/// Returns a copy of a reader.
pub(crate) fn copied_reader<A: Allocator + Copy>(
    alloc: A,
    reader: &ReaderConfig,
) -> Result<Reader<A>, AllocError>
    ensures { IfOk result (λ copy. copy ≡ wish_of reader.now) }
{
    let topic = String::from_str(alloc, reader.topic.as_str())?;
    let type_name = String::from_str(alloc, reader.type_name.as_str())?;
    let partitions = copied_names(alloc, reader.requested.partitions.names())?;
    Ok(Reader {
        entity: reader.entity,
        topic,
        type_name,
        requested: Requested {
            policies: reader.requested.policies,
            partitions,
        },
    })
}

/// Returns copies of readers, by rank.
pub(crate) fn copied_readers<A: Allocator + Copy>(
    alloc: A,
    readers: &[ReaderConfig],
) -> Result<Vec<Option<Reader<A>>, A>, AllocError>
    ensures { IfOk result (λ copies. copies.items ≡ map reader_of readers.now) }
{
    let mut copies = Vec::new(alloc);
    for reader in readers {
        copies.push(Some(copied_reader(alloc, reader)?))?;
    }
    Ok(copies)
}
