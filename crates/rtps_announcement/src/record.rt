//! The record of a reader, which is the payload of the change by which it is announced (DDSI-RTPS
//! 8.5.4, 9.6.3).

ghost use Rattle.std.specs.Prelude.{◌≡◌, ◌≤◌, ◌++◌, map, length, true, IfOk, OnOk};
ghost use Rattle.std.specs.List.{flat_map};
ghost use Rattle.std.specs.String.{string_bytes};
ghost use Rattle.rtps_cdr.specs.Cdr.{Sequence, Text};
ghost use Rattle.rtps_cdr.specs.Writing.{Fits};
ghost use Rattle.rtps_discovery.specs.Config.{is_reader};
ghost use Rattle.rtps_discovery.specs.Start.{wish_of};
ghost use Rattle.rtps_announcement.specs.Fault.{IsTooLong, longest};
ghost use Rattle.rtps_announcement.specs.Parameters.{parameter_octets};
ghost use Rattle.rtps_announcement.specs.Reader.{IsAnnounced, partition_parameters, reader_record};

use crate::entities::ENTITYID_PARTICIPANT;
use crate::fault::{LONGEST, RecordFault};
use crate::parameters::{LIST_END, PL_CDR_LE, push_parameter};
use crate::policies::push_policies;
use crate::texts::{names_value, text_value};
use crate::values::guid_value;
use rtps_discovery::ReaderConfig;
use rtps_params::ids::{ENDPOINT_GUID, PARTICIPANT_GUID, PARTITION, TOPIC_NAME, TYPE_NAME};
use rtps_types::GuidPrefix;
use std::alloc::{Allocator, Global};
use std::marker::Model;

/// The record of a reader, which has at most 60,000 octets, so that a datagram carries it. It is
/// made once, and copied into each datagram that announces the reader.
#[derive(Debug, Drop)]
pub struct ReaderRecord<A: Allocator = Global> {
    octets: Vec<u8, A>,
}

impl<A: Allocator> Model for ReaderRecord<A> {
    ghost use Rattle.std.specs.Prelude.{◌≤◌, List, ℕ, length};
    ghost use Rattle.rtps_announcement.specs.Fault.{longest};

    ghost Value = { List ℕ };

    ghost view = { λ r. r.octets.items };

    ghost invariant = { λ r. length r.octets.items ≤ longest };
}

impl<A: Allocator + Copy> ReaderRecord<A> {
    /// Returns the record of a reader of the participant `own`: its topic, its type, its policies
    /// and its partitions. `TooLong` where it would have more than 60,000 octets; `NoMemory` where
    /// memory is refused.
    pub fn new(
        alloc: A,
        own: GuidPrefix,
        reader: &ReaderConfig,
    ) -> Result<ReaderRecord<A>, RecordFault>
        ensures octets { IfOk result (λ octets. octets ≡ reader_record own (wish_of reader.now)) }
        ensures short { IfOk result (λ octets. length octets ≤ longest) }
        // So the law of records speaks of it.
        ensures announced { IfOk result (λ octets. is_reader reader.now.entity ≡ true
            → IsAnnounced own (wish_of reader.now)) }
        ensures too_long { IsTooLong result (reader_record own (wish_of reader.now)) }
    {
        let topic = text_value(alloc, reader.topic.as_str())?;
        let type_name = text_value(alloc, reader.type_name.as_str())?;
        let mut octets = Vec::new(alloc);
        octets.extend_from_slice(&PL_CDR_LE)?;
        push_parameter(&mut octets, ENDPOINT_GUID, &guid_value(own, reader.entity))?;
        push_parameter(
            &mut octets,
            PARTICIPANT_GUID,
            &guid_value(own, ENTITYID_PARTICIPANT),
        )?;
        push_parameter(&mut octets, TOPIC_NAME, topic.as_slice())?;
        push_parameter(&mut octets, TYPE_NAME, type_name.as_slice())?;
        push_policies(&mut octets, &reader.requested.policies)?;
        push_partitions(alloc, &mut octets, reader.requested.partitions.names())?;
        octets.extend_from_slice(&LIST_END)?;
        if octets.len() > LONGEST {
            return Err(RecordFault::TooLong);
        }
        Ok(ReaderRecord { octets })
    }
}

impl<A: Allocator> ReaderRecord<A> {
    /// Returns the octets, of which there are at most 60,000.
    pub fn as_slice(&self) -> &[u8]
        ensures octets { result.now ≡ self.now }
        ensures short { length result.now ≤ longest }
    {
        self.octets.as_slice()
    }
}

/// Appends the partitions, where there are any. `TooLong` where they have more octets than a
/// record; `NoMemory` where memory is refused.
fn push_partitions<A: Allocator + Copy>(
    alloc: A,
    octets: &mut Vec<u8, A>,
    names: &[String],
) -> Result<(), RecordFault>
    ensures octets { OnOk result (octets.new.items ≡ octets.old.items
        ++ flat_map parameter_octets (partition_parameters (map string_bytes names.now))) }
    ensures fits { OnOk result (Fits (Sequence Text) (map string_bytes names.now)) }
    ensures too_long { IsTooLong result
        (flat_map parameter_octets (partition_parameters (map string_bytes names.now))) }
{
    if names.is_empty() {
        return Ok(());
    }
    let value = names_value(alloc, names)?;
    push_parameter(octets, PARTITION, value.as_slice())?;
    Ok(())
}
