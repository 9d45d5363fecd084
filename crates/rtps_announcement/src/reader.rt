//! What a participant announces of its readers (DDSI-RTPS 8.5.4).

ghost use Rattle.std.specs.Prelude.{◌≡◌, ◌^◌, ◌<◌, IfOk};
ghost use Rattle.rtps_types.specs.Number.{value_of};
ghost use Rattle.rtps_discovery.specs.Known.{subscriptions_reader, subscriptions_writer};
ghost use Rattle.rtps_announcement.specs.Reader.{reader_gone_octets, reader_octets};

use crate::ReaderRecord;
use crate::data::{Change, VALUE_FLAGS, begin_change, write_end};
use crate::entities::ENTITYID_SEDP_BUILTIN_SUBSCRIPTIONS_DETECTOR;
use rtps_discovery::ENTITYID_SEDP_BUILTIN_SUBSCRIPTIONS_ANNOUNCER;
use rtps_params::ids::ENDPOINT_GUID;
use rtps_types::{EntityId, GuidPrefix, Number, Octets};
use std::alloc::{AllocError, Allocator};

/// Returns the datagram of change `number`, by which a participant announces its reader with this
/// record to the participant `to` (DDSI-RTPS 8.5.4). An error is a refused growth.
#[tactic(auto, unfolding(crate::specs::Reader::reader_octets))]
pub fn write_reader<A: Allocator, B: Allocator>(
    alloc: A,
    own: GuidPrefix,
    to: GuidPrefix,
    number: Number,
    reader: &ReaderRecord<B>,
) -> Result<Octets<A>, AllocError>
    ensures { IfOk result (λ octets. octets
        ≡ reader_octets own to (value_of number) reader.now) }
{
    let payload = reader.as_slice();
    let change = change_of(own, to, number);
    let mut octets = begin_change(alloc, change, VALUE_FLAGS, payload.len() as u16)?;
    octets.extend_from_slice(payload)?;
    Ok(Octets::new(octets))
}

/// Returns the datagram of change `number`, by which a participant reports to the participant `to`
/// that its reader with this id has gone (DDSI-RTPS 8.5.4.4). An error is a refused growth.
pub fn write_reader_gone<A: Allocator>(
    alloc: A,
    own: GuidPrefix,
    to: GuidPrefix,
    number: Number,
    entity: EntityId,
) -> Result<Octets<A>, AllocError>
    ensures { IfOk result (λ octets. octets
        ≡ reader_gone_octets own to (value_of number) entity) }
{
    write_end(alloc, change_of(own, to, number), ENDPOINT_GUID, entity)
}

/// Returns a change of the announcer of readers.
fn change_of(own: GuidPrefix, to: GuidPrefix, number: Number) -> Change
    ensures { result ≡ record {
      own = own;
      to = Some to;
      reader = subscriptions_reader;
      writer = subscriptions_writer;
      number = value_of number;
    } }
{
    Change {
        own,
        to: Some(to),
        reader: ENTITYID_SEDP_BUILTIN_SUBSCRIPTIONS_DETECTOR,
        writer: ENTITYID_SEDP_BUILTIN_SUBSCRIPTIONS_ANNOUNCER,
        number: number.get(),
    }
}
