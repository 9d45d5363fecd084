//! What a participant announces of itself (DDSI-RTPS 8.5.3, 9.6.3).

ghost use Rattle.std.specs.Prelude.{◌≡◌, ◌++◌, IfOk, OnOk};
ghost use Rattle.rtps_discovery.specs.Known.{spdp_reader, spdp_writer};
ghost use Rattle.rtps_announcement.specs.Parameters.{payload_octets};
ghost use Rattle.rtps_announcement.specs.Participant.{participant_gone_octets, participant_octets, participant_parameters};

use crate::data::{Change, VALUE_FLAGS, begin_change, write_end};
use crate::entities::{ENTITYID_PARTICIPANT, ENTITYID_SPDP_BUILTIN_PARTICIPANT_DETECTOR};
use crate::parameters::{LIST_END, PL_CDR_LE, push_parameter};
use crate::values::{duration_value, guid_value, locator_value};
use rtps_discovery::ENTITYID_SPDP_BUILTIN_PARTICIPANT_ANNOUNCER;
use rtps_params::ids::{
    BUILTIN_ENDPOINT_SET, DEFAULT_UNICAST_LOCATOR, METATRAFFIC_UNICAST_LOCATOR, PARTICIPANT_GUID,
    PARTICIPANT_LEASE_DURATION,
};
use rtps_types::{Duration, GuidPrefix, Locator, Octets};
use std::alloc::{AllocError, Allocator};

/// `PID_PROTOCOL_VERSION`.
const PROTOCOL_VERSION: u16 = 0x0015;

/// `PID_VENDORID`.
const VENDORID: u16 = 0x0016;

/// The builtin endpoints that there are, by their bits (DDSI-RTPS 9.3.2.12): announcer and detector
/// of participants, detector of writers, announcer and detector of readers. Writers aren't
/// announced.
const ENDPOINT_SET: [u8; 4] = [0x3b, 0, 0, 0];

/// The octets of the payload.
const LENGTH: u16 = 120;

/// Where a participant is reached, and how long it may keep silent. A receiver drops a locator with
/// port 0.
#[derive(Clone, Copy, Debug, PartialEq)]
pub struct Presence {
    /// Where its discovery is reached.
    pub discovery: Locator,
    /// Where its readers are reached.
    pub user: Locator,
    /// How long it may keep silent (DDSI-RTPS 8.5.3.2).
    pub lease: Duration,
}

/// Returns the datagram by which a participant announces itself to the participant `to`, or to
/// everyone (DDSI-RTPS 8.5.3.2). An error is a refused growth.
#[tactic(auto, unfolding(crate::specs::Participant::participant_octets))]
pub fn write_participant<A: Allocator>(
    alloc: A,
    own: GuidPrefix,
    to: Option<GuidPrefix>,
    here: Presence,
) -> Result<Octets<A>, AllocError>
    ensures { IfOk result (λ octets. octets ≡ participant_octets own to here) }
{
    let mut octets = begin_change(alloc, change_of(own, to, 1), VALUE_FLAGS, LENGTH)?;
    push_presence(&mut octets, own, here)?;
    Ok(Octets::new(octets))
}

/// Returns the datagram by which a participant reports to the participant `to`, or to everyone,
/// that it leaves (DDSI-RTPS 8.5.3.3). An error is a refused growth.
#[tactic(auto, unfolding(crate::specs::Participant::participant_gone_octets))]
pub fn write_participant_gone<A: Allocator>(
    alloc: A,
    own: GuidPrefix,
    to: Option<GuidPrefix>,
) -> Result<Octets<A>, AllocError>
    ensures { IfOk result (λ octets. octets ≡ participant_gone_octets own to) }
{
    write_end(
        alloc,
        change_of(own, to, 2),
        PARTICIPANT_GUID,
        ENTITYID_PARTICIPANT,
    )
}

/// Appends the record of a participant.
fn push_presence<A: Allocator>(
    octets: &mut Vec<u8, A>,
    own: GuidPrefix,
    here: Presence,
) -> Result<(), AllocError>
    ensures { OnOk result (octets.new.items
        ≡ octets.old.items ++ payload_octets (participant_parameters own here)) }
{
    octets.extend_from_slice(&PL_CDR_LE)?;
    push_parameter(octets, PROTOCOL_VERSION, &[2, 5, 0, 0])?;
    push_parameter(octets, VENDORID, &[0; 4])?;
    push_parameter(
        octets,
        PARTICIPANT_GUID,
        &guid_value(own, ENTITYID_PARTICIPANT),
    )?;
    push_parameter(
        octets,
        METATRAFFIC_UNICAST_LOCATOR,
        &locator_value(here.discovery),
    )?;
    push_parameter(octets, DEFAULT_UNICAST_LOCATOR, &locator_value(here.user))?;
    push_parameter(
        octets,
        PARTICIPANT_LEASE_DURATION,
        &duration_value(here.lease),
    )?;
    push_parameter(octets, BUILTIN_ENDPOINT_SET, &ENDPOINT_SET)?;
    octets.extend_from_slice(&LIST_END)?;
    Ok(())
}

/// Returns a change of the announcer of participants.
fn change_of(own: GuidPrefix, to: Option<GuidPrefix>, number: u64) -> Change
    ensures { result ≡ record {
      own = own;
      to = to;
      reader = spdp_reader;
      writer = spdp_writer;
      number = number;
    } }
{
    Change {
        own,
        to,
        reader: ENTITYID_SPDP_BUILTIN_PARTICIPANT_DETECTOR,
        writer: ENTITYID_SPDP_BUILTIN_PARTICIPANT_ANNOUNCER,
        number,
    }
}
