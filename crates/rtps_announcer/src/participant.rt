//! What a participant's own announcer says of it (DDSI-RTPS 8.5.3).

ghost use Rattle.std.specs.Prelude.{◌≡◌, filter, take};
ghost use Rattle.rtps_discovery.specs.AnnouncedData as said;
ghost use Rattle.rtps_discovery.specs.Announcement as announcement;
ghost use Rattle.rtps_discovery.specs.Leases as leases;
ghost use Rattle.rtps_announcer.specs.Participant as heard;
ghost use Rattle.dds_qos.specs.Seen.{settings_seen};
ghost use Rattle.rtps_announcer.specs.ParticipantParts as parts;

use crate::hearing::{Facts, Hearing};
use crate::locators::PeerLocators;
use dds_qos::{ListedLocators, Settings, guid_named};
use rtps_params::ParamList;
use rtps_params::ids::PARTICIPANT_GUID;
use rtps_types::{
    Duration, Endian, EntityId, Guid, GuidPrefix, KeyHash, Locator, get_octets, get_u16,
};
use rtps_wire::{ChangeInfo, Form};

/// `PL_CDR_BE`: a parameter list in big-endian order (DDSI-RTPS 10.2.1.2).
const PL_CDR_BE: u16 = 0x0002;

/// `PL_CDR_LE`: a parameter list in little-endian order.
const PL_CDR_LE: u16 = 0x0003;

/// The lease of a participant that announces none (DDSI-RTPS 8.5.3.2).
const DEFAULT_LEASE: Duration = Duration {
    seconds: 100,
    fraction: 0,
};

/// The bits of the announcer of writers and of the reader of readers in a builtin endpoint set
/// (DDSI-RTPS 9.3.2.12).
const PUBLICATIONS_ANNOUNCER: u32 = 2;

const SUBSCRIPTIONS_DETECTOR: u32 = 5;

/// Whether a locator has an address of one interface: not of a multicast group, not the broadcast
/// address, and not 0.0.0.0.
pub fn is_unicast(locator: Locator) -> bool
    ensures { result ≡ heard.is_unicast locator }
{
    1 <= locator.address[0] && locator.address[0] <= 223
}

/// Returns the first four unicast locators of a list. Whoever sends to them knows by which of its
/// own addresses, and whether they may be on loopback.
fn peer_locators(mut listed: ListedLocators<'_>) -> PeerLocators
    ensures { result ≡ take 4 (filter heard.is_unicast listed.entry) }
{
    let mut to = PeerLocators::new();
    'listed: while let Some(locator) = listed.next() {
        if is_unicast(locator) {
            to.add(locator);
        }
    }
    to
}

/// Returns a lease in milliseconds, rounded up; 0 if it is negative.
fn milliseconds(lease: Duration) -> u64
    ensures { result ≡ leases.milliseconds lease.seconds lease.fraction }
{
    if lease.seconds < 0 {
        return 0;
    }
    let rounded = (u64::from(lease.fraction) * 1000 + 0xffff_ffff) / 0x1_0000_0000;
    u64::from(lease.seconds.cast_unsigned()) * 1000 + rounded
}

/// Returns a lease in milliseconds, rounded up, and 0 if it is negative; `None` if it never ends
/// (DDSI-RTPS 8.5.3.2).
pub fn lease_of(lease: Duration) -> Option<u64>
    ensures { result ≡ leases.lease_of lease }
{
    if lease.seconds == 0x7fff_ffff && lease.fraction == 0xffff_ffff {
        return None;
    }
    Some(milliseconds(lease))
}

/// Whether a builtin endpoint set has the announcer of writers and the reader of readers. A
/// participant without a set has all endpoints.
///
/// One that has no writers has no use for our readers. Of two participants that greet whoever they
/// find with a farewell first, each would find the other anew by each greeting, without end: of
/// ours, which announce no writers, none greets another one.
fn hears(set: Option<u32>) -> bool
    ensures { result ≡ heard.hears_readers set }
{
    match set {
        Some(set) => {
            (set >> PUBLICATIONS_ANNOUNCER) % 2 == 1 && (set >> SUBSCRIPTIONS_DETECTOR) % 2 == 1
        }
        None => true,
    }
}

/// Returns what the record of a participant says of it.
fn facts_of(settings: Settings<'_>) -> Facts
    ensures { result ≡ heard.facts_of (settings_seen settings.entry) }
{
    Facts {
        to: peer_locators(settings.metatraffic_unicast),
        lease: lease_of(settings.lease.unwrap_or(DEFAULT_LEASE)),
        hears: hears(settings.builtin_endpoints),
    }
}

/// Returns the parameter list of a payload, after four octets of encapsulation; `None` if it is
/// not one, or is malformed.
fn list_in(payload: &[u8]) -> Option<ParamList<'_>>
    ensures { result ≡ said.list_in payload.now }
{
    let _options = get_u16(payload, 2, Endian::Big)?;
    let endian = match get_u16(payload, 0, Endian::Big)? {
        PL_CDR_BE => Endian::Big,
        PL_CDR_LE => Endian::Little,
        _ => return None,
    };
    ParamList::new(&payload[4..], endian).ok()
}

/// Returns the participant that is named, else the one in the key hash, else the sender.
fn prefix_of(source: GuidPrefix, named: Option<Guid>, hash: Option<KeyHash>) -> GuidPrefix
    ensures { result ≡ announcement.prefix_of source (announcement.or_hash named hash) }
{
    match (named, hash) {
        (Some(guid), _) => guid.prefix,
        (None, Some(hash)) => prefix_in(source, hash),
        (None, None) => source,
    }
}

/// Returns the participant in a key hash.
fn prefix_in(source: GuidPrefix, hash: KeyHash) -> GuidPrefix
    ensures { result ≡ announcement.prefix_of source (announcement.or_hash None (Some hash)) }
{
    let (Some(prefix), Some(entity)) = (get_octets(&hash.0, 0), get_octets(&hash.0, 12)) else {
        return source;
    };
    let guid = Guid {
        prefix: GuidPrefix(prefix),
        entity: EntityId(entity),
    };
    guid.prefix
}

/// Returns what a record says. A participant speaks for itself alone, and none for ours, `own`.
fn record_heard(own: GuidPrefix, source: GuidPrefix, payload: &[u8]) -> Option<Hearing>
    ensures { result ≡ parts.record_heard own source payload.now }
{
    let list = list_in(payload)?;
    let settings = match Settings::read(&list) {
        Ok(settings) => settings,
        Err(_) => return None,
    };
    let prefix = prefix_of(source, settings.participant, None);
    if prefix != source || source == own {
        return None;
    }
    Some(Hearing::Comes(source, facts_of(settings)))
}

/// Returns the end of a participant that names itself, or that is named by no one else.
fn end_heard(source: GuidPrefix, named: Option<Guid>, hash: Option<KeyHash>) -> Option<Hearing>
    ensures { result ≡ parts.end_heard source named hash }
{
    (prefix_of(source, named, hash) == source).then_some(Hearing::Leaves(source))
}

/// Returns the end that a payload says.
fn end_in(source: GuidPrefix, hash: Option<KeyHash>, payload: &[u8]) -> Option<Hearing>
    ensures { result ≡ parts.end_in source hash payload.now }
{
    let list = list_in(payload)?;
    match guid_named(&list, PARTICIPANT_GUID) {
        Ok(named) => end_heard(source, named, hash),
        Err(_) => None,
    }
}

/// Returns what a change of a participant's own announcer says: of the participant `source`, to
/// ours, `own`.
#[tactic(auto, unfolding(rtps_discovery::specs::AnnouncedData::said_in))]
pub(crate) fn participant_heard(
    own: GuidPrefix,
    source: GuidPrefix,
    info: ChangeInfo,
    payload: &[u8],
) -> Option<Hearing>
    ensures { result ≡ heard.participant_heard own source info payload.now }
{
    let ends = info.status % 4 != 0;
    match info.form {
        Form::Value if ends => end_in(source, info.hash, payload),
        Form::Value => record_heard(own, source, payload),
        Form::Key if ends => end_in(source, info.hash, payload),
        Form::Nothing if ends => end_heard(source, None, info.hash),
        Form::Key | Form::Nothing | Form::Other => None,
    }
}
