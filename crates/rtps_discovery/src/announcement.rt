//! Announcements of participants, writers and readers (DDSI-RTPS 8.5.3, 8.5.4).

ghost use Rattle.std.specs.Prelude.{◌≡◌, ◌<◌};
ghost use Rattle.std.specs.Option.{option_map};
ghost use Rattle.rtps_discovery.specs.Announcement as announcement;
ghost use Rattle.rtps_discovery.specs.Config as config;
ghost use Rattle.rtps_discovery.specs.Seen.{announcement_seen, facts_seen, offer_seen, said_seen};
ghost use Rattle.dds_qos.specs.Seen.{settings_seen};

use crate::announced_data::AnnouncedData;
use crate::faults::{is_reader, is_writer};
use dds_qos::{ListedLocators, Policies, Settings};
use rtps_cdr::Strings;
use rtps_types::{Duration, EntityId, Guid, GuidPrefix, KeyHash, get_octets};

/// The lease of a participant that announces none (DDSI-RTPS 8.5.3.2).
const DEFAULT_LEASE: Duration = Duration {
    seconds: 100,
    fraction: 0,
};

/// The bit of the announcer of writers in a builtin endpoint set (DDSI-RTPS 9.3.2.12).
const PUBLICATIONS_ANNOUNCER: u32 = 2;

/// The bit of the announcer of readers in a builtin endpoint set.
const SUBSCRIPTIONS_ANNOUNCER: u32 = 4;

/// What a participant announces of itself. Its locators are borrowed from the octets of its record.
#[derive(Drop)]
pub(crate) struct Facts<'a> {
    /// The locators of its announcers.
    pub(crate) metatraffic: ListedLocators<'a>,
    /// The default locators: those of its endpoints that announce no locators of their own.
    pub(crate) locators: ListedLocators<'a>,
    pub(crate) lease: Duration,
    pub(crate) announces_writers: bool,
    pub(crate) announces_readers: bool,
}

/// What a writer offers, or a reader requests. Its texts and locators are borrowed from the octets
/// of its record.
#[derive(Drop)]
pub(crate) struct Offer<'a> {
    pub(crate) topic: &'a str,
    pub(crate) type_name: &'a str,
    pub(crate) policies: Policies,
    pub(crate) partitions: Option<Strings<'a>>,
    /// Its own locators.
    pub(crate) locators: ListedLocators<'a>,
}

/// The content of one change of an announcer.
#[derive(Drop)]
pub(crate) enum Announcement<'a> {
    /// A participant is announced, for the first time or again.
    Comes(GuidPrefix, Facts<'a>),
    /// A participant leaves.
    Leaves(GuidPrefix),
    /// A writer is announced, for the first time or again.
    Offers(Guid, Offer<'a>),
    /// A writer is removed.
    Withdraws(Guid),
    /// A reader is announced, for the first time or again.
    Asks(Guid),
    /// A reader is removed.
    AsksNoMore(Guid),
}

/// Whether a builtin endpoint set has a bit. A participant without a set has all endpoints.
fn has_bit(bit: u32, set: Option<u32>) -> bool
    requires { bit < 32 }
    ensures { result ≡ announcement.has_bit bit set }
{
    match set {
        Some(set) => (set >> bit) % 2 == 1,
        None => true,
    }
}

/// Returns what the record of a participant says of it.
fn facts_of(settings: Settings<'_>) -> Facts<'_>
    ensures { facts_seen result ≡ announcement.facts_of (settings_seen settings.entry) }
{
    Facts {
        metatraffic: settings.metatraffic_unicast,
        locators: settings.default_unicast,
        lease: settings.lease.unwrap_or(DEFAULT_LEASE),
        announces_writers: has_bit(PUBLICATIONS_ANNOUNCER, settings.builtin_endpoints),
        announces_readers: has_bit(SUBSCRIPTIONS_ANNOUNCER, settings.builtin_endpoints),
    }
}

/// Returns what the record of an endpoint offers or requests; `None` without a topic or a type.
fn offer_of(settings: Settings<'_>) -> Option<Offer<'_>>
    ensures { option_map offer_seen result ≡ announcement.offer_of (settings_seen settings.entry) }
{
    let topic = settings.topic?;
    let type_name = settings.type_name?;
    Some(Offer {
        topic,
        type_name,
        policies: settings.policies,
        partitions: settings.partitions,
        locators: settings.unicast,
    })
}

/// Returns the guid that the record names, else the one in the key hash of the change.
fn or_hash(named: Option<Guid>, hash: Option<KeyHash>) -> Option<Guid>
    ensures { result ≡ announcement.or_hash named hash }
{
    if named.is_some() {
        return named;
    }
    let hash = hash?;
    Some(Guid {
        prefix: GuidPrefix(get_octets(&hash.0, 0)?),
        entity: EntityId(get_octets(&hash.0, 12)?),
    })
}

/// Returns the participant that the record names, else the sender.
fn prefix_of(source: GuidPrefix, named: Option<Guid>) -> GuidPrefix
    ensures { result ≡ announcement.prefix_of source named }
{
    match named {
        Some(guid) => guid.prefix,
        None => source,
    }
}

/// Returns the announcement of a change from the participants' announcer (DDSI-RTPS 8.5.3). `None`
/// if it names a participant other than its sender, or our own participant, `own`.
pub(crate) fn participant_said<'a>(
    own: GuidPrefix,
    source: GuidPrefix,
    hash: Option<KeyHash>,
    said: AnnouncedData<'a>,
) -> Option<Announcement<'a>>
    ensures { option_map announcement_seen result
        ≡ announcement.participant_said own source hash (said_seen said.entry) }
{
    match said {
        AnnouncedData::Announces(settings) => {
            let prefix = prefix_of(source, settings.participant);
            let speaks_for_itself = prefix == source && source != own;
            if !speaks_for_itself {
                return None;
            }
            Some(Announcement::Comes(source, facts_of(settings)))
        }
        AnnouncedData::Ends(named) => {
            let prefix = prefix_of(source, or_hash(named, hash));
            (prefix == source).then_some(Announcement::Leaves(source))
        }
    }
}

/// Returns the writer that is named, if it belongs to the sender and is of a user-defined kind.
fn writer_of(source: GuidPrefix, named: Option<Guid>) -> Option<Guid>
    ensures { result ≡ announcement.endpoint_of source config.is_writer named }
{
    let guid = named?;
    (guid.prefix == source && is_writer(guid.entity)).then_some(guid)
}

/// Like [`writer_of`], for a reader.
fn reader_of(source: GuidPrefix, named: Option<Guid>) -> Option<Guid>
    ensures { result ≡ announcement.endpoint_of source config.is_reader named }
{
    let guid = named?;
    (guid.prefix == source && is_reader(guid.entity)).then_some(guid)
}

/// Returns the announcement of a change from the writers' announcer (DDSI-RTPS 8.5.4): of a writer
/// of the sender, which its record names, else the key hash. `None` for a record without topic or
/// type.
pub(crate) fn writer_said<'a>(
    source: GuidPrefix,
    hash: Option<KeyHash>,
    said: AnnouncedData<'a>,
) -> Option<Announcement<'a>>
    ensures { option_map announcement_seen result
        ≡ announcement.writer_said source hash (said_seen said.entry) }
{
    match said {
        AnnouncedData::Announces(settings) => {
            let writer = writer_of(source, or_hash(settings.endpoint, hash))?;
            let offer = offer_of(settings)?;
            Some(Announcement::Offers(writer, offer))
        }
        AnnouncedData::Ends(named) => {
            let writer = writer_of(source, or_hash(named, hash))?;
            Some(Announcement::Withdraws(writer))
        }
    }
}

/// Like [`writer_said`], for a change from the readers' announcer (DDSI-RTPS 8.5.4).
pub(crate) fn reader_said<'a>(
    source: GuidPrefix,
    hash: Option<KeyHash>,
    said: AnnouncedData<'a>,
) -> Option<Announcement<'a>>
    ensures { option_map announcement_seen result
        ≡ announcement.reader_said source hash (said_seen said.entry) }
{
    match said {
        AnnouncedData::Announces(settings) => {
            let reader = reader_of(source, or_hash(settings.endpoint, hash))?;
            let _asked = offer_of(settings)?;
            Some(Announcement::Asks(reader))
        }
        AnnouncedData::Ends(named) => {
            let reader = reader_of(source, or_hash(named, hash))?;
            Some(Announcement::AsksNoMore(reader))
        }
    }
}
