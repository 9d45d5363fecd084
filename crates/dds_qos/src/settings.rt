//! Decoding the parameters of a discovery record.

ghost use Rattle.std.specs.Prelude.{◌≡◌, [], ◌∷◌, is_some, IfSome};
ghost use Rattle.rtps_params.specs.Reading.{view};
ghost use Rattle.dds_qos.specs.Seen.{settings_seen, named, said};
ghost use Rattle.dds_qos.specs.Settings as settings;
ghost use Rattle.dds_qos.specs.Settings.{is_sound, settings_after, settings_of, unsaid};

use crate::kinds::{durability_of, order_of, ownership_of};
use crate::records::defaults;
use crate::values::{
    duration_in, guid_in, liveliness_in, locator_in, presentation_in, reliability_in,
};
use crate::{ListedLocators, Malformed, Policies, Reliability};
use rtps_cdr::{CdrReader, Strings};
use rtps_params::ids::{
    BUILTIN_ENDPOINT_SET, DEADLINE, DEFAULT_UNICAST_LOCATOR, DESTINATION_ORDER, DURABILITY,
    ENDPOINT_GUID, KEY_HASH, LATENCY_BUDGET, LIVELINESS, METATRAFFIC_UNICAST_LOCATOR, OWNERSHIP,
    PARTICIPANT_GUID, PARTICIPANT_LEASE_DURATION, PARTITION, PRESENTATION, RELIABILITY,
    STATUS_INFO, TOPIC_NAME, TYPE_NAME, UNICAST_LOCATOR,
};
use rtps_params::{Param, ParamList};
use rtps_types::{Duration, Endian, Guid};

/// The contents of a discovery record (DDSI-RTPS 8.5.3, 8.5.4, 9.6.3). If a parameter is repeated,
/// its last value counts; locators are all listed. Texts and locators are borrowed from the octets
/// of the record, so that only what is kept of a record is copied.
#[derive(Drop)]
pub struct Settings<'a> {
    /// The lease of the participant: how long it may keep silent.
    pub lease: Option<Duration>,
    pub topic: Option<&'a str>,
    pub type_name: Option<&'a str>,
    /// The policies. One that isn't given has the default of a writer.
    pub policies: Policies,
    /// The partitions; `None` stands for the partition with the empty name.
    pub partitions: Option<Strings<'a>>,
    /// The locators of the endpoint.
    pub unicast: ListedLocators<'a>,
    /// The default locators of the participant: for endpoints without locators of their own.
    pub default_unicast: ListedLocators<'a>,
    /// The locators of the participant's announcers.
    pub metatraffic_unicast: ListedLocators<'a>,
    pub participant: Option<Guid>,
    pub endpoint: Option<Guid>,
    /// A bit for each builtin endpoint that the participant has.
    pub builtin_endpoints: Option<u32>,
}

/// Returns the guid in the last parameter with this id, which is `PID_PARTICIPANT_GUID` or
/// `PID_ENDPOINT_GUID`; `None` if there is no such parameter. `Malformed` if one of them has fewer
/// than sixteen octets. The other parameters are not checked, since what ends is named by its guid
/// alone (DDSI-RTPS 8.5.3.3, 8.5.4.4).
pub fn guid_named(list: &ParamList<'_>, id: u16) -> Result<Option<Guid>, Malformed>
    ensures { named result ≡ settings.guid_named id list.now }
{
    let endian = list.endian();
    let mut named = None;
    for param in list.iter() {
        if param.id == id {
            match guid_in(CdrReader::new(param.value, endian)) {
                Some(guid) => named = Some(guid),
                None => return Err(Malformed),
            }
        }
    }
    Ok(named)
}

impl<'a> Settings<'a> {
    /// Decodes a record (DDSI-RTPS 8.5.3, 8.5.4). Every parameter with a known id is checked, even
    /// if it isn't used or is repeated later; parameters with other ids are ignored. No memory is
    /// taken.
    #[tactic(auto, unfolding(crate::specs::Settings::settings_of))]
    pub fn read(list: &ParamList<'a>) -> Result<Settings<'a>, Malformed>
        ensures { said result ≡ settings_of list.now }
    {
        let endian = list.endian();
        let mut settings = Settings::unsaid(list);
        for param in list.iter() {
            settings.take(param, endian).ok_or(Malformed)?;
        }
        Ok(settings)
    }

    /// Returns the settings of a record that has nothing but these locators.
    fn unsaid(list: &ParamList<'a>) -> Settings<'a>
        ensures { settings_seen result ≡ unsaid list.now.endian list.now.parameters }
    {
        Settings {
            lease: None,
            topic: None,
            type_name: None,
            policies: defaults(Reliability::Reliable),
            partitions: None,
            unicast: ListedLocators::new(list, UNICAST_LOCATOR),
            default_unicast: ListedLocators::new(list, DEFAULT_UNICAST_LOCATOR),
            metatraffic_unicast: ListedLocators::new(list, METATRAFFIC_UNICAST_LOCATOR),
            participant: None,
            endpoint: None,
            builtin_endpoints: None,
        }
    }

    /// Applies one more parameter; `None` if it is malformed.
    #[tactic(auto, unfolding(crate::specs::Settings::is_sound_by))]
    fn take(&mut self, param: Param<'a>, endian: Endian) -> Option<()>
        ensures sound { is_some result ≡ is_sound endian (view param.entry) }
        ensures said { IfSome result (λ unit. settings_seen self.new
            ≡ settings_after endian (view param.entry ∷ []) (settings_seen self.old)) }
    {
        let mut value = CdrReader::new(param.value, endian);
        match param.id {
            PARTICIPANT_LEASE_DURATION => self.lease = Some(duration_in(value)?),
            TOPIC_NAME => self.topic = Some(value.read_string().ok()?),
            TYPE_NAME => self.type_name = Some(value.read_string().ok()?),
            RELIABILITY => self.policies.reliability = reliability_in(value)?,
            LIVELINESS => self.policies.liveliness = liveliness_in(value)?,
            DURABILITY => self.policies.durability = durability_of(value.read_u32().ok()?)?,
            OWNERSHIP => self.policies.ownership = ownership_of(value.read_u32().ok()?)?,
            PRESENTATION => self.policies.presentation = presentation_in(value)?,
            DEADLINE => self.policies.deadline = duration_in(value)?,
            DESTINATION_ORDER => self.policies.destination_order = order_of(
                value.read_u32().ok()?,
            )?,
            LATENCY_BUDGET => self.policies.latency_budget = duration_in(value)?,
            PARTITION => self.partitions = Some(value.read_strings().ok()?),
            PARTICIPANT_GUID => self.participant = Some(guid_in(value)?),
            BUILTIN_ENDPOINT_SET => self.builtin_endpoints = Some(value.read_u32().ok()?),
            ENDPOINT_GUID => self.endpoint = Some(guid_in(value)?),
            // Locators, which are listed separately, and parameters without a use are checked too.
            UNICAST_LOCATOR | DEFAULT_UNICAST_LOCATOR | METATRAFFIC_UNICAST_LOCATOR => {
                let _locator = locator_in(value)?;
            }
            KEY_HASH => {
                let _hash = value.read_octets(16).ok()?;
            }
            STATUS_INFO => {
                let _status = value.read_octets(4).ok()?;
            }
            _ => {}
        }
        Some(())
    }
}
