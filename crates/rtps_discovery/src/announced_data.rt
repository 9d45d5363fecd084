//! Decoding the changes of announcers (DDSI-RTPS 8.5.3, 8.5.4).

ghost use Rattle.std.specs.Prelude.{◌≡◌};
ghost use Rattle.std.specs.Option.{option_map};
ghost use Rattle.rtps_discovery.specs.AnnouncedData as said;
ghost use Rattle.rtps_discovery.specs.Seen.{said_seen};

use dds_qos::{Settings, guid_named};
use rtps_params::ParamList;
use rtps_types::{Endian, Guid, get_u16};
use rtps_wire::{ChangeInfo, Form};

/// `PL_CDR_BE`: a parameter list in big-endian order (DDSI-RTPS 10.2.1.2).
const PL_CDR_BE: u16 = 0x0002;

/// `PL_CDR_LE`: a parameter list in little-endian order.
const PL_CDR_LE: u16 = 0x0003;

/// The decoded data of a change: a record, or the end of what it names.
#[derive(Drop)]
pub(crate) enum AnnouncedData<'a> {
    Announces(Settings<'a>),
    /// The end of a participant or an endpoint, with its guid if the payload has it.
    Ends(Option<Guid>),
}

/// Returns the parameter list of a payload. It follows an encapsulation header of four octets: two
/// for the kind, and two for options, which are ignored. `None` if the kind is not a parameter
/// list, or the list is malformed.
fn list_in(payload: &[u8]) -> Option<ParamList<'_>>
    ensures { result ≡ said.list_in payload.now }
{
    let _options = get_u16(payload, 2, Endian::Big)?;
    let endian = match get_u16(payload, 0, Endian::Big)? {
        PL_CDR_BE => Endian::Big,
        PL_CDR_LE => Endian::Little,
        _ => return None,
    };
    ParamList::new(&payload[4..], endian).ok()
}

/// Decodes a payload as a record; `None` if it is not one, or is malformed.
fn record_in(payload: &[u8]) -> Option<AnnouncedData<'_>>
    ensures { option_map said_seen result ≡ said.record_in payload.now }
{
    let list = list_in(payload)?;
    match Settings::read(&list) {
        Ok(settings) => Some(AnnouncedData::Announces(settings)),
        Err(_) => None,
    }
}

/// Decodes a payload as an end, whose guid is the parameter `id`; `None` if the payload is not a
/// parameter list, or the guid is too short.
fn end_in(id: u16, payload: &[u8]) -> Option<AnnouncedData<'_>>
    ensures { option_map said_seen result ≡ said.end_in id payload.now }
{
    let list = list_in(payload)?;
    match guid_named(&list, id) {
        Ok(guid) => Some(AnnouncedData::Ends(guid)),
        Err(_) => None,
    }
}

/// Whether a status marks an end: disposed, unregistered, or both. Other bits are ignored.
fn is_end(status: u8) -> bool
    ensures { result ≡ said.is_end status }
{
    status % 4 != 0
}

/// Decodes a change of an announcer; `None` if it says nothing. `id` is the parameter with the guid
/// of what ends.
#[tactic(auto, unfolding(crate::specs::AnnouncedData::said_in))]
pub(crate) fn said_in(id: u16, info: ChangeInfo, payload: &[u8]) -> Option<AnnouncedData<'_>>
    ensures { option_map said_seen result ≡ said.said_in id info payload.now }
{
    let ends = is_end(info.status);
    match info.form {
        Form::Value if ends => end_in(id, payload),
        Form::Value => record_in(payload),
        Form::Key if ends => end_in(id, payload),
        Form::Nothing if ends => Some(AnnouncedData::Ends(None)),
        Form::Key | Form::Nothing | Form::Other => None,
    }
}
