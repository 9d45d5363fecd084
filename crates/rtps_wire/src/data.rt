//! DATA: a change in one piece (DDSI-RTPS 8.3.7.2, 9.4.5.3).

ghost use Rattle.std.specs.Prelude.{◌≡◌};
ghost use Rattle.std.specs.Option.{option_map};
ghost use Rattle.rtps_wire.specs.Data.{data_of, data_view, form_of, qos_of};

use crate::fields::{get_entity, get_positive, get_rest};
use crate::inline_qos::{InlineQos, read_inline_qos};
use crate::kinds::{DATA_KEY, DATA_NON_STANDARD, DATA_VALUE, INLINE_QOS};
use rtps_types::{Endian, EntityId, KeyHash, get_u16};

/// The form of a change's payload, by the flags D, K and N of its DATA (DDSI-RTPS 9.4.5.3).
#[derive(Clone, Copy, Debug, PartialEq, Eq)]
pub enum Form {
    /// A serialized value.
    Value,
    /// A serialized key.
    Key,
    /// A payload in no form of the standard: flag N is set, which counts more than D and K. It is
    /// never decoded.
    Other,
    /// No payload.
    Nothing,
}

/// The properties of a change besides its number and its payload: the form, and what the inline QoS
/// says about the instance (DDSI-RTPS 9.6.4.8, 9.6.4.9).
#[derive(Clone, Copy, Debug, PartialEq, Eq)]
pub struct ChangeInfo {
    pub form: Form,
    /// The last octet of the status info in the inline QoS; 0 if there is none.
    pub status: u8,
    /// The key hash in the inline QoS.
    pub hash: Option<KeyHash>,
}

impl ChangeInfo {
    ghost use Rattle.rtps_wire.specs.StatusNames.{status_name};

    /// Returns the name of the instance's state, by the status bits for disposed and unregistered
    /// (DDSI-RTPS 9.6.4.9): `alive` if neither is set. Other bits are ignored. No memory is taken.
    pub fn status_name(&self) -> &'static str
        ensures { result.now ≡ status_name self.now.status }
    {
        match self.status % 4 {
            0 => "alive",
            1 => "disposed",
            2 => "unregistered",
            _ => "disposed and unregistered",
        }
    }
}

/// The fields of a DATA (DDSI-RTPS 8.3.7.2, 9.4.5.3).
#[derive(Clone, Copy, Debug)]
pub struct Data<'a> {
    pub reader: EntityId,
    pub writer: EntityId,
    /// The number of the change, at least 1.
    pub number: u64,
    pub info: ChangeInfo,
    /// The octets after the inline QoS, encapsulation header first; empty if the flags announce no
    /// payload.
    pub payload: &'a [u8],
}

/// The least distance in octets between octetsToInlineQos and the inline QoS.
const LEAST_OFFSET: usize = 16;

/// Returns the fields of a DATA with these flags, or `None` if the body is invalid. It is inlined, so
/// that they are put straight into what the caller makes of them.
#[inline(always)]
#[tactic(auto, unfolding(crate::specs::Data::data_of))]
pub(crate) fn read_data(flags: u8, endian: Endian, body: &[u8]) -> Option<Data<'_>>
    ensures { option_map data_view result ≡ data_of flags endian body.now }
{
    let offset = usize::from(get_u16(body, 2, endian)?);
    let reader = get_entity(body, 4)?;
    let writer = get_entity(body, 8)?;
    let number = get_positive(body, 12, endian)?;
    if offset < LEAST_OFFSET {
        return None;
    }
    let rest = get_rest(body, 4 + offset)?;
    let qos = qos_at(flags, endian, rest)?;
    let form = form_at(flags)?;
    let payload = if flags & (DATA_VALUE | DATA_KEY) == 0 {
        &[]
    } else {
        get_rest(rest, qos.used)?
    };
    Some(Data {
        reader,
        writer,
        number,
        info: ChangeInfo {
            form,
            status: qos.status,
            hash: qos.hash,
        },
        payload,
    })
}

/// Returns the inline QoS, which is present if the flags say so.
pub(crate) fn qos_at(flags: u8, endian: Endian, rest: &[u8]) -> Option<InlineQos>
    ensures { result ≡ qos_of flags endian rest.now }
{
    if flags & INLINE_QOS != 0 {
        return read_inline_qos(rest, endian);
    }
    Some(InlineQos {
        hash: None,
        status: 0,
        used: 0,
    })
}

/// Returns the form of the payload by the flags; value and key at once are invalid.
fn form_at(flags: u8) -> Option<Form>
    ensures { result ≡ form_of flags }
{
    match (flags & DATA_VALUE != 0, flags & DATA_KEY != 0) {
        (true, true) => None,
        _ if flags & DATA_NON_STANDARD != 0 => Some(Form::Other),
        (true, false) => Some(Form::Value),
        (false, true) => Some(Form::Key),
        (false, false) => Some(Form::Nothing),
    }
}
