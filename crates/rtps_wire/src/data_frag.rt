//! DATA_FRAG: fragments of a change (DDSI-RTPS 8.3.7.3, 9.4.5.4).

ghost use Rattle.std.specs.Prelude.{◌≡◌};
ghost use Rattle.std.specs.Option.{option_map};
ghost use Rattle.rtps_wire.specs.DataFrag.{data_frag_of, frag_form_of, frag_view};

use crate::data::{ChangeInfo, Form, qos_at};
use crate::fields::{get_entity, get_positive, get_rest};
use crate::kinds::{DATA_FRAG_KEY, DATA_FRAG_NON_STANDARD};
use rtps_types::{Endian, EntityId, get_u16, get_u32};

/// The fields of a DATA_FRAG (DDSI-RTPS 8.3.7.3, 9.4.5.4). Whether its sizes and fragments are
/// consistent isn't checked here.
#[derive(Clone, Copy, Debug)]
pub struct DataFrag<'a> {
    pub reader: EntityId,
    pub writer: EntityId,
    /// The number of the change, at least 1.
    pub number: u64,
    /// The number of the first fragment, at least 1; it may be greater than that of the change's
    /// last fragment.
    pub start: u32,
    /// The number of consecutive fragments; it may be 0.
    pub count: u16,
    /// The size in octets of each fragment but the last.
    pub size: u16,
    /// The size in octets of the complete payload.
    pub sample: u32,
    pub info: ChangeInfo,
    /// The octets after the inline QoS: those of the fragments; more octets may follow.
    pub payload: &'a [u8],
}

/// The least distance in octets between octetsToInlineQos and the inline QoS.
const LEAST_OFFSET: usize = 28;

/// Returns the fields of a DATA_FRAG with these flags, or `None` if the body is invalid.
#[tactic(auto, unfolding(crate::specs::DataFrag::data_frag_of))]
pub(crate) fn read_data_frag(flags: u8, endian: Endian, body: &[u8]) -> Option<DataFrag<'_>>
    ensures { option_map frag_view result ≡ data_frag_of flags endian body.now }
{
    let offset = usize::from(get_u16(body, 2, endian)?);
    let reader = get_entity(body, 4)?;
    let writer = get_entity(body, 8)?;
    let number = get_positive(body, 12, endian)?;
    let start = get_u32(body, 20, endian)?;
    let count = get_u16(body, 24, endian)?;
    let size = get_u16(body, 26, endian)?;
    let sample = get_u32(body, 28, endian)?;
    if start == 0 || offset < LEAST_OFFSET {
        return None;
    }
    let rest = get_rest(body, 4 + offset)?;
    let qos = qos_at(flags, endian, rest)?;
    let payload = get_rest(rest, qos.used)?;
    Some(DataFrag {
        reader,
        writer,
        number,
        start,
        count,
        size,
        sample,
        info: ChangeInfo {
            form: form_at(flags),
            status: qos.status,
            hash: qos.hash,
        },
        payload,
    })
}

/// Returns the form of the payload by the flags.
fn form_at(flags: u8) -> Form
    ensures { result ≡ frag_form_of flags }
{
    if flags & DATA_FRAG_NON_STANDARD != 0 {
        Form::Other
    } else if flags & DATA_FRAG_KEY != 0 {
        Form::Key
    } else {
        Form::Value
    }
}
