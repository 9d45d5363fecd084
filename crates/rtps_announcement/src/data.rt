//! DATA: a change of an announcer (DDSI-RTPS 8.3.7.2, 9.4.5.3).

ghost use Rattle.std.specs.Prelude.{◌≡◌, ◌+◌, ◌^◌, ◌<◌, [], ◌∷◌, ◌++◌, IfOk};
ghost use Rattle.rtps_types.specs.declared.field.Endian.TheVariants.{Little};
ghost use Rattle.rtps_types.specs.Field.{encoded};
ghost use Rattle.rtps_announcement.specs.Data.{change_octets, end_body, end_flags};
ghost use Rattle.rtps_announcement.specs.Datagram.{datagram, opened};

use crate::datagram::{Head, LITTLE, begin};
use crate::fields::push_sn;
use crate::parameters::{LIST_END, PL_CDR_LE, push_parameter};
use crate::values::guid_value;
use rtps_params::ids::{KEY_HASH, STATUS_INFO};
use rtps_types::{EntityId, GuidPrefix, Octets};
use rtps_wire::kinds::DATA;
use std::alloc::{AllocError, Allocator};

/// Flag Q: inline QoS follows.
const INLINE_QOS: u8 = 0x02;

/// Flag D: a value follows.
const VALUE: u8 = 0x04;

/// Flag K: a key follows.
const KEY: u8 = 0x08;

/// The flags of a change with a value, and with the end of what a key names.
pub(crate) const VALUE_FLAGS: u8 = LITTLE | VALUE;

const END_FLAGS: u8 = LITTLE | INLINE_QOS | KEY;

/// The octets of a body before inline QoS and payload.
const FRONT: u16 = 20;

/// The octets of inline QoS and payload where something ends.
const END_LENGTH: u16 = 60;

/// The status info of what is disposed and unregistered (DDSI-RTPS 9.6.4.9).
const DISPOSED_AND_UNREGISTERED: [u8; 4] = [0, 0, 0, 3];

/// A change of an announcer: from whom and to whom, of which writer, for which reader, with which
/// number.
#[derive(Clone, Copy)]
pub(crate) struct Change {
    pub own: GuidPrefix,
    pub to: Option<GuidPrefix>,
    pub reader: EntityId,
    pub writer: EntityId,
    pub number: u64,
}

/// Returns the octets of a datagram up to what follows the number of its change, which has this
/// length. An error is a refused growth.
pub(crate) fn begin_change<A: Allocator>(
    alloc: A,
    change: Change,
    flags: u8,
    length: u16,
) -> Result<Vec<u8, A>, AllocError>
    requires number { change.number < 2 ^ 63 }
    requires length { 20 + length < 2 ^ 16 }
    ensures { IfOk result (λ octets. octets.items
        ≡ opened change.own change.to ++ (0x15 ∷ flags ∷ []) ++ encoded Little 2 (20 + length)
        ++ change_octets change.reader change.writer change.number) }
{
    let head = Head {
        id: DATA,
        flags,
        length: FRONT + length,
    };
    let mut octets = begin(alloc, change.own, change.to, head)?;
    octets.extend_from_slice(&[0, 0, 16, 0])?;
    octets.extend_from_slice(&change.reader.0)?;
    octets.extend_from_slice(&change.writer.0)?;
    push_sn(&mut octets, change.number)?;
    Ok(octets)
}

/// Returns the datagram of a change by which what has this guid ends (DDSI-RTPS 8.5.3.3, 8.5.4.4).
/// `id` is the parameter with the guid. Some receivers read the key hash alone, and some the key,
/// so both are there. An error is a refused growth.
pub(crate) fn write_end<A: Allocator>(
    alloc: A,
    change: Change,
    id: u16,
    entity: EntityId,
) -> Result<Octets<A>, AllocError>
    requires { change.number < 2 ^ 63 }
    ensures { IfOk result (λ octets. octets ≡ datagram change.own change.to 0x15 end_flags
        (end_body change.reader change.writer change.number id change.own entity)) }
{
    let guid = guid_value(change.own, entity);
    let mut octets = begin_change(alloc, change, END_FLAGS, END_LENGTH)?;
    push_parameter(&mut octets, KEY_HASH, &guid)?;
    push_parameter(&mut octets, STATUS_INFO, &DISPOSED_AND_UNREGISTERED)?;
    octets.extend_from_slice(&LIST_END)?;
    octets.extend_from_slice(&PL_CDR_LE)?;
    push_parameter(&mut octets, id, &guid)?;
    octets.extend_from_slice(&LIST_END)?;
    Ok(Octets::new(octets))
}
