//! The common part of what is sent: each datagram has a header, INFO_DST where it is for one
//! participant, and one other submessage (DDSI-RTPS 8.3.3, 8.3.7.7). Memory is reserved once, for
//! all of its octets.

ghost use Rattle.std.specs.Prelude.{◌≡◌, [], ◌∷◌, ◌++◌, IfOk, OnOk};
ghost use Rattle.rtps_types.specs.declared.field.Endian.TheVariants.{Little};
ghost use Rattle.rtps_types.specs.Field.{encoded};
ghost use Rattle.rtps_announcement.specs.Datagram.{destination, opened};

use crate::fields::push_u16;
use rtps_types::GuidPrefix;
use rtps_wire::kinds::INFO_DST;
use std::alloc::{AllocError, Allocator};

/// Flag E of each kind: numbers are little-endian (DDSI-RTPS 9.4.5.1.2).
pub(crate) const LITTLE: u8 = 0x01;

/// The most octets before the body of the submessage.
const FRONT: usize = 40;

/// The header of a submessage (DDSI-RTPS 8.3.3.3): its kind, its flags, and the octets of its body.
pub(crate) struct Head {
    pub id: u8,
    pub flags: u8,
    pub length: u16,
}

/// Returns the octets of a datagram up to the header of its submessage. An error is a refused
/// growth.
pub(crate) fn begin<A: Allocator>(
    alloc: A,
    own: GuidPrefix,
    to: Option<GuidPrefix>,
    head: Head,
) -> Result<Vec<u8, A>, AllocError>
    ensures { IfOk result (λ octets. octets.items
        ≡ opened own to ++ (head.id ∷ head.flags ∷ []) ++ encoded Little 2 head.length) }
{
    let Head { id, flags, length } = head;
    let mut octets = Vec::with_capacity(alloc, FRONT + usize::from(length))?;
    octets.extend_from_slice(b"RTPS\x02\x05\x00\x00")?;
    octets.extend_from_slice(&own.0)?;
    push_destination(&mut octets, to)?;
    octets.extend_from_slice(&[id, flags])?;
    push_u16(&mut octets, length)?;
    Ok(octets)
}

/// Appends INFO_DST where a datagram is for one participant.
fn push_destination<A: Allocator>(
    octets: &mut Vec<u8, A>,
    to: Option<GuidPrefix>,
) -> Result<(), AllocError>
    ensures { OnOk result (octets.new.items ≡ octets.old.items ++ destination to) }
{
    if let Some(to) = to {
        octets.extend_from_slice(&[INFO_DST, LITTLE, 12, 0])?;
        octets.extend_from_slice(&to.0)?;
    }
    Ok(())
}
