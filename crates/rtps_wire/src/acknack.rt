//! ACKNACK: the changes that a reader has and misses (DDSI-RTPS 8.3.7.1, 9.4.5.2).

ghost use Rattle.std.specs.Prelude.{◌≡◌, None, IfOk};
ghost use Rattle.rtps_types.specs.Sets.{sn_view};
ghost use Rattle.rtps_wire.specs.AckNack.{TellsAckNack, acknack_flags, acknack_octets};
ghost use Rattle.rtps_wire.specs.Answering.{answer_items, our_header};
ghost use Rattle.rtps_wire.specs.OneReading.{IsOnly};

use crate::answering::{Head, begin, push_octets, push_sn, push_u32, push_words};
use crate::kinds::{ACKNACK, ACKNACK_FINAL, LITTLE};
use rtps_types::{Guid, Octets, SnSet};
use std::alloc::{AllocError, Allocator};

/// The contents of an ACKNACK (DDSI-RTPS 8.3.7.1).
#[derive(Clone, Copy, Debug)]
pub struct AckNack {
    /// The reader that answers.
    pub reader: Guid,
    /// The writer that is answered.
    pub writer: Guid,
    /// The missing changes. No change below the base is missing, and with a bit count of 0 none is
    /// missing at all.
    pub missing: SnSet,
    /// Rises from one ACKNACK to the next.
    pub count: u32,
}

/// Returns the datagram with which a reader answers a writer's HEARTBEAT (DDSI-RTPS 8.3.7.1,
/// 9.4.5.2): header, INFO_DST and ACKNACK, all little-endian. Flag F is set if `missing` has a bit
/// count of 0. An error is a refused growth.
pub fn write_acknack<A: Allocator>(alloc: A, answer: AckNack) -> Result<Octets<A>, AllocError>
    ensures octets { IfOk result (λ octets. octets ≡ acknack_octets answer) }
    ensures message { IfOk result (λ octets. IsOnly octets
        (our_header answer.reader.prefix)
        (answer_items answer.writer.prefix 0x06 (acknack_flags (sn_view answer.missing)))
        None) }
    ensures read_again { IfOk result (λ octets. TellsAckNack answer octets) }
{
    let AckNack {
        reader,
        writer,
        missing,
        count,
    } = answer;
    let words = missing.bits.div_ceil(32) as usize;
    let head = Head {
        id: ACKNACK,
        flags: flags_of(&missing),
        length: (24 + 4 * words) as u16,
    };
    let mut octets = begin(alloc, reader.prefix, writer.prefix, head)?;
    push_octets(&mut octets, &reader.entity.0);
    push_octets(&mut octets, &writer.entity.0);
    push_sn(&mut octets, missing.base);
    push_u32(&mut octets, missing.bits);
    push_words(&mut octets, &missing.words[..words]);
    push_u32(&mut octets, count);
    Ok(Octets::new(octets))
}

/// Returns the flags. Flag F is set if the set has a bit count of 0: nothing is missing, and the
/// reader asks for no answer.
fn flags_of(missing: &SnSet) -> u8
    ensures { result ≡ acknack_flags (sn_view missing.now) }
{
    if missing.bits == 0 {
        LITTLE | ACKNACK_FINAL
    } else {
        LITTLE
    }
}
