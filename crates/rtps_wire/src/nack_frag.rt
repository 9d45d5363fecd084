//! NACK_FRAG: the fragments of a change that a reader misses (DDSI-RTPS 8.3.7.11, 9.4.5.13).

ghost use Rattle.std.specs.Prelude.{◌≡◌, None, IfOk};
ghost use Rattle.rtps_wire.specs.Answering.{answer_items, our_header};
ghost use Rattle.rtps_wire.specs.NackFrag.{TellsNackFrag, nack_frag_octets};
ghost use Rattle.rtps_wire.specs.OneReading.{IsOnly};

use crate::answering::{Head, begin, push_octets, push_sn, push_u32, push_words};
use crate::kinds::{LITTLE, NACK_FRAG};
use rtps_types::{FragSet, Guid, Number, Octets};
use std::alloc::{AllocError, Allocator};

/// The contents of a NACK_FRAG (DDSI-RTPS 8.3.7.11).
#[derive(Clone, Copy, Debug)]
pub struct NackFrag {
    /// The reader that answers.
    pub reader: Guid,
    /// The writer that is answered.
    pub writer: Guid,
    /// The number of the change.
    pub number: Number,
    /// The missing fragments.
    pub missing: FragSet,
    /// Rises from one NACK_FRAG to the next.
    pub count: u32,
}

/// Returns the datagram with which a reader asks a writer for fragments (DDSI-RTPS 8.3.7.11,
/// 9.4.5.13): header, INFO_DST and NACK_FRAG, all little-endian. An error is a refused growth.
pub fn write_nack_frag<A: Allocator>(alloc: A, answer: NackFrag) -> Result<Octets<A>, AllocError>
    ensures octets { IfOk result (λ octets. octets ≡ nack_frag_octets answer) }
    ensures message { IfOk result (λ octets. IsOnly octets
        (our_header answer.reader.prefix)
        (answer_items answer.writer.prefix 0x12 1)
        None) }
    ensures read_again { IfOk result (λ octets. TellsNackFrag answer octets) }
{
    let NackFrag {
        reader,
        writer,
        number,
        missing,
        count,
    } = answer;
    let words = missing.bits.div_ceil(32) as usize;
    let head = Head {
        id: NACK_FRAG,
        flags: LITTLE,
        length: (28 + 4 * words) as u16,
    };
    let mut octets = begin(alloc, reader.prefix, writer.prefix, head)?;
    push_octets(&mut octets, &reader.entity.0);
    push_octets(&mut octets, &writer.entity.0);
    push_sn(&mut octets, number.get());
    push_u32(&mut octets, missing.base);
    push_u32(&mut octets, missing.bits);
    push_words(&mut octets, &missing.words[..words]);
    push_u32(&mut octets, count);
    Ok(Octets::new(octets))
}
