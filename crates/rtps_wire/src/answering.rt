//! The common part of the answers to a writer: each is a message of this participant with INFO_DST
//! and one other submessage, all little-endian. Memory is reserved once, for all of its octets.

ghost use Rattle.std.specs.Prelude.{◌≡◌, ℕ, pos, ◌+◌, ◌*◌, ◌^◌, ◌<◌, ◌≤◌, List, [], ◌∷◌, ◌++◌, length, IfOk, vec_len, vec_capacity};
ghost use Rattle.rtps_types.specs.Field.{encoded, encoded_sn};
ghost use Rattle.rtps_wire.specs.Answering.{opened, encoded_words};
ghost use Rattle.rtps_wire.specs.NumberSet.{words_in};

use crate::kinds::{INFO_DST, LITTLE};
use rtps_types::{Endian, GuidPrefix, put_sn, put_u16, put_u32};
use std::alloc::{AllocError, Allocator};

/// The number of octets before the body of the submessage.
const FRONT: usize = 40;

/// The header of a submessage (DDSI-RTPS 8.3.3.3): its kind, its flags, and the octets of its body.
pub(crate) struct Head {
    pub id: u8,
    pub flags: u8,
    pub length: u16,
}

/// Returns the octets of an answer up to the header of its submessage, with capacity for its body.
pub(crate) fn begin<A: Allocator>(
    alloc: A,
    own: GuidPrefix,
    to: GuidPrefix,
    head: Head,
) -> Result<Vec<u8, A>, AllocError>
    ensures items { IfOk result (λ octets. octets.items
        ≡ opened own to ++ (head.id ∷ head.flags ∷ []) ++ encoded Endian.Little 2 head.length) }
    ensures room { IfOk result (λ octets. vec_len octets + head.length ≤ vec_capacity octets) }
{
    let Head { id, flags, length } = head;
    let mut octets = Vec::with_capacity(alloc, FRONT + usize::from(length))?;
    push_octets(&mut octets, b"RTPS\x02\x05\x00\x00");
    push_octets(&mut octets, &own.0);
    push_octets(&mut octets, &[INFO_DST, LITTLE, 12, 0]);
    push_octets(&mut octets, &to.0);
    push_octets(&mut octets, &[id, flags]);
    push_u16(&mut octets, length);
    Ok(octets)
}

/// Appends octets; the capacity has to be there.
pub(crate) fn push_octets<A: Allocator>(octets: &mut Vec<u8, A>, more: &[u8])
    requires room { vec_len octets.old + length more.now ≤ vec_capacity octets.old }
    ensures items { octets.new.items ≡ octets.old.items ++ more.now }
    ensures len { vec_len octets.new ≡ vec_len octets.old + length more.now }
    ensures capacity { vec_capacity octets.old ≤ vec_capacity octets.new }
{
    octets.extend_from_slice(more).unwrap();
}

/// Appends a 16-bit number; the capacity has to be there.
pub(crate) fn push_u16<A: Allocator>(octets: &mut Vec<u8, A>, value: u16)
    requires room { vec_len octets.old + 2 ≤ vec_capacity octets.old }
    ensures items { octets.new.items ≡ octets.old.items ++ encoded Endian.Little 2 value }
    ensures len { vec_len octets.new ≡ vec_len octets.old + 2 }
    ensures capacity { vec_capacity octets.old ≤ vec_capacity octets.new }
{
    let mut field = [0; 2];
    put_u16(&mut field, 0, Endian::Little, value);
    push_octets(octets, &field);
}

/// Appends a 32-bit number; the capacity has to be there.
pub(crate) fn push_u32<A: Allocator>(octets: &mut Vec<u8, A>, value: u32)
    requires room { vec_len octets.old + 4 ≤ vec_capacity octets.old }
    ensures items { octets.new.items ≡ octets.old.items ++ encoded Endian.Little 4 value }
    ensures len { vec_len octets.new ≡ vec_len octets.old + 4 }
    ensures capacity { vec_capacity octets.old ≤ vec_capacity octets.new }
{
    let mut field = [0; 4];
    put_u32(&mut field, 0, Endian::Little, value);
    push_octets(octets, &field);
}

/// Appends a sequence number; the capacity has to be there.
pub(crate) fn push_sn<A: Allocator>(octets: &mut Vec<u8, A>, value: u64)
    requires number { value < 2 ^ 63 }
    requires room { vec_len octets.old + 8 ≤ vec_capacity octets.old }
    ensures items { octets.new.items ≡ octets.old.items ++ encoded_sn Endian.Little (pos value) }
    ensures len { vec_len octets.new ≡ vec_len octets.old + 8 }
    ensures capacity { vec_capacity octets.old ≤ vec_capacity octets.new }
{
    let mut field = [0; 8];
    put_sn(&mut field, 0, Endian::Little, value.cast_signed());
    push_octets(octets, &field);
}

/// Appends the words of a set; the capacity has to be there.
pub(crate) fn push_words<A: Allocator>(octets: &mut Vec<u8, A>, words: &[u32])
    requires room { vec_len octets.old + 4 * length words.now ≤ vec_capacity octets.old }
    ensures items { octets.new.items ≡ octets.old.items ++ encoded_words words.now }
    ensures read_again { (rest : List ℕ) →
        words_in Endian.Little (length words.now) (encoded_words words.now ++ rest) ≡ words.now }
    ensures len { vec_len octets.new ≡ vec_len octets.old + 4 * length words.now }
    ensures capacity { vec_capacity octets.old ≤ vec_capacity octets.new }
{
    for word in words {
        push_u32(octets, *word);
    }
}
