//! Reading ACKNACKs (DDSI-RTPS 8.3.7.1, 9.4.2.6, 9.4.5.2).

ghost use Rattle.std.specs.Prelude.{◌≡◌, ◌≤◌, length};
ghost use Rattle.std.specs.Option.{option_map};
ghost use Rattle.rtps_types.specs.Sets.{sn_view};
ghost use Rattle.rtps_wire.specs.Fields.{endian_of, entity_at};
ghost use Rattle.rtps_wire.specs.NumberSet.{words_at};
ghost use Rattle.rtps_announcer.specs.Acknack as heard;

use crate::ack::Ack;
use crate::hearing::Hearing;
use rtps_discovery::ENTITYID_SEDP_BUILTIN_SUBSCRIPTIONS_ANNOUNCER;
use rtps_types::{Endian, EntityId, GuidPrefix, SnSet, get_octets, get_sn, get_u32};

/// A participant's reader of readers (DDSI-RTPS 9.3.1.3).
const SUBSCRIPTIONS_DETECTOR: EntityId = EntityId([0x00, 0x00, 0x04, 0xc7]);

/// The most bits of a set (DDSI-RTPS 9.4.2.6).
const MAX_BITS: u32 = 256;

/// Flag E: numbers are little-endian (DDSI-RTPS 9.4.5.1.2).
const LITTLE: u8 = 0x01;

/// Flag F: no answer is wanted (DDSI-RTPS 9.4.5.2).
const FINAL: u8 = 0x02;

/// Returns the byte order of a submessage with these flags.
fn endian_at(flags: u8) -> Endian
    ensures { result ≡ endian_of flags }
{
    if flags & LITTLE != 0 {
        Endian::Little
    } else {
        Endian::Big
    }
}

fn get_entity(octets: &[u8], at: usize) -> Option<EntityId>
    ensures { result ≡ entity_at octets.now at }
{
    Some(EntityId(get_octets(octets, at)?))
}

/// Returns the `count` words at `at`, with zeros after them, or `None` if not all of them are
/// there.
fn get_words(octets: &[u8], at: usize, count: usize, endian: Endian) -> Option<[u32; 8]>
    requires few { count ≤ 8 }
    requires there { at ≤ length octets.now }
    ensures { result ≡ words_at endian count octets.now at }
{
    let mut words = [0; 8];
    for k in 0..count {
        words[k] = get_u32(octets, at + 4 * k, endian)?;
    }
    Some(words)
}

/// Returns the set at `at`. A base of 0 without bits counts as 1: a reader that has nothing may
/// begin so.
#[tactic(auto, unfolding(crate::specs::Acknack::missing_at))]
fn get_missing(octets: &[u8], at: usize, endian: Endian) -> Option<SnSet>
    ensures { option_map sn_view result ≡ heard.missing_at endian octets.now at }
{
    let base = get_sn(octets, at, endian)?;
    if base < 0 {
        return None;
    }
    let base = base.cast_unsigned();
    let bits = get_u32(octets, at + 8, endian)?;
    if bits > MAX_BITS || (base == 0 && bits != 0) {
        return None;
    }
    let words = get_words(octets, at + 12, bits.div_ceil(32) as usize, endian)?;
    Some(SnSet {
        base: base.max(1),
        bits,
        words,
    })
}

/// Whether it is an answer of a participant's reader of readers to our announcer of readers.
fn is_ours(reader: EntityId, writer: EntityId) -> bool
    ensures { result ≡ heard.is_ours reader writer }
{
    reader == SUBSCRIPTIONS_DETECTOR && writer == ENTITYID_SEDP_BUILTIN_SUBSCRIPTIONS_ANNOUNCER
}

/// Returns the ACKNACK of the participant `source` in a body, if it answers our announcer of
/// readers; `None` too if it is malformed.
#[tactic(auto, unfolding(crate::specs::Acknack::ack_heard))]
pub(crate) fn ack_heard(source: GuidPrefix, flags: u8, body: &[u8]) -> Option<Hearing>
    ensures { result ≡ heard.ack_heard source flags body.now }
{
    let endian = endian_at(flags);
    let reader = get_entity(body, 0)?;
    let writer = get_entity(body, 4)?;
    let missing = get_missing(body, 8, endian)?;
    let words = missing.bits.div_ceil(32) as usize;
    let count = get_u32(body, 20 + 4 * words, endian)?.cast_signed();
    if !is_ours(reader, writer) {
        return None;
    }
    let is_final = flags & FINAL != 0;
    Some(Hearing::Acks(source, Ack::new(missing, count, is_final)))
}
