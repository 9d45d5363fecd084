//! Sets of sequence numbers in a body (DDSI-RTPS 9.4.2.6).

ghost use Rattle.std.specs.Prelude.{◌≡◌, ◌≤◌, length};
ghost use Rattle.std.specs.Option.{option_map};
ghost use Rattle.rtps_types.specs.Sets.{sn_view};
ghost use Rattle.rtps_wire.specs.NumberSet.{sn_set_at, words_at};

use crate::fields::get_positive;
use rtps_types::{Endian, SnSet, get_u32};

/// The most bits of a set (DDSI-RTPS 9.4.2.6).
const MAX_BITS: u32 = 256;

/// Returns the set at `at`, if there is one and it has at most [`MAX_BITS`] bits.
#[tactic(auto, unfolding(crate::specs::NumberSet::sn_set_at))]
pub(crate) fn get_sn_set(octets: &[u8], at: usize, endian: Endian) -> Option<SnSet>
    ensures { option_map sn_view result ≡ sn_set_at endian octets.now at }
{
    let base = get_positive(octets, at, endian)?;
    let bits = get_u32(octets, at + 8, endian)?;
    if bits > MAX_BITS {
        return None;
    }
    let words = get_words(octets, at + 12, bits.div_ceil(32) as usize, endian)?;
    Some(SnSet { base, bits, words })
}

/// Returns the `count` words at `at`, with zeros after them, or `None` if not all of them are
/// there.
fn get_words(octets: &[u8], at: usize, count: usize, endian: Endian) -> Option<[u32; 8]>
    requires few { count ≤ 8 }
    requires there { at ≤ length octets.now }
    ensures { result ≡ words_at endian count octets.now at }
{
    let mut words = [0; 8];
    for k in 0..count {
        words[k] = get_u32(octets, at + 4 * k, endian)?;
    }
    Some(words)
}
