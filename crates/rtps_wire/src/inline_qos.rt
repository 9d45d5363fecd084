//! Inline QoS: parameters of one change (DDSI-RTPS 8.7, 9.6.4).

ghost use Rattle.std.specs.Prelude.{◌≡◌};
ghost use Rattle.rtps_wire.specs.InlineQos.{inline_of};

use rtps_params::ids::{KEY_HASH, STATUS_INFO};
use rtps_params::{Front, Param, read_front};
use rtps_types::{Endian, KeyHash, get_octets};

/// The parameters of inline QoS that are used here.
#[derive(Clone, Copy)]
pub(crate) struct InlineQos {
    /// The key hash of the instance.
    pub(crate) hash: Option<KeyHash>,
    /// The last octet of the status info; 0 if there is none.
    pub(crate) status: u8,
    /// The number of octets of the list.
    pub(crate) used: usize,
}

/// What the parameters read so far say.
#[derive(Clone, Copy)]
struct Seen {
    hash: Option<KeyHash>,
    status: u8,
}

impl Seen {
    ghost use Rattle.rtps_params.specs.Reading.{view};
    ghost use Rattle.rtps_wire.specs.InlineSeen.{seen_with};

    /// Returns what they say with one more parameter, or `None` if its value is too short. The last
    /// parameter of a kind counts.
    fn with(self, param: Param<'_>) -> Option<Seen>
        ensures { result ≡ seen_with self (view param.entry) }
    {
        let mut seen = self;
        match param.id {
            KEY_HASH => seen.hash = Some(KeyHash(get_octets(param.value, 0)?)),
            STATUS_INFO => seen.status = *param.value.get(3)?,
            _ => {}
        }
        Some(seen)
    }
}

/// Returns the inline QoS at the start of `octets`, or `None` if the list has a fault or a value is
/// too short.
#[tactic(auto, using(crate::proofs::InlineSteps::whole_goes, crate::proofs::InlineSteps::whole_bad, crate::proofs::InlineSteps::whole_end, crate::proofs::InlineSteps::whole_fault, crate::proofs::InlineSteps::whole_is))]
pub(crate) fn read_inline_qos(octets: &[u8], endian: Endian) -> Option<InlineQos>
    ensures { result ≡ inline_of endian octets.now }
{
    let mut seen = Seen {
        hash: None,
        status: 0,
    };
    let mut rest = octets;
    loop {
        match read_front(rest, endian) {
            Front::Param(param, after) => {
                seen = seen.with(param)?;
                rest = after;
            }
            Front::End(after) => {
                return Some(InlineQos {
                    hash: seen.hash,
                    status: seen.status,
                    used: octets.len() - after.len(),
                });
            }
            Front::Fault(_) => return None,
        }
    }
}
