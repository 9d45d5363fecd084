//! Reading one parameter at a time.

ghost use Rattle.std.specs.Prelude.{◌≡◌};
ghost use Rattle.rtps_params.specs.Reading.{LeavesLess, front_of, seen};

use crate::ids::SENTINEL;
use rtps_types::{Endian, get_u16};

/// A parameter (DDSI-RTPS 9.4.2.11).
#[derive(Clone, Copy, Debug)]
pub struct Param<'a> {
    /// One of [`ids`](crate::ids), or any other.
    pub id: u16,
    /// The value and what pads it to its length, which is a multiple of four.
    pub value: &'a [u8],
}

/// Why octets are no parameter list: the first fault from left to right.
#[derive(Clone, Copy, Debug, PartialEq, Eq)]
pub enum ParamFault {
    /// The octets end within a parameter: one to three are left, or a length is greater than what
    /// is left.
    Short,
    /// No octets are left, and the list has not ended.
    NoEnd,
    /// A length is no multiple of four.
    OddLength,
}

/// The result of reading one parameter, with the octets after it.
#[derive(Clone, Copy, Debug)]
pub enum Front<'a> {
    /// A parameter; padding is one with the id 0.
    Param(Param<'a>, &'a [u8]),
    /// The end of the list.
    End(&'a [u8]),
    /// The octets begin with neither.
    Fault(ParamFault),
}

/// Reads the first parameter of a list, by the list's byte order. For callers that read a list one
/// parameter at a time. No memory is taken.
#[tactic(auto, unfolding(crate::specs::Reading::front_of))]
pub fn read_front(octets: &[u8], endian: Endian) -> Front<'_>
    ensures value { seen result ≡ front_of endian octets.now }
    ensures less { LeavesLess octets.now result }
{
    if octets.is_empty() {
        return Front::Fault(ParamFault::NoEnd);
    }
    let (Some(id), Some(length)) = (get_u16(octets, 0, endian), get_u16(octets, 2, endian)) else {
        return Front::Fault(ParamFault::Short);
    };
    let rest = &octets[4..];
    if id == SENTINEL {
        return Front::End(rest);
    }
    let length = usize::from(length);
    if length % 4 != 0 {
        return Front::Fault(ParamFault::OddLength);
    }
    if rest.len() < length {
        return Front::Fault(ParamFault::Short);
    }
    let (value, after) = rest.split_at(length);
    Front::Param(Param { id, value }, after)
}
