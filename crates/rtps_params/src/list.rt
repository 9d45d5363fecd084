//! Complete parameter lists.

ghost use Rattle.std.specs.Prelude.{◌≡◌, ℕ, List, Result};
ghost use Rattle.std.specs.Iterator.{YieldsFirstBy, item_count};
ghost use Rattle.rtps_params.specs.Parameters.{IsList, IsFound};
ghost use Rattle.rtps_params.specs.Reading.{Parameter, Contents, answer, contents, shown, view};

use crate::ids::PAD;
use crate::{Front, Param, ParamFault, read_front};
use rtps_types::Endian;
use std::marker::Model;

/// A parameter list without a fault (DDSI-RTPS 9.4.2.11).
#[derive(Drop)]
pub struct ParamList<'a> {
    octets: &'a [u8],
    endian: Endian,
    used: usize,
}

impl<'a> Model for ParamList<'a> {
    ghost Value = { Contents };

    ghost view = { λ l. record {
      endian = l.endian;
      parameters = shown l.endian l.octets.now;
      used = l.used;
    } };
}

impl<'a> ParamList<'a> {
    /// Checks a complete list, up to its end; octets may follow it. `endian` is the byte order of
    /// ids and lengths. The error is the first fault from left to right. No memory is taken.
    #[tactic(auto, using(crate::proofs::Steps::leads_on, crate::proofs::Steps::leads_end, crate::proofs::Steps::leads_fault, crate::proofs::Steps::front_shortens))]
    pub fn new(octets: &'a [u8], endian: Endian) -> Result<ParamList<'a>, ParamFault>
        // By the grammar, this is the one result for these octets.
        ensures found { IsFound endian octets.now result }
        ensures only { (parameters : List Parameter) (outcome : Result (List ℕ) ParamFault) →
            IsList endian octets.now parameters outcome →
            result ≡ answer endian octets.now parameters outcome }
        ensures value { result ≡ contents endian octets.now }
    {
        let mut rest = octets;
        loop {
            match read_front(rest, endian) {
                Front::Param(_, after) => rest = after,
                Front::End(after) => {
                    let used = octets.len() - after.len();
                    return Ok(ParamList {
                        octets,
                        endian,
                        used,
                    });
                }
                Front::Fault(fault) => return Err(fault),
            }
        }
    }

    /// Returns the byte order of the ids and lengths, and of the numbers in values.
    pub fn endian(&self) -> Endian
        ensures { result ≡ self.now.endian }
    {
        self.endian
    }

    /// Returns the number of octets of the list, with its end.
    pub fn used(&self) -> usize
        ensures { result ≡ self.now.used }
    {
        self.used
    }

    /// Returns the parameters in order, without padding.
    pub fn iter(&self) -> Params<'a>
        ensures { result ≡ self.now.parameters }
    {
        Params {
            rest: self.octets,
            endian: self.endian,
        }
    }
}

/// An iterator over the parameters of a list, whose values are borrowed from its octets.
#[derive(Drop)]
pub struct Params<'a> {
    rest: &'a [u8],
    endian: Endian,
}

impl<'a> Model for Params<'a> {
    ghost Value = { List Parameter };

    ghost view = { λ p. shown p.endian p.rest.now };
}

impl<'a> Iterator for Params<'a> {
    type Item = Param<'a>;

    ghost next_gives = { YieldsFirstBy view (λ left. left) };

    ghost remaining = { item_count (λ left. left) };

    #[tactic(auto, using(crate::proofs::Steps::shown_param, crate::proofs::Steps::shown_pad, crate::proofs::Steps::shown_end, crate::proofs::Steps::shown_fault, crate::proofs::Steps::front_shortens))]
    fn next(&mut self) -> Option<Param<'a>> {
        loop {
            match read_front(self.rest, self.endian) {
                Front::Param(param, after) => {
                    self.rest = after;
                    if param.id != PAD {
                        return Some(param);
                    }
                }
                Front::End(_) | Front::Fault(_) => return None,
            }
        }
    }
}
