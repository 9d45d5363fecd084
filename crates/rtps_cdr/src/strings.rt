//! Sequences of strings.

ghost use Rattle.std.specs.Prelude.{◌≡◌, ◌≤◌, length, true, is_ok, List, ℕ, IfOk};
ghost use Rattle.std.specs.Iterator.{YieldsFirstBy, item_count};
ghost use Rattle.rtps_types.specs.declared.field.Endian.{Endian};
ghost use Rattle.rtps_cdr.specs.Reading.{start, placed, place_of, value_of, moved, items_in, text_in, texts_in, texts_left};

use crate::CdrFault;
use crate::value::{text_at, u32_at};
use rtps_types::Endian;
use std::marker::Model;

/// An iterator over the strings of a sequence, as
/// [`CdrReader::read_strings`](crate::CdrReader::read_strings) returns it.
///
/// None of them has a fault, since the whole sequence was checked when it was read. They are
/// borrowed from the octets, so no memory is taken.
#[derive(Drop)]
pub struct Strings<'a> {
    octets: &'a [u8],
    endian: Endian,
    position: usize,
    left: u32,
}

impl<'a> Model for Strings<'a> {
    ghost Value = { List (List ℕ) };

    ghost view = { λ s. texts_left s.left (placed (start s.endian s.octets.now) s.position) };

    ghost invariant = { λ s. (s.position ≤ length s.octets.now)
        × (is_ok (items_in text_in s.left (placed (start s.endian s.octets.now) s.position))
        ≡ true) };
}

impl<'a> Iterator for Strings<'a> {
    type Item = &'a str;

    ghost next_gives = { YieldsFirstBy (λ text. text.now) (λ left. left) };

    ghost remaining = { item_count (λ left. left) };

    #[tactic(auto, using(crate::proofs::Texts::texts_none))]
    fn next(&mut self) -> Option<&'a str> {
        if self.left == 0 {
            return None;
        }
        match text_at(self.octets, self.position, self.endian) {
            Ok((text, after)) => {
                self.position = after;
                self.left -= 1;
                Some(text)
            }
            Err(_) => unreachable!(),
        }
    }
}

/// Returns the position after `count` strings.
#[tactic(auto, using(crate::proofs::Texts::places_end))]
fn behind_strings(
    octets: &[u8],
    position: usize,
    endian: Endian,
    count: u32,
) -> Result<usize, CdrFault>
    requires { position ≤ length octets.now }
    ensures value { result
        ≡ place_of (items_in text_in count (placed (start endian octets.now) position)) }
    ensures within { IfOk result (λ after. after ≤ length octets.now) }
{
    let mut at = position;
    'texts: for i in 0..count {
        let _text = i;
        let (_, after) = text_at(octets, at, endian)?;
        at = after;
    }
    Ok(at)
}

/// Reads the sequence of strings whose count is at the next multiple of four. Returns it and the
/// position after it.
pub(crate) fn strings_at(
    octets: &[u8],
    position: usize,
    endian: Endian,
) -> Result<(Strings<'_>, usize), CdrFault>
    requires { position ≤ length octets.now }
    ensures value { result ≡ texts_in (placed (start endian octets.now) position) }
    ensures within { IfOk result (λ r. r.1 ≤ length octets.now) }
{
    let (left, position) = u32_at(octets, position, endian)?;
    let after = behind_strings(octets, position, endian, left)?;
    let strings = Strings {
        octets,
        endian,
        position,
        left,
    };
    Ok((strings, after))
}
