//! The line of an answer.

ghost use Rattle.std.specs.Prelude.{◌≡◌, ◌++◌, OnOk};
ghost use Rattle.std.specs.Io.{StartsWith};
ghost use Rattle.rtps_lines.specs.Answer.{answer_line};

use crate::locators::push_locators;
use rtps_ascii::{push_hex, push_octet, push_word};
use rtps_events::push_place;
use rtps_types::{Locator, Place};
use std::alloc::{AllocError, Allocator};

/// Appends the line of an answer, with a newline: the place of the event that it answers, the
/// locators that it is sent to, and its octets.
pub fn push_answer<A: Allocator>(
    out: &mut Vec<u8, A>,
    place: Place,
    to: &[Locator],
    octets: &[u8],
) -> Result<(), AllocError>
    ensures ok { OnOk result (out.new.items ≡ out.old.items ++
        answer_line place to.now octets.now) }
    ensures keeps { StartsWith out.new.items out.old.items }
{
    push_place(out, place)?;
    push_word(out, " answer ")?;
    push_locators(out, to)?;
    push_octet(out, b' ')?;
    push_hex(out, octets)?;
    push_octet(out, b'\n')
}
