//! Lists of numbers.

ghost use Rattle.std.specs.Prelude.{◌≡◌, ◌++◌, OnOk};
ghost use Rattle.std.specs.Io.{StartsWith};
ghost use Rattle.rtps_types.specs.NumberSet.{members};
ghost use Rattle.rtps_types.specs.Sets.{sn_view};
ghost use Rattle.rtps_events.specs.Line.{numbers_text};

use rtps_ascii::{push_number, push_octet};
use rtps_types::SnSet;
use std::alloc::{AllocError, Allocator};

/// Appends the members of a set, joined by commas; a dash where there are none.
pub fn push_members<A: Allocator>(out: &mut Vec<u8, A>, set: &SnSet) -> Result<(), AllocError>
    ensures ok { OnOk result (out.new.items ≡ out.old.items ++
        numbers_text (members (sn_view set.now))) }
    ensures keeps { StartsWith out.new.items out.old.items }
{
    let mut members = set.members();
    match members.next() {
        Some(first) => push_number(out, first)?,
        None => return push_octet(out, b'-'),
    }
    for member in members {
        push_octet(out, b',')?;
        push_number(out, member)?;
    }
    Ok(())
}
