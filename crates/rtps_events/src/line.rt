//! The line of an event.

ghost use Rattle.std.specs.Prelude.{◌≡◌, ◌++◌, OnOk};
ghost use Rattle.std.specs.Io.{StartsWith};
ghost use Rattle.rtps_receiver.specs.Events.{view};
ghost use Rattle.rtps_events.specs.Line.{line_of};

use crate::context::push_context;
use crate::event_body::push_body;
use rtps_ascii::push_octet;
use rtps_receiver::Event;
use std::alloc::{AllocError, Allocator};

/// Appends the line of an event, with a newline.
pub fn push_line<A: Allocator>(out: &mut Vec<u8, A>, event: &Event<'_>) -> Result<(), AllocError>
    ensures ok { OnOk result (out.new.items ≡ out.old.items ++ line_of (view event.now)) }
    ensures keeps { StartsWith out.new.items out.old.items }
{
    push_context(out, event)?;
    push_octet(out, b' ')?;
    push_body(out, &event.body)?;
    push_octet(out, b'\n')
}
