//! The lines of a datagram's events.

ghost use Rattle.std.specs.Prelude.{◌≡◌, ◌≤◌, ◌++◌, OnOk, length};
ghost use Rattle.std.specs.Io.{StartsWith};
ghost use Rattle.rtps_events.specs.EventLines.{lines_of};

use crate::line::push_line;
use rtps_receiver::Events;
use rtps_types::GuidPrefix;
use std::alloc::{AllocError, Allocator};

/// Appends a line for each event of a datagram. `index` is the number of the datagram in the run,
/// and `own` the prefix of the participant that receives it.
pub fn push_events<A: Allocator>(
    out: &mut Vec<u8, A>,
    own: GuidPrefix,
    index: u32,
    datagram: &[u8],
) -> Result<(), AllocError>
    requires { length datagram.now ≤ 65507 }
    ensures ok { OnOk result (out.new.items ≡ out.old.items ++ lines_of own index datagram.now) }
    ensures keeps { StartsWith out.new.items out.old.items }
{
    for event in Events::new(own, u64::from(index), datagram) {
        push_line(out, &event)?;
    }
    Ok(())
}
