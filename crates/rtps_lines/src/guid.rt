//! Endpoints in hex.

ghost use Rattle.std.specs.Prelude.{◌≡◌, ◌++◌, OnOk};
ghost use Rattle.std.specs.Io.{StartsWith};
ghost use Rattle.rtps_lines.specs.Guid.{guid_text};

use rtps_ascii::push_hex_array;
use rtps_types::Guid;
use std::alloc::{AllocError, Allocator};

/// Appends the prefix and the entity id of an endpoint in hex, with nothing between.
pub(crate) fn push_guid<A: Allocator>(out: &mut Vec<u8, A>, guid: Guid) -> Result<(), AllocError>
    ensures ok { OnOk result (out.new.items ≡ out.old.items ++ guid_text guid) }
    ensures keeps { StartsWith out.new.items out.old.items }
{
    push_hex_array(out, &guid.prefix.0)?;
    push_hex_array(out, &guid.entity.0)
}
