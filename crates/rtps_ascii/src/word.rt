//! Fixed words and single octets.

ghost use Rattle.std.specs.Prelude.{◌≡◌, ◌++◌, OnOk, [], ◌∷◌};
ghost use Rattle.std.specs.Io.{StartsWith};

use std::alloc::{AllocError, Allocator};

/// Appends a word as it is.
pub fn push_word<A: Allocator>(out: &mut Vec<u8, A>, word: &str) -> Result<(), AllocError>
    ensures ok { OnOk result (out.new.items ≡ out.old.items ++ word.now) }
    ensures keeps { StartsWith out.new.items out.old.items }
{
    out.extend_from_slice(word.as_bytes())
}

/// Appends one octet.
pub fn push_octet<A: Allocator>(out: &mut Vec<u8, A>, octet: u8) -> Result<(), AllocError>
    ensures ok { OnOk result (out.new.items ≡ out.old.items ++ octet ∷ []) }
    ensures keeps { StartsWith out.new.items out.old.items }
{
    match out.push(octet) {
        Ok(()) => Ok(()),
        Err(_) => Err(AllocError),
    }
}
