//! The flags of a submessage as letters (DDSI-RTPS 9.4.5.1).

ghost use Rattle.std.specs.Prelude.{◌≡◌, ◌++◌, OnOk};
ghost use Rattle.std.specs.Io.{StartsWith};
ghost use Rattle.rtps_explain.specs.Kinds.{flags_text, letter_text, named_text, unnamed_text};

use crate::kinds::{letters_of, unnamed_of};
use rtps_ascii::{push_hex_array, push_octet, push_word};
use std::alloc::{AllocError, Allocator};

/// Appends the flags of a kind that are set, or a dash for none.
pub(crate) fn push_flags<A: Allocator>(
    out: &mut Vec<u8, A>,
    id: u8,
    flags: u8,
) -> Result<(), AllocError>
    ensures ok { OnOk result (out.new.items ≡ out.old.items ++ flags_text id flags) }
    ensures keeps { StartsWith out.new.items out.old.items }
{
    if flags == 0 {
        return push_octet(out, b'-');
    }
    push_named(out, flags, letters_of(id).as_bytes())?;
    push_unnamed(out, flags & unnamed_of(id))
}

/// Appends the letters of the flags that are set; the first letter is that of the lowest flag.
fn push_named<A: Allocator>(
    out: &mut Vec<u8, A>,
    flags: u8,
    letters: &[u8],
) -> Result<(), AllocError>
    ensures ok { OnOk result (out.new.items ≡ out.old.items ++ named_text flags letters.now) }
    ensures keeps { StartsWith out.new.items out.old.items }
{
    let mut left = flags;
    for letter in letters {
        push_letter(out, left, *letter)?;
        left /= 2;
    }
    Ok(())
}

/// Appends a letter if the lowest flag is set.
fn push_letter<A: Allocator>(out: &mut Vec<u8, A>, flags: u8, letter: u8) -> Result<(), AllocError>
    ensures ok { OnOk result (out.new.items ≡ out.old.items ++ letter_text flags letter) }
    ensures keeps { StartsWith out.new.items out.old.items }
{
    if flags % 2 == 1 {
        push_octet(out, letter)
    } else {
        Ok(())
    }
}

/// Appends a plus and the flags without a letter in hex, if any of them is set.
fn push_unnamed<A: Allocator>(out: &mut Vec<u8, A>, flags: u8) -> Result<(), AllocError>
    ensures ok { OnOk result (out.new.items ≡ out.old.items ++ unnamed_text flags) }
    ensures keeps { StartsWith out.new.items out.old.items }
{
    if flags == 0 {
        return Ok(());
    }
    push_word(out, "+")?;
    push_hex_array(out, &[flags])
}
