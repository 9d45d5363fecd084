//! The kinds of submessages as words, and the letters of their flags (DDSI-RTPS 9.4.5.1).

ghost use Rattle.std.specs.Prelude.{◌≡◌, ◌++◌, None, OnOk};
ghost use Rattle.std.specs.Io.{StartsWith};
ghost use Rattle.std.specs.Option.{option_map};
ghost use Rattle.rtps_explain.specs.Kinds.{kind_or_id, kind_text, known_kind, letters_of, unnamed_of};

use rtps_ascii::{push_hex_array, push_word};
use std::alloc::{AllocError, Allocator};

/// Returns the word of a kind that the standard names.
#[tactic(auto, unfolding(crate::specs::Kinds::known_kind))]
fn known_kind(id: u8) -> Option<&'static str>
    ensures { option_map (λ word. word.now) result ≡ known_kind id }
{
    Some(match id {
        0x00 => "header-extension",
        0x01 => "pad",
        0x06 => "acknack",
        0x07 => "heartbeat",
        0x08 => "gap",
        0x09 => "info-ts",
        0x0c => "info-src",
        0x0d => "info-reply-ip4",
        0x0e => "info-dst",
        0x0f => "info-reply",
        0x12 => "nack-frag",
        0x13 => "heartbeat-frag",
        0x15 => "data",
        0x16 => "data-frag",
        _ => return None,
    })
}

/// Appends the word of a kind; one that the standard doesn't name is shown by its id.
pub(crate) fn push_kind<A: Allocator>(out: &mut Vec<u8, A>, id: u8) -> Result<(), AllocError>
    ensures ok { OnOk result (out.new.items ≡ out.old.items ++ kind_text id) }
    ensures keeps { StartsWith out.new.items out.old.items }
{
    match known_kind(id) {
        Some(word) => push_word(out, word),
        None => push_unknown(out, id),
    }
}

fn push_unknown<A: Allocator>(out: &mut Vec<u8, A>, id: u8) -> Result<(), AllocError>
    ensures ok { OnOk result (out.new.items ≡ out.old.items ++ kind_or_id id None) }
    ensures keeps { StartsWith out.new.items out.old.items }
{
    push_word(out, "unknown-")?;
    push_hex_array(out, &[id])
}

/// Returns the letters of a kind's flags, from the lowest flag on.
#[tactic(auto, unfolding(crate::specs::Kinds::letters_of))]
pub(crate) fn letters_of(id: u8) -> &'static str
    ensures { result.now ≡ letters_of id }
{
    match id {
        0x06 => "EF",
        0x07 => "EFLG",
        0x08 => "EGF",
        0x09 => "EI",
        0x0d => "EM",
        0x0f => "EM",
        0x15 => "EQDKN",
        0x16 => "EQKN",
        _ => "E",
    }
}

/// Returns the flags of a kind that have no letter.
#[tactic(auto, unfolding(crate::specs::Kinds::unnamed_of))]
pub(crate) fn unnamed_of(id: u8) -> u8
    ensures { result ≡ unnamed_of id }
{
    match id {
        0x06 => 0xfc,
        0x07 => 0xf0,
        0x08 => 0xf8,
        0x09 => 0xfc,
        0x0d => 0xfc,
        0x0f => 0xfc,
        0x15 => 0xe0,
        0x16 => 0xf0,
        _ => 0xfe,
    }
}
