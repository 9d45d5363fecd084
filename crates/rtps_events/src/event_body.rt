//! An event's body as text, by its kind.

ghost use Rattle.std.specs.Prelude.{◌≡◌, ◌++◌, OnOk, codes};
ghost use Rattle.std.specs.Io.{StartsWith};
ghost use Rattle.rtps_receiver.specs.Views.{body_view, fragment_view, gap_view, heartbeat_frag_view, heartbeat_view, whole_view};
ghost use Rattle.rtps_events.specs.Line.{body_text, flags_text, form_word, fragment_text, gap_text, hash_text, heartbeat_frag_text, heartbeat_text, pieces_text, whole_text};

use crate::numbers::push_members;
use rtps_ascii::{push_hex, push_hex_array, push_number, push_octet, push_signed, push_word};
use rtps_receiver::{EventBody, Fragment, Gap, Heartbeat, HeartbeatFrag, Whole};
use rtps_types::KeyHash;
use rtps_wire::Form;
use std::alloc::{AllocError, Allocator};

/// Appends the text of an event's body.
pub(crate) fn push_body<A: Allocator>(
    out: &mut Vec<u8, A>,
    body: &EventBody<'_>,
) -> Result<(), AllocError>
    ensures ok { OnOk result (out.new.items ≡ out.old.items ++ body_text (body_view body.now)) }
    ensures keeps { StartsWith out.new.items out.old.items }
{
    match body {
        EventBody::Whole(whole) => push_whole(out, whole),
        EventBody::Fragment(fragment) => push_fragment(out, fragment),
        EventBody::Heartbeat(heartbeat) => push_heartbeat(out, heartbeat),
        EventBody::Gap(gap) => push_gap(out, gap),
        EventBody::HeartbeatFrag(heartbeat) => push_heartbeat_frag(out, heartbeat),
    }
}

fn flags(final_flag: bool, liveliness: bool) -> &'static str
    ensures { result.now ≡ flags_text final_flag liveliness }
{
    match (final_flag, liveliness) {
        (true, true) => "FL",
        (true, false) => "F",
        (false, true) => "L",
        (false, false) => "-",
    }
}

/// Appends the form as a word between two blanks, by one copy of a length that the compiler knows.
fn push_form<A: Allocator>(out: &mut Vec<u8, A>, form: Form) -> Result<(), AllocError>
    ensures ok { OnOk result
        (out.new.items ≡ ((out.old.items ++ codes " ") ++ form_word form) ++ codes " ") }
    ensures keeps { StartsWith out.new.items out.old.items }
{
    match form {
        Form::Value => push_word(out, " value "),
        Form::Key => push_word(out, " key "),
        Form::Other => push_word(out, " other "),
        Form::Nothing => push_word(out, " none "),
    }
}

fn push_flags<A: Allocator>(
    out: &mut Vec<u8, A>,
    final_flag: bool,
    liveliness: bool,
) -> Result<(), AllocError>
    ensures ok { OnOk result (out.new.items ≡ out.old.items ++ flags_text final_flag liveliness) }
    ensures keeps { StartsWith out.new.items out.old.items }
{
    push_word(out, flags(final_flag, liveliness))
}

/// Appends a key hash in hex, or a dash for none.
fn push_hash<A: Allocator>(out: &mut Vec<u8, A>, hash: Option<KeyHash>) -> Result<(), AllocError>
    ensures ok { OnOk result (out.new.items ≡ out.old.items ++ hash_text hash) }
    ensures keeps { StartsWith out.new.items out.old.items }
{
    let Some(hash) = hash else {
        return push_octet(out, b'-');
    };
    push_hex_array(out, &hash.0)
}

fn push_whole<A: Allocator>(out: &mut Vec<u8, A>, whole: &Whole<'_>) -> Result<(), AllocError>
    ensures ok { OnOk result (out.new.items ≡ out.old.items ++ whole_text (whole_view whole.now)) }
    ensures keeps { StartsWith out.new.items out.old.items }
{
    push_word(out, "data ")?;
    push_number(out, whole.number.get())?;
    push_octet(out, b' ')?;
    push_hex_array(out, &[whole.info.status])?;
    push_form(out, whole.info.form)?;
    push_hex(out, whole.payload)?;
    push_octet(out, b' ')?;
    push_hash(out, whole.info.hash)
}

/// Appends the fragment numbers and sizes, and the payload of the fragments.
fn push_pieces<A: Allocator>(
    out: &mut Vec<u8, A>,
    fragment: &Fragment<'_>,
) -> Result<(), AllocError>
    ensures ok { OnOk result (out.new.items ≡ out.old.items ++
        pieces_text (fragment_view fragment.now)) }
    ensures keeps { StartsWith out.new.items out.old.items }
{
    push_number(out, u64::from(fragment.start))?;
    push_octet(out, b' ')?;
    push_number(out, u64::from(fragment.count))?;
    push_octet(out, b' ')?;
    push_number(out, u64::from(fragment.size))?;
    push_octet(out, b' ')?;
    push_number(out, u64::from(fragment.sample))?;
    push_octet(out, b' ')?;
    push_hex(out, fragment.payload)?;
    push_octet(out, b' ')?;
    push_hash(out, fragment.info.hash)
}

fn push_fragment<A: Allocator>(
    out: &mut Vec<u8, A>,
    fragment: &Fragment<'_>,
) -> Result<(), AllocError>
    ensures ok { OnOk result (out.new.items ≡ out.old.items ++
        fragment_text (fragment_view fragment.now)) }
    ensures keeps { StartsWith out.new.items out.old.items }
{
    push_word(out, "frag ")?;
    push_number(out, fragment.number.get())?;
    push_octet(out, b' ')?;
    push_hex_array(out, &[fragment.info.status])?;
    push_form(out, fragment.info.form)?;
    push_pieces(out, fragment)
}

fn push_heartbeat<A: Allocator>(
    out: &mut Vec<u8, A>,
    heartbeat: &Heartbeat,
) -> Result<(), AllocError>
    ensures ok { OnOk result (out.new.items ≡ out.old.items ++
        heartbeat_text (heartbeat_view heartbeat.now)) }
    ensures keeps { StartsWith out.new.items out.old.items }
{
    push_word(out, "heartbeat ")?;
    push_number(out, heartbeat.first.get())?;
    push_octet(out, b' ')?;
    push_number(out, heartbeat.last)?;
    push_octet(out, b' ')?;
    push_signed(out, heartbeat.count)?;
    push_octet(out, b' ')?;
    push_flags(out, heartbeat.final_flag, heartbeat.liveliness)
}

fn push_gap<A: Allocator>(out: &mut Vec<u8, A>, gap: &Gap) -> Result<(), AllocError>
    ensures ok { OnOk result (out.new.items ≡ out.old.items ++ gap_text (gap_view gap.now)) }
    ensures keeps { StartsWith out.new.items out.old.items }
{
    push_word(out, "gap ")?;
    push_number(out, gap.start.get())?;
    push_octet(out, b' ')?;
    push_number(out, gap.list.base)?;
    push_octet(out, b' ')?;
    push_members(out, &gap.list)
}

fn push_heartbeat_frag<A: Allocator>(
    out: &mut Vec<u8, A>,
    heartbeat: &HeartbeatFrag,
) -> Result<(), AllocError>
    ensures ok { OnOk result (out.new.items ≡ out.old.items ++
        heartbeat_frag_text (heartbeat_frag_view heartbeat.now)) }
    ensures keeps { StartsWith out.new.items out.old.items }
{
    push_word(out, "heartbeat-frag ")?;
    push_number(out, heartbeat.number.get())?;
    push_octet(out, b' ')?;
    push_number(out, u64::from(heartbeat.last))?;
    push_octet(out, b' ')?;
    push_signed(out, heartbeat.count)
}
