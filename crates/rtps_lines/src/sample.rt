//! The text of a presented change.

ghost use Rattle.std.specs.Prelude.{◌≡◌, ◌++◌, OnOk, codes, true};
ghost use Rattle.std.specs.Io.{StartsWith};
ghost use Rattle.std.specs.Fmt.{decimal};
ghost use Rattle.dds_topic.specs.Answer.{code_of};
ghost use Rattle.rtps_reader.specs.Body.{body_map};
ghost use Rattle.rtps_ascii.specs.Hex.{hex_text};
ghost use Rattle.rtps_events.specs.Line.{◌then◌};
ghost use Rattle.rtps_lines.specs.Sample.{sample_text};

use dds_topic::{TextCatalog, Unread};
use rtps_ascii::{push_hex_array, push_number, push_octet, push_word};
use rtps_reader::Body;
use rtps_types::KeyHash;
use std::alloc::{AllocError, Allocator};

/// Appends the body of a presented change.
pub(crate) fn push_presented<C: TextCatalog, A: Allocator>(
    out: &mut Vec<u8, A>,
    catalog: &C,
    body: &Body<C::Value>,
) -> Result<(), AllocError>
    ensures ok { OnOk result (out.new.items ≡ out.old.items ++
        sample_text (C.text_of catalog.now) (body_map C.view body.now)) }
    ensures keeps { StartsWith out.new.items out.old.items }
{
    match body {
        Body::Value(_, value) => push_value(out, catalog, value),
        Body::Disposed(hash) => push_ended(out, "disposed", *hash),
        Body::Unregistered(hash) => push_ended(out, "unregistered", *hash),
        Body::Unread(unread) => push_unread(out, *unread),
    }
}

/// Whether two bodies are known to have the same text.
pub(crate) fn has_same_body<C: TextCatalog>(
    catalog: &C,
    one: &Body<C::Value>,
    other: &Body<C::Value>,
) -> bool
    ensures { result ≡ true
        → sample_text (C.text_of catalog.now) (body_map C.view one.now)
        ≡ sample_text (C.text_of catalog.now) (body_map C.view other.now) }
{
    match (one, other) {
        (Body::Value(_, one), Body::Value(_, other)) => catalog.has_same_text(one, other),
        _ => false,
    }
}

pub(crate) fn push_value<C: TextCatalog, A: Allocator>(
    out: &mut Vec<u8, A>,
    catalog: &C,
    value: &C::Value,
) -> Result<(), AllocError>
    ensures ok { OnOk result (out.new.items ≡ out.old.items ++
        (codes "value" then C.text_of catalog.now (C.view value.now))) }
    ensures keeps { StartsWith out.new.items out.old.items }
{
    push_word(out, "value ")?;
    catalog.push_text(out, value)
}

/// Appends a word for the end of an instance, and the hash of its key.
pub(crate) fn push_ended<A: Allocator>(
    out: &mut Vec<u8, A>,
    word: &str,
    hash: KeyHash,
) -> Result<(), AllocError>
    ensures ok { OnOk result (out.new.items ≡ out.old.items ++ (word.now then hex_text hash.0)) }
    ensures keeps { StartsWith out.new.items out.old.items }
{
    push_word(out, word)?;
    push_octet(out, b' ')?;
    push_hex_array(out, &hash.0)
}

fn push_unread<A: Allocator>(out: &mut Vec<u8, A>, unread: Unread) -> Result<(), AllocError>
    ensures ok { OnOk result (out.new.items ≡ out.old.items ++
        (codes "unread" then decimal (code_of unread))) }
    ensures keeps { StartsWith out.new.items out.old.items }
{
    push_word(out, "unread ")?;
    push_number(out, u64::from(unread.code()))
}
