//! The line of an entry that left a reader's cache.

ghost use Rattle.std.specs.Prelude.{◌≡◌, ◌++◌, OnOk};
ghost use Rattle.std.specs.Io.{StartsWith};
ghost use Rattle.rtps_events.specs.Line.{◌then◌};
ghost use Rattle.rtps_lines.specs.Entry.{change_text, content_text, content_view, entry_line, instance_word, sample_view, sample_word, states_text, view_word};

use crate::notice::push_change;
use crate::sample::{push_ended, push_value};
use dds_cache::{Content, InstanceState, SampleState, Taken, ViewState};
use dds_topic::TextCatalog;
use rtps_ascii::{push_number, push_octet, push_word};
use rtps_types::KeyHash;
use std::alloc::{AllocError, Allocator};

/// Appends the line of an entry of the reader of this rank, with a newline.
pub fn push_entry<C: TextCatalog, A: Allocator>(
    out: &mut Vec<u8, A>,
    catalog: &C,
    rank: u32,
    entry: &Taken<C::Value>,
) -> Result<(), AllocError>
    ensures ok { OnOk result (out.new.items ≡ out.old.items ++
        entry_line (C.text_of catalog.now) rank (sample_view C.view entry.now)) }
    ensures keeps { StartsWith out.new.items out.old.items }
{
    push_origin(out, rank, entry)?;
    push_octet(out, b' ')?;
    push_states(out, entry.sample, entry.view, entry.instance)?;
    push_octet(out, b' ')?;
    push_content(out, catalog, entry.key, &entry.body)?;
    push_octet(out, b'\n')
}

/// Appends the reader's rank, and the writer, number and time of the change.
fn push_origin<V, A: Allocator>(
    out: &mut Vec<u8, A>,
    rank: u32,
    entry: &Taken<V>,
) -> Result<(), AllocError>
    ensures ok { OnOk result (out.new.items ≡ out.old.items ++ change_text rank entry.now) }
    ensures keeps { StartsWith out.new.items out.old.items }
{
    push_word(out, "entry ")?;
    push_number(out, u64::from(rank))?;
    push_octet(out, b' ')?;
    push_change(out, entry.writer, entry.number, entry.time)
}

fn sample_word(sample: SampleState) -> &'static str
    ensures { result.now ≡ sample_word sample }
{
    match sample {
        SampleState::Read => "Read",
        SampleState::NotRead => "NotRead",
    }
}

fn view_word(view: ViewState) -> &'static str
    ensures { result.now ≡ view_word view }
{
    match view {
        ViewState::New => "New",
        ViewState::NotNew => "NotNew",
    }
}

fn instance_word(instance: InstanceState) -> &'static str
    ensures { result.now ≡ instance_word instance }
{
    match instance {
        InstanceState::Alive => "Alive",
        InstanceState::Disposed => "Disposed",
        InstanceState::NoWriters => "NoWriters",
    }
}

/// Appends the three states that an entry is returned with.
fn push_states<A: Allocator>(
    out: &mut Vec<u8, A>,
    sample: SampleState,
    view: ViewState,
    instance: InstanceState,
) -> Result<(), AllocError>
    ensures ok { OnOk result (out.new.items ≡ out.old.items ++ states_text sample view instance) }
    ensures keeps { StartsWith out.new.items out.old.items }
{
    push_word(out, sample_word(sample))?;
    push_octet(out, b' ')?;
    push_word(out, view_word(view))?;
    push_octet(out, b' ')?;
    push_word(out, instance_word(instance))
}

/// Appends the content of an entry of the instance with this key.
fn push_content<C: TextCatalog, A: Allocator>(
    out: &mut Vec<u8, A>,
    catalog: &C,
    key: KeyHash,
    body: &Content<C::Value>,
) -> Result<(), AllocError>
    ensures ok { OnOk result (out.new.items ≡ out.old.items ++
        content_text (C.text_of catalog.now) key (content_view C.view body.now)) }
    ensures keeps { StartsWith out.new.items out.old.items }
{
    match body {
        Content::Value(value) => push_value(out, catalog, value),
        Content::Disposed => push_ended(out, "disposed", key),
    }
}
