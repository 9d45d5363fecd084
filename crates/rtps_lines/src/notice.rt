//! The line of a notice.

ghost use Rattle.std.specs.Prelude.{◌≡◌, ◌++◌, IfOk, OnOk, length, true};
ghost use Rattle.std.specs.Io.{StartsWith};
ghost use Rattle.std.specs.Fmt.{decimal};
ghost use Rattle.rtps_types.specs.declared.identity.Guid as identity;
ghost use Rattle.rtps_types.specs.Number.{value_of};
ghost use Rattle.rtps_reader.specs.Notice.{kind_view, notice_view};
ghost use Rattle.rtps_events.specs.Line.{◌then◌};
ghost use Rattle.rtps_lines.specs.Guid.{guid_text};
ghost use Rattle.rtps_lines.specs.Notice.{heard_line, notice_text, origin_text, start_text, told_text};

use crate::guid::push_guid;
use crate::last_lines::LastLines;
use crate::last_start::LastStart;
use crate::sample::{has_same_body, push_presented};
use dds_topic::TextCatalog;
use rtps_ascii::{push_number, push_octet, push_word};
use rtps_events::push_time;
use rtps_reader::{Notice, NoticeKind};
use rtps_types::{Guid, Number, Timestamp};
use std::alloc::{AllocError, Allocator};

/// Appends the line of a notice of the reader of this rank, with a newline. `index` is the number of
/// that reader's notices at the same place that came before. `last` has the lines that were
/// formatted last, and the catalog.
pub fn push_notice<'n, C: TextCatalog, A: Allocator, B: Allocator + Copy>(
    out: &mut Vec<u8, A>,
    last: &mut LastLines<'_, 'n, C, B>,
    rank: u32,
    index: usize,
    notice: &'n Notice<C::Value>,
) -> Result<(), AllocError>
    ensures ok { OnOk result (out.new.items ≡ out.old.items ++
        heard_line (C.text_of last.old) rank (notice_view C.view notice.now)) }
    ensures keeps { StartsWith out.new.items out.old.items }
    ensures same { last.new ≡ last.old }
{
    last.push(out, rank, index, notice)
}

/// Formats the line of a notice of the reader of this rank, and appends it. Returns the length of
/// what comes before the rank.
pub(crate) fn push_heard<C: TextCatalog, A: Allocator, B: Allocator>(
    out: &mut Vec<u8, A>,
    start: &mut LastStart<B>,
    catalog: &C,
    rank: u32,
    notice: &Notice<C::Value>,
) -> Result<usize, AllocError>
    ensures ok { OnOk result (out.new.items ≡ out.old.items ++
        heard_line (C.text_of catalog.now) rank (notice_view C.view notice.now)) }
    ensures length { IfOk result (λ n. n ≡ length (start_text notice.now.place)) }
    ensures keeps { StartsWith out.new.items out.old.items }
{
    let length = start.push(out, notice.place)?;
    push_number(out, u64::from(rank))?;
    push_octet(out, b' ')?;
    push_told(out, catalog, notice)?;
    Ok(length)
}

/// Appends what a line has of a notice after the rank of its reader.
pub(crate) fn push_told<C: TextCatalog, A: Allocator>(
    out: &mut Vec<u8, A>,
    catalog: &C,
    notice: &Notice<C::Value>,
) -> Result<(), AllocError>
    ensures ok { OnOk result (out.new.items ≡ out.old.items ++
        told_text (C.text_of catalog.now) (notice_view C.view notice.now)) }
    ensures keeps { StartsWith out.new.items out.old.items }
{
    push_kind(out, catalog, notice.writer, &notice.what)?;
    push_octet(out, b'\n')
}

/// Appends the kind of a notice, with its writer and values.
fn push_kind<C: TextCatalog, A: Allocator>(
    out: &mut Vec<u8, A>,
    catalog: &C,
    writer: Guid,
    what: &NoticeKind<C::Value>,
) -> Result<(), AllocError>
    ensures ok { OnOk result (out.new.items ≡ out.old.items ++
        notice_text (C.text_of catalog.now) writer (kind_view C.view what.now)) }
    ensures keeps { StartsWith out.new.items out.old.items }
{
    match what {
        NoticeKind::Sample { number, time, body } => {
            push_word(out, "sample ")?;
            push_change(out, writer, *number, *time)?;
            push_octet(out, b' ')?;
            push_presented(out, catalog, body)
        }
        NoticeKind::Matched => push_about(out, "matched", writer),
        NoticeKind::Unmatched => push_about(out, "unmatched", writer),
        NoticeKind::Incompatible { policy } => {
            push_counted(out, "incompatible", writer, u64::from(policy.id()))
        }
        NoticeKind::Lost { count } => push_counted(out, "lost", writer, *count),
    }
}

/// Whether the lines of two notices are known to have the same text after the rank of the reader.
pub(crate) fn has_same_text<C: TextCatalog>(
    catalog: &C,
    one: &Notice<C::Value>,
    other: &Notice<C::Value>,
) -> bool
    ensures { result ≡ true → told_text (C.text_of catalog.now) (notice_view C.view one.now)
        ≡ told_text (C.text_of catalog.now) (notice_view C.view other.now) }
{
    has_same_kind(catalog, &one.what, &other.what) && one.writer == other.writer
}

/// Whether the kinds of two notices are known to have the same text, if both have one writer.
pub(crate) fn has_same_kind<C: TextCatalog>(
    catalog: &C,
    one: &NoticeKind<C::Value>,
    other: &NoticeKind<C::Value>,
) -> bool
    ensures { result ≡ true → (writer : identity.Guid)
        → notice_text (C.text_of catalog.now) writer (kind_view C.view one.now)
        ≡ notice_text (C.text_of catalog.now) writer (kind_view C.view other.now) }
{
    match (one, other) {
        (
            NoticeKind::Sample { number, time, body },
            NoticeKind::Sample {
                number: other_number,
                time: other_time,
                body: other_body,
            },
        ) => {
            number == other_number && time == other_time && has_same_body(catalog, body, other_body)
        }
        (NoticeKind::Matched, NoticeKind::Matched) => true,
        (NoticeKind::Unmatched, NoticeKind::Unmatched) => true,
        (NoticeKind::Lost { count }, NoticeKind::Lost { count: other }) => count == other,
        _ => false,
    }
}

/// Appends the writer, the number and the time of a change.
pub(crate) fn push_change<A: Allocator>(
    out: &mut Vec<u8, A>,
    writer: Guid,
    number: Number,
    time: Option<Timestamp>,
) -> Result<(), AllocError>
    ensures ok { OnOk result (out.new.items
        ≡ out.old.items ++ origin_text writer (value_of number) time) }
    ensures keeps { StartsWith out.new.items out.old.items }
{
    push_guid(out, writer)?;
    push_octet(out, b' ')?;
    push_number(out, number.get())?;
    push_octet(out, b' ')?;
    push_time(out, time)
}

/// Appends a word and a writer.
fn push_about<A: Allocator>(
    out: &mut Vec<u8, A>,
    word: &str,
    writer: Guid,
) -> Result<(), AllocError>
    ensures ok { OnOk result (out.new.items ≡ out.old.items ++ (word.now then guid_text writer)) }
    ensures keeps { StartsWith out.new.items out.old.items }
{
    push_word(out, word)?;
    push_octet(out, b' ')?;
    push_guid(out, writer)
}

/// Appends a word, a writer and a number.
fn push_counted<A: Allocator>(
    out: &mut Vec<u8, A>,
    word: &str,
    writer: Guid,
    number: u64,
) -> Result<(), AllocError>
    ensures ok { OnOk result (out.new.items ≡ out.old.items ++
        (word.now then guid_text writer then decimal number)) }
    ensures keeps { StartsWith out.new.items out.old.items }
{
    push_about(out, word, writer)?;
    push_octet(out, b' ')?;
    push_number(out, number)
}
