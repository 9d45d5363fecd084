//! Formatting and writing the results of a batch.

ghost use Rattle.std.specs.Prelude.{◌≡◌, ◌⊎◌, ◌++◌, [], IfErr, OnErr, OnOk};
ghost use Rattle.std.specs.Io.{StartsWith};
ghost use Rattle.rtps_records.specs.Runs.{Moves, PutsFront};
ghost use Rattle.rtps_records.specs.declared.fault.RunFault.TheVariants.{CannotWrite, NoMemory};
ghost use Rattle.rtps_run.specs.BatchOutput.{IsInOrder};
ghost use Rattle.rtps_run.specs.Order.{report_of, seen};
ghost use Rattle.rtps_text.specs.Batched.{batch_lines};
ghost use Rattle.rtps_text.specs.Replayed.{put_line};

use dds_topic::TextCatalog;
use rtps_lines::{LastLines, push_answer, push_notice};
use rtps_records::{Lines, RunFault};
use rtps_run::{BatchOutput, Item, in_order};
use rtps_types::Place;
use std::alloc::{AllocError, Allocator, Global};
use std::io::Write;
use std::marker::Model;
use std::mem;

/// Formats the results of a batch, item by item.
#[derive(Drop)]
struct ItemFormatter<'c, 'n, C: TextCatalog> {
    /// The lines that were formatted last, and the catalog.
    last: LastLines<'c, 'n, C>,
    /// The rank of the reader of the last notice, and the place of that notice.
    spot: Option<(u32, Place)>,
    /// The number of notices of that reader at that place before the last one.
    index: usize,
}

impl<'c, 'n, C: TextCatalog> Model for ItemFormatter<'c, 'n, C> {
    ghost Value = { C };

    ghost view = { λ f. f.last };
}

impl<'c, 'n, C: TextCatalog> ItemFormatter<'c, 'n, C> {
    /// Returns a formatter whose values the catalog formats. No memory is taken.
    fn new(alloc: Global, catalog: &'c C) -> ItemFormatter<'c, 'n, C>
        ensures { result ≡ catalog.now }
    {
        ItemFormatter {
            last: LastLines::none(alloc, catalog),
            spot: None,
            index: 0,
        }
    }

    /// Returns the number of notices of this reader at this place that came before, and counts one
    /// more.
    fn index_at(&mut self, rank: u32, place: Place) -> usize
        ensures { self.new ≡ self.old }
    {
        if self.spot == Some((rank, place)) {
            self.index = self.index.saturating_add(1);
        } else {
            self.spot = Some((rank, place));
            self.index = 0;
        }
        self.index
    }

    /// Adds the line of an item.
    fn push<A: Allocator>(
        &mut self,
        out: &mut Vec<u8, A>,
        item: Item<'n, C::Value>,
    ) -> Result<(), AllocError>
        ensures ok { OnOk result (out.new.items ≡ out.old.items
            ++ put_line (C.text_of self.old) (seen C.view (report_of item.entry))) }
        ensures keeps { StartsWith out.new.items out.old.items }
        ensures same { self.new ≡ self.old }
    {
        match item {
            Item::Notice(rank, notice) => {
                let index = self.index_at(rank, notice.place);
                push_notice(out, &mut self.last, rank, index, notice)
            }
            Item::Answer(_, (place, reply)) => {
                push_answer(out, *place, reply.to.as_slice(), reply.octets.as_slice())
            }
        }
    }
}

/// Adds the lines of the results of a batch.
pub(crate) fn push_items<'g, C: TextCatalog, A: Allocator>(
    alloc: Global,
    out: &mut Vec<u8, A>,
    catalog: &'g C,
    given: &'g BatchOutput<C::Value>,
) -> Result<(), AllocError>
    ensures { IsInOrder C.view given.now → OnOk result (out.new.items ≡ out.old.items
        ++ batch_lines (C.text_of catalog.now) C.view given.now) }
{
    let mut formatter = ItemFormatter::new(alloc, catalog);
    for item in in_order::<C>(alloc, given)? {
        formatter.push(out, item)?;
    }
    Ok(())
}

/// Adds the lines of the results of a batch, and writes the lines out whenever they are full.
///
/// Returns `CannotWrite` if a write fails, and `NoMemory` if memory runs out. A prefix of the lines
/// may have been written by then.
pub(crate) fn print_items<'g, C: TextCatalog, W: Write>(
    alloc: Global,
    lines: &mut Lines<'_, W>,
    catalog: &'g C,
    given: &'g BatchOutput<C::Value>,
) -> Result<(), RunFault>
    ensures same_writer { lines.new.writer.ghost_name ≡ lines.old.writer.ghost_name }
    ensures ok { IsInOrder C.view given.now → OnOk result (Moves
        (W.contents lines.old.writer.now) (W.contents lines.new.writer.now)
        (lines.old.text.items ++ batch_lines (C.text_of catalog.now) C.view given.now)
        lines.new.text.items) }
    ensures fault { IfErr result (λ fault. (fault ≡ CannotWrite) ⊎ (fault ≡ NoMemory)) }
    ensures front { IsInOrder C.view given.now → OnErr result (PutsFront
        (W.contents lines.old.writer.now) (W.contents lines.new.writer.now)
        (lines.old.text.items ++ batch_lines (C.text_of catalog.now) C.view given.now)) }
{
    let mut formatter = ItemFormatter::new(alloc, catalog);
    for item in in_order::<C>(alloc, given)? {
        formatter.push(&mut lines.text, item)?;
        lines.write_if_full()?;
    }
    Ok(())
}

/// Appends `text` to `whole`, without a copy if `whole` is empty. The contents of `text` afterwards
/// are of no use.
fn add_text(whole: &mut Vec<u8>, text: &mut Vec<u8>) -> Result<(), AllocError>
    ensures ok { OnOk result (whole.new.items ≡ whole.old.items ++ text.old.items) }
    ensures err { OnErr result (whole.new.items ≡ whole.old.items) }
{
    if whole.is_empty() {
        mem::swap(whole, text);
        return Ok(());
    }
    whole.append(text)
}

/// Adds a text that was formatted before, and writes the lines out if they are full. The text is
/// empty afterwards and keeps its memory, or that of the lines.
///
/// Returns `CannotWrite` if the write fails, and `NoMemory` if memory runs out. A prefix of the text
/// may have been written by then.
pub(crate) fn print_text<W: Write>(
    lines: &mut Lines<'_, W>,
    text: &mut Vec<u8>,
) -> Result<(), RunFault>
    ensures none { text.new.items ≡ [] }
    ensures same_writer { lines.new.writer.ghost_name ≡ lines.old.writer.ghost_name }
    ensures ok { OnOk result (Moves
        (W.contents lines.old.writer.now) (W.contents lines.new.writer.now)
        (lines.old.text.items ++ text.old.items) lines.new.text.items) }
    ensures fault { IfErr result (λ fault. (fault ≡ CannotWrite) ⊎ (fault ≡ NoMemory)) }
    ensures front { OnErr result (PutsFront
        (W.contents lines.old.writer.now) (W.contents lines.new.writer.now)
        (lines.old.text.items ++ text.old.items)) }
{
    let added = add_text(&mut lines.text, text);
    text.clear();
    added?;
    lines.write_if_full()
}
