//! The lines that were formatted last.

ghost use Rattle.std.specs.Prelude.{◌≡◌, ◌++◌, All, OnOk};
ghost use Rattle.std.specs.Io.{StartsWith};
ghost use Rattle.rtps_reader.specs.Notice.{notice_view};
ghost use Rattle.rtps_lines.specs.Notice.{heard_line};

use crate::last_line::LastLine;
use crate::last_start::LastStart;
use crate::notice::push_heard;
use dds_topic::TextCatalog;
use rtps_reader::Notice;
use std::alloc::{AllocError, Allocator, Global};
use std::marker::Model;

/// The most lines that are kept.
const MOST: usize = 64;

/// The lines of the notices of one reader at one place, as far as they are kept, since the next
/// reader of the same topic often has the same ones there.
#[derive(Drop)]
pub struct LastLines<'c, 'n, C: TextCatalog, A: Allocator = Global> {
    alloc: A,
    /// The catalog that formats the values.
    catalog: &'c C,
    start: LastStart<A>,
    /// The lines, by the number of the reader's notices before each.
    lines: Vec<LastLine<'c, 'n, C, A>, A>,
    ghost same: { All (λ l. l ≡ catalog.now) lines.items },
}

impl<'c, 'n, C: TextCatalog, A: Allocator> Model for LastLines<'c, 'n, C, A> {
    ghost Value = { C };

    ghost view = { λ l. l.catalog.now };
}

impl<'c, 'n, C: TextCatalog, A: Allocator + Copy> LastLines<'c, 'n, C, A> {
    /// Returns no lines. The catalog is to format the values. No memory is taken.
    pub fn none(alloc: A, catalog: &'c C) -> LastLines<'c, 'n, C, A>
        ensures { result ≡ catalog.now }
    {
        LastLines {
            alloc,
            catalog,
            start: LastStart::none(alloc),
            lines: Vec::new(alloc),
        }
    }

    /// Appends the line of a notice of the reader of this rank. `index` is the number of that
    /// reader's notices at the same place that came before.
    pub(crate) fn push<B: Allocator>(
        &mut self,
        out: &mut Vec<u8, B>,
        rank: u32,
        index: usize,
        notice: &'n Notice<C::Value>,
    ) -> Result<(), AllocError>
        ensures ok { OnOk result (out.new.items ≡ out.old.items
            ++ heard_line (C.text_of self.old) rank (notice_view C.view notice.now)) }
        ensures keeps { StartsWith out.new.items out.old.items }
        ensures same { self.new ≡ self.old }
    {
        if index == self.lines.len() && index < MOST {
            self.lines.push(LastLine::none(self.alloc, self.catalog))?;
        }
        let Some(line) = self.lines.get_mut(index) else {
            push_heard(out, &mut self.start, self.catalog, rank, notice)?;
            return Ok(());
        };
        line.push(out, &mut self.start, rank, notice)
    }
}
