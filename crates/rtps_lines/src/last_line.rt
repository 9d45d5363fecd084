//! A line that was formatted before.

ghost use Rattle.std.specs.Prelude.{◌≡◌, ◌++◌, IfOk, OnOk, false, length, slice_set, true};
ghost use Rattle.std.specs.Io.{StartsWith};
ghost use Rattle.std.specs.Option.{ForSome};
ghost use Rattle.rtps_reader.specs.Notice.{notice_view};
ghost use Rattle.rtps_lines.specs.Notice.{heard_line, start_text};

use crate::last_start::LastStart;
use crate::notice::{has_same_text, push_heard};
use dds_topic::TextCatalog;
use rtps_reader::Notice;
use std::alloc::{AllocError, Allocator};
use std::marker::Model;

/// The most octets of a line that are kept.
const LONGEST: usize = 512;

/// Ranks below this one have one digit.
const TEN: u32 = 10;

/// The line of a notice. Readers of one topic present the same changes, so the line of the next
/// reader often differs from it in the rank alone, which is then written over the digit of this
/// one.
#[derive(Drop)]
pub(crate) struct LastLine<'c, 'n, C: TextCatalog, A: Allocator> {
    /// The catalog that formats the values.
    catalog: &'c C,
    notice: Option<&'n Notice<C::Value>>,
    /// The line of the notice, of a reader whose rank has one digit.
    line: Vec<u8, A>,
    /// The index of that digit.
    index: usize,
    ghost line_right: { ForSome notice (λ n. slice_set line.items index 48
        ≡ heard_line (C.text_of catalog.now) 0 (notice_view C.view n.now)) },
    ghost index_right: { ForSome notice (λ n. index ≡ length (start_text n.now.place)) },
}

impl<'c, 'n, C: TextCatalog, A: Allocator> Model for LastLine<'c, 'n, C, A> {
    ghost Value = { C };

    ghost view = { λ l. l.catalog.now };
}

impl<'c, 'n, C: TextCatalog, A: Allocator + Copy> LastLine<'c, 'n, C, A> {
    /// Returns no line. No memory is taken.
    pub(crate) fn none(alloc: A, catalog: &'c C) -> LastLine<'c, 'n, C, A>
        ensures { result ≡ catalog.now }
    {
        LastLine {
            catalog,
            notice: None,
            line: Vec::new(alloc),
            index: 0,
        }
    }

    /// Appends the line of a notice of the reader of this rank, and keeps it unless it is long.
    pub(crate) fn push<B: Allocator>(
        &mut self,
        out: &mut Vec<u8, B>,
        start: &mut LastStart<A>,
        rank: u32,
        notice: &'n Notice<C::Value>,
    ) -> Result<(), AllocError>
        ensures ok { OnOk result (out.new.items ≡ out.old.items
            ++ heard_line (C.text_of self.old) rank (notice_view C.view notice.now)) }
        ensures keeps { StartsWith out.new.items out.old.items }
        ensures same { self.new ≡ self.old }
    {
        if self.push_again(out, rank, notice)? {
            return Ok(());
        }
        let before = out.len();
        let index = push_heard(out, start, self.catalog, rank, notice)?;
        self.keep(rank, notice, &out[before..], index)
    }

    /// Appends the line of a notice if it is known to be the last one but for the rank, and returns
    /// whether it is.
    fn push_again<B: Allocator>(
        &mut self,
        out: &mut Vec<u8, B>,
        rank: u32,
        notice: &Notice<C::Value>,
    ) -> Result<bool, AllocError>
        ensures again { IfOk result (λ again. again ≡ true → out.new.items ≡ out.old.items
            ++ heard_line (C.text_of self.old) rank (notice_view C.view notice.now)) }
        ensures other { IfOk result (λ again. again ≡ false → out.new.items ≡ out.old.items) }
        ensures keeps { StartsWith out.new.items out.old.items }
        ensures same { self.new ≡ self.old }
    {
        let Some(last) = self.notice else {
            return Ok(false);
        };
        if rank >= TEN || last.place != notice.place || !has_same_text(self.catalog, last, notice) {
            return Ok(false);
        }
        self.line[self.index] = b'0' + rank as u8;
        out.extend_from_slice(self.line.as_slice())?;
        Ok(true)
    }

    /// Keeps a notice and its line, unless that is long or the rank has more than one digit. `index`
    /// is that of the rank.
    fn keep(
        &mut self,
        rank: u32,
        notice: &'n Notice<C::Value>,
        line: &[u8],
        index: usize,
    ) -> Result<(), AllocError>
        requires line { line.now
            ≡ heard_line (C.text_of self.old) rank (notice_view C.view notice.now) }
        requires index { index ≡ length (start_text notice.now.place) }
        ensures { self.new ≡ self.old }
    {
        self.notice = None;
        if rank >= TEN || line.len() > LONGEST {
            return Ok(());
        }
        self.line.clear();
        self.line.extend_from_slice(line)?;
        self.index = index;
        self.notice = Some(notice);
        Ok(())
    }
}
