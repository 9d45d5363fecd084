//! A text buffer before a writer.

ghost use Rattle.std.specs.Prelude.{◌≡◌, ◌≤◌, [], length, IfErr, OnErr, OnOk};
ghost use Rattle.std.specs.Io.KnownBytes.{Appends};
ghost use Rattle.rtps_records.specs.declared.fault.RunFault.TheVariants.{CannotWrite};
ghost use Rattle.rtps_records.specs.Runs.{PutsFront, Spills};

use crate::fault::RunFault;
use crate::transfer::{flush_all, put_all};
use std::alloc::Allocator;
use std::io::Write;

/// Text is written once the buffer has this many octets, so that there are few calls of the writer.
const KEPT_BACK: usize = 65_536;

/// A text that is written when it is long enough, and when it is closed.
pub struct Lines<'a, W, B: Drop = Vec<u8>> {
    writer: &'a mut W,
    /// The text that isn't written yet. The caller appends to it.
    pub text: B,
}

impl<W, B: Drop> Drop for Lines<'_, W, B> {
    fn drop(self)
        ensures { self.exit.0.now ≡ self.entry.writer.now }
    {
        let Lines { writer: _, text: _ } = self;
    }
}

impl<'a, W: Write, A: Allocator> Lines<'a, W, Vec<u8, A>> {
    /// Returns an empty text. No memory is taken.
    pub fn new(alloc: A, writer: &'a mut W) -> Lines<'a, W, Vec<u8, A>>
        ensures same_writer { result.writer.ghost_name ≡ writer.entry.ghost_name }
        ensures unwritten { result.writer.now ≡ writer.old }
        ensures empty { result.text.items ≡ [] }
    {
        Lines {
            writer,
            text: Vec::new(alloc),
        }
    }

    /// Writes and clears the text if it has 64 KiB or more; a shorter one is kept. A fault is
    /// always `CannotWrite`. Then a prefix of the text may have been written, and the text is
    /// unchanged.
    pub fn write_if_full(&mut self) -> Result<(), RunFault>
        ensures same_writer { self.new.writer.ghost_name ≡ self.old.writer.ghost_name }
        ensures ok { OnOk result (Spills (W.contents self.old.writer.now)
            (W.contents self.new.writer.now) self.old.text.items self.new.text.items) }
        ensures fault { IfErr result (λ fault. fault ≡ CannotWrite) }
        ensures front { OnErr result (PutsFront (W.contents self.old.writer.now)
            (W.contents self.new.writer.now) self.old.text.items) }
        ensures long { OnErr result (65536 ≤ length self.old.text.items) }
        ensures refused { OnErr result (self.new.text ≡ self.old.text) }
    {
        if self.text.len() < KEPT_BACK {
            return Ok(());
        }
        put_all(self.writer, self.text.as_slice())?;
        self.text.clear();
        Ok(())
    }

    /// Writes the text that was kept, and flushes the writer. A fault is always `CannotWrite`. Then
    /// a prefix of the text may have been written. The text is unchanged.
    pub fn close(&mut self) -> Result<(), RunFault>
        ensures same_writer { self.new.writer.ghost_name ≡ self.old.writer.ghost_name }
        ensures ok { OnOk result (Appends (W.contents self.old.writer.now)
            (W.contents self.new.writer.now) self.old.text.items) }
        ensures fault { IfErr result (λ fault. fault ≡ CannotWrite) }
        ensures front { OnErr result (PutsFront (W.contents self.old.writer.now)
            (W.contents self.new.writer.now) self.old.text.items) }
        ensures stays { self.new.text ≡ self.old.text }
    {
        put_all(self.writer, self.text.as_slice())?;
        flush_all(self.writer)
    }
}
