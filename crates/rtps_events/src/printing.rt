//! Printing a whole record file, datagram after datagram.

ghost use Rattle.std.specs.Prelude.{◌≡◌, ◌≤◌, ◌⊎◌, ◌+◌, ◌++◌, [], ◌∷◌, All, IfErr, IfOk, List, None, OnErr, OnOk, length, map, ℕ};
ghost use Rattle.rtps_records.specs.Batches.{record_of};
ghost use Rattle.rtps_records.specs.Runs.{Moves, PutsFront, Stops, WroteAll};
ghost use Rattle.rtps_records.specs.Text.{datagrams_of, text_from};
ghost use Rattle.rtps_records.specs.declared.fault.RunFault.TheVariants.{CannotWrite, NoMemory};
ghost use Rattle.rtps_events.specs.Printed.{goes_on, printed_text};

use rtps_records::{Batch, BatchEnd, Lines, Records, RunFault};
use rtps_types::Datagram;
use std::alloc::{AllocError, Global};
use std::io::{Read, Write};

/// The greatest number of records in memory at a time.
const BATCH: u16 = 64;

/// What is printed of datagrams that come one after the other.
pub trait DatagramText {
    ghost lines: { Self → ℕ → List ℕ → List ℕ };

    ghost ending: { Self → List (List ℕ) → List ℕ };

    /// Appends the lines of a datagram of at most 65,507 octets. `index` is its number in the file,
    /// counted from 0.
    fn push_datagram(
        &mut self,
        out: &mut Vec<u8>,
        index: u32,
        octets: &[u8],
    ) -> Result<(), AllocError>
        requires { length octets.now ≤ 65507 }
        ensures ok { OnOk result (out.new.items
            ≡ out.old.items ++ lines self.old index octets.now) }
        ensures same { OnOk result (lines self.new ≡ lines self.old) }
        ensures ending { OnOk result ((rest : List (List ℕ))
            → ending self.new rest ≡ ending self.old (octets.now ∷ rest)) };

    /// Appends what comes after the lines of the last datagram.
    fn push_ending(&self, out: &mut Vec<u8>) -> Result<(), AllocError>
        ensures { OnOk result (out.new.items ≡ out.old.items ++ ending self.now []) };
}

/// Reads a record file up to its end or its first fault, and writes the lines of its datagrams, and
/// then what comes after them, also if a record has a fault. `text` was given no datagram before.
///
/// At a fault of a record ([`RunFault::CutRecord`], [`RunFault::RecordTooLong`],
/// [`RunFault::TooManyRecords`]) or of a read, the text of the records before it was written. After
/// [`RunFault::CannotWrite`], [`RunFault::CannotReadNorWrite`] or [`RunFault::NoMemory`] a prefix of
/// that text may have been written, and of a file that is no record file nothing was.
///
/// The file is never in memory as a whole. In memory are the records of one batch, at most 1 MiB,
/// at most 64 KiB of text, and the lines of one datagram.
pub fn print_file<D: DatagramText, R: Read, W: Write>(
    alloc: Global,
    text: &mut D,
    reader: &mut R,
    writer: &mut W,
) -> Result<(), RunFault>
    ensures ok { OnOk result (WroteAll (printed_text (D.lines text.old) (D.ending text.old))
        (R.remaining reader.old) (W.contents writer.old) (W.contents writer.new) None) }
    ensures fault { IfErr result (λ fault. Stops
        (printed_text (D.lines text.old) (D.ending text.old)) fault
        (R.remaining reader.old) (R.remaining reader.new)
        (W.contents writer.old) (W.contents writer.new)) }
{
    let mut lines = Lines::new(alloc, writer);
    print_all(alloc, text, &mut Records::new(reader), &mut lines)
}

/// Whether more records may follow a batch.
fn goes_on(end: BatchEnd) -> bool
    ensures { result ≡ goes_on end }
{
    match end {
        BatchEnd::More | BatchEnd::Tick(_) => true,
        BatchEnd::End | BatchEnd::Fault(_) => false,
    }
}

/// Writes the lines of all datagrams, and then what comes after them.
fn print_all<D: DatagramText, R: Read, W: Write>(
    alloc: Global,
    text: &mut D,
    records: &mut Records<'_, R>,
    lines: &mut Lines<'_, W>,
) -> Result<(), RunFault>
    requires unread { records.old.count ≡ 0 }
    requires empty { lines.old.text.items ≡ [] }
    ensures same_reader { records.new.reader.ghost_name ≡ records.old.reader.ghost_name }
    ensures same_writer { lines.new.writer.ghost_name ≡ lines.old.writer.ghost_name }
    ensures ok { OnOk result (WroteAll (printed_text (D.lines text.old) (D.ending text.old))
        (R.remaining records.old.reader.now)
        (W.contents lines.old.writer.now) (W.contents lines.new.writer.now) None) }
    ensures fault { IfErr result (λ fault. Stops
        (printed_text (D.lines text.old) (D.ending text.old)) fault
        (R.remaining records.old.reader.now) (R.remaining records.new.reader.now)
        (W.contents lines.old.writer.now) (W.contents lines.new.writer.now)) }
{
    let mut batch = Batch::new(alloc)?;
    records.open()?;
    let mut next = 0;
    let mut end = BatchEnd::More;
    while goes_on(end) {
        end = records.next_batch(&mut batch, BATCH)?;
        next = print_datagrams(text, next, &batch.datagrams(alloc)?, lines)?;
    }
    text.push_ending(&mut lines.text)?;
    if let Err(fault) = lines.close() {
        return Err(fault.after(end));
    }
    match end {
        BatchEnd::Fault(fault) => Err(fault),
        _ => Ok(()),
    }
}

/// Adds the lines of these datagrams, of which the first has number `first`, and writes the lines
/// out whenever they are full. Returns the number of the next datagram.
///
/// Returns `CannotWrite` if a write fails, and `NoMemory` if memory runs out. A prefix of the lines
/// may have been written by then.
fn print_datagrams<D: DatagramText, W: Write>(
    text: &mut D,
    first: u32,
    datagrams: &[Datagram<'_>],
    lines: &mut Lines<'_, W>,
) -> Result<u32, RunFault>
    requires fit { All (λ d. length d.bytes.now ≤ 65507) datagrams.now }
    requires few { first + length datagrams.now ≤ 4294967295 }
    ensures same_writer { lines.new.writer.ghost_name ≡ lines.old.writer.ghost_name }
    ensures same { OnOk result (D.lines text.new ≡ D.lines text.old) }
    ensures ending { OnOk result ((rest : List (List ℕ)) → D.ending text.new rest
        ≡ D.ending text.old (datagrams_of (map record_of datagrams.now) ++ rest)) }
    ensures ok { OnOk result (Moves
        (W.contents lines.old.writer.now) (W.contents lines.new.writer.now)
        (lines.old.text.items
        ++ text_from (D.lines text.old) first (map record_of datagrams.now))
        lines.new.text.items) }
    ensures next { IfOk result (λ next. next ≡ first + length datagrams.now) }
    ensures fault { IfErr result (λ fault. (fault ≡ CannotWrite) ⊎ (fault ≡ NoMemory)) }
    ensures front { OnErr result (PutsFront
        (W.contents lines.old.writer.now) (W.contents lines.new.writer.now)
        (lines.old.text.items
        ++ text_from (D.lines text.old) first (map record_of datagrams.now))) }
{
    let mut number = first;
    for datagram in datagrams {
        text.push_datagram(&mut lines.text, number, datagram.bytes)?;
        lines.write_if_full()?;
        number += 1;
    }
    Ok(number)
}
