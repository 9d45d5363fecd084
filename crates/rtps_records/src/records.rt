//! The records of a record file, a batch at a time.

ghost use Rattle.std.specs.Prelude.{◌≡◌, ◌<◌, ◌≤◌, length, None, IfOk, IfErr, IfSome, OnErr, OnSome, OnOk};
ghost use Rattle.std.specs.Int.{w32, w64, to_be_bytes};
ghost use Rattle.std.specs.Io.KnownBytes.{Consumes, IsAtEnd};
ghost use Rattle.rtps_records.specs.Batches.{HasRead, IsFull, ReadsBatch, records_in};
ghost use Rattle.rtps_records.specs.Heads.{ReadsHead};
ghost use Rattle.rtps_records.specs.Parts.{FaultInside};
ghost use Rattle.rtps_records.specs.RecordFile.{FaultFirst, FaultHere, magic_of, stamp};
ghost use Rattle.rtps_records.specs.declared.batch_end.BatchEnd.TheVariants.{More};
ghost use Rattle.rtps_records.specs.declared.fault.RunFault.TheVariants.{NoMemory};
ghost use Rattle.rtps_records.specs.declared.format.Format.{Format};
ghost use Rattle.rtps_records.specs.declared.format.Format.TheVariants.{Rdg1, Rdg2};

use crate::batch::{Batch, MAX_LEN};
use crate::batch_end::BatchEnd;
use crate::fault::RunFault;
use crate::format::Format;
use crate::head::Head;
use crate::piece::Piece;
use crate::transfer::fill;
use std::alloc::Allocator;
use std::io::Read;

/// The length that marks a tick in `RDG2`.
const TICK: u32 = u32::MAX;

/// A reader of the records of a file, in order. It holds none of them: they are read into the
/// caller's batch.
///
/// ```text
/// let mut records = Records::new(&mut input);
/// records.open()?;
/// let mut batch = Batch::new(alloc)?;
/// let end = records.next_batch(&mut batch, 4)?;
/// // First the datagrams, at most four, and then the tick, if one comes after them.
/// let datagrams = batch.datagrams(alloc)?;
/// match end {
///     BatchEnd::More | BatchEnd::End => {}
///     BatchEnd::Tick(moment) => receiver.pass(alloc, moment)?,
///     BatchEnd::Fault(fault) => bail!("{fault}"),
/// }
/// ```
pub struct Records<'a, R> {
    pub(crate) reader: &'a mut R,
    /// The format of the file, once it is open.
    pub(crate) format: Format,
    /// The number of records read so far.
    pub(crate) count: u32,
}

impl<R> Drop for Records<'_, R> {
    fn drop(self)
        ensures { self.exit.0.now ≡ self.entry.reader.now }
    {
        let Records {
            reader: _,
            format: _,
            count: _,
        } = self;
    }
}

impl<'a, R: Read> Records<'a, R> {
    /// Makes a reader of the records of a file; call [`Records::open`] first. No memory is taken.
    pub fn new(reader: &'a mut R) -> Records<'a, R>
        ensures same_reader { result.reader.ghost_name ≡ reader.entry.ghost_name }
        ensures unread { result.reader.now ≡ reader.old }
        ensures count { result.count ≡ 0 }
    {
        Records {
            reader,
            format: Format::Rdg1,
            count: 0,
        }
    }

    /// Reads the four octets that a record file begins with, and returns its format.
    ///
    /// `NotRecordFile` where the file begins with other octets or is shorter, `CannotRead` where a
    /// read fails before that is known.
    pub fn open(&mut self) -> Result<Format, RunFault>
        ensures same_reader { self.new.reader.ghost_name ≡ self.old.reader.ghost_name }
        ensures count { self.new.count ≡ self.old.count }
        ensures format { IfOk result (λ format. self.new.format ≡ format) }
        ensures ok { IfOk result (λ format. Consumes (R.remaining self.old.reader.now)
            (R.remaining self.new.reader.now) (magic_of format)) }
        ensures fault { IfErr result (λ fault. FaultFirst fault
            (R.remaining self.old.reader.now) (R.remaining self.new.reader.now)) }
    {
        let mut head = [0u8; 4];
        let filled = fill(self.reader, &mut head);
        if filled.failed {
            return Err(RunFault::CannotRead);
        }
        if filled.count < 4 {
            return Err(RunFault::NotRecordFile);
        }
        self.format = match &head {
            b"RDG1" => Format::Rdg1,
            b"RDG2" => Format::Rdg2,
            _ => return Err(RunFault::NotRecordFile),
        };
        Ok(self.format)
    }

    /// The number of records read so far.
    pub fn count(&self) -> u32
        ensures { result ≡ self.now.count }
    {
        self.count
    }

    /// Replaces the records of a batch by the next datagrams of the file. It reads `most` of them;
    /// fewer if there is no room for one more of the greatest length, or at a tick, at the end of
    /// the file, or at its first fault. With [`BatchEnd::More`] there is at least one.
    ///
    /// At [`BatchEnd::Tick`] the tick was read, and counts as a record: call
    /// [`Batch::hold_tick`] to have it as the next batch, before more are read.
    ///
    /// A fault is `CutRecord` where the file ends inside a record, `RecordTooLong` for a length
    /// above 65,507 octets whatever follows it, except for the one that marks a tick in `RDG2`,
    /// `TooManyRecords` where there are octets after 4,294,967,295 records, and `CannotRead` where
    /// a read fails before a record is complete. Neither the end nor a fault counts as a record.
    ///
    /// An error is always `NoMemory`. The records that were read until then are in the batch, and
    /// no other record was read.
    pub fn next_batch<A: Allocator>(
        &mut self,
        batch: &mut Batch<A>,
        most: u16,
    ) -> Result<BatchEnd, RunFault>
        requires some { 1 ≤ most }
        ensures same_reader { self.new.reader.ghost_name ≡ self.old.reader.ghost_name }
        ensures same_format { self.new.format ≡ self.old.format }
        ensures reads { IfOk result (ReadsBatch self.old.format
            (R.remaining self.old.reader.now) (R.remaining self.new.reader.now)
            self.old.count self.new.count (records_in batch.new)) }
        ensures few { OnOk result (length (records_in batch.new) ≤ most) }
        ensures full { IfOk result (λ end. end ≡ More → IsFull most batch.new) }
        ensures fault { IfErr result (λ fault. fault ≡ NoMemory) }
        ensures refused { OnErr result (HasRead self.old.format
            (R.remaining self.old.reader.now) (R.remaining self.new.reader.now)
            self.old.count self.new.count (records_in batch.new)) }
    {
        batch.clear();
        while batch.len() < most as usize && batch.has_room() {
            match batch.read(self.reader, self.format, self.count)? {
                BatchEnd::More => self.count += 1,
                BatchEnd::Tick(moment) => {
                    self.count += 1;
                    return Ok(BatchEnd::Tick(moment));
                }
                end => return Ok(end),
            }
        }
        Ok(BatchEnd::More)
    }
}

/// Reads the record with this number, counted from 0: the octets of a datagram into the front of a
/// buffer. Returns the rest of the record, or `None` where the file ends.
#[tactic(auto, unfolding(crate::specs::Heads::ReadsHead))]
pub(crate) fn read_record<R: Read>(
    reader: &mut R,
    format: Format,
    buffer: &mut [u8],
    number: u32,
) -> Result<Option<Head>, RunFault>
    requires { 65507 ≤ length buffer.old }
    ensures reads { IfOk result (λ next. ReadsHead format next number
        (R.remaining reader.old) (R.remaining reader.new) buffer.new) }
    ensures fault { IfErr result (λ fault. FaultHere format fault number
        (R.remaining reader.old) (R.remaining reader.new)) }
{
    let Some(stated) = read_length(reader, number)? else {
        return Ok(None);
    };
    if format == Format::Rdg2 && stated == TICK {
        let moment = read_moment(reader, format, number)?;
        return Ok(Some(Head::Tick(moment)));
    }
    let length = stated as usize;
    if length > MAX_LEN {
        return Err(RunFault::RecordTooLong(number));
    }
    let moment = read_moment(reader, format, number)?;
    read_octets(reader, &mut buffer[..length], number)?;
    Ok(Some(Head::Datagram(Piece { moment, length })))
}

/// Reads the length of the record with this number, or `None` where the file ends.
fn read_length<R: Read>(reader: &mut R, number: u32) -> Result<Option<u32>, RunFault>
    ensures below { IfOk result (λ next. OnSome next (number < 4294967295)) }
    ensures some { IfOk result (λ next. IfSome next (λ stated.
        Consumes (R.remaining reader.old) (R.remaining reader.new) (to_be_bytes w32 stated))) }
    ensures none { IfOk result (λ next. next ≡ None → IsAtEnd (R.remaining reader.old)) }
    ensures fault { IfErr result (λ fault. (format : Format) → FaultHere format fault number
        (R.remaining reader.old) (R.remaining reader.new)) }
{
    let mut octets = [0u8; 4];
    let filled = fill(reader, &mut octets);
    if filled.count == 0 && !filled.failed {
        return Ok(None);
    }
    if filled.count > 0 && number == u32::MAX {
        return Err(RunFault::TooManyRecords);
    }
    if filled.failed {
        return Err(RunFault::CannotRead);
    }
    if filled.count < 4 {
        return Err(RunFault::CutRecord(number));
    }
    Ok(Some(length_of(&octets)))
}

/// Reads the moment of the record with this number. It is 0 in `RDG1`, and no octets are read.
fn read_moment<R: Read>(reader: &mut R, format: Format, number: u32) -> Result<u64, RunFault>
    ensures ok { IfOk result (λ moment.
        Consumes (R.remaining reader.old) (R.remaining reader.new) (stamp format moment)) }
    ensures zero { IfOk result (λ moment. format ≡ Rdg1 → moment ≡ 0) }
    ensures format { OnErr result (format ≡ Rdg2) }
    ensures fault { IfErr result (λ fault. FaultInside fault number 8
        (R.remaining reader.old) (R.remaining reader.new)) }
{
    if format == Format::Rdg1 {
        return Ok(0);
    }
    let mut octets = [0u8; 8];
    read_octets(reader, &mut octets, number)?;
    Ok(moment_of(&octets))
}

/// Reads octets of the record with this number until the buffer is full.
fn read_octets<R: Read>(reader: &mut R, buffer: &mut [u8], number: u32) -> Result<(), RunFault>
    ensures ok { OnOk result
        (Consumes (R.remaining reader.old) (R.remaining reader.new) buffer.new) }
    ensures fault { IfErr result (λ fault. FaultInside fault number (length buffer.old)
        (R.remaining reader.old) (R.remaining reader.new)) }
{
    let filled = fill(reader, buffer);
    if filled.failed {
        return Err(RunFault::CannotRead);
    }
    if filled.count < buffer.len() {
        return Err(RunFault::CutRecord(number));
    }
    Ok(())
}

/// Returns the length that four octets encode; each length has one encoding.
fn length_of(octets: &[u8; 4]) -> u32
    ensures { to_be_bytes w32 result ≡ octets.now }
{
    u32::from_be_bytes(*octets)
}

/// Returns the moment that eight octets encode; each moment has one encoding.
fn moment_of(octets: &[u8; 8]) -> u64
    ensures { to_be_bytes w64 result ≡ octets.now }
{
    u64::from_be_bytes(*octets)
}
