//! Tests of records and of lines with readers and writers that fail, and of a loop over both.

ghost use Rattle.std.specs.Prelude.{◌≤◌};

use crate::records::read_record;
use crate::{Batch, BatchEnd, Format, Lines, MAX_LEN, Records, RunFault};
use linked_list_allocator::LocalHeap;
use std::alloc::{Allocator, Global};
use std::io::{self, Error, ErrorKind, Read, Write};
use std::test::Fail;

mod batches;
mod receiving;

/// Prints a line for each record of a file, which is read into this batch, `most` records at a
/// time.
fn print_records<A: Allocator + Copy, R: Read, W: Write>(
    alloc: A,
    batch: &mut Batch<A>,
    most: u16,
    reader: &mut R,
    writer: &mut W,
) -> Result<(), RunFault>
    requires { 1 ≤ most }
{
    let mut lines = Lines::new(alloc, writer);
    print_all(alloc, batch, most, &mut Records::new(reader), &mut lines)
}

fn print_all<A: Allocator + Copy, R: Read, W: Write>(
    alloc: A,
    batch: &mut Batch<A>,
    most: u16,
    records: &mut Records<'_, R>,
    lines: &mut Lines<'_, W, Vec<u8, A>>,
) -> Result<(), RunFault>
    requires { 1 ≤ most }
{
    records.open()?;
    let mut number = 0;
    for _ in 0..u64::MAX {
        let end = records.next_batch(batch, most)?;
        number = push_records(alloc, &mut lines.text, batch, end, number)?;
        lines.write_if_full()?;
        match end {
            BatchEnd::More | BatchEnd::Tick(_) => {}
            BatchEnd::End => return lines.close(),
            BatchEnd::Fault(fault) => {
                lines.close()?;
                return Err(fault);
            }
        }
    }
    Ok(())
}

/// Prints the same with a batch of its own, many records at a time.
fn print_with<A: Allocator + Copy, R: Read, W: Write>(
    alloc: A,
    reader: &mut R,
    writer: &mut W,
) -> Result<(), RunFault> {
    let mut batch = Batch::new(alloc)?;
    print_records(alloc, &mut batch, 1024, reader, writer)
}

/// Appends a line for each datagram of a batch, and for the tick that ends it: its number, its
/// length or `tick`, and its moment, if that isn't 0. Returns the number of the next record.
fn push_records<A: Allocator + Copy>(
    alloc: A,
    text: &mut Vec<u8, A>,
    batch: &Batch<A>,
    end: BatchEnd,
    first: u64,
) -> Result<u64, RunFault> {
    let mut number = first;
    for datagram in batch.datagrams(alloc)? {
        push_datagram(text, number, datagram.bytes.len(), datagram.moment)?;
        number = number.saturating_add(1);
    }
    if let BatchEnd::Tick(moment) = end {
        push_tick(text, number, moment)?;
        number = number.saturating_add(1);
    }
    Ok(number)
}

fn push_datagram<A: Allocator>(
    text: &mut Vec<u8, A>,
    number: u64,
    length: usize,
    moment: u64,
) -> Result<(), RunFault> {
    let written = if moment == 0 {
        writeln!(text, "{number} {length}")
    } else {
        writeln!(text, "{number} {length} at {moment}")
    };
    match written {
        Ok(()) => Ok(()),
        Err(_) => Err(RunFault::NoMemory),
    }
}

fn push_tick<A: Allocator>(
    text: &mut Vec<u8, A>,
    number: u64,
    moment: u64,
) -> Result<(), RunFault> {
    match writeln!(text, "{number} tick at {moment}") {
        Ok(()) => Ok(()),
        Err(_) => Err(RunFault::NoMemory),
    }
}

/// A reader that returns its octets a few at a time, is interrupted before each read that succeeds,
/// and fails before one of the octets.
#[derive(Drop)]
struct Failing<'a> {
    octets: &'a [u8],
    at: usize,
    fails_at: usize,
    most: usize,
    is_interrupted: bool,
}

fn slow(octets: &[u8], fails_at: usize, most: usize) -> Failing<'_> {
    Failing {
        octets,
        at: 0,
        fails_at,
        most,
        is_interrupted: false,
    }
}

impl Read for Failing<'_> {
    fn read(&mut self, buf: &mut [u8]) -> io::Result<usize> {
        self.is_interrupted = !self.is_interrupted;
        if self.is_interrupted {
            return Err(Error::from(ErrorKind::Interrupted));
        }
        if self.at >= self.fails_at {
            return Err(Error::from(ErrorKind::Other));
        }
        let rest = self.octets.get(self.at..).unwrap_or(&[]);
        let most = self.most.min(self.fails_at - self.at);
        let n = buf.len().min(rest.len()).min(most);
        buf[..n].copy_from_slice(&rest[..n]);
        self.at = self.at.saturating_add(n);
        Ok(n)
    }
}

/// A writer that accepts a few octets a call, is interrupted before each call, and fails at one.
#[derive(Drop)]
struct Refusing {
    kept: Vec<u8>,
    calls: usize,
    fails_at: usize,
    most: usize,
    is_interrupted: bool,
}

impl Refusing {
    fn new(alloc: Global, fails_at: usize, most: usize) -> Refusing {
        Refusing {
            kept: Vec::new(alloc),
            calls: 0,
            fails_at,
            most,
            is_interrupted: false,
        }
    }

    /// Counts a call, and returns its result.
    fn turn(&mut self) -> io::Result<()> {
        self.is_interrupted = !self.is_interrupted;
        if self.is_interrupted {
            return Err(Error::from(ErrorKind::Interrupted));
        }
        if self.calls >= self.fails_at {
            return Err(Error::from(ErrorKind::BrokenPipe));
        }
        self.calls = self.calls.saturating_add(1);
        Ok(())
    }
}

impl Write for Refusing {
    fn write(&mut self, buf: &[u8]) -> io::Result<usize> {
        self.turn()?;
        let n = buf.len().min(self.most);
        self.kept.extend_from_slice(&buf[..n])?;
        Ok(n)
    }

    fn flush(&mut self) -> io::Result<()> {
        self.turn()
    }
}

const FILE: &[u8; 21] = b"RDG1\0\0\0\x02hi\0\0\0\0\0\0\0\x03abc";

const TEXT: &[u8; 12] = b"0 2\n1 0\n2 3\n";

/// The number of octets of `FILE` and of its text, at first and after each record.
const STEPS: [(usize, usize); 4] = [(4, 0), (10, 4), (14, 8), (21, 12)];

/// A file with ticks at its start, at its end, two in a row and one between datagrams.
const TIMED: &[u8; 93] = b"RDG2\
    \xff\xff\xff\xff\x01\x02\x03\x04\x05\x06\x07\x08\
    \0\0\0\x02\x11\x12\x13\x14\x15\x16\x17\x18hi\
    \xff\xff\xff\xff\0\0\0\0\0\0\0\x05\
    \xff\xff\xff\xff\xff\xff\xff\xff\xff\xff\xff\xff\
    \0\0\0\0\0\0\0\0\0\0\0\x09\
    \0\0\0\x03\0\0\0\0\0\0\0\0abc\
    \xff\xff\xff\xff\x80\0\0\0\0\0\0\0";

const TIMED_TEXT: &[u8; 141] = b"0 tick at 72623859790382856\n\
    1 2 at 1230066625199609624\n\
    2 tick at 5\n\
    3 tick at 18446744073709551615\n\
    4 0 at 9\n\
    5 3\n\
    6 tick at 9223372036854775808\n";

/// The number of octets of `TIMED` and of its text, at first and after each record.
const TIMED_STEPS: [(usize, usize); 8] = [
    (4, 0),
    (16, 28),
    (30, 55),
    (42, 67),
    (54, 98),
    (66, 107),
    (81, 111),
    (93, 141),
];

/// Returns the number of whole records in the first octets of a file of these steps, whether the
/// last of them ends there, and the length of their text.
fn step_at(steps: &[(usize, usize)], octets: usize) -> (u32, bool, usize) {
    let mut found = (0, false, 0);
    let mut number = 0_u32;
    for (end, text) in steps {
        if *end <= octets {
            found = (number, *end == octets, *text);
        }
        number = number.saturating_add(1);
    }
    found
}

/// Returns the result of a run over a file, and the text that it prints.
fn printed(alloc: Global, file: &[u8]) -> (Result<(), RunFault>, Vec<u8>) {
    let mut out = Vec::new(alloc);
    let mut rest = file;
    let outcome = print_with(alloc, &mut rest, &mut out);
    (outcome, out)
}

/// Files, the text that is printed of each, and how the run ends.
const ENDS: [(&[u8], &[u8], Result<(), RunFault>); 16] = [
    (FILE, TEXT, Ok(())),
    (TIMED, TIMED_TEXT, Ok(())),
    (b"RDG1", b"", Ok(())),
    (b"RDG2", b"", Ok(())),
    (b"", b"", Err(RunFault::NotRecordFile)),
    (b"RDG", b"", Err(RunFault::NotRecordFile)),
    (b"RDG3", b"", Err(RunFault::NotRecordFile)),
    (b"RDG1\0", b"", Err(RunFault::CutRecord(0))),
    (b"RDG1\xff\xff\xff", b"", Err(RunFault::CutRecord(0))),
    (
        b"RDG1\0\0\0\x01a\0\0\0\x10\xff\xff",
        b"0 1\n",
        Err(RunFault::CutRecord(1)),
    ),
    (b"RDG1\0\0\xff\xe3ab", b"", Err(RunFault::CutRecord(0))),
    (b"RDG1\0\0\xff\xe4ab", b"", Err(RunFault::RecordTooLong(0))),
    (
        b"RDG1\0\0\0\0\xff\xff\xff\xff",
        b"0 0\n",
        Err(RunFault::RecordTooLong(1)),
    ),
    (b"RDG2\0\0\xff\xe3", b"", Err(RunFault::CutRecord(0))),
    (b"RDG2\0\0\xff\xe4", b"", Err(RunFault::RecordTooLong(0))),
    (
        b"RDG2\xff\xff\xff\xfe",
        b"",
        Err(RunFault::RecordTooLong(0)),
    ),
];

#[test]
fn no_record_follows_the_greatest_number(rt: HostRuntime) -> Result<(), Fail> {
    let mut buffer = vec![in rt.alloc(); 0u8; MAX_LEN]?;
    let mut some = b"\0".as_slice();
    let mut none = b"".as_slice();
    let next = read_record(&mut some, Format::Rdg2, &mut buffer, u32::MAX);
    assert!(rt; matches!(&next, Err(RunFault::TooManyRecords)));
    let next = read_record(&mut none, Format::Rdg2, &mut buffer, u32::MAX);
    assert!(rt; matches!(&next, Ok(None)));
    Ok(())
}

#[test]
fn text_is_kept_back_until_it_is_long(rt: HostRuntime) -> Result<(), Fail> {
    let mut out = Counting::new(rt.alloc());
    let mut lines = Lines::new(rt.alloc(), &mut out);
    for _ in 0..65_535u32 {
        lines.text.push(0)?;
    }
    assert_eq!(rt; lines.write_if_full(), Ok(()));
    assert_eq!(rt; lines.text.len(), 65_535);
    lines.text.push(1)?;
    assert_eq!(rt; lines.write_if_full(), Ok(()));
    assert_eq!(rt; lines.text.len(), 0);
    lines.text.extend_from_slice(b"hi")?;
    assert_eq!(rt; lines.close(), Ok(()));
    drop(lines);
    assert_eq!(rt; out.kept.get(65_534..), Some(b"\0\x01hi".as_slice()));
    assert_eq!(rt; (out.writes, out.flushes), (2, 1));
    Ok(())
}

/// A writer that accepts all octets, and counts its calls.
#[derive(Drop)]
struct Counting {
    kept: Vec<u8>,
    writes: u32,
    flushes: u32,
}

impl Counting {
    fn new(alloc: Global) -> Counting {
        Counting {
            kept: Vec::new(alloc),
            writes: 0,
            flushes: 0,
        }
    }
}

impl Write for Counting {
    fn write(&mut self, buf: &[u8]) -> io::Result<usize> {
        self.writes = self.writes.saturating_add(1);
        self.kept.extend_from_slice(buf)?;
        Ok(buf.len())
    }

    fn flush(&mut self) -> io::Result<()> {
        self.flushes = self.flushes.saturating_add(1);
        Ok(())
    }
}

/// Returns the result of a run over a file that is read a few octets at a time, and its text.
fn read_slowly(
    alloc: Global,
    batch: &mut Batch,
    mut reader: Failing<'_>,
) -> (Result<(), RunFault>, Vec<u8>) {
    let mut out = Vec::new(alloc);
    let outcome = print_records(alloc, batch, 1, &mut reader, &mut out);
    (outcome, out)
}

#[test]
fn stops_at_each_octet(rt: HostRuntime) -> Result<(), Fail> {
    let mut batch = Batch::new(rt.alloc())?;
    let files: [(&[u8], &[u8], &[(usize, usize)]); 2] = [
        (FILE, TEXT, &STEPS),
        (TIMED, TIMED_TEXT, &TIMED_STEPS),
    ];
    for (file, text, steps) in files {
        for at in 0..file.len() + 1 {
            let (number, is_end, length) = step_at(steps, at);
            let ends = match at {
                0..=3 => Err(RunFault::NotRecordFile),
                _ if is_end => Ok(()),
                _ => Err(RunFault::CutRecord(number)),
            };
            let wanted = text.get(..length).ok_or("a front")?;
            for most in [1, 2, 5] {
                let cut = slow(file.get(..at).ok_or("a front")?, usize::MAX, most);
                let (outcome, out) = read_slowly(rt.alloc(), &mut batch, cut);
                assert_eq!(rt; outcome, ends, "cut at {at}");
                assert_eq!(rt; out.as_slice(), wanted, "cut at {at}");
                let fails = slow(file, at, most);
                let (outcome, out) = read_slowly(rt.alloc(), &mut batch, fails);
                assert_eq!(rt; outcome, Err(RunFault::CannotRead), "fails at {at}");
                assert_eq!(rt; out.as_slice(), wanted, "fails at {at}");
            }
        }
    }
    Ok(())
}

#[test]
fn writes_a_front_at_each_fault(rt: HostRuntime) -> Result<(), Fail> {
    let mut batch = Batch::new(rt.alloc())?;
    // Twelve calls write the octets one by one, and the thirteenth is the flush.
    for calls in 0..14 {
        let mut writer = Refusing::new(rt.alloc(), calls, 1);
        let mut file = FILE.as_slice();
        let outcome = print_records(rt.alloc(), &mut batch, 1, &mut file, &mut writer);
        let wanted = if calls == 13 {
            Ok(())
        } else {
            Err(RunFault::CannotWrite)
        };
        assert_eq!(rt; outcome, wanted);
        assert_eq!(rt;
            writer.kept.as_slice(),
            TEXT.get(..calls.min(12)).ok_or("a front")?
        );
    }
    let mut writer = Refusing::new(rt.alloc(), 99, 0);
    let mut file = b"RDG1\0\0\0\0\0".as_slice();
    let outcome = print_records(rt.alloc(), &mut batch, 1, &mut file, &mut writer);
    assert_eq!(rt;
        outcome,
        Err(RunFault::CannotWrite),
        "in place of the cut record"
    );
    Ok(())
}

#[test]
fn stops_where_a_growth_is_refused(rt: HostRuntime) -> Result<(), Fail> {
    let files: [(&[u8], &[u8]); 2] = [(FILE, TEXT), (TIMED, TIMED_TEXT)];
    for (file, text) in files {
        let mut refused = 0;
        for step in 0..60 {
            let heap = LocalHeap::new(rt.alloc(), 65_460 + step * 16)?;
            let mut out = Vec::new(rt.alloc());
            let mut rest = file;
            let outcome = print_with(&heap, &mut rest, &mut out);
            if outcome.is_ok() {
                assert_eq!(rt; out.as_slice(), text);
            } else {
                refused = step;
                assert_eq!(rt; outcome, Err(RunFault::NoMemory), "at {step}");
                assert_eq!(rt; out.len(), 0);
            }
        }
        assert!(rt; 0 < refused && refused < 59);
    }
    Ok(())
}

/// Returns a file of 12,000 empty records, and the text of its run, which is longer than one write.
fn long_file(alloc: Global) -> Result<(Vec<u8>, String), Fail> {
    let mut file = b"RDG1".to_vec(alloc)?;
    let mut text = String::new(alloc);
    for number in 0..12_000u32 {
        file.extend_from_slice(&[0; 4])?;
        writeln!(text, "{number} 0")?;
    }
    Ok((file, text))
}

#[test]
fn writes_long_texts_in_parts(rt: HostRuntime) -> Result<(), Fail> {
    let (file, text) = long_file(rt.alloc())?;
    let (outcome, out) = printed(rt.alloc(), file.as_slice());
    assert_eq!(rt; outcome, Ok(()));
    assert_eq!(rt; out.as_slice(), text.as_bytes());
    Ok(())
}

#[test]
fn writes_a_part_of_a_long_text_before_a_fault(rt: HostRuntime) -> Result<(), Fail> {
    let (file, text) = long_file(rt.alloc())?;
    let mut writer = Refusing::new(rt.alloc(), 1, usize::MAX);
    let mut rest = file.as_slice();
    let outcome = print_with(rt.alloc(), &mut rest, &mut writer);
    assert_eq!(rt; outcome, Err(RunFault::CannotWrite));
    assert!(rt; text.as_bytes().starts_with(writer.kept.as_slice()));
    assert!(rt; 0 < writer.kept.len() && writer.kept.len() < text.len());
    Ok(())
}

/// Whether a long text is written completely with this much memory; else a part of it is written.
fn is_written_whole(alloc: Global, file: &[u8], text: &str, memory: usize) -> Result<bool, Fail> {
    let heap = LocalHeap::new(alloc, memory)?;
    let mut out = Vec::new(alloc);
    let mut rest = file;
    let outcome = print_with(&heap, &mut rest, &mut out);
    if !text.as_bytes().starts_with(out.as_slice()) {
        return Err(Fail::new("no front of the text"));
    }
    match outcome {
        Ok(()) if out.len() == text.len() => Ok(true),
        Err(RunFault::NoMemory) => Ok(false),
        _ => Err(Fail::new("another outcome")),
    }
}

#[test]
fn writes_a_part_of_a_long_text_out_of_memory(rt: HostRuntime) -> Result<(), Fail> {
    let (file, text) = long_file(rt.alloc())?;
    let mut refused = 0;
    for step in 0..20 {
        let memory = 217_000 + step * 16_384;
        if !is_written_whole(rt.alloc(), file.as_slice(), text.as_str(), memory)? {
            refused = step;
        }
    }
    assert!(rt; 0 < refused && refused < 19);
    Ok(())
}
