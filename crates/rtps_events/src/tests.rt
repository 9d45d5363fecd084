//! Printing the events of a record file written by hand.

use crate::dump;
use rtps_records::RunFault;
use rtps_types::GuidPrefix;
use std::alloc::Global;
use std::io::{self, Error, ErrorKind, Read, Write};
use std::test::Fail;

const OURS: GuidPrefix = GuidPrefix([0x0b; 12]);

/// `RDG1` and two datagrams. The first has a time and then the five kinds of event; the second has
/// three events that leave out the optional parts.
const FILE: [&str; 14] = [
    "52444731",
    "000000e8",
    "52545053020501020102030405060708090a0b0c",
    "090108004433221188776655",
    "150b3c0000001000000001c7000001c200000000070000007100040000000003700010000f0e0d0c0b0a09080706050403020100010000000001000061626364",
    "1601240000001c00000001c7000001c2000000000800000001000000010004000800000000010000",
    "07071c00000001c7000001c200000000010000000000000007000000feffffff",
    "08012000000001c7000001c20000000003000000000000000500000003000000000000a0",
    "13011800000001c7000001c200000000080000000200000003000000",
    "0000006c",
    "52545053020501020102030405060708090a0b0c",
    "1501140000001000000001c7000001c20000000001000000",
    "08011c00000001c7000001c20000000003000000000000000500000000000000",
    "07011c00000001c7000001c20000000001000000000000000000000005000000",
];

/// The number of octets of the magic and the first record.
const FIRST: usize = 240;

const LINES: [&str; 8] = [
    "0:2 0102030405060708090a0b0c 11223344.55667788 000001c2 000001c7 data 7 03 key 0001000061626364 0f0e0d0c0b0a09080706050403020100",
    "0:3 0102030405060708090a0b0c 11223344.55667788 000001c2 000001c7 frag 8 00 value 1 1 4 8 00010000 -",
    "0:4 0102030405060708090a0b0c 11223344.55667788 000001c2 000001c7 heartbeat 1 7 -2 FL",
    "0:5 0102030405060708090a0b0c 11223344.55667788 000001c2 000001c7 gap 3 5 5,7",
    "0:6 0102030405060708090a0b0c 11223344.55667788 000001c2 000001c7 heartbeat-frag 8 2 3",
    "1:1 0102030405060708090a0b0c - 000001c2 000001c7 data 1 00 none - -",
    "1:2 0102030405060708090a0b0c - 000001c2 000001c7 gap 3 5 -",
    "1:3 0102030405060708090a0b0c - 000001c2 000001c7 heartbeat 1 0 5 -",
];

/// Returns the octets of these parts, which are in hex.
fn octets(alloc: Global, parts: &[&str]) -> Result<Vec<u8>, Fail> {
    let mut octets = Vec::new(alloc);
    for part in parts {
        octets.extend_from_slice(hex::decode(alloc, *part)?.as_slice())?;
    }
    Ok(octets)
}

/// Returns these lines, each with its line end.
fn text(alloc: Global, lines: &[&str]) -> Result<String, Fail> {
    let mut text = String::new(alloc);
    for line in lines {
        text.push_str(line)?;
        text.push_str("\n")?;
    }
    Ok(text)
}

/// A reader that delivers its octets, and then fails.
#[derive(Drop)]
struct Failing<'a>(&'a [u8]);

impl Read for Failing<'_> {
    fn read(&mut self, buf: &mut [u8]) -> io::Result<usize> {
        if self.0.is_empty() {
            return Err(Error::from(ErrorKind::Other));
        }
        let count = buf.len().min(self.0.len());
        buf[..count].copy_from_slice(&self.0[..count]);
        self.0 = &self.0[count..];
        Ok(count)
    }
}

/// A writer that takes nothing.
#[derive(Drop)]
struct Full;

impl Write for Full {
    fn write(&mut self, _: &[u8]) -> io::Result<usize> {
        Err(Error::from(ErrorKind::Other))
    }

    fn flush(&mut self) -> io::Result<()> {
        Ok(())
    }
}

#[test]
fn tells_of_both_where_a_read_fails_and_then_a_write(rt: HostRuntime) -> Result<(), Fail> {
    let file = octets(rt.alloc(), &FILE)?;
    let mut front = Failing(file.as_slice().get(..FIRST).ok_or("a front")?);
    let outcome = dump(rt.alloc(), OURS, &mut front, &mut Full);
    assert_eq!(rt; outcome, Err(RunFault::CannotReadNorWrite));
    let outcome = dump(rt.alloc(), OURS, &mut file.as_slice(), &mut Full);
    assert_eq!(rt; outcome, Err(RunFault::CannotWrite));
    Ok(())
}

#[test]
fn prints_the_records_before_a_read_that_fails(rt: HostRuntime) -> Result<(), Fail> {
    let file = octets(rt.alloc(), &FILE)?;
    let first = text(rt.alloc(), &LINES[..5])?;
    for read in [FIRST, FIRST + 2, FIRST + 50] {
        let front = file.as_slice().get(..read).unwrap_or(&[]);
        let mut out = Vec::new(rt.alloc());
        let outcome = dump(rt.alloc(), OURS, &mut Failing(front), &mut out);
        assert_eq!(rt; outcome, Err(RunFault::CannotRead), "at {read}");
        assert_eq!(rt; out.as_slice(), first.as_bytes(), "at {read}");
    }
    Ok(())
}
