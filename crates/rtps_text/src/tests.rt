//! Runs over record files and networks that were written by hand.

mod answers;
mod entries;
mod fragments;
mod listening;
mod matches;
mod moments;
mod runs;
mod sending;

use std::alloc::Global;
use std::io::{self, Error, ErrorKind, Read};
use std::test::Fail;

/// Returns the octets of these parts, which are in hex.
fn octets(alloc: Global, parts: &[&str]) -> Result<Vec<u8>, Fail> {
    let mut octets = Vec::new(alloc);
    for part in parts {
        octets.extend_from_slice(hex::decode(alloc, *part)?.as_slice())?;
    }
    Ok(octets)
}

/// Returns these lines, each with its line end.
fn text(alloc: Global, lines: &[&str]) -> Result<String, Fail> {
    let mut text = String::new(alloc);
    for line in lines {
        text.push_str(line)?;
        text.push_str("\n")?;
    }
    Ok(text)
}

/// A reader that delivers its octets, and then fails.
#[derive(Drop)]
pub(crate) struct Failing<'a>(pub(crate) &'a [u8]);

impl Read for Failing<'_> {
    fn read(&mut self, buf: &mut [u8]) -> io::Result<usize> {
        if self.0.is_empty() {
            return Err(Error::from(ErrorKind::Other));
        }
        let count = buf.len().min(self.0.len());
        buf[..count].copy_from_slice(&self.0[..count]);
        self.0 = &self.0[count..];
        Ok(count)
    }
}
