//! A file against lines written by hand, and what is left where memory is refused.

ghost use Rattle.std.specs.Prelude.{◌≤◌, length};

use crate::{explain, push_explained};
use linked_list_allocator::LocalHeap;
use rtps_receiver::Counters;
use rtps_records::RunFault;
use rtps_types::GuidPrefix;
use std::alloc::Global;
use std::test::Fail;

const OURS: GuidPrefix = GuidPrefix([0x0b; 12]);

/// A record file with one datagram of 60 octets, and then three octets of a length.
const FILE: [u8; 71] = [
    0x52, 0x44, 0x47, 0x31, 0, 0, 0, 60, //
    0x52, 0x54, 0x50, 0x53, 2, 3, 2, 5, 10, 10, 10, 10, 10, 10, 10, 10, 10, 10, 10, 10, //
    // DATA 1 from 00000102 to 00000107 with four octets of payload
    0x15, 0x05, 0x18, 0, 0, 0, 0x10, 0, 0, 0, 1, 7, 0, 0, 1, 2, 0, 0, 0, 0, 1, 0, 0, 0, //
    0xde, 0xad, 0xbe, 0xef, //
    // an unknown kind, with the flag 80, and an INFO_DST that is cut
    0x80, 0x81, 4, 0, 1, 2, 3, 4, 0x0e, 1, 12, 0, //
    0, 0, 0,
];

const TEXT: &str = "0:0 header 2.3 0205 0a0a0a0a0a0a0a0a0a0a0a0a
0:1 data ED 00000102 00000107 1 00 value 4 - event
0:2 unknown-80 E+80 not-for-readers
0:3 info-dst E 12 0 past-end
count datagrams 1
count short-header 0
count not-rtps 0
count other-version 0
count cut-header 0
count past-end 1
count invalid-body 0
count event 1
count not-for-readers 1
count other-destination 0
count number-too-great 0
";

#[test]
fn explains_a_file(rt: HostRuntime) -> Result<(), Fail> {
    let mut text = Vec::new(rt.alloc());
    let end = explain(rt.alloc(), OURS, &mut FILE.as_slice(), &mut text);
    assert_eq!(rt; end, Err(RunFault::CutRecord(1)));
    assert_eq!(rt; text.as_slice(), TEXT.as_bytes());
    Ok(())
}

/// Explains a datagram in a heap of this size. Returns whether memory was refused; then the text
/// begins as before, and nothing is counted.
fn is_refused(alloc: Global, size: usize) -> Result<bool, Fail> {
    let heap = LocalHeap::new(alloc, 65_536)?;
    let mut text = Vec::new(&heap);
    text.push(b'x')?;
    let others = Vec::<u8, _>::with_capacity(&heap, heap.free().saturating_sub(size))?;
    let mut counters = Counters::default();
    let refused = push_explained(&mut text, &mut counters, OURS, 0, &FILE[8..68]).is_err();
    drop(others);
    if text.first() != Some(&b'x') || refused != (counters == Counters::default()) {
        return Err(Fail::new("a refused call leaves counts"));
    }
    Ok(refused)
}

#[test]
fn refused_memory_counts_nothing(rt: HostRuntime) -> Result<(), Fail> {
    assert!(rt; is_refused(rt.alloc(), 64)?);
    assert!(rt; !is_refused(rt.alloc(), 4096)?);
    Ok(())
}
