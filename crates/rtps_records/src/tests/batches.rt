//! Tests of reading records in batches: they are those of the file however many are read at a
//! time, and a batch ends at the number asked for or where there is no room.

use super::{ENDS, FILE, TIMED, print_records};
use crate::{Batch, BatchEnd, Format, MAX_LEN, Records};
use std::alloc::Global;
use std::test::Fail;

#[test]
fn batches_have_the_records_of_each_file(rt: HostRuntime) -> Result<(), Fail> {
    let mut batch = Batch::new(rt.alloc())?;
    for (file, text, outcome) in ENDS {
        for most in [1, 2, 3, 4096] {
            let mut out = Vec::new(rt.alloc());
            let mut rest = file;
            let found = print_records(rt.alloc(), &mut batch, most, &mut rest, &mut out);
            assert_eq!(rt; found, outcome);
            assert_eq!(rt; out.as_slice(), text);
        }
    }
    Ok(())
}

#[test]
fn a_batch_has_as_many_records_as_are_asked_for(rt: HostRuntime) -> Result<(), Fail> {
    let mut file = FILE.as_slice();
    let mut records = Records::new(&mut file);
    let mut batch = Batch::new(rt.alloc())?;
    assert_eq!(rt; records.open(), Ok(Format::Rdg1));
    assert_eq!(rt; records.next_batch(&mut batch, 2), Ok(BatchEnd::More));
    let lent = batch.datagrams(rt.alloc())?;
    assert_eq!(rt; lent.len(), 2);
    assert!(rt; (lent[0].moment, lent[0].bytes) == (0, b"hi".as_slice()));
    assert!(rt; lent[1].bytes.is_empty());
    drop(lent);
    assert_eq!(rt; records.next_batch(&mut batch, 2), Ok(BatchEnd::End));
    let lent = batch.datagrams(rt.alloc())?;
    assert!(rt; lent.len() == 1 && lent[0].bytes == b"abc".as_slice());
    assert_eq!(rt; records.count(), 3);
    Ok(())
}

#[test]
fn a_batch_ends_at_a_tick(rt: HostRuntime) -> Result<(), Fail> {
    let mut file = TIMED.as_slice();
    let mut records = Records::new(&mut file);
    let mut batch = Batch::new(rt.alloc())?;
    assert_eq!(rt; records.open(), Ok(Format::Rdg2));
    let mut found = Vec::new(rt.alloc());
    for _ in 0..5u32 {
        let end = records.next_batch(&mut batch, 10)?;
        found.push((end, batch.len(), records.count()))?;
        assert_eq!(rt; batch.tick(), None);
        for datagram in batch.datagrams(rt.alloc())? {
            let is_first = datagram.moment == 0x1112_1314_1516_1718;
            assert_eq!(rt; is_first, datagram.bytes == b"hi".as_slice());
        }
        if let BatchEnd::Tick(moment) = end {
            batch.hold_tick(moment);
            assert_eq!(rt; (batch.tick(), batch.len()), (Some(moment), 1));
            assert!(rt; batch.datagrams(rt.alloc())?.is_empty());
        }
    }
    assert_eq!(rt;
        found.as_slice(),
        [
            (BatchEnd::Tick(0x0102_0304_0506_0708), 0, 1),
            (BatchEnd::Tick(5), 1, 3),
            (BatchEnd::Tick(u64::MAX), 0, 4),
            (BatchEnd::Tick(1 << 63), 2, 7),
            (BatchEnd::End, 0, 7),
        ]
        .as_slice()
    );
    Ok(())
}

#[test]
fn a_batch_is_empty_at_first_and_once_it_is_cleared(rt: HostRuntime) -> Result<(), Fail> {
    let mut batch = Batch::new(rt.alloc())?;
    assert!(rt; batch.datagrams(rt.alloc())?.is_empty());
    let mut file = FILE.as_slice();
    let mut records = Records::new(&mut file);
    assert_eq!(rt; records.open(), Ok(Format::Rdg1));
    assert_eq!(rt; records.next_batch(&mut batch, 2), Ok(BatchEnd::More));
    batch.clear();
    assert!(rt; batch.datagrams(rt.alloc())?.is_empty());
    Ok(())
}

/// Returns the number of records of the first batch of a file with seventeen records of the
/// greatest length.
fn longest(alloc: Global) -> Result<usize, Fail> {
    let mut file = b"RDG1".to_vec(alloc)?;
    let record = vec![in alloc; 0u8; MAX_LEN]?;
    for _ in 0..17_u32 {
        file.extend_from_slice(b"\0\0\xff\xe3")?;
        file.extend_from_slice(&record)?;
    }
    let mut rest = file.as_slice();
    let mut batch = Batch::new(alloc)?;
    let mut records = Records::new(&mut rest);
    records.open()?;
    records.next_batch(&mut batch, 4096)?;
    Ok(batch.datagrams(alloc)?.len())
}

#[test]
fn a_batch_ends_where_no_longest_record_has_room(rt: HostRuntime) -> Result<(), Fail> {
    assert_eq!(rt; longest(rt.alloc())?, 16);
    Ok(())
}
