//! What a participant says of its readers.

use super::*;

/// The record of a reader with the default policies.
const SQUARE: &str = "00030000 5a001000 0102030405060708090a0b0c 00000107 \
    50001000 0102030405060708090a0b0c 000001c1 \
    05000c00 07000000 5371756172650000 \
    07001000 0a000000 536861706554797065000000 \
    1d000400 00000000 21000800 00000000 00000000 \
    23000800 ffffff7f ffffffff 27000800 00000000 00000000 \
    1f000400 00000000 1b000c00 00000000 ffffff7f ffffffff \
    1a000c00 01000000 00000000 00000000 25000400 00000000 01000000";

/// The record of one whose policies all differ from those, in three partitions.
const PARTICULAR: &str = "00030000 5a001000 0102030405060708090a0b0c 00000107 \
    50001000 0102030405060708090a0b0c 000001c1 \
    05000c00 07000000 5371756172650000 \
    07001000 0a000000 536861706554797065000000 \
    1d000400 01000000 21000800 02000000 01000000 \
    23000800 01000000 00000040 27000800 ffffffff feffffff \
    1f000400 01000000 1b000c00 02000000 03000000 00000000 \
    1a000c00 02000000 00000000 00000000 25000400 01000000 \
    29001c00 03000000 02000000 61000000 04000000 62636400 01000000 00000000 01000000";

#[test]
fn a_record_with_the_default_policies(rt: HostRuntime) -> Result<(), Fail> {
    let record = ReaderRecord::new(rt.alloc(), OWN, &square(rt.alloc())?)?;
    assert_eq!(rt;
        record.as_slice(),
        octets_of(rt.alloc(), SQUARE, "")?.as_slice()
    );
    Ok(())
}

#[test]
fn a_record_has_all_policies_and_the_partitions(rt: HostRuntime) -> Result<(), Fail> {
    let record = ReaderRecord::new(rt.alloc(), OWN, &particular(rt.alloc())?)?;
    assert_eq!(rt;
        record.as_slice(),
        octets_of(rt.alloc(), PARTICULAR, "")?.as_slice()
    );
    Ok(())
}

/// The datagram of change 5 up to the record.
const IS_THERE: &str = "52545053 02050000 0102030405060708090a0b0c \
    0e010c00 0a0a0a0a0a0a0a0a0a0a0a0a \
    1505c400 00001000 000004c7 000004c2 00000000 05000000 ";

#[test]
fn a_reader_is_announced_by_its_record(rt: HostRuntime) -> Result<(), Fail> {
    let record = ReaderRecord::new(rt.alloc(), OWN, &square(rt.alloc())?)?;
    let octets = write_reader(rt.alloc(), OWN, PEER, number_of(5)?, &record)?;
    assert_eq!(rt;
        octets.as_slice(),
        octets_of(rt.alloc(), IS_THERE, SQUARE)?.as_slice()
    );
    Ok(())
}

/// Change 7.
const HAS_GONE: &str = "150b5000 00001000 000004c7 000004c2 00000000 07000000 \
    70001000 0102030405060708090a0b0c 00000107 71000400 00000003 01000000 \
    00030000 5a001000 0102030405060708090a0b0c 00000107 01000000";

#[test]
fn a_reader_that_has_gone(rt: HostRuntime) -> Result<(), Fail> {
    let octets = write_reader_gone(rt.alloc(), OWN, PEER, number_of(7)?, READER)?;
    assert_eq!(rt;
        octets.as_slice(),
        octets_of(rt.alloc(), FRONT, HAS_GONE)?.as_slice()
    );
    Ok(())
}

/// Returns a text of `count` octets.
fn text_of(alloc: Global, count: usize) -> Result<String, Fail> {
    let mut text = String::new(alloc);
    for _ in 0..count {
        text.push('x')?;
    }
    Ok(text)
}

/// Returns the length of the record of a reader with a topic of `count` octets, or its fault.
fn with_topic(alloc: Global, count: usize) -> Result<Result<usize, RecordFault>, Fail> {
    let mut reader = ReaderConfig::new(alloc, READER, "", "T")?;
    reader.topic = text_of(alloc, count)?;
    match ReaderRecord::new(alloc, OWN, &reader) {
        Ok(record) => Ok(Ok(record.as_slice().len())),
        Err(fault) => Ok(Err(fault)),
    }
}

#[test]
fn a_record_has_at_most_60000_octets(rt: HostRuntime) -> Result<(), Fail> {
    // 156 octets of all else, and the topic with its length and its NUL, filled up to a word
    assert_eq!(rt; with_topic(rt.alloc(), 0)?, Ok(164));
    assert_eq!(rt; with_topic(rt.alloc(), 3)?, Ok(164));
    assert_eq!(rt; with_topic(rt.alloc(), 4)?, Ok(168));
    assert_eq!(rt; with_topic(rt.alloc(), 59_839)?, Ok(60_000));
    assert_eq!(rt; with_topic(rt.alloc(), 59_840)?, Err(RecordFault::TooLong));
    assert_eq!(rt; with_topic(rt.alloc(), 60_001)?, Err(RecordFault::TooLong));
    Ok(())
}

#[test]
fn partitions_of_more_than_60000_octets(rt: HostRuntime) -> Result<(), Fail> {
    let mut reader = square(rt.alloc())?;
    let mut names = Vec::new(rt.alloc());
    for _ in 0..7 {
        names.push(text_of(rt.alloc(), 10_000)?)?;
    }
    reader.requested.partitions = Partitions::new(names);
    let record = ReaderRecord::new(rt.alloc(), OWN, &reader);
    assert!(rt; matches!(&record, Err(RecordFault::TooLong)));
    let mut names = Vec::new(rt.alloc());
    for _ in 0..5 {
        names.push(text_of(rt.alloc(), 10_000)?)?;
    }
    reader.requested.partitions = Partitions::new(names);
    let record = ReaderRecord::new(rt.alloc(), OWN, &reader)?;
    // 176 octets of all else, four of the parameter, four of the count, and 10,008 of each name,
    // whose NUL is followed by three octets up to the next one, or to the end
    assert_eq!(rt; record.as_slice().len(), 176 + 8 + 5 * 10_008);
    Ok(())
}
