//! Contents of valid octets.

use super::{PREFIX, READER, WRITER, only};
use crate::*;
use rtps_types::{KeyHash, SnSet, Timestamp};
use std::test::Fail;

/// The first octets of a message, and the expected result of reading its header.
#[derive(Clone, Copy)]
struct Opening<'a> {
    octets: &'a [u8],
    answer: Result<Header, HeaderFault>,
}

#[test]
fn the_first_fault_of_a_header_is_answered(rt: HostRuntime) {
    let table = [
        Opening {
            octets: b"RTPS\x02\x03\x01\x10\x01\x02\x03\x04\x05\x06\x07\x08\x09\x0a\x0b\x0c\xff",
            answer: Ok(Header {
                version: [2, 3],
                vendor: [1, 0x10],
                prefix: PREFIX,
            }),
        },
        Opening {
            octets: b"RTPX\x03\x05\x00\x00\x01\x02\x03\x04\x05\x06\x07\x08\x09\x0a\x0b",
            answer: Err(HeaderFault::Short),
        },
        Opening {
            octets: b"",
            answer: Err(HeaderFault::Short),
        },
        Opening {
            octets: b"RTPX\x03\x05\x00\x00\x01\x02\x03\x04\x05\x06\x07\x08\x09\x0a\x0b\x0c",
            answer: Err(HeaderFault::NotRtps),
        },
        Opening {
            octets: b"RTPS\x03\x05\x00\x00\x01\x02\x03\x04\x05\x06\x07\x08\x09\x0a\x0b\x0c",
            answer: Err(HeaderFault::Version),
        },
        Opening {
            octets: b"RTPS\x01\x05\x00\x00\x01\x02\x03\x04\x05\x06\x07\x08\x09\x0a\x0b\x0c",
            answer: Err(HeaderFault::Version),
        },
    ];
    for row in &table {
        assert_eq!(rt; header(row.octets), row.answer);
    }
}

#[test]
fn a_heartbeat_in_either_order(rt: HostRuntime) -> Result<(), Fail> {
    let either = [
        b"\x07\x07\x1c\x00\
          \x00\x00\x01\x07\x00\x00\x01\x02\
          \x00\x00\x00\x00\x03\x00\x00\x00\
          \x01\x00\x00\x00\x05\x00\x00\x00\
          \xfe\xff\xff\xff",
        b"\x07\x06\x00\x1c\
          \x00\x00\x01\x07\x00\x00\x01\x02\
          \x00\x00\x00\x00\x00\x00\x00\x03\
          \x00\x00\x00\x01\x00\x00\x00\x05\
          \xff\xff\xff\xfe",
    ];
    for octets in either {
        let Some(Parts::Heartbeat(heartbeat)) = only(octets) else {
            return Err("no heartbeat".into());
        };
        let expected = Heartbeat {
            reader: READER,
            writer: WRITER,
            first: 3,
            last: (1 << 32) + 5,
            count: -2,
            final_flag: true,
            liveliness: true,
        };
        assert_eq!(rt; heartbeat, expected);
    }
    Ok(())
}

#[test]
fn a_gap_in_either_order(rt: HostRuntime) -> Result<(), Fail> {
    let either = [
        b"\x08\x01\x20\x00\
          \x00\x00\x01\x07\x00\x00\x01\x02\
          \x00\x00\x00\x00\x02\x00\x00\x00\
          \x00\x00\x00\x00\x04\x00\x00\x00\
          \x03\x00\x00\x00\
          \x00\x00\x00\xa0",
        b"\x08\x00\x00\x20\
          \x00\x00\x01\x07\x00\x00\x01\x02\
          \x00\x00\x00\x00\x00\x00\x00\x02\
          \x00\x00\x00\x00\x00\x00\x00\x04\
          \x00\x00\x00\x03\
          \xa0\x00\x00\x00",
    ];
    for octets in either {
        let Some(Parts::Gap(gap)) = only(octets) else {
            return Err("no gap".into());
        };
        let expected = Gap {
            reader: READER,
            writer: WRITER,
            start: 2,
            list: SnSet {
                base: 4,
                bits: 3,
                words: [0xa000_0000, 0, 0, 0, 0, 0, 0, 0],
            },
        };
        assert_eq!(rt; gap, expected);
    }
    Ok(())
}

#[test]
fn a_heartbeat_of_fragments_in_either_order(rt: HostRuntime) -> Result<(), Fail> {
    let either = [
        b"\x13\x01\x18\x00\
          \x00\x00\x01\x07\x00\x00\x01\x02\
          \x00\x00\x00\x00\x07\x00\x00\x00\
          \x02\x01\x00\x00\
          \x04\x03\x02\x01",
        b"\x13\x00\x00\x18\
          \x00\x00\x01\x07\x00\x00\x01\x02\
          \x00\x00\x00\x00\x00\x00\x00\x07\
          \x00\x00\x01\x02\
          \x01\x02\x03\x04",
    ];
    for octets in either {
        let Some(Parts::HeartbeatFrag(heartbeat)) = only(octets) else {
            return Err("no heartbeat of fragments".into());
        };
        let expected = HeartbeatFrag {
            reader: READER,
            writer: WRITER,
            number: 7,
            last: 0x0102,
            count: 0x0102_0304,
        };
        assert_eq!(rt; heartbeat, expected);
    }
    Ok(())
}

#[test]
fn a_time_in_either_order(rt: HostRuntime) -> Result<(), Fail> {
    let either = [
        b"\x09\x01\x08\x00\
          \x01\x00\x00\x65\
          \x00\x00\x00\x80",
        b"\x09\x00\x00\x08\
          \x65\x00\x00\x01\
          \x80\x00\x00\x00",
    ];
    for octets in either {
        let Some(Parts::InfoTimestamp(time)) = only(octets) else {
            return Err("no time".into());
        };
        let expected = Timestamp {
            seconds: 0x6500_0001,
            fraction: 0x8000_0000,
        };
        assert_eq!(rt; time, Some(expected));
    }
    Ok(())
}

#[test]
fn a_source_in_either_order(rt: HostRuntime) -> Result<(), Fail> {
    let either = [
        b"\x0c\x01\x14\x00\
          \xee\xee\xee\xee\x02\x04\x01\x10\
          \x01\x02\x03\x04\x05\x06\x07\x08\x09\x0a\x0b\x0c",
        b"\x0c\x00\x00\x14\
          \xee\xee\xee\xee\x02\x04\x01\x10\
          \x01\x02\x03\x04\x05\x06\x07\x08\x09\x0a\x0b\x0c",
    ];
    for octets in either {
        let Some(Parts::InfoSource(source)) = only(octets) else {
            return Err("no source".into());
        };
        let expected = InfoSource {
            version: [2, 4],
            vendor: [1, 0x10],
            prefix: PREFIX,
        };
        assert_eq!(rt; source, expected);
    }
    Ok(())
}

#[test]
fn a_destination_in_either_order(rt: HostRuntime) -> Result<(), Fail> {
    let either = [
        b"\x0e\x01\x0c\x00\
          \x01\x02\x03\x04\x05\x06\x07\x08\x09\x0a\x0b\x0c",
        b"\x0e\x00\x00\x0c\
          \x01\x02\x03\x04\x05\x06\x07\x08\x09\x0a\x0b\x0c",
    ];
    for octets in either {
        let Some(Parts::InfoDestination(prefix)) = only(octets) else {
            return Err("no destination".into());
        };
        assert_eq!(rt; prefix, PREFIX);
    }
    Ok(())
}

/// The key hash of the changes below.
const HASH: KeyHash = KeyHash([
    0x10, 0x11, 0x12, 0x13, 0x14, 0x15, 0x16, 0x17, 0x18, 0x19, 0x1a, 0x1b, 0x1c, 0x1d, 0x1e, 0x1f,
]);

#[test]
fn a_change_in_either_order(rt: HostRuntime) -> Result<(), Fail> {
    let either = [
        b"\x15\x07\x39\x00\
          \x00\x00\x10\x00\
          \x00\x00\x01\x07\x00\x00\x01\x02\
          \x00\x00\x00\x00\x09\x00\x00\x00\
          \x71\x00\x04\x00\x00\x00\x00\x03\
          \x70\x00\x10\x00\
          \x10\x11\x12\x13\x14\x15\x16\x17\x18\x19\x1a\x1b\x1c\x1d\x1e\x1f\
          \x01\x00\x00\x00\
          \x00\x01\x00\x00\xab",
        b"\x15\x06\x00\x39\
          \x00\x00\x00\x10\
          \x00\x00\x01\x07\x00\x00\x01\x02\
          \x00\x00\x00\x00\x00\x00\x00\x09\
          \x00\x71\x00\x04\x00\x00\x00\x03\
          \x00\x70\x00\x10\
          \x10\x11\x12\x13\x14\x15\x16\x17\x18\x19\x1a\x1b\x1c\x1d\x1e\x1f\
          \x00\x01\x00\x00\
          \x00\x01\x00\x00\xab",
    ];
    for octets in either {
        let Some(Parts::Data(data)) = only(octets) else {
            return Err("no change".into());
        };
        assert_eq!(rt;
            (data.reader, data.writer, data.number),
            (READER, WRITER, 9)
        );
        assert_eq!(rt;
            (data.info.form, data.info.status, data.info.hash),
            (Form::Value, 3, Some(HASH))
        );
        assert_eq!(rt; data.payload, b"\x00\x01\x00\x00\xab".as_slice());
    }
    Ok(())
}

/// The same DATA_FRAG twice, in little-endian and in big-endian order: fragments 3 and 4 of a key.
const FRAGMENTS: [&[u8; 65]; 2] = [
    b"\x16\x07\x3d\x00\
      \x00\x00\x1c\x00\
      \x00\x00\x01\x07\x00\x00\x01\x02\
      \x00\x00\x00\x00\x09\x00\x00\x00\
      \x03\x00\x00\x00\x02\x00\x04\x00\x0d\x00\x00\x00\
      \x70\x00\x10\x00\
      \x10\x11\x12\x13\x14\x15\x16\x17\x18\x19\x1a\x1b\x1c\x1d\x1e\x1f\
      \x01\x00\x00\x00\
      \x01\x02\x03\x04\x05",
    b"\x16\x06\x00\x3d\
      \x00\x00\x00\x1c\
      \x00\x00\x01\x07\x00\x00\x01\x02\
      \x00\x00\x00\x00\x00\x00\x00\x09\
      \x00\x00\x00\x03\x00\x02\x00\x04\x00\x00\x00\x0d\
      \x00\x70\x00\x10\
      \x10\x11\x12\x13\x14\x15\x16\x17\x18\x19\x1a\x1b\x1c\x1d\x1e\x1f\
      \x00\x01\x00\x00\
      \x01\x02\x03\x04\x05",
];

#[test]
fn fragments_in_either_order(rt: HostRuntime) -> Result<(), Fail> {
    for octets in FRAGMENTS {
        let Some(Parts::DataFrag(data)) = only(octets) else {
            return Err("no fragments".into());
        };
        assert_eq!(rt;
            (data.reader, data.writer, data.number),
            (READER, WRITER, 9)
        );
        assert_eq!(rt;
            (data.start, data.count, data.size, data.sample),
            (3, 2, 4, 13)
        );
        assert_eq!(rt;
            (data.info.form, data.info.status, data.info.hash),
            (Form::Key, 0, Some(HASH))
        );
        assert_eq!(rt; data.payload, b"\x01\x02\x03\x04\x05".as_slice());
    }
    Ok(())
}
