//! Tests of lines against lines written by hand.

use crate::{LastLines, push_answer, push_match, push_notice, push_status};
use dds_topic::{Catalog, Raw, RawValue};
use rtps_reader::{Body, Notice, NoticeKind, Status};
use rtps_types::{EntityId, Guid, GuidPrefix, KeyHash, Locator, Number, Place, PolicyId};
use std::alloc::{AllocError, Global};
use std::test::Fail;

const PLACE: Place = Place {
    datagram: 4_294_967_296,
    submessage: 2,
};

const WRITER: Guid = Guid {
    prefix: GuidPrefix([1, 2, 3, 4, 5, 6, 7, 8, 9, 10, 11, 12]),
    entity: EntityId([0, 0, 1, 0xc2]),
};

const OTHER: Guid = Guid {
    prefix: GuidPrefix([1, 2, 3, 4, 5, 6, 7, 8, 9, 10, 11, 12]),
    entity: EntityId([0, 0, 2, 0xc2]),
};

const HERE: Locator = Locator {
    port: 7410,
    address: [192, 0, 2, 17],
};

const THERE: Locator = Locator {
    port: 65535,
    address: [10, 20, 30, 255],
};

/// Returns the line of a notice of the reader of rank 3.
fn heard(alloc: Global, what: NoticeKind<RawValue>) -> Result<Vec<u8>, Fail> {
    let notice = Notice {
        place: PLACE,
        writer: WRITER,
        what,
    };
    let mut out = Vec::new(alloc);
    push_notice(&mut out, &mut LastLines::none(alloc, &Raw), 3, 0, &notice)?;
    Ok(out)
}

#[test]
fn prints_what_is_reported_of_matches(rt: HostRuntime) -> Result<(), Fail> {
    let lines: [(NoticeKind<RawValue>, &str); 4] = [
        (
            NoticeKind::Matched,
            "4294967296:2 reader 3 matched 0102030405060708090a0b0c000001c2\n",
        ),
        (
            NoticeKind::Unmatched,
            "4294967296:2 reader 3 unmatched 0102030405060708090a0b0c000001c2\n",
        ),
        (
            NoticeKind::Incompatible {
                policy: PolicyId::Reliability,
            },
            "4294967296:2 reader 3 incompatible 0102030405060708090a0b0c000001c2 11\n",
        ),
        (
            NoticeKind::Lost {
                count: 4_611_686_018_427_387_904,
            },
            "4294967296:2 reader 3 lost 0102030405060708090a0b0c000001c2 4611686018427387904\n",
        ),
    ];
    for (what, line) in lines {
        let out = heard(rt.alloc(), what)?;
        assert_eq!(rt; out.as_slice(), line.as_bytes(), "for {line}");
    }
    Ok(())
}

/// Returns the lines of notices, each of the reader of a rank and with the number of its notices
/// before, by one list of the lines that were formatted last.
fn lines_of(
    alloc: Global,
    notices: &[(u32, usize, Notice<RawValue>)],
) -> Result<Vec<u8>, AllocError> {
    let mut last = LastLines::none(alloc, &Raw);
    let mut out = Vec::new(alloc);
    for (rank, index, notice) in notices {
        push_notice(&mut out, &mut last, *rank, *index, notice)?;
    }
    Ok(out)
}

/// Three lines, of two places and two writers.
#[test]
fn prints_lines_one_after_the_other(rt: HostRuntime) -> Result<(), Fail> {
    let next = Place {
        submessage: 3,
        ..PLACE
    };
    let notices = [(PLACE, WRITER), (PLACE, OTHER), (next, OTHER)].map(|(place, writer)| {
        let notice = Notice {
            place,
            writer,
            what: NoticeKind::Matched,
        };
        (0, 0, notice)
    });
    let out = lines_of(rt.alloc(), &notices)?;
    assert_eq!(rt;
        out.as_slice(),
        b"4294967296:2 reader 0 matched 0102030405060708090a0b0c000001c2
4294967296:2 reader 0 matched 0102030405060708090a0b0c000002c2
4294967296:3 reader 0 matched 0102030405060708090a0b0c000002c2
"
            .as_slice()
    );
    Ok(())
}

/// Returns a notice of the change 7 of a writer, with this octet.
fn sample(alloc: Global, writer: Guid, octet: u8) -> Result<Notice<RawValue>, Fail> {
    Ok(Notice {
        place: PLACE,
        writer,
        what: NoticeKind::Sample {
            number: Number::new(7).ok_or("a number")?,
            time: None,
            body: Body::Value(KeyHash([0; 16]), Raw.decode(alloc, 1, &[octet])?),
        },
    })
}

/// Two changes that four readers present, and one of another writer.
#[test]
fn prints_samples_of_readers_one_after_the_other(rt: HostRuntime) -> Result<(), Fail> {
    let alloc = rt.alloc();
    let notices = [
        (0, 0, sample(alloc, WRITER, 0xab)?),
        (0, 1, sample(alloc, WRITER, 0xac)?),
        (9, 0, sample(alloc, WRITER, 0xab)?),
        (9, 1, sample(alloc, WRITER, 0xac)?),
        (10, 0, sample(alloc, WRITER, 0xab)?),
        (4, 0, sample(alloc, WRITER, 0xab)?),
        (4, 1, sample(alloc, OTHER, 0xac)?),
    ];
    let out = lines_of(alloc, &notices)?;
    assert_eq!(rt;
        out.as_slice(),
        b"4294967296:2 reader 0 sample 0102030405060708090a0b0c000001c2 7 - value ab
4294967296:2 reader 0 sample 0102030405060708090a0b0c000001c2 7 - value ac
4294967296:2 reader 9 sample 0102030405060708090a0b0c000001c2 7 - value ab
4294967296:2 reader 9 sample 0102030405060708090a0b0c000001c2 7 - value ac
4294967296:2 reader 10 sample 0102030405060708090a0b0c000001c2 7 - value ab
4294967296:2 reader 4 sample 0102030405060708090a0b0c000001c2 7 - value ab
4294967296:2 reader 4 sample 0102030405060708090a0b0c000002c2 7 - value ac
"
            .as_slice()
    );
    Ok(())
}

#[test]
fn prints_answers(rt: HostRuntime) -> Result<(), Fail> {
    let lines: [(&[Locator], &[u8], &str); 3] = [
        (&[], &[], "4294967296:2 answer - -\n"),
        (
            &[HERE],
            &[0x52, 0x54],
            "4294967296:2 answer 192.0.2.17:7410 5254\n",
        ),
        (
            &[THERE, HERE],
            &[0x0f],
            "4294967296:2 answer 10.20.30.255:65535,192.0.2.17:7410 0f\n",
        ),
    ];
    for (to, octets, line) in lines {
        let mut out = Vec::new(rt.alloc());
        push_answer(&mut out, PLACE, to, octets)?;
        assert_eq!(rt; out.as_slice(), line.as_bytes(), "for {line}");
    }
    Ok(())
}

#[test]
fn prints_matches_and_statuses(rt: HostRuntime) -> Result<(), Fail> {
    let status = Status {
        matched_total: 4,
        matched_now: 3,
        incompatible_total: 2_147_483_647,
        last_policy: Some(PolicyId::DestinationOrder),
        lost_total: 5,
        samples: 60,
    };
    let quiet = Status {
        incompatible_total: 0,
        last_policy: None,
        ..status
    };
    let mut out = Vec::new(rt.alloc());
    push_match(&mut out, 0, WRITER)?;
    push_match(&mut out, 12, WRITER)?;
    push_status(&mut out, 0, &status)?;
    push_status(&mut out, 12, &quiet)?;
    let lines = "match 0 0102030405060708090a0b0c000001c2
match 12 0102030405060708090a0b0c000001c2
status 0 4 3 2147483647 12 5 60
status 12 4 3 0 - 5 60
";
    assert_eq!(rt; out.as_slice(), lines.as_bytes());
    Ok(())
}
