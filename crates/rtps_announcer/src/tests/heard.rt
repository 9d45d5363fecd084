//! Tests of datagrams, whose octets are written by hand from DDSI-RTPS 9.4.

use super::{Desk, ONE, OWN};
use crate::{Change, Hearing, Said, hearings};
use rtps_types::{Datagram, Locator};
use std::alloc::{AllocError, Global};
use std::test::Fail;

/// The header of a message of the participant `ONE`.
const HEADER: [u8; 20] = [
    b'R', b'T', b'P', b'S', 2, 5, 1, 0x0f, 1, 1, 1, 1, 1, 1, 1, 1, 1, 1, 1, 1,
];

/// INFO_DST to our participant, and to another one.
const TO_US: [u8; 16] = [
    0x0e, 1, 12, 0, 0x0b, 0x0b, 0x0b, 0x0b, 0x0b, 0x0b, 0x0b, 0x0b, 0x0b, 0x0b, 0x0b, 0x0b,
];

const TO_OTHERS: [u8; 16] = [0x0e, 1, 12, 0, 7, 7, 7, 7, 7, 7, 7, 7, 7, 7, 7, 7];

/// The DATA of SPDP: its guid, two locators, a lease of one and a half seconds, and a set with the
/// bits 2 and 5.
const RECORD: [u8; 128] = [
    0x15, 0x05, 124, 0, // DATA, E and D
    0, 0, 16, 0, 0, 1, 0, 0xc7, 0, 1, 0, 0xc2, // to 000100c7, from 000100c2
    0, 0, 0, 0, 1, 0, 0, 0, // number 1
    0, 3, 0, 0, // PL_CDR_LE
    0x50, 0, 16, 0, 1, 1, 1, 1, 1, 1, 1, 1, 1, 1, 1, 1, 0, 0, 1, 0xc1, // the guid
    0x32, 0, 24, 0, 1, 0, 0, 0, 0xf2, 0x1c, 0, 0, 0, 0, 0, 0, 0, 0, 0, 0, 0, 0, 0, 0, 239, 255, 0,
    1, // a group, which isn't kept
    0x32, 0, 24, 0, 1, 0, 0, 0, 0xf2, 0x1c, 0, 0, 0, 0, 0, 0, 0, 0, 0, 0, 0, 0, 0, 0, 10, 9, 0, 2, // 10.9.0.2:7410
    0x02, 0, 8, 0, 1, 0, 0, 0, 0, 0, 0, 0x80, // the lease
    0x58, 0, 4, 0, 0x24, 0, 0, 0, // the set
    1, 0, 0, 0,
];

/// The end of the participant by its key hash: DATA with Q and K, status 3, and an empty list.
const END: [u8; 64] = [
    0x15, 0x0b, 60, 0, 0, 0, 16, 0, 0, 1, 0, 0xc7, 0, 1, 0, 0xc2, 0, 0, 0, 0, 2, 0, 0, 0, //
    0x70, 0, 16, 0, 1, 1, 1, 1, 1, 1, 1, 1, 1, 1, 1, 1, 0, 0, 1, 0xc1, // the key hash
    0x71, 0, 4, 0, 0, 0, 0, 3, 1, 0, 0, 0, // disposed and unregistered
    0, 3, 0, 0, 1, 0, 0, 0,
];

/// ACKNACK of 000004c7 to 000004c2: base 1 with one bit, which is set, and count 5.
const ASKS: [u8; 32] = [
    0x06, 0x01, 28, 0, 0, 0, 4, 0xc7, 0, 0, 4, 0xc2, 0, 0, 0, 0, 1, 0, 0, 0, 1, 0, 0, 0, 0, 0, 0,
    0x80, 5, 0, 0, 0,
];

/// ACKNACK with base 0, no bits and count 0.
const BEGINS: [u8; 28] = [
    0x06, 0x01, 24, 0, 0, 0, 4, 0xc7, 0, 0, 4, 0xc2, 0, 0, 0, 0, 0, 0, 0, 0, 0, 0, 0, 0, 0, 0, 0, 0,
];

/// A message with these submessages.
fn message(alloc: Global, submessages: &[&[u8]]) -> Result<Vec<u8>, AllocError> {
    let mut octets = Vec::new(alloc);
    octets.extend_from_slice(&HEADER)?;
    for submessage in submessages {
        octets.extend_from_slice(submessage)?;
    }
    Ok(octets)
}

#[test]
fn a_record_is_heard(rt: HostRuntime) -> Result<(), Fail> {
    let octets = message(rt.alloc(), &[&RECORD])?;
    let heard = hearings(rt.alloc(), OWN, octets.as_slice())?;
    match heard.as_slice() {
        [Hearing::Comes(prefix, facts)] => {
            assert!(rt; *prefix == ONE && facts.hears);
            assert_eq!(rt; facts.lease, Some(1_500));
            let here = Locator {
                port: 7410,
                address: [10, 9, 0, 2],
            };
            assert!(rt; facts.to.as_slice() == [here].as_slice());
        }
        _ => return Err(Fail::new("one record")),
    }
    // Our own one isn't, nor one to another participant, nor one that is cut.
    assert!(rt; hearings(rt.alloc(), ONE, octets.as_slice())?.is_empty());
    let others = message(rt.alloc(), &[&TO_OTHERS, &RECORD])?;
    assert!(rt; hearings(rt.alloc(), OWN, others.as_slice())?.is_empty());
    for len in 0..octets.len() {
        let cut = octets.get(..len).ok_or("a prefix")?;
        assert!(rt; hearings(rt.alloc(), OWN, cut)?.is_empty());
    }
    // A participant that announces no writers, as ours, doesn't hear of readers for them.
    let mut octets = octets;
    octets[140] = 0x3b;
    match hearings(rt.alloc(), OWN, octets.as_slice())?.as_slice() {
        [Hearing::Comes(_, facts)] => assert!(rt; !facts.hears),
        _ => return Err(Fail::new("one record")),
    }
    Ok(())
}

#[test]
fn a_datagram_is_answered(rt: HostRuntime) -> Result<(), Fail> {
    let mut desk = Desk::new(rt.alloc());
    desk.add_reader(rt.alloc())?;
    let octets = message(
        rt.alloc(),
        &[&RECORD, &TO_US, &ASKS, &TO_OTHERS, &ASKS, &TO_US, &END],
    )?;
    let datagram = Datagram {
        moment: 100,
        bytes: octets.as_slice(),
    };
    desk.sends.clear();
    desk.announcer.take(rt.alloc(), &datagram, &mut desk.sends)?;
    assert!(rt;
        desk.says(&[
            Said::Hello,
            Said::Bye,
            Said::Hello,
            Said::Told(1, Change::Asks(0)),
            Said::Beat(1, 1),
            Said::Told(1, Change::Asks(0)),
            Said::Beat(1, 2),
        ])
    );
    assert_eq!(rt; desk.announcer.peer_count(), 0);
    Ok(())
}

#[test]
fn a_base_of_zero_counts_as_one(rt: HostRuntime) -> Result<(), Fail> {
    let mut desk = Desk::new(rt.alloc());
    let octets = message(rt.alloc(), &[&RECORD, &BEGINS])?;
    let datagram = Datagram {
        moment: 0,
        bytes: octets.as_slice(),
    };
    desk.announcer.take(rt.alloc(), &datagram, &mut desk.sends)?;
    assert!(rt;
        desk.says(&[
            Said::Hello,
            Said::Bye,
            Said::Hello,
            Said::Beat(0, 1),
            Said::Beat(0, 2),
        ])
    );
    // With bits it is malformed, and so is one of more than 256 bits, or without all of its words.
    let mut octets = message(rt.alloc(), &[&BEGINS])?;
    assert_eq!(rt; hearings(rt.alloc(), OWN, octets.as_slice())?.len(), 1);
    for bits in [1, 32, 255] {
        match octets.get_mut(40) {
            Some(octet) => *octet = bits,
            None => return Err(Fail::new("a bit count")),
        }
        assert!(rt; hearings(rt.alloc(), OWN, octets.as_slice())?.is_empty());
    }
    Ok(())
}
