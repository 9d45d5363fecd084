//! Events of datagrams written by hand.

ghost use Rattle.std.specs.Prelude.{◌≤◌, length};

use crate::*;
use linked_list_allocator::LocalHeap;
use rtps_types::{EntityId, GuidPrefix, Timestamp};
use rtps_wire::{Form, SubmessageFault};
use std::alloc::Global;
use std::test::Fail;

const OURS: GuidPrefix = GuidPrefix([0x0b; 12]);

const THEIRS: GuidPrefix = GuidPrefix([0x0a; 12]);

/// `RTPS`, version 2.3, a vendor, and the prefix of the sender.
const HEADER: [u8; 20] = [
    0x52, 0x54, 0x50, 0x53, 2, 3, 2, 5, 10, 10, 10, 10, 10, 10, 10, 10, 10, 10, 10, 10,
];

/// DATA 1 from 00000102 to 00000107 with four octets of payload.
const DATA: [u8; 28] = [
    0x15, 0x05, 0x18, 0x00, 0, 0, 0x10, 0, 0, 0, 1, 7, 0, 0, 1, 2, 0, 0, 0, 0, 1, 0, 0, 0, //
    0xde, 0xad, 0xbe, 0xef,
];

/// Returns a message with these submessages after its header.
fn message(alloc: Global, parts: &[&[u8]]) -> Result<Vec<u8>, Fail> {
    let mut octets = HEADER.to_vec(alloc)?;
    for part in parts {
        octets.extend_from_slice(part)?;
    }
    Ok(octets)
}

#[test]
fn a_change_and_its_context(rt: HostRuntime) -> Result<(), Fail> {
    let info_ts = [0x09, 1, 8, 0, 5, 0, 0, 0, 0, 0, 0, 0x80];
    let info_src = [
        0x0c, 1, 0x14, 0, 0, 0, 0, 0, 2, 5, 0, 0, 12, 12, 12, 12, 12, 12, 12, 12, 12, 12, 12, 12,
    ];
    let unknown = [0x80, 1, 4, 0, 1, 2, 3, 4];
    let octets = message(rt.alloc(), &[&unknown, &info_ts, &DATA, &info_src, &DATA])?;
    assert!(rt; octets.len() < 200);
    let found = events(rt.alloc(), OURS, 7, &octets)?;
    assert_eq!(rt; found.len(), 2);
    assert_eq!(rt;
        (found[0].place.datagram, found[0].place.submessage),
        (7, 3)
    );
    assert_eq!(rt; found[0].source, THEIRS);
    assert_eq!(rt;
        found[0].time,
        Some(Timestamp {
            seconds: 5,
            fraction: 0x8000_0000
        })
    );
    assert_eq!(rt; found[0].writer, EntityId([0, 0, 1, 2]));
    assert_eq!(rt; found[0].reader, EntityId([0, 0, 1, 7]));
    match found[0].body {
        EventBody::Whole(whole) => {
            assert_eq!(rt; whole.number.get(), 1);
            assert_eq!(rt; whole.info.form, Form::Value);
            assert_eq!(rt; whole.payload, [0xde, 0xad, 0xbe, 0xef].as_slice());
        }
        _ => assert!(rt; false, "no change in one piece"),
    }
    // INFO_SRC sets the source and clears the time.
    assert_eq!(rt; found[1].place.submessage, 5);
    assert_eq!(rt; found[1].source, GuidPrefix([12; 12]));
    assert_eq!(rt; found[1].time, None);
    Ok(())
}

#[test]
fn two_datagrams_in_one_list(rt: HostRuntime) -> Result<(), Fail> {
    let octets = message(rt.alloc(), &[&DATA])?;
    assert!(rt; octets.len() < 200);
    let mut found = Vec::new(rt.alloc());
    let mut counters = Counters::new();
    add_events(&mut found, &mut counters, OURS, 7, &octets)?;
    add_events(&mut found, &mut counters, OURS, 8, &octets)?;
    assert_eq!(rt; found.len(), 2);
    assert_eq!(rt; (found[0].place.datagram, found[1].place.datagram), (7, 8));
    Ok(())
}

#[test]
fn destinations(rt: HostRuntime) -> Result<(), Fail> {
    let others = [0x0e, 1, 12, 0, 9, 9, 9, 9, 9, 9, 9, 9, 9, 9, 9, 9];
    let anyone = [0x0e, 1, 12, 0, 0, 0, 0, 0, 0, 0, 0, 0, 0, 0, 0, 0];
    let ours = [
        0x0e, 1, 12, 0, 11, 11, 11, 11, 11, 11, 11, 11, 11, 11, 11, 11,
    ];
    let octets = message(
        rt.alloc(),
        &[&others, &DATA, &anyone, &DATA, &others, &DATA, &ours, &DATA],
    )?;
    assert!(rt; octets.len() < 300);
    let found = events(rt.alloc(), OURS, 0, &octets)?;
    assert_eq!(rt; found.len(), 2);
    assert_eq!(rt;
        (found[0].place.submessage, found[1].place.submessage),
        (4, 8)
    );
    Ok(())
}

#[test]
fn the_greatest_number_and_those_above(rt: HostRuntime) -> Result<(), Fail> {
    let mut greatest = DATA;
    greatest[16..24].copy_from_slice(&[0, 0, 0, 0x40, 0, 0, 0, 0]);
    let mut above = DATA;
    above[16..24].copy_from_slice(&[0, 0, 0, 0x40, 1, 0, 0, 0]);
    // GAP from 1 with base 2^62 - 1 and three bits: the middle one names 2^62, and the last one the
    // number above it.
    let gap = [
        0x08, 1, 32, 0, 0, 0, 1, 7, 0, 0, 1, 2, 0, 0, 0, 0, 1, 0, 0, 0, //
        0xff, 0xff, 0xff, 0x3f, 0xff, 0xff, 0xff, 0xff, 3, 0, 0, 0, 0, 0, 0, 0x40,
    ];
    let mut gap_above = gap;
    gap_above[35] = 0x20;
    // HEARTBEAT 1 to 2^62 + 1
    let heartbeat_above = [
        0x07, 1, 28, 0, 0, 0, 1, 7, 0, 0, 1, 2, 0, 0, 0, 0, 1, 0, 0, 0, //
        0, 0, 0, 0x40, 1, 0, 0, 0, 1, 0, 0, 0,
    ];
    let octets = message(
        rt.alloc(),
        &[&greatest, &above, &gap, &gap_above, &heartbeat_above, &DATA],
    )?;
    assert!(rt; octets.len() < 300);
    let found = events(rt.alloc(), OURS, 0, &octets)?;
    assert_eq!(rt; found.len(), 3);
    assert_eq!(rt; found[0].place.submessage, 1);
    assert_eq!(rt; found[1].place.submessage, 3);
    assert_eq!(rt; found[2].place.submessage, 6);
    Ok(())
}

#[test]
fn heartbeats_and_fragments(rt: HostRuntime) -> Result<(), Fail> {
    let heartbeat = [
        0x07, 3, 28, 0, 0, 0, 1, 7, 0, 0, 1, 2, 0, 0, 0, 0, 2, 0, 0, 0, //
        0, 0, 0, 0, 5, 0, 0, 0, 0xff, 0xff, 0xff, 0xff,
    ];
    let heartbeat_frag = [
        0x13, 1, 24, 0, 0, 0, 1, 7, 0, 0, 1, 2, 0, 0, 0, 0, 3, 0, 0, 0, 4, 0, 0, 0, 9, 0, 0, 0,
    ];
    let fragment = [
        0x16, 1, 34, 0, 0, 0, 28, 0, 0, 0, 1, 7, 0, 0, 1, 2, 0, 0, 0, 0, 3, 0, 0, 0, //
        2, 0, 0, 0, 1, 0, 16, 0, 28, 0, 0, 0, 0xaa, 0xbb,
    ];
    let octets = message(rt.alloc(), &[&heartbeat, &heartbeat_frag, &fragment])?;
    assert!(rt; octets.len() < 200);
    let found = events(rt.alloc(), OURS, 0, &octets)?;
    assert_eq!(rt; found.len(), 3);
    match (found[0].body, found[1].body, found[2].body) {
        (
            EventBody::Heartbeat(heartbeat),
            EventBody::HeartbeatFrag(frag),
            EventBody::Fragment(fragment),
        ) => {
            assert_eq!(rt;
                (heartbeat.first.get(), heartbeat.last, heartbeat.count),
                (2, 5, -1)
            );
            assert_eq!(rt; (heartbeat.final_flag, heartbeat.liveliness), (true, false));
            assert_eq!(rt; (frag.number.get(), frag.last, frag.count), (3, 4, 9));
            assert_eq!(rt; (fragment.start, fragment.count, fragment.size), (2, 1, 16));
            assert_eq!(rt; fragment.sample, 28);
            assert_eq!(rt; fragment.payload, [0xaa, 0xbb].as_slice());
        }
        _ => assert!(rt; false, "other kinds of event"),
    }
    Ok(())
}

#[test]
fn bad_headers_give_none(rt: HostRuntime) -> Result<(), Fail> {
    let mut other = HEADER;
    other[3] = 0x58;
    assert_eq!(rt; events(rt.alloc(), OURS, 0, &other)?.len(), 0);
    assert_eq!(rt; events(rt.alloc(), OURS, 0, &HEADER[..19])?.len(), 0);
    assert_eq!(rt; events(rt.alloc(), OURS, 0, &HEADER)?.len(), 0);
    Ok(())
}

/// Whether there is no event for this reason.
fn is_for(event: &Result<Event<'_>, Reason>, reason: Reason) -> bool {
    match event {
        Ok(_) => false,
        Err(found) => *found == reason,
    }
}

/// An unknown kind, INFO_DST for another participant, DATA, INFO_DST for every participant, DATA of
/// a number above 2^62, DATA, and three octets of a header.
fn one_of_each(alloc: Global) -> Result<Vec<u8>, Fail> {
    let unknown = [0x80, 1, 4, 0, 1, 2, 3, 4];
    let others = [0x0e, 1, 12, 0, 9, 9, 9, 9, 9, 9, 9, 9, 9, 9, 9, 9];
    let anyone = [0x0e, 1, 12, 0, 0, 0, 0, 0, 0, 0, 0, 0, 0, 0, 0, 0];
    let mut above = DATA;
    above[16..24].copy_from_slice(&[0, 0, 0, 0x40, 1, 0, 0, 0]);
    let rest = [0x15, 1, 0];
    let parts: [&[u8]; 7] = [&unknown, &others, &DATA, &anyone, &above, &DATA, &rest];
    message(alloc, &parts)
}

#[test]
fn tells_why_there_is_no_event(rt: HostRuntime) -> Result<(), Fail> {
    let each = one_of_each(rt.alloc())?;
    assert!(rt; each.len() < 300);
    let mut outcomes = match Outcomes::new(OURS, 4, &each) {
        Ok(outcomes) => outcomes,
        Err(_) => return Err(Fail::new("no message")),
    };
    for (submessage, reason) in [
        (1, Reason::NotForReaders),
        (2, Reason::NotForReaders),
        (3, Reason::OtherDestination),
        (4, Reason::NotForReaders),
        (5, Reason::NumberTooGreat),
    ] {
        let outcome = outcomes.next().ok_or("an outcome")?;
        assert_eq!(rt;
            (outcome.place.datagram, outcome.place.submessage),
            (4, submessage)
        );
        assert!(rt; is_for(&outcome.event, reason), "{submessage}");
    }
    let last = outcomes.next().ok_or("an event")?;
    assert!(rt; last.event.is_ok() && last.submessage.id == 0x15);
    assert!(rt; outcomes.next().is_none());
    assert_eq!(rt; outcomes.fault(), Some(SubmessageFault::Rest));
    Ok(())
}

#[test]
fn counts_each_by_its_reason(rt: HostRuntime) -> Result<(), Fail> {
    // The first number of a HEARTBEAT is at least 1.
    let invalid = [
        0x07, 1, 28, 0, 0, 0, 1, 7, 0, 0, 1, 2, 0, 0, 0, 0, 0, 0, 0, 0,
    ];
    let each = one_of_each(rt.alloc())?;
    let past_end = message(rt.alloc(), &[&DATA[..24]])?;
    let bad = message(rt.alloc(), &[&invalid, &[0; 12], &DATA])?;
    let (mut other, mut later) = (HEADER, HEADER);
    other[3] = 0x58;
    later[4] = 3;
    let datagrams: [&[u8]; 6] = [&HEADER[..19], &other, &later, &each, &past_end, &bad];
    let mut counters = Counters::new();
    let mut found = Vec::new(rt.alloc());
    for datagram in datagrams {
        assert!(rt; datagram.len() < 300);
        add_events(&mut found, &mut counters, OURS, 0, datagram)?;
    }
    let due = Counters {
        datagrams: 6,
        short: 1,
        not_rtps: 1,
        other_version: 1,
        cut_headers: 1,
        past_end: 1,
        invalid: 1,
        events: 1,
        not_for_readers: 3,
        other_destination: 1,
        number_too_great: 1,
    };
    assert_eq!(rt; counters, due);
    assert_eq!(rt; found.len(), 1);
    Ok(())
}

/// The calls that list events.
#[derive(Clone, Copy, Debug)]
enum Call {
    /// Lists the events of a datagram.
    Events,
    /// Appends them to a list that has one event.
    AddEvents,
}

/// Whether a list has `count` events, the last of them at this submessage of datagram 8.
fn ends_at(events: &[Event<'_>], count: usize, submessage: u32) -> bool {
    let last = events.last().map(|event| event.place);
    events.len() == count
        && last.is_some_and(|place| (place.datagram, place.submessage) == (8, submessage))
}

/// Lists five events in a heap of this size, and returns whether that was refused at first. What is
/// refused leaves the list, and succeeds once there is memory.
fn is_refused(alloc: Global, call: Call, size: usize, octets: &[u8]) -> Result<bool, Fail>
    requires { length octets.now ≤ 65507 }
{
    let heap = LocalHeap::new(alloc, 65_536)?;
    let mut list = Vec::new(&heap);
    let one = octets.get(..48).ok_or("one event")?;
    let mut counters = Counters::new();
    if matches!(call, Call::AddEvents) {
        add_events(&mut list, &mut counters, OURS, 8, one)?;
    }
    let (before, counted) = (list.len(), counters);
    let mut others = Some(Vec::<u8, _>::with_capacity(&heap, heap.free().saturating_sub(size))?);
    let mut is_refused = false;
    for _ in 0..2 {
        let is_listed = match call {
            Call::Events => match events(&heap, OURS, 8, octets) {
                Ok(found) => {
                    list = found;
                    true
                }
                Err(_) => false,
            },
            Call::AddEvents => add_events(&mut list, &mut counters, OURS, 8, octets).is_ok(),
        };
        if is_listed {
            break;
        }
        is_refused = true;
        others = None;
        if counters != counted
            || list.len() != before
            || (before == 1 && !ends_at(list.as_slice(), 1, 1))
        {
            return Err(Fail::new("a refused call leaves events"));
        }
    }
    drop(others);
    if !ends_at(list.as_slice(), before.saturating_add(5), 5) {
        return Err(Fail::new("not all events"));
    }
    Ok(is_refused)
}

#[test]
fn lists_again_what_was_refused(rt: HostRuntime) -> Result<(), Fail> {
    let octets = message(rt.alloc(), &[&DATA, &DATA, &DATA, &DATA, &DATA])?;
    assert!(rt; octets.len() < 200);
    for call in [Call::Events, Call::AddEvents] {
        let (mut some_refused, mut some_listed) = (false, false);
        for step in 1..256 {
            if is_refused(rt.alloc(), call, step * 16, &octets)? {
                some_refused = true;
            } else {
                some_listed = true;
            }
        }
        assert!(rt; some_refused && some_listed, "of {call:?}");
    }
    Ok(())
}

#[test]
fn one_after_the_other(rt: HostRuntime) -> Result<(), Fail> {
    let others = [0x0e, 1, 12, 0, 9, 9, 9, 9, 9, 9, 9, 9, 9, 9, 9, 9];
    let pad = [0x01, 1, 0, 0];
    let octets = message(rt.alloc(), &[&pad, &DATA, &pad, &DATA, &others, &DATA])?;
    assert!(rt; octets.len() < 200);
    let mut left = Events::new(OURS, u64::MAX, &octets);
    let places = [
        submessage_of(left.next()),
        submessage_of(left.next()),
        submessage_of(left.next()),
        submessage_of(left.next()),
    ];
    assert_eq!(rt; places, [Some(2), Some(4), None, None]);
    Ok(())
}

/// Returns the submessage of an event in the last datagram of a run.
fn submessage_of(event: Option<Event<'_>>) -> Option<u32> {
    let place = event?.place;
    (place.datagram == u64::MAX).then_some(place.submessage)
}

/// 65,507 octets: the header, 16,364 PADs of four octets, a DATA, and three octets that are no
/// submessage.
#[test]
fn the_longest_datagram(rt: HostRuntime) -> Result<(), Fail> {
    let mut octets = HEADER.to_vec(rt.alloc())?;
    for _ in 0..16_364 {
        octets.extend_from_slice(&[1, 1, 0, 0])?;
    }
    octets.extend_from_slice(&DATA)?;
    octets.extend_from_slice(&[0x15, 5, 0])?;
    assert_eq!(rt; octets.len(), 65_507);
    let found = events(rt.alloc(), OURS, 0, &octets)?;
    assert_eq!(rt; found.len(), 1);
    assert_eq!(rt; found[0].place.submessage, 16_365);
    Ok(())
}

/// 65,507 octets: the header, and a DATA with a body of 65,483 octets.
#[test]
fn the_longest_payload(rt: HostRuntime) -> Result<(), Fail> {
    let mut octets = HEADER.to_vec(rt.alloc())?;
    octets.extend_from_slice(&[0x15, 5, 0xcb, 0xff])?;
    octets.extend_from_slice(&DATA[4..24])?;
    for _ in 0..65_463 {
        octets.push(7)?;
    }
    assert_eq!(rt; octets.len(), 65_507);
    let found = events(rt.alloc(), OURS, 0, &octets)?;
    assert_eq!(rt; found.len(), 1);
    match found[0].body {
        EventBody::Whole(whole) => assert_eq!(rt; whole.payload.len(), 65_463),
        _ => assert!(rt; false, "no change in one piece"),
    }
    Ok(())
}
