//! Tests with too little memory.

use super::What::{Dispose, Incompatible, Lost, Matched, Unmatched, Unread, Unregister, Value};
use super::{ALL, Row, What, is_taken, notice, reads, takes, takes_next};
use crate::InstanceState::{Alive, Disposed};
use crate::SampleState::{NotRead, Read};
use crate::ViewState::{New, NotNew};
use crate::{DataReader, History};
use linked_list_allocator::LocalHeap;
use rtps_types::KeyHash;
use std::alloc::{Allocator, Global};
use std::test::Fail;

/// The size of a heap in octets.
const SIZE: usize = 16_384;

/// Accepts values of twelve instances; the first that is refused is tried again once there is
/// memory again. Returns whether all were accepted, and whether one was refused.
fn accepts<A: Allocator + Copy>(
    alloc: A,
    cache: &mut DataReader<u64, A>,
    others: Vec<u8, A>,
) -> Result<(bool, bool), Fail> {
    let (mut right, mut refused) = (true, false);
    let mut others = Some(others);
    for number in 1..13u8 {
        let value = notice(1, u64::from(number), Value(KeyHash([number; 16])))?;
        if let Err(back) = cache.accept(alloc, value) {
            refused = true;
            others = None;
            right &= cache.accept(alloc, back.value).is_ok();
        }
    }
    for number in 1..13 {
        right &= takes_next(cache, Some((number, true, NotRead, New, Alive)));
    }
    Ok((right && takes_next(cache, None), refused))
}

#[test]
fn accepts_again_what_was_refused(rt: HostRuntime) -> Result<(), Fail> {
    let (mut refused, mut accepted) = (false, false);
    for step in 0..128 {
        let heap = LocalHeap::new(rt.alloc(), SIZE)?;
        let Ok(others) = Vec::with_capacity(&heap, SIZE - step * 64) else {
            continue;
        };
        let mut cache = DataReader::new(&heap, History::KeepLast(1));
        let (right, was_refused) = accepts(&heap, &mut cache, others)?;
        assert!(rt; right);
        refused |= was_refused;
        accepted |= !was_refused;
    }
    assert!(rt; refused && accepted);
    Ok(())
}

/// The instance of the two entries that are there.
const BLUE: KeyHash = KeyHash([1; 16]);

/// A value and the disposal of its instance, before a call returns them.
const BEFORE: [Row; 2] = [FIRST, SECOND];

const FIRST: Row = (1, true, NotRead, New, Disposed);

const SECOND: Row = (2, false, NotRead, New, Disposed);

/// The same two entries, after a call returned them.
const AFTER: [Row; 2] = [
    (1, true, Read, NotNew, Disposed),
    (2, false, Read, NotNew, Disposed),
];

/// Whether a cache accepts the notices of these two entries.
fn has_two<A: Allocator + Copy>(alloc: A, cache: &mut DataReader<u64, A>) -> Result<bool, Fail> {
    Ok(
        cache.accept(alloc, notice(1, 1, Value(BLUE))?).is_ok()
            && cache.accept(alloc, notice(1, 2, Dispose(BLUE))?).is_ok(),
    )
}

#[test]
fn reads_again_what_was_refused(rt: HostRuntime) -> Result<(), Fail> {
    let (mut refused, mut answered) = (false, false);
    for step in 0..128 {
        let heap = LocalHeap::new(rt.alloc(), SIZE)?;
        let mut cache = DataReader::new(&heap, History::KeepAll);
        assert!(rt; has_two(&heap, &mut cache)?);
        let others = Vec::<u8, _>::with_capacity(&heap, SIZE - step * 32);
        let tried = reads(&heap, &mut cache, 10, ALL, &BEFORE);
        if others.is_err() {
            continue;
        }
        drop(others);
        match tried {
            Ok(right) => {
                assert!(rt; right);
                assert!(rt; reads(&heap, &mut cache, 10, ALL, &AFTER)?);
                answered = true;
            }
            Err(_) => {
                assert!(rt; reads(&heap, &mut cache, 10, ALL, &BEFORE)?);
                refused = true;
            }
        }
    }
    assert!(rt; refused && answered);
    Ok(())
}

#[test]
fn takes_again_what_was_refused(rt: HostRuntime) -> Result<(), Fail> {
    let (mut refused, mut answered) = (false, false);
    for step in 0..128 {
        let heap = LocalHeap::new(rt.alloc(), SIZE)?;
        let mut cache = DataReader::new(&heap, History::KeepAll);
        assert!(rt; has_two(&heap, &mut cache)?);
        let others = Vec::<u8, _>::with_capacity(&heap, SIZE - step * 32);
        let tried = takes(&heap, &mut cache, 10, ALL, &BEFORE);
        if others.is_err() {
            continue;
        }
        drop(others);
        let rest = match tried {
            Ok(right) => {
                assert!(rt; right);
                answered = true;
                [].as_slice()
            }
            Err(_) => {
                refused = true;
                BEFORE.as_slice()
            }
        };
        assert!(rt; takes(&heap, &mut cache, 10, ALL, rest)?);
    }
    assert!(rt; refused && answered);
    Ok(())
}

/// An instance that isn't there.
const RED: KeyHash = KeyHash([2; 16]);

/// A notice that comes to a cache with these two entries, which keeps all or else the last one of
/// an instance: whether it makes an entry, for which alone memory may be refused, and the entries
/// after it.
type Coming = (bool, What, bool, &'static [Row]);

const COMING: [Coming; 12] = [
    (
        true,
        Value(RED),
        true,
        &[FIRST, SECOND, (3, true, NotRead, New, Alive)],
    ),
    (
        true,
        Dispose(RED),
        true,
        &[FIRST, SECOND, (3, false, NotRead, New, Disposed)],
    ),
    (
        false,
        Value(RED),
        true,
        &[SECOND, (3, true, NotRead, New, Alive)],
    ),
    (
        false,
        Dispose(RED),
        true,
        &[SECOND, (3, false, NotRead, New, Disposed)],
    ),
    (true, Unregister(BLUE), false, &BEFORE),
    (true, Unregister(RED), false, &BEFORE),
    (true, Unread, false, &BEFORE),
    (true, Matched, false, &BEFORE),
    (true, Unmatched, false, &BEFORE),
    (true, Incompatible, false, &BEFORE),
    (true, Lost, false, &BEFORE),
    (false, Unregister(BLUE), false, &[SECOND]),
];

/// Takes memory in small blocks until it is refused, but for this number of blocks at its end, and
/// returns them.
fn blocks_but<A: Allocator + Copy>(
    alloc: Global,
    heap: A,
    room: usize,
) -> Result<Vec<Vec<u8, A>>, Fail> {
    let mut blocks = Vec::new(alloc);
    for _ in 0..1024 {
        match Vec::with_capacity(heap, 16) {
            Ok(block) => blocks.push(block)?,
            Err(_) => break,
        }
    }
    for _ in 0..room {
        blocks.pop();
    }
    Ok(blocks)
}

/// Whether a notice is refused that finds room for this number of blocks. A refused notice comes
/// back and changes nothing, and where it is tried again with more memory, it is accepted.
fn is_refused(
    alloc: Global,
    (keeps_all, what, _, after): Coming,
    room: usize,
    is_tried_again: bool,
) -> Result<bool, Fail> {
    let heap = LocalHeap::new(alloc, 4096)?;
    let (keep, before): (_, &[Row]) = if keeps_all {
        (History::KeepAll, &BEFORE)
    } else {
        (History::KeepLast(1), &BEFORE[1..])
    };
    let mut cache = DataReader::new(&heap, keep);
    if !has_two(&heap, &mut cache)? {
        return Err(Fail::new("no memory for two entries"));
    }
    let blocks = blocks_but(alloc, &heap, room)?;
    let refused = cache.accept(&heap, notice(1, 3, what)?).err();
    drop(blocks);
    let is_refused = refused.is_some();
    let mut entries = after;
    if let Some(back) = refused {
        entries = before;
        if cache.len() != before.len() {
            return Err(Fail::new("a refused notice leaves an entry"));
        }
        if is_tried_again {
            entries = after;
            if cache.accept(&heap, back.value).is_err() {
                return Err(Fail::new("a notice is refused that has memory"));
            }
        }
    }
    if !reads(&heap, &mut cache, 10, ALL, entries)? {
        return Err(Fail::new("other entries"));
    }
    Ok(is_refused)
}

#[test]
fn accepts_again_each_notice_that_was_refused(rt: HostRuntime) -> Result<(), Fail> {
    let mut some_refused = false;
    for coming in COMING {
        let (mut some_of_these, mut some_accepted) = (false, false);
        for room in 0..64 {
            for is_tried_again in [false, true] {
                if is_refused(rt.alloc(), coming, room, is_tried_again)? {
                    some_of_these = true;
                } else {
                    some_accepted = true;
                }
            }
        }
        let (_, what, makes_entry, _) = coming;
        assert!(rt; makes_entry || !some_of_these, "of {what:?}");
        assert!(rt; some_accepted, "of {what:?}");
        some_refused |= some_of_these;
    }
    assert!(rt; some_refused);
    Ok(())
}

/// Whether a value is refused that finds room for this number of blocks, after `count` values of
/// its instance. A refused value changes nothing, and is accepted where it is tried again.
fn is_next_refused(alloc: Global, count: u64, room: usize) -> Result<bool, Fail> {
    let heap = LocalHeap::new(alloc, 8192)?;
    let mut cache = DataReader::new(&heap, History::KeepAll);
    for number in 1..count.saturating_add(1) {
        if cache
            .accept(&heap, notice(1, number, Value(BLUE))?)
            .is_err()
        {
            return Err(Fail::new("no memory for the values before"));
        }
    }
    let before = cache.len();
    let blocks = blocks_but(alloc, &heap, room)?;
    let next = count.saturating_add(1);
    let refused = cache.accept(&heap, notice(1, next, Value(BLUE))?).err();
    drop(blocks);
    let is_refused = refused.is_some();
    if let Some(back) = refused {
        if cache.len() != before || cache.accept(&heap, back.value).is_err() {
            return Err(Fail::new("a refused value leaves something"));
        }
    }
    let values = cache.take(&heap, 64, ALL)?;
    for (value, number) in values.iter().zip(1..65) {
        if !is_taken(value, (number, true, NotRead, New, Alive)) {
            return Err(Fail::new("another value"));
        }
    }
    if values.len() as u64 != next {
        return Err(Fail::new("not all values"));
    }
    Ok(is_refused)
}

#[test]
fn accepts_again_a_value_of_a_known_instance(rt: HostRuntime) -> Result<(), Fail> {
    let (mut some_refused, mut some_accepted) = (false, false);
    for count in 1..10 {
        for room in 0..48 {
            if is_next_refused(rt.alloc(), count, room)? {
                some_refused = true;
            } else {
                some_accepted = true;
            }
        }
    }
    assert!(rt; some_refused && some_accepted);
    Ok(())
}
