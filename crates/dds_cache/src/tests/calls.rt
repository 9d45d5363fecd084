//! Rows of calls, with ample memory.

use super::Call::{Accept, Read, Take, TakeNext};
use super::What::{Dispose, Incompatible, Lost, Matched, Unmatched, Unread, Unregister, Value};
use super::{ALL, Call, Row, goes};
use crate::InstanceState::{Alive, Disposed, NoWriters};
use crate::SampleState::{NotRead, Read as WasRead};
use crate::ViewState::{New, NotNew};
use crate::{Condition, DataReader, History};
use rtps_types::KeyHash;
use std::test::Fail;

const BLUE: KeyHash = KeyHash([1; 16]);

const RED: KeyHash = KeyHash([2; 16]);

const GREEN: KeyHash = KeyHash([3; 16]);

const WHITE: KeyHash = KeyHash([4; 16]);

/// The last value of each instance.
const LAST: [Call<'_>; 7] = [
    Accept(1, 1, Value(BLUE)),
    Accept(1, 2, Value(BLUE)),
    Accept(1, 3, Value(RED)),
    Read(
        10,
        ALL,
        &[
            (2, true, NotRead, New, Alive),
            (3, true, NotRead, New, Alive),
        ],
    ),
    TakeNext(None),
    Take(
        10,
        ALL,
        &[
            (2, true, WasRead, NotNew, Alive),
            (3, true, WasRead, NotNew, Alive),
        ],
    ),
    Take(10, ALL, &[]),
];

#[test]
fn a_new_cache_has_nothing_to_read_or_take(rt: HostRuntime) -> Result<(), Fail> {
    let alloc = rt.alloc();
    for keep in [History::KeepAll, History::KeepLast(1)] {
        let mut cache = DataReader::<u64>::new(alloc, keep);
        assert!(rt; cache.read(alloc, 10, ALL)?.is_empty());
        assert!(rt; cache.take(alloc, 10, ALL)?.is_empty());
        assert!(rt; cache.take_next_sample().is_none());
    }
    Ok(())
}

#[test]
fn keeps_the_last_of_each_instance(rt: HostRuntime) -> Result<(), Fail> {
    let mut cache = DataReader::new(rt.alloc(), History::KeepLast(1));
    assert!(rt; goes(rt.alloc(), &mut cache, &LAST)?);
    Ok(())
}

/// An instance that is disposed, and alive again.
const DISPOSED: [Call<'_>; 7] = [
    Accept(1, 1, Value(BLUE)),
    Read(10, ALL, &[(1, true, NotRead, New, Alive)]),
    Read(10, ALL, &[(1, true, WasRead, NotNew, Alive)]),
    Accept(1, 2, Dispose(BLUE)),
    Read(
        10,
        ALL,
        &[
            (1, true, WasRead, NotNew, Disposed),
            (2, false, NotRead, NotNew, Disposed),
        ],
    ),
    Accept(1, 3, Value(BLUE)),
    Read(
        10,
        ALL,
        &[
            (1, true, WasRead, New, Alive),
            (2, false, WasRead, New, Alive),
            (3, true, NotRead, New, Alive),
        ],
    ),
];

/// A writer unregisters an instance, twice.
const UNREGISTERED: [Call<'_>; 5] = [
    Accept(1, 1, Value(BLUE)),
    Accept(1, 2, Unregister(BLUE)),
    Read(10, ALL, &[(1, true, NotRead, New, NoWriters)]),
    Accept(1, 3, Unregister(BLUE)),
    Read(10, ALL, &[(1, true, WasRead, NotNew, NoWriters)]),
];

/// Of two writers, one unregisters the instance and the match of the other ends.
const TWO_WRITERS: [Call<'_>; 8] = [
    Accept(1, 1, Value(BLUE)),
    Accept(2, 2, Value(BLUE)),
    Accept(2, 3, Value(RED)),
    Accept(1, 4, Unregister(BLUE)),
    Take(1, ALL, &[(1, true, NotRead, New, Alive)]),
    Accept(1, 5, Unmatched),
    Accept(2, 6, Unmatched),
    Take(
        10,
        ALL,
        &[
            (2, true, NotRead, NotNew, NoWriters),
            (3, true, NotRead, New, NoWriters),
        ],
    ),
];

/// The writers of a disposed instance go; a value of another writer makes it alive and new.
const DISPOSED_AND_LEFT: [Call<'_>; 8] = [
    Accept(1, 1, Value(BLUE)),
    Accept(2, 2, Value(BLUE)),
    Accept(1, 3, Dispose(BLUE)),
    Accept(1, 4, Unregister(BLUE)),
    Accept(2, 5, Unmatched),
    Take(
        10,
        ALL,
        &[
            (1, true, NotRead, New, Disposed),
            (2, true, NotRead, New, Disposed),
            (3, false, NotRead, New, Disposed),
        ],
    ),
    Accept(3, 6, Value(BLUE)),
    TakeNext(Some((6, true, NotRead, New, Alive))),
];

/// A call with a `max` of 0 returns nothing and marks nothing.
const NONE_ASKED_FOR: [Call<'_>; 4] = [
    Accept(1, 1, Value(BLUE)),
    Read(0, ALL, &[]),
    Take(0, ALL, &[]),
    Read(1, ALL, &[(1, true, NotRead, New, Alive)]),
];

/// Notices that make no entry, also of an instance that isn't known.
const NO_ENTRY: [Call<'_>; 8] = [
    Accept(1, 1, Matched),
    Accept(1, 2, Unread),
    Accept(1, 3, Lost),
    Accept(1, 4, Incompatible),
    Accept(1, 5, Unregister(BLUE)),
    Accept(1, 6, Unmatched),
    Accept(1, 7, Dispose(BLUE)),
    Take(10, ALL, &[(7, false, NotRead, New, Disposed)]),
];

#[test]
fn keeps_all(rt: HostRuntime) -> Result<(), Fail> {
    let alloc = rt.alloc();
    for calls in [
        DISPOSED.as_slice(),
        &UNREGISTERED,
        &TWO_WRITERS,
        &DISPOSED_AND_LEFT,
        &NONE_ASKED_FOR,
        &NO_ENTRY,
    ] {
        let mut cache = DataReader::new(alloc, History::KeepAll);
        assert!(rt; goes(alloc, &mut cache, calls)?);
    }
    Ok(())
}

/// The entry in the middle is taken; then more entries of its instance come than are kept.
const MIDDLE_TAKEN: [Call<'_>; 8] = [
    Accept(1, 1, Value(BLUE)),
    Accept(1, 2, Value(BLUE)),
    Accept(1, 3, Value(BLUE)),
    Read(1, ALL, &[(1, true, NotRead, New, Alive)]),
    TakeNext(Some((2, true, NotRead, NotNew, Alive))),
    Accept(1, 4, Value(BLUE)),
    Accept(1, 5, Value(BLUE)),
    Take(
        10,
        ALL,
        &[
            (3, true, NotRead, NotNew, Alive),
            (4, true, NotRead, NotNew, Alive),
            (5, true, NotRead, NotNew, Alive),
        ],
    ),
];

#[test]
fn drops_the_oldest_that_is_left(rt: HostRuntime) -> Result<(), Fail> {
    let mut cache = DataReader::new(rt.alloc(), History::KeepLast(3));
    assert!(rt; goes(rt.alloc(), &mut cache, &MIDDLE_TAKEN)?);
    Ok(())
}

/// A read instance without writers; a read one that is alive, with one entry that is not read; a
/// new one without writers; and a new one that is alive.
const FIVE: [Call<'_>; 7] = [
    Accept(2, 1, Value(WHITE)),
    Accept(1, 2, Value(BLUE)),
    Read(
        10,
        ALL,
        &[
            (1, true, NotRead, New, Alive),
            (2, true, NotRead, New, Alive),
        ],
    ),
    Accept(1, 3, Value(BLUE)),
    Accept(2, 4, Value(RED)),
    Accept(1, 5, Value(GREEN)),
    Accept(2, 6, Unmatched),
];

fn flags(not_read: bool, new: bool, alive: bool) -> Condition {
    Condition {
        not_read,
        new,
        alive,
    }
}

#[test]
fn answers_the_first_that_meets_the_flags(rt: HostRuntime) -> Result<(), Fail> {
    let alloc = rt.alloc();
    let rows: [(Condition, Row); 5] = [
        (ALL, (1, true, WasRead, NotNew, NoWriters)),
        (flags(false, false, true), (2, true, WasRead, NotNew, Alive)),
        (flags(true, false, false), (3, true, NotRead, NotNew, Alive)),
        (
            flags(false, true, false),
            (4, true, NotRead, New, NoWriters),
        ),
        (flags(true, true, true), (5, true, NotRead, New, Alive)),
    ];
    for (condition, row) in rows {
        let mut cache = DataReader::new(alloc, History::KeepAll);
        assert!(rt; goes(alloc, &mut cache, &FIVE)?);
        assert!(rt; goes(alloc, &mut cache, &[Read(1, condition, &[row])])?);
    }
    Ok(())
}
