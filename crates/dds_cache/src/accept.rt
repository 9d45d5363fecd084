//! Accepting notices.

ghost use Rattle.std.specs.Prelude.{◌≡◌, ◌+◌, ◌++◌, ◌∷◌, [], IfErr, IfOk, List, OnErr, OnOk, length, option_to_list};
ghost use Rattle.dds_cache.specs.Cache.{entry_by};
ghost use Rattle.dds_cache.specs.Calls.{Accepted, Done};
ghost use Rattle.dds_cache.specs.Coming.{Arrives, does, joined_by, joins, left_by_number};
ghost use Rattle.dds_cache.specs.declared.accept.Coming.TheVariants.{Enters};
ghost use Rattle.dds_cache.specs.declared.entry.Entry.{Entry};
ghost use Rattle.dds_cache.specs.Effects.{IsSame};
ghost use Rattle.dds_cache.specs.Placed.{HasRoom};
ghost use Rattle.rtps_types.specs.declared.identity.KeyHash.{KeyHash};
ghost use Rattle.dds_cache.specs.Standing.{StandsBy, known_at, parts};

use crate::entry::{Content, Entry};
use crate::index::Index;
use crate::instance::{Arrival, enter};
use crate::leave::{leave, leave_all};
use crate::shelf::Shelf;
use rtps_reader::{Body, Notice, NoticeKind};
use rtps_types::{Guid, KeyHash};
use std::alloc::{AllocError, Allocator};
use std::collections::BTreeSet;

/// The effect of a notice on a cache.
#[derive(Clone, Copy)]
enum Coming {
    /// It makes an entry of the instance: a value if the flag is set, else a disposal.
    Enters(KeyHash, bool),
    /// Its writer is no longer live in the instance.
    Leaves(KeyHash),
    /// Its writer is no longer live in any instance.
    LeavesAll,
    ChangesNothing,
}

/// Returns the effect of a notice.
fn what_it_does<V>(notice: &Notice<V>) -> Coming
    ensures { result ≡ does notice.now.what }
{
    let body = match &notice.what {
        NoticeKind::Sample { body, .. } => body,
        NoticeKind::Unmatched => return Coming::LeavesAll,
        NoticeKind::Matched | NoticeKind::Incompatible { .. } | NoticeKind::Lost { .. } => {
            return Coming::ChangesNothing;
        }
    };
    match body {
        Body::Value(key, _) => Coming::Enters(*key, true),
        Body::Disposed(key) => Coming::Enters(*key, false),
        Body::Unregistered(key) => Coming::Leaves(*key),
        Body::Unread(_) => Coming::ChangesNothing,
    }
}

/// Returns the entry that a notice makes, if it makes one.
fn entry_of<V: Drop>(notice: Notice<V>) -> Option<Entry<V>>
    ensures { option_to_list result ≡ entry_by notice.place notice.writer notice.what }
{
    let place = notice.place;
    let writer = notice.writer;
    let NoticeKind::Sample { number, time, body } = notice.what else {
        return None;
    };
    let (key, body) = match body {
        Body::Value(key, value) => (key, Content::Value(value)),
        Body::Disposed(key) => (key, Content::Disposed),
        Body::Unregistered(_) | Body::Unread(_) => return None,
    };
    Some(Entry {
        place,
        writer,
        number,
        time,
        key,
        body,
        is_read: false,
    })
}

/// Makes the writer of a value live in its instance. Returns whether it wasn't live there before.
fn join<A: Allocator + Copy>(
    live: &mut BTreeSet<(Guid, KeyHash), A>,
    pair: (Guid, KeyHash),
    is_value: bool,
) -> Result<bool, AllocError>
    ensures live { OnOk result (live.new.keys ≡ joined_by is_value pair live.old.keys) }
    ensures joined { IfOk result (λ joined. joined ≡ joins is_value pair live.old.keys) }
    ensures err { OnErr result (live.new.keys ≡ live.old.keys) }
{
    if !is_value {
        return Ok(false);
    }
    match live.insert(pair) {
        Ok(joined) => Ok(joined),
        Err(_) => Err(AllocError),
    }
}

/// Notes an entry of an instance. Returns the number of the entry that has to be dropped, if any.
/// If memory is refused, nothing is changed.
fn arrive<A: Allocator + Copy>(
    alloc: A,
    index: &mut Index<A>,
    pair: (Guid, KeyHash),
    is_value: bool,
    number: u64,
) -> Result<Option<u64>, AllocError>
    ensures arrives { IfOk result (Arrives pair is_value number index.old index.new) }
    ensures keep { index.new.keep ≡ index.old.keep }
    ensures live { OnErr result (index.new.live.keys ≡ index.old.live.keys) }
    ensures find { OnErr result ((k : KeyHash) → known_at index.new.instances.entries k
        ≡ known_at index.old.instances.entries k) }
{
    let joined = join(&mut index.live, pair, is_value)?;
    let arrival = Arrival {
        number,
        is_value,
        joined,
        all: index.live.len(),
    };
    match enter(alloc, &mut index.instances, pair.1, index.keep, arrival) {
        Ok(oldest) => Ok(oldest),
        Err(refused) => {
            if joined {
                index.live.remove(&pair);
            }
            Err(refused)
        }
    }
}

/// Appends the entry that a notice makes, if it makes one.
fn put_made<V: Drop, A: Allocator + Copy>(entries: &mut Shelf<V, A>, notice: Notice<V>)
    requires { HasRoom entries.old }
    ensures put { (e : Entry V) → entry_by notice.place notice.writer notice.what ≡ e ∷ []
        → entries.new.entries ≡ entries.old.entries ++ (entries.old.next, e) ∷ [] }
    ensures next { (e : Entry V) → entry_by notice.place notice.writer notice.what ≡ e ∷ []
        → entries.new.next ≡ entries.old.next + 1 }
{
    if let Some(entry) = entry_of(notice) {
        entries.put(entry);
    }
}

/// Drops the entry with a number, if there is a number.
fn discard<V: Drop, A: Allocator>(entries: &mut Shelf<V, A>, number: Option<u64>)
    ensures left { entries.new.entries ≡ left_by_number number entries.old.entries }
    ensures next { entries.new.next ≡ entries.old.next }
{
    if let Some(number) = number {
        entries.discard(number);
    }
}

/// Adds the entry that a notice makes of an instance. If memory is refused, the notice is returned
/// and nothing is changed.
fn admit<V: Drop, A: Allocator + Copy>(
    alloc: A,
    index: &mut Index<A>,
    entries: &mut Shelf<V, A>,
    notice: Notice<V>,
    of: (KeyHash, bool),
) -> Result<(), Notice<V>>
    ensures stands { (past : List (Done V)) → does notice.what ≡ Enters of.0 of.1
        → StandsBy past (parts index.old entries.old)
        → OnOk result (StandsBy (Accepted notice ∷ past) (parts index.new entries.new)) }
    ensures keep { index.new.keep ≡ index.old.keep }
    ensures back { IfErr result (λ n. n ≡ notice) }
    ensures err { OnErr result (IsSame (parts index.old entries.old)
        (parts index.new entries.new)) }
{
    if entries.make_room().is_err() {
        return Err(notice);
    }
    let pair = (notice.writer, of.0);
    let Ok(oldest) = arrive(alloc, index, pair, of.1, entries.next()) else {
        return Err(notice);
    };
    put_made(entries, notice);
    discard(entries, oldest);
    Ok(())
}

/// Accepts a notice. If memory is refused, the notice is returned and nothing is changed.
pub(crate) fn accept<V: Drop, A: Allocator + Copy>(
    alloc: A,
    index: &mut Index<A>,
    entries: &mut Shelf<V, A>,
    notice: Notice<V>,
) -> Result<(), Notice<V>>
    ensures stands { (past : List (Done V)) → StandsBy past (parts index.old entries.old)
        → OnOk result (StandsBy (Accepted notice ∷ past) (parts index.new entries.new)) }
    ensures keep { index.new.keep ≡ index.old.keep }
    ensures back { IfErr result (λ n. n ≡ notice) }
    ensures makes { OnErr result
        (length (entry_by notice.place notice.writer notice.what) ≡ 1) }
    ensures err { OnErr result (IsSame (parts index.old entries.old)
        (parts index.new entries.new)) }
{
    match what_it_does(&notice) {
        Coming::Enters(key, is_value) => admit(alloc, index, entries, notice, (key, is_value)),
        Coming::Leaves(key) => {
            leave(index, notice.writer, key);
            Ok(())
        }
        Coming::LeavesAll => {
            leave_all(index, notice.writer);
            Ok(())
        }
        Coming::ChangesNothing => Ok(()),
    }
}
