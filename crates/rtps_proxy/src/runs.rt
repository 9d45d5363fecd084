//! Runs of settled numbers, in a vector with free places before them. The frontier drops the first
//! runs without moving the others, and an insertion or removal moves the runs on the side that has
//! fewer, since most of them happen at one end.

ghost use Rattle.std.specs.Prelude.{◌≡◌, ◌+◌, ◌-◌, ◌*◌, ◌<◌, ◌≤◌, ◌∷◌, ◌++◌, [], if◌then◌else◌, is_ok, IfOk, OnErr, length, take, drop, vec_len};

use crate::effects::ProxyError;
use rtps_types::Number;
use std::alloc::Allocator;
use std::marker::Model;

/// The most runs for which memory is kept while there are fewer.
const KEPT: usize = 1_024;

/// Runs in order, each by its first and its last number. The vector has at most `5 * n + 3` items
/// for `n` runs, of which up to `4 * n + 3` are free places.
#[derive(Drop)]
pub(crate) struct Runs<A: Allocator> {
    /// The free places, `room` of them, and then the runs.
    list: Vec<(Number, Number), A>,
    room: usize,
    ghost within: { room ≤ vec_len list },
    ghost few: { room ≤ 4 * (vec_len list - room) + 3 },
}

impl<A: Allocator> Model for Runs<A> {
    ghost use Rattle.std.specs.Prelude.{List, drop};
    ghost use Rattle.rtps_types.specs.declared.number.Number.{Number};

    ghost Value = { List (Number × Number) };

    ghost view = { λ r. drop r.room r.list.items };
}

impl<A: Allocator> Runs<A> {
    /// Returns an empty list of runs.
    pub fn new(alloc: A) -> Runs<A>
        ensures { result ≡ [] }
    {
        Runs {
            list: Vec::new(alloc),
            room: 0,
        }
    }

    /// Returns the runs, without the free places before them.
    pub fn as_slice(&self) -> &[(Number, Number)]
        ensures { result.now ≡ self.now }
    {
        let (_, standing) = self.list.as_slice().split_at(self.room);
        standing
    }

    /// Inserts a run at `at`, before the run that is there.
    pub fn insert(&mut self, at: usize, run: (Number, Number)) -> Result<(), ProxyError>
        requires { at ≤ length self.old }
        ensures items { self.new
            ≡ (if is_ok result then take at self.old ++ run ∷ drop at self.old else self.old) }
    {
        let count = self.list.len() - self.room;
        if count - at <= at {
            self.list.insert(self.room + at, run)?;
            return Ok(());
        }
        let place = place_before(&mut self.list, self.room)?;
        self.room = place;
        put_down(&mut self.list, place, at, run);
        Ok(())
    }

    /// Replaces the runs from `from` to `to`, without `to`, with one run.
    pub fn replace(&mut self, from: usize, to: usize, run: (Number, Number))
        requires some { from < to }
        requires within { to ≤ length self.old }
        ensures { self.new ≡ take from self.old ++ run ∷ drop to self.old }
    {
        let first = self.room + from;
        let last = self.room + to - 1;
        if self.list.len() - last <= from {
            self.list[first] = run;
            cut(&mut self.list, first + 1, last + 1);
            self.room = less_room(&mut self.list, self.room);
            return;
        }
        lift(&mut self.list, self.room, first, last, run);
        self.room = less_room(&mut self.list, self.room + (last - first));
    }

    /// Removes the first `count` runs.
    pub fn give_up(&mut self, count: usize)
        requires { count ≤ length self.old }
        ensures { self.new ≡ drop count self.old }
    {
        self.room = less_room(&mut self.list, self.room + count);
    }
}

/// Returns the number of free places before the runs. Where more than about four fifths of the
/// vector would be free, the runs are first moved to its front, and memory that they don't need is
/// given back.
fn less_room<A: Allocator>(list: &mut Vec<(Number, Number), A>, room: usize) -> usize
    requires { room ≤ vec_len list.old }
    ensures within { result ≤ vec_len list.new }
    ensures few { result ≤ 4 * (vec_len list.new - result) + 3 }
    ensures same { drop result list.new.items ≡ drop room list.old.items }
{
    if room / 4 <= list.len() - room {
        return room;
    }
    cut(list, 0, room);
    list.shrink_to(KEPT);
    0
}

/// Removes the items from `from` to `to`, without `to`.
fn cut<A: Allocator>(list: &mut Vec<(Number, Number), A>, from: usize, to: usize)
    requires order { from ≤ to }
    requires within { to ≤ vec_len list.old }
    ensures { list.new.items ≡ take from list.old.items ++ drop to list.old.items }
{
    let left = list.len() - to;
    list.copy_within(to.., from);
    list.truncate(from + left);
}

/// Returns the last free place before the runs. Where there is none, the vector is doubled first,
/// so that there are as many free places as runs.
fn place_before<A: Allocator>(
    list: &mut Vec<(Number, Number), A>,
    room: usize,
) -> Result<usize, ProxyError>
    requires some { room < vec_len list.old }
    requires few { room ≤ 4 * (vec_len list.old - room) + 3 }
    ensures len { vec_len list.old ≤ vec_len list.new }
    ensures within { IfOk result (λ place. place < vec_len list.new) }
    ensures few { IfOk result (λ place. place ≤ 4 * (vec_len list.new - place) + 3) }
    ensures behind { IfOk result (λ place.
        drop (place + 1) list.new.items ≡ drop room list.old.items) }
    ensures err { OnErr result (list.new.items ≡ list.old.items) }
{
    if room > 0 {
        return Ok(room - 1);
    }
    let count = list.len();
    list.extend_from_within(..)?;
    Ok(count - 1)
}

/// Moves `count` runs one place down to `place`, and puts a run after them.
fn put_down<A: Allocator>(
    list: &mut Vec<(Number, Number), A>,
    place: usize,
    count: usize,
    run: (Number, Number),
)
    requires { place + count < vec_len list.old }
    ensures items { drop place list.new.items
        ≡ take count (drop (place + 1) list.old.items)
        ++ run ∷ drop (place + 1 + count) list.old.items }
    ensures len { vec_len list.new ≡ vec_len list.old }
{
    list.copy_within(place + 1..place + 1 + count, place);
    list[place + count] = run;
}

/// Replaces the runs from `first` to `last` with one run, which is put at `last`, and moves the
/// runs from `place` to `first` up to it.
fn lift<A: Allocator>(
    list: &mut Vec<(Number, Number), A>,
    place: usize,
    first: usize,
    last: usize,
    run: (Number, Number),
)
    requires before { place ≤ first }
    requires order { first ≤ last }
    requires within { last < vec_len list.old }
    ensures items { drop (place + (last - first)) list.new.items
        ≡ take (first - place) (drop place list.old.items) ++ run ∷ drop (last + 1) list.old.items }
    ensures len { vec_len list.new ≡ vec_len list.old }
{
    list[last] = run;
    list.copy_within(place..first, place + (last - first));
}
