//! The octets of a sample that were received, by their places.

ghost use Rattle.std.specs.Prelude.{◌≡◌, ◌+◌, ◌-◌, ◌*◌, ◌<◌, ◌≤◌, ◌^◌, ℕ, ◌&&◌, nat_le, nat_lt, if◌then◌else◌, length, IfNone, IfOk, IfSome, OnErr, OnOk, Option, List, Some, None, false, true};
ghost use Rattle.std.specs.Option.{option_map, option_or};
ghost use Rattle.rtps_types.specs.Named.{set_naming};
ghost use Rattle.rtps_types.specs.Numbers.{failing_from};
ghost use Rattle.rtps_types.specs.Sets.{frag_view};
ghost use Rattle.rtps_frags.specs.declared.sizes.Sizes.{Sizes};
ghost use Rattle.rtps_frags.specs.Buffer.{AreStored};
ghost use Rattle.rtps_frags.specs.Fragments.{before, fragment_in, last_of, length_of};
ghost use Rattle.rtps_frags.specs.Missing.{missing_by};
ghost use Rattle.rtps_frags.specs.Chunks.{AreAway, ArePut, IsBounded, IsJoinable, IsKept, holds, part_at};
ghost use Rattle.rtps_frags.specs.Runs.{AreApart, Runs, begins_behind, begun_by, covers, starts_at};
ghost use Rattle.rtps_frags.specs.Spans.{IsAhead};
ghost use Rattle.rtps_frags.specs.Longer.{longer_by};

use crate::buffer::{append, copy_of, make_room, put_at};
use crate::sizes::Sizes;
use rtps_types::{FragSet, set_bit};
use std::alloc::{AllocError, Allocator};
use std::collections::BTreeMap;
use std::collections::btree_map::Iter;
use std::marker::Model;
use std::ops::Bound;

/// Consecutive fragments after a missing one.
#[derive(Drop)]
pub(crate) struct Chunk<A: Allocator> {
    count: u32,
    /// Their octets; empty if these are at their place in the buffer.
    octets: Vec<u8, A>,
}

impl<A: Allocator> Model for Chunk<A> {
    ghost use Rattle.std.specs.Prelude.{◌*◌, ◌≤◌, length, vec_capacity};
    ghost use Rattle.rtps_frags.specs.Runs.{Run};

    ghost Value = { Run };

    ghost view = { λ c. record { count = c.count; octets = c.octets.items } };

    ghost invariant = { λ c. vec_capacity c.octets ≤ 16 * length c.octets.items };
}

/// Fragments to be added: the first one, their number, and octets that begin with theirs.
#[derive(Clone, Copy)]
pub(crate) struct Piece<'a> {
    pub start: u32,
    pub count: u32,
    pub octets: &'a [u8],
}

/// The fragments from `start` to `end`, without `end`.
#[derive(Clone, Copy)]
struct Span {
    start: u64,
    end: u64,
}

/// The fragments of a sample that were received.
#[derive(Drop)]
pub(crate) struct Chunks<A: Allocator> {
    /// Octets at their places in the sample: those of the fragments before the least missing one,
    /// and then those of chunks, with holes between.
    pub buffer: Vec<u8, A>,
    /// The number of octets in the buffer that were received. The others are in holes.
    pub there: usize,
    /// The least missing fragment, or the one after the last.
    pub next: u32,
    /// The chunks after it, by their first fragments.
    pub early: BTreeMap<u32, Chunk<A>, A>,
    /// The first fragment of the chunk that was added last. The chunk may have been joined to the
    /// front since.
    pub latest: u32,
}

/// Returns the end of the chunk that contains fragment `at`, if there is one.
fn end_around<A: Allocator>(early: &BTreeMap<u32, Chunk<A>, A>, at: u32) -> Option<u64>
    requires { (low : ℕ) × AreApart low early.now.entries }
    ensures behind { IfSome result (λ end. at < end) }
    ensures all { IfSome result (λ end. (k : ℕ) → at ≤ k → k < end →
        covers early.now.entries k ≡ true) }
    ensures none { IfNone result ((k : ℕ) → at ≤ k →
        covers (begun_by at early.now.entries) k ≡ false) }
{
    let begun = (Bound::Unbounded, Bound::Included(at));
    let (start, chunk) = early.range(begun).next_back()?;
    let end = u64::from(*start) + u64::from(chunk.count);
    if u64::from(at) < end { Some(end) } else { None }
}

/// Returns the first fragment of the first chunk after fragment `at`, or `u64::MAX` if there is
/// none.
fn start_behind<A: Allocator>(early: &BTreeMap<u32, Chunk<A>, A>, at: u32) -> u64
    requires { (low : ℕ) × AreApart low early.now.entries }
    ensures goes { at < result }
    ensures none { (k : ℕ) → k < result → covers (begins_behind at early.now.entries) k ≡ false }
{
    match early.range((Bound::Excluded(at), Bound::Unbounded)).next() {
        Some((start, _)) => u64::from(*start),
        None => u64::MAX,
    }
}

/// Returns the first span of stored fragments that ends after fragment `at`, where `last` is the
/// span before or that span itself. After all chunks it returns the empty span at `limit`.
fn next_span<A: Allocator>(
    chunks: &mut Iter<'_, u32, Chunk<A>>,
    last: Span,
    at: u64,
    limit: u64,
) -> Span
    requires { at < limit }
    ensures goes { (runs : Runs) → IsAhead runs at last chunks.old → at < result.end }
    ensures same { (runs : Runs) → IsAhead runs at last chunks.old
        → IsAhead runs at result chunks.new }
{
    if at < last.end {
        return last;
    }
    match chunks.next() {
        Some((start, chunk)) => Span {
            start: u64::from(*start),
            end: u64::from(*start) + u64::from(chunk.count),
        },
        None => Span {
            start: limit,
            end: limit,
        },
    }
}

/// Returns the capacity to reserve for `length` octets of a sample: the whole sample if that is at
/// most sixteen times as much. A longer one gets sixteen times as much too, but no more than a
/// sixteenth of it, from where the next growth is to the whole: each growth may copy all octets,
/// and so the last one copies few.
fn room(sizes: Sizes, length: usize) -> usize
    ensures { result ≤ 16 * length }
{
    let whole = sizes.sample as usize;
    let most = length.saturating_mul(16);
    if most >= whole {
        whole
    } else {
        most.min(whole.div_ceil(16))
    }
}

/// Appends a piece to a chunk with octets of its own.
fn lengthen<A: Allocator>(
    chunk: &mut Chunk<A>,
    sizes: Sizes,
    piece: Piece<'_>,
) -> Result<(), AllocError>
    requires { chunk.old.count + piece.count < 2 ^ 32 }
    ensures ok { OnOk result
        (chunk.new ≡ longer_by chunk.old piece.entry.count piece.entry.octets.now) }
    ensures err { OnErr result (chunk.new ≡ chunk.old) }
{
    let length = chunk.octets.len() + piece.octets.len();
    append(&mut chunk.octets, room(sizes, length), piece.octets)?;
    chunk.count += piece.count;
    Ok(())
}

impl<A: Allocator + Copy> Chunks<A> {
    /// Returns an empty collection of fragments.
    pub fn new(alloc: A) -> Chunks<A>
        ensures kept { (z : Sizes) → IsKept z result }
        ensures bounded { IsBounded result }
        ensures none { (z : Sizes) (k : ℕ) → part_at z result k ≡ None }
    {
        Chunks {
            buffer: Vec::new(alloc),
            there: 0,
            next: 1,
            early: BTreeMap::new(alloc),
            latest: 0,
        }
    }
}

impl<A: Allocator> Chunks<A> {
    /// Returns whether fragment `at` is stored, and the end of a run of fragments from it on for
    /// which the answer is the same.
    fn stretch_from(&self, at: u32) -> (bool, u64)
        requires first { 1 ≤ at }
        requires apart { (low : ℕ) × AreApart low self.now.early.entries }
        ensures goes { at < result.1 }
        ensures same { (k : ℕ) → at ≤ k → k < result.1 → holds self.now k ≡ result.0 }
    {
        if at < self.next {
            return (true, u64::from(self.next));
        }
        if self.early.is_empty() {
            return (false, u64::MAX);
        }
        match end_around(&self.early, at) {
            Some(end) => (true, end),
            None => (false, start_behind(&self.early, at)),
        }
    }
}

impl<A: Allocator + Copy> Chunks<A> {
    /// Joins the chunks that begin with the least missing fragment to the front. Octets are copied
    /// only if a chunk has octets of its own.
    fn join(&mut self, sizes: Sizes) -> Result<(), AllocError>
        requires cut { 0 < sizes.fragment }
        requires small { sizes.sample ≤ 67108864 }
        requires kept { IsJoinable sizes self.old }
        requires bounded { IsBounded self.old }
        ensures kept { IsKept sizes self.new }
        ensures bounded { OnOk result (IsBounded self.new) }
        ensures same { OnOk result ((k : ℕ) →
            part_at sizes self.new k ≡ part_at sizes self.old k) }
    {
        while self.touches() {
            let Some((_, chunk)) = self.early.pop_first() else {
                break;
            };
            if chunk.octets.is_empty() {
                self.next += chunk.count;
            } else {
                self.put_next(sizes, chunk.count, chunk.octets.as_slice())?;
            }
        }
        Ok(())
    }

    /// Stores fragments that begin with the least missing one, where `octets` has exactly their
    /// length.
    fn put_next(&mut self, sizes: Sizes, count: u32, octets: &[u8]) -> Result<(), AllocError>
        requires cut { 0 < sizes.fragment }
        requires small { sizes.sample ≤ 67108864 }
        requires some { 1 ≤ count }
        requires within { self.old.next + count ≤ last_of sizes + 1 }
        requires fits { length octets.now ≡ length_of sizes self.old.next count }
        requires free { AreStored sizes (self.old.next + count) self.old.next self.old.there
            self.old.buffer.items self.old.early.entries }
        requires bounded { IsBounded self.old }
        ensures ok { OnOk result (IsJoinable sizes self.new) }
        ensures bounded { OnOk result (IsBounded self.new) }
        ensures err { OnErr result (IsKept sizes self.new) }
        ensures put { OnOk result
            (ArePut sizes self.old self.new self.old.next count octets.now) }
        ensures early { self.new.early.entries ≡ self.old.early.entries }
    {
        let there = self.there + octets.len();
        put_at(
            &mut self.buffer,
            room(sizes, there),
            sizes.before(self.next),
            octets,
        )?;
        self.there = there;
        self.next += count;
        Ok(())
    }

    /// Whether a chunk begins with the least missing fragment.
    fn touches(&self) -> bool
        ensures { result ≡ starts_at self.now.next self.now.early.entries }
    {
        match self.early.first_key_value() {
            None => false,
            Some((start, _)) => *start == self.next,
        }
    }

    /// Stores a piece whose fragments aren't stored yet, and whose octets have exactly their
    /// length.
    fn put(&mut self, alloc: A, sizes: Sizes, piece: Piece<'_>) -> Result<(), AllocError>
        requires cut { 0 < sizes.fragment }
        requires small { sizes.sample ≤ 67108864 }
        requires kept { IsKept sizes self.old }
        requires bounded { IsBounded self.old }
        requires free { AreAway sizes self.old piece.start piece.count piece.octets.now }
        ensures kept { IsKept sizes self.new }
        ensures bounded { OnOk result (IsBounded self.new) }
        ensures put { OnOk result (ArePut sizes self.old self.new
            piece.entry.start piece.entry.count piece.entry.octets.now) }
    {
        if piece.start == self.next {
            self.put_next(sizes, piece.count, piece.octets)?;
            return self.join(sizes);
        }
        if self.extend_latest(sizes, piece)? {
            return Ok(());
        }
        if self.has_place(sizes, piece) {
            return self.put_in_place(alloc, sizes, piece);
        }
        let chunk = Chunk {
            count: piece.count,
            octets: copy_of(alloc, piece.octets)?,
        };
        self.latest = piece.start;
        self.early.insert(piece.start, chunk)?;
        Ok(())
    }

    /// Whether the holes of the buffer, after the piece is put at its place, are no longer than the
    /// octets received. This bounds the buffer by the octets received, whatever fragment number is
    /// stated.
    fn has_place(&self, sizes: Sizes, piece: Piece<'_>) -> bool
        requires cut { 0 < sizes.fragment }
        requires small { sizes.sample ≤ 67108864 }
        requires kept { IsKept sizes self.now }
        requires free { AreAway sizes self.now piece.start piece.count piece.octets.now }
        ensures { result ≡ nat_le (before sizes piece.entry.start + length piece.entry.octets.now)
            (2 * (self.now.there + length piece.entry.octets.now)) }
    {
        let length = piece.octets.len();
        sizes.before(piece.start) + length <= 2 * (self.there + length)
    }

    /// Puts a piece at its place in the buffer, as the latest chunk. The capacity is reserved
    /// first, so that there is never a chunk without its octets in the buffer.
    fn put_in_place(&mut self, alloc: A, sizes: Sizes, piece: Piece<'_>) -> Result<(), AllocError>
        requires cut { 0 < sizes.fragment }
        requires small { sizes.sample ≤ 67108864 }
        requires kept { IsKept sizes self.old }
        requires bounded { IsBounded self.old }
        requires free { AreAway sizes self.old piece.start piece.count piece.octets.now }
        requires later { self.old.next < piece.start }
        requires few { before sizes piece.start + length piece.octets.now
            ≤ 2 * (self.old.there + length piece.octets.now) }
        ensures kept { IsKept sizes self.new }
        ensures bounded { OnOk result (IsBounded self.new) }
        ensures put { OnOk result (ArePut sizes self.old self.new
            piece.entry.start piece.entry.count piece.entry.octets.now) }
        ensures latest { OnOk result (self.new.latest ≡ piece.entry.start) }
    {
        let at = sizes.before(piece.start);
        let there = self.there + piece.octets.len();
        let room = room(sizes, there);
        make_room(&mut self.buffer, room, at + piece.octets.len())?;
        let chunk = Chunk {
            count: piece.count,
            octets: Vec::new(alloc),
        };
        self.latest = piece.start;
        self.early.insert(piece.start, chunk)?;
        put_at(&mut self.buffer, room, at, piece.octets)?;
        self.there = there;
        Ok(())
    }

    /// Appends a piece to the latest chunk, if that ends where the piece begins. Returns whether it
    /// does.
    fn extend_latest(&mut self, sizes: Sizes, piece: Piece<'_>) -> Result<bool, AllocError>
        requires cut { 0 < sizes.fragment }
        requires small { sizes.sample ≤ 67108864 }
        requires kept { IsKept sizes self.old }
        requires bounded { IsBounded self.old }
        requires free { AreAway sizes self.old piece.start piece.count piece.octets.now }
        ensures kept { IsKept sizes self.new }
        ensures bounded { OnOk result (IsBounded self.new) }
        ensures put { IfOk result (λ ends. ends ≡ true → ArePut sizes self.old self.new
            piece.entry.start piece.entry.count piece.entry.octets.now) }
        ensures apart { IfOk result (λ ends. ends ≡ false
            → self.new.early.entries ≡ self.old.early.entries) }
        ensures same { IfOk result (λ ends. ends ≡ false
            → (self.new.buffer.items ≡ self.old.buffer.items)
            × (self.new.there ≡ self.old.there)) }
        ensures next { self.new.next ≡ self.old.next }
    {
        let Some(chunk) = self.early.get_mut(&self.latest) else {
            return Ok(false);
        };
        if piece.start < self.latest || piece.start - self.latest != chunk.count {
            return Ok(false);
        }
        if !chunk.octets.is_empty() {
            lengthen(chunk, sizes, piece)?;
            return Ok(true);
        }
        let there = self.there + piece.octets.len();
        put_at(
            &mut self.buffer,
            room(sizes, there),
            sizes.before(piece.start),
            piece.octets,
        )?;
        self.there = there;
        chunk.count += piece.count;
        Ok(true)
    }

    /// Stores the fragments of a piece that aren't stored yet.
    pub fn add(&mut self, alloc: A, sizes: Sizes, piece: Piece<'_>) -> Result<(), AllocError>
        requires cut { 0 < sizes.fragment }
        requires small { sizes.sample ≤ 67108864 }
        requires kept { IsKept sizes self.old }
        requires bounded { IsBounded self.old }
        requires first { 1 ≤ piece.start }
        requires within { piece.start + piece.count ≤ last_of sizes + 1 }
        requires enough { length_of sizes piece.start piece.count ≤ length piece.octets.now }
        ensures kept { IsKept sizes self.new }
        ensures bounded { OnOk result (IsBounded self.new) }
        ensures added { OnOk result ((k : ℕ) → part_at sizes self.new k
            ≡ option_or (part_at sizes self.old k)
            (if nat_le piece.entry.start k && nat_lt k (piece.entry.start + piece.entry.count)
            then Some (fragment_in sizes piece.entry.start piece.entry.octets.now k)
            else None)) }
    {
        let end = piece.start + piece.count;
        let mut at = piece.start;
        while at < end {
            let (is_there, until) = self.stretch_from(at);
            let until = until.min(u64::from(end)) as u32;
            if !is_there {
                self.put(alloc, sizes, piece.part(sizes, at, until))?;
            }
            at = until;
        }
        Ok(())
    }
}

impl<A: Allocator> Chunks<A> {
    /// Returns the missing fragments up to `end`, of the 256 that begin with the least missing one.
    pub fn missing_up_to(&self, end: u32) -> Option<FragSet>
        requires begun { 1 ≤ self.now.next }
        requires apart { AreApart (self.now.next + 1) self.now.early.entries }
        ensures { option_map frag_view result ≡ missing_by (holds self.now) end }
    {
        if end < self.next {
            return None;
        }
        let count = (end - self.next).min(255) + 1;
        Some(self.missing_from_next(count))
    }

    /// Returns the missing fragments of the `count` that begin with the least missing one. One pass
    /// over the chunks, in step with the fragments, is enough.
    fn missing_from_next(&self, count: u32) -> FragSet
        requires some { 0 < count }
        requires few { count ≤ 256 }
        requires small { self.now.next + count ≤ 2 ^ 32 }
        requires begun { 1 ≤ self.now.next }
        requires apart { AreApart (self.now.next + 1) self.now.early.entries }
        ensures { frag_view result
            ≡ set_naming self.now.next (failing_from (holds self.now) self.now.next count) }
    {
        let base = self.next;
        let end = u64::from(base) + u64::from(count);
        let mut words = [0; 8];
        let mut bits: u32 = 0;
        let mut chunks = self.early.iter();
        let mut span = Span {
            start: u64::from(base),
            end: u64::from(base),
        };
        for offset in 0..count {
            let at = u64::from(base + offset);
            span = next_span(&mut chunks, span, at, end);
            if at < span.start {
                set_bit(&mut words, offset);
                bits = offset + 1;
            }
        }
        FragSet { base, bits, words }
    }
}

impl<'a> Piece<'a> {
    /// Returns the fragments from `from` to `to`, without `to`.
    fn part(self, sizes: Sizes, from: u32, to: u32) -> Piece<'a>
        requires cut { 0 < sizes.fragment }
        requires first { 1 ≤ self.start }
        requires behind { self.start ≤ from }
        requires some { from < to }
        requires within { to ≤ self.start + self.count }
        requires last { self.start + self.count ≤ last_of sizes + 1 }
        requires enough { length_of sizes self.start self.count ≤ length self.octets.now }
        ensures start { result.start ≡ from }
        ensures count { result.count ≡ to - from }
        ensures fits { length result.octets.now ≡ length_of sizes from (to - from) }
        ensures same { (k : ℕ) → from ≤ k → k < to → fragment_in sizes from result.octets.now k
            ≡ fragment_in sizes self.entry.start self.entry.octets.now k }
    {
        let skipped = sizes.before(from) - sizes.before(self.start);
        let length = sizes.length_of(from, to - from);
        Piece {
            start: from,
            count: to - from,
            octets: &self.octets[skipped..skipped + length],
        }
    }
}
