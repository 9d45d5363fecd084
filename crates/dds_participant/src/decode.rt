//! Decoding the events of a batch, and cutting them by datagram.

ghost use Rattle.std.specs.Prelude.{◌≡◌, ◌==◌, ◌+◌, ◌*◌, ◌^◌, ◌<◌, ◌≤◌, ◌++◌, ◌∷◌, [], All, IfOk, OnOk, drop, false, length, map, slice_index_or, take};
ghost use Rattle.std.specs.List.{AllByRecursion, AllZip, flat_map, range_with_len};
ghost use Rattle.std.specs.Int.{div_ceil};
ghost use Rattle.rtps_types.specs.declared.identity.GuidPrefix as types;
ghost use Rattle.rtps_receiver.specs.Counters.{AreCounts};
ghost use Rattle.rtps_receiver.specs.Events.{view};
ghost use Rattle.rtps_run.specs.Input.{arrived, events_from};
ghost use Rattle.rtps_planner.specs.Stamped.{AreStamped};
ghost use Rattle.dds_participant.specs.Decode.{AllOk, IsDecoded, IsPiece, all_added, events_given, is_decoded_apart};

use rayon::prelude::*;
use rtps_planner::Stamped;
use rtps_receiver::{Counters, Event, add_events};
use rtps_types::{Datagram, GuidPrefix};
use std::alloc::{AllocError, Global};
use std::thread::Threads;

/// Up to this many datagrams, one thread is faster: starting threads takes longer than decoding.
/// Decoding borrows each payload, so its time doesn't grow with the octets.
const ALONE: usize = 2_048;

/// The number of datagrams in a piece, which is decoded by one thread.
const PIECE: usize = 64;

/// Consecutive datagrams of a run.
#[derive(Clone, Copy)]
pub(crate) struct Arrived<'a, 'b> {
    /// The participant that received them.
    pub own: GuidPrefix,
    /// The index of the first of them in the run, counted from 0.
    pub first: u64,
    pub datagrams: &'b [Datagram<'a>],
}

/// The events of datagrams, in order, and the counters after them.
#[derive(Drop)]
pub(crate) struct Received<'a> {
    pub events: Vec<Event<'a>>,
    pub counters: Counters,
}

/// Returns the events of these datagrams, in order, for the participant `own`, and the counters,
/// which are `counters` before them. `first` is the index of the first of them in the run, counted
/// from 0. The initial capacity is one event for each datagram. An error is a refused growth.
fn decoded_alone<'a>(
    alloc: Global,
    own: GuidPrefix,
    first: u64,
    datagrams: &[Datagram<'a>],
    counters: Counters,
) -> Result<Received<'a>, AllocError>
    requires room { first + length datagrams.now < 2 ^ 64 }
    requires fit { All (λ d. length d.bytes.now ≤ 65507) datagrams.now }
    ensures { IfOk result (IsDecoded own first datagrams.now counters) }
{
    let mut events = Vec::with_capacity(alloc, datagrams.len())?;
    let mut counters = counters;
    for (at, datagram) in datagrams.iter().enumerate() {
        let index = first + at as u64;
        add_events(&mut events, &mut counters, own, index, datagram.bytes)?;
    }
    Ok(Received { events, counters })
}

/// Returns the piece of this index, counted from 0. The last piece may be shorter than the others.
fn piece<'a, 'b>(datagrams: &'b [Datagram<'a>], index: usize) -> &'b [Datagram<'a>]
    requires { index * 64 < length datagrams.now }
    ensures { result.now ≡ take 64 (drop (index * 64) datagrams.now) }
{
    let (_, rest) = datagrams.split_at(index * PIECE);
    let (piece, _) = rest.split_at(PIECE.min(rest.len()));
    piece
}

/// Returns the events of each piece of the datagrams, counted alone. At any time one piece is
/// decoded for each processor.
fn decoded_apart<'a, R: Threads + Sync>(
    rt: &R,
    alloc: Global,
    own: GuidPrefix,
    first: u64,
    datagrams: &[Datagram<'a>],
) -> Result<Vec<Result<Received<'a>, AllocError>>, AllocError>
    requires room { first + length datagrams.now < 2 ^ 64 }
    requires fit { All (λ d. length d.bytes.now ≤ 65507) datagrams.now }
    ensures { IfOk result (λ pieces. AllZip (IsPiece own first datagrams.now)
        (range_with_len 0 (div_ceil (length datagrams.now) 64)) pieces.items) }
{
    (0..datagrams.len().div_ceil(PIECE))
        .into_par_iter()
        .map(
            |index: usize| -> Result<Received<'_>, AllocError>
                requires { (index * 64 < length datagrams.now)
                    × (first + length datagrams.now < 2 ^ 64)
                    × All (λ d. length d.bytes.now ≤ 65507) datagrams.now }
                ensures { IsPiece own first datagrams.entry.now index result }
            {
                let start = first + (index * PIECE) as u64;
                decoded_alone(alloc, own, start, piece(datagrams, index), Counters::new())
            },
        )
        .collect(rt, alloc)
}

/// Joins the events of pieces, in order, and adds up what they counted. An error is one of a piece,
/// or a refused growth.
fn joined<'a>(
    alloc: Global,
    pieces: Vec<Result<Received<'a>, AllocError>>,
    counters: Counters,
) -> Result<Received<'a>, AllocError>
    ensures ok { OnOk result (AllOk pieces.entry.items) }
    ensures events { IfOk result (λ all.
        all.events.items ≡ flat_map events_given pieces.entry.items) }
    ensures counters { IfOk result (λ all. all.counters ≡ all_added pieces.entry.items counters) }
{
    let mut events = Vec::new(alloc);
    let mut counters = counters;
    for piece in pieces {
        let mut piece = piece?;
        events.append(&mut piece.events)?;
        counters.add(&piece.counters);
    }
    Ok(Received { events, counters })
}

/// Whether a batch of this many datagrams is decoded by several threads.
fn is_decoded_apart(datagrams: usize, workers: usize) -> bool
    ensures { result ≡ is_decoded_apart datagrams workers }
{
    workers > 1 && datagrams > ALONE
}

/// Returns the events of these datagrams, in order, and the counters, which are `counters` before
/// them. An error is a refused growth.
#[tactic(auto, using(rtps_receiver::proofs::Summing::counts_after))]
pub(crate) fn decoded<'a, R: Threads + Sync>(
    rt: &R,
    alloc: Global,
    from: Arrived<'a, '_>,
    counters: Counters,
    workers: usize,
) -> Result<Received<'a>, AllocError>
    requires room { from.first + length from.datagrams.now < 2 ^ 64 }
    requires fit { All (λ d. length d.bytes.now ≤ 65507) from.datagrams.now }
    requires counts { AreCounts counters }
    ensures decoded { IfOk result (IsDecoded from.entry.own from.entry.first
        from.entry.datagrams.now counters) }
    ensures counts { IfOk result (λ all. AreCounts all.counters) }
{
    let Arrived {
        own,
        first,
        datagrams,
    } = from;
    if !is_decoded_apart(datagrams.len(), workers) {
        return decoded_alone(alloc, own, first, datagrams, counters);
    }
    joined(
        alloc,
        decoded_apart(rt, alloc, own, first, datagrams)?,
        counters,
    )
}

/// The number of events at the front of the list that came in the datagram of this index.
fn count_at(events: &[Event<'_>], index: u64) -> usize
    ensures within { result ≤ length events.now }
    ensures alike { AllByRecursion (λ e. e.place.datagram ≡ index)
        (take result (map view events.now)) }
    ensures ends { (other : _) → result < length events.now
        → ((view (slice_index_or events.now result other)).place.datagram == index) ≡ false }
{
    let mut count = 0;
    for event in events {
        if event.place.datagram != index {
            return count;
        }
        count += 1;
    }
    count
}

/// Appends the events of a datagram.
fn push_stamped<'a>(all: &mut Vec<Stamped<'a>>, one: Stamped<'a>) -> Result<(), AllocError>
    ensures { OnOk result (all.new.items ≡ all.old.items ++ one.entry ∷ []) }
{
    all.push(one)?;
    Ok(())
}

/// Cuts the events of these datagrams, in order, by datagram: returns each datagram's moment, its
/// index and its events. `first` is the index of the first of them in the run. An error is a
/// refused growth.
pub(crate) fn stamped<'a>(
    alloc: Global,
    first: u64,
    datagrams: &[Datagram<'_>],
    events: &'a [Event<'a>],
) -> Result<Vec<Stamped<'a>>, AllocError>
    requires room { first + length datagrams.now < 2 ^ 64 }
    ensures { IfOk result (λ all. (own : types.GuidPrefix) → map view events.now
        ≡ events_from own first (map arrived datagrams.now)
        → AreStamped own first datagrams.now all.items) }
{
    let mut all = Vec::with_capacity(alloc, datagrams.len())?;
    let mut next = 0;
    for at in 0..datagrams.len() {
        let index = first + at as u64;
        let end = next + count_at(&events[next..], index);
        let one = Stamped {
            moment: datagrams[at].moment,
            index,
            events: &events[next..end],
        };
        push_stamped(&mut all, one)?;
        next = end;
    }
    Ok(all)
}
