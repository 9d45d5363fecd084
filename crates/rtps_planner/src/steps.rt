//! The steps of readers for a moment, for an announcement, and for events of a user's writer.

ghost use Rattle.std.specs.Prelude.{◌≡◌, ℕ, ◌+◌, ◌<◌, ◌^◌, ◌==◌, ◌++◌, [], ◌∷◌, IfOk, List, None, OnOk, if◌then◌else◌, length, map, true, false};
ghost use Rattle.std.specs.List.{list_any};
ghost use Rattle.std.specs.Option.{option_map};
ghost use Rattle.rtps_discovery.specs.Addressed as addressed;
ghost use Rattle.rtps_discovery.specs.Kept.{IsKnown};
ghost use Rattle.rtps_discovery.specs.Known.{Known, reader_at};
ghost use Rattle.rtps_discovery.specs.Seen.{change_seen};
ghost use Rattle.rtps_receiver.specs.Events.{EventView, view};
ghost use Rattle.rtps_proxy.specs.Replies.{reply_view};
ghost use Rattle.rtps_reader.specs.Notice.{answer_view};
ghost use Rattle.rtps_reader.specs.Reader.{placed};
ghost use Rattle.rtps_run.specs.Addressed.{is_named};
ghost use Rattle.rtps_run.specs.Occurrence.{Came, Passes};
ghost use Rattle.rtps_run.specs.World.{changes_for};
ghost use Rattle.rtps_planner.specs.Commuting.{head_spoken};
ghost use Rattle.rtps_planner.specs.Plan.{EndsAt, Grow, IsPlanned, ReadsAs, burst_at, events_at, step_seen, steps_seen, taken_in};
ghost use Rattle.rtps_planner.specs.declared.steps.PlannedStep.TheVariants as planned;

use crate::passed_over::PassedOver;
use rtps_discovery::{Discovery, MatchChange, Reader};
use rtps_receiver::Event;
use rtps_run::is_named;
use rtps_types::{EntityId, Guid, MatchChangeKind, Place, Reply};
use std::alloc::{AllocError, Allocator, Global};

/// Initial capacity of a list of steps, so that short jobs take memory once.
const FIRST_ROOM: usize = 8;

/// One step of a job. It refers to events by their indices among those of the whole batch, one
/// datagram's after the other's.
#[derive(Debug, Drop)]
pub enum PlannedStep<A: Allocator = Global> {
    /// The reader processes the event at index `first` and the `more` events after it.
    TakeIn {
        first: usize,
        more: usize,
    },
    /// A match changes, at the place of the event that announces it, or before the events of a
    /// datagram (submessage 0) if a lease ended.
    Change {
        place: Place,
        what: MatchChangeKind<A>,
    },
}

/// Appends a step. A full list grows to four times its length, since each growth moves all steps.
fn push_step<A: Allocator>(
    steps: &mut Vec<PlannedStep<A>, A>,
    step: PlannedStep<A>,
) -> Result<(), AllocError>
    ensures { OnOk result (steps.new.items ≡ steps.old.items ++ step ∷ []) }
{
    let count = steps.len();
    if count == steps.capacity() {
        steps.reserve(count.saturating_mul(3).max(FIRST_ROOM))?;
    }
    steps.push(step)?;
    Ok(())
}

/// Extends a step by the event at index `first` and the `more` events after it, if they directly
/// follow its own events. Returns whether it did.
fn lengthen<A: Allocator>(step: &mut PlannedStep<A>, first: usize, more: usize) -> bool
    ensures kept { result ≡ false → step.new ≡ step.old }
    ensures longer { (es : List EventView) → result ≡ true → step_seen es step.new
        ≡ step_seen es step.old ++ map taken_in (events_at es first more) }
    ensures follows { (from count : ℕ) → step.old ≡ planned.TakeIn from count
        → first ≡ from + (count + 1) → first + more < 2 ^ 64 → result ≡ true }
{
    match step {
        PlannedStep::TakeIn {
            first: from,
            more: count,
        } => {
            if first <= *from || first - *from - 1 != *count {
                return false;
            }
            let Some(longer) = (first - *from).checked_add(more) else {
                return false;
            };
            *count = longer;
            true
        }
        PlannedStep::Change { .. } => false,
    }
}

/// Adds the event at index `first` and the `more` events after it to the end of a job: to its last
/// step if they directly follow it, else as a new step.
fn take_in<A: Allocator>(
    steps: &mut Vec<PlannedStep<A>, A>,
    first: usize,
    more: usize,
) -> Result<(), AllocError>
    ensures { (es : List EventView) → OnOk result (steps_seen es steps.new.items
        ≡ steps_seen es steps.old.items ++ map taken_in (events_at es first more)) }
{
    if let Some(last) = steps.last_mut() {
        if lengthen(last, first, more) {
            return Ok(());
        }
    }
    push_step(steps, PlannedStep::TakeIn { first, more })
}

/// Consecutive events that come from one writer with one reader id.
#[derive(Clone, Copy)]
pub(crate) struct Burst {
    /// The index of the first one.
    pub first: usize,
    /// The number of events after it.
    pub more: usize,
    pub writer: Guid,
    pub reader: EntityId,
}

/// Adds a burst to the steps of the reader of `rank`. A rank past the last is ignored.
fn take_in_at<A: Allocator>(
    lists: &mut Vec<Vec<PlannedStep<A>, A>, A>,
    rank: u32,
    burst: Burst,
) -> Result<(), AllocError>
    ensures { (es : List EventView) → OnOk result (Grow es lists.old.items lists.new.items
        (λ at. if rank == at then map taken_in (events_at es burst.first burst.more) else [])) }
{
    match lists.get_mut(rank as usize) {
        Some(steps) => take_in(steps, burst.first, burst.more),
        None => Ok(()),
    }
}

/// Appends a step to those of the reader of `rank`. A rank past the last is ignored.
fn add_step<A: Allocator>(
    lists: &mut Vec<Vec<PlannedStep<A>, A>, A>,
    rank: u32,
    step: PlannedStep<A>,
) -> Result<(), AllocError>
    ensures { (es : List EventView) → OnOk result (Grow es lists.old.items lists.new.items
        (λ at. if rank == at then step_seen es step else [])) }
{
    match lists.get_mut(rank as usize) {
        Some(steps) => push_step(steps, step),
        None => Ok(()),
    }
}

/// Appends each change of a match, at this place, to the steps of its reader.
fn add_changes<A: Allocator>(
    lists: &mut Vec<Vec<PlannedStep<A>, A>, A>,
    place: Place,
    changes: Vec<MatchChange<A>, A>,
) -> Result<(), AllocError>
    ensures { (es : List EventView) → OnOk result (Grow es lists.old.items lists.new.items
        (λ rank. map (λ what. (place, what)) (changes_for rank (map change_seen changes.items)))) }
{
    for change in changes {
        let what = change.what;
        add_step(lists, change.rank, PlannedStep::Change { place, what })?;
    }
    Ok(())
}

/// Adds a burst to the steps of those readers of these ranks that its reader id names. Returns
/// whether it names one.
fn add_burst<A: Allocator>(
    lists: &mut Vec<Vec<PlannedStep<A>, A>, A>,
    readers: &[Option<Reader<A>>],
    ranks: &[u32],
    burst: Burst,
) -> Result<bool, AllocError>
    ensures grows { (es : List EventView) → OnOk result (Grow es lists.old.items lists.new.items
        (burst_at es burst readers.now ranks.now)) }
    ensures named { IfOk result (λ named. named ≡ list_any
        (λ rank. is_named burst.reader (reader_at readers.now rank)) ranks.now) }
{
    let mut named = false;
    for rank in ranks {
        if is_named(readers, *rank, burst.reader) {
            named = true;
            take_in_at(lists, *rank, burst)?;
        }
    }
    Ok(named)
}

/// The steps of each reader so far, by rank, discovery's answers, and the places at which something
/// may be put out.
#[derive(Drop)]
pub(crate) struct Planning<A: Allocator> {
    pub lists: Vec<Vec<PlannedStep<A>, A>, A>,
    pub answers: Vec<(Place, Reply<A>), A>,
    pub places: Vec<Place, A>,
    /// What came to nothing so far, without the burst.
    pub passed: PassedOver,
    /// The last events, if they are a burst that may go on. Its steps are not in the lists yet.
    pub burst: Option<Burst>,
}

/// Appends discovery's answer to the event at this place, if there is one.
fn add_answer<A: Allocator>(
    answers: &mut Vec<(Place, Reply<A>), A>,
    place: Place,
    answer: Option<Reply<A>>,
) -> Result<(), AllocError>
    ensures { OnOk result (map answer_view answers.new.items
        ≡ map answer_view answers.old.items ++ placed place (option_map reply_view answer)) }
{
    if let Some(reply) = answer {
        answers.push((place, reply))?;
    }
    Ok(())
}

/// Appends the place before the events of a datagram, if matches ended there.
fn add_head<A: Allocator>(
    places: &mut Vec<Place, A>,
    index: u64,
    ended: &[MatchChange<A>],
) -> Result<(), AllocError>
    ensures { OnOk result (places.new.items
        ≡ places.old.items ++ head_spoken index (map change_seen ended.now)) }
{
    if ended.is_empty() {
        return Ok(());
    }
    places.push(Place {
        datagram: index,
        submessage: 0,
    })?;
    Ok(())
}

/// Appends the places of these events.
pub(crate) fn add_places<A: Allocator>(
    places: &mut Vec<Place, A>,
    events: &[Event<'_>],
) -> Result<(), AllocError>
    ensures { OnOk result (places.new.items
        ≡ places.old.items ++ map (λ e. e.place) (map view events.now)) }
{
    for event in events {
        places.push(event.place)?;
    }
    Ok(())
}

/// Has discovery advance to the moment of the datagram of this index, and appends each match that
/// ends because a lease has ended to the steps of its reader. No burst is open.
fn end_matches<A: Allocator + Copy>(
    discovery: &mut Discovery<A>,
    planning: &mut Planning<A>,
    alloc: A,
    moment: u64,
    index: u64,
) -> Result<(), AllocError>
    requires { planning.old.burst ≡ None }
    ensures count { OnOk result (length planning.new.lists.items
        ≡ length planning.old.lists.items) }
    ensures closed { OnOk result (planning.new.burst ≡ None) }
    ensures ok { OnOk result (discovery.new.spent ≡ false) }
    ensures planned { (k : Known) (es : List EventView) → IsKnown k discovery.old.kept
        → OnOk result (IsPlanned es k (Passes index moment ∷ []) planning.old planning.new
        discovery.new.kept) }
{
    let ended = discovery.expire(alloc, moment)?;
    add_head(&mut planning.places, index, &ended)?;
    let place = Place {
        datagram: index,
        submessage: 0,
    };
    add_changes(&mut planning.lists, place, ended)
}

/// Adds the open burst, if there is one, to the steps of the readers that are matched with its
/// writer and that it names. If there are none, its events are for nobody.
pub(crate) fn close<A: Allocator + Copy>(
    discovery: &Discovery<A>,
    planning: &mut Planning<A>,
) -> Result<(), AllocError>
    ensures count { OnOk result (length planning.new.lists.items
        ≡ length planning.old.lists.items) }
    ensures closed { planning.new.burst ≡ None }
    ensures planned { (k : Known) (es : List EventView) → IsKnown k discovery.now.kept
        → OnOk result (IsPlanned es k [] planning.old planning.new discovery.now.kept) }
{
    let Some(burst) = planning.burst.take() else {
        return Ok(());
    };
    let readers = discovery.readers();
    let ranks = discovery.matched(burst.writer);
    let has_reader = add_burst(&mut planning.lists, readers, ranks, burst)?;
    if !has_reader {
        planning.passed.count_nobody(burst.more as u64);
    }
    Ok(())
}

/// Plans the moment of the datagram of this index. If no lease ends at it, the open burst stays
/// open.
pub(crate) fn plan_moment<A: Allocator + Copy>(
    discovery: &mut Discovery<A>,
    planning: &mut Planning<A>,
    alloc: A,
    moment: u64,
    index: u64,
) -> Result<(), AllocError>
    ensures count { OnOk result (length planning.new.lists.items
        ≡ length planning.old.lists.items) }
    ensures ends { (next : ℕ) → EndsAt planning.old.burst next
        → OnOk result (EndsAt planning.new.burst next) }
    ensures ok { OnOk result (discovery.new.spent ≡ false) }
    ensures planned { (k : Known) (es : List EventView) → IsKnown k discovery.old.kept
        → OnOk result (IsPlanned es k (Passes index moment ∷ []) planning.old planning.new
        discovery.new.kept) }
{
    if !discovery.is_due(moment) {
        let _none = discovery.expire(alloc, moment)?;
        return Ok(());
    }
    close(discovery, planning)?;
    end_matches(discovery, planning, alloc, moment, index)
}

/// Has discovery process an announcement at the moment that it has reached, and appends its answer,
/// and each change of a match to the steps of its reader. Records that discovery ignores are
/// counted. No burst is open.
fn announce<A: Allocator + Copy>(
    discovery: &mut Discovery<A>,
    planning: &mut Planning<A>,
    alloc: A,
    event: &Event<'_>,
) -> Result<(), AllocError>
    requires { planning.old.burst ≡ None }
    ensures count { OnOk result (length planning.new.lists.items
        ≡ length planning.old.lists.items) }
    ensures closed { OnOk result (planning.new.burst ≡ None) }
    ensures ok { OnOk result (discovery.new.spent ≡ false) }
    ensures planned { (k : Known) (es : List EventView) → IsKnown k discovery.old.kept
        → addressed.is_discovery event.now.writer ≡ true
        → OnOk result (IsPlanned es k (Came (view event.now) ∷ []) planning.old planning.new
        discovery.new.kept) }
{
    let moment = discovery.moment();
    let effects = discovery.step(alloc, moment, event)?;
    planning.places.push(event.place)?;
    planning.passed.count_ignored(effects.ignored as u64);
    add_answer(&mut planning.answers, event.place, effects.answer)?;
    add_changes(&mut planning.lists, event.place, effects.changes)
}

/// Plans an announcement, which ends the open burst.
pub(crate) fn plan_announcement<A: Allocator + Copy>(
    discovery: &mut Discovery<A>,
    planning: &mut Planning<A>,
    alloc: A,
    event: &Event<'_>,
) -> Result<(), AllocError>
    ensures count { OnOk result (length planning.new.lists.items
        ≡ length planning.old.lists.items) }
    ensures closed { OnOk result (planning.new.burst ≡ None) }
    ensures ok { OnOk result (discovery.new.spent ≡ false) }
    ensures planned { (k : Known) (es : List EventView) → IsKnown k discovery.old.kept
        → addressed.is_discovery event.now.writer ≡ true
        → OnOk result (IsPlanned es k (Came (view event.now) ∷ []) planning.old planning.new
        discovery.new.kept) }
{
    close(discovery, planning)?;
    announce(discovery, planning, alloc, event)
}

/// Plans an event of a user's writer, whose index is `first`: it opens a burst.
pub(crate) fn open_burst<A: Allocator + Copy>(
    discovery: &Discovery<A>,
    planning: &mut Planning<A>,
    event: &Event<'_>,
    first: usize,
) -> Result<(), AllocError>
    ensures count { OnOk result (length planning.new.lists.items
        ≡ length planning.old.lists.items) }
    ensures ends { OnOk result (EndsAt planning.new.burst (first + 1)) }
    ensures planned { (k : Known) (es : List EventView) → IsKnown k discovery.now.kept
        → addressed.is_discovery event.now.writer ≡ false
        → ReadsAs (view event.now ∷ []) es first
        → OnOk result (IsPlanned es k (Came (view event.now) ∷ []) planning.old planning.new
        discovery.now.kept) }
{
    close(discovery, planning)?;
    planning.places.push(event.place)?;
    planning.burst = Some(Burst {
        first,
        more: 0,
        writer: Guid {
            prefix: event.source,
            entity: event.writer,
        },
        reader: event.reader,
    });
    Ok(())
}
