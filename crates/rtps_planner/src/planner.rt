//! What each reader has to do in a batch.

ghost use Rattle.std.specs.Prelude.{◌≡◌, ◌+◌, ◌<◌, ◌≤◌, ◌^◌, ℕ, IfOk, IsErr, List, OnErr, OnOk, None, false, length, map, slice_index_or, take, true};
ghost use Rattle.rtps_discovery.specs.Kept.{IsKnown};
ghost use Rattle.rtps_discovery.specs.Known.{Known};
ghost use Rattle.rtps_receiver.specs.Events.{EventView, view};
ghost use Rattle.rtps_run.specs.Occurrence.{Came};
ghost use Rattle.rtps_planner.specs.Plan.{AreFrom, AreNext, AreSteps, EndsAt, HasRoom, IsPlan, IsPlanned, ReadsAs, is_from, job_seen, jobs_by, longer};
ghost use Rattle.rtps_planner.specs.Stamped.{all_events, all_occurrences, events_in, occurrences_in};

use crate::jobs::{Job, Plan, Rest};
use crate::passed_over::PassedOver;
use crate::stamped::Stamped;
use crate::steps::{
    Burst, PlannedStep, Planning, add_places, close, open_burst, plan_announcement, plan_moment,
};
use rtps_discovery::{Discovery, is_discovery};
use rtps_receiver::Event;
use rtps_run::empty_lists;
use rtps_types::{EntityId, Guid};
use std::alloc::{AllocError, Allocator};

/// Whether an event comes from this writer with this reader id.
fn is_from(event: &Event<'_>, writer: Guid, reader: EntityId) -> bool
    ensures { result ≡ is_from writer reader (view event.now) }
{
    event.source == writer.prefix && event.writer == writer.entity && event.reader == reader
}

/// The number of events at the front of the list that come from this writer with this reader id.
fn count_from(events: &[Event<'_>], writer: Guid, reader: EntityId) -> usize
    ensures within { result ≤ length events.now }
    ensures alike { AreFrom writer reader (take result (map view events.now)) }
    ensures ends { (other : _) → result < length events.now
        → is_from writer reader (view (slice_index_or events.now result other)) ≡ false }
{
    let mut count = 0;
    for event in events {
        if !is_from(event, writer, reader) {
            return count;
        }
        count += 1;
    }
    count
}

/// Extends the open burst by the events at the front of `rest` that have its writer and its reader
/// id, and returns how many they are; 0 if no burst is open.
fn go_on(burst: &mut Option<Burst>, rest: &[Event<'_>]) -> usize
    requires { HasRoom burst.old (length rest.now) }
    ensures within { result ≤ length rest.now }
    ensures longer { burst.new ≡ longer result burst.old }
    ensures alike { AreNext burst.old (take result (map view rest.now)) }
{
    match burst {
        Some(last) => {
            let count = count_from(rest, last.writer, last.reader);
            last.more += count;
            count
        }
        None => 0,
    }
}

/// Plans the event at the front of `rest`, whose index among all events is `first`, and returns how
/// many events were planned. An announcer's event goes to discovery. Any other event is planned
/// together with the events right before and after it that have its writer and its reader id, so
/// that their matches are looked up once.
fn plan_next<A: Allocator + Copy>(
    discovery: &mut Discovery<A>,
    planning: &mut Planning<A>,
    alloc: A,
    rest: &[Event<'_>],
    first: usize,
) -> Result<usize, AllocError>
    requires some { 0 < length rest.now }
    requires room { first + length rest.now < 2 ^ 64 }
    requires ends { EndsAt planning.old.burst first }
    ensures count { OnOk result (length planning.new.lists.items
        ≡ length planning.old.lists.items) }
    ensures within { IfOk result (λ count. (0 < count) × (count ≤ length rest.now)) }
    ensures ends { IfOk result (λ count. EndsAt planning.new.burst (first + count)) }
    ensures ok { discovery.old.spent ≡ false → OnOk result (discovery.new.spent ≡ false) }
    ensures planned { (k : Known) (es : List EventView) → IsKnown k discovery.old.kept
        → IfOk result (λ count. ReadsAs (take count (map view rest.now)) es first
        → IsPlanned es k (map Came (take count (map view rest.now))) planning.old planning.new
        discovery.new.kept) }
{
    let event = &rest[0];
    if is_discovery(event.writer) {
        plan_announcement(discovery, planning, alloc, event)?;
        return Ok(1);
    }
    let count = go_on(&mut planning.burst, rest);
    if count == 0 {
        open_burst(discovery, planning, event, first)?;
        return Ok(1);
    }
    add_places(&mut planning.places, &rest[..count])?;
    Ok(count)
}

/// Plans the events of one datagram, in order; the index of the first one among all events is
/// `first`.
fn plan_events<A: Allocator + Copy>(
    discovery: &mut Discovery<A>,
    planning: &mut Planning<A>,
    alloc: A,
    events: &[Event<'_>],
    first: usize,
) -> Result<(), AllocError>
    requires room { first + length events.now < 2 ^ 64 }
    requires ends { EndsAt planning.old.burst first }
    ensures count { OnOk result (length planning.new.lists.items
        ≡ length planning.old.lists.items) }
    ensures ends { OnOk result (EndsAt planning.new.burst (first + length events.now)) }
    ensures ok { discovery.old.spent ≡ false → OnOk result (discovery.new.spent ≡ false) }
    ensures planned { (k : Known) (es : List EventView) → IsKnown k discovery.old.kept
        → ReadsAs (map view events.now) es first
        → OnOk result (IsPlanned es k (map Came (map view events.now)) planning.old planning.new
        discovery.new.kept) }
{
    let mut at = 0;
    while at < events.len() {
        at += plan_next(discovery, planning, alloc, &events[at..], first + at)?;
    }
    Ok(())
}

/// Plans a datagram or a tick: first its moment, then its events.
fn plan_stamped<A: Allocator + Copy>(
    discovery: &mut Discovery<A>,
    planning: &mut Planning<A>,
    alloc: A,
    stamped: &Stamped<'_>,
    first: usize,
) -> Result<(), AllocError>
    requires room { first + length stamped.now.events.now < 2 ^ 64 }
    requires ends { EndsAt planning.old.burst first }
    ensures count { OnOk result (length planning.new.lists.items
        ≡ length planning.old.lists.items) }
    ensures ends { OnOk result (EndsAt planning.new.burst (first + length stamped.now.events.now)) }
    ensures ok { OnOk result (discovery.new.spent ≡ false) }
    ensures planned { (k : Known) (es : List EventView) → IsKnown k discovery.old.kept
        → ReadsAs (events_in stamped.now) es first
        → OnOk result (IsPlanned es k (occurrences_in stamped.now) planning.old planning.new
        discovery.new.kept) }
{
    plan_moment(discovery, planning, alloc, stamped.moment, stamped.index)?;
    plan_events(discovery, planning, alloc, stamped.events, first)
}

/// Plans all of these, one after the other.
fn plan_all<A: Allocator + Copy>(
    discovery: &mut Discovery<A>,
    planning: &mut Planning<A>,
    alloc: A,
    stamped: &[Stamped<'_>],
) -> Result<(), AllocError>
    requires { EndsAt planning.old.burst 0 }
    ensures count { OnOk result (length planning.new.lists.items
        ≡ length planning.old.lists.items) }
    ensures closed { OnOk result (planning.new.burst ≡ None) }
    ensures ok { discovery.old.spent ≡ false → OnOk result (discovery.new.spent ≡ false) }
    ensures planned { (k : Known) (es : List EventView) → IsKnown k discovery.old.kept
        → ReadsAs (all_events stamped.now) es 0
        → OnOk result (IsPlanned es k (all_occurrences stamped.now) planning.old planning.new
        discovery.new.kept) }
{
    let mut first = 0_usize;
    for one in stamped {
        // No memory holds more events than a `usize` counts.
        let Some(next) = first.checked_add(one.events.len()) else {
            return Err(AllocError);
        };
        plan_stamped(discovery, planning, alloc, one, first)?;
        first = next;
    }
    close(discovery, planning)
}

/// Returns the jobs of the readers that have steps, by ascending rank.
fn jobs_of<A: Allocator + Copy>(
    alloc: A,
    lists: Vec<Vec<PlannedStep<A>, A>, A>,
) -> Result<Vec<Job<A>, A>, AllocError>
    requires { length lists.items ≤ 4096 }
    ensures { (es : List EventView) (asked : ℕ → _) → AreSteps es lists.items asked
        → IfOk result (λ jobs. map (job_seen es) jobs.items ≡ jobs_by asked (length lists.items)) }
{
    let mut jobs = Vec::with_capacity(alloc, lists.len())?;
    for (rank, steps) in lists.into_iter().enumerate() {
        if !steps.is_empty() {
            let rank = rank as u32;
            jobs.push(Job { rank, steps })?;
        }
    }
    Ok(jobs)
}

/// Returns the ranks of the jobs, in their order.
fn ranks_of<A: Allocator + Copy>(alloc: A, jobs: &[Job<A>]) -> Result<Vec<u32, A>, AllocError>
    ensures { IfOk result (λ ranks. ranks.items ≡ map (λ job. job.rank) jobs.now) }
{
    let mut ranks = Vec::with_capacity(alloc, jobs.len())?;
    for job in jobs {
        ranks.push(job.rank)?;
    }
    Ok(ranks)
}

/// Returns the jobs of the readers that have steps, and the rest of the plan.
fn plan_from<A: Allocator + Copy>(alloc: A, planning: Planning<A>) -> Result<Plan<A>, AllocError>
    requires { length planning.lists.items ≤ 4096 }
    ensures jobs { (es : List EventView) (asked : ℕ → _) → AreSteps es planning.lists.items asked
        → IfOk result (λ plan. map (job_seen es) plan.jobs.items
        ≡ jobs_by asked (length planning.lists.items)) }
    ensures readers { IfOk result (λ plan. plan.rest.readers ≡ length planning.lists.items) }
    ensures ranks { IfOk result (λ plan.
        plan.rest.ranks.items ≡ map (λ job. job.rank) plan.jobs.items) }
    ensures answers { IfOk result (λ plan. plan.rest.answers ≡ planning.answers) }
    ensures places { IfOk result (λ plan. plan.rest.places ≡ planning.places) }
    ensures passed { IfOk result (λ plan. plan.rest.passed ≡ planning.passed) }
{
    let readers = planning.lists.len();
    let jobs = jobs_of(alloc, planning.lists)?;
    let rest = Rest {
        readers,
        ranks: ranks_of(alloc, &jobs)?,
        answers: planning.answers,
        places: planning.places,
        passed: planning.passed,
    };
    Ok(Plan { jobs, rest })
}

/// Plans a batch as [`plan`] does, with a discovery that isn't spent.
fn planned<A: Allocator + Copy>(
    alloc: A,
    stamped: &[Stamped<'_>],
    discovery: &mut Discovery<A>,
) -> Result<Plan<A>, AllocError>
    requires { discovery.old.spent ≡ false }
    ensures planned { (k : Known) → IsKnown k discovery.old.kept → IfOk result (λ plan.
        IsPlan k (all_events stamped.now) (all_occurrences stamped.now) plan
        discovery.new.kept) }
    ensures ok { OnOk result (discovery.new.spent ≡ false) }
{
    let mut planning = Planning {
        lists: empty_lists(alloc, discovery.readers().len())?,
        answers: Vec::new(alloc),
        places: Vec::new(alloc),
        passed: PassedOver::new(),
        burst: None,
    };
    plan_all(discovery, &mut planning, alloc, stamped)?;
    let plan = plan_from(alloc, planning)?;
    Ok(plan)
}

/// Plans a batch, which is datagrams or one tick: returns what each reader has to do at their
/// moments and events, discovery's answers, and how many events come to nothing. Discovery advances
/// to each moment, which may end leases, and then processes the datagram's events. Steps refer to
/// the events by their indices among the events of all `stamped`, one after the other; no event is
/// copied.
///
/// An error is a refused growth, after which discovery is spent: it may have taken some of the
/// moments and events, and their results are lost. A discovery that is spent already is refused,
/// and stays as it was.
pub fn plan<A: Allocator + Copy>(
    alloc: A,
    stamped: &[Stamped<'_>],
    discovery: &mut Discovery<A>,
) -> Result<Plan<A>, AllocError>
    ensures planned { (k : Known) → IsKnown k discovery.old.kept → IfOk result (λ plan.
        IsPlan k (all_events stamped.now) (all_occurrences stamped.now) plan
        discovery.new.kept) }
    ensures ok { OnOk result (discovery.new.spent ≡ false) }
    ensures err { OnErr result (discovery.new.spent ≡ true) }
    ensures spent { discovery.old.spent ≡ true → IsErr result }
    ensures still { discovery.old.spent ≡ true → discovery.new ≡ discovery.old }
{
    if discovery.is_spent() {
        return Err(AllocError);
    }
    let planned = planned(alloc, stamped, discovery);
    if planned.is_err() {
        discovery.spend();
    }
    planned
}
