//! Processing events in discovery and the readers, one event after another.

ghost use Rattle.std.specs.Prelude.{◌≡◌, ◌++◌, IfOk, List, None, OnOk, false, length, map, true};
ghost use Rattle.std.specs.Option.{option_map};
ghost use Rattle.rtps_receiver.specs.Events.{view};
ghost use Rattle.rtps_discovery.specs.Addressed as addressed;
ghost use Rattle.rtps_discovery.specs.Addressed.{writer_of};
ghost use Rattle.rtps_discovery.specs.Kept.{matched_ranks};
ghost use Rattle.rtps_discovery.specs.Seen.{change_seen};
ghost use Rattle.rtps_proxy.specs.Replies.{reply_view};
ghost use Rattle.rtps_reader.specs.Reader.{placed};
ghost use Rattle.rtps_run.specs.Occurrence.{Came};
ghost use Rattle.rtps_run.specs.Outcome.{report_view};
ghost use Rattle.rtps_run.specs.Run.{world_run};
ghost use Rattle.rtps_run.specs.Standing.{ReadersStand, WorldStands};
ghost use Rattle.rtps_run.specs.Steps.{AreByRank, change_step, event_steps, steps_run};
ghost use Rattle.rtps_run.specs.World.{ReportView, World, sent_by, world_after};

use crate::readers::{Readers, report_answer};
use dds_topic::Catalog;
use rtps_discovery::{Discovery, MatchChange, is_discovery};
use rtps_reader::{Step, StepKind};
use rtps_receiver::Event;
use rtps_run::{Report, is_named};
use rtps_types::{Guid, Place, Reply};
use std::alloc::{AllocError, Allocator};

/// Passes an event of a user's writer to the readers that are matched with the writer and that the
/// event names.
fn take_by_ranks<C: Catalog, A: Allocator + Copy>(
    discovery: &Discovery<A>,
    readers: &mut Readers<C, A>,
    alloc: A,
    event: &Event<'_>,
    reports: &mut Vec<Report<C::Value, A>, A>,
) -> Result<(), AllocError>
    ensures same { readers.new.decoder ≡ readers.old.decoder }
    ensures count { length readers.new.states.items ≡ length readers.old.states.items }
    ensures stands { (w : World C.Meaning) (earlier : List (ReportView C.Meaning))
        → WorldStands C.view w earlier discovery.now.kept readers.old.states.items reports.old.items
        → OnOk result (ReadersStand C.view (steps_run (C.decoding readers.old.decoder)
        event.now.place w (event_steps w.known (view event.now) (matched_ranks w.known
        (writer_of (view event.now))))) earlier readers.new.states.items reports.new.items) }
{
    let writer = Guid {
        prefix: event.source,
        entity: event.writer,
    };
    let known = discovery.readers();
    let ranks = discovery.matched(writer);
    let step = Step::of_event(event);
    for rank in ranks {
        if is_named(known, *rank, event.reader) {
            readers.step(alloc, *rank, &step, reports)?;
        }
    }
    Ok(())
}

/// Passes each change of a match to its reader, one after the other.
pub(crate) fn take_changes<C: Catalog, A: Allocator + Copy>(
    readers: &mut Readers<C, A>,
    alloc: A,
    place: Place,
    changes: &[MatchChange<A>],
    reports: &mut Vec<Report<C::Value, A>, A>,
) -> Result<(), AllocError>
    ensures same { readers.new.decoder ≡ readers.old.decoder }
    ensures count { length readers.new.states.items ≡ length readers.old.states.items }
    ensures stands { (w : World C.Meaning) (earlier : List (ReportView C.Meaning))
        → ReadersStand C.view w earlier readers.old.states.items reports.old.items
        → OnOk result (ReadersStand C.view (steps_run (C.decoding readers.old.decoder) place w
        (map change_step (map change_seen changes.now))) earlier
        readers.new.states.items reports.new.items) }
{
    for change in changes {
        let step = Step {
            place,
            what: StepKind::Change(&change.what),
        };
        readers.step(alloc, change.rank, &step, reports)?;
    }
    Ok(())
}

/// Returns the changes sorted by the rank of their readers; those of one rank keep their order.
fn by_rank<A: Allocator + Copy>(
    mut changes: Vec<MatchChange<A>, A>,
) -> Result<Vec<MatchChange<A>, A>, AllocError>
    ensures { IfOk result (λ sorted. AreByRank changes.items sorted.items) }
{
    changes.sort_by_key(|change| change.rank)?;
    Ok(changes)
}

/// Appends discovery's answer to the event at this place, if there is one, to the reports.
fn report_discovery<C: Catalog, A: Allocator>(
    place: Place,
    answer: Option<Reply<A>>,
    reports: &mut Vec<Report<C::Value, A>, A>,
) -> Result<(), AllocError>
    ensures { OnOk result (map (report_view C.view) reports.new.items
        ≡ map (report_view C.view) reports.old.items
        ++ map (sent_by None) (placed place (option_map reply_view answer))) }
{
    match answer {
        Some(reply) => report_answer::<C, A>(None, place, reply, reports),
        None => Ok(()),
    }
}

/// Passes an event of an announcer to discovery, reports discovery's answer, and then passes each
/// reader its changes, by rank.
fn take_announcement<C: Catalog, A: Allocator + Copy>(
    discovery: &mut Discovery<A>,
    readers: &mut Readers<C, A>,
    alloc: A,
    event: &Event<'_>,
    reports: &mut Vec<Report<C::Value, A>, A>,
) -> Result<(), AllocError>
    ensures same { readers.new.decoder ≡ readers.old.decoder }
    ensures count { length readers.new.states.items ≡ length readers.old.states.items }
    ensures unspent { OnOk result (discovery.new.spent ≡ false) }
    ensures stands { addressed.is_discovery event.now.writer ≡ true
        → (w : World C.Meaning) (earlier : List (ReportView C.Meaning))
        → WorldStands C.view w earlier discovery.old.kept readers.old.states.items reports.old.items
        → OnOk result (WorldStands C.view (world_after (C.decoding readers.old.decoder) w
        (Came (view event.now))) earlier discovery.new.kept readers.new.states.items
        reports.new.items) }
{
    let moment = discovery.moment(); // The moment of the datagram has passed.
    let effects = discovery.step(alloc, moment, event)?;
    report_discovery::<C, A>(event.place, effects.answer, reports)?;
    let changes = by_rank(effects.changes)?;
    take_changes(readers, alloc, event.place, &changes, reports)
}

/// Processes one event. An event of an announcer is for discovery; any other event is for the
/// readers that are matched with its writer and that it names.
fn take_event<C: Catalog, A: Allocator + Copy>(
    discovery: &mut Discovery<A>,
    readers: &mut Readers<C, A>,
    alloc: A,
    event: &Event<'_>,
    reports: &mut Vec<Report<C::Value, A>, A>,
) -> Result<(), AllocError>
    ensures same { readers.new.decoder ≡ readers.old.decoder }
    ensures count { length readers.new.states.items ≡ length readers.old.states.items }
    ensures unspent { discovery.old.spent ≡ false → OnOk result (discovery.new.spent ≡ false) }
    ensures stands { (w : World C.Meaning) (earlier : List (ReportView C.Meaning))
        → WorldStands C.view w earlier discovery.old.kept readers.old.states.items reports.old.items
        → OnOk result (WorldStands C.view (world_after (C.decoding readers.old.decoder) w
        (Came (view event.now))) earlier discovery.new.kept readers.new.states.items
        reports.new.items) }
{
    if is_discovery(event.writer) {
        return take_announcement(discovery, readers, alloc, event, reports);
    }
    take_by_ranks(discovery, readers, alloc, event, reports)
}

/// Processes events one by one. The results are appended to `reports`.
pub(crate) fn take_events<C: Catalog, A: Allocator + Copy>(
    discovery: &mut Discovery<A>,
    readers: &mut Readers<C, A>,
    alloc: A,
    events: &[Event<'_>],
    reports: &mut Vec<Report<C::Value, A>, A>,
) -> Result<(), AllocError>
    ensures same { readers.new.decoder ≡ readers.old.decoder }
    ensures count { length readers.new.states.items ≡ length readers.old.states.items }
    ensures unspent { discovery.old.spent ≡ false → OnOk result (discovery.new.spent ≡ false) }
    ensures stands { (w : World C.Meaning) (earlier : List (ReportView C.Meaning))
        → WorldStands C.view w earlier discovery.old.kept readers.old.states.items reports.old.items
        → OnOk result (WorldStands C.view (world_run (C.decoding readers.old.decoder) w
        (map Came (map view events.now))) earlier discovery.new.kept readers.new.states.items
        reports.new.items) }
{
    for event in events {
        take_event(discovery, readers, alloc, event, reports)?;
    }
    Ok(())
}
