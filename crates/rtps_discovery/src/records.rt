//! Decoding and applying the events of announcers (DDSI-RTPS 8.5.3, 8.5.4).

ghost use Rattle.std.specs.Prelude.{◌≡◌, ◌∷◌, [], IfOk, None, OnOk, map, option_to_list};
ghost use Rattle.std.specs.List.{flat_map};
ghost use Rattle.std.specs.Option.{option_map};
ghost use Rattle.rtps_proxy.specs.Change.{change_view};
ghost use Rattle.rtps_receiver.specs.Events.{view};
ghost use Rattle.rtps_receiver.specs.Views.{body_view};
ghost use Rattle.rtps_discovery.specs.Changes.{changes_run, known_run};
ghost use Rattle.rtps_discovery.specs.Effects.{AreHeard, extends, match_of};
ghost use Rattle.rtps_discovery.specs.Ignored.{endpoint_records, participant_records, silent_among};
ghost use Rattle.rtps_discovery.specs.Kept.{Applies, AppliesAll, IsKnown, kept};
ghost use Rattle.rtps_discovery.specs.Known.{Known};
ghost use Rattle.rtps_discovery.specs.Records as records;
ghost use Rattle.rtps_discovery.specs.Seen.{announcement_seen, change_seen};

use crate::addressed::{ENTITYID_SPDP_BUILTIN_PARTICIPANT_DETECTOR, is_for};
use crate::announced_data::said_in;
use crate::announcement::{Announcement, participant_said, reader_said, writer_said};
use crate::announcer::announces_writers;
use crate::changes::MatchChange;
use crate::effects::DiscoveryEffects;
use crate::registry::Registry;
use rtps_params::ids::{ENDPOINT_GUID, PARTICIPANT_GUID};
use rtps_proxy::{Change, Effects};
use rtps_receiver::{Event, EventBody};
use rtps_types::{EntityId, Guid, GuidPrefix};
use std::alloc::{AllocError, Allocator};

/// Returns the announcement of an event from the participants' announcer. Each DATA counts, with
/// any number; all other submessages of that writer are ignored.
fn participant_in<'a>(
    own: GuidPrefix,
    source: GuidPrefix,
    body: &EventBody<'a>,
) -> Option<Announcement<'a>>
    ensures { option_map announcement_seen result
        ≡ records.participant_in own source (body_view body.now) }
{
    let EventBody::Whole(whole) = body else {
        return None;
    };
    let said = said_in(PARTICIPANT_GUID, whole.info, whole.payload)?;
    participant_said(own, source, whole.info.hash, said)
}

/// Returns the announcement of a complete change from an announcer of endpoints, the next one in
/// order.
fn endpoint_in<'a, A: Allocator>(
    source: GuidPrefix,
    writer: EntityId,
    change: &'a Change<'_, A>,
) -> Option<Announcement<'a>>
    ensures { option_map announcement_seen result
        ≡ records.endpoint_in source writer (change_view change.now) }
{
    let said = said_in(ENDPOINT_GUID, change.info, change.payload.as_slice())?;
    if announces_writers(writer) {
        writer_said(source, change.info.hash, said)
    } else {
        reader_said(source, change.info.hash, said)
    }
}

impl<A: Allocator + Copy> Registry<A> {
    /// Applies an announcement, and appends the changes of our readers' matches.
    fn apply(
        &mut self,
        alloc: A,
        announcement: Announcement<'_>,
        changes: &mut Vec<MatchChange<A>, A>,
    ) -> Result<(), AllocError>
        ensures { OnOk result (Applies (announcement_seen announcement.entry) (kept self.old)
            (kept self.new) (map change_seen changes.old.items)
            (map change_seen changes.new.items)) }
    {
        match announcement {
            Announcement::Comes(prefix, facts) => self.come(alloc, prefix, facts),
            Announcement::Leaves(prefix) => self.leave(alloc, prefix, changes),
            Announcement::Offers(writer, offer) => self.offer(alloc, writer, offer, changes),
            Announcement::Withdraws(writer) => self.withdraw(alloc, writer, changes),
            Announcement::Asks(reader) => self.ask(reader),
            Announcement::AsksNoMore(reader) => {
                self.ask_no_more(reader);
                Ok(())
            }
        }
    }

    /// Applies one ready change of an announcer. Returns the number of records that were ignored: 1
    /// if the change announces nothing.
    fn apply_change(
        &mut self,
        alloc: A,
        writer: Guid,
        change: &Change<'_, A>,
        changes: &mut Vec<MatchChange<A>, A>,
    ) -> Result<usize, AllocError>
        ensures applied { OnOk result (AppliesAll
            (option_to_list (records.endpoint_in writer.prefix writer.entity
            (change_view change.now))) (kept self.old) (kept self.new)
            (map change_seen changes.old.items) (map change_seen changes.new.items)) }
        ensures ignored { IfOk result (λ ignored. ignored ≡ silent_among
            (records.endpoint_in writer.prefix writer.entity (change_view change.now) ∷ [])) }
    {
        let Some(announcement) = endpoint_in(writer.prefix, writer.entity, change) else {
            return Ok(1);
        };
        self.apply(alloc, announcement, changes)?;
        Ok(0)
    }

    /// Applies the ready changes of an announcer, one after the other. Returns the number of those
    /// that were ignored.
    fn apply_ready(
        &mut self,
        alloc: A,
        writer: Guid,
        ready: &[Change<'_, A>],
        changes: &mut Vec<MatchChange<A>, A>,
    ) -> Result<usize, AllocError>
        ensures applied { OnOk result (AppliesAll
            (flat_map (λ s. option_to_list (records.endpoint_in writer.prefix writer.entity s))
            (map change_view ready.now)) (kept self.old) (kept self.new)
            (map change_seen changes.old.items) (map change_seen changes.new.items)) }
        ensures ignored { IfOk result (λ ignored. ignored ≡ silent_among
            (map (records.endpoint_in writer.prefix writer.entity)
            (map change_view ready.now))) }
    {
        let mut ignored = 0;
        for change in ready {
            ignored += self.apply_change(alloc, writer, change, changes)?;
        }
        Ok(ignored)
    }

    /// Applies an event of the announcer of participants (SPDP, DDSI-RTPS 8.5.3). Our reader of it
    /// is best-effort: a record is applied as it comes, no state of a match is kept, and nothing is
    /// answered. An error is a refused growth.
    pub fn hear_participant(
        &mut self,
        alloc: A,
        event: &Event<'_>,
    ) -> Result<DiscoveryEffects<A>, AllocError>
        ensures applied { IfOk result (λ effects. AppliesAll (records.participants_in self.old.own
            (view event.now)) (kept self.old) (kept self.new) []
            (map change_seen effects.changes.items)) }
        ensures answer { IfOk result (λ effects. effects.answer ≡ None) }
        ensures ignored { IfOk result (λ effects. effects.ignored
            ≡ silent_among (participant_records self.old.own (view event.now))) }
    {
        if !is_for(event.reader, ENTITYID_SPDP_BUILTIN_PARTICIPANT_DETECTOR) {
            return Ok(DiscoveryEffects::silent(alloc, &event.body));
        }
        let Some(announcement) = participant_in(self.own, event.source, &event.body) else {
            return Ok(DiscoveryEffects::silent(alloc, &event.body));
        };
        let mut effects = DiscoveryEffects::none(alloc);
        self.apply(alloc, announcement, &mut effects.changes)?;
        Ok(effects)
    }

    /// Passes an event of an announcer of endpoints (SEDP, DDSI-RTPS 8.5.4) to the match with it,
    /// if there is one, and applies the changes that are ready then. Our readers of these
    /// announcers are reliable: one event may make several records ready or none, and may be
    /// answered. An error is a refused growth.
    pub fn hear_announcer(
        &mut self,
        alloc: A,
        event: &Event<'_>,
    ) -> Result<DiscoveryEffects<A>, AllocError>
        ensures known { (k : Known) → IsKnown k (kept self.old) → OnOk result (IsKnown
            (known_run (extends k (view event.now)) (records.ready_records (view event.now)
            (match_of k (view event.now)))) (kept self.new)) }
        ensures effects { (k : Known) → IsKnown k (kept self.old) → IfOk result
            (AreHeard (changes_run (extends k (view event.now)) (records.ready_records
            (view event.now) (match_of k (view event.now)))) (records.answer_by
            (view event.now) (match_of k (view event.now)))) }
        ensures ignored { (k : Known) → IsKnown k (kept self.old) → IfOk result
            (λ effects. effects.ignored ≡ silent_among (endpoint_records (view event.now)
            (match_of k (view event.now)))) }
    {
        let writer = Guid {
            prefix: event.source,
            entity: event.writer,
        };
        let mut effects = Effects::none(alloc);
        let is_matched = self
            .announcers
            .on_event_into(alloc, writer, event.time, &event.body, &mut effects)?;
        if !is_matched {
            return Ok(DiscoveryEffects::silent(alloc, &event.body));
        }
        let mut changes = Vec::new(alloc);
        let ready = effects.ready.as_slice();
        let ignored = self.apply_ready(alloc, writer, ready, &mut changes)?;
        Ok(DiscoveryEffects {
            changes,
            answer: effects.answer,
            ignored,
        })
    }
}
