//! Processing an event, by the announcer that it comes from.

ghost use Rattle.std.specs.Prelude.{◌≡◌, IfOk, OnOk, Some, false, true};
ghost use Rattle.std.specs.Str.{bytes_eq};
ghost use Rattle.rtps_receiver.specs.Events.{view};
ghost use Rattle.rtps_discovery.specs.Effects.{AreHeard};
ghost use Rattle.rtps_discovery.specs.Ignored.{ignored, records_of, silent_among};
ghost use Rattle.rtps_discovery.specs.Kept.{IsKnown, kept};
ghost use Rattle.rtps_discovery.specs.Known.{Known, spdp_writer};
ghost use Rattle.rtps_discovery.specs.Records as records;

use crate::addressed::{
    ENTITYID_SEDP_BUILTIN_PUBLICATIONS_DETECTOR, ENTITYID_SEDP_BUILTIN_SUBSCRIPTIONS_DETECTOR,
    is_for,
};
use crate::announcer::Announcer;
use crate::effects::DiscoveryEffects;
use crate::registry::Registry;
use rtps_receiver::Event;
use rtps_types::EntityId;
use std::alloc::{AllocError, Allocator};

impl<A: Allocator + Copy> Registry<A> {
    /// Processes an event of the participants' announcer.
    fn take_participant(
        &mut self,
        alloc: A,
        event: &Event<'_>,
    ) -> Result<DiscoveryEffects<A>, AllocError>
        requires { bytes_eq event.now.writer.0 spdp_writer.0 ≡ true }
        ensures known { (k : Known) → IsKnown k (kept self.old)
            → OnOk result (IsKnown (records.known_by k (view event.now)) (kept self.new)) }
        ensures effects { (k : Known) → IsKnown k (kept self.old) → IfOk result (AreHeard
            (records.changes_by k (view event.now)) (records.answered k (view event.now))) }
        ensures ignored { (k : Known) → IsKnown k (kept self.old) → IfOk result (λ effects.
            effects.ignored ≡ silent_among (records_of k (view event.now))) }
    {
        let effects = self.hear_participant(alloc, event)?;
        Ok(effects)
    }

    /// Processes an event of an announcer of endpoints, whose announcements are for this builtin
    /// reader of ours.
    fn take_endpoints(
        &mut self,
        alloc: A,
        event: &Event<'_>,
        reader: EntityId,
    ) -> Result<DiscoveryEffects<A>, AllocError>
        requires other { bytes_eq event.now.writer.0 spdp_writer.0 ≡ false }
        requires detected { records.detector_of event.now.writer ≡ Some reader }
        ensures known { (k : Known) → IsKnown k (kept self.old)
            → OnOk result (IsKnown (records.known_by k (view event.now)) (kept self.new)) }
        ensures effects { (k : Known) → IsKnown k (kept self.old) → IfOk result (AreHeard
            (records.changes_by k (view event.now)) (records.answered k (view event.now))) }
        ensures ignored { (k : Known) → IsKnown k (kept self.old) → IfOk result (λ effects.
            effects.ignored ≡ silent_among (records_of k (view event.now))) }
    {
        if !is_for(event.reader, reader) {
            return Ok(DiscoveryEffects::silent(alloc, &event.body));
        }
        self.hear_announcer(alloc, event)
    }

    /// Processes an event. An event of a user's writer changes nothing.
    #[tactic(auto, using(crate::proofs::Announcers::is_participants, crate::proofs::Announcers::is_publications, crate::proofs::Announcers::is_subscriptions))]
    pub fn take(&mut self, alloc: A, event: &Event<'_>) -> Result<DiscoveryEffects<A>, AllocError>
        ensures known { (k : Known) → IsKnown k (kept self.old)
            → OnOk result (IsKnown (records.known_by k (view event.now)) (kept self.new)) }
        ensures effects { (k : Known) → IsKnown k (kept self.old) → IfOk result (AreHeard
            (records.changes_by k (view event.now)) (records.answered k (view event.now))) }
        ensures ignored { (k : Known) → IsKnown k (kept self.old) → IfOk result (λ effects.
            effects.ignored ≡ ignored k (view event.now)) }
    {
        match Announcer::of(event.writer) {
            Some(Announcer::Participant) => self.take_participant(alloc, event),
            Some(Announcer::Publications) => {
                self.take_endpoints(alloc, event, ENTITYID_SEDP_BUILTIN_PUBLICATIONS_DETECTOR)
            }
            Some(Announcer::Subscriptions) => {
                self.take_endpoints(alloc, event, ENTITYID_SEDP_BUILTIN_SUBSCRIPTIONS_DETECTOR)
            }
            None => Ok(DiscoveryEffects::none(alloc)),
        }
    }
}
