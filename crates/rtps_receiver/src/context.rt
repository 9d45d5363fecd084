//! The state of a receiver: what the submessages before a submessage say about it (DDSI-RTPS
//! 8.3.4).

ghost use Rattle.std.specs.Prelude.{◌≡◌, ◌<◌};
ghost use Rattle.std.specs.Option.{option_map, option_map_or};
ghost use Rattle.std.specs.Result.{result_map_both};
ghost use Rattle.rtps_wire.specs.Submessage.{parts_of};
ghost use Rattle.rtps_receiver.specs.Events.{view};
ghost use Rattle.rtps_receiver.specs.Running.{after, first_context, next_place, outcome_in, outcome_with};
ghost use Rattle.rtps_receiver.specs.Views.{body_view};

use crate::brought::{fragment_of, gap_of, heartbeat_frag_of, heartbeat_of, whole_of};
use crate::event::Event;
use crate::event_body::EventBody;
use crate::outcome::Reason;
use rtps_types::{EntityId, GuidPrefix, Place, Timestamp};
use rtps_wire::RawSubmessage;
use rtps_wire::kinds::{
    DATA, DATA_FRAG, GAP, HEARTBEAT, HEARTBEAT_FRAG, INFO_DST, INFO_SRC, INFO_TS,
};

/// The state of a receiver between two submessages of one datagram.
#[derive(Clone, Copy)]
pub(crate) struct Context {
    own: GuidPrefix,
    source: GuidPrefix,
    destination: GuidPrefix,
    time: Option<Timestamp>,
}

/// The destination prefix that stands for every participant.
const UNKNOWN: GuidPrefix = GuidPrefix([0; 12]);

impl Context {
    /// The state before the first submessage.
    pub(crate) fn new(own: GuidPrefix, source: GuidPrefix) -> Context
        ensures { result ≡ first_context own source }
    {
        Context {
            own,
            source,
            destination: own,
            time: None,
        }
    }

    /// Reads a submessage, and updates the state by it for the submessages after it. Returns its
    /// event, or the first reason why it gives none; `None` if its body is invalid, by which the
    /// state isn't changed.
    ///
    /// Each kind is read straight into its event: whatever is moved between them would be written
    /// once more, in other pieces than it is read in. So it is inlined too, wherever it is called.
    #[inline(always)]
    #[tactic(auto, unfolding(rtps_wire::specs::Submessage::parts_of))]
    pub(crate) fn take<'a>(
        &mut self,
        place: Place,
        raw: &RawSubmessage<'a>,
    ) -> Option<Result<Event<'a>, Reason>>
        ensures outcome { option_map (result_map_both view (λ r. r)) result
            ≡ option_map (outcome_in self.old place)
            (parts_of raw.now.id raw.now.flags raw.now.body.now) }
        ensures state { self.new ≡ option_map_or (after self.old)
            (parts_of raw.now.id raw.now.flags raw.now.body.now) self.old }
    {
        match raw.id {
            DATA => {
                let data = raw.data()?;
                return Some(self.event(place, data.writer, data.reader, whole_of(&data)));
            }
            DATA_FRAG => {
                let data = raw.data_frag()?;
                return Some(self.event(place, data.writer, data.reader, fragment_of(&data)));
            }
            HEARTBEAT => {
                let beat = raw.heartbeat()?;
                return Some(self.event(place, beat.writer, beat.reader, heartbeat_of(&beat)));
            }
            GAP => {
                let gap = raw.gap()?;
                return Some(self.event(place, gap.writer, gap.reader, gap_of(&gap)));
            }
            HEARTBEAT_FRAG => {
                let beat = raw.heartbeat_frag()?;
                return Some(self.event(place, beat.writer, beat.reader, heartbeat_frag_of(&beat)));
            }
            INFO_TS => self.time = raw.info_timestamp()?,
            INFO_SRC => {
                self.source = raw.info_source()?.prefix;
                self.time = None;
            }
            INFO_DST => {
                let prefix = raw.info_destination()?;
                self.destination = if prefix == UNKNOWN { self.own } else { prefix };
            }
            _ => {}
        }
        Some(Err(Reason::NotForReaders))
    }

    /// Returns the event of a submessage of a kind that readers handle, or the first reason why it
    /// gives none. It has no body where it names a number above 2^62.
    #[inline(always)]
    fn event<'a>(
        &self,
        place: Place,
        writer: EntityId,
        reader: EntityId,
        body: Option<EventBody<'a>>,
    ) -> Result<Event<'a>, Reason>
        ensures { result_map_both view (λ r. r) result
            ≡ outcome_with self.now place writer reader (option_map body_view body.entry) }
    {
        if self.destination != self.own {
            return Err(Reason::OtherDestination);
        }
        let Some(body) = body else {
            return Err(Reason::NumberTooGreat);
        };
        Ok(Event {
            place,
            source: self.source,
            time: self.time,
            writer,
            reader,
            body,
        })
    }
}

/// Returns the place of the next submessage of the same datagram.
#[inline(always)]
pub(crate) fn next_place(before: Place) -> Place
    requires { before.submessage < 4294967295 }
    ensures { result ≡ next_place before }
{
    Place {
        submessage: before.submessage + 1,
        ..before
    }
}
