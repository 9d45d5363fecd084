//! Going through the submessages of a datagram (DDSI-RTPS 8.3.4).

ghost use Rattle.std.specs.Prelude.{◌≡◌, ◌<◌, IfOk, IfSome, length};
ghost use Rattle.rtps_wire.specs.Data.{data_view};
ghost use Rattle.rtps_wire.specs.Reading.{raw_view};
ghost use Rattle.rtps_wire.specs.Submessage.{parts_view};
ghost use Rattle.rtps_announcer.specs.Context as context;
ghost use Rattle.rtps_announcer.specs.Hearing as heard;
ghost use Rattle.rtps_announcer.specs.Submessages.{submessages};

use crate::acknack::ack_heard;
use crate::hearing::Hearing;
use crate::participant::participant_heard;
use rtps_discovery::{ENTITYID_SPDP_BUILTIN_PARTICIPANT_ANNOUNCER, is_for};
use rtps_types::{EntityId, GuidPrefix, MAX_NUMBER};
use rtps_wire::kinds::ACKNACK;
use rtps_wire::{Data, Parts, RawSubmessage, header, read_front};
use std::alloc::{AllocError, Allocator};

/// Our reader of participants (DDSI-RTPS 9.3.1.3).
const SPDP_DETECTOR: EntityId = EntityId([0x00, 0x01, 0x00, 0xc7]);

/// The destination that means every participant (DDSI-RTPS 8.3.7.7).
const EVERYONE: GuidPrefix = GuidPrefix([0; 12]);

/// The number of octets of a message header (DDSI-RTPS 9.4.4).
const HEADER: usize = 20;

/// What the submessages before one say of it (DDSI-RTPS 8.3.4).
#[derive(Clone, Copy)]
pub(crate) struct Context {
    own: GuidPrefix,
    source: GuidPrefix,
    destination: GuidPrefix,
}

/// Whether a change is of a participant's own announcer, for our reader of participants.
fn is_record(change: &Data<'_>) -> bool
    ensures { result ≡ heard.is_record (data_view change.now) }
{
    change.writer == ENTITYID_SPDP_BUILTIN_PARTICIPANT_ANNOUNCER
        && is_for(change.reader, SPDP_DETECTOR)
        && change.number <= MAX_NUMBER
}

impl Context {
    /// Whether submessages are for our participant, and of another one.
    fn is_heard(&self) -> bool
        ensures { result ≡ heard.is_heard self.now }
    {
        self.destination == self.own && self.source != self.own
    }

    /// Returns what is heard of a submessage of another participant.
    fn heard_by(&self, raw: &RawSubmessage<'_>, parts: &Parts<'_>) -> Option<Hearing>
        ensures { result ≡ heard.heard_by self.now (raw_view raw.now) (parts_view parts.now) }
    {
        match parts {
            Parts::Data(data) if is_record(data) => {
                participant_heard(self.own, self.source, data.info, data.payload)
            }
            Parts::Skipped if raw.id == ACKNACK => ack_heard(self.source, raw.flags, raw.body),
            _ => None,
        }
    }

    /// Returns what is heard of a submessage, if that is for us.
    fn hear(&self, raw: &RawSubmessage<'_>, parts: &Parts<'_>) -> Option<Hearing>
        ensures { result ≡ heard.hearing_in self.now (context.opened_view raw.now parts.now) }
    {
        if self.is_heard() {
            self.heard_by(raw, parts)
        } else {
            None
        }
    }

    /// Returns the context of the next submessage.
    fn moved(self, parts: &Parts<'_>) -> Context
        ensures { result ≡ context.moved self (parts_view parts.now) }
    {
        match parts {
            Parts::InfoSource(source) => Context {
                source: source.prefix,
                ..self
            },
            Parts::InfoDestination(prefix) => Context {
                destination: if *prefix == EVERYONE {
                    self.own
                } else {
                    *prefix
                },
                ..self
            },
            _ => self,
        }
    }
}

/// Returns the submessage at the front, with what its body contains; `None` if there is none that
/// can be read.
fn front(octets: &[u8]) -> Option<(RawSubmessage<'_>, Parts<'_>)>
    ensures opened { submessages octets.now ≡ context.submessages_from result }
    ensures shorter { IfSome result (λ front. length front.0.rest.now < length octets.now) }
{
    match read_front(octets) {
        Ok(Some(raw)) => match raw.parts() {
            Some(parts) => Some((raw, parts)),
            None => None,
        },
        Ok(None) => None,
        Err(_) => None,
    }
}

/// Returns what is heard of the submessages in `octets`, from a context on.
fn heard_from<A: Allocator>(
    alloc: A,
    first: Context,
    octets: &[u8],
) -> Result<Vec<Hearing, A>, AllocError>
    ensures { IfOk result (λ hearings.
        hearings.items ≡ context.heard_left first (submessages octets.now)) }
{
    let mut hearings = Vec::new(alloc);
    let mut context = first;
    let mut rest = octets;
    'rest: while let Some((raw, parts)) = front(rest) {
        if let Some(hearing) = context.hear(&raw, &parts) {
            hearings.push(hearing)?;
        }
        context = context.moved(&parts);
        rest = raw.rest;
    }
    Ok(hearings)
}

/// Returns what the participant `own` hears of the octets of a datagram, in order (DDSI-RTPS
/// 8.3.4): of each submessage of another participant that is for it, what a change of that
/// participant's own announcer says of it (8.5.3), and each ACKNACK of that participant's reader of
/// readers (8.3.7.1). A datagram with a bad header has nothing to hear, and what follows the first
/// submessage that can't be read is ignored. `AllocError` where memory is refused.
pub fn hearings<A: Allocator>(
    alloc: A,
    own: GuidPrefix,
    octets: &[u8],
) -> Result<Vec<Hearing, A>, AllocError>
    ensures { IfOk result (λ hearings. hearings.items ≡ heard.heard_in own octets.now) }
{
    match header(octets) {
        Ok(header) => {
            let first = Context {
                own,
                source: header.prefix,
                destination: own,
            };
            heard_from(alloc, first, &octets[HEADER..])
        }
        Err(_) => Ok(Vec::new(alloc)),
    }
}
