//! Changes, with payloads that are borrowed from the datagram or owned.

ghost use Rattle.std.specs.Prelude.{◌≡◌, IfOk};
ghost use Rattle.rtps_receiver.specs.Views.{whole_view};
ghost use Rattle.rtps_proxy.specs.Change.{change_view, octets_of, change_of};

use crate::effects::ProxyError;
use rtps_receiver::Whole;
use rtps_types::{Number, Octets, Timestamp};
use rtps_wire::ChangeInfo;
use std::alloc::{Allocator, Global};

/// The octets of a payload: encapsulation header, then data.
#[derive(Debug, Drop)]
pub enum Payload<'a, A: Allocator = Global> {
    /// Borrowed from the datagram that brought them.
    Lent(&'a [u8]),
    /// Owned, from an earlier datagram.
    Kept(Octets<A>),
}

/// A change, with the time of the event that brought it (DDSI-RTPS 8.2.2, `CacheChange`).
#[derive(Debug, Drop)]
pub struct Change<'a, A: Allocator = Global> {
    pub number: Number,
    pub time: Option<Timestamp>,
    pub info: ChangeInfo,
    /// The encapsulation header, and the data after it.
    pub payload: Payload<'a, A>,
}

impl<A: Allocator> Payload<'_, A> {
    /// Returns the octets, borrowed or owned.
    pub fn as_slice(&self) -> &[u8]
        ensures { result.now ≡ octets_of self.now }
    {
        match self {
            Payload::Lent(octets) => octets,
            Payload::Kept(octets) => octets.as_slice(),
        }
    }
}

impl<'a, A: Allocator> Change<'a, A> {
    /// Returns the change with a payload that is borrowed from the datagram.
    pub(crate) fn lent(time: Option<Timestamp>, whole: &Whole<'a>) -> Change<'a, A>
        ensures { change_view result ≡ change_of time (whole_view whole.now) }
    {
        Change {
            number: whole.number,
            time,
            info: whole.info,
            payload: Payload::Lent(whole.payload),
        }
    }
}

impl<A: Allocator> Change<'static, A> {
    /// Returns the change with a payload of its own, so that it can outlive the datagram.
    pub(crate) fn kept(
        alloc: A,
        time: Option<Timestamp>,
        whole: &Whole<'_>,
    ) -> Result<Change<'static, A>, ProxyError>
        ensures { IfOk result (λ change.
            change_view change ≡ change_of time (whole_view whole.now)) }
    {
        let octets = Vec::from_slice(alloc, whole.payload)?;
        Ok(Change {
            number: whole.number,
            time,
            info: whole.info,
            payload: Payload::Kept(Octets::new(octets)),
        })
    }
}
