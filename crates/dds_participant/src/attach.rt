//! Attaching outlets to readers.

ghost use Rattle.std.specs.Prelude.{◌≡◌, None, Some, MatchOption, MatchResult, length, slice_index_or, slice_set};
ghost use Rattle.dds_participant.specs.Ports.{Delivers, PortView, fault_at, new_port};

use crate::participant::Participant;
use crate::ports::{AttachFault, Port, deliver_at, put};
use dds_outlet::Outlet;
use dds_topic::Catalog;
use rtps_reader::Notice;
use std::collections::VecDeque;

impl<C: Catalog> Participant<C> {
    /// Attaches an outlet to the reader of a rank. From the next batch on, the notices of that
    /// reader are appended to a backlog, which is empty at first and which [`Participant::deliver`]
    /// sends; they are in no outcome. No memory is taken. It may be called at any time, also when
    /// the participant has failed; so may `deliver` and `detach`.
    ///
    /// An outlet that isn't attached is returned with the error: [`AttachFault::NoReader`] where
    /// the rank wasn't given or its reader went, else [`AttachFault::Attached`] where the reader
    /// has an outlet.
    pub fn attach(
        &mut self,
        rank: u32,
        outlet: Outlet<C::Value>,
    ) -> Result<(), (Outlet<C::Value>, AttachFault)>
        ensures same { (self.new.engine ≡ self.old.engine) × (self.new.batches ≡ self.old.batches) }
        ensures counters { self.new.counters ≡ self.old.counters }
        ensures ports { MatchResult result
            (λ _. (fault_at self.old.engine.statuses self.old.ports rank ≡ None)
            × (self.new.ports ≡ slice_set self.old.ports rank (Some (new_port outlet))))
            (λ e. (fault_at self.old.engine.statuses self.old.ports rank ≡ Some e.1)
            × (self.new.ports ≡ self.old.ports) × (e.0 ≡ outlet)) }
    {
        let rank = rank as usize;
        if rank >= self.statuses.len() || self.statuses[rank].is_none() {
            return Err((outlet, AttachFault::NoReader));
        }
        put(&mut self.ports[rank], self.alloc, outlet)
    }

    /// Sends the backlog of a rank through its outlet, the oldest notice first, until it is empty
    /// or the outlet's ring is full. Returns the number of notices that still wait, 0 where nothing
    /// is attached. It may be called also after the reader went. It takes no memory and doesn't
    /// wait.
    pub fn deliver(&mut self, rank: u32) -> usize
        ensures same { (self.new.engine ≡ self.old.engine) × (self.new.batches ≡ self.old.batches) }
        ensures counters { self.new.counters ≡ self.old.counters }
        ensures ports { MatchOption (slice_index_or self.old.ports rank None)
            ((self.new.ports ≡ self.old.ports) × (result ≡ 0))
            (λ port. (after : PortView _) × Delivers port after
            × (self.new.ports ≡ slice_set self.old.ports rank (Some after))
            × (result ≡ length after.backlog)) }
    {
        let rank = rank as usize;
        if rank >= self.ports.len() {
            return 0;
        }
        deliver_at(&mut self.ports[rank])
    }

    /// Detaches the outlet of a rank, and returns it with the notices that still wait for it, the
    /// oldest first; `None` where nothing is attached. From the next batch on, the notices of the
    /// reader are in the outcome again. When a reader goes its outlet stays, until this call. No
    /// memory is taken.
    pub fn detach(&mut self, rank: u32) -> Option<(Outlet<C::Value>, VecDeque<Notice<C::Value>>)>
        ensures same { (self.new.engine ≡ self.old.engine) × (self.new.batches ≡ self.old.batches) }
        ensures counters { self.new.counters ≡ self.old.counters }
        ensures ports { MatchOption result
            ((self.new.ports ≡ self.old.ports) × (slice_index_or self.old.ports rank None ≡ None))
            (λ r. (slice_index_or self.old.ports rank None
            ≡ Some (record { outlet = r.0; backlog = r.1.items }))
            × (self.new.ports ≡ slice_set self.old.ports rank None)) }
    {
        let rank = rank as usize;
        if rank >= self.ports.len() {
            return None;
        }
        let Port { outlet, backlog } = self.ports[rank].take()?;
        Some((outlet, backlog))
    }
}
