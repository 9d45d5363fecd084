//! Moving the notices of a batch to backlogs.

ghost use Rattle.std.specs.Prelude.{◌≡◌, ◌≤◌, OnErr, OnOk, true, length, map};
ghost use Rattle.dds_participant.specs.Handing.{AreHandedOn, HaveRoomFor, listed, reported};
ghost use Rattle.dds_participant.specs.Ports.{NoneAttached, ports_view};

use crate::participant::Participant;
use crate::ports::{Port, keep_at, reserve_at};
use dds_topic::Catalog;
use rtps_reader::{Notice, Output};
use std::alloc::AllocError;

/// Whether no reader has an outlet.
pub(crate) fn none_attached<V>(ports: &[Option<Port<V>>]) -> bool
    ensures yes { result ≡ true → NoneAttached (ports_view ports.now) }
    ensures no { NoneAttached (ports_view ports.now) → result ≡ true }
{
    for port in ports {
        if port.is_some() {
            return false;
        }
    }
    true
}

/// Reserves room in each backlog for the notices of its reader.
pub(crate) fn make_room<V: Drop>(
    ports: &mut Vec<Option<Port<V>>>,
    outputs: &[Output<V>],
) -> Result<(), AllocError>
    requires { length ports.old.items ≡ length outputs.now }
    ensures same { ports_view ports.new.items ≡ ports_view ports.old.items }
    ensures count { length ports.new.items ≡ length ports.old.items }
    ensures room { OnOk result (HaveRoomFor ports.new.items (reported outputs.now)) }
{
    for rank in 0..ports.len() {
        reserve_at(&mut ports[rank], outputs[rank].notices.len())?;
    }
    Ok(())
}

/// Moves the notices of readers with an outlet to their backlogs. The lists keep their memory.
pub(crate) fn hand_on<V: Drop>(ports: &mut Vec<Option<Port<V>>>, outputs: &mut Vec<Output<V>>)
    requires same { length ports.old.items ≡ length outputs.old.items }
    requires room { HaveRoomFor ports.old.items (reported outputs.old.items) }
    ensures count { length ports.new.items ≡ length ports.old.items }
    ensures sent { map (λ o. o.answers) outputs.new.items
        ≡ map (λ o. o.answers) outputs.old.items }
    ensures on { AreHandedOn (ports_view ports.old.items) (reported outputs.old.items)
        (ports_view ports.new.items) (reported outputs.new.items) }
{
    for rank in 0..ports.len() {
        keep_at(&mut ports[rank], &mut outputs[rank].notices);
    }
}

/// Reserves room in each backlog for the list of its rank. There may be more lists than backlogs.
pub(crate) fn make_room_for_lists<V: Drop>(
    ports: &mut Vec<Option<Port<V>>>,
    lists: &[Vec<Notice<V>>],
) -> Result<(), AllocError>
    requires { length ports.old.items ≤ length lists.now }
    ensures same { ports_view ports.new.items ≡ ports_view ports.old.items }
    ensures count { length ports.new.items ≡ length ports.old.items }
    ensures room { OnOk result (HaveRoomFor ports.new.items (listed lists.now)) }
{
    for rank in 0..ports.len() {
        reserve_at(&mut ports[rank], lists[rank].len())?;
    }
    Ok(())
}

/// Moves the contents of the lists of readers with an outlet to their backlogs.
pub(crate) fn hand_on_lists<V: Drop>(
    ports: &mut Vec<Option<Port<V>>>,
    lists: &mut Vec<Vec<Notice<V>>>,
)
    requires same { length ports.old.items ≡ length lists.old.items }
    requires room { HaveRoomFor ports.old.items (listed lists.old.items) }
    ensures count { length ports.new.items ≡ length ports.old.items }
    ensures on { AreHandedOn (ports_view ports.old.items) (listed lists.old.items)
        (ports_view ports.new.items) (listed lists.new.items) }
{
    for rank in 0..ports.len() {
        keep_at(&mut ports[rank], &mut lists[rank]);
    }
}

impl<C: Catalog> Participant<C> {
    /// Moves the notices of readers with an outlet to their backlogs. After a refused growth
    /// nothing is moved.
    pub(crate) fn hand(&mut self, outputs: &mut Vec<Output<C::Value>>) -> Result<(), AllocError>
        requires { length outputs.old.items ≡ length self.old.engine.statuses }
        ensures same { (self.new.engine ≡ self.old.engine)
            × (self.new.batches ≡ self.old.batches) }
        ensures counters { self.new.counters ≡ self.old.counters }
        ensures sent { map (λ o. o.answers) outputs.new.items
            ≡ map (λ o. o.answers) outputs.old.items }
        ensures on { OnOk result (AreHandedOn self.old.ports (reported outputs.old.items)
            self.new.ports (reported outputs.new.items)) }
        ensures err { OnErr result (self.new.ports ≡ self.old.ports) }
        ensures alone { NoneAttached self.old.ports
            → (outputs.new.items ≡ outputs.old.items) × (self.new.ports ≡ self.old.ports) }
    {
        if none_attached(&self.ports) {
            return Ok(());
        }
        // All backlogs have room before the first notice moves, so that none is given twice or lost
        // where memory runs out.
        make_room(&mut self.ports, outputs)?;
        hand_on(&mut self.ports, outputs);
        Ok(())
    }

    /// Does what `hand` does, for the lists of an outcome.
    pub(crate) fn hand_lists(
        &mut self,
        lists: &mut Vec<Vec<Notice<C::Value>>>,
    ) -> Result<(), AllocError>
        requires { length lists.old.items ≡ length self.old.engine.statuses }
        ensures same { (self.new.engine ≡ self.old.engine)
            × (self.new.batches ≡ self.old.batches) }
        ensures counters { self.new.counters ≡ self.old.counters }
        ensures on { OnOk result (AreHandedOn self.old.ports (listed lists.old.items)
            self.new.ports (listed lists.new.items)) }
        ensures err { OnErr result (self.new.ports ≡ self.old.ports) }
        ensures alone { NoneAttached self.old.ports
            → (lists.new.items ≡ lists.old.items) × (self.new.ports ≡ self.old.ports) }
    {
        if none_attached(&self.ports) {
            return Ok(());
        }
        make_room_for_lists(&mut self.ports, lists)?;
        hand_on_lists(&mut self.ports, lists);
        Ok(())
    }
}
