//! Outlets that are attached to readers, and the backlogs of notices that wait for them.

ghost use Rattle.std.specs.Prelude.{◌≡◌, ◌++◌, ◌+◌, ◌≤◌, ℕ, IfOk, OnErr, OnOk, IsSome, MatchOption, MatchResult, None, Some, [], length, option_map};
ghost use Rattle.std.specs.VecDeque.{deque_capacity};
ghost use Rattle.dds_participant.specs.Ports.{Delivers, HasRoomFor, NoneAttached, PortView, left_of, new_port, port_view, port_with, ports_view};
ghost use Rattle.dds_participant.specs.declared.ports.AttachFault.TheVariants.{Attached};

use dds_outlet::Outlet;
use rtps_reader::Notice;
use std::alloc::{AllocError, Global};
use std::collections::VecDeque;

/// An attached outlet, and the notices that wait for it.
#[derive(Drop)]
pub(crate) struct Port<V> {
    pub outlet: Outlet<V>,
    pub backlog: VecDeque<Notice<V>>,
}

/// Why an outlet isn't attached.
#[derive(Debug, Clone, Copy, PartialEq, Eq)]
pub enum AttachFault {
    /// The rank wasn't given, or its reader went.
    NoReader,
    /// The reader has an outlet already.
    Attached,
}

/// Returns empty places for the outlets of `count` readers.
#[tactic(auto, using(crate::proofs::Unattached::none_more))]
pub(crate) fn no_ports<V: Drop>(
    alloc: Global,
    count: usize,
) -> Result<Vec<Option<Port<V>>>, AllocError>
    ensures count { IfOk result (λ ports. length ports.items ≡ count) }
    ensures none { IfOk result (λ ports. NoneAttached (ports_view ports.items)) }
{
    let mut ports = Vec::new(alloc);
    for _rank in 0..count {
        ports.push(None)?;
    }
    Ok(ports)
}

/// Attaches an outlet where there is none, or returns it with the error.
pub(crate) fn put<V: Drop>(
    place: &mut Option<Port<V>>,
    alloc: Global,
    outlet: Outlet<V>,
) -> Result<(), (Outlet<V>, AttachFault)>
    ensures { MatchResult result
        (λ _. (option_map port_view place.old ≡ None)
        × (option_map port_view place.new ≡ Some (new_port outlet)))
        (λ e. (e.0 ≡ outlet) × (e.1 ≡ Attached) × (place.new ≡ place.old)
        × IsSome (option_map port_view place.old)) }
{
    if place.is_some() {
        return Err((outlet, AttachFault::Attached));
    }
    let backlog = VecDeque::new(alloc);
    *place = Some(Port { outlet, backlog });
    Ok(())
}

/// Moves notices from the front of a backlog into the ring until the ring is full or the backlog is
/// empty, and returns the number that still waits.
fn deliver_all<V>(outlet: &mut Outlet<V>, backlog: &mut VecDeque<Notice<V>>) -> usize
    ensures moved { Delivers (record { outlet = outlet.old; backlog = backlog.old.items })
        (record { outlet = outlet.new; backlog = backlog.new.items }) }
    ensures left { result ≡ length backlog.new.items }
{
    while let Some(notice) = backlog.pop_front() {
        if let Err(back) = outlet.deliver(notice) {
            backlog.push_front_reserved(back);
            break;
        }
    }
    backlog.len()
}

/// Does what `deliver_all` does where an outlet is attached, else returns 0.
pub(crate) fn deliver_at<V>(place: &mut Option<Port<V>>) -> usize
    ensures { MatchOption (option_map port_view place.old)
        ((place.new ≡ place.old) × (result ≡ 0))
        (λ port. (after : PortView _) × Delivers port after
        × (option_map port_view place.new ≡ Some after) × (result ≡ length after.backlog)) }
{
    match place {
        None => 0,
        Some(port) => deliver_all(&mut port.outlet, &mut port.backlog),
    }
}

/// Reserves room for `count` more notices in a backlog, where there is one. Its notices stay.
pub(crate) fn reserve_at<V>(place: &mut Option<Port<V>>, count: usize) -> Result<(), AllocError>
    ensures same { option_map port_view place.new ≡ option_map port_view place.old }
    ensures room { OnOk result (HasRoomFor place.new count) }
{
    match place {
        None => Ok(()),
        Some(port) => port.backlog.reserve(count),
    }
}

/// Moves notices to the end of a backlog that has room for them.
fn keep_all<V: Drop>(backlog: &mut VecDeque<Notice<V>>, notices: &mut Vec<Notice<V>>)
    requires { length backlog.old.items + length notices.old.items ≤ deque_capacity backlog.old }
    ensures backlog { backlog.new.items ≡ backlog.old.items ++ notices.old.items }
    ensures none { notices.new.items ≡ [] }
{
    for notice in notices.drain(..) {
        backlog.push_back_reserved(notice);
    }
}

/// Moves notices to the end of a backlog, where there is one.
pub(crate) fn keep_at<V: Drop>(place: &mut Option<Port<V>>, notices: &mut Vec<Notice<V>>)
    requires { HasRoomFor place.old (length notices.old.items) }
    ensures port { option_map port_view place.new
        ≡ port_with (option_map port_view place.old) notices.old.items }
    ensures left { notices.new.items ≡ left_of (option_map port_view place.old) notices.old.items }
{
    match place {
        None => {}
        Some(port) => keep_all(&mut port.backlog, notices),
    }
}
