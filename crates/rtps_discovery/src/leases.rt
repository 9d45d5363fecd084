//! The ends of the leases of participants (DDSI-RTPS 8.5.3.2).

ghost use Rattle.std.specs.Prelude.{◌≡◌, ◌||◌, ◌<◌, ℕ, [], IfNone, IfOk, IfSome, None, OnOk, OnSome, cond, false, length, true};
ghost use Rattle.std.specs.Ordering.{is_eq};
ghost use Rattle.rtps_types.specs.declared.identity.GuidPrefix.{GuidPrefix};
ghost use Rattle.std.specs.List.Sorted.{IsStrictlySortedBy, IsStrictlySortedBy-prop};
ghost use Rattle.rtps_discovery.specs.Ends.{AreSorted, EndsAt, Renews, end_of, end_order, has_due, has_end, has_prefix, is_due, soonest_of};
ghost use Rattle.rtps_discovery.specs.Known.{prefix_order};
ghost use Rattle.rtps_discovery.specs.Leases.{deadline, milliseconds};

use crate::known::RemoteParticipant;
use rtps_types::{Duration, GuidPrefix};
use std::alloc::{AllocError, Allocator};
use std::collections::BTreeSet;
use std::collections::btree_set::Iter;
use std::marker::Model;

/// Returns a lease in milliseconds, rounded up; 0 if it is negative.
fn milliseconds(lease: Duration) -> u64
    ensures { result ≡ milliseconds lease.seconds lease.fraction }
{
    if lease.seconds < 0 {
        return 0;
    }
    let rounded = (u64::from(lease.fraction) * 1000 + 0xffff_ffff) / 0x1_0000_0000;
    u64::from(lease.seconds.cast_unsigned()) * 1000 + rounded
}

/// Returns the last moment of a lease that began at `heard`, at most the greatest moment; `None` if
/// the lease is infinite.
pub(crate) fn deadline(heard: u64, lease: Duration) -> Option<u64>
    ensures { result ≡ deadline heard lease }
{
    if lease.seconds == 0x7fff_ffff && lease.fraction == 0xffff_ffff {
        return None;
    }
    Some(heard.saturating_add(milliseconds(lease)))
}

/// Returns the last moment of a participant's lease; `None` without a participant, or if the lease
/// is infinite.
pub(crate) fn end_of<A: Allocator>(participant: &Option<RemoteParticipant<A>>) -> Option<u64>
    ensures { result ≡ end_of participant.now }
{
    match participant {
        Some(participant) => deadline(participant.heard, participant.lease),
        None => None,
    }
}

/// The ends of leases: the last moment of each, with its participant.
#[derive(Drop)]
pub(crate) struct Leases<A: Allocator> {
    ends: BTreeSet<(u64, GuidPrefix), A>,
    /// The earliest end, or the greatest moment if there is none. With it, a moment at which no
    /// lease has ended costs one comparison.
    soonest: u64,

    ghost first: { soonest ≡ soonest_of ends.keys },
    ghost sorted: { AreSorted ends.keys } by { IsStrictlySortedBy-prop end_order ends.keys },
}

impl<A: Allocator> Model for Leases<A> {
    ghost use Rattle.std.specs.Prelude.{List, ℕ};
    ghost use Rattle.rtps_types.specs.declared.identity.GuidPrefix.{GuidPrefix};

    ghost Value = { List (ℕ × GuidPrefix) };

    ghost view = { λ l. l.ends.keys };
}

/// Returns the earliest end, or the greatest moment if there is none.
fn soonest_of<A: Allocator>(ends: &BTreeSet<(u64, GuidPrefix), A>) -> u64
    ensures { result ≡ soonest_of ends.now.keys }
{
    match ends.first() {
        Some(end) => end.0,
        None => u64::MAX,
    }
}

/// Returns the participant of the next end, if that end is before `moment`.
fn next_due(ends: &mut Iter<'_, (u64, GuidPrefix)>, moment: u64) -> Option<GuidPrefix>
    requires { AreSorted ends.old }
    ensures some { IfSome result (λ p. (q : GuidPrefix) → has_due ends.old moment q
        ≡ (is_eq (prefix_order q p) || has_due ends.new moment q)) }
    ensures none { IfNone result ((q : GuidPrefix) → has_due ends.old moment q ≡ false) }
    ensures sorted { AreSorted ends.new }
    ensures fewer { OnSome result (length ends.new < length ends.old) }
{
    let end = ends.next()?;
    if end.0 >= moment {
        return None;
    }
    Some(end.1)
}

/// Returns the participants of a set, in order.
fn listed<A: Allocator + Copy>(
    alloc: A,
    mut found: BTreeSet<GuidPrefix, A>,
) -> Result<Vec<GuidPrefix, A>, AllocError>
    ensures { IfOk result (λ list. list.items ≡ found.keys) }
{
    let mut list = Vec::new(alloc);
    'found: while let Some(prefix) = found.pop_first() {
        list.push(prefix)?;
    }
    Ok(list)
}

impl<A: Allocator> Leases<A> {
    /// Whether a lease has ended at a moment: its last moment is before it. It takes one
    /// comparison.
    pub fn is_due(&self, moment: u64) -> bool
        ensures { result ≡ is_due self.now moment }
    {
        self.soonest < moment
    }

    /// Removes an end.
    fn forget(&mut self, prefix: GuidPrefix, last: u64)
        ensures { (m : ℕ) (p : GuidPrefix) → has_end self.new m p
            ≡ cond (is_eq (end_order (last, prefix) (m, p))) false (has_end self.old m p) }
    {
        self.ends.remove(&(last, prefix));
        // Any other end leaves the first one where it is.
        if last == self.soonest {
            self.soonest = soonest_of(&self.ends);
        }
    }

    /// Removes the end of a participant's lease, `earlier`, if it had one.
    pub fn end(&mut self, prefix: GuidPrefix, earlier: Option<u64>)
        ensures { EndsAt prefix earlier self.old → Renews prefix None self.old self.new }
    {
        match earlier {
            Some(last) => self.forget(prefix, last),
            None => {}
        }
    }
}

impl<A: Allocator + Copy> Leases<A> {
    /// Returns an index without ends.
    pub fn new(alloc: A) -> Leases<A>
        ensures { result ≡ [] }
    {
        Leases {
            ends: BTreeSet::new(alloc),
            soonest: u64::MAX,
        }
    }

    /// Adds an end.
    fn add(&mut self, prefix: GuidPrefix, last: u64) -> Result<(), AllocError>
        ensures { OnOk result ((m : ℕ) (p : GuidPrefix) → has_end self.new m p
            ≡ cond (is_eq (end_order (last, prefix) (m, p))) true (has_end self.old m p)) }
    {
        match self.ends.insert((last, prefix)) {
            Ok(_) => {}
            Err(_) => return Err(AllocError),
        }
        self.soonest = self.soonest.min(last);
        Ok(())
    }

    /// Adds the end of a participant's lease, if it ends.
    pub fn begin(&mut self, prefix: GuidPrefix, last: Option<u64>) -> Result<(), AllocError>
        ensures { OnOk result (EndsAt prefix None self.old → Renews prefix last self.old self.new) }
    {
        match last {
            Some(last) => {
                self.add(prefix, last)?;
                Ok(())
            }
            None => Ok(()),
        }
    }

    /// Returns the participants whose leases have ended at a moment, in the order of the octets of
    /// their prefixes. It takes one step for each of them, and one more.
    pub fn due(&self, alloc: A, moment: u64) -> Result<Vec<GuidPrefix, A>, AllocError>
        ensures due { IfOk result (λ gone. (q : GuidPrefix)
            → has_prefix gone.items q ≡ has_due self.now moment q) }
        ensures sorted { IfOk result (λ gone. IsStrictlySortedBy prefix_order gone.items) }
    {
        let mut found = BTreeSet::new(alloc);
        let mut ends = self.ends.iter();
        'due: while let Some(prefix) = next_due(&mut ends, moment) {
            found.insert(prefix)?;
        }
        let list = listed(alloc, found)?;
        Ok(list)
    }

    /// Replaces the end of a participant's lease.
    pub fn renew(
        &mut self,
        prefix: GuidPrefix,
        earlier: Option<u64>,
        last: Option<u64>,
    ) -> Result<(), AllocError>
        ensures { OnOk result (EndsAt prefix earlier self.old
            → Renews prefix last self.old self.new) }
    {
        if earlier == last {
            return Ok(());
        }
        self.end(prefix, earlier);
        self.begin(prefix, last)?;
        Ok(())
    }
}
