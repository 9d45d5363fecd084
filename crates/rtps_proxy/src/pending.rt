//! Samples that are reassembled from fragments (DDSI-RTPS 8.4.14.1), in order of their numbers.

ghost use Rattle.std.specs.Prelude.{◌≡◌, ◌<◌, ◌≤◌, ℕ, ◌&&◌, ◌==◌, not, is_none, is_some, Bool, IfNone, IfSome, OnOk, length, map, false, true, filter};
ghost use Rattle.std.specs.Option.{option_map};
ghost use Rattle.rtps_types.specs.Number.{value_of};
ghost use Rattle.rtps_receiver.specs.Views.{fragment_view};
ghost use Rattle.rtps_frags.specs.Kept.{has_come};
ghost use Rattle.rtps_proxy.specs.BestEffort.{above};
ghost use Rattle.rtps_proxy.specs.Change.{change_view};
ghost use Rattle.rtps_proxy.specs.Fragments.{fits_in, grown, is_faulty, opened, sample_in, with_fragments_of};
ghost use Rattle.rtps_proxy.specs.Pending.{are_sound, fits_found, found_at, last_64, pending_view, pending_views, place_in, whole_found};
ghost use Rattle.rtps_proxy.specs.Runs.{marks};

use crate::change::{Change, Payload};
use crate::effects::ProxyError;
use crate::settled::Settled;
use rtps_frags::{Assembly, Sizes, fault_in};
use rtps_receiver::Fragment;
use rtps_types::{Number, Timestamp};
use rtps_wire::ChangeInfo;
use std::alloc::{AllocError, Allocator};

/// The most samples that are reassembled at a time; for a reliable reader, in addition to the next
/// one in order. It bounds the memory for a writer that begins samples and completes none.
pub(crate) const SEATS: usize = 64;

/// A sample with missing fragments, and what the first DATA_FRAG of it said.
#[derive(Drop)]
pub(crate) struct Pending<A: Allocator> {
    pub number: Number,
    pub time: Option<Timestamp>,
    pub info: ChangeInfo,
    pub sample: Assembly<A>,
}

/// Returns the sizes that a DATA_FRAG gives: of the sample, and of each fragment.
fn sizes_of(fragment: &Fragment<'_>) -> Sizes
    ensures { result ≡ (record { sample = fragment.now.sample; fragment = fragment.now.size }) }
{
    Sizes {
        sample: fragment.sample,
        fragment: fragment.size,
    }
}

/// Whether a DATA_FRAG has no fault.
fn is_faultless(fragment: &Fragment<'_>) -> bool
    ensures { result ≡ not (is_faulty (fragment_view fragment.now)) }
{
    let octets = fragment.payload.len();
    fault_in(sizes_of(fragment), fragment.start, fragment.count, octets).is_none()
}

/// Returns the number of samples that have a lesser number.
pub(crate) fn place_of<A: Allocator>(pending: &[Pending<A>], number: u64) -> usize
    ensures { result ≡ place_in number (pending_views pending.now) }
{
    for (at, sample) in pending.iter().enumerate() {
        if number <= sample.number.get() {
            return at;
        }
    }
    pending.len()
}

/// Whether there is a sample with `number`, where `at` is the place of `number`.
pub(crate) fn is_there<A: Allocator>(pending: &[Pending<A>], at: usize, number: u64) -> bool
    requires { at ≡ place_in number (pending_views pending.now) }
    ensures { result ≡ is_some (found_at number (pending_views pending.now)) }
{
    at < pending.len() && pending[at].number.get() == number
}

/// Whether a DATA_FRAG has no fault, and the same sizes as the first one of its number.
pub(crate) fn fits<A: Allocator>(pending: &[Pending<A>], at: usize, fragment: &Fragment<'_>) -> bool
    requires { at ≡ place_in (value_of fragment.now.number) (pending_views pending.now) }
    ensures { result ≡ fits_found (pending_views pending.now) (fragment_view fragment.now) }
{
    if !is_faultless(fragment) {
        return false;
    }
    if !is_there(pending, at, fragment.number.get()) {
        return true;
    }
    pending[at].sample.sizes() == sizes_of(fragment)
}

impl<A: Allocator> Pending<A> {
    /// Returns the change of a sample that is complete.
    fn into_change(self) -> Change<'static, A>
        requires { has_come self.sample ≡ true }
        ensures { change_view result ≡ sample_in (pending_view self) }
    {
        Change {
            number: self.number,
            time: self.time,
            info: self.info,
            payload: Payload::Kept(self.sample.whole()),
        }
    }
}

impl<A: Allocator + Copy> Pending<A> {
    /// Returns a sample without fragments, with what its first DATA_FRAG says.
    fn new(alloc: A, time: Option<Timestamp>, fragment: &Fragment<'_>) -> Pending<A>
        ensures view { pending_view result ≡ opened time (fragment_view fragment.now) }
        ensures sound { result.sample.spent ≡ false }
    {
        Pending {
            number: fragment.number,
            time,
            info: fragment.info,
            sample: Assembly::new(alloc, fragment.sample, fragment.size),
        }
    }

    /// Adds the fragments of a DATA_FRAG, where it has no fault.
    fn grow(&mut self, alloc: A, fragment: &Fragment<'_>) -> Result<(), ProxyError>
        ensures view { OnOk result (pending_view self.new
            ≡ grown (pending_view self.old) (fragment_view fragment.now)) }
        ensures sound { OnOk result (self.new.sample.spent ≡ false) }
        ensures number { self.new.number ≡ self.old.number }
    {
        let (start, count) = (fragment.start, fragment.count);
        match self.sample.add(alloc, start, count, fragment.payload) {
            Ok(()) => Ok(()),
            Err(_) => Err(AllocError),
        }
    }
}

/// Adds the fragments of a DATA_FRAG to the sample of its number, which is created where it is
/// missing.
pub(crate) fn put<A: Allocator + Copy>(
    pending: &mut Vec<Pending<A>, A>,
    alloc: A,
    time: Option<Timestamp>,
    at: usize,
    fragment: &Fragment<'_>,
) -> Result<(), ProxyError>
    requires { at ≡ place_in (value_of fragment.now.number) (pending_views pending.old.items) }
    ensures put { OnOk result (pending_views pending.new.items
        ≡ with_fragments_of time (fragment_view fragment.now) (pending_views pending.old.items)) }
    ensures sound { are_sound pending.old.items ≡ true →
        OnOk result (are_sound pending.new.items ≡ true) }
{
    if is_there(pending.as_slice(), at, fragment.number.get()) {
        return pending[at].grow(alloc, fragment);
    }
    let mut sample = Pending::new(alloc, time, fragment);
    sample.grow(alloc, fragment)?;
    pending.insert(at, sample)?;
    Ok(())
}

/// Removes the sample at the place of `number` and returns it, where it is complete.
pub(crate) fn take_whole<A: Allocator>(
    pending: &mut Vec<Pending<A>, A>,
    at: usize,
    number: u64,
) -> Option<Change<'static, A>>
    requires place { at ≡ place_in number (pending_views pending.old.items) }
    requires there { is_some (found_at number (pending_views pending.old.items)) ≡ true }
    ensures whole { are_sound pending.old.items ≡ true → option_map change_view result
        ≡ whole_found (found_at number (pending_views pending.old.items)) }
    ensures number { IfSome result (λ change. value_of change.number ≡ number) }
    ensures none { IfNone result (pending_views pending.new.items
        ≡ pending_views pending.old.items) }
    ensures left { (p : ℕ → Bool) → p number ≡ false →
        filter (λ b. p b.number) (pending_views pending.new.items)
        ≡ filter (λ b. p b.number) (pending_views pending.old.items) }
    ensures sound { are_sound pending.old.items ≡ true → are_sound pending.new.items ≡ true }
{
    if !pending[at].sample.is_whole() {
        return None;
    }
    Some(pending.remove(at).into_change())
}

/// Removes the samples whose numbers are settled.
pub(crate) fn give_up<A: Allocator>(pending: &mut Vec<Pending<A>, A>, settled: &Settled<A>)
    ensures left { pending_views pending.new.items
        ≡ filter (λ b. not (marks settled.now.frontier settled.now.runs b.number))
        (pending_views pending.old.items) }
    ensures sound { are_sound pending.old.items ≡ true → are_sound pending.new.items ≡ true }
{
    if pending.is_empty() {
        return;
    }
    pending.retain(|sample| !settled.contains(sample.number.get()));
}

/// Removes the samples up to a number.
pub(crate) fn give_up_to<A: Allocator>(pending: &mut Vec<Pending<A>, A>, number: u64)
    ensures left { pending_views pending.new.items
        ≡ above number (pending_views pending.old.items) }
    ensures sound { are_sound pending.old.items ≡ true → are_sound pending.new.items ≡ true }
{
    if pending.is_empty() {
        return;
    }
    pending.retain(|sample| number < sample.number.get());
}

/// Removes the first sample where there are more than 64.
pub(crate) fn displace<A: Allocator>(pending: &mut Vec<Pending<A>, A>)
    ensures left { pending_views pending.new.items ≡ last_64 (pending_views pending.old.items) }
    ensures sound { are_sound pending.old.items ≡ true → are_sound pending.new.items ≡ true }
{
    if pending.len() <= SEATS {
        return;
    }
    pending.remove(0);
}
