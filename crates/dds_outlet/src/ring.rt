//! The two ends of a ring.

ghost use Rattle.std.specs.Prelude.{◌≡◌, ◌∷◌, ◌++◌, ◌+◌, ◌<◌, ◌≤◌, [], false, true, IfErr, IfSome, IsOk, List, MatchOption, OnOk, Some, is_some, option_to_list};
ghost use mathlib.Core.List.{IsPrefix};
ghost use Rattle.rtrb.specs.Ring.{SameConsumer, all_sent, consumer_capacity, known_free, known_items, producer_capacity, sent, received as popped};
ghost use Rattle.rtps_reader.specs.declared.notice.Notice.{Notice};
ghost use Rattle.dds_outlet.specs.Ring.{Finished, IsPoppedLast, Receiving, Sending, name_of, received_of};

use rtps_reader::Notice;
use rtrb::{Consumer, Producer, PushError};
use std::alloc::{Allocator, Global};
use std::marker::Model;

/// The end of a ring that notices are delivered to.
#[derive(Drop)]
pub struct Outlet<V, A: Allocator = Global> {
    producer: Producer<Notice<V>, A>,
}

impl<V, A: Allocator> Model for Outlet<V, A> {
    ghost Value = { Sending V A };

    ghost view = { λ o. record {
      ring = name_of o.producer.end;
      sent = sent o.producer;
      free = known_free o.producer;
      capacity = producer_capacity o.producer;
    } };
}

/// The end of a ring that notices come out of.
#[derive(Drop)]
pub struct Inlet<V, A: Allocator = Global> {
    consumer: Consumer<Notice<V>, A>,
    /// The notice that was popped last, where it was put back.
    back: Option<Notice<V>>,
    /// Whether this end knows all that was sent.
    is_last: bool,
}

impl<V, A: Allocator> Model for Inlet<V, A> {
    ghost Value = { Receiving V A };

    ghost view = { λ i. record {
      ring = name_of i.consumer.end;
      received = received_of i.back (popped i.consumer);
      next = option_to_list i.back ++ known_items i.consumer;
      is_last = i.is_last;
      is_put_back = is_some i.back;
      capacity = consumer_capacity i.consumer;
    } };

    ghost invariant = { λ i. (consumer_capacity i.consumer ≤ 65536)
        × IsPoppedLast i.back (popped i.consumer) };
}

/// What an outlet had sent when it finished, for [`Inlet::known_all`].
#[derive(Drop)]
pub struct Sent<V, A: Allocator = Global> {
    finished: rtrb::Finished<Notice<V>, A>,
}

impl<V, A: Allocator> Model for Sent<V, A> {
    ghost Value = { Finished V A };

    ghost view = { λ s. record {
      ring = name_of s.finished.end;
      sent = all_sent s.finished;
    } };
}

impl<V, A: Allocator> Outlet<V, A> {
    /// The end of a new ring.
    pub(crate) fn new(producer: Producer<Notice<V>, A>) -> Outlet<V, A>
        ensures ring { result.ring ≡ name_of producer.end }
        ensures sent { (result.sent ≡ sent producer) × (result.free ≡ known_free producer)
            × (result.capacity ≡ producer_capacity producer) }
    {
        Outlet { producer }
    }

    /// Delivers a notice, or returns it as the error where the ring is full. Each pop of the inlet
    /// frees a place. This end looks for freed places only when it knows of no other free place.
    pub fn deliver(&mut self, notice: Notice<V>) -> Result<(), Notice<V>>
        ensures ring { (self.new.ring ≡ self.old.ring) × (self.new.capacity ≡ self.old.capacity) }
        ensures sent { OnOk result ((self.new.sent ≡ self.old.sent ++ notice ∷ [])
            × (self.old.free ≤ self.new.free + 1)) }
        ensures full { IfErr result (λ back. (back ≡ notice) × (self.new.sent ≡ self.old.sent)
            × (self.new.free ≡ 0)) }
        ensures succeeds { 0 < self.old.free → IsOk result }
    {
        match self.producer.push(notice) {
            Ok(()) => Ok(()),
            Err(PushError::Full(back)) => Err(back),
        }
    }

    /// Ends the sending. Returns what was sent, for [`Inlet::known_all`], or `None` where the inlet
    /// is gone.
    pub fn finish(self) -> Option<Sent<V, A>>
    where
        V: Drop,
        ensures { IfSome result (λ s. (s.ring ≡ self.ring) × (s.sent ≡ self.sent)) }
    {
        let Outlet { producer } = self;
        let finished = producer.finish()?;
        Some(Sent { finished })
    }
}

/// Pops the next notice of a ring. If `is_last`, only notices that this end knows already are left.
fn pop_ring<V, A: Allocator>(
    consumer: &mut Consumer<Notice<V>, A>,
    is_last: bool,
) -> Option<Notice<V>>
    ensures ring { SameConsumer consumer.old consumer.new }
    ensures received { MatchOption result (popped consumer.new ≡ popped consumer.old)
        (λ x. popped consumer.new ≡ popped consumer.old ++ x ∷ []) }
    ensures next { MatchOption result
        ((known_items consumer.old ≡ []) × (known_items consumer.new ≡ []))
        (λ x. IsPrefix (known_items consumer.old) (x ∷ known_items consumer.new)) }
    ensures last { is_last ≡ true → MatchOption result (known_items consumer.old ≡ [])
        (λ x. known_items consumer.old ≡ x ∷ known_items consumer.new) }
{
    if !is_last {
        return consumer.pop().ok();
    }
    if consumer.cached_slots() == 0 {
        return None;
    }
    Some(consumer.pop_known())
}

impl<V, A: Allocator> Inlet<V, A> {
    /// The end of a new ring.
    pub(crate) fn new(consumer: Consumer<Notice<V>, A>) -> Inlet<V, A>
        requires { consumer_capacity consumer ≤ 65536 }
        ensures ring { (result.ring ≡ name_of consumer.end)
            × (result.capacity ≡ consumer_capacity consumer) }
        ensures received { (result.received ≡ popped consumer)
            × (result.next ≡ known_items consumer) }
        ensures flags { (result.is_last ≡ false) × (result.is_put_back ≡ false) }
    {
        Inlet {
            consumer,
            back: None,
            is_last: false,
        }
    }

    /// The number of places in the ring.
    pub fn capacity(&self) -> usize
        ensures { (result ≡ self.now.capacity) × (result ≤ 65536) }
    {
        self.consumer.capacity()
    }

    /// Takes the next notice out of the ring, or returns `None` where it sees none. A notice that
    /// was put back comes first; its place was freed when it was first popped.
    pub fn pop(&mut self) -> Option<Notice<V>>
    where
        V: Drop,
        ensures ring { (self.new.ring ≡ self.old.ring) × (self.new.is_last ≡ self.old.is_last)
            × (self.new.capacity ≡ self.old.capacity) }
        ensures received { MatchOption result (self.new.received ≡ self.old.received)
            (λ x. self.new.received ≡ self.old.received ++ x ∷ []) }
        ensures next { MatchOption result ((self.old.next ≡ []) × (self.new.next ≡ []))
            (λ x. IsPrefix self.old.next (x ∷ self.new.next)) }
        ensures last { self.old.is_last ≡ true → MatchOption result (self.old.next ≡ [])
            (λ x. self.old.next ≡ x ∷ self.new.next) }
        ensures back { self.new.is_put_back ≡ false }
    {
        match self.back.take() {
            Some(notice) => Some(notice),
            None => pop_ring(&mut self.consumer, self.is_last),
        }
    }

    /// Puts back the notice that was popped last, as if it had not been popped: the next pop gives
    /// it.
    pub fn put_back(&mut self, notice: Notice<V>)
    where
        V: Drop,
        requires last { (before : List (Notice V))
            × (self.old.received ≡ before ++ notice ∷ []) }
        requires room { self.old.is_put_back ≡ false }
        ensures ring { (self.new.ring ≡ self.old.ring) × (self.new.is_last ≡ self.old.is_last)
            × (self.new.capacity ≡ self.old.capacity) }
        ensures received { self.old.received ≡ self.new.received ++ notice ∷ [] }
        ensures next { self.new.next ≡ notice ∷ self.old.next }
        ensures back { self.new.is_put_back ≡ true }
    {
        self.back = Some(notice);
    }

    /// Learns all that the outlet of the ring had sent when it finished: from now on pops return
    /// what is left of it, and then `None`.
    pub fn known_all(&mut self, sent: &mut Sent<V, A>)
        requires { sent.old.ring ≡ self.old.ring }
        ensures inlet { (self.new.ring ≡ self.old.ring)
            × (self.new.received ≡ self.old.received) × (self.new.is_last ≡ true)
            × (self.new.is_put_back ≡ self.old.is_put_back)
            × (self.new.capacity ≡ self.old.capacity) }
        ensures sent { sent.new ≡ sent.old }
        ensures all { self.new.received ++ self.new.next ≡ sent.old.sent }
    {
        self.consumer.slots_after(&mut sent.finished);
        self.is_last = true;
    }
}
