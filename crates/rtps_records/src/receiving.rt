//! Receiving datagrams into a batch.

ghost use Rattle.std.specs.Prelude.{◌≡◌, ◌+◌, ◌≤◌, ◌∷◌, [], IfOk, IfSome, List, None, OnErr, Option, drop, length, take, vec_len};
ghost use Rattle.rtps_records.specs.Batches.{IsFull, records_in};
ghost use Rattle.rtps_records.specs.Speech.{Speech};
ghost use Rattle.rtps_records.specs.Traffic.{Exhausted, Failed, Grows, Received, ReceivesAll, ReceivesNext, Traffic, last_call};
ghost use Rattle.rtps_records.specs.declared.receive_end.ReceiveEnd.TheVariants.{More};

use crate::batch::{Batch, MAX_LEN};
use crate::piece::Piece;
use crate::receive_end::ReceiveEnd;
use std::alloc::{AllocError, Allocator};
use std::io;

/// A source of datagrams, one at a time. Its ghost `speech` is what it sends of its own accord, which
/// no call changes.
pub trait Receive {
    ghost traffic: { Self → Option (List Traffic) };

    ghost speech: { Self → Speech };

    /// Receives the next datagram into the front of `room`, and returns its length; `None` where
    /// all datagrams that came were received. A datagram that is longer than the room is cut. An
    /// error is the system's, and then nothing was received.
    fn receive(&mut self, room: &mut [u8]) -> io::Result<Option<usize>>
        ensures fits { IfOk result (λ next. IfSome next (λ n. n ≤ length room.new)) }
        ensures some { IfOk result (λ next. IfSome next (λ n.
            Grows (traffic self.old) (traffic self.new) (Received (take n room.new) ∷ []))) }
        ensures none { IfOk result (λ next. next ≡ None
            → Grows (traffic self.old) (traffic self.new) (Exhausted ∷ [])) }
        ensures fault { OnErr result (Grows (traffic self.old) (traffic self.new) (Failed ∷ [])) }
        ensures speech { speech self.new ≡ speech self.old };
}

/// Receives a datagram into `octets` after the first `used` ones, and returns its length.
fn receive_after<S: Receive>(
    source: &mut S,
    octets: &mut [u8],
    used: usize,
) -> io::Result<Option<usize>>
    requires { used + 65507 ≤ length octets.old }
    ensures length { length octets.new ≡ length octets.old }
    ensures same { take used octets.new ≡ take used octets.old }
    ensures fits { IfOk result (λ next. IfSome next (λ n. n ≤ 65507)) }
    ensures some { IfOk result (λ next. IfSome next (λ n.
        Grows (S.traffic source.old) (S.traffic source.new)
        (Received (take n (drop used octets.new)) ∷ []))) }
    ensures none { IfOk result (λ next. next ≡ None
        → Grows (S.traffic source.old) (S.traffic source.new) (Exhausted ∷ [])) }
    ensures fault { OnErr result
        (Grows (S.traffic source.old) (S.traffic source.new) (Failed ∷ [])) }
    ensures speech { S.speech source.new ≡ S.speech source.old }
{
    let (_, rest) = octets.split_at_mut(used);
    let (room, _) = rest.split_at_mut(MAX_LEN);
    source.receive(room)
}

impl<A: Allocator> Batch<A> {
    /// Receives the next datagram, and appends it with this moment: [`ReceiveEnd::More`]. If all
    /// datagrams that came were received, or at a fault, nothing is appended. An error is a refused
    /// growth, and then the source is unchanged.
    fn receive_next<S: Receive>(
        &mut self,
        source: &mut S,
        moment: u64,
    ) -> Result<ReceiveEnd, AllocError>
        requires room { self.old.used + 65507 ≤ 1048576 }
        requires datagrams { self.old.tick ≡ None }
        ensures datagrams { self.new.tick ≡ None }
        ensures receives { IfOk result (λ end. ReceivesNext end moment
            (S.traffic source.old) (S.traffic source.new)
            (records_in self.old) (records_in self.new)) }
        ensures same_source { OnErr result (source.new ≡ source.old) }
        ensures speech { S.speech source.new ≡ S.speech source.old }
        ensures same { OnErr result (records_in self.new ≡ records_in self.old) }
    {
        self.make_room()?;
        self.receive_here(source, moment)
    }

    /// The same where the buffer is long enough.
    #[tactic(auto, unfolding(crate::specs::Traffic::ReceivesNext))]
    fn receive_here<S: Receive>(
        &mut self,
        source: &mut S,
        moment: u64,
    ) -> Result<ReceiveEnd, AllocError>
        requires room { self.old.used + 65507 ≤ vec_len self.old.octets }
        requires datagrams { self.old.tick ≡ None }
        ensures datagrams { self.new.tick ≡ None }
        ensures receives { IfOk result (λ end. ReceivesNext end moment
            (S.traffic source.old) (S.traffic source.new)
            (records_in self.old) (records_in self.new)) }
        ensures same_source { OnErr result (source.new ≡ source.old) }
        ensures speech { S.speech source.new ≡ S.speech source.old }
        ensures same { OnErr result (records_in self.new ≡ records_in self.old) }
    {
        self.pieces.reserve(1)?;
        match receive_after(source, self.octets.as_mut_slice(), self.used) {
            Ok(Some(length)) => {
                self.pieces.push(Piece { moment, length })?;
                self.used += length;
                Ok(ReceiveEnd::More)
            }
            Ok(None) => Ok(ReceiveEnd::Drained),
            Err(_) => Ok(ReceiveEnd::Fault),
        }
    }

    /// Replaces the records of the batch by the datagrams received, all with this moment, in
    /// milliseconds. It receives `most` of them; fewer if there is no room for one more of the
    /// greatest length, if all that came were received ([`ReceiveEnd::Drained`]), or if the source
    /// fails ([`ReceiveEnd::Fault`]).
    ///
    /// An error is a refused growth. The datagrams that were received until then are in the batch,
    /// and no other one was received.
    pub fn receive<S: Receive>(
        &mut self,
        source: &mut S,
        moment: u64,
        most: u16,
    ) -> Result<ReceiveEnd, AllocError>
        ensures receives { IfOk result (λ end. ReceivesAll
            (S.traffic source.old) (S.traffic source.new)
            moment (records_in self.new) (last_call end)) }
        ensures stops { OnErr result (ReceivesAll
            (S.traffic source.old) (S.traffic source.new) moment (records_in self.new) []) }
        ensures few { length (records_in self.new) ≤ most }
        ensures full { IfOk result (λ end. end ≡ More → IsFull most self.new) }
        ensures speech { S.speech source.new ≡ S.speech source.old }
    {
        self.clear();
        while self.len() < most as usize && self.has_room() {
            match self.receive_next(source, moment)? {
                ReceiveEnd::More => {}
                end => return Ok(end),
            }
        }
        Ok(ReceiveEnd::More)
    }
}
