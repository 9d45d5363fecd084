//! The effects of an event.

ghost use Rattle.std.specs.Prelude.{◌≡◌, [], None};

use crate::change::Change;
use rtps_types::Reply;
use std::alloc::{AllocError, Allocator, Global};

/// Why an event could not be handled: the allocator refused a growth, now or at an earlier event.
pub type ProxyError = AllocError;

/// The effects of an event: what is reported, in this order, and the answer to the writer.
#[derive(Debug, Drop)]
pub struct Effects<'a, A: Allocator = Global> {
    /// The number of sequence numbers that are given up (DDS 1.4, 2.2.4.1, SAMPLE_LOST).
    pub lost: u64,
    /// The changes that are ready now, by rising number.
    pub ready: Vec<Change<'a, A>, A>,
    /// The ACKNACK or NACK_FRAG that is to be sent to the writer.
    pub answer: Option<Reply<A>>,
}

impl<'a, A: Allocator> Effects<'a, A> {
    /// Returns empty effects. No memory is taken.
    pub fn none(alloc: A) -> Effects<'a, A>
        ensures lost { result.lost ≡ 0 }
        ensures ready { result.ready.items ≡ [] }
        ensures answer { result.answer ≡ None }
    {
        Effects {
            lost: 0,
            ready: Vec::new(alloc),
            answer: None,
        }
    }
}
