//! Moving notices from a ring into a cache.

ghost use Rattle.std.specs.Prelude.{◌≡◌, ◌⊎◌, [], IfOk, List, OnErr, length};
ghost use Rattle.rtps_reader.specs.declared.notice.Notice.{Notice};
ghost use Rattle.dds_cache.specs.Pulling.{HasNext, Pulls, PullsOne};

use crate::reader::DataReader;
use dds_outlet::Inlet;
use std::alloc::{AllocError, Allocator};

impl<V: Drop, A: Allocator + Copy> DataReader<V, A> {
    /// Accepts the next notice of a ring, and returns whether there was one. If memory is refused,
    /// the notice is put back.
    #[tactic(auto, unfolding(crate::specs::Pulling::PullsOne))]
    fn pull_one<B: Allocator>(
        &mut self,
        alloc: A,
        inlet: &mut Inlet<V, B>,
    ) -> Result<bool, AllocError>
        ensures one { PullsOne result self.old self.new inlet.old inlet.new }
        ensures ring { (inlet.new.ring ≡ inlet.old.ring)
            × (inlet.new.is_last ≡ inlet.old.is_last)
            × (inlet.new.capacity ≡ inlet.old.capacity) }
        ensures keep { self.new.keep ≡ self.old.keep }
    {
        let Some(notice) = inlet.pop() else {
            return Ok(false);
        };
        match self.accept(alloc, notice) {
            Ok(()) => Ok(true),
            Err(refused) => {
                inlet.put_back(refused.value);
                Err(AllocError)
            }
        }
    }

    /// Accepts the notices of a ring, each once and in order, and returns the number accepted. It
    /// stops when the ring is empty, or after one notice for each place of the ring, so that a fast
    /// sender can't hold the caller. If memory is refused for a notice, it is put back into the
    /// ring: the next pull or pop finds it first.
    pub fn pull<B: Allocator>(
        &mut self,
        alloc: A,
        inlet: &mut Inlet<V, B>,
    ) -> Result<usize, AllocError>
        ensures pulls { (moved : List (Notice V))
            × Pulls moved self.old self.new inlet.old inlet.new
            × IfOk result (λ n. (n ≡ length moved)
            × ((inlet.new.next ≡ []) ⊎ (n ≡ inlet.old.capacity)))
            × OnErr result (HasNext inlet.new) }
        ensures keep { self.new.keep ≡ self.old.keep }
    {
        let places = inlet.capacity();
        for done in 0..places {
            if !self.pull_one(alloc, inlet)? {
                return Ok(done);
            }
        }
        Ok(places)
    }
}
