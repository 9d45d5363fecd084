//! Removing participants whose leases have ended (DDSI-RTPS 8.5.3.2).

ghost use Rattle.std.specs.Prelude.{◌≡◌, IfOk, IsOk, OnOk, false, map};
ghost use Rattle.rtps_discovery.specs.Changes.{changes};
ghost use Rattle.rtps_discovery.specs.Kept.{IsKnown, kept};
ghost use Rattle.rtps_discovery.specs.Known.{Known, has_expired, moved, passed};
ghost use Rattle.rtps_discovery.specs.Seen.{change_seen};

use crate::changes::MatchChange;
use crate::registry::Registry;
use std::alloc::{AllocError, Allocator};

impl<A: Allocator + Copy> Registry<A> {
    /// Advances to a moment, and removes nobody.
    pub fn advance(&mut self, moment: u64)
        ensures { (k : Known) → IsKnown k (kept self.old)
            → IsKnown (moved moment k) (kept self.new) }
    {
        self.moment = self.moment.max(moment);
    }

    /// Advances to a moment, and removes the participants whose leases have ended, all together. It
    /// takes no step for a participant whose lease hasn't ended, and no memory if none has ended.
    pub fn expire(&mut self, alloc: A, moment: u64) -> Result<Vec<MatchChange<A>, A>, AllocError>
        ensures known { (k : Known) → IsKnown k (kept self.old)
            → OnOk result (IsKnown (passed moment k) (kept self.new)) }
        ensures changes { (k : Known) → IsKnown k (kept self.old) → IfOk result (λ ended.
            map change_seen ended.items ≡ changes (moved moment k) (passed moment k)) }
        ensures quiet { (k : Known) → IsKnown k (kept self.old)
            → has_expired (moved moment k) ≡ false → IsOk result }
    {
        self.advance(moment);
        let mut ended = Vec::new(alloc);
        if !self.leases.is_due(self.moment) {
            return Ok(ended);
        }
        let gone = self.leases.due(alloc, self.moment)?;
        self.leave_all(alloc, gone.as_slice(), &mut ended)?;
        Ok(ended)
    }
}
