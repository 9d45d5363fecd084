//! The missing numbers that an ACKNACK asks for (DDSI-RTPS 8.3.7.1, 9.4.2.6).

ghost use Rattle.std.specs.Prelude.{◌≡◌, ◌+◌, ◌-◌, ◌*◌, ◌^◌, ◌<◌, ◌≤◌, ◌/◌, ◌%◌, min, length};
ghost use Rattle.rtps_types.specs.Sets.{sn_view};
ghost use Rattle.rtps_proxy.specs.Answer.{acknack_by};
ghost use Rattle.rtps_proxy.specs.Replies.{set_of};
ghost use Rattle.rtps_proxy.specs.Runs.{marks};

use crate::settled::{Settled, is_begun, next_reaching};
use rtps_types::{SnSet, set_bit};
use std::alloc::Allocator;

impl<A: Allocator> Settled<A> {
    /// Returns the missing numbers up to `announced`, of the 256 numbers that begin at the
    /// frontier: an ACKNACK has 256 bits.
    pub fn missing_up_to(&self, announced: u64) -> SnSet
        requires { announced ≤ 2 ^ 62 }
        ensures { sn_view result ≡ set_of
            (acknack_by (marks self.now.frontier self.now.runs) self.now.frontier announced 0) }
    {
        let base = self.frontier;
        let count = (announced + 1).saturating_sub(base).min(256) as u32;
        let mut words = [0; 8];
        let mut bits: u32 = 0;
        let runs = self.runs.as_slice();
        let mut at = 0;
        for offset in 0..count {
            let number = base + u64::from(offset);
            at = next_reaching(runs, at, number);
            if !is_begun(runs, at, number) {
                set_bit(&mut words, offset);
                bits = offset + 1;
            }
        }
        SnSet { base, bits, words }
    }
}
