//! What is the same for every peer when something is said.

ghost use Rattle.std.specs.Prelude.{◌≡◌};
ghost use Rattle.rtps_announcer.specs.Said.{beat_of};

use crate::said::Said;

/// What is so when something is said: the moment, the last number, and the count of the next
/// HEARTBEAT.
#[derive(Clone, Copy)]
pub(crate) struct Now {
    pub moment: u64,
    pub last: u64,
    pub count: u32,
}

impl Now {
    /// The next HEARTBEAT.
    pub fn beat(self) -> Said
        ensures { result ≡ beat_of self }
    {
        Said::Beat(self.last, self.count)
    }
}
