//! What is counted of the events that come to nothing.

ghost use Rattle.std.specs.Prelude.{◌≡◌, ◌+◌};
ghost use Rattle.rtps_planner.specs.PassedOver.{capped, counts_of, plus};

/// How many events came to nothing, by what became of them. Each counter stops at 2^64 - 1.
///
/// Every event goes to the readers that are matched with its writer then and named by it; or, if it
/// comes from an announcer, to discovery alone.
#[derive(Clone, Copy, Debug, Default, PartialEq, Eq)]
pub struct PassedOver {
    /// Events of users' writers that no reader is matched with, or whose reader id names none of
    /// those that are.
    pub nobody: u64,
    /// Records of announcers that announce nothing, so that nothing of what is known changed: they
    /// can't be read, speak of another participant or are ours, for example (DDSI-RTPS 8.5.3,
    /// 8.5.4). Announcements that repeat what is known aren't among them.
    pub ignored: u64,
}

impl PassedOver {
    /// The counters before any event: both are 0.
    pub fn new() -> PassedOver
        ensures { result ≡ counts_of 0 0 }
    {
        PassedOver::default()
    }

    /// Adds what other events counted. Each sum stops at 2^64 - 1.
    pub fn add(&mut self, other: PassedOver)
        ensures { self.new ≡ plus self.old other }
    {
        self.nobody = self.nobody.saturating_add(other.nobody);
        self.ignored = self.ignored.saturating_add(other.ignored);
    }

    /// Counts an event for nobody, and `more` others.
    pub(crate) fn count_nobody(&mut self, more: u64)
        ensures { self.new
            ≡ record self.old { nobody = capped (self.old.nobody + (more + 1)) } }
    {
        self.nobody = self.nobody.saturating_add(more).saturating_add(1);
    }

    /// Counts these many records that were ignored.
    pub(crate) fn count_ignored(&mut self, records: u64)
        ensures { self.new
            ≡ record self.old { ignored = capped (self.old.ignored + records) } }
    {
        self.ignored = self.ignored.saturating_add(records);
    }
}
