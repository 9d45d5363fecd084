//! What is counted of a run.

ghost use Rattle.std.specs.Prelude.{◌≡◌, Some};
ghost use Rattle.rtps_bench.specs.Text.{counts_text};

use std::fmt;

/// What is counted of a run over a record file.
#[derive(Clone, Copy, Debug, PartialEq, Eq)]
pub struct Counts {
    /// All datagrams.
    pub datagrams: u64,
    /// The submessages that gave an event.
    pub events: u64,
    /// The changes that were presented, of all readers.
    pub samples: u64,
    /// The datagrams to send.
    pub answers: u64,
    /// The sequence numbers that were given up, of all readers.
    pub lost: u64,
}

impl fmt::Display for Counts {
    ghost output = { λ counts. Some (counts_text counts) };

    fn fmt<W: fmt::Write>(&self, f: &mut fmt::Formatter<W>) -> fmt::Result {
        writeln!(f, "datagrams {}", self.datagrams)?;
        writeln!(f, "events {}", self.events)?;
        writeln!(f, "samples {}", self.samples)?;
        writeln!(f, "answers {}", self.answers)?;
        writeln!(f, "lost {}", self.lost)
    }
}
