//! The options of the command line.

ghost use Rattle.std.specs.Prelude.{◌≤◌};

/// The topic of the readers if `--topic` isn't given.
pub const TOPIC: &str = "Square";

/// What is measured: the readers, how their participant is run, and how often.
#[derive(Clone, Copy, Debug, PartialEq, Eq)]
pub struct Options<'a> {
    /// The number of readers, 1 to 64.
    pub readers: u8,
    /// The number of topics that the readers have in turn, 1 to 64.
    pub topics: u8,
    /// The topic of each reader, where there is one; the front of its name, where there are
    /// several.
    pub topic: &'a str,
    /// A writer that each reader is matched with from the start, in hex.
    pub fixed: Option<&'a str>,
    /// The number of workers that run each batch, 1 to 64.
    pub workers: u8,
    /// The most datagrams of a batch, 1 to 4,096.
    pub batch: u16,
    /// The number of runs, 1 to 1,000.
    pub repeat: u16,
    ghost read: { 1 ≤ readers },
    ghost few: { readers ≤ 64 },
    ghost named: { 1 ≤ topics },
    ghost various: { topics ≤ 64 },
    ghost worked: { 1 ≤ workers },
    ghost shared: { workers ≤ 64 },
    ghost begun: { 1 ≤ batch },
    ghost batched: { batch ≤ 4096 },
    ghost repeated: { 1 ≤ repeat },
    ghost bounded: { repeat ≤ 1000 },
}
