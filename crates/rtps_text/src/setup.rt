//! The settings of a run.

ghost use Rattle.std.specs.Prelude.{◌≡◌, ◌≤◌, ◌+◌, ◌*◌, ◌/◌, ◌&&◌, Ok, length, max, min, nat_lt};
ghost use Rattle.rtps_discovery.specs.Config.{check_of};
ghost use Rattle.dds_cache.specs.Cache.{IsHistory};
ghost use Rattle.rtps_text.specs.Entries.{IsHistory-prop};
ghost use Rattle.rtps_text.specs.Setup.{runners_of, saturated, sharing};

use dds_cache::History;
use rtps_discovery::Config;
use rtps_types::Datagram;

/// How a run is cut into batches, and how many workers share each batch. It changes only how long
/// the run takes, not its text.
#[derive(Clone, Copy, Debug, PartialEq, Eq)]
pub struct Pace {
    /// The maximum number of datagrams in a batch, 1 to 4,096.
    pub batch: u16,
    /// The maximum number of workers that share a batch, 1 to 64. One worker runs on the caller's
    /// thread; several have a thread each. In `replay` three quarters of this number run a batch,
    /// but at least two if there are several, while one more thread formats the output of the batch
    /// before.
    pub workers: u8,
    ghost batched: { 1 ≤ batch },
    ghost few: { batch ≤ 4096 },
    ghost worked: { 1 ≤ workers },
    ghost shared: { workers ≤ 64 },
}

/// The minimum number of steps for each worker that runs a batch. Each datagram counts one step for
/// each reader. With fewer steps, starting a thread takes longer than it saves.
const STEPS: usize = 1_024;

/// Copying this many octets of a datagram takes a reader about as long as a step.
const OCTETS: usize = 2_048;

/// The minimum number of lines for a thread that formats them, for the same reason.
const LINES: usize = 2_048;

impl Pace {
    /// Returns the pace of a run beside the thread that formats: three quarters of the workers, but
    /// at least two if there are several.
    pub(crate) fn running(self) -> Pace
        ensures batch { result.batch ≡ self.batch }
        ensures workers { result.workers ≡ max (self.workers * 3 / 4) (min self.workers 2) }
    {
        Pace {
            batch: self.batch,
            workers: (self.workers * 3 / 4).max(self.workers.min(2)),
        }
    }

    /// Returns how many workers run these datagrams for this number of readers.
    pub(crate) fn runners(&self, datagrams: &[Datagram<'_>], readers: u32) -> usize
        ensures shared { result ≡ runners_of self.now.workers datagrams.now readers }
        ensures within { (1 ≤ result) × (result ≤ 64) }
    {
        let octets = datagrams.iter().fold(
            0_usize,
            |octets: usize, datagram: &Datagram<'_>| -> usize
                ensures { result ≡ saturated (octets + length datagram.entry.now.bytes.now) }
            { octets.saturating_add(datagram.bytes.len()) },
        );
        let steps = datagrams.len().saturating_add(octets / OCTETS);
        self.at_most(steps.saturating_mul(readers as usize) / STEPS)
    }

    /// Whether this number of lines is formatted beside the next batch: if there are several workers
    /// and enough lines for one more thread.
    pub(crate) fn formats_beside(&self, lines: usize) -> bool
        ensures { result ≡ nat_lt 1 self.now.workers && nat_lt 2047 lines }
    {
        self.workers > 1 && lines >= LINES
    }

    /// Returns this number of workers if there are as many, and at least one.
    fn at_most(&self, workers: usize) -> usize
        ensures shared { result ≡ sharing self.now.workers workers }
        ensures within { (1 ≤ result) × (result ≤ 64) }
    {
        workers.min(self.workers as usize).max(1)
    }
}

/// The settings of a run: its readers and their catalog, what is printed, and how the run is cut.
#[derive(Drop)]
pub struct Setup<C: Drop> {
    pub config: Config,
    pub catalog: C,
    /// Whether matches and statuses are printed after the last record.
    pub summary: bool,
    /// How the run is cut into batches and shared among workers.
    pub pace: Pace,
    ghost checked: { check_of config ≡ Ok tt },
}

/// The settings of a run over a file whose readers keep their samples in caches.
#[derive(Drop)]
pub struct CacheSetup<C: Drop> {
    /// The settings of the run. If a summary is asked for, it is printed after the entries.
    pub run: Setup<C>,
    /// The number of entries that each reader keeps for an instance.
    pub keep: History,
    ghost kept: { IsHistory keep } by { IsHistory-prop keep },
}

/// The settings of a run over datagrams as they are received, and its limits.
#[derive(Drop)]
pub struct LiveSetup<C: Drop> {
    pub run: Setup<C>,
    /// The maximum number of datagrams to receive.
    pub datagrams: u32,
    /// The maximum number of waits for datagrams.
    pub turns: u32,
}
