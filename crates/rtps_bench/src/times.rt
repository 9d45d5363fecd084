//! How long the runs took.

ghost use Rattle.std.specs.Prelude.{◌≡◌, ◌<◌, IfOk, Some, length};
ghost use Rattle.rtps_bench.specs.Text.{times_text};
ghost use Rattle.rtps_bench.specs.Times.{AreTimesOf, rate, share};

use crate::counts::Counts;
use std::alloc::AllocError;
use std::fmt;

/// How long the runs took, in nanoseconds.
#[derive(Clone, Copy, Debug, PartialEq, Eq)]
pub struct Times {
    /// The shortest time of a run.
    pub best: u64,
    /// The time in the middle; of two in the middle, the longer one.
    pub median: u64,
    /// How many datagrams are processed in a second, by the median.
    pub rate: u64,
    /// How long a sample takes, by the median; 0 where there is none.
    pub each: u64,
}

impl fmt::Display for Times {
    ghost output = { λ times. Some (times_text times) };

    fn fmt<W: fmt::Write>(&self, f: &mut fmt::Formatter<W>) -> fmt::Result {
        writeln!(f, "best_ns {}", self.best)?;
        writeln!(f, "median_ns {}", self.median)?;
        writeln!(f, "datagrams_per_s {}", self.rate)?;
        writeln!(f, "ns_per_sample {}", self.each)
    }
}

/// The nanoseconds of a second.
const SECOND: u128 = 1_000_000_000;

/// Returns how many datagrams are processed in a second, if these take this time: at most
/// 2^64 - 1, also where the time is 0.
fn rate(datagrams: u64, nanos: u64) -> u64
    ensures { result ≡ rate datagrams nanos }
{
    if nanos == 0 {
        return u64::MAX;
    }
    let rate = u128::from(datagrams) * SECOND / u128::from(nanos);
    rate.min(u128::from(u64::MAX)) as u64
}

/// Returns how long each of these takes, or 0 where there is none.
fn share(nanos: u64, count: u64) -> u64
    ensures { result ≡ share nanos count }
{
    if count == 0 { 0 } else { nanos / count }
}

/// Returns the times of runs that counted this and each took these nanoseconds. They are sorted.
pub fn times_of(counts: &Counts, mut nanos: Vec<u64>) -> Result<Times, AllocError>
    requires some { 0 < length nanos.items }
    ensures { IfOk result (AreTimesOf counts.now nanos.items) }
{
    nanos.sort()?;
    let median = nanos[nanos.len() / 2];
    Ok(Times {
        best: nanos[0],
        median,
        rate: rate(counts.datagrams, median),
        each: share(median, counts.samples),
    })
}
