//! The program between its options, its input and its output.

ghost use Rattle.std.specs.Prelude.{◌≡◌, ◌++◌, ◌∷◌, [], ◌⊎◌, IfErr, IfOk, OnOk, length};
ghost use Rattle.std.specs.Io.KnownBytes.{Appends, Keeps};
ghost use Rattle.std.specs.List.{flat_map};
ghost use Rattle.std.specs.Time.{instant_nanos};
ghost use Rattle.rtps_records.specs.Batches.{records_in};
ghost use Rattle.rtps_records.specs.declared.fault.RunFault.TheVariants.{CannotWrite, NoMemory};
ghost use Rattle.rtps_bench.specs.Measuring.{AreCountsOf, IsFault, IsRunFault, WroteCounts};
ghost use Rattle.rtps_bench.specs.Reading.{AreFew};
ghost use Rattle.rtps_bench.specs.Text.{counts_text};
ghost use Rattle.rtps_bench.specs.Times.{nanos_between};
ghost use Rattle.rtps_bench.specs.declared.fault.BenchFault.TheVariants as bench_fault;

use crate::config::config_of;
use crate::counts::Counts;
use crate::fault::BenchFault;
use crate::options::Options;
use crate::reading::read_batches;
use crate::running::run_all;
use crate::times::{Times, times_of};
use rtps_records::{Batch, RunFault};
use std::alloc::Global;
use std::io::{self, Read, Write};
use std::thread::Threads;
use std::time::{Clock, Instant};

/// Reads a record file into memory, runs participants over it, writes what was counted, and returns
/// how long the runs took.
///
/// The fault is that of the file, `CannotRead` or `NoMemory`; `BadWriter` as [`config_of`] says;
/// `Clock` where the clock can't be read; `Differs` where a run counted something else than the
/// first one; or `CannotWrite`. Only with the last one something may have been written.
pub fn run<R: Read, W: Write, T: Threads + Clock + Sync>(
    rt: &T,
    alloc: Global,
    options: &Options<'_>,
    reader: &mut R,
    writer: &mut W,
) -> Result<Times, BenchFault>
    ensures wrote { OnOk result (WroteCounts options.now
        (R.remaining reader.old) (W.contents writer.old) (W.contents writer.new)) }
    ensures fault { IfErr result (IsFault options.now (R.remaining reader.old)) }
    ensures keeps { IfErr result (λ fault. (fault ≡ bench_fault.Run CannotWrite)
        ⊎ Keeps (W.contents writer.old) (W.contents writer.new)) }
{
    let batches = match read_batches(alloc, reader, options.batch) {
        Ok(batches) => batches,
        Err(fault) => return Err(BenchFault::Run(fault)),
    };
    let (counts, nanos) = match measure(rt, alloc, options, &batches) {
        Ok(measured) => measured,
        Err(fault) => return Err(fault),
    };
    let Ok(times) = times_of(&counts, nanos) else {
        return Err(BenchFault::Run(RunFault::NoMemory));
    };
    match write_counts(writer, &counts) {
        Ok(()) => Ok(times),
        Err(_) => Err(BenchFault::Run(RunFault::CannotWrite)),
    }
}

/// Runs the number of participants that the options ask for, one after the other. Returns what each
/// counted, and how many nanoseconds each took.
fn measure<T: Threads + Clock + Sync>(
    rt: &T,
    alloc: Global,
    options: &Options<'_>,
    batches: &[Batch],
) -> Result<(Counts, Vec<u64>), BenchFault>
    requires few { AreFew batches.now }
    ensures counts { IfOk result (λ r.
        AreCountsOf options.now (flat_map records_in batches.now) r.0) }
    ensures times { IfOk result (λ r. length r.1.items ≡ options.now.repeat) }
    ensures fault { IfErr result (IsRunFault options.now) }
{
    let mut nanos = Vec::new(alloc);
    let first = run_once(rt, alloc, options, batches)?;
    keep(&mut nanos, first.nanos())?;
    for _ in 1..options.repeat {
        let next = run_once(rt, alloc, options, batches)?;
        if next.counts != first.counts {
            return Err(BenchFault::Differs);
        }
        keep(&mut nanos, next.nanos())?;
    }
    Ok((first.counts, nanos))
}

/// Adds the time of a run.
fn keep(nanos: &mut Vec<u64>, next: u64) -> Result<(), BenchFault>
    ensures kept { OnOk result (nanos.new.items ≡ nanos.old.items ++ next ∷ []) }
    ensures fault { IfErr result (λ fault. fault ≡ bench_fault.Run NoMemory) }
{
    match nanos.push(next) {
        Ok(()) => Ok(()),
        Err(_) => Err(BenchFault::Run(RunFault::NoMemory)),
    }
}

/// A run: what it counted, and the readings of the clock before and after it.
#[derive(Clone, Copy)]
struct Measured {
    counts: Counts,
    start: Instant,
    end: Instant,
}

impl Measured {
    /// Returns how many nanoseconds the run took.
    fn nanos(&self) -> u64
        ensures { result ≡ nanos_between
            (instant_nanos self.now.start) (instant_nanos self.now.end) }
    {
        let nanos = self.end.duration_since(self.start).as_nanos();
        u64::try_from(nanos).unwrap_or(u64::MAX)
    }
}

/// Runs a participant. Returns what it counted, and when: from before it is made until it is dropped
/// with its output.
fn run_once<T: Threads + Clock + Sync>(
    rt: &T,
    alloc: Global,
    options: &Options<'_>,
    batches: &[Batch],
) -> Result<Measured, BenchFault>
    requires few { AreFew batches.now }
    ensures counts { IfOk result (λ r.
        AreCountsOf options.now (flat_map records_in batches.now) r.counts) }
    ensures fault { IfErr result (IsRunFault options.now) }
{
    let config = match config_of(alloc, options) {
        Ok(config) => config,
        Err(fault) => return Err(fault),
    };
    let workers = usize::from(options.workers);
    let Ok(start) = Instant::now(rt) else {
        return Err(BenchFault::Clock);
    };
    let Ok(counts) = run_all(rt, alloc, config, batches, workers) else {
        return Err(BenchFault::Run(RunFault::NoMemory));
    };
    let Ok(end) = Instant::now(rt) else {
        return Err(BenchFault::Clock);
    };
    Ok(Measured { counts, start, end })
}

/// Writes the lines of counts.
fn write_counts<W: Write>(writer: &mut W, counts: &Counts) -> io::Result<()>
    ensures { OnOk result (Appends (W.contents writer.old) (W.contents writer.new)
        (counts_text counts.now)) }
{
    write!(writer, "{counts}")?;
    writer.flush()
}
