//! Why the program ends with another status than 0.

ghost use Rattle.std.specs.Prelude.{◌≡◌, Some};
ghost use Rattle.rtps_records.specs.declared.fault.RunFault.TheVariants.{NoMemory};
ghost use Rattle.rtps_bench.specs.Status.{fault_text};
ghost use Rattle.rtps_bench.specs.declared.fault.BenchFault.TheVariants as bench_fault;

use rtps_records::RunFault;
use std::alloc::AllocError;
use std::fmt;
use thiserror::Error;

/// A fault that has a line of its own on standard error.
#[derive(Clone, Copy, Debug, PartialEq, Eq, Error)]
pub enum BenchFault {
    /// A word of the command line is not text.
    NoText,
    /// The value of `--fixed` isn't 32 hex digits, or names no writer that can be matched.
    BadWriter,
    /// The clock can't be read.
    Clock,
    /// A run counted something else than the first one.
    Differs,
    /// The file can't be read, standard output can't be written, or memory ran out.
    Run(RunFault),
}

impl From<RunFault> for BenchFault {
    ghost from_gives = { λ run fault. fault ≡ bench_fault.Run run };

    fn from(fault: RunFault) -> BenchFault {
        BenchFault::Run(fault)
    }
}

impl From<AllocError> for BenchFault {
    ghost from_gives = { λ _ fault. fault ≡ bench_fault.Run NoMemory };

    fn from(_error: AllocError) -> BenchFault {
        BenchFault::Run(RunFault::NoMemory)
    }
}

impl BenchFault {
    ghost use Rattle.rtps_bench.specs.Status.{status_of};

    /// Returns the exit status of a program that ends with this fault.
    pub fn status(self) -> u8
        ensures { result ≡ status_of self }
    {
        match self {
            BenchFault::NoText | BenchFault::BadWriter => 2,
            BenchFault::Clock => 4,
            BenchFault::Differs => 6,
            BenchFault::Run(RunFault::NoMemory) => 5,
            BenchFault::Run(_) => 3,
        }
    }
}

impl fmt::Display for BenchFault {
    ghost output = { λ fault. Some (fault_text fault) };

    fn fmt<W: fmt::Write>(&self, f: &mut fmt::Formatter<W>) -> fmt::Result {
        match self {
            BenchFault::NoText => write!(f, "a word is not text"),
            BenchFault::BadWriter => write!(f, "bad writer"),
            BenchFault::Clock => write!(f, "cannot read the clock"),
            BenchFault::Differs => write!(f, "runs count differently"),
            BenchFault::Run(fault) => write!(f, "{fault}"),
        }
    }
}
