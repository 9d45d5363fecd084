//! Measures the engine alone. It reads the record file on standard input into memory, runs a
//! participant over its datagrams several times, and writes what each run counted to standard
//! output, and how long the runs took to standard error.
#![tactic(auto)]

ghost use Rattle.std.specs.Prelude.{◌≡◌};
ghost use Rattle.std.specs.Process.{exit_status};
ghost use Rattle.rtps_bench.specs.Ending.{status_after};

mod config;
mod counts;
mod failure;
mod fault;
mod found;
mod options;
mod program;
mod reading;
mod running;
mod times;
mod words;

use clap::error::ErrorKind;
use failure::Failure;
use fault::BenchFault;
use program::run;
use rtps_records::RunFault;
use std::io;
use std::process::ExitCode;
use std::thread::Threads;
use std::time::Clock;
use times::Times;
use words::read_words;

fn main(rt: HostRuntime) -> ExitCode {
    match run_line(&rt, &rt) {
        Ok(times) => {
            let _ = eprint!(&rt; "{times}");
            ExitCode::SUCCESS
        }
        Err(failure) => report(&rt, failure),
    }
}

/// Does what the command line asks for; `threads` starts the workers, and has the clock.
fn run_line<T: Threads + Clock + Sync>(rt: &HostRuntime, threads: &T) -> Result<Times, Failure> {
    let words = match words_given(rt) {
        Ok(words) => words,
        Err(fault) => return Err(Failure::Fault(fault)),
    };
    let options = match read_words(rt.alloc(), words.as_slice()) {
        Ok(options) => options,
        Err(error) if error.kind() == ErrorKind::OutOfMemory => {
            return Err(Failure::Fault(BenchFault::Run(RunFault::NoMemory)));
        }
        Err(error) => return Err(Failure::Line(error)),
    };
    let (mut stdin, mut stdout) = (rt.stdin(), rt.stdout());
    match run(threads, rt.alloc(), &options, &mut stdin, &mut stdout) {
        Ok(times) => Ok(times),
        Err(fault) => Err(Failure::Fault(fault)),
    }
}

/// Returns the words of the command line; the first one is the program's name.
fn words_given(rt: &HostRuntime) -> Result<Vec<String>, BenchFault> {
    let arguments = match std::env::args(rt) {
        Ok(arguments) => arguments,
        Err(e) if e.kind() == io::ErrorKind::OutOfMemory => {
            return Err(BenchFault::Run(RunFault::NoMemory));
        }
        Err(_) => return Err(BenchFault::NoText),
    };
    match arguments.collect::<Vec<String>>(rt.alloc()) {
        Ok(words) => Ok(words),
        Err(_) => Err(BenchFault::Run(RunFault::NoMemory)),
    }
}

/// Writes the line of a failure to standard error, and returns the exit status of the program.
fn report(rt: &HostRuntime, failure: Failure) -> ExitCode
    ensures { exit_status result ≡ status_after failure }
{
    match failure {
        Failure::Line(error) => {
            let _ = eprint!(rt; "{error}");
            ExitCode::from(2)
        }
        Failure::Fault(fault) => {
            let _ = eprintln!(rt; "rtps_bench: {fault}");
            ExitCode::from(fault.status())
        }
    }
}

#[cfg(test)]
mod tests;
