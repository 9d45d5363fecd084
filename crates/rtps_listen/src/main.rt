//! Prints the events of record files, and what readers report and answer of record files or of the
//! datagrams of a domain.
#![tactic(auto)]

ghost use Rattle.std.specs.Prelude.{◌≡◌, OnOk};
ghost use Rattle.std.specs.Io.KnownBytes.{Appends};
ghost use Rattle.std.specs.Process.{exit_status};
ghost use Rattle.rtps_listen.specs.Status.{fault_line, status_after};

mod appearing;
mod config;
mod domain;
mod fault;
mod files;
mod host;
mod network;
mod options;
mod program;
mod reach;
mod reaching;
mod request;
mod setup;
mod words;

use fault::ListenFault;
use host::Host;
use network::Station;
use program::{Failure, run};
use rtps_records::RunFault;
use std::alloc::Global;
use std::io::{self, Write};
use std::process::ExitCode;
use std::thread::Threads;

/// More octets than a sample is likely to have.
const LARGE: usize = 16 << 20;

fn main(rt: HostRuntime) -> ExitCode {
    keep_freed_memory(rt.alloc());
    let outcome = run_line(&rt, &rt);
    report(&rt, outcome)
}

/// Allocates a large block, and frees it untouched. Once the allocator of the C library has freed
/// such a block, it keeps twice as much freed memory. Without this, the memory of a sample in
/// fragments would be returned to the system, and taken again, page by page, for the next one.
fn keep_freed_memory(alloc: Global) {
    let _ = Vec::<u8>::with_capacity(alloc, LARGE);
}

/// Does what the command line asks for; `threads` starts the workers.
fn run_line<T: Threads + Sync>(rt: &HostRuntime, threads: &T) -> Result<(), Failure> {
    let words = match words_given(rt) {
        Ok(words) => words,
        Err(fault) => return Err(Failure::Fault(fault)),
    };
    let mut station = Station {
        host: Host { rt },
        network: None,
        announced: None,
    };
    run(
        threads,
        rt.alloc(),
        &mut station,
        words.as_slice(),
        &mut rt.stdout(),
    )
}

/// Returns the words of the command line; the first one is the program's name.
fn words_given(rt: &HostRuntime) -> Result<Vec<String>, ListenFault> {
    let arguments = match std::env::args(rt) {
        Ok(arguments) => arguments,
        Err(e) if e.kind() == io::ErrorKind::OutOfMemory => {
            return Err(ListenFault::Run(RunFault::NoMemory));
        }
        Err(_) => return Err(ListenFault::NoText),
    };
    match arguments.collect::<Vec<String>>(rt.alloc()) {
        Ok(words) => Ok(words),
        Err(_) => Err(ListenFault::Run(RunFault::NoMemory)),
    }
}

/// Writes the line of a failure, if there is one, to standard error, and returns the exit status of
/// the program.
fn report(rt: &HostRuntime, outcome: Result<(), Failure>) -> ExitCode
    ensures { exit_status result ≡ status_after outcome }
{
    match outcome {
        Ok(()) => ExitCode::SUCCESS,
        Err(Failure::Line(error)) => {
            let _ = eprint!(rt; "{error}");
            ExitCode::from(2)
        }
        Err(Failure::Fault(fault)) => {
            let _ = write_line(&mut rt.stderr(), fault);
            ExitCode::from(fault.status())
        }
    }
}

/// Writes the line of a fault.
fn write_line<W: Write>(writer: &mut W, fault: ListenFault) -> io::Result<()>
    ensures { OnOk result (Appends (W.contents writer.old) (W.contents writer.new)
        (fault_line fault)) }
{
    writeln!(writer, "rtps_listen: {fault}")
}

#[cfg(test)]
mod tests;
