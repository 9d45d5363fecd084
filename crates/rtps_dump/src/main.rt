//! Prints the events of a record file, or what becomes of each of its submessages.
#![tactic(auto)]

ghost use Rattle.std.specs.Prelude.{◌≡◌, None, OnOk};
ghost use Rattle.std.specs.Io.KnownBytes.{Appends};
ghost use Rattle.std.specs.Process.{exit_status};
ghost use Rattle.rtps_dump.specs.Status.{fault_line, status_of};

mod fault;
mod program;
mod words;

use fault::DumpFault;
use program::run;
use rtps_files::{FileFault, RecordFiles};
use rtps_records::RunFault;
use std::fs::File;
use std::io::{self, ErrorKind, Read, Stdin, Write};
use std::process::ExitCode;

fn main(rt: HostRuntime) -> ExitCode {
    match run_line(&rt) {
        Ok(()) => ExitCode::SUCCESS,
        Err(fault) => report(&rt, fault),
    }
}

/// Does what the command line asks for.
fn run_line(rt: &HostRuntime) -> Result<(), DumpFault> {
    let words = words_given(rt)?;
    run(rt.alloc(), &Host { rt }, words.as_slice(), &mut rt.stdout())
}

/// Returns the words of the command line; the first one is the program's name.
fn words_given(rt: &HostRuntime) -> Result<Vec<String>, DumpFault> {
    let no_memory = DumpFault::File(FileFault::Run(RunFault::NoMemory));
    let arguments = match std::env::args(rt) {
        Ok(arguments) => arguments,
        Err(e) if e.kind() == ErrorKind::OutOfMemory => return Err(no_memory),
        Err(_) => return Err(DumpFault::NoText),
    };
    match arguments.collect::<Vec<String>>(rt.alloc()) {
        Ok(words) => Ok(words),
        Err(_) => Err(no_memory),
    }
}

/// The files of this machine.
#[derive(Drop)]
struct Host<'a> {
    rt: &'a HostRuntime,
}

/// A file of this machine, or its standard input.
#[derive(Drop)]
enum HostFile {
    Stdin(Stdin),
    File(File),
}

impl RecordFiles for Host<'_> {
    type File = HostFile;

    ghost holds = { λ _ _. None };

    fn open(&self, name: &str) -> io::Result<HostFile> {
        if name == "-" {
            return Ok(HostFile::Stdin(self.rt.stdin()));
        }
        Ok(HostFile::File(File::open(self.rt, name)?))
    }
}

impl Read for HostFile {
    fn read(&mut self, buf: &mut [u8]) -> io::Result<usize> {
        match self {
            HostFile::Stdin(stdin) => stdin.read(buf),
            HostFile::File(file) => file.read(buf),
        }
    }
}

/// Writes the line of a fault to standard error, and returns the exit status of the program.
fn report(rt: &HostRuntime, fault: DumpFault) -> ExitCode
    ensures { exit_status result ≡ status_of fault }
{
    let _ = write_line(&mut rt.stderr(), fault);
    ExitCode::from(fault.status())
}

/// Writes the line of a fault.
fn write_line<W: Write>(writer: &mut W, fault: DumpFault) -> io::Result<()>
    ensures { OnOk result (Appends (W.contents writer.old) (W.contents writer.new)
        (fault_line fault)) }
{
    writeln!(writer, "rtps_dump: {fault}")
}

#[cfg(test)]
mod tests;
