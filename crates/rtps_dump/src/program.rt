//! The program between its words, its files and its standard output.

ghost use Rattle.std.specs.Prelude.{map};
ghost use Rattle.rtps_dump.specs.Program.{Does, Leaves};

use crate::fault::DumpFault;
use crate::words::{Command, Request, read_words};
use rtps_files::{FileFault, RecordFiles, dump_file, explain_file};
use std::alloc::Global;
use std::convert::AsStr;
use std::io::Write;

/// Does what the words ask for. The first word is the program's name.
///
/// `BadLine` if they ask for nothing, and then no file is opened and nothing is written. Any other
/// fault is that of what was asked for.
#[tactic(auto, unfolding(crate::specs::Program::Leaves))]
pub fn run<F: RecordFiles, S: AsStr, W: Write>(
    alloc: Global,
    files: &F,
    words: &[S],
    writer: &mut W,
) -> Result<(), DumpFault>
    ensures { Leaves (map S.text words.entry.now) (F.holds files.now)
        (W.contents writer.old) (W.contents writer.new) result }
{
    let Some(request) = read_words(words) else {
        return Err(DumpFault::BadLine);
    };
    match perform(alloc, files, &request, writer) {
        Ok(()) => Ok(()),
        Err(fault) => Err(DumpFault::File(fault)),
    }
}

/// Does what the request asks for.
#[tactic(auto, unfolding(crate::specs::Program::Does))]
fn perform<F: RecordFiles, W: Write>(
    alloc: Global,
    files: &F,
    request: &Request<'_>,
    writer: &mut W,
) -> Result<(), FileFault>
    ensures { Does request.now.command request.now.file.now request.now.own.now (F.holds files.now)
        (W.contents writer.old) (W.contents writer.new) result }
{
    match request.command {
        Command::Dump => dump_file(alloc, files, request.own, request.file, writer),
        Command::Explain => explain_file(alloc, files, request.own, request.file, writer),
    }
}
