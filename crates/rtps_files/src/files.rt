//! What is printed of a record file that is opened by its name.

ghost use Rattle.std.specs.Prelude.{◌≡◌, ℕ, IfErr, IfOk, List, Option};
ghost use Rattle.std.specs.Io.Buffered.{reader_remaining};
ghost use Rattle.rtps_records.specs.Text.{text_of};
ghost use Rattle.rtps_events.specs.EventLines.{lines_of};
ghost use Rattle.rtps_explain.specs.Explained.{explained_text};
ghost use Rattle.rtps_files.specs.Printed.{IsUnopened, Prints};
ghost use Rattle.rtps_files.specs.Prefixes.{RefusesFirst};

use crate::fault::FileFault;
use rtps_events::dump;
use rtps_explain::explain;
use rtps_records::RunFault;
use rtps_types::GuidPrefix;
use std::alloc::Global;
use std::io::{self, BufReader, Read, Write};

/// How many octets are read of a file at a time: there are few calls of the system.
const READ_AHEAD: usize = 65_536;

/// Where the record files are that words name.
pub trait RecordFiles {
    /// A file that was opened.
    type File: Read + Drop + Send;

    ghost holds: { Self → List ℕ → Option (List ℕ) };

    /// Opens the file of this name, or standard input if the name is `-`.
    fn open(&self, name: &str) -> io::Result<Self::File>
        ensures { IfOk result (λ file. Self.File.remaining file ≡ holds self.now name.now) };
}

/// Opens the file of this name, with a buffer. The fault is `CannotRead` if there is no such file,
/// and `NoMemory`.
pub fn open_file<F: RecordFiles>(
    alloc: Global,
    files: &F,
    name: &str,
) -> Result<BufReader<F::File>, RunFault>
    ensures holds { IfOk result (λ file. reader_remaining F.File.remaining file
        ≡ F.holds files.now name.now) }
    ensures fault { IfErr result IsUnopened }
{
    let Ok(file) = files.open(name) else {
        return Err(RunFault::CannotRead);
    };
    match BufReader::with_capacity(alloc, READ_AHEAD, file) {
        Ok(reader) => Ok(reader),
        Err(_) => Err(RunFault::NoMemory),
    }
}

/// Prints the events in the file of this name, as [`dump`] does for the participant whose prefix is
/// `own`, 24 hex digits.
///
/// `BadPrefix` comes before the file is opened. Any other fault is that of the run, or that the
/// file can't be opened.
pub fn dump_file<F: RecordFiles, W: Write>(
    alloc: Global,
    files: &F,
    own: &str,
    name: &str,
    writer: &mut W,
) -> Result<(), FileFault>
    ensures refused { RefusesFirst own.now result }
    ensures prints { Prints (λ prefix. text_of (lines_of prefix)) own.now
        (F.holds files.now name.now)
        (W.contents writer.old) (W.contents writer.new) result }
{
    let Ok(prefix) = own.parse::<GuidPrefix>() else {
        return Err(FileFault::BadPrefix);
    };
    let mut file = open_file(alloc, files, name)?;
    Ok(dump(alloc, prefix, &mut file, writer)?)
}

/// Prints what becomes of each submessage in the file of this name, as [`explain`] does for the
/// participant whose prefix is `own`, 24 hex digits.
///
/// Faults are those of [`dump_file`].
pub fn explain_file<F: RecordFiles, W: Write>(
    alloc: Global,
    files: &F,
    own: &str,
    name: &str,
    writer: &mut W,
) -> Result<(), FileFault>
    ensures refused { RefusesFirst own.now result }
    ensures prints { Prints explained_text own.now (F.holds files.now name.now)
        (W.contents writer.old) (W.contents writer.new) result }
{
    let Ok(prefix) = own.parse::<GuidPrefix>() else {
        return Err(FileFault::BadPrefix);
    };
    let mut file = open_file(alloc, files, name)?;
    Ok(explain(alloc, prefix, &mut file, writer)?)
}
