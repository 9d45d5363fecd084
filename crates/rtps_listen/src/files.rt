//! What is printed of the record files that words name.

ghost use Rattle.std.specs.Prelude.{◌≡◌};
ghost use Rattle.rtps_listen.specs.Printed.{Prints};
ghost use Rattle.rtps_listen.specs.Request.{RefusesFirst};
ghost use Rattle.rtps_listen.specs.Status.{passed};
ghost use Rattle.rtps_listen.specs.declared.request.Request.TheVariants.{Dump, Explain, Replay, Samples};

use crate::config::config_of;
use crate::fault::ListenFault;
use crate::options::Options;
use crate::setup::{cache_setup_of, setup_of};
use dds_topic::{Raw, Shapes};
use rtps_files::{FileFault, RecordFiles, open_file};
use rtps_text::{replay, samples};
use std::alloc::Global;
use std::io::Write;
use std::thread::Threads;

/// Does what `dump` is asked for: prints the events in a file.
///
/// `BadPrefix` comes before the file is opened. Any other fault is that of the run.
pub fn dump_file<F: RecordFiles, W: Write>(
    alloc: Global,
    files: &F,
    options: &Options<'_>,
    writer: &mut W,
) -> Result<(), ListenFault>
    ensures refused { RefusesFirst (Dump options.now) result }
    ensures prints { Prints (Dump options.now) (F.holds files.now)
        (W.contents writer.old) (W.contents writer.new) result }
{
    passed(rtps_files::dump_file(alloc, files, options.own, options.file, writer))
}

/// Does what `explain` is asked for: prints what becomes of each submessage in a file.
///
/// Faults are those of [`dump_file`].
pub fn explain_file<F: RecordFiles, W: Write>(
    alloc: Global,
    files: &F,
    options: &Options<'_>,
    writer: &mut W,
) -> Result<(), ListenFault>
    ensures refused { RefusesFirst (Explain options.now) result }
    ensures prints { Prints (Explain options.now) (F.holds files.now)
        (W.contents writer.old) (W.contents writer.new) result }
{
    passed(rtps_files::explain_file(alloc, files, options.own, options.file, writer))
}

/// Passes on how a file was printed.
fn passed(given: Result<(), FileFault>) -> Result<(), ListenFault>
    ensures { result ≡ passed given }
{
    match given {
        Ok(()) => Ok(()),
        Err(FileFault::BadPrefix) => Err(ListenFault::BadPrefix),
        Err(FileFault::Run(fault)) => Err(ListenFault::Run(fault)),
    }
}

/// Does what `replay` is asked for: prints what readers report and answer of a file.
///
/// What is wrong with the options is refused before the file is opened: `BadPrefix`, `BadWriter` in
/// this order. Any other fault is that of the run.
pub fn replay_file<F: RecordFiles, W: Write + Send, T: Threads + Sync>(
    rt: &T,
    alloc: Global,
    files: &F,
    options: &Options<'_>,
    writer: &mut W,
) -> Result<(), ListenFault>
    ensures refused { RefusesFirst (Replay options.now) result }
    ensures prints { Prints (Replay options.now) (F.holds files.now)
        (W.contents writer.old) (W.contents writer.new) result }
{
    let config = config_of(alloc, options)?;
    let mut file = open_file(alloc, files, options.file)?;
    if options.raw {
        let setup = setup_of(options, config, Raw);
        return Ok(replay(rt, alloc, setup, &mut file, writer)?);
    }
    let setup = setup_of(options, config, Shapes);
    Ok(replay(rt, alloc, setup, &mut file, writer)?)
}

/// Does what `samples` is asked for: prints what readers keep of a file.
///
/// Faults are those of [`replay_file`].
pub fn samples_file<F: RecordFiles, W: Write + Send, T: Threads + Sync>(
    rt: &T,
    alloc: Global,
    files: &F,
    options: &Options<'_>,
    writer: &mut W,
) -> Result<(), ListenFault>
    ensures refused { RefusesFirst (Samples options.now) result }
    ensures prints { Prints (Samples options.now) (F.holds files.now)
        (W.contents writer.old) (W.contents writer.new) result }
{
    let config = config_of(alloc, options)?;
    let mut file = open_file(alloc, files, options.file)?;
    if options.raw {
        let setup = cache_setup_of(options, config, Raw);
        return Ok(samples(rt, alloc, setup, &mut file, writer)?);
    }
    let setup = cache_setup_of(options, config, Shapes);
    Ok(samples(rt, alloc, setup, &mut file, writer)?)
}
