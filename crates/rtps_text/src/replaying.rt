//! Printing a run over a whole record file: one line for each notice and each answer.

ghost use Rattle.std.specs.Prelude.{◌≡◌, [], IfErr, None, OnOk};
ghost use Rattle.rtps_records.specs.Runs.{Stops, WroteAll};
ghost use Rattle.dds_participant.specs.Ports.{NoneAttached};
ghost use Rattle.rtps_text.specs.Replayed.{HasSaid, replay_text, text_by};
ghost use Rattle.rtps_run.specs.BatchOutput.{HoldsNothing};

use crate::file_run::run_file;
use crate::pipeline::Pipeline;
use crate::printer::Printer;
use crate::running::RunLines;
use crate::setup::Setup;
use crate::sink::Sink;
use dds_topic::TextCatalog;
use rtps_records::RunFault;
use std::alloc::Global;
use std::io::{Read, Write};
use std::thread::Threads;

/// Reads a record file up to its end or its first fault, has the readers of a configuration process
/// its datagrams, batch after batch, and writes a line for each notice and each answer. The lines
/// are sorted by place, then by rank; of one reader the notices come before the answers. With
/// `summary` the matches and the status of each reader follow, also if a record has a fault.
///
/// The file is never in memory as a whole. In memory are the records of two batches, at most 1 MiB
/// each, the output of two batches, and the texts of two batches. If there are several workers,
/// three quarters of them run a batch while one more thread formats the one before; at the same
/// time the text of the batch before that one is written, and the next batch is read. So when a
/// write fails, three more batches may have been read than the text has.
pub fn replay<C: TextCatalog, R: Read + Send, W: Write + Send, T: Threads + Sync>(
    rt: &T,
    alloc: Global,
    setup: Setup<C>,
    reader: &mut R,
    writer: &mut W,
) -> Result<(), RunFault>
where
    C::Value: Sync,
    ensures ok { OnOk result (WroteAll
        (replay_text (C.text_of setup.catalog) (C.decoding setup.catalog)
        setup.config setup.summary)
        (R.remaining reader.old) (W.contents writer.old) (W.contents writer.new) None) }
    ensures fault { IfErr result (λ fault. Stops
        (replay_text (C.text_of setup.catalog) (C.decoding setup.catalog)
        setup.config setup.summary)
        fault (R.remaining reader.old) (R.remaining reader.new)
        (W.contents writer.old) (W.contents writer.new)) }
{
    let Setup {
        config,
        catalog,
        summary,
        pace,
    } = setup;
    let catalog = &catalog;
    let lent = Setup {
        config,
        catalog,
        summary,
        pace: pace.running(),
    };
    print_file(rt, RunLines::new(alloc, lent)?, &catalog, reader, writer)
}

/// Prints the run over a file. The catalog, which is the run's own, formats its values. Nothing was
/// printed before.
fn print_file<C: TextCatalog, R: Read + Send, W: Write + Send, T: Threads + Sync>(
    rt: &T,
    run: RunLines<C>,
    catalog: &C,
    reader: &mut R,
    writer: &mut W,
) -> Result<(), RunFault>
where
    C::Value: Sync,
    requires fresh { HasSaid C.text_of C.decoding [] [] run.participant.engine }
    requires nothing { HoldsNothing run.given }
    requires own { catalog.now ≡ run.participant.engine.catalog }
    requires alone { NoneAttached run.participant.ports }
    ensures ok { OnOk result (WroteAll
        (text_by C.text_of C.decoding run.participant.engine run.summary)
        (R.remaining reader.old) (W.contents writer.old) (W.contents writer.new) None) }
    ensures fault { IfErr result (λ fault. Stops
        (text_by C.text_of C.decoding run.participant.engine run.summary)
        fault (R.remaining reader.old) (R.remaining reader.new)
        (W.contents writer.old) (W.contents writer.new)) }
{
    let pipeline = Pipeline::new(run.alloc, run.pace)?;
    let printer = Printer::new(catalog, &run);
    run_file(rt, Sink::Lines { run, printer }, pipeline, reader, writer)
}
