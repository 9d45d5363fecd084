//! A run over a record file, with any sink.

ghost use Rattle.std.specs.Prelude.{◌≡◌, [], IfErr, None, OnOk};
ghost use Rattle.rtps_records.specs.Runs.{WroteAll};
ghost use Rattle.rtps_records.specs.declared.batch_end.BatchEnd.TheVariants.{More};
ghost use Rattle.rtps_text.specs.Sink.{IsTaken, is_late, sink_text};
ghost use Rattle.rtps_text.specs.Taken.{StopsBy};

use crate::pipeline::Pipeline;
use crate::sink::Sink;
use dds_topic::TextCatalog;
use rtps_records::{BatchEnd, Lines, Records, RunFault};
use std::io::{Read, Write};
use std::thread::Threads;

/// Reads a record file up to its end or its first fault, batch after batch, and has the sink
/// process the batches. Then the sink prints the rest of the text, also if a record has a fault.
/// Nothing was read or processed before.
///
/// The file is never in memory as a whole: only the records of two batches are, at most 1 MiB each.
pub(crate) fn run_file<C: TextCatalog, R: Read + Send, W: Write + Send, T: Threads + Sync>(
    rt: &T,
    sink: Sink<'_, C>,
    pipeline: Pipeline,
    reader: &mut R,
    writer: &mut W,
) -> Result<(), RunFault>
where
    C::Value: Sync,
    requires more { pipeline.ahead.end ≡ More }
    requires begun { IsTaken C.text_of C.view C.decoding sink
        pipeline.ahead.text.items [] [] }
    ensures ok { OnOk result (WroteAll (sink_text C.text_of C.decoding sink.entry)
        (R.remaining reader.old) (W.contents writer.old) (W.contents writer.new) None) }
    ensures fault { IfErr result (λ fault. StopsBy (is_late sink.entry)
        (sink_text C.text_of C.decoding sink.entry)
        fault (R.remaining reader.old) (R.remaining reader.new)
        (W.contents writer.old) (W.contents writer.new)) }
{
    let mut lines = Lines::new(pipeline.alloc, writer);
    take_all(rt, sink, pipeline, &mut Records::new(reader), &mut lines)
}

/// Has the sink process all records and print the rest of the text. The next batch is read while
/// the sink processes one, or right after that.
fn take_all<C: TextCatalog, R: Read + Send, W: Write + Send, T: Threads + Sync>(
    rt: &T,
    mut sink: Sink<'_, C>,
    mut pipeline: Pipeline,
    records: &mut Records<'_, R>,
    lines: &mut Lines<'_, W>,
) -> Result<(), RunFault>
where
    C::Value: Sync,
    requires unread { records.old.count ≡ 0 }
    requires empty { lines.old.text.items ≡ [] }
    requires more { pipeline.ahead.end ≡ More }
    requires begun { IsTaken C.text_of C.view C.decoding sink
        pipeline.ahead.text.items [] [] }
    ensures same_reader { records.new.reader.ghost_name ≡ records.old.reader.ghost_name }
    ensures same_writer { lines.new.writer.ghost_name ≡ lines.old.writer.ghost_name }
    ensures ok { OnOk result (WroteAll (sink_text C.text_of C.decoding sink.entry)
        (R.remaining records.old.reader.now)
        (W.contents lines.old.writer.now) (W.contents lines.new.writer.now) None) }
    ensures fault { IfErr result (λ fault. StopsBy (is_late sink.entry)
        (sink_text C.text_of C.decoding sink.entry)
        fault (R.remaining records.old.reader.now) (R.remaining records.new.reader.now)
        (W.contents lines.old.writer.now) (W.contents lines.new.writer.now)) }
{
    records.open()?;
    pipeline.ahead.read(records)?;
    while pipeline.ahead.goes_on() {
        sink = sink.take_and_read(rt, &mut pipeline, records, lines)?;
    }
    let end = pipeline.ahead.end;
    sink = sink.take_and_read(rt, &mut pipeline, records, lines)?;
    if let Err(fault) = sink.close(&mut pipeline.ahead.text, lines) {
        return Err(fault.after(end));
    }
    match end {
        BatchEnd::Fault(fault) => Err(fault),
        _ => Ok(()),
    }
}
