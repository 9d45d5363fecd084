//! Printing a run over datagrams as they are received.

ghost use Rattle.std.specs.Prelude.{◌≡◌, []};
ghost use Rattle.rtps_run.specs.BatchOutput.{HoldsNothing};
ghost use Rattle.rtps_text.specs.Live.{IsLive, live_by};
ghost use Rattle.rtps_text.specs.Listened.{Listened, limits_of, live_run};
ghost use Rattle.rtps_text.specs.Replayed.{HasSaid};

use crate::live::Live;
use crate::live_fault::LiveFault;
use crate::running::RunLines;
use crate::setup::{LiveSetup, Setup};
use dds_topic::TextCatalog;
use rtps_records::{Exchange, Lines, ReceiveEnd, RunFault};
use std::alloc::Global;
use std::io::Write;
use std::thread::Threads;

/// Receives datagrams, has the readers of a configuration process them as they come, sends the
/// answers, each once to each of its locators, and writes the lines that [`replay`](crate::replay)
/// writes for the same datagrams in a file with their moments. With `summary` the matches and the
/// status of each reader follow at the end, also if no more datagrams can be received.
///
/// After each wait the clock is read. Its moment passes first, as a tick of a file does, so that
/// the matches of participants that fell silent end also while no datagram comes. The datagrams
/// that are received until the next wait came at this moment. The answers to them are sent first,
/// so that a slow writer delays none of them. Then their lines are written and flushed, before more
/// datagrams are received.
///
/// The run ends after the number of datagrams in `setup`, or after its number of waits. Before each
/// wait, all datagrams that came were received and answered.
///
/// Returns [`LiveFault::Socket`] if the network fails while waiting or receiving. The datagrams
/// before that are answered, and their lines are written, and the summary too. Returns
/// [`LiveFault::Run`] with `CannotWrite` if a write fails, which happens after the answers to all
/// received datagrams were sent, and with `NoMemory` if memory runs out. In both cases a prefix of
/// the text may have been written by then.
pub fn listen<C: TextCatalog, N: Exchange, W: Write, T: Threads + Sync>(
    rt: &T,
    alloc: Global,
    setup: LiveSetup<C>,
    network: &mut N,
    writer: &mut W,
) -> Result<(), LiveFault>
where
    C::Value: Sync,
    ensures prints { Listened
        (live_run (C.text_of setup.run.catalog) (C.decoding setup.run.catalog)
        setup.run.config setup.run.summary)
        (limits_of setup.datagrams setup.turns) result
        (N.traffic network.old) (N.traffic network.new)
        (W.contents writer.old) (W.contents writer.new) }
    ensures speech { N.speech network.new ≡ N.speech network.old }
{
    let LiveSetup {
        run,
        datagrams,
        turns,
    } = setup;
    let Setup {
        config,
        catalog,
        summary,
        pace,
    } = run;
    let catalog = &catalog;
    let lent = Setup {
        config,
        catalog,
        summary,
        pace,
    };
    let Ok(run) = RunLines::new(alloc, lent) else {
        return Err(LiveFault::Run(RunFault::NoMemory));
    };
    let Ok(live) = Live::new(run, &catalog, datagrams) else {
        return Err(LiveFault::Run(RunFault::NoMemory));
    };
    print_live(rt, live, turns, network, writer)
}

/// Prints a run that has processed no datagram yet, over the datagrams that are received after at
/// most `turns` waits.
fn print_live<C: TextCatalog, N: Exchange, W: Write, T: Threads + Sync>(
    rt: &T,
    live: Live<'_, C>,
    turns: u32,
    network: &mut N,
    writer: &mut W,
) -> Result<(), LiveFault>
where
    C::Value: Sync,
    requires live { IsLive live }
    requires fresh { HasSaid C.text_of C.decoding [] [] live.run.participant.engine }
    requires unread { live.moment ≡ 0 }
    ensures prints { Listened
        (live_by C.text_of C.decoding live.entry.run.participant.engine live.entry.run.summary)
        (limits_of live.entry.left turns) result (N.traffic network.old) (N.traffic network.new)
        (W.contents writer.old) (W.contents writer.new) }
    ensures speech { N.speech network.new ≡ N.speech network.old }
{
    let mut lines = Lines::new(live.run.alloc, writer);
    print_turns(rt, live, turns, network, &mut lines)
}

/// Prints the lines of such a run, and then its summary if it is asked for.
fn print_turns<C: TextCatalog, N: Exchange, W: Write, T: Threads + Sync>(
    rt: &T,
    mut live: Live<'_, C>,
    turns: u32,
    network: &mut N,
    lines: &mut Lines<'_, W>,
) -> Result<(), LiveFault>
where
    C::Value: Sync,
    requires live { IsLive live }
    requires fresh { HasSaid C.text_of C.decoding [] [] live.run.participant.engine }
    requires unread { live.moment ≡ 0 }
    requires empty { lines.old.text.items ≡ [] }
    ensures same_writer { lines.new.writer.ghost_name ≡ lines.old.writer.ghost_name }
    ensures speech { N.speech network.new ≡ N.speech network.old }
    ensures prints { Listened
        (live_by C.text_of C.decoding live.entry.run.participant.engine live.entry.run.summary)
        (limits_of live.entry.left turns) result (N.traffic network.old) (N.traffic network.new)
        (W.contents lines.old.writer.now) (W.contents lines.new.writer.now) }
{
    let end = live.take_turns(rt, turns, network, lines)?;
    live.run.close(lines)?;
    match end {
        ReceiveEnd::Fault => Err(LiveFault::Socket),
        _ => Ok(()),
    }
}
