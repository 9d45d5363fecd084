//! A run over datagrams as they are received, a batch at a time.

ghost use Rattle.std.specs.Prelude.{◌≡◌, ◌<◌, ◌≤◌, [], IfErr, IfOk, OnOk, length, min};
ghost use Rattle.rtps_records.specs.Batches.{records_in};
ghost use Rattle.rtps_records.specs.declared.receive_end.ReceiveEnd.TheVariants.{More};
ghost use Rattle.dds_participant.specs.Ports.{NoneAttached};
ghost use Rattle.rtps_text.specs.Live.{BreaksOff, GoesOn, IsLive, PassStops, PassesOn, Processes, StopsShort, TakesTurns, TurnsStop};
ghost use Rattle.rtps_text.specs.Batched.{IsSameRun};
ghost use Rattle.rtps_text.specs.Replayed.{HasSaid};

use crate::printing::print_items;
use crate::running::RunLines;
use crate::sending::send_answers;
use dds_topic::TextCatalog;
use rtps_records::{Batch, Exchange, Lines, ReceiveEnd, RunFault};
use std::alloc::AllocError;
use std::io::Write;
use std::thread::Threads;

/// A run over datagrams as they are received.
#[derive(Drop)]
pub(crate) struct Live<'c, C: TextCatalog> {
    pub run: RunLines<C>,
    /// The catalog that formats the values.
    pub catalog: &'c C,
    /// The batch that was received last.
    batch: Batch,
    /// The number of datagrams that may still be received.
    pub left: u32,
    /// The moment that the clock gave last, in milliseconds; 0 before it is read.
    pub moment: u64,
}

impl<'c, C: TextCatalog> Live<'c, C>
where
    C::Value: Sync,
{
    /// Returns a run that receives at most `datagrams` datagrams, and has received none yet. The
    /// catalog, which is the run's own, formats its values.
    pub(crate) fn new(
        run: RunLines<C>,
        catalog: &'c C,
        datagrams: u32,
    ) -> Result<Live<'c, C>, AllocError>
        requires own { catalog.now ≡ run.participant.engine.catalog }
        requires fresh { HasSaid C.text_of C.decoding [] [] run.participant.engine }
        requires alone { NoneAttached run.participant.ports }
        ensures run { IfOk result (λ live. live.run ≡ run) }
        ensures left { IfOk result (λ live. live.left ≡ datagrams) }
        ensures moment { IfOk result (λ live. live.moment ≡ 0) }
        ensures live { IfOk result IsLive }
    {
        let batch = Batch::new(run.alloc)?;
        Ok(Live {
            run,
            catalog,
            batch,
            left: datagrams,
            moment: 0,
        })
    }

    /// Returns the maximum number of datagrams in the next batch.
    fn most(&self) -> u16
        requires { 0 < self.now.left }
        ensures some { 1 ≤ result }
        ensures few { result ≤ 4096 }
        ensures left { result ≤ self.now.left }
        ensures value { result ≡ min self.now.left self.now.run.pace.batch }
    {
        if self.left < u32::from(self.run.pace.batch) {
            self.left as u16
        } else {
            self.run.pace.batch
        }
    }

    /// Has the readers process the batch, sends the answers, and writes the lines. The answers are
    /// sent first, so that a slow writer delays none of them.
    ///
    /// Returns `CannotWrite` if a write fails, which happens after the answers were sent, and
    /// `NoMemory` if memory runs out. A prefix of the lines may have been written by then.
    fn process<N: Exchange, W: Write, T: Threads + Sync>(
        &mut self,
        rt: &T,
        network: &mut N,
        lines: &mut Lines<'_, W>,
    ) -> Result<(), RunFault>
        requires live { IsLive self.old }
        requires few { length (records_in self.old.batch) ≤ 4096 }
        requires empty { lines.old.text.items ≡ [] }
        ensures same_writer { lines.new.writer.ghost_name ≡ lines.old.writer.ghost_name }
        ensures speech { N.speech network.new ≡ N.speech network.old }
        ensures live { OnOk result (IsLive self.new) }
        ensures empty { OnOk result (lines.new.text.items ≡ []) }
        ensures same { OnOk result (IsSameRun self.old.run self.new.run) }
        ensures left { self.new.left ≡ self.old.left }
        ensures moment { self.new.moment ≡ self.old.moment }
        ensures processes { OnOk result (Processes C.text_of C.view C.decoding
            (records_in self.old.batch) self.old self.new
            (N.traffic network.old) (N.traffic network.new)
            (W.contents lines.old.writer.now) (W.contents lines.new.writer.now)) }
        ensures stops { IfErr result (λ fault. BreaksOff C.text_of C.view C.decoding
            (records_in self.old.batch) self.old self.new fault
            (N.traffic network.old) (N.traffic network.new)
            (W.contents lines.old.writer.now) (W.contents lines.new.writer.now)) }
    {
        self.run.take_records(rt, &self.batch)?;
        let (alloc, given) = (self.run.alloc, &self.run.given);
        send_answers(alloc, network, given)?;
        print_items(alloc, lines, self.catalog, given)?;
        lines.close()?;
        lines.text.clear();
        Ok(())
    }

    /// Has the readers process a tick at the moment at which a wait ended: the matches with writers
    /// that are gone end, and the lines of this are written.
    ///
    /// Returns what [`Live::take`] returns.
    fn pass<N: Exchange, W: Write, T: Threads + Sync>(
        &mut self,
        rt: &T,
        moment: u64,
        network: &mut N,
        lines: &mut Lines<'_, W>,
    ) -> Result<(), RunFault>
        requires live { IsLive self.old }
        requires empty { lines.old.text.items ≡ [] }
        ensures same_writer { lines.new.writer.ghost_name ≡ lines.old.writer.ghost_name }
        ensures speech { N.speech network.new ≡ N.speech network.old }
        ensures live { OnOk result (IsLive self.new) }
        ensures empty { OnOk result (lines.new.text.items ≡ []) }
        ensures same { OnOk result (IsSameRun self.old.run self.new.run) }
        ensures left { self.new.left ≡ self.old.left }
        ensures goes_on { OnOk result (PassesOn C.text_of C.decoding moment self.old self.new
            (N.traffic network.old) (N.traffic network.new)
            (W.contents lines.old.writer.now) (W.contents lines.new.writer.now)) }
        ensures stops { IfErr result (λ fault. PassStops C.text_of C.decoding moment self.old fault
            (N.traffic network.old) (N.traffic network.new)
            (W.contents lines.old.writer.now) (W.contents lines.new.writer.now)) }
    {
        self.moment = moment;
        self.batch.hold_tick(moment);
        self.process(rt, network, lines)
    }

    /// Receives the datagrams that have come, at most one batch, and has the readers process them,
    /// as [`Live::process`] does. All of them came at the moment that the clock gave last.
    ///
    /// Returns `CannotWrite` if a write fails, which happens after the answers were sent, and
    /// `NoMemory` if memory runs out. A prefix of the lines may have been written by then.
    fn take<N: Exchange, W: Write, T: Threads + Sync>(
        &mut self,
        rt: &T,
        network: &mut N,
        lines: &mut Lines<'_, W>,
    ) -> Result<ReceiveEnd, RunFault>
        requires live { IsLive self.old }
        requires some { 0 < self.old.left }
        requires empty { lines.old.text.items ≡ [] }
        ensures same_writer { lines.new.writer.ghost_name ≡ lines.old.writer.ghost_name }
        ensures speech { N.speech network.new ≡ N.speech network.old }
        ensures live { OnOk result (IsLive self.new) }
        ensures empty { OnOk result (lines.new.text.items ≡ []) }
        ensures same { OnOk result (IsSameRun self.old.run self.new.run) }
        ensures goes_on { IfOk result (λ end. GoesOn C.text_of C.decoding self.old self.new
            (N.traffic network.old) (N.traffic network.new)
            (W.contents lines.old.writer.now) (W.contents lines.new.writer.now) end) }
        ensures fewer { IfOk result (λ end. end ≡ More → self.new.left < self.old.left) }
        ensures stops { IfErr result (λ fault. StopsShort C.text_of C.decoding self.old fault
            (N.traffic network.old) (N.traffic network.new)
            (W.contents lines.old.writer.now) (W.contents lines.new.writer.now)) }
    {
        let most = self.most();
        let end = self.batch.receive(network, self.moment, most)?;
        self.left -= self.batch.len() as u32;
        self.process(rt, network, lines)?;
        Ok(end)
    }

    /// Receives and processes batches until all datagrams that came are received, or the network
    /// fails, or no more datagrams may be received, in which case it returns [`ReceiveEnd::More`].
    fn take_all<N: Exchange, W: Write, T: Threads + Sync>(
        &mut self,
        rt: &T,
        network: &mut N,
        lines: &mut Lines<'_, W>,
    ) -> Result<ReceiveEnd, RunFault>
        requires live { IsLive self.old }
        requires empty { lines.old.text.items ≡ [] }
        ensures same_writer { lines.new.writer.ghost_name ≡ lines.old.writer.ghost_name }
        ensures speech { N.speech network.new ≡ N.speech network.old }
        ensures live { OnOk result (IsLive self.new) }
        ensures empty { OnOk result (lines.new.text.items ≡ []) }
        ensures same { OnOk result (IsSameRun self.old.run self.new.run) }
        ensures goes_on { IfOk result (λ end. GoesOn C.text_of C.decoding self.old self.new
            (N.traffic network.old) (N.traffic network.new)
            (W.contents lines.old.writer.now) (W.contents lines.new.writer.now) end) }
        ensures all { IfOk result (λ end. end ≡ More → self.new.left ≡ 0) }
        ensures stops { IfErr result (λ fault. StopsShort C.text_of C.decoding self.old fault
            (N.traffic network.old) (N.traffic network.new)
            (W.contents lines.old.writer.now) (W.contents lines.new.writer.now)) }
    {
        while self.left > 0 {
            let end = self.take(rt, network, lines)?;
            if end != ReceiveEnd::More {
                return Ok(end);
            }
        }
        Ok(ReceiveEnd::More)
    }

    /// Waits for datagrams at most `turns` times. Each time the moment that the clock gives passes,
    /// and then all datagrams that have come are received and processed. Stops before that if no
    /// more datagrams may be received or the network fails.
    pub(crate) fn take_turns<N: Exchange, W: Write, T: Threads + Sync>(
        &mut self,
        rt: &T,
        turns: u32,
        network: &mut N,
        lines: &mut Lines<'_, W>,
    ) -> Result<ReceiveEnd, RunFault>
        requires live { IsLive self.old }
        requires empty { lines.old.text.items ≡ [] }
        ensures same_writer { lines.new.writer.ghost_name ≡ lines.old.writer.ghost_name }
        ensures speech { N.speech network.new ≡ N.speech network.old }
        ensures live { OnOk result (IsLive self.new) }
        ensures empty { OnOk result (lines.new.text.items ≡ []) }
        ensures same { OnOk result (IsSameRun self.old.run self.new.run) }
        ensures takes { IfOk result (λ end. TakesTurns C.text_of C.decoding turns end
            self.old self.new (N.traffic network.old) (N.traffic network.new)
            (W.contents lines.old.writer.now) (W.contents lines.new.writer.now)) }
        ensures stops { IfErr result (λ fault. TurnsStop C.text_of C.decoding turns self.old fault
            (N.traffic network.old) (N.traffic network.new)
            (W.contents lines.old.writer.now) (W.contents lines.new.writer.now)) }
    {
        let mut end = ReceiveEnd::Drained;
        for _turn in 0..turns {
            if self.left == 0 {
                return Ok(end);
            }
            let moment = match network.wait() {
                Ok(moment) => moment,
                Err(_) => return Ok(ReceiveEnd::Fault),
            };
            self.pass(rt, moment, network, lines)?;
            end = self.take_all(rt, network, lines)?;
            match end {
                ReceiveEnd::Fault => return Ok(end),
                _ => {}
            }
        }
        Ok(end)
    }
}
