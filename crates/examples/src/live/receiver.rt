//! The receiving thread.

ghost use Rattle.std.specs.Prelude.{◌≡◌, IfOk};

use super::peer::WRITER;
use super::{DOMAIN, SQUARES};
use anyhow::{Result, bail};
use std::alloc::Global;
use std::sync::Wait;
use std::sync::atomic::{AtomicBool, Ordering};
use std::thread::Threads;
use thrushpodium::{
    Batch, BatchOutput, Config, EntityId, Exchange, GuidPrefix, Locator, Locators, Machine, NoGate,
    Outlet, Participant, ReceiveEnd, Shape, Shapes, Sockets, StatusBoard, Subscription, Told,
    Workers, is_batch, send_answers,
};

/// The sockets of a participant with one reader, of the topic `Square`, and what is received and
/// sent in a turn.
#[derive(Drop)]
pub struct Receiver<'a> {
    network: Sockets<Machine<'a, HostRuntime, HostRuntime>>,
    participant: Participant<Shapes>,
    batch: Batch,
    given: BatchOutput<Shape>,
}

impl<'a> Receiver<'a> {
    /// Returns a receiver whose reader has a fixed match with the peer's writer, sends its answers
    /// to the peer's locator, and reports to an outlet. The host has the sockets and the clock.
    pub fn bind(
        host: &'a HostRuntime,
        outlet: Outlet<Shape>,
        peer: Locator,
    ) -> Result<Receiver<'a>> {
        let alloc = host.alloc();
        let participant = participant(alloc, outlet, peer)?;
        let network = Sockets::bind(host, host, alloc, DOMAIN)?;
        Ok(Receiver {
            network,
            participant,
            batch: Batch::new(alloc)?,
            given: BatchOutput::new(alloc),
        })
    }

    /// Receives until `done` is set. The datagrams that have come are a batch: the reader processes
    /// it, its answers are sent, its notices are delivered, and its status is published. Returns
    /// all that was published, for another thread to learn.
    pub fn run<R: Threads + Wait + Sync>(
        &mut self,
        rt: &R,
        alloc: Global,
        board: &mut StatusBoard,
        done: &AtomicBool,
    ) -> Result<Told>
        ensures { IfOk result (λ published. published.board ≡ board.old.board) }
    {
        let mut end = ReceiveEnd::Drained;
        let mut moment = 0;
        for _ in rt.forever() {
            if done.load(Ordering::SeqCst) {
                break;
            }
            // After a full batch more datagrams may be there already, so it doesn't wait then.
            if end != ReceiveEnd::More {
                moment = self.network.wait()?;
            }
            end = self.batch.receive(&mut self.network, moment, 256)?;
            if end == ReceiveEnd::Fault {
                bail!("no datagram can be received");
            }
            self.process(rt, alloc)?;
            if let Err(fault) = self.participant.publish(rt, alloc, board) {
                bail!("the status isn't published: {fault:?}");
            }
        }
        Ok(board.tell())
    }

    /// Has the reader process the batch, sends its answers, and delivers its notices.
    fn process<R: Threads + Sync>(&mut self, rt: &R, alloc: Global) -> Result<()> {
        let workers = Workers {
            count: 2,
            gate: &NoGate,
        };
        let datagrams = self.batch.datagrams(alloc)?;
        if !is_batch(&datagrams) {
            bail!("these are too many datagrams, or one is too long");
        }
        self.participant
            .run_in_order(rt, alloc, &workers, &datagrams, &mut self.given)?;
        send_answers(alloc, &mut self.network, &self.given)?;
        // Notices that the ring has no room for are delivered in a later turn.
        self.participant.deliver(SQUARES);
        Ok(())
    }
}

fn participant(alloc: Global, outlet: Outlet<Shape>, peer: Locator) -> Result<Participant<Shapes>> {
    let mut participant = Participant::new(alloc, config(alloc, peer)?, Shapes)?;
    if let Err((_outlet, fault)) = participant.attach(SQUARES, outlet) {
        bail!("the outlet isn't attached: {fault:?}");
    }
    Ok(participant)
}

fn config(alloc: Global, peer: Locator) -> Result<Config> {
    let mut config = Config::new(alloc, GuidPrefix([0x0b; 12]));
    let entity = EntityId([0, 0, 1, 7]);
    let squares = Subscription::topic(alloc, entity, "Square", "ShapeType")?.reliable();
    config.add_reader(squares.reader)?;
    config.add_fixed(SQUARES, WRITER, Locators::one(alloc, peer))?;
    Ok(config)
}
