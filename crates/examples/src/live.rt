//! A live receiver. One thread receives the datagrams of a domain, processes them with a reader,
//! and sends its answers. A second thread takes the reader's samples at its own pace, as an
//! application does. A third one watches the reader's status. A peer on loopback, here a thread
//! too, sends three samples, the second of them last.

ghost use Rattle.std.specs.Prelude.{◌≡◌};

mod peer;
mod receiver;

use anyhow::{Result, bail};
use peer::Peer;
use receiver::Receiver;
use std::alloc::Global;
use std::net::Net;
use std::sync::Wait;
use std::sync::atomic::{AtomicBool, Ordering};
use std::thread::{self, Threads};
use std::time::{Clock, Duration};
use thrushpodium::{
    Condition, Content, DataReader, History, Inlet, Shape, StatusBoard, StatusReader, Taken, Told,
    outlet,
};

/// A domain of its own, so that the program runs beside others.
const DOMAIN: u16 = 101;

/// The rank of the reader of squares, which is the only reader.
const SQUARES: u32 = 0;

/// The number of samples that the peer sends.
const SAMPLES: u32 = 3;

/// The greatest number of times that a thread looks for something new, which takes half a minute.
const LOOKS: u32 = 3_000;

/// Runs the threads until the application has all samples, and prints the last status. The host has
/// the sockets of the receiver, and its clock.
pub fn run<R: Threads + Wait + Net + Clock + Print + Sync>(
    rt: &R,
    host: &HostRuntime,
) -> Result<()> {
    // A board with the status of one reader, for one thread that looks at it.
    let mut board = StatusBoard::new(rt, host.alloc(), 1, 1)?;
    let outcome = run_with_board(rt, host, &mut board);
    board.end(rt);
    outcome
}

fn run_with_board<R: Threads + Wait + Net + Clock + Print + Sync>(
    rt: &R,
    host: &HostRuntime,
    board: &mut StatusBoard,
) -> Result<()> {
    let Some(watch) = board.reader() else {
        bail!("no place is free at the board");
    };
    let application = Application::new(rt, host)?;
    application.run_threads(rt, host.alloc(), board, watch)
}

/// What the threads work with: the receiver, the application's end of the ring, and the peer.
#[derive(Drop)]
struct Application<'a> {
    receiver: Receiver<'a>,
    inlet: Inlet<Shape>,
    peer: Peer,
}

impl<'a> Application<'a> {
    fn new(net: &impl Net, host: &'a HostRuntime) -> Result<Application<'a>> {
        let peer = Peer::bind(net)?;
        let (outlet, inlet) = outlet(host.alloc(), 64)?;
        let receiver = Receiver::bind(host, outlet, peer.locator()?)?;
        Ok(Application {
            receiver,
            inlet,
            peer,
        })
    }

    fn run_threads<R: Threads + Wait + Net + Clock + Print + Sync>(
        self,
        rt: &R,
        alloc: Global,
        board: &mut StatusBoard,
        watch: StatusReader,
    ) -> Result<()>
        requires { watch.board ≡ board.old.board }
    {
        let Application {
            mut receiver,
            mut inlet,
            peer,
        } = self;
        let done = AtomicBool::new(false);
        let receive = || receiver.run(rt, alloc, board, &done);
        let show = || show_samples(rt, alloc, &mut inlet);
        let send = || peer.send_squares();
        let supervise = || look_until_presented(rt, watch, &done);
        // The first three run on threads of their own, and the last one on this thread.
        let (published, (shown, (sent, watch))) = thread::join(rt, receive, || {
            thread::join(rt, show, || thread::join(rt, send, supervise))
        });
        sent?;
        shown?;
        show_status(rt, watch, published?)
    }
}

/// Prints the samples as they come.
fn show_samples<R: Print + Clock>(rt: &R, alloc: Global, inlet: &mut Inlet<Shape>) -> Result<()> {
    // Keeps three samples of each square: all that the peer sends, however late they are pulled.
    let mut squares = DataReader::new(alloc, History::KeepLast(SAMPLES));
    let mut shown = 0_u32;
    for _ in 0..LOOKS {
        shown = shown.saturating_add(show_new(rt, alloc, &mut squares, inlet)?);
        if shown >= SAMPLES {
            return Ok(());
        }
        pause(rt);
    }
    bail!("only {shown} samples came")
}

/// Pulls what has come into the cache, and prints what is new there. Returns how many these are.
fn show_new(
    rt: &impl Print,
    alloc: Global,
    squares: &mut DataReader<Shape>,
    inlet: &mut Inlet<Shape>,
) -> Result<u32> {
    let unread = Condition {
        not_read: true,
        ..Condition::default()
    };
    squares.pull(alloc, inlet)?;
    let mut shown = 0_u32;
    for sample in &squares.take(alloc, 100, unread)? {
        show_sample(rt, sample)?;
        shown = shown.saturating_add(1);
    }
    Ok(shown)
}

fn show_sample(rt: &impl Print, sample: &Taken<Shape>) -> Result<()> {
    let number = sample.number;
    match &sample.body {
        Content::Value(shape) => {
            let color = shape.color.as_str();
            println!(rt; "{number}: {color} at {} {}", shape.x, shape.y)?;
        }
        Content::Disposed => println!(rt; "{number}: disposed")?,
    }
    Ok(())
}

/// Looks at the reader's status until all samples were presented, and then ends the receiver.
fn look_until_presented(rt: &impl Clock, mut watch: StatusReader, done: &AtomicBool) -> StatusReader
    ensures { result.board ≡ watch.board }
{
    for _ in 0..LOOKS {
        match watch.look(SQUARES) {
            Some(look) if look.status.samples >= SAMPLES => break,
            _ => pause(rt),
        }
    }
    done.store(true, Ordering::SeqCst);
    watch
}

/// Prints the last status.
fn show_status(rt: &impl Print, mut watch: StatusReader, published: Told) -> Result<()>
    requires { published.board ≡ watch.board }
{
    // From here on, no look shows a row older than the last one that was published.
    watch.learn(published);
    let Some(look) = watch.look(SQUARES) else {
        bail!("the board shows no status");
    };
    let (matched, samples) = (look.status.matched_now, look.status.samples);
    let lost = look.status.lost_total;
    println!(rt; "matched {matched}, samples {samples}, lost {lost}")?;
    Ok(())
}

fn pause(clock: &impl Clock) {
    thread::sleep(clock, Duration::from_millis(10));
}
