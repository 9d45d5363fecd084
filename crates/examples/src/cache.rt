//! An application that reads and takes by conditions. It runs a reader of squares over a record
//! file, keeps the last two samples of each square in a cache, and reads what is new after each
//! batch. In the end it takes the samples of squares that are alive, and then the others.
//!
//! In the file `data/squares` participant 0a.. sends two blue squares and a red one, and participant 0c.. a green
//! one; they are a batch. Then 0a.. sends a third blue square, and disposes the red one. Last comes
//! a moment at which the lease of 0c.. has run out. So by DDS 1.4, 2.2.2.5.1, what is printed says:
//!
//! - An entry is `NotRead` in the first read that returns it, and `Read` from then on. A square is
//!   `New` up to that read too: when the third blue square comes, blue isn't new any more.
//! - The third blue square displaces the first one, of three that would be kept.
//! - Blue is `Alive`, red was `Disposed`, and green has `NoWriters` left.
//! - One of two matches is left. Six changes were presented, and none was lost.

use anyhow::{Result, bail};
use std::alloc::{AllocError, Global};
use std::fs::File;
use std::thread::Threads;
use thrushpodium::{
    Answers, Batch, BatchEnd, Condition, Config, Content, DataReader, EntityId, GuidPrefix,
    History, NoGate, Outcome, Participant, ReaderConfig, Records, Seen, Shape, Shapes,
    Subscription, is_batch,
};

/// Prints what is read and taken of the record file of this name.
pub fn run<R: Threads + Sync>(rt: &R, host: &HostRuntime, file: &str) -> Result<()> {
    let mut receiver = Receiver::new(host.alloc())?;
    read_file(rt, host, &mut receiver, file)?;
    read_and_take(host, &mut receiver.cache)?;
    show_status(host, &receiver.participant)
}

fn read_file<R: Threads + Sync>(
    rt: &R,
    host: &HostRuntime,
    receiver: &mut Receiver,
    file: &str,
) -> Result<()> {
    let mut batch = Batch::new(host.alloc())?;
    let mut input = File::open(host, file)?;
    let mut records = Records::new(&mut input);
    read_batches(rt, host, receiver, &mut records, &mut batch)
}

/// Has the receiver take the batches of a file, and reads what is new after each of them.
fn read_batches<R: Threads + Sync>(
    rt: &R,
    host: &HostRuntime,
    receiver: &mut Receiver,
    records: &mut Records<'_, File>,
    batch: &mut Batch,
) -> Result<()> {
    let alloc = host.alloc();
    records.open()?;
    for _ in 0..u64::MAX {
        let end = records.next_batch(batch, 4)?;
        receiver.receive(rt, alloc, batch)?;
        read_new(host, &mut receiver.cache)?;
        match end {
            BatchEnd::More => {}
            BatchEnd::Tick(moment) => receiver.pass(alloc, moment)?,
            BatchEnd::End => break,
            BatchEnd::Fault(fault) => bail!("{fault}"),
        }
    }
    Ok(())
}

/// Reads what is new: it stays in the cache, and isn't new the next time.
fn read_new(host: &HostRuntime, cache: &mut DataReader<Shape>) -> Result<()> {
    let alloc = host.alloc();
    let unread = Condition {
        not_read: true,
        ..Condition::default()
    };
    let seen = cache.read(alloc, 100, unread)?;
    show_seen(host, seen)
}

/// Reads all that is there, and takes it: first the samples of squares that are alive, then those
/// of squares that were disposed, or that have no writer any more.
fn read_and_take(host: &HostRuntime, cache: &mut DataReader<Shape>) -> Result<()> {
    let seen = cache.read(host.alloc(), 100, Condition::default())?;
    show_seen(host, seen)?;
    let alive = Condition {
        alive: true,
        ..Condition::default()
    };
    take(host, cache, alive)?;
    take(host, cache, Condition::default())
}

/// A participant with one reader, and the cache of that reader.
#[derive(Drop)]
struct Receiver {
    participant: Participant<Shapes>,
    cache: DataReader<Shape>,
}

impl Receiver {
    fn new(alloc: Global) -> Result<Receiver> {
        let squares = Subscription::topic(alloc, EntityId([0, 0, 1, 7]), "Square", "ShapeType")?
            .reliable()
            .history(History::KeepLast(2));
        let cache = squares.cache(alloc);
        let participant = participant(alloc, squares.reader)?;
        Ok(Receiver { participant, cache })
    }

    /// Receives the datagrams of a batch.
    fn receive<R: Threads + Sync>(&mut self, rt: &R, alloc: Global, batch: &Batch) -> Result<()> {
        let datagrams = batch.datagrams(alloc)?;
        if !is_batch(&datagrams) {
            bail!("these are too many datagrams, or one is too long");
        }
        let outcome = self
            .participant
            .run_batch(rt, alloc, &NoGate, &datagrams, 1)?;
        self.accept(alloc, outcome)
    }

    /// Has time pass up to a moment at which no datagram came.
    fn pass(&mut self, alloc: Global, moment: u64) -> Result<()> {
        let outcome = self.participant.tick(alloc, moment)?;
        self.accept(alloc, outcome)
    }

    /// Puts what the reader reports into the cache. Nobody is there to be sent the answers.
    fn accept(&mut self, alloc: Global, outcome: Outcome<Shape>) -> Result<()> {
        for notice in outcome.notices.into_iter().flatten() {
            self.cache.accept(alloc, notice).map_err(AllocError::from)?;
        }
        Ok(())
    }
}

fn participant(alloc: Global, reader: ReaderConfig) -> Result<Participant<Shapes>> {
    let mut config = Config::new(alloc, GuidPrefix([0x0b; 12]));
    config.add_reader(reader)?;
    Ok(Participant::new(alloc, config, Shapes)?)
}

fn show_seen(rt: &impl Print, seen: &Answers<Shape>) -> Result<()> {
    for at in 0..seen.len() {
        let Some(sample) = seen.get(at) else {
            return Ok(());
        };
        show_sample(rt, &sample)?;
    }
    Ok(())
}

/// Prints an entry with its states before the read: its own, that of the view, and that of the
/// instance.
fn show_sample(rt: &impl Print, sample: &Seen<'_, Shape>) -> Result<()> {
    print!(rt; "read {} {} ", sample.writer, sample.number)?;
    match sample.body {
        Content::Value(shape) => {
            print!(rt; "{} at {} {}", shape.color.as_str(), shape.x, shape.y)?;
        }
        Content::Disposed => print!(rt; "disposed")?,
    }
    let (view, instance) = (sample.view, sample.instance);
    println!(rt; ", {:?} {view:?} {instance:?}", sample.sample)?;
    Ok(())
}

/// Takes entries, and prints which were taken, and the states of their instances before.
fn take(host: &HostRuntime, cache: &mut DataReader<Shape>, condition: Condition) -> Result<()> {
    for sample in &cache.take(host.alloc(), 100, condition)? {
        let (writer, number, instance) = (sample.writer, sample.number, sample.instance);
        println!(host; "take {writer} {number}, {instance:?}")?;
    }
    Ok(())
}

fn show_status(rt: &impl Print, participant: &Participant<Shapes>) -> Result<()> {
    let Some(status) = participant.status(0) else {
        bail!("there is no reader of rank 0");
    };
    let (now, total) = (status.matched_now, status.matched_total);
    let (samples, lost) = (status.samples, status.lost_total);
    println!(rt; "matched {now} of {total}, samples {samples}, lost {lost}")?;
    Ok(())
}
