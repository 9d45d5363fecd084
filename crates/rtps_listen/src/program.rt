//! The program between its words, its host and its standard output.

ghost use Rattle.std.specs.Prelude.{map};
ghost use Rattle.rtps_listen.specs.Networks.{Networks};
ghost use Rattle.rtps_listen.specs.Program.{Does, Leaves};

use crate::appearing::appear_in;
use crate::domain::listen_in;
use crate::fault::ListenFault;
use crate::files::{dump_file, explain_file, replay_file, samples_file};
use crate::network::{Network, Station};
use crate::request::Request;
use crate::words::read_words;
use clap::Error;
use clap::error::ErrorKind;
use rtps_files::RecordFiles;
use rtps_records::RunFault;
use std::alloc::Global;
use std::convert::AsStr;
use std::io::Write;
use std::thread::Threads;

/// Why the program ends with another status than 0.
#[derive(Drop)]
pub enum Failure {
    /// The line is a bad one; the error has the text that clap prints for it.
    Line(Error),
    Fault(ListenFault),
}

/// Does what the words ask for, with the files and the network of a station's host. The first word
/// is the program's name; `rt` starts the workers.
///
/// A bad line is a [`Failure::Line`], and then nothing is opened, joined or written. Any other
/// failure is the fault of what was asked for, or `NoMemory`. Only `listen` calls a network.
#[tactic(auto, unfolding(crate::specs::Program::Leaves))]
pub fn run<H: RecordFiles + Network, S: AsStr, W: Write + Send, T: Threads + Sync>(
    rt: &T,
    alloc: Global,
    station: &mut Station<H, H::Joined, H::Announced>,
    words: &[S],
    writer: &mut W,
) -> Result<(), Failure>
    ensures { Leaves (map S.text words.entry.now) (H.holds station.old.host) (record {
      joins = H.joins;
      traffic = H.Joined.traffic;
      reads = H.reads;
      appears = H.appears;
      heard = H.Announced.traffic;
      speech = H.Announced.speech;
      announced = H.Announced.announced;
    }) station.old station.new
        (W.contents writer.old) (W.contents writer.new) result }
{
    let request = match read_words(alloc, words) {
        Ok(request) => request,
        Err(error) if error.kind() == ErrorKind::OutOfMemory => {
            return Err(Failure::Fault(ListenFault::Run(RunFault::NoMemory)));
        }
        Err(error) => return Err(Failure::Line(error)),
    };
    match perform(rt, alloc, station, &request, writer) {
        Ok(()) => Ok(()),
        Err(fault) => Err(Failure::Fault(fault)),
    }
}

/// Does what the request asks for.
#[tactic(auto, unfolding(crate::specs::Program::Does))]
fn perform<H: RecordFiles + Network, W: Write + Send, T: Threads + Sync>(
    rt: &T,
    alloc: Global,
    station: &mut Station<H, H::Joined, H::Announced>,
    request: &Request<'_>,
    writer: &mut W,
) -> Result<(), ListenFault>
    ensures { Does request.now (H.holds station.old.host) (record {
      joins = H.joins;
      traffic = H.Joined.traffic;
      reads = H.reads;
      appears = H.appears;
      heard = H.Announced.traffic;
      speech = H.Announced.speech;
      announced = H.Announced.announced;
    }) station.old station.new (W.contents writer.old) (W.contents writer.new) result }
{
    match request {
        Request::Dump(options) => dump_file(alloc, &station.host, options, writer),
        Request::Explain(options) => explain_file(alloc, &station.host, options, writer),
        Request::Replay(options) => replay_file(rt, alloc, &station.host, options, writer),
        Request::Samples(options) => samples_file(rt, alloc, &station.host, options, writer),
        Request::Listen(options) => listen_in(rt, alloc, station, options, writer),
        Request::Announce(options) => appear_in(rt, alloc, station, options, writer),
        Request::Stray(_) => Err(ListenFault::OnlyAnnounced),
    }
}
