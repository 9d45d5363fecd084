//! Lines, files and runs that were written down by hand, and what comes out.

ghost use Rattle.std.specs.Prelude.{◌≤◌};

use crate::config::config_of;
use crate::counts::Counts;
use crate::fault::BenchFault;
use crate::options::Options;
use crate::program::run;
use crate::reading::read_batches;
use crate::running::run_all;
use crate::times::{Times, times_of};
use crate::words::read_words;
use clap::error::ErrorKind;
use rtps_records::RunFault;
use rtps_types::EntityId;
use std::io::{self, Error, Write};
use std::test::Fail;

/// A record file of two datagrams: number 1 of a writer, a blue square, and a heartbeat by which
/// the writer has the numbers 1 to 3, and asks for an answer (DDSI-RTPS 9.4.5.3, 9.4.5.6).
const FILE: &[u8; 136] = b"RDG1\x00\x00\x00\x48RTPS\x02\x05\x00\x00\
    \x0a\x0a\x0a\x0a\x0a\x0a\x0a\x0a\x0a\x0a\x0a\x0a\
    \x15\x05\x30\x00\x00\x00\x10\x00\x00\x00\x00\x00\x00\x00\x01\x02\
    \x00\x00\x00\x00\x01\x00\x00\x00\
    \x00\x01\x00\x00\x05\x00\x00\x00BLUE\x00\x00\x00\x00\
    \x0a\x00\x00\x00\x14\x00\x00\x00\x1e\x00\x00\x00\
    \x00\x00\x00\x34RTPS\x02\x05\x00\x00\
    \x0a\x0a\x0a\x0a\x0a\x0a\x0a\x0a\x0a\x0a\x0a\x0a\
    \x07\x01\x1c\x00\x00\x00\x00\x00\x00\x00\x01\x02\
    \x00\x00\x00\x00\x01\x00\x00\x00\x00\x00\x00\x00\x03\x00\x00\x00\
    \x01\x00\x00\x00";

/// That writer.
const WRITER: &str = "0a0a0a0a0a0a0a0a0a0a0a0a00000102";

/// What two readers that are matched with it count of the file: each presents number 1, and asks
/// for 2 and 3 in one answer.
const COUNTS: Counts = Counts {
    datagrams: 2,
    events: 2,
    samples: 2,
    answers: 2,
    lost: 0,
};

/// A record file of a datagram, a tick, a datagram of no octets, and two ticks.
const TICKS: &[u8; 65] = b"RDG2\
    \x00\x00\x00\x01\x00\x00\x00\x00\x00\x00\x00\x01x\
    \xff\xff\xff\xff\x00\x00\x00\x00\x00\x00\x00\x02\
    \x00\x00\x00\x00\x00\x00\x00\x00\x00\x00\x00\x03\
    \xff\xff\xff\xff\x00\x00\x00\x00\x00\x00\x00\x04\
    \xff\xff\xff\xff\x00\x00\x00\x00\x00\x00\x00\x05";

/// Options of two readers that are matched with the writer, of one topic.
fn options() -> Options<'static> {
    options_of(2, (1, "Square"), Some(WRITER))
}

/// Options of this number of readers, of topics and their name, and of a writer.
fn options_of<'a>(readers: u8, topics: (u8, &'a str), fixed: Option<&'a str>) -> Options<'a>
    requires readers { (1 ≤ readers) × (readers ≤ 64) }
    requires topics { (1 ≤ topics.0) × (topics.0 ≤ 64) }
{
    let (topics, topic) = topics;
    Options {
        readers,
        topics,
        topic,
        fixed,
        workers: 1,
        batch: 512,
        repeat: 5,
    }
}

#[test]
fn lines_and_their_options(rt: HostRuntime) -> Result<(), Fail> {
    let least = options_of(1, (1, "Square"), None);
    let greatest = Options {
        readers: 64,
        topics: 64,
        topic: "",
        fixed: Some("0a"),
        workers: 64,
        batch: 4096,
        repeat: 1000,
    };
    let words = [
        "rtps_bench",
        "--readers",
        "64",
        "--topics=64",
        "--topic",
        "",
        "--fixed",
        "0a",
        "--workers",
        "64",
        "--batch",
        "4096",
        "--repeat",
        "1000",
    ];
    assert_eq!(rt; read_words(rt.alloc(), &words)?, greatest);
    assert_eq!(rt; read_words(rt.alloc(), &["rtps_bench"])?, least);
    Ok(())
}

#[test]
fn lines_that_are_refused(rt: HostRuntime) {
    for (words, kind) in [
        (
            ["rtps_bench", "--readers", "65"],
            ErrorKind::ValueValidation,
        ),
        (["rtps_bench", "--topics", "0"], ErrorKind::ValueValidation),
        (
            ["rtps_bench", "--workers", "65"],
            ErrorKind::ValueValidation,
        ),
        (
            ["rtps_bench", "--batch", "4097"],
            ErrorKind::ValueValidation,
        ),
        (
            ["rtps_bench", "--repeat", "1001"],
            ErrorKind::ValueValidation,
        ),
        (["rtps_bench", "--own", "0b"], ErrorKind::UnknownArgument),
        (
            ["rtps_bench", "--topic", "--fixed"],
            ErrorKind::InvalidValue,
        ),
    ] {
        match read_words(rt.alloc(), &words) {
            Ok(options) => assert!(rt; false, "{options:?}"),
            Err(error) => assert_eq!(rt; error.kind(), kind, "{words:?}"),
        }
    }
}

#[test]
fn readers_have_topics_in_turn(rt: HostRuntime) -> Result<(), Fail> {
    let options = options_of(12, (11, "Map"), Some(WRITER));
    let config = config_of(rt.alloc(), &options)?;
    assert_eq!(rt; (config.readers.len(), config.fixed.len()), (12, 12));
    let names = [
        "Map0", "Map1", "Map2", "Map3", "Map4", "Map5", "Map6", "Map7", "Map8", "Map9", "Map10",
        "Map0",
    ];
    for (reader, name) in config.readers.as_slice().iter().zip(names) {
        assert_eq!(rt; reader.topic.as_str(), name);
    }
    assert_eq!(rt; config.readers[11].entity, EntityId([0, 0, 12, 7]));
    assert_eq!(rt; config.fixed[11].rank, 11);
    Ok(())
}

#[test]
fn writers_that_are_refused(rt: HostRuntime) {
    // Too few digits; a reader; a writer of our own.
    for fixed in [
        "0a",
        "0a0a0a0a0a0a0a0a0a0a0a0a00000107",
        "0b0b0b0b0b0b0b0b0b0b0b0b00000102",
    ] {
        let options = options_of(2, (1, "Square"), Some(fixed));
        let fault = config_of(rt.alloc(), &options).err();
        assert_eq!(rt; fault, Some(BenchFault::BadWriter), "{fixed}");
    }
}

#[test]
fn batches_of_a_file(rt: HostRuntime) -> Result<(), Fail> {
    let batches = read_batches(rt.alloc(), &mut TICKS.as_slice(), 1)?;
    let mut held = Vec::new(rt.alloc());
    for batch in &batches {
        held.push((batch.len(), batch.tick()))?;
    }
    // A batch of one datagram is full, so that the tick after it is read with the next batch.
    let due = [
        (1, None),
        (0, None),
        (1, Some(2)),
        (1, None),
        (0, None),
        (1, Some(4)),
        (0, None),
    ];
    let last = [(1, Some(5)), (0, None)];
    assert_eq!(rt; held.get(..7), Some(due.as_slice()));
    assert_eq!(rt; held.get(7..), Some(last.as_slice()));
    for (file, fault) in [
        (FILE.get(..3), RunFault::NotRecordFile),
        (FILE.get(..135), RunFault::CutRecord(1)),
    ] {
        let read = read_batches(rt.alloc(), &mut file.unwrap_or(&[]), 512);
        assert_eq!(rt; read.err(), Some(fault));
    }
    Ok(())
}

#[test]
fn counts_are_those_made_by_hand(rt: HostRuntime) -> Result<(), Fail> {
    for (batch, workers) in [(1, 1), (512, 1), (1, 2), (512, 3)] {
        let batches = read_batches(rt.alloc(), &mut FILE.as_slice(), batch)?;
        let config = config_of(rt.alloc(), &options())?;
        let counts = run_all(&rt, rt.alloc(), config, &batches, workers)?;
        assert_eq!(rt; counts, COUNTS);
    }
    Ok(())
}

#[test]
fn times_of_runs(rt: HostRuntime) -> Result<(), Fail> {
    let nanos = [3000, 1000, 2000].to_vec(rt.alloc())?;
    let times = Times {
        best: 1000,
        median: 2000,
        rate: 1_000_000,
        each: 1000,
    };
    assert_eq!(rt; times_of(&COUNTS, nanos)?, times);
    let none = Counts {
        samples: 0,
        ..COUNTS
    };
    // Of two in the middle the longer one; a run that took no time at all.
    assert_eq!(rt; times_of(&none, [8, 4].to_vec(rt.alloc())?)?.median, 8);
    let times = times_of(&none, [0].to_vec(rt.alloc())?)?;
    assert_eq!(rt; (times.rate, times.each), (u64::MAX, 0));
    Ok(())
}

#[test]
fn what_is_written(rt: HostRuntime) -> Result<(), Fail> {
    let mut out = Vec::new(rt.alloc());
    run(&rt, rt.alloc(), &options(), &mut FILE.as_slice(), &mut out)?;
    let text = b"datagrams 2\nevents 2\nsamples 2\nanswers 2\nlost 0\n";
    assert_eq!(rt; out.as_slice(), text.as_slice());
    let times = Times {
        best: 1,
        median: 2,
        rate: 3,
        each: 4,
    };
    let line = format!(in rt.alloc(); "{times}")?;
    assert_eq!(rt;
        line.as_str(),
        "best_ns 1\nmedian_ns 2\ndatagrams_per_s 3\nns_per_sample 4\n"
    );
    Ok(())
}

/// Nothing can be written to it.
#[derive(Drop)]
struct Full;

impl Write for Full {
    fn write(&mut self, _buf: &[u8]) -> io::Result<usize> {
        Err(Error::from(io::ErrorKind::StorageFull))
    }

    fn flush(&mut self) -> io::Result<()> {
        Ok(())
    }
}

#[test]
fn faults_of_a_run(rt: HostRuntime) {
    let cut = FILE.get(..135).unwrap_or(&[]);
    for (file, fault, line) in [
        (FILE.as_slice(), RunFault::CannotWrite, "cannot write"),
        (cut, RunFault::CutRecord(1), "cut record 1"),
    ] {
        let mut reader = file;
        let ended = run(&rt, rt.alloc(), &options(), &mut reader, &mut Full).err();
        assert_eq!(rt; ended, Some(BenchFault::Run(fault)), "{line}");
        assert_eq!(rt; BenchFault::Run(fault).status(), 3);
    }
    assert_eq!(rt; BenchFault::Differs.status(), 6);
    assert_eq!(rt; BenchFault::Run(RunFault::NoMemory).status(), 5);
}
