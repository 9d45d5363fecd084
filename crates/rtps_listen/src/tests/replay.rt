//! Lines of `replay` and `samples`, and the configurations that their options ask for.

ghost use Rattle.std.specs.Prelude.{None};

use super::words;
use crate::config::config_of;
use crate::fault::ListenFault;
use crate::files::{replay_file, samples_file};
use crate::options::Options;
use crate::request::Request;
use crate::words::read_words;
use dds_qos::{Durability, Ownership, Reliability};
use rtps_discovery::check;
use rtps_files::RecordFiles;
use rtps_types::{EntityId, Guid, GuidPrefix};
use std::alloc::Global;
use std::io::{self, Error, ErrorKind};
use std::test::Fail;

const OURS: &str = "0b0b0b0b0b0b0b0b0b0b0b0b";

/// A writer with a key.
const THEIRS: &str = "0102030405060708090a0bAc00aB0102";

const WRITER: Guid = Guid {
    prefix: GuidPrefix([1, 2, 3, 4, 5, 6, 7, 8, 9, 10, 11, 0xac]),
    entity: EntityId([0, 0xab, 1, 2]),
};

/// Options with these flags, and else those of `replay` where none is given.
pub(super) fn flags(best_effort: bool, raw: bool, summary: bool) -> Options<'static> {
    let mut options = Options::unset();
    options.best_effort = best_effort;
    options.raw = raw;
    options.summary = summary;
    options
}

/// Options of a run that can be had but for its texts.
fn texts(own: &'static str, fixed: Option<&'static str>) -> Options<'static> {
    let mut options = flags(true, false, false);
    options.own = own;
    options.fixed = fixed;
    options
}

/// Whether the words after `replay` are read as these options.
fn reads(alloc: Global, line: &[&'static str], options: Options<'_>) -> Result<bool, Fail> {
    let words = words(alloc, line)?;
    Ok(read_words(alloc, words.as_slice())? == Request::Replay(options))
}

#[test]
fn lines_with_single_options(rt: HostRuntime) -> Result<(), Fail> {
    let sizes = [
        "replay",
        "--workers",
        "64",
        "-",
        "--batch",
        "4096",
        "--readers",
        "+1",
    ];
    let mut sized = flags(false, false, false);
    sized.workers = 64;
    sized.batch = 4096;
    let mut shared = flags(false, false, false);
    shared.workers = 2;
    shared.batch = 2048;
    for (line, options) in [
        (["replay", "-", "--workers", "2"].as_slice(), shared),
        (["replay", "-"].as_slice(), flags(false, false, false)),
        (sizes.as_slice(), sized),
        (
            ["replay", "--best-effort", "-"].as_slice(),
            flags(true, false, false),
        ),
        (
            ["replay", "-", "--raw"].as_slice(),
            flags(false, true, false),
        ),
        (
            ["replay", "-", "--summary"].as_slice(),
            flags(false, false, true),
        ),
    ] {
        assert!(rt; reads(rt.alloc(), line, options)?, "{line:?}");
    }
    Ok(())
}

#[test]
fn a_line_with_all_options(rt: HostRuntime) -> Result<(), Fail> {
    let line = [
        "replay",
        "--raw",
        "--fixed",
        "y",
        "--own=x",
        "a b",
        "--topic=",
        "--type=demo::Own",
        "--readers",
        "8",
        "--workers=7",
        "--batch",
        "1",
        "--summary",
        "--no-key",
        "--best-effort",
    ];
    let mut options = flags(true, true, true);
    options.file = "a b";
    options.readers = 8;
    options.workers = 7;
    options.batch = 1;
    options.topic = "";
    options.type_name = "demo::Own";
    options.no_key = true;
    options.own = "x";
    options.fixed = Some("y");
    assert!(rt; reads(rt.alloc(), line.as_slice(), options)?);
    Ok(())
}

#[test]
fn lines_of_samples(rt: HostRuntime) -> Result<(), Fail> {
    for (line, keep) in [
        (["samples", "-"].as_slice(), 0),
        (["samples", "-", "--keep", "0"].as_slice(), 0),
        (["samples", "--keep", "1", "-"].as_slice(), 1),
        (["samples", "-", "--keep=65536"].as_slice(), 65_536),
    ] {
        let words = words(rt.alloc(), line)?;
        let mut options = flags(false, false, false);
        options.keep = keep;
        assert_eq!(rt;
            read_words(rt.alloc(), words.as_slice())?,
            Request::Samples(options),
            "{line:?}"
        );
    }
    Ok(())
}

/// Options that are refused, and by which fault. The faults are in the order in which they are
/// found.
const REFUSED: [(bool, &str, Option<&str>, ListenFault); 8] = [
    (false, "0b", Some("0b"), ListenFault::BadPrefix),
    (true, "0b", Some("0b"), ListenFault::BadPrefix),
    (true, THEIRS, None, ListenFault::BadPrefix),
    // A character that is no digit.
    (
        true,
        "xbcdef000000000000000012",
        None,
        ListenFault::BadPrefix,
    ),
    (true, OURS, Some(OURS), ListenFault::BadWriter),
    (
        true,
        OURS,
        Some("0102030405060708090a0bac00ab010x"),
        ListenFault::BadWriter,
    ),
    // A reader with a key.
    (
        true,
        OURS,
        Some("0102030405060708090a0b0c00000107"),
        ListenFault::BadWriter,
    ),
    // A writer of our own.
    (
        true,
        OURS,
        Some("0b0b0b0b0b0b0b0b0b0b0b0b00000102"),
        ListenFault::BadWriter,
    ),
];

/// No file is there.
struct NoFiles;

impl RecordFiles for NoFiles {
    type File = &'static [u8];

    ghost holds = { λ _ _. None };

    fn open(&self, _name: &str) -> io::Result<&'static [u8]> {
        Err(Error::from(ErrorKind::NotFound))
    }
}

#[test]
fn options_that_are_refused(rt: HostRuntime) {
    for (best_effort, own, fixed, fault) in REFUSED {
        let mut options = texts(own, fixed);
        options.best_effort = best_effort;
        let mut out = Vec::new(rt.alloc());
        let replayed = replay_file(&rt, rt.alloc(), &NoFiles, &options, &mut out);
        assert_eq!(rt; replayed, Err(fault));
        let kept = samples_file(&rt, rt.alloc(), &NoFiles, &options, &mut out);
        assert_eq!(rt; kept, Err(fault));
        assert_eq!(rt; out.len(), 0);
    }
}

#[test]
fn configuration_of_one_reader(rt: HostRuntime) -> Result<(), Fail> {
    let config = config_of(rt.alloc(), &texts("0102030405060708090A0b0c", None))?;
    assert_eq!(rt; check(&config), Ok(()));
    assert_eq!(rt;
        config.own,
        GuidPrefix([1, 2, 3, 4, 5, 6, 7, 8, 9, 10, 11, 12])
    );
    assert_eq!(rt; config.fixed.len(), 0);
    assert_eq!(rt; config.readers.len(), 1);
    let reader = &config.readers[0];
    assert_eq!(rt; reader.entity, EntityId([0, 0, 1, 7]));
    assert_eq!(rt; reader.topic.as_str(), "Square");
    assert_eq!(rt; reader.type_name.as_str(), "ShapeType");
    assert_eq!(rt;
        reader.requested.policies.reliability,
        Reliability::BestEffort
    );
    assert_eq!(rt; reader.requested.policies.durability, Durability::Volatile);
    assert_eq!(rt; reader.requested.policies.ownership, Ownership::Shared);
    assert_eq!(rt; reader.requested.partitions.names().len(), 0);
    Ok(())
}

#[test]
fn configuration_of_eight_readers(rt: HostRuntime) -> Result<(), Fail> {
    let mut options = texts(OURS, Some("0102030405060708090a0bac00ab0102"));
    options.readers = 8;
    options.topic = "Circle";
    options.type_name = "demo::Circle";
    options.no_key = true;
    options.best_effort = false;
    let config = config_of(rt.alloc(), &options)?;
    assert_eq!(rt; check(&config), Ok(()));
    assert_eq!(rt; config.own, GuidPrefix([0x0b; 12]));
    assert_eq!(rt; config.readers.len(), 8);
    assert_eq!(rt; config.fixed.len(), 8);
    let keys = [1u8, 2, 3, 4, 5, 6, 7, 8];
    for (reader, key) in config.readers.as_slice().iter().zip(keys) {
        assert_eq!(rt; reader.entity, EntityId([0, 0, key, 4]));
        assert_eq!(rt; reader.topic.as_str(), "Circle");
        assert_eq!(rt; reader.type_name.as_str(), "demo::Circle");
        assert_eq!(rt;
            reader.requested.policies.reliability,
            Reliability::Reliable
        );
    }
    let ranks = [0u32, 1, 2, 3, 4, 5, 6, 7];
    for (pair, rank) in config.fixed.as_slice().iter().zip(ranks) {
        assert_eq!(rt; pair.rank, rank);
        assert_eq!(rt; pair.writer, WRITER);
        assert_eq!(rt; pair.locators.as_slice().len(), 0);
    }
    Ok(())
}
