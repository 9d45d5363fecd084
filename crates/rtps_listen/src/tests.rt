//! Lines that were written down by hand, and what they ask for.

ghost use Rattle.std.specs.Prelude.{◌≤◌};

mod announcing;
mod replay;

use crate::fault::ListenFault;
use crate::options::Options;
use crate::request::Request;
use crate::words::read_words;
use clap::error::ErrorKind;
use replay::flags;
use rtps_records::RunFault;
use std::alloc::Global;
use std::test::Fail;

/// The words of a line, the program's name first.
fn words(alloc: Global, line: &[&'static str]) -> Result<Vec<&'static str>, Fail> {
    let mut words = ["rtps_listen"].to_vec(alloc)?;
    words.extend_from_slice(line)?;
    Ok(words)
}

#[test]
fn lines_of_explain(rt: HostRuntime) -> Result<(), Fail> {
    let mut options = Options::unset();
    options.file = "a b";
    options.own = "0b";
    let words = words(rt.alloc(), &["explain", "--own", "0b", "a b"])?;
    let request = read_words(rt.alloc(), words.as_slice())?;
    assert_eq!(rt; request, Request::Explain(options));
    Ok(())
}

#[test]
fn lines_of_dump(rt: HostRuntime) -> Result<(), Fail> {
    let nothing = Options::unset();
    let mut other = nothing;
    other.file = "a b";
    other.own = "";
    for (line, options) in [
        ([].as_slice(), nothing),
        (["dump", "-"].as_slice(), nothing),
        (["dump", "--own", "", "a b"].as_slice(), other),
        (["dump", "a b", "--own="].as_slice(), other),
    ] {
        let words = words(rt.alloc(), line)?;
        let request = read_words(rt.alloc(), words.as_slice())?;
        assert_eq!(rt; request, Request::Dump(options));
    }
    Ok(())
}

/// Options of `listen` with these, and else those where none is given.
fn live(domain: u16, count: u32, turns: u32, address: &'static str) -> Options<'static>
    requires domain { domain ≤ 232 }
    requires count { 1 ≤ count }
    requires turns { 1 ≤ turns }
{
    let mut options = flags(false, false, false);
    options.domain = domain;
    options.count = count;
    options.turns = turns;
    options.address = address;
    options
}

#[test]
fn lines_of_listen(rt: HostRuntime) -> Result<(), Fail> {
    for (line, options) in [
        (
            ["listen", "--domain", "0", "--count", "1"].as_slice(),
            live(0, 1, 600, "127.0.0.1"),
        ),
        (
            [
                "listen",
                "--domain",
                "0",
                "--address",
                "0.0.0.0",
                "--count",
                "1",
            ]
            .as_slice(),
            live(0, 1, 600, "0.0.0.0"),
        ),
        (
            [
                "listen", "--count", "65536", "--turns", "100000", "--domain", "232",
            ]
            .as_slice(),
            live(232, 65_536, 100_000, "127.0.0.1"),
        ),
    ] {
        let words = words(rt.alloc(), line)?;
        let request = read_words(rt.alloc(), words.as_slice())?;
        assert_eq!(rt; request, Request::Listen(options));
    }
    Ok(())
}

/// Bad lines, and what is bad of each.
const BAD: [(&[&str], ErrorKind); 24] = [
    (&["dump"], ErrorKind::MissingRequiredArgument),
    (&["dump", "-", "-"], ErrorKind::UnknownArgument),
    (&["dump", "-", "--raw"], ErrorKind::UnknownArgument),
    (&["dump", "-", "--own"], ErrorKind::InvalidValue),
    (
        &["dump", "-", "--own", "0b", "--own", "0b"],
        ErrorKind::ArgumentConflict,
    ),
    (&["dump", "-", "--own", "-b"], ErrorKind::UnknownArgument),
    (&["--own", "0b", "dump", "-"], ErrorKind::UnknownArgument),
    (&["-"], ErrorKind::InvalidSubcommand),
    (&["print", "-"], ErrorKind::InvalidSubcommand),
    (&["--help"], ErrorKind::DisplayHelp),
    (&["help", "dump"], ErrorKind::DisplayHelp),
    (
        &["replay", "-", "--workers", "0"],
        ErrorKind::ValueValidation,
    ),
    (
        &["replay", "-", "--workers", "65"],
        ErrorKind::ValueValidation,
    ),
    (
        &["replay", "-", "--batch", "4097"],
        ErrorKind::ValueValidation,
    ),
    (
        &["samples", "-", "--readers", "9"],
        ErrorKind::ValueValidation,
    ),
    (
        &["samples", "-", "--keep", "65537"],
        ErrorKind::ValueValidation,
    ),
    (&["replay", "-", "--keep", "1"], ErrorKind::UnknownArgument),
    (
        &["samples", "-", "--raw", "--raw"],
        ErrorKind::ArgumentConflict,
    ),
    (
        &["replay", "-", "--address", "127.0.0.1"],
        ErrorKind::UnknownArgument,
    ),
    (
        &["listen", "--count", "1"],
        ErrorKind::MissingRequiredArgument,
    ),
    (
        &["listen", "--domain", "233", "--count", "1"],
        ErrorKind::ValueValidation,
    ),
    (
        &["listen", "--domain", "0", "--count", "0"],
        ErrorKind::ValueValidation,
    ),
    (
        &["listen", "--domain", "0", "--count", "1", "--lease", "1"],
        ErrorKind::ValueValidation,
    ),
    (&["replay", "-", "--announce"], ErrorKind::UnknownArgument),
];

#[test]
fn bad_lines(rt: HostRuntime) -> Result<(), Fail> {
    for (line, kind) in BAD {
        let words = words(rt.alloc(), line)?;
        match read_words(rt.alloc(), words.as_slice()) {
            Ok(_) => assert!(rt; false, "{line:?}"),
            Err(error) => assert_eq!(rt; error.kind(), kind, "{line:?}"),
        }
    }
    Ok(())
}

/// Faults, with the text and the exit status of each.
const FAULTS: [(ListenFault, &str, u8); 17] = [
    (ListenFault::NoText, "a word is not text", 2),
    (ListenFault::BadPrefix, "bad prefix", 2),
    (ListenFault::BadWriter, "bad writer", 2),
    (ListenFault::BadAddress, "bad address", 2),
    (ListenFault::BadPeers, "bad peers", 2),
    (
        ListenFault::OnlyAnnounced,
        "--peers, --no-multicast and --lease need --announce",
        2,
    ),
    (
        ListenFault::TooLong,
        "a topic or type is too long to be announced",
        2,
    ),
    (
        ListenFault::NoPorts(7410, 7649),
        "no two ports of 7410 to 7649 are free",
        4,
    ),
    (ListenFault::Socket, "socket fault", 4),
    (
        ListenFault::Run(RunFault::CannotRead),
        "cannot read the file",
        3,
    ),
    (
        ListenFault::Run(RunFault::NotRecordFile),
        "not an RDG1 file",
        3,
    ),
    (ListenFault::Run(RunFault::CutRecord(7)), "cut record 7", 3),
    (
        ListenFault::Run(RunFault::RecordTooLong(0)),
        "record 0 too long",
        3,
    ),
    (
        ListenFault::Run(RunFault::TooManyRecords),
        "too many records",
        3,
    ),
    (ListenFault::Run(RunFault::CannotWrite), "cannot write", 3),
    (
        ListenFault::Run(RunFault::CannotReadNorWrite),
        "cannot write",
        3,
    ),
    (ListenFault::Run(RunFault::NoMemory), "out of memory", 5),
];

#[test]
fn lines_of_faults(rt: HostRuntime) -> Result<(), Fail> {
    for (fault, line, status) in FAULTS {
        let text = format!(in rt.alloc(); "{fault}")?;
        assert_eq!(rt; text.as_str(), line);
        assert_eq!(rt; fault.status(), status);
    }
    Ok(())
}
