//! Lines that were written down by hand, and what they ask for.

use crate::fault::DumpFault;
use crate::words::{Command, Request, read_words};
use rtps_files::FileFault;
use rtps_records::RunFault;
use std::test::Fail;

const OWN: &str = "0b0b0b0b0b0b0b0b0b0b0b0b";

#[test]
fn lines_of_dump_and_explain(rt: HostRuntime) -> Result<(), Fail> {
    for (line, command, file, own) in [
        (["rtps_dump"].as_slice(), Command::Dump, "-", OWN),
        (["", "dump", "-"].as_slice(), Command::Dump, "-", OWN),
        (
            ["", "explain", "a b"].as_slice(),
            Command::Explain,
            "a b",
            OWN,
        ),
        (
            ["", "dump", "--own", "", "a"].as_slice(),
            Command::Dump,
            "a",
            "",
        ),
        (
            ["", "explain", "-", "--own", "0b"].as_slice(),
            Command::Explain,
            "-",
            "0b",
        ),
    ] {
        let wanted = Request { command, file, own };
        assert_eq!(rt; read_words(line), Some(wanted));
    }
    Ok(())
}

/// Lines that ask for nothing.
const BAD: [&[&str]; 9] = [
    &["", "-"],
    &["", "dump"],
    &["", "print", "-"],
    &["", "dump", "-", "-"],
    &["", "dump", "--own"],
    &["", "dump", "--own", "0b"],
    &["", "dump", "-", "--own"],
    &["", "dump", "--raw"],
    &["", "--own", "0b", "dump", "-"],
];

#[test]
fn bad_lines(rt: HostRuntime) -> Result<(), Fail> {
    for line in BAD {
        assert_eq!(rt; read_words(line), None, "{line:?}");
    }
    Ok(())
}

#[test]
fn lines_of_faults(rt: HostRuntime) -> Result<(), Fail> {
    let ran = |fault| DumpFault::File(FileFault::Run(fault));
    for (fault, line, status) in [
        (DumpFault::NoText, "a word is not text", 2u8),
        (
            DumpFault::BadLine,
            "usage: dump|explain [--own HEX] FILE",
            2,
        ),
        (DumpFault::File(FileFault::BadPrefix), "bad prefix", 2),
        (ran(RunFault::CutRecord(7)), "cut record 7", 3),
        (ran(RunFault::NoMemory), "out of memory", 5),
    ] {
        let text = format!(in rt.alloc(); "{fault}")?;
        assert_eq!(rt; text.as_str(), line);
        assert_eq!(rt; fault.status(), status);
    }
    Ok(())
}
