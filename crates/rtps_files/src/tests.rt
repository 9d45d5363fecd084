//! Files in memory, and a writer that keeps what it is given.

use crate::{FileFault, RecordFiles, dump_file, explain_file};
use rtps_records::RunFault;
use std::io;
use std::test::Fail;

const OWN: &str = "0B0b0b0b0b0b0b0b0b0b0b0b";

/// Files by two names: one that has no record, and one that is cut.
#[derive(Drop)]
struct Memory;

impl RecordFiles for Memory {
    type File = &'static [u8];

    ghost holds = { λ _ _. None };

    fn open(&self, name: &str) -> io::Result<&'static [u8]> {
        match name {
            "empty" => Ok(b"RDG1"),
            "cut" => Ok(b"RDG1\x00"),
            _ => Err(io::Error::from(io::ErrorKind::NotFound)),
        }
    }
}

#[test]
fn prints_files_by_their_names(rt: HostRuntime) -> Result<(), Fail> {
    let alloc = rt.alloc();
    for (own, name, outcome) in [
        (OWN, "empty", Ok(())),
        (OWN, "cut", Err(FileFault::Run(RunFault::CutRecord(0)))),
        (OWN, "other", Err(FileFault::Run(RunFault::CannotRead))),
        ("0b", "other", Err(FileFault::BadPrefix)),
    ] {
        let mut lines = Vec::new(alloc);
        assert_eq!(rt;
            dump_file(alloc, &Memory, own, name, &mut lines),
            outcome,
            "{name}"
        );
        assert!(rt; lines.is_empty());
        let mut counts = Vec::new(alloc);
        assert_eq!(rt;
            explain_file(alloc, &Memory, own, name, &mut counts),
            outcome,
            "{name}"
        );
        assert_eq!(rt;
            counts.starts_with(b"count datagrams 0\n"),
            name == "empty" || name == "cut"
        );
    }
    Ok(())
}
