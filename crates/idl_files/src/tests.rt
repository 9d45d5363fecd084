//! Files in memory.

use crate::declared_type;
use rtps_files::RecordFiles;
use std::alloc::Global;
use std::io::{self, Error, ErrorKind};
use std::test::Fail;

/// Files in IDL by their names.
#[derive(Drop)]
struct Idl;

impl RecordFiles for Idl {
    type File = &'static [u8];

    ghost holds = { λ _ _. None };

    fn open(&self, name: &str) -> io::Result<&'static [u8]> {
        match name {
            "a.idl" => Ok(b"module m { @final struct P { @key long id; double x; }; };"),
            "b.idl" => Ok(b"#include \"a.idl\"\nstruct Q { m::P at[2]; };"),
            "c.idl" => Ok(b"struct R {\n  m::P at;\n};"),
            "empty" => Ok(b""),
            _ => Err(Error::from(ErrorKind::NotFound)),
        }
    }
}

/// Returns what is said of files that don't declare a type.
fn said(alloc: Global, names: &str, name: &str) -> Result<String, Fail> {
    match declared_type(alloc, &Idl, names, name) {
        Ok(_) => Ok(String::new(alloc)),
        Err(fault) => Ok(format!(in alloc; "{fault}")?),
    }
}

const SAID: [(&str, &str, &str); 8] = [
    ("a.idl", "m::P", ""),
    ("a.idl,b.idl", "Q", ""),
    ("a.idl", "P", "no type P is declared"),
    ("a.idl", "m::p", "no type m::p is declared"),
    ("a.idl,d.idl", "m::P", "cannot read the types in d.idl"),
    (
        "b.idl,a.idl",
        "Q",
        "b.idl:1:10: the text \"a.idl\" has to be given before this one",
    ),
    ("c.idl", "R", "c.idl:2:3: the type 'm' isn't declared"),
    ("", "R", "cannot read the types in "),
];

#[test]
fn files_that_declare_types(rt: HostRuntime) -> Result<(), Fail> {
    for (names, name, text) in SAID {
        assert_eq!(rt; said(rt.alloc(), names, name)?.as_str(), text, "{names}");
    }
    Ok(())
}

#[test]
fn sixteen_files_and_one_more(rt: HostRuntime) -> Result<(), Fail> {
    let alloc = rt.alloc();
    let mut names = String::from_str(alloc, "a.idl")?;
    for _ in 0..15 {
        names.push_str(",empty")?;
    }
    assert_eq!(rt; said(alloc, names.as_str(), "m::P")?.as_str(), "");
    names.push_str(",empty")?;
    assert_eq!(rt;
        said(alloc, names.as_str(), "m::P")?.as_str(),
        "more than 16 files of types"
    );
    Ok(())
}
