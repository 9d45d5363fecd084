//! Applications, each in a module of its own and started by a word:
//!
//! - `cache FILE` reads and takes by conditions, over a record file of squares;
//! - `own_type FILE` has a data type of its own, whose values are in a record file;
//! - `live` receives from sockets, with threads of its own;
//! - `all SQUARES READINGS` runs the three, one after the other.
#![tactic(auto)]

mod cache;
mod live;
mod own_type;

use anyhow::Result;
use std::env;
use std::net::Net;
use std::process::ExitCode;
use std::sync::Wait;
use std::thread::Threads;
use std::time::Clock;

/// What is said of words that name no application.
const USAGE: &str = "examples: start it by one of: cache FILE, own_type FILE, live, \
    all SQUARES READINGS";

fn main(rt: HostRuntime) -> Result<ExitCode> {
    let alloc = rt.alloc();
    let words = env::args(&rt)?.collect::<Vec<String>>(alloc)?;
    run(&rt, &rt, words.as_slice())
}

/// Runs what the words ask for, of which the first one is the program's name. The host has the
/// files, and `rt` starts threads and waits for them.
fn run<R: Threads + Wait + Net + Clock + Print + Sync>(
    rt: &R,
    host: &HostRuntime,
    words: &[String],
) -> Result<ExitCode> {
    let [_, word, files @ ..] = words else {
        return refuse(host);
    };
    match (word.as_str(), files) {
        ("cache", [squares]) => cache::run(rt, host, squares.as_str())?,
        ("own_type", [readings]) => own_type::run(rt, host, readings.as_str())?,
        ("live", []) => live::run(rt, host)?,
        ("all", [squares, readings]) => run_all(rt, host, squares.as_str(), readings.as_str())?,
        _ => return refuse(host),
    }
    Ok(ExitCode::SUCCESS)
}

fn run_all<R: Threads + Wait + Net + Clock + Print + Sync>(
    rt: &R,
    host: &HostRuntime,
    squares: &str,
    readings: &str,
) -> Result<()> {
    cache::run(rt, host, squares)?;
    own_type::run(rt, host, readings)?;
    live::run(rt, host)
}

/// Says which words there are.
fn refuse(host: &HostRuntime) -> Result<ExitCode> {
    eprintln!(host; "{USAGE}")?;
    Ok(ExitCode::from(2))
}
