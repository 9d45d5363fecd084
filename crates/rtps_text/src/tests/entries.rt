//! What readers keep after a run over a record file written by hand.

ghost use Rattle.std.specs.Prelude.{◌≡◌, Ok};
ghost use Rattle.dds_cache.specs.Cache.{IsHistory};
ghost use Rattle.rtps_discovery.specs.Config.{check_of};

use super::runs::{FILE, FIRST, Given, PACES, config_of, setup};
use super::{Failing, octets, text};
use crate::{CacheSetup, Pace, samples};
use dds_cache::History;
use dds_qos::Reliability;
use dds_topic::{FailingCatalog, Shapes};
use rtps_discovery::Config;
use rtps_records::RunFault;
use std::alloc::Global;
use std::io::{self, Error, ErrorKind, Write};
use std::test::Fail;
use std::thread::Threads;

const GIVEN: Given = Given::Fixed(Reliability::BestEffort);

/// The number of values that the file has for the two readers.
const VALUES: u64 = 5;

/// All entries of the two readers.
const ALL: [&str; 5] = [
    "entry 0 0a0a0a0a0a0a0a0a0a0a0a0a00000102 1 - NotRead New Alive value 424c5545 10 20 30",
    "entry 0 0a0a0a0a0a0a0a0a0a0a0a0a00000102 3 - NotRead New Alive value 424c5545 10 20 30",
    "entry 1 0a0a0a0a0a0a0a0a0a0a0a0a00000102 1 - NotRead New Alive value 424c5545 10 20 30",
    "entry 1 0a0a0a0a0a0a0a0a0a0a0a0a00000102 3 - NotRead New Alive value 424c5545 10 20 30",
    "entry 1 0a0a0a0a0a0a0a0a0a0a0a0a00000102 4 - NotRead New Alive value 424c5545 10 20 30",
];

/// The last entry of each reader: all values are of one instance.
const LAST: [&str; 2] = [
    "entry 0 0a0a0a0a0a0a0a0a0a0a0a0a00000102 3 - NotRead New Alive value 424c5545 10 20 30",
    "entry 1 0a0a0a0a0a0a0a0a0a0a0a0a00000102 4 - NotRead New Alive value 424c5545 10 20 30",
];

/// Returns the settings of these readers with the history `keep`. There is no memory for the value
/// at index `refused`.
fn kept(
    config: Config,
    refused: u64,
    pace: Pace,
    keep: History,
) -> CacheSetup<FailingCatalog<Shapes>>
    requires config { check_of config ≡ Ok tt }
    requires keep { IsHistory keep }
{
    CacheSetup {
        run: setup(config, refused, pace),
        keep,
    }
}

/// Whether the readers print these entries for the file, both datagram by datagram on one thread
/// and in one batch on several, and whether they print nothing and return `NoMemory` if there is no
/// memory for one of the values.
fn keeps_and_refuses<T: Threads + Sync>(
    rt: &T,
    alloc: Global,
    keep: History,
    lines: &[&str],
) -> Result<bool, Fail>
    requires { IsHistory keep }
{
    let file = octets(alloc, &FILE)?;
    let text = text(alloc, lines)?;
    for pace in [PACES[0], PACES[2]] {
        for refused in [0, 3, VALUES] {
            let mut out = Vec::new(alloc);
            let setup = kept(config_of(alloc, GIVEN)?, refused, pace, keep);
            let outcome = samples(rt, alloc, setup, &mut file.as_slice(), &mut out);
            let (wanted, written) = if refused == VALUES {
                (Ok(()), text.as_bytes())
            } else {
                (Err(RunFault::NoMemory), [].as_slice())
            };
            if outcome != wanted || out.as_slice() != written {
                return Ok(false);
            }
        }
    }
    Ok(true)
}

#[test]
fn keeps_all_or_the_last(rt: HostRuntime) -> Result<(), Fail> {
    let alloc = rt.alloc();
    assert!(rt; keeps_and_refuses(&rt, alloc, History::KeepAll, &ALL)?);
    assert!(rt; keeps_and_refuses(&rt, alloc, History::KeepLast(1), &LAST)?);
    assert!(rt; keeps_and_refuses(&rt, alloc, History::KeepLast(65_536), &ALL)?);
    Ok(())
}

/// Whether the entries of the first record are printed if the first `read` octets of the file are
/// read, which end in the second record. If `is_cut`, the file ends there; otherwise reading on
/// fails.
fn keeps_before<T: Threads + Sync>(
    rt: &T,
    alloc: Global,
    read: usize,
    is_cut: bool,
) -> Result<bool, Fail> {
    let file = octets(alloc, &FILE)?;
    let text = text(alloc, &ALL[..4])?;
    let mut front = file.as_slice().get(..read).unwrap_or(&[]);
    let mut out = Vec::new(alloc);
    let setup = kept(
        config_of(alloc, GIVEN)?,
        u64::MAX,
        PACES[0],
        History::KeepAll,
    );
    let (outcome, fault) = if is_cut {
        let outcome = samples(rt, alloc, setup, &mut front, &mut out);
        (outcome, RunFault::CutRecord(1))
    } else {
        let outcome = samples(rt, alloc, setup, &mut Failing(front), &mut out);
        (outcome, RunFault::CannotRead)
    };
    Ok(outcome == Err(fault) && out.as_slice() == text.as_bytes())
}

#[test]
fn keeps_the_records_before_a_fault(rt: HostRuntime) -> Result<(), Fail> {
    for read in [FIRST + 2, FIRST + 50] {
        for is_cut in [false, true] {
            assert!(rt; keeps_before(&rt, rt.alloc(), read, is_cut)?, "at {read}");
        }
    }
    Ok(())
}

/// A writer that takes one octet per call, and fails after `most` octets.
#[derive(Drop)]
struct Slow {
    taken: Vec<u8>,
    most: usize,
}

impl Write for Slow {
    fn write(&mut self, buf: &[u8]) -> io::Result<usize> {
        if self.taken.len() >= self.most {
            return Err(Error::from(ErrorKind::BrokenPipe));
        }
        let count = buf.len().min(1);
        self.taken.extend_from_slice(&buf[..count])?;
        Ok(count)
    }

    fn flush(&mut self) -> io::Result<()> {
        Ok(())
    }
}

/// Whether a writer that takes at most `most` octets, one per call, receives the whole text, or
/// else the first `most` octets of it before `CannotWrite` is returned.
fn writes_slowly<T: Threads + Sync>(rt: &T, alloc: Global, most: usize) -> Result<bool, Fail> {
    let file = octets(alloc, &FILE)?;
    let text = text(alloc, &LAST)?;
    let mut writer = Slow {
        taken: Vec::new(alloc),
        most,
    };
    let setup = kept(
        config_of(alloc, GIVEN)?,
        u64::MAX,
        PACES[0],
        History::KeepLast(1),
    );
    let outcome = samples(rt, alloc, setup, &mut file.as_slice(), &mut writer);
    let written = writer.taken.as_slice();
    Ok(match outcome {
        Ok(()) => most >= text.len() && written == text.as_bytes(),
        Err(fault) => {
            fault == RunFault::CannotWrite
                && written.len() == most
                && text.as_bytes().starts_with(written)
        }
    })
}

#[test]
fn gives_a_slow_writer_a_front(rt: HostRuntime) -> Result<(), Fail> {
    for most in [0usize, 1, 90, 173, 174, 1000] {
        assert!(rt; writes_slowly(&rt, rt.alloc(), most)?, "at {most}");
    }
    Ok(())
}
