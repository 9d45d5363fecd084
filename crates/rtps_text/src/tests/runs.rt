//! Runs of best-effort readers over a record file written by hand.

ghost use Rattle.std.specs.Prelude.{◌≡◌, IfOk, Ok};
ghost use Rattle.rtps_discovery.specs.Config.{check_of};

use super::{Failing, octets, text};
use crate::{Pace, Setup, replay};
use dds_qos::Reliability;
use dds_topic::{FailingCatalog, Shapes};
use rtps_discovery::{Config, ReaderConfig, check};
use rtps_records::RunFault;
use rtps_types::{EntityId, Guid, GuidPrefix, Locators};
use std::alloc::Global;
use std::sync::atomic::AtomicU64;
use std::test::Fail;
use std::thread::Threads;

const WRITER: Guid = Guid {
    prefix: GuidPrefix([0x0a; 12]),
    entity: EntityId([0x00, 0x00, 0x01, 0x02]),
};

/// `RDG1` and two datagrams, whose values are all BLUE at 10, 20 of size 30: changes 1 and 3 for
/// every reader, and change 4 for the second reader.
pub(super) const FILE: [&str; 10] = [
    "52444731",
    "0000007c",
    "52545053020500000a0a0a0a0a0a0a0a0a0a0a0a",
    "15053000000010000000000000000102000000000100000000010000",
    "05000000424c5545000000000a000000140000001e000000",
    "15053000000010000000000000000102000000000300000000010000",
    "05000000424c5545000000000a000000140000001e000000",
    "00000048",
    "52545053020500000a0a0a0a0a0a0a0a0a0a0a0a",
    "1505300000001000000002070000010200000000040000000001000005000000424c5545000000000a000000140000001e000000",
];

/// The number of octets of the magic and the first record.
pub(super) const FIRST: usize = 132;

pub(super) const LINES: [&str; 7] = [
    "0:1 reader 0 sample 0a0a0a0a0a0a0a0a0a0a0a0a00000102 1 - value 424c5545 10 20 30",
    "0:1 reader 1 sample 0a0a0a0a0a0a0a0a0a0a0a0a00000102 1 - value 424c5545 10 20 30",
    "0:2 reader 0 lost 0a0a0a0a0a0a0a0a0a0a0a0a00000102 1",
    "0:2 reader 0 sample 0a0a0a0a0a0a0a0a0a0a0a0a00000102 3 - value 424c5545 10 20 30",
    "0:2 reader 1 lost 0a0a0a0a0a0a0a0a0a0a0a0a00000102 1",
    "0:2 reader 1 sample 0a0a0a0a0a0a0a0a0a0a0a0a00000102 3 - value 424c5545 10 20 30",
    "1:1 reader 1 sample 0a0a0a0a0a0a0a0a0a0a0a0a00000102 4 - value 424c5545 10 20 30",
];

/// The readers of a run.
#[derive(Clone, Copy)]
pub(super) enum Given {
    /// Two readers that request this reliability and are matched with the writer from the start.
    Fixed(Reliability),
    /// One reliable reader that is matched with no writer at the start.
    Unmatched,
}

/// Returns the configuration of a reader of squares. Its entity id depends on its rank.
fn reader_config(alloc: Global, reliability: Reliability, rank: u8) -> Result<ReaderConfig, Fail> {
    let entity = EntityId([0, 0, rank.wrapping_add(1), 7]);
    let mut reader = ReaderConfig::new(alloc, entity, "Square", "ShapeType")?;
    reader.requested.policies.reliability = reliability;
    Ok(reader)
}

/// Returns a configuration of these readers.
pub(super) fn config_of(alloc: Global, given: Given) -> Result<Config, Fail>
    ensures { IfOk result (λ config. check_of config ≡ Ok tt) }
{
    let mut config = Config::new(alloc, GuidPrefix([0x0b; 12]));
    match given {
        Given::Fixed(reliability) => {
            for rank in 0..2u8 {
                config.add_reader(reader_config(alloc, reliability, rank)?)?;
                config.add_fixed(u32::from(rank), WRITER, Locators::new(Vec::new(alloc)))?;
            }
        }
        Given::Unmatched => {
            config.add_reader(reader_config(alloc, Reliability::Reliable, 0)?)?;
        }
    }
    match check(&config) {
        Ok(()) => Ok(config),
        Err(_) => Err(Fail::new("the configuration has a fault")),
    }
}

/// The paces of the runs in these tests, from the smallest batch and one worker up to the maximum
/// of both.
pub(super) const PACES: [Pace; 4] = [
    Pace {
        batch: 1,
        workers: 1,
    },
    Pace {
        batch: 2,
        workers: 2,
    },
    Pace {
        batch: 3,
        workers: 7,
    },
    Pace {
        batch: 4096,
        workers: 64,
    },
];

/// Returns the settings of these readers, with values that are shapes, and without a summary. There
/// is no memory for the value at index `refused`.
pub(super) fn setup(config: Config, refused: u64, pace: Pace) -> Setup<FailingCatalog<Shapes>>
    requires { check_of config ≡ Ok tt }
{
    Setup {
        config,
        catalog: FailingCatalog {
            catalog: Shapes,
            fails_at: refused,
            decoded: AtomicU64::new(0),
        },
        summary: false,
        pace,
    }
}

/// Whether these readers print this text and report the fault if a read fails after these octets.
fn prints_before<T: Threads + Sync>(
    rt: &T,
    alloc: Global,
    given: Given,
    octets: &[u8],
    text: &str,
) -> Result<bool, Fail> {
    for pace in PACES {
        let mut out = Vec::new(alloc);
        let setup = setup(config_of(alloc, given)?, u64::MAX, pace);
        let outcome = replay(rt, alloc, setup, &mut Failing(octets), &mut out);
        if outcome != Err(RunFault::CannotRead) || out.as_slice() != text.as_bytes() {
            return Ok(false);
        }
    }
    Ok(true)
}

#[test]
fn prints_the_records_before_a_fault(rt: HostRuntime) -> Result<(), Fail> {
    let alloc = rt.alloc();
    let file = octets(alloc, &FILE)?;
    let first = text(alloc, &LINES[..6])?;
    for read in [FIRST, FIRST + 2, FIRST + 50] {
        let front = file.as_slice().get(..read).unwrap_or(&[]);
        assert!(rt;
            prints_before(
                &rt,
                alloc,
                Given::Fixed(Reliability::BestEffort),
                front,
                first.as_str()
            )?,
            "at {read}"
        );
    }
    Ok(())
}

/// Whether a run over a file prints the whole text. It is `false` if memory runs out after the
/// beginning of the text; any other outcome is an error.
fn prints_all<T: Threads + Sync>(
    rt: &T,
    alloc: Global,
    setup: Setup<FailingCatalog<Shapes>>,
    file: &[u8],
    text: &str,
) -> Result<bool, Fail> {
    let mut out = Vec::new(alloc);
    let mut reader = file;
    match replay(rt, alloc, setup, &mut reader, &mut out) {
        Ok(()) if out.as_slice() == text.as_bytes() => Ok(true),
        Err(RunFault::NoMemory) if text.as_bytes().starts_with(out.as_slice()) => Ok(false),
        _ => Err(Fail::new("neither the text nor a front of it")),
    }
}

/// Whether these readers print the whole text of a file with `values` values, however the run is
/// cut and shared, and whether they print only its beginning and return `NoMemory` if there is no
/// memory for one of the values.
pub(super) fn prints_and_refuses<T: Threads + Sync>(
    rt: &T,
    alloc: Global,
    (given, values): (Given, u64),
    parts: &[&str],
    lines: &[&str],
) -> Result<bool, Fail> {
    let file = octets(alloc, parts)?;
    let text = text(alloc, lines)?;
    for pace in PACES {
        for refused in 0..values.saturating_add(1) {
            let setup = setup(config_of(alloc, given)?, refused, pace);
            if prints_all(rt, alloc, setup, &file, text.as_str())? != (refused == values) {
                return Ok(false);
            }
        }
    }
    Ok(true)
}

#[test]
fn prints_a_run_however_it_is_cut_and_shared(rt: HostRuntime) -> Result<(), Fail> {
    let given = Given::Fixed(Reliability::BestEffort);
    assert!(rt; prints_and_refuses(&rt, rt.alloc(), (given, 5), &FILE, &LINES)?);
    Ok(())
}

#[test]
fn three_quarters_of_the_workers_run_beside_the_one_that_formats(
    rt: HostRuntime,
) -> Result<(), Fail> {
    let four = Pace {
        batch: 9,
        workers: 4,
    };
    let [one, two, seven, all] = PACES;
    for (pace, run) in [(one, 1), (two, 2), (four, 3), (seven, 5), (all, 48)] {
        let running = pace.running();
        assert!(rt;
            (running.batch, running.workers) == (pace.batch, run),
            "{run}"
        );
        assert!(rt; running.formats_beside(2_048) == (run > 1), "{run}");
        assert!(rt; !running.formats_beside(2_047), "{run}");
    }
    Ok(())
}
