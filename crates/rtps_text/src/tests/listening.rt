//! Runs over datagrams from a list, as if they were received.

ghost use Rattle.rtps_discovery.specs.Config.{check_of};
ghost use Rattle.std.specs.Prelude.{◌≡◌, Ok};

use super::runs::{FILE, FIRST, Given, LINES, PACES, config_of};
use super::{octets, text};
use crate::{LiveFault, LiveSetup, Pace, Setup, listen};
use dds_qos::Reliability;
use dds_topic::Shapes;
use rtps_discovery::Config;
use rtps_records::{Exchange, Receive};
use rtps_types::Locator;
use std::alloc::Global;
use std::cell::Cell;
use std::io::{self, Error, ErrorKind, Write};
use std::test::Fail;
use std::thread::Threads;

/// What a network does after its last datagram.
#[derive(Clone, Copy, PartialEq, Eq)]
pub(super) enum After {
    /// No more datagrams come.
    Nothing,
    /// The next wait fails.
    WaitFails,
    /// Receiving a datagram fails.
    ReceiveFails,
}

/// A network on which these datagrams come, `each` of them with each wait.
#[derive(Drop)]
pub(super) struct Wire<'a> {
    datagrams: &'a [&'a [u8]],
    each: usize,
    after: After,
    /// The number of datagrams that were received.
    taken: usize,
    /// The number of datagrams that have come and aren't received yet.
    standing: usize,
    /// The datagrams that were sent, each with its destination.
    sent: Vec<(Locator, Vec<u8>)>,
    /// The moments that the clock gives after the first waits; after later ones it gives 0.
    pub(super) moments: [u64; 3],
    /// The number of times that the clock was read.
    pub(super) read: usize,
    alloc: Global,
}

impl<'a> Wire<'a> {
    pub(super) fn new(
        alloc: Global,
        datagrams: &'a [&'a [u8]],
        each: usize,
        after: After,
    ) -> Wire<'a> {
        Wire {
            datagrams,
            each,
            after,
            taken: 0,
            standing: 0,
            sent: Vec::new(alloc),
            moments: [0; 3],
            read: 0,
            alloc,
        }
    }
}

impl Receive for Wire<'_> {
    ghost use Rattle.std.specs.Prelude.{None};
    ghost use Rattle.rtps_records.specs.Speech.{silence};

    ghost traffic = { λ _. None };

    ghost speech = { λ _. silence };

    fn receive(&mut self, room: &mut [u8]) -> io::Result<Option<usize>> {
        let Some(octets) = self.datagrams.get(self.taken) else {
            return match self.after {
                After::ReceiveFails => Err(Error::from(ErrorKind::Other)),
                _ => Ok(None),
            };
        };
        if self.standing == 0 {
            return Ok(None);
        }
        self.standing -= 1;
        self.taken += 1;
        let length = room.len().min(octets.len());
        room[..length].copy_from_slice(&octets[..length]);
        Ok(Some(length))
    }
}

impl Exchange for Wire<'_> {
    fn wait(&mut self) -> io::Result<u64> {
        let left = self.datagrams.len().saturating_sub(self.taken);
        if left == 0 && self.after == After::WaitFails {
            return Err(Error::from(ErrorKind::Other));
        }
        self.standing = self.each.min(left);
        let moment = self.moments.get(self.read).copied().unwrap_or(0);
        self.read = self.read.saturating_add(1);
        Ok(moment)
    }

    fn send(&mut self, to: Locator, octets: &[u8]) {
        if let Ok(octets) = octets.to_vec(self.alloc) {
            let _kept = self.sent.push((to, octets));
        }
    }
}

/// Returns settings for at most `datagrams` datagrams and at most `turns` waits, without a summary.
pub(super) fn live_setup(
    config: Config,
    pace: Pace,
    datagrams: u32,
    turns: u32,
) -> LiveSetup<Shapes>
    requires { check_of config ≡ Ok tt }
{
    let run = Setup {
        config,
        catalog: Shapes,
        summary: false,
        pace,
    };
    LiveSetup {
        run,
        datagrams,
        turns,
    }
}

/// Returns the two datagrams of the record file.
fn datagrams_in(file: &[u8]) -> [&[u8]; 2] {
    [
        file.get(8..FIRST).unwrap_or(&[]),
        file.get(FIRST + 4..).unwrap_or(&[]),
    ]
}

/// Returns what two best-effort readers print for these datagrams, and the result of the run.
fn heard<T: Threads + Sync>(
    rt: &T,
    alloc: Global,
    wire: &mut Wire<'_>,
    pace: Pace,
    limits: (u32, u32),
) -> Result<(Vec<u8>, Result<(), LiveFault>), Fail> {
    let config = config_of(alloc, Given::Fixed(Reliability::BestEffort))?;
    let setup = live_setup(config, pace, limits.0, limits.1);
    let mut out = Vec::new(alloc);
    let outcome = listen(rt, alloc, setup, wire, &mut out);
    Ok((out, outcome))
}

#[test]
fn prints_what_comes_however_it_comes(rt: HostRuntime) -> Result<(), Fail> {
    let file = octets(rt.alloc(), &FILE)?;
    let datagrams = datagrams_in(&file);
    let whole = text(rt.alloc(), &LINES)?;
    let first = text(rt.alloc(), &LINES[..6])?;
    for (each, limits, said) in [
        (1, (9, 5), &whole),
        (2, (9, 1), &whole),
        (2, (2, 9), &whole),
        (2, (1, 9), &first),
        (1, (9, 1), &first),
    ] {
        for pace in PACES {
            let mut wire = Wire::new(rt.alloc(), &datagrams, each, After::Nothing);
            let (out, outcome) = heard(&rt, rt.alloc(), &mut wire, pace, limits)?;
            assert_eq!(rt; outcome, Ok(()));
            assert_eq!(rt; out.as_slice(), said.as_bytes());
            assert!(rt; wire.sent.is_empty());
        }
    }
    Ok(())
}

#[test]
fn prints_what_came_before_a_socket_fault(rt: HostRuntime) -> Result<(), Fail> {
    let file = octets(rt.alloc(), &FILE)?;
    let datagrams = datagrams_in(&file);
    let whole = text(rt.alloc(), &LINES)?;
    for after in [After::WaitFails, After::ReceiveFails] {
        for pace in PACES {
            let mut wire = Wire::new(rt.alloc(), &datagrams, 2, after);
            let (out, outcome) = heard(&rt, rt.alloc(), &mut wire, pace, (9, 9))?;
            assert_eq!(rt; outcome, Err(LiveFault::Socket));
            assert_eq!(rt; out.as_slice(), whole.as_bytes());
        }
    }
    Ok(())
}

/// A participant announces itself, with 127.0.0.1:7412 as its locator for discovery. Then its
/// announcer of writers sends a heartbeat for number 1.
const ANNOUNCED: [&str; 3] = [
    "52545053020500000a0a0a0a0a0a0a0a0a0a0a0a15057c0000001000000100c7000100c20000000001000000",
    "00030000500010000a0a0a0a0a0a0a0a0a0a0a0a000001c13200180001000000f41c00000000000000000000000000007f0000013100180001000000f51c00000000000000000000000000007f000001020008006400000000000000580004001400000001000000",
    "52545053020500000a0a0a0a0a0a0a0a0a0a0a0a07011c00000003c7000003c20000000001000000000000000100000001000000",
];

/// The answer: an ACKNACK that asks for that number.
const ASKED: &str =
    "52545053020500000b0b0b0b0b0b0b0b0b0b0b0b0e010c000a0a0a0a0a0a0a0a0a0a0a0a06011c00000003c7000003c20000000001000000010000000000008001000000";

#[test]
fn sends_what_it_answers(rt: HostRuntime) -> Result<(), Fail> {
    let announced = octets(rt.alloc(), &ANNOUNCED[..2])?;
    let beats = octets(rt.alloc(), &ANNOUNCED[2..])?;
    let datagrams = [announced.as_slice(), beats.as_slice()];
    let mut wire = Wire::new(rt.alloc(), &datagrams, 2, After::Nothing);
    let config = config_of(rt.alloc(), Given::Unmatched)?;
    let setup = live_setup(config, PACES[3], 2, 1);
    let mut out = Vec::new(rt.alloc());
    assert_eq!(rt; listen(&rt, rt.alloc(), setup, &mut wire, &mut out), Ok(()));
    let line = text(
        rt.alloc(),
        &[
            "1:1 answer 127.0.0.1:7412 52545053020500000b0b0b0b0b0b0b0b0b0b0b0b0e010c000a0a0a0a0a0a0a0a0a0a0a0a06011c00000003c7000003c20000000001000000010000000000008001000000",
        ],
    )?;
    assert_eq!(rt; out.as_slice(), line.as_bytes());
    let asked = octets(rt.alloc(), &[ASKED])?;
    let [(to, sent)] = wire.sent.as_slice() else {
        return Err(Fail::new("not one answer was sent"));
    };
    assert_eq!(rt; (to.address, to.port), ([127, 0, 0, 1], 7412));
    assert_eq!(rt; sent.as_slice(), asked.as_slice());
    Ok(())
}

/// A network that counts what is sent.
#[derive(Drop)]
struct Counted<'a> {
    wire: Wire<'a>,
    sent: &'a Cell<u32>,
}

impl Receive for Counted<'_> {
    ghost use Rattle.std.specs.Prelude.{None};
    ghost use Rattle.rtps_records.specs.Speech.{silence};

    ghost traffic = { λ _. None };

    ghost speech = { λ _. silence };

    fn receive(&mut self, room: &mut [u8]) -> io::Result<Option<usize>> {
        self.wire.receive(room)
    }
}

impl Exchange for Counted<'_> {
    fn wait(&mut self) -> io::Result<u64> {
        self.wire.wait()
    }

    fn send(&mut self, to: Locator, octets: &[u8]) {
        self.sent.set(self.sent.get().saturating_add(1));
        self.wire.send(to, octets);
    }
}

/// A writer that notes how many answers were sent when it was first called.
#[derive(Drop)]
struct Noting<'a> {
    sent: &'a Cell<u32>,
    first: Option<u32>,
}

impl Write for Noting<'_> {
    fn write(&mut self, buf: &[u8]) -> io::Result<usize> {
        self.first = self.first.or(Some(self.sent.get()));
        Ok(buf.len())
    }

    fn flush(&mut self) -> io::Result<()> {
        Ok(())
    }
}

#[test]
fn sends_what_it_answers_before_it_prints(rt: HostRuntime) -> Result<(), Fail> {
    let announced = octets(rt.alloc(), &ANNOUNCED[..2])?;
    let beats = octets(rt.alloc(), &ANNOUNCED[2..])?;
    let datagrams = [announced.as_slice(), beats.as_slice()];
    let sent = Cell::new(0);
    let mut network = Counted {
        wire: Wire::new(rt.alloc(), &datagrams, 2, After::Nothing),
        sent: &sent,
    };
    let mut writer = Noting {
        sent: &sent,
        first: None,
    };
    let config = config_of(rt.alloc(), Given::Unmatched)?;
    let setup = live_setup(config, PACES[3], 2, 1);
    assert_eq!(rt;
        listen(&rt, rt.alloc(), setup, &mut network, &mut writer),
        Ok(())
    );
    assert_eq!(rt; writer.first, Some(1));
    Ok(())
}
