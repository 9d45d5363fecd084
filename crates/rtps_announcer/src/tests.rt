//! Tests.

mod asked;
mod heard;
mod memory;
mod peers;
mod readers;
mod reminded;

use crate::{Ack, Announcer, Destination, Facts, Hearing, PeerLocators, Rules, Said, Sending};
use rtps_types::{GuidPrefix, Locator, SnSet};
use std::alloc::{AllocError, Global};

/// Our participant, and two others.
const OWN: GuidPrefix = GuidPrefix([0x0b; 12]);

const ONE: GuidPrefix = GuidPrefix([1; 12]);

const TWO: GuidPrefix = GuidPrefix([2; 12]);

/// Where each of the others is sent to.
const HERE: Locator = Locator {
    port: 7410,
    address: [10, 9, 0, 2],
};

/// An announcer, and what it says.
struct Desk {
    announcer: Announcer,
    sends: Vec<Sending>,
}

impl Drop for Desk {
    fn drop(self) {
        let Desk { announcer, sends } = self;
        drop(announcer);
        drop(sends);
    }
}

/// What a participant with a reader of readers says of itself.
fn facts(lease: Option<u64>) -> Facts {
    let mut to = PeerLocators::new();
    to.add(HERE);
    Facts {
        to,
        lease,
        hears: true,
    }
}

/// An ACKNACK without members.
fn acks(base: u64, count: i32) -> Option<Ack> {
    if base == 0 || base >= 1 << 63 {
        return None;
    }
    let missing = SnSet {
        base,
        bits: 0,
        words: [0; 8],
    };
    Some(Ack::new(missing, count, true))
}

/// An ACKNACK that asks for all 32 numbers from a base on.
fn asks(base: u64, count: i32) -> Option<Ack> {
    if base == 0 || base >= 1 << 63 {
        return None;
    }
    let missing = SnSet {
        base,
        bits: 32,
        words: [0xffff_ffff, 0, 0, 0, 0, 0, 0, 0],
    };
    Some(Ack::new(missing, count, false))
}

impl Desk {
    fn new(alloc: Global) -> Desk {
        Desk {
            announcer: Announcer::new(alloc, OWN, Rules::DEFAULT),
            sends: Vec::new(alloc),
        }
    }

    /// With a peer, and nothing said.
    fn with_peer(alloc: Global) -> Result<Desk, AllocError> {
        let mut desk = Desk::new(alloc);
        desk.hear(alloc, &Hearing::Comes(ONE, facts(None)))?;
        desk.sends.clear();
        Ok(desk)
    }

    /// What is said by a hearing alone is in the list.
    fn hear(&mut self, alloc: Global, hearing: &Hearing) -> Result<(), AllocError> {
        self.sends.clear();
        self.announcer.hear(alloc, hearing, &mut self.sends)
    }

    fn tick(&mut self, alloc: Global, moment: u64) -> Result<(), AllocError> {
        self.sends.clear();
        self.announcer.tick(alloc, moment, &mut self.sends)
    }

    fn add_reader(&mut self, alloc: Global) -> Result<u32, AllocError> {
        self.sends.clear();
        self.announcer.add_reader(alloc, &mut self.sends)
    }

    fn remove_reader(&mut self, alloc: Global, rank: u32) -> Result<(), AllocError> {
        self.sends.clear();
        self.announcer.remove_reader(alloc, rank, &mut self.sends)
    }

    /// Whether just this is said, in order.
    fn says(&self, expected: &[Said]) -> bool {
        self.sends.len() == expected.len()
            && self
                .sends
                .iter()
                .zip(expected)
                .all(|(sending, said)| sending.said == *said)
    }

    /// Whether all that is said goes to one participant, at its locator.
    fn says_to(&self, prefix: GuidPrefix) -> bool {
        self.sends.iter().all(|sending| is_to(sending, prefix))
    }
}

/// Whether something is said to a participant, at its locator.
fn is_to(sending: &Sending, prefix: GuidPrefix) -> bool {
    match &sending.to {
        Destination::Peer(to, at) => *to == prefix && at.as_slice() == [HERE].as_slice(),
        Destination::Everyone => false,
    }
}
