//! Sending answers to a network that keeps them.

use crate::send_answers;
use dds_topic::Shape;
use rtps_reader::Output;
use rtps_records::{Exchange, Receive};
use rtps_run::BatchOutput;
use rtps_types::{Locator, Locators, Octets, Place, Reply};
use std::alloc::{AllocError, Global};
use std::io;
use std::test::Fail;

/// A network that keeps the port and the first octet of each datagram that is sent.
#[derive(Drop)]
struct Kept {
    sent: Vec<(u16, u8)>,
}

impl Receive for Kept {
    ghost use Rattle.std.specs.Prelude.{None};
    ghost use Rattle.rtps_records.specs.Speech.{silence};

    ghost traffic = { λ _. None };

    ghost speech = { λ _. silence };

    fn receive(&mut self, _room: &mut [u8]) -> io::Result<Option<usize>> {
        Ok(None)
    }
}

impl Exchange for Kept {
    fn wait(&mut self) -> io::Result<u64> {
        Ok(0)
    }

    fn send(&mut self, to: Locator, octets: &[u8]) {
        let first = octets.first().copied().unwrap_or(0);
        let _kept = self.sent.push((to.port, first));
    }
}

const FIRST: Place = Place {
    datagram: 0,
    submessage: 1,
};

const SECOND: Place = Place {
    datagram: 0,
    submessage: 2,
};

const THIRD: Place = Place {
    datagram: 4,
    submessage: 1,
};

/// Returns locators of this machine with these ports.
fn locators(alloc: Global, ports: &[u16]) -> Result<Locators, AllocError> {
    let mut locators = Vec::new(alloc);
    for port in ports {
        locators.push(Locator {
            port: *port,
            address: [127, 0, 0, 1],
        })?;
    }
    Ok(Locators::new(locators))
}

/// Returns an answer of one octet to these ports.
fn reply(alloc: Global, ports: &[u16], octet: u8) -> Result<Reply, AllocError> {
    Ok(Reply {
        to: locators(alloc, ports)?,
        octets: Octets::new([octet].to_vec(alloc)?),
    })
}

/// Returns the output of a reader that has only these answers.
fn output(alloc: Global, replies: &[(Place, u16, u8)]) -> Result<Output<Shape>, AllocError> {
    let mut answers = Vec::new(alloc);
    for (place, port, octet) in replies {
        answers.push((*place, reply(alloc, &[*port], *octet)?))?;
    }
    Ok(Output {
        notices: Vec::new(alloc),
        answers,
    })
}

#[test]
fn answers_go_by_place_and_to_each_locator(rt: HostRuntime) -> Result<(), Fail> {
    let alloc = rt.alloc();
    let mut given = BatchOutput::new(alloc);
    given.places = [FIRST, SECOND, THIRD].to_vec(alloc)?;
    let answer = reply(alloc, &[7412, 7414], 1)?;
    given.answers.push((SECOND, answer))?;
    given.answers.push((THIRD, reply(alloc, &[], 2)?))?;
    let first = [(FIRST, 7416, 3), (SECOND, 7416, 4)];
    given.outputs.push(output(alloc, &first)?)?;
    given.outputs.push(output(alloc, &[])?)?;
    let last = [(FIRST, 7418, 5), (FIRST, 7412, 6), (THIRD, 7418, 7)];
    given.outputs.push(output(alloc, &last)?)?;
    let mut network = Kept {
        sent: Vec::new(alloc),
    };
    send_answers(alloc, &mut network, &given)?;
    let wanted = [
        (7416, 3),
        (7418, 5),
        (7412, 6),
        (7412, 1),
        (7414, 1),
        (7416, 4),
        (7418, 7),
    ];
    assert_eq!(rt; network.sent.as_slice(), wanted.as_slice());
    Ok(())
}
