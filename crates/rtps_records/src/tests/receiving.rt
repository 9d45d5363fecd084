//! Tests of receiving datagrams into batches.

use crate::{Batch, MAX_LEN, Receive, ReceiveEnd};
use std::alloc::Global;
use std::io::{self, Error, ErrorKind};
use std::test::Fail;

/// A source of datagrams of these lengths, each filled with an octet that tells which one it is.
/// After them none comes, or the source fails.
#[derive(Drop)]
struct Coming<'a> {
    lengths: &'a [usize],
    number: u8,
    fails: bool,
}

impl Receive for Coming<'_> {
    ghost use Rattle.std.specs.Prelude.{None};
    ghost use Rattle.rtps_records.specs.Speech.{silence};

    ghost traffic = { λ _. None };

    ghost speech = { λ _. silence };

    fn receive(&mut self, room: &mut [u8]) -> io::Result<Option<usize>> {
        let Some((length, rest)) = self.lengths.split_first() else {
            if self.fails {
                return Err(Error::from(ErrorKind::Other));
            }
            return Ok(None);
        };
        let length = room.len().min(*length);
        room[..length].fill(self.number);
        self.lengths = rest;
        self.number = self.number.wrapping_add(1);
        Ok(Some(length))
    }
}

fn source_of(lengths: &[usize], fails: bool) -> Coming<'_> {
    Coming {
        lengths,
        number: 7,
        fails,
    }
}

/// Returns the moment and the length of each datagram of a batch, and its first octet, or 0 if it
/// is empty.
fn seen(alloc: Global, batch: &Batch) -> Result<Vec<(u64, usize, u8)>, Fail> {
    let mut seen = Vec::new(alloc);
    for datagram in batch.datagrams(alloc)? {
        let first = datagram.bytes.first().copied().unwrap_or(0);
        seen.push((datagram.moment, datagram.bytes.len(), first))?;
    }
    Ok(seen)
}

#[test]
fn a_batch_has_the_datagrams_that_came_in_order(rt: HostRuntime) -> Result<(), Fail> {
    let mut batch = Batch::new(rt.alloc())?;
    let mut source = source_of(&[2, 0, 3], false);
    assert_eq!(rt; batch.receive(&mut source, 20, 2), Ok(ReceiveEnd::More));
    assert_eq!(rt;
        seen(rt.alloc(), &batch)?.as_slice(),
        [(20, 2, 7), (20, 0, 0)].as_slice()
    );
    assert_eq!(rt; batch.receive(&mut source, 25, 2), Ok(ReceiveEnd::Drained));
    assert_eq!(rt;
        seen(rt.alloc(), &batch)?.as_slice(),
        [(25, 3, 9)].as_slice()
    );
    assert!(rt; batch.len() == 1 && !batch.is_empty());
    assert_eq!(rt; batch.receive(&mut source, 25, 2), Ok(ReceiveEnd::Drained));
    assert!(rt; batch.len() == 0 && batch.is_empty());
    assert_eq!(rt; batch.receive(&mut source, 25, 0), Ok(ReceiveEnd::More));
    Ok(())
}

#[test]
fn a_batch_keeps_what_came_before_a_fault(rt: HostRuntime) -> Result<(), Fail> {
    let mut batch = Batch::new(rt.alloc())?;
    let mut source = source_of(&[5], true);
    assert_eq!(rt; batch.receive(&mut source, 25, 9), Ok(ReceiveEnd::Fault));
    assert_eq!(rt;
        seen(rt.alloc(), &batch)?.as_slice(),
        [(25, 5, 7)].as_slice()
    );
    Ok(())
}

#[test]
fn a_batch_has_room_for_as_many_of_the_longest_as_fit(rt: HostRuntime) -> Result<(), Fail> {
    let mut batch = Batch::new(rt.alloc())?;
    let mut source = source_of(&[MAX_LEN; 17], false);
    assert_eq!(rt; batch.receive(&mut source, 25, 4096), Ok(ReceiveEnd::More));
    assert_eq!(rt; batch.datagrams(rt.alloc())?.len(), 16);
    assert_eq!(rt;
        batch.receive(&mut source, 25, 4096),
        Ok(ReceiveEnd::Drained)
    );
    assert_eq!(rt;
        seen(rt.alloc(), &batch)?.as_slice(),
        [(25, MAX_LEN, 23)].as_slice()
    );
    Ok(())
}
