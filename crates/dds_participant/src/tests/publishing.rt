//! Rows that a participant publishes.

ghost use Rattle.std.specs.Prelude.{◌≡◌};

use super::coming::add_up_to_300;
use super::{DATA, HEARTBEAT, LATER, config, reader_config, status, take, unmatched};
use crate::*;
use dds_outlet::{Look, StatusBoard, StatusReader, Told};
use dds_topic::{Catalog, Shapes};
use rtps_shards::NoGate;
use rtps_types::Datagram;
use std::alloc::Global;
use std::sync::Wait;
use std::test::Fail;
use std::thread::{Threads, join};

/// What a look shows of the readers of the ranks 0, 1 and 2.
pub(super) type Looks = [Option<Look>; 3];

/// What is shown of two readers once each has a sample and the second one has lost some numbers.
pub(super) fn looks(batch: u64, lost: u32) -> Looks {
    let look = |lost: u32| status(lost).map(|status| Look { batch, status });
    [look(0), look(lost), None]
}

/// What is shown of three ranks when a participant has published.
pub(super) fn shown<C: Catalog, R: Wait>(
    rt: &R,
    alloc: Global,
    participant: &Participant<C>,
) -> Result<Looks, Fail> {
    let mut board = StatusBoard::new(rt, alloc, 2, 1)?;
    let published = participant.publish(rt, alloc, &mut board);
    let mut looks = [None, None, None];
    if let Some(mut reader) = board.reader() {
        looks = [reader.look(0), reader.look(1), reader.look(2)];
    }
    board.end(rt);
    published?;
    Ok(looks)
}

#[test]
fn a_row_shows_the_last_batch(rt: HostRuntime) -> Result<(), Fail> {
    let alloc = rt.alloc();
    let mut participant = Participant::new(alloc, config(alloc)?, Shapes)?;
    let mut lines = Vec::new(alloc);
    let batches: [(&[&[u8]], u64, u32); 2] = [(&[DATA], 1, 0), (&[HEARTBEAT, LATER], 2, 1)];
    for (datagrams, batch, lost) in batches {
        take(
            &rt,
            alloc,
            &NoGate,
            &mut participant,
            (datagrams, 1),
            &mut lines,
        )?;
        assert_eq!(rt; shown(&rt, alloc, &participant)?, looks(batch, lost));
    }
    Ok(())
}

/// The number of batches that a reader sees once it has learnt what was published.
fn batch_seen(reader: StatusReader, told: Told) -> Option<u64>
    requires { told.board ≡ reader.board }
{
    let mut reader = reader;
    reader.learn(told);
    let look = reader.look(1)?;
    Some(look.batch)
}

/// Has a participant take one more batch and publish. Returns whether both succeeded.
fn takes_and_publishes<R: Threads + Wait + Sync>(
    rt: &R,
    alloc: Global,
    participant: &mut Participant<Shapes>,
    board: &mut StatusBoard,
) -> bool
    ensures { board.new.board ≡ board.old.board }
{
    let batch = [Datagram {
        moment: 0,
        bytes: HEARTBEAT,
    }];
    if !is_batch(&batch) {
        return false;
    }
    let taken = participant.run_batch(rt, alloc, &NoGate, &batch, 1);
    taken.is_ok() && participant.publish(rt, alloc, board).is_ok()
}

#[test]
fn a_look_shows_no_batch_before_what_was_learnt(rt: HostRuntime) -> Result<(), Fail> {
    let alloc = rt.alloc();
    let mut participant = Participant::new(alloc, config(alloc)?, Shapes)?;
    let mut board = StatusBoard::new(&rt, alloc, 2, 1)?;
    let Some(reader) = board.reader() else {
        board.end(&rt);
        return Err(Fail::new("no reader"));
    };
    let first = takes_and_publishes(&rt, alloc, &mut participant, &mut board);
    let told = board.tell();
    let (second, seen) = join(
        &rt,
        || takes_and_publishes(&rt, alloc, &mut participant, &mut board),
        move || -> Option<u64>
            requires { told.board ≡ reader.board }
        { batch_seen(reader, told) },
    );
    board.end(&rt);
    assert!(rt; first && second);
    assert!(rt; seen == Some(1) || seen == Some(2));
    Ok(())
}

/// The ranks of which a look shows something, with the number of the batch and of the samples.
fn samples_of(looks: &Looks) -> [Option<(u64, u32)>; 3] {
    let of = |look: &Option<Look>| match look {
        Some(look) => Some((look.batch, look.status.samples)),
        None => None,
    };
    [of(&looks[0]), of(&looks[1]), of(&looks[2])]
}

#[test]
fn a_row_has_the_readers_that_are_there(rt: HostRuntime) -> Result<(), Fail> {
    let alloc = rt.alloc();
    let mut participant = Participant::new(alloc, config(alloc)?, Shapes)?;
    let mut lines = Vec::new(alloc);
    take(
        &rt,
        alloc,
        &NoGate,
        &mut participant,
        (&[DATA], 1),
        &mut lines,
    )?;
    let before = shown(&rt, alloc, &participant)?;
    assert_eq!(rt; samples_of(&before), [Some((1, 1)), Some((1, 1)), None]);
    let _last = participant.remove_reader(alloc, 0)?;
    let without = shown(&rt, alloc, &participant)?;
    assert_eq!(rt; samples_of(&without), [None, Some((2, 1)), None]);
    let _begun = participant.add_reader(alloc, reader_config(alloc, 0)?)?;
    let after = shown(&rt, alloc, &participant)?;
    assert_eq!(rt; samples_of(&after), [None, Some((3, 1)), Some((3, 0))]);
    Ok(())
}

/// Whether a look shows the reader of rank 300 and the first one, and none of the ranks between.
fn shows_300<R: Wait>(
    rt: &R,
    alloc: Global,
    participant: &Participant<Shapes>,
) -> Result<bool, Fail> {
    let mut board = StatusBoard::new(rt, alloc, 1, 1)?;
    let published = participant.publish(rt, alloc, &mut board);
    let mut is_shown = false;
    if let Some(mut reader) = board.reader() {
        is_shown = reader.look(0).is_some()
            && reader.look(1).is_none()
            && reader.look(299).is_none()
            && reader.look(300).is_some()
            && reader.look(301).is_none();
    }
    board.end(rt);
    published?;
    Ok(is_shown)
}

#[test]
fn a_row_has_ranks_above_256(rt: HostRuntime) -> Result<(), Fail> {
    let alloc = rt.alloc();
    let mut participant = Participant::new(alloc, unmatched(alloc, 1)?, Shapes)?;
    add_up_to_300(alloc, &mut participant)?;
    assert!(rt; shows_300(&rt, alloc, &participant)?);
    Ok(())
}
