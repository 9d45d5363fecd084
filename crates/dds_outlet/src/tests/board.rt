//! Boards that are published to, and looked at from other threads.

ghost use Rattle.std.specs.Prelude.{◌≡◌, ◌≤◌, [], ◌∷◌, ◌++◌, true};
ghost use Rattle.dds_outlet.specs.Ends.{NotBefore};
ghost use Rattle.dds_outlet.specs.Rows.{row_view};

use crate::*;
use rtps_reader::Status;
use rtps_types::PolicyId;
use std::alloc::{AllocError, Global};
use std::sync::Wait;
use std::test::Fail;
use std::thread::{Threads, join};

/// A status that no other batch or rank has.
fn status_of(batch: u64, rank: u32) -> Status {
    Status {
        matched_total: 2,
        matched_now: 1,
        incompatible_total: 3,
        last_policy: Some(PolicyId::Reliability),
        lost_total: rank,
        samples: u32::try_from(batch).unwrap_or(u32::MAX),
    }
}

/// What a look at a rank shows once a batch is published.
fn seen_of(batch: u64, rank: u32) -> Option<Look> {
    let status = status_of(batch, rank);
    Some(Look { batch, status })
}

/// What a look at a rank shows before anything is published.
const OPENING: Option<Look> = Some(Look {
    batch: 0,
    status: Status {
        matched_total: 0,
        matched_now: 0,
        incompatible_total: 0,
        last_policy: None,
        lost_total: 0,
        samples: 0,
    },
});

/// The row of a batch, with the ranks below `ranks`.
fn row(alloc: Global, batch: u64, ranks: u32) -> Result<Row, AllocError> {
    let mut statuses = Vec::new(alloc);
    for rank in 0..ranks {
        statuses.push((rank, status_of(batch, rank)))?;
    }
    Ok(Row { batch, statuses })
}

/// A reader that learns what was published looks twice.
fn look_twice(
    reader: StatusReader,
    told: Told,
    rank: u32,
) -> (StatusReader, Option<Look>, Option<Look>)
    requires { told.board ≡ reader.board }
    ensures { NotBefore reader.rows told.rows rank result.1 result.2 result.0.rows }
{
    let mut reader = reader;
    reader.learn(told);
    let first = reader.look(rank);
    let second = reader.look(rank);
    (reader, first, second)
}

/// The law of the board, with two threads: a row is published; then a reader in another thread
/// learns that, and looks twice, while a second row is published.
fn look_from_another_thread<R: Threads + Wait + Sync>(
    rt: &R,
    board: &mut StatusBoard,
    reader: StatusReader,
    rows: (Row, Row),
    rank: u32,
) -> (bool, (StatusReader, Option<Look>, Option<Look>))
    requires { reader.board ≡ board.old.board }
    ensures { result.0 ≡ true → NotBefore
        reader.rows
        (board.old.rows ++ row_view rows.0 ∷ [])
        rank
        result.1.1
        result.1.2
        result.1.0.rows }
{
    let (first, second) = rows;
    let published = board.publish(rt, first).is_ok();
    let told = board.tell();
    let (_published, looked) = join(
        rt,
        || board.publish(rt, second),
        move || -> (StatusReader, Option<Look>, Option<Look>)
            requires { told.board ≡ reader.board }
            ensures { NotBefore reader.rows told.rows rank result.1 result.2 result.0.rows }
        { look_twice(reader, told, rank) },
    );
    (published, looked)
}

#[test]
fn a_look_shows_no_row_before_what_was_learnt(rt: HostRuntime) -> Result<(), Fail> {
    let rows = (row(rt.alloc(), 1, 1)?, row(rt.alloc(), 2, 1)?);
    let mut board = StatusBoard::new(&rt, rt.alloc(), 1, 2)?;
    let Some(reader) = board.reader() else {
        board.end(&rt);
        return Err(Fail::new("no reader"));
    };
    board.one_list(&reader);
    let (published, looked) = look_from_another_thread(&rt, &mut board, reader, rows, 0);
    let (mut reader, first, second) = looked;
    let newest = reader.look(0);
    board.end(&rt);
    assert!(rt; published);
    assert!(rt; first == seen_of(1, 0) || first == seen_of(2, 0));
    assert!(rt; second == seen_of(2, 0) || first == seen_of(1, 0) && second == first);
    assert_eq!(rt; newest, seen_of(2, 0));
    Ok(())
}

/// Publishes rows, one after the other, and counts those that were taken.
fn publish_all<R: Wait>(rt: &R, board: &mut StatusBoard, rows: Vec<Row>) -> u64 {
    let mut published: u64 = 0;
    for row in rows {
        if board.publish(rt, row).is_ok() {
            published = published.saturating_add(1);
        }
    }
    published
}

/// Looks at a rank repeatedly, and counts the looks that show a complete row that is no older than
/// the one of the look before.
fn count_sound_looks(reader: &mut StatusReader, rank: u32, looks: u32) -> u32 {
    let mut last = 0;
    let mut sound: u32 = 0;
    for _ in 0..looks {
        let look = reader.look(rank);
        let Some(Look { batch, .. }) = look else {
            continue;
        };
        let is_whole = look == OPENING || look == seen_of(batch, rank);
        if is_whole && last <= batch {
            sound = sound.saturating_add(1);
        }
        last = batch;
    }
    sound
}

#[test]
fn looks_beside_many_rows_are_whole_and_in_order(rt: HostRuntime) -> Result<(), Fail> {
    let mut rows = Vec::new(rt.alloc());
    for batch in 1..=200 {
        rows.push(row(rt.alloc(), batch, 3)?)?;
    }
    let mut board = StatusBoard::new(&rt, rt.alloc(), 3, 1)?;
    let Some(mut reader) = board.reader() else {
        board.end(&rt);
        return Err(Fail::new("no reader"));
    };
    let (published, sound) = join(
        &rt,
        || publish_all(&rt, &mut board, rows),
        || count_sound_looks(&mut reader, 2, 1000),
    );
    let newest = reader.look(2);
    board.end(&rt);
    assert_eq!(rt; published, 200);
    assert_eq!(rt; sound, 1000);
    assert_eq!(rt; newest, seen_of(200, 2));
    Ok(())
}

/// Publishes a row and then looks at a rank, without learning anything; `None` where the row is
/// refused.
fn look_after<R: Wait>(
    rt: &R,
    board: &mut StatusBoard,
    reader: &mut StatusReader,
    row: Row,
    rank: u32,
) -> Option<Look> {
    board.publish(rt, row).ok()?;
    reader.look(rank)
}

#[test]
fn a_look_shows_the_newest_row_whatever_its_ranks(rt: HostRuntime) -> Result<(), Fail> {
    let more = row(rt.alloc(), 7, 5)?;
    let fewer = row(rt.alloc(), 8, 1)?;
    let none = row(rt.alloc(), 9, 0)?;
    let mut twice = row(rt.alloc(), 10, 1)?;
    twice.statuses.push((0, status_of(99, 0)))?;
    let mut board = StatusBoard::new(&rt, rt.alloc(), 2, 1)?;
    let Some(mut reader) = board.reader() else {
        board.end(&rt);
        return Err(Fail::new("no reader"));
    };
    let opening = (reader.look(1), reader.look(2));
    let of_more = look_after(&rt, &mut board, &mut reader, more, 4);
    let of_fewer = look_after(&rt, &mut board, &mut reader, fewer, 0);
    let lacks_it = reader.look(1);
    let of_none = look_after(&rt, &mut board, &mut reader, none, 0);
    let of_twice = look_after(&rt, &mut board, &mut reader, twice, 0);
    board.end(&rt);
    assert_eq!(rt; opening, (OPENING, None));
    assert_eq!(rt; of_more, seen_of(7, 4));
    assert_eq!(rt; of_fewer, seen_of(8, 0));
    assert_eq!(rt; (lacks_it, of_none), (None, None));
    assert_eq!(rt; of_twice, seen_of(10, 0));
    Ok(())
}

/// Takes readers until no place is left, and has each look at the last of the ranks below `ranks`.
/// Returns the number of readers, and the number of those that saw the opening row.
fn readers_of(
    alloc: Global,
    board: &mut StatusBoard,
    ranks: u32,
) -> Result<(usize, usize), AllocError>
    requires { 1 ≤ ranks }
{
    let mut readers = Vec::new(alloc);
    for _ in 0..100 {
        match board.reader() {
            Some(reader) => readers.push(reader)?,
            None => break,
        }
    }
    let mut saw: usize = 0;
    for reader in &mut readers {
        if reader.look(ranks - 1) == OPENING {
            saw = saw.saturating_add(1);
        }
    }
    Ok((readers.len(), saw))
}

#[test]
fn a_board_has_as_many_readers_as_places(rt: HostRuntime) -> Result<(), Fail> {
    for (ranks, places) in [(1, 1), (2, 3), (256, 64)] {
        let mut board = StatusBoard::new(&rt, rt.alloc(), ranks, places)?;
        let first = readers_of(rt.alloc(), &mut board, ranks);
        let again = readers_of(rt.alloc(), &mut board, ranks);
        board.end(&rt);
        assert_eq!(rt; first?, (places, places));
        assert_eq!(rt; again?, (places, places));
    }
    Ok(())
}

#[test]
fn a_reader_sees_nothing_after_the_end(rt: HostRuntime) -> Result<(), Fail> {
    let mut board = StatusBoard::new(&rt, rt.alloc(), 1, 1)?;
    let Some(mut reader) = board.reader() else {
        board.end(&rt);
        return Err(Fail::new("no reader"));
    };
    let before = reader.look(0);
    let told = board.tell();
    board.end(&rt);
    reader.learn(told);
    let after = reader.look(0);
    assert_eq!(rt; (before, after), (OPENING, None));
    Ok(())
}

/// What a look found, in a word.
fn cause(found: Result<Look, Unseen>) -> &'static str {
    match found {
        Ok(_) => "a row",
        Err(Unseen::NoRank) => "no rank",
        Err(Unseen::Older(_)) => "older",
        Err(Unseen::NotEntered) => "not entered",
    }
}

#[test]
fn a_look_says_why_it_shows_nothing(rt: HostRuntime) -> Result<(), Fail> {
    let unshown = row(rt.alloc(), 1, 1)?;
    let mut board = StatusBoard::new(&rt, rt.alloc(), 1, 1)?;
    let Some(mut reader) = board.reader() else {
        board.end(&rt);
        return Err(Fail::new("no reader"));
    };
    let shown = cause(reader.try_look(0));
    let lacks_it = cause(reader.try_look(1));
    // A row that is added to the history and never shown. No public call does that.
    let StatusBoard { writer, head } = board;
    let (_head, added) = writer.published().front.added(head, &unshown);
    if let Some(front) = added {
        reader.learn(Told { front });
    }
    let older = cause(reader.try_look(0));
    drop(writer.take(&rt));
    let ended = cause(reader.try_look(0));
    assert_eq!(rt; (shown, lacks_it), ("a row", "no rank"));
    assert_eq!(rt; (older, ended), ("older", "not entered"));
    Ok(())
}
