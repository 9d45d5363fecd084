//! The board of statuses.

ghost use Rattle.std.specs.Prelude.{◌≡◌, ◌≤◌, ◌⊎◌, ◌^◌, [], ◌∷◌, ◌++◌, IfOk, IfSome, MatchResult, length};
ghost use mathlib.Core.List.{IsPrefix};
ghost use Rattle.left_right.specs.Sides.{view};
ghost use Rattle.dds_outlet.specs.Rows.{look_at, opening, row_view};
ghost use Rattle.dds_outlet.specs.History.{rows_of};
ghost use Rattle.dds_outlet.specs.Knowing.{Knows, Sees};
ghost use Rattle.dds_outlet.specs.Ends.{Looks};
ghost use Rattle.dds_outlet.specs.Looking.{Finds, FindsIn};

use crate::history::{Front, Head};
use crate::row::{IDLE, Look, Row};
use crate::rule::{Known, OneHistory, Same, Takes};
use crate::shown::Shown;
use crate::told::{Told, Unseen};
use core::mem::replace_with;
use left_right::reader::{Reader, Reading};
use left_right::writer::Writer;
use std::alloc::{AllocError, Global};
use std::marker::Model;
use std::sync::Wait;

type BoardWriter = Writer<Shown, u64, Known, OneHistory>;

type BoardReader = Reader<Shown, Known, OneHistory>;

type BoardReading = Reading<Shown, Known, OneHistory>;

/// The end of a board that publishes rows, for the thread that receives. Contracts see all rows
/// published so far, the opening row first.
///
/// It is not `Drop`: [`StatusBoard::end`] ends it, which waits for readers that are looking. The
/// thread that receives has the board, and another thread has a reader of it:
///
/// ```text
/// let mut board = StatusBoard::new(&rt, alloc, 1, 4)?;
/// if let Some(mut reader) = board.reader() {
///     // in the thread that receives
///     let published = board.publish(&rt, Row { batch: 1, statuses });
///     let knowledge = board.tell();
///     // in the other thread: the row that was published, or a later one
///     reader.learn(knowledge);
///     let look = reader.look(0);
/// }
/// board.end(&rt);
/// ```
pub struct StatusBoard {
    pub(crate) writer: BoardWriter,
    /// The right to add rows. No other end has it, so no other end adds rows.
    pub(crate) head: Head,
}

impl Model for StatusBoard {
    ghost use Rattle.std.specs.Prelude.{◌≡◌};
    ghost use Rattle.left_right.specs.Sides.{view as known_by};
    ghost use Rattle.dds_outlet.specs.History.{Leads};
    ghost use Rattle.dds_outlet.specs.Knowing.{Knows};
    ghost use Rattle.dds_outlet.specs.Ends.{RowsView, rows_upto};

    ghost Value = { RowsView };

    ghost view = { λ b. rows_upto b.writer.desk.shown.value.front };

    ghost invariant = { λ b.
        Leads b.head b.writer.desk.shown.value.front.seen.book
        b.writer.desk.shown.value.front.seen.log
        × Knows (known_by b.writer.desk.place) b.writer.desk.shown.value.front.seen.book };
}

/// An end of a board that reads the newest row, for one thread at a time. It can move to another
/// thread, and outlive the board. Contracts see the rows up to the last one that it saw or learnt.
#[derive(Drop)]
pub struct StatusReader {
    reader: BoardReader,
    front: Front,
}

impl Model for StatusReader {
    ghost use Rattle.left_right.specs.Sides.{view as known_by};
    ghost use Rattle.dds_outlet.specs.Knowing.{Knows};
    ghost use Rattle.dds_outlet.specs.Ends.{RowsView, rows_upto};

    ghost Value = { RowsView };

    ghost view = { λ r. rows_upto r.front };

    ghost invariant = { λ r. Knows (known_by r.reader.place) r.front.seen.book };
}

/// Returns a row of idle statuses, for the ranks below `readers`.
fn opening_row(alloc: Global, readers: u32) -> Result<Row, AllocError>
    ensures { IfOk result (λ row. row_view row ≡ opening readers) }
{
    let mut statuses = Vec::with_capacity(alloc, readers as usize)?;
    for rank in 0..readers {
        statuses.push((rank, IDLE))?;
    }
    Ok(Row { batch: 0, statuses })
}

/// Returns what a row has for a rank, or `None` where it lacks the rank.
fn find(row: &Row, rank: u32) -> Option<Look>
    ensures { result ≡ look_at (row_view row.now) rank }
{
    for entry in &row.statuses {
        if entry.0 == rank {
            return Some(Look {
                batch: row.batch,
                status: entry.1,
            });
        }
    }
    None
}

/// Replaces the row that is shown. It takes no memory, so that each row of the history is shown.
///
/// The desk of a `Writer`, its `open` and its `show_as` are public in `left_right` but
/// undocumented, so they are called only here. If a later version hides them, a row can be an
/// operation instead (an `Arc<Row>`), which is appended and published by `publish_as`. Then `new`
/// has to take the room for a few operations, and a board whose table refuses a row that its
/// history has must refuse all later ones.
fn show<R: Wait>(rt: &R, mut writer: BoardWriter, next: Shown) -> BoardWriter
    requires { next.front.seen.book ≡ writer.desk.shown.value.front.seen.book }
    ensures shown { result.desk.shown.value ≡ next }
    ensures seat { Sees (view writer.desk.place) writer.desk.shown.value next
        (view result.desk.place) }
{
    let (open, mut spare) = writer.desk.open(rt);
    *spare = next;
    writer.desk = open.show_as::<Takes>(spare);
    writer
}

/// Adds a row to the history, and then shows it.
#[tactic(auto, using(crate::proofs::Opening::last_added))]
fn put_up<R: Wait>(rt: &R, board: StatusBoard, row: Row) -> (StatusBoard, Result<(), Row>)
    ensures board { result.0.board ≡ board.board }
    ensures rows { MatchResult result.1
        (λ _. result.0.rows ≡ board.rows ++ row_view row ∷ [])
        (λ back. (back ≡ row) × (result.0.rows ≡ board.rows) × (length board.rows ≡ 2 ^ 64)) }
{
    let StatusBoard { writer, head } = board;
    let (head, added) = writer.published().front.added(head, &row);
    match added {
        None => (StatusBoard { writer, head }, Err(row)),
        Some(front) => {
            let writer = show(rt, writer, Shown { row, front });
            (StatusBoard { writer, head }, Ok(()))
        }
    }
}

/// Looks at a rank in the row that is shown, and leaves the board.
fn look_in(reading: BoardReading, front: Front, rank: u32) -> (StatusReader, Result<Look, Unseen>)
    requires { Knows (view reading.place) front.seen.book
        × (reading.part.value.front.seen.book ≡ front.seen.book) }
    ensures board { result.0.board ≡ front.seen.book }
    ensures look { FindsIn (rows_of reading.part.value.front.seen.log) (rows_of front.seen.log)
        result.0.rows rank result.1 }
{
    let mut front = front;
    let shown = reading.get();
    let found = if front.reach(&shown.front) {
        find(&shown.row, rank).ok_or(Unseen::NoRank)
    } else {
        let front = shown.front.again();
        Err(Unseen::Older(Told { front }))
    };
    let reader = reading.leave();
    (StatusReader { reader, front }, found)
}

/// Looks at a rank once.
fn look_once(end: StatusReader, rank: u32) -> (StatusReader, Result<Look, Unseen>)
    ensures board { result.0.board ≡ end.board }
    ensures look { Finds end.rows result.0.rows rank result.1 }
{
    let StatusReader { reader, front } = end;
    match reader.enter_as::<Takes>() {
        Err(reader) => (StatusReader { reader, front }, Err(Unseen::NotEntered)),
        Ok(reading) => look_in(reading, front, rank),
    }
}

impl StatusBoard {
    /// Returns a board with places for `places` status readers, which shows the opening row: batch
    /// 0, and for each rank below `readers` the status of a reader that has no fixed matches and
    /// has received nothing. An error is a refused growth. No later call takes memory.
    ///
    /// It shows that row by the same step as [`StatusBoard::publish`], so its bound `Wait` allows
    /// it to wait, and its result is promised only if it returns. But there is no reader yet to
    /// wait for.
    pub fn new<R: Wait>(
        rt: &R,
        alloc: Global,
        readers: u32,
        places: usize,
    ) -> Result<StatusBoard, AllocError>
        requires readers { (1 ≤ readers) × (readers ≤ 256) }
        requires places { (1 ≤ places) × (places ≤ 64) }
        ensures { IfOk result (λ board. board.rows ≡ opening readers ∷ []) }
    {
        let row = opening_row(alloc, readers)?;
        // It is never refused, since nobody else has this history.
        let (head, front) = Front::open(&row).ok_or(AllocError)?;
        let first = Shown {
            row: opening_row(alloc, readers)?,
            front: front.again(),
        };
        let second = Shown {
            row: opening_row(alloc, readers)?,
            front: front.again(),
        };
        let writer = Writer::new(alloc, first, second, places)?;
        // The writer learns the history of its rows only when it shows one.
        let writer = show(rt, writer, Shown { row, front });
        Ok(StatusBoard { writer, head })
    }

    /// Returns a reader that knows all rows published so far. It has one of the board's places
    /// until it is dropped. `None` says that no place was found. That may happen at any time, for
    /// example while readers come and go.
    pub fn reader(&mut self) -> Option<StatusReader>
        ensures board { self.new ≡ self.old }
        ensures reader { IfSome result (λ reader. reader ≡ self.old) }
    {
        let mut reader = self.writer.factory().reader().ok()?;
        reader.learn::<Same>(self.writer.tell::<Same>());
        Some(StatusReader {
            reader,
            front: self.writer.published().front.again(),
        })
    }

    /// Shows a row to each look from now on. It may have more ranks than the rows before, or fewer,
    /// and its number of batches isn't compared with theirs.
    ///
    /// It takes no memory: the row overwrites the row before the last one. So it waits for readers
    /// that still look at that one, and its result is promised only if it returns. A row is
    /// returned as the error only after 2^64 - 1 rows, when no number is left.
    pub fn publish<R: Wait>(&mut self, rt: &R, row: Row) -> Result<(), Row>
        ensures board { self.new.board ≡ self.old.board }
        ensures rows { MatchResult result
            (λ _. self.new.rows ≡ self.old.rows ++ row_view row ∷ [])
            (λ back. (back ≡ row) × (self.new.rows ≡ self.old.rows)
            × (length self.old.rows ≡ 2 ^ 64)) }
    {
        replace_with(self, row, |board, row| put_up(rt, board, row))
    }

    /// Returns the rows published so far, for readers of this board to learn.
    pub fn tell(&self) -> Told
        ensures { result ≡ self.now }
    {
        Told {
            front: self.writer.published().front.again(),
        }
    }

    /// A law, for proofs alone: of the rows that a reader knows and the rows that were published,
    /// one list is a prefix of the other.
    pub fn one_list(&self, reader: &StatusReader)
        requires { reader.now.board ≡ self.now.board }
        ensures { IsPrefix reader.now.rows self.now.rows
            ⊎ IsPrefix self.now.rows reader.now.rows }
    {
        self.writer.published().front.one_list(&reader.front);
    }

    /// Ends the board. It waits for readers that are looking; after it has returned, every look is
    /// `None`.
    pub fn end<R: Wait>(self, rt: &R) {
        let StatusBoard { writer, head: _ } = self;
        drop(writer.take(rt));
    }
}

impl StatusReader {
    /// Returns what the newest row says of a rank. It doesn't wait and takes no memory. While it
    /// copies the status, a `publish` that needs this row's place in memory waits for it.
    ///
    /// `None` says that the row lacks the rank, or that the board can't be entered, as when it has
    /// ended: [`StatusReader::try_look`] says which.
    pub fn look(&mut self, rank: u32) -> Option<Look>
        ensures board { self.new.board ≡ self.old.board }
        ensures look { Looks self.old.rows self.new.rows rank result }
    {
        self.try_look(rank).ok()
    }

    /// Looks as [`StatusReader::look`] does, and says why where it shows nothing. Where the board is
    /// entered, a rank that the row has is shown.
    pub fn try_look(&mut self, rank: u32) -> Result<Look, Unseen>
        ensures board { self.new.board ≡ self.old.board }
        ensures look { Finds self.old.rows self.new.rows rank result }
    {
        replace_with(self, rank, look_once)
    }

    /// Learns rows: from now on no look shows a row before the last one of `told`. It changes
    /// nothing if the reader has already seen that row or a later one.
    pub fn learn(&mut self, told: Told)
        requires { told.board ≡ self.old.board }
        ensures board { self.new.board ≡ self.old.board }
        ensures one { (self.new.rows ≡ self.old.rows) ⊎ (self.new.rows ≡ told.rows) }
        ensures later { IsPrefix self.old.rows self.new.rows × IsPrefix told.rows self.new.rows }
    {
        let _reached = self.front.reach(&told.front);
    }
}
