//! A board of items: its owner pushes and takes them, and thieves take them on any thread.

ghost use Rattle.std.specs.Prelude.{◌≡◌, ◌<◌};
ghost use Rattle.crossbeam_deque.specs.Handles.{view, IsPassOf, stealer_deque, worker_flavor, worker_view};

use crossbeam_deque::protocol::{Join, Outcome, Protocol, Split};
use crossbeam_deque::{Pass, Stealer, Worker};
use std::alloc::Global;
use std::collections::LinkedList;

/// What contracts see of an end: the number of its parts of the right to know all pushes and takes,
/// the items that it has pushed and those that it has taken. No value of this type is made.
pub struct Hand<T> {
    pub parts: u64,
    pub put: LinkedList<T>,
    pub taken: LinkedList<T>,
}

/// The rule that all ends of a board keep: `Balanced` in `specs/Board.antt`.
pub struct Fair;

impl<T> Protocol<T, Hand<T>> for Fair {
    ghost use Rattle.std.specs.Prelude.{[]};
    ghost use Rattle.rtps_shards.specs.Board.{hand, Balanced};

    ghost holds = { Balanced };

    ghost first = { hand 1024 [] [] };

    ghost guest = { hand 0 [] [] };
}

/// How a part is given to a thief, and taken back with what the thief took.
pub struct Cut;

impl<T> Split<Hand<T>> for Cut {
    ghost use Rattle.std.specs.Prelude.{[], ◌-◌};
    ghost use Rattle.rtps_shards.specs.Board.{hand};

    ghost left = { λ v. hand (v.parts - 1) v.put v.taken };

    ghost right = { λ v. hand 1 [] [] };
}

impl<T> Join<Hand<T>> for Cut {
    ghost use Rattle.std.specs.Prelude.{[], ◌++◌, ◌+◌};
    ghost use Rattle.rtps_shards.specs.Board.{hand};

    ghost both = { λ v w. hand (v.parts + w.parts) (v.put ++ w.put) (v.taken ++ w.taken) };

    ghost spent = { hand 0 [] [] };
}

pub(crate) struct Puts;

impl<T> Outcome<T, Hand<T>> for Puts {
    ghost use Rattle.std.specs.Prelude.{◌≡◌, ◌++◌};
    ghost use Rattle.rtps_shards.specs.Board.{hand};

    ghost then = { λ v xs w. w ≡ hand v.parts (v.put ++ xs) v.taken };
}

pub(crate) struct Takes;

impl<T> Outcome<T, Hand<T>> for Takes {
    ghost use Rattle.rtps_shards.specs.Board.{HasTakenMore, Settles};

    ghost then = { HasTakenMore };

    ghost empty = { Settles };
}

pub(crate) struct Robs;

impl<T> Outcome<T, Hand<T>> for Robs {
    ghost use Rattle.std.specs.Prelude.{◌≡◌, ◌++◌};
    ghost use Rattle.rtps_shards.specs.Board.{hand};

    ghost then = { λ v xs w. w ≡ hand v.parts v.put (v.taken ++ xs) };
}

pub(crate) type Owner<T> = Worker<T, Global, Hand<T>, Fair>;

pub(crate) type Robber<T> = Stealer<T, Global, Hand<T>, Fair>;

/// The owner's end of a board: items are taken in the order in which they were pushed.
///
/// ```text
/// let (mut board, thieves) = Board::new(alloc, 2, 1)?;
/// let pushed = board.push(RED);
/// for mut thief in thieves {
///     // On a thread of its own: `Item(RED)`, or `Again` where another end takes at this moment.
///     let stolen = thief.steal();
///     board.give_back(thief);
/// }
/// // All thieves are back: `None` says that all items were taken.
/// let left = board.pop();
/// ```
#[derive(Drop)]
pub struct Board<T> {
    pub(crate) owner: Owner<T>,
    ghost first_out: { worker_flavor owner ≡ 0 },
    ghost some: { 0 < (worker_view owner).parts },
}

/// The result of [`Thief::steal`].
#[derive(Drop)]
pub enum Stolen<T> {
    /// The oldest item on the board.
    Item(T),
    /// The board was empty.
    Empty,
    /// Another end was taking an item; the steal may be tried again.
    Again,
}

/// An end that takes items on any thread.
#[derive(Drop)]
pub struct Thief<T> {
    pub(crate) robber: Robber<T>,
    pub(crate) pass: Pass<T, Hand<T>>,
    ghost one: { IsPassOf (stealer_deque robber) pass },
    ghost some: { 0 < (view pass).parts },
}
