//! What a reader of a board learns, and why a look shows nothing.

use crate::history::Front;
use std::marker::Model;

/// The rows published up to some moment. It can be sent to any thread, for a
/// [`StatusReader`](crate::StatusReader) to learn. Contracts see those rows.
#[derive(Drop)]
pub struct Told {
    pub(crate) front: Front,
}

impl Model for Told {
    ghost use Rattle.dds_outlet.specs.Ends.{RowsView, rows_upto};

    ghost Value = { RowsView };

    ghost view = { λ t. rows_upto t.front };
}

/// Why a look shows nothing.
#[derive(Drop)]
pub enum Unseen {
    /// The row that is shown lacks the rank.
    NoRank,
    /// The row that is shown is older than the last one that the reader knows; these are the rows
    /// up to it. That can't happen, since [`StatusBoard::tell`](crate::StatusBoard::tell) gives
    /// only rows that were shown.
    Older(Told),
    /// The board wasn't entered, as after its end.
    NotEntered,
}
