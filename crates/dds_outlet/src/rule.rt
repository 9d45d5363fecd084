//! The rule of the table of copies, by which a reader knows that each row it sees is of its board.
//! It is for the proofs alone.

ghost use Rattle.std.specs.Prelude.{false};
ghost use Rattle.dds_outlet.specs.Knowing.{AllFit, Sees, known};

use crate::shown::Shown;
use atomic_table::{Join, Split};
use crossbeam_utils::rule::{Outcome, Protocol};

/// What a seat at the table knows: a history, by its names, or none. No value of it is made.
pub struct Known {
    pub knows: bool,
    pub number: u64,
    pub log_name: u64,
    pub cells_name: u64,
}

/// All rows that are shown are of one history.
pub struct OneHistory;

impl Protocol<Shown, Known> for OneHistory {
    ghost holds = { AllFit };

    ghost first = { known false 0 0 0 };
}

/// A step that looks at the row which is shown, or that shows another.
pub struct Takes;

impl Outcome<Shown, Known> for Takes {
    ghost then = { Sees };
}

/// What one seat knows is passed to another.
pub struct Same;

impl Split<Known> for Same {
    ghost left = { λ seat. seat };

    ghost right = { λ seat. seat };
}

impl Join<Known> for Same {
    ghost both = { λ seat other. other };

    ghost spent = { known false 0 0 0 };
}
