//! The contents of the two copies of the table.

ghost use Rattle.std.specs.Prelude.{◌≡◌, None, Some};
ghost use Rattle.std.specs.List.{last_or};
ghost use Rattle.dds_outlet.specs.History.{rows_of};
ghost use Rattle.dds_outlet.specs.Rows.{row_view};

use crate::history::Front;
use crate::row::Row;
use left_right::Absorb;
use std::alloc::AllocError;

/// A row that readers may see, with the front of the history that ends in it.
#[derive(Drop)]
pub struct Shown {
    pub row: Row,
    pub front: Front,
    ghost ends: { last_or None (rows_of front.seen.log) ≡ Some (row_view row) },
}

/// The table requires a type of operations. None is ever logged: the spare copy is replaced as a
/// whole.
impl Absorb<u64> for Shown {
    type State = ();

    ghost state = { λ _. tt };

    ghost applied = { λ _ _. tt };

    fn absorb_first(&mut self, _operation: &u64, _other: &Shown) -> Result<(), AllocError> {
        Ok(())
    }
}
