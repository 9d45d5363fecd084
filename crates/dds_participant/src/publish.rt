//! Publishing the row of a participant on a board of statuses.

ghost use Rattle.std.specs.Prelude.{◌≡◌, ◌^◌, ◌∷◌, ◌++◌, [], IfErr, IfOk, List, MatchResult, length};
ghost use Rattle.rtps_run.specs.Input.{Input};
ghost use Rattle.rtps_run.specs.Standing.{ShowsAt, run_by};
ghost use Rattle.dds_outlet.specs.Rows.{row_view};
ghost use Rattle.dds_participant.specs.Publish.{ShowsWorld, row_of};
ghost use Rattle.dds_participant.specs.declared.publish.PublishFault.TheVariants.{Full};

use crate::participant::Participant;
use dds_outlet::{Row, StatusBoard};
use dds_topic::Catalog;
use std::alloc::{AllocError, Global};
use std::sync::Wait;

/// Why a row isn't published.
#[derive(Debug, Clone, Copy, PartialEq, Eq)]
pub enum PublishFault {
    /// There was no memory for the row.
    NoMemory,
    /// The board has no number left for a row: it has 2^64 rows with the opening row.
    Full,
}

impl<C: Catalog> Participant<C> {
    /// Returns the row of the last batch that was taken: it has the readers that are there.
    fn row(&self, alloc: Global) -> Result<Row, AllocError>
        ensures { IfOk result (λ row. row_view row
            ≡ row_of self.now.batches self.now.engine.statuses) }
    {
        let mut statuses = Vec::with_capacity(alloc, self.statuses.len())?;
        for (rank, status) in self.statuses.iter().enumerate() {
            if let Some(status) = status {
                statuses.push((rank as u32, *status))?;
            }
        }
        Ok(Row {
            batch: self.batches,
            statuses,
        })
    }

    /// Publishes one row: the number of batches taken, and, by rank, the status of each reader that
    /// is there after the last of them. Once a batch has run out of memory, the row is that of the
    /// last batch before it. After an error the board's rows are unchanged.
    ///
    /// It takes memory for the row, and like [`StatusBoard::publish`] it waits for readers that
    /// still look at the row before the last one.
    #[tactic(auto, using(crate::proofs::Publishing::shows_world))]
    pub fn publish<R: Wait>(
        &self,
        rt: &R,
        alloc: Global,
        board: &mut StatusBoard,
    ) -> Result<(), PublishFault>
        ensures board { board.new.board ≡ board.old.board }
        ensures rows { MatchResult result
            (λ _. board.new.rows
            ≡ board.old.rows ++ row_of self.now.batches self.now.engine.statuses ∷ [])
            (λ _. board.new.rows ≡ board.old.rows) }
        ensures full { IfErr result (λ fault. fault ≡ Full → length board.old.rows ≡ 2 ^ 64) }
        ensures run { (inputs : List Input) → ShowsAt C.decoding inputs self.now.engine
            → ShowsWorld (row_of self.now.batches self.now.engine.statuses)
            (run_by C.decoding self.now.engine inputs) }
    {
        let Ok(row) = self.row(alloc) else {
            return Err(PublishFault::NoMemory);
        };
        match board.publish(rt, row) {
            Ok(()) => Ok(()),
            Err(_row) => Err(PublishFault::Full),
        }
    }
}
