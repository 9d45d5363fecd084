//! The order of the reports of a run.

ghost use Rattle.std.specs.Prelude.{◌≡◌, ◌^◌, ◌≤◌, ◌++◌, IfOk, OnOk, map, vec_len};
ghost use Rattle.rtps_run.specs.declared.outcome.Report.TheVariants as report;
ghost use Rattle.rtps_run.specs.Turn.{AreInOrder, answer_turn, notices_from, turn_of};

use crate::outcome::{Answer, Outcome, Report};
use rtps_reader::Notice;
use rtps_types::Place;
use std::alloc::{AllocError, Allocator};

/// The kind of a report. For one reader at one place, notices come first.
#[derive(Clone, Copy, Debug, PartialEq, Eq, PartialOrd, Ord)]
pub enum ReportKind {
    Notice,
    Answer,
}

/// The position of a report in a run: by place; at one place discovery's reports before those of
/// readers, and these by rank; for one reader its notices before its answer.
#[derive(Clone, Copy, Debug, PartialEq, Eq, PartialOrd, Ord)]
pub struct Turn {
    /// The place of what caused the report.
    pub place: Place,
    /// The rank of the reader, or `None` for discovery.
    pub rank: Option<u32>,
    pub kind: ReportKind,
}

impl<A: Allocator> Answer<A> {
    /// Returns its position in the run.
    pub fn turn(&self) -> Turn
        ensures { result ≡ answer_turn self.now }
    {
        Turn {
            place: self.place,
            rank: self.rank,
            kind: ReportKind::Answer,
        }
    }
}

impl<V, A: Allocator> Report<V, A> {
    /// Returns its position in the run.
    pub fn turn(&self) -> Turn
        ensures { result ≡ turn_of self.now }
    {
        match self {
            Report::Notice { rank, notice } => Turn {
                place: notice.place,
                rank: Some(*rank),
                kind: ReportKind::Notice,
            },
            Report::Answer(answer) => answer.turn(),
        }
    }
}

impl<V: Drop, A: Allocator + Copy> Outcome<V, A> {
    /// Returns all reports, in the order of a run of one thread: by place, then by rank, and for
    /// one reader its notices before its answer. Reports of the same turn, such as the notices of
    /// one reader at one place, keep their order. An error is a refused growth, after which the
    /// outcome is dropped.
    pub fn in_order(self, alloc: A) -> Result<Vec<Report<V, A>, A>, AllocError>
        ensures { IfOk result (λ reports. AreInOrder self reports.items) }
    {
        let mut reports = Vec::new(alloc);
        push_lists(&mut reports, self.notices)?;
        for answer in self.answers {
            reports.push(Report::Answer(answer))?;
        }
        reports.sort_by_key(|report| report.turn())?;
        Ok(reports)
    }
}

/// Moves the notices of a rank to the end of the reports.
fn push_notices<V: Drop, A: Allocator>(
    reports: &mut Vec<Report<V, A>, A>,
    rank: u32,
    notices: Vec<Notice<V>, A>,
) -> Result<(), AllocError>
    ensures { OnOk result (reports.new.items
        ≡ reports.old.items ++ map (report.Notice rank) notices.items) }
{
    for notice in notices {
        reports.push(Report::Notice { rank, notice })?;
    }
    Ok(())
}

/// Moves the notices of all ranks to the end of the reports.
fn push_lists<V: Drop, A: Allocator>(
    reports: &mut Vec<Report<V, A>, A>,
    lists: Vec<Vec<Notice<V>, A>, A>,
) -> Result<(), AllocError>
    requires { vec_len lists ≤ 2 ^ 32 }
    ensures { OnOk result (reports.new.items ≡ reports.old.items ++ notices_from 0 lists.items) }
{
    for (rank, notices) in lists.into_iter().enumerate() {
        push_notices(reports, rank as u32, notices)?;
    }
    Ok(())
}
