//! Sorting reports into an outcome, by rank.

ghost use Rattle.std.specs.Prelude.{◌≡◌, ℕ, ◌^◌, ◌≤◌, ◌++◌, [], ◌∷◌, IfOk, OnOk, List, map, vec_len};
ghost use Rattle.rtps_run.specs.Outcome.{Deals, report_view};
ghost use Rattle.rtps_run.specs.World.{ReportView};

use dds_topic::Catalog;
use rtps_run::{Answer, Outcome, Report, empty_lists, push_by};
use std::alloc::{AllocError, Allocator};

/// Makes an outcome of reports: the notices of each reader in its own list, and the answers.
pub fn dealt<C: Catalog, A: Allocator + Copy>(
    alloc: A,
    count: usize,
    reports: Vec<Report<C::Value, A>, A>,
) -> Result<Outcome<C::Value, A>, AllocError>
    requires { count ≤ 2 ^ 32 }
    ensures { IfOk result (Deals C.view count (map (report_view C.view) reports.items)) }
{
    let mut outcome = Outcome {
        notices: empty_lists(alloc, count)?,
        answers: Vec::new(alloc),
    };
    for report in reports {
        add::<C, A>(&mut outcome, report)?;
    }
    Ok(outcome)
}

/// Appends one report to the list that it belongs to.
fn add<C: Catalog, A: Allocator>(
    outcome: &mut Outcome<C::Value, A>,
    report: Report<C::Value, A>,
) -> Result<(), AllocError>
    ensures { (count : ℕ) (put : List (ReportView C.Meaning)) → Deals C.view count put outcome.old
        → OnOk result (Deals C.view count (put ++ report_view C.view report ∷ []) outcome.new) }
{
    match report {
        Report::Notice { rank, notice } => push_by(&mut outcome.notices, rank, notice),
        Report::Answer(answer) => push_answer(&mut outcome.answers, answer),
    }
}

/// Appends an answer.
fn push_answer<A: Allocator>(
    answers: &mut Vec<Answer<A>, A>,
    answer: Answer<A>,
) -> Result<(), AllocError>
    ensures { OnOk result (answers.new.items ≡ answers.old.items ++ answer ∷ []) }
{
    answers.push(answer)?;
    Ok(())
}
