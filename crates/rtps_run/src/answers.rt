//! Making an outcome, and its answers, of discovery's answers and the readers' outputs.

ghost use Rattle.std.specs.Prelude.{◌≡◌, ◌^◌, ◌≤◌, ◌++◌, IfOk, OnOk, length, map};
ghost use Rattle.std.specs.List.Sorted.{IsPermutation, IsSortedByKey, IsStableByKey};
ghost use Rattle.rtps_run.specs.Outcome.{IsOutcomeOf, answer_of, answers_from};
ghost use Rattle.rtps_run.specs.Turn.{answer_turn, turn_order};

use crate::outcome::{Answer, Outcome};
use rtps_reader::{Notice, Output};
use rtps_types::{Place, Reply};
use std::alloc::{AllocError, Allocator};

impl<A: Allocator> Answer<A> {
    /// Returns the answer to the event at a place. The reader of `rank` sends it, or discovery if
    /// `rank` is `None`.
    pub fn new(rank: Option<u32>, place: Place, reply: Reply<A>) -> Answer<A>
        ensures { result ≡ answer_of rank (place, reply) }
    {
        Answer {
            place,
            rank,
            to: reply.to,
            octets: reply.octets,
        }
    }
}

impl<V: Drop, A: Allocator + Copy> Outcome<V, A> {
    /// Makes an outcome of discovery's answers and of the output of each reader, by rank. There may
    /// be at most 2^32 outputs, since a rank has 32 bits. The lists of notices are moved, not
    /// copied. An error is a refused growth, after which answers and outputs are dropped.
    pub fn new(
        alloc: A,
        answers: Vec<(Place, Reply<A>), A>,
        outputs: Vec<Output<V, A>, A>,
    ) -> Result<Outcome<V, A>, AllocError>
        requires { length outputs.items ≤ 2 ^ 32 }
        ensures { IfOk result (IsOutcomeOf answers.items outputs.items) }
    {
        let mut all = Vec::new(alloc);
        push_answers(&mut all, None, answers)?;
        let notices = take_notices(alloc, outputs, &mut all)?;
        sort(&mut all)?;
        Ok(Outcome {
            notices,
            answers: all,
        })
    }
}

/// Moves the answers of the reader of a rank, or of discovery, to the end of the list.
fn push_answers<A: Allocator>(
    all: &mut Vec<Answer<A>, A>,
    rank: Option<u32>,
    answers: Vec<(Place, Reply<A>), A>,
) -> Result<(), AllocError>
    ensures { OnOk result (all.new.items ≡ all.old.items ++ map (answer_of rank) answers.items) }
{
    for (place, reply) in answers {
        all.push(Answer::new(rank, place, reply))?;
    }
    Ok(())
}

/// Returns the lists of notices of outputs, by rank. Their answers are moved to the end of the list
/// of answers.
fn take_notices<V: Drop, A: Allocator + Copy>(
    alloc: A,
    outputs: Vec<Output<V, A>, A>,
    all: &mut Vec<Answer<A>, A>,
) -> Result<Vec<Vec<Notice<V>, A>, A>, AllocError>
    requires { length outputs.items ≤ 2 ^ 32 }
    ensures count { IfOk result (λ lists. length lists.items ≡ length outputs.items) }
    ensures notices { IfOk result (λ lists. lists.items ≡ map (λ o. o.notices) outputs.items) }
    ensures answers { OnOk result (all.new.items ≡ all.old.items ++ answers_from 0 outputs.items) }
{
    let mut lists = Vec::new(alloc);
    for (rank, output) in outputs.into_iter().enumerate() {
        lists.push(output.notices)?;
        push_answers(all, Some(rank as u32), output.answers)?;
    }
    Ok(lists)
}

/// Sorts answers by turn.
fn sort<A: Allocator>(answers: &mut Vec<Answer<A>, A>) -> Result<(), AllocError>
    ensures all { OnOk result (IsPermutation answers.old.items answers.new.items) }
    ensures sorted { OnOk result (IsSortedByKey answer_turn turn_order answers.new.items) }
    ensures stable { OnOk result (IsStableByKey answer_turn turn_order answers.old.items
        answers.new.items) }
{
    answers.sort_by_key(|answer| answer.turn())?;
    Ok(())
}
