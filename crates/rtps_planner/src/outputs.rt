//! Merging what the readers put out in a batch.

ghost use Rattle.std.specs.Prelude.{◌≡◌, ◌==◌, ◌<◌, [], ℕ, IfOk, None, length, nat_lt, not, set, slice_index_or, true};
ghost use Rattle.std.specs.List.{list_any};
ghost use Rattle.rtps_planner.specs.declared.outputs.GatherFault.TheVariants as fault;
ghost use Rattle.rtps_planner.specs.Outputs.{IsGathered, IsJudged, fault_of, is_among, outputs_with, ranks_of, times};

use crate::jobs::Rest;
use rtps_reader::Output;
use rtps_run::Outcome;
use std::alloc::{AllocError, Allocator};
use thiserror::Error;

/// Why outputs can't be merged: the first of these that applies.
#[derive(Clone, Copy, Debug, PartialEq, Eq, Error)]
pub enum GatherFault {
    /// There is no output of a reader that has a job.
    #[error("a reader that has a job has no output")]
    Missing,
    /// There are two outputs of a reader that has a job.
    #[error("a reader that has a job has two outputs")]
    Double,
    /// There is an output of a reader that has no job.
    #[error("a reader that has no job has an output")]
    Stranger,
    /// The allocator refused a growth.
    #[error("out of memory")]
    NoMemory,
}

impl From<AllocError> for GatherFault {
    ghost from_gives = { λ _ e. e ≡ fault.NoMemory };

    fn from(_failed: AllocError) -> GatherFault {
        GatherFault::NoMemory
    }
}

/// The number of outputs of a rank.
fn outputs_of<V, A: Allocator>(rank: u32, outputs: &[(u32, Output<V, A>)]) -> usize
    ensures { result ≡ times rank (ranks_of outputs.now) }
{
    outputs.iter().filter(|output| output.0 == rank).count()
}

/// Whether one of these ranks has no output.
fn is_missing<V, A: Allocator>(planned: &[u32], outputs: &[(u32, Output<V, A>)]) -> bool
    ensures { result ≡ list_any (λ rank. times rank (ranks_of outputs.now) == 0) planned.now }
{
    planned.iter().any(|rank| outputs_of(*rank, outputs) == 0)
}

/// Whether one of these ranks has more than one output.
fn is_double<V, A: Allocator>(planned: &[u32], outputs: &[(u32, Output<V, A>)]) -> bool
    ensures { result ≡ list_any (λ rank. nat_lt 1 (times rank (ranks_of outputs.now))) planned.now }
{
    planned.iter().any(|rank| outputs_of(*rank, outputs) > 1)
}

/// Whether a rank is among these.
fn is_among(ranks: &[u32], rank: u32) -> bool
    ensures { result ≡ is_among ranks.now rank }
{
    ranks.contains(&rank)
}

/// Whether there is an output of a rank that isn't among these.
fn has_stranger<V, A: Allocator>(planned: &[u32], outputs: &[(u32, Output<V, A>)]) -> bool
    ensures { result ≡ list_any (λ rank. not (is_among planned.now rank)) (ranks_of outputs.now) }
{
    outputs.iter().any(|output| !is_among(planned, output.0))
}

/// Whether the outputs have exactly these ranks, in this order, and the order is ascending. Then
/// nothing is wrong with them.
fn are_in_order<V, A: Allocator>(planned: &[u32], outputs: &[(u32, Output<V, A>)]) -> bool
    ensures { result ≡ true → fault_of planned.now (ranks_of outputs.now) ≡ None }
{
    if planned.len() != outputs.len() {
        return false;
    }
    let mut least = 0_u64;
    for (at, output) in outputs.iter().enumerate() {
        let rank = output.0;
        if u64::from(rank) < least || rank != planned[at] {
            return false;
        }
        least = u64::from(rank) + 1;
    }
    true
}

/// Returns what is wrong with the outputs, where these ranks were planned. Outputs that are in
/// order need one pass.
fn fault_in<V, A: Allocator>(
    planned: &[u32],
    outputs: &[(u32, Output<V, A>)],
) -> Option<GatherFault>
    ensures { result ≡ fault_of planned.now (ranks_of outputs.now) }
{
    if are_in_order(planned, outputs) {
        return None;
    }
    if is_missing(planned, outputs) {
        return Some(GatherFault::Missing);
    }
    if is_double(planned, outputs) {
        return Some(GatherFault::Double);
    }
    if has_stranger(planned, outputs) {
        return Some(GatherFault::Stranger);
    }
    None
}

/// Returns an empty output.
fn no_output<V: Drop, A: Allocator + Copy>(alloc: A) -> Output<V, A>
    ensures notices { result.notices.items ≡ [] }
    ensures answers { result.answers.items ≡ [] }
{
    Output {
        notices: Vec::new(alloc),
        answers: Vec::new(alloc),
    }
}

/// Returns `count` empty outputs.
fn no_outputs<V: Drop, A: Allocator + Copy>(
    alloc: A,
    count: usize,
) -> Result<Vec<Output<V, A>, A>, AllocError>
    ensures count { IfOk result (λ outputs. length outputs.items ≡ count) }
    ensures empty { IfOk result (λ outputs. (rank : ℕ) (other : _) → rank < count
        → ((slice_index_or outputs.items rank other).notices.items ≡ [])
        × ((slice_index_or outputs.items rank other).answers.items ≡ [])) }
{
    let mut outputs = Vec::with_capacity(alloc, count)?;
    for _at in 0..count {
        outputs.push(no_output(alloc))?;
    }
    Ok(outputs)
}

/// Replaces the output of `rank`; drops `output` where the rank is past the last.
fn put_output<V: Drop, A: Allocator>(
    by_rank: &mut Vec<Output<V, A>, A>,
    rank: u32,
    output: Output<V, A>,
)
    ensures { by_rank.new.items ≡ set by_rank.old.items rank output }
{
    let at = rank as usize;
    if at < by_rank.len() {
        by_rank[at] = output;
    }
}

/// Replaces the output of each rank that is given one.
fn put_outputs<V: Drop, A: Allocator>(
    by_rank: &mut Vec<Output<V, A>, A>,
    outputs: Vec<(u32, Output<V, A>), A>,
)
    ensures put { by_rank.new.items ≡ outputs_with by_rank.old.items outputs.items }
    ensures count { length by_rank.new.items ≡ length by_rank.old.items }
{
    for (rank, output) in outputs {
        put_output(by_rank, rank, output);
    }
}

/// Merges the outputs of a batch's jobs, each with the rank of its reader. The outputs may come in
/// any order; their notices are moved list by list.
///
/// The outputs are checked before any memory is taken. On an error they are dropped, with what they
/// hold.
#[tactic(auto, unfolding(crate::specs::Outputs::IsJudged))]
pub fn gather<V: Drop, A: Allocator + Copy>(
    alloc: A,
    rest: Rest<A>,
    outputs: Vec<(u32, Output<V, A>), A>,
) -> Result<Outcome<V, A>, GatherFault>
    ensures judged { IsJudged (fault_of rest.ranks.items (ranks_of outputs.items)) result }
    ensures gathered { IfOk result (IsGathered rest outputs.items) }
{
    if let Some(fault) = fault_in(&rest.ranks, &outputs) {
        return Err(fault);
    }
    let mut by_rank = no_outputs(alloc, rest.readers)?;
    put_outputs(&mut by_rank, outputs);
    Ok(Outcome::new(alloc, rest.answers, by_rank)?)
}
