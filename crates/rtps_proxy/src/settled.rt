//! The settled numbers of a match (DDSI-RTPS 8.4.12.3), as runs: numbers reach 2^62, so no step
//! loops over single numbers.

ghost use Rattle.std.specs.Prelude.{◌≡◌, ℕ, ◌+◌, ◌^◌, ◌<◌, ◌≤◌, true, ◌&&◌, ◌||◌, nat_le, nat_lt, [], length, take, drop, not, is_some, IfSome, OnOk, min, max};
ghost use Rattle.std.specs.List.{list_any, AllByRecursion};
ghost use Rattle.rtps_types.specs.Number.{value_of};
ghost use Rattle.rtps_types.specs.SequenceNumber.{IsNumber};
ghost use Rattle.rtps_types.specs.Numbers.{count_failing, lacks};
ghost use Rattle.rtps_proxy.specs.Runs.{AreApart, EndBelow, IsPlaceOf, are_apart, end_of, marks, start_of, within};

use crate::effects::ProxyError;
use crate::runs::Runs;
use rtps_types::Number;
use std::alloc::Allocator;

/// A set of numbers: all numbers below the frontier, which is not in the set, and those in the
/// runs, which are in order and don't touch one another.
#[derive(Drop)]
pub(crate) struct Settled<A: Allocator> {
    pub frontier: u64,
    pub runs: Runs<A>,
    ghost begun: { 1 ≤ frontier },
    ghost small: { frontier ≤ 2 ^ 62 + 1 },
    ghost apart: { are_apart frontier runs ≡ true },
}

/// Returns the number of a value that is in range.
fn number_at(value: u64) -> Number
    requires { IsNumber value }
    ensures { value_of result ≡ value }
{
    Number::new(value).unwrap()
}

/// Whether a run ends below `number` and doesn't touch it.
fn is_before(run: &(Number, Number), number: u64) -> bool
    ensures { result ≡ nat_lt (end_of run.now) number }
{
    run.1.get() + 1 < number
}

/// Returns the number of runs that end below `number` and don't touch it.
fn first_reaching(runs: &[(Number, Number)], number: u64) -> usize
    requires { (low : ℕ) × AreApart low runs.now }
    ensures within { result ≤ length runs.now }
    ensures before { EndBelow number (take result runs.now) }
    ensures behind { AllByRecursion (λ r. number ≤ end_of r) (drop result runs.now) }
{
    let count = runs.len();
    if count == 0 {
        return 0;
    }
    // Usually a number is above all runs, or below them.
    if is_before(&runs[count - 1], number) {
        return count;
    }
    if !is_before(&runs[0], number) {
        return 0;
    }
    runs.partition_point(|run| is_before(run, number))
}

/// Returns the place of the first run from `at` on that ends at `number` or above. All runs before
/// `at` end below `number`, and none from `at` on ends below `number - 1`, so at most one step is
/// needed.
pub(crate) fn next_reaching(runs: &[(Number, Number)], at: usize, number: u64) -> usize
    requires apart { (low : ℕ) × AreApart low runs.now }
    requires within { at ≤ length runs.now }
    requires before { EndBelow (number + 1) (take at runs.now) }
    requires behind { AllByRecursion (λ r. number ≤ end_of r) (drop at runs.now) }
    ensures within { result ≤ length runs.now }
    ensures before { EndBelow (number + 1) (take result runs.now) }
    ensures behind { AllByRecursion (λ r. number + 1 ≤ end_of r) (drop result runs.now) }
{
    if at == runs.len() {
        return at;
    }
    if runs[at].1.get() < number {
        return at + 1;
    }
    at
}

/// Whether the run at `at` contains `number`, where that run ends at `number` or above; false where
/// there is no run at `at`.
pub(crate) fn is_begun(runs: &[(Number, Number)], at: usize, number: u64) -> bool
    requires apart { (low : ℕ) × AreApart low runs.now }
    requires before { EndBelow (number + 1) (take at runs.now) }
    requires behind { AllByRecursion (λ r. number + 1 ≤ end_of r) (drop at runs.now) }
    ensures { result ≡ list_any (within number) runs.now }
{
    at < runs.len() && runs[at].0.get() <= number
}

/// Joins a run with the runs from `at` on that it touches. Returns the joined run, and the place
/// after the last run that was joined.
fn joined_from(
    runs: &[(Number, Number)],
    at: usize,
    run: (Number, Number),
) -> ((Number, Number), usize)
    requires within { at ≤ length runs.now }
    requires some { start_of run < end_of run }
    requires behind { AllByRecursion (λ r. start_of run ≤ end_of r) (drop at runs.now) }
    ensures within { result.1 ≤ length runs.now }
    ensures order { at ≤ result.1 }
    ensures starts { start_of result.0 ≤ start_of run }
    ensures ends { end_of run ≤ end_of result.0 }
    ensures some { start_of result.0 < end_of result.0 }
    ensures joins { (n : ℕ) → (within n result.0 || list_any (within n) (drop result.1 runs.now))
        ≡ (within n run || list_any (within n) (drop at runs.now)) }
    ensures rest { (low : ℕ) → AreApart low runs.now →
        AreApart (end_of result.0) (drop result.1 runs.now) }
    ensures first { (low : ℕ) → AreApart low runs.now →
        low < start_of run → low < start_of result.0 }
    ensures before { (low : ℕ) → AreApart low runs.now →
        EndBelow (start_of run) (take at runs.now) →
        EndBelow (start_of result.0) (take at runs.now) }
{
    let mut joined = run;
    let mut next = at;
    while next < runs.len() {
        let other = runs[next];
        if other.0.get() > joined.1.get() + 1 {
            break;
        }
        joined = hull(joined, other);
        next += 1;
    }
    (joined, next)
}

/// Returns the run from the lesser first number to the greater last number.
fn hull(a: (Number, Number), b: (Number, Number)) -> (Number, Number)
    ensures starts { start_of result ≡ min (start_of a) (start_of b) }
    ensures ends { end_of result ≡ max (end_of a) (end_of b) }
{
    let first = if a.0.get() <= b.0.get() { a.0 } else { b.0 };
    let last = if a.1.get() <= b.1.get() { b.1 } else { a.1 };
    (first, last)
}

impl<A: Allocator> Settled<A> {
    /// Returns the empty set: 1 is the least number that a change has.
    pub fn new(alloc: A) -> Settled<A>
        ensures frontier { result.frontier ≡ 1 }
        ensures runs { result.runs ≡ [] }
    {
        Settled {
            frontier: 1,
            runs: Runs::new(alloc),
        }
    }

    /// Returns the place of `number`: the number of runs that end below it and don't touch it.
    /// `None` where the number is in the set. The run at the place may touch the number from below;
    /// then the next run is examined too.
    pub fn place_of(&self, number: u64) -> Option<usize>
        requires { number ≤ 2 ^ 62 + 1 }
        ensures missing { is_some result ≡ not (marks self.now.frontier self.now.runs number) }
        ensures place { IfSome result (λ at. IsPlaceOf number at self.now.runs) }
    {
        if number < self.frontier {
            return None;
        }
        let runs = self.runs.as_slice();
        let at = first_reaching(runs, number);
        if is_begun(runs, next_reaching(runs, at, number), number) {
            return None;
        }
        Some(at)
    }

    /// Whether a number is in the set.
    pub fn contains(&self, number: u64) -> bool
        requires { number ≤ 2 ^ 62 + 1 }
        ensures { result ≡ marks self.now.frontier self.now.runs number }
    {
        self.place_of(number).is_none()
    }

    /// Whether some number up to `number` isn't in the set.
    pub fn lacks(&self, number: u64) -> bool
        ensures { result ≡ lacks (marks self.now.frontier self.now.runs) number }
    {
        self.frontier <= number
    }

    /// Adds the numbers from `start` to `end`, without `end`.
    pub fn add(&mut self, start: u64, end: u64) -> Result<(), ProxyError>
        requires { end ≤ 2 ^ 62 + 1 }
        ensures ok { OnOk result ((n : ℕ) → marks self.new.frontier self.new.runs n
            ≡ ((nat_le start n && nat_lt n end) || marks self.old.frontier self.old.runs n)) }
    {
        if end <= start || end <= self.frontier {
            return Ok(());
        }
        let start = start.max(self.frontier);
        let at = first_reaching(self.runs.as_slice(), start);
        self.add_at(at, start, end)
    }

    /// Adds the numbers from `start` to `end`, without `end`, where `at` is the place of `start`.
    pub fn add_at(&mut self, at: usize, start: u64, end: u64) -> Result<(), ProxyError>
        requires some { start < end }
        requires above { self.old.frontier ≤ start }
        requires small { end ≤ 2 ^ 62 + 1 }
        requires place { IsPlaceOf start at self.old.runs }
        ensures ok { OnOk result ((n : ℕ) → marks self.new.frontier self.new.runs n
            ≡ ((nat_le start n && nat_lt n end) || marks self.old.frontier self.old.runs n)) }
    {
        let run = (number_at(start), number_at(end - 1));
        let (joined, next) = joined_from(self.runs.as_slice(), at, run);
        if start == self.frontier {
            self.frontier = joined.1.get() + 1;
            self.runs.give_up(next);
        } else if at == next {
            self.runs.insert(at, joined)?;
        } else {
            self.runs.replace(at, next, joined);
        }
        Ok(())
    }

    /// Returns the number of numbers below `end` that are not in the set.
    pub fn count_missing(&self, end: u64) -> u64
        requires { end ≤ 2 ^ 62 + 1 }
        ensures { result ≡ count_failing (marks self.now.frontier self.now.runs) end }
    {
        let mut at = self.frontier;
        let mut count = 0;
        for run in self.runs.as_slice() {
            if at >= end {
                return count;
            }
            count += run.0.get().min(end) - at;
            at = run.1.get() + 1;
        }
        count + end.saturating_sub(at)
    }
}
