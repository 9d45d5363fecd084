//! Changes that wait for earlier ones (DDSI-RTPS 8.4.12.3), in order of their numbers.

ghost use Rattle.std.specs.Prelude.{◌≡◌, ◌<◌, ◌≤◌, ◌++◌, [], All, length, map, true, IfOk, OnOk};
ghost use Rattle.rtps_types.specs.Number.{value_of};
ghost use Rattle.rtps_proxy.specs.Change.{change_view, change_views};
ghost use Rattle.rtps_proxy.specs.Held.{IsPlace, IsRising, behind_front, front_below, starts_below};
ghost use Rattle.rtps_proxy.specs.Received.{put};

use crate::change::Change;
use crate::effects::ProxyError;
use std::alloc::Allocator;
use std::collections::VecDeque;
use std::mem;

/// Inserts a change at its place.
pub(crate) fn hold<A: Allocator>(
    held: &mut VecDeque<Change<'static, A>, A>,
    change: Change<'static, A>,
) -> Result<(), ProxyError>
    ensures { IsRising (change_views held.old.items) → OnOk result (change_views held.new.items
        ≡ put (change_view change.entry) (change_views held.old.items)) }
{
    let number = change.number.get();
    let at = place_of(held, number);
    held.insert(at, change)?;
    Ok(())
}

/// Returns the number of changes that have a lesser number. Usually a number is above all of them,
/// or below.
fn place_of<A: Allocator>(held: &VecDeque<Change<'static, A>, A>, number: u64) -> usize
    ensures within { result ≤ length held.now.items }
    ensures place { IsRising (change_views held.now.items) →
        IsPlace number result (change_views held.now.items) }
{
    let count = held.len();
    if count == 0 {
        return 0;
    }
    if held[count - 1].number.get() < number {
        return count;
    }
    if number <= held[0].number.get() {
        return 0;
    }
    held.partition_point(|other| other.number.get() < number)
}

/// The most changes whose list is kept for later ones when none waits any more.
const KEPT: usize = 256;

/// Whether these changes are below the frontier.
fn are_below<A: Allocator>(changes: &[Change<'static, A>], frontier: u64) -> bool
    ensures { result ≡ true → All (λ c. value_of c.number < frontier) changes.now }
{
    changes.iter().all(|change| change.number.get() < frontier)
}

/// Whether all changes that wait are below the frontier.
fn are_all_below<A: Allocator>(held: &VecDeque<Change<'static, A>, A>, frontier: u64) -> bool
    ensures { result ≡ true → All (λ c. value_of c.number < frontier) held.now.items }
{
    let (first, second) = held.as_slices();
    if are_below(first, frontier) {
        return are_below(second, frontier);
    }
    false
}

/// Makes the list of all changes that wait the list of those that are ready.
fn release_all<'a, A: Allocator + Copy>(
    held: &mut VecDeque<Change<'static, A>, A>,
    ready: &mut Vec<Change<'a, A>, A>,
)
    ensures { (ready.new.items ≡ held.old.items) × (held.new.items ≡ []) }
{
    let none: VecDeque<Change<'static, A>, A> = VecDeque::new(*held.allocator());
    let all: VecDeque<Change<'static, A>, A> = mem::replace(held, none);
    let all: Vec<Change<'static, A>, A> = Vec::from(all);
    *ready = all;
}

/// Returns how many changes [`release`] moves: memory is taken for them at once.
fn count_below<A: Allocator>(held: &VecDeque<Change<'static, A>, A>, frontier: u64) -> usize {
    held.partition_point(|other| other.number.get() < frontier)
}

/// Moves the changes below the frontier to the end of `ready`. One missing change may have held up
/// as many as there is room for: if there are many, their list itself is moved where that can be,
/// and no memory is kept for as many once none waits.
pub(crate) fn release<'a, A: Allocator + Copy>(
    held: &mut VecDeque<Change<'static, A>, A>,
    frontier: u64,
    ready: &mut Vec<Change<'a, A>, A>,
) -> Result<(), ProxyError>
    ensures taken { OnOk result (change_views ready.new.items
        ≡ change_views ready.old.items ++ front_below frontier (change_views held.old.items)) }
    ensures left { OnOk result (change_views held.new.items
        ≡ behind_front frontier (change_views held.old.items)) }
{
    if !is_front_below(held, frontier) {
        return Ok(());
    }
    if held.len() > KEPT && ready.is_empty() && are_all_below(held, frontier) {
        release_all(held, ready);
        return Ok(());
    }
    ready.reserve(count_below(held, frontier))?;
    while is_front_below(held, frontier) {
        let Some(change) = held.pop_front() else {
            break;
        };
        ready.push(change)?;
    }
    if held.is_empty() {
        held.shrink_to(KEPT);
    }
    Ok(())
}

/// Whether there is a first change and its number is below the frontier.
fn is_front_below<A: Allocator>(held: &VecDeque<Change<'static, A>, A>, frontier: u64) -> bool
    ensures { result ≡ starts_below frontier (change_views held.now.items) }
{
    match held.front() {
        None => false,
        Some(first) => first.number.get() < frontier,
    }
}
