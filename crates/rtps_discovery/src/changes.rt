//! The changes of our readers' matches with one writer.

ghost use Rattle.std.specs.Prelude.{◌≡◌, ◌≤◌, ◌<◌, ◌||◌, ◌++◌, ℕ, IfOk, OnOk, false, length, map, slice_index_or};
ghost use Rattle.rtps_discovery.specs.Changes.{told};
ghost use Rattle.rtps_discovery.specs.Known as known;
ghost use Rattle.rtps_discovery.specs.OneWriter.{column, has_rank, matched_from, met};
ghost use Rattle.rtps_discovery.specs.Seen.{change_seen, lent, standing_seen};

use crate::known::{Ranks, Reader, Writer};
use crate::pair_state::{PairState, standing_between};
use rtps_types::{Guid, Locator, Locators, MatchChangeKind, PolicyId, WriterFacts};
use std::alloc::{AllocError, Allocator, Global};

/// A change of a match of one of our readers (DDS 1.4, 2.2.4.1).
#[derive(Debug, Drop)]
pub struct MatchChange<A: Allocator = Global> {
    /// The rank of the reader.
    pub rank: u32,
    pub what: MatchChangeKind<A>,
}

/// One of our readers and a writer, and the locators that answers to the writer are sent to.
#[derive(Clone, Copy)]
struct Pair<'a> {
    rank: u32,
    writer: Guid,
    locators: &'a [Locator],
}

fn is_joined(standing: PairState) -> bool
    ensures { result ≡ known.is_joined (standing_seen standing) }
{
    matches!(standing, PairState::Joined)
}

/// Appends a refusal of a pair, if it is new or names another policy than before. If the pair was
/// matched, the end of the match is appended first.
fn tell_refusal<A: Allocator>(
    pair: Pair<'_>,
    before: PairState,
    policy: PolicyId,
    changes: &mut Vec<MatchChange<A>, A>,
) -> Result<(), AllocError>
    ensures { OnOk result (map change_seen changes.new.items
        ≡ map change_seen changes.old.items ++ told pair.entry.rank pair.entry.writer
        pair.entry.locators.now (standing_seen before) (known.Refused policy)) }
{
    let rank = pair.rank;
    match before {
        PairState::Unmatched => {}
        PairState::Joined => {
            let what = MatchChangeKind::Unmatch(pair.writer);
            changes.push(MatchChange { rank, what })?;
        }
        PairState::Refused(earlier) => {
            if earlier == policy {
                return Ok(());
            }
        }
    }
    let what = MatchChangeKind::Refuse {
        writer: pair.writer,
        policy,
    };
    changes.push(MatchChange { rank, what })?;
    Ok(())
}

/// Appends the changes of a pair.
fn tell<A: Allocator + Copy>(
    alloc: A,
    pair: Pair<'_>,
    before: PairState,
    after: PairState,
    changes: &mut Vec<MatchChange<A>, A>,
) -> Result<(), AllocError>
    ensures { OnOk result (map change_seen changes.new.items
        ≡ map change_seen changes.old.items ++ told pair.entry.rank pair.entry.writer
        pair.entry.locators.now (standing_seen before) (standing_seen after)) }
{
    let rank = pair.rank;
    let what = match after {
        PairState::Unmatched if is_joined(before) => MatchChangeKind::Unmatch(pair.writer),
        PairState::Joined if !is_joined(before) => {
            let locators = Locators::copied(alloc, pair.locators)?;
            MatchChangeKind::Match(WriterFacts {
                writer: pair.writer,
                locators,
            })
        }
        PairState::Unmatched | PairState::Joined => return Ok(()),
        PairState::Refused(policy) => return tell_refusal(pair, before, policy, changes),
    };
    changes.push(MatchChange { rank, what })?;
    Ok(())
}

/// A writer before and after an announcement.
#[derive(Drop)]
pub(crate) struct WriterUpdate<'a, A: Allocator> {
    pub writer: Guid,
    /// The locators that answers to it are sent to now.
    pub locators: &'a [Locator],
    pub before: Option<&'a Writer<A>>,
    pub after: Option<&'a Writer<A>>,
}

/// One of our readers, by its rank.
#[derive(Clone, Copy)]
pub(crate) struct Seat {
    pub rank: u32,
    /// Whether it has a fixed match with the writer.
    pub is_fixed: bool,
}

/// Appends the changes of the match of the reader of a rank. Returns whether it is matched with the
/// writer now.
pub(crate) fn meet<A: Allocator + Copy>(
    alloc: A,
    seat: Seat,
    reader: &Option<Reader<A>>,
    update: &WriterUpdate<'_, A>,
    changes: &mut Vec<MatchChange<A>, A>,
) -> Result<bool, AllocError>
    ensures changes { OnOk result (map change_seen changes.new.items
        ≡ map change_seen changes.old.items ++ met (λ _. seat.is_fixed) update.now.writer
        update.now.locators.now seat.rank (known.standing reader.now (lent update.now.before))
        (known.standing reader.now (lent update.now.after))) }
    ensures matched { IfOk result (λ matched. matched ≡ (seat.is_fixed
        || known.is_joined (known.standing reader.now (lent update.now.after)))) }
{
    if seat.is_fixed {
        return Ok(true);
    }
    let pair = Pair {
        rank: seat.rank,
        writer: update.writer,
        locators: update.locators,
    };
    let after = standing_between(reader, update.after);
    let before = standing_between(reader, update.before);
    tell(alloc, pair, before, after, changes)?;
    Ok(is_joined(after))
}

/// Returns marks by rank, up to a number of ranks: whether a rank is among `ranks`. There are no
/// marks, and no memory is taken, if `ranks` is empty.
fn marked<A: Allocator>(alloc: A, ranks: &[u32], number: usize) -> Result<Vec<bool, A>, AllocError>
    ensures { IfOk result (λ marks. (rank : ℕ) → rank < number
        → slice_index_or marks.items rank false ≡ has_rank ranks.now rank) }
{
    if ranks.is_empty() {
        return Ok(Vec::new(alloc));
    }
    let mut marks = Vec::from_elem(alloc, false, number)?;
    for rank in ranks {
        let at = *rank as usize;
        if at < number {
            marks[at] = true;
        }
    }
    Ok(marks)
}

fn is_marked(marks: &[bool], rank: u32) -> bool
    ensures { result ≡ slice_index_or marks.now rank false }
{
    match marks.get(rank as usize) {
        Some(mark) => *mark,
        None => false,
    }
}

/// Appends the changes of our readers' matches with a writer, by rank. The readers of the ranks
/// `fixed` have fixed matches with it, which don't change. Returns the ranks of the readers that
/// are matched with it now.
pub(crate) fn rematch<A: Allocator + Copy>(
    alloc: A,
    readers: &[Option<Reader<A>>],
    fixed: &[u32],
    update: &WriterUpdate<'_, A>,
    changes: &mut Vec<MatchChange<A>, A>,
) -> Result<Ranks<A>, AllocError>
    requires { length readers.now ≤ 4096 }
    ensures changes { OnOk result (map change_seen changes.new.items
        ≡ map change_seen changes.old.items ++ column (has_rank fixed.now)
        update.now.writer update.now.locators.now (lent update.now.before) (lent update.now.after) 0
        readers.now) }
    ensures ranks { IfOk result (λ ranks. ranks ≡ matched_from (has_rank fixed.now)
        (lent update.now.after) 0 readers.now) }
{
    let marks = marked(alloc, fixed, readers.len())?;
    let mut matched = Vec::new(alloc);
    let mut rank = 0;
    for reader in readers {
        let is_fixed = is_marked(&marks, rank);
        if meet(alloc, Seat { rank, is_fixed }, reader, update, changes)? {
            matched.push(rank)?;
        }
        rank += 1;
    }
    Ok(Ranks::new(matched))
}
