//! Telling the changes of our announcer of readers (DDSI-RTPS 8.3.7.4, 8.5.4).

ghost use Rattle.std.specs.Prelude.{◌≡◌, ◌++◌, ◌∷◌, List, IfOk, OnOk};
ghost use Rattle.rtps_announcer.specs.declared.said.Said.{Said};
ghost use Rattle.rtps_announcer.specs.Said.{to_one};
ghost use Rattle.rtps_announcer.specs.Telling as telling;
ghost use Rattle.rtps_announcer.specs.Held.{held_back};

use crate::ack::Ack;
use crate::locators::PeerLocators;
use crate::said::{Change, Said, Sending};
use rtps_types::GuidPrefix;
use std::alloc::{AllocError, Allocator};

/// What there is to report: all changes, and for each rank whether its reader has gone.
#[derive(Clone, Copy)]
pub(crate) struct Record<'a> {
    pub changes: &'a [Change],
    pub gone: &'a [bool],
}

/// Irrelevant numbers that aren't said yet, since others may follow: the first and the last one.
type Held = Option<(u64, u64)>;

/// Whether the reader of a rank has gone.
fn has_gone(gone: &[bool], rank: u32) -> bool
    ensures { result ≡ telling.has_gone gone.now rank }
{
    match gone.get(rank as usize) {
        Some(gone) => *gone,
        None => false,
    }
}

/// Whether a change with this number concerns a peer that was found when there were `since`
/// changes.
fn concerns(gone: &[bool], since: u64, number: u64, change: Change) -> bool
    ensures { result ≡ telling.concerns gone.now since number change }
{
    match change {
        Change::Asks(rank) => !has_gone(gone, rank),
        Change::Ends(_) => since < number,
    }
}

/// Returns a change, or that its number is irrelevant for the peer.
fn told_as(gone: &[bool], since: u64, number: u64, change: Change) -> Said
    ensures { result ≡ telling.told_as gone.now since number change }
{
    if concerns(gone, since, number, change) {
        Said::Told(number, change)
    } else {
        Said::Void(number, number)
    }
}

/// Says the irrelevant numbers that were held back.
fn release<A: Allocator>(said: &mut Vec<Said, A>, held: Held) -> Result<(), AllocError>
    ensures { OnOk result (said.new.items ≡ said.old.items ++ held_back held) }
{
    if let Some((first, last)) = held {
        said.push(Said::Void(first, last))?;
    }
    Ok(())
}

/// Holds back irrelevant numbers: with those that were, if they are neighbours.
fn hold<A: Allocator>(
    said: &mut Vec<Said, A>,
    held: Held,
    first: u64,
    last: u64,
) -> Result<Held, AllocError>
    ensures { IfOk result (λ left. (more : List Said)
        → said.new.items ++ telling.merged (held_back left ++ more)
        ≡ said.old.items ++ telling.merged (held_back held ++ Said.Void first last ∷ more)) }
{
    let Some((start, end)) = held else {
        return Ok(Some((first, last)));
    };
    if end.checked_add(1) == Some(first) {
        return Ok(Some((start, last)));
    }
    said.push(Said::Void(start, end))?;
    Ok(Some((first, last)))
}

/// Says something else, after the irrelevant numbers that were held back.
fn say<A: Allocator>(said: &mut Vec<Said, A>, held: Held, next: Said) -> Result<Held, AllocError>
    ensures { IfOk result (λ left. (more : List Said)
        → said.new.items ++ telling.merged (held_back left ++ more)
        ≡ said.old.items ++ telling.merged (held_back held ++ next ∷ more)) }
{
    if let Said::Void(first, last) = next {
        return hold(said, held, first, last);
    }
    release(said, held)?;
    said.push(next)?;
    Ok(None)
}

impl<'a> Record<'a> {
    /// Tells all changes to a peer that was found when there were `since`.
    pub fn tell<A: Allocator>(self, since: u64, said: &mut Vec<Said, A>) -> Result<(), AllocError>
        ensures { OnOk result (said.new.items ≡ said.old.items
            ++ telling.merged (telling.telling self.entry.gone.now since 1
            self.entry.changes.now)) }
    {
        let mut held = None;
        for (at, change) in self.changes.iter().enumerate() {
            let next = told_as(self.gone, since, at as u64 + 1, *change);
            held = say(said, held, next)?;
        }
        release(said, held)
    }

    /// Returns what is said of a number that a peer asks for.
    fn told_if(self, since: u64, number: u64) -> Said
        ensures { result ≡ telling.told_of self.entry.changes.now self.entry.gone.now since
            number }
    {
        match self.changes.get(number.saturating_sub(1) as usize) {
            Some(change) => told_as(self.gone, since, number, *change),
            None => Said::Void(number, number),
        }
    }

    /// Tells these numbers again to a peer that was found when there were `since` changes.
    pub fn tell_again<A: Allocator>(
        self,
        since: u64,
        numbers: &[u64],
        said: &mut Vec<Said, A>,
    ) -> Result<(), AllocError>
        ensures { OnOk result (said.new.items ≡ said.old.items
            ++ telling.merged (telling.retelling self.entry.changes.now self.entry.gone.now since
            numbers.now)) }
    {
        let mut held = None;
        for number in numbers {
            held = say(said, held, self.told_if(since, *number))?;
        }
        release(said, held)
    }
}

/// Returns the numbers of an ACKNACK that are sent again: of those up to `last`, the first `most`.
pub(crate) fn wanted<A: Allocator>(
    alloc: A,
    most: usize,
    last: u64,
    ack: &Ack,
) -> Result<Vec<u64, A>, AllocError>
    ensures { IfOk result (λ numbers. numbers.items ≡ telling.wanted most last ack.now) }
{
    let mut numbers = Vec::new(alloc);
    let mut left = ack.asked();
    'left: while let Some(number) = left.next() {
        if numbers.len() >= most {
            break;
        }
        if number <= last {
            numbers.push(number)?;
        }
    }
    Ok(numbers)
}

/// Says these to a peer, one after the other.
pub(crate) fn addressed<A: Allocator>(
    alloc: A,
    prefix: GuidPrefix,
    to: &PeerLocators,
    said: &[Said],
) -> Result<Vec<Sending, A>, AllocError>
    ensures { IfOk result (λ sends. sends.items ≡ to_one prefix to.now said.now) }
{
    let mut sends = Vec::new(alloc);
    for one in said {
        sends.push(Sending::to_peer(prefix, to, *one))?;
    }
    Ok(sends)
}
