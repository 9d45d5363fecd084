//! The operations of the ends of a board.

ghost use Rattle.std.specs.Prelude.{◌≡◌, ◌+◌, ◌-◌, ◌<◌, ◌≤◌, ◌++◌, ◌∷◌, [], All, IfOk, OnOk, IsOk, MatchResult, MatchOption, length};
ghost use Rattle.std.specs.List.Sorted.{IsPermutation};
ghost use Rattle.rtps_shards.specs.Board.{HasStolen, hand};
ghost use Rattle.rtps_shards.specs.Ends.{IsNewThiefOf, IsSameBoard, IsSameThief, IsThiefOf, owner_hand, room, thief_hand};

use crate::board::{Board, Cut, Owner, Puts, Robs, Stolen, Takes, Thief};
use crossbeam_deque::Steal;
use std::alloc::{AllocError, Global};

impl<T: Drop> Board<T> {
    /// Returns an empty board and `thieves` thieves of it. The first `capacity` pushes find room.
    ///
    /// An error is a refused growth.
    pub fn new(
        alloc: Global,
        capacity: usize,
        thieves: usize,
    ) -> Result<(Board<T>, Vec<Thief<T>>), AllocError>
        requires size { (1 ≤ capacity) × (capacity ≤ 4096) }
        requires few { thieves ≤ 63 }
        ensures board { IfOk result (λ made. owner_hand made.0 ≡ hand (1024 - thieves) [] []) }
        ensures room { IfOk result (λ made. capacity ≤ room made.0) }
        ensures count { IfOk result (λ made. length made.1.items ≡ thieves) }
        ensures thieves { IfOk result (λ made. All (IsNewThiefOf made.0) made.1.items) }
    {
        let owner = Owner::<T>::fifo_as(alloc, capacity)?;
        let mut board = Board { owner };
        let mut all = Vec::new(alloc);
        for made in 0..thieves {
            prove!(made < thieves);
            all.push(board.thief()?)?;
        }
        Ok((board, all))
    }

    /// Makes one more thief.
    fn thief(&mut self) -> Result<Thief<T>, AllocError>
        requires { 1 < (owner_hand self.old).parts }
        ensures board { IsSameBoard self.old self.new × (room self.old ≤ room self.new) }
        ensures thief { IfOk result (IsNewThiefOf self.old) }
        ensures hand { OnOk result (owner_hand self.new ≡ hand ((owner_hand self.old).parts - 1)
            (owner_hand self.old).put (owner_hand self.old).taken) }
    {
        let robber = self.owner.stealer()?;
        let pass = self.owner.another::<Cut>();
        Ok(Thief { robber, pass })
    }

    /// Takes back a thief of this board, with what it took.
    pub fn give_back(&mut self, thief: Thief<T>)
        requires { IsThiefOf self.old thief }
        ensures board { IsSameBoard self.old self.new }
        ensures hand { owner_hand self.new
            ≡ hand ((owner_hand self.old).parts + (thief_hand thief).parts)
            ((owner_hand self.old).put ++ (thief_hand thief).put)
            ((owner_hand self.old).taken ++ (thief_hand thief).taken) }
        ensures room { room self.old ≤ room self.new }
    {
        let Thief { robber: _, pass } = thief;
        self.owner.absorb::<Cut>(pass);
    }

    /// Pushes an item, or returns it as the error where there is no room and no memory for more.
    pub fn push(&mut self, item: T) -> Result<(), T>
        ensures board { IsSameBoard self.old self.new }
        ensures hand { MatchResult result
            (λ _. owner_hand self.new ≡ hand (owner_hand self.old).parts
            ((owner_hand self.old).put ++ item ∷ []) (owner_hand self.old).taken)
            (λ x. (x ≡ item) × (owner_hand self.new ≡ owner_hand self.old)) }
        ensures room { 0 < room self.old → IsOk result }
        ensures less { room self.old ≤ room self.new + 1 }
    {
        self.owner.push_as::<Puts>(item)
    }

    /// Takes the oldest item, or returns `None` where the board was empty. Once every thief is
    /// back, `None` says that all items that were pushed were taken.
    pub fn pop(&mut self) -> Option<T>
        ensures board { IsSameBoard self.old self.new }
        ensures hand { MatchOption result
            ((owner_hand self.new ≡ owner_hand self.old)
            × ((owner_hand self.old).parts ≡ 1024
            → IsPermutation (owner_hand self.old).put (owner_hand self.old).taken))
            (λ x. owner_hand self.new ≡ hand (owner_hand self.old).parts
            (owner_hand self.old).put ((owner_hand self.old).taken ++ x ∷ [])) }
        ensures few { MatchOption result (Unit {0}) (λ x. (owner_hand self.old).parts ≡ 1024
            → length (owner_hand self.new).taken ≤ length (owner_hand self.old).put) }
        ensures room { room self.old ≤ room self.new }
    {
        self.owner.pop_as::<Takes>()
    }
}

impl<T: Drop> Thief<T> {
    /// Takes the oldest item, unless another end takes one at this moment.
    pub fn steal(&mut self) -> Stolen<T>
        ensures board { IsSameThief self.old self.new }
        ensures hand { HasStolen (thief_hand self.old) (thief_hand self.new) result }
    {
        match self.robber.steal_as::<Robs>(&mut self.pass) {
            Steal::Success(item) => Stolen::Item(item),
            Steal::Empty => Stolen::Empty,
            Steal::Retry => Stolen::Again,
        }
    }
}
