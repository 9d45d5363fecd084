//! The history of a board: the list of its rows, which only grows. Memory has only the number of
//! the last row; the rows themselves appear in the proofs alone.
//!
//! Each entry of a history names a word that isn't at home yet, and the rule of the history is that
//! the words of all entries but the last one are at home. Only the pen of a word brings it home. So
//! whoever has the pen of the last entry's word knows that no entry was added after it, and adds
//! the next one by the step that brings this word home. That entry names a new word, whose pen was
//! taken before.

ghost use Rattle.std.specs.Prelude.{◌≡◌, ◌+◌, ◌^◌, ◌<◌, [], ◌∷◌, ◌++◌, ◌⊎◌, length, MatchBool, MatchOption, IfSome};
ghost use mathlib.Core.List.{IsPrefix};
ghost use Rattle.logbook.specs.Pages.{may_write};
ghost use Rattle.dds_outlet.specs.History.{Leads, door_of, rows_of};
ghost use Rattle.dds_outlet.specs.Rows.{row_view};

use crate::row::{Row, RowView};
use logbook::{Gain, Offer, Opening, Pen, Plain, Play, Rule, Seen, Start, Word};

/// An entry of a history: a row, and the key of the word whose pen adds the next entry. No value of
/// it is made.
pub struct Entry {
    pub row: RowView,
    pub next: u64,
}

/// The rule of a history.
pub struct Chained;

impl Rule<Entry, u64> for Chained {
    ghost use Rattle.std.specs.Prelude.{[]};
    ghost use base.Fml.{ftrue};
    ghost use Rattle.dds_outlet.specs.History.{IsKept};

    ghost holds = { λ cells log. IsKept cells log };

    ghost first = { [] };

    ghost hinted = { λ n log. Unit {0} };

    ghost shows = { λ log. [] };

    ghost keeps = { λ names log. ftrue };

    ghost moves = { λ ask before after answer. Unit {0} };
}

/// A step gives nothing but its answer.
pub struct Nothing;

impl Gain<Entry, u64> for Nothing {
    ghost use base.Fml.{ftrue};

    ghost after = { λ names about answer. ftrue };
}

/// A history begins with one row, and word 1 adds the next.
pub struct Begins;

impl Opening<Row, Entry> for Begins {
    ghost use Rattle.std.specs.Prelude.{[], ◌∷◌};
    ghost use Rattle.dds_outlet.specs.History.{entry};
    ghost use Rattle.dds_outlet.specs.Rows.{row_view};

    ghost log = { λ count row. entry (row_view row) 1 ∷ [] };
}

/// The step that adds a word and gives its pen.
pub struct Reserve;

impl Play<Entry, u64> for Reserve {
    ghost use Rattle.dds_outlet.specs.History.{Reserves};

    ghost then = { Reserves };
}

impl Plain<(), Entry, u64> for Reserve {
    ghost use Rattle.std.specs.Prelude.{None};
    ghost use Rattle.dds_outlet.specs.History.{entry};
    ghost use Rattle.dds_outlet.specs.Rows.{opening};

    ghost ask = { λ _. entry (opening 0) 0 };

    ghost state = { λ _. None };
}

/// A row that is to be added, and the pen that is to add the next.
#[derive(Drop)]
struct Draft<'a> {
    row: &'a Row,
    next: &'a Pen,
}

/// The step that adds a row.
pub struct Append;

impl Play<Entry, u64> for Append {
    ghost use Rattle.dds_outlet.specs.History.{Appends};

    ghost then = { Appends };
}

impl Plain<Draft<'_>, Entry, u64> for Append {
    ghost use Rattle.std.specs.Prelude.{None};
    ghost use Rattle.dds_outlet.specs.History.{entry};
    ghost use Rattle.dds_outlet.specs.Rows.{row_view};

    ghost ask = { λ draft. entry (row_view draft.row.now) draft.next.now.nib.key };

    ghost state = { λ draft. None };
}

type Update = Offer<Entry, u64, Chained, Nothing>;

/// The word at which each step of a history is made.
type Door = Word<Entry, u64, Chained>;

/// The right to add rows to a history.
#[derive(Drop)]
pub struct Head {
    door: Door,
    /// The pen of the word that the last entry names.
    pen: Pen,
}

/// The rows of a history up to one of them, and the number of that row.
#[derive(Drop)]
pub struct Front {
    number: u64,
    pub seen: Seen<Entry, u64, Chained>,
    ghost counted: { length seen.log ≡ number + 1 },
}

/// Adds a word to a history. Returns the number that was at the door, which is 0 before the first
/// word, and the pen of the word.
fn spare_word(door: &Door, seen: &Seen<Entry, u64, Chained>) -> (u64, Pen)
    requires { door.now ≡ door_of seen.now.book }
    ensures pen { (result.1.book ≡ seen.now.book) × (result.1.nib.right ≡ may_write) }
    ensures first { result.0 ≡ 0 → result.1.nib.key ≡ 1 }
{
    let mut seen = seen.again();
    let mut offer: Update = seen.plain::<Nothing, (), Reserve>(&());
    let mut pen = seen.no_pen();
    let found = door.compare_exchange::<Reserve, Nothing>(0, 1, &mut seen, &mut offer, &mut pen);
    let _word: Door = Word::tracked(0, &mut pen);
    (found, pen)
}

impl Front {
    /// Begins a history with this row. `None` says that somebody else has added a word to it. That
    /// can't happen, since nobody else has its door yet.
    pub fn open(row: &Row) -> Option<(Head, Front)>
        ensures { IfSome result (λ made. Leads made.0 made.1.seen.book
            made.1.seen.log
            × (rows_of made.1.seen.log ≡ row_view row.now ∷ [])) }
    {
        let (seen, mut pens) = Seen::open_row::<Row, Begins>(row, Start::alone(), 1);
        let mut pen = pens.take();
        let door: Door = Word::tracked(0, &mut pen);
        let (found, pen) = spare_word(&door, &seen);
        if found != 0 {
            return None;
        }
        Some((Head { door, pen }, Front { number: 0, seen }))
    }

    /// Returns a copy of this front.
    pub fn again(&self) -> Front
        ensures { result.seen ≡ self.now.seen }
    {
        Front {
            number: self.number,
            seen: self.seen.again(),
        }
    }

    /// Advances to another front of the same history, unless that one is shorter. Returns whether
    /// it did.
    pub fn reach(&mut self, other: &Front) -> bool
        requires { other.now.seen.book ≡ self.old.seen.book }
        ensures book { self.new.seen.book ≡ self.old.seen.book }
        ensures rows { MatchBool result
            (rows_of self.new.seen.log ≡ rows_of other.now.seen.log)
            ((rows_of self.new.seen.log ≡ rows_of self.old.seen.log)
            × IsPrefix (rows_of other.now.seen.log) (rows_of self.new.seen.log)
            × (length (rows_of other.now.seen.log) < length (rows_of self.new.seen.log))) }
        ensures later { IsPrefix (rows_of self.old.seen.log) (rows_of self.new.seen.log) }
    {
        // Both are prefixes of `reached`, so one is a prefix of the other.
        let mut reached = self.seen.again();
        reached.learn(&other.seen);
        if other.number < self.number {
            return false;
        }
        *self = other.again();
        true
    }

    /// A law: of two fronts of one history, one is a prefix of the other.
    pub fn one_list(&self, other: &Front)
        requires { other.now.seen.book ≡ self.now.seen.book }
        ensures { IsPrefix (rows_of other.now.seen.log) (rows_of self.now.seen.log)
            ⊎ IsPrefix (rows_of self.now.seen.log) (rows_of other.now.seen.log) }
    {
        let mut reached = self.seen.again();
        reached.learn(&other.seen);
    }

    /// Adds a row to the history, and returns the front up to it; `None` where no number is left.
    pub fn added(&self, head: Head, row: &Row) -> (Head, Option<Front>)
        requires { Leads head self.now.seen.book self.now.seen.log }
        ensures front { MatchOption result.1
            ((result.0 ≡ head) × (length (rows_of self.now.seen.log) ≡ 2 ^ 64))
            (λ front. Leads result.0 front.seen.book front.seen.log
            × (front.seen.book ≡ self.now.seen.book)
            × (rows_of front.seen.log ≡ rows_of self.now.seen.log ++ row_view row.now ∷ [])) }
    {
        let Some(number) = self.number.checked_add(1) else {
            return (head, None);
        };
        let Head { door, mut pen } = head;
        let (_found, next) = spare_word(&door, &self.seen);
        let mut seen = self.seen.again();
        let draft = Draft { row, next: &next };
        let mut offer: Update = seen.plain::<Nothing, Draft<'_>, Append>(&draft);
        let _one = door.compare_exchange::<Append, Nothing>(0, 1, &mut seen, &mut offer, &mut pen);
        (Head { door, pen: next }, Some(Front { number, seen }))
    }
}
