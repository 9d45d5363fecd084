//! The results of a batch, item by item, in the order of the run.
//!
//! The walk goes from place to place. A reader whose lists have been read to their ends is let go,
//! so that no later place costs a step for it.

ghost use Rattle.std.specs.Prelude.{◌≡◌, ◌∷◌, ◌++◌, IfOk, IfSome, List, None, IfNone, [], length, map, true};
ghost use Rattle.std.specs.Iterator.{YieldsFirstBy, item_count};
ghost use Rattle.rtps_reader.specs.Notice.{answer_view};
ghost use Rattle.rtps_run.specs.World.{ReportView, World};
ghost use Rattle.rtps_run.specs.Merged.{same_place};
ghost use Rattle.rtps_run.specs.BatchOutput.{AreAnswersInOrder, IsGiven, IsInOrder, answers_given, given_answers, given_puts, parts_given};
ghost use Rattle.rtps_run.specs.Order.{AreLeft, RowView, answer_place, front, left, notice_place, row_after, report_of, row_at, row_seen, seen};

use crate::BatchOutput;
use dds_topic::Catalog;
use rtps_reader::{Notice, Output};
use rtps_types::{Place, Reply};
use std::alloc::{AllocError, Global};
use std::marker::Model;

/// An item of the results of a batch.
#[derive(Clone, Copy)]
pub enum Item<'g, V> {
    /// A notice of the reader of this rank. The notice has its place.
    Notice(u32, &'g Notice<V>),
    /// The place of an event, and the answer to it of the reader of this rank, or of discovery if
    /// there is no rank.
    Answer(Option<u32>, &'g (Place, Reply)),
}

/// What is left to read of a reader's lists.
#[derive(Drop)]
struct Row<'g, V> {
    rank: u32,
    notices: &'g [Notice<V>],
    answers: &'g [(Place, Reply)],
}

impl<'g, V> Model for Row<'g, V> {
    ghost Value = { RowView V };

    ghost view = { λ l. record {
      rank = l.rank;
      told = l.notices.now;
      sent = map answer_view l.answers.now;
    } };
}

/// What is left to read of all lists.
#[derive(Drop)]
struct Rows<'g, V> {
    /// Discovery's answers that are left.
    said: &'g [(Place, Reply)],
    /// By rank, what is left of the lists of each reader that has something left.
    rows: Vec<Row<'g, V>>,
    /// The number of these readers that have nothing left at the place where the walk is.
    at: usize,
}

/// The items of a batch, in the order of the run.
#[derive(Drop)]
pub struct InOrder<'g, V> {
    /// The places that are left. The walk is at the first one.
    places: &'g [Place],
    rest: Rows<'g, V>,
}

impl<'g, V> Model for InOrder<'g, V> {
    ghost Value = { List (ReportView V) };

    ghost view = { λ w. left w.places.now (map answer_view w.rest.said.now) w.rest.rows.items
        w.rest.at };
}

/// Returns the first notice and the others, if the first is at this place.
fn first_notice<V>(notices: &[Notice<V>], place: Place) -> Option<(&Notice<V>, &[Notice<V>])>
    ensures some { IfSome result (λ r. (notices.now ≡ r.0.now ∷ r.1.now)
        × (same_place r.0.now.place place ≡ true)) }
    ensures none { IfNone result
        (front notice_place place notices.now ≡ []) }
{
    let (first, others) = notices.split_first()?;
    if first.place != place {
        return None;
    }
    Some((first, others))
}

/// Returns the first answer and the others, if the first is at this place.
fn first_answer(
    answers: &[(Place, Reply)],
    place: Place,
) -> Option<(&(Place, Reply), &[(Place, Reply)])>
    ensures some { IfSome result (λ r. (answers.now ≡ r.0.now ∷ r.1.now)
        × (same_place r.0.now.0 place ≡ true)) }
    ensures none { IfNone result (front answer_place place (map answer_view answers.now) ≡ []) }
{
    let (first, others) = answers.split_first()?;
    if first.0 != place {
        return None;
    }
    Some((first, others))
}

impl<'g, V> Row<'g, V> {
    /// Takes the next item, if it is at this place.
    fn next(&mut self, place: Place) -> Option<Item<'g, V>>
        ensures some { IfSome result (λ item. (row_at place self.old
            ≡ report_of item ∷ row_at place self.new)
            × (row_after place self.new ≡ row_after place self.old)) }
        ensures none { IfNone result ((self.new ≡ self.old) × (row_at place self.old ≡ [])
            × (row_after place self.old ≡ self.old)) }
    {
        if let Some((notice, others)) = first_notice(self.notices, place) {
            self.notices = others;
            return Some(Item::Notice(self.rank, notice));
        }
        if let Some((answer, others)) = first_answer(self.answers, place) {
            self.answers = others;
            return Some(Item::Answer(Some(self.rank), answer));
        }
        None
    }

    /// Whether nothing is left.
    fn is_empty(&self) -> bool
        ensures { result ≡ true → (self.now.told ≡ []) × (self.now.sent ≡ []) }
    {
        self.notices.is_empty() && self.answers.is_empty()
    }
}

impl<'g, V> Rows<'g, V> {
    /// Whether nothing is left at any place.
    fn is_empty(&self) -> bool
        ensures { result ≡ true → (self.now.said.now ≡ []) × (self.now.rows.items ≡ []) }
    {
        self.said.is_empty() && self.rows.is_empty()
    }

    /// Takes the next item, if it is at this place, which is the one where the walk is. If there is
    /// none, the walk goes on to the next place. A reader that has nothing left is let go.
    fn next(&mut self, place: Place) -> Option<Item<'g, V>>
        ensures some { IfSome result (λ item. (places : List Place)
            → left (place ∷ places) (map answer_view self.old.said.now)
            self.old.rows.items self.old.at
            ≡ report_of item ∷ left (place ∷ places) (map answer_view self.new.said.now)
            self.new.rows.items self.new.at) }
        ensures none { IfNone result ((places : List Place)
            → left (place ∷ places) (map answer_view self.old.said.now)
            self.old.rows.items self.old.at
            ≡ left places (map answer_view self.new.said.now) self.new.rows.items self.new.at) }
    {
        if let Some((answer, others)) = first_answer(self.said, place) {
            self.said = others;
            return Some(Item::Answer(None, answer));
        }
        while self.at < self.rows.len() {
            if let Some(item) = self.rows[self.at].next(place) {
                return Some(item);
            }
            if self.rows[self.at].is_empty() {
                self.rows.remove(self.at);
            } else {
                self.at += 1;
            }
        }
        self.at = 0;
        None
    }
}

/// Returns an index as a rank, which has 32 bits. There is no memory for as many readers as have no
/// rank.
fn rank_of(index: usize) -> Result<u32, AllocError>
    ensures { IfOk result (λ rank. rank ≡ index) }
{
    if index > 0xffff_ffff {
        return Err(AllocError);
    }
    Ok(index as u32)
}

/// Whether a reader put out nothing.
fn is_silent<V>(output: &Output<V>) -> bool
    ensures { result ≡ true → (output.now.notices.items ≡ []) × (output.now.answers.items ≡ []) }
{
    output.notices.is_empty() && output.answers.is_empty()
}

/// Whether a reader answers nothing.
fn answers_nothing<V>(output: &Output<V>) -> bool
    ensures { result ≡ true → output.now.answers.items ≡ [] }
{
    output.answers.is_empty()
}

/// Returns the lists of the readers that put out something.
fn rows_of<'g, C: Catalog>(
    alloc: Global,
    given: &'g BatchOutput<C::Value>,
) -> Result<Vec<Row<'g, C::Value>>, AllocError>
    ensures { IsInOrder C.view given.now → IfOk result (λ rows. AreLeft (parts_given C.view given.now)
        (length given.now.outputs.items) given.now.places.items
        (map answer_view given.now.answers.items) (map (row_seen C.view) rows.items)) }
{
    let mut rows = Vec::new(alloc);
    for index in 0..given.outputs.len() {
        let output = &given.outputs[index];
        if is_silent(output) {
            continue;
        }
        let rank = rank_of(index)?;
        rows.push(Row {
            rank,
            notices: output.notices.as_slice(),
            answers: output.answers.as_slice(),
        })?;
    }
    Ok(rows)
}

/// Returns the items of a batch, in the order of the run: what the iterator yields is exactly what
/// the run puts out more. They are read where they are, and nothing is copied.
///
/// An error is a refused growth: the walk needs memory for each reader that put out something. A
/// step of the walk looks at the readers that have something left, and at no other.
///
/// ```text
/// for item in in_order::<C>(alloc, &given)? {
///     match item {
///         Item::Notice(rank, notice) => {} // What the reader of this rank reports.
///         Item::Answer(_rank, (_place, reply)) => {} // Send reply.octets to each of reply.to.
///     }
/// }
/// ```
pub fn in_order<'g, C: Catalog>(
    alloc: Global,
    given: &'g BatchOutput<C::Value>,
) -> Result<InOrder<'g, C::Value>, AllocError>
    ensures puts { IsInOrder C.view given.now
        → IfOk result (λ items. map (seen C.view) items ≡ given_puts C.view given.now) }
    ensures more { (before after : World C.Meaning) → IsGiven C.view before after given.now
        → IfOk result (λ items. after.put ≡ before.put ++ map (seen C.view) items) }
{
    let rows = rows_of::<C>(alloc, given)?;
    Ok(InOrder {
        places: given.places.as_slice(),
        rest: Rows {
            said: given.answers.as_slice(),
            rows,
            at: 0,
        },
    })
}

/// Returns the lists of the readers that answer, without their notices.
fn answering_rows<'g, V>(
    alloc: Global,
    given: &'g BatchOutput<V>,
) -> Result<Vec<Row<'g, V>>, AllocError>
    ensures { AreAnswersInOrder given.now → IfOk result (λ rows. AreLeft (answers_given given.now)
        (length given.now.outputs.items) given.now.places.items
        (map answer_view given.now.answers.items) rows.items) }
{
    let mut rows = Vec::new(alloc);
    for index in 0..given.outputs.len() {
        let output = &given.outputs[index];
        if answers_nothing(output) {
            continue;
        }
        let rank = rank_of(index)?;
        rows.push(Row {
            rank,
            notices: &[],
            answers: output.answers.as_slice(),
        })?;
    }
    Ok(rows)
}

/// Returns the answers of a batch, in the order of the run, and none of its notices.
///
/// An error is a refused growth: the walk needs memory for each reader that answers. A step of the
/// walk looks at the readers that have an answer left, and at no other; after the last answer no
/// place is visited.
pub fn answers_in_order<'g, V>(
    alloc: Global,
    given: &'g BatchOutput<V>,
) -> Result<InOrder<'g, V>, AllocError>
    ensures { AreAnswersInOrder given.now
        → IfOk result (λ items. items ≡ given_answers given.now) }
{
    let rows = answering_rows(alloc, given)?;
    Ok(InOrder {
        places: given.places.as_slice(),
        rest: Rows {
            said: given.answers.as_slice(),
            rows,
            at: 0,
        },
    })
}

impl<'g, V> Iterator for InOrder<'g, V> {
    type Item = Item<'g, V>;

    ghost next_gives = { YieldsFirstBy report_of (λ items. items) };

    ghost remaining = { item_count (λ items. items) };

    fn next(&mut self) -> Option<Item<'g, V>> {
        while let Some((place, others)) = self.places.split_first() {
            if self.rest.is_empty() {
                return None;
            }
            if let Some(item) = self.rest.next(*place) {
                return Some(item);
            }
            self.places = others;
        }
        None
    }
}
