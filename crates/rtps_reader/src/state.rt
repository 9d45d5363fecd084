//! The state of a reader, and its steps.

ghost use Rattle.std.specs.Prelude.{◌≡◌, ◌++◌, List, map, IfOk, IsErr, OnErr, OnOk, true};
ghost use Rattle.std.specs.BTreeSet.{insert_key};
ghost use Rattle.std.specs.Map.{keys_of};
ghost use Rattle.rtps_proxy.specs.Effects.{GivesNothing};
ghost use Rattle.rtps_reader.specs.declared.notice.Notice.{Notice};
ghost use Rattle.rtps_reader.specs.Listed.{match_order, with_writers};
ghost use Rattle.rtps_reader.specs.Notice.{answer_view, notice_view};
ghost use Rattle.rtps_reader.specs.Reader.{Reader, first_reader, reader_after, sends, tells};
ghost use Rattle.rtps_reader.specs.Standing.{IsStopped, KeepsFront, StandsAt, StartsAt, facts_in};
ghost use Rattle.rtps_reader.specs.Step.{asked};

use crate::notice::Output;
use crate::stateful::StatefulReader;
use crate::status::Status;
use crate::step::Step;
use dds_topic::{Catalog, Decoder};
use rtps_proxy::Effects;
use rtps_types::{EntityId, Guid, GuidPrefix, WriterFacts};
use std::alloc::{AllocError, Allocator, Global};
use std::collections::BTreeSet;
use std::marker::Model;

/// Why a reader could not do a step: the allocator refused a growth, now or at an earlier step.
pub type ReaderError = AllocError;

/// A reader: its matches and its status (DDSI-RTPS 8.4.10; DDS 1.4, 2.2.4.1).
#[derive(Drop)]
pub struct ReaderState<A: Allocator = Global> {
    /// A growth was refused: a step may have been done only in part.
    spent: bool,
    reader: StatefulReader<A>,
}

impl<A: Allocator> Model for ReaderState<A> {
    ghost use Rattle.rtps_reader.specs.Standing.{ReaderView, kept_by};

    ghost Value = { ReaderView };

    ghost view = { λ r. kept_by r.spent r.reader };
}

impl<A: Allocator + Copy> ReaderState<A> {
    /// Returns a reader with its fixed matches, which are counted in its status. `rank` is its
    /// index among the readers of its participant. A reliable reader asks for missing changes. An
    /// error is a refused growth.
    pub fn new(
        alloc: A,
        rank: u32,
        guid: Guid,
        reliable: bool,
        fixed: &[WriterFacts<A>],
    ) -> Result<ReaderState<A>, ReaderError>
        ensures starts { IfOk result (StartsAt (first_reader guid.prefix guid.entity reliable
            (map facts_in fixed.now))) }
        ensures place { IfOk result (λ r. (r.rank ≡ rank) × (r.own ≡ guid.prefix)) }
    {
        Ok(ReaderState {
            spent: false,
            reader: StatefulReader::new(alloc, rank, guid, reliable, fixed)?,
        })
    }

    /// Does one step, and appends its results to `output`. An event of a matched writer gives a
    /// notice of lost samples, then the samples that are ready, and the answer to the writer. An
    /// event of any other writer gives nothing. The caller checks the destination of an event
    /// first: the reader gets only events that are addressed to it.
    ///
    /// When a step runs out of memory the reader is spent, and `output` keeps what the step had
    /// appended. Each later step of a spent reader returns the same error, and changes nothing.
    pub fn step<C: Catalog>(
        &mut self,
        alloc: A,
        decoder: &mut Decoder<C>,
        step: &Step<'_, A>,
        output: &mut Output<C::Value, A>,
    ) -> Result<(), ReaderError>
        ensures stands { (r : Reader) (given : List (Notice C.Meaning)) → StandsAt r given self.old
            → OnOk result (StandsAt (reader_after r (asked step.now.what))
            (given ++ tells (C.decoding decoder.old) r step.now.place
            (asked step.now.what)) self.new) }
        ensures notices { (r : Reader) (given : List (Notice C.Meaning)) → StandsAt r given self.old
            → OnOk result (map (notice_view C.view) output.new.notices.items
            ≡ map (notice_view C.view) output.old.notices.items
            ++ tells (C.decoding decoder.old) r step.now.place (asked step.now.what)) }
        ensures answers { (r : Reader) (given : List (Notice C.Meaning)) → StandsAt r given self.old
            → OnOk result (map answer_view output.new.answers.items
            ≡ map answer_view output.old.answers.items
            ++ sends r step.now.place (asked step.now.what)) }
        ensures place { (self.new.rank ≡ self.old.rank) × (self.new.own ≡ self.old.own)
            × (self.new.entity ≡ self.old.entity) }
        ensures same { decoder.new ≡ decoder.old }
        ensures kept { KeepsFront output.old output.new }
        ensures err { OnErr result (self.new.spent ≡ true) }
        ensures spent { self.old.spent ≡ true → IsErr result }
        ensures still { self.old.spent ≡ true → (self.new ≡ self.old) × (output.new ≡ output.old) }
    {
        let mut effects = Effects::none(alloc);
        self.step_with(alloc, decoder, step, &mut effects, output)
    }

    /// Does one step as [`ReaderState::step`] does. The effects of the match are written into the
    /// caller's `effects` and moved on to `output`. Afterwards they are empty, and keep only their
    /// capacity, which the next step reuses.
    pub fn step_with<'a, C: Catalog>(
        &mut self,
        alloc: A,
        decoder: &mut Decoder<C>,
        step: &Step<'a, A>,
        effects: &mut Effects<'a, A>,
        output: &mut Output<C::Value, A>,
    ) -> Result<(), ReaderError>
        requires { GivesNothing effects.old }
        ensures stands { (r : Reader) (given : List (Notice C.Meaning)) → StandsAt r given self.old
            → OnOk result (StandsAt (reader_after r (asked step.now.what))
            (given ++ tells (C.decoding decoder.old) r step.now.place
            (asked step.now.what)) self.new) }
        ensures notices { (r : Reader) (given : List (Notice C.Meaning)) → StandsAt r given self.old
            → OnOk result (map (notice_view C.view) output.new.notices.items
            ≡ map (notice_view C.view) output.old.notices.items
            ++ tells (C.decoding decoder.old) r step.now.place (asked step.now.what)) }
        ensures answers { (r : Reader) (given : List (Notice C.Meaning)) → StandsAt r given self.old
            → OnOk result (map answer_view output.new.answers.items
            ≡ map answer_view output.old.answers.items
            ++ sends r step.now.place (asked step.now.what)) }
        ensures place { (self.new.rank ≡ self.old.rank) × (self.new.own ≡ self.old.own)
            × (self.new.entity ≡ self.old.entity) }
        ensures same { decoder.new ≡ decoder.old }
        ensures kept { KeepsFront output.old output.new }
        ensures err { OnErr result (self.new.spent ≡ true) }
        ensures spent { self.old.spent ≡ true → IsErr result }
        ensures still { self.old.spent ≡ true → (self.new ≡ self.old) × (output.new ≡ output.old) }
        ensures lent { self.old.spent ≡ true → effects.new ≡ effects.old }
        ensures nothing { OnOk result (GivesNothing effects.new) }
    {
        if self.spent {
            return Err(AllocError);
        }
        // Spent until the step is done: an early return by `?` leaves it so.
        self.spent = true;
        self.reader.step(alloc, decoder, step, effects, output)?;
        self.spent = false;
        Ok(())
    }

    /// Stops the reader: all its matches end, the fixed ones too, and no notice tells of it. Its
    /// status is that of before, without matches. No memory is taken.
    pub fn stop(&mut self)
        ensures { IsStopped self.old self.new }
    {
        self.reader.stop();
    }

    /// Returns the reader's index among the readers of its participant, counted from 0.
    pub fn rank(&self) -> u32
        ensures { result ≡ self.now.rank }
    {
        self.reader.rank
    }

    /// Returns the entity id that events address the reader by.
    pub fn entity(&self) -> EntityId
        ensures { result ≡ self.now.entity }
    {
        self.reader.entity
    }

    /// Adds the matches to a set, each as the reader's rank and the writer. A refused growth may
    /// leave some of them in it.
    pub fn add_matches(&self, matches: &mut BTreeSet<(u32, Guid), A>) -> Result<(), ReaderError>
        ensures { OnOk result (matches.new.keys
            ≡ with_writers matches.old.keys self.now.rank (keys_of self.now.matches)) }
    {
        let mut writers = self.reader.matches.writers();
        while let Some(writer) = writers.next() {
            add_match(matches, self.reader.rank, *writer)?;
        }
        Ok(())
    }

    /// Returns the status of the reader: its matches now, and totals of what it has reported since
    /// its start (DDS 1.4, 2.2.4.1).
    pub fn status(&self) -> Status
        ensures { result ≡ self.now.status }
    {
        self.reader.counts.status(self.reader.matches.len())
    }
}

/// Adds a match to a set.
fn add_match<A: Allocator + Copy>(
    listed: &mut BTreeSet<(u32, Guid), A>,
    rank: u32,
    writer: Guid,
) -> Result<(), AllocError>
    ensures { OnOk result (listed.new.keys
        ≡ insert_key match_order listed.old.keys (rank, writer)) }
{
    listed.insert((rank, writer))?;
    Ok(())
}
