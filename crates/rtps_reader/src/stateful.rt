//! A reader that keeps the state of each matched writer.

ghost use Rattle.std.specs.Prelude.{◌≡◌, ◌++◌, [], List, IfOk, OnOk, false, length, map, take};
ghost use Rattle.rtps_proxy.specs.Effects.{GivesNothing, match_event};
ghost use Rattle.rtps_proxy.specs.Matches.{AllStand, AreTaken, Match, begun, extended, fresh, given_where, match_with};
ghost use Rattle.rtps_types.specs.MatchChange.{match_change_view};
ghost use Rattle.dds_topic.specs.Decoding.{Decoding};
ghost use Rattle.rtps_reader.specs.declared.notice.Notice.{Notice};
ghost use Rattle.rtps_reader.specs.Notice.{answer_view, notice_view};
ghost use Rattle.rtps_reader.specs.Reader.{Reader, first_reader, pairing_of, reader_after, sends, tells};
ghost use Rattle.rtps_reader.specs.Standing.{IsSameReader, KeepsFront, StandsAt, StartsAt, counts_given, facts_in, kept_by};
ghost use Rattle.rtps_reader.specs.Step.{Changes, asked};

use crate::notice::{Notice, NoticeKind, Output};
use crate::present::{present, tell};
use crate::status::Counts;
use crate::step::{Step, StepKind};
use dds_topic::{Catalog, Decoder};
use rtps_proxy::{Effects, Matches, ProxyConfig};
use rtps_receiver::EventBody;
use rtps_types::{
    EntityId, Guid, GuidPrefix, Locator, Locators, MatchChangeKind, Place, Timestamp, WriterFacts,
};
use std::alloc::{AllocError, Allocator};

/// A reader that keeps the state of each matched writer (DDSI-RTPS 8.4.10, `StatefulReader`), and
/// counts what it reports.
#[derive(Drop)]
pub(crate) struct StatefulReader<A: Allocator> {
    pub(crate) rank: u32,
    pub(crate) own: GuidPrefix,
    pub(crate) entity: EntityId,
    pub(crate) reliable: bool,
    pub(crate) matches: Matches<A>,
    pub(crate) counts: Counts,
}

impl<A: Allocator + Copy> StatefulReader<A> {
    /// Returns a reader with its fixed matches, which are counted and have no events yet.
    pub(crate) fn new(
        alloc: A,
        rank: u32,
        guid: Guid,
        reliable: bool,
        fixed: &[WriterFacts<A>],
    ) -> Result<StatefulReader<A>, AllocError>
        ensures starts { IfOk result (λ r. StartsAt (first_reader guid.prefix guid.entity reliable
            (map facts_in fixed.now)) (kept_by false r)) }
        ensures place { IfOk result (λ r. (r.rank ≡ rank) × (r.own ≡ guid.prefix)) }
    {
        let mut reader = StatefulReader {
            rank,
            own: guid.prefix,
            entity: guid.entity,
            reliable,
            matches: Matches::new(alloc),
            counts: Counts::of_fixed(0),
        };
        for facts in fixed {
            reader.begin(alloc, facts.writer, facts.locators.as_slice())?;
        }
        reader.counts = Counts::of_fixed(reader.matches.len());
        Ok(reader)
    }

    /// Does one step, and appends its results to `output`. After a refused growth the step may have
    /// been done only in part.
    pub(crate) fn step<'a, C: Catalog>(
        &mut self,
        alloc: A,
        decoder: &mut Decoder<C>,
        step: &Step<'a, A>,
        effects: &mut Effects<'a, A>,
        output: &mut Output<C::Value, A>,
    ) -> Result<(), AllocError>
        requires { GivesNothing effects.old }
        ensures stands { (r : Reader) (given : List (Notice C.Meaning))
            → StandsAt r given (kept_by false self.old)
            → OnOk result (StandsAt (reader_after r (asked step.now.what))
            (given ++ tells (C.decoding decoder.old) r step.now.place
            (asked step.now.what)) (kept_by false self.new)) }
        ensures notices { (r : Reader) (given : List (Notice C.Meaning))
            → StandsAt r given (kept_by false self.old)
            → OnOk result (map (notice_view C.view) output.new.notices.items
            ≡ map (notice_view C.view) output.old.notices.items
            ++ tells (C.decoding decoder.old) r step.now.place (asked step.now.what)) }
        ensures answers { (r : Reader) (given : List (Notice C.Meaning))
            → StandsAt r given (kept_by false self.old)
            → OnOk result (map answer_view output.new.answers.items
            ≡ map answer_view output.old.answers.items
            ++ sends r step.now.place (asked step.now.what)) }
        ensures reader { IsSameReader self.old self.new }
        ensures same { decoder.new ≡ decoder.old }
        ensures kept { KeepsFront output.old output.new }
        ensures nothing { OnOk result (GivesNothing effects.new) }
    {
        match step.what {
            StepKind::Event { writer, time, body } => {
                let is_matched = self.take(alloc, writer, time, body, effects)?;
                if !is_matched {
                    return Ok(());
                }
                present(decoder, step.place, writer, effects, output)
            }
            StepKind::Change(change) => {
                self.change::<C>(alloc, step.place, change, &mut output.notices)
            }
        }
    }

    /// Begins or ends a match or refuses a writer, and reports that.
    fn change<C: Catalog>(
        &mut self,
        alloc: A,
        place: Place,
        change: &MatchChangeKind<A>,
        notices: &mut Vec<Notice<C::Value>, A>,
    ) -> Result<(), AllocError>
        ensures stands { (decoding : Decoding C.Meaning) (r : Reader)
            (given : List (Notice C.Meaning))
            → StandsAt r given (kept_by false self.old)
            → OnOk result (StandsAt (reader_after r (Changes (match_change_view change.now)))
            (given ++ tells decoding r place (Changes (match_change_view change.now)))
            (kept_by false self.new)) }
        ensures notices { (decoding : Decoding C.Meaning) (r : Reader)
            → OnOk result (map (notice_view C.view) notices.new.items
            ≡ map (notice_view C.view) notices.old.items
            ++ tells decoding r place (Changes (match_change_view change.now))) }
        ensures reader { IsSameReader self.old self.new }
        ensures kept { take (length notices.old.items) notices.new.items ≡ notices.old.items }
    {
        match change {
            MatchChangeKind::Match(facts) => {
                self.begin(alloc, facts.writer, facts.locators.as_slice())?;
                self.counts = self.counts.with_match();
                tell::<C, A>(place, facts.writer, NoticeKind::Matched, notices)
            }
            MatchChangeKind::Unmatch(writer) => {
                self.matches.end(*writer);
                tell::<C, A>(place, *writer, NoticeKind::Unmatched, notices)
            }
            MatchChangeKind::Refuse { writer, policy } => {
                self.counts = self.counts.with_refusal(*policy);
                let what = NoticeKind::Incompatible { policy: *policy };
                tell::<C, A>(place, *writer, what, notices)
            }
        }
    }

    /// Ends all matches, the fixed ones too. No memory is taken.
    pub(crate) fn stop(&mut self)
        ensures matches { (ms : List Match) → AllStand ms self.old.matches
            → self.new.matches ≡ [] }
        ensures counts { self.new.counts ≡ self.old.counts }
        ensures reader { IsSameReader self.old self.new }
    {
        for _ in 0..self.matches.len() {
            if let Some(first) = self.matches.writers().next() {
                let writer = *first;
                self.matches.end(writer);
            }
        }
    }

    /// Passes an event to the match with its writer, writes the effects into `effects`, and counts
    /// them. Returns whether the writer is matched.
    fn take<'a>(
        &mut self,
        alloc: A,
        writer: Guid,
        time: Option<Timestamp>,
        body: &EventBody<'a>,
        effects: &mut Effects<'a, A>,
    ) -> Result<bool, AllocError>
        requires { GivesNothing effects.old }
        ensures stands { (ms : List Match) → AllStand ms self.old.matches
            → OnOk result (AllStand (extended writer (match_event time body.now) ms)
            self.new.matches) }
        ensures effects { (ms : List Match) → AllStand ms self.old.matches
            → IfOk result (λ is_matched. AreTaken (match_with writer ms)
            (match_event time body.now) (given_where is_matched effects.new)) }
        ensures counts { IfOk result (λ is_matched. self.new.counts
            ≡ counts_given self.old.counts (given_where is_matched effects.new)) }
        ensures nothing { IfOk result (λ is_matched. is_matched ≡ false
            → GivesNothing effects.new) }
        ensures reader { IsSameReader self.old self.new }
    {
        let matches = &mut self.matches;
        if !matches.on_event_into(alloc, writer, time, body, effects)? {
            return Ok(false);
        }
        self.counts = self.counts.with_effects(effects);
        Ok(true)
    }

    /// Begins a match with a writer, with a copy of these locators.
    fn begin(&mut self, alloc: A, writer: Guid, locators: &[Locator]) -> Result<(), AllocError>
        ensures stands { (ms : List Match) → AllStand ms self.old.matches
            → OnOk result (AllStand (begun (fresh (pairing_of self.old.own self.old.entity
            self.old.reliable (writer, locators.now))) ms) self.new.matches) }
        ensures counts { self.new.counts ≡ self.old.counts }
        ensures reader { IsSameReader self.old self.new }
    {
        let config = ProxyConfig {
            own: self.own,
            writer,
            reader: self.entity,
            reliable: self.reliable,
            locators: Locators::copied(alloc, locators)?,
        };
        self.matches.begin(alloc, config)
    }
}
