//! The readers of a participant, by rank.

ghost use Rattle.std.specs.Prelude.{◌≡◌, ◌++◌, [], ◌∷◌, List, OnOk, Some, length, map};
ghost use Rattle.dds_topic.specs.Decoding.{Decoding};
ghost use Rattle.rtps_proxy.specs.Replies.{reply_view};
ghost use Rattle.rtps_reader.specs.Notice.{answer_view, notice_view};
ghost use Rattle.rtps_reader.specs.Step.{Stops, asked};
ghost use Rattle.rtps_run.specs.declared.outcome.Report as report;
ghost use Rattle.rtps_run.specs.Outcome.{report_view};
ghost use Rattle.rtps_run.specs.Standing.{ReadersStand};
ghost use Rattle.rtps_run.specs.Steps.{step_by, world_stepped};
ghost use Rattle.rtps_run.specs.World.{NoticeOf, ReportView, World, sent_by};

use dds_topic::{Catalog, Decoder};
use rtps_reader::{Notice, Output, ReaderState, Step};
use rtps_run::{Answer, Report};
use rtps_types::{Place, Reply};
use std::alloc::{AllocError, Allocator};

/// The readers of a participant, and the data that their steps need.
#[derive(Drop)]
pub struct Readers<C: Catalog, A: Allocator> {
    pub decoder: Decoder<C>,
    /// The states of the readers, by rank.
    pub states: Vec<ReaderState<A>, A>,
    /// The output of a step, until it is reported. It is kept between steps so that its memory is
    /// reused.
    output: Output<C::Value, A>,
}

impl<C: Catalog, A: Allocator + Copy> Readers<C, A> {
    /// Returns readers of these states, whose samples are decoded by `decoder`.
    pub fn new(alloc: A, decoder: Decoder<C>, states: Vec<ReaderState<A>, A>) -> Readers<C, A>
        ensures decoder { result.decoder ≡ decoder }
        ensures states { result.states ≡ states }
    {
        Readers {
            decoder,
            states,
            output: Output {
                notices: Vec::new(alloc),
                answers: Vec::new(alloc),
            },
        }
    }

    /// Runs one step of the reader of a rank, and appends its output to the reports: its notices,
    /// and then its answers. A rank without a reader changes nothing.
    pub(crate) fn step(
        &mut self,
        alloc: A,
        rank: u32,
        step: &Step<'_, A>,
        reports: &mut Vec<Report<C::Value, A>, A>,
    ) -> Result<(), AllocError>
        ensures same { self.new.decoder ≡ self.old.decoder }
        ensures count { length self.new.states.items ≡ length self.old.states.items }
        ensures stands { (w : World C.Meaning) (earlier : List (ReportView C.Meaning))
            → ReadersStand C.view w earlier self.old.states.items reports.old.items
            → OnOk result (ReadersStand C.view (world_stepped (C.decoding self.old.decoder)
            step.now.place w (step_by rank (asked step.now.what))) earlier
            self.new.states.items reports.new.items) }
    {
        let at = rank as usize;
        if at >= self.states.len() {
            return Ok(());
        }
        self.output.notices.clear();
        self.output.answers.clear();
        self.states[at].step(alloc, &mut self.decoder, step, &mut self.output)?;
        report_all::<C, A>(rank, &mut self.output, reports)
    }

    /// Adds the state of a reader that comes, whose rank is the next one.
    pub(crate) fn start(&mut self, state: ReaderState<A>) -> Result<(), AllocError>
        ensures same { self.new.decoder ≡ self.old.decoder }
        ensures states { OnOk result
            (self.new.states.items ≡ self.old.states.items ++ state ∷ []) }
    {
        self.states.push(state)?;
        Ok(())
    }

    /// Stops the reader of a rank. A rank without a reader changes nothing.
    pub(crate) fn stop(&mut self, rank: u32)
        ensures same { self.new.decoder ≡ self.old.decoder }
        ensures count { length self.new.states.items ≡ length self.old.states.items }
        ensures stands { (decoding : Decoding C.Meaning) (place : _) (w : World C.Meaning)
            (earlier : List (ReportView C.Meaning)) (reports : List (report.Report C.Value A))
            → ReadersStand C.view w earlier self.old.states.items reports
            → ReadersStand C.view (world_stepped decoding place w (step_by rank Stops)) earlier
            self.new.states.items reports }
    {
        let at = rank as usize;
        if at < self.states.len() {
            self.states[at].stop();
        }
    }
}

/// Moves the output of the reader of a rank to the end of the reports: its notices, and then its
/// answers.
fn report_all<C: Catalog, A: Allocator>(
    rank: u32,
    output: &mut Output<C::Value, A>,
    reports: &mut Vec<Report<C::Value, A>, A>,
) -> Result<(), AllocError>
    ensures { OnOk result (map (report_view C.view) reports.new.items
        ≡ map (report_view C.view) reports.old.items
        ++ (map (NoticeOf rank) (map (notice_view C.view) output.old.notices.items)
        ++ map (sent_by (Some rank)) (map answer_view output.old.answers.items))) }
{
    report_notices::<C, A>(rank, &mut output.notices, reports)?;
    report_answers::<C, A>(rank, &mut output.answers, reports)
}

/// Moves the notices of the reader of a rank to the end of the reports. Most steps have none.
fn report_notices<C: Catalog, A: Allocator>(
    rank: u32,
    notices: &mut Vec<Notice<C::Value>, A>,
    reports: &mut Vec<Report<C::Value, A>, A>,
) -> Result<(), AllocError>
    ensures { OnOk result (map (report_view C.view) reports.new.items
        ≡ map (report_view C.view) reports.old.items
        ++ map (NoticeOf rank) (map (notice_view C.view) notices.old.items)) }
{
    if notices.is_empty() {
        return Ok(());
    }
    for notice in notices.drain(..) {
        reports.push(Report::Notice { rank, notice })?;
    }
    Ok(())
}

/// Moves the answers of the reader of a rank to the end of the reports. Most steps have none.
fn report_answers<C: Catalog, A: Allocator>(
    rank: u32,
    answers: &mut Vec<(Place, Reply<A>), A>,
    reports: &mut Vec<Report<C::Value, A>, A>,
) -> Result<(), AllocError>
    ensures { OnOk result (map (report_view C.view) reports.new.items
        ≡ map (report_view C.view) reports.old.items
        ++ map (sent_by (Some rank)) (map answer_view answers.old.items)) }
{
    if answers.is_empty() {
        return Ok(());
    }
    for (place, reply) in answers.drain(..) {
        report_answer::<C, A>(Some(rank), place, reply, reports)?;
    }
    Ok(())
}

/// Appends an answer to the reports: of the reader of a rank, or of discovery if there is no rank.
pub(crate) fn report_answer<C: Catalog, A: Allocator>(
    rank: Option<u32>,
    place: Place,
    reply: Reply<A>,
    reports: &mut Vec<Report<C::Value, A>, A>,
) -> Result<(), AllocError>
    ensures { OnOk result (map (report_view C.view) reports.new.items
        ≡ map (report_view C.view) reports.old.items
        ++ sent_by rank (place, reply_view reply) ∷ []) }
{
    reports.push(Report::Answer(Answer::new(rank, place, reply)))?;
    Ok(())
}
