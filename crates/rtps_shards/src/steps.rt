//! The steps of a job.

ghost use Rattle.std.specs.Prelude.{◌≡◌, ◌∷◌, [], List, OnErr, OnOk, drop, false, map, take, true, ◌+◌};
ghost use Rattle.rtps_receiver.specs.Events.{view};
ghost use Rattle.rtps_proxy.specs.Effects.{GivesNothing};
ghost use Rattle.rtps_reader.specs.declared.notice.Notice.{Notice};
ghost use Rattle.rtps_reader.specs.Reader.{Reader};
ghost use Rattle.rtps_reader.specs.Standing.{StandsAt};
ghost use Rattle.rtps_reader.specs.Step.{asked};
ghost use Rattle.rtps_planner.specs.Plan.{steps_seen, taken_in};
ghost use Rattle.rtps_shards.specs.Results.{HasTaken, share};

use crate::jobs::Worker;
use dds_topic::Catalog;
use rtps_planner::PlannedStep;
use rtps_proxy::Effects;
use rtps_reader::{Output, ReaderState, Step, StepKind};
use rtps_receiver::Event;
use std::alloc::{AllocError, Global};

/// Returns the event at index `first` and the `more` events after it, as far as there are any.
fn stretch<'a>(events: &'a [Event<'a>], first: usize, more: usize) -> &'a [Event<'a>]
    ensures { result.now ≡ take (more + 1) (drop first events.now) }
{
    let rest = events.get(first..).unwrap_or(&[]);
    &rest[..more.saturating_add(1).min(rest.len())]
}

/// Runs a step of a reader, and appends its notices and answers to the output. On an error, a
/// refused growth, the reader is spent.
fn take_step<'a, C: Catalog>(
    worker: &mut Worker<C>,
    step: &Step<'a>,
    effects: &mut Effects<'a>,
    state: &mut ReaderState,
    output: &mut Output<C::Value>,
) -> Result<(), AllocError>
    requires { GivesNothing effects.old }
    ensures taken { (r : Reader) (given : List (Notice C.Meaning)) → StandsAt r given state.old
        → OnOk result (HasTaken C.view (C.decoding worker.old)
        (share r given ((step.now.place, asked step.now.what) ∷ [])) state.new output.old
        output.new) }
    ensures sound { OnOk result (state.old.spent ≡ false) }
    ensures still { state.old.spent ≡ true → state.new ≡ state.old }
    ensures rank { state.new.rank ≡ state.old.rank }
    ensures same { worker.new ≡ worker.old }
    ensures err { OnErr result (state.new.spent ≡ true) }
    ensures nothing { OnOk result (GivesNothing effects.new) }
{
    let decoder = &mut worker.decoder;
    state.step_with(worker.alloc, decoder, step, effects, output)?;
    Ok(())
}

/// Has a reader process events, in order, and appends its notices and answers to the output. On an
/// error, a refused growth, the reader is spent.
fn take_events<'a, C: Catalog>(
    worker: &mut Worker<C>,
    events: &'a [Event<'a>],
    effects: &mut Effects<'a>,
    state: &mut ReaderState,
    output: &mut Output<C::Value>,
) -> Result<(), AllocError>
    requires { GivesNothing effects.old }
    ensures taken { (r : Reader) (given : List (Notice C.Meaning)) → StandsAt r given state.old
        → OnOk result (HasTaken C.view (C.decoding worker.old)
        (share r given (map taken_in (map view events.now))) state.new output.old output.new) }
    ensures sound { OnOk result (state.old.spent ≡ true → events.now ≡ []) }
    ensures still { state.old.spent ≡ true → state.new ≡ state.old }
    ensures rank { state.new.rank ≡ state.old.rank }
    ensures same { worker.new ≡ worker.old }
    ensures err { OnErr result (state.new.spent ≡ true) }
    ensures nothing { OnOk result (GivesNothing effects.new) }
{
    for event in events {
        let step = Step::of_event(event);
        take_step(worker, &step, effects, state, output)?;
    }
    Ok(())
}

/// Runs the steps of a reader's job, in order, and appends its notices and answers to the output.
/// On an error, a refused growth, the reader is spent.
pub(crate) fn take_steps<'a, C: Catalog>(
    worker: &mut Worker<C>,
    events: &'a [Event<'a>],
    steps: &'a [PlannedStep],
    state: &mut ReaderState,
    output: &mut Output<C::Value>,
) -> Result<(), AllocError>
    ensures taken { (r : Reader) (given : List (Notice C.Meaning)) → StandsAt r given state.old
        → OnOk result (HasTaken C.view (C.decoding worker.old)
        (share r given (steps_seen (map view events.now) steps.now)) state.new output.old
        output.new) }
    ensures sound { OnOk result (state.old.spent ≡ true
        → steps_seen (map view events.now) steps.now ≡ []) }
    ensures still { state.old.spent ≡ true → state.new ≡ state.old }
    ensures rank { state.new.rank ≡ state.old.rank }
    ensures same { worker.new ≡ worker.old }
    ensures err { OnErr result (state.new.spent ≡ true) }
{
    let mut effects = Effects::none(worker.alloc);
    for planned in steps {
        match planned {
            PlannedStep::TakeIn { first, more } => {
                let events = stretch(events, *first, *more);
                take_events(worker, events, &mut effects, state, output)?;
            }
            PlannedStep::Change { place, what } => {
                let step = Step {
                    place: *place,
                    what: StepKind::Change(what),
                };
                take_step(worker, &step, &mut effects, state, output)?;
            }
        }
    }
    Ok(())
}
