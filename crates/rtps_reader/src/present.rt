//! Presenting the effects of an event.

ghost use Rattle.std.specs.Prelude.{◌≡◌, ◌++◌, None, length, map, take, true, OnOk};
ghost use Rattle.std.specs.Option.{option_map};
ghost use Rattle.rtps_proxy.specs.Change.{change_view};
ghost use Rattle.rtps_proxy.specs.Effects.{GivesNothing};
ghost use Rattle.rtps_proxy.specs.Replies.{reply_view};
ghost use Rattle.rtps_reader.specs.Notice.{answer_view, kind_view, notice_view};
ghost use Rattle.rtps_reader.specs.Reader.{loses, notice_of, placed, presented};
ghost use Rattle.rtps_reader.specs.Standing.{KeepsFront};

use crate::content::body_of;
use crate::notice::{Notice, NoticeKind, Output};
use dds_topic::{Catalog, Decoder};
use rtps_proxy::{Change, Effects};
use rtps_types::{Guid, Place, Reply};
use std::alloc::{AllocError, Allocator};

/// Adds the effects of a writer's event to `output`: a notice of lost samples, then the changes
/// that are ready, and the answer to the writer. The effects are empty then, and keep only the
/// capacity of their list.
#[tactic(auto, using(crate::proofs::Telling::told_then))]
pub(crate) fn present<C: Catalog, A: Allocator>(
    decoder: &mut Decoder<C>,
    place: Place,
    writer: Guid,
    effects: &mut Effects<'_, A>,
    output: &mut Output<C::Value, A>,
) -> Result<(), AllocError>
    ensures notices { OnOk result (map (notice_view C.view) output.new.notices.items
        ≡ map (notice_view C.view) output.old.notices.items
        ++ (loses place writer effects.old.lost
        ++ map (presented (C.decoding decoder.old) place writer)
        (map change_view effects.old.ready.items))) }
    ensures answers { OnOk result (map answer_view output.new.answers.items
        ≡ map answer_view output.old.answers.items
        ++ placed place (option_map reply_view effects.old.answer)) }
    ensures kept { KeepsFront output.old output.new }
    ensures same { decoder.new ≡ decoder.old }
    ensures nothing { OnOk result (GivesNothing effects.new) }
{
    if is_nothing(effects) {
        return Ok(());
    }
    tell_lost::<C, A>(place, writer, effects.lost, &mut output.notices)?;
    tell_ready(decoder, place, writer, &effects.ready, &mut output.notices)?;
    effects.lost = 0;
    effects.ready.clear();
    say(place, &mut effects.answer, &mut output.answers)?;
    Ok(())
}

/// Whether there are no effects, which is common where changes wait for earlier ones or are sent in
/// fragments.
fn is_nothing<A: Allocator>(effects: &Effects<'_, A>) -> bool
    ensures { result ≡ true → GivesNothing effects.now }
{
    effects.lost == 0 && effects.ready.is_empty() && effects.answer.is_none()
}

/// Moves the answer to the writer, if there is one, to the end of `answers`, with the place of the
/// event that it answers.
fn say<A: Allocator>(
    place: Place,
    answer: &mut Option<Reply<A>>,
    answers: &mut Vec<(Place, Reply<A>), A>,
) -> Result<(), AllocError>
    ensures said { OnOk result (map answer_view answers.new.items
        ≡ map answer_view answers.old.items ++ placed place (option_map reply_view answer.old)) }
    ensures kept { take (length answers.old.items) answers.new.items ≡ answers.old.items }
    ensures taken { OnOk result (answer.new ≡ None) }
{
    if answer.is_none() {
        return Ok(());
    }
    if let Some(reply) = answer.take() {
        answers.push((place, reply))?;
    }
    Ok(())
}

/// Adds a notice of lost samples, if any were lost.
fn tell_lost<C: Catalog, A: Allocator>(
    place: Place,
    writer: Guid,
    lost: u64,
    notices: &mut Vec<Notice<C::Value>, A>,
) -> Result<(), AllocError>
    ensures told { OnOk result (map (notice_view C.view) notices.new.items
        ≡ map (notice_view C.view) notices.old.items ++ loses place writer lost) }
    ensures kept { take (length notices.old.items) notices.new.items ≡ notices.old.items }
{
    if lost == 0 {
        return Ok(());
    }
    tell::<C, A>(place, writer, NoticeKind::Lost { count: lost }, notices)
}

/// Adds one notice.
pub(crate) fn tell<C: Catalog, A: Allocator>(
    place: Place,
    writer: Guid,
    what: NoticeKind<C::Value>,
    notices: &mut Vec<Notice<C::Value>, A>,
) -> Result<(), AllocError>
    ensures told { OnOk result (map (notice_view C.view) notices.new.items
        ≡ map (notice_view C.view) notices.old.items
        ++ notice_of place writer (kind_view C.view what)) }
    ensures kept { take (length notices.old.items) notices.new.items ≡ notices.old.items }
{
    notices.push(Notice {
        place,
        writer,
        what,
    })?;
    Ok(())
}

/// Adds a notice for each change that is ready.
fn tell_ready<C: Catalog, A: Allocator>(
    decoder: &mut Decoder<C>,
    place: Place,
    writer: Guid,
    ready: &[Change<'_, A>],
    notices: &mut Vec<Notice<C::Value>, A>,
) -> Result<(), AllocError>
    ensures told { OnOk result (map (notice_view C.view) notices.new.items
        ≡ map (notice_view C.view) notices.old.items
        ++ map (presented (C.decoding decoder.old) place writer) (map change_view ready.now)) }
    ensures kept { take (length notices.old.items) notices.new.items ≡ notices.old.items }
    ensures same { decoder.new ≡ decoder.old }
{
    for change in ready {
        let body = body_of(decoder, change.info, change.payload.as_slice())?;
        notices.push(Notice {
            place,
            writer,
            what: NoticeKind::Sample {
                number: change.number,
                time: change.time,
                body,
            },
        })?;
    }
    Ok(())
}
