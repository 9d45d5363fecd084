//! The results of a batch as an outcome.

ghost use Rattle.std.specs.Prelude.{◌≡◌, ◌≤◌, IfOk, length};
ghost use Rattle.rtps_run.specs.BatchOutput.{IsGiven};
ghost use Rattle.rtps_run.specs.Outcome.{Adds};
ghost use Rattle.rtps_run.specs.World.{World};

use dds_topic::Catalog;
use rtps_run::{BatchOutput, Outcome};
use std::alloc::{AllocError, Global};

/// Converts the lists into an outcome.
pub(crate) fn outcome_of<C: Catalog>(
    alloc: Global,
    given: BatchOutput<C::Value>,
) -> Result<Outcome<C::Value>, AllocError>
    requires readers { length given.outputs.items ≤ 4096 }
    ensures adds { (before after : World C.Meaning) → IsGiven C.view before after given
        → IfOk result (Adds C.view before after) }
    ensures count { IfOk result (λ o. length o.notices.items ≡ length given.outputs.items) }
{
    Outcome::new(alloc, given.answers, given.outputs)
}
