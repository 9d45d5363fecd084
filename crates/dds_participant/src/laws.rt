//! Laws of the definitions. Each is a function that does nothing, whose contract is the law.

ghost use Rattle.std.specs.Prelude.{◌≡◌, ℕ, List, None, Option, Some, slice_index_or};
ghost use Rattle.std.specs.declared.alloc.Global.{Global};
ghost use Rattle.rtps_reader.specs.declared.notice.Notice.{Notice};
ghost use Rattle.rtps_run.specs.declared.outcome.Outcome.{Outcome};
ghost use Rattle.rtps_run.specs.Outcome.{Adds};
ghost use Rattle.rtps_run.specs.World.{World};
ghost use Rattle.dds_outlet.specs.Ring.{Sending};
ghost use Rattle.rtps_run.specs.declared.batch_output.BatchOutput.{BatchOutput};
ghost use Rattle.rtps_run.specs.BatchOutput.{IsGiven};
ghost use Rattle.dds_participant.specs.HandOff.{IsHandedOff};
ghost use Rattle.dds_participant.specs.Handing.{IsHandedOn, IsOutcomeHandedOn};
ghost use Rattle.dds_participant.specs.Ports.{Delivers, PortView, new_port};

/// What was sent through an outlet since it was attached, followed by its backlog, is what the
/// outlet's reader reported in the run since then: each notice once, in order. This holds when the
/// outlet is attached; a batch, by `run_in_order` or by `run_batch`, adds the same notices to both
/// sides; and a delivery moves notices from the backlog to what was sent. So what comes out of the
/// ring is what the run put out since then, from the first notice on, with none left out in
/// between.
pub fn handed_off<V, M>()
    ensures attached { (view : V → M) (rank : ℕ) (w : World M) (outlet : Sending V Global)
        → IsHandedOff view rank w w outlet.sent (new_port outlet) }
    ensures given { (view : V → M) (rank : ℕ) (start before after : World M)
        (earlier : List (Notice V)) (whole given : BatchOutput V)
        (old new : List (Option (PortView V))) (port : PortView V)
        → IsGiven view before after whole → IsHandedOn whole given old new
        → slice_index_or old rank None ≡ Some port
        → IsHandedOff view rank start before earlier port
        → (next : PortView V) × (slice_index_or new rank None ≡ Some next)
        × IsHandedOff view rank start after earlier next }
    ensures added { (view : V → M) (rank : ℕ) (start before after : World M)
        (earlier : List (Notice V)) (whole outcome : Outcome V Global)
        (old new : List (Option (PortView V))) (port : PortView V)
        → Adds view before after whole → IsOutcomeHandedOn whole outcome old new
        → slice_index_or old rank None ≡ Some port
        → IsHandedOff view rank start before earlier port
        → (next : PortView V) × (slice_index_or new rank None ≡ Some next)
        × IsHandedOff view rank start after earlier next }
    ensures delivered { (view : V → M) (rank : ℕ) (start now : World M)
        (earlier : List (Notice V)) (before after : PortView V)
        → Delivers before after → IsHandedOff view rank start now earlier before
        → IsHandedOff view rank start now earlier after }
{}
