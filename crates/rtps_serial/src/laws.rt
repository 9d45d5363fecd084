//! Laws of the definitions. Each is an empty function whose contract is the law.

ghost use Rattle.std.specs.Prelude.{◌≡◌, ◌++◌, ℕ, List, [], length, map, true};
ghost use Rattle.std.specs.List.{AllByRecursion};
ghost use Rattle.std.specs.List.Sorted.{IsStrictlySortedBy};
ghost use Rattle.rtps_discovery.specs.declared.config.Config.{Config};
ghost use Rattle.dds_topic.specs.Decoding.{Decoding};
ghost use Rattle.rtps_reader.specs.Listed.{match_order};
ghost use Rattle.rtps_run.specs.declared.outcome.Outcome.{Outcome};
ghost use Rattle.rtps_run.specs.declared.outcome.Report.{Report};
ghost use Rattle.rtps_serial.specs.ByRecord.{AreAlike, run_by_record, world_by_record};
ghost use Rattle.rtps_run.specs.Input.{Input};
ghost use Rattle.rtps_run.specs.Occurrence.{Occurrence};
ghost use Rattle.rtps_run.specs.Outcome.{Adds, report_view};
ghost use Rattle.rtps_run.specs.Presentation.{IsPresented, Never, events_in, is_fixed, is_reliable_among, readers_ever, stretches_in};
ghost use Rattle.rtps_run.specs.Rising.{IsBatch};
ghost use Rattle.rtps_run.specs.Run.{run, world_run};
ghost use Rattle.rtps_run.specs.Seen.{Agrees, is_listed, is_matched_at, matches_seen};
ghost use Rattle.rtps_run.specs.Turn.{AreInOrder};
ghost use Rattle.rtps_run.specs.World.{World, world_after};
ghost use Rattle.rtps_types.specs.declared.identity.Guid.{Guid};

use std::alloc::Allocator;

/// For any inputs and any catalog: the samples of a writer that a reliable reader presents are cut
/// into stretches where their match begins or ends. In each stretch the sequence numbers of the
/// samples rise strictly. Each sample was brought, no later than its place, by a DATA since the
/// match began, or by DATA_FRAGs with all its fragments. Each number that is passed over was given
/// up by then, by a GAP or an accepted HEARTBEAT since the match began. While a writer isn't
/// matched, no reader presents a sample of it. The readers are those of the configuration and those
/// that come, also after they went. A fixed match ends only with its reader, which isn't told, so
/// it has one stretch.
pub fn presented<M>()
    ensures matched { (decoding : Decoding M) (config : Config) (inputs : List Input)
        (rank : ℕ) (writer : Guid)
        → is_reliable_among (readers_ever config inputs) rank ≡ true
        → AllByRecursion (IsPresented decoding (events_in config inputs rank writer))
        (stretches_in decoding config inputs rank writer) }
    ensures unmatched { (decoding : Decoding M) (config : Config) (inputs : List Input)
        (rank : ℕ) (writer : Guid)
        → AllByRecursion (λ s. s.since ≡ Never → s.samples ≡ [])
        (stretches_in decoding config inputs rank writer) }
    ensures fixed { (decoding : Decoding M) (config : Config) (inputs : List Input)
        (rank : ℕ) (writer : Guid)
        → is_fixed config rank writer ≡ true
        → length (stretches_in decoding config inputs rank writer) ≡ 1 }
{}

/// For any inputs: a reader is matched with exactly the writers that discovery says it is
/// matched with. Any occurrences after them leave it so: moments that pass, events, and readers of
/// ours that come and go.
pub fn matches_agree<M>()
    ensures run { (decoding : Decoding M) (config : Config) (inputs : List Input)
        → Agrees (run decoding config inputs) }
    ensures later { (decoding : Decoding M) (w : World M) (os : List Occurrence)
        → Agrees w → Agrees (world_run decoding w os) }
{}

/// For any inputs and one batch after them: an outcome that has the reports of the batch yields
/// them in the order of the run. So [`crate::Outcome::in_order`] of any engine's outcome is what
/// [`crate::SerialEngine::take_in_order`] and [`crate::SerialEngine::tick_in_order`] report. It is
/// one batch at a time, since a tick and the datagram after it have equal places: between the
/// batches the order is that of the inputs.
pub fn in_order<V, M, A: Allocator>()
    ensures { (view : V → M) (decoding : Decoding M) (config : Config)
        (inputs batch : List Input) (outcome : Outcome V A) (reports : List (Report V A))
        → IsBatch batch
        → Adds view (run decoding config inputs) (run decoding config (inputs ++ batch)) outcome
        → AreInOrder outcome reports
        → (run decoding config (inputs ++ batch)).put
        ≡ (run decoding config inputs).put ++ map (report_view view) reports }
{}

/// For any inputs: the matches are listed by rank, those of one rank by the octets of the
/// writer's guid, none twice; and exactly the pairs of a reader and a writer that are matched are
/// listed.
pub fn matches_listed<M>()
    ensures ordered { (decoding : Decoding M) (config : Config) (inputs : List Input)
        → IsStrictlySortedBy match_order (matches_seen (run decoding config inputs)) }
    ensures matched { (decoding : Decoding M) (config : Config) (inputs : List Input)
        (rank : ℕ) (writer : Guid)
        → is_listed (matches_seen (run decoding config inputs)) rank writer
        ≡ is_matched_at (run decoding config inputs) rank writer }
{}

/// For any events: the world's step processes an event rank by rank. If instead the records of an
/// event are applied one by one, and the readers process the changes of one record before the next
/// is applied, the result is the same: each rank has the same reader, which reports the same
/// notices in the same order, and the same answers are sent in the same order. So it is after any
/// inputs.
pub fn by_record<M>()
    ensures occurrence { (decoding : Decoding M) (w : World M) (o : Occurrence)
        → AreAlike (world_by_record decoding w o) (world_after decoding w o) }
    ensures run { (decoding : Decoding M) (config : Config) (inputs : List Input)
        → AreAlike (run_by_record decoding config inputs) (run decoding config inputs) }
{}
