//! Laws of the definitions. Each is a function that does nothing, whose contract is the law.

ghost use Rattle.std.specs.Prelude.{◌≡◌, ℕ, List, None};
ghost use Rattle.std.specs.List.{All};
ghost use Rattle.rtps_types.specs.declared.identity.GuidPrefix.{GuidPrefix};
ghost use Rattle.rtps_discovery.specs.Kept.{RegistryView};
ghost use Rattle.rtps_discovery.specs.Known.{Wish};
ghost use Rattle.dds_topic.specs.Decoding.{Decoding};
ghost use Rattle.rtps_reader.specs.declared.notice.Output.{Output};
ghost use Rattle.rtps_run.specs.declared.outcome.Outcome.{Outcome};
ghost use Rattle.rtps_receiver.specs.Events.{EventView};
ghost use Rattle.rtps_run.specs.Input.{Input, Tick, AddReader, RemoveReader, occurrences_from};
ghost use Rattle.rtps_run.specs.Occurrence.{Occurrence};
ghost use Rattle.rtps_run.specs.Outcome.{Adds};
ghost use Rattle.rtps_run.specs.Rising.{IsBatch, IsSteady, OccurrencesRise};
ghost use Rattle.rtps_run.specs.Run.{world_run};
ghost use Rattle.rtps_run.specs.World.{World};
ghost use Rattle.rtps_planner.specs.Commuting.{IsByPlace, IsBySpoken, IsDiscovered, IsPart};
ghost use Rattle.rtps_planner.specs.Cut.{EveryCut};
ghost use Rattle.rtps_planner.specs.declared.jobs.Plan.{Plan};
ghost use Rattle.rtps_planner.specs.Outputs.{IsGathered, IsOutputOf, fault_of, ranks_of};
ghost use Rattle.rtps_planner.specs.PassedOver.{AddsUp, CountsNothing};
ghost use Rattle.rtps_planner.specs.Plan.{IsPlan};

use std::alloc::Allocator;

/// For any occurrences: the state of each reader after them, its notices and its answers depend on
/// its own job alone, which is what discovery asks of it; and discovery depends on no reader.
pub fn commuting<M>()
    ensures readers { (decoding : Decoding M) (w : World M) (os : List Occurrence) (rank : ℕ)
        → IsPart decoding w os rank }
    ensures discovery { (decoding : Decoding M) (w : World M) (os : List Occurrence)
        → IsDiscovered decoding w os }
{}

/// For any batch to which no reader comes, so for any batch of datagrams and for a tick: what is
/// put out is sorted by place. At one place discovery's answer comes first, and then the readers by
/// rank, each with its notices before its answer. The law speaks of one batch: the places of a tick
/// and of the datagram after it are equal.
///
/// So it is for any occurrences whose places rise and among which no reader comes; and the places
/// of the moments at which no match ends may be left out.
pub fn by_place<M>()
    ensures batch { (decoding : Decoding M) (w : World M) (own : GuidPrefix) (index : ℕ)
        (inputs : List Input) → IsBatch inputs → IsSteady (occurrences_from own index inputs)
        → IsByPlace decoding w (occurrences_from own index inputs) }
    ensures rising { (decoding : Decoding M) (w : World M) (os : List Occurrence)
        → OccurrencesRise os → IsSteady os → IsByPlace decoding w os }
    ensures spoken { (decoding : Decoding M) (w : World M) (os : List Occurrence)
        → OccurrencesRise os → IsSteady os → IsBySpoken decoding w os }
{}

/// However a list of inputs is cut into batches, the result is the run of one thread.
pub fn every_cut<M>()
    ensures { (decoding : Decoding M) → EveryCut decoding }
{}

/// However a list of inputs is cut, what comes to nothing in its parts, counted together, is what
/// comes to nothing in the list. A tick counts nothing, and neither does a reader of ours that
/// comes or goes.
pub fn counted_apart()
    ensures parts { AddsUp }
    ensures tick { (moment : ℕ) → CountsNothing (Tick moment) }
    ensures comes { (r : Wish) → CountsNothing (AddReader r) }
    ensures goes { (rank : ℕ) → CountsNothing (RemoveReader rank) }
{}

/// For any occurrences whose places rise and among which no reader comes, as those of a batch of
/// datagrams and of a tick: if the outputs are those of the plan's jobs, the outcome that is
/// gathered from them has what the occurrences add to all that the run puts out.
pub fn gathered<V, M, A: Allocator>()
    ensures { (view : V → M) (decoding : Decoding M) (w : World M) (es : List EventView)
        (os : List Occurrence) (plan : Plan A) (kept : RegistryView)
        (outputs : List (ℕ × Output V A))
        (outcome : Outcome V A) → OccurrencesRise os → IsSteady os
        → IsPlan w.known es os plan kept
        → fault_of plan.rest.ranks.items (ranks_of outputs) ≡ None
        → All (IsOutputOf view decoding w os) outputs
        → IsGathered plan.rest outputs outcome
        → Adds view w (world_run decoding w os) outcome }
{}
