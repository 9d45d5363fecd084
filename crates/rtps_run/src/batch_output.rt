//! The results of a batch, in lists that are reused from one batch to the next.

ghost use Rattle.rtps_run.specs.BatchOutput.{HoldsNothing};

use rtps_reader::Output;
use rtps_types::{Place, Reply};
use std::alloc::Global;

/// The results of a batch, in lists by rank and by place. [`in_order`](crate::in_order) reads them
/// in the order of the run.
///
/// The order of the run is by place. At one place discovery's answer comes first, and then, by
/// rank, each reader's notices and its answer. Every list here is sorted by place, and the place of
/// each item is in `places`.
#[derive(Drop)]
pub struct BatchOutput<V> {
    /// The places at which the batch did something, in ascending order: those of its events, and
    /// submessage 0 of a datagram or tick at whose moment matches ended. There may be places
    /// without any item.
    pub places: Vec<Place>,
    /// Discovery's answers, each with the place of the event that it answers.
    pub answers: Vec<(Place, Reply)>,
    /// The notices and the answers of each reader, by rank. A reader with an outlet has no notice
    /// here.
    pub outputs: Vec<Output<V>>,
}

impl<V: Drop> BatchOutput<V> {
    /// Returns empty lists. No memory is taken.
    pub fn new(alloc: Global) -> BatchOutput<V>
        ensures { HoldsNothing result }
    {
        BatchOutput {
            places: Vec::new(alloc),
            answers: Vec::new(alloc),
            outputs: Vec::new(alloc),
        }
    }
}
