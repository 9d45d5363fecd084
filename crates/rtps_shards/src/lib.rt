//! Runs the jobs of a batch on workers: each job once. Its result depends on the job and its reader
//! alone, not on which worker runs it or when.
#![tactic(auto)]

mod apart;
mod board;
mod ends;
mod gate;
mod jobs;
mod steps;
#[cfg(test)]
mod tests;
mod work;
mod workers;

pub use apart::map_apart;
pub use board::{Board, Stolen, Thief};
pub use gate::{Gate, NoGate};
pub use jobs::{JobResult, Posted, SharedBatch, Worker};
pub use workers::{run_alone, run_job, run_jobs};
