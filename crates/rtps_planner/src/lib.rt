//! Plans what each reader has to do in a batch, which is datagrams or one tick, and merges what the
//! readers put out.
#![tactic(auto)]

mod jobs;
pub mod laws;
mod outputs;
mod passed_over;
mod planner;
mod stamped;
mod steps;
#[cfg(test)]
mod tests;

pub use jobs::{Job, Plan, Rest};
pub use outputs::{GatherFault, gather};
pub use passed_over::PassedOver;
pub use planner::plan;
pub use stamped::Stamped;
pub use steps::PlannedStep;
