//! The engine of one thread: from datagrams and moments to notices, statuses, matches and answers
//! (DDSI-RTPS 8.3.4, 8.4.10, 8.5.3.2).
//!
//! Its results are the run that `rtps_run` defines, which every engine of several threads has to
//! reproduce.
#![tactic(auto)]

mod deal;
mod engine;
pub mod laws;
mod moving;
mod readers;
mod steps;
#[cfg(test)]
mod tests;

pub use deal::dealt;
pub use engine::SerialEngine;
pub use moving::{has_begun, join, part};
pub use readers::Readers;
pub use rtps_run::{Answer, EngineError, Outcome, Report, ReportKind, StartError, Turn};
pub use rtps_types::Datagram;
