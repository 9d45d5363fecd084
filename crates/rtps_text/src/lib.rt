//! Runs over record files and over datagrams from a network, and the text that they print.
#![tactic(auto)]

mod beside;
mod caches;
mod closing;
mod file_run;
mod listening;
mod live;
mod live_fault;
mod pipeline;
mod printer;
mod printing;
mod replaying;
mod running;
mod sampling;
mod sending;
mod setup;
mod sink;

pub use listening::listen;
pub use live_fault::LiveFault;
pub use replaying::replay;
pub use sampling::samples;
pub use sending::send_answers;
pub use setup::{CacheSetup, LiveSetup, Pace, Setup};

#[cfg(test)]
mod tests;
