//! The events of a datagram, each with its context (DDSI-RTPS 8.3.4).
#![tactic(auto)]

mod brought;
mod context;
mod counters;
mod datagram;
mod event;
mod event_body;
mod outcome;
mod outcomes;
mod receive;
#[cfg(test)]
mod tests;

pub use counters::Counters;
pub use datagram::Events;
pub use event::Event;
pub use event_body::{EventBody, Fragment, Gap, Heartbeat, HeartbeatFrag, Whole};
pub use outcome::{Outcome, Reason};
pub use outcomes::Outcomes;
pub use receive::{ReceiverError, add_events, events};
