//! The text lines of events, and printing a record file datagram after datagram: what becomes of
//! its events, or anything else that is said of datagrams one by one.
#![tactic(auto)]

mod context;
mod dumping;
mod event_body;
mod event_lines;
mod line;
mod numbers;
mod printing;

pub use context::{push_place, push_time};
pub use dumping::dump;
pub use event_lines::push_events;
pub use line::push_line;
pub use numbers::push_members;
pub use printing::{DatagramText, print_file};

#[cfg(test)]
mod tests;
