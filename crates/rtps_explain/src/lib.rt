//! What becomes of each submessage of the datagrams of a record file, and why: a line for each, the
//! skipped ones too, and counts by reason.
#![tactic(auto)]

mod columns;
mod contents;
mod counting;
mod counts;
mod explaining;
mod flags;
mod frame;
mod kinds;
mod lines;
mod words;

pub use counts::push_counts;
pub use explaining::explain;
pub use lines::push_explained;

#[cfg(test)]
mod tests;
