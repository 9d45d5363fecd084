//! The text lines of the notices and answers of readers, and of the entries of caches.
#![tactic(auto)]

mod answer;
mod entry;
mod guid;
mod last_line;
mod last_lines;
mod last_start;
pub mod laws;
mod locators;
mod notice;
mod sample;
mod summary;

pub use answer::push_answer;
pub use entry::push_entry;
pub use last_lines::LastLines;
pub use notice::push_notice;
pub use summary::{push_match, push_status};

#[cfg(test)]
mod tests;
