//! A reader: it presents the changes that its writers send.
#![tactic(auto)]

mod body;
mod content;
pub mod laws;
mod notice;
mod present;
mod state;
mod stateful;
mod status;
mod step;
#[cfg(test)]
mod tests;

pub use body::Body;
pub use content::body_of;
pub use notice::{Notice, NoticeKind, Output};
pub use state::{ReaderError, ReaderState};
pub use status::Status;
pub use step::{Step, StepKind};
