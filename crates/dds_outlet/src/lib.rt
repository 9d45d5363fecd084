//! Hands data from a thread that receives to the threads of an application: a ring for the notices
//! of a reader, and a board of statuses, which they read without waiting.
#![tactic(auto)]

mod board;
mod history;
pub mod laws;
mod making;
mod ring;
mod row;
mod rule;
mod shown;
#[cfg(test)]
mod tests;
mod told;

pub use board::{StatusBoard, StatusReader};
pub use making::outlet;
pub use ring::{Inlet, Outlet, Sent};
pub use row::{Look, Row, RowView};
pub use told::{Told, Unseen};
