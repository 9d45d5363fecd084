//! The definition of a run of one thread, which every engine has to reproduce
//! (DDSI-RTPS 8.3.4, 8.4.10), and what engines share: their start, state, results and errors.
#![tactic(auto)]

mod addressed;
mod answers;
mod batch_output;
mod errors;
mod lists;
mod order;
mod outcome;
mod readers;
mod start;
#[cfg(test)]
mod tests;
mod turn;

pub use addressed::is_named;
pub use batch_output::BatchOutput;
pub use errors::{DATAGRAM_LIMIT, EngineError, StartError};
pub use lists::{empty_lists, push_by};
pub use order::{InOrder, Item, answers_in_order, in_order};
pub use outcome::{Answer, Outcome, Report};
pub use readers::{all_matches, show_all};
pub use start::{first_readers, first_statuses, fixed_by_rank, is_reliable};
pub use turn::{ReportKind, Turn};
