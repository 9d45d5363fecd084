//! Reading record files, receiving datagrams in batches, and writing text.
#![tactic(auto)]

mod batch;
mod batch_end;
mod exchange;
mod fault;
mod format;
mod head;
mod holding;
pub mod laws;
mod lines;
mod piece;
mod receive_end;
mod receiving;
mod records;
mod transfer;

pub use batch::{Batch, MAX_LEN};
pub use batch_end::BatchEnd;
pub use exchange::Exchange;
pub use fault::RunFault;
pub use format::Format;
pub use lines::Lines;
pub use receive_end::ReceiveEnd;
pub use receiving::Receive;
pub use records::Records;

#[cfg(test)]
mod tests;
