//! A participant that processes datagrams in batches, on a number of threads that the caller
//! chooses.
#![tactic(auto)]

mod attach;
mod batch;
mod counted;
mod decode;
mod handing;
pub mod laws;
mod moving;
mod outcome;
mod participant;
mod ports;
mod publish;
mod readers;
#[cfg(test)]
mod tests;
mod tick;

pub use batch::{Workers, is_batch};
pub use participant::Participant;
pub use ports::AttachFault;
pub use publish::PublishFault;
