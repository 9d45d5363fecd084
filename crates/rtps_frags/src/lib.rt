//! Reassembly of samples from fragments (DDSI-RTPS 8.3.7.3, 8.4.14.1). The DATA_FRAGs of a sample
//! may arrive in any order and more than once.
#![tactic(auto)]

mod assembly;
mod buffer;
mod chunks;
mod fault;
pub mod laws;
mod sizes;
#[cfg(test)]
mod tests;

pub use assembly::{Assembly, missing_of_none};
pub use fault::{AddError, FragFault, fault_in};
pub use sizes::Sizes;
