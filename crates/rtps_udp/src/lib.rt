//! The UDP sockets of a participant: they receive datagrams, and send answers and
//! announcements.
#![tactic(auto)]

mod addresses;
mod binding;
mod fault;
mod link;
mod machine;
mod moments;
mod ports;
mod sockets;
#[cfg(test)]
mod tests;

pub use addresses::Purpose;
pub use binding::{Binding, last_index};
pub use fault::SocketFault;
pub use link::Link;
pub use machine::Machine;
pub use sockets::Sockets;
