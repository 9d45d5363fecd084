//! Parameter lists, which inline QoS and discovery data consist of (DDSI-RTPS 9.4.2.11).
//!
//! A parameter is an id, a length, and a value of that length in octets. The id 1 ends the list,
//! and the id 0 is padding. Values are borrowed from the list's octets, and no memory is taken.
#![tactic(auto)]

mod front;
pub mod ids;
mod list;
#[cfg(test)]
mod tests;

pub use front::{Front, Param, ParamFault, read_front};
pub use list::{ParamList, Params};
