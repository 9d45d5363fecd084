//! The texts of floats as JSON values, each a function of the float's bits.
#![tactic(auto)]

mod digits;
mod format;
mod layout;
mod shortest;
mod text;

pub use text::{push_double, push_float};

#[cfg(test)]
mod tests;
