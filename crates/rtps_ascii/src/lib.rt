//! Appending octets and numbers to a text, as ASCII.
#![tactic(auto)]

mod hex_digits;
mod numbers;
mod word;

pub use hex_digits::{push_hex, push_hex_array};
pub use numbers::{push_number, push_signed};
pub use word::{push_octet, push_word};

#[cfg(test)]
mod tests;
