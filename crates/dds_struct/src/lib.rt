//! User-defined data types: a struct of plain members, and its catalog.
#![tactic(auto)]

mod key_member;
pub mod laws;
mod member;
mod structs;
mod structure;
#[cfg(test)]
mod tests;
mod text;

pub use key_member::{KeyMember, copy_member};
pub use member::Member;
pub use structs::Structs;
pub use structure::Structure;
pub use text::Text;
