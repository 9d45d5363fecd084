//! Data types from texts in the interface definition language (OMG IDL 4.2).
//!
//! [`parse`] cuts texts into words, and takes their definitions in order: modules, structs,
//! enumerations, typedefs and constants. Each type is described by those before it, in the `Types`
//! of `dds_xcdr`, and is found by its full name. What isn't read is refused with its place. That a
//! text which is taken is one of IDL's is shown by tests alone.
#![tactic(auto)]

mod annotations;
mod constants;
mod cursor;
mod declarations;
mod definitions;
mod directive;
mod draft;
mod error;
mod fault;
mod gap;
mod keywords;
mod operator;
mod read;
mod source;
#[cfg(test)]
mod tests;
mod uses;
mod word;
mod words;

pub use declarations::{Declarations, Topic};
pub use error::IdlError;
pub use fault::IdlFault;
pub use read::parse;
pub use source::Source;
