//! The data type that files in IDL declare: what a program does with the names of files that it is
//! given, between a host's files and [`dds_idl`].
#![tactic(auto)]

mod fault;
mod files;
mod parts;
#[cfg(test)]
mod tests;

pub use fault::TypesFault;
pub use files::declared_type;
