//! What is printed of a record file that is opened by its name, for a participant whose prefix is
//! given as text: its events, or what becomes of each submessage.
#![tactic(auto)]

mod fault;
mod files;

pub use fault::FileFault;
pub use files::{RecordFiles, dump_file, explain_file, open_file};

#[cfg(test)]
mod tests;
