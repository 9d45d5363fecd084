//! How the program ends with another status than 0.

use crate::fault::BenchFault;
use clap::Error;

/// Why the program ends with another status than 0.
#[derive(Drop)]
pub enum Failure {
    /// The line is a bad one; the error has the text that clap prints for it.
    Line(Error),
    Fault(BenchFault),
}
