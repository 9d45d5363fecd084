//! Values in the common data representation (CORBA CDR 9.3, DDSI-RTPS 10): they are read from a
//! slice, and written into a buffer, in either byte order.
//!
//! The relation `IsCdr` in `specs/Cdr.antt` defines which octets encode which value. Alignment
//! counts from the first octet of a reader or a writer, which is the one after the encapsulation
//! header of a payload.
#![tactic(auto)]

mod fault;
pub mod laws;
mod memory;
mod place;
mod reader;
mod strings;
#[cfg(test)]
mod tests;
mod value;
mod writer;

pub use fault::CdrFault;
pub use memory::NoMemory;
pub use reader::CdrReader;
pub use strings::Strings;
pub use writer::CdrWriter;
