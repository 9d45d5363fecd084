//! Data types that are described at run time, and which octets are a value of one (DDS-XTypes 7.2,
//! 7.4): in versions 1 and 2 of the extended common data representation, for types whose
//! extensibility is final.
//!
//! [`Types`] are described one after another, each by those before it. A [`TopicType`] is one of
//! them, and looks through the body of a sample for a value of it. The relation `IsXcdr` in
//! `specs/Xcdr.antt` defines which octets encode which value.
#![tactic(auto)]

mod dimensions;
mod fault;
mod form;
pub mod laws;
mod member;
mod node;
mod primitive;
#[cfg(test)]
mod tests;
mod topic_type;
mod types;
mod version;
mod walk;

pub use dimensions::Dimensions;
pub use fault::{TypeFault, XcdrFault};
pub use form::Form;
pub use member::{Case, Member, TypeId};
pub use node::Node;
pub use primitive::Primitive;
pub use topic_type::TopicType;
pub use types::Types;
pub use version::Version;
pub use walk::{has_header, skip};
