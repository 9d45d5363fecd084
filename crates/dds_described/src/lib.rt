//! Values of topics whose type is described at run time ([`TopicType`](dds_xcdr::TopicType)).
//!
//! The octets of a body are looked through once, and those of the value are kept. The key of a
//! value, or of a key payload, is written in version 1 whatever form it came in, so that it has one
//! hash. Values are printed as JSON. A topic is a [`Catalog`](dds_topic::Catalog), so that readers
//! take its values.
#![tactic(auto)]

mod catalog;
mod copier;
mod copying;
mod data;
mod described;
mod hash;
mod json;
mod json_text;
mod keys;
pub mod laws;
mod least;
mod source;
#[cfg(test)]
mod tests;

pub use data::DynamicData;
pub use described::Described;
