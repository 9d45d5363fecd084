//! The catalog of one data type: how the payloads of a topic are decoded, and which key identifies
//! an instance (DDSI-RTPS 9.6.4.8, 10).
//!
//! A participant is generic in its [`Catalog`]. [`Raw`] keeps every payload as it is, and
//! [`Shapes`] decodes those of the Shapes demo. A [`Decoder`] is a catalog with its memo.
#![tactic(auto)]

mod catalog;
mod color;
mod color_keys;
mod decoder;
mod encapsulation;
#[cfg(test)]
mod example;
mod failing;
pub mod laws;
mod raw;
mod shape;
mod shapes;
#[cfg(test)]
mod tests;
mod unread;

pub use catalog::{Catalog, TextCatalog};
pub use color::Color;
pub use color_keys::ColorKeys;
pub use decoder::Decoder;
pub use encapsulation::byte_order;
pub use failing::FailingCatalog;
pub use raw::{Raw, RawValue};
pub use rtps_cdr::NoMemory;
pub use shape::Shape;
pub use shapes::Shapes;
pub use unread::{CatalogError, Unread};
