//! The values in RTPS messages, and how numbers are encoded in octets.
//!
//! Names and layouts are those of DDSI-RTPS 2.5, sections 8.2, 9.3 and 9.4.2. Only
//! [`Locators::copied`] takes memory.
#![tactic(auto)]

mod datagram;
mod field;
mod identity;
pub mod laws;
mod locator;
mod match_change;
mod number;
mod octets;
mod order;
mod place;
mod policy;
mod set;
#[cfg(test)]
mod tests;
mod text;
mod time;
mod traffic;

pub use datagram::Datagram;
pub use field::{
    Endian, get_octets, get_sn, get_u16, get_u32, get_u64, put_octets, put_sn, put_u16, put_u32,
    put_u64,
};
pub use identity::{EntityId, Guid, GuidPrefix, KeyHash};
pub use locator::{Locator, Locators};
pub use match_change::MatchChangeKind;
pub use number::{MAX_NUMBER, Number, SequenceNumber};
pub use octets::Octets;
pub use place::Place;
pub use policy::PolicyId;
pub use set::{FragSet, FragmentNumberSet, Members, SequenceNumberSet, SnSet, set_bit};
pub use text::TextFault;
pub use time::{Duration, Timestamp};
pub use traffic::{Reply, WriterFacts};
