//! Quality of service (DDS 1.4, section 2.2.3): the policies of readers and writers, their
//! defaults, their values in discovery records, and their compatibility.
#![tactic(auto)]

mod compatible;
mod fault;
mod kinds;
mod listed_locators;
mod partitions;
mod policies;
mod records;
mod settings;
#[cfg(test)]
mod tests;
mod values;

pub use compatible::{first_fault, share_partition};
pub use fault::{Malformed, QosFault};
pub use listed_locators::ListedLocators;
pub use partitions::Partitions;
pub use policies::{
    AccessScope, DestinationOrder, Durability, INFINITE, Liveliness, LivelinessKind, Ownership,
    Policies, Presentation, Reliability,
};
pub use records::{Offered, Requested, offered_from, partitions_in};
pub use settings::{Settings, guid_named};
