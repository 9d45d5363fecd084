//! RTPS messages: the header and the submessages of a datagram.
#![tactic(auto)]

mod acknack;
mod answering;
mod data;
mod data_frag;
mod fields;
mod gap;
mod heartbeat;
mod heartbeat_frag;
mod info_src;
mod info_ts;
mod inline_qos;
pub mod kinds;
pub mod laws;
mod message_header;
mod nack_frag;
mod number_set;
mod raw;
mod submessage;
mod submessages;
#[cfg(test)]
mod tests;

pub use acknack::{AckNack, write_acknack};
pub use data::{ChangeInfo, Data, Form};
pub use data_frag::DataFrag;
pub use gap::Gap;
pub use heartbeat::Heartbeat;
pub use heartbeat_frag::HeartbeatFrag;
pub use info_src::InfoSource;
pub use message_header::{Header, HeaderFault, read_header as header};
pub use nack_frag::{NackFrag, write_nack_frag};
pub use raw::{RawSubmessage, read_front};
pub use submessage::{Parts, Submessage, SubmessageFault};
pub use submessages::Submessages;
