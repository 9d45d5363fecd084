//! Discovery (DDSI-RTPS 8.5): its configuration, what it knows of remote participants and their
//! endpoints, and which local readers an event is for.
#![tactic(auto)]

mod addressed;
mod announced_data;
mod announcement;
mod announcer;
mod changes;
mod config;
mod discovery;
mod effects;
mod endpoints;
mod events;
mod expire;
mod faults;
mod gone;
mod hear;
mod join;
mod known;
pub mod laws;
mod leases;
mod leave;
mod pair_state;
mod pairs;
mod part;
mod participants;
mod reader_faults;
mod readers;
mod records;
mod registry;
mod start;
#[cfg(test)]
mod tests;

pub use addressed::{
    ENTITYID_SEDP_BUILTIN_PUBLICATIONS_ANNOUNCER, ENTITYID_SEDP_BUILTIN_SUBSCRIPTIONS_ANNOUNCER,
    ENTITYID_SPDP_BUILTIN_PARTICIPANT_ANNOUNCER, ENTITYID_UNKNOWN, is_discovery, is_for,
};
pub use announcer::Announcer;
pub use changes::MatchChange;
pub use config::{Config, FixedMatch, ReaderConfig};
pub use discovery::Discovery;
pub use effects::DiscoveryEffects;
pub use faults::{ConfigFault, check};
pub use known::{Reader, RemoteParticipant, Writer};
pub use reader_faults::ReaderFault;
