//! The state that a reader keeps for one matched writer (DDSI-RTPS 8.4.10.4, `WriterProxy`).
#![tactic(auto)]

mod best_effort;
mod change;
mod config;
mod effects;
mod fragment;
mod gap;
mod heartbeat;
mod heartbeat_frag;
mod held;
pub mod laws;
mod matches;
mod pending;
mod proxy;
mod reliable;
mod runs;
mod settled;
mod state;
#[cfg(test)]
mod tests;
mod whole;
mod window;

pub use change::{Change, Payload};
pub use config::ProxyConfig;
pub use effects::{Effects, ProxyError};
pub use matches::Matches;
pub use proxy::WriterProxy;
