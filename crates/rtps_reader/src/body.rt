//! The body that a change is presented with.

use dds_topic::Unread;
use rtps_types::KeyHash;

/// The body of a sample (DDS 1.4, 2.2.2.5.1.3: the states of instances).
#[derive(Debug, Drop)]
pub enum Body<V> {
    /// A value, with its key hash.
    Value(KeyHash, V),
    /// The writer disposed the instance with this key hash.
    Disposed(KeyHash),
    /// The writer unregistered the instance with this key hash: it no longer writes it.
    Unregistered(KeyHash),
    /// The change can't be decoded, for this reason.
    Unread(Unread),
}
