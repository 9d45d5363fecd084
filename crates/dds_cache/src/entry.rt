//! The entries of a cache, and the samples that a call returns.

use crate::state::{InstanceState, SampleState, ViewState};
use rtps_types::{Guid, KeyHash, Number, Place, Timestamp};

/// What an entry holds: a value, or the disposal of its instance.
#[derive(Debug, Drop)]
pub enum Content<V> {
    Value(V),
    /// Its writer disposed the instance.
    Disposed,
}

/// An entry of a cache: a value, or the disposal of an instance.
#[derive(Drop)]
pub(crate) struct Entry<V> {
    /// The place in the run of the event that made it.
    pub place: Place,
    pub writer: Guid,
    pub number: Number,
    pub time: Option<Timestamp>,
    /// The instance.
    pub key: KeyHash,
    pub body: Content<V>,
    /// Whether a call has returned it.
    pub is_read: bool,
}

/// An entry as a call returns it, with its states before the call (DDS 1.4, 2.2.2.5.1).
#[derive(Debug, Drop)]
pub struct Sample<T> {
    /// The place in the run of the event that made the entry.
    pub place: Place,
    pub writer: Guid,
    pub number: Number,
    pub time: Option<Timestamp>,
    /// The instance, by the hash of its key (DDS 1.4, 2.2.2.5.5, `instance_handle`).
    pub key: KeyHash,
    pub body: Content<T>,
    /// Whether an earlier call returned this entry (DDS 1.4, 2.2.2.5.1.2, `sample_state`).
    pub sample: SampleState,
    /// Whether an earlier call returned an entry of its instance since that was made or became
    /// alive again (DDS 1.4, 2.2.2.5.1.4, `view_state`).
    pub view: ViewState,
    /// The state of its instance (DDS 1.4, 2.2.2.5.1.3, `instance_state`).
    pub instance: InstanceState,
}

/// An entry that stays in the cache, with its value borrowed.
pub type Seen<'a, V> = Sample<&'a V>;

/// An entry that left the cache.
pub type Taken<V> = Sample<V>;
