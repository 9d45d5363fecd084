//! The states that an entry is returned with (DDS 1.4, 2.2.2.5.1).

/// Whether an earlier call returned the entry (DDS 1.4, 2.2.2.5.1.2, `sample_state`).
#[derive(Clone, Copy, Debug, PartialEq, Eq)]
pub enum SampleState {
    /// An earlier call returned it.
    Read,
    /// No call returned it yet.
    NotRead,
}

/// Whether a call returned an entry of the instance since it was made or became alive again
/// (DDS 1.4, 2.2.2.5.1.4, `view_state`).
#[derive(Clone, Copy, Debug, PartialEq, Eq)]
pub enum ViewState {
    /// No entry was returned since then.
    New,
    /// An entry was returned since then.
    NotNew,
}

/// The state of an instance and its writers (DDS 1.4, 2.2.2.5.1.3, `instance_state`).
#[derive(Clone, Copy, Debug, PartialEq, Eq)]
pub enum InstanceState {
    /// A writer is live in it, and it wasn't disposed after its last value.
    Alive,
    /// It was disposed after its last value.
    Disposed,
    /// No writer is live in it.
    NoWriters,
}
