//! The entries that a call asks for.

/// The entries that a call asks for: those for which each set flag holds. These flags stand for the
/// state masks of the standard (DDS 1.4, 2.2.2.5.1.1 to 2.2.2.5.1.4).
#[derive(Clone, Copy, Debug, Default, PartialEq, Eq)]
pub struct Condition {
    /// No call returned the entry yet.
    pub not_read: bool,
    /// The view state of its instance is [`ViewState::New`](crate::ViewState::New).
    pub new: bool,
    /// The state of its instance is [`InstanceState::Alive`](crate::InstanceState::Alive).
    pub alive: bool,
}
