//! Sequence numbers of changes (DDSI-RTPS 8.3.5.4).

ghost use Rattle.std.specs.Prelude.{◌≡◌};
ghost use Rattle.std.specs.Option.{option_map};
ghost use Rattle.rtps_types.specs.SequenceNumber.{number_of, IsNumber};

/// The greatest sequence number that is accepted, 2^62, so that the sum of two fits in 64 bits.
pub const MAX_NUMBER: u64 = 4_611_686_018_427_387_904;

/// The sequence number of a change, from 1 to [`MAX_NUMBER`].
#[derive(Clone, Copy, PartialEq, Eq, PartialOrd, Ord, Hash)]
pub struct Number {
    value: u64,
    ghost bounds: { IsNumber value },
}

/// The standard's name for [`Number`] (DDSI-RTPS 9.4.2.5).
pub type SequenceNumber = Number;

impl Number {
    ghost use Rattle.rtps_types.specs.Number.{value_of};

    /// Returns the number with this value, or `None` if it is 0 or above [`MAX_NUMBER`].
    pub fn new(value: u64) -> Option<Number>
        ensures { option_map value_of result ≡ number_of value }
    {
        if value == 0 || value > MAX_NUMBER {
            return None;
        }
        Some(Number { value })
    }

    /// Returns the value, from 1 to [`MAX_NUMBER`].
    pub fn get(self) -> u64
        ensures value { result ≡ value_of self }
        ensures bounds { IsNumber result }
    {
        self.value
    }
}
