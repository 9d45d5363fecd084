//! The binary interchange formats.

/// A binary interchange format (IEEE 754-2019, 3.4), and how its decimals are laid out.
#[derive(Clone, Copy)]
pub(crate) struct Format {
    /// The number of the significand's hidden bit.
    pub hidden: u64,
    /// The exponent field of what is no finite number.
    pub last: u64,
    /// The exponent field at which the unit, a quarter of the last place, is 1.
    pub shift: u64,
    /// So many digits stand before the point at most.
    pub whole_digits: usize,
    /// The most zeros after the point of a number that begins with `0.`.
    pub leading_zeros: usize,
}

pub(crate) const BINARY32: Format = Format {
    hidden: 8_388_608,
    last: 255,
    shift: 152,
    whole_digits: 13,
    leading_zeros: 5,
};

pub(crate) const BINARY64: Format = Format {
    hidden: 4_503_599_627_370_496,
    last: 2_047,
    shift: 1_077,
    whole_digits: 16,
    leading_zeros: 4,
};
