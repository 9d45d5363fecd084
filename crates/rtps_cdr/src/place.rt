//! Alignment of values: a primitive is at a multiple of its size (CORBA CDR 9.3.1.1).

ghost use Rattle.std.specs.Prelude.{◌≡◌, ◌+◌, ◌^◌, ◌≤◌, ◌<◌};
ghost use Rattle.rtps_cdr.specs.Cdr.{padding};
ghost use Rattle.rtps_cdr.specs.Reading.{aligned};

/// Returns the number of octets up to the next multiple of `size`; 0 if the position is one.
pub(crate) fn gap_before(position: usize, size: usize) -> usize
    requires some { 0 < size }
    requires small { size ≤ 8 }
    ensures value { result ≡ padding size position }
    ensures below { result < size }
{
    (size - position % size) % size
}

/// Returns the least multiple of `size` that is not below a position.
pub(crate) fn align(position: usize, size: usize) -> usize
    requires some { 0 < size }
    requires small { size ≤ 8 }
    requires room { position < 2 ^ 63 }
    ensures { result ≡ aligned size position }
{
    position + gap_before(position, size)
}
