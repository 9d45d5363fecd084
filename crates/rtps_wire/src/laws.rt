//! Laws about messages, each for all octets.

ghost use Rattle.rtps_wire.specs.Bounds.{FieldsHaveBounds};
ghost use Rattle.rtps_wire.specs.Cuts.{CutsReadFirst};
ghost use Rattle.rtps_wire.specs.OneReading.{EachHasOneReading};

/// The numbers in a valid submessage are within the bounds of its kind.
pub fn fields_have_bounds()
    ensures { FieldsHaveBounds }
{}

/// A datagram with a valid header has exactly one reading by the grammar, and any other has none.
pub fn one_datagram_one_reading()
    ensures { EachHasOneReading }
{}

/// If a message is cut short, each submessage that ends at or before the cut is still read. The
/// only other one that may be read is one with a stated length of 0, which runs to the end. A
/// message that is cut in its header is too short.
pub fn cuts_read_first()
    ensures { CutsReadFirst }
{}
