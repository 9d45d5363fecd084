//! Laws of record files.

ghost use Rattle.rtps_records.specs.RecordFile.{OneReading, OthersHaveNone, SomeReading};

/// Octets have at most one reading: the records, and the end or the fault after them.
pub fn one_reading()
    ensures { OneReading }
{}

/// Octets that begin as a record file, of either format, have a reading.
pub fn some_reading()
    ensures { SomeReading }
{}

/// Octets that begin otherwise have none.
pub fn others_have_none()
    ensures { OthersHaveNone }
{}
