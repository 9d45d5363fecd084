//! The formats of record files.

/// The format of a record file. Its first four octets tell it.
#[derive(Clone, Copy, Debug, PartialEq, Eq)]
pub enum Format {
    /// `RDG1`: each record is a datagram, and none has a moment.
    Rdg1,
    /// `RDG2`: each record has a moment, and is a datagram or a tick.
    Rdg2,
}
