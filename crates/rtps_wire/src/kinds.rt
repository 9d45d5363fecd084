//! The kinds of submessages and their flags (DDSI-RTPS 9.4.5.1).

pub const PAD: u8 = 0x01;

pub const ACKNACK: u8 = 0x06;

pub const HEARTBEAT: u8 = 0x07;

pub const GAP: u8 = 0x08;

pub const INFO_TS: u8 = 0x09;

pub const INFO_SRC: u8 = 0x0c;

pub const INFO_DST: u8 = 0x0e;

pub const NACK_FRAG: u8 = 0x12;

pub const HEARTBEAT_FRAG: u8 = 0x13;

pub const DATA: u8 = 0x15;

pub const DATA_FRAG: u8 = 0x16;

/// Flag E of each kind: numbers are little-endian (9.4.5.1.2).
pub(crate) const LITTLE: u8 = 0x01;

/// Flag F of an ACKNACK: the reader asks for no answer (9.4.5.2).
pub(crate) const ACKNACK_FINAL: u8 = 0x02;

/// Flag Q of a DATA and of a DATA_FRAG: inline QoS follows (9.4.5.3, 9.4.5.4).
pub(crate) const INLINE_QOS: u8 = 0x02;

/// Flag D of a DATA: a value follows.
pub(crate) const DATA_VALUE: u8 = 0x04;

/// Flag K of a DATA: a key follows.
pub(crate) const DATA_KEY: u8 = 0x08;

/// Flag N of a DATA: the payload is in no standard form.
pub(crate) const DATA_NON_STANDARD: u8 = 0x10;

/// Flag K of a DATA_FRAG: the fragments are of a key.
pub(crate) const DATA_FRAG_KEY: u8 = 0x04;

/// Flag N of a DATA_FRAG: the payload is in no standard form.
pub(crate) const DATA_FRAG_NON_STANDARD: u8 = 0x08;

/// Flag F of a HEARTBEAT: the writer asks for no answer (9.4.5.6).
pub(crate) const HEARTBEAT_FINAL: u8 = 0x02;

/// Flag L of a HEARTBEAT: it is sent only to show that the writer is alive.
pub(crate) const HEARTBEAT_LIVELINESS: u8 = 0x04;

/// Flag I of an INFO_TS: there is no time (9.4.5.11).
pub(crate) const INFO_TS_INVALIDATE: u8 = 0x02;
