//! Places of submessages in a run.

/// The place of a submessage in a run, ordered by datagram and then by submessage. A moment that
/// passes, and a reader of ours that comes or goes, has a place too: the one before the submessages
/// of the next datagram. Places are not part of the standard.
#[derive(Clone, Copy, PartialEq, Eq, PartialOrd, Ord, Hash)]
pub struct Place {
    /// The index of the datagram in the whole run, counted from 0.
    pub datagram: u64,
    /// The number of the submessage in its datagram, counted from 1; skipped ones count too. It is
    /// 0 for what happens before the submessages, whether or not the datagram comes then.
    pub submessage: u32,
}
