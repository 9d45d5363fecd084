//! What is said, and to whom.

use crate::locators::PeerLocators;
use rtps_types::GuidPrefix;

/// A change of our announcer of readers (DDSI-RTPS 8.5.4). The changes have the numbers from 1 on.
#[derive(Clone, Copy, Debug, PartialEq, Eq)]
pub enum Change {
    /// The reader of this rank is there.
    Asks(u32),
    /// The reader of this rank has gone.
    Ends(u32),
}

/// What is said.
#[derive(Clone, Copy, Debug, PartialEq, Eq)]
pub enum Said {
    /// Our participant has left: who hears it forgets us (DDSI-RTPS 8.5.3.2).
    Bye,
    /// Our participant is here (DDSI-RTPS 8.5.3.2).
    Hello,
    /// The change of this number (DDSI-RTPS 8.5.4).
    Told(u64, Change),
    /// The numbers from the first to the second one are irrelevant: a GAP (DDSI-RTPS 8.3.7.4).
    Void(u64, u64),
    /// A HEARTBEAT: the last number that there is, and the count (DDSI-RTPS 8.3.7.5).
    Beat(u64, u32),
}

/// To whom it is said.
#[derive(Debug, Drop)]
pub enum Destination {
    /// To everyone who listens where participants are announced.
    Everyone,
    /// To the participant with this prefix, at these locators.
    Peer(GuidPrefix, PeerLocators),
}

/// One thing that is said, to be written as a message and sent.
#[derive(Debug, Drop)]
pub struct Sending {
    pub to: Destination,
    pub said: Said,
}

impl Sending {
    ghost use Rattle.std.specs.Prelude.{◌≡◌};
    ghost use Rattle.rtps_announcer.specs.Said.{to_everyone, to_peer};

    /// Something that is said to everyone.
    pub(crate) fn to_everyone(said: Said) -> Sending
        ensures { result ≡ to_everyone said }
    {
        Sending {
            to: Destination::Everyone,
            said,
        }
    }

    /// Something that is said to the peer with a prefix, at its locators.
    pub(crate) fn to_peer(prefix: GuidPrefix, to: &PeerLocators, said: Said) -> Sending
        ensures { result ≡ to_peer prefix to.now said }
    {
        Sending {
            to: Destination::Peer(prefix, to.copied()),
            said,
        }
    }
}
