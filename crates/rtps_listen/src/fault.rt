//! Why the program ends with another status than 0.

ghost use Rattle.std.specs.Prelude.{◌≡◌, Some};
ghost use Rattle.rtps_listen.specs.Status.{fault_text, live_fault_of};
ghost use Rattle.rtps_listen.specs.declared.fault.ListenFault.TheVariants as listen_fault;

use rtps_records::RunFault;
use rtps_text::LiveFault;
use std::fmt;
use thiserror::Error;

/// A fault that has a line of its own on standard error.
#[derive(Clone, Copy, Debug, PartialEq, Eq, Error)]
pub enum ListenFault {
    /// A word of the command line is not text.
    NoText,
    /// The value of `--own` isn't 24 hex digits.
    BadPrefix,
    /// The value of `--fixed` isn't 32 hex digits, or names no writer that can be matched.
    BadWriter,
    /// The value of `--address` isn't an IPv4 address in dotted notation, or for a participant that
    /// announces itself not one of one interface.
    BadAddress,
    /// The value of `--peers` isn't a list of addresses of one interface each, 12 at the most, with
    /// commas between them.
    BadPeers,
    /// `--peers`, `--no-multicast` or `--lease` is given without `--announce`.
    OnlyAnnounced,
    /// The record of a reader has more than 60,000 octets, so that no datagram announces it.
    TooLong,
    /// Each participant of the domain that there may be has a port that is taken; the first and the
    /// last of their ports.
    NoPorts(u16, u16),
    /// The sockets of a domain can't be opened, or one of them fails.
    Socket,
    /// The run over the records or datagrams ended early.
    Run(RunFault),
}

impl From<RunFault> for ListenFault {
    ghost from_gives = { λ run fault. fault ≡ listen_fault.Run run };

    fn from(fault: RunFault) -> ListenFault {
        ListenFault::Run(fault)
    }
}

impl From<LiveFault> for ListenFault {
    ghost from_gives = { λ live fault. fault ≡ live_fault_of live };

    fn from(fault: LiveFault) -> ListenFault {
        match fault {
            LiveFault::Socket => ListenFault::Socket,
            LiveFault::Run(fault) => ListenFault::Run(fault),
        }
    }
}

impl ListenFault {
    ghost use Rattle.rtps_listen.specs.Status.{status_of};

    /// Returns the exit status of a program that ends with this fault.
    pub fn status(self) -> u8
        ensures { result ≡ status_of self }
    {
        match self {
            ListenFault::NoText
            | ListenFault::BadPrefix
            | ListenFault::BadWriter
            | ListenFault::BadAddress
            | ListenFault::BadPeers
            | ListenFault::OnlyAnnounced
            | ListenFault::TooLong => 2,
            ListenFault::Socket | ListenFault::NoPorts(_, _) => 4,
            ListenFault::Run(RunFault::NoMemory) => 5,
            ListenFault::Run(_) => 3,
        }
    }
}

impl fmt::Display for ListenFault {
    ghost output = { λ fault. Some (fault_text fault) };

    fn fmt<W: fmt::Write>(&self, f: &mut fmt::Formatter<W>) -> fmt::Result {
        match self {
            ListenFault::NoText => write!(f, "a word is not text"),
            ListenFault::BadPrefix => write!(f, "bad prefix"),
            ListenFault::BadWriter => write!(f, "bad writer"),
            ListenFault::BadAddress => write!(f, "bad address"),
            ListenFault::BadPeers => write!(f, "bad peers"),
            ListenFault::OnlyAnnounced => {
                write!(f, "--peers, --no-multicast and --lease need --announce")
            }
            ListenFault::TooLong => write!(f, "a topic or type is too long to be announced"),
            ListenFault::NoPorts(first, last) => {
                write!(f, "no two ports of {first} to {last} are free")
            }
            ListenFault::Socket => write!(f, "socket fault"),
            ListenFault::Run(fault) => write!(f, "{fault}"),
        }
    }
}
