//! A host that can take part in domains, and the networks that it takes part in.

ghost use Rattle.std.specs.Prelude.{◌≡◌, IfErr, IfOk, List, OnErr, OnOk, Option, ℕ};
ghost use Rattle.rtps_types.specs.declared.locator.Locator.{Locator};
ghost use Rattle.rtps_discovery.specs.declared.config.Config.{Config};
ghost use Rattle.rtps_records.specs.Speech.{HasLeft};
ghost use Rattle.rtps_udp.specs.declared.binding.Binding.{Binding};
ghost use Rattle.rtps_listen.specs.Appearing.{IsReachFault, IsSilent};
ghost use Rattle.rtps_listen.specs.Domain.{IsQuiet};
ghost use Rattle.rtps_listen.specs.declared.reach.Reach.{Reach};

use crate::fault::ListenFault;
use crate::reach::Reach;
use rtps_discovery::Config;
use rtps_records::Exchange;
use rtps_udp::{Binding, SocketFault};
use std::alloc::{AllocError, Global};
use std::io;

/// A network by which a participant announces itself.
pub trait Leave: Exchange {
    /// Each datagram that was announced, with its locator; nothing says whether it arrives.
    ghost announced: { Self → Option (List (Locator × List ℕ)) };

    /// Says farewell, so that others forget the participant at once and not when its lease ends.
    /// `AllocError` where memory is refused, now or before: then nothing is said.
    fn farewell(&mut self) -> Result<(), AllocError>
        ensures left { OnOk result (HasLeft (Self.speech self.old) (Self.traffic self.old)
            (announced self.new)) }
        ensures same { Self.traffic self.new ≡ Self.traffic self.old };
}

/// A host that can take part in domains.
pub trait Network {
    /// A network that exchanges the datagrams of a domain.
    type Joined: Exchange + Drop;

    /// A network that does so too, and announces a participant.
    type Announced: Leave + Drop;

    ghost joins: { Self → Binding → Self → Self.Joined → Type 0 };

    ghost appears: { Self → Reach → Config → Self → Self.Announced → Type 0 };

    /// The times in nanoseconds that its clock may read.
    ghost reads: { Self → ℕ → Type 0 };

    /// Takes part in a domain, as its first participant, at an address of this machine. By this
    /// alone nothing is received or sent. At a fault the host is unchanged.
    fn join(&mut self, alloc: Global, binding: Binding) -> Result<Self::Joined, SocketFault>
        ensures joined { IfOk result (λ network. joins self.old binding self.new network) }
        ensures quiet { IfOk result (λ network. IsQuiet (Self.Joined.traffic network)) }
        ensures same { OnErr result (self.new ≡ self.old) };

    /// Takes part in a domain, as the first participant whose ports are free at an address of this
    /// machine, which is to be found so and has this configuration (DDSI-RTPS 8.5.3, 9.6.1.1). By
    /// this alone nothing is received, sent or announced. At a fault the host is unchanged.
    ///
    /// `NoPorts` where no participant that there may be has two free ports; `TooLong` where the
    /// record of a reader is too long to be announced; `Socket` for any other fault of the sockets;
    /// and `NoMemory`.
    fn appear(
        &mut self,
        alloc: Global,
        reach: &Reach,
        config: &Config,
    ) -> Result<Self::Announced, ListenFault>
        ensures appeared { IfOk result (λ network.
            appears self.old reach.now config.now self.new network) }
        ensures quiet { IfOk result (λ network. IsQuiet (Self.Announced.traffic network)) }
        ensures silent { IfOk result (λ network. IsSilent (Self.Announced.announced network)) }
        ensures fault { IfErr result (IsReachFault reach.now.domain config.now) }
        ensures same { OnErr result (self.new ≡ self.old) };

    /// Returns the time in nanoseconds, by a clock of which no two participants of this machine read
    /// the same time.
    fn nanoseconds(&self) -> io::Result<u64>
        ensures { IfOk result (reads self.now) };
}

/// A host, with the network that it has joined last, and the one by which a participant of it has
/// announced itself last.
#[derive(Drop)]
pub struct Station<H, J, A> {
    pub host: H,
    pub network: Option<J>,
    pub announced: Option<A>,
}
