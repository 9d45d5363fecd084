//! Faults of a run over datagrams as they are received.

ghost use Rattle.std.specs.Prelude.{◌≡◌};
ghost use Rattle.rtps_text.specs.declared.live_fault.LiveFault.TheVariants as live_fault;

use rtps_records::RunFault;

/// Why a run over datagrams as they are received ends early.
#[derive(Clone, Copy, Debug, PartialEq, Eq)]
pub enum LiveFault {
    /// The network failed: no datagram can be waited for or received any more.
    Socket,
    /// The text can't be written, or memory runs out.
    Run(RunFault),
}

impl From<RunFault> for LiveFault {
    ghost from_gives = { λ run fault. fault ≡ live_fault.Run run };

    fn from(fault: RunFault) -> LiveFault {
        LiveFault::Run(fault)
    }
}
