//! The files, the sockets and the clocks of this machine.

ghost use Rattle.std.specs.Prelude.{◌≡◌, ◌≤◌, None, option_map};
ghost use Rattle.rtps_discovery.specs.declared.config.Config.{Config};
ghost use Rattle.rtps_udp.specs.Calls.{announced_in};
ghost use Rattle.rtps_listen.specs.Appearing.{IsReachFault};
ghost use Rattle.rtps_listen.specs.Hosts.{IsFoundBy};

use crate::fault::ListenFault;
use crate::network::{Leave, Network};
use crate::reach::Reach;
use dds_announced::VoiceFault;
use rtps_announced::AnnouncedSockets;
use rtps_discovery::Config;
use rtps_files::RecordFiles;
use rtps_records::RunFault;
use rtps_udp::{Binding, Link, Machine, Purpose, SocketFault, Sockets, last_index};
use std::alloc::{AllocError, Global};
use std::fs::File;
use std::io::{self, Read, Stdin};
use std::time::{SystemTime, UNIX_EPOCH};

/// The files, the sockets and the clocks of this machine.
#[derive(Drop)]
pub struct Host<'a> {
    pub rt: &'a HostRuntime,
}

/// A file of this machine, or its standard input.
#[derive(Drop)]
pub enum HostFile {
    Stdin(Stdin),
    File(File),
}

impl RecordFiles for Host<'_> {
    type File = HostFile;

    ghost holds = { λ _ _. None };

    fn open(&self, name: &str) -> io::Result<HostFile> {
        if name == "-" {
            return Ok(HostFile::Stdin(self.rt.stdin()));
        }
        Ok(HostFile::File(File::open(self.rt, name)?))
    }
}

impl Read for HostFile {
    fn read(&mut self, buf: &mut [u8]) -> io::Result<usize> {
        match self {
            HostFile::Stdin(stdin) => stdin.read(buf),
            HostFile::File(file) => file.read(buf),
        }
    }
}

impl<L: Link> Leave for AnnouncedSockets<L> {
    ghost announced = { λ s. option_map announced_in (L.calls s.sockets.ports.link) };

    fn farewell(&mut self) -> Result<(), AllocError> {
        AnnouncedSockets::farewell(self)
    }
}

impl<'a> Network for Host<'a> {
    type Joined = Sockets<Machine<'a, HostRuntime, HostRuntime>>;

    type Announced = AnnouncedSockets<Machine<'a, HostRuntime, HostRuntime>>;

    ghost joins = { λ _ binding _ sockets. sockets.binding ≡ binding };

    ghost appears = { λ _ reach config _ network. IsFoundBy reach config network };

    // Nothing is known of the clock of this machine.
    ghost reads = { λ _ _. Unit {0} };

    fn join(&mut self, alloc: Global, binding: Binding) -> Result<Self::Joined, SocketFault> {
        Sockets::bind_at(self.rt, self.rt, alloc, binding)
    }

    fn appear(
        &mut self,
        alloc: Global,
        reach: &Reach,
        config: &Config,
    ) -> Result<Self::Announced, ListenFault> {
        let bound = Sockets::bind_first(self.rt, self.rt, alloc, reach.domain, reach.address);
        let sockets = match bound {
            Ok(sockets) => sockets,
            Err(fault) => return Err(bind_fault(reach.domain, fault)),
        };
        let Ok(everyone) = reach.everyone(alloc, sockets.locator(Purpose::Metatraffic)) else {
            return Err(ListenFault::Run(RunFault::NoMemory));
        };
        match AnnouncedSockets::new(alloc, sockets, config, reach.lease, everyone) {
            Ok(network) => Ok(network),
            Err(VoiceFault::TooLong) => Err(ListenFault::TooLong),
            Err(VoiceFault::NoMemory) => Err(ListenFault::Run(RunFault::NoMemory)),
            // Reaches that options ask for have none.
            Err(VoiceFault::Announcing(_)) => Err(ListenFault::Socket),
        }
    }

    fn nanoseconds(&self) -> io::Result<u64> {
        let now = SystemTime::now(self.rt)?;
        let Ok(since) = now.duration_since(UNIX_EPOCH) else {
            return Ok(0);
        };
        Ok((since.as_nanos() & 0xffff_ffff_ffff) as u64)
    }
}

/// Returns why no participant of a domain has sockets: `NoPorts` where the ports of the last one are
/// taken, `NoMemory`, and `Socket` for any other fault.
fn bind_fault(domain: u16, fault: SocketFault) -> ListenFault
    requires { domain ≤ 232 }
    ensures { (config : Config) → IsReachFault domain config result }
{
    match fault {
        SocketFault::DiscoveryPortTaken | SocketFault::UserPortTaken => {
            let first = 7410 + 250 * domain;
            let last = 7411 + 250 * domain + 2 * u16::from(last_index(domain));
            ListenFault::NoPorts(first, last)
        }
        SocketFault::NoMemory => ListenFault::Run(RunFault::NoMemory),
        _ => ListenFault::Socket,
    }
}
