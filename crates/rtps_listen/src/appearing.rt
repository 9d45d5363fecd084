//! What is printed of the datagrams of a domain by a participant that announces itself.

ghost use Rattle.std.specs.Prelude.{◌≡◌, ◌≢◌, ◌⊎◌, Err, IfErr, IfOk, IsErr, Ok, OnErr, OnOk};
ghost use Rattle.rtps_discovery.specs.Config.{check_of};
ghost use Rattle.rtps_records.specs.Speech.{HasLeft};
ghost use Rattle.rtps_listen.specs.Appearing.{Appears, IsAnnouncedCause, IsAnnouncedConfigOf, prefix_at};
ghost use Rattle.rtps_listen.specs.Configs.{IsConfigOf};
ghost use Rattle.rtps_listen.specs.Networks.{Networks};
ghost use Rattle.rtps_listen.specs.Request.{RefusesFirst};
ghost use Rattle.rtps_listen.specs.declared.request.Request.TheVariants.{Announce};

use crate::config::config_of;
use crate::domain::{Asked, run_over};
use crate::fault::ListenFault;
use crate::network::{Leave, Network, Station};
use crate::options::{OWN, Options};
use crate::reaching::reach_of;
use rtps_discovery::{Config, check};
use rtps_records::RunFault;
use rtps_types::GuidPrefix;
use std::alloc::Global;
use std::io::Write;
use std::net::Ipv4Addr;
use std::thread::Threads;

/// Returns the prefix of a participant at this address that comes at this time, in nanoseconds: two
/// octets 0b, the address, and the lower six octets of the time. So no two participants have the
/// same one, nor one participant after it was started again (DDSI-RTPS 8.2.4.1).
fn prefix_at(address: Ipv4Addr, time: u64) -> GuidPrefix
    ensures { result ≡ prefix_at address time }
{
    let [a, b, c, d] = address.octets();
    let [_, _, e, f, g, h, i, j] = time.to_be_bytes();
    GuidPrefix([0x0b, 0x0b, a, b, c, d, e, f, g, h, i, j])
}

/// Returns the configuration of the options for a participant at this address: where no prefix is
/// given, it has a made one.
///
/// `BadWriter` where the writer that is matched from the start is one of its own; `Socket` where
/// the time can't be read.
fn announced_config<H: Network>(
    host: &H,
    options: &Options<'_>,
    address: Ipv4Addr,
    mut config: Config,
) -> Result<Config, ListenFault>
    requires given { IsConfigOf options.now config }
    requires checked { check_of config ≡ Ok tt }
    ensures config { IfOk result (IsAnnouncedConfigOf (H.reads host.now) options.now address) }
    ensures taken { IfOk result (λ config. check_of config ≡ Ok tt) }
    ensures fault { IfErr result (IsAnnouncedCause options.now) }
{
    if options.own != OWN {
        return Ok(config);
    }
    let Ok(time) = host.nanoseconds() else {
        return Err(ListenFault::Socket);
    };
    config.own = prefix_at(address, time);
    match check(&config) {
        Ok(()) => Ok(config),
        Err(_) => Err(ListenFault::BadWriter),
    }
}

/// Says farewell to a network, and returns how the run over it ended, or `NoMemory`.
fn leave<N: Leave>(network: &mut N, ended: Result<(), ListenFault>) -> Result<(), ListenFault>
    ensures same { N.traffic network.new ≡ N.traffic network.old }
    ensures ended { (result ≡ ended) ⊎ (result ≡ Err (ListenFault.Run RunFault.NoMemory)) }
    ensures left { result ≢ Err (ListenFault.Run RunFault.NoMemory)
        → HasLeft (N.speech network.old) (N.traffic network.old) (N.announced network.new) }
{
    match network.farewell() {
        Ok(()) => ended,
        Err(_) => Err(ListenFault::Run(RunFault::NoMemory)),
    }
}

/// Does what `listen --announce` is asked for: takes part in a domain as a participant that
/// announces itself and its readers, prints what they report and answer of its datagrams, and says
/// farewell (DDSI-RTPS 8.5.3, 8.5.4).
///
/// What is wrong with the options is refused before the domain is joined: `BadPrefix`, `BadWriter`,
/// `BadAddress` and `BadPeers` in this order. `NoPorts` if no two ports of a participant are free,
/// `TooLong` if a reader can't be announced, `Socket` for any other fault of the sockets, then or
/// later. Any other fault is that of the run.
pub fn appear_in<H: Network, W: Write, T: Threads + Sync>(
    rt: &T,
    alloc: Global,
    station: &mut Station<H, H::Joined, H::Announced>,
    options: &Options<'_>,
    writer: &mut W,
) -> Result<(), ListenFault>
    ensures refused { RefusesFirst (Announce options.now) result }
    ensures appears { Appears (record {
      joins = H.joins;
      traffic = H.Joined.traffic;
      reads = H.reads;
      appears = H.appears;
      heard = H.Announced.traffic;
      speech = H.Announced.speech;
      announced = H.Announced.announced;
    }) options.now station.old station.new
        (W.contents writer.old) (W.contents writer.new) result }
{
    let given = config_of(alloc, options)?;
    let reach = reach_of(alloc, options)?;
    let config = announced_config(&station.host, options, reach.address, given)?;
    let network = station.host.appear(alloc, &reach, &config)?;
    let network = station.announced.insert(network);
    let ended = run_over(rt, alloc, Asked { options, config }, network, writer);
    leave(network, ended)
}
