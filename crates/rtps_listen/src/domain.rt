//! What is printed of the datagrams of a domain.

ghost use Rattle.std.specs.Prelude.{◌≡◌, IfErr, IfOk, Ok, OnErr};
ghost use Rattle.rtps_discovery.specs.Config.{check_of};
ghost use Rattle.rtps_text.specs.Listened.{limits_of};
ghost use Rattle.rtps_listen.specs.Addresses.{IsAddressText, IsJoinCause};
ghost use Rattle.rtps_listen.specs.Domain.{Hears, IsLive, IsQuiet, Joins, ListensBy, live_run_of};
ghost use Rattle.rtps_listen.specs.Request.{RefusesFirst};
ghost use Rattle.rtps_listen.specs.declared.request.Request.TheVariants.{Listen};

use crate::config::config_of;
use crate::fault::ListenFault;
use crate::network::{Network, Station};
use crate::options::Options;
use crate::setup::live_setup_of;
use dds_topic::{Raw, Shapes};
use rtps_discovery::Config;
use rtps_records::Exchange;
use rtps_text::listen;
use rtps_udp::Binding;
use std::alloc::Global;
use std::io::Write;
use std::net::Ipv4Addr;
use std::thread::Threads;

/// Takes part in the domain that options name, at the address that they name. No datagram is
/// received or sent by this. At a fault the host is unchanged.
///
/// `BadAddress` if `--address` isn't an IPv4 address in dotted notation, and `Socket` if there are
/// no sockets for the domain at the address.
fn join<H: Network>(
    alloc: Global,
    host: &mut H,
    options: &Options<'_>,
) -> Result<H::Joined, ListenFault>
    ensures joins { IfOk result (λ network.
        Joins H.joins options.now host.old host.new network) }
    ensures quiet { IfOk result (λ network. IsQuiet (H.Joined.traffic network)) }
    ensures address { IfOk result (λ network. IsAddressText options.now.address.now) }
    ensures fault { IfErr result (IsJoinCause options.now) }
    ensures same { OnErr result (host.new ≡ host.old) }
{
    let Ok(address) = options.address.parse::<Ipv4Addr>() else {
        return Err(ListenFault::BadAddress);
    };
    let binding = Binding {
        domain: options.domain,
        participant: 0,
        address,
    };
    match host.join(alloc, binding) {
        Ok(network) => Ok(network),
        Err(_) => Err(ListenFault::Socket),
    }
}

/// Options, and the configuration of the readers that they ask for.
#[derive(Drop)]
pub struct Asked<'o, 'a> {
    pub options: &'o Options<'a>,
    pub config: Config,
    ghost checked: { check_of config ≡ Ok tt },
}

/// Prints what readers report and answer of the datagrams of a network, as options ask for it.
///
/// `Socket` if no datagram can be waited for or received any more. Any other fault is that of the
/// run.
pub fn run_over<N: Exchange, W: Write, T: Threads + Sync>(
    rt: &T,
    alloc: Global,
    asked: Asked<'_, '_>,
    network: &mut N,
    writer: &mut W,
) -> Result<(), ListenFault>
    ensures listens { ListensBy
        (live_run_of asked.entry.options.now.raw asked.entry.config
        asked.entry.options.now.summary)
        (limits_of asked.entry.options.now.count asked.entry.options.now.turns)
        (N.traffic network.old) (N.traffic network.new)
        (W.contents writer.old) (W.contents writer.new) result }
    ensures fault { IfErr result IsLive }
    ensures speech { N.speech network.new ≡ N.speech network.old }
{
    let Asked { options, config } = asked;
    if options.raw {
        let setup = live_setup_of(options, config, Raw);
        return Ok(listen(rt, alloc, setup, network, writer)?);
    }
    let setup = live_setup_of(options, config, Shapes);
    Ok(listen(rt, alloc, setup, network, writer)?)
}

/// Does what `listen` is asked for: takes part in a domain, and prints what readers report and
/// answer of its datagrams.
///
/// What is wrong with the options is refused before the domain is joined: `BadPrefix`, `BadWriter`
/// and `BadAddress` in this order. `Socket` if it can't be joined, or if no datagram can be waited
/// for or received any more. Any other fault is that of the run.
pub fn listen_in<H: Network, W: Write, T: Threads + Sync>(
    rt: &T,
    alloc: Global,
    station: &mut Station<H, H::Joined, H::Announced>,
    options: &Options<'_>,
    writer: &mut W,
) -> Result<(), ListenFault>
    ensures refused { RefusesFirst (Listen options.now) result }
    ensures hears { Hears H.joins H.Joined.traffic options.now station.old station.new
        (W.contents writer.old) (W.contents writer.new) result }
{
    let config = config_of(alloc, options)?;
    let network = join(alloc, &mut station.host, options)?;
    let network = station.network.insert(network);
    run_over(rt, alloc, Asked { options, config }, network, writer)
}
