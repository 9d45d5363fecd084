//! What the announcer hears of a batch.

ghost use Rattle.std.specs.Prelude.{◌≡◌, IfOk, List, OnOk, false, map};
ghost use Rattle.rtps_announcer.specs.Announcing.{sends_run, state_run};
ghost use Rattle.rtps_announcer.specs.declared.hearing.Hearing.{Hearing};
ghost use Rattle.rtps_announcer.specs.Standing.{IsSame};
ghost use Rattle.rtps_run.specs.Input.{arrived};
ghost use Rattle.dds_announced.specs.Hearings.{all_heard};

use rtps_announcer::{Announcer, Sending};
use rtps_discovery::ReaderConfig;
use rtps_types::Datagram;
use std::alloc::{AllocError, Global};

/// Has an announcer hear datagrams, one after the other, and returns what it says.
pub(crate) fn hear_all(
    alloc: Global,
    announcer: &mut Announcer,
    datagrams: &[Datagram<'_>],
) -> Result<Vec<Sending>, AllocError>
    requires { announcer.old.failed ≡ false }
    ensures sends { IfOk result (λ sends. sends.items ≡ sends_run announcer.old.rules
        announcer.old.state (all_heard announcer.old.own (map arrived datagrams.now))) }
    ensures state { OnOk result (announcer.new.state ≡ state_run announcer.old.rules
        announcer.old.state (all_heard announcer.old.own (map arrived datagrams.now))) }
    ensures failed { OnOk result (announcer.new.failed ≡ false) }
    ensures same { IsSame announcer.old announcer.new }
{
    let mut sends = Vec::new(alloc);
    for datagram in datagrams {
        announcer.take(alloc, datagram, &mut sends)?;
    }
    Ok(sends)
}

/// Has an announcer hear that these readers come. It has no peers yet, so it says nothing.
pub(crate) fn join_all(
    alloc: Global,
    announcer: &mut Announcer,
    readers: &[ReaderConfig],
) -> Result<(), AllocError>
    requires { announcer.old.failed ≡ false }
    ensures state { OnOk result (announcer.new.state ≡ state_run announcer.old.rules
        announcer.old.state (map (λ r. Hearing.Joins) readers.now)) }
    ensures failed { OnOk result (announcer.new.failed ≡ false) }
    ensures same { IsSame announcer.old announcer.new }
{
    let mut sends = Vec::new(alloc);
    for _reader in readers {
        announcer.add_reader(alloc, &mut sends)?;
    }
    Ok(())
}
