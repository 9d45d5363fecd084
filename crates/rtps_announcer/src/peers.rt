//! The peers, in the order of the octets of their prefixes.

ghost use Rattle.std.specs.Prelude.{◌≡◌, ◌++◌, IfOk, OnOk, None, Some, false, filter, map};
ghost use Rattle.std.specs.List.{flat_map, list_any};
ghost use Rattle.std.specs.Map.{lookup, set_value};
ghost use Rattle.rtps_types.specs.declared.identity.GuidPrefix.{GuidPrefix};
ghost use Rattle.rtps_announcer.specs.declared.peer.Peer.{Peer};
ghost use Rattle.rtps_discovery.specs.Known.{same_prefix};
ghost use Rattle.rtps_announcer.specs.Announcing as announcing;
ghost use Rattle.rtps_announcer.specs.Peer as spec;
ghost use Rattle.rtps_announcer.specs.Said.{to_peer};
ghost use Rattle.rtps_announcer.specs.Held.{when};

use crate::ack::Ack;
use crate::hearing::Facts;
use crate::now::Now;
use crate::peer::Peer;
use crate::rules::Rules;
use crate::said::{Change, Said, Sending};
use rtps_types::GuidPrefix;
use std::alloc::{AllocError, Allocator};
use std::collections::BTreeMap;

/// Removes the peers whose leases have ended at a moment.
pub(crate) fn end_leases<A: Allocator>(peers: &mut BTreeMap<GuidPrefix, Peer, A>, moment: u64)
    ensures { peers.new.entries ≡ filter (announcing.stays moment) peers.old.entries }
{
    peers.retain(|_, peer| !peer.has_lapsed(moment));
}

/// Reminds the peers that have to be reminded. Returns whether there is one.
pub(crate) fn send_reminders<A: Allocator>(
    peers: &BTreeMap<GuidPrefix, Peer, A>,
    rules: Rules,
    now: Now,
    sends: &mut Vec<Sending, A>,
) -> Result<bool, AllocError>
    ensures sent { OnOk result (sends.new.items ≡ sends.old.items
        ++ flat_map (announcing.reminder_to rules now) peers.now.entries) }
    ensures any { IfOk result (λ any. any
        ≡ list_any (announcing.is_reminded rules now) peers.now.entries) }
{
    let mut any = false;
    let mut entries = peers.iter();
    'entries: while let Some((prefix, peer)) = entries.next() {
        if peer.is_late(rules, now) {
            sends.push(Sending::to_peer(*prefix, &peer.to, now.beat()))?;
            any = true;
        }
    }
    Ok(any)
}

/// Notes which peers were reminded.
pub(crate) fn note_reminders<A: Allocator>(
    peers: &mut BTreeMap<GuidPrefix, Peer, A>,
    rules: Rules,
    now: Now,
)
    ensures { peers.new.entries
        ≡ map (λ (e : GuidPrefix × Peer). (e.0, spec.reminded rules now e.1)) peers.old.entries }
{
    peers.retain(|_, peer| {
        peer.remind(rules, now);
        true
    });
}

/// Tells the last change to every peer.
pub(crate) fn send_news<A: Allocator>(
    peers: &BTreeMap<GuidPrefix, Peer, A>,
    now: Now,
    change: Change,
    sends: &mut Vec<Sending, A>,
) -> Result<(), AllocError>
    ensures { OnOk result (sends.new.items ≡ sends.old.items
        ++ flat_map (announcing.news_to now change) peers.now.entries) }
{
    let mut entries = peers.iter();
    'entries: while let Some((prefix, peer)) = entries.next() {
        sends.push(Sending::to_peer(*prefix, &peer.to, Said::Told(now.last, change)))?;
        sends.push(Sending::to_peer(*prefix, &peer.to, now.beat()))?;
    }
    Ok(())
}

/// Notes that one more change was sent to every peer.
pub(crate) fn note_news<A: Allocator>(
    peers: &mut BTreeMap<GuidPrefix, Peer, A>,
    rules: Rules,
    now: Now,
)
    ensures { peers.new.entries
        ≡ map (λ (e : GuidPrefix × Peer). (e.0, spec.told_more rules now e.1)) peers.old.entries }
{
    peers.retain(|_, peer| {
        peer.tell(rules, now);
        true
    });
}

/// Says farewell to each peer.
pub(crate) fn send_farewells<A: Allocator>(
    peers: &BTreeMap<GuidPrefix, Peer, A>,
    sends: &mut Vec<Sending, A>,
) -> Result<(), AllocError>
    ensures { OnOk result (sends.new.items ≡ sends.old.items
        ++ map (λ (e : GuidPrefix × Peer). to_peer e.0 e.1.to Said.Bye) peers.now.entries) }
{
    let mut entries = peers.iter();
    'entries: while let Some((prefix, peer)) = entries.next() {
        sends.push(Sending::to_peer(*prefix, &peer.to, Said::Bye))?;
    }
    Ok(())
}

/// Takes what a known peer announces of itself now.
pub(crate) fn renew<A: Allocator>(
    peers: &mut BTreeMap<GuidPrefix, Peer, A>,
    prefix: GuidPrefix,
    rules: Rules,
    now: Now,
    facts: &Facts,
)
    ensures { (peer : Peer) → lookup (same_prefix prefix) peers.old.entries ≡ Some peer
        → peers.new.entries ≡ set_value (same_prefix prefix) peers.old.entries
        (spec.renewed rules now facts.now peer) }
{
    if let Some(peer) = peers.get_mut(&prefix) {
        peer.renew(rules, now, facts);
    }
}

/// Takes an ACKNACK of a peer.
pub(crate) fn acknowledge<A: Allocator>(
    peers: &mut BTreeMap<GuidPrefix, Peer, A>,
    prefix: GuidPrefix,
    rules: Rules,
    now: Now,
    ack: &Ack,
)
    ensures { (peer : Peer) → lookup (same_prefix prefix) peers.old.entries ≡ Some peer
        → peers.new.entries ≡ set_value (same_prefix prefix) peers.old.entries
        (spec.acknowledged rules now ack.now peer) }
{
    if let Some(peer) = peers.get_mut(&prefix) {
        peer.acknowledge(rules, now, ack);
    }
}

/// Returns the mute peer that was heard longest ago, if there is a mute one.
fn oldest_mute<A: Allocator>(peers: &BTreeMap<GuidPrefix, Peer, A>) -> Option<(GuidPrefix, u64)>
    ensures { result ≡ announcing.oldest None peers.now.entries }
{
    let mut oldest: Option<(GuidPrefix, u64)> = None;
    let mut entries = peers.iter();
    'entries: while let Some((prefix, peer)) = entries.next() {
        if peer.is_mute() && is_older(peer.heard, oldest) {
            oldest = Some((*prefix, peer.heard));
        }
    }
    oldest
}

/// Whether a peer that was last heard at this moment was so before the one that was chosen.
fn is_older(heard: u64, chosen: Option<(GuidPrefix, u64)>) -> bool
    ensures { result ≡ announcing.is_older heard chosen }
{
    match chosen {
        Some((_, other)) => heard < other,
        None => true,
    }
}

/// Makes room for one peer more: where all places are taken, one that is mute loses its own.
/// Returns whether there is room.
pub(crate) fn make_room<A: Allocator>(
    peers: &mut BTreeMap<GuidPrefix, Peer, A>,
    most: usize,
) -> bool
    ensures room { when result peers.new.entries ≡ announcing.room most peers.old.entries }
    ensures same { result ≡ false → peers.new.entries ≡ peers.old.entries }
{
    if peers.len() < most {
        return true;
    }
    match oldest_mute(peers) {
        Some((prefix, _)) => {
            peers.remove(&prefix);
            true
        }
        None => false,
    }
}
