//! What follows from the contracts.

ghost use Rattle.dds_announced.specs.Announced.{StayTogether};
ghost use Rattle.dds_announced.specs.Found.{PeersAreFound};

use dds_topic::Catalog;

/// The participant and its announcer are where one list of inputs brings them, call by call.
pub fn stay_together<C: Catalog>()
    ensures { StayTogether C.Value C.decoding }
{}

/// Each peer of the announcer is a participant that its run knows over the same inputs: heard last at
/// the same moment, with the same lease. And each known participant is a peer that said last that it
/// hears readers of ours, unless there was no place for it then, or for somebody who came since.
pub fn peers_are_found<C: Catalog>()
    ensures { PeersAreFound C.decoding }
{}
