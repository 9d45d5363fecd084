//! What follows from the definitions.

ghost use Rattle.rtps_announcer.specs.Bounds.{BoundedSends, FewPeers};
ghost use Rattle.rtps_announcer.specs.Concerned.{OnlyAsked, OnlyConcerned, Reminded};
ghost use Rattle.rtps_announcer.specs.Cuts.{EveryCut};
ghost use Rattle.rtps_announcer.specs.Submessages.{ReadAlike};
ghost use Rattle.rtps_announcer.specs.Told.{AllTold};

/// However what is heard is cut into batches, the same is sent, and the announcer is the same after
/// it.
pub fn every_cut()
    ensures { EveryCut }
{}

/// The submessages with their bodies, of which is heard, are those that `rtps_wire` reads.
pub fn read_alike()
    ensures { ReadAlike }
{}

/// After whatever was heard, each participant that was found and stays was sent each change that
/// concerns it: of each reader of ours that is there, and of the end of each that it may have heard
/// of.
pub fn all_told()
    ensures { AllTold }
{}

/// Only changes that concern a participant are said to it: when it is found, when it asks, and when
/// a reader of ours comes or goes. So nothing of a reader that has gone, but its end to who may
/// have heard of it.
pub fn only_concerned()
    ensures { OnlyConcerned }
{}

/// An ACKNACK is answered to its participant alone, and by nothing but what it asked for and a
/// HEARTBEAT.
pub fn only_asked()
    ensures { OnlyAsked }
{}

/// At each moment a HEARTBEAT goes to each peer that stays and has to be reminded.
pub fn reminded()
    ensures { Reminded }
{}

/// What is sent at one hearing is bounded: so nobody makes us send without end.
pub fn bounded_sends()
    ensures { BoundedSends }
{}

/// There are never more peers than the rules allow, whoever announces itself.
pub fn few_peers()
    ensures { FewPeers }
{}
