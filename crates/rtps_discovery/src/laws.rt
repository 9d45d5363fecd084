//! Laws of the definitions. Each is an empty function whose contract is the law.

ghost use Rattle.rtps_discovery.specs.Addressed.{AddressedIsTested};
ghost use Rattle.rtps_discovery.specs.Config.{TakenIsFaultless};
ghost use Rattle.rtps_discovery.specs.Differences.{ChangesAreDifferences};
ghost use Rattle.rtps_discovery.specs.Ranked.{RanksAreMatched};
ghost use Rattle.rtps_discovery.specs.Silence.{MomentsBetweenAddNothing, SilenceIsForgotten};

/// An event goes to a reader exactly if the test holds, whichever writers the reader is matched
/// with.
pub fn addressed_is_tested()
    ensures { AddressedIsTested }
{}

/// The configurations that are taken are exactly those without a fault.
pub fn taken_is_faultless()
    ensures { TakenIsFaultless }
{}

/// For any two states of discovery, before and after: a match begins for exactly the pairs of a
/// reader and a writer that are matched after and weren't before, and ends for exactly those that
/// were matched before and aren't after. A refusal is reported exactly if it is new or names
/// another policy. If the writers known after are in the order of their octets, the changes are in
/// order too: by rank, then by writer, and an end before a refusal.
pub fn changes_are_differences()
    ensures { ChangesAreDifferences }
{}

/// In any state of discovery, the ranks listed for a writer are those of the readers that are
/// matched with it, rising.
pub fn ranks_are_matched()
    ensures { RanksAreMatched }
{}

/// In any state of discovery with its participants in order: after a moment, a participant is known
/// exactly if it was known before and its lease hasn't ended. With each participant that is
/// removed, its announcers, its writers and its readers are removed, and no other's.
pub fn silence_is_forgotten()
    ensures { SilenceIsForgotten }
{}

/// In any state of discovery with its participants in order: two moments, one after the other, have
/// the effect of the greater one alone. So it doesn't matter how often a clock is read.
pub fn moments_between_add_nothing()
    ensures { MomentsBetweenAddNothing }
{}
