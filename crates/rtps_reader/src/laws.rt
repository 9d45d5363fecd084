//! Laws of the definitions. Each is a function that does nothing, whose contract is the law.

ghost use Rattle.std.specs.Prelude.{◌≡◌, Bool, List, None, Some, if◌then◌else◌, map};
ghost use Rattle.std.specs.List.Sorted.{IsStrictlySortedBy};
ghost use Rattle.std.specs.Option.{option_map};
ghost use Rattle.rtps_types.specs.MatchChange.{Matches, Unmatches};
ghost use Rattle.rtps_types.specs.declared.identity.EntityId.{EntityId};
ghost use Rattle.rtps_types.specs.declared.identity.Guid.{Guid};
ghost use Rattle.rtps_types.specs.declared.identity.GuidPrefix.{GuidPrefix};
ghost use Rattle.rtps_types.specs.declared.locator.Locator.{Locator};
ghost use Rattle.rtps_types.specs.Order.{guid_order};
ghost use Rattle.rtps_proxy.specs.History.{MatchEvent};
ghost use Rattle.rtps_proxy.specs.Matches.{match_with, same_guid};
ghost use Rattle.rtps_reader.specs.declared.notice.Notice.{Notice};
ghost use Rattle.rtps_reader.specs.Reader.{Facts, Reader, extended_by, first_reader, fresh_with, reader_after, reader_run};
ghost use Rattle.rtps_reader.specs.Standing.{IsStopped, ReaderView, StandsAt};
ghost use Rattle.rtps_reader.specs.Step.{StepView, Takes, Changes, Starts, Stops};

use dds_topic::Catalog;

/// How a step changes the match with each writer. An event of a writer extends the history of its
/// match, if there is one. A match that begins has no history, even if it replaces one. A match
/// that ends is removed. None of these changes the matches with other writers. A reader that starts
/// or stops has no match.
pub fn matches_follow()
    ensures taken { (r : Reader) (writer other : Guid) (event : MatchEvent)
        → match_with other (reader_after r (Takes writer event)).matches
        ≡ (if same_guid writer other
        then option_map (extended_by event) (match_with other r.matches)
        else match_with other r.matches) }
    ensures begun { (r : Reader) (writer other : Guid) (locators : List Locator)
        → match_with other (reader_after r (Changes (Matches writer locators))).matches
        ≡ (if same_guid writer other then Some (fresh_with r (writer, locators))
        else match_with other r.matches) }
    ensures ended { (r : Reader) (writer other : Guid)
        → match_with other (reader_after r (Changes (Unmatches writer))).matches
        ≡ (if same_guid writer other then None else match_with other r.matches) }
    ensures started { (r : Reader) (own : GuidPrefix) (entity : EntityId) (is_reliable : Bool)
        (other : Guid)
        → match_with other (reader_after r (Starts own entity is_reliable)).matches ≡ None }
    ensures stopped { (r : Reader) (other : Guid)
        → match_with other (reader_after r Stops).matches ≡ None }
{}

/// After any steps, the matches of a reader are in the order of their writers, and no writer has
/// two.
pub fn matches_in_order()
    ensures { (own : GuidPrefix) (entity : EntityId) (is_reliable : Bool) (fixed : List Facts)
        (doings : List StepView)
        → IsStrictlySortedBy guid_order (map (λ m. m.pairing.writer) (reader_run (first_reader own
        entity is_reliable fixed) doings).matches) }
{}

/// The state of a stopped reader is that of the reader after it stops: if a state follows from a
/// reader's steps, then the stopped one follows from them and from the stop, which gives no notice.
pub fn stopping_follows<C: Catalog>()
    ensures { (r : Reader) (given : List (Notice C.Meaning)) (old new : ReaderView)
        → StandsAt r given old → IsStopped old new → StandsAt (reader_after r Stops) given new }
{}
