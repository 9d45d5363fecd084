//! Laws about the definitions. Each is an empty function whose contract is the law.

ghost use Rattle.std.specs.Prelude.{◌≡◌, ◌<◌, ℕ, Bool, List, ◌∷◌, false, map, true};
ghost use Rattle.std.specs.List.{AllByRecursion};
ghost use Rattle.rtps_types.specs.NumberSet.{members};
ghost use Rattle.rtps_proxy.specs.Answer.{acknack_by};
ghost use Rattle.rtps_proxy.specs.Replies.{NamesWhatIsMissing, set_of};
ghost use Rattle.rtps_proxy.specs.History.{MatchEvent};
ghost use Rattle.rtps_proxy.specs.Presentation.{Brings, PassesOverOnly, RisesStrictly, presented};
ghost use Rattle.rtps_proxy.specs.Received.{frontier_of, is_settled, ready};

/// The frontier is the least number that isn't settled.
pub fn frontier_is_least()
    ensures below { (past : List MatchEvent) (n : ℕ) →
        n < frontier_of past → is_settled past n ≡ true }
    ensures itself { (past : List MatchEvent) → is_settled past (frontier_of past) ≡ false }
{}

/// The set of an ACKNACK names exactly the missing numbers up to the announced one, of the 256
/// numbers that begin at its base.
pub fn an_answer_names_its_members()
    ensures missing { NamesWhatIsMissing }
    ensures members { (settled : ℕ → Bool) (base announced earlier : ℕ) →
        members (set_of (acknack_by settled base announced earlier))
        ≡ (acknack_by settled base announced earlier).members }
{}

/// In the match of a reliable reader, the sequence numbers of the presented samples rise strictly.
/// Each sample was received by then, in a DATA of the match or in DATA_FRAGs without a fault that
/// together have all its fragments. Each number that was skipped was given up by then, by a GAP or
/// an accepted HEARTBEAT of the match.
pub fn presents_in_order()
    ensures rising { (past : List MatchEvent) →
        RisesStrictly (map (λ s. s.number) (presented past)) }
    ensures received { (past : List MatchEvent) (e : MatchEvent) →
        AllByRecursion (Brings (e ∷ past)) (ready past e) }
    ensures passed_over { (past : List MatchEvent) (e : MatchEvent) →
        AllByRecursion (PassesOverOnly (e ∷ past)) (ready past e) }
{}
