//! Laws of the definitions. Each is an empty function whose contract is the law.

ghost use Rattle.std.specs.Prelude.{◌≡◌, ◌≤◌, ◌∷◌, ◌++◌, ℕ, List, filter, length};
ghost use Rattle.rtps_types.specs.declared.identity.KeyHash.{KeyHash};
ghost use Rattle.rtps_reader.specs.declared.notice.Notice.{Notice};
ghost use Rattle.dds_cache.specs.declared.condition.Condition.{Condition};
ghost use Rattle.dds_cache.specs.declared.history.History.TheVariants.{KeepLast};
ghost use Rattle.dds_cache.specs.Cache.{cached, entry_by, is_of, with_entry};
ghost use Rattle.dds_cache.specs.Calls.{Accepted, Done, WasRead, WasTaken};
ghost use Rattle.dds_cache.specs.declared.entry.Entry.{Entry};
ghost use Rattle.dds_cache.specs.Dropped.{AreOlder, dropped_of};
ghost use Rattle.dds_cache.specs.Chart.{has_other, state_after};
ghost use Rattle.dds_cache.specs.Instances.{is_end, state_of, told_about};
ghost use Rattle.dds_cache.specs.Parted.{AreParts, IsLeftOrTaken};

/// After any history, a notice changes the state of each instance as the state chart of the
/// standard says (DDS 1.4, 2.2.2.5.1.3). A value makes the instance alive. A disposal makes it
/// disposed. An alive instance has no writers once its last live writer goes, by an unregistration
/// or by the end of its match. Nothing else changes the state, not even a read or a take.
#[tactic(auto, using(crate::proofs::Charting::states_follow))]
pub fn states_step<V>()
    ensures accepted { (past : List (Done V)) (n : Notice V) (k : KeyHash)
        → state_of (Accepted n ∷ past) k ≡ state_after (told_about k n.what) (is_end n.what)
        (has_other past k n.writer) (state_of past k) }
    ensures read { (past : List (Done V)) (max : ℕ) (flags : Condition) (k : KeyHash)
        → state_of (WasRead max flags ∷ past) k ≡ state_of past k }
    ensures taken { (past : List (Done V)) (max : ℕ) (flags : Condition) (k : KeyHash)
        → state_of (WasTaken max flags ∷ past) k ≡ state_of past k }
{}

/// If all entries are kept, each accepted value and disposal is either still in the cache or was
/// taken, exactly once, and those still there are in order of acceptance. If the last `n` of an
/// instance are kept, no instance has more than `n`. As a notice is accepted, the entries dropped
/// and those that stay are together the entries before and the notice's own, and each entry dropped
/// from an instance was accepted before all that the instance still has.
pub fn kept_or_taken<V>()
    ensures all { (past : List (Done V)) → IsLeftOrTaken past }
    ensures most { (n : ℕ) (past : List (Done V)) (k : KeyHash)
        → length (filter (is_of k) (cached (KeepLast n) past).entries) ≤ n }
    ensures left { (n : ℕ) (a : Notice V) (es : List (Entry V))
        → let entry = entry_by a.place a.writer a.what in
        AreParts (es ++ entry) (with_entry (KeepLast n) es entry) (dropped_of n es entry) }
    ensures older { (n : ℕ) (past : List (Done V)) (k : KeyHash) → AreOlder n past k }
{}
