//! Laws of the definitions. Each is a function that does nothing, whose contract is the law.

ghost use Rattle.std.specs.Prelude.{◌≡◌, ℕ, List, None, Option, Some};
ghost use Rattle.std.specs.List.{last_or};
ghost use mathlib.Core.List.{IsPrefix};
ghost use Rattle.dds_outlet.specs.declared.row.Look.{Look};
ghost use Rattle.dds_outlet.specs.declared.row.RowView.{RowView};
ghost use Rattle.dds_outlet.specs.Ends.{Looks, NotBefore};
ghost use Rattle.dds_outlet.specs.Rows.{look_at};

/// What a reader knows only grows as it looks; a status that a look shows is that of the last row
/// which is known after it; and of two looks the second shows no row before that of the first, nor,
/// as the reader learnt what was published up to some moment, one before the last of that.
pub fn looks_go_on()
    ensures later { (before after : List RowView) (rank : ℕ) (look : Option Look)
        → Looks before after rank look → IsPrefix before after }
    ensures shows { (before after : List RowView) (rank : ℕ) (shown : Look)
        → Looks before after rank (Some shown)
        → (row : RowView) × (last_or None after ≡ Some row) × (look_at row rank ≡ Some shown) }
    ensures twice { (known learnt start between after : List RowView) (rank : ℕ)
        (first second : Option Look) → IsPrefix known start → IsPrefix learnt start
        → Looks start between rank first → Looks between after rank second
        → NotBefore known learnt rank first second after × IsPrefix known after
        × IsPrefix learnt after }
{}
