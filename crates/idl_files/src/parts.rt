//! Names with commas between them.

ghost use Rattle.std.specs.Prelude.{◌≡◌, option_map};
ghost use Rattle.idl_files.specs.Parts.{parts_of, parts_with};

/// Takes a text apart at its first comma: what comes before it, and if there is one what comes after
/// it.
pub(crate) fn first_part(text: &str) -> (&str, Option<&str>)
    ensures { parts_of text.entry.now
        ≡ parts_with result.0.now (option_map (λ rest. rest.now) result.1) }
{
    match text.split_once(',') {
        Some((first, rest)) => (first, Some(rest)),
        None => (text, None),
    }
}
