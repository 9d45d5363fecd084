//! Laws of the definitions. Each is an empty function whose contract is the law.

ghost use Rattle.rtps_lines.specs.Shown.{LinesShow};

/// The text of a guid, a time and a locator in a line is the text that `Display` of `rtps_types`
/// shows, octet for octet. For a place, both use one definition.
pub fn lines_show_as_displayed()
    ensures { LinesShow }
{}
