//! Blanks and comments.

ghost use Rattle.std.specs.Prelude.{◌≡◌, ◌≤◌, length, slice_index};
ghost use Rattle.dds_idl.specs.Gap.{behind, gap, is_gap};
ghost use Rattle.dds_idl.specs.declared.gap.Within.TheVariants as within;

/// What an octet is within.
#[derive(Clone, Copy, Debug, PartialEq, Eq)]
pub(crate) enum Within {
    /// No comment.
    Code,
    /// A comment that ends with the line.
    Line,
    /// The start of a comment that `*/` ends, after its first octet.
    Opening,
    /// A comment that `*/` ends.
    Block,
    /// The end of such a comment, before its last octet.
    Closing,
}

/// The blanks and comments at the front of a text.
#[derive(Clone, Copy, Debug)]
pub(crate) struct Gap {
    /// How many octets they have.
    pub(crate) len: usize,
    /// Whether the text ends within a comment that wants a `*/`.
    pub(crate) is_open: bool,
}

/// Whether an octet belongs to a gap. `next` is the octet after it, and 0 at the end of the text.
fn is_gap(within: Within, octet: u8, next: u8) -> bool
    ensures { result ≡ is_gap within octet next }
{
    match within {
        Within::Code => {
            if octet == b'/' {
                next == b'/' || next == b'*'
            } else {
                octet.is_ascii_whitespace()
            }
        }
        Within::Line | Within::Opening | Within::Block | Within::Closing => true,
    }
}

/// Returns what comes after an octet that belongs to a gap.
fn behind(within: Within, octet: u8, next: u8) -> Within
    ensures { result ≡ behind within octet next }
{
    match within {
        Within::Code => {
            if octet != b'/' {
                Within::Code
            } else if next == b'/' {
                Within::Line
            } else {
                Within::Opening
            }
        }
        Within::Line => {
            if octet == b'\n' {
                Within::Code
            } else {
                Within::Line
            }
        }
        Within::Opening => Within::Block,
        Within::Block => {
            if octet == b'*' && next == b'/' {
                Within::Closing
            } else {
                Within::Block
            }
        }
        Within::Closing => Within::Code,
    }
}

/// Returns the first octet of a text, and 0 if it has none.
pub(crate) fn first_octet(text: &[u8]) -> u8
    ensures { result ≡ slice_index text.now 0 }
{
    match text.first() {
        Some(octet) => *octet,
        None => 0,
    }
}

/// Returns the blanks and comments at the front of a text.
pub(crate) fn gap_of(text: &[u8]) -> Gap
    ensures len { result.len ≡ gap within.Code text.now }
    ensures bound { result.len ≤ length text.now }
{
    let mut within = Within::Code;
    let mut left = text;
    let mut len: usize = 0;
    while let Some((octet, rest)) = left.split_first() {
        let next = first_octet(rest);
        if !is_gap(within, *octet, next) {
            break;
        }
        within = behind(within, *octet, next);
        left = rest;
        len += 1;
    }
    Gap {
        len,
        is_open: matches!(within, Within::Opening | Within::Block),
    }
}
