//! The words of a text.

/// What a word is (IDL 4.2, 7.2).
#[derive(Clone, Copy, Debug, PartialEq, Eq)]
pub(crate) enum Kind {
    /// A name or a keyword: letters, digits and `_`, of which the first is no digit.
    Name,
    /// A number: a digit, and the letters, digits, `_` and `.` that follow it.
    Number,
    /// A string literal, with its quotes.
    Text,
    /// A character literal, with its quotes.
    Character,
    /// `::`.
    Scope,
    /// One other character.
    Mark,
    /// Nothing, at the end of a text.
    End,
}

/// A word, and what comes before it.
#[derive(Clone, Copy, Debug)]
pub(crate) struct Word<'a> {
    pub(crate) kind: Kind,
    /// The blanks and comments between the word before and this one.
    pub(crate) gap: &'a str,
    pub(crate) text: &'a str,
    /// The offset of its first octet.
    pub(crate) at: usize,
}
