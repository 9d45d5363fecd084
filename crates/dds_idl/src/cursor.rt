//! Going along words.

use crate::IdlFault;
use crate::keywords::is_keyword;
use crate::word::{Kind, Word};
use crate::words::Fault;

/// Words, of which those before a place were taken.
#[derive(Drop)]
pub(crate) struct Cursor<'w> {
    words: &'w [Word<'w>],
    at: usize,
}

impl<'w> Cursor<'w> {
    pub(crate) fn new(words: &'w [Word<'w>]) -> Cursor<'w> {
        Cursor { words, at: 0 }
    }

    /// Returns how many words there are, which bounds the steps of each loop over them.
    pub(crate) fn len(&self) -> usize {
        self.words.len()
    }

    /// Returns the next word. At the end of the text it stays the word for that.
    pub(crate) fn word(&self) -> Word<'w> {
        match self.words.get(self.at) {
            Some(word) => *word,
            None => Word {
                kind: Kind::End,
                gap: "",
                text: "",
                at: 0,
            },
        }
    }

    /// Takes the next word.
    pub(crate) fn advance(&mut self) {
        if self.at < self.words.len() {
            self.at += 1;
        }
    }

    /// Whether the next word has a spelling.
    pub(crate) fn is(&self, spelling: &str) -> bool {
        self.word().text == spelling
    }

    /// Whether the next word and the one after it have one spelling, with nothing between them.
    pub(crate) fn is_doubled(&self) -> bool {
        match self.words.get(self.at..) {
            Some([first, second, ..]) => second.gap.is_empty() && second.text == first.text,
            _ => false,
        }
    }

    /// Takes the next word if it has a spelling, and returns whether it has.
    pub(crate) fn take(&mut self, spelling: &str) -> bool {
        let is = self.is(spelling);
        if is {
            self.advance();
        }
        is
    }

    /// Returns a fault at the next word.
    pub(crate) fn fault(&self, what: IdlFault) -> Fault {
        Fault {
            at: self.word().at,
            what,
        }
    }

    /// Takes a word of a spelling. `Unexpected` if the next word isn't that.
    pub(crate) fn want(&mut self, spelling: &str) -> Result<(), Fault> {
        if self.take(spelling) {
            Ok(())
        } else {
            Err(self.fault(IdlFault::Unexpected))
        }
    }

    /// Takes a name, and returns it without the `_` that escapes it (IDL 4.2, 7.2.3.2). `NoName`
    /// if the next word is none.
    pub(crate) fn name(&mut self) -> Result<&'w str, Fault> {
        let word = self.word();
        if word.kind != Kind::Name || is_keyword(word.text) {
            return Err(self.fault(IdlFault::NoName));
        }
        self.advance();
        match word.text.strip_prefix('_') {
            Some(name) => Ok(name),
            None => Ok(word.text),
        }
    }
}
