//! The text of the last place.

ghost use Rattle.std.specs.Prelude.{◌≡◌, ◌++◌, IfOk, OnOk, length};
ghost use Rattle.std.specs.Io.{StartsWith};
ghost use Rattle.std.specs.Option.{ForSome};
ghost use Rattle.rtps_lines.specs.Notice.{start_text};

use rtps_ascii::push_word;
use rtps_events::push_place;
use rtps_types::Place;
use std::alloc::{AllocError, Allocator};

/// The last place with its text, up to the rank of a reader, so that it need not be formatted again.
#[derive(Drop)]
pub(crate) struct LastStart<A: Allocator> {
    place: Option<Place>,
    text: Vec<u8, A>,
    ghost right: { ForSome place (λ p. text.items ≡ start_text p) },
}

impl<A: Allocator> LastStart<A> {
    /// Returns no place. No memory is taken.
    pub(crate) fn none(alloc: A) -> LastStart<A> {
        LastStart {
            place: None,
            text: Vec::new(alloc),
        }
    }

    /// Appends a place, and the word before the rank of a reader. Returns their length.
    pub(crate) fn push<B: Allocator>(
        &mut self,
        out: &mut Vec<u8, B>,
        place: Place,
    ) -> Result<usize, AllocError>
        ensures ok { OnOk result (out.new.items ≡ out.old.items ++ start_text place) }
        ensures length { IfOk result (λ n. n ≡ length (start_text place)) }
        ensures keeps { StartsWith out.new.items out.old.items }
    {
        if self.place != Some(place) {
            self.place = None;
            self.text.clear();
            push_place(&mut self.text, place)?;
            push_word(&mut self.text, " reader ")?;
            self.place = Some(place);
        }
        out.extend_from_slice(self.text.as_slice())?;
        Ok(self.text.len())
    }
}
