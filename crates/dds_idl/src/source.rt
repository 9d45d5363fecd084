//! Texts to be read.

/// A text in IDL.
#[derive(Clone, Copy, Debug)]
pub struct Source<'a> {
    /// The name of its file, by which `#include` finds it and faults blame it.
    pub name: &'a str,
    /// Its octets, which should be UTF-8.
    pub text: &'a [u8],
}
