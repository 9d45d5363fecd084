//! Strings that can be part of a key.

ghost use Rattle.std.specs.Prelude.{◌≡◌, ◌<◌, ◌+◌, ◌-◌, ◌^◌, length, nat_le, true};
ghost use Rattle.std.specs.Str.{is_utf8};
ghost use Rattle.std.specs.String.{string_bytes};
ghost use Rattle.rtps_cdr.specs.Cdr.{Text as TextType};

use crate::Member;
use dds_topic::CatalogError;
use rtps_cdr::CdrReader;
use std::alloc::Global;

/// The least length that is too long: the representation counts a string and its NUL in 32 bits.
const TOO_LONG: usize = 0xffff_ffff;

/// A string that is known to be short enough to be written again, as a key has to be.
#[derive(Debug, Drop)]
pub struct Text {
    text: String,
    ghost short: { length (string_bytes text) + 1 < 2 ^ 32 },
    ghost utf8: { is_utf8 (string_bytes text) ≡ true },
}

impl Text {
    /// Returns the string.
    pub fn as_str(&self) -> &str
        ensures { result.now ≡ string_bytes self.now.text }
    {
        self.text.as_str()
    }
}

/// Whether the length of a string, with its NUL, doesn't fit in 32 bits.
fn is_too_long(text: &str) -> bool
    ensures { result ≡ nat_le (2 ^ 32 - 1) (length text.now) }
{
    text.len() >= TOO_LONG
}

impl Member for Text {
    ghost cdr = { TextType };

    ghost view = { λ t. string_bytes t.text };

    #[tactic(auto, using(crate::proofs::Texts::utf8_test))]
    fn read(alloc: Global, reader: &mut CdrReader<'_>) -> Result<Text, CatalogError> {
        let text = reader.read_string()?;
        let _octets = text.as_bytes();
        if is_too_long(text) {
            return Err(CatalogError::NoMemory);
        }
        Ok(Text {
            text: String::from_str(alloc, text)?,
        })
    }
}
