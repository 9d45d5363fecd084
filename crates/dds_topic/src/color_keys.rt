//! The key hashes of recent colors.

ghost use Rattle.std.specs.Prelude.{◌≡◌, ◌<◌, ◌≤◌, length, true, IfOk, IfSome};
ghost use Rattle.std.specs.Str.{is_utf8};
ghost use Rattle.dds_topic.specs.ShapeMeaning.{color_hash};

use crate::color::Color;
use crate::shapes::hash_of;
use rtps_types::KeyHash;
use std::alloc::{AllocError, Global};

/// The number of colors that are kept.
const PLACES: usize = 16;

/// A color and its key hash.
#[derive(Debug, Drop)]
pub(crate) struct ColorKey {
    pub color: Color,
    pub hash: KeyHash,
    ghost right: { hash ≡ color_hash color },
    ghost short: { length color ≤ 128 },
    ghost utf8: { is_utf8 color ≡ true },
}

/// Recent colors with their key hashes, so that a known color is neither hashed nor tested for
/// UTF-8 again. The places are a ring. A color is put at its own place or, if that is taken, at the
/// first free one of the seven places after it. If all eight are taken, it replaces the color at
/// its own place.
#[derive(Debug, Drop)]
pub struct ColorKeys {
    known: [Option<ColorKey>; PLACES],
}

impl Default for ColorKeys {
    fn default() -> ColorKeys {
        ColorKeys {
            known: [
                None, None, None, None, None, None, None, None, None, None, None, None, None, None,
                None, None,
            ],
        }
    }
}

impl ColorKeys {
    /// Returns the color with these octets, if it is known.
    #[inline(always)]
    pub(crate) fn known(&self, octets: &[u8]) -> Option<&ColorKey>
        ensures { IfSome result (λ key. key.now.color ≡ octets.now) }
    {
        let place = place_of(octets);
        for step in 0..PLACES / 2 {
            match &self.known[(place + step) % PLACES] {
                Some(key) if key.color.as_str().as_bytes() == octets => return Some(key),
                Some(_) => {}
                None => return None,
            }
        }
        None
    }

    /// Keeps a color, and returns its key hash.
    pub(crate) fn add(&mut self, alloc: Global, color: &Color) -> Result<KeyHash, AllocError>
        requires short { length color.now ≤ 128 }
        requires utf8 { is_utf8 color.now ≡ true }
        ensures { IfOk result (λ h. h ≡ color_hash color.now) }
    {
        let hash = hash_of(color.as_str());
        let place = place_of(color.as_str().as_bytes());
        let color = color.copied(alloc)?;
        let mut free = place;
        for step in 0..PLACES / 2 {
            if self.known[(place + step) % PLACES].is_none() {
                free = place + step;
                break;
            }
        }
        self.known[free % PLACES] = Some(ColorKey { color, hash });
        Ok(hash)
    }
}

/// Returns the place of the color with these octets. The eight colors of the Shapes demo have a
/// place each.
#[inline(always)]
fn place_of(octets: &[u8]) -> usize
    ensures { result < 16 }
{
    let first = octets.first().copied().unwrap_or(0);
    let last = octets.last().copied().unwrap_or(0);
    (usize::from(first) + usize::from(last) + 4 * (octets.len() % PLACES)) % PLACES
}
