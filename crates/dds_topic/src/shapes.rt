//! The type of the Shapes demo.

ghost use Rattle.std.specs.Prelude.{◌≡◌, ◌≤◌, ◌++◌, ◌+◌, ◌^◌, ◌<◌, length, true, Ok, IfOk, IfSome, OnOk};
ghost use Rattle.std.specs.Str.{is_utf8};
ghost use Rattle.std.specs.Io.{StartsWith};
ghost use Rattle.rtps_cdr.specs.Cdr.{Text};
ghost use Rattle.rtps_cdr.specs.Reading.{text_in, value_of};
ghost use Rattle.rtps_cdr.specs.Writing.{written};
ghost use Rattle.dds_topic.specs.Answer.{Gives};
ghost use Rattle.dds_topic.specs.ShapeMeaning.{ShapeMeaning, shape_view, shape_in, shape_meaning, color_of, color_hash, color_key, shape_decoding, shape_hash_of_key, shape_text, behind_text, numbers_of};
ghost use Rattle.dds_topic.specs.ShapeLaw.{shape_key_again};

use crate::color::Color;
use crate::color_keys::ColorKeys;
use crate::encapsulation::byte_order;
use crate::{Catalog, CatalogError, Shape, TextCatalog, Unread};
use md5::{Digest, Md5};
use rtps_ascii::{push_hex, push_octet, push_signed};
use rtps_cdr::{CdrReader, CdrWriter};
use rtps_types::{Endian, KeyHash};
use std::alloc::{AllocError, Allocator, Global};

/// The catalog of the Shapes demo: `string<128> color` (the key), `long x`, `long y`,
/// `long shapesize`, in plain CDR of either byte order.
///
/// Octets after a value are ignored. A color of more than 128 octets is malformed. The maximum size
/// of the key is more than 16 octets, so its hash is the MD5 of its big-endian CDR, for short
/// colors too (DDSI-RTPS 9.6.4.8).
#[derive(Clone, Copy, Debug)]
pub struct Shapes;

/// The most octets of a color: the type is `string<128>`.
const COLOR_LIMIT: usize = 128;

/// Reads a color.
fn read_color<'a>(reader: &mut CdrReader<'a>) -> Result<&'a str, CatalogError>
    ensures color { Gives (λ s. s.now) result (color_of reader.old) }
    ensures moves { OnOk result (reader.new ≡ behind_text reader.old) }
    ensures short { IfOk result (λ s. length s.now ≤ 128) }
{
    let color = reader.read_string()?;
    if color.len() > COLOR_LIMIT {
        return Err(CatalogError::Unread(Unread::Malformed));
    }
    Ok(color)
}

/// Reads the octets of a string without its NUL, if it has one. They may be no UTF-8, and the
/// reader may be anywhere if there are none.
#[inline(always)]
fn read_text<'a>(reader: &mut CdrReader<'a>) -> Option<&'a [u8]>
    ensures { IfSome result (λ octets. is_utf8 octets.now ≡ true
        → (value_of (text_in reader.old) ≡ Ok octets.now) × (reader.new ≡ behind_text reader.old)) }
{
    let count = reader.read_u32().ok()?;
    let octets = reader.read_octets(count as usize).ok()?;
    if octets.is_empty() || octets[octets.len() - 1] != 0 {
        return None;
    }
    Some(&octets[..octets.len() - 1])
}

/// Reads the numbers after a color.
#[inline(always)]
fn read_numbers<A: Allocator>(
    color: Color<A>,
    reader: &mut CdrReader<'_>,
) -> Result<Shape<A>, CatalogError>
    requires short { length color ≤ 128 }
    requires utf8 { is_utf8 color ≡ true }
    ensures { Gives shape_view result (numbers_of color reader.old) }
{
    let x = reader.read_i32()?;
    let y = reader.read_i32()?;
    let size = reader.read_i32()?;
    Ok(Shape { color, x, y, size })
}

/// Reads a shape.
#[tactic(auto, unfolding(crate::specs::ShapeMeaning::shape_in), using(crate::proofs::Texts::utf8_test))]
pub fn read_shape<A: Allocator>(
    alloc: A,
    reader: &mut CdrReader<'_>,
) -> Result<Shape<A>, CatalogError>
    ensures { Gives shape_view result (shape_in reader.old) }
{
    let text = read_color(reader)?;
    let _octets = text.as_bytes();
    let color = Color::new(alloc, text)?;
    read_numbers(color, reader)
}

/// Returns the octets of a color as the body of a key payload.
pub fn key_octets<A: Allocator>(alloc: A, color: &str) -> Result<Vec<u8, A>, AllocError>
    requires { length color.now ≤ 128 }
    ensures { IfOk result (λ v. v.items ≡ color_key color.now) }
{
    let mut writer = CdrWriter::new(alloc, Endian::Little);
    writer.write_string(color)?;
    Ok(writer.finish())
}

/// Returns the key hash of a color: of its length, which counts its NUL, the color and the NUL.
pub(crate) fn hash_of(color: &str) -> KeyHash
    requires { length color.now ≤ 128 }
    ensures { result ≡ color_hash color.now }
{
    let mut hasher = Md5::new();
    hasher.update(&(color.len() as u32 + 1).to_be_bytes());
    hasher.update(color.as_bytes());
    hasher.update(&[0]);
    KeyHash(hasher.finalize())
}

/// Appends the text of a shape: its color in hex, its coordinates and its size.
fn push_shape<A: Allocator>(out: &mut Vec<u8, A>, shape: &Shape) -> Result<(), AllocError>
    ensures ok { OnOk result (out.new.items ≡ out.old.items ++ shape_text (shape_view shape.now)) }
    ensures keeps { StartsWith out.new.items out.old.items }
{
    push_hex(out, shape.color.as_str().as_bytes())?;
    push_octet(out, b' ')?;
    push_signed(out, shape.x)?;
    push_octet(out, b' ')?;
    push_signed(out, shape.y)?;
    push_octet(out, b' ')?;
    push_signed(out, shape.size)
}

impl Catalog for Shapes {
    type Value = Shape;

    type Memo = ColorKeys;

    ghost Meaning = { ShapeMeaning };

    ghost view = { shape_view };

    ghost decoding = { λ _. shape_decoding };

    ghost key = { λ _ s. color_key s.color };

    ghost text_of = { λ _ s. shape_text s };

    fn decode(&self, alloc: Global, kind: u16, body: &[u8]) -> Result<Shape, CatalogError> {
        let endian = byte_order(kind)?;
        read_shape(alloc, &mut CdrReader::new(body, endian))
    }

    #[tactic(auto, unfolding(crate::specs::ShapeMeaning::shape_in))]
    fn decode_keyed(
        &self,
        memo: &mut ColorKeys,
        alloc: Global,
        kind: u16,
        body: &[u8],
    ) -> Result<(KeyHash, Shape), CatalogError> {
        let endian = byte_order(kind)?;
        let mut reader = CdrReader::new(body, endian);
        if let Some(text) = read_text(&mut reader) {
            if let Some(key) = memo.known(text) {
                let color = key.color.copied(alloc)?;
                return Ok((key.hash, read_numbers(color, &mut reader)?));
            }
        }
        let shape = self.decode(alloc, kind, body)?;
        Ok((memo.add(alloc, &shape.color)?, shape))
    }

    fn key_of(&self, _: Global, value: &Shape) -> Result<KeyHash, AllocError>
        ensures { result ≡ Ok (color_hash value.now.color) }
    {
        Ok(hash_of(value.color.as_str()))
    }

    fn key_payload(&self, alloc: Global, value: &Shape) -> Result<Vec<u8>, AllocError> {
        key_octets(alloc, value.color.as_str())
    }

    fn key_of_payload(&self, _: Global, kind: u16, body: &[u8]) -> Result<KeyHash, CatalogError> {
        let endian = byte_order(kind)?;
        let color = read_color(&mut CdrReader::new(body, endian))?;
        Ok(hash_of(color))
    }

    ghost key_again = { λ _ v. shape_key_again v };
}

impl TextCatalog for Shapes {
    fn push_text<A: Allocator>(
        &self,
        out: &mut Vec<u8, A>,
        value: &Shape,
    ) -> Result<(), AllocError> {
        push_shape(out, value)
    }

    fn text(&self, alloc: Global, value: &Shape) -> Result<Vec<u8>, AllocError> {
        let mut out = Vec::new(alloc);
        self.push_text(&mut out, value)?;
        Ok(out)
    }

    fn has_same_text(&self, one: &Shape, other: &Shape) -> bool {
        one.x == other.x
            && one.y == other.y
            && one.size == other.size
            && one.color.as_str() == other.color.as_str()
    }
}
