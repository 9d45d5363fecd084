//! Payloads as they are.

ghost use Rattle.std.specs.Prelude.{◌≡◌, Ok, IfOk, IsOkAnd, [], refl};
ghost use Rattle.rtps_ascii.specs.Hex.{hex_text};
ghost use Rattle.dds_topic.specs.RawMeaning.{RawMeaning, raw_view, raw_decoding, no_key};

use crate::{Catalog, CatalogError, TextCatalog};
use rtps_ascii::push_hex;
use rtps_types::KeyHash;
use std::alloc::{AllocError, Allocator, Global};

/// A body with its encapsulation kind.
#[derive(Debug, Drop)]
pub struct RawValue<A: Allocator = Global> {
    pub kind: u16,
    pub body: Vec<u8, A>,
}

/// The key hash of every value.
const NO_KEY: KeyHash = KeyHash([0; 16]);

/// A catalog that keeps every payload as it is. All its values are one instance, with a key of no
/// octets and a key hash of zeros.
#[derive(Clone, Copy, Debug)]
pub struct Raw;

/// Returns a copy of a body, with its kind.
pub fn raw_value<A: Allocator>(alloc: A, kind: u16, body: &[u8]) -> Result<RawValue<A>, AllocError>
    ensures { IfOk result (λ v. raw_view v ≡ record { kind = kind; body = body.now }) }
{
    let body = Vec::from_slice(alloc, body)?;
    Ok(RawValue { kind, body })
}

impl Catalog for Raw {
    type Value = RawValue;

    type Memo = ();

    ghost Meaning = { RawMeaning };

    ghost view = { raw_view };

    ghost decoding = { λ _. raw_decoding };

    ghost key = { λ _ _. [] };

    ghost text_of = { λ _ v. hex_text v.body };

    fn decode(&self, alloc: Global, kind: u16, body: &[u8]) -> Result<RawValue, CatalogError> {
        Ok(raw_value(alloc, kind, body)?)
    }

    fn decode_keyed(
        &self,
        _: &mut (),
        alloc: Global,
        kind: u16,
        body: &[u8],
    ) -> Result<(KeyHash, RawValue), CatalogError> {
        Ok((NO_KEY, raw_value(alloc, kind, body)?))
    }

    fn key_of(&self, _: Global, _: &RawValue) -> Result<KeyHash, AllocError>
        ensures { result ≡ Ok no_key }
    {
        Ok(NO_KEY)
    }

    fn key_payload(&self, alloc: Global, _: &RawValue) -> Result<Vec<u8>, AllocError>
        ensures { IsOkAnd result (λ v. v.items ≡ []) }
    {
        Ok(Vec::new(alloc))
    }

    fn key_of_payload(&self, _: Global, _: u16, _: &[u8]) -> Result<KeyHash, CatalogError>
        ensures { result ≡ Ok no_key }
    {
        Ok(NO_KEY)
    }

    ghost key_again = { λ c v. refl };
}

impl TextCatalog for Raw {
    fn push_text<A: Allocator>(
        &self,
        out: &mut Vec<u8, A>,
        value: &RawValue,
    ) -> Result<(), AllocError> {
        push_hex(out, value.body.as_slice())
    }

    fn text(&self, alloc: Global, value: &RawValue) -> Result<Vec<u8>, AllocError> {
        let mut out = Vec::new(alloc);
        self.push_text(&mut out, value)?;
        Ok(out)
    }

    fn has_same_text(&self, one: &RawValue, other: &RawValue) -> bool {
        one.body.as_slice() == other.body.as_slice()
    }
}
