//! A catalog with its memo.

ghost use Rattle.std.specs.Prelude.{◌≡◌, IfOk};
ghost use Rattle.dds_topic.specs.Answer.{Gives};

use crate::{Catalog, CatalogError, TextCatalog};
use rtps_types::KeyHash;
use std::alloc::{AllocError, Allocator, Global};
use std::marker::Model;

/// A catalog with what it keeps from one value to the next.
///
/// The owner lends it to each reader in turn. Readers on several threads need one decoder for each
/// thread; these can borrow one catalog, since a `&C` is a catalog too.
#[derive(Drop)]
pub struct Decoder<C: Catalog> {
    catalog: C,
    memo: C::Memo,
    /// The allocator of values.
    alloc: Global,
}

impl<C: Catalog> Model for Decoder<C> {
    ghost Value = { C };

    ghost view = { λ d. d.catalog };
}

impl<C: Catalog> Decoder<C> {
    /// Returns a decoder with an empty memo, whose values are allocated from `alloc`.
    pub fn new(alloc: Global, catalog: C) -> Decoder<C>
        ensures { result ≡ catalog }
    {
        Decoder {
            catalog,
            memo: C::Memo::default(),
            alloc,
        }
    }

    /// Returns the catalog.
    pub fn catalog(&self) -> &C
        ensures { result.now ≡ self.now }
    {
        &self.catalog
    }

    /// Returns the value of a body with this encapsulation kind, and the hash of its key. The
    /// errors are those of [`Catalog::decode`].
    #[inline(always)]
    pub fn decode(&mut self, kind: u16, body: &[u8]) -> Result<(KeyHash, C::Value), CatalogError>
        ensures value { Gives (λ keyed. C.view keyed.1) result
            ((C.decoding self.old).meaning kind body.now) }
        ensures key { IfOk result (λ keyed.
            keyed.0 ≡ (C.decoding self.old).hash (C.view keyed.1)) }
        ensures same { self.new ≡ self.old }
    {
        self.catalog
            .decode_keyed(&mut self.memo, self.alloc, kind, body)
    }

    /// Returns the hash of the key in the body of a key payload. The errors are those of
    /// [`Catalog::key_of_payload`].
    pub fn key_of_payload(&self, kind: u16, body: &[u8]) -> Result<KeyHash, CatalogError>
        ensures { Gives (λ h. h) result ((C.decoding self.now).hash_of_key kind body.now) }
    {
        self.catalog.key_of_payload(self.alloc, kind, body)
    }
}

impl<'c, C: Catalog> Catalog for &'c C {
    type Value = C::Value;

    type Memo = C::Memo;

    ghost Meaning = { C.Meaning };

    ghost view = { C.view };

    ghost decoding = { λ c. C.decoding c.now };

    ghost key = { λ c. C.key c.now };

    ghost text_of = { λ c. C.text_of c.now };

    fn decode(&self, alloc: Global, kind: u16, body: &[u8]) -> Result<C::Value, CatalogError> {
        (**self).decode(alloc, kind, body)
    }

    #[inline(always)]
    fn decode_keyed(
        &self,
        memo: &mut C::Memo,
        alloc: Global,
        kind: u16,
        body: &[u8],
    ) -> Result<(KeyHash, C::Value), CatalogError> {
        (**self).decode_keyed(memo, alloc, kind, body)
    }

    fn key_of(&self, alloc: Global, value: &C::Value) -> Result<KeyHash, AllocError> {
        (**self).key_of(alloc, value)
    }

    fn key_payload(&self, alloc: Global, value: &C::Value) -> Result<Vec<u8>, AllocError> {
        (**self).key_payload(alloc, value)
    }

    fn key_of_payload(
        &self,
        alloc: Global,
        kind: u16,
        body: &[u8],
    ) -> Result<KeyHash, CatalogError> {
        (**self).key_of_payload(alloc, kind, body)
    }

    ghost key_again = { λ c v. C.key_again c.now v };
}

impl<'c, C: TextCatalog> TextCatalog for &'c C {
    fn push_text<A: Allocator>(
        &self,
        out: &mut Vec<u8, A>,
        value: &C::Value,
    ) -> Result<(), AllocError> {
        (**self).push_text(out, value)
    }

    fn text(&self, alloc: Global, value: &C::Value) -> Result<Vec<u8>, AllocError> {
        (**self).text(alloc, value)
    }

    fn has_same_text(&self, one: &C::Value, other: &C::Value) -> bool {
        (**self).has_same_text(one, other)
    }
}
