//! A catalog that runs out of memory, for tests.

use crate::{Catalog, CatalogError, TextCatalog};
use rtps_types::KeyHash;
use std::alloc::{AllocError, Allocator, Global};
use std::sync::atomic::{AtomicU64, Ordering};

/// A catalog that reports out of memory for one value, and otherwise returns what another catalog
/// does. It tests how callers handle that error.
#[derive(Drop)]
pub struct FailingCatalog<C> {
    /// The catalog whose results are returned.
    pub catalog: C,
    /// The index of the value that fails, counted from 0 in the order of decoding.
    pub fails_at: u64,
    /// The number of values decoded so far, by all threads; 0 at first.
    pub decoded: AtomicU64,
}

impl<C: Catalog> Catalog for FailingCatalog<C> {
    type Value = C::Value;

    type Memo = C::Memo;

    ghost Meaning = { C.Meaning };

    ghost view = { C.view };

    ghost decoding = { λ s. C.decoding s.catalog };

    ghost key = { λ s. C.key s.catalog };

    ghost text_of = { λ s. C.text_of s.catalog };

    fn decode(&self, alloc: Global, kind: u16, body: &[u8]) -> Result<C::Value, CatalogError> {
        if self.decoded.fetch_add(1, Ordering::SeqCst) == self.fails_at {
            return Err(CatalogError::NoMemory);
        }
        self.catalog.decode(alloc, kind, body)
    }

    fn decode_keyed(
        &self,
        memo: &mut C::Memo,
        alloc: Global,
        kind: u16,
        body: &[u8],
    ) -> Result<(KeyHash, C::Value), CatalogError> {
        if self.decoded.fetch_add(1, Ordering::SeqCst) == self.fails_at {
            return Err(CatalogError::NoMemory);
        }
        self.catalog.decode_keyed(memo, alloc, kind, body)
    }

    fn key_of(&self, alloc: Global, value: &C::Value) -> Result<KeyHash, AllocError> {
        self.catalog.key_of(alloc, value)
    }

    fn key_payload(&self, alloc: Global, value: &C::Value) -> Result<Vec<u8>, AllocError> {
        self.catalog.key_payload(alloc, value)
    }

    fn key_of_payload(
        &self,
        alloc: Global,
        kind: u16,
        body: &[u8],
    ) -> Result<KeyHash, CatalogError> {
        self.catalog.key_of_payload(alloc, kind, body)
    }

    ghost key_again = { λ s v. C.key_again s.catalog v };
}

impl<C: TextCatalog> TextCatalog for FailingCatalog<C> {
    fn push_text<A: Allocator>(
        &self,
        out: &mut Vec<u8, A>,
        value: &C::Value,
    ) -> Result<(), AllocError> {
        self.catalog.push_text(out, value)
    }

    fn text(&self, alloc: Global, value: &C::Value) -> Result<Vec<u8>, AllocError> {
        self.catalog.text(alloc, value)
    }

    fn has_same_text(&self, one: &C::Value, other: &C::Value) -> bool {
        self.catalog.has_same_text(one, other)
    }
}
