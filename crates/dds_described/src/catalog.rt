//! A described type as a data type of readers.

ghost use Rattle.std.proofs.Common.{ap};
ghost use Rattle.rtps_types.specs.declared.field.Endian.TheVariants.{Big, Little};
ghost use Rattle.dds_xcdr.specs.TopicType.{topic_type};
ghost use Rattle.dds_described.specs.Decoding.{decoding_of, hash_in, kept_octets};
ghost use Rattle.dds_described.specs.Json.{text_of_kept};
ghost use Rattle.dds_described.specs.Kept.{Kept, kept};
ghost use Rattle.dds_described.specs.Key.{key_type};

use crate::hash::hash_of;
use crate::json::push_json;
use crate::{Described, DynamicData};
use dds_topic::{Catalog, CatalogError, TextCatalog};
use rtps_types::{Endian, KeyHash};
use std::alloc::{AllocError, Allocator, Global};

/// What is kept of a body are the octets of the value. The key of octets that are no value of the
/// type, as of a value that the catalog of another type has read, is that of the least value: 0,
/// false, and what is empty. So want of memory is the only error of a key.
impl Catalog for Described {
    type Value = DynamicData;

    type Memo = ();

    ghost Meaning = { Kept };

    ghost view = { kept };

    ghost decoding = { λ d. decoding_of (topic_type d.topic) };

    ghost key = { λ d k. kept_octets (topic_type d.topic) Little k };

    ghost text_of = { λ d k. text_of_kept (topic_type d.topic) k };

    fn decode(&self, alloc: Global, kind: u16, body: &[u8]) -> Result<DynamicData, CatalogError> {
        self.read(alloc, kind, body)
    }

    fn decode_keyed(
        &self,
        _: &mut (),
        alloc: Global,
        kind: u16,
        body: &[u8],
    ) -> Result<(KeyHash, DynamicData), CatalogError> {
        let value = self.read(alloc, kind, body)?;
        let hash = self.key_of(alloc, &value)?;
        Ok((hash, value))
    }

    fn key_of(&self, alloc: Global, value: &DynamicData) -> Result<KeyHash, AllocError> {
        let octets = self.key_octets(alloc, Endian::Big, value)?;
        Ok(hash_of(octets.as_slice(), self.has_short_key))
    }

    fn key_payload(&self, alloc: Global, value: &DynamicData) -> Result<Vec<u8>, AllocError> {
        self.key_octets(alloc, Endian::Little, value)
    }

    fn key_of_payload(
        &self,
        alloc: Global,
        kind: u16,
        body: &[u8],
    ) -> Result<KeyHash, CatalogError> {
        match self.payload_key_octets(alloc, Endian::Big, kind, body) {
            Ok(octets) => Ok(hash_of(octets.as_slice(), self.has_short_key)),
            Err(error) => Err(error),
        }
    }

    ghost key_again = { λ d v. ap (hash_in (key_type (topic_type d.topic)))
        (d.keeps_key.again Big (kept v) v.octets) };
}

/// A value is printed as JSON (RFC 8259): one value in ASCII without white space, with members and
/// enumerators by their names; `null` for octets that are no value of the type.
impl TextCatalog for Described {
    fn push_text<A: Allocator>(
        &self,
        out: &mut Vec<u8, A>,
        value: &DynamicData,
    ) -> Result<(), AllocError> {
        push_json(&self.topic, out, value)
    }

    fn text(&self, alloc: Global, value: &DynamicData) -> Result<Vec<u8>, AllocError> {
        let mut out = Vec::new(alloc);
        self.push_text(&mut out, value)?;
        Ok(out)
    }
}
