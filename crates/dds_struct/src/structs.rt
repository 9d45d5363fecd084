//! The catalog of a struct.

ghost use Rattle.std.specs.Prelude.{◌≡◌, ℕ, List, IfOk};
ghost use Rattle.dds_topic.specs.Answer.{Gives};
ghost use Rattle.rtps_cdr.specs.Cdr.{ValueOf};
ghost use Rattle.rtps_cdr.specs.Writing.{written};
ghost use Rattle.rtps_types.specs.declared.field.Endian.TheVariants.{Big};
ghost use Rattle.dds_struct.specs.Key.{is_short, key_hash, hash_of_octets};
ghost use Rattle.dds_struct.specs.Decoded.{decoding_of, key_body};
ghost use Rattle.dds_struct.specs.KeyLaw.{key_again};

use crate::Structure;
use dds_topic::{Catalog, CatalogError, TextCatalog, byte_order};
use md5::{Digest, Md5};
use rtps_cdr::{CdrReader, CdrWriter};
use rtps_types::{Endian, KeyHash};
use std::alloc::{AllocError, Allocator, Global};
use std::marker::PhantomData;

/// The catalog of a struct, in plain CDR of either byte order. Octets after a value are ignored.
#[derive(Drop)]
pub struct Structs<S: Structure> {
    of: PhantomData<S>,
}

impl<S: Structure> Structs<S> {
    /// Returns the catalog of this struct.
    pub fn new() -> Structs<S> {
        Structs { of: PhantomData }
    }
}

/// Returns the key hash for the octets of a key in big-endian CDR (DDSI-RTPS 9.6.4.8).
fn hash_of(octets: &[u8], is_short: bool) -> KeyHash
    ensures { result ≡ hash_of_octets is_short octets.now }
{
    if !is_short {
        return KeyHash(Md5::digest(octets));
    }
    let mut hash = [0; 16];
    let count = octets.len().min(hash.len());
    hash[..count].copy_from_slice(&octets[..count]);
    KeyHash(hash)
}

impl<S: Structure + Send + Sync> Catalog for Structs<S> {
    type Value = S;

    type Memo = ();

    ghost Meaning = { ValueOf S.cdr };

    ghost view = { S.view };

    ghost decoding = { λ _. decoding_of S.cdr S.key_cdr S.key };

    ghost key = { λ _ v. key_body S.key_cdr (S.key v) };

    ghost text_of = { λ _ v. S.text v };

    fn decode(&self, alloc: Global, kind: u16, body: &[u8]) -> Result<S, CatalogError> {
        let endian = byte_order(kind)?;
        S::read(alloc, &mut CdrReader::new(body, endian))
    }

    fn decode_keyed(
        &self,
        _: &mut (),
        alloc: Global,
        kind: u16,
        body: &[u8],
    ) -> Result<(KeyHash, S), CatalogError> {
        let value = self.decode(alloc, kind, body)?;
        let hash = self.key_of(alloc, &value)?;
        Ok((hash, value))
    }

    fn key_of(&self, alloc: Global, value: &S) -> Result<KeyHash, AllocError> {
        let mut writer = CdrWriter::new(alloc, Endian::Big);
        value.write_key(&mut writer)?;
        Ok(hash_of(&writer.finish(), S::key_is_short()))
    }

    fn key_payload(&self, alloc: Global, value: &S) -> Result<Vec<u8>, AllocError> {
        let mut writer = CdrWriter::new(alloc, Endian::Little);
        value.write_key(&mut writer)?;
        Ok(writer.finish())
    }

    fn key_of_payload(
        &self,
        alloc: Global,
        kind: u16,
        body: &[u8],
    ) -> Result<KeyHash, CatalogError> {
        let endian = byte_order(kind)?;
        let mut writer = CdrWriter::new(alloc, Endian::Big);
        S::copy_key(alloc, &mut CdrReader::new(body, endian), &mut writer)?;
        Ok(hash_of(&writer.finish(), S::key_is_short()))
    }

    ghost key_again = { λ _ v. key_again S.key_cdr (S.key (S.view v)) S.key_is_plain (S.key_fits v) };
}

impl<S: Structure + Send + Sync> TextCatalog for Structs<S> {
    fn push_text<A: Allocator>(&self, out: &mut Vec<u8, A>, value: &S) -> Result<(), AllocError> {
        value.push_text(out)
    }

    fn text(&self, alloc: Global, value: &S) -> Result<Vec<u8>, AllocError> {
        let mut out = Vec::new(alloc);
        value.push_text(&mut out)?;
        Ok(out)
    }
}
