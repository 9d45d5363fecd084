//! The interface of a data type.

ghost use Rattle.std.specs.Prelude.{◌≡◌, ◌++◌, ℕ, List, Ok, IfOk, OnOk, true};
ghost use Rattle.std.specs.Io.{StartsWith};
ghost use Rattle.dds_topic.specs.Answer.{Gives};
ghost use Rattle.dds_topic.specs.Decoding.{Decoding};

use crate::CatalogError;
use rtps_types::KeyHash;
use std::alloc::{AllocError, Allocator, Global};

/// A data type: how its payloads are decoded, and which key identifies its instances.
///
/// Unless memory runs out, each result is a function of the input. The catalog names these
/// functions: what a body means and the key hashes (`decoding`), and the octets of a value's key
/// (`key`). Values with the same meaning count as the same.
///
/// A body is the data after the four octets of the encapsulation header, and `kind` is the first
/// two octets of that header, big-endian (DDSI-RTPS 10.2): 0 is CDR_BE, 1 is CDR_LE.
///
/// ```text
/// impl Catalog for Sensors {
///     type Value = Sensor;
///     type Memo = ();
///     fn decode(&self, _: Global, kind: u16, body: &[u8]) -> Result<Sensor, CatalogError> {
///         let mut reader = CdrReader::new(body, byte_order(kind)?);
///         let (station, value) = (reader.read_u32()?, reader.read_i32()?);
///         Ok(Sensor { station, value })
///     }
///     // Then the other four functions, for the key, and what each result means.
/// }
/// ```
pub trait Catalog: Send + Sync + Drop {
    /// A value of the type.
    type Value: Send + Drop;

    /// What is kept from one value to the next, to decode a value with a known key faster; `()` if
    /// nothing is kept.
    type Memo: Default + Send + Drop;

    // The meaning of a value.
    ghost Meaning: { Type 0 };

    ghost view: { Self.Value → Meaning };

    // The meanings of bodies, and the key hashes.
    ghost decoding: { Self → Decoding Meaning };

    // The octets of a value's key.
    ghost key: { Self → Meaning → List ℕ };

    // The text of a value, if the catalog prints.
    ghost text_of: { Self → Meaning → List ℕ };

    /// Returns the value of a body.
    ///
    /// The error says why there is none: `Encapsulation` for a kind that isn't decoded, whatever
    /// the body, and `Malformed` for octets that are no value of the type.
    fn decode(&self, alloc: Global, kind: u16, body: &[u8]) -> Result<Self::Value, CatalogError>
        ensures { Gives view result ((decoding self.now).meaning kind body.now) };

    /// Returns the value of a body and the hash of its key, with the memo of earlier values: it may
    /// make this faster, and changes no result. The errors are those of [`Catalog::decode`].
    fn decode_keyed(
        &self,
        memo: &mut Self::Memo,
        alloc: Global,
        kind: u16,
        body: &[u8],
    ) -> Result<(KeyHash, Self::Value), CatalogError>
        ensures value { Gives (λ keyed. view keyed.1) result
            ((decoding self.now).meaning kind body.now) }
        ensures key { IfOk result (λ keyed.
            keyed.0 ≡ (decoding self.now).hash (view keyed.1)) };

    /// Returns the hash of the value's key (DDSI-RTPS 9.6.4.8).
    fn key_of(&self, alloc: Global, value: &Self::Value) -> Result<KeyHash, AllocError>
        ensures { IfOk result (λ h. h ≡ (decoding self.now).hash (view value.now)) };

    /// Returns the value's key as the body of a key payload: little-endian, without encapsulation
    /// header.
    fn key_payload(&self, alloc: Global, value: &Self::Value) -> Result<Vec<u8>, AllocError>
        ensures { IfOk result (λ v. v.items ≡ key self.now (view value.now)) };

    /// Returns the hash of the key in the body of a key payload. The errors are those of
    /// [`Catalog::decode`].
    fn key_of_payload(&self, alloc: Global, kind: u16, body: &[u8]) -> Result<KeyHash, CatalogError>
        ensures { Gives (λ h. h) result ((decoding self.now).hash_of_key kind body.now) };

    // The key payload of a value has the value's key hash.
    ghost key_again: { (c : Self) (v : Self.Value) → (decoding c).hash_of_key 1 (key c (view v))
        ≡ Ok ((decoding c).hash (view v)) };
}

/// A catalog whose values can be printed.
pub trait TextCatalog: Catalog {
    /// Appends the text of the value for a line of output, in ASCII and without a line end.
    fn push_text<A: Allocator>(
        &self,
        out: &mut Vec<u8, A>,
        value: &Self::Value,
    ) -> Result<(), AllocError>
        ensures ok { OnOk result (out.new.items ≡ out.old.items
            ++ Self.text_of self.now (Self.view value.now)) }
        ensures keeps { StartsWith out.new.items out.old.items };

    /// Returns the text of the value.
    fn text(&self, alloc: Global, value: &Self::Value) -> Result<Vec<u8>, AllocError>
        ensures { IfOk result (λ v. v.items ≡ Self.text_of self.now (Self.view value.now)) };

    /// Whether two values are known to have the same text, so that the second one need not be
    /// formatted. The answer `false`, which is the one of a catalog that has no such function, says
    /// nothing about the texts.
    fn has_same_text(&self, one: &Self::Value, other: &Self::Value) -> bool
        ensures { result ≡ true → Self.text_of self.now (Self.view one.now)
            ≡ Self.text_of self.now (Self.view other.now) }
    {
        false
    }
}
