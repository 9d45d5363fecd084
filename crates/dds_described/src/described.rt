//! Topics of described types.

ghost use Rattle.std.specs.Prelude.{◌≡◌, ◌↔◌, ℕ, List, None, Err, IfOk, IsErrOf, Ok};
ghost use Rattle.dds_topic.specs.Answer.{Gives};
ghost use Rattle.dds_topic.specs.declared.unread.CatalogError.TheVariants as errors;
ghost use Rattle.dds_topic.specs.declared.unread.Unread.TheVariants as unread;
ghost use Rattle.dds_xcdr.specs.Topic.{form_of};
ghost use Rattle.dds_xcdr.specs.TopicType.{topic_type};
ghost use Rattle.dds_described.specs.Decoded.{payload_key, value_key};
ghost use Rattle.dds_described.specs.Decoding.{KeepsKey, body_kept, kept_octets};
ghost use Rattle.dds_described.specs.Hash.{is_short};
ghost use Rattle.dds_described.specs.Kept.{IsKept, Kept, kept};
ghost use Rattle.dds_described.specs.Key.{is_keyed, key_of, key_type};
ghost use Rattle.dds_described.specs.Least.{least};
ghost use Rattle.dds_described.specs.Writing.{written};

use crate::DynamicData;
use crate::copier::Copier;
use crate::hash::key_is_short;
use crate::keys::{copy_payload_key, copy_topic_key, is_keyed};
use crate::least::least_octets;
use dds_topic::{CatalogError, Unread};
use dds_xcdr::{Form, TopicType, Version};
use rtps_types::Endian;
use std::alloc::{AllocError, Global};

/// A topic whose type is described at run time. It is a [`Catalog`](dds_topic::Catalog), so that
/// readers take it.
///
/// # Example
///
/// ```
/// // struct Pose { @key string<8> frame; double at[3]; }, as in the example of `Types`.
/// let poses = Described::new(TopicType::new(types, pose)?);
/// let value = poses.decode(alloc, 7, body.as_slice())?; // A body of kind CDR2_LE.
/// let key = poses.key_payload(alloc, &value)?;
/// assert!(rt; key.as_slice() == b"\x02\0\0\0a\0".as_slice());
/// ```
#[derive(Drop)]
pub struct Described {
    pub(crate) topic: TopicType,
    /// Whether no key has more than 16 octets.
    pub(crate) has_short_key: bool,
    ghost short: { has_short_key ≡ is_short (key_type (topic_type topic)) },
    // What the law of a catalog needs of the type: proved for every type where a topic is made.
    ghost keeps_key: { KeepsKey (topic_type topic) },
}

impl Described {
    /// Returns the topic of this type.
    #[tactic(auto, using(crate::proofs::KeyLaw::keeps_key))]
    pub fn new(topic: TopicType) -> Described
        ensures { result.topic ≡ topic }
    {
        let has_short_key = key_is_short(topic.types(), topic.id());
        Described {
            topic,
            has_short_key,
        }
    }

    /// Whether the topic has a key: whether the type is a struct with key members.
    pub fn has_key(&self) -> bool
        ensures { result ≡ is_keyed (topic_type self.now.topic) }
    {
        is_keyed(self.topic.types().node(self.topic.id()))
    }

    /// Returns the value that a body begins with: a copy of its octets, which is all the memory
    /// that is taken. `kind` is the encapsulation kind (DDSI-RTPS 10.2). Octets that follow the
    /// value are left out.
    ///
    /// `Encapsulation` if the kind is none that [`Form::of_kind`] knows, `Malformed` if the body
    /// doesn't begin with a value of the type, and `NoMemory` if memory is refused.
    pub fn read(&self, alloc: Global, kind: u16, body: &[u8]) -> Result<DynamicData, CatalogError>
        ensures found { IfOk result
            (λ d. IsKept (topic_type self.now.topic) kind body.now (kept d)) }
        ensures only { (k : Kept) → IsKept (topic_type self.now.topic) kind body.now k
            → Gives kept result (Ok k) }
        ensures other { IsErrOf result (errors.Unread unread.Encapsulation) ↔ (form_of kind ≡ None) }
        ensures meaning { Gives kept result
            (body_kept (topic_type self.now.topic) kind body.now) }
    {
        let Some(form) = Form::of_kind(kind) else {
            return Err(CatalogError::Unread(Unread::Encapsulation));
        };
        match self.topic.look_through(kind, body) {
            Ok(count) => {
                let (front, _) = body.split_at(count);
                Ok(DynamicData {
                    body: Vec::from_slice(alloc, front)?,
                    form,
                })
            }
            Err(_) => Err(CatalogError::Unread(Unread::Malformed)),
        }
    }

    /// Returns the octets of the key of the value that octets begin with, in version 1 and a byte
    /// order (DDS-XTypes 7.6.8). `Malformed` if they begin with no value of the type.
    fn found_key(
        &self,
        alloc: Global,
        order: Endian,
        form: Form,
        octets: &[u8],
    ) -> Result<Vec<u8>, CatalogError>
        ensures { let k : Kept = record { form = form; octets = octets.now } in
            Gives (λ v. v.items) result (value_key (topic_type self.now.topic) order k) }
    {
        let mut copier = Copier::new(alloc, octets, form.endian, order);
        match copy_topic_key(
            self.topic.types(),
            self.topic.id(),
            form.version,
            &mut copier,
        ) {
            Ok(()) => Ok(copier.finish()),
            Err(error) => Err(error),
        }
    }

    /// Returns the octets of the key of the least value, in version 1 and a byte order. All of that
    /// value is written first, and takes its memory.
    fn least_key(&self, alloc: Global, order: Endian) -> Result<Vec<u8>, AllocError>
        ensures { let t = topic_type self.now.topic in
            IfOk result (λ v. v.items ≡ written (key_type t) 0 order (key_of t (least t))) }
    {
        let octets = least_octets(alloc, self.topic.types(), self.topic.id())?;
        let form = Form {
            version: Version::One,
            endian: Endian::Little,
        };
        match self.found_key(alloc, order, form, octets.as_slice()) {
            Ok(key) => Ok(key),
            // The least value is a value of the type, so memory was refused.
            Err(_) => Err(AllocError),
        }
    }

    /// Returns the octets of the key of a value in version 1 and a byte order (DDS-XTypes 7.6.8):
    /// little-endian, they are the body of a key payload of kind 1; big-endian, a key hash is made
    /// of them (DDSI-RTPS 9.6.4.8). None if the type has no key members. A value that is none of
    /// the type has the key of the least value.
    pub(crate) fn key_octets(
        &self,
        alloc: Global,
        order: Endian,
        value: &DynamicData,
    ) -> Result<Vec<u8>, AllocError>
        ensures { IfOk result (λ v. v.items
            ≡ kept_octets (topic_type self.now.topic) order (kept value.now)) }
    {
        match self.found_key(alloc, order, value.form(), value.octets()) {
            Ok(key) => Ok(key),
            Err(CatalogError::NoMemory) => Err(AllocError),
            Err(CatalogError::Unread(_)) => self.least_key(alloc, order),
        }
    }

    /// Returns the octets of the key in the body of a key payload, in version 1 and a byte order.
    /// `kind` is the encapsulation kind.
    ///
    /// `Encapsulation` if the kind is none that [`Form::of_kind`] knows, `Malformed` if the body
    /// doesn't begin with a key of the type, and `NoMemory` if memory is refused.
    pub(crate) fn payload_key_octets(
        &self,
        alloc: Global,
        order: Endian,
        kind: u16,
        body: &[u8],
    ) -> Result<Vec<u8>, CatalogError>
        ensures { Gives (λ v. v.items) result
            (payload_key (topic_type self.now.topic) order kind body.now) }
    {
        let Some(form) = Form::of_kind(kind) else {
            return Err(CatalogError::Unread(Unread::Encapsulation));
        };
        let mut copier = Copier::new(alloc, body, form.endian, order);
        match copy_payload_key(
            self.topic.types(),
            self.topic.id(),
            form.version,
            &mut copier,
        ) {
            Ok(()) => Ok(copier.finish()),
            Err(error) => Err(error),
        }
    }
}
