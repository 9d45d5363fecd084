//! The type of a topic.

ghost use Rattle.std.specs.Prelude.{◌↔◌, ◌≡◌, ◌<◌, length};

use crate::walk::skip;
use crate::{Form, TypeFault, TypeId, Types, XcdrFault};
use rtps_cdr::CdrReader;

/// The type of a topic: one of the types that are described.
///
/// # Example
///
/// ```
/// let topic = TopicType::new(types, pose)?; // As in the example of `Types`.
/// let used = topic.look_through(7, body.as_slice())?; // A body of kind CDR2_LE.
/// ```
#[derive(Drop)]
pub struct TopicType {
    types: Types,
    of: TypeId,
    ghost there: { of.0 < length types },
}

impl TopicType {
    ghost use Rattle.std.specs.Prelude.{◌≤◌, ℕ, None, Some, Ok, Err, IfOk, IfErr};
    ghost use Rattle.dds_xcdr.specs.declared.fault.TypeFault.TheVariants.{Unknown};
    ghost use Rattle.dds_xcdr.specs.declared.fault.XcdrFault.TheVariants.{Encapsulation};
    ghost use Rattle.dds_xcdr.specs.declared.form.Form.{Form};
    ghost use Rattle.dds_xcdr.specs.Topic.{BeginsWith, form_of};
    ghost use Rattle.dds_xcdr.specs.TopicType.{topic_type};

    /// Returns the type of these types that `of` names, with all of them. `Unknown` if it names
    /// none; the types are dropped then.
    pub fn new(types: Types, of: TypeId) -> Result<TopicType, TypeFault>
        ensures is { IfOk result (λ t. (t.types ≡ types) × (t.of ≡ of)) }
        ensures unknown { IfErr result (λ fault. (fault ≡ Unknown) × (length types ≤ of.0)) }
    {
        if types.contains(of) {
            Ok(TopicType { types, of })
        } else {
            Err(TypeFault::Unknown)
        }
    }

    /// Returns the types.
    pub fn types(&self) -> &Types
        ensures { result.now ≡ self.now.types }
    {
        &self.types
    }

    /// Returns the id of the type of the topic among its types.
    pub fn id(&self) -> TypeId
        ensures is { result ≡ self.now.of }
        ensures there { result.0 < length self.now.types }
    {
        self.of
    }

    /// Looks for a value of the type at the front of the body of a sample, and returns how many
    /// octets it takes. `kind` is the encapsulation kind (DDSI-RTPS 10.2), and the body what
    /// follows the encapsulation header. Octets may follow the value.
    ///
    /// `Encapsulation` if the kind is none that [`Form::of_kind`] knows. Otherwise `Cdr` if a
    /// number, truth value or string can't be read, `TooLong` if a string or sequence is longer
    /// than its bound, and `BadHeader` if the header of a collection counts other octets than it
    /// has. No memory is taken. Each octet is part of at most 32 values, one within the other, and
    /// each value has an octet, so a walk has at most 32 steps for each octet, and 32 more.
    pub fn look_through(&self, kind: u16, body: &[u8]) -> Result<usize, XcdrFault>
        ensures found { IfOk result (λ n. (f : Form)
            × ((form_of kind ≡ Some f) × BeginsWith (topic_type self.now) f body.now n)) }
        ensures only { (f : Form) (n : ℕ) → form_of kind ≡ Some f
            → BeginsWith (topic_type self.now) f body.now n → result ≡ Ok n }
        ensures other { (form_of kind ≡ None) ↔ (result ≡ Err Encapsulation) }
    {
        let Some(form) = Form::of_kind(kind) else {
            return Err(XcdrFault::Encapsulation);
        };
        let mut reader = CdrReader::new(body, form.endian);
        match skip(&self.types, self.of, form.version, &mut reader) {
            Ok(()) => Ok(reader.position()),
            Err(fault) => Err(fault),
        }
    }
}
