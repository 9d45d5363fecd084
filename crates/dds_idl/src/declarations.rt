//! What some texts declare.

use dds_xcdr::{TypeId, Types};
use std::alloc::{AllocError, Global};
use std::collections::{BTreeMap, BTreeSet};

/// What a name stands for.
#[derive(Clone, Copy, Debug, PartialEq, Eq)]
pub(crate) enum Meaning {
    Module,
    /// A struct whose body hasn't ended.
    Unfinished,
    Described(TypeId),
    /// A constant that is a whole number.
    Number(i64),
    /// A constant of another type, or a value of an enumeration.
    Value,
}

/// A struct whose values may be those of a topic.
#[derive(Debug, Drop)]
pub struct Topic {
    /// The full name of the struct, as `nav_msgs::msg::dds_::Odometry_`.
    pub name: String,
    /// The type.
    pub of: TypeId,
}

/// The types that texts declare, by their names.
#[derive(Drop)]
pub struct Declarations {
    pub(crate) types: Types,
    pub(crate) names: BTreeMap<String, Meaning>,
    /// The names in lower case, in which they have to differ.
    pub(crate) lowered: BTreeSet<String>,
    pub(crate) topics: Vec<Topic>,
}

impl Declarations {
    ghost use Rattle.std.specs.Prelude.{◌≡◌, ◌≢◌, ◌<◌, IfNone, IfSome, Some, length};
    ghost use Rattle.std.specs.BTreeMap.{get_by_text};
    ghost use Rattle.dds_xcdr.specs.declared.member.TypeId.{TypeId};
    ghost use Rattle.dds_idl.specs.declared.declarations.Meaning.TheVariants as meaning;

    pub(crate) fn new(alloc: Global) -> Declarations {
        Declarations {
            types: Types::new(alloc),
            names: BTreeMap::new(alloc),
            lowered: BTreeSet::new(alloc),
            topics: Vec::new(alloc),
        }
    }

    /// Returns the type of a full name, as `nav_msgs::msg::dds_::Odometry_`: of a struct, an
    /// enumeration or a typedef. `None` if no type has the name, in this case of its letters.
    pub fn find(&self, name: &str) -> Option<TypeId>
        ensures named { IfSome result
            (λ id. get_by_text self.now.names name.now ≡ Some (meaning.Described id)) }
        ensures there { IfSome result (λ id. id.0 < length self.now.types) }
        ensures other { IfNone result ((id : TypeId) → id.0 < length self.now.types
            → get_by_text self.now.names name.now ≢ Some (meaning.Described id)) }
    {
        match self.names.get(name) {
            Some(Meaning::Described(id)) if self.types.contains(*id) => Some(*id),
            _ => None,
        }
    }

    /// Returns the structs that aren't `@nested`, in order of declaration.
    pub fn topics(&self) -> &[Topic]
        ensures { result.now ≡ self.now.topics.items }
    {
        self.topics.as_slice()
    }

    /// Returns the types, among which are those that are found by name.
    pub fn types(&self) -> &Types
        ensures { result.now ≡ self.now.types }
    {
        &self.types
    }

    /// Gives the types away.
    pub fn into_types(self) -> Types
        ensures { result ≡ self.types }
    {
        self.types
    }
}
