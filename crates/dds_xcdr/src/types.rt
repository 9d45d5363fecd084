//! Types that are described one after another.

ghost use Rattle.std.specs.Prelude.{◌≡◌, ◌≤◌, ◌<◌, ◌↔◌, IsTrue, IfOk, IfErr, length, []};
ghost use Rattle.dds_xcdr.specs.Types.{IsEmpty, NamesBelow};

use crate::node::Entry;
use crate::{Case, Dimensions, Member, Node, Primitive, TypeFault, TypeId};
use std::alloc::Global;
use std::marker::Model;

/// The greatest number of types that a type goes through, from one to its members or items. It
/// bounds the stack of a walk.
const MOST_DEPTH: u32 = 32;

/// The greatest number of types.
const MOST_TYPES: usize = 65_536;

/// Types, each of which is described by those before it. So no type contains itself, and a type
/// that several others name is described once.
///
/// Names are kept as they are given: that those of members differ is for the caller to see to.
///
/// # Example
///
/// ```
/// // struct Pose { @key string<8> frame; double at[3]; };
/// let mut types = Types::new(alloc);
/// let frame = types.text(8)?;
/// let double = types.primitive(Primitive::Double)?;
/// let at = types.array(double, Dimensions::new(vec![in alloc; 3]?)?)?;
/// let members = vec![in alloc;
///     Member { name: String::from_str(alloc, "frame")?, of: frame, is_key: true },
///     Member { name: String::from_str(alloc, "at")?, of: at, is_key: false },
/// ]?;
/// let pose = types.structure(members)?;
/// ```
#[derive(Drop)]
pub struct Types {
    entries: Vec<Entry>,
}

impl Model for Types {
    ghost use Rattle.std.specs.Prelude.{List};
    ghost use Rattle.dds_xcdr.specs.declared.node.Node.{Node};
    ghost use Rattle.dds_xcdr.specs.Types.{AreKept, nodes_of};

    ghost Value = { List Node };

    ghost view = { λ t. nodes_of t.entries.items };

    ghost invariant = { λ t. AreKept t.entries.items };
}

/// Whether a description names only types before a place.
fn names_below(node: &Node, at: usize) -> bool
    ensures { IsTrue result ↔ NamesBelow at node.now }
{
    match node {
        Node::Sequence(item, _) | Node::Array(item, _) => (item.0 as usize) < at,
        Node::Struct(members) => members.iter().all(|member| (member.of.0 as usize) < at),
        Node::Plain(_) | Node::Enum(_) | Node::Text(_) => true,
    }
}

/// Whether a description is of an enumeration without values or a struct without members.
fn is_empty(node: &Node) -> bool
    ensures { IsTrue result ↔ IsEmpty node.now }
{
    match node {
        Node::Enum(cases) => cases.is_empty(),
        Node::Struct(members) => members.is_empty(),
        _ => false,
    }
}

impl Types {
    ghost use Rattle.dds_xcdr.specs.declared.node.Node.{Node};
    ghost use Rattle.dds_xcdr.specs.declared.node.Node.TheVariants as node;
    ghost use Rattle.dds_xcdr.specs.Xtype.{depth, deepest};
    ghost use Rattle.dds_xcdr.specs.Types.{Adds, Refuses, fields_in, meant, type_in, types_of};

    /// Returns no types. `alloc` is where they will be kept.
    pub fn new(alloc: Global) -> Types
        ensures { result ≡ [] }
    {
        Types {
            entries: Vec::new(alloc),
        }
    }

    /// Whether an id names one of these types.
    pub fn contains(&self, id: TypeId) -> bool
        ensures { IsTrue result ↔ (id.0 < length self.now) }
    {
        (id.0 as usize) < self.entries.len()
    }

    /// Returns how many types the type of an id goes through.
    fn depth_of(&self, id: TypeId) -> u32
        ensures value { result ≡ depth (type_in (types_of self.now) id) }
        ensures bounded { result ≤ 32 }
    {
        match self.entries.get(id.0 as usize) {
            Some(entry) => entry.depth,
            None => 1,
        }
    }

    /// Returns how many types the types of members go through, at most.
    fn deepest(&self, members: &[Member]) -> u32
        ensures value { result ≡ deepest (fields_in (types_of self.now) members.now) }
        ensures bounded { result ≤ 32 }
    {
        let mut most = 0;
        'members: for member in members {
            most = most.max(self.depth_of(member.of));
        }
        most
    }

    /// Returns how many types a description goes through.
    fn depth(&self, node: &Node) -> u32
        ensures value { result ≡ depth (meant (types_of self.now) node.now) }
        ensures bounded { result ≤ 33 }
    {
        match node {
            Node::Plain(_) | Node::Enum(_) | Node::Text(_) => 1,
            Node::Sequence(item, _) | Node::Array(item, _) => self.depth_of(*item) + 1,
            Node::Struct(members) => self.deepest(members.as_slice()) + 1,
        }
    }

    /// Adds a description.
    fn add(&mut self, node: Node) -> Result<TypeId, TypeFault>
        ensures ok { IfOk result (λ id. Adds node id self.old self.new) }
        ensures err { IfErr result
            (λ fault. Refuses node fault self.old × (self.new ≡ self.old)) }
    {
        if !names_below(&node, self.entries.len()) {
            return Err(TypeFault::Unknown);
        }
        if is_empty(&node) {
            return Err(TypeFault::NoMembers);
        }
        let depth = self.depth(&node);
        if depth > MOST_DEPTH {
            return Err(TypeFault::TooDeep);
        }
        let place = self.entries.len();
        if place >= MOST_TYPES {
            return Err(TypeFault::TooMany);
        }
        match self.entries.push(Entry { node, depth }) {
            Ok(()) => Ok(TypeId(place as u32)),
            Err(_) => Err(TypeFault::NoMemory),
        }
    }

    /// Adds a primitive type (DDS-XTypes 7.2.2.2), and returns its id.
    ///
    /// `TooMany` if there are 65,536 types already, `NoMemory` if memory is refused. After a fault
    /// the types are as before, which holds of each call here.
    pub fn primitive(&mut self, of: Primitive) -> Result<TypeId, TypeFault>
        ensures ok { IfOk result (λ id. Adds (node.Plain of) id self.old self.new) }
        ensures err { IfErr result
            (λ fault. Refuses (node.Plain of) fault self.old × (self.new ≡ self.old)) }
    {
        self.add(Node::Plain(of))
    }

    /// Adds strings of UTF-8 (DDS-XTypes 7.2.2.3), and returns their id. `bound` is the greatest
    /// number of bytes, without the NUL; 0 is no bound. `TooMany` and `NoMemory` as for
    /// [`Types::primitive`].
    pub fn text(&mut self, bound: u32) -> Result<TypeId, TypeFault>
        ensures ok { IfOk result (λ id. Adds (node.Text bound) id self.old self.new) }
        ensures err { IfErr result
            (λ fault. Refuses (node.Text bound) fault self.old × (self.new ≡ self.old)) }
    {
        self.add(Node::Text(bound))
    }

    /// Adds an enumeration of 32 bits (DDS-XTypes 7.2.2.4.1), and returns its id. A number that no
    /// case has is a value of it too, as the standard keeps such numbers.
    ///
    /// `NoMembers` if there is no case, `TooMany` and `NoMemory` as for [`Types::primitive`]; the
    /// cases are dropped then.
    pub fn enumeration(&mut self, cases: Vec<Case>) -> Result<TypeId, TypeFault>
        ensures ok { IfOk result (λ id. Adds (node.Enum cases) id self.old self.new) }
        ensures err { IfErr result
            (λ fault. Refuses (node.Enum cases) fault self.old × (self.new ≡ self.old)) }
    {
        self.add(Node::Enum(cases))
    }

    /// Adds sequences of a type (DDS-XTypes 7.2.2.4.3), and returns their id. `bound` is the
    /// greatest number of items; 0 is no bound.
    ///
    /// `Unknown` if `item` names none of these types, `TooDeep` if it goes through 32 types,
    /// `TooMany` and `NoMemory` as for [`Types::primitive`].
    pub fn sequence(&mut self, item: TypeId, bound: u32) -> Result<TypeId, TypeFault>
        ensures ok { IfOk result (λ id. Adds (node.Sequence item bound) id self.old self.new) }
        ensures err { IfErr result (λ fault. Refuses (node.Sequence item bound) fault self.old
            × (self.new ≡ self.old)) }
    {
        self.add(Node::Sequence(item, bound))
    }

    /// Adds arrays of a type (DDS-XTypes 7.2.2.4.3), and returns their id. An array of several
    /// dimensions is encoded as one of all its items.
    ///
    /// `Unknown` if `item` names none of these types, `TooDeep` if it goes through 32 types,
    /// `TooMany` and `NoMemory` as for [`Types::primitive`]; the dimensions are dropped then.
    pub fn array(&mut self, item: TypeId, dimensions: Dimensions) -> Result<TypeId, TypeFault>
        ensures ok { IfOk result (λ id. Adds (node.Array item dimensions) id self.old self.new) }
        ensures err { IfErr result (λ fault. Refuses (node.Array item dimensions) fault self.old
            × (self.new ≡ self.old)) }
    {
        self.add(Node::Array(item, dimensions))
    }

    /// Adds a struct that is final (DDS-XTypes 7.2.2.4.4), and returns its id.
    ///
    /// `Unknown` if a member's type is none of these types, `NoMembers` if there is no member,
    /// `TooDeep` if the type of one goes through 32 types, `TooMany` and `NoMemory` as for
    /// [`Types::primitive`]; the members are dropped then.
    pub fn structure(&mut self, members: Vec<Member>) -> Result<TypeId, TypeFault>
        ensures ok { IfOk result (λ id. Adds (node.Struct members) id self.old self.new) }
        ensures err { IfErr result
            (λ fault. Refuses (node.Struct members) fault self.old × (self.new ≡ self.old)) }
    {
        self.add(Node::Struct(members))
    }

    /// Returns the description of a type. The types that it names have lower places, so what goes
    /// from a type to those that it names comes to an end.
    pub fn node(&self, id: TypeId) -> &Node
        requires { id.0 < length self.now }
        ensures meant { meant (types_of self.now) result.now ≡ type_in (types_of self.now) id }
        ensures below { NamesBelow id.0 result.now }
    {
        &self.entries[id.0 as usize].node
    }
}
