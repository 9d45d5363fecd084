//! Laws about the representation. Each is an empty function whose contract is the law.

ghost use Rattle.std.specs.Prelude.{List, ℕ};
ghost use Rattle.rtps_types.specs.declared.field.Endian.{Endian};
ghost use Rattle.rtps_cdr.specs.Statements.{PaddingIsLeast, MembersAreStruct, StructIsMembers, ItemsAreSequence, SequenceIsItems, ItemsWriteSequence, WrittenIsReadAgain, EachIsReadAgain};

/// The padding before a primitive is the least that brings it to a multiple of its size.
pub fn padding_is_the_least_gap()
    ensures { PaddingIsLeast }
{}

/// A struct is encoded as its members, one after another, and in no other way.
pub fn a_struct_is_its_members()
    ensures joined { MembersAreStruct }
    ensures parted { StructIsMembers }
{}

/// A sequence is encoded as a count and that number of items, and in no other way. This holds for
/// reading and for writing.
pub fn a_sequence_is_its_items()
    ensures joined { ItemsAreSequence }
    ensures parted { SequenceIsItems }
    ensures written { ItemsWriteSequence }
{}

/// A value that was written is read as the same value, by each read here and by any other that
/// follows the representation.
pub fn what_is_written_is_read_again()
    ensures any { WrittenIsReadAgain }
    ensures each { (front rest : List ℕ) (e : Endian) → EachIsReadAgain front rest e }
{}
