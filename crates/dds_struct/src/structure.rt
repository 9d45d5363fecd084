//! Structs that are the data type of a topic.

ghost use Rattle.std.specs.Prelude.{◌≡◌, ◌++◌, ℕ, List, true, OnOk};
ghost use Rattle.std.specs.Io.{StartsWith};
ghost use Rattle.dds_topic.specs.Answer.{Gives};
ghost use Rattle.rtps_cdr.specs.Cdr.{CdrType, ValueOf};
ghost use Rattle.rtps_cdr.specs.Writing.{Fits, appended};
ghost use Rattle.dds_struct.specs.Value.{readable, value, is_plain};
ghost use Rattle.dds_struct.specs.Key.{is_short};
ghost use Rattle.dds_struct.specs.Decoded.{copied};

use dds_topic::CatalogError;
use rtps_cdr::{CdrReader, CdrWriter};
use std::alloc::{AllocError, Allocator, Global};

/// A struct that is the data type of a topic: its members, the members of the key that identifies
/// its instances, and its text.
pub trait Structure: Sized + Drop {
    // The CDR type of a value, and that of its key, as a struct of its own.
    ghost cdr: { CdrType };

    ghost key_cdr: { CdrType };

    // The meaning of a value, the part of it that is its key, and its text.
    ghost view: { Self → ValueOf cdr };

    ghost key: { ValueOf cdr → ValueOf key_cdr };

    ghost text: { ValueOf cdr → List ℕ };

    /// Reads a value, member by member.
    ///
    /// The error is `Unread::Malformed` if there is no value of the type.
    fn read(alloc: Global, reader: &mut CdrReader<'_>) -> Result<Self, CatalogError>
        ensures { Gives view result (readable (value cdr reader.old)) };

    /// Whether the maximum size of the key is at most 16 octets, so that the key hash is the key
    /// itself (DDSI-RTPS 9.6.4.8).
    fn key_is_short() -> bool
        ensures { result ≡ is_short key_cdr };

    /// Writes the value's key, member by member.
    fn write_key<A: Allocator>(&self, writer: &mut CdrWriter<A>) -> Result<(), AllocError>
        ensures { OnOk result (writer.new ≡ appended key_cdr (key (view self.now)) writer.old) };

    /// Reads a key, and writes it, as [`copy_member`](crate::copy_member) does.
    ///
    /// The error is `Unread::Malformed` if there is no key.
    fn copy_key<A: Allocator>(
        alloc: Global,
        reader: &mut CdrReader<'_>,
        writer: &mut CdrWriter<A>,
    ) -> Result<(), CatalogError>
        ensures { Gives (λ _. writer.new) result
            (copied key_cdr (value key_cdr reader.old) writer.old) };

    /// Appends the text of the value for a line of output, in ASCII and without a line end.
    fn push_text<A: Allocator>(&self, out: &mut Vec<u8, A>) -> Result<(), AllocError>
        ensures ok { OnOk result (out.new.items ≡ out.old.items ++ text (view self.now)) }
        ensures keeps { StartsWith out.new.items out.old.items };

    // No number in the key has size 0.
    ghost key_is_plain: { is_plain key_cdr ≡ true };

    // A key can be written.
    ghost key_fits: { (v : Self) → Fits key_cdr (key (view v)) };
}
