//! Types that can be part of a key.

ghost use Rattle.std.specs.Prelude.{◌≡◌, OnOk};
ghost use Rattle.rtps_cdr.specs.declared.fault.CdrFault.{CdrFault};
ghost use Rattle.rtps_cdr.specs.Writing.{appended};
ghost use Rattle.dds_topic.specs.Answer.{Gives};
ghost use Rattle.dds_struct.specs.Value.{value};
ghost use Rattle.dds_struct.specs.Decoded.{copied};

use crate::{Member, Text};
use dds_topic::CatalogError;
use rtps_cdr::{CdrReader, CdrWriter};
use std::alloc::{AllocError, Allocator, Global};

/// A type whose values can be written to a CDR writer (CORBA CDR 9.3).
pub trait KeyMember: Member {
    /// Writes the value. If memory runs out, a part of it may be written.
    fn write<A: Allocator>(&self, writer: &mut CdrWriter<A>) -> Result<(), AllocError>
        ensures { OnOk result (writer.new
            ≡ appended Self.cdr (Self.view self.now) writer.old) };
}

impl KeyMember for u8 {
    fn write<A: Allocator>(&self, writer: &mut CdrWriter<A>) -> Result<(), AllocError> {
        writer.write_u8(*self)
    }
}

impl KeyMember for u16 {
    fn write<A: Allocator>(&self, writer: &mut CdrWriter<A>) -> Result<(), AllocError> {
        writer.write_u16(*self)
    }
}

impl KeyMember for u32 {
    fn write<A: Allocator>(&self, writer: &mut CdrWriter<A>) -> Result<(), AllocError> {
        writer.write_u32(*self)
    }
}

impl KeyMember for u64 {
    fn write<A: Allocator>(&self, writer: &mut CdrWriter<A>) -> Result<(), AllocError> {
        writer.write_u64(*self)
    }
}

impl KeyMember for i8 {
    fn write<A: Allocator>(&self, writer: &mut CdrWriter<A>) -> Result<(), AllocError> {
        writer.write_i8(*self)
    }
}

impl KeyMember for i16 {
    fn write<A: Allocator>(&self, writer: &mut CdrWriter<A>) -> Result<(), AllocError> {
        writer.write_i16(*self)
    }
}

impl KeyMember for i32 {
    fn write<A: Allocator>(&self, writer: &mut CdrWriter<A>) -> Result<(), AllocError> {
        writer.write_i32(*self)
    }
}

impl KeyMember for i64 {
    fn write<A: Allocator>(&self, writer: &mut CdrWriter<A>) -> Result<(), AllocError> {
        writer.write_i64(*self)
    }
}

impl KeyMember for bool {
    fn write<A: Allocator>(&self, writer: &mut CdrWriter<A>) -> Result<(), AllocError> {
        writer.write_bool(*self)
    }
}

impl KeyMember for Text {
    fn write<A: Allocator>(&self, writer: &mut CdrWriter<A>) -> Result<(), AllocError> {
        writer.write_string(self.as_str())
    }
}

impl<S: KeyMember, T: KeyMember> KeyMember for (S, T) {
    fn write<A: Allocator>(&self, writer: &mut CdrWriter<A>) -> Result<(), AllocError> {
        self.0.write(writer)?;
        self.1.write(writer)
    }
}

/// Reads a value of a type, and writes it.
///
/// The error is `Unread::Malformed` if there is no value of the type, and then nothing is written.
pub fn copy_member<K: KeyMember, A: Allocator>(
    alloc: Global,
    reader: &mut CdrReader<'_>,
    writer: &mut CdrWriter<A>,
) -> Result<(), CatalogError>
    ensures copied { Gives (λ _. writer.new) result
        (copied K.cdr (value K.cdr reader.old) writer.old) }
    ensures unwritten { (fault : CdrFault) → value K.cdr reader.old ≡ Err fault
        → writer.new ≡ writer.old }
{
    let read = K::read(alloc, reader)?;
    Ok(read.write(writer)?)
}
