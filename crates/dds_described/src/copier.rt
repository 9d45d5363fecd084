//! Copying values of described types from one representation to another.

ghost use Rattle.std.specs.Prelude.{◌≡◌, ◌<◌, ◌^◌, ◌↔◌, IsTrue, ◌+◌, OnOk, IfOk, [], Some, length};
ghost use Rattle.rtps_cdr.specs.Reading.{number_in, start};
ghost use Rattle.rtps_cdr.specs.Writing.{number_written};
ghost use Rattle.dds_topic.specs.Answer.{Gives};
ghost use Rattle.dds_xcdr.specs.declared.version.Version.{Version};
ghost use Rattle.dds_xcdr.specs.Spans.{IsSize};
ghost use Rattle.dds_xcdr.specs.Types.{plain, type_in, types_of};
ghost use Rattle.dds_xcdr.specs.Xtype.{Xtype, Text, Truth, number_size};
ghost use Rattle.dds_described.specs.Copying.{behind, copied, moves, value_in};
ghost use Rattle.dds_described.specs.Reading.{found, is_within, value_found};
ghost use Rattle.dds_described.specs.Writing.{put};

use crate::source::Source;
use dds_topic::{CatalogError, Unread};
use dds_xcdr::{Primitive, TypeId, Types, Version};
use rtps_cdr::CdrWriter;
use rtps_types::Endian;
use std::alloc::{AllocError, Global};
use std::marker::Model;

/// What copies values: where they are read, and where they are written in version 1.
#[derive(Drop)]
pub(crate) struct Copier<'a> {
    source: Source<'a>,
    writer: CdrWriter,
}

impl<'a> Model for Copier<'a> {
    ghost use Rattle.dds_described.specs.Copying.{Copy};

    ghost Value = { Copy };

    ghost view = { λ c. record { reader = c.source; writer = c.writer } };
}

/// The least length of a string that can't be counted in 32 bits, with its NUL.
const TOO_LONG: usize = 0xffff_ffff;

/// Writes a number of `size` octets.
pub(crate) fn write_number(size: usize, n: u64, writer: &mut CdrWriter) -> Result<(), AllocError>
    requires size { IsSize size }
    requires fits { n < 256 ^ size }
    ensures { OnOk result (writer.new ≡ put (λ at e. number_written size at e n) writer.old) }
{
    match size {
        1 => writer.write_u8(n as u8),
        2 => writer.write_u16(n as u16),
        4 => writer.write_u32(n as u32),
        _ => writer.write_u64(n),
    }
}

/// Whether a length is within a bound, of which 0 is none.
pub(crate) fn is_within(bound: u32, count: usize) -> bool
    ensures { result ≡ is_within bound count }
{
    bound == 0 || count <= bound as usize
}

/// Whether a position is `count` octets after a start.
pub(crate) fn is_behind(start: usize, count: u32, end: usize) -> bool
    ensures { IsTrue result ↔ (end ≡ start + count) }
{
    start <= end && end - start == count as usize
}

impl<'a> Copier<'a> {
    /// Returns what copies from these octets, in this byte order, to the other order's octets.
    pub(crate) fn new(alloc: Global, octets: &'a [u8], from: Endian, to: Endian) -> Copier<'a>
        ensures { result ≡ record {
          reader = start from octets.entry.now;
          writer = record { octets = []; endian = to };
        } }
    {
        Copier {
            source: Source::new(octets, from),
            writer: CdrWriter::new(alloc, to),
        }
    }

    /// Returns the octets that were written.
    pub(crate) fn finish(self) -> Vec<u8>
        ensures { result.items ≡ self.entry.writer.octets }
    {
        self.writer.finish()
    }

    /// Copies a number of `size` octets.
    pub(crate) fn copy_number(&mut self, version: Version, size: usize) -> Result<(), CatalogError>
        requires { IsSize size }
        ensures { (t : Xtype) → number_size t ≡ Some size
            → Gives (λ _. self.new) result (copied version t self.old) }
    {
        match self.source.read_number(version, size) {
            Ok(n) => Ok(write_number(size, n, &mut self.writer)?),
            Err(error) => Err(error),
        }
    }

    /// Copies a truth value.
    pub(crate) fn copy_bool(&mut self) -> Result<(), CatalogError>
        ensures { (v : Version) → Gives (λ _. self.new) result (copied v Truth self.old) }
    {
        let truth = self.source.read_bool()?;
        self.writer.write_bool(truth)?;
        Ok(())
    }

    /// Copies a string.
    pub(crate) fn copy_text(&mut self, bound: u32) -> Result<(), CatalogError>
        ensures { (v : Version) → Gives (λ _. self.new) result (copied v (Text bound) self.old) }
    {
        let text = self.source.read_text()?;
        if !is_within(bound, text.len()) {
            return Err(CatalogError::Unread(Unread::Malformed));
        }
        // It was counted in 32 bits where it was read.
        if text.len() >= TOO_LONG {
            return Err(CatalogError::NoMemory);
        }
        self.writer.write_string(text)?;
        Ok(())
    }

    /// Copies a value of a primitive type.
    pub(crate) fn copy_plain(&mut self, of: Primitive, version: Version) -> Result<(), CatalogError>
        ensures { Gives (λ _. self.new) result (copied version (plain of) self.old) }
    {
        match of.number_size() {
            Some(size) => self.copy_number(version, size),
            None => self.copy_bool(),
        }
    }

    /// Returns the number of octets before the reader.
    pub(crate) fn position(&self) -> usize
        ensures { result ≡ self.now.reader.position }
    {
        self.source.position()
    }

    /// Reads a number of 32 bits that counts octets, and writes nothing.
    pub(crate) fn read_count(&mut self) -> Result<u32, CatalogError>
        ensures value { Gives (λ n. n) result (value_in (found (number_in 4 self.old.reader))) }
        ensures moves { OnOk result (self.new ≡ record {
          reader = behind self.old.reader (found (number_in 4 self.old.reader));
          writer = self.old.writer;
        }) }
    {
        self.source.read_count()
    }

    /// Copies a number of 32 bits that counts items.
    pub(crate) fn copy_count(&mut self) -> Result<u32, CatalogError>
        ensures value { Gives (λ n. n) result (value_in (found (number_in 4 self.old.reader))) }
        ensures moves { IfOk result (λ n. self.new ≡ record {
          reader = behind self.old.reader (found (number_in 4 self.old.reader));
          writer = put (λ at e. number_written 4 at e n) self.old.writer;
        }) }
    {
        match self.source.read_count() {
            Ok(count) => {
                self.writer.write_len(count)?;
                Ok(count)
            }
            Err(error) => Err(error),
        }
    }

    /// Passes over a value of a type, and writes nothing.
    pub(crate) fn pass(
        &mut self,
        types: &Types,
        of: TypeId,
        version: Version,
    ) -> Result<(), CatalogError>
        requires { of.0 < length types.now }
        ensures { Gives (λ _. self.new) result (moves
            (λ c. value_found version (type_in (types_of types.now) of) c) (λ at e x. []) self.old) }
    {
        self.source.pass(types, of, version)
    }
}
