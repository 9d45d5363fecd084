//! Reading the values of described types.

ghost use Rattle.std.specs.Prelude.{◌≡◌, ◌<◌, ◌^◌, OnOk, IfOk, length};
ghost use Rattle.rtps_cdr.specs.Reading.{Cursor, bool_in, number_in, start, text_in};
ghost use Rattle.dds_topic.specs.Answer.{Gives};
ghost use Rattle.dds_xcdr.specs.Spans.{IsSize};
ghost use Rattle.dds_xcdr.specs.Types.{type_in, types_of};
ghost use Rattle.dds_xcdr.specs.Xcdr.{alignment};
ghost use Rattle.dds_described.specs.Reading.{found, number_found, value_found};
ghost use Rattle.dds_described.specs.Copying.{behind, passed, value_in};

use dds_topic::{CatalogError, Unread};
use dds_xcdr::{TypeId, Types, Version, skip};
use rtps_cdr::CdrReader;
use rtps_types::{Endian, get_u64};
use std::marker::Model;

/// Reads values one after another. What isn't there is `Malformed`, and then nothing is said of
/// where the source is.
#[derive(Drop)]
pub(crate) struct Source<'a> {
    reader: CdrReader<'a>,
    endian: Endian,
}

impl<'a> Model for Source<'a> {
    ghost use Rattle.rtps_cdr.specs.Reading.{Cursor};
    ghost use Rattle.dds_described.specs.Reading.{IsWithin};

    ghost Value = { Cursor };

    ghost view = { λ s. s.reader };

    ghost invariant = { λ s. IsWithin s.endian s.reader };
}

impl<'a> Source<'a> {
    /// Returns a source at the first octet, from which alignment counts.
    pub(crate) fn new(octets: &'a [u8], endian: Endian) -> Source<'a>
        ensures { result ≡ start endian octets.entry.now }
    {
        Source {
            reader: CdrReader::new(octets, endian),
            endian,
        }
    }

    /// Returns the number of octets before the source.
    pub(crate) fn position(&self) -> usize
        ensures { result ≡ self.now.position }
    {
        self.reader.position()
    }

    /// Reads a number of 8 octets, which has an alignment of 4 in version 2.
    fn read_long(&mut self, version: Version) -> Result<u64, CatalogError>
        ensures value { Gives (λ n. n) result
            (value_in (number_found (alignment version 8) 8 self.old)) }
        ensures moves { OnOk result
            (self.new ≡ behind self.old (number_found (alignment version 8) 8 self.old)) }
    {
        match version {
            Version::One => Ok(self.reader.read_u64()?),
            Version::Two => {
                let gap = (4 - self.reader.position() % 4) % 4;
                self.reader.read_octets(gap)?;
                let octets = self.reader.read_octets(8)?;
                match get_u64(octets, 0, self.endian) {
                    Some(n) => Ok(n),
                    None => Err(CatalogError::Unread(Unread::Malformed)),
                }
            }
        }
    }

    /// Reads a number of `size` octets.
    pub(crate) fn read_number(&mut self, version: Version, size: usize) -> Result<u64, CatalogError>
        requires { IsSize size }
        ensures value { Gives (λ n. n) result
            (value_in (number_found (alignment version size) size self.old)) }
        ensures moves { OnOk result
            (self.new ≡ behind self.old (number_found (alignment version size) size self.old)) }
        ensures fits { IfOk result (λ n. n < 256 ^ size) }
    {
        match size {
            1 => Ok(u64::from(self.reader.read_u8()?)),
            2 => Ok(u64::from(self.reader.read_u16()?)),
            4 => Ok(u64::from(self.reader.read_u32()?)),
            _ => self.read_long(version),
        }
    }

    /// Reads a truth value.
    pub(crate) fn read_bool(&mut self) -> Result<bool, CatalogError>
        ensures value { Gives (λ b. b) result (value_in (found (bool_in self.old))) }
        ensures moves { OnOk result (self.new ≡ behind self.old (found (bool_in self.old))) }
    {
        Ok(self.reader.read_bool()?)
    }

    /// Reads a string.
    pub(crate) fn read_text(&mut self) -> Result<&'a str, CatalogError>
        ensures value { Gives (λ text. text.now) result (value_in (found (text_in self.old))) }
        ensures moves { OnOk result (self.new ≡ behind self.old (found (text_in self.old))) }
    {
        Ok(self.reader.read_string()?)
    }

    /// Reads a number of 32 bits that counts items or octets.
    pub(crate) fn read_count(&mut self) -> Result<u32, CatalogError>
        ensures value { Gives (λ n. n) result (value_in (found (number_in 4 self.old))) }
        ensures moves { OnOk result (self.new ≡ behind self.old (found (number_in 4 self.old))) }
    {
        Ok(self.reader.read_u32()?)
    }

    /// Passes over a value of a type.
    pub(crate) fn pass(
        &mut self,
        types: &Types,
        of: TypeId,
        version: Version,
    ) -> Result<(), CatalogError>
        requires { of.0 < length types.now }
        ensures { Gives (λ _. self.new) result (passed self.old
            (value_found version (type_in (types_of types.now) of) self.old)) }
    {
        match skip(types, of, version, &mut self.reader) {
            Ok(()) => Ok(()),
            Err(_) => {
                self.reader = CdrReader::new(&[], self.endian);
                Err(CatalogError::Unread(Unread::Malformed))
            }
        }
    }
}
