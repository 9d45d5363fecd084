//! Reading values one after another.

ghost use Rattle.std.specs.Prelude.{◌≡◌, ◌≤◌, length, IfOk};
ghost use Rattle.std.specs.Int.{w8, w16, w32, w64};
ghost use Rattle.rtps_cdr.specs.Cdr.{Unsigned, Signed, Boolean, Text, Octets, Sequence};
ghost use Rattle.rtps_cdr.specs.Reading.{Cursor, Reads, start, value_of, moved, number_in, signed_in, bool_in, text_in, texts_in, octets_in, seen};

use crate::strings::strings_at;
use crate::value::{bool_at, octet_at, octets_at, text_at, u16_at, u32_at, u64_at};
use crate::{CdrFault, Strings};
use rtps_types::Endian;
use std::marker::Model;

/// Reads values from borrowed octets.
///
/// Alignment counts from the first octet, and padding may have any octets. Each read moves the
/// reader after its value; after a fault the reader is where it was. Nothing is copied, and no
/// memory is taken.
///
/// A read fails with `Short` if the octets end before the value does, or within the padding before
/// it. Other faults are reported by the read that finds them.
#[derive(Drop)]
pub struct CdrReader<'a> {
    octets: &'a [u8],
    endian: Endian,
    position: usize,
}

impl<'a> Model for CdrReader<'a> {
    ghost Value = { Cursor };

    ghost view = { λ r. record {
      octets = r.octets.now;
      endian = r.endian;
      position = r.position;
    } };

    ghost invariant = { λ r. r.position ≤ length r.octets.now };
}

impl<'a> CdrReader<'a> {
    /// Returns a reader at the first octet, from which alignment counts. `endian` is the byte order
    /// of every number that it reads.
    pub fn new(octets: &'a [u8], endian: Endian) -> CdrReader<'a>
        ensures { result ≡ start endian octets.entry.now }
    {
        CdrReader {
            octets,
            endian,
            position: 0,
        }
    }

    /// Returns the number of octets before the reader, with padding.
    pub fn position(&self) -> usize
        ensures { result ≡ self.now.position }
    {
        self.position
    }

    /// Moves to the end of the value that was read; after a fault the reader stays where it is.
    fn settle<T>(&mut self, read: Result<(T, usize), CdrFault>) -> Result<T, CdrFault>
        requires { IfOk read (λ r. r.1 ≤ length self.old.octets) }
        ensures value { result ≡ value_of read }
        ensures moves { self.new ≡ moved self.old read }
    {
        match read {
            Ok((x, after)) => {
                self.position = after;
                Ok(x)
            }
            Err(fault) => Err(fault),
        }
    }

    /// Reads an unsigned number of 8 bits. `Short` if no octet is left.
    pub fn read_u8(&mut self) -> Result<u8, CdrFault>
        ensures value { result ≡ value_of (number_in 1 self.old) }
        ensures moves { self.new ≡ moved self.old (number_in 1 self.old) }
        ensures reads { Reads (Unsigned 1) self.old self.new result }
    {
        let read = octet_at(self.octets, self.position);
        self.settle(read)
    }

    /// Reads a signed number of 8 bits.
    pub fn read_i8(&mut self) -> Result<i8, CdrFault>
        ensures value { result ≡ value_of (signed_in w8 self.old) }
        ensures moves { self.new ≡ moved self.old (signed_in w8 self.old) }
        ensures reads { Reads (Signed w8) self.old self.new result }
    {
        match self.read_u8() {
            Ok(x) => Ok(x.cast_signed()),
            Err(fault) => Err(fault),
        }
    }

    /// Reads an unsigned number of 16 bits, aligned to 2 octets (CORBA CDR 9.3.1.1).
    pub fn read_u16(&mut self) -> Result<u16, CdrFault>
        ensures value { result ≡ value_of (number_in 2 self.old) }
        ensures moves { self.new ≡ moved self.old (number_in 2 self.old) }
        ensures reads { Reads (Unsigned 2) self.old self.new result }
    {
        let read = u16_at(self.octets, self.position, self.endian);
        self.settle(read)
    }

    /// Reads a signed number of 16 bits, aligned to 2 octets.
    pub fn read_i16(&mut self) -> Result<i16, CdrFault>
        ensures value { result ≡ value_of (signed_in w16 self.old) }
        ensures moves { self.new ≡ moved self.old (signed_in w16 self.old) }
        ensures reads { Reads (Signed w16) self.old self.new result }
    {
        match self.read_u16() {
            Ok(x) => Ok(x.cast_signed()),
            Err(fault) => Err(fault),
        }
    }

    /// Reads an unsigned number of 32 bits, aligned to 4 octets (CORBA CDR 9.3.1.1).
    pub fn read_u32(&mut self) -> Result<u32, CdrFault>
        ensures value { result ≡ value_of (number_in 4 self.old) }
        ensures moves { self.new ≡ moved self.old (number_in 4 self.old) }
        ensures reads { Reads (Unsigned 4) self.old self.new result }
    {
        let read = u32_at(self.octets, self.position, self.endian);
        self.settle(read)
    }

    /// Reads a signed number of 32 bits, aligned to 4 octets.
    pub fn read_i32(&mut self) -> Result<i32, CdrFault>
        ensures value { result ≡ value_of (signed_in w32 self.old) }
        ensures moves { self.new ≡ moved self.old (signed_in w32 self.old) }
        ensures reads { Reads (Signed w32) self.old self.new result }
    {
        match self.read_u32() {
            Ok(x) => Ok(x.cast_signed()),
            Err(fault) => Err(fault),
        }
    }

    /// Reads an unsigned number of 64 bits, aligned to 8 octets (CORBA CDR 9.3.1.1).
    pub fn read_u64(&mut self) -> Result<u64, CdrFault>
        ensures value { result ≡ value_of (number_in 8 self.old) }
        ensures moves { self.new ≡ moved self.old (number_in 8 self.old) }
        ensures reads { Reads (Unsigned 8) self.old self.new result }
    {
        let read = u64_at(self.octets, self.position, self.endian);
        self.settle(read)
    }

    /// Reads a signed number of 64 bits, aligned to 8 octets.
    pub fn read_i64(&mut self) -> Result<i64, CdrFault>
        ensures value { result ≡ value_of (signed_in w64 self.old) }
        ensures moves { self.new ≡ moved self.old (signed_in w64 self.old) }
        ensures reads { Reads (Signed w64) self.old self.new result }
    {
        match self.read_u64() {
            Ok(x) => Ok(x.cast_signed()),
            Err(fault) => Err(fault),
        }
    }

    /// Reads a boolean. `BadBool` if its octet is neither 0 nor 1 (CORBA CDR 9.3.1.5).
    pub fn read_bool(&mut self) -> Result<bool, CdrFault>
        ensures value { result ≡ value_of (bool_in self.old) }
        ensures moves { self.new ≡ moved self.old (bool_in self.old) }
        ensures reads { Reads Boolean self.old self.new result }
    {
        let read = bool_at(self.octets, self.position);
        self.settle(read)
    }

    /// Reads the number of items of a sequence, aligned to 4 octets (CORBA CDR 9.3.2.5). It is not
    /// compared with the number of octets left.
    pub fn read_len(&mut self) -> Result<u32, CdrFault>
        ensures value { result ≡ value_of (number_in 4 self.old) }
        ensures moves { self.new ≡ moved self.old (number_in 4 self.old) }
        ensures reads { Reads (Unsigned 4) self.old self.new result }
    {
        self.read_u32()
    }

    /// Reads a string, and returns it without its NUL (CORBA CDR 9.3.2.7).
    ///
    /// The length counts the NUL. A length of 0, without a NUL, is accepted as the empty string,
    /// since some serializers write it so. `BadString` if the last octet is not NUL, else `NotUtf8`
    /// if the others are not UTF-8. A NUL among them is accepted.
    #[tactic(auto, using(crate::proofs::Related::seen_value, crate::proofs::Related::seen_moved))]
    pub fn read_string(&mut self) -> Result<&'a str, CdrFault>
        ensures value { seen result ≡ value_of (text_in self.old) }
        ensures moves { self.new ≡ moved self.old (text_in self.old) }
        ensures reads { Reads Text self.old self.new (seen result) }
    {
        let read = text_at(self.octets, self.position, self.endian);
        self.settle(read)
    }

    /// Reads a sequence of strings (CORBA CDR 9.3.2.5).
    ///
    /// All of them are checked here, in order; the first fault is that of the sequence.
    pub fn read_strings(&mut self) -> Result<Strings<'a>, CdrFault>
        ensures value { result ≡ value_of (texts_in self.old) }
        ensures moves { self.new ≡ moved self.old (texts_in self.old) }
        ensures reads { Reads (Sequence Text) self.old self.new result }
    {
        let read = strings_at(self.octets, self.position, self.endian);
        self.settle(read)
    }

    /// Reads `count` octets as they are, without padding before them. `Short` if fewer are left.
    #[tactic(auto, using(crate::proofs::Related::seen_value, crate::proofs::Related::seen_moved))]
    pub fn read_octets(&mut self, count: usize) -> Result<&'a [u8], CdrFault>
        ensures value { seen result ≡ value_of (octets_in count self.old) }
        ensures moves { self.new ≡ moved self.old (octets_in count self.old) }
        ensures reads { Reads (Octets count) self.old self.new (seen result) }
    {
        let read = octets_at(self.octets, self.position, count);
        self.settle(read)
    }
}
